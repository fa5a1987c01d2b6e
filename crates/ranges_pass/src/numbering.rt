// The numbers of the variables into which a unit stores, and of those that it loads before a comparison and a conditional jump, which may test them.

ghost use Rattle.std.specs.Prelude.{◌≡◌, ◌<◌, ◌++◌, ◌∷◌, [], None, length, slice_get, OnOk, IfOk};
ghost use Rattle.base_maps.specs.NameMap as map;
ghost use Rattle.ranges_pass.specs.Numbering.{range_of, Adds, HasNumberIn, is_conditional, is_conditional_step, is_comparison, is_comparison_step, may_test, IsTargetNumbered, IsArgumentNumbered, AreNumbered, IsStepNumbered, AreDeclaredOperands, IsNumberingOf};

use base_lists::Items;
use base_maps::Table;
use il_syntax::tree::{Argument, Condition, Instruction, Operator, Reference, Step};
use load_scope::UnitScope;
use ranges_interval::Interval;
use ranges_rows::Row;
use ranges_transfer::range;
use std::alloc::{AllocError, Global};

/// A number for each ranged variable that a unit stores or may test, and the declared range of each number.
pub struct Numbering {
    pub numbers: Table<usize>,
    pub declared: Items<Interval>,
}

// Written by hand, since who drops a type whose drop is derived proves the drop of each type inside again.
impl Drop for Numbering {
    fn drop(self) {
        let Numbering {
            numbers: _numbers,
            declared: _declared,
        } = self;
    }
}

impl Numbering {
    // No variable.
    fn new(alloc: Global) -> Numbering
        ensures numbers { result.numbers ≡ map.empty }
        ensures declared { result.declared ≡ [] }
    {
        Numbering {
            numbers: Table::new(alloc),
            declared: Items::new(alloc),
        }
    }

    /// The number of a variable, if it has one.
    #[inline(always)]
    pub fn number(&self, name: &str) -> Option<usize>
        ensures { result ≡ map.get self.now.numbers name.now }
    {
        self.numbers.get(name)
    }

    /// A copy of the declared ranges, by number.
    pub fn declared(&self, alloc: Global) -> Result<Row, AllocError>
        ensures { IfOk result (λ r. r ≡ self.now.declared) }
    {
        Row::of(alloc, self.declared.as_slice())
    }

    // Gives a variable the next number.
    fn push(&mut self, alloc: Global, name: &str, range: Interval) -> Result<(), AllocError>
        ensures numbers { OnOk result (self.new.numbers
            ≡ map.insert self.old.numbers name.now (length self.old.declared)) }
        ensures declared { OnOk result (self.new.declared ≡ self.old.declared ++ range ∷ []) }
    {
        let number = self.declared.as_slice().len();
        self.declared.push(range)?;
        self.numbers.put(alloc, name, number)
    }
}

/// The declared range of the variable of a name.
pub fn declared_range(unit: &UnitScope, name: &str) -> Option<Interval>
    ensures { result ≡ range_of unit.now name.now }
{
    match unit.scalar(name) {
        Some(scalar) => range(scalar),
        None => None,
    }
}

// Gives a variable a number, if it has a range and none yet.
#[inline(always)]
fn add(
    numbering: &mut Numbering,
    alloc: Global,
    unit: &UnitScope,
    name: &str,
) -> Result<(), AllocError>
    ensures { OnOk result (Adds unit.now (λ numbers. HasNumberIn unit.now numbers name.now)
        numbering.old.numbers numbering.old.declared numbering.new.numbers numbering.new.declared) }
{
    let Some(range) = declared_range(unit, name) else {
        return Ok(());
    };
    if numbering.number(name).is_some() {
        return Ok(());
    }
    numbering.push(alloc, name, range)
}

// Gives the variable that a store or a load names a number, if it has a range and none yet.
#[inline(always)]
fn add_target(
    numbering: &mut Numbering,
    alloc: Global,
    unit: &UnitScope,
    target: &Reference,
) -> Result<(), AllocError>
    ensures { OnOk result (Adds unit.now (λ numbers. IsTargetNumbered unit.now numbers target.now)
        numbering.old.numbers numbering.old.declared numbering.new.numbers numbering.new.declared) }
{
    match target {
        Reference::Variable(name) => add(numbering, alloc, unit, name.as_str()),
        _ => Ok(()),
    }
}

// Gives an output's target a number, if it has a range and none yet.
fn add_argument(
    numbering: &mut Numbering,
    alloc: Global,
    unit: &UnitScope,
    argument: &Argument,
) -> Result<(), AllocError>
    ensures { OnOk result (Adds unit.now
        (λ numbers. IsArgumentNumbered unit.now numbers argument.now) numbering.old.numbers
        numbering.old.declared numbering.new.numbers numbering.new.declared) }
{
    match argument {
        Argument::Input { .. } => Ok(()),
        Argument::Output { target, .. } => add(numbering, alloc, unit, target.name.as_str()),
    }
}

// Gives all outputs' targets numbers, if they have ranges and none yet.
fn add_arguments(
    numbering: &mut Numbering,
    alloc: Global,
    unit: &UnitScope,
    arguments: &[Argument],
) -> Result<(), AllocError>
    ensures { OnOk result (Adds unit.now
        (λ numbers. AreNumbered (IsArgumentNumbered unit.now numbers) arguments.now
        (length arguments.now)) numbering.old.numbers numbering.old.declared numbering.new.numbers
        numbering.new.declared) }
{
    for argument in arguments {
        add_argument(numbering, alloc, unit, argument)?;
    }
    Ok(())
}

// Whether an instruction is a jump with a condition.
fn is_conditional(instruction: &Instruction) -> bool
    ensures { result ≡ is_conditional instruction.now }
{
    match instruction {
        Instruction::Jump {
            condition: Condition::WhenTrue | Condition::WhenFalse,
            ..
        } => true,
        _ => false,
    }
}

fn is_conditional_at(steps: &[Step], place: usize) -> bool
    ensures { result ≡ is_conditional_step (slice_get steps.now place) }
{
    match steps.get(place) {
        Some(step) => is_conditional(&step.instruction),
        None => false,
    }
}

// Whether an instruction compares.
fn is_comparison(instruction: &Instruction) -> bool
    ensures { result ≡ is_comparison instruction.now }
{
    match instruction {
        Instruction::Operate {
            operator: Operator::Comparison(_),
            ..
        } => true,
        _ => false,
    }
}

fn is_comparison_at(steps: &[Step], place: usize) -> bool
    ensures { result ≡ is_comparison_step (slice_get steps.now place) }
{
    match steps.get(place) {
        Some(step) => is_comparison(&step.instruction),
        None => false,
    }
}

// Whether a comparison and a conditional jump follows a place: they may test what the place loads.
fn may_test(steps: &[Step], place: usize) -> bool
    requires { place < length steps.now }
    ensures { result ≡ may_test steps.now place }
{
    is_comparison_at(steps, place + 1) && is_conditional_at(steps, place + 2)
}

// Gives all variables that an instruction stores, or loads for a test, numbers.
fn add_step(
    numbering: &mut Numbering,
    alloc: Global,
    unit: &UnitScope,
    tests: bool,
    instruction: &Instruction,
) -> Result<(), AllocError>
    ensures { OnOk result (Adds unit.now
        (λ numbers. IsStepNumbered unit.now numbers tests instruction.now) numbering.old.numbers
        numbering.old.declared numbering.new.numbers numbering.new.declared) }
{
    match instruction {
        Instruction::Store { target, .. } => {
            add_target(numbering, alloc, unit, &target.reference)
        }
        Instruction::Load { operand, .. } => {
            if tests {
                add_target(numbering, alloc, unit, &operand.reference)
            } else {
                Ok(())
            }
        }
        Instruction::Call { arguments, .. } => {
            add_arguments(numbering, alloc, unit, arguments.as_slice())
        }
        _ => Ok(()),
    }
}

/// The numbers of all ranged variables that a unit stores or may test.
pub fn numbering_of(alloc: Global, unit: &UnitScope) -> Result<Numbering, AllocError>
    ensures { IfOk result (λ n. AreDeclaredOperands unit.now
        → IsNumberingOf unit.now n.numbers n.declared) }
{
    let mut numbering = Numbering::new(alloc);
    let steps = unit.tree().body.steps.as_slice();
    for place in 0..steps.len() {
        let tests = may_test(steps, place);
        add_step(
            &mut numbering,
            alloc,
            unit,
            tests,
            &steps[place].instruction,
        )?;
    }
    Ok(numbering)
}
