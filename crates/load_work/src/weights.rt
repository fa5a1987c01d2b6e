// How control paths go on, and what each instruction moves.

ghost use Rattle.std.specs.Prelude.{◌≡◌, IfOk, Some, map, slice_get};
ghost use Rattle.il_syntax.specs.declared.tree.Unit.{Unit as ProgramUnit};
ghost use Rattle.load_work.specs.Weights.{invoked_moves, moves_of, weighed_of, unit_weighed};

use crate::sizes::{number_at, sum};
use base_lists::Items;
use il_syntax::tree::{Instruction, Unit};
use load_budgets::ways::{Way, way_of};
use load_scope::Scoped;
use std::alloc::{AllocError, Global};

/// How a control path goes on after an instruction, and how many values the instruction moves.
#[derive(Clone, Copy)]
pub struct Weighed {
    pub way: Way,
    pub moves: usize,
}

/// The instructions of all units.
pub fn all_weighed(
    alloc: Global,
    names: &Scoped,
    sizes: &Items<usize>,
) -> Result<Items<Items<Weighed>>, AllocError>
    ensures { IfOk result (λ all. all ≡ map (unit_weighed names.now sizes.now) names.now.units) }
{
    let units = names.config().units.as_slice();
    let mut all = Items::new(alloc);
    'units: for at in 0..units.len() {
        all.push(unit_weighed(alloc, names, sizes, at, &units[at])?)?;
    }
    Ok(all)
}

// The instructions of a unit.
fn unit_weighed(
    alloc: Global,
    names: &Scoped,
    sizes: &Items<usize>,
    at: usize,
    unit: &Unit,
) -> Result<Items<Weighed>, AllocError>
    requires { slice_get names.now.units at ≡ Some unit.now }
    ensures { IfOk result (λ all. all ≡ unit_weighed names.now sizes.now unit.now) }
{
    let mut all = Items::new(alloc);
    'steps: for step in unit.body.steps.as_slice() {
        all.push(weigh(names, sizes, at, &step.instruction))?;
    }
    Ok(all)
}

// An instruction.
fn weigh(names: &Scoped, sizes: &Items<usize>, at: usize, instruction: &Instruction) -> Weighed
    ensures { (unit : ProgramUnit) → slice_get names.now.units at ≡ Some unit → result
        ≡ weighed_of names.now sizes.now unit instruction.now }
{
    Weighed {
        way: way_of(names, at, instruction),
        moves: moves(names, sizes.as_slice(), instruction),
    }
}

// The values that an instruction moves.
fn moves(names: &Scoped, sizes: &[usize], instruction: &Instruction) -> usize
    ensures { result ≡ moves_of names.now sizes.now instruction.now }
{
    match instruction {
        Instruction::Call { arguments, .. } => arguments.as_slice().len(),
        Instruction::Invoke { function, operands } => {
            let number = names.function(function.name.as_str());
            invoked_moves(sizes, number, operands.as_slice().len())
        }
        _ => 0,
    }
}

// The values that the call of a function moves, own or standard, with so many operands.
fn invoked_moves(sizes: &[usize], function: Option<usize>, operands: usize) -> usize
    ensures { result ≡ invoked_moves sizes.now function operands }
{
    match function {
        Some(number) => sum(sum(1, operands), number_at(sizes, number)),
        None => operands,
    }
}
