// Which units use which.

ghost use Rattle.std.specs.Prelude.{◌≡◌, ◌++◌, IfOk};
ghost use Rattle.load_order.specs.Related.{tabulate};
ghost use Rattle.load_order.specs.Used.{numbers, own_number, called, called_by, declared_in, has_name, all_named, are_named, counted_in, declared_by, used_by, is_among, uses_row, uses};

use crate::relation::Relation;
use base_lists::Items;
use il_syntax::tree::{Declaration, Form, Instruction, Named, Step, Unit};
use load_scope::Scoped;
use load_scope::entry::BlockType;
use std::alloc::{AllocError, Global};

/// Which units use which: they call that function, or declare an instance of that block (IEC 61131-3:2003, 2.5.1, 2.5.2).
/// `nameless`: whether a declaration without a name, which no text spells, counts as well.
pub fn uses(alloc: Global, names: &Scoped, nameless: bool) -> Result<Relation, AllocError>
    ensures { IfOk result (λ r. r ≡ uses names.now nameless) }
{
    let mut rows = Items::new(alloc);
    for unit in names.config().units.as_slice() {
        rows.push(uses_row(alloc, names, nameless, unit)?)?;
    }
    Ok(rows)
}

/// Whether each declaration of units' variables has a name, as in a text.
pub fn are_named(units: &[Unit]) -> bool
    ensures { result ≡ are_named units.now }
{
    for unit in units {
        if !all_named(unit.variables.as_slice()) {
            return false;
        }
    }
    true
}

// Whether each declaration has a name.
fn all_named(declarations: &[Declaration]) -> bool
    ensures { result ≡ all_named declarations.now }
{
    for declaration in declarations {
        if !has_name(declaration.names.as_slice()) {
            return false;
        }
    }
    true
}

// Which units a unit uses.
fn uses_row(
    alloc: Global,
    names: &Scoped,
    nameless: bool,
    unit: &Unit,
) -> Result<Items<bool>, AllocError>
    ensures { IfOk result (λ r. r ≡ uses_row names.now nameless unit.now) }
{
    let used = used_by(alloc, names, nameless, unit)?;
    row_of(alloc, &used, names.config().units.as_slice().len())
}

// Which numbers below a bound are in a list.
fn row_of(alloc: Global, used: &Items<usize>, count: usize) -> Result<Items<bool>, AllocError>
    ensures { IfOk result (λ r. r ≡ tabulate count (λ to. is_among used.now to)) }
{
    let mut row = Items::new(alloc);
    for to in 0..count {
        row.push(is_among(used.as_slice(), to))?;
    }
    Ok(row)
}

/// Whether a number is one of a list.
pub fn is_among(numbers: &[usize], number: usize) -> bool
    ensures { result ≡ is_among numbers.now number }
{
    for one in numbers {
        if *one == number {
            return true;
        }
    }
    false
}

// The numbers of the units that a unit uses.
fn used_by(
    alloc: Global,
    names: &Scoped,
    nameless: bool,
    unit: &Unit,
) -> Result<Items<usize>, AllocError>
    ensures { IfOk result (λ u. u ≡ used_by names.now nameless unit.now) }
{
    let mut used = Items::new(alloc);
    note_steps(names, unit.body.steps.as_slice(), &mut used)?;
    note_variables(names, nameless, unit.variables.as_slice(), &mut used)?;
    Ok(used)
}

// Notes the functions that instructions call.
fn note_steps(names: &Scoped, steps: &[Step], used: &mut Items<usize>) -> Result<(), AllocError>
    ensures { IfOk result (λ _. used.new ≡ used.old ++ called_by names.now steps.now) }
{
    for step in steps {
        note_instruction(names, &step.instruction, used)?;
    }
    Ok(())
}

// Notes the function that an instruction calls.
fn note_instruction(
    names: &Scoped,
    instruction: &Instruction,
    used: &mut Items<usize>,
) -> Result<(), AllocError>
    ensures { IfOk result (λ _. used.new ≡ used.old ++ called names.now instruction.now) }
{
    match instruction {
        Instruction::Invoke { function, .. } => note(names.function(function.name.as_str()), used),
        _ => note(None, used),
    }
}

// Notes the blocks of declared instances.
fn note_variables(
    names: &Scoped,
    nameless: bool,
    declarations: &[Declaration],
    used: &mut Items<usize>,
) -> Result<(), AllocError>
    ensures { IfOk result (λ _. used.new ≡ used.old
        ++ declared_by names.now nameless declarations.now) }
{
    for declaration in declarations {
        note_declaration(names, nameless, declaration, used)?;
    }
    Ok(())
}

// Notes the block of a declaration, if it counts.
fn note_declaration(
    names: &Scoped,
    nameless: bool,
    declaration: &Declaration,
    used: &mut Items<usize>,
) -> Result<(), AllocError>
    ensures { IfOk result (λ _. used.new ≡ used.old
        ++ counted_in names.now nameless declaration.now) }
{
    if nameless || has_name(declaration.names.as_slice()) {
        note_form(names, &declaration.declared.form, used)
    } else {
        note(None, used)
    }
}

// Whether names are there.
fn has_name(names: &[Named]) -> bool
    ensures { result ≡ has_name names.now }
{
    match names.first() {
        Some(_) => true,
        None => false,
    }
}

// Notes the block of an instance.
fn note_form(names: &Scoped, form: &Form, used: &mut Items<usize>) -> Result<(), AllocError>
    ensures { IfOk result (λ _. used.new ≡ used.old ++ declared_in names.now form.now) }
{
    match form {
        Form::Block(name) => note(own_number(names.block(name.as_str())), used),
        _ => note(None, used),
    }
}

// The number of an own block.
fn own_number(block: Option<BlockType>) -> Option<usize>
    ensures { result ≡ own_number block }
{
    match block {
        Some(BlockType::Own(number)) => Some(number),
        _ => None,
    }
}

// Notes a number, if there is one.
fn note(number: Option<usize>, used: &mut Items<usize>) -> Result<(), AllocError>
    ensures { IfOk result (λ _. used.new ≡ used.old ++ numbers number) }
{
    match number {
        Some(number) => used.push(number),
        None => Ok(()),
    }
}
