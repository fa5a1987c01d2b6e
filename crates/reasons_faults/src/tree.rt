// What is reported of a fault that the tree shows: of the instruction at a place, and of what is declared there.

ghost use Rattle.std.specs.Prelude.{◌≡◌, ◌++◌, Some, flat_map, slice_get, string_bytes, IfOk, OnOk};
ghost use Rattle.base_texts.specs.Puts.{Puts};
ghost use Rattle.il_statics.specs.Declarations.{IsUnknown};
ghost use Rattle.il_statics.specs.Types.{HasUnknownLabel};
ghost use Rattle.reasons_types.specs.InitialReasons.{initials_lines};
ghost use Rattle.reasons_faults.specs.NamesTold.{HasLine};
ghost use Rattle.reasons_types.specs.ResultReasons.{IsResultToldIf};
ghost use Rattle.reasons_types.specs.TypeReasons.{is_type_number};
ghost use Rattle.reasons_faults.specs.TaskReasons.{backward_line};
ghost use Rattle.reasons_faults.specs.TreeReasons.{named_lines, instruction_lines, step_lines, unit_lines, place_lines, AreToldOfTree};
ghost use Rattle.reasons_types.specs.WrittenReasons.{misplaced_lines};

use crate::limits::{put_limits_at, put_slots};
use crate::tasks::{put_bad_task, put_sizes};
use il_syntax::tree::{Config, Instruction, Place, Step, Unit};
use load_scope::{Scoped, UnitScope};
use reasons_names::names_again::put_again_at;
use reasons_names::names_labels::put_jump;
use reasons_names::names_targets::put_targets;
use reasons_names::names_unknown::{put_instruction as put_names, put_unknown_at};
use reasons_types::types::{is_type_number, put_types};
use reasons_types::types_arguments::put_taken;
use reasons_types::types_initials::put_initials;
use reasons_types::types_kinds::put_kinds;
use reasons_types::types_results::result_told;
use reasons_types::types_written::put_misplaced;
use std::alloc::{AllocError, Global};

/// What is reported of a fault that the tree shows: lines, each with its line feed, or none (own rule). Of 30, 31 and 32 the type that the
/// current result has and the one that it must have, and the operands with their types, of 37 the arguments and what is taken, of 25
/// in an instruction the names of another kind, and at an initial value or a type the declared names with their types, of 33 and 38 the
/// targets, of 12 how many slots there may be, of 22 the limits that are none, of 23 the limits of a size, of 24 what is wrong with the tasks, and of 35 that there are no loops. Of an unknown name (21)
/// and of a label that does not be in its unit (34) there is a line.
pub(crate) fn told(
    alloc: Global,
    names: &Scoped,
    number: u16,
    place: Place,
) -> Result<Vec<u8>, AllocError>
    ensures told { IfOk result (λ lines. AreToldOfTree names.now number place lines.items) }
    ensures unknown { IfOk result (λ lines. number ≡ 21 → IsUnknown names.now place
        → HasLine lines.items) }
    ensures label { IfOk result (λ lines. number ≡ 34 → HasUnknownLabel names.now place
        → HasLine lines.items) }
{
    lines_of(alloc, names, number, place)
}

// What is reported of a fault that the tree shows.
fn lines_of(alloc: Global, names: &Scoped, number: u16, place: Place) -> Result<Vec<u8>, AllocError>
    ensures { IfOk result (λ lines. AreToldOfTree names.now number place lines.items) }
{
    let mut text = result_text(alloc, names, number, place.offset)?;
    put_units(alloc, &mut text, names, number, place.offset)?;
    put_declared(alloc, &mut text, names, number, place)?;
    Ok(text.into_bytes())
}

// Of what is declared at a place.
#[tactic(auto, unfolding(crate::specs::TreeReasons::place_lines))]
fn put_declared(
    alloc: Global,
    text: &mut String,
    names: &Scoped,
    number: u16,
    place: Place,
) -> Result<(), AllocError>
    ensures { OnOk result (Puts text.old text.new (place_lines names.now number place)) }
{
    match number {
        12 => put_slots(text),
        20 => put_again_at(alloc, text, names, place),
        21 => put_unknown_at(alloc, text, names, place),
        22 => put_limits_at(text, names.config(), place.offset),
        23 => put_sizes(text, names.config(), place.offset),
        24 => put_bad_task(text, names, place.offset),
        25 => put_of_other_type(text, names.config(), place.offset),
        _ => Ok(()),
    }
}

// Of the initial value or the type at a place.
fn put_of_other_type(text: &mut String, config: &Config, offset: u32) -> Result<(), AllocError>
    ensures { OnOk result (Puts text.old text.new
        (initials_lines config.now offset ++ misplaced_lines config.now offset)) }
{
    put_initials(text, config, offset)?;
    put_misplaced(text, config, offset)
}

// Of the current result, where the types give the reason.
fn result_text(
    alloc: Global,
    names: &Scoped,
    number: u16,
    offset: u32,
) -> Result<String, AllocError>
    ensures { IfOk result (λ t.
        IsResultToldIf (is_type_number number) names.now offset (string_bytes t)) }
{
    if is_type_number(number) {
        result_told(alloc, names, offset)
    } else {
        Ok(String::new(alloc))
    }
}

// Of the instruction at a place, wherever it is.
fn put_units(
    alloc: Global,
    text: &mut String,
    names: &Scoped,
    number: u16,
    offset: u32,
) -> Result<(), AllocError>
    ensures { OnOk result (Puts text.old text.new
        (flat_map (unit_lines names.now number offset) names.now.units)) }
{
    let units = names.config().units.as_slice();
    'units: for at in 0..units.len() {
        put_unit(alloc, text, names, at, &units[at], number, offset)?;
    }
    Ok(())
}

// In a unit.
fn put_unit(
    alloc: Global,
    text: &mut String,
    names: &Scoped,
    at: usize,
    unit: &Unit,
    number: u16,
    offset: u32,
) -> Result<(), AllocError>
    requires { slice_get names.now.units at ≡ Some unit.now }
    ensures { OnOk result (Puts text.old text.new (unit_lines names.now number offset unit.now)) }
{
    let scope = UnitScope::of(names, at, unit);
    put_steps(
        alloc,
        text,
        &scope,
        unit.body.steps.as_slice(),
        number,
        offset,
    )
}

// Among steps.
fn put_steps(
    alloc: Global,
    text: &mut String,
    scope: &UnitScope<'_>,
    steps: &[Step],
    number: u16,
    offset: u32,
) -> Result<(), AllocError>
    ensures { OnOk result (Puts text.old text.new
        (flat_map (step_lines scope.now.config scope.now.unit number offset) steps.now)) }
{
    'steps: for step in steps {
        put_step(alloc, text, scope, step, number, offset)?;
    }
    Ok(())
}

// A step, if it is the one.
fn put_step(
    alloc: Global,
    text: &mut String,
    scope: &UnitScope<'_>,
    step: &Step,
    number: u16,
    offset: u32,
) -> Result<(), AllocError>
    ensures { OnOk result (Puts text.old text.new
        (step_lines scope.now.config scope.now.unit number offset step.now)) }
{
    if step.place.offset == offset {
        put_instruction(alloc, text, scope, number, &step.instruction)
    } else {
        Ok(())
    }
}

// What is reported of an instruction.
fn put_instruction(
    alloc: Global,
    text: &mut String,
    scope: &UnitScope<'_>,
    number: u16,
    instruction: &Instruction,
) -> Result<(), AllocError>
    ensures { OnOk result (Puts text.old text.new
        (instruction_lines scope.now.config scope.now.unit number instruction.now)) }
{
    if is_type_number(number) {
        put_types(text, scope, instruction)
    } else if number == 37 {
        put_taken(alloc, text, scope, instruction)
    } else if number == 25 {
        put_kinds(text, scope, instruction)
    } else {
        put_named(alloc, text, scope, number, instruction)
    }
}

// Of the names of an instruction.
fn put_named(
    alloc: Global,
    text: &mut String,
    scope: &UnitScope<'_>,
    number: u16,
    instruction: &Instruction,
) -> Result<(), AllocError>
    ensures { OnOk result (Puts text.old text.new
        (named_lines scope.now.config scope.now.unit number instruction.now)) }
{
    match number {
        21 => put_names(alloc, text, scope, instruction),
        33 => put_targets(alloc, text, scope, number, instruction),
        34 => put_jump(alloc, text, scope, instruction),
        35 => put_backward(text),
        38 => put_targets(alloc, text, scope, number, instruction),
        _ => Ok(()),
    }
}

// Of a jump back.
#[tactic(auto, unfolding(crate::specs::TaskReasons::backward_line))]
fn put_backward(text: &mut String) -> Result<(), AllocError>
    ensures { OnOk result (Puts text.old text.new backward_line) }
{
    text.push_str("a label comes after each jump to it: there are no loops\n")
}
