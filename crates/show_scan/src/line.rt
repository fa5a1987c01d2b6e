// The line of a step.

ghost use Rattle.std.specs.Prelude.{◌≡◌, ◌≤◌, false, flat_map, length, map, option_copied, option_map, replicate, OnOk};
ghost use Rattle.std.specs.List.{prefix_len, list_any};
ghost use Rattle.base_texts.specs.Puts.{Puts};
ghost use Rattle.show_names.specs.Sources.{source_text};
ghost use Rattle.show_scan.specs.Stands.{of_stand, reference_text};
ghost use Rattle.show_scan.specs.Lines.{front_text, results_text, of_before, first_shown, rest_text, out_text, outs_text, output_text, argument_text, is_output_of, kept_text, outputs_text, arguments_text, operands_text, instruction_text, step_text, call_text, left_by, left_text, names_text, line_text};

use crate::before::Before;
use crate::values::{put_member, put_member_there, put_reference, put_result, put_variable};
use crate::view::{Stand, View};
use il_syntax::tree::{Argument, Instruction, Operand, Step};
use show_names::source::put_source;
use std::alloc::{AllocError, Global};

// The most of what a call hands over that are shown.
const MOST_SHOWN: usize = 32;

/// The line of a step: where it is, the current result before and after it, and what it names, as it follows it.
pub fn put_line(
    alloc: Global,
    text: &mut String,
    source: &[u8],
    before: &Before,
    after: &View<'_>,
) -> Result<(), AllocError>
    ensures { OnOk result (Puts text.old text.new
        (line_text after.now.config source.now (of_before before.now) after.now.state)) }
{
    put_front(text, source, before)?;
    put_results(text, before, after)?;
    put_names(alloc, text, before, after)?;
    text.push_str("\n")
}

// The front of a line: the step.
fn put_front(text: &mut String, source: &[u8], before: &Before) -> Result<(), AllocError>
    ensures { OnOk result (Puts text.old text.new (front_text source.now (of_before before.now))) }
{
    put_blanks(text, before.depth.saturating_sub(1))?;
    put_blanks(text, before.depth.saturating_sub(1))?;
    write!(text, "line {}: ", before.place.line)?;
    put_source(text, source, before.place.offset as usize)?;
    text.push_str(": ")
}

// The current result before a step and after it.
fn put_results(text: &mut String, before: &Before, after: &View<'_>) -> Result<(), AllocError>
    ensures { OnOk result (Puts text.old text.new
        (results_text (of_before before.now) after.now.state)) }
{
    put_result(text, before.result)?;
    text.push_str(" -> ")?;
    put_result(text, after.result())
}

// So many blanks.
fn put_blanks(text: &mut String, count: usize) -> Result<(), AllocError>
    ensures { OnOk result (Puts text.old text.new (replicate count 32)) }
{
    'blanks: for _ in 0..count {
        text.push_str(" ")?;
    }
    Ok(())
}

// What a step names: where it leaves a body, what goes out of that.
fn put_names(
    alloc: Global,
    text: &mut String,
    before: &Before,
    after: &View<'_>,
) -> Result<(), AllocError>
    ensures { OnOk result (Puts text.old text.new
        (names_text after.now.config (of_before before.now) after.now.state)) }
{
    let depth = after.depth();
    if depth < before.depth {
        return put_left(alloc, text, after, before.caller.as_ref());
    }
    let stand = &before.stand;
    let step = after.step(stand.unit.as_str(), stand.place);
    put_step(
        alloc,
        text,
        after,
        stand.path.as_str(),
        before.depth < depth,
        step,
    )
}

// What goes out of a body that a step leaves, by the instruction that called it.
fn put_left(
    alloc: Global,
    text: &mut String,
    view: &View<'_>,
    caller: Option<&Stand>,
) -> Result<(), AllocError>
    ensures { OnOk result (Puts text.old text.new
        (left_text view.now.config view.now.state.values
        (option_map (λ s. of_stand s.now) caller.entry))) }
{
    let Some(caller) = caller else {
        return Ok(());
    };
    let Some(step) = view.step(caller.unit.as_str(), caller.place) else {
        return Ok(());
    };
    put_call(alloc, text, view, caller.path.as_str(), &step.instruction)
}

// What goes out of a call.
fn put_call(
    alloc: Global,
    text: &mut String,
    view: &View<'_>,
    path: &str,
    instruction: &Instruction,
) -> Result<(), AllocError>
    ensures { OnOk result (Puts text.old text.new
        (call_text view.now.state.values path.now instruction.now)) }
{
    let Instruction::Call {
        instance,
        arguments,
        ..
    } = instruction
    else {
        return Ok(());
    };
    put_first_outs(
        alloc,
        text,
        view,
        path,
        instance.name.as_str(),
        arguments.as_slice(),
    )
}

// The first of what a call hands over, as many as are shown.
fn first_shown<T>(items: &[T]) -> &[T]
    ensures { result.now ≡ first_shown items.now }
{
    let (first, _) = items.split_at(items.len().min(MOST_SHOWN));
    first
}

// The mark where more of so many are left out.
fn put_rest(text: &mut String, count: usize) -> Result<(), AllocError>
    ensures { OnOk result (Puts text.old text.new (rest_text count)) }
{
    if count > MOST_SHOWN {
        text.push_str(" ..")?;
    }
    Ok(())
}

// What goes out of a call by its arguments, as far as it is shown.
fn put_first_outs(
    alloc: Global,
    text: &mut String,
    view: &View<'_>,
    path: &str,
    instance: &str,
    arguments: &[Argument],
) -> Result<(), AllocError>
    ensures { OnOk result (Puts text.old text.new
        (outs_text view.now.state.values path.now instance.now arguments.now)) }
{
    put_outs(alloc, text, view, path, instance, first_shown(arguments))?;
    put_rest(text, arguments.len())
}

// What goes out of a call by arguments.
fn put_outs(
    alloc: Global,
    text: &mut String,
    view: &View<'_>,
    path: &str,
    instance: &str,
    arguments: &[Argument],
) -> Result<(), AllocError>
    ensures { OnOk result (Puts text.old text.new
        (flat_map (out_text view.now.state.values path.now instance.now) arguments.now)) }
{
    'arguments: for argument in arguments {
        put_out(alloc, text, view, path, instance, argument)?;
    }
    Ok(())
}

// What goes out of a call by an argument.
fn put_out(
    alloc: Global,
    text: &mut String,
    view: &View<'_>,
    path: &str,
    instance: &str,
    argument: &Argument,
) -> Result<(), AllocError>
    ensures { OnOk result (Puts text.old text.new
        (out_text view.now.state.values path.now instance.now argument.now)) }
{
    let Argument::Output { word, target } = argument else {
        return Ok(());
    };
    put_member(alloc, text, view, path, instance, word.name.as_str())?;
    put_variable(alloc, text, view, path, target.name.as_str())
}

// What goes into a call by an argument, and out of it where no body is entered.
fn put_argument(
    alloc: Global,
    text: &mut String,
    view: &View<'_>,
    path: &str,
    instance: &str,
    enters: bool,
    argument: &Argument,
) -> Result<(), AllocError>
    ensures { OnOk result (Puts text.old text.new
        (argument_text view.now.state.values path.now instance.now enters argument.now)) }
{
    match argument {
        Argument::Input { word, .. } => {
            put_member(alloc, text, view, path, instance, word.name.as_str())
        }
        Argument::Output { .. } => {
            if enters {
                Ok(())
            } else {
                put_out(alloc, text, view, path, instance, argument)
            }
        }
    }
}

// What a step of the body at a path names.
fn put_step(
    alloc: Global,
    text: &mut String,
    view: &View<'_>,
    path: &str,
    enters: bool,
    step: Option<&Step>,
) -> Result<(), AllocError>
    ensures { OnOk result (Puts text.old text.new
        (step_text view.now.state.values path.now enters (option_copied step.entry))) }
{
    match step {
        Some(step) => put_instruction(alloc, text, view, path, enters, &step.instruction),
        None => Ok(()),
    }
}

// What an instruction of the body at a path names.
fn put_instruction(
    alloc: Global,
    text: &mut String,
    view: &View<'_>,
    path: &str,
    enters: bool,
    instruction: &Instruction,
) -> Result<(), AllocError>
    ensures { OnOk result (Puts text.old text.new
        (instruction_text view.now.state.values path.now enters instruction.now)) }
{
    match instruction {
        Instruction::Load { operand, .. }
        | Instruction::Store {
            target: operand,
            ..
        }
        | Instruction::Operate { operand, .. }
        | Instruction::Defer {
            first: Some(operand),
            ..
        } => put_reference(alloc, text, view, path, &operand.reference),
        Instruction::Call {
            instance,
            arguments,
            ..
        } => put_first_arguments(
            alloc,
            text,
            view,
            path,
            instance.name.as_str(),
            enters,
            arguments.as_slice(),
        ),
        Instruction::Invoke { operands, .. } => {
            put_first_operands(alloc, text, view, path, operands.as_slice())
        }
        _ => Ok(()),
    }
}

// What goes into a call, and out of it where no body is entered, as far as it is shown.
fn put_first_arguments(
    alloc: Global,
    text: &mut String,
    view: &View<'_>,
    path: &str,
    instance: &str,
    enters: bool,
    arguments: &[Argument],
) -> Result<(), AllocError>
    ensures { OnOk result (Puts text.old text.new
        (arguments_text view.now.state.values path.now instance.now enters arguments.now)) }
{
    let first = first_shown(arguments);
    put_arguments(alloc, text, view, path, instance, enters, first)?;
    put_rest(text, arguments.len())?;
    if enters {
        return Ok(());
    }
    put_outputs(alloc, text, view, path, instance, arguments)
}

// Where a call enters no body: the outputs of standard blocks (IEC 61131-3:2003, 2.5.2.3) that its instance has and the call doesn't hand on.
fn put_outputs(
    alloc: Global,
    text: &mut String,
    view: &View<'_>,
    path: &str,
    instance: &str,
    arguments: &[Argument],
) -> Result<(), AllocError>
    ensures { OnOk result (Puts text.old text.new
        (outputs_text view.now.state.values path.now instance.now false arguments.now)) }
{
    put_kept(alloc, text, view, path, instance, arguments, "Q")?;
    put_kept(alloc, text, view, path, instance, arguments, "Q1")?;
    put_kept(alloc, text, view, path, instance, arguments, "QU")?;
    put_kept(alloc, text, view, path, instance, arguments, "QD")?;
    put_kept(alloc, text, view, path, instance, arguments, "ET")?;
    put_kept(alloc, text, view, path, instance, arguments, "CV")
}

// An output of an instance that has it, unless the call hands it on.
fn put_kept(
    alloc: Global,
    text: &mut String,
    view: &View<'_>,
    path: &str,
    instance: &str,
    arguments: &[Argument],
    word: &str,
) -> Result<(), AllocError>
    ensures { OnOk result (Puts text.old text.new
        (kept_text view.now.state.values path.now instance.now arguments.now word.now)) }
{
    if hands_on(arguments, word) {
        return Ok(());
    }
    put_member_there(alloc, text, view, path, instance, word)
}

// Whether arguments hand an output on.
fn hands_on(arguments: &[Argument], word: &str) -> bool
    ensures { result ≡ list_any (is_output_of word.now) arguments.now }
{
    arguments
        .iter()
        .any(|argument| is_output_of(argument, word))
}

// Whether an argument hands an output on.
fn is_output_of(argument: &Argument, word: &str) -> bool
    ensures { result ≡ is_output_of word.now argument.now }
{
    match argument {
        Argument::Input { .. } => false,
        Argument::Output { word: name, .. } => name.name.as_str() == word,
    }
}

// What goes into a call by arguments, and out of it where no body is entered.
fn put_arguments(
    alloc: Global,
    text: &mut String,
    view: &View<'_>,
    path: &str,
    instance: &str,
    enters: bool,
    arguments: &[Argument],
) -> Result<(), AllocError>
    ensures { OnOk result (Puts text.old text.new
        (flat_map (argument_text view.now.state.values path.now instance.now enters)
        arguments.now)) }
{
    'arguments: for argument in arguments {
        put_argument(alloc, text, view, path, instance, enters, argument)?;
    }
    Ok(())
}

// What the operands of a function name, as far as it is shown.
fn put_first_operands(
    alloc: Global,
    text: &mut String,
    view: &View<'_>,
    path: &str,
    operands: &[Operand],
) -> Result<(), AllocError>
    ensures { OnOk result (Puts text.old text.new
        (operands_text view.now.state.values path.now operands.now)) }
{
    put_operands(alloc, text, view, path, first_shown(operands))?;
    put_rest(text, operands.len())
}

// What operands name.
fn put_operands(
    alloc: Global,
    text: &mut String,
    view: &View<'_>,
    path: &str,
    operands: &[Operand],
) -> Result<(), AllocError>
    ensures { OnOk result (Puts text.old text.new
        (flat_map (λ o. reference_text view.now.state.values path.now o.reference) operands.now)) }
{
    'operands: for operand in operands {
        put_reference(alloc, text, view, path, &operand.reference)?;
    }
    Ok(())
}
