// What is reported of a global that two tasks write (38).

ghost use Rattle.std.specs.Prelude.{◌≡◌, ◌++◌, Some, IfOk, OnOk, flat_map, map, option_and_then, slice_get};
ghost use Rattle.std.specs.List.{list_any};
ghost use Rattle.base_texts.specs.Puts.{Puts};
ghost use Rattle.il_statics.specs.Names.{is_one_of, program_named};
ghost use Rattle.il_statics.specs.Types.{stored_names, named_variable, argument_targets};
ghost use Rattle.reasons_names.specs.NamesTasks.{writer_shown, is_external, store_line, first_store, writer_at, writer_of, writers, is_other, are_two, store_of_task, own_line, writers_text, stored_text};

use crate::names_spots::unit_at;
use crate::names_stores::origin_named;
use crate::writing::{put_in_line, put_three, put_two};
use il_statics::names::Origin;
use il_syntax::tree::{Argument, Instruction, ProgramLine, Reference, Step};
use load_scope::{Scoped, UnitScope};
use std::alloc::{AllocError, Global};

/// A task whose program stores into a global, and the line of the first of its stores.
#[derive(Clone, Copy)]
pub struct Writer<'c> {
    pub task: &'c str,
    pub line: u32,
}

/// The tasks that store into a name, if it is a global and there are two.
pub fn put_stored(
    alloc: Global,
    text: &mut String,
    here: &UnitScope<'_>,
    name: &str,
) -> Result<(), AllocError>
    ensures { OnOk result (Puts text.old text.new
        (stored_text here.now.config here.now.unit name.now)) }
{
    if !is_external(here, name) {
        return Ok(());
    }
    let writers = writers(alloc, here.names(), name)?;
    put_writers(text, name, writers.as_slice())
}

// The tasks that store into a global, if there are two.
fn put_writers(text: &mut String, name: &str, writers: &[Writer<'_>]) -> Result<(), AllocError>
    ensures { OnOk result (Puts text.old text.new
        (writers_text name.now (map writer_shown writers.now))) }
{
    if are_two(writers) {
        put_all_writers(text, name, writers)
    } else {
        Ok(())
    }
}

// The tasks that store into a global, and what to do about it.
fn put_all_writers(text: &mut String, name: &str, writers: &[Writer<'_>]) -> Result<(), AllocError>
    ensures { OnOk result (Puts text.old text.new
        (flat_map (store_of_task name.now) (map writer_shown writers.now) ++ own_line name.now)) }
{
    put_each_writer(text, name, writers)?;
    put_own_line(text, name)
}

#[tactic(auto, unfolding(crate::specs::NamesTasks::own_line))]
fn put_own_line(text: &mut String, name: &str) -> Result<(), AllocError>
    ensures { OnOk result (Puts text.old text.new (own_line name.now)) }
{
    put_three(
        text,
        "let one task store into ",
        name,
        ", or declare it in VAR, where each task has its own\n",
    )
}

fn put_each_writer(text: &mut String, name: &str, writers: &[Writer<'_>]) -> Result<(), AllocError>
    ensures { OnOk result (Puts text.old text.new
        (flat_map (store_of_task name.now) (map writer_shown writers.now))) }
{
    'writers: for writer in writers {
        put_writer(text, name, *writer)?;
    }
    Ok(())
}

#[tactic(auto, unfolding(crate::specs::NamesTasks::store_of_task))]
fn put_writer(text: &mut String, name: &str, writer: Writer<'_>) -> Result<(), AllocError>
    ensures { OnOk result (Puts text.old text.new
        (store_of_task name.now (writer_shown writer.entry))) }
{
    put_two(text, name, " is stored by task ")?;
    put_in_line(text, writer.task, " in line ", writer.line, "\n")
}

// Whether two of them are different tasks.
fn are_two(writers: &[Writer<'_>]) -> bool
    ensures { result ≡ are_two (map writer_shown writers.now) }
{
    match writers.split_first() {
        Some((first, others)) => has_other(first.task, others),
        None => false,
    }
}

// Whether one of them is another task.
fn has_other(task: &str, writers: &[Writer<'_>]) -> bool
    ensures { result ≡ list_any (is_other task.now) (map writer_shown writers.now) }
{
    'writers: for writer in writers {
        if writer.task != task {
            return true;
        }
    }
    false
}

// The tasks whose programs store into a global, in the order of the PROGRAM lines.
fn writers<'c>(alloc: Global, names: &'c Scoped, name: &str) -> Result<Vec<Writer<'c>>, AllocError>
    ensures { IfOk result (λ w. map writer_shown w.items ≡ writers names.now name.now) }
{
    let mut writers = Vec::new(alloc);
    push_lines(
        &mut writers,
        names,
        name,
        names.config().programs.as_slice(),
    )?;
    Ok(writers)
}

fn push_lines<'c>(
    writers: &mut Vec<Writer<'c>>,
    names: &'c Scoped,
    name: &str,
    lines: &'c [ProgramLine],
) -> Result<(), AllocError>
    ensures { OnOk result (map writer_shown writers.new.items ≡ map writer_shown writers.old.items
        ++ flat_map (writer_of names.now name.now) lines.now) }
{
    'lines: for line in lines {
        push_line(writers, names, name, line)?;
    }
    Ok(())
}

// The task of a PROGRAM line, if its program stores into a global.
fn push_line<'c>(
    writers: &mut Vec<Writer<'c>>,
    names: &'c Scoped,
    name: &str,
    line: &'c ProgramLine,
) -> Result<(), AllocError>
    ensures { OnOk result (map writer_shown writers.new.items ≡ map writer_shown writers.old.items
        ++ writer_of names.now name.now line.now) }
{
    match store_of_program(names, name, line.program.name.as_str()) {
        Some(at) => push_writer(writers, line.task.name.as_str(), at),
        None => Ok(()),
    }
}

fn push_writer<'c>(
    writers: &mut Vec<Writer<'c>>,
    task: &'c str,
    line: u32,
) -> Result<(), AllocError>
    ensures { OnOk result (map writer_shown writers.new.items ≡ map writer_shown writers.old.items
        ++ writer_at task.now (Some line)) }
{
    writers.push(Writer { task, line })?;
    Ok(())
}

// The line of the first store of the program of a name into a global.
#[tactic(auto, using(load_scope::proofs::Laws::program_found))]
fn store_of_program(names: &Scoped, name: &str, program: &str) -> Option<u32>
    ensures { result ≡ option_and_then (first_store names.now name.now)
        (program_named names.now program.now) }
{
    match names.program(program) {
        Some(at) => store_of_unit(names, name, at),
        None => None,
    }
}

// The line of the first store of the unit of a number into a global.
fn store_of_unit(names: &Scoped, name: &str, at: usize) -> Option<u32>
    ensures { result ≡ option_and_then (first_store names.now name.now)
        (slice_get names.now.units at) }
{
    match unit_at(names, at) {
        Some(unit) => {
            let here = UnitScope::of(names, at, unit);
            first_store(&here, name)
        }
        None => None,
    }
}

// The line of the first store of a unit into a global.
fn first_store(here: &UnitScope<'_>, name: &str) -> Option<u32>
    ensures { result ≡ first_store here.now.config name.now here.now.unit }
{
    if is_external(here, name) {
        store_line(here.tree().body.steps.as_slice(), name)
    } else {
        None
    }
}

// Whether a name means an external in a unit.
fn is_external(here: &UnitScope<'_>, name: &str) -> bool
    ensures { result ≡ is_external here.now.config here.now.unit name.now }
{
    matches!(origin_named(here, name), Some(Origin::External))
}

// The line of the first step that stores into a variable.
fn store_line(steps: &[Step], name: &str) -> Option<u32>
    ensures { result ≡ store_line name.now steps.now }
{
    'steps: for step in steps {
        if stores(&step.instruction, name) {
            return Some(step.place.line);
        }
    }
    None
}

// Whether an instruction stores into a variable.
fn stores(instruction: &Instruction, name: &str) -> bool
    ensures { result ≡ is_one_of (stored_names instruction.now) name.now }
{
    match instruction {
        Instruction::Store { target, .. } => is_target(&target.reference, name),
        Instruction::Call { arguments, .. } => is_output(arguments.as_slice(), name),
        _ => false,
    }
}

// Whether the target of a store is a variable.
fn is_target(target: &Reference, name: &str) -> bool
    ensures { result ≡ is_one_of (named_variable target.now) name.now }
{
    match target {
        Reference::Variable(target) => target.as_str() == name,
        Reference::Element(target, _) => target.as_str() == name,
        _ => false,
    }
}

// Whether the target of one of the outputs is a variable.
fn is_output(arguments: &[Argument], name: &str) -> bool
    ensures { result ≡ is_one_of (flat_map argument_targets arguments.now) name.now }
{
    'arguments: for argument in arguments {
        if is_target_of(argument, name) {
            return true;
        }
    }
    false
}

fn is_target_of(argument: &Argument, name: &str) -> bool
    ensures { result ≡ is_one_of (argument_targets argument.now) name.now }
{
    match argument {
        Argument::Output { target, .. } => target.name.as_str() == name,
        Argument::Input { .. } => false,
    }
}
