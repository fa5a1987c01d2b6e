// The rules of a configuration.

ghost use Rattle.std.specs.Prelude.{◌≡◌, IfOk};
ghost use Rattle.il_statics.specs.Faults.{BreaksDeclarations};
ghost use Rattle.il_statics.specs.Least.{IsLeast, Either};
ghost use Rattle.load_declarations.specs.Places.{Among};
ghost use Rattle.load_declarations.specs.Units.{UnitBreaks};
ghost use Rattle.load_declarations.specs.Whole.{SizesBreak, GlobalsBreak, SecondNames, TasksBreak};

use crate::again::{
    second_global, second_line_of_task, second_program_line, second_task, second_unit,
};
use crate::cars::missing_fault;
use crate::fault::DeclareFault;
use crate::sizes::sizes_fault;
use crate::taken::taken_declared;
use crate::tasks::{program_lines_fault, task_lines_fault, unused_fault};
use crate::types::{Admitted, declarations_fault};
use crate::units::units_fault;
use il_statics::{Found, earlier};
use il_syntax::tree::Config;
use load_scope::Scoped;
use std::alloc::{AllocError, Global};

/// The first fault of declarations: at the earliest place, at one place the one with the lowest number.
pub fn declared_fault(
    alloc: Global,
    names: &Scoped,
) -> Result<Option<Found<DeclareFault>>, AllocError>
    ensures { IfOk result (λ found. IsLeast found (BreaksDeclarations names.now)) }
{
    let units = units_and_sizes_fault(alloc, names)?;
    let others = others_fault(alloc, names)?;
    Ok(earlier(units, others))
}

// The first fault of sizes and units.
fn units_and_sizes_fault(
    alloc: Global,
    names: &Scoped,
) -> Result<Option<Found<DeclareFault>>, AllocError>
    ensures { IfOk result (λ found. IsLeast found
        (Either (SizesBreak names.now) (Among (UnitBreaks names.now) names.now.units))) }
{
    let units = units_fault(alloc, names)?;
    Ok(earlier(sizes_fault(names.config()), units))
}

// The first fault of globals, of names of units, tasks and PROGRAM lines, and of tasks.
fn others_fault(alloc: Global, names: &Scoped) -> Result<Option<Found<DeclareFault>>, AllocError>
    ensures { IfOk result (λ found. IsLeast found
        (Either (GlobalsBreak names.now) (Either (SecondNames names.now) (TasksBreak names.now)))) }
{
    let globals = globals_fault(alloc, names)?;
    let second = second_names_fault(alloc, names.config())?;
    let tasks = tasks_fault(alloc, names)?;
    Ok(earlier(globals, earlier(second, tasks)))
}

// The first fault of globals.
fn globals_fault(alloc: Global, names: &Scoped) -> Result<Option<Found<DeclareFault>>, AllocError>
    ensures { IfOk result (λ found. IsLeast found (GlobalsBreak names.now)) }
{
    let globals = names.config().globals.as_slice();
    let second = second_global(alloc, globals)?;
    let typed = declarations_fault(names, Admitted::ScalarsAndArrays, globals);
    let taken = taken_declared(names, globals);
    Ok(earlier(typed, earlier(taken, second)))
}

// The first unit, task or PROGRAM line that has an earlier one's name.
fn second_names_fault(
    alloc: Global,
    config: &Config,
) -> Result<Option<Found<DeclareFault>>, AllocError>
    ensures { IfOk result (λ found. IsLeast found (SecondNames config.now)) }
{
    let unit = second_unit(alloc, config.units.as_slice())?;
    let task = second_task(alloc, config.tasks.as_slice())?;
    let line = second_program_line(alloc, config.programs.as_slice())?;
    Ok(earlier(unit, earlier(task, line)))
}

// The first fault of tasks, PROGRAM lines, unused programs and missing cars.
fn tasks_fault(alloc: Global, names: &Scoped) -> Result<Option<Found<DeclareFault>>, AllocError>
    ensures { IfOk result (λ found. IsLeast found (TasksBreak names.now)) }
{
    let tasks = task_lines_fault(alloc, names)?;
    let lines = program_lines_fault(alloc, names)?;
    let unused = unused_fault(alloc, names)?;
    let missing = missing_fault(alloc, names)?;
    let second = second_line_of_task(alloc, names.config().programs.as_slice())?;
    Ok(earlier(
        tasks,
        earlier(lines, earlier(unused, earlier(missing, second))),
    ))
}
