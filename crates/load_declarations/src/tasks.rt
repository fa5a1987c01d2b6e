// The rules of tasks and PROGRAM lines (IEC 61131-3:2003, 2.7.2; roles are own rules).

ghost use Rattle.std.specs.Prelude.{◌≡◌, IfOk, List, map, not, ◌&&◌, is_some};
ghost use Rattle.il_statics.specs.Names.{Spelling, is_one_of, is_program, program_named, task_role};
ghost use Rattle.il_statics.specs.Least.{IsLeast, When};
ghost use Rattle.load_declarations.specs.Places.{Among};
ghost use Rattle.load_declarations.specs.TaskRules.{IsSet, other_role, TaskBreaks, BreaksLine, IsUnusedOf, is_wrong_line, has_other_role};

use crate::fault::DeclareFault;
use crate::sets::{has_name, lines_programs, lines_tasks, task_names};
use base_maps::Table;
use il_statics::names::Role;
use il_statics::{Found, earlier, fault_if};
use il_syntax::tree::{ProgramLine, Task, Unit};
use load_scope::roles::task_role;
use load_scope::{Scoped, is_program};
use std::alloc::{AllocError, Global};

/// The first fault of TASK lines: a task that is none of the group's, or one without a PROGRAM line.
pub fn task_lines_fault(
    alloc: Global,
    names: &Scoped,
) -> Result<Option<Found<DeclareFault>>, AllocError>
    ensures { IfOk result (λ found. IsLeast found (Among (TaskBreaks names.now) names.now.tasks)) }
{
    let config = names.config();
    let lines = lines_tasks(alloc, config.programs.as_slice())?;
    Ok(tasks_fault(names, &lines, config.tasks.as_slice()))
}

// The first fault of tasks.
fn tasks_fault(names: &Scoped, lines: &Table<()>, tasks: &[Task]) -> Option<Found<DeclareFault>>
    requires { IsSet (map (λ l. l.task.name) names.now.programs) lines.now }
    ensures { IsLeast result (Among (TaskBreaks names.now) tasks.now) }
{
    let mut found = None;
    for task in tasks {
        found = earlier(found, task_fault(names, lines, task));
    }
    found
}

// The fault of a task.
fn task_fault(names: &Scoped, lines: &Table<()>, task: &Task) -> Option<Found<DeclareFault>>
    requires { IsSet (map (λ l. l.task.name) names.now.programs) lines.now }
    ensures { IsLeast result (TaskBreaks names.now task.now) }
{
    let idle = !has_name(lines, task.name.name.as_str());
    let end = names.config().end_resource;
    earlier(
        fault_if(is_foreign(names, task), DeclareFault::BadTask, task.place),
        fault_if(idle, DeclareFault::BadTask, end),
    )
}

// Whether a task is none of the group's.
fn is_foreign(names: &Scoped, task: &Task) -> bool
    ensures { result ≡ not (is_some (task_role names.now.cars.value task.now.name.name)) }
{
    task_role(names.config().cars.value, task.name.name.as_str()).is_none()
}

/// The first PROGRAM line with no TASK line, of no program, or of a program of the other role.
pub fn program_lines_fault(
    alloc: Global,
    names: &Scoped,
) -> Result<Option<Found<DeclareFault>>, AllocError>
    ensures { IfOk result (λ found. IsLeast found
        (Among (λ l. When (BreaksLine names.now l) 24 l.place) names.now.programs)) }
{
    let config = names.config();
    let tasks = task_names(alloc, config.tasks.as_slice())?;
    Ok(lines_fault(names, &tasks, config.programs.as_slice()))
}

// The first fault of PROGRAM lines.
fn lines_fault(
    names: &Scoped,
    tasks: &Table<()>,
    lines: &[ProgramLine],
) -> Option<Found<DeclareFault>>
    requires { IsSet (map (λ t. t.name.name) names.now.tasks) tasks.now }
    ensures { IsLeast result (Among (λ l. When (BreaksLine names.now l) 24 l.place) lines.now) }
{
    let mut found = None;
    for line in lines {
        let wrong = is_wrong_line(names, tasks, line);
        found = earlier(found, fault_if(wrong, DeclareFault::BadTask, line.place));
    }
    found
}

// Whether a PROGRAM line has no TASK line, names no program, or one of the other role.
fn is_wrong_line(names: &Scoped, tasks: &Table<()>, line: &ProgramLine) -> bool
    requires { IsSet (map (λ t. t.name.name) names.now.tasks) tasks.now }
    ensures { result ≡ is_wrong_line names.now line.now }
{
    lacks_task(tasks, line) || lacks_program(names, line) || has_other_role(names, line)
}

// Whether a PROGRAM line names a task that is not among these.
fn lacks_task(tasks: &Table<()>, line: &ProgramLine) -> bool
    ensures { (names : List Spelling) → IsSet names tasks.now → result
        ≡ not (is_one_of names line.now.task.name) }
{
    !has_name(tasks, line.task.name.as_str())
}

// Whether a PROGRAM line names no program.
fn lacks_program(names: &Scoped, line: &ProgramLine) -> bool
    ensures { result ≡ not (is_some (program_named names.now line.now.program.name)) }
{
    names.program(line.program.name.as_str()).is_none()
}

// Whether a PROGRAM line gives a program to a task of the other role.
fn has_other_role(names: &Scoped, line: &ProgramLine) -> bool
    ensures { result ≡ has_other_role names.now line.now }
{
    let task = task_role(names.config().cars.value, line.task.name.as_str());
    let program = names.role(line.program.name.as_str());
    is_other_role(task, program)
}

// Whether a task has a role, and the program not that.
fn is_other_role(task: Option<Role>, program: Option<Role>) -> bool
    ensures { result ≡ other_role task program }
{
    match (task, program) {
        (None, _) => false,
        (Some(Role::Car), Some(Role::Car)) => false,
        (Some(Role::Group), Some(Role::Group)) => false,
        _ => true,
    }
}

/// The first program that no PROGRAM line names.
pub fn unused_fault(
    alloc: Global,
    names: &Scoped,
) -> Result<Option<Found<DeclareFault>>, AllocError>
    ensures { IfOk result (λ found. IsLeast found
        (Among (λ u. When (IsUnusedOf (map (λ l. l.program.name) names.now.programs) u) 24
        u.place) names.now.units)) }
{
    let config = names.config();
    let lines = lines_programs(alloc, config.programs.as_slice())?;
    Ok(units_fault(&lines, config.units.as_slice()))
}

// The first program that is unused.
fn units_fault(lines: &Table<()>, units: &[Unit]) -> Option<Found<DeclareFault>>
    ensures { (programs : List Spelling) → IsSet programs lines.now
        → IsLeast result (Among (λ u. When (IsUnusedOf programs u) 24 u.place) units.now) }
{
    let mut found = None;
    for unit in units {
        found = earlier(
            found,
            fault_if(is_unused(lines, unit), DeclareFault::BadTask, unit.place),
        );
    }
    found
}

// Whether a unit is a program that is not among these.
fn is_unused(lines: &Table<()>, unit: &Unit) -> bool
    ensures { (programs : List Spelling) → IsSet programs lines.now → result
        ≡ (is_program unit.now && not (is_one_of programs unit.now.name.name)) }
{
    is_program(unit.kind) && !has_name(lines, unit.name.name.as_str())
}
