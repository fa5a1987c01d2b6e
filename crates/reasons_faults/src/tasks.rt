// What is reported of tasks, PROGRAM lines and programs (24), and of sizes (23).

ghost use Rattle.std.specs.Prelude.{◌≡◌, ◌++◌, List, ℕ, OnOk, flat_map, map, option_map};
ghost use Rattle.base_texts.specs.Puts.{Puts};
ghost use Rattle.il_statics.specs.Declarations.{names_of_tasks};
ghost use Rattle.il_statics.specs.Names.{is_one_of};
ghost use Rattle.reasons_faults.specs.TaskReasons.{foreign_line, no_task_line, no_program_line, second_line, no_such_line, group_line, car_line, unused_line, foreign_by, foreign_lines, idle_lines, task_lines, unknown_task_lines, first_place, second_by, second_lines, no_such_by, no_such_lines, role_by, role_lines, wrong_lines, program_lines, car_words, missing_car, missing_lines, unused_lines, bad_task_lines, size_lines, sizes_lines};

use il_statics::names::Role;
use il_syntax::tree::{Config, Place, ProgramLine, Size, Task, Unit};
use load_scope::roles::task_role;
use load_scope::{Scoped, is_program};
use reasons_names::writing::{put_in_line, put_two};
use std::alloc::AllocError;

// The name of a car's task.
#[derive(Clone, Copy)]
struct CarWord {
    text: &'static str,
}

static CARS: [CarWord; 8] = [
    CarWord { text: "CAR1" },
    CarWord { text: "CAR2" },
    CarWord { text: "CAR3" },
    CarWord { text: "CAR4" },
    CarWord { text: "CAR5" },
    CarWord { text: "CAR6" },
    CarWord { text: "CAR7" },
    CarWord { text: "CAR8" },
];

/// What is wrong with the task, the PROGRAM line or the program at a place, or with the tasks at END_RESOURCE (24).
pub(crate) fn put_bad_task(text: &mut String, names: &Scoped, offset: u32) -> Result<(), AllocError>
    ensures { OnOk result (Puts text.old text.new (bad_task_lines names.now offset)) }
{
    let config = names.config();
    put_tasks(text, names, config.tasks.as_slice(), offset)?;
    put_programs(text, names, config.programs.as_slice(), offset)?;
    put_missing(text, names, offset)?;
    put_unused(text, config, config.units.as_slice(), offset)
}

// Of TASK lines.
fn put_tasks(
    text: &mut String,
    names: &Scoped,
    tasks: &[Task],
    offset: u32,
) -> Result<(), AllocError>
    ensures { OnOk result (Puts text.old text.new
        (flat_map (task_lines names.now offset) tasks.now)) }
{
    'tasks: for task in tasks {
        put_task(text, names, task, offset)?;
    }
    Ok(())
}

fn put_task(text: &mut String, names: &Scoped, task: &Task, offset: u32) -> Result<(), AllocError>
    ensures { OnOk result (Puts text.old text.new (task_lines names.now offset task.now)) }
{
    put_foreign(text, names, task, offset)?;
    put_idle(text, names.config(), task, offset)
}

// A task that is none of the group's.
fn put_foreign(
    text: &mut String,
    names: &Scoped,
    task: &Task,
    offset: u32,
) -> Result<(), AllocError>
    ensures { OnOk result (Puts text.old text.new (foreign_lines names.now offset task.now)) }
{
    let name = task.name.name.as_str();
    let cars = names.config().cars.value;
    if task.place.offset == offset {
        put_foreign_by(text, name, task_role(cars, name))
    } else {
        Ok(())
    }
}

#[tactic(auto, unfolding(crate::specs::TaskReasons::foreign_line))]
fn put_foreign_by(text: &mut String, name: &str, role: Option<Role>) -> Result<(), AllocError>
    ensures { OnOk result (Puts text.old text.new (foreign_by name.now role)) }
{
    match role {
        Some(_) => Ok(()),
        None => put_two(
            text,
            name,
            " is no task of this group: its tasks are CAR1 up to CARS, and perhaps GROUP\n",
        ),
    }
}

// At END_RESOURCE a task without a PROGRAM line.
#[tactic(auto, unfolding(crate::specs::TaskReasons::no_program_line))]
fn put_idle(text: &mut String, config: &Config, task: &Task, offset: u32) -> Result<(), AllocError>
    ensures { OnOk result (Puts text.old text.new (idle_lines config.now offset task.now)) }
{
    let name = task.name.name.as_str();
    if config.end_resource.offset == offset && !has_line(config.programs.as_slice(), name) {
        put_two(text, name, " has no PROGRAM line\n")
    } else {
        Ok(())
    }
}

// Whether a task has a PROGRAM line.
fn has_line(lines: &[ProgramLine], task: &str) -> bool
    ensures { result ≡ is_one_of (map (λ l. l.task.name) lines.now) task.now }
{
    'lines: for line in lines {
        if line.task.name.as_str() == task {
            return true;
        }
    }
    false
}

// Whether a PROGRAM line names a program.
fn is_named(lines: &[ProgramLine], program: &str) -> bool
    ensures { result ≡ is_one_of (map (λ l. l.program.name) lines.now) program.now }
{
    'lines: for line in lines {
        if line.program.name.as_str() == program {
            return true;
        }
    }
    false
}

// Whether a task has a TASK line.
fn has_task(tasks: &[Task], name: &str) -> bool
    ensures { result ≡ is_one_of (map (λ t. t.name.name) tasks.now) name.now }
{
    'tasks: for task in tasks {
        if task.name.name.as_str() == name {
            return true;
        }
    }
    false
}

// Of PROGRAM lines.
fn put_programs(
    text: &mut String,
    names: &Scoped,
    lines: &[ProgramLine],
    offset: u32,
) -> Result<(), AllocError>
    ensures { OnOk result (Puts text.old text.new
        (flat_map (program_lines names.now offset) lines.now)) }
{
    'lines: for line in lines {
        put_program(text, names, line, offset)?;
    }
    Ok(())
}

fn put_program(
    text: &mut String,
    names: &Scoped,
    line: &ProgramLine,
    offset: u32,
) -> Result<(), AllocError>
    ensures { OnOk result (Puts text.old text.new (program_lines names.now offset line.now)) }
{
    if line.place.offset == offset {
        put_wrong(text, names, line)
    } else {
        Ok(())
    }
}

// What is wrong with a PROGRAM line.
fn put_wrong(text: &mut String, names: &Scoped, line: &ProgramLine) -> Result<(), AllocError>
    ensures { OnOk result (Puts text.old text.new (wrong_lines names.now line.now)) }
{
    put_unknown_task(text, names.config(), line)?;
    put_second(text, names.config(), line)?;
    put_no_such(text, names, line)?;
    put_role(text, names, line)
}

// Its task has no TASK line.
fn put_unknown_task(
    text: &mut String,
    config: &Config,
    line: &ProgramLine,
) -> Result<(), AllocError>
    ensures { OnOk result (Puts text.old text.new (unknown_task_lines config.now line.now)) }
{
    let name = line.task.name.as_str();
    if has_task(config.tasks.as_slice(), name) {
        Ok(())
    } else {
        put_no_task(text, name)
    }
}

#[tactic(auto, unfolding(crate::specs::TaskReasons::no_task_line))]
fn put_no_task(text: &mut String, name: &str) -> Result<(), AllocError>
    ensures { OnOk result (Puts text.old text.new (no_task_line name.now)) }
{
    put_two(text, name, " has no TASK line\n")
}

// Its task has an earlier one.
fn put_second(text: &mut String, config: &Config, line: &ProgramLine) -> Result<(), AllocError>
    ensures { OnOk result (Puts text.old text.new (second_lines config.now line.now)) }
{
    let name = line.task.name.as_str();
    let first = first_place(config.programs.as_slice(), name);
    put_second_by(text, name, line.place.offset, first)
}

#[tactic(auto, unfolding(crate::specs::TaskReasons::second_line))]
fn put_second_by(
    text: &mut String,
    name: &str,
    offset: u32,
    first: Option<Place>,
) -> Result<(), AllocError>
    ensures { OnOk result (Puts text.old text.new (second_by name.now offset first)) }
{
    match first {
        Some(first) if first.offset != offset => put_in_line(
            text,
            name,
            " has a PROGRAM line already, in line ",
            first.line,
            "\n",
        ),
        _ => Ok(()),
    }
}

// The place of the first PROGRAM line of a task.
fn first_place(lines: &[ProgramLine], task: &str) -> Option<Place>
    ensures { result ≡ first_place lines.now task.now }
{
    'lines: for line in lines {
        if line.task.name.as_str() == task {
            return Some(line.place);
        }
    }
    None
}

// Its program is none.
fn put_no_such(text: &mut String, names: &Scoped, line: &ProgramLine) -> Result<(), AllocError>
    ensures { OnOk result (Puts text.old text.new (no_such_lines names.now line.now)) }
{
    let name = line.program.name.as_str();
    put_no_such_by(text, name, names.program(name))
}

#[tactic(auto, unfolding(crate::specs::TaskReasons::no_such_line))]
fn put_no_such_by(text: &mut String, name: &str, number: Option<usize>) -> Result<(), AllocError>
    ensures { OnOk result (Puts text.old text.new (no_such_by name.now number)) }
{
    match number {
        Some(_) => Ok(()),
        None => put_two(text, name, " is no program\n"),
    }
}

// Its task and its program are of different roles.
fn put_role(text: &mut String, names: &Scoped, line: &ProgramLine) -> Result<(), AllocError>
    ensures { OnOk result (Puts text.old text.new (role_lines names.now line.now)) }
{
    let name = line.program.name.as_str();
    let task = task_role(names.config().cars.value, line.task.name.as_str());
    put_role_by(text, name, task, names.role(name))
}

#[tactic(auto, unfolding(crate::specs::TaskReasons::group_line, crate::specs::TaskReasons::car_line))]
fn put_role_by(
    text: &mut String,
    name: &str,
    task: Option<Role>,
    program: Option<Role>,
) -> Result<(), AllocError>
    ensures { OnOk result (Puts text.old text.new (role_by name.now task program)) }
{
    match (task, program) {
        (Some(Role::Car), Some(Role::Group)) => {
            put_two(
                text,
                name,
                " is the program of GROUP, so it is that of no car\n",
            )
        }
        (Some(Role::Group), Some(Role::Car)) => {
            put_two(
                text,
                name,
                " is the program of a car, so it is not that of GROUP\n",
            )
        }
        _ => Ok(()),
    }
}

// At END_RESOURCE each car of the group without a TASK line.
fn put_missing(text: &mut String, names: &Scoped, offset: u32) -> Result<(), AllocError>
    ensures { OnOk result (Puts text.old text.new (missing_lines names.now offset)) }
{
    if names.config().end_resource.offset == offset {
        put_missing_cars(text, names)
    } else {
        Ok(())
    }
}

fn put_missing_cars(text: &mut String, names: &Scoped) -> Result<(), AllocError>
    ensures { OnOk result (Puts text.old text.new
        (flat_map (missing_car names.now) car_words)) }
{
    put_missing_of(text, names, cars())
}

// The names of the tasks that cars can have.
#[tactic(auto, unfolding(crate::specs::TaskReasons::car_words))]
fn cars() -> &'static [CarWord]
    ensures { map (λ w. w.text.now) result.now ≡ car_words }
{
    &CARS
}

fn put_missing_of(
    text: &mut String,
    names: &Scoped,
    rows: &'static [CarWord],
) -> Result<(), AllocError>
    ensures { OnOk result (Puts text.old text.new
        (flat_map (λ w. missing_car names.now w.text.now) rows.now)) }
{
    'rows: for row in rows {
        put_missing_car(text, names, row.text)?;
    }
    Ok(())
}

fn put_missing_car(text: &mut String, names: &Scoped, name: &str) -> Result<(), AllocError>
    ensures { OnOk result (Puts text.old text.new (missing_car names.now name.now)) }
{
    let config = names.config();
    let is_car = task_role(config.cars.value, name).is_some();
    if is_car && !has_task(config.tasks.as_slice(), name) {
        put_no_task(text, name)
    } else {
        Ok(())
    }
}

// Programs that no PROGRAM line names.
fn put_unused(
    text: &mut String,
    config: &Config,
    units: &[Unit],
    offset: u32,
) -> Result<(), AllocError>
    ensures { OnOk result (Puts text.old text.new
        (flat_map (unused_lines config.now offset) units.now)) }
{
    'units: for unit in units {
        put_unused_unit(text, config, unit, offset)?;
    }
    Ok(())
}

#[tactic(auto, unfolding(crate::specs::TaskReasons::unused_line))]
fn put_unused_unit(
    text: &mut String,
    config: &Config,
    unit: &Unit,
    offset: u32,
) -> Result<(), AllocError>
    ensures { OnOk result (Puts text.old text.new (unused_lines config.now offset unit.now)) }
{
    let name = unit.name.name.as_str();
    if unit.place.offset != offset {
        return Ok(());
    }
    if is_program(unit.kind) && !is_named(config.programs.as_slice(), name) {
        put_two(text, name, " is a program that no PROGRAM line names\n")
    } else {
        Ok(())
    }
}

/// The limits of the size whose number is at a place (23).
pub(crate) fn put_sizes(text: &mut String, config: &Config, offset: u32) -> Result<(), AllocError>
    ensures { OnOk result (Puts text.old text.new (sizes_lines config.now offset)) }
{
    put_size(text, "CARS is from 1 to 8\n", offset, config.cars)?;
    put_size(text, "FLOORS is from 2 to 16\n", offset, config.floors)?;
    put_size(text, "SLOTS is from 1 to 64\n", offset, config.slots)
}

fn put_size(text: &mut String, line: &str, offset: u32, size: Size) -> Result<(), AllocError>
    ensures { OnOk result (Puts text.old text.new (size_lines line.now offset size)) }
{
    if size.place.offset == offset {
        text.push_str(line)
    } else {
        Ok(())
    }
}
