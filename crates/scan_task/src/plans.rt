// Tasks as they run: their programs, and the slots of what they share of the globals.

ghost use Rattle.std.specs.Prelude.{◌≡◌, ◌≤◌, ◌<◌, Some, IfOk, length, slice_get};
ghost use Rattle.il_syntax.specs.declared.tree.Unit.{Unit as ProgramUnit};
ghost use Rattle.il_statics.specs.Faults.{Broken, Declaring, HasNoFault};
ghost use Rattle.load_slots.specs.Whole.{number_in};
ghost use Rattle.group_spec.specs.Image.{sizes_of};
ghost use Rattle.group_spec.specs.Snapshot.{program_of};
ghost use Rattle.scan_task.specs.Scanning.{IsRunnable, HasTask};
ghost use Rattle.scan_task.specs.Sharing.{external_cells, IsPlan, IsPlanOf, ArePlans};
ghost use Rattle.scan_task.specs.Listing.{program_line_of};

use crate::sharing::{Transfer, between, image_count, slots_in, transfers};
use crate::verified::line_number;
use base_lists::Items;
use group_spec::image::{Sizes, TASK_PLACES};
use il_syntax::tree::Config;
use load_code::Code;
use load_scope::UnitScope;
use load_slots::flat::Cell;
use std::alloc::{AllocError, Global};

/// A task as it runs: the number of its PROGRAM line, the number of its program among the units, the slots of the globals that
/// the program lists, and where those that it writes come from.
#[derive(Drop)]
pub struct TaskPlan {
    pub line: usize,
    pub unit: usize,
    pub listed: Items<usize>,
    pub written: Items<Transfer>,
}

/// How many cars, floors and call slots a configuration has.
pub fn sizes_of(config: &Config) -> Sizes
    requires { HasNoFault (Broken Declaring config.now) }
    ensures { result ≡ sizes_of config.now }
{
    Sizes {
        cars: config.cars.value as u8,
        floors: config.floors.value as u8,
        slots: config.slots.value as u8,
    }
}

// The number of the program of a PROGRAM line.
fn program_number(code: &Code, task: u8, line: usize) -> usize
    requires runs { IsRunnable code.now }
    requires there { HasTask code.now task }
    requires within { line < length code.now.programs }
    requires line { slice_get code.now.programs line ≡ program_line_of code.now.programs task }
    ensures stands { (u : ProgramUnit) → program_of code.now task ≡ Some u
        → slice_get code.now.units result ≡ Some u }
    ensures first { (u : ProgramUnit) → program_of code.now task ≡ Some u
        → result ≡ number_in code.now.units u.name.name }
{
    let lines = code.config().programs.as_slice();
    match code.names().program(lines[line].program.name.as_str()) {
        Some(unit) => unit,
        None => unreachable!(),
    }
}

// The slots of the externals of a task's program, in its layout.
fn externals(code: &Code, task: u8, line: usize) -> &[Cell]
    requires runs { IsRunnable code.now }
    requires there { HasTask code.now task }
    requires within { line < length code.now.programs }
    requires line { slice_get code.now.programs line ≡ program_line_of code.now.programs task }
    ensures { (u : ProgramUnit) → program_of code.now task ≡ Some u
        → result.now ≡ external_cells code.now u }
{
    let layout = code.task(line);
    let image = image_count(sizes_of(code.config()), task);
    between(layout.cells(), layout.own(), image)
}

// A task as it runs, by the number of its PROGRAM line.
fn plan_at(alloc: Global, code: &Code, task: u8, line: usize) -> Result<TaskPlan, AllocError>
    requires runs { IsRunnable code.now }
    requires there { HasTask code.now task }
    requires within { line < length code.now.programs }
    requires line { slice_get code.now.programs line ≡ program_line_of code.now.programs task }
    ensures { IfOk result
        (λ s. (u : ProgramUnit) → program_of code.now task ≡ Some u → IsPlan code.now u s) }
{
    let unit = program_number(code, task, line);
    let scope = UnitScope::of(code.names(), unit, &code.config().units.as_slice()[unit]);
    let cells = externals(code, task, line);
    let listed = slots_in(alloc, code.globals(), cells)?;
    let written = transfers(alloc, &scope, code.task(line), code.globals(), cells)?;
    Ok(TaskPlan {
        line,
        unit,
        listed,
        written,
    })
}

// A task as it runs, if the group has it.
fn plan_of(alloc: Global, code: &Code, task: u8) -> Result<Option<TaskPlan>, AllocError>
    requires runs { IsRunnable code.now }
    ensures { IfOk result (IsPlanOf code.now task) }
{
    if task > sizes_of(code.config()).cars {
        return Ok(None);
    }
    match line_number(code.config().programs.as_slice(), task) {
        Some(line) => Ok(Some(plan_at(alloc, code, task, line)?)),
        None => Ok(None),
    }
}

/// The tasks by their numbers as they run, those that the group has.
pub fn plans(alloc: Global, code: &Code) -> Result<Items<Option<TaskPlan>>, AllocError>
    requires runs { IsRunnable code.now }
    ensures { IfOk result (ArePlans code.now) }
{
    let mut list = Items::new(alloc);
    'tasks: for task in 0..TASK_PLACES as u8 {
        let plan = plan_of(alloc, code, task)?;
        list.push(plan)?;
    }
    Ok(list)
}
