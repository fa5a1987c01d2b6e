// The slots of the tasks of PROGRAM lines.

ghost use Rattle.std.specs.Prelude.{◌≡◌, ◌++◌, ◌<◌, [], true, length, slice_get, Some, IfOk};
ghost use Rattle.il_syntax.specs.declared.tree.Unit.{Unit as ProgramUnit};
ghost use Rattle.il_statics.specs.Names.{is_program, program_named};
ghost use Rattle.il_semantics.specs.Meaning.{entities};
ghost use Rattle.il_semantics_laws.specs.Accepted.{IsAccepted};
ghost use Rattle.load_code.specs.Laying.{openings_to, laid_task, task_by, program_task};
ghost use Rattle.load_slots.specs.Making.{block_lists};
ghost use Rattle.load_slots.specs.Places.{seen_image};
ghost use Rattle.load_code.specs.Tasks.{IsTaskOf, AreTasksOf};

use crate::framing::{Frames, add_openings, add_own, bases_of, framed_units, frames_of};
use crate::laying::{Blocks, Opening};
use crate::task::TaskCode;
use base_lists::Items;
use il_syntax::tree::{ProgramLine, Unit};
use load_order::Ordered;
use load_scope::{Scoped, is_program};
use load_slots::variables::{Variable, global_variables, other_variables};
use std::alloc::{AllocError, Global};

// The slots of what a program sees beside its own variables: its externals, and the image.
#[tactic(auto, using(crate::proofs::Laid::seen_list))]
fn seen_openings(alloc: Global, blocks: &Blocks, unit: &Unit) -> Result<Items<Opening>, AllocError>
    requires { is_program unit.now ≡ true }
    ensures { IfOk result (λ os. os ≡ openings_to 17 blocks.now.names.now []
        (entities unit.now.externals ++ seen_image blocks.now.names.now unit.now)) }
{
    let list = other_variables(alloc, blocks.names, unit)?;
    let mut openings = Items::new(alloc);
    add_openings(alloc, blocks, &mut openings, 17, "", list.as_slice())?;
    Ok(openings)
}

// A task with the slots that stay, and those of what its program sees beside.
fn task_with(
    alloc: Global,
    blocks: &Blocks,
    unit: &Unit,
    own: &[Opening],
    bases: Items<usize>,
) -> Result<TaskCode, AllocError>
    requires { is_program unit.now ≡ true }
    ensures { IfOk result (λ t. t ≡ laid_task own.now
        (openings_to 17 blocks.now.names.now []
        (entities unit.now.externals ++ seen_image blocks.now.names.now unit.now)) bases) }
{
    let seen = seen_openings(alloc, blocks, unit)?;
    TaskCode::of(alloc, own, seen.as_slice(), bases)
}

// The slots of the task of a program after the frames of the functions that it uses.
fn framed_task(
    alloc: Global,
    blocks: &Blocks,
    unit: &Unit,
    frames: Frames,
) -> Result<TaskCode, AllocError>
    requires { is_program unit.now ≡ true }
    ensures { IfOk result (λ t. t ≡ task_by blocks.now.names.now unit.now frames) }
{
    let mut own = frames.openings;
    let bases = bases_of(alloc, frames.bases.as_slice(), own.as_slice().len())?;
    add_own(alloc, blocks, &mut own, unit)?;
    task_with(alloc, blocks, unit, own.as_slice(), bases)
}

// The slots of the task of a program, where these units have frames.
fn program_task(
    alloc: Global,
    blocks: &Blocks,
    unit: &Unit,
    framed: &[bool],
) -> Result<TaskCode, AllocError>
    requires program { is_program unit.now ≡ true }
    requires framed { length framed.now ≡ length blocks.now.names.now.units }
    ensures { IfOk result (λ t. t ≡ program_task blocks.now.names.now unit.now framed.now) }
{
    let frames = frames_of(alloc, blocks, framed)?;
    framed_task(alloc, blocks, unit, frames)
}

// No slots.
fn no_task(alloc: Global) -> Result<TaskCode, AllocError> {
    TaskCode::of(alloc, &[], &[], Items::new(alloc))
}

// The slots of the task of a unit, if it is a program.
fn unit_task(
    alloc: Global,
    blocks: &Blocks,
    unit: &Unit,
    framed: &[bool],
) -> Result<TaskCode, AllocError>
    requires { length framed.now ≡ length blocks.now.names.now.units }
    ensures { IfOk result (λ t. is_program unit.now ≡ true → t
        ≡ program_task blocks.now.names.now unit.now framed.now) }
{
    if is_program(unit.kind) {
        program_task(alloc, blocks, unit, framed)
    } else {
        no_task(alloc)
    }
}

// The slots of the task of the unit of a number.
fn task_of(
    alloc: Global,
    blocks: &Blocks,
    ordered: &Ordered,
    at: usize,
) -> Result<TaskCode, AllocError>
    requires { blocks.now.names.now ≡ ordered.now }
    ensures { IfOk result (λ t. (p : ProgramUnit) → slice_get blocks.now.names.now.units at
        ≡ Some p → IsAccepted blocks.now.names.now p → IsTaskOf blocks.now.names.now p t) }
{
    let units = blocks.names.config().units.as_slice();
    if at >= units.len() {
        let task = no_task(alloc)?;
        return Ok(task);
    }
    let unit = &units[at];
    let framed = framed_units(alloc, ordered, at)?;
    let task = unit_task(alloc, blocks, unit, framed.as_slice())?;
    Ok(task)
}

// The slots of the task of a PROGRAM line.
fn line_task(
    alloc: Global,
    blocks: &Blocks,
    ordered: &Ordered,
    line: &ProgramLine,
) -> Result<TaskCode, AllocError>
    requires { blocks.now.names.now ≡ ordered.now }
    ensures { IfOk result (λ t. (p : ProgramUnit)
        → program_named blocks.now.names.now line.now.program.name ≡ Some p
        → IsAccepted blocks.now.names.now p → IsTaskOf blocks.now.names.now p t) }
{
    match blocks.names.program(line.program.name.as_str()) {
        Some(at) => {
            let task = task_of(alloc, blocks, ordered, at)?;
            Ok(task)
        }
        None => {
            let none = no_task(alloc)?;
            Ok(none)
        }
    }
}

// The slots of the task of each PROGRAM line.
fn line_tasks(
    alloc: Global,
    blocks: &Blocks,
    ordered: &Ordered,
    lines: &[ProgramLine],
) -> Result<Items<TaskCode>, AllocError>
    requires { blocks.now.names.now ≡ ordered.now }
    ensures { IfOk result (λ ts. AreTasksOf blocks.now.names.now lines.now ts) }
{
    let mut tasks = Items::new(alloc);
    'lines: for line in lines {
        tasks.push(line_task(alloc, blocks, ordered, line)?)?;
    }
    Ok(tasks)
}

// The slots of the globals, with the values with which they begin.
fn global_openings(alloc: Global, blocks: &Blocks) -> Result<Items<Opening>, AllocError>
    ensures { IfOk result (λ os. os ≡ openings_to 0 blocks.now.names.now []
        (entities blocks.now.names.now.globals)) }
{
    let list = global_variables(alloc, blocks.names)?;
    let mut openings = Items::new(alloc);
    add_openings(alloc, blocks, &mut openings, 0, "", list.as_slice())?;
    Ok(openings)
}

// The slots of the globals, with those of no task after them.
fn laid_globals(alloc: Global, blocks: &Blocks) -> Result<TaskCode, AllocError>
    ensures { IfOk result (λ t. t ≡ laid_task
        (openings_to 0 blocks.now.names.now [] (entities blocks.now.names.now.globals)) [] []) }
{
    let openings = global_openings(alloc, blocks)?;
    TaskCode::of(alloc, openings.as_slice(), &[], Items::new(alloc))
}

/// The slots of the task of each PROGRAM line, in the written order, and those of the globals, from the variables of all blocks.
pub fn tasks_and_globals(
    alloc: Global,
    ordered: &Ordered,
    names: &Scoped,
    lists: &[Items<Variable>],
) -> Result<(Items<TaskCode>, TaskCode), AllocError>
    requires same { names.now ≡ ordered.now }
    requires lists { lists.now ≡ block_lists names.now }
    ensures tasks { IfOk result (λ p. AreTasksOf names.now names.now.programs p.0) }
    ensures globals { IfOk result (λ p. p.1 ≡ laid_task
        (openings_to 0 names.now [] (entities names.now.globals)) [] []) }
{
    let blocks = Blocks { names, lists };
    let lines = names.config().programs.as_slice();
    let tasks = line_tasks(alloc, &blocks, ordered, lines)?;
    let globals = laid_globals(alloc, &blocks)?;
    Ok((tasks, globals))
}
