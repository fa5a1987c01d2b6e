// A state, read.

ghost use Rattle.std.specs.Prelude.{◌≡◌, ◌≤◌, ◌<◌, ◌+◌, ◌^◌, suc, length, slice_get, Some, IfOk, IfErr};
ghost use Rattle.group_spec.specs.Image.{sizes_of};
ghost use Rattle.group_spec.specs.World.{opening_task, opening_tasks_from};
ghost use Rattle.group_spec.specs.Snapshot.{program_of};
ghost use Rattle.il_semantics.specs.Scan.{opening_globals};
ghost use Rattle.scan_task.specs.Scanning.{HasTask};
ghost use Rattle.group_world.specs.Setting.{IsSeated};
ghost use Rattle.group_state.specs.Variables.{left, RefusesGlobals, RefusesTask, RefusesTasks};
ghost use Rattle.group_state.specs.Parts.{IsSplit};
ghost use Rattle.group_state.specs.Walking.{begun_of, ReadsGlobals, ReadsTask, ReadsTasks, ReadsVariables, RefusesAll};
ghost use Rattle.group_state.specs.Reading.{IsState, Explains};

use crate::fault::{StateError, Wrong};
use crate::head::take_head;
use crate::lines::next_line;
use crate::setting::{set_global, set_head, set_variable};
use crate::values::first_value;
use crate::variables::{take_end, take_variable};
use group_world::Core;
use scan_task::Verified;
use std::alloc::Global;

/// A group that was read, what follows its state, and how many lines come before that, with the first line of the text.
#[derive(Drop)]
pub struct Begun<'a> {
    pub core: Core,
    pub rest: &'a [u8],
    pub lines: u64,
}

/// What follows some lines, and the number of its first line.
#[derive(Clone, Copy)]
pub struct Behind<'a> {
    pub rest: &'a [u8],
    pub line: u64,
}

// The next line of a text and what follows it, if there is one.
fn split(text: &[u8]) -> Option<(&[u8], &[u8])>
    ensures { IsSplit text.now result }
{
    next_line(text).ok()
}

// The lines of globals, each of which is given its value.
fn take_globals<'a>(
    core: &mut Core,
    verified: &Verified,
    from: Behind<'a>,
) -> Result<Behind<'a>, Wrong>
    requires program { core.old.config ≡ verified.now.config }
    requires opened { core.old.group.globals ≡ opening_globals verified.now.config }
    requires room { from.line + length from.rest.now < 2 ^ 64 }
    ensures config { core.new.config ≡ core.old.config }
    ensures found { IfOk result (λ to. ReadsGlobals verified.now.config core.old.group from.entry
        core.new.group to) }
    ensures room { IfOk result (λ to. to.line + length to.rest.now < 2 ^ 64) }
    ensures wrong { IfErr result (λ wrong. RefusesGlobals verified.now.config from.entry.rest.now
        from.entry.line wrong) }
{
    let _config = verified.config();
    let cells = verified.globals();
    let first = verified.opening_globals();
    let mut rest = from.rest;
    let mut line = from.line;
    let mut next = split(rest);
    'cells: for at in 0..cells.len() {
        let cell = &cells[at];
        let initial = first_value(cell, first, at);
        let taken = match take_variable(None, cell, initial, rest, next) {
            Ok(taken) => taken,
            Err(fault) => return Err(Wrong { fault, line }),
        };
        let Some((value, behind)) = taken else {
            continue;
        };
        set_global(core, verified, cell, value);
        rest = behind;
        line += 1;
        next = split(rest);
    }
    Ok(Behind { rest, line })
}

// The lines of a task's variables, each of which is given its value.
fn take_task<'a>(
    core: &mut Core,
    verified: &Verified,
    task: u8,
    from: Behind<'a>,
) -> Result<Behind<'a>, Wrong>
    requires program { core.old.config ≡ verified.now.config }
    requires there { HasTask verified.now.config task }
    requires opened { slice_get core.old.group.tasks task
        ≡ Some (opening_task verified.now.config (program_of verified.now.config task)) }
    requires room { from.line + length from.rest.now < 2 ^ 64 }
    ensures config { core.new.config ≡ core.old.config }
    ensures found { IfOk result (λ to. ReadsTask verified.now.config task core.old.group
        from.entry core.new.group to) }
    ensures room { IfOk result (λ to. to.line + length to.rest.now < 2 ^ 64) }
    ensures wrong { IfErr result (λ wrong. RefusesTask verified.now.config task
        (program_of verified.now.config task) (left from.entry.rest.now from.entry.line) wrong) }
{
    let _config = verified.config();
    let cells = verified.own_cells(task);
    let first = verified.opening_variables(task);
    let mut rest = from.rest;
    let mut line = from.line;
    let mut next = split(rest);
    'cells: for at in 0..cells.len() {
        let cell = &cells[at];
        let initial = first_value(cell, first, at);
        let taken = match take_variable(Some(task), cell, initial, rest, next) {
            Ok(taken) => taken,
            Err(fault) => return Err(Wrong { fault, line }),
        };
        let Some((value, behind)) = taken else {
            continue;
        };
        set_variable(core, verified, task, cell, value);
        rest = behind;
        line += 1;
        next = split(rest);
    }
    Ok(Behind { rest, line })
}

// The lines of a task's variables, where the group may not have the task.
fn take_if_there<'a>(
    core: &mut Core,
    verified: &Verified,
    task: u8,
    from: Behind<'a>,
) -> Result<Behind<'a>, Wrong>
    requires program { core.old.config ≡ verified.now.config }
    requires task { task ≤ (sizes_of verified.now.config).cars }
    requires opened { slice_get core.old.group.tasks task
        ≡ Some (opening_task verified.now.config (program_of verified.now.config task)) }
    requires room { from.line + length from.rest.now < 2 ^ 64 }
    ensures config { core.new.config ≡ core.old.config }
    ensures found { IfOk result (λ to. ReadsTask verified.now.config task core.old.group
        from.entry core.new.group to) }
    ensures room { IfOk result (λ to. to.line + length to.rest.now < 2 ^ 64) }
    ensures wrong { IfErr result (λ wrong. RefusesTask verified.now.config task
        (program_of verified.now.config task) (left from.entry.rest.now from.entry.line) wrong) }
{
    let _config = verified.config();
    if !verified.has_task(task) {
        return Ok(from);
    }
    take_task(core, verified, task, from)
}

// The lines of the variables of all tasks: GROUP first, and then the cars'.
fn take_tasks<'a>(
    core: &mut Core,
    verified: &Verified,
    from: Behind<'a>,
) -> Result<Behind<'a>, Wrong>
    requires program { core.old.config ≡ verified.now.config }
    requires opened { core.old.group.tasks ≡ opening_tasks_from verified.now.config 0
        (suc (sizes_of verified.now.config).cars) }
    requires room { from.line + length from.rest.now < 2 ^ 64 }
    ensures config { core.new.config ≡ core.old.config }
    ensures found { IfOk result (λ to. ReadsTasks verified.now.config core.old.group from.entry
        core.new.group to) }
    ensures room { IfOk result (λ to. to.line + length to.rest.now < 2 ^ 64) }
    ensures wrong { IfErr result (λ wrong. RefusesTasks verified.now.config 0
        (suc (sizes_of verified.now.config).cars)
        (left from.entry.rest.now from.entry.line) wrong) }
{
    let _config = verified.config();
    let mut to = from;
    'tasks: for task in 0..verified.sizes().cars + 1 {
        to = take_if_there(core, verified, task, to)?;
    }
    Ok(to)
}

// The variables of a group, of which the head is set, and the last line after them.
fn take_variables<'a>(
    core: &mut Core,
    verified: &Verified,
    from: Behind<'a>,
) -> Result<Behind<'a>, Wrong>
    requires program { core.old.config ≡ verified.now.config }
    requires globals { core.old.group.globals ≡ opening_globals verified.now.config }
    requires tasks { core.old.group.tasks ≡ opening_tasks_from verified.now.config 0
        (suc (sizes_of verified.now.config).cars) }
    requires room { from.line + length from.rest.now < 2 ^ 64 }
    ensures config { core.new.config ≡ core.old.config }
    ensures found { IfOk result (λ to. ReadsVariables verified.now.config core.old.group
        from.entry core.new.group to) }
    ensures wrong { IfErr result (λ wrong. RefusesAll verified.now.config from.entry.rest.now
        from.entry.line wrong) }
{
    let to = take_globals(core, verified, from)?;
    let Behind { rest: last, line } = take_tasks(core, verified, to)?;
    match take_end(last) {
        Ok(rest) => Ok(Behind { rest, line }),
        Err(fault) => Err(Wrong { fault, line }),
    }
}

/// The group whose state a text is, from its line CONFIGURATION on. The digest is the SHA-256 of the bytes of the
/// configuration. A fault names the line of the whole text, of which `LIFTTRACE 3` is the first.
pub fn read_state<'a>(
    alloc: Global,
    verified: &Verified,
    digest: &[u8; 32],
    text: &'a [u8],
) -> Result<Begun<'a>, StateError>
    ensures state { IfOk result (λ b. IsState verified.now.config digest.now text.now
        (begun_of b)) }
    ensures config { IfOk result (λ b. b.core.config ≡ verified.now.config) }
    ensures seated { IfOk result (λ b. IsSeated b.core.config b.core.group) }
    ensures wrong { IfErr result (λ e. Explains verified.now.config digest.now text.now e) }
{
    let _config = verified.config();
    let sizes = verified.sizes();
    let (head, rest) = take_head(sizes, digest, text)?;
    let mut core = Core::new(alloc, verified)?;
    set_head(&mut core, &head);
    let line = 7 + u64::from(sizes.cars) + u64::from(sizes.slots);
    let to = take_variables(&mut core, verified, Behind { rest, line })?;
    Ok(Begun {
        core,
        rest: to.rest,
        lines: to.line,
    })
}
