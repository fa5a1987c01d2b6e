// A task's scan on its rows: its start, its steps, and what it hands over.

ghost use Rattle.std.specs.Prelude.{◌≡◌, ◌≢◌, ◌≤◌, ◌↔◌, ◌+◌, ◌++◌, List, [], None, length, map, replicate, IfOk};
ghost use Rattle.il_semantics.specs.Step.{Next, step as step_of};
ghost use Rattle.il_semantics.specs.Scan.{Reaches};
ghost use Rattle.base_maps.specs.NameMap.{Text};
ghost use Rattle.il_semantics.specs.Ranges.{HoldGlobals};
ghost use Rattle.il_semantics.specs.declared.value.Value.{Value as Written};
ghost use Rattle.load_slots.specs.Whole.{first_rows};
ghost use Rattle.scan_loop.specs.Going.{going};
ghost use Rattle.group_spec.specs.Image.{sizes_of};
ghost use Rattle.group_spec.specs.Image as opens;
ghost use Rattle.group_spec.specs.declared.calls.Slot.TheVariants.{Free};
ghost use Rattle.group_spec.specs.Snapshot.{scan_begins, program_of, written_globals};
ghost use Rattle.scan_image.specs.Image.{image_values};
ghost use Rattle.scan_task.specs.Standing.{IsBeginning, beginning_in, beginning_with, opening_beginning};
ghost use Rattle.scan_task.specs.Starting.{joined, listed_values, FitsTask};
ghost use Rattle.scan_task.specs.Scanning.{IsRunnable, kept_of, variables_in, front, HasTask, FitsOwn, IsScanOf, OwnsDeclared};
ghost use Rattle.scan_task.specs.Sharing.{globals_in, FitsGlobals};
ghost use Rattle.scan_task.specs.Ran.{stands};

use crate::globals::{Listed, take_written, write_listed};
use crate::rows::{copied, take_front};
use crate::store::Begin;
use crate::verified::Verified;
use group_calls::book::CallBook;
use group_spec::image::{Image, Sizes};
use scan_image::image::write_image;
use scan_image::opening_image;
use scan_loop::ScanState;
use scan_loop::frames::{Frame, Frames, Pairs};
use scan_step::rows::Rows;
use std::alloc::{AllocError, Global};

/// How a step left the scan.
#[derive(Clone, Copy)]
pub enum Stepped {
    More,
    End,
}

// One step of the task's scan (IEC 61131-3:2003, 3.2).
pub fn step(verified: &Verified, task: u8, scan: &mut ScanState) -> Stepped
    requires scan { IsScanOf verified.now.config task scan.old }
    requires going { (kept_of verified.now.config task scan.old).frames ≢ [] }
    ensures step { step_of verified.now.config (stands verified.now.config task scan.old)
        ≡ Next (stands verified.now.config task scan.new) }
    ensures scan { IsScanOf verified.now.config task scan.new }
    ensures end { (result ≡ Stepped.End)
        ↔ ((kept_of verified.now.config task scan.new).frames ≡ []) }
{
    scan.advance(verified.running(task));
    match scan.running {
        Some(_) => Stepped::More,
        None => Stepped::End,
    }
}

// A task's scan from where it is to its end, and how many steps that takes (IEC 61131-3:2003, 3.2).
pub fn finish(verified: &Verified, task: u8, scan: &mut ScanState) -> u32
    requires scan { IsScanOf verified.now.config task scan.old }
    requires going { (kept_of verified.now.config task scan.old).frames ≢ [] }
    ensures scan { IsScanOf verified.now.config task scan.new }
    ensures ended { (kept_of verified.now.config task scan.new).frames ≡ [] }
    ensures steps { Reaches verified.now.config result (stands verified.now.config task scan.old)
        (stands verified.now.config task scan.new) }
    ensures some { 1 ≤ result }
{
    let budget = verified.budget(task);
    scan.run(verified.running(task), budget)
}

// Writes what a scan starts with after the task's variables: the globals that its program lists, and the image.
#[inline(always)]
fn write_seen(
    rows: &mut Rows,
    own: usize,
    sizes: Sizes,
    task: u8,
    listed: Listed<'_>,
    image: &Image,
    calls: &CallBook,
)
    requires fields { task ≤ length image.now.fields.cars }
    requires outputs { task ≤ length image.now.outputs }
    requires numbers { length rows.old.numbers
        ≡ own
        + (length listed.slots.now
        + length (image_values sizes task image.now calls.now.slots)) }
    requires flags { length rows.old.flags
        ≡ own
        + (length listed.slots.now
        + length (image_values sizes task image.now calls.now.slots)) }
    ensures { (given : List (Text × Written))
        → map (λ e. e.1) given
        ≡ listed_values listed.entry ++ image_values sizes task image.now calls.now.slots
        → rows.new ≡ joined (front own rows.old) (first_rows given) }
{
    let _room = rows.numbers.len();
    write_listed(rows, own, listed);
    write_image(rows, own + listed.slots.len(), sizes, task, image, calls);
}

// The scan begins with this frame.
fn enter(scan: &mut ScanState, frame: Frame)
    ensures { scan.new ≡ going scan.old.rows frame [] [] None }
{
    scan.callers.clear();
    scan.pairs.clear();
    scan.running = Some(frame);
    scan.result = None;
}

// A scan's start with what is lent after the task's variables, which the first rows hold.
#[inline(always)]
pub fn start_behind(verified: &Verified, task: u8, scan: &mut ScanState, begin: &Begin<'_>)
    requires rows { FitsTask verified.now.config task scan.old.rows }
    requires begin { IsBeginning verified.now.config task begin.now }
    requires own { variables_in verified.now.config task
        (front (length begin.now.variables.now.numbers) scan.old.rows)
        ≡ variables_in verified.now.config task begin.now.variables.now }
    ensures begins { stands verified.now.config task scan.new
        ≡ scan_begins verified.now.config task (beginning_in verified.now.config task begin.now) }
    ensures scan { IsScanOf verified.now.config task scan.new }
{
    let _count = verified.slot_count(task);
    let frame = verified.first_frame(task);
    let listed = verified.listed(task, begin.globals);
    let sizes = verified.sizes();
    let own = begin.variables.len();
    write_seen(
        &mut scan.rows,
        own,
        sizes,
        task,
        listed,
        begin.image,
        begin.calls,
    );
    enter(scan, frame);
}

// A scan's start with what is lent, in rows that are as long as the task's.
pub fn start(verified: &Verified, task: u8, scan: &mut ScanState, begin: &Begin<'_>)
    requires rows { FitsTask verified.now.config task scan.old.rows }
    requires begin { IsBeginning verified.now.config task begin.now }
    ensures begins { stands verified.now.config task scan.new
        ≡ scan_begins verified.now.config task (beginning_in verified.now.config task begin.now) }
    ensures scan { IsScanOf verified.now.config task scan.new }
{
    take_front(&mut scan.rows, begin.variables);
    start_behind(verified, task, scan, begin);
}

// Rows of so many slots.
pub fn room(alloc: Global, count: usize) -> Result<Rows, AllocError>
    ensures numbers { IfOk result (λ r. length r.numbers ≡ count) }
    ensures flags { IfOk result (λ r. length r.flags ≡ count) }
{
    Ok(Rows {
        numbers: vec![in alloc; 0; count]?,
        flags: vec![in alloc; false; count]?,
    })
}

// A scan that begins as the group opens, in rows that are as long as the task's.
fn opened(
    verified: &Verified,
    task: u8,
    rows: Rows,
    variables: &Rows,
    globals: &Rows,
    calls: &CallBook,
) -> ScanState
    requires runs { IsRunnable verified.now.config }
    requires rows { FitsTask verified.now.config task rows }
    requires variables { FitsOwn verified.now.config task variables.now }
    requires own { OwnsDeclared verified.now.config task
        (variables_in verified.now.config task variables.now) }
    requires globals { FitsGlobals verified.now.config globals.now }
    requires shared { HoldGlobals verified.now.config (globals_in verified.now.config globals.now) }
    requires slots { calls.now.slots ≡ replicate (sizes_of verified.now.config).slots Free }
    ensures scan { IsScanOf verified.now.config task result }
    ensures begins { stands verified.now.config task result
        ≡ scan_begins verified.now.config task
        (beginning_with verified.now.config task variables.now
        (opens.opening_image (sizes_of verified.now.config)) calls.now.slots globals.now) }
{
    let image = opening_image(verified.sizes());
    let mut scan = ScanState {
        rows,
        running: None,
        pairs: Pairs::new(),
        callers: Frames::new(),
        result: None,
    };
    let begin = Begin {
        variables,
        globals,
        image: &image,
        calls,
    };
    start(verified, task, &mut scan, &begin);
    scan
}

// A scan's start in the opening world.
pub fn opening(alloc: Global, verified: &Verified, task: u8) -> Result<ScanState, AllocError>
    requires there { HasTask verified.now.config task }
    ensures scan { IfOk result (IsScanOf verified.now.config task) }
    ensures opens { IfOk result (λ s. stands verified.now.config task s
        ≡ scan_begins verified.now.config task (opening_beginning verified.now.config task)) }
{
    let count = verified.slot_count(task);
    let variables = copied(alloc, verified.opening_variables(task))?;
    let globals = copied(alloc, verified.opening_globals())?;
    let calls = CallBook::new(verified.sizes());
    let rows = room(alloc, count)?;
    Ok(opened(verified, task, rows, &variables, &globals, &calls))
}

// Hands over the globals that the task's program writes, as the scan left them.
pub fn copy_globals(verified: &Verified, task: u8, scan: &ScanState, globals: &mut Rows)
    requires scan { IsScanOf verified.now.config task scan.now }
    requires fits { FitsGlobals verified.now.config globals.old }
    ensures globals { globals_in verified.now.config globals.new
        ≡ written_globals (program_of verified.now.config task)
        (globals_in verified.now.config globals.old)
        (stands verified.now.config task scan.now).values }
    ensures fits { FitsGlobals verified.now.config globals.new }
{
    let cells = verified.task_code(task).cells();
    take_written(globals, &scan.rows, cells, verified.written(task));
}
