// What is seen of a task's scan where it is.

ghost use Rattle.std.specs.Prelude.{◌≡◌, length, slice_get, option_map};
ghost use Rattle.base_maps.specs.NameMap.{get};
ghost use Rattle.scan_loop.specs.Framing.{all_frames, name_of_code};
ghost use Rattle.scan_task.specs.Scanning.{IsScanOf};
ghost use Rattle.scan_task.specs.Ran.{stands};
ghost use Rattle.scan_task.specs.Looking.{stand_of, shown_stand};

use crate::rows::value;
use crate::verified::Verified;
use il_semantics::value::Value;
use load_slots::flat::UnitCode;
use scan_loop::ScanState;
use scan_loop::frames::Frame;

/// A body that runs or has called: the name of its unit, and the place at which it is. After the last instruction is a RET.
#[derive(Clone, Copy)]
pub struct Standpoint<'v> {
    pub unit: &'v str,
    pub place: usize,
}

// How many bodies run or have called.
pub fn depth(scan: &ScanState) -> usize
    ensures { result ≡ length (all_frames scan.now.running scan.now.pairs scan.now.callers) }
{
    match scan.running {
        Some(_) => scan.callers.count() + 1,
        None => 0,
    }
}

// One of them, by how many run above it.
fn frame_at(scan: &ScanState, level: usize) -> Option<Frame>
    ensures { result ≡ option_map (λ s. s.frame)
        (slice_get (all_frames scan.now.running scan.now.pairs scan.now.callers) level) }
{
    let running = scan.running?;
    match level.checked_sub(1) {
        None => Some(running),
        Some(below) => scan.callers.frame_at(below),
    }
}

// The name of a unit's code.
fn name_of_code(units: &[UnitCode], number: usize) -> &str
    ensures { result.now ≡ name_of_code (slice_get units.now number) }
{
    match units.get(number) {
        Some(unit) => unit.name.as_str(),
        None => "",
    }
}

// Where one of these bodies is.
pub fn stands_at<'v>(
    verified: &'v Verified,
    task: u8,
    scan: &ScanState,
    level: usize,
) -> Option<Standpoint<'v>>
    requires { IsScanOf verified.now.config task scan.now }
    ensures { option_map shown_stand result ≡ option_map stand_of
        (slice_get (stands verified.now.config task scan.now).frames level) }
{
    let frame = frame_at(scan, level)?;
    Some(Standpoint {
        unit: name_of_code(verified.running(task).units, frame.unit),
        place: frame.place,
    })
}

// The value at a path.
pub fn value_of(verified: &Verified, task: u8, scan: &ScanState, path: &str) -> Option<Value>
    requires { IsScanOf verified.now.config task scan.now }
    ensures { result ≡ get (stands verified.now.config task scan.now).values path.now }
{
    let code = verified.task_code(task);
    let slot = code.slot_of(path)?;
    value(&scan.rows, code.cells(), slot)
}
