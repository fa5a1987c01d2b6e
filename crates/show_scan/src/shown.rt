// A scan, instruction by instruction.

ghost use Rattle.std.specs.Prelude.{◌≡◌, ◌++◌, ℕ, List, IfOk, IfErr, OnOk, option_map, string_bytes, take};
ghost use Rattle.base_texts.specs.Puts.{Puts};
ghost use Rattle.group_spec.specs.Snapshot.{task_name};
ghost use Rattle.group_spec.specs.World.{scan_at};
ghost use Rattle.show_scan.specs.Lines.{of_before};
ghost use Rattle.show_scan.specs.Shown.{from_behind, asked_at, is_of_unit, is_shown, is_until, is_last, asked_more, seen_in, line_by, line_of, lines_text, heading, ShowsNext, IsScanShown, IsScanStopped};

use crate::before::{Before, next_step};
use crate::chosen::{Asked, Chosen, Lines, choose};
use crate::line::put_line;
use crate::view::View;
use group_rounds::replay::{Refused, replay_first};
use group_spec::event::{Event, Reply};
use group_spec::report::Report;
use group_world::World;
use std::alloc::{AllocError, Global};
use trace_text::trace::Trace;

// The most instructions of a scan (own rule).
const MOST: u32 = 1_000_000;

/// Why no scan is shown.
#[derive(Clone, Copy)]
pub enum ScanStop {
    /// The world refuses this event of the trace.
    Refused(Refused),
    /// The trace commits no such scan.
    NoScan,
    /// An allocation failed.
    Memory,
}

impl From<AllocError> for ScanStop {
    ghost use Rattle.std.specs.Prelude.{◌≡◌};
    ghost use Rattle.show_scan.specs.declared.shown.ScanStop.TheVariants.{Memory};

    ghost from_gives = { λ _ s. s ≡ Memory };

    fn from(_error: AllocError) -> ScanStop {
        ScanStop::Memory
    }
}

/// The last scan of a task that a trace commits, or that of a round, instruction by instruction: a line for each that is asked for, with its place in
/// `source`, the text of the configuration, the current result before and after it, and the values that it names, as they follow it.
pub fn scan_text(
    alloc: Global,
    world: &mut World,
    events: &Trace<'_>,
    asked: Asked,
    source: &[u8],
) -> Result<String, ScanStop>
    ensures shown { IfOk result (λ text. IsScanShown world.old.program.config world.old.world
        asked events.now source.now (string_bytes text)) }
    ensures stopped { IfErr result (IsScanStopped world.old.program.config world.old.world
        asked events.now) }
    ensures same { world.new.program ≡ world.old.program }
{
    let Some(it) = choose(asked, events) else {
        return Err(ScanStop::NoScan);
    };
    if let Err(refused) = replay_first(world, events, it.front) {
        return Err(ScanStop::Refused(refused));
    }
    let mut text = heading(alloc, asked, it)?;
    put_lines(alloc, world, asked, source, &mut text)?;
    Ok(text)
}

// The heading of a scan.
fn heading(alloc: Global, asked: Asked, it: Chosen) -> Result<String, AllocError>
    ensures { IfOk result (λ text. string_bytes text ≡ heading asked it) }
{
    let mut text = String::new(alloc);
    write!(text, "round {} scan ", it.round)?;
    put_task(&mut text, asked.task)?;
    text.push_str("\n")?;
    Ok(text)
}

// The name of a task: 0 is GROUP, k is CARk.
fn put_task(text: &mut String, task: u8) -> Result<(), AllocError>
    ensures { OnOk result (Puts text.old text.new (task_name task)) }
{
    match task {
        0 => text.push_str("GROUP"),
        car => write!(text, "CAR{}", car),
    }
}

// What is asked for of the lines of the open scan of a task.
fn put_lines(
    alloc: Global,
    world: &mut World,
    asked: Asked,
    source: &[u8],
    text: &mut String,
) -> Result<(), AllocError>
    ensures lines { OnOk result (Puts text.old text.new
        (lines_text world.old.program.config source.now 1000000 asked world.old.world)) }
    ensures same { world.new.program ≡ world.old.program }
{
    let mut report = Report::new();
    let mut asked = asked;
    'steps: for _ in 0..MOST {
        match put_next(alloc, world, asked, source, text, &mut report)? {
            Some(more) => asked = more,
            None => return Ok(()),
        }
    }
    Ok(())
}

// Takes the next instruction of a task's open scan, if one is left, and writes its line, if that is shown. The answer is what is asked for then, if more
// may be shown.
fn put_next(
    alloc: Global,
    world: &mut World,
    asked: Asked,
    source: &[u8],
    text: &mut String,
    report: &mut Report,
) -> Result<Option<Asked>, AllocError>
    ensures shown { IfOk result (ShowsNext world.old.program.config asked source.now world.old.world
        world.new.world (string_bytes text.old) (string_bytes text.new)) }
    ensures same { world.new.program ≡ world.old.program }
{
    let Some(seen) = seen(alloc, world, asked.task)? else {
        return Ok(None);
    };
    let asked = asked_at(asked, seen.place.line);
    match world.apply(&Event::Instruction(asked.task), report) {
        Reply::More => {
            put_asked(alloc, text, source, world, asked, &seen)?;
            Ok(asked_more(asked, seen.place.line))
        }
        Reply::End => {
            put_asked(alloc, text, source, world, asked, &seen)?;
            Ok(None)
        }
        _ => Ok(None),
    }
}

// What is known before the next instruction of a task's open scan, if one is left.
fn seen(alloc: Global, world: &World, task: u8) -> Result<Option<Before>, AllocError>
    ensures { IfOk result (λ o. option_map of_before o
        ≡ seen_in world.now.program.config world.now.world task) }
{
    match View::of(world, task) {
        Some(view) => next_step(alloc, &view),
        None => Ok(None),
    }
}

// The line of a step that was taken, if it is shown.
fn put_asked(
    alloc: Global,
    text: &mut String,
    source: &[u8],
    world: &World,
    asked: Asked,
    before: &Before,
) -> Result<(), AllocError>
    ensures { OnOk result (Puts text.old text.new
        (line_of world.now.program.config source.now asked (of_before before.now)
        world.now.world)) }
{
    if is_shown(asked, before.place.line) {
        put_step(alloc, text, source, world, asked.task, before)
    } else {
        Ok(())
    }
}

// The line of a step that was taken.
fn put_step(
    alloc: Global,
    text: &mut String,
    source: &[u8],
    world: &World,
    task: u8,
    before: &Before,
) -> Result<(), AllocError>
    ensures { OnOk result (Puts text.old text.new
        (line_by world.now.program.config source.now (of_before before.now)
        (scan_at world.now.world task))) }
{
    match View::of(world, task) {
        Some(view) => put_line(alloc, text, source, before, &view),
        None => Ok(()),
    }
}

// What is asked for once a step at a line is there.
fn asked_at(asked: Asked, line: u32) -> Asked
    ensures { result ≡ asked_at asked line }
{
    Asked {
        from: from_behind(asked.from, line),
        ..asked
    }
}

// The line before which nothing is shown, once a step at a line is there.
fn from_behind(from: Option<u32>, line: u32) -> Option<u32>
    ensures { result ≡ from_behind from line }
{
    match from {
        Some(from) if from != line => Some(from),
        _ => None,
    }
}

// Whether a line is one of the unit's that is asked for.
fn is_of_unit(unit: Option<Lines>, line: u32) -> bool
    ensures { result ≡ is_of_unit unit line }
{
    match unit {
        None => true,
        Some(lines) => lines.first <= line && line <= lines.last,
    }
}

// Whether a step at a line is shown.
fn is_shown(asked: Asked, line: u32) -> bool
    ensures { result ≡ is_shown asked line }
{
    asked.from.is_none() && is_of_unit(asked.unit, line)
}

// What is asked for after a step at a line, if more is shown.
fn asked_more(asked: Asked, line: u32) -> Option<Asked>
    ensures { result ≡ asked_more asked line }
{
    if is_last(asked, line) {
        None
    } else {
        Some(asked)
    }
}

// Whether nothing more is shown after a step at a line.
fn is_last(asked: Asked, line: u32) -> bool
    ensures { result ≡ is_last asked line }
{
    asked.from.is_none() && is_until(asked.until, line)
}

// Whether a line is the one that is asked for.
fn is_until(until: Option<u32>, line: u32) -> bool
    ensures { result ≡ is_until until line }
{
    match until {
        None => false,
        Some(until) => until == line,
    }
}
