// Where a group goes on that a trace tells of.

ghost use Rattle.std.specs.Prelude.{◌≡◌, ◌≤◌, ◌+◌, None, length, IfOk, IfErr};
ghost use Rattle.group_spec.specs.EventFaults.{event_fault_number};
ghost use Rattle.trace_text.specs.Reading.{greatest_trace};
ghost use Rattle.group_journal.specs.Closed.{IsClosed};
ghost use Rattle.serve_lines.specs.Going.{GoesOn};
ghost use Rattle.serve_blackbox.specs.Resuming.{LeadsNowhere, IsLeft, IsNotLeft, unfinished};

use cli_host::status::{Fault, LineFault};
use group_rounds::replay::Refused;
use group_state::begin::{Beginning, begin};
use group_world::World;
use scan_task::Verified;
use serve_lines::going::go_on;
use std::alloc::Global;
use trace_text::trace::Trace;

/// Where a group begins: its world, and how many events of the trace that led there are dropped.
pub struct Origin {
    pub world: World,
    pub dropped: usize,
}

// The fault of an event that was refused, where so many lines come before the first event.
fn fault_of_event(refused: Refused, lines: u32) -> Fault
    requires few { lines + refused.index ≤ greatest_trace }
    ensures { result
        ≡ Fault.Refused (event_fault_number refused.fault) (lines + 1 + refused.index) }
{
    Fault::Refused {
        number: u16::from(refused.fault.number()),
        line: lines + 1 + refused.index as u32,
    }
}

// In which line a trace is cut off whose state may not be whole: no line follows it.
fn unfinished(lines: u32, events: &Trace<'_>, cut: Option<u32>) -> Option<u32>
    ensures { result ≡ unfinished lines events.now cut }
{
    if lines > 1 && events.is_empty() {
        cut
    } else {
        None
    }
}

// A trace that ends too early.
fn truncated(line: u32) -> Fault
    ensures { result ≡ Fault.Refused 81 line }
{
    Fault::Refused {
        number: LineFault::Truncated.number(),
        line,
    }
}

// Where a trace ends that was read.
fn gone_on(beginning: Beginning<'_>) -> Result<Origin, Fault>
    requires closed { IsClosed beginning.world.world }
    requires few { beginning.lines + length beginning.events ≤ greatest_trace }
    ensures goes_on { IfOk result (λ o. GoesOn beginning.entry.world.program.config
        beginning.entry.world.world beginning.entry.events o.world.world o.dropped) }
    ensures same { IfOk result (λ o. o.world.program ≡ beginning.entry.world.program) }
    ensures closed { IfOk result (λ o. IsClosed o.world.world) }
    ensures whole { IfOk result (λ _. unfinished beginning.entry.lines beginning.entry.events
        beginning.entry.cut ≡ None) }
    ensures broken { IfErr result (LeadsNowhere beginning.entry.world.program.config
        beginning.entry.world.world beginning.entry.events beginning.entry.lines beginning.entry.cut) }
{
    let Beginning {
        mut world,
        events,
        lines,
        cut,
    } = beginning;
    if let Some(line) = unfinished(lines, &events, cut) {
        world.release();
        return Err(truncated(line));
    }
    match go_on(&mut world, &events) {
        Ok(dropped) => Ok(Origin { world, dropped }),
        Err(refused) => {
            world.release();
            Err(fault_of_event(refused, lines))
        }
    }
}

/// Where the text of a trace ends: the group of a configuration whose text is `source` goes on there. Of its events those after its last whole
/// line are dropped; a text that isn't a trace of this configuration is a fault.
pub fn resume(
    alloc: Global,
    verified: Verified,
    source: &[u8],
    trace: &[u8],
) -> Result<Origin, Fault>
    ensures left { IfOk result (λ o. IsLeft verified.config source.now trace.now o.world.world
        o.dropped) }
    ensures same { IfOk result (λ o. o.world.program ≡ verified) }
    ensures closed { IfOk result (λ o. IsClosed o.world.world) }
    ensures fault { IfErr result (IsNotLeft verified.config source.now trace.now) }
{
    let beginning = begin(alloc, verified, source, trace)?;
    gone_on(beginning)
}
