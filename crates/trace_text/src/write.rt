// A journal's trace, written.

ghost use Rattle.std.specs.Prelude.{◌≡◌, ◌≤◌, ◌+◌, ℕ, Bool, true, false, List, [], ◌∷◌, ◌++◌, length, map, Option, IfOk, IfErr, OnOk, OnErr, MatchResult};
ghost use Rattle.std.specs.Io.KnownBytes.{Appends};
ghost use Rattle.group_spec.specs.declared.journal.Entry.TheVariants as entry;
ghost use Rattle.group_spec.specs.declared.trace.TraceEvent.TheVariants.{Start, Commit, Press, Gather, Refresh};
ghost use Rattle.group_spec.specs.Hands.{floors_of};
ghost use Rattle.cli_host.specs.Writes.{AppendsFront};
ghost use Rattle.trace_text.specs.Text.{last_line};
ghost use Rattle.trace_text.specs.Written.{traced, traced_entry, text_of_entries};
ghost use Rattle.trace_text.specs.Writing.{Puts, Wrote, events_text};

use crate::fault::TraceFault;
use crate::put::{put_commit, put_first, put_gather, put_last, put_press, put_refresh, put_start};
use crate::waiting::Waiting;
use cli_host::sink::{Sink, SinkFault, put_all};
use group_spec::calls::Call;
use group_spec::hand::Hand;
use group_spec::image::Fields;
use group_spec::journal::Entry;

// Writes what waits where there may be no room for another line.
fn make_room<W: Sink>(waiting: &mut Waiting, sink: &mut W) -> Result<(), SinkFault>
    ensures puts { Puts result (W.contents sink.old) (W.contents sink.new) (W.has_failed sink.old)
        (W.has_failed sink.new) waiting.old waiting.new [] }
    ensures room { OnOk result (length waiting.new ≤ 3584) }
{
    if waiting.len() > 3584 {
        put_all(sink, waiting.as_slice())?;
        waiting.clear();
    }
    Ok(())
}

// Writes the press of a call.
fn write_press<W: Sink>(waiting: &mut Waiting, sink: &mut W, call: Call) -> Result<(), SinkFault>
    ensures { Puts result (W.contents sink.old) (W.contents sink.new) (W.has_failed sink.old)
        (W.has_failed sink.new) waiting.old waiting.new (events_text (Press call ∷ [])) }
{
    make_room(waiting, sink)?;
    put_press(waiting, call);
    Ok(())
}

// Writes the gathering of a floor.
fn write_gather<W: Sink>(waiting: &mut Waiting, sink: &mut W, floor: u8) -> Result<(), SinkFault>
    ensures { Puts result (W.contents sink.old) (W.contents sink.new) (W.has_failed sink.old)
        (W.has_failed sink.new) waiting.old waiting.new (events_text (Gather floor ∷ [])) }
{
    make_room(waiting, sink)?;
    put_gather(waiting, floor);
    Ok(())
}

// Writes the press of each call, in their order.
fn write_presses<W: Sink>(waiting: &mut Waiting, sink: &mut W, calls: Hand) -> Result<(), SinkFault>
    ensures { Puts result (W.contents sink.old) (W.contents sink.new) (W.has_failed sink.old)
        (W.has_failed sink.new) waiting.old waiting.new (events_text (map Press calls)) }
{
    let mut rest = calls;
    'calls: while let Some(call) = rest.take_first() {
        write_press(waiting, sink, call)?;
    }
    Ok(())
}

// Writes the gathering of each of the calls' floors, rising, and answers how many floors these are.
fn write_gathers<W: Sink>(
    waiting: &mut Waiting,
    sink: &mut W,
    calls: Hand,
) -> Result<u16, SinkFault>
    requires { length calls ≤ 256 }
    ensures count { IfOk result (λ count. (count ≡ length (floors_of calls)) × (count ≤ 256)) }
    ensures puts { Puts result (W.contents sink.old) (W.contents sink.new) (W.has_failed sink.old)
        (W.has_failed sink.new) waiting.old waiting.new
        (events_text (map Gather (floors_of calls))) }
{
    let mut rest = calls;
    let mut last = 0;
    let mut count = 0;
    'calls: while let Some(call) = rest.take_first() {
        if call.from != last {
            write_gather(waiting, sink, call.from)?;
            count += 1;
        }
        last = call.from;
    }
    Ok(count)
}

// Writes the presses of calls, and then the gatherings, and answers how many lines these are.
fn write_calls<W: Sink>(waiting: &mut Waiting, sink: &mut W, calls: Hand) -> Result<u16, SinkFault>
    ensures count { IfOk result (λ count. (count
        ≡ length (map Press calls ++ map Gather (floors_of calls))) × (count ≤ 512)) }
    ensures puts { Puts result (W.contents sink.old) (W.contents sink.new) (W.has_failed sink.old)
        (W.has_failed sink.new) waiting.old waiting.new
        (events_text (map Press calls ++ map Gather (floors_of calls))) }
{
    if calls.is_empty() {
        return Ok(0);
    }
    let presses = calls.len() as u16;
    write_presses(waiting, sink, calls)?;
    let gathers = write_gathers(waiting, sink, calls)?;
    Ok(presses + gathers)
}

// Writes the start of a task's scan, and answers how many lines this is.
fn write_start<W: Sink>(waiting: &mut Waiting, sink: &mut W, task: u8) -> Result<u16, SinkFault>
    ensures count { IfOk result (λ count. count ≡ 1) }
    ensures puts { Puts result (W.contents sink.old) (W.contents sink.new) (W.has_failed sink.old)
        (W.has_failed sink.new) waiting.old waiting.new (events_text (Start task ∷ [])) }
{
    make_room(waiting, sink)?;
    put_start(waiting, task);
    Ok(1)
}

// Writes the commit of a task's scan, and answers how many lines this is.
fn write_commit<W: Sink>(waiting: &mut Waiting, sink: &mut W, task: u8) -> Result<u16, SinkFault>
    ensures count { IfOk result (λ count. count ≡ 1) }
    ensures puts { Puts result (W.contents sink.old) (W.contents sink.new) (W.has_failed sink.old)
        (W.has_failed sink.new) waiting.old waiting.new (events_text (Commit task ∷ [])) }
{
    make_room(waiting, sink)?;
    put_commit(waiting, task);
    Ok(1)
}

// Writes the line of a refresh.
fn write_fields<W: Sink>(
    waiting: &mut Waiting,
    sink: &mut W,
    fields: &Fields,
) -> Result<(), SinkFault>
    ensures { Puts result (W.contents sink.old) (W.contents sink.new) (W.has_failed sink.old)
        (W.has_failed sink.new) waiting.old waiting.new (events_text (Refresh fields.now ∷ [])) }
{
    make_room(waiting, sink)?;
    put_refresh(waiting, fields);
    Ok(())
}

// Writes a refresh, after the presses and gatherings of the calls that it entered, and answers how many lines these are.
fn write_refresh<W: Sink>(
    waiting: &mut Waiting,
    sink: &mut W,
    fields: &Fields,
    calls: Hand,
) -> Result<u16, SinkFault>
    ensures count { IfOk result (λ count. (count
        ≡ length (map Press calls ++ (map Gather (floors_of calls) ++ Refresh fields.now ∷ [])))
        × (count ≤ 513)) }
    ensures puts { Puts result (W.contents sink.old) (W.contents sink.new) (W.has_failed sink.old)
        (W.has_failed sink.new) waiting.old waiting.new
        (events_text (map Press calls
        ++ (map Gather (floors_of calls) ++ Refresh fields.now ∷ []))) }
{
    let others = write_calls(waiting, sink, calls)?;
    write_fields(waiting, sink, fields)?;
    Ok(others + 1)
}

// Writes what is told of an entry, and answers how many lines this is.
#[tactic(auto, unfolding(crate::specs::Written::traced_entry))]
fn write_entry<W: Sink>(
    waiting: &mut Waiting,
    sink: &mut W,
    entry: &Entry,
) -> Result<u16, SinkFault>
    ensures count { IfOk result (λ count. (count ≡ length (traced_entry entry.now))
        × (count ≤ 513)) }
    ensures puts { Puts result (W.contents sink.old) (W.contents sink.new) (W.has_failed sink.old)
        (W.has_failed sink.new) waiting.old waiting.new (events_text (traced_entry entry.now)) }
{
    match entry {
        Entry::Start(task) => write_start(waiting, sink, *task),
        Entry::Commit(task) => write_commit(waiting, sink, *task),
        Entry::Refresh { fields, calls } => write_refresh(waiting, sink, fields, *calls),
    }
}

// Writes what is told of entries, and answers how many lines this is.
fn write_entries<W: Sink>(
    waiting: &mut Waiting,
    sink: &mut W,
    entries: &[Entry],
) -> Result<u128, SinkFault>
    ensures count { IfOk result (λ count. count ≡ length (traced entries.now)) }
    ensures puts { Puts result (W.contents sink.old) (W.contents sink.new) (W.has_failed sink.old)
        (W.has_failed sink.new) waiting.old waiting.new (events_text (traced entries.now)) }
{
    let mut count = 0;
    'entries: for entry in entries {
        let lines = write_entry(waiting, sink, entry)?;
        count += u128::from(lines);
    }
    Ok(count)
}

/// Writes the trace of a journal's entries, in the second format. Where the sink fails, it holds a
/// prefix of the text.
pub fn write_trace<W: Sink>(entries: &[Entry], sink: &mut W) -> Result<(), TraceFault>
    requires { W.has_failed sink.old ≡ false }
    ensures ok { OnOk result (Appends (W.contents sink.old) (W.contents sink.new)
        (text_of_entries entries.now)) }
    ensures goes_on { OnOk result (W.has_failed sink.new ≡ false) }
    ensures fault { IfErr result (λ fault. fault ≡ TraceFault.Write) }
    ensures failed { OnErr result (W.has_failed sink.new ≡ true) }
    ensures front { OnErr result (AppendsFront (W.contents sink.old) (W.contents sink.new)
        (text_of_entries entries.now)) }
{
    Ok(write_all(entries, sink)?)
}

// Writes the trace of entries; the fault is the sink's.
fn write_all<W: Sink>(entries: &[Entry], sink: &mut W) -> Result<(), SinkFault>
    ensures { Wrote result (W.contents sink.old) (W.contents sink.new) (W.has_failed sink.old)
        (W.has_failed sink.new) (text_of_entries entries.now) }
{
    let mut waiting = Waiting::new();
    put_first(&mut waiting);
    let count = write_entries(&mut waiting, sink, entries)?;
    write_last(&mut waiting, sink, count)?;
    put_all(sink, waiting.as_slice())
}

// Writes the last line.
fn write_last<W: Sink>(waiting: &mut Waiting, sink: &mut W, count: u128) -> Result<(), SinkFault>
    ensures { Puts result (W.contents sink.old) (W.contents sink.new) (W.has_failed sink.old)
        (W.has_failed sink.new) waiting.old waiting.new (last_line count ++ 10 ∷ []) }
{
    make_room(waiting, sink)?;
    put_last(waiting, count);
    Ok(())
}
