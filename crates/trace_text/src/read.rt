// A trace text, read.

ghost use Rattle.std.specs.Prelude.{◌≡◌, ◌≢◌, ◌≤◌, ◌↔◌, ◌+◌, [], ◌∷◌, ◌++◌, length, IsTrue, IfSome, IfNone, IfOk, IfErr, Ok, Err, MatchResult, None};
ghost use Rattle.trace_text.specs.declared.format.Format.{Format};
ghost use Rattle.trace_text.specs.Text.{first_line, last_line};
ghost use Rattle.trace_text.specs.Reading.{Reads, greatest_trace};
ghost use Rattle.trace_text.specs.Fronts.{FrontAnswers};
ghost use Rattle.trace_text.specs.Parts.{EndsWrong};
ghost use Rattle.trace_text.specs.Laws.{Answer};

use crate::event::event;
use crate::fault::TraceFault;
use crate::format::Format;
use crate::parts::split_line;
use crate::short::short_line;
use crate::trace::{Told, Trace};
use group_spec::trace::TraceEvent;
use itoa::Buffer;
use std::alloc::Global;

/// The most bytes of a trace.
pub const GREATEST_TRACE: usize = 67_108_864;

/// The events of a trace text, in either format, of a group of so many cars, as a list in memory; FIRE is FALSE in the
/// first format. Where the text is none, the fault names its line.
pub fn read_trace(alloc: Global, text: &[u8], cars: u8) -> Result<Vec<TraceEvent>, TraceFault>
    ensures reads { MatchResult result (λ events. Reads cars text.now (Ok events.items))
        (λ fault. Reads cars text.now (Err fault)) }
    ensures only { (answer : Answer) → answer ≢ Err TraceFault.Memory → Reads cars text.now answer
        → MatchResult result (λ events. answer ≡ Ok events.items)
        (λ fault. fault ≢ TraceFault.Memory → answer ≡ Err fault) }
{
    read_lines(alloc, text, cars)
}

// The events that the lines of a text tell, line by line from its front.
fn read_lines(alloc: Global, text: &[u8], cars: u8) -> Result<Vec<TraceEvent>, TraceFault>
    ensures { MatchResult result (λ events. Reads cars text.now (Ok events.items))
        (λ fault. Reads cars text.now (Err fault)) }
{
    let Front { events, cut } = read_front(text, cars)?;
    match cut {
        None => match events.to_vec(alloc) {
            Ok(list) => Ok(list),
            Err(_) => Err(TraceFault::Memory),
        },
        Some(line) => Err(TraceFault::Truncated { line }),
    }
}

/// What is in a trace text that may be cut off: the events of its complete lines, and in which line it is cut off, if it isn't whole.
#[derive(Drop)]
pub struct Front<'t> {
    pub events: Trace<'t>,
    pub cut: Option<u32>,
}

/// The events of a trace text, in either format, that may be cut off after its first line. Where it is no front of a trace, the fault names
/// its line. The events stay in the text: no memory is taken.
pub fn read_front(text: &[u8], cars: u8) -> Result<Front<'_>, TraceFault>
    ensures { FrontAnswers cars text.now result }
{
    if text.len() > GREATEST_TRACE {
        return Err(TraceFault::BadLine { line: 1 });
    }
    let Some((first, rest)) = split_line(text) else {
        return Err(TraceFault::Truncated { line: 1 });
    };
    match format_of(first) {
        Some(format) => read_events(format, cars, rest),
        None => Err(TraceFault::BadLine { line: 1 }),
    }
}

// The format that a first line names.
fn format_of(line: &[u8]) -> Option<Format>
    ensures found { IfSome result (λ format. line.now ≡ first_line format) }
    ensures none { IfNone result ((format : Format) → line.now ≡ first_line format → ⊥) }
{
    if is_first_line(line, Format::One) {
        Some(Format::One)
    } else if is_first_line(line, Format::Two) {
        Some(Format::Two)
    } else {
        None
    }
}

fn is_first_line(line: &[u8], format: Format) -> bool
    ensures { IsTrue result ↔ (line.now ≡ first_line format) }
{
    let text = match format {
        Format::One => b"LIFTTRACE 1",
        Format::Two => b"LIFTTRACE 2",
    };
    line == text.as_slice()
}

// Whether it is the last line, after so many events.
fn is_last_line(line: &[u8], count: usize) -> bool
    ensures { IsTrue result ↔ (line.now ≡ last_line count) }
{
    let mut buffer = Buffer::new();
    match line.strip_prefix(b"E ") {
        Some(digits) => digits == buffer.format(count).as_bytes(),
        None => false,
    }
}

/// The events of the lines after a first line, the last of which may be cut off.
pub fn read_events(format: Format, cars: u8, text: &[u8]) -> Result<Front<'_>, TraceFault>
    requires { length (first_line format ++ (10 ∷ text.now)) ≤ greatest_trace }
    ensures { FrontAnswers cars (first_line format ++ (10 ∷ text.now)) result }
{
    let mut told = Told::new();
    let mut count = 0;
    let mut rest = text;
    'lines: loop {
        if let Some((short, behind)) = short_line(rest) {
            told = told.then(&short.event());
            count += 1;
            rest = behind;
            continue;
        }
        let Some((line, behind)) = split_line(rest) else {
            break;
        };
        match event(format, cars, line) {
            Some(event) => told = told.then(&event),
            None => return ended(Trace::of(format, cars, text, count, told), line, behind),
        }
        count += 1;
        rest = behind;
    }
    Ok(Front {
        events: Trace::of(format, cars, text, count, told),
        cut: Some(count as u32 + 2),
    })
}

// The events, where this line is the last one.
fn ended<'t>(events: Trace<'t>, line: &[u8], behind: &[u8]) -> Result<Front<'t>, TraceFault>
    ensures ok { IfOk result (λ f. (f.events ≡ events.entry)
        × (line.now ≡ last_line (length events.entry)) × (behind.now ≡ [])) }
    ensures whole { IfOk result (λ f. f.cut ≡ None) }
    ensures err { IfErr result (λ fault. EndsWrong (line.now ≡ last_line (length events.entry))
        behind.now (length events.entry + 2) fault) }
{
    let count = events.len();
    let number = count as u32 + 2;
    if !is_last_line(line, count) {
        return Err(TraceFault::BadLine { line: number });
    }
    if !behind.is_empty() {
        return Err(TraceFault::BadLine { line: number + 1 });
    }
    Ok(Front { events, cut: None })
}
