// What `scan` prints.

ghost use Rattle.std.specs.Prelude.{◌≡◌, ◌≢◌, ◌≤◌, ◌<◌, ◌+◌, ℕ, None, Err, IfOk, IfErr, IfSome, IsNone, length, option_map, string_bytes};
ghost use Rattle.cli_host.specs.Requests.{words_of};
ghost use Rattle.trace_text.specs.Reading.{greatest_trace};
ghost use Rattle.cli_output.specs.Outcomes.{HasWarnings, IsScanned, IsScanOutcome};
ghost use Rattle.cli_output.specs.Parts.{AreScanned};
ghost use Rattle.cli_output.specs.Scans.{first_word, IsCut, IsTask, IsPart, IsPartFault, IsRoundWord, IsRoundFault, IsLast, IsNoLast, AreLines, AreNoLines, AreLinesOf, IsLinesFault, IsBadScan, IsAsked, IsUnasked, IsUncommittedBy};

use crate::outcome::{Whole, fault_of_event, whole_of};
use cli_host::files::Reading;
use cli_host::request::{Traced, Words, number_to};
use cli_host::status::{Fault, ScanFault};
use cli_messages::output::Output;
use scan_task::Verified;
use show_scan::{Asked, Lines, ScanStop, lines_of_unit, scan_text};
use show_values::names::task_of;
use std::alloc::{AllocError, Global};

// The greatest round and the greatest line that a word says.
const MOST: u16 = 65_535;

/// What `scan` prints over the verified configuration of a text, `source`, with what was read of its trace, or why it prints nothing.
pub fn scan_outcome(
    alloc: Global,
    verified: Verified,
    traced: Traced<'_>,
    source: &[u8],
    trace: &Reading,
) -> Result<Output, Fault>
    ensures is { IsScanOutcome traced.entry verified source.now trace.now result }
    ensures unwritten { result ≢ Err Fault.CannotWrite }
    ensures warned { HasWarnings None result }
{
    match asked_of(alloc, &verified, traced) {
        Ok(asked) => read_outcome(alloc, verified, traced, asked, source, trace),
        Err(fault) => {
            verified.release();
            Err(fault)
        }
    }
}

// The scan that the words ask for.
fn asked_of(alloc: Global, verified: &Verified, traced: Traced<'_>) -> Result<Asked, Fault>
    ensures ok { IfOk result (IsAsked traced.entry verified.now) }
    ensures err { IfErr result (IsUnasked traced.entry verified.now) }
{
    let Part { task, unit } = part_named(alloc, verified, first_word(traced.names))?;
    let round = round_of(alloc, traced.round)?;
    let Spread { from, until } = spread_of(alloc, traced.until)?;
    Ok(Asked {
        task,
        round,
        unit,
        from,
        until,
    })
}

// The first of the words.
fn first_word<'w>(words: Words<'w>) -> &'w str
    ensures { result.now ≡ first_word (words_of words.entry) }
{
    match words.split_first() {
        Some((word, _)) => word,
        None => "",
    }
}

// A task of the group, and the lines of the unit of which it is to be shown, if it is one alone.
#[derive(Clone, Copy)]
struct Part {
    task: u8,
    unit: Option<Lines>,
}

// The line before which nothing is shown, and that after which nothing more is.
#[derive(Clone, Copy)]
struct Spread {
    from: Option<u32>,
    until: Option<u32>,
}

// What a word says before the first of a byte of ASCII, and after it; without one, the word alone.
fn cut_at(byte: char, word: &str) -> (&str, Option<&str>)
    requires { byte < 128 }
    ensures { IsCut byte word.now result.0.now (option_map (λ w. w.now) result.1) }
{
    match word.split_once(byte) {
        Some((front, rest)) => (front, Some(rest)),
        None => (word, None),
    }
}

// The task of the group of a name.
fn task_in(verified: &Verified, name: &str) -> Option<u8>
    ensures some { IfSome result (IsTask verified.now name.now) }
    ensures none { IsNone result → (task : ℕ) → IsTask verified.now name.now task → ⊥ }
{
    let task = task_of(name)?;
    if verified.has_task(task) {
        Some(task)
    } else {
        None
    }
}

// What a word names, in any letter case: a task, and after a period maybe a unit.
fn part_named(alloc: Global, verified: &Verified, word: &str) -> Result<Part, Fault>
    ensures ok { IfOk result (λ part. IsPart verified.now word.now part.task part.unit) }
    ensures err { IfErr result (IsBadScan (IsPartFault verified.now word.now)) }
{
    let upper = word.to_ascii_uppercase(alloc)?;
    let (front, name) = cut_at('.', upper.as_str());
    let Some(task) = task_in(verified, front) else {
        return Err(Fault::BadScan(ScanFault::Task, String::from_str(alloc, word)?));
    };
    let Some(name) = name else {
        return Ok(Part { task, unit: None });
    };
    match lines_of_unit(verified, name) {
        Some(lines) => Ok(Part {
            task,
            unit: Some(lines),
        }),
        None => Err(Fault::BadScan(ScanFault::Unit, String::from_str(alloc, word)?)),
    }
}

// The round of a word, if there is one.
fn round_of(alloc: Global, word: Option<&str>) -> Result<Option<u32>, Fault>
    ensures ok { IfOk result (IsRoundWord (option_map (λ w. w.now) word.entry)) }
    ensures err { IfErr result (IsBadScan (IsRoundFault (option_map (λ w. w.now) word.entry))) }
{
    match word {
        None => Ok(None),
        Some(word) => match number_to(MOST, word) {
            Some(number) => Ok(Some(u32::from(number))),
            None => Err(Fault::BadScan(ScanFault::Round, String::from_str(alloc, word)?)),
        },
    }
}

// The lines of a word, if there is one.
fn spread_of(alloc: Global, word: Option<&str>) -> Result<Spread, Fault>
    ensures ok { IfOk result (λ spread. AreLinesOf (option_map (λ w. w.now) word.entry)
        spread.from spread.until) }
    ensures err { IfErr result (IsBadScan (IsLinesFault (option_map (λ w. w.now) word.entry))) }
{
    match word {
        None => Ok(Spread {
            from: None,
            until: None,
        }),
        Some(word) => match lines_in(word) {
            Some(lines) => Ok(lines),
            None => Err(Fault::BadScan(ScanFault::Line, String::from_str(alloc, word)?)),
        },
    }
}

// `LINE`, `FROM:LINE` or `FROM:`.
fn lines_in(word: &str) -> Option<Spread>
    ensures some { IfSome result (λ lines. AreLines word.now lines.from lines.until) }
    ensures none { IsNone result → AreNoLines word.now }
{
    let (front, rest) = cut_at(':', word);
    let line = u32::from(number_to(MOST, front)?);
    match rest {
        None => Some(Spread {
            from: None,
            until: Some(line),
        }),
        Some(rest) => Some(Spread {
            from: Some(line),
            until: last_of(rest)?,
        }),
    }
}

// The last line, if one is written; none where what is written is no line.
fn last_of(word: &str) -> Option<Option<u32>>
    ensures some { IfSome result (IsLast word.now) }
    ensures none { IsNone result → IsNoLast word.now }
{
    if word.is_empty() {
        return Some(None);
    }
    let line = number_to(MOST, word)?;
    Some(Some(u32::from(line)))
}

// What was read of a trace has it, or reading failed.
fn read_outcome(
    alloc: Global,
    verified: Verified,
    traced: Traced<'_>,
    asked: Asked,
    source: &[u8],
    trace: &Reading,
) -> Result<Output, Fault>
    requires { IsAsked traced verified asked }
    ensures is { IsScanOutcome traced.entry verified source.now trace.now result }
    ensures unwritten { result ≢ Err Fault.CannotWrite }
    ensures warned { HasWarnings None result }
{
    match trace {
        Reading::Text(text) => scanned_text(alloc, verified, traced, asked, source, text),
        Reading::Failed(why) => {
            verified.release();
            Err((*why).into())
        }
    }
}

// The scan of a trace's text.
fn scanned_text(
    alloc: Global,
    verified: Verified,
    traced: Traced<'_>,
    asked: Asked,
    source: &[u8],
    text: &[u8],
) -> Result<Output, Fault>
    requires { IsAsked traced verified asked }
    ensures is { IsScanned traced.entry verified source.now text.now result }
    ensures warned { HasWarnings None result }
{
    let whole = whole_of(alloc, verified, source, text)?;
    scanned_events(alloc, whole, traced, asked, source)
}

// The scan of a whole trace.
fn scanned_events(
    alloc: Global,
    whole: Whole<'_>,
    traced: Traced<'_>,
    asked: Asked,
    source: &[u8],
) -> Result<Output, Fault>
    requires few { whole.lines + length whole.events ≤ greatest_trace }
    ensures is { AreScanned traced.entry whole.entry.world.program asked source.now
        whole.entry.world.world whole.entry.events whole.entry.lines result }
    ensures warned { HasWarnings None result }
{
    let Whole {
        mut world,
        events,
        lines,
    } = whole;
    let shown = scan_text(alloc, &mut world, &events, asked, source);
    world.release();
    match shown {
        Ok(text) => Ok(Output::Text(text)),
        Err(ScanStop::Refused(refused)) => Err(fault_of_event(refused, lines)),
        Err(ScanStop::NoScan) => {
            let (why, word) = uncommitted(alloc, traced)?;
            Err(Fault::BadScan(why, word))
        }
        Err(ScanStop::Memory) => Err(Fault::NoMemory),
    }
}

// What is said of a scan that the trace does not commit, and of which word: that after `--round`, where one is there, and TASK otherwise.
fn uncommitted(alloc: Global, traced: Traced<'_>) -> Result<(ScanFault, String), AllocError>
    ensures { IfOk result (λ said. IsUncommittedBy traced.entry said.0 (string_bytes said.1)) }
{
    match traced.round {
        Some(word) => Ok((
            ScanFault::UncommittedInRound,
            String::from_str(alloc, word)?,
        )),
        None => Ok((
            ScanFault::Uncommitted,
            String::from_str(alloc, first_word(traced.names))?,
        )),
    }
}
