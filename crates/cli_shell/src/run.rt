// The program, over its words.

ghost use Rattle.std.specs.Prelude.{◌≡◌, ◌≢◌, ◌||◌, ◌↔◌, ℕ, List, [], Bool, Err, IfSome, IsNone, IfOk, IfErr, IsTrue, true, false, map, option_map, string_bytes};
ghost use Rattle.cli_host.specs.Messages.{fault_of_reading};
ghost use Rattle.cli_host.specs.Requests.{name_of};
ghost use Rattle.cli_shell.specs.Runs.{AskForRun, IsForRun, IsAnswerOf, IsFileAnswer, IsCallsRead, IsWordsOutcome, IsOtherRead, IsTraceText, IsTraceFault, IsExplained, IsOutcomeExplained, IsFaultBelow, IsUnreadBelow, asks_json, is_of_text, wants, IsLateName, HasPrinted, written, most_bytes, most_calls_bytes, most_trace_bytes, runs, other_source, other_of, other_name, press_sentence};
ghost use Rattle.cli_messages.specs.Notices.{word_notice};
ghost use Rattle.cli_messages.specs.Places.{IsShownBelow};

use crate::commands::{Commands, runs};
use crate::cut::complete;
use crate::explained::Explained;
use crate::told::{asks_all, asks_json, explains_text, refused_below};
use cli_help::command::{Answer, answer_of};
use cli_host::calls::GREATEST_FILE;
use cli_host::files::{ReadFault, Reading, TextFiles};
use cli_host::request::{Plain, Request, Rounds, Simulating, Traced, asked, is_number};
use cli_host::sink::Sink;
use cli_host::status::{Fault, Status};
use cli_messages::notice::{file_notice, plain_notice, word_notice};
use cli_messages::output::Output;
use cli_messages::place::below;
use cli_messages::show::show;
use std::alloc::{AllocError, Global};
use std::sync::Wait;
use std::thread::Threads;
use trace_text::read::GREATEST_TRACE;

/// The most bytes of FILE that are read: one more than a text may have.
pub const MOST_BYTES: usize = 262_145;

/// Runs the program on its words, as they are read. A fault is explained, where it is asked to do so, or where the words have `--explain`. Only
/// where they ask for `run` it waits for threads.
pub fn run<R: Threads + Wait + Sync, F: TextFiles, C: Commands, O: Sink, E: Sink>(
    rt: &R,
    alloc: Global,
    words: &Plain,
    files: &F,
    commands: &C,
    explains: bool,
    out: &mut O,
    err: &mut E,
) -> Status
    requires { O.has_failed out.old ≡ false }
    ensures { HasPrinted (IsAnswerOf (F.gives files.now) (F.fails files.now)
        (C.gives commands.now) (C.reasons commands.now) (C.others commands.now) explains words.now)
        (written O.Sink out.old out.new) (written E.Sink err.old err.new) result }
{
    let answer = answer(rt, alloc, words, files, commands, explains);
    show(answer.outcome, &answer.below, out, err)
}

/// Runs one command without threads. `None`: the words ask for `run`, and nothing was read or written.
pub fn run_alone<F: TextFiles, C: Commands, O: Sink, E: Sink>(
    alloc: Global,
    words: &Plain,
    files: &F,
    commands: &C,
    explains: bool,
    out: &mut O,
    err: &mut E,
) -> Option<Status>
    requires { O.has_failed out.old ≡ false }
    ensures printed { IfSome result (HasPrinted
        (IsAnswerOf (F.gives files.now) (F.fails files.now) (C.gives commands.now)
        (C.reasons commands.now) (C.others commands.now) explains words.now)
        (written O.Sink out.old out.new) (written E.Sink err.old err.new)) }
    ensures run { IsNone result → AskForRun (map string_bytes words.now.words.items) }
    ensures unwritten { IsNone result → (out.new ≡ out.old) × (err.new ≡ err.old) }
{
    match answer_alone(alloc, words, files, commands, explains) {
        Ok(answer) => Some(show(answer.outcome, &answer.below, out, err)),
        Err(_) => None,
    }
}

// The outcome of words, and what is below its fault.
#[derive(Drop)]
struct Answered {
    outcome: Result<Output, Fault>,
    below: Vec<u8>,
}

// The answer to words.
fn answer<R: Threads + Wait + Sync, F: TextFiles, C: Commands>(
    rt: &R,
    alloc: Global,
    words: &Plain,
    files: &F,
    commands: &C,
    explains: bool,
) -> Answered
    ensures is { IsAnswerOf (F.gives files.now) (F.fails files.now) (C.gives commands.now)
        (C.reasons commands.now) (C.others commands.now) explains words.now result.outcome result.below.items }
    ensures unwritten { result.outcome ≢ Err Fault.CannotWrite }
{
    match answer_alone(alloc, words, files, commands, explains) {
        Ok(answer) => answer,
        Err(request) => {
            let wanted = is_wanted(explains, words.explains);
            run_answer(rt, alloc, request, files, commands, wanted)
        }
    }
}

// The answer to words without threads; of words that ask for `run` the request.
fn answer_alone<'w, F: TextFiles, C: Commands>(
    alloc: Global,
    words: &'w Plain,
    files: &F,
    commands: &C,
    explains: bool,
) -> Result<Answered, Request<'w>>
    ensures is { IfOk result (λ answer. IsAnswerOf (F.gives files.now) (F.fails files.now)
        (C.gives commands.now) (C.reasons commands.now) (C.others commands.now) explains words.now answer.outcome
        answer.below.items) }
    ensures unwritten { IfOk result (λ answer. answer.outcome ≢ Err Fault.CannotWrite) }
    ensures run { IfErr result (IsForRun words.now) }
{
    match asked(&words.words) {
        Some(request) => {
            let request = request.with_flags(words.flags);
            if runs(request) {
                return Err(request);
            }
            let wanted = is_wanted(explains, words.explains);
            Ok(file_answer(alloc, request, files, commands, wanted))
        }
        None => Ok(Answered {
            outcome: outcome_of_words(alloc, &words.words),
            below: Vec::new(alloc),
        }),
    }
}

/// Whether faults are to be explained: always, or where the words say so.
pub fn is_wanted(always: bool, said: bool) -> bool
    ensures { result ≡ (always || said) }
{
    always || said
}

// The outcome of words that ask for nothing.
fn outcome_of_words(alloc: Global, words: &[String]) -> Result<Output, Fault>
    ensures is { IsWordsOutcome (map string_bytes words.now) result }
    ensures unwritten { result ≢ Err Fault.CannotWrite }
{
    match answer_of(alloc, words) {
        Answer::Help(text) => Ok(Output::Text(text)),
        Answer::Misuse(text) => Err(Fault::Misuse(text)),
        Answer::NoMemory => Err(Fault::NoMemory),
    }
}

// The answer to a request that isn't `run`.
fn file_answer<F: TextFiles, C: Commands>(
    alloc: Global,
    request: Request<'_>,
    files: &F,
    commands: &C,
    wanted: bool,
) -> Answered
    requires { runs request ≡ false }
    ensures is { IsFileAnswer (F.gives files.now) (F.fails files.now) (C.gives commands.now)
        (C.reasons commands.now) (C.others commands.now) wanted request.entry result.outcome result.below.items }
    ensures unwritten { result.outcome ≢ Err Fault.CannotWrite }
{
    match read_texts(alloc, request, files) {
        Ok(texts) => {
            let outcome = commands.outcome(alloc, request, &texts.text, &texts.trace);
            with_below(alloc, request, &texts, commands, outcome, wanted)
        }
        Err(why) => unread_answer(alloc, request, why, wanted),
    }
}

// The answer to `run`.
fn run_answer<R: Threads + Wait + Sync, F: TextFiles, C: Commands>(
    rt: &R,
    alloc: Global,
    request: Request<'_>,
    files: &F,
    commands: &C,
    wanted: bool,
) -> Answered
    requires { runs request ≡ true }
    ensures is { IsFileAnswer (F.gives files.now) (F.fails files.now) (C.gives commands.now)
        (C.reasons commands.now) (C.others commands.now) wanted request.entry result.outcome result.below.items }
    ensures unwritten { result.outcome ≢ Err Fault.CannotWrite }
{
    match read_texts(alloc, request, files) {
        Ok(texts) => {
            let outcome = commands.run(rt, alloc, request, &texts.text, &texts.trace);
            with_below(alloc, request, &texts, commands, outcome, wanted)
        }
        Err(why) => unread_answer(alloc, request, why, wanted),
    }
}

// What was read of the files of a request.
#[derive(Drop)]
struct Texts {
    text: Vec<u8>,
    trace: Reading,
}

// Reads the files of a request: FILE, and the other one, if it has one.
fn read_texts<F: TextFiles>(
    alloc: Global,
    request: Request<'_>,
    files: &F,
) -> Result<Texts, ReadFault>
    ensures text { IfOk result (λ texts. F.gives files.now (name_of request.entry) most_bytes
        texts.text.items) }
    ensures trace { IfOk result (λ texts. IsOtherRead (F.gives files.now) (F.fails files.now)
        request.entry texts.trace) }
    ensures err { IfErr result (F.fails files.now (name_of request.entry) most_bytes) }
{
    let text = files.read(alloc, request.file(), MOST_BYTES)?;
    let trace = other_read(alloc, request, files);
    Ok(Texts { text, trace })
}

// An outcome, with what is below it.
fn with_below<C: Commands>(
    alloc: Global,
    request: Request<'_>,
    texts: &Texts,
    commands: &C,
    outcome: Result<Output, Fault>,
    wanted: bool,
) -> Answered
    ensures is { IsOutcomeExplained (wants wanted request.entry)
        (IsFaultBelow (C.reasons commands.now) (C.others commands.now) wanted request.entry
        texts.now.text.items
        texts.now.trace) outcome result.outcome
        result.below.items }
    ensures unwritten { outcome ≢ Err Fault.CannotWrite → result.outcome ≢ Err Fault.CannotWrite }
{
    match outcome {
        Ok(output) => Answered {
            outcome: Ok(output),
            below: Vec::new(alloc),
        },
        Err(fault) => Answered::from(fault_explained(
            alloc, request, texts, commands, fault, wanted,
        )),
    }
}

impl From<Explained> for Answered {
    ghost use Rattle.std.specs.Prelude.{◌≡◌, Err};

    ghost from_gives = { λ e a. (a.outcome ≡ Err e.fault) × (a.below ≡ e.below) };

    fn from(explained: Explained) -> Answered {
        Answered {
            outcome: Err(explained.fault),
            below: explained.below,
        }
    }
}

// The answer where FILE can't be read.
fn unread_answer(alloc: Global, request: Request<'_>, why: ReadFault, wanted: bool) -> Answered
    ensures is { IsOutcomeExplained (λ _. wanted) (λ _. IsUnreadBelow (name_of request.entry) why)
        (Err (fault_of_reading why)) result.outcome result.below.items }
    ensures unwritten { result.outcome ≢ Err Fault.CannotWrite }
{
    Answered::from(unread_explained(alloc, request.file(), why, wanted))
}

// What is read of the other file of a request: a trace, or the file of `--calls`.
fn other_read<F: TextFiles>(alloc: Global, request: Request<'_>, files: &F) -> Reading
    ensures { IsOtherRead (F.gives files.now) (F.fails files.now) request.entry result }
{
    match request {
        Request::Trace(_, traced) => match read_trace(alloc, traced, files) {
            Ok(text) => Reading::Text(text),
            Err(why) => Reading::Failed(why),
        },
        Request::Rounds(_, rounds) => read_calls(alloc, rounds, files),
        _ => Reading::Text(Vec::new(alloc)),
    }
}

// What is read of the file of `--calls`, where one is named.
fn read_calls<F: TextFiles>(alloc: Global, rounds: Rounds<'_>, files: &F) -> Reading
    ensures { IsCallsRead (F.gives files.now) (F.fails files.now)
        (option_map (λ calls. calls.now) rounds.entry.calls) result }
{
    let Some(name) = rounds.calls else {
        return Reading::Text(Vec::new(alloc));
    };
    match files.read(alloc, name, GREATEST_FILE + 1) {
        Ok(text) => Reading::Text(text),
        Err(why) => Reading::Failed(why),
    }
}

// What is read of a trace, up to its last whole line where it may be cut off.
fn read_trace<F: TextFiles>(
    alloc: Global,
    traced: Traced<'_>,
    files: &F,
) -> Result<Vec<u8>, ReadFault>
    ensures ok { IfOk result (λ text. IsTraceText
        (F.gives files.now traced.entry.trace.now most_trace_bytes) traced.entry.cut text.items) }
    ensures err { IfErr result (IsTraceFault
        (F.fails files.now traced.entry.trace.now most_trace_bytes) traced.entry.cut) }
{
    let mut text = files.read(alloc, traced.trace, GREATEST_TRACE + 1)?;
    if traced.cut && text.len() <= GREATEST_TRACE {
        complete(&mut text)?;
    }
    Ok(text)
}

// A fault of a request, with what is below it, where that is wanted; `NoMemory` where memory for that is missing.
fn fault_explained<C: Commands>(
    alloc: Global,
    request: Request<'_>,
    texts: &Texts,
    commands: &C,
    fault: Fault,
    wanted: bool,
) -> Explained
    ensures { IsExplained (wants wanted request.entry fault)
        (IsFaultBelow (C.reasons commands.now) (C.others commands.now) wanted request.entry
        texts.now.text.items
        texts.now.trace fault) fault result.fault result.below.items }
{
    if !wants(wanted, request, &fault) {
        return Explained::alone(alloc, fault);
    }
    match fault_below(alloc, request, texts, commands, &fault, wanted) {
        Ok(below) => Explained { fault, below },
        Err(_) => Explained::alone(alloc, Fault::NoMemory),
    }
}

// What is below a fault.
fn fault_below<C: Commands>(
    alloc: Global,
    request: Request<'_>,
    texts: &Texts,
    commands: &C,
    fault: &Fault,
    wanted: bool,
) -> Result<Vec<u8>, AllocError>
    ensures { IfOk result (λ below. IsFaultBelow (C.reasons commands.now) (C.others commands.now)
        wanted request.entry texts.now.text.items texts.now.trace fault.now below.items) }
{
    match fault {
        Fault::Misuse(_) => Ok(Vec::new(alloc)),
        Fault::RefusedText { number, place } => refused_below(
            alloc,
            request,
            &texts.text,
            commands,
            *number,
            *place,
            explains_text(wanted, request),
        ),
        Fault::Refused { number, line } => refusal_below(
            alloc,
            request,
            &texts.text,
            &texts.trace,
            *number,
            *line,
        ),
        Fault::BadPress(word) => press_below(alloc, request, word),
        Fault::TooManyPresses => plain_notice(alloc, TOO_MANY),
        Fault::BadFire(word) => word_notice(alloc, word, NO_ROUND),
        Fault::BadSpan(word) => word_notice(alloc, word, NO_SPAN),
        Fault::BadScan(why, word) => word_notice(alloc, word, why.sentence()),
        Fault::BadName { name, says } => word_notice(alloc, name, says),
        Fault::CannotRead(cause) => file_notice(alloc, other_name(request), cause.sentence()),
        Fault::CannotWrite => Ok(Vec::new(alloc)),
        Fault::NoMemory => Ok(Vec::new(alloc)),
    }
}

const TOO_MANY: &str = "there are more than 1000 presses";

const NO_ROUND: &str = "no round of the run";

const NO_SPAN: &str = "no rounds: A:B, A: or :B, a first and a last round from 1 to 65535";

const NO_PRESS: &str =
    "no press: ROUND:FROM:TO or ROUND:FROM:TO:PANEL, a round of the run, two floors of the group, a panel from 1 to 4";

const LATE_NAME: &str = "the names of `watch` come before the presses";

// Whether something is wanted below a fault: where faults are to be explained, and with `--json` and with `--all` below each refusal of FILE.
fn wants(wanted: bool, request: Request<'_>, fault: &Fault) -> bool
    ensures { result ≡ wants wanted request.entry fault.now }
{
    wanted || ((asks_json(request) || asks_all(request)) && is_of_text(fault))
}

// Whether a fault is the refusal of FILE.
fn is_of_text(fault: &Fault) -> bool
    ensures { result ≡ is_of_text fault.now }
{
    matches!(fault, Fault::RefusedText { .. })
}

// The line of a refusal of the other file in what was read, and what its number means.
fn refusal_below(
    alloc: Global,
    request: Request<'_>,
    text: &[u8],
    trace: &Reading,
    number: u16,
    line: u32,
) -> Result<Vec<u8>, AllocError>
    ensures { IfOk result (λ below. IsShownBelow
        (other_source request.entry text.now trace.now).0
        (other_source request.entry text.now trace.now).1 number line below.items) }
{
    let source = other_source(request, text, trace);
    below(alloc, source.name, source.text, number, line)
}

// What is wrong with a word that is no press.
fn press_below(alloc: Global, request: Request<'_>, word: &str) -> Result<Vec<u8>, AllocError>
    ensures { IfOk result (λ below. (late : Bool)
        × (IsTrue late ↔ IsLateName request.entry word.now)
        × (below.items ≡ word_notice word.now (press_sentence late))) }
{
    let late = is_late_name(request, word);
    word_notice(alloc, word, press_sentence(late))
}

fn press_sentence(late: bool) -> &'static str
    ensures { result.now ≡ press_sentence late }
{
    if late { LATE_NAME } else { NO_PRESS }
}

// Whether a word among the presses looks like a name of `watch`.
fn is_late_name(request: Request<'_>, word: &str) -> bool
    ensures { IsTrue result ↔ IsLateName request.entry word.now }
{
    match request {
        Request::Rounds(Simulating::Watch, _) => !is_number(word),
        _ => false,
    }
}

/// Why FILE can't be read, with its name below, where that is wanted; `NoMemory` where memory for that is missing.
pub fn unread_explained(alloc: Global, name: &str, why: ReadFault, wanted: bool) -> Explained
    ensures { IsExplained wanted (IsUnreadBelow name.now why) (fault_of_reading why) result.fault
        result.below.items }
{
    if !wanted {
        return Explained::alone(alloc, why.into());
    }
    match unread_below(alloc, name, why) {
        Ok(below) => Explained {
            fault: why.into(),
            below,
        },
        Err(_) => Explained::alone(alloc, Fault::NoMemory),
    }
}

// What is below a FILE that can't be read.
fn unread_below(alloc: Global, name: &str, why: ReadFault) -> Result<Vec<u8>, AllocError>
    ensures { IfOk result (λ below. IsUnreadBelow name.now why below.items) }
{
    match why {
        ReadFault::CannotRead(cause) => file_notice(alloc, name, cause.sentence()),
        ReadFault::NoMemory => Ok(Vec::new(alloc)),
    }
}

// A file, and what was read of it.
#[derive(Clone, Copy)]
struct Source<'w> {
    name: &'w str,
    text: &'w [u8],
}

// The other file of a request; FILE, where it has none.
fn other_source<'w>(request: Request<'w>, text: &'w [u8], trace: &'w Reading) -> Source<'w>
    ensures name { result.name.now ≡ (other_source request.entry text.now trace.now).0 }
    ensures text { result.text.now ≡ (other_source request.entry text.now trace.now).1 }
{
    match other_of(request) {
        Some(name) => Source {
            name,
            text: trace.text(),
        },
        None => Source {
            name: request.file(),
            text,
        },
    }
}

// The name of the other file of a request.
fn other_of(request: Request<'_>) -> Option<&str>
    ensures { option_map (λ name. name.now) result ≡ other_of request.entry }
{
    match request {
        Request::Trace(_, traced) => Some(traced.trace),
        Request::Rounds(_, rounds) => rounds.calls,
        _ => None,
    }
}

// The name of the other file of a request, or of FILE where it has none.
fn other_name(request: Request<'_>) -> &str
    ensures { result.now ≡ other_name request.entry }
{
    match other_of(request) {
        Some(name) => name,
        None => request.file(),
    }
}
