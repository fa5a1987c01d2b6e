// The program `liftplc`.

ghost use Rattle.std.specs.Prelude.{◌≡◌, IfSome, IsNone, false, map, string_bytes};
ghost use Rattle.cli_command.specs.Programs.{HasLeft, IsAnswerToRead, IsProgramAnswer, IsRunAnswer};
ghost use Rattle.cli_command.specs.Servings.{between};
ghost use Rattle.cli_host.specs.Messages.{message_of, status_of};
ghost use Rattle.cli_host.specs.Requests.{plain_words};
ghost use Rattle.cli_shell.specs.Runs.{AskForRun, written};
ghost use Rattle.cli_host.specs.Writes.{Writes};

use crate::disk_trace::DiskTrace;
use crate::liftplc::Liftplc;
use crate::memory_trace::MemoryTrace;
use crate::serving::serve;
use cli_host::files::{Disk, TextFiles};
use cli_host::request::{Plain, read_words};
use cli_host::serving::asked_to_serve;
use cli_host::sink::{Memory, Sink, Stream};
use cli_host::status::{Fault, Status};
use cli_messages::show::tell;
use cli_shell::entry::{keep_freed_memory, words};
use cli_shell::run::{is_wanted, run, run_alone};
use serve_blackbox::sink::TraceSink;
use std::alloc::Global;
use std::fs::File;
use std::io::{BufReader, IsTerminal, Read};
use std::process::ExitCode;
use std::sync::Wait;
use std::thread::Threads;

/// Runs `liftplc` on words, without the program's name. A fault is explained where that is asked for, or where the words have `--explain`.
/// Only where they ask for `run` it waits for threads.
pub fn command<R: Threads + Wait + Sync, F: TextFiles, T: TraceSink, I: Read, O: Sink, E: Sink>(
    rt: &R,
    alloc: Global,
    words: &[String],
    explains: bool,
    files: &F,
    trace: &mut T,
    input: &mut I,
    out: &mut O,
    err: &mut E,
) -> Status
    requires { O.has_failed out.old ≡ false }
    ensures { IsProgramAnswer (F.gives files.now) (F.fails files.now) explains
        (map string_bytes words.now)
        (between T.Sink I.Read O.Sink E.Sink trace.old trace.new input.old input.new out.old out.new
        err.old err.new) result }
{
    match command_alone(alloc, words, explains, files, trace, input, out, err) {
        Some(status) => status,
        None => command_run(rt, alloc, words, explains, files, out, err),
    }
}

/// The command without threads, so it returns. `None`: the words ask for `run`, and nothing was read or written.
pub fn command_alone<F: TextFiles, T: TraceSink, I: Read, O: Sink, E: Sink>(
    alloc: Global,
    words: &[String],
    explains: bool,
    files: &F,
    trace: &mut T,
    input: &mut I,
    out: &mut O,
    err: &mut E,
) -> Option<Status>
    requires { O.has_failed out.old ≡ false }
    ensures answered { IfSome result (IsProgramAnswer (F.gives files.now) (F.fails files.now)
        explains (map string_bytes words.now)
        (between T.Sink I.Read O.Sink E.Sink trace.old trace.new input.old input.new out.old out.new
        err.old err.new)) }
    ensures run { IsNone result → AskForRun (plain_words (map string_bytes words.now)) }
    ensures unread { IsNone result → (input.new ≡ input.old) × (trace.new ≡ trace.old) }
    ensures unwritten { IsNone result → (out.new ≡ out.old) × (err.new ≡ err.old) }
{
    match read_words(alloc, words) {
        Ok(plain) => plain_alone(alloc, &plain, explains, files, trace, input, out, err),
        Err(_) => Some(ends_with(&Fault::NoMemory, err)),
    }
}

// The command without threads, of words that are read already.
fn plain_alone<F: TextFiles, T: TraceSink, I: Read, O: Sink, E: Sink>(
    alloc: Global,
    words: &Plain,
    explains: bool,
    files: &F,
    trace: &mut T,
    input: &mut I,
    out: &mut O,
    err: &mut E,
) -> Option<Status>
    requires { O.has_failed out.old ≡ false }
    ensures answered { IfSome result (IsAnswerToRead (F.gives files.now) (F.fails files.now)
        explains words.now
        (between T.Sink I.Read O.Sink E.Sink trace.old trace.new input.old input.new out.old out.new
        err.old err.new)) }
    ensures run { IsNone result → AskForRun (map string_bytes words.now.words.items) }
    ensures unread { IsNone result → (input.new ≡ input.old) × (trace.new ≡ trace.old) }
    ensures unwritten { IsNone result → (out.new ≡ out.old) × (err.new ≡ err.old) }
{
    match asked_to_serve(&words.words) {
        Some(serving) => {
            let wanted = is_wanted(explains, words.explains);
            Some(serve(alloc, serving, files, wanted, trace, input, out, err))
        }
        None => run_alone(alloc, words, files, &Liftplc, explains, out, err),
    }
}

// Runs `liftplc` on words that ask for `run`.
fn command_run<R: Threads + Wait + Sync, F: TextFiles, O: Sink, E: Sink>(
    rt: &R,
    alloc: Global,
    words: &[String],
    explains: bool,
    files: &F,
    out: &mut O,
    err: &mut E,
) -> Status
    requires { O.has_failed out.old ≡ false }
    ensures { IsRunAnswer (F.gives files.now) (F.fails files.now) explains
        (map string_bytes words.now) (written O.Sink out.old out.new)
        (written E.Sink err.old err.new) result }
{
    match read_words(alloc, words) {
        Ok(plain) => run(rt, alloc, &plain, files, &Liftplc, explains, out, err),
        Err(_) => ends_with(&Fault::NoMemory, err),
    }
}

// Reports a fault, and ends with its status.
fn ends_with<E: Sink>(fault: &Fault, err: &mut E) -> Status
    ensures told { Writes (E.contents err.old) (E.contents err.new) (E.has_failed err.new)
        (message_of fault.now) }
    ensures ends { result ≡ status_of fault.now }
{
    tell(fault, b"", err);
    fault.status()
}

/// Runs `liftplc` on the words of the command line, over the files and streams of the process; `threads` lends the right to start threads and to
/// wait for them. Faults are explained where the standard error is a terminal.
pub fn main<R: Threads + Wait + Sync>(rt: &HostRuntime, threads: &R) -> ExitCode {
    keep_freed_memory(rt);
    // A standard stream that is closed becomes the root folder, which can be neither read nor written. So no file that is opened later, as
    // TRACE, takes its place, and what is written to the stream fails.
    let _first = File::open(rt, "/");
    let _second = File::open(rt, "/");
    let _third = File::open(rt, "/");
    let mut out = Stream::new(rt.stdout());
    let mut err = Stream::new(rt.stderr());
    let status = match process_words(rt, threads, &mut out, &mut err) {
        Ok(status) => status,
        Err(fault) => ends_with(&fault, &mut err),
    };
    ExitCode::from(status.code())
}

// Runs `liftplc` on the words of the command line, with these streams; or says why the words or the standard input can't be read.
fn process_words<R: Threads + Wait + Sync, O: Sink, E: Sink>(
    rt: &HostRuntime,
    threads: &R,
    out: &mut O,
    err: &mut E,
) -> Result<Status, Fault>
    requires { O.has_failed out.old ≡ false }
{
    let words = words(rt)?;
    let Ok(mut input) = BufReader::new(rt.alloc(), rt.stdin()) else {
        return Err(Fault::NoMemory);
    };
    let explains = rt.stderr().is_terminal();
    Ok(command(
        threads,
        rt.alloc(),
        &words,
        explains,
        &Disk(rt),
        &mut DiskTrace::new(rt),
        &mut input,
        out,
        err,
    ))
}

/// What a run over sinks in memory has left.
#[derive(Drop)]
pub struct Outcome {
    pub status: Status,
    pub out: Memory,
    pub err: Memory,
    pub trace: MemoryTrace,
}

/// Runs `liftplc` on words over files, with this standard input and a standard output that takes so many bytes.
pub fn tried<R: Threads + Wait + Sync, F: TextFiles>(
    rt: &R,
    alloc: Global,
    words: &[String],
    files: &F,
    input: &[u8],
    limit: usize,
) -> Outcome
    ensures { HasLeft (F.gives files.now) (F.fails files.now) (map string_bytes words.now)
        input.now result }
{
    let mut out = Memory::with_limit(alloc, limit);
    let mut err = Memory::new(alloc);
    let mut trace = MemoryTrace::new(alloc);
    let mut rest = input;
    let status = command(
        rt, alloc, words, false, files, &mut trace, &mut rest, &mut out, &mut err,
    );
    Outcome {
        status,
        out,
        err,
        trace,
    }
}
