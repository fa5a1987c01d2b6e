// `serve`: a configuration driven by lines.

ghost use Rattle.std.specs.Prelude.{◌≡◌, ◌++◌, Some, None, true, option_map, IfOk, OnOk, OnErr};
ghost use Rattle.cli_host.specs.Messages.{message_of, status_of, line_fault_number};
ghost use Rattle.cli_host.specs.declared.status.Fault.TheVariants.{Refused as RefusedLine};
ghost use Rattle.group_journal.specs.Closed.{IsClosed};
ghost use Rattle.cli_shell.specs.Runs.{IsExplained};
ghost use Rattle.cli_host.specs.Servings.{continued_name};
ghost use Rattle.cli_host.specs.Writes.{Writes};
ghost use Rattle.cli_host.specs.declared.serving.Tracing.{Tracing as TracingOf};
ghost use Rattle.serve_blackbox.specs.Keeping.{IsNew};
ghost use Rattle.cli_command.specs.Servings.{IsUntouched, held_trace, between, IsServeAnswer, IsTextAnswer, IsLoadedAnswer, IsPreparedAnswer, IsRefusalBelow, IsRefusedAnswer, IsUnreadAnswer, fault_of_halt, fault_of_input, fault_of_keep, fault_of_line, fault_of_stop, fault_of_wrong, shown_line};

use crate::liftplc::loaded;
use crate::origin::{Prepared, prepare};
use cli_host::files::{Cause, ReadFault, TextFiles};
use cli_host::serving::{Serving, Tracing};
use cli_host::sink::{Sink, SinkFault, put_all};
use cli_host::status::{Fault, LineFault, Status};
use cli_messages::place::text_below;
use cli_messages::show::tell;
use cli_shell::explained::Explained;
use cli_shell::run::{MOST_BYTES, unread_explained};
use reasons_faults::reason;
use scan_task::Verified;
use serve_blackbox::group::{Halt, Head, serve_group};
use serve_blackbox::keep::KeepFault;
use serve_blackbox::sink::TraceSink;
use serve_lines::input::Came;
use serve_lines::said::WrongLine;
use serve_lines::serve::Stop;
use serve_lines::server::ServeFault;
use std::alloc::{AllocError, Global};
use std::io::Read;

/// Serves the configuration of FILE: each line of the input is answered before the next is read, and its events are written to the trace, if one
/// is wanted, before anything of it happens. Where serving ends otherwise than by `E`, the stop is the last line that is written, unless the
/// output failed, and the standard error has the one message. Of a FILE that is refused no line is read or written.
pub fn serve<F: TextFiles, T: TraceSink, I: Read, O: Sink, E: Sink>(
    alloc: Global,
    serving: Serving<'_>,
    files: &F,
    explains: bool,
    trace: &mut T,
    input: &mut I,
    out: &mut O,
    err: &mut E,
) -> Status
    ensures { IsServeAnswer (F.gives files.now) (F.fails files.now) explains serving.entry
        (between T.Sink I.Read O.Sink E.Sink trace.old trace.new input.old input.new out.old out.new
        err.old err.new) result }
{
    match files.read(alloc, serving.file, MOST_BYTES) {
        Ok(text) => serve_text(
            alloc, serving, &text, explains, files, trace, input, out, err,
        ),
        Err(why) => tell_unread(alloc, serving.file, why, explains, err),
    }
}

// Says that FILE can't be read.
fn tell_unread<E: Sink>(
    alloc: Global,
    name: &str,
    why: ReadFault,
    explains: bool,
    err: &mut E,
) -> Status
    ensures { IsUnreadAnswer explains name.now why
        (Writes (E.contents err.old) (E.contents err.new) (E.has_failed err.new)) result }
{
    let explained = unread_explained(alloc, name, why, explains);
    tell_explained(&explained, err)
}

// Reports a fault with what is below it, and ends with its status.
fn tell_explained<E: Sink>(explained: &Explained, err: &mut E) -> Status
    ensures told { Writes (E.contents err.old) (E.contents err.new) (E.has_failed err.new)
        (message_of explained.now.fault ++ explained.now.below.items) }
    ensures ends { result ≡ status_of explained.now.fault }
{
    tell(&explained.fault, &explained.below, err);
    explained.fault.status()
}

// Serves what was read of FILE, or says why it is refused.
fn serve_text<F: TextFiles, T: TraceSink, I: Read, O: Sink, E: Sink>(
    alloc: Global,
    serving: Serving<'_>,
    text: &[u8],
    explains: bool,
    files: &F,
    trace: &mut T,
    input: &mut I,
    out: &mut O,
    err: &mut E,
) -> Status
    ensures { IsTextAnswer (F.gives files.now) (F.fails files.now) explains serving.entry
        text.now (between T.Sink I.Read O.Sink E.Sink trace.old trace.new input.old input.new
        out.old out.new err.old err.new) result }
{
    match loaded(alloc, text) {
        Ok(verified) => serve_loaded(
            alloc,
            verified,
            text,
            serving.trace,
            files,
            trace,
            input,
            out,
            err,
        ),
        Err(refusal) => tell_refused(alloc, serving.file, text, refusal.into(), explains, err),
    }
}

// Says why FILE is refused.
fn tell_refused<E: Sink>(
    alloc: Global,
    name: &str,
    text: &[u8],
    fault: Fault,
    explains: bool,
    err: &mut E,
) -> Status
    ensures { IsRefusedAnswer explains name.now text.now fault
        (Writes (E.contents err.old) (E.contents err.new) (E.has_failed err.new)) result }
{
    let explained = refusal_explained(alloc, name, text, fault, explains);
    tell_explained(&explained, err)
}

// A refusal of FILE with what is below it, where that is wanted; `NoMemory` where memory for that is missing.
fn refusal_explained(
    alloc: Global,
    name: &str,
    text: &[u8],
    fault: Fault,
    wanted: bool,
) -> Explained
    ensures { IsExplained wanted (IsRefusalBelow name.now text.now fault) fault result.fault
        result.below.items }
{
    if !wanted {
        return Explained::alone(alloc, fault);
    }
    match refusal_below(alloc, name, text, &fault) {
        Ok(below) => Explained { fault, below },
        Err(_) => Explained::alone(alloc, Fault::NoMemory),
    }
}

// What is below a refusal of FILE.
fn refusal_below(
    alloc: Global,
    name: &str,
    text: &[u8],
    fault: &Fault,
) -> Result<Vec<u8>, AllocError>
    ensures { IfOk result (λ below. IsRefusalBelow name.now text.now fault.now below.items) }
{
    match fault {
        Fault::RefusedText { number, place } => {
            let reason = reason(alloc, text, *number, *place)?;
            text_below(alloc, name, text, *number, *place, &reason)
        }
        _ => Ok(Vec::new(alloc)),
    }
}

// The name of the trace from which a group goes on, where it does.
fn from_of(tracing: Option<Tracing<'_>>) -> Option<&str>
    ensures { option_map (λ name. name.now) result ≡ continued_name tracing.entry }
{
    tracing?.from
}

// Serves a configuration, from its opening or from where a trace ends.
fn serve_loaded<F: TextFiles, T: TraceSink, I: Read, O: Sink, E: Sink>(
    alloc: Global,
    verified: Verified,
    source: &[u8],
    tracing: Option<Tracing<'_>>,
    files: &F,
    trace: &mut T,
    input: &mut I,
    out: &mut O,
    err: &mut E,
) -> Status
    ensures { IsLoadedAnswer (F.gives files.now) (F.fails files.now) verified.config source.now
        tracing.entry (between T.Sink I.Read O.Sink E.Sink trace.old trace.new input.old input.new
        out.old out.new err.old err.new) result }
{
    match prepare(alloc, verified, source, from_of(tracing), files) {
        Ok(prepared) => { serve_prepared(alloc, prepared, source, tracing, trace, input, out, err) }
        Err(fault) => end_with(&fault, err),
    }
}

// Reports a fault, and ends with its status.
fn end_with<E: Sink>(fault: &Fault, err: &mut E) -> Status
    ensures told { Writes (E.contents err.old) (E.contents err.new) (E.has_failed err.new)
        (message_of fault.now) }
    ensures ends { result ≡ status_of fault.now }
{
    tell(fault, b"", err);
    fault.status()
}

// Serves a group, once its trace is created, if one is wanted.
fn serve_prepared<T: TraceSink, I: Read, O: Sink, E: Sink>(
    alloc: Global,
    prepared: Prepared,
    source: &[u8],
    tracing: Option<Tracing<'_>>,
    trace: &mut T,
    input: &mut I,
    out: &mut O,
    err: &mut E,
) -> Status
    requires { IsClosed prepared.world.world }
    ensures { IsPreparedAnswer prepared source.now tracing.entry (between T.Sink I.Read O.Sink E.Sink
        trace.old trace.new input.old input.new out.old out.new err.old err.new) result }
{
    let Prepared { world, head, told } = prepared;
    let _told = put_all(err, told.as_bytes());
    if create(tracing, trace).is_err() {
        world.release();
        return end_with(&Fault::CannotWrite, err);
    }
    let events = head.events;
    let text = head.text.as_bytes();
    let head = Head { text, events };
    match serve_group(alloc, world, head, source, input, out, trace) {
        Ok(()) => Status::Done,
        Err(halt) => end_with(&fault_of_halt(halt), err),
    }
}

// Creates the trace, if one is wanted.
fn create<T: TraceSink>(tracing: Option<Tracing<'_>>, trace: &mut T) -> Result<(), SinkFault>
    ensures none { OnOk result (tracing.entry ≡ None → trace.new ≡ trace.old) }
    ensures made { OnOk result ((wanted : TracingOf) → tracing.entry ≡ Some wanted
        → ((T.made trace.new).is wanted.name.now wanted.sync ≡ true)
        × IsNew (T.contents trace.new)) }
    ensures wanted { OnErr result ((wanted : TracingOf) × (tracing.entry ≡ Some wanted)) }
    ensures failed { OnErr result (T.has_failed trace.new ≡ true) }
    ensures unmade { OnErr result (IsUntouched (held_trace (T.contents trace.old)
        (T.contents trace.new) (T.made trace.old) (T.made trace.new))) }
{
    match tracing {
        Some(tracing) => trace.create(tracing.name, tracing.sync),
        None => Ok(()),
    }
}

// The fault of a group that came to no end.
fn fault_of_halt(halt: Halt) -> Fault
    ensures { result ≡ fault_of_halt halt }
{
    match halt {
        Halt::Memory => Fault::NoMemory,
        Halt::Head => Fault::CannotWrite,
        Halt::Stop(stopped) => fault_of_stop(stopped.stop, shown_line(stopped.line)),
        Halt::Keep(fault) => fault_of_keep(fault),
    }
}

// The fault of a line that asks for another trace and was not answered.
fn fault_of_keep(fault: KeepFault) -> Fault
    ensures { result ≡ fault_of_keep fault }
{
    match fault {
        KeepFault::Memory => Fault::NoMemory,
        KeepFault::Trace | KeepFault::Output => Fault::CannotWrite,
    }
}

// The number of a line, as far as numbers of lines go.
fn shown_line(line: u64) -> u32
    ensures { result ≡ shown_line line }
{
    if line < 4_294_967_295 {
        line as u32
    } else {
        4_294_967_295
    }
}

// A line of the input that is refused.
fn refused(why: LineFault, line: u32) -> Fault
    ensures { result ≡ RefusedLine (line_fault_number why) line }
{
    Fault::Refused {
        number: why.number(),
        line,
    }
}

// The fault of a stop.
fn fault_of_stop(stop: Stop, line: u32) -> Fault
    ensures { result ≡ fault_of_stop stop line }
{
    match stop {
        Stop::Line(fault) => fault_of_line(fault, line),
        Stop::Input(came) => fault_of_input(came, line),
        Stop::Lines => refused(LineFault::Full, line),
    }
}

// The fault of a whole line that was not answered.
fn fault_of_line(fault: ServeFault, line: u32) -> Fault
    ensures { result ≡ fault_of_line fault line }
{
    match fault {
        ServeFault::WrongLine(why) => fault_of_wrong(why, line),
        ServeFault::Trace => Fault::CannotWrite,
        ServeFault::Output => Fault::CannotWrite,
        ServeFault::Memory => Fault::NoMemory,
        ServeFault::Full => refused(LineFault::Full, line),
    }
}

// The fault of a line that says nothing to the group.
fn fault_of_wrong(why: WrongLine, line: u32) -> Fault
    ensures { result ≡ fault_of_wrong why line }
{
    match why {
        WrongLine::NoLine => refused(LineFault::BadLine, line),
        WrongLine::OutOfRange => refused(LineFault::OutOfRange, line),
    }
}

// The fault of a line that did not come whole.
fn fault_of_input(came: Came, line: u32) -> Fault
    ensures { result ≡ fault_of_input came line }
{
    match came {
        Came::Whole => refused(LineFault::Truncated, line),
        Came::Ended => refused(LineFault::Truncated, line),
        Came::TooLong => refused(LineFault::BadLine, line),
        Came::Failed => Fault::CannotRead(Cause::Other),
    }
}
