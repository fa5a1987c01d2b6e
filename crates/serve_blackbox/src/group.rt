// A group from where it begins to the end of its lines.

ghost use Rattle.std.specs.Prelude.{◌≡◌, ◌≤◌, None, OnOk, IfErr, vec_capacity};
ghost use Rattle.group_journal.specs.Closed.{IsClosed};
ghost use Rattle.serve_lines.specs.Serving.{IsServer};
ghost use Rattle.serve_blackbox.specs.Between.{final, spot};
ghost use Rattle.serve_blackbox.specs.Ending.{Ends, IsEnded, IsEndedFrom, IsHalted, IsHaltedFrom, StopsAs, is_output};

use crate::keep::{KeepFault, keep};
use crate::sink::TraceSink;
use cli_host::sink::{Sink, put_all};
use group_world::World;
use serve_lines::said::asked_name;
use serve_lines::serve::{Pause, Stop, Stopped, serve};
use serve_lines::server::{ServeFault, Server};
use std::alloc::Global;
use std::io::Read;
use thiserror::Error;

/// Why a group didn't come to its end.
#[derive(Clone, Copy, Debug, Error)]
pub enum Halt {
    /// Memory is missing for it to open.
    #[error("out of memory")]
    Memory,
    #[error("the head of the trace can't be written")]
    Head,
    /// A line was not answered, or none came.
    #[error(transparent)]
    Stop(Stopped),
    /// A line that asks for another trace was not answered.
    #[error(transparent)]
    Keep(KeepFault),
}

/// The head of a trace, and how many events are in it.
#[derive(Clone, Copy)]
pub struct Head<'h> {
    pub text: &'h [u8],
    pub events: u64,
}

// Serves a group to the end of its lines, from trace to trace.
fn serve_traces<R: Read, O: Sink, T: TraceSink>(
    alloc: Global,
    server: &mut Server,
    line: &mut Vec<u8>,
    source: &[u8],
    reader: &mut R,
    out: &mut O,
    trace: &mut T,
) -> Result<(), Halt>
    requires server { IsServer server.old }
    requires room { 128 ≤ vec_capacity line.old }
    ensures ended { OnOk result (IsEndedFrom server.old.rounds.world.program.config source.now
        (spot R.Read O.Sink T.Sink server.old.rounds.world.world server.old.count 0 reader.old
        out.old trace.old) (final R.Read O.Sink T.Sink reader.new out.new trace.new)) }
    ensures halted { IfErr result (IsHaltedFrom server.old.rounds.world.program.config source.now
        (spot R.Read O.Sink T.Sink server.old.rounds.world.world server.old.count 0 reader.old
        out.old trace.old) (final R.Read O.Sink T.Sink reader.new out.new trace.new)) }
    ensures stop { server.new.stop ≡ server.old.stop }
    ensures silent { T.contents trace.old ≡ None → T.contents trace.new ≡ None }
{
    let mut heard = 0;
    'traces: loop {
        match serve(server, line, heard, reader, out, trace) {
            Ok(Pause::End) => return Ok(()),
            Ok(Pause::Asked(number)) => heard = number,
            Err(stopped) => return Err(Halt::Stop(stopped)),
        }
        let Some(name) = asked_name(line) else {
            unreachable!()
        };
        if let Err(fault) = keep(alloc, server, name, source, out, trace) {
            return Err(Halt::Keep(fault));
        }
    }
}

/// Serves a group from a world between scans to the end of its lines, with this head of its trace, and then from trace to trace. Where it stops
/// before, the stop is the last line that is written. `source` is the text of its configuration.
pub fn serve_group<R: Read, O: Sink, T: TraceSink>(
    alloc: Global,
    world: World,
    head: Head<'_>,
    source: &[u8],
    reader: &mut R,
    out: &mut O,
    trace: &mut T,
) -> Result<(), Halt>
    requires { IsClosed world.world }
    ensures ended { OnOk result (IsEnded world.program.config source.now head.entry.text.now
        (spot R.Read O.Sink T.Sink world.world head.entry.events 0 reader.old out.old trace.old)
        (final R.Read O.Sink T.Sink reader.new out.new trace.new)) }
    ensures halted { IfErr result (IsHalted world.program.config source.now head.entry.text.now
        (spot R.Read O.Sink T.Sink world.world head.entry.events 0 reader.old out.old trace.old)
        (final R.Read O.Sink T.Sink reader.new out.new trace.new)) }
    ensures silent { T.contents trace.old ≡ None → T.contents trace.new ≡ None }
{
    let Ok(mut server) = Server::of(alloc, world, head.events) else {
        return Err(Halt::Memory);
    };
    let Ok(mut line) = Vec::with_capacity(alloc, 128) else {
        return Err(Halt::Memory);
    };
    if put_all(trace, head.text).is_err() {
        put_stop(server.stop.as_bytes(), out);
        return Err(Halt::Head);
    }
    match serve_traces(alloc, &mut server, &mut line, source, reader, out, trace) {
        Ok(()) => Ok(()),
        Err(halt) => {
            write_stop(halt, server.stop.as_bytes(), out);
            Err(halt)
        }
    }
}

// Whether the output failed.
fn is_output(halt: Halt) -> bool
    ensures { result ≡ is_output halt }
{
    matches!(
        halt,
        Halt::Stop(Stopped {
            stop: Stop::Line(ServeFault::Output),
            ..
        }) | Halt::Keep(KeepFault::Output)
    )
}

// Writes the stop, unless it was the output that failed.
fn write_stop<O: Sink>(halt: Halt, text: &[u8], out: &mut O)
    ensures { StopsAs (O.contents out.old) (O.has_failed out.old) (O.contents out.new)
        (O.has_failed out.new) text.now (is_output halt) }
{
    if !is_output(halt) {
        put_stop(text, out);
    }
}

// Writes the stop.
fn put_stop<O: Sink>(text: &[u8], out: &mut O)
    ensures { Ends (O.contents out.old) (O.contents out.new) (O.has_failed out.new) text.now }
{
    let _written = put_all(out, text);
}
