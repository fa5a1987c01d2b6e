// Lines, one after the other.

ghost use Rattle.std.specs.Prelude.{◌≡◌, ◌≤◌, None, OnOk, IfOk, IfErr, vec_capacity};
ghost use Rattle.serve_lines.specs.Serving.{IsServer, most_lines};
ghost use Rattle.serve_lines.specs.Between.{Pauses, Stops};

use crate::input::{Came, next_line};
use crate::said::asked_name;
use crate::server::{ServeFault, Server};
use cli_host::sink::Sink;
use std::io::Read;
use thiserror::Error;

/// Why serving ends before the end was said.
#[derive(Clone, Copy, Debug, Error)]
pub enum Stop {
    /// A whole line was not answered.
    #[error(transparent)]
    Line(ServeFault),
    #[error("no whole line came")]
    Input(Came),
    #[error("no more lines can be counted")]
    Lines,
}

/// Why serving ends before the end was said, and at which line.
#[derive(Clone, Copy, Debug, Error)]
#[error("line {line}: {stop}")]
pub struct Stopped {
    pub stop: Stop,
    pub line: u64,
}

// So many lines can be counted, and the number of the one after them.
const MOST_LINES: u64 = 18_446_744_073_709_551_614;

/// How serving pauses: the end was said, or another trace was asked for by the line of this number.
#[derive(Clone, Copy, Debug)]
pub enum Pause {
    End,
    Asked(u64),
}

/// Answers each line of a reader before it reads the next, up to the end, or up to a line that asks for another trace, which is left in `line`.
/// So many lines came before; they count from 1.
pub fn serve<R: Read, O: Sink, T: Sink>(
    server: &mut Server,
    line: &mut Vec<u8>,
    heard: u64,
    reader: &mut R,
    out: &mut O,
    trace: &mut T,
) -> Result<Pause, Stopped>
    requires server { IsServer server.old }
    requires room { 128 ≤ vec_capacity line.old }
    requires few { heard ≤ most_lines }
    ensures served { IfOk result (Pauses R.Read O.Sink T.Sink server.old server.new heard
        line.new.items reader.old reader.new out.old out.new trace.old trace.new) }
    ensures stopped { IfErr result (Stops R.Read O.Sink T.Sink server.old heard reader.old
        reader.new out.old out.new trace.old trace.new) }
    ensures stop { server.new.stop ≡ server.old.stop }
    ensures server { OnOk result (IsServer server.new) }
    ensures same { server.new.rounds.world.program ≡ server.old.rounds.world.program }
    ensures room { 128 ≤ vec_capacity line.new }
    ensures silent { T.contents trace.old ≡ None → T.contents trace.new ≡ None }
    ensures made { T.made trace.new ≡ T.made trace.old }
{
    'lines: for before in heard..MOST_LINES {
        let number = before + 1;
        let came = next_line(reader, line);
        match came {
            Came::Whole => {
                let text = line.as_slice();
                if asked_name(text).is_some() {
                    return Ok(Pause::Asked(number));
                }
                match server.hear(text, out, trace) {
                    Ok(false) => {}
                    Ok(true) => return Ok(Pause::End),
                    Err(fault) => return Err(Stopped {
                        stop: Stop::Line(fault),
                        line: number,
                    }),
                }
            }
            _ => return Err(Stopped {
                stop: Stop::Input(came),
                line: number,
            }),
        }
    }
    Err(Stopped {
        stop: Stop::Lines,
        line: MOST_LINES + 1,
    })
}
