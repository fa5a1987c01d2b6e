// From one trace to the next.

ghost use Rattle.std.specs.Prelude.{◌≡◌, ◌++◌, ◌∷◌, [], None, true, false, if◌then◌else◌, string_bytes, IfOk, IfErr, OnOk};
ghost use Rattle.serve_lines.specs.Serving.{IsServer};
ghost use Rattle.trace_text.specs.Text.{last_line};
ghost use Rattle.serve_blackbox.specs.Between.{kept_final, kept_spot};
ghost use Rattle.serve_blackbox.specs.Ending.{IsUnkept};
ghost use Rattle.serve_blackbox.specs.Keeping.{IsGone, kept_line};

use crate::head::head_of;
use crate::sink::TraceSink;
use cli_host::sink::{Sink, put_all};
use serve_lines::server::Server;
use std::alloc::{AllocError, Global};
use thiserror::Error;

/// Why a line that asks for another trace isn't answered.
#[derive(Clone, Copy, Debug, Error)]
pub enum KeepFault {
    /// An allocation failed.
    #[error("out of memory")]
    Memory,
    #[error("the last line of the trace can't be written")]
    Trace,
    #[error("the answer can't be written")]
    Output,
}

// The two answers.
#[derive(Drop)]
struct Answers {
    kept: String,
    refused: String,
}

fn both_answers(alloc: Global, name: &str) -> Result<Answers, AllocError>
    ensures kept { IfOk result (λ a. string_bytes a.kept ≡ kept_line name.now true) }
    ensures refused { IfOk result (λ a. string_bytes a.refused ≡ kept_line name.now false) }
{
    let mut kept = String::new(alloc);
    writeln!(&mut kept, "kept {}", name)?;
    let mut refused = String::new(alloc);
    writeln!(&mut refused, "kept {} refused", name)?;
    Ok(Answers { kept, refused })
}

impl Answers {
    fn of(&self, kept: bool) -> &str
        ensures { result.now
            ≡ (if kept then string_bytes self.now.kept else string_bytes self.now.refused) }
    {
        if kept {
            self.kept.as_str()
        } else {
            self.refused.as_str()
        }
    }
}

// The last line of a trace of so many events.
#[tactic(auto, unfolding(trace_text::specs::Text::last_line))]
fn end_of(alloc: Global, count: u64) -> Result<String, AllocError>
    ensures { IfOk result (λ text. string_bytes text ≡ last_line count ++ 10 ∷ []) }
{
    let mut text = String::new(alloc);
    writeln!(&mut text, "E {}", count)?;
    Ok(text)
}

/// Ends the present trace and goes on in the trace of a name, which begins with the state of the group's world, where that can be made; and answers
/// which of the two came about. `source` is the text of the group's configuration.
pub fn keep<O: Sink, T: TraceSink>(
    alloc: Global,
    server: &mut Server,
    name: &str,
    source: &[u8],
    out: &mut O,
    trace: &mut T,
) -> Result<(), KeepFault>
    requires { IsServer server.old }
    ensures goes { OnOk result (IsGone server.old.rounds.world.program.config source.now
        (kept_spot O.Sink T.Sink server.old out.old trace.old)
        (kept_spot O.Sink T.Sink server.new out.new trace.new) name.now) }
    ensures unkept { IfErr result (IsUnkept server.old.rounds.world.program.config source.now
        (kept_spot O.Sink T.Sink server.old out.old trace.old) name.now
        (kept_final O.Sink T.Sink out.new trace.new)) }
    ensures server { IsServer server.new }
    ensures same { server.new.rounds ≡ server.old.rounds }
    ensures stop { server.new.stop ≡ server.old.stop }
    ensures silent { T.contents trace.old ≡ None → T.contents trace.new ≡ None }
{
    let Ok(head) = head_of(alloc, &server.rounds.world, source) else {
        return Err(KeepFault::Memory);
    };
    let Ok(end) = end_of(alloc, server.count) else {
        return Err(KeepFault::Memory);
    };
    let Ok(answers) = both_answers(alloc, name) else {
        return Err(KeepFault::Memory);
    };
    let Ok(kept) = trace.turn(name, head.text.as_bytes(), end.as_bytes()) else {
        return Err(KeepFault::Trace);
    };
    if kept {
        server.count = head.events;
    }
    if put_all(out, answers.of(kept).as_bytes()).is_err() {
        return Err(KeepFault::Output);
    }
    Ok(())
}
