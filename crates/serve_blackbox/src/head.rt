// How a trace begins.

ghost use Rattle.std.specs.Prelude.{◌≡◌, length, string_bytes, IfOk};
ghost use Rattle.group_journal.specs.Closed.{IsClosed};
ghost use Rattle.serve_lines.specs.Waiting.{waiting_events};
ghost use Rattle.serve_blackbox.specs.Heads.{IsAgain, head_text};

use group_state::put::put_state;
use group_world::World;
use serve_lines::waiting::put_waiting;
use sha2::{Digest, Sha256};
use std::alloc::{AllocError, Global};

/// The head of the trace that begins at a world, and how many events are in it.
#[derive(Drop)]
pub struct TraceHead {
    pub text: String,
    pub events: u64,
}

/// The head of a trace that begins at a world of a configuration whose text is `source`: the world's state, and the calls that wait in the
/// hand and on the desk.
pub fn head_of(alloc: Global, world: &World, source: &[u8]) -> Result<TraceHead, AllocError>
    ensures text { IfOk result (λ h. string_bytes h.text
        ≡ head_text world.now.program.config source.now world.now.world) }
    ensures events { IfOk result (λ h. h.events ≡ length (waiting_events world.now.world)) }
    // of a world between scans the events of the head lead there
    ensures again { IfOk result (λ _. IsClosed world.now.world
        → IsAgain world.now.program.config world.now.world) }
{
    let digest = Sha256::digest(source);
    let mut text = String::new(alloc);
    put_state(&mut text, world, &digest)?;
    let events = put_waiting(&mut text, world)?;
    Ok(TraceHead { text, events })
}
