// The state of a controller, written.

ghost use Rattle.std.specs.Prelude.{◌≡◌, ◌≤◌, ◌⊎◌, ◌↔◌, ◌++◌, Option, Some, None, IfOk, IfSome, drop, length as length_of, string_bytes};
ghost use Rattle.serve_blackbox.specs.Heads.{IsAgain};
ghost use Rattle.group_world.specs.Worlds.{WorldOf};
ghost use Rattle.liftplc_c.specs.Handles.{Rests};
ghost use Rattle.liftplc_c.specs.States.{whole_state, IsTooShort, StandsIn};

use crate::handle::Handle;
use crate::status::Status;
use group_world::World;
use serve_blackbox::head::{TraceHead, head_of};
use std::alloc::{AllocError, Global};

// The state of a world between scans as a whole trace without rounds, where the text is that of its configuration.
#[tactic(auto, unfolding(trace_text::specs::Text::last_line))]
fn whole_state(alloc: Global, world: &World, text: &[u8]) -> Result<String, AllocError>
    requires { Rests world.now.world }
    ensures text { IfOk result (λ whole. string_bytes whole ≡ whole_state text.now world.now) }
    ensures again { IfOk result (λ _. IsAgain world.now.program.config world.now.world) }
{
    let TraceHead {
        text: mut whole,
        events,
    } = head_of(alloc, world, text)?;
    writeln!(&mut whole, "E {}", events)?;
    Ok(whole)
}

// Copies bytes to the front of a room.
fn copy_to_front(room: &mut [u8], bytes: &[u8])
    requires { length_of bytes.now ≤ length_of room.old }
    ensures { room.new ≡ bytes.now ++ drop (length_of bytes.now) room.old }
{
    let (front, _) = room.split_at_mut(bytes.len());
    front.copy_from_slice(bytes);
}

// Writes bytes into a room, if they have room there, and how many they are.
#[tactic(auto, using(crate::proofs::Fronts::stands_in))]
fn write(bytes: &[u8], room: &mut [u8], length: &mut u64) -> u32
    ensures status { (result ≡ 0) ⊎ (result ≡ 11) }
    ensures done { result ≡ 0 → StandsIn room.old room.new length.new bytes.now }
    ensures short { result ≡ 11 → IsTooShort room.old room.new length.new bytes.now }
{
    *length = bytes.len() as u64;
    if bytes.len() > room.len() {
        return Status::Short as u32;
    }
    copy_to_front(room, bytes);
    Status::Done as u32
}

// Writes the state of a world between scans, if it has room.
fn save(alloc: Global, world: &World, text: &[u8], state: &mut [u8], length: &mut u64) -> u32
    requires { Rests world.now.world }
    ensures status { (result ≡ 0) ⊎ (result ≡ 2) ⊎ (result ≡ 11) }
    ensures done { result ≡ 0
        → StandsIn state.old state.new length.new (whole_state text.now world.now) }
    ensures again { result ≡ 0 → IsAgain world.now.program.config world.now.world }
    ensures short { result ≡ 11
        → IsTooShort state.old state.new length.new (whole_state text.now world.now) }
    ensures unwritten { result ≡ 2 → (state.new ≡ state.old) × (length.new ≡ length.old) }
{
    match whole_state(alloc, world, text) {
        Ok(whole) => write(whole.as_bytes(), state, length),
        Err(_) => Status::NoMemory as u32,
    }
}

/// Writes the state of the controller, where `text` is the text with which it was opened, as a whole trace of format 3 without rounds: 0, and how
/// many bytes it has. 2: memory is missing. 4: the handle isn't open. 11: the room is too short, and how many bytes it takes is written, but
/// nothing of the state. The controller stays as it is.
#[unsafe(no_mangle)]
pub extern "C" fn liftplc_state(
    alloc: Global,
    handle: &mut Handle,
    text: &[u8],
    state: &mut [u8],
    length: &mut u64,
) -> u32
    ensures status { (result ≡ 0) ⊎ (result ≡ 2) ⊎ (result ≡ 4) ⊎ (result ≡ 11) }
    ensures answered { (result ≡ 4) ↔ (handle.old.held.world ≡ None) }
    ensures done { result ≡ 0 → (w : WorldOf) × (handle.old.held.world ≡ Some w)
        × StandsIn state.old state.new length.new (whole_state text.now w) }
    // the events of the state lead from what it says of the group to the world, with the calls that wait
    ensures again { result ≡ 0
        → IfSome handle.old.held.world (λ w. IsAgain w.program.config w.world) }
    ensures short { result ≡ 11 → (w : WorldOf) × (handle.old.held.world ≡ Some w)
        × IsTooShort state.old state.new length.new (whole_state text.now w) }
    ensures unwritten { (result ≡ 2) ⊎ (result ≡ 4)
        → (state.new ≡ state.old) × (length.new ≡ length.old) }
    ensures kept { handle.new.held.world ≡ handle.old.held.world }
{
    let Some(rounds) = handle.take(alloc) else {
        return Status::Closed as u32;
    };
    let status = save(alloc, &rounds.world, text, state, length);
    handle.put(rounds);
    status
}
