// Opening where a trace ends.

ghost use Rattle.std.specs.Prelude.{◌≡◌, ◌≢◌, ◌≤◌, ◌↔◌, ◌⊎◌, ℕ, Option, Some, None, true, IfOk, IfErr};
ghost use Rattle.il_syntax.specs.declared.fault.Refusal.TheVariants.{Fault as FaultOf};
ghost use Rattle.il_syntax.specs.declared.tree.Config.{Config as ConfigOf};
ghost use Rattle.il_syntax.specs.declared.tree.Place.{Place};
ghost use Rattle.load_tokens.specs.LexicalErrors.{IsFaultOfText};
ghost use Rattle.serve_blackbox.specs.Resuming.{IsLeft, IsNotLeft};
ghost use Rattle.load_text.specs.Loading.{IsAccepted, IsExplained, IsRefusedFor, IsSpelled, IsSpelledWith, HasFaultOfGrammar};
ghost use Rattle.group_laws.specs.Runs.{RunsWell};
ghost use Rattle.group_world.specs.Worlds.{WorldOf};
ghost use Rattle.liftplc_c.specs.Handles.{IsLed, Rests};
ghost use Rattle.liftplc_c.specs.Refusals.{fault_in, trace_fault_in};

use crate::handle::Handle;
use crate::history::led;
use crate::refusal::{TextRefusal, refuse_text, refuse_trace};
use crate::status::Status;
use cli_host::status::Fault;
use group_rounds::kept::Rounds;
use group_world::Verified;
use load_text::load;
use serve_blackbox::resume::{Origin, resume};
use std::alloc::Global;

// A controller that goes on, and how many events of its trace are dropped.
struct Resumed {
    rounds: Box<Rounds, Global>,
    dropped: usize,
}

// The controller of a configuration where a trace ends.
fn rounds_from(
    alloc: Global,
    verified: Verified,
    text: &[u8],
    trace: &[u8],
) -> Result<Resumed, Fault>
    ensures left { IfOk result (λ r. IsLeft verified.config text.now trace.now
        r.rounds.value.world.world r.dropped) }
    ensures same { IfOk result (λ r. r.rounds.value.world.program ≡ verified) }
    ensures led { IfOk result (λ r. IsLed r.rounds.value.world) }
    ensures rests { IfOk result (λ r. Rests r.rounds.value.world.world) }
    ensures fault { IfErr result (IsNotLeft verified.config text.now trace.now) }
{
    let Origin { world, dropped } = resume(alloc, verified, text, trace)?;
    led(&world);
    match Box::new(alloc, Rounds::of(world)) {
        Ok(rounds) => Ok(Resumed { rounds, dropped }),
        Err(_) => Err(Fault::NoMemory),
    }
}

// Opens a handle that isn't open where a trace of a configuration ends.
fn open_where_left(
    alloc: Global,
    handle: &mut Handle,
    verified: Verified,
    text: &[u8],
    trace: &[u8],
    dropped: &mut u64,
    refusal: &mut TextRefusal,
) -> u32
    requires closed { handle.old.held.world ≡ None }
    ensures status { (result ≡ 0) ⊎ (result ≡ 2) ⊎ (result ≡ 10) }
    ensures opened { result ≡ 0 → (w : WorldOf) × (handle.new.held.world ≡ Some w)
        × (w.program ≡ verified)
        × IsLeft verified.config text.now trace.now w.world dropped.new × IsLed w }
    ensures kept { result ≢ 0 → (handle.new ≡ handle.old) × (dropped.new ≡ dropped.old) }
    ensures no_trace { result ≡ 10
        → IsNotLeft verified.config text.now trace.now (trace_fault_in refusal.new) }
    ensures offset { result ≡ 10 → refusal.new.offset ≡ 0 }
    ensures unwritten { result ≢ 10 → refusal.new ≡ refusal.old }
{
    match rounds_from(alloc, verified, text, trace) {
        Ok(
            Resumed {
                rounds,
                dropped: count,
            },
        ) => {
            handle.put(rounds);
            *dropped = count as u64;
            Status::Done as u32
        }
        Err(why) => refuse_trace(why, refusal),
    }
}

/// Opens the controller of a text where a trace of the text ends, with every output still: 0, and how many events after its last whole line are
/// dropped. 1: the text is refused, and why is written. 2: memory is missing. 3: the handle is open already. 10: the trace is none of the text, and
/// its fault is written. But for 0 the handle is left as it was.
#[unsafe(no_mangle)]
pub extern "C" fn liftplc_open_from(
    alloc: Global,
    handle: &mut Handle,
    text: &[u8],
    trace: &[u8],
    dropped: &mut u64,
    refusal: &mut TextRefusal,
) -> u32
    ensures status { (result ≤ 3) ⊎ (result ≡ 10) }
    ensures answered { (result ≡ 3) ↔ (handle.old.is_open ≡ true) }
    ensures opened { result ≡ 0 → (w : WorldOf) × (handle.new.held.world ≡ Some w)
        × IsAccepted text.now w.program.config
        × IsLeft w.program.config text.now trace.now w.world dropped.new
        × RunsWell w.program.config }
    ensures led { result ≡ 0 → (w : WorldOf) × (handle.new.held.world ≡ Some w) × IsLed w }
    ensures kept { result ≢ 0 → (handle.new ≡ handle.old) × (dropped.new ≡ dropped.old) }
    ensures no_trace { result ≡ 10 → (c : ConfigOf) × IsAccepted text.now c
        × IsNotLeft c text.now trace.now (trace_fault_in refusal.new) }
    ensures offset { result ≡ 10 → refusal.new.offset ≡ 0 }
    ensures refused { result ≡ 1 → (c : ConfigOf) → IsAccepted text.now c → ⊥ }
    ensures named { result ≡ 1 → (c : ConfigOf) → IsSpelled text.now c
        → IsRefusedFor c (fault_in refusal.new) }
    ensures number { result ≡ 1 → IsExplained text.now (fault_in refusal.new) }
    ensures bytes { (n : ℕ) (p : Place) → IsFaultOfText text.now (FaultOf n p) → (result ≡ 2)
        ⊎ (result ≡ 3) ⊎ ((result ≡ 1) × (fault_in refusal.new ≡ FaultOf n p)) }
    ensures grammar { (n : ℕ) (p : Place) → HasFaultOfGrammar text.now (FaultOf n p)
        → (result ≡ 2) ⊎ (result ≡ 3) ⊎ ((result ≡ 1) × (fault_in refusal.new ≡ FaultOf n p)) }
    ensures one { result ≡ 1 → (n : ℕ) (p : Place) → IsSpelledWith text.now (FaultOf n p)
        → fault_in refusal.new ≡ FaultOf n p }
    ensures unwritten { result ≢ 1 → result ≢ 10 → refusal.new ≡ refusal.old }
{
    if handle.is_open {
        return Status::Open as u32;
    }
    match load(alloc, text) {
        Ok(verified) => { open_where_left(alloc, handle, verified, text, trace, dropped, refusal) }
        Err(why) => refuse_text(why, refusal),
    }
}
