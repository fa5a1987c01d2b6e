// Opening and closing.

ghost use Rattle.std.specs.Prelude.{◌≡◌, ◌≢◌, ◌≤◌, ◌↔◌, ◌⊎◌, ℕ, Option, Some, None, true, false, is_some, IfOk, IfErr, IsErrAnd, if◌then◌else◌};
ghost use Rattle.load_tree.specs.Refused.{IsFault};
ghost use Rattle.il_syntax.specs.declared.fault.Refusal.TheVariants.{Fault};
ghost use Rattle.il_syntax.specs.declared.tree.Config.{Config as ConfigOf};
ghost use Rattle.il_syntax.specs.declared.tree.Place.{Place};
ghost use Rattle.load_tokens.specs.LexicalErrors.{IsFaultOfText};
ghost use Rattle.load_text.specs.Loading.{IsAccepted, IsExplained, IsRefusedFor, IsSpelled, IsSpelledWith, HasFaultOfGrammar, ReportsFaultOfText, ReportsFaultOfGrammar};
ghost use Rattle.group_laws.specs.Runs.{RunsWell};
ghost use Rattle.group_spec.specs.World.{opening};
ghost use Rattle.group_world.specs.Worlds.{WorldOf};
ghost use Rattle.liftplc_c.specs.Handles.{IsLed, Rests};
ghost use Rattle.liftplc_c.specs.Refusals.{fault_in};

use crate::handle::Handle;
use crate::history::led;
use crate::refusal::{TextRefusal, refuse_text};
use crate::status::Status;
use group_rounds::kept::Rounds;
use group_world::{Refusal, World};
use load_text::load;
use std::alloc::Global;

// The world of a text as it opens.
fn opened(alloc: Global, text: &[u8]) -> Result<Box<Rounds, Global>, Refusal>
    ensures accepted { IfOk result (λ b. IsAccepted text.now b.value.world.program.config) }
    ensures runs { IfOk result (λ b. RunsWell b.value.world.program.config) }
    ensures opening { IfOk result (λ b. b.value.world.world
        ≡ opening b.value.world.program.config) }
    ensures led { IfOk result (λ b. IsLed b.value.world) }
    ensures rests { IfOk result (λ b. Rests b.value.world.world) }
    ensures refused { IsFault result → (c : ConfigOf) → IsAccepted text.now c → ⊥ }
    ensures named { IsFault result → (c : ConfigOf) → IsSpelled text.now c
        → IsErrAnd result (IsRefusedFor c) }
    ensures number { IfErr result (IsExplained text.now) }
    ensures bytes { ReportsFaultOfText text.now result }
    ensures grammar { ReportsFaultOfGrammar text.now result }
    ensures one { IsFault result → (n : ℕ) (p : Place) → IsSpelledWith text.now (Fault n p)
        → IsErrAnd result (λ e. e ≡ Fault n p) }
{
    let world = World::new(alloc, load(alloc, text)?)?;
    led(&world);
    Ok(Box::new(alloc, Rounds::of(world))?)
}

/// Opens the controller of a text: 0. 1: the text is refused, and why is written. 2: memory is missing. 3: the handle is open already.
/// But for 0 the handle is left as it was.
#[unsafe(no_mangle)]
pub extern "C" fn liftplc_open(
    alloc: Global,
    handle: &mut Handle,
    text: &[u8],
    refusal: &mut TextRefusal,
) -> u32
    ensures status { result ≤ 3 }
    ensures answered { (result ≡ 3) ↔ (handle.old.is_open ≡ true) }
    ensures opened { result ≡ 0 → (w : WorldOf) × (handle.new.held.world ≡ Some w)
        × IsAccepted text.now w.program.config × (w.world ≡ opening w.program.config)
        × RunsWell w.program.config }
    ensures led { result ≡ 0 → (w : WorldOf) × (handle.new.held.world ≡ Some w) × IsLed w }
    ensures kept { result ≢ 0 → handle.new ≡ handle.old }
    ensures refused { result ≡ 1 → (c : ConfigOf) → IsAccepted text.now c → ⊥ }
    ensures named { result ≡ 1 → (c : ConfigOf) → IsSpelled text.now c
        → IsRefusedFor c (fault_in refusal.new) }
    ensures number { result ≡ 1 → IsExplained text.now (fault_in refusal.new) }
    ensures bytes { (n : ℕ) (p : Place) → IsFaultOfText text.now (Fault n p) → (result ≡ 2)
        ⊎ (result ≡ 3) ⊎ ((result ≡ 1) × (fault_in refusal.new ≡ Fault n p)) }
    ensures grammar { (n : ℕ) (p : Place) → HasFaultOfGrammar text.now (Fault n p) → (result ≡ 2)
        ⊎ (result ≡ 3) ⊎ ((result ≡ 1) × (fault_in refusal.new ≡ Fault n p)) }
    ensures one { result ≡ 1 → (n : ℕ) (p : Place) → IsSpelledWith text.now (Fault n p)
        → fault_in refusal.new ≡ Fault n p }
    ensures unwritten { result ≢ 1 → refusal.new ≡ refusal.old }
{
    if handle.is_open {
        return Status::Open as u32;
    }
    match opened(alloc, text) {
        Ok(rounds) => {
            handle.put(rounds);
            Status::Done as u32
        }
        Err(why) => refuse_text(why, refusal),
    }
}

/// Closes the controller: 0. 4: the handle isn't open.
#[unsafe(no_mangle)]
pub extern "C" fn liftplc_close(alloc: Global, handle: &mut Handle) -> u32
    ensures answered { result ≡ (if is_some handle.old.held.world then 0 else 4) }
    ensures closed { handle.new.held.world ≡ None }
{
    match handle.take(alloc) {
        Some(_rounds) => Status::Done as u32,
        None => Status::Closed as u32,
    }
}
