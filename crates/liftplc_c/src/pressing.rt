// Presses.

ghost use Rattle.std.specs.Prelude.{◌≡◌, ◌≢◌, ◌∷◌, [], Option, Some, None, Ok, IfSome, MatchOption};
ghost use Rattle.group_spec.specs.declared.event.Event.TheVariants.{Press as PressOf};
ghost use Rattle.group_spec.specs.declared.event.Reply.{Reply as AnswerOf};
ghost use Rattle.group_laws.specs.Histories.{CallGoesWell};
ghost use Rattle.group_world.specs.Worlds.{WorldOf};
ghost use Rattle.liftplc_c.specs.Handles.{IsLed, Rests};
ghost use Rattle.liftplc_c.specs.Presses.{press_status, refusal_status, Presses};

use crate::handle::Handle;
use crate::history::led;
use crate::status::Status;
use group_rounds::kept::Rounds;
use group_spec::calls::Call;
use group_spec::event::{Event, EventFault, Reply};
use std::alloc::Global;

// A press is refused for a floor that the group doesn't have, or for a call to its own floor.
fn refusal_status(fault: EventFault) -> u32
    ensures { result ≡ refusal_status fault }
{
    match fault {
        EventFault::SameFloor => Status::SameFloor as u32,
        _ => Status::NoFloor as u32,
    }
}

fn press_status(reply: Reply) -> u32
    ensures { result ≡ press_status reply }
{
    match reply {
        Reply::New => Status::Done as u32,
        Reply::Already => Status::Already as u32,
        Reply::Refused(fault) => refusal_status(fault),
        _ => Status::NoFloor as u32,
    }
}

// A press: the status of what is answered to it.
fn press(rounds: &mut Rounds, call: Call) -> u32
    requires { Rests rounds.old.world.world }
    ensures pressed { (answer : AnswerOf) × Presses call rounds.old.world rounds.new.world answer
        × (result ≡ press_status answer) }
    ensures well { CallGoesWell rounds.old.world.program.config rounds.old.world.world
        (PressOf call ∷ []) }
    ensures led { IsLed rounds.new.world }
    ensures kept { result ≢ 0 → rounds.new.world ≡ rounds.old.world }
    ensures rests { Rests rounds.new.world.world }
{
    let reply = rounds.world.apply(&Event::Press(call), &mut rounds.report);
    led(&rounds.world);
    press_status(reply)
}

/// A call from a floor to another: 0, it is new. 4: the handle isn't open. 6: it is on the desk already. 7: there is no such floor. 8: it is a call to its own
/// floor. But for 0 nothing is changed.
#[unsafe(no_mangle)]
pub extern "C" fn liftplc_press(alloc: Global, handle: &mut Handle, from: u8, to: u8) -> u32
    ensures answered { MatchOption handle.old.held.world (result ≡ 4)
        (λ w. (answer : AnswerOf) × (v : WorldOf) × (handle.new.held.world ≡ Some v)
        × Presses (record { from = from; to = to }) w v answer × (result ≡ press_status answer)) }
    ensures well { IfSome handle.old.held.world
        (λ w. CallGoesWell w.program.config w.world
        (PressOf (record { from = from; to = to }) ∷ [])) }
    ensures led { IfSome handle.new.held.world IsLed }
    ensures kept { result ≢ 0 → handle.new.held.world ≡ handle.old.held.world }
{
    let Some(mut rounds) = handle.take(alloc) else {
        return Status::Closed as u32;
    };
    let status = press(&mut rounds, Call { from, to });
    handle.put(rounds);
    status
}
