// The calls that wait in the hand and on the desk, as events of a trace.

ghost use Rattle.std.specs.Prelude.{◌≡◌, ◌≢◌, ◌≤◌, ◌∷◌, [], length, map, OnOk, IfOk};
ghost use Rattle.base_texts.specs.Puts.{Puts};
ghost use Rattle.group_spec.specs.declared.trace.TraceEvent.TheVariants.{Press, Gather};
ghost use Rattle.group_spec.specs.Hands.{floors_of};
ghost use Rattle.trace_text.specs.Writing.{events_text};
ghost use Rattle.group_journal.specs.Closed.{IsClosed};
ghost use Rattle.group_journal.specs.Rounds.{TakesAll};
ghost use Rattle.group_world.specs.Setting.{resting};
ghost use Rattle.serve_lines.specs.Waiting.{waiting_events};

use crate::server::put_gather;
use group_spec::calls::Call;
use group_spec::hand::Hand;
use group_world::World;
use std::alloc::AllocError;

#[tactic(auto, unfolding(trace_text::specs::Text::line_of))]
fn put_press(text: &mut String, call: Call) -> Result<(), AllocError>
    ensures { OnOk result (Puts text.old text.new (events_text (Press call ∷ []))) }
{
    writeln!(text, "P {} {}", call.from, call.to)
}

// Puts the press of each call, in their order.
fn put_presses(text: &mut String, calls: &Hand) -> Result<(), AllocError>
    ensures { OnOk result (Puts text.old text.new (events_text (map Press calls.now))) }
{
    let mut rest = *calls;
    'calls: while let Some(call) = rest.take_first() {
        put_press(text, call)?;
    }
    Ok(())
}

// Puts the gathering of each of the calls' floors, rising. The answer is how many floors these are.
fn put_floors(text: &mut String, calls: &Hand) -> Result<u64, AllocError>
    requires few { length calls.now ≤ 256 }
    ensures text { OnOk result (Puts text.old text.new
        (events_text (map Gather (floors_of calls.now)))) }
    ensures count { IfOk result (λ n. n ≡ length (floors_of calls.now)) }
    ensures fits { IfOk result (λ n. n ≤ 256) }
{
    let mut rest = *calls;
    let mut last = 0;
    let mut count = 0;
    'calls: while let Some(call) = rest.take_first() {
        if call.from != last {
            put_gather(text, call.from)?;
            count += 1;
        }
        last = call.from;
    }
    Ok(count)
}

/// Puts the lines of the events which put the calls of a group's hand and desk there, where neither has any. The answer is how many events
/// they are (own rule).
pub fn put_waiting(text: &mut String, world: &World) -> Result<u64, AllocError>
    ensures text { OnOk result (Puts text.old text.new
        (events_text (waiting_events world.now.world))) }
    ensures count { IfOk result (λ n. n ≡ length (waiting_events world.now.world)) }
    // of a world between scans they lead there
    ensures again { IsClosed world.now.world
        → TakesAll world.now.program.config (resting world.now.program.config world.now.world.group)
        (waiting_events world.now.world) world.now.world }
{
    let _config = world.verified().config();
    let _image = world.image();
    let hand = world.hand();
    let desk = world.desk();
    let in_hand = hand.len() as u64;
    let on_desk = desk.len() as u64;
    put_presses(text, hand)?;
    let gathered = put_floors(text, hand)?;
    put_presses(text, desk)?;
    Ok(in_hand + gathered + on_desk)
}
