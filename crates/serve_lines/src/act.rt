// What is said is done, and answered.

ghost use Rattle.std.specs.Prelude.{◌≡◌, ◌≤◌, ◌++◌, [], List, Ok, OnOk, flat_map, length, string_bytes};
ghost use Rattle.group_spec.specs.declared.event.Event.TheVariants.{Press as PressOf};
ghost use Rattle.group_spec.specs.Image.{sizes_of, FieldsInRange};
ghost use Rattle.group_spec.specs.Replies.{Reply as ReplyOf};
ghost use Rattle.group_spec.specs.World.{happens};
ghost use Rattle.group_journal.specs.Closed.{IsClosed};
ghost use Rattle.serve_lines.specs.Saying.{IsSpelled, IsTaken};
ghost use Rattle.serve_lines.specs.declared.said.Said.TheVariants.{Round as RoundSaid};
ghost use Rattle.serve_lines.specs.Answers.{press_line, stop_line, greatest_answer, Acts};

use crate::answer::{put_notices, put_outputs, put_press};
use crate::said::Said;
use group_rounds::kept::Rounds;
use group_spec::Fields;
use group_spec::calls::Call;
use group_spec::event::Event;
use std::alloc::AllocError;

// A round, and what is answered of it.
fn act_round(rounds: &mut Rounds, fields: Fields, text: &mut String) -> Result<(), AllocError>
    requires inside { FieldsInRange (sizes_of rounds.old.world.program.config) fields }
    requires closed { IsClosed rounds.old.world.world }
    requires empty { string_bytes text.old ≡ [] }
    ensures acts { OnOk result (Acts rounds.old.world.program.config (RoundSaid fields)
        rounds.old.world.world rounds.new.world.world (string_bytes text.new)) }
    ensures room { OnOk result (length (string_bytes text.new) ≤ greatest_answer) }
    ensures closed { OnOk result (IsClosed rounds.new.world.world) }
    ensures same { rounds.new.world.program ≡ rounds.old.world.program }
{
    rounds.go(fields);
    let _most = rounds.notices.len();
    put_notices(text, rounds.notices.as_slice())?;
    let outputs = &rounds.world.image().outputs;
    let _cars = outputs.len();
    put_outputs(text, outputs.as_slice())
}

// A press, and what is answered to it.
fn act_press(rounds: &mut Rounds, call: Call, text: &mut String) -> Result<(), AllocError>
    requires closed { IsClosed rounds.old.world.world }
    requires numbers { (call.from ≤ 255) × (call.to ≤ 255) }
    requires empty { string_bytes text.old ≡ [] }
    ensures room { OnOk result (length (string_bytes text.new) ≤ greatest_answer) }
    ensures acts { OnOk result ((reply : ReplyOf)
        × (happens rounds.old.world.program.config rounds.old.world.world (PressOf call)
        ≡ Ok (rounds.new.world.world, reply)) × (string_bytes text.new ≡ press_line call reply)) }
    ensures closed { IsClosed rounds.new.world.world }
    ensures same { rounds.new.world.program ≡ rounds.old.world.program }
{
    let Rounds { world, report, .. } = rounds;
    let reply = world.apply(&Event::Press(call), report);
    put_press(text, call, reply, report)
}

/// What is said is done, and answered in the empty text; the end by the stop.
pub(crate) fn act(
    rounds: &mut Rounds,
    said: Said,
    stop: &str,
    text: &mut String,
) -> Result<(), AllocError>
    requires numbers { IsSpelled rounds.old.world.program.config said }
    requires taken { IsTaken rounds.old.world.program.config said }
    requires stop { stop.now ≡ stop_line rounds.old.world.program.config }
    requires short { length stop.now ≤ greatest_answer }
    requires closed { IsClosed rounds.old.world.world }
    requires empty { string_bytes text.old ≡ [] }
    ensures acts { OnOk result (Acts rounds.old.world.program.config said rounds.old.world.world
        rounds.new.world.world (string_bytes text.new)) }
    // so the room for an answer never grows
    ensures room { OnOk result (length (string_bytes text.new) ≤ greatest_answer) }
    ensures closed { OnOk result (IsClosed rounds.new.world.world) }
    ensures same { rounds.new.world.program ≡ rounds.old.world.program }
{
    match said {
        Said::Round(fields) => act_round(rounds, fields, text),
        Said::Press(call) => act_press(rounds, call, text),
        Said::End => text.push_str(stop),
    }
}
