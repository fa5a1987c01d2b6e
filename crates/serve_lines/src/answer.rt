// What is answered, written.

ghost use Rattle.std.specs.Prelude.{◌≡◌, ◌≤◌, ◌*◌, ◌∷◌, [], OnOk, length, flat_map};
ghost use Rattle.base_texts.specs.Puts.{Puts};
ghost use Rattle.group_spec.specs.Snapshot.{motor_number};
ghost use Rattle.group_spec.specs.Replies.{reply_with};
ghost use Rattle.trace_text.specs.Text.{flag};
ghost use Rattle.serve_lines.specs.Answers.{entered_line, denied_line, told_line, served_line, notice_line, output_part, outputs_line, press_line, press_word};

use group_rounds::notice::Notice;
use group_spec::calls::Call;
use group_spec::event::Reply;
use group_spec::report::{Denial, EnteredCall, Report, Rule};
use group_spec::{CarOutputs, Motor};
use std::alloc::AllocError;

// A motor as a number: 1 is up, -1 is down.
fn number_of(motor: Motor) -> i8
    ensures { result ≡ motor_number motor }
{
    match motor {
        Motor::Up => 1,
        Motor::Down => -1,
        Motor::Still => 0,
    }
}

// 1 or 0.
fn digit(set: bool) -> &'static str
    ensures { result.now ≡ flag set ∷ [] }
{
    if set { "1" } else { "0" }
}

#[tactic(auto, unfolding(crate::specs::Answers::output_part))]
fn put_output(text: &mut String, outputs: CarOutputs) -> Result<(), AllocError>
    ensures { OnOk result (Puts text.old text.new (output_part outputs)) }
{
    write!(
        text,
        " {} {}",
        number_of(outputs.motor),
        digit(outputs.opens)
    )
}

fn put_each(text: &mut String, outputs: &[CarOutputs]) -> Result<(), AllocError>
    ensures { OnOk result (Puts text.old text.new (flat_map output_part outputs.now)) }
{
    'cars: for car in outputs {
        put_output(text, *car)?;
    }
    Ok(())
}

/// The outputs of all cars.
pub(crate) fn put_outputs(text: &mut String, outputs: &[CarOutputs]) -> Result<(), AllocError>
    ensures { OnOk result (Puts text.old text.new (outputs_line outputs.now)) }
{
    text.push_str("outputs")?;
    put_each(text, outputs)?;
    text.push_str("\n")
}

#[tactic(auto, unfolding(crate::specs::Answers::entered_line))]
fn put_entered(text: &mut String, ticket: u64, slot: u8, from: u8, to: u8) -> Result<(), AllocError>
    ensures line { OnOk result (Puts text.old text.new
        (entered_line (record
        { slot = slot; ticket = ticket; call = record { from = from; to = to } }))) }
    ensures few { length (entered_line (record
        { slot = slot; ticket = ticket; call = record { from = from; to = to } })) ≤ 41 }
{
    write!(text, "entered {} {}", ticket, slot)?;
    writeln!(text, " {} {}", from, to)
}

#[tactic(auto, unfolding(crate::specs::Answers::denied_line))]
fn put_denied(text: &mut String, car: u8, rule: Rule) -> Result<(), AllocError>
    ensures line { OnOk result (Puts text.old text.new
        (denied_line (record { car = car; rule = rule }))) }
    ensures few { length (denied_line (record { car = car; rule = rule })) ≤ 41 }
{
    writeln!(text, "denied {} {}", car, rule.number())
}

#[tactic(auto, unfolding(crate::specs::Answers::told_line))]
fn put_told(text: &mut String, ticket: u64, car: u8) -> Result<(), AllocError>
    ensures line { OnOk result (Puts text.old text.new (told_line ticket car)) }
    ensures few { length (told_line ticket car) ≤ 41 }
{
    writeln!(text, "told {} {}", ticket, car)
}

#[tactic(auto, unfolding(crate::specs::Answers::served_line))]
fn put_served(text: &mut String, ticket: u64, car: u8) -> Result<(), AllocError>
    ensures line { OnOk result (Puts text.old text.new (served_line ticket car)) }
    ensures few { length (served_line ticket car) ≤ 41 }
{
    writeln!(text, "served {} {}", ticket, car)
}

fn put_notice(text: &mut String, notice: Notice) -> Result<(), AllocError>
    ensures line { OnOk result (Puts text.old text.new (notice_line notice)) }
    ensures few { length (notice_line notice) ≤ 41 }
{
    match notice {
        Notice::Entered(EnteredCall { slot, ticket, call }) => {
            put_entered(text, ticket, slot, call.from, call.to)
        }
        Notice::Denied(Denial { car, rule }) => put_denied(text, car, rule),
        Notice::Told { ticket, car } => put_told(text, ticket, car),
        Notice::Served { ticket, car } => put_served(text, ticket, car),
    }
}

/// A line for each notice, in their order.
pub(crate) fn put_notices(text: &mut String, notices: &[Notice]) -> Result<(), AllocError>
    ensures lines { OnOk result (Puts text.old text.new (flat_map notice_line notices.now)) }
    ensures few { OnOk result (length (flat_map notice_line notices.now) ≤ 41 * length
        notices.now) }
{
    'notices: for notice in notices {
        put_notice(text, *notice)?;
    }
    Ok(())
}

// What became of a press.
fn put_word(text: &mut String, reply: Reply, report: &Report) -> Result<(), AllocError>
    ensures { OnOk result (Puts text.old text.new (press_word (reply_with reply report.now))) }
{
    match reply {
        Reply::New => text.push_str("new"),
        Reply::Already => text.push_str("already"),
        Reply::Refused(fault) => write!(text, "refused {}", fault.number()),
        _ => Ok(()),
    }
}

/// What is answered to a press.
#[tactic(auto, unfolding(crate::specs::Answers::press_line))]
pub(crate) fn put_press(
    text: &mut String,
    call: Call,
    reply: Reply,
    report: &Report,
) -> Result<(), AllocError>
    ensures { OnOk result (Puts text.old text.new (press_line call (reply_with reply report.now))) }
{
    write!(text, "press {} {} ", call.from, call.to)?;
    put_word(text, reply, report)?;
    text.push_str("\n")
}
