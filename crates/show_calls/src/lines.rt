// What `calls` prints of each call.

ghost use Rattle.std.specs.Prelude.{◌≡◌, ◌++◌, OnOk, IfOk, flat_map, string_bytes};
ghost use Rattle.base_texts.specs.Puts.{Puts};
ghost use Rattle.base_json.specs.Objects.{null_member, number_member, truth_member};
ghost use Rattle.show_calls.specs.Lines.{number_text, truth_text, beginning_text, told_text, boarded_text, served_text, journey_text, number_members, truth_members, beginning_members, told_members, boarded_members, served_members, journey_members, journey_row, header_in, lines_in};

use crate::journey::{Journey, Moment, Served, Told};
use base_json::form::Form;
use base_json::object::Object;
use std::alloc::{AllocError, Global};

// The names of the columns.
const HEADER: &str = "TICKET,FROM,TO,PRESSED,ENTERED,TOLD,CAR,BOARDED,SERVED,THERE\n";

/// The calls in a form: lines of CSV, with the names of the columns, or an object of each call. A part that didn't happen is empty, or null.
pub fn lines_in(alloc: Global, form: Form, journeys: &[Journey]) -> Result<String, AllocError>
    ensures { IfOk result (λ text. string_bytes text ≡ lines_in form journeys.now) }
{
    let mut text = String::from_str(alloc, header_in(form))?;
    put_journeys(alloc, &mut text, form, journeys)?;
    Ok(text)
}

fn header_in(form: Form) -> &'static str
    ensures { result.now ≡ header_in form }
{
    match form {
        Form::Plain => HEADER,
        Form::Json => "",
    }
}

fn put_journeys(
    alloc: Global,
    text: &mut String,
    form: Form,
    journeys: &[Journey],
) -> Result<(), AllocError>
    ensures { OnOk result (Puts text.old text.new (flat_map (journey_row form) journeys.now)) }
{
    'journeys: for journey in journeys {
        put_row(alloc, text, form, *journey)?;
    }
    Ok(())
}

fn put_row(alloc: Global, text: &mut String, form: Form, journey: Journey) -> Result<(), AllocError>
    ensures { OnOk result (Puts text.old text.new (journey_row form journey)) }
{
    match form {
        Form::Plain => put_journey(text, journey),
        Form::Json => put_object(alloc, text, journey),
    }
}

fn put_journey(text: &mut String, journey: Journey) -> Result<(), AllocError>
    ensures { OnOk result (Puts text.old text.new (journey_text journey)) }
{
    put_beginning(text, journey)?;
    put_told(text, journey.told)?;
    put_boarded(text, journey.boarded)?;
    put_served(text, journey.served)?;
    text.push_str("\n")
}

// The ticket, the floors, and the rounds of the press and of the entry.
#[tactic(auto, unfolding(crate::specs::Lines::beginning_text))]
fn put_beginning(text: &mut String, journey: Journey) -> Result<(), AllocError>
    ensures { OnOk result (Puts text.old text.new (beginning_text journey)) }
{
    let call = journey.call;
    write!(text, "{},{},{}", journey.ticket, call.from, call.to)?;
    put_number(text, journey.pressed)?;
    write!(text, ",{}", journey.entered.round)
}

fn put_number(text: &mut String, number: Option<u32>) -> Result<(), AllocError>
    ensures { OnOk result (Puts text.old text.new (number_text number)) }
{
    match number {
        Some(number) => write!(text, ",{}", number),
        None => text.push_str(","),
    }
}

fn put_truth(text: &mut String, truth: Option<bool>) -> Result<(), AllocError>
    ensures { OnOk result (Puts text.old text.new (truth_text truth)) }
{
    match truth {
        Some(true) => text.push_str(",TRUE"),
        Some(false) => text.push_str(",FALSE"),
        None => text.push_str(","),
    }
}

fn put_told(text: &mut String, told: Option<Told>) -> Result<(), AllocError>
    ensures { OnOk result (Puts text.old text.new (told_text told)) }
{
    match told {
        Some(told) => write!(text, ",{},{}", told.round, told.car),
        None => text.push_str(",,"),
    }
}

fn put_boarded(text: &mut String, boarded: Option<Moment>) -> Result<(), AllocError>
    ensures { OnOk result (Puts text.old text.new (boarded_text boarded)) }
{
    match boarded {
        Some(at) => put_number(text, Some(at.round)),
        None => put_number(text, None),
    }
}

fn put_served(text: &mut String, served: Option<Served>) -> Result<(), AllocError>
    ensures { OnOk result (Puts text.old text.new (served_text served)) }
{
    match served {
        Some(served) => {
            put_number(text, Some(served.at.round))?;
            put_truth(text, Some(served.there))
        }
        None => {
            put_number(text, None)?;
            put_truth(text, None)
        }
    }
}

fn put_object(alloc: Global, text: &mut String, journey: Journey) -> Result<(), AllocError>
    ensures { OnOk result (Puts text.old text.new (journey_row Form.Json journey)) }
{
    let mut object = Object::begin(alloc)?;
    add_members(&mut object, journey)?;
    object.put_line(text)
}

fn add_members(object: &mut Object, journey: Journey) -> Result<(), AllocError>
    ensures { OnOk result (object.new ≡ object.old ++ journey_members journey) }
{
    add_beginning(object, journey)?;
    add_told(object, journey.told)?;
    add_boarded(object, journey.boarded)?;
    add_served(object, journey.served)
}

fn add_beginning(object: &mut Object, journey: Journey) -> Result<(), AllocError>
    ensures { OnOk result (object.new ≡ object.old ++ beginning_members journey) }
{
    object.number_member("ticket", journey.ticket)?;
    object.number_member("from", u64::from(journey.call.from))?;
    object.number_member("to", u64::from(journey.call.to))?;
    add_number(object, "pressed", journey.pressed)?;
    object.number_member("entered", u64::from(journey.entered.round))
}

fn add_number(object: &mut Object, name: &str, number: Option<u32>) -> Result<(), AllocError>
    ensures { OnOk result (object.new ≡ object.old ++ number_members name.now number) }
{
    match number {
        Some(number) => object.number_member(name, u64::from(number)),
        None => object.null_member(name),
    }
}

fn add_truth(object: &mut Object, name: &str, truth: Option<bool>) -> Result<(), AllocError>
    ensures { OnOk result (object.new ≡ object.old ++ truth_members name.now truth) }
{
    match truth {
        Some(truth) => object.truth_member(name, truth),
        None => object.null_member(name),
    }
}

fn add_told(object: &mut Object, told: Option<Told>) -> Result<(), AllocError>
    ensures { OnOk result (object.new ≡ object.old ++ told_members told) }
{
    match told {
        Some(told) => {
            add_number(object, "told", Some(told.round))?;
            add_number(object, "car", Some(u32::from(told.car)))
        }
        None => {
            add_number(object, "told", None)?;
            add_number(object, "car", None)
        }
    }
}

fn add_boarded(object: &mut Object, boarded: Option<Moment>) -> Result<(), AllocError>
    ensures { OnOk result (object.new ≡ object.old ++ boarded_members boarded) }
{
    match boarded {
        Some(at) => add_number(object, "boarded", Some(at.round)),
        None => add_number(object, "boarded", None),
    }
}

fn add_served(object: &mut Object, served: Option<Served>) -> Result<(), AllocError>
    ensures { OnOk result (object.new ≡ object.old ++ served_members served) }
{
    match served {
        Some(served) => {
            add_number(object, "served", Some(served.at.round))?;
            add_truth(object, "there", Some(served.there))
        }
        None => {
            add_number(object, "served", None)?;
            add_truth(object, "there", None)
        }
    }
}
