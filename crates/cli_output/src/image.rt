// What `replay` prints.

ghost use Rattle.std.specs.Prelude.{◌≡◌, ◌∷◌, [], length, IfOk, OnOk, string_bytes};
ghost use Rattle.base_texts.specs.Puts.{Puts};
ghost use Rattle.base_maps.specs.NameMap.{get};
ghost use Rattle.load_slots.specs.declared.flat.Cell.{Cell as CellOf};
ghost use Rattle.load_slots.specs.Program.{global_cells};
ghost use Rattle.group_spec.specs.Snapshot.{motor_number};
ghost use Rattle.trace_text.specs.Text.{flag, flags};
ghost use Rattle.cli_output.specs.ImageText.{truth_text, fields_text, car_text, cars_text, slot_text, slots_text, global_text, globals_text, image_text};

use group_spec::calls::Slot;
use group_spec::{CarFields, CarOutputs, Fields, Motor};
use group_world::World;
use scan_task::Value;
use std::alloc::{AllocError, Global};

/// The output of `replay`: NOW in milliseconds, RUNLIMIT and FIRE, each car with its fields and
/// outputs, the call slots, and the globals in the order of the text.
pub fn image_text(alloc: Global, world: &World) -> Result<String, AllocError>
    ensures { IfOk result (λ text. string_bytes text
        ≡ image_text world.now.program.config world.now.world) }
{
    let image = world.image();
    let mut text = String::new(alloc);
    put_fields(&mut text, &image.fields)?;
    put_cars(
        &mut text,
        image.fields.cars.as_slice(),
        image.outputs.as_slice(),
    )?;
    let slots = world.slots();
    put_slots(&mut text, slots.as_slice())?;
    put_globals(&mut text, world)?;
    Ok(text)
}

// TRUE or FALSE.
fn truth(truth: bool) -> &'static str
    ensures { result.now ≡ truth_text truth }
{
    if truth { "TRUE" } else { "FALSE" }
}

// 1 or 0.
fn digit(set: bool) -> &'static str
    ensures { result.now ≡ flag set ∷ [] }
{
    if set { "1" } else { "0" }
}

#[tactic(auto, unfolding(crate::specs::ImageText::fields_text))]
fn put_fields(text: &mut String, fields: &Fields) -> Result<(), AllocError>
    ensures { OnOk result (Puts text.old text.new (fields_text fields.now)) }
{
    write!(text, "NOW {}\nRUNLIMIT {}", fields.time, fields.run_limit)?;
    writeln!(text, "\nFIRE {}", truth(fields.fire))
}

// LEVEL, TOP, BOTTOM, LOCKED and OPENED.
fn put_flags(text: &mut String, car: &CarFields) -> Result<(), AllocError>
    ensures { OnOk result (Puts text.old text.new (flags car.now)) }
{
    text.push_str(digit(car.level))?;
    text.push_str(digit(car.top))?;
    text.push_str(digit(car.bottom))?;
    text.push_str(digit(car.locked))?;
    text.push_str(digit(car.opened))
}

// A motor as a number: 1 is up, -1 is down.
fn number_of(motor: Motor) -> i8
    ensures { result ≡ motor_number motor }
{
    match motor {
        Motor::Up => 1,
        Motor::Down => -1,
        Motor::Still => 0,
    }
}

#[tactic(auto, unfolding(crate::specs::ImageText::car_text))]
fn put_car(
    text: &mut String,
    number: usize,
    car: &CarFields,
    outputs: &CarOutputs,
) -> Result<(), AllocError>
    ensures { OnOk result (Puts text.old text.new (car_text number car.now outputs.now)) }
{
    write!(text, "CAR {} {} ", number, car.pos)?;
    put_flags(text, car)?;
    writeln!(
        text,
        " {} {}",
        number_of(outputs.motor),
        digit(outputs.opens)
    )
}

fn put_cars(text: &mut String, cars: &[CarFields], outputs: &[CarOutputs]) -> Result<(), AllocError>
    requires { length outputs.now ≡ length cars.now }
    ensures { OnOk result (Puts text.old text.new (cars_text 1 cars.now outputs.now)) }
{
    'cars: for index in 0..cars.len() {
        put_car(text, index + 1, &cars[index], &outputs[index])?;
    }
    Ok(())
}

#[tactic(auto, unfolding(crate::specs::ImageText::slot_text))]
fn put_slot(text: &mut String, number: usize, slot: &Slot) -> Result<(), AllocError>
    ensures { OnOk result (Puts text.old text.new (slot_text number slot.now)) }
{
    match slot {
        Slot::Free => writeln!(text, "SLOT {} FREE", number),
        Slot::Waiting { ticket, call } => {
            write!(text, "SLOT {} WAITING {}", number, ticket)?;
            writeln!(text, " {} {}", call.from, call.to)
        }
        Slot::Told { ticket, call, car } => {
            write!(text, "SLOT {} TOLD {}", number, ticket)?;
            writeln!(text, " {} {} {}", call.from, call.to, car)
        }
    }
}

fn put_slots(text: &mut String, slots: &[Slot]) -> Result<(), AllocError>
    ensures { OnOk result (Puts text.old text.new (slots_text 1 slots.now)) }
{
    'slots: for index in 0..slots.len() {
        put_slot(text, index + 1, &slots[index])?;
    }
    Ok(())
}

#[tactic(auto, unfolding(crate::specs::ImageText::global_text))]
fn put_global(text: &mut String, path: &str, value: Option<Value>) -> Result<(), AllocError>
    ensures { OnOk result (Puts text.old text.new (global_text path.now value)) }
{
    match value {
        Some(Value::Boolean(value)) => writeln!(text, "VAR {} {}", path, truth(value)),
        Some(Value::Integer(number)) => writeln!(text, "VAR {} {}", path, number),
        None => Ok(()),
    }
}

fn put_globals(text: &mut String, world: &World) -> Result<(), AllocError>
    ensures { OnOk result (Puts text.old text.new
        (globals_text world.now.world.group.globals (global_cells world.now.program.config))) }
{
    let cells = world.verified().globals();
    'globals: for cell in cells {
        let path = cell.path.as_str();
        put_global(text, path, world.global(path))?;
    }
    Ok(())
}
