// A state, written.

ghost use Rattle.std.specs.Prelude.{◌≡◌, ◌<◌, ◌≤◌, ◌/◌, ◌%◌, ◌∷◌, ◌++◌, [], suc, codes, length, OnOk};
ghost use Rattle.base_texts.specs.Puts.{Puts};
ghost use Rattle.il_semantics.specs.Scan.{opening_globals};
ghost use Rattle.group_spec.specs.Image.{sizes_of};
ghost use Rattle.group_spec.specs.Snapshot.{program_of};
ghost use Rattle.group_spec.specs.World.{task_at};
ghost use Rattle.scan_task.specs.Scanning.{HasTask};
ghost use Rattle.trace_text.specs.Text.{flag, flags, car_part};
ghost use Rattle.group_state.specs.Text.{hex_digit, hex_byte, hex_text, configuration_line, truth_text, number_line, fields_lines, motor_text, outputs_part, car_line, cars_lines, slot_part, slot_line, slots_lines, value_text, variable_line, changed_line, globals_lines, task_lines, tasks_lines, end_line, state_text};
ghost use Rattle.group_state.specs.Parts.{IsOwner, path_by};
ghost use Rattle.group_state.specs.Writing.{PutsLines};

use crate::values::{first_value, is_same};
use crate::variables::owner_prefix;
use group_spec::calls::Slot;
use group_spec::{CarFields, CarOutputs, Fields, Motor};
use group_world::World;
use scan_task::Value;
use std::alloc::AllocError;

/// Puts the state of a group between scans, with the first line of its text. The digest is the SHA-256 of the bytes of
/// the configuration. Calls on the desk and in the hand, and open scans, are no part of it.
pub fn put_state(text: &mut String, world: &World, digest: &[u8; 32]) -> Result<(), AllocError>
    ensures { OnOk result (Puts text.old text.new
        (state_text world.now.program.config digest.now world.now.world)) }
{
    text.push_str("LIFTTRACE 3\n")?;
    put_configuration(text, digest)?;
    let image = world.image();
    put_fields(text, &image.fields)?;
    put_cars(text, image.fields.cars.as_slice(), image.outputs.as_slice())?;
    put_tickets(text, world.last_ticket())?;
    put_slots(text, world.slots().as_slice())?;
    put_globals(text, world)?;
    put_last_lines(text, world)
}

// A lower-case hexadecimal digit.
fn hex_word(number: u8) -> &'static str
    requires { number < 16 }
    ensures { result.now ≡ hex_digit number ∷ [] }
{
    match number {
        0 => "0",
        1 => "1",
        2 => "2",
        3 => "3",
        4 => "4",
        5 => "5",
        6 => "6",
        7 => "7",
        8 => "8",
        9 => "9",
        10 => "a",
        11 => "b",
        12 => "c",
        13 => "d",
        14 => "e",
        _ => "f",
    }
}

fn put_byte(text: &mut String, byte: u8) -> Result<(), AllocError>
    ensures { OnOk result (Puts text.old text.new (hex_byte byte)) }
{
    text.push_str(hex_word(byte / 16))?;
    text.push_str(hex_word(byte % 16))
}

fn put_bytes(text: &mut String, bytes: &[u8]) -> Result<(), AllocError>
    ensures { OnOk result (Puts text.old text.new (hex_text bytes.now)) }
{
    'bytes: for byte in bytes {
        put_byte(text, *byte)?;
    }
    Ok(())
}

#[tactic(auto, unfolding(crate::specs::Text::configuration_line))]
fn put_configuration(text: &mut String, digest: &[u8]) -> Result<(), AllocError>
    ensures { OnOk result (PutsLines text.old text.new
        (configuration_line (hex_text digest.now) ∷ [])) }
{
    text.push_str("CONFIGURATION ")?;
    put_bytes(text, digest)?;
    text.push_str("\n")
}

// TRUE or FALSE.
fn truth(truth: bool) -> &'static str
    ensures { result.now ≡ truth_text truth }
{
    if truth { "TRUE" } else { "FALSE" }
}

// 1 or 0.
fn digit(set: bool) -> &'static str
    ensures { result.now ≡ flag set ∷ [] }
{
    if set { "1" } else { "0" }
}

fn put_fields(text: &mut String, fields: &Fields) -> Result<(), AllocError>
    ensures { OnOk result (PutsLines text.old text.new (fields_lines fields.now)) }
{
    write!(text, "NOW {}\nRUNLIMIT {}", fields.time, fields.run_limit)?;
    writeln!(text, "\nFIRE {}", truth(fields.fire))
}

// LEVEL, TOP, BOTTOM, LOCKED and OPENED.
fn put_flags(text: &mut String, car: &CarFields) -> Result<(), AllocError>
    ensures { OnOk result (Puts text.old text.new (flags car.now)) }
{
    text.push_str(digit(car.level))?;
    text.push_str(digit(car.top))?;
    text.push_str(digit(car.bottom))?;
    text.push_str(digit(car.locked))?;
    text.push_str(digit(car.opened))
}

// A motor as a number: 1 is up, -1 is down.
fn motor(motor: Motor) -> &'static str
    ensures { result.now ≡ motor_text motor }
{
    match motor {
        Motor::Up => "1",
        Motor::Still => "0",
        Motor::Down => "-1",
    }
}

#[tactic(auto, unfolding(crate::specs::Text::outputs_part))]
fn put_outputs(text: &mut String, outputs: &CarOutputs) -> Result<(), AllocError>
    ensures { OnOk result (Puts text.old text.new (outputs_part outputs.now)) }
{
    write!(text, " {} {}", motor(outputs.motor), digit(outputs.opens))
}

#[tactic(auto, unfolding(trace_text::specs::Text::car_part))]
fn put_car_fields(text: &mut String, car: &CarFields) -> Result<(), AllocError>
    ensures { OnOk result (Puts text.old text.new (car_part car.now)) }
{
    write!(text, " {} ", car.pos)?;
    put_flags(text, car)
}

#[tactic(auto, unfolding(crate::specs::Text::car_line))]
fn put_car(
    text: &mut String,
    number: usize,
    car: &CarFields,
    outputs: &CarOutputs,
) -> Result<(), AllocError>
    ensures { OnOk result (PutsLines text.old text.new
        (car_line number car.now outputs.now ∷ [])) }
{
    write!(text, "CAR {}", number)?;
    put_car_fields(text, car)?;
    put_outputs(text, outputs)?;
    text.push_str("\n")
}

fn put_cars(text: &mut String, cars: &[CarFields], outputs: &[CarOutputs]) -> Result<(), AllocError>
    requires { length outputs.now ≡ length cars.now }
    ensures { OnOk result (PutsLines text.old text.new (cars_lines 1 cars.now outputs.now)) }
{
    'cars: for index in 0..cars.len() {
        put_car(text, index + 1, &cars[index], &outputs[index])?;
    }
    Ok(())
}

fn put_tickets(text: &mut String, last: u64) -> Result<(), AllocError>
    ensures { OnOk result (PutsLines text.old text.new
        (number_line (codes "TICKETS") last ∷ [])) }
{
    writeln!(text, "TICKETS {}", last)
}

#[tactic(auto, unfolding(crate::specs::Text::slot_part))]
fn put_slot_part(text: &mut String, slot: &Slot) -> Result<(), AllocError>
    ensures { OnOk result (Puts text.old text.new (slot_part slot.now)) }
{
    match slot {
        Slot::Free => text.push_str(" FREE"),
        Slot::Waiting { ticket, call } => {
            write!(text, " WAITING {}", ticket)?;
            write!(text, " {} {}", call.from, call.to)
        }
        Slot::Told { ticket, call, car } => {
            write!(text, " TOLD {}", ticket)?;
            write!(text, " {} {} {}", call.from, call.to, car)
        }
    }
}

#[tactic(auto, unfolding(crate::specs::Text::slot_line))]
fn put_slot(text: &mut String, number: usize, slot: &Slot) -> Result<(), AllocError>
    ensures { OnOk result (PutsLines text.old text.new (slot_line number slot.now ∷ [])) }
{
    write!(text, "SLOT {}", number)?;
    put_slot_part(text, slot)?;
    text.push_str("\n")
}

fn put_slots(text: &mut String, slots: &[Slot]) -> Result<(), AllocError>
    ensures { OnOk result (PutsLines text.old text.new (slots_lines 1 slots.now)) }
{
    'slots: for index in 0..slots.len() {
        put_slot(text, index + 1, &slots[index])?;
    }
    Ok(())
}

fn put_value(text: &mut String, value: Value) -> Result<(), AllocError>
    ensures { OnOk result (Puts text.old text.new (value_text value)) }
{
    match value {
        Value::Boolean(value) => text.push_str(truth(value)),
        Value::Integer(number) => write!(text, "{}", number),
    }
}

// Puts a variable with its value.
#[tactic(auto, unfolding(crate::specs::Text::variable_line))]
fn put_variable(
    text: &mut String,
    owner: Option<u8>,
    path: &str,
    value: Value,
) -> Result<(), AllocError>
    requires { IsOwner owner }
    ensures { OnOk result (PutsLines text.old text.new
        (variable_line (path_by owner path.now) (value_text value) ∷ [])) }
{
    text.push_str("VAR ")?;
    text.push_str(owner_prefix(owner))?;
    text.push_str(path)?;
    text.push_str(" ")?;
    put_value(text, value)?;
    text.push_str("\n")
}

// Puts a variable that hasn't its initial value.
fn put_changed(
    text: &mut String,
    owner: Option<u8>,
    path: &str,
    initial: Value,
    now: Option<Value>,
) -> Result<(), AllocError>
    requires { IsOwner owner }
    ensures { OnOk result (PutsLines text.old text.new
        (changed_line (path_by owner path.now) (Some initial) now)) }
{
    match now {
        Some(value) if !is_same(initial, value) => put_variable(text, owner, path, value),
        _ => Ok(()),
    }
}

fn put_globals(text: &mut String, world: &World) -> Result<(), AllocError>
    ensures { OnOk result (PutsLines text.old text.new
        (globals_lines world.now.program.config world.now.world.group.globals)) }
{
    let verified = world.verified();
    let _config = verified.config();
    let cells = verified.globals();
    let first = verified.opening_globals();
    'globals: for at in 0..cells.len() {
        let cell = &cells[at];
        let path = cell.path.as_str();
        let initial = first_value(cell, first, at);
        put_changed(text, None, path, initial, world.global(path))?;
    }
    Ok(())
}

// Puts the variables of a task.
fn put_task(text: &mut String, world: &World, task: u8) -> Result<(), AllocError>
    requires { HasTask world.now.program.config task }
    ensures { OnOk result (PutsLines text.old text.new
        (task_lines world.now.program.config task (program_of world.now.program.config task)
        (task_at world.now.world.group task))) }
{
    let verified = world.verified();
    let _config = verified.config();
    let cells = verified.own_cells(task);
    let first = verified.opening_variables(task);
    'cells: for at in 0..cells.len() {
        let cell = &cells[at];
        let path = cell.path.as_str();
        let initial = first_value(cell, first, at);
        put_changed(text, Some(task), path, initial, world.variable(task, path))?;
    }
    Ok(())
}

// Puts the variables of the task of a number, if the group has it.
fn put_if_there(text: &mut String, world: &World, task: u8) -> Result<(), AllocError>
    requires { task ≤ (sizes_of world.now.program.config).cars }
    ensures { OnOk result (PutsLines text.old text.new
        (task_lines world.now.program.config task (program_of world.now.program.config task)
        (task_at world.now.world.group task))) }
{
    let verified = world.verified();
    let _config = verified.config();
    if !verified.has_task(task) {
        return Ok(());
    }
    put_task(text, world, task)
}

// Puts the variables of all tasks: GROUP first, and then the cars'.
fn put_tasks(text: &mut String, world: &World) -> Result<(), AllocError>
    ensures { OnOk result (PutsLines text.old text.new
        (tasks_lines world.now.program.config world.now.world.group 0
        (suc (sizes_of world.now.program.config).cars))) }
{
    let verified = world.verified();
    let _config = verified.config();
    'tasks: for task in 0..verified.sizes().cars + 1 {
        put_if_there(text, world, task)?;
    }
    Ok(())
}

// Puts the variables of all tasks, and the last line.
fn put_last_lines(text: &mut String, world: &World) -> Result<(), AllocError>
    ensures { OnOk result (PutsLines text.old text.new
        (tasks_lines world.now.program.config world.now.world.group 0
        (suc (sizes_of world.now.program.config).cars) ++ end_line ∷ [])) }
{
    put_tasks(text, world)?;
    text.push_str("EVENTS\n")
}
