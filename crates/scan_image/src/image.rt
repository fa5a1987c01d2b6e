// The image, as a task sees it in its rows.

ghost use Rattle.std.specs.Prelude.{◌≡◌, ◌+◌, ◌*◌, ◌≤◌, length, map, replicate};
ghost use Rattle.group_spec.specs.Settle.{fields_of, outputs_of};
ghost use Rattle.group_spec.specs.Snapshot.{motor_number, number};
ghost use Rattle.scan_image.specs.Image.{filled, call_values, group_values, car_values, position_value, motor_value, cars_values, role_values, image_values};

use crate::rows::{put, put_parts};
use group_calls::book::CallBook;
use group_spec::image::{CarFields, CarOutputs, Fields, Image, Motor, SLOT_PLACES, Sizes};
use il_semantics::value::Value;
use scan_step::rows::Rows;

// The number of a motor.
fn motor_number(motor: Motor) -> i64
    ensures { result ≡ motor_number motor }
{
    match motor {
        Motor::Up => 1,
        Motor::Down => -1,
        Motor::Still => 0,
    }
}

// Writes what a program sees of the calls from a slot on.
#[inline(always)]
fn write_calls(rows: &mut Rows, at: usize, calls: &CallBook)
    requires numbers { at + 4 * length calls.now.slots ≤ length rows.old.numbers }
    requires flags { at + 4 * length calls.now.slots ≤ length rows.old.flags }
    ensures { rows.new ≡ filled rows.old at (call_values calls.now.slots) }
{
    let columns = calls.columns();
    put_parts(rows, at, columns.numbers(), columns.flags());
}

// Writes what each program sees of the group from a slot on.
#[inline(always)]
fn write_group(rows: &mut Rows, at: usize, sizes: Sizes, fields: &Fields)
    requires numbers { at + 6 ≤ length rows.old.numbers }
    requires flags { at + 6 ≤ length rows.old.flags }
    ensures { rows.new ≡ filled rows.old at (group_values sizes fields.now) }
{
    let numbers = [
        sizes.cars as i64,
        sizes.floors as i64,
        sizes.slots as i64,
        fields.time as i64,
        fields.run_limit as i64,
        0,
    ];
    let flags = [false, false, false, false, false, fields.fire];
    put_parts(rows, at, &numbers, &flags);
}

/// How many values a car's program sees of its car.
pub const CAR_VALUES: usize = 10;

// Writes what a car's program sees of its car from a slot on.
#[inline(always)]
fn write_car(rows: &mut Rows, at: usize, car: u8, fields: CarFields, outputs: CarOutputs)
    requires numbers { at + CAR_VALUES ≤ length rows.old.numbers }
    requires flags { at + CAR_VALUES ≤ length rows.old.flags }
    ensures { rows.new ≡ filled rows.old at (car_values car fields outputs) }
{
    let motor = motor_number(outputs.motor);
    let serve = 0;
    let numbers = [
        car as i64,
        fields.pos as i64,
        0,
        0,
        0,
        0,
        0,
        motor,
        0,
        serve,
    ];
    let flags = [
        false,
        false,
        fields.level,
        fields.top,
        fields.bottom,
        fields.locked,
        fields.opened,
        false,
        outputs.opens,
        false,
    ];
    put_parts(rows, at, &numbers, &flags);
}

// The fields of a car.
fn fields_of(image: &Image, car: u8) -> CarFields
    requires car { 1 ≤ car }
    requires there { car ≤ length image.now.fields.cars }
    ensures { result ≡ fields_of image.now car }
{
    image.fields.cars.as_slice()[car as usize - 1]
}

// The outputs of a car.
fn outputs_of(image: &Image, car: u8) -> CarOutputs
    requires car { 1 ≤ car }
    requires there { car ≤ length image.now.outputs }
    ensures { result ≡ outputs_of image.now car }
{
    image.outputs.as_slice()[car as usize - 1]
}

// Writes the positions of cars from a slot on.
fn write_positions(rows: &mut Rows, at: usize, cars: &[CarFields])
    requires numbers { at + length cars.now ≤ length rows.old.numbers }
    requires flags { at + length cars.now ≤ length rows.old.flags }
    ensures { rows.new ≡ filled rows.old at (map position_value cars.now) }
{
    let _room = rows.numbers.len();
    let mut place = at;
    'cars: for car in cars {
        put(rows, place, Value::Integer(car.pos as i64));
        place += 1;
    }
}

// Writes the motors of cars from a slot on.
fn write_motors(rows: &mut Rows, at: usize, cars: &[CarOutputs])
    requires numbers { at + length cars.now ≤ length rows.old.numbers }
    requires flags { at + length cars.now ≤ length rows.old.flags }
    ensures { rows.new ≡ filled rows.old at (map motor_value cars.now) }
{
    let _room = rows.numbers.len();
    let mut place = at;
    'cars: for car in cars {
        put(rows, place, Value::Integer(motor_number(car.motor)));
        place += 1;
    }
}

// Writes so many zeros from a slot on, at most one for each call slot.
fn write_zeros(rows: &mut Rows, at: usize, count: usize)
    requires few { count ≤ SLOT_PLACES }
    requires numbers { at + count ≤ length rows.old.numbers }
    requires flags { at + count ≤ length rows.old.flags }
    ensures { rows.new ≡ filled rows.old at (replicate count (number 0)) }
{
    let numbers = [0; SLOT_PLACES];
    let flags = [false; SLOT_PLACES];
    put_parts(rows, at, &numbers[..count], &flags[..count]);
}

// Writes what the group's program sees of the cars from a slot on, and ASSIGN.
#[inline(always)]
fn write_cars(rows: &mut Rows, at: usize, image: &Image, slots: usize)
    requires few { slots ≤ SLOT_PLACES }
    requires numbers { at + length (cars_values image.now slots) ≤ length rows.old.numbers }
    requires flags { at + length (cars_values image.now slots) ≤ length rows.old.flags }
    ensures { rows.new ≡ filled rows.old at (cars_values image.now slots) }
{
    let _room = rows.numbers.len();
    let cars = image.fields.cars.as_slice();
    let outputs = image.outputs.as_slice();
    write_positions(rows, at, cars);
    write_motors(rows, at + cars.len(), outputs);
    write_zeros(rows, at + (cars.len() + outputs.len()), slots);
}

// Writes what programs of the task's role see from a slot on.
#[inline(always)]
fn write_role(rows: &mut Rows, at: usize, task: u8, image: &Image, slots: usize)
    requires few { slots ≤ SLOT_PLACES }
    requires fields { task ≤ length image.now.fields.cars }
    requires outputs { task ≤ length image.now.outputs }
    requires numbers { at + length (role_values task image.now slots) ≤ length rows.old.numbers }
    requires flags { at + length (role_values task image.now slots) ≤ length rows.old.flags }
    ensures { rows.new ≡ filled rows.old at (role_values task image.now slots) }
{
    if task == 0 {
        write_cars(rows, at, image, slots);
    } else {
        let fields = fields_of(image, task);
        let outputs = outputs_of(image, task);
        write_car(rows, at, task, fields, outputs);
    }
}

/// Writes the image, as a task sees it, from a slot on.
#[inline(always)]
pub fn write_image(
    rows: &mut Rows,
    at: usize,
    sizes: Sizes,
    task: u8,
    image: &Image,
    calls: &CallBook,
)
    requires fields { task ≤ length image.now.fields.cars }
    requires outputs { task ≤ length image.now.outputs }
    requires numbers { at + length (image_values sizes task image.now calls.now.slots)
        ≤ length rows.old.numbers }
    requires flags { at + length (image_values sizes task image.now calls.now.slots)
        ≤ length rows.old.flags }
    ensures { rows.new ≡ filled rows.old at (image_values sizes task image.now calls.now.slots) }
{
    let _room = rows.numbers.len();
    let count = usize::from(calls.count());
    write_group(rows, at, sizes, &image.fields);
    write_calls(rows, at + 6, calls);
    write_role(rows, at + (6 + 4 * count), task, image, count);
}
