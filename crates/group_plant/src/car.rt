// One car of the plant, and one step of it.

ghost use Rattle.std.specs.Prelude.{◌≡◌, ℕ, ◌≤◌, ◌≤ℤ◌};
ghost use Rattle.group_spec.specs.Plant.{kept_within, moved, fields_of_car};
ghost use Rattle.group_spec.specs.Snapshot.{motor_number};
ghost use Rattle.group_plant.specs.Cars.{placed, IsPlaced};

use group_spec::{CarFields, CarOutputs, Motor};

/// Where a car is, ten to a floor with 0 at floor 1, and how far its door is open, 5 being wholly.
#[derive(Clone, Copy, Default)]
pub struct Car {
    pub place: i16,
    pub door: u8,
}

// The number from `low` to `high` that is nearest to `number`.
fn nearest(low: i16, high: i16, number: i16) -> i16
    requires { low ≤ℤ high }
    ensures value { result ≡ kept_within low high number }
    ensures low { low ≤ℤ result }
    ensures high { result ≤ℤ high }
{
    if number < low {
        low
    } else if high < number {
        high
    } else {
        number
    }
}

// How far a motor takes its car in one step.
fn motor_step(motor: Motor) -> i16
    ensures { result ≡ motor_number motor }
{
    match motor {
        Motor::Up => 1,
        Motor::Down => -1,
        Motor::Still => 0,
    }
}

/// A car after one step under its outputs.
pub fn moved_car(floors: u8, car: Car, outputs: CarOutputs) -> Car
    requires floors { floors ≤ 16 }
    requires car { IsPlaced floors car }
    ensures value { placed result ≡ moved floors (placed car) outputs }
    ensures stays { IsPlaced floors result }
{
    let highest = 10 * i16::from(floors);
    let place = nearest(-10, highest, car.place + motor_step(outputs.motor));
    let door = if outputs.opens {
        u8::min(5, car.door + 1)
    } else {
        car.door.saturating_sub(1)
    };
    Car { place, door }
}

/// What the plant reports of a car.
pub fn car_fields(floors: u8, car: Car) -> CarFields
    requires floors { (2 ≤ floors) × (floors ≤ 16) }
    requires car { IsPlaced floors car }
    ensures { result ≡ fields_of_car floors (placed car) }
{
    let floor = nearest(1, i16::from(floors), (car.place + 5) / 10 + 1);
    CarFields {
        pos: floor.unsigned_abs() as u8,
        level: car.place % 10 == 0,
        top: 10 * (i16::from(floors) - 1) <= car.place,
        bottom: car.place <= 0,
        locked: car.door == 0,
        opened: car.door == 5,
    }
}
