// What C reports of the plant.

ghost use Rattle.std.specs.Prelude.{◌≡◌, ◌≤◌, [], map, take};
ghost use Rattle.liftplc_c.specs.Inputs.{car_of, fields_of};

use group_spec::{Bounded, CAR_PLACES, CarFields, Fields, MOST_CARS};

/// What C reports of a car: the floor that it is at or next to, and its five sensors.
#[repr(C)]
#[derive(Clone, Copy)]
pub struct CarInput {
    pub pos: u8,
    pub level: bool,
    pub top: bool,
    pub bottom: bool,
    pub locked: bool,
    pub opened: bool,
}

/// What C reports of the plant: NOW in milliseconds, RUNLIMIT, FIRE, and so many cars.
#[repr(C)]
#[derive(Drop)]
pub struct FieldsInput {
    pub time: u32,
    pub run_limit: u8,
    pub fire: bool,
    pub car_count: u8,
    pub cars: [CarInput; CAR_PLACES],
}

fn car_of(car: CarInput) -> CarFields
    ensures { result ≡ car_of car }
{
    CarFields {
        pos: car.pos,
        level: car.level,
        top: car.top,
        bottom: car.bottom,
        locked: car.locked,
        opened: car.opened,
    }
}

// The fields of so many cars as are counted, in a list that has none. It stays a call, so that the list is filled where it lies.
#[inline(never)]
fn add_cars(cars: &mut Bounded<CarFields, CAR_PLACES>, fields: &FieldsInput)
    requires few { fields.now.car_count ≤ MOST_CARS }
    requires none { cars.old ≡ [] }
    ensures { cars.new ≡ map car_of (take fields.now.car_count fields.now.cars) }
{
    'cars: for index in 0..usize::from(fields.car_count) {
        cars.push(car_of(fields.cars[index]));
    }
}

/// The fields, of so many cars as are counted.
pub fn fields_of(fields: &FieldsInput) -> Fields
    requires { fields.now.car_count ≤ MOST_CARS }
    ensures { result ≡ fields_of fields.now }
{
    let mut taken = Fields {
        time: fields.time,
        run_limit: fields.run_limit,
        fire: fields.fire,
        cars: Bounded::new(),
    };
    add_cars(&mut taken.cars, fields);
    taken
}
