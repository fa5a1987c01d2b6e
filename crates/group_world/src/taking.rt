// What an image and a report take over.

ghost use Rattle.std.specs.Prelude.{◌≡◌, true};

use group_interlock::is_same;
use group_spec::{Bounded, CAR_PLACES, CarFields, CarOutputs, Fields, Outputs};

// Whether the outputs of all cars are the same.
fn are_same(outputs: &[CarOutputs], others: &[CarOutputs]) -> bool
    ensures { result ≡ true → outputs.now ≡ others.now }
{
    if outputs.len() != others.len() {
        return false;
    }
    'cars: for index in 0..outputs.len() {
        if !is_same(outputs[index], others[index]) {
            return false;
        }
    }
    true
}

// Copies the outputs of all cars.
#[inline(never)]
fn copy_outputs(outputs: &mut Outputs, others: &Outputs)
    ensures { outputs.new ≡ others.now }
{
    *outputs = others.copied();
}

/// Takes over the outputs of all cars. Nothing is copied where they are the same.
#[inline(always)]
pub fn take_outputs(outputs: &mut Outputs, others: &Outputs)
    ensures { outputs.new ≡ others.now }
{
    if !are_same(outputs.as_slice(), others.as_slice()) {
        copy_outputs(outputs, others);
    }
}

// Takes over the fields of each car.
fn take_cars(cars: &mut Bounded<CarFields, CAR_PLACES>, others: &Bounded<CarFields, CAR_PLACES>)
    ensures { cars.new ≡ others.now }
{
    let count = others.len();
    if cars.len() != count {
        *cars = Bounded::from_slice(others.as_slice());
        return;
    }
    let all = others.as_slice();
    'cars: for index in 0..count {
        cars.set(index, all[index]);
    }
}

/// Takes over the fields of all cars, in their place.
pub fn take_fields(fields: &mut Fields, others: &Fields)
    ensures { fields.new ≡ others.now }
{
    fields.time = others.time;
    fields.run_limit = others.run_limit;
    fields.fire = others.fire;
    take_cars(&mut fields.cars, &others.cars);
}
