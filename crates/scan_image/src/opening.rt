// The image of the opening world.

ghost use Rattle.std.specs.Prelude.{◌≡◌, ◌≤◌, replicate};
ghost use Rattle.group_spec.specs.Image.{opening_car, opening_outputs, opening_image};

use base_lists::Bounded;
use group_spec::image::{
    CAR_PLACES, CarFields, CarOutputs, Fields, Image, MOST_CARS, Motor, Sizes,
};
use group_spec::outputs::Outputs;

// How a car stands in the opening world: at floor 1, locked (own rule).
const OPENING: CarFields = CarFields {
    pos: 1,
    level: true,
    top: false,
    bottom: true,
    locked: true,
    opened: false,
};

// What a car is told in the opening world: to stand still with its door shut (own rule).
const QUIET: CarOutputs = CarOutputs {
    motor: Motor::Still,
    opens: false,
};

/// The image of the opening world, in which as many cars may run as there are.
pub fn opening_image(sizes: Sizes) -> Image
    requires { sizes.cars ≤ MOST_CARS }
    ensures { result ≡ opening_image sizes }
{
    Image {
        fields: Fields {
            time: 0,
            run_limit: sizes.cars,
            fire: false,
            cars: opening_cars(sizes.cars),
        },
        outputs: opening_outputs(sizes.cars),
    }
}

// How the cars stand.
fn opening_cars(count: u8) -> Bounded<CarFields, CAR_PLACES>
    requires { count ≤ MOST_CARS }
    ensures { result ≡ replicate count opening_car }
{
    let mut cars = Bounded::new();
    for _ in 0..count {
        cars.push(OPENING);
    }
    cars
}

// What the cars are told.
fn opening_outputs(count: u8) -> Outputs
    requires { count ≤ MOST_CARS }
    ensures { result ≡ replicate count opening_outputs }
{
    let mut outputs = Outputs::new();
    for _ in 0..count {
        outputs.push(QUIET);
    }
    outputs
}
