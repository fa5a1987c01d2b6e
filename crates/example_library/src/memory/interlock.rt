// The calls of the interlock, of fields and of the plant.

ghost use Rattle.std.specs.Prelude.{◌≡◌, length};

use crate::memory::text::FLOORS;
use group_interlock::{commit_keeps_obeying, refresh_gives_obeying, settle_all, settle_car};
use group_plant::plant::{Plant, plant_step, step_is_safe};
use group_plant::switches::Switches;
use group_spec::{
    Bounded, CarFields, CarOutputs, Fields, Image, Motor, Outputs, Sizes, in_range, is_floor,
    range_is_tested,
};

const SIZES: Sizes = Sizes {
    cars: 2,
    floors: FLOORS,
    slots: 4,
};

/// Two cars that stand locked at floor 2, at NOW 100, where so many may run.
pub fn fields(run_limit: u8) -> Fields
    ensures { length result.cars ≡ 2 }
{
    let standing = CarFields {
        pos: 2,
        level: true,
        top: false,
        bottom: false,
        locked: true,
        opened: false,
    };
    Fields {
        time: 100,
        run_limit,
        fire: false,
        cars: Bounded::from_slice(&[standing, standing]),
    }
}

/// How many denials a commit has, how many cars run on after a refresh, what lies in its ranges, NOW after a step of the plant, and how
/// many cars that has.
pub fn answers() -> [i128; 6] {
    let up = CarOutputs {
        motor: Motor::Up,
        opens: false,
    };
    let image = Image {
        fields: fields(1),
        outputs: Outputs::from_slice(&[up, up]),
    };
    let car = settle_car(&image, 1, Motor::Down, false);
    let all = settle_all(&image.outputs, &image.fields);
    let switches = Switches {
        fire: true,
        ..Switches::opening(2)
    };
    let (plant, fields) = plant_step(
        Plant::new(2, FLOORS).with_switches(switches),
        &image.outputs,
    );
    commit_keeps_obeying();
    refresh_gives_obeying();
    range_is_tested();
    step_is_safe();
    [
        car.denials.len() as i128,
        all.outputs.running_count() as i128,
        in_range(&image.fields, SIZES) as i128,
        is_floor(9, SIZES) as i128,
        fields.time as i128,
        plant.cars() as i128,
    ]
}
