// The steps of one car, and the law of a step.

ghost use Rattle.std.specs.Prelude.{◌≡◌, length};

use group_plant::plant::{Plant, plant_step, step_is_safe};
use group_spec::{CarFields, CarOutputs, Fields, Motor, Outputs};

// The outputs of a group of one car.
fn outputs_of(motor: Motor, opens: bool) -> Outputs
    ensures { length result ≡ 1 }
{
    let mut outputs = Outputs::new();
    outputs.push(CarOutputs { motor, opens });
    outputs
}

const AT_BOTTOM: CarFields = CarFields {
    pos: 1,
    level: true,
    top: false,
    bottom: true,
    locked: true,
    opened: false,
};

// Whether these are the fields of one car at 100 ms.
fn are(fields: &Fields, wanted: CarFields) -> bool {
    fields.time == 100 && fields.run_limit == 1 && fields.cars.as_slice() == [wanted].as_slice()
}

// Whether a step from the bottom of two floors, with these outputs, leads to these fields.
fn steps_to(motor: Motor, opens: bool, wanted: CarFields) -> bool {
    let before = Plant::new(1, 2);
    let cars = before.cars();
    let (plant, fields) = plant_step(before, &outputs_of(motor, opens));
    cars == 1 && plant.cars() == 1 && are(&fields, wanted)
}

#[test]
fn one_step(rt: HostRuntime) {
    assert!(rt; steps_to(Motor::Still, false, AT_BOTTOM));
    let unlocked = CarFields {
        locked: false,
        ..AT_BOTTOM
    };
    assert!(rt; steps_to(Motor::Still, true, unlocked));
    let risen = CarFields {
        level: false,
        bottom: false,
        ..AT_BOTTOM
    };
    assert!(rt; steps_to(Motor::Up, false, risen));
    step_is_safe();
}
