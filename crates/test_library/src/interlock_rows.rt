// Worked rows.

ghost use Rattle.std.specs.Prelude.{◌≡◌, ◌≤◌, length};

use group_interlock::{
    AllSettled, Settled, commit_keeps_obeying, refresh_gives_obeying, settle_all, settle_car,
};
use group_spec::report::{Denial, Rule};
use group_spec::{Bounded, CarFields, CarOutputs, Fields, Image, Motor, Outputs};

// A car at a level, between the ends.
fn car(locked: bool) -> CarFields {
    CarFields {
        pos: 2,
        level: true,
        top: false,
        bottom: false,
        locked,
        opened: false,
    }
}

// The outputs of a car whose door is to stay shut.
fn running(motor: Motor) -> CarOutputs {
    CarOutputs {
        motor,
        opens: false,
    }
}

const UP: CarOutputs = CarOutputs {
    motor: Motor::Up,
    opens: false,
};

const DOWN: CarOutputs = CarOutputs {
    motor: Motor::Down,
    opens: false,
};

const STILL: CarOutputs = CarOutputs {
    motor: Motor::Still,
    opens: false,
};

// A group of one car.
fn one_car(motor: Motor, locked: bool) -> Image
    ensures cars { length result.fields.cars ≡ 1 }
    ensures outputs { length result.outputs ≡ 1 }
{
    let mut cars = Bounded::new();
    cars.push(car(locked));
    let mut outputs = Outputs::new();
    outputs.push(running(motor));
    Image {
        fields: Fields {
            time: 0,
            run_limit: 1,
            fire: false,
            cars,
        },
        outputs,
    }
}

// A group of two cars, both locked.
fn two_cars(first: Motor, second: Motor, run_limit: u8) -> Image
    ensures cars { length result.fields.cars ≡ 2 }
    ensures outputs { length result.outputs ≡ 2 }
{
    let mut cars = Bounded::new();
    cars.push(car(true));
    cars.push(car(true));
    let mut outputs = Outputs::new();
    outputs.push(running(first));
    outputs.push(running(second));
    Image {
        fields: Fields {
            time: 0,
            run_limit,
            fire: false,
            cars,
        },
        outputs,
    }
}

// Whether a car has these outputs, and just these rules denied.
fn has(settled: &Settled, outputs: CarOutputs, denied: &[Rule]) -> bool {
    settled.outputs == outputs && settled.denials.as_slice() == denied
}

// Whether the wish of a car is settled so.
fn settles(image: &Image, car: u8, wish: CarOutputs, outputs: CarOutputs, denied: &[Rule]) -> bool
    requires car { (1 ≤ car) × (car ≤ length image.now.fields.cars) }
    requires outputs { length image.now.outputs ≡ length image.now.fields.cars }
{
    has(
        &settle_car(image, car, wish.motor, wish.opens),
        outputs,
        denied,
    )
}

// The committed motor of one car, LOCKED and what it wishes; then its outputs, and the rule that denied.
struct Commit {
    committed: Motor,
    locked: bool,
    wish: CarOutputs,
    outputs: CarOutputs,
    denied: &'static [Rule],
}

static COMMITS: [Commit; 3] = [
    Commit {
        committed: Motor::Still,
        locked: false,
        wish: UP,
        outputs: STILL,
        denied: &[Rule::Unlocked],
    },
    Commit {
        committed: Motor::Up,
        locked: true,
        wish: DOWN,
        outputs: STILL,
        denied: &[Rule::Reversal],
    },
    Commit {
        committed: Motor::Still,
        locked: true,
        wish: CarOutputs {
            motor: Motor::Up,
            opens: true,
        },
        outputs: CarOutputs {
            motor: Motor::Still,
            opens: true,
        },
        denied: &[Rule::Unlocked],
    },
];

// Whether the commit of one car is settled as its row says.
fn settles_alone(row: &Commit) -> bool {
    let image = one_car(row.committed, row.locked);
    settles(&image, 1, row.wish, row.outputs, row.denied)
}

// Whether a wish to go up is settled so, for one of two cars of which one may run, with these motors.
fn settles_beside(
    first: Motor,
    second: Motor,
    car: u8,
    outputs: CarOutputs,
    denied: &[Rule],
) -> bool
    requires { (1 ≤ car) × (car ≤ 2) }
{
    let image = two_cars(first, second, 1);
    settles(&image, car, UP, outputs, denied)
}

#[test]
fn commits(rt: HostRuntime) {
    for row in &COMMITS {
        assert!(rt; settles_alone(row));
    }
    // Of two cars that wish to go up where one may, that which commits first does.
    assert!(rt; settles_beside(Motor::Still, Motor::Still, 2, UP, &[]));
    assert!(rt; settles_beside(Motor::Still, Motor::Up, 1, STILL, &[Rule::Crowded]));
    commit_keeps_obeying();
}

// Two cars while FIRE holds, where one may run, with car 1 at the top or not.
fn two_under_fire(first: Motor, second: Motor, top: bool) -> Image
    ensures cars { length result.fields.cars ≡ 2 }
    ensures outputs { length result.outputs ≡ 2 }
{
    let mut cars = Bounded::new();
    cars.push(CarFields { top, ..car(true) });
    cars.push(car(true));
    let Image { outputs, .. } = two_cars(first, second, 1);
    Image {
        fields: Fields {
            time: 0,
            run_limit: 1,
            fire: true,
            cars,
        },
        outputs,
    }
}

// Whether the wish of car 1 is settled so under FIRE, beside the motor of car 2.
fn settles_under_fire(
    second: Motor,
    top: bool,
    wish: CarOutputs,
    outputs: CarOutputs,
    denied: &[Rule],
) -> bool {
    let image = two_under_fire(Motor::Still, second, top);
    settles(&image, 1, wish, outputs, denied)
}

#[test]
fn commits_under_fire(rt: HostRuntime) {
    // Up while as many run as may: by 6, which comes before 5; at the top by 3, which comes before 6.
    assert!(rt; settles_under_fire(Motor::Down, false, UP, STILL, &[Rule::Fire]));
    assert!(rt; settles_under_fire(Motor::Down, true, UP, STILL, &[Rule::AtEnd]));
    // Down is granted.
    assert!(rt; settles_under_fire(Motor::Still, false, DOWN, DOWN, &[]));
}

// Whether all cars have these outputs, and these were denied.
fn have(settled: &AllSettled, outputs: &[CarOutputs], denials: &[Denial]) -> bool {
    settled.outputs.as_slice() == outputs && settled.denials.as_slice() == denials
}

// What two cars that go up have under a lower run limit.
fn refreshed() -> AllSettled {
    let before = two_cars(Motor::Up, Motor::Up, 2);
    let under = two_cars(Motor::Up, Motor::Up, 1);
    settle_all(&before.outputs, &under.fields)
}

#[test]
fn refresh(rt: HostRuntime) {
    let outputs = [UP, STILL];
    let denials = [Denial {
        car: 2,
        rule: Rule::Crowded,
    }];
    assert!(rt; have(&refreshed(), &outputs, &denials));
    refresh_gives_obeying();
}
