// A car's commit.

ghost use Rattle.std.specs.Prelude.{◌≡◌, ◌≤◌, length};
ghost use Rattle.group_spec.specs.Settle.{fields_of, outputs_of, other_running, denies_wish, motor_denial, settled_car};

use crate::motor::{granted, is_at_end, is_fire_up, reverses};
use crate::settled::{Settled, listed, open_denial};
use group_spec::report::Rule;
use group_spec::{CarFields, CarOutputs, Image, Motor};

// The order in which rules deny a motor wish.
const WISH_ORDER: [Rule; 5] = [
    Rule::Reversal,
    Rule::Unlocked,
    Rule::AtEnd,
    Rule::Fire,
    Rule::Crowded,
];

// The fields of a car, which counts from 1.
fn fields_of(image: &Image, car: u8) -> CarFields
    requires { (1 ≤ car) × (car ≤ length image.now.fields.cars) }
    ensures { result ≡ fields_of image.now car }
{
    image.fields.cars.as_slice()[usize::from(car) - 1]
}

// The committed outputs of a car, which counts from 1.
fn outputs_of(image: &Image, car: u8) -> CarOutputs
    requires { (1 ≤ car) × (car ≤ length image.now.outputs) }
    ensures { result ≡ outputs_of image.now car }
{
    image.outputs.as_slice()[usize::from(car) - 1]
}

// How many other cars run. The car counts from 1.
fn other_running(image: &Image, car: u8) -> u8
    requires { (1 ≤ car) × (car ≤ length image.now.outputs) }
    ensures { result ≡ length (other_running image.now car) }
{
    image.outputs.running_count() - u8::from(image.outputs.is_running(car))
}

// Whether a rule denies a car the motor wish up or down, beside its settled open command.
fn denies_wish(image: &Image, car: u8, wish: Motor, opens: bool, rule: Rule) -> bool
    requires car { (1 ≤ car) × (car ≤ length image.now.fields.cars) }
    requires outputs { length image.now.outputs ≡ length image.now.fields.cars }
    ensures { result ≡ denies_wish image.now car wish opens rule }
{
    match rule {
        Rule::Reversal => reverses(outputs_of(image, car).motor, wish),
        Rule::Unlocked => !fields_of(image, car).locked || opens,
        Rule::AtEnd => is_at_end(fields_of(image, car), wish),
        Rule::NotLevel => false,
        Rule::Crowded => image.fields.run_limit <= other_running(image, car),
        Rule::Fire => is_fire_up(image.fields.fire, wish),
    }
}

// The rule that denies a motor wish, if one does.
fn motor_denial(image: &Image, car: u8, wish: Motor, opens: bool) -> Option<Rule>
    requires car { (1 ≤ car) × (car ≤ length image.now.fields.cars) }
    requires outputs { length image.now.outputs ≡ length image.now.fields.cars }
    ensures { result ≡ motor_denial image.now car wish opens }
{
    if !wish.runs() {
        return None;
    }
    for rule in WISH_ORDER {
        if denies_wish(image, car, wish, opens, rule) {
            return Some(rule);
        }
    }
    None
}

/// A car's commit: what is left of its motor wish and its open wish under the image as it is (own rule). The car counts
/// from 1 and is one of the image's. The open wish is settled first, granted exactly at a level and otherwise denied by
/// 4. A motor wish up or down is granted exactly where the rules 1, 2 with the settled open command, 3, 6 and 5 hold;
/// otherwise the motor is still, and the first rule that fails, in this order, denied.
#[tactic(auto, unfolding(group_spec::specs::Settle::settled_car))]
#[inline(always)]
pub fn settle_car(image: &Image, car: u8, motor: Motor, open_wish: bool) -> Settled
    requires car { (1 ≤ car) × (car ≤ length image.now.fields.cars) }
    requires outputs { length image.now.outputs ≡ length image.now.fields.cars }
    ensures { result ≡ settled_car image.now car motor open_wish }
{
    let opens = open_wish && fields_of(image, car).level;
    let denial = motor_denial(image, car, motor, opens);
    Settled {
        outputs: CarOutputs {
            motor: granted(motor, denial),
            opens,
        },
        denials: listed(open_denial(open_wish, opens), denial),
    }
}
