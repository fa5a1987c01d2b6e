// What settling gives.

ghost use Rattle.std.specs.Prelude.{◌≡◌, ◌<◌, ◌++◌, ◌↔◌, IsTrue, length, slice_set};
ghost use Rattle.group_spec.specs.Settle.{listed, open_denial};

use group_spec::report::{DENIAL_PLACES, Denial, Rule};
use group_spec::{Bounded, CarOutputs, Motor, Outputs};
use std::marker::Model;

/// The outputs of one car, and the rules that denied, 4 first.
#[derive(Drop)]
pub struct Settled {
    pub outputs: CarOutputs,
    pub denials: Bounded<Rule, 2>,
}

impl Model for Settled {
    ghost use Rattle.group_spec.specs.Settle.{Settled as SettledCar};
    ghost use Rattle.group_interlock.specs.Codes.{settled_code};

    ghost Value = { SettledCar };

    ghost coded = { settled_code };

    ghost view = { λ s. record { outputs = s.outputs; denials = s.denials } };
}

/// The outputs of all cars, car 1 first, and the denials by rising car, those of a car with rule 4 first.
#[derive(Drop)]
pub struct AllSettled {
    pub outputs: Outputs,
    pub denials: Bounded<Denial, DENIAL_PLACES>,
}

impl Model for AllSettled {
    ghost use Rattle.group_spec.specs.Settle.{AllSettled as SettledCars};
    ghost use Rattle.group_interlock.specs.Codes.{all_settled_code};

    ghost Value = { SettledCars };

    ghost coded = { all_settled_code };

    ghost view = { λ s. record { outputs = s.outputs; denials = s.denials } };
}

/// The rule that denies an open wish or command: 4, where it isn't kept.
pub fn open_denial(wish: bool, kept: bool) -> Option<Rule>
    ensures { result ≡ open_denial wish kept }
{
    if wish && !kept {
        Some(Rule::NotLevel)
    } else {
        None
    }
}

/// The rules that deny a car, that of its open command before that of its motor.
pub fn listed(of_open: Option<Rule>, of_motor: Option<Rule>) -> Bounded<Rule, 2>
    ensures { result ≡ listed of_open ++ listed of_motor }
{
    let mut rules = Bounded::new();
    if let Some(rule) = of_open {
        rules.push(rule);
    }
    if let Some(rule) = of_motor {
        rules.push(rule);
    }
    rules
}

// Whether two motors are the same.
fn is_same_motor(one: Motor, other: Motor) -> bool
    ensures { IsTrue result ↔ (one ≡ other) }
{
    match (one, other) {
        (Motor::Up, Motor::Up) | (Motor::Down, Motor::Down) | (Motor::Still, Motor::Still) => true,
        _ => false,
    }
}

/// Whether the outputs of two cars are the same.
#[inline(always)]
pub fn is_same(one: CarOutputs, other: CarOutputs) -> bool
    ensures { IsTrue result ↔ (one ≡ other) }
{
    is_same_motor(one.motor, other.motor) && one.opens == other.opens
}

/// Replaces the outputs of the car at an index, which counts from 0. Nothing is written where they are the same, as a car's mostly are.
#[inline(always)]
pub fn replace(outputs: &mut Outputs, index: usize, new: CarOutputs)
    requires { index < length outputs.old }
    ensures { outputs.new ≡ slice_set outputs.old index new }
{
    if !is_same(outputs.as_slice()[index], new) {
        outputs.set(index, new);
    }
}
