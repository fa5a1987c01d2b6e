// The line of a car.

ghost use Rattle.std.specs.Prelude.{◌≡◌, ◌↔◌, IsTrue, IfSome, IfNone, IfOk, IfErr};
ghost use Rattle.group_spec.specs.declared.image.CarOutputs.{CarOutputs as OutputsOf};
ghost use Rattle.group_state.specs.declared.car.Car.{Car as CarOf};
ghost use Rattle.group_state.specs.Text.{outputs_part};
ghost use Rattle.group_state.specs.Saying.{SaysCar, TakesCar, RefusesCar};

use crate::fault::StateFault;
use crate::lines::{behind, next_line};
use group_spec::{CarFields, CarOutputs, Motor, Sizes, is_floor};
use trace_text::parts::{car, small_number};

/// A car: what the plant reports of it, and its outputs.
#[derive(Clone, Copy)]
pub struct Car {
    pub fields: CarFields,
    pub outputs: CarOutputs,
}

// What is written of outputs.
#[tactic(auto, unfolding(crate::specs::Text::outputs_part))]
fn outputs_text(outputs: CarOutputs) -> &'static [u8]
    ensures { result.now ≡ outputs_part outputs }
{
    match (outputs.motor, outputs.opens) {
        (Motor::Up, false) => b" 1 0",
        (Motor::Up, true) => b" 1 1",
        (Motor::Still, false) => b" 0 0",
        (Motor::Still, true) => b" 0 1",
        (Motor::Down, false) => b" -1 0",
        (Motor::Down, true) => b" -1 1",
    }
}

// Whether a text tells these outputs.
fn tells(text: &[u8], outputs: CarOutputs) -> bool
    ensures { IsTrue result ↔ (text.now ≡ outputs_part outputs) }
{
    text == outputs_text(outputs)
}

// The outputs that a motor has, with an open command or without.
fn outputs_with(text: &[u8], motor: Motor) -> Option<CarOutputs>
    ensures found { IfSome result (λ o. text.now ≡ outputs_part o) }
    ensures none { IfNone result ((o : OutputsOf) → o.motor ≡ motor → text.now ≡ outputs_part o
        → ⊥) }
{
    let shut = CarOutputs {
        motor,
        opens: false,
    };
    if tells(text, shut) {
        return Some(shut);
    }
    let open = CarOutputs { motor, opens: true };
    if tells(text, open) {
        return Some(open);
    }
    None
}

// The outputs of a car, and nothing after them.
fn outputs_of(text: &[u8]) -> Option<CarOutputs>
    ensures found { IfSome result (λ o. text.now ≡ outputs_part o) }
    ensures none { IfNone result ((o : OutputsOf) → text.now ≡ outputs_part o → ⊥) }
{
    if let Some(outputs) = outputs_with(text, Motor::Still) {
        return Some(outputs);
    }
    if let Some(outputs) = outputs_with(text, Motor::Up) {
        return Some(outputs);
    }
    outputs_with(text, Motor::Down)
}

// The car of a number that a line tells of.
#[tactic(auto, unfolding(crate::specs::Text::car_line))]
fn car_of(number: u8, line: &[u8]) -> Option<Car>
    ensures found { IfSome result (λ car. SaysCar number car line.now) }
    ensures none { IfNone result ((car : CarOf) → SaysCar number car line.now → ⊥) }
{
    let parts = behind(b"CAR", line)?;
    let (own, parts) = small_number(parts)?;
    if own != number {
        return None;
    }
    let (fields, parts) = car(parts)?;
    let outputs = outputs_of(parts)?;
    Some(Car { fields, outputs })
}

/// The car of the next line, which has to be that of this number, and what follows the line.
pub fn take_car(sizes: Sizes, number: u8, text: &[u8]) -> Result<(Car, &[u8]), StateFault>
    ensures found { IfOk result (λ p. TakesCar sizes number text.now p.0 p.1.now) }
    ensures wrong { IfErr result (λ fault. RefusesCar sizes number text.now fault) }
{
    let (line, rest) = next_line(text)?;
    let Some(car) = car_of(number, line) else {
        return Err(StateFault::BadLine);
    };
    if !is_floor(car.fields.pos, sizes) {
        return Err(StateFault::OutOfRange);
    }
    Ok((car, rest))
}
