// The outputs of all cars, and which cars run.

ghost use Rattle.std.specs.Prelude.{◌≡◌, ◌-◌, ◌<◌, ◌≤◌, ◌++◌, ◌∷◌, ◌==◌, [], length, slice_get, slice_index_or, slice_set};
ghost use Rattle.std.specs.Int.{bit_at};
ghost use Rattle.group_spec.specs.Image.{runs, running_cars, opening_outputs};
ghost use Rattle.group_spec.specs.Bits.{IsWithBit};

use crate::image::{CAR_PLACES, CarOutputs};
use base_lists::Bounded;
use std::marker::Model;

/// The outputs of all cars, car 1 first. Beside them the running cars are kept as a set,
/// car `car` as bit `car - 1`, with their number. No call of it takes memory.
#[derive(Drop)]
pub struct Outputs {
    cars: Bounded<CarOutputs, CAR_PLACES>,
    running: u16,
    count: u8,
}

impl Model for Outputs {
    ghost use Rattle.std.specs.Prelude.{List};
    ghost use Rattle.group_spec.specs.declared.image.CarOutputs.{CarOutputs as OneCar};

    ghost Value = { List OneCar };

    ghost use Rattle.group_spec.specs.Running.{KeepsRunning};

    ghost view = { λ o. o.cars };

    ghost invariant = { λ o. KeepsRunning o.cars o.running o.count };
}

// Whether a bit is set.
fn has_bit(set: u16, bit: u8) -> bool
    requires { bit < 16 }
    ensures { result ≡ (bit_at set bit == 1) }
{
    (set >> bit) & 1 == 1
}

// The set with a bit set or cleared.
fn with_bit(set: u16, bit: u8, on: bool) -> u16
    requires { bit < 16 }
    ensures { IsWithBit 16 set bit on result }
{
    if on {
        set | 1 << bit
    } else {
        set & !(1 << bit)
    }
}

impl Default for Outputs {
    fn default() -> Outputs
        ensures { result ≡ [] }
    {
        Outputs::new()
    }
}

impl Outputs {
    /// No car.
    pub fn new() -> Outputs
        ensures { result ≡ [] }
    {
        Outputs {
            cars: Bounded::new(),
            running: 0,
            count: 0,
        }
    }

    /// A copy of the outputs of cars.
    pub fn from_slice(cars: &[CarOutputs]) -> Outputs
        requires { length cars.now ≤ CAR_PLACES }
        ensures { result ≡ cars.now }
    {
        let mut outputs = Outputs::new();
        'cars: for car in cars {
            outputs.push(*car);
        }
        outputs
    }

    /// A copy.
    pub fn copied(&self) -> Outputs
        ensures { result ≡ self.now }
    {
        Outputs {
            cars: Bounded::from_slice(self.cars.as_slice()),
            running: self.running,
            count: self.count,
        }
    }

    /// The outputs, car 1 first.
    pub fn as_slice(&self) -> &[CarOutputs]
        ensures { result.now ≡ self.now }
    {
        self.cars.as_slice()
    }

    /// How many cars there are.
    pub fn len(&self) -> usize
        ensures count { result ≡ length self.now }
        ensures fits { length self.now ≤ CAR_PLACES }
    {
        self.cars.len()
    }

    /// The outputs at an index.
    pub fn get(&self, index: usize) -> Option<CarOutputs>
        ensures { result ≡ slice_get self.now index }
    {
        self.cars.as_slice().get(index).copied()
    }

    /// How many cars run.
    pub fn running_count(&self) -> u8
        ensures { result ≡ length (running_cars self.now) }
    {
        self.count
    }

    /// Whether a car runs. It counts from 1.
    pub fn is_running(&self, car: u8) -> bool
        requires { (1 ≤ car) × (car ≤ length self.now) }
        ensures { result ≡ runs (slice_index_or self.now (car - 1) opening_outputs).motor }
    {
        has_bit(self.running, car - 1)
    }

    /// Adds the outputs of a further car.
    pub fn push(&mut self, outputs: CarOutputs)
        requires { length self.old < CAR_PLACES }
        ensures { self.new ≡ self.old ++ outputs ∷ [] }
    {
        let runs = outputs.motor.runs();
        self.running = with_bit(self.running, self.cars.len() as u8, runs);
        self.count += u8::from(runs);
        self.cars.push(outputs);
    }

    /// Replaces the outputs at an index.
    pub fn set(&mut self, index: usize, outputs: CarOutputs)
        requires { index < length self.old }
        ensures { self.new ≡ slice_set self.old index outputs }
    {
        let runs = outputs.motor.runs();
        let others = self.count - u8::from(has_bit(self.running, index as u8));
        self.running = with_bit(self.running, index as u8, runs);
        self.count = others + u8::from(runs);
        self.cars.set(index, outputs);
    }
}
