// The plant of a group.

ghost use Rattle.std.specs.Prelude.{◌≡◌, ◌≤◌, ℕ, List, All, map, length};
ghost use Rattle.group_spec.specs.Plant.{PlantState, IsPlantOf, ObeysWithOwnFields, StaysSafe, opening_plant, plant_after, fields_of_plant, moved_all, fields_of_cars};
ghost use Rattle.group_spec.specs.Image.{FieldsInRange, opening_fields};
ghost use Rattle.group_spec.specs.declared.image.Sizes.{Sizes};
ghost use Rattle.group_spec.specs.declared.image.CarOutputs.{CarOutputs};
ghost use Rattle.group_plant.specs.Cars.{placed, IsPlaced};
ghost use Rattle.group_plant.specs.Safe.{IsSafeStep};
ghost use Rattle.group_plant.specs.Switches.{under};

use crate::car::{Car, car_fields, moved_car};
use crate::switches::Switches;
use group_spec::{Bounded, CAR_PLACES, CarFields, CarOutputs, Fields, MOST_CARS, Outputs};
use std::marker::Model;

// The latest NOW in milliseconds, the largest TIME.
const LAST_TIME: u32 = 2_147_483_647;

/// Where the cars of a group and their doors are, and NOW in milliseconds.
#[derive(Drop)]
pub struct Plant {
    floors: u8,
    time: u32,
    run_limit: u8,
    fire: bool,
    cars: Bounded<Car, CAR_PLACES>,
}

impl Model for Plant {
    ghost use Rattle.group_spec.specs.Plant.{PlantState};
    ghost use Rattle.group_spec.specs.Codes.{plant_code};

    ghost Value = { PlantState };

    ghost coded = { plant_code };

    ghost use Rattle.group_plant.specs.Plants.{plant_of, IsPlant};

    ghost view = { plant_of };

    ghost invariant = { IsPlant };
}

impl Plant {
    /// Every car at floor 1 with its door shut, at NOW 0, with as many cars allowed to run as
    /// there are.
    pub fn new(cars: u8, floors: u8) -> Plant
        requires cars { (1 ≤ cars) × (cars ≤ MOST_CARS) }
        requires floors { (2 ≤ floors) × (floors ≤ 16) }
        ensures plant { result ≡ opening_plant cars floors }
        ensures sized { (slots : ℕ) → IsPlantOf (record
            { cars = cars; floors = floors; slots = slots }) result }
        ensures opens { (slots : ℕ) → fields_of_plant result
            ≡ opening_fields (record { cars = cars; floors = floors; slots = slots }) }
    {
        let mut placed = Bounded::new();
        for _ in 0..cars {
            placed.push(Car { place: 0, door: 0 });
        }
        Plant {
            floors,
            time: 0,
            run_limit: cars,
            fire: false,
            cars: placed,
        }
    }

    /// The plant after the building has set FIRE and RUNLIMIT, which it reports from now on.
    pub fn with_switches(self, switches: Switches) -> Plant
        ensures plant { result ≡ under switches self }
        ensures sized { (sizes : Sizes) → IsPlantOf sizes self → switches.run_limit ≤ sizes.cars
            → IsPlantOf sizes result }
    {
        Plant {
            run_limit: switches.run_limit,
            fire: switches.fire,
            ..self
        }
    }

    /// A copy.
    pub fn copied(&self) -> Plant
        ensures { result ≡ self.now }
    {
        Plant {
            floors: self.floors,
            time: self.time,
            run_limit: self.run_limit,
            fire: self.fire,
            cars: Bounded::from_slice(self.cars.as_slice()),
        }
    }

    /// The building sets this of the plant, in its place.
    pub fn set(&mut self, switches: Switches)
        ensures plant { self.new ≡ under switches self.old }
        ensures sized { (sizes : Sizes) → IsPlantOf sizes self.old → switches.run_limit ≤ sizes.cars
            → IsPlantOf sizes self.new }
    {
        self.run_limit = switches.run_limit;
        self.fire = switches.fire;
    }

    /// 100 ms go by, under the outputs of all its cars, in its place. What it then reports.
    #[inline(always)]
    pub fn step(&mut self, outputs: &Outputs) -> Fields
        requires { length outputs.now ≡ length self.old.cars }
        ensures plant { self.new ≡ plant_after self.old outputs.now }
        ensures fields { result ≡ fields_of_plant self.new }
        ensures sized { (sizes : Sizes) → IsPlantOf sizes self.old → IsPlantOf sizes self.new }
        ensures inside { (sizes : Sizes) → IsPlantOf sizes self.old → 1 ≤ sizes.floors
            → FieldsInRange sizes result }
        ensures safe { (sizes : Sizes) → IsPlantOf sizes self.old → 1 ≤ sizes.floors
            → ObeysWithOwnFields self.old outputs.now → StaysSafe sizes self.old self.new }
    {
        move_cars(self.floors, &mut self.cars, outputs.as_slice());
        let time = u32::min(LAST_TIME, self.time + 100);
        self.time = time;
        Fields {
            time,
            run_limit: self.run_limit,
            fire: self.fire,
            cars: all_fields(self.floors, self.cars.as_slice()),
        }
    }

    /// How many cars there are.
    pub fn cars(&self) -> usize
        ensures { result ≡ length self.now.cars }
    {
        self.cars.as_slice().len()
    }
}

// Each car goes one step under its outputs, in its place.
#[inline(always)]
fn move_cars(floors: u8, cars: &mut Bounded<Car, CAR_PLACES>, outputs: &[CarOutputs])
    requires floors { floors ≤ 16 }
    requires cars { All (IsPlaced floors) cars.old }
    requires outputs { length outputs.now ≡ length cars.old }
    ensures value { map placed cars.new ≡ moved_all floors (map placed cars.old) outputs.now }
    ensures stays { All (IsPlaced floors) cars.new }
    ensures length { length cars.new ≡ length cars.old }
{
    for i in 0..cars.len() {
        let moved = moved_car(floors, cars.as_slice()[i], outputs[i]);
        cars.set(i, moved);
    }
}

// What the plant reports of its cars.
fn all_fields(floors: u8, cars: &[Car]) -> Bounded<CarFields, CAR_PLACES>
    requires floors { (2 ≤ floors) × (floors ≤ 16) }
    requires cars { All (IsPlaced floors) cars.now }
    requires room { length cars.now ≤ CAR_PLACES }
    ensures { result ≡ fields_of_cars floors (map placed cars.now) }
{
    let mut fields = Bounded::new();
    for i in 0..cars.len() {
        fields.push(car_fields(floors, cars[i]));
    }
    fields
}

/// The plant 100 ms later, under the outputs of all its cars, and what it then reports.
pub fn plant_step(plant: Plant, outputs: &Outputs) -> (Plant, Fields)
    requires { length outputs.now ≡ length plant.cars }
    ensures plant { result.0 ≡ plant_after plant outputs.now }
    ensures fields { result.1 ≡ fields_of_plant result.0 }
    ensures sized { (sizes : Sizes) → IsPlantOf sizes plant → IsPlantOf sizes result.0 }
    ensures inside { (sizes : Sizes) → IsPlantOf sizes plant → 1 ≤ sizes.floors
        → FieldsInRange sizes result.1 }
    ensures safe { (sizes : Sizes) → IsPlantOf sizes plant → 1 ≤ sizes.floors
        → ObeysWithOwnFields plant outputs.now → StaysSafe sizes plant result.0 }
{
    let mut moved = plant;
    let fields = moved.step(outputs);
    (moved, fields)
}

/// A law: a step under outputs that obey the interlock with what the plant reports moves no car whose door isn't
/// shut, keeps each car that is in its shaft there, and reports fields in range.
pub fn step_is_safe()
    ensures { (sizes : Sizes) (plant : PlantState) (outputs : List CarOutputs)
        → IsSafeStep sizes plant outputs }
{}
