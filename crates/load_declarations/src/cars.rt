// Cars without a task (IEC 61131-3:2003, 2.7.2; own rule).

ghost use Rattle.std.specs.Prelude.{◌≡◌, ℕ, ◌≤◌, pos, ◌≤ℤ◌, IfOk, nat_eq, true, false, ◌||◌};
ghost use Rattle.std.specs.List.{list_any};
ghost use Rattle.std.specs.HashSet as bag;
ghost use Rattle.load_scope.specs.Cars.{car_of};
ghost use Rattle.il_statics.specs.Least.{IsLeast, When};
ghost use Rattle.load_declarations.specs.CarRules.{is_number, MissesCar};

use crate::fault::DeclareFault;
use il_statics::{Found, fault_if};
use il_syntax::tree::Task;
use load_scope::Scoped;
use load_scope::roles::car_number;
use std::alloc::{AllocError, Global};
use std::collections::HashSet;

/// The fault at END_RESOURCE where a car has no TASK line.
pub fn missing_fault(
    alloc: Global,
    names: &Scoped,
) -> Result<Option<Found<DeclareFault>>, AllocError>
    ensures { IfOk result (λ found. IsLeast found
        (When (MissesCar names.now) 24 names.now.end_resource)) }
{
    let config = names.config();
    let numbers = car_numbers(alloc, config.cars.value, config.tasks.as_slice())?;
    let missing = misses_car(config.cars.value, &numbers);
    Ok(fault_if(missing, DeclareFault::BadTask, config.end_resource))
}

// The numbers of the cars that have tasks.
fn car_numbers(alloc: Global, cars: i64, tasks: &[Task]) -> Result<HashSet<u64>, AllocError>
    ensures { IfOk result (λ s. (k : ℕ) → bag.contains nat_eq s k
        ≡ list_any (λ t. is_number k (car_of cars t.name.name)) tasks.now) }
{
    let mut numbers = HashSet::new(alloc);
    for task in tasks {
        put_number(cars, task, &mut numbers)?;
    }
    Ok(numbers)
}

// Adds the number of a task's car.
fn put_number(cars: i64, task: &Task, numbers: &mut HashSet<u64>) -> Result<(), AllocError>
    ensures { IfOk result (λ _. (k : ℕ) → bag.contains nat_eq numbers.new k
        ≡ (is_number k (car_of cars task.now.name.name) || bag.contains nat_eq numbers.old k)) }
{
    if let Some(number) = car_number(cars, task.name.name.as_str()) {
        numbers.insert(number)?;
    }
    Ok(())
}

// Whether a car of so many has no task. It ends after as many cars as there are tasks, and one.
fn misses_car(cars: i64, numbers: &HashSet<u64>) -> bool
    ensures some { result ≡ true → (k : ℕ) × (1 ≤ k) × (pos k ≤ℤ cars)
        × (bag.contains nat_eq numbers.now k ≡ false) }
    ensures all { result ≡ false → (k : ℕ) → 1 ≤ k → pos k ≤ℤ cars
        → bag.contains nat_eq numbers.now k ≡ true }
{
    let Ok(limit) = u64::try_from(cars) else {
        return false;
    };
    for number in 0..limit {
        if !numbers.contains(&(number + 1)) {
            return true;
        }
    }
    false
}
