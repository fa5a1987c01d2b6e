// The calls of a store and of its scan.

ghost use Rattle.std.specs.Prelude.{◌≡◌};
ghost use Rattle.scan_task.specs.Scanning.{HasTask};
ghost use Rattle.scan_task.specs.Standing.{IsOf};

use crate::memory::lines::{allocation, no_allocation, print};
use scan_task::{Stepped, Store, Verified, finish, step};
use std::alloc::{AllocError, Global};
use std::io::Print;

/// The scan goes to its end: whether it goes on after a step, and the steps from there.
pub fn run_out(verified: &Verified, task: u8, store: &mut Store) -> (bool, u32)
    requires { IsOf verified.now.config task store.old }
    ensures { IsOf verified.now.config task store.new }
{
    let mut goes_on = false;
    if !store.has_ended(verified) {
        goes_on = matches!(step(verified, task, store), Stepped::More);
    }
    let mut steps = 0;
    if !store.has_ended(verified) {
        steps = finish(verified, task, store);
    }
    store.holds();
    (goes_on, steps)
}

/// A scan of GROUP, step by step.
pub fn of_group<R: Print>(rt: &R, alloc: Global, verified: &Verified) -> Result<(), AllocError>
    requires { HasTask verified.now.config 0 }
{
    let mut store = Store::new(alloc, verified, 0)?;
    no_allocation(rt);
    let (goes_on, steps) = run_out(verified, 0, &mut store);
    let assigned = store.assigned(verified).len();
    print(
        rt,
        "step, finish, Store::assigned",
        &[goes_on as i128, steps as i128, assigned as i128],
    );
    allocation(rt);
    Ok(())
}
