// The calls of the group that tasks share.

ghost use Rattle.std.specs.Prelude.{◌≡◌};
ghost use Rattle.scan_task.specs.Scanning.{HasTask};
ghost use Rattle.scan_task.specs.Standing.{IsOf};

use crate::memory::interlock::fields;
use crate::memory::lines::{allocation, no_allocation, print};
use crate::memory::program::number;
use crate::memory::scans::run_out;
use group_spec::hand::Hand;
use group_spec::in_range;
use group_spec::report::Report;
use group_world::Core;
use scan_task::{Store, Verified};
use std::alloc::{AllocError, Global};
use std::io::Print;

// A refresh: of how many cars.
fn refresh(verified: &Verified, core: &mut Core, report: &mut Report) -> usize
    requires { core.old.config ≡ verified.now.config }
    ensures { core.new.config ≡ core.old.config }
{
    let fields = fields(2);
    if in_range(&fields, verified.sizes()) {
        core.refresh(&fields, &mut Hand::new(), report);
    }
    report.outputs.len()
}

// A scan of car 1: whether it is open.
fn scan(verified: &Verified, core: &mut Core, store: &mut Store, report: &mut Report) -> bool
    requires program { core.old.config ≡ verified.now.config }
    requires of { IsOf verified.now.config 1 store.old }
    ensures { core.new.config ≡ core.old.config }
{
    if core.has_task(1) {
        core.start(verified, 1, store);
    }
    let is_open = core.is_open(1);
    run_out(verified, 1, store);
    if is_open {
        core.commit(verified, 1, store, report);
    }
    is_open
}

// What reads it.
fn readings(verified: &Verified, core: &Core) -> [i128; 5]
    requires { core.now.config ≡ verified.now.config }
{
    core.holds();
    [
        core.image().fields.time as i128,
        core.slots().len() as i128,
        core.calls().count() as i128,
        number(core.variable(verified, 1, "N")),
        number(core.global(verified, "G")),
    ]
}

/// Each call: a refresh of how many cars, whether a scan of car 1 is open, and how many cars run after its commit; then what reads the group.
pub fn all<R: Print>(
    rt: &R,
    alloc: Global,
    verified: &Verified,
    report: &mut Report,
) -> Result<(), AllocError>
    requires { HasTask verified.now.config 1 }
{
    let mut store = Store::new(alloc, verified, 1)?;
    let mut core = Core::new(alloc, verified)?;
    no_allocation(rt);
    let cars = refresh(verified, &mut core, report);
    let is_open = scan(verified, &mut core, &mut store, report);
    let running = report.outputs.running_count();
    print(
        rt,
        "Core::refresh, start, commit",
        &[cars as i128, is_open as i128, running as i128],
    );
    print(
        rt,
        "Core::image, slots, calls, variable, global",
        &readings(verified, &core),
    );
    allocation(rt);
    Ok(())
}
