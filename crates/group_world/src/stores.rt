// The stores of the tasks: those with which a group begins, and what events do to one.

ghost use Rattle.std.specs.Prelude.{◌≡◌, ◌≢◌, ℕ, suc, ◌≤◌, [], length, slice_get, is_some, Some, IfOk, IfErr, IsSome};
ghost use Rattle.scan_task.specs.Standing.{Standing, IsOf, StillHas};
ghost use Rattle.group_spec.specs.Image.{sizes_of};
ghost use Rattle.group_spec.specs.declared.event.EventFault.TheVariants.{NoOpenScan};
ghost use Rattle.group_spec.specs.Snapshot.{scan_begins};
ghost use Rattle.group_spec.specs.World.{TaskState, task_at};
ghost use Rattle.group_spec.specs.World as model;
ghost use Rattle.group_world.specs.Running.{reports_by};
ghost use Rattle.group_world.specs.Groups.{StoresFit, KeepVariables, HasVariables};
ghost use Rattle.group_world.specs.Setting.{IsSeated};
ghost use Rattle.group_world.specs.Worlds.{Steps, RunsOut};

use crate::group::Core;
use group_spec::MOST_CARS;
use group_spec::event::{EventFault, Reply};
use il_syntax::pair::both;
use scan_task::{Stepped, Store, Verified, finish, step};
use std::alloc::{AllocError, Global};

// A store for a task, if the group has it, with the task's variables.
fn resumed_store(
    alloc: Global,
    verified: &Verified,
    core: &Core,
    task: u8,
) -> Result<Option<Store>, AllocError>
    requires program { core.now.config ≡ verified.now.config }
    requires seated { IsSeated verified.now.config core.now.group }
    requires task { task ≤ (sizes_of verified.now.config).cars }
    ensures there { IfOk result (λ o. is_some o ≡ is_some (task_at core.now.group task)) }
    ensures of { IfOk result (λ o. (s : Standing) → o ≡ Some s → IsOf verified.now.config task s) }
    ensures variables { IfOk result (λ o. (s : Standing) → o ≡ Some s
        → HasVariables core.now.group task s) }
{
    if !core.has_task(task) {
        return Ok(None);
    }
    let mut store = Store::new(alloc, verified, task)?;
    core.fill(verified, task, &mut store);
    Ok(Some(store))
}

// A store for each task of a group between scans, with the task's variables.
fn resumed_stores(
    alloc: Global,
    verified: &Verified,
    core: &Core,
    cars: u8,
) -> Result<Vec<Option<Store>>, AllocError>
    requires program { core.now.config ≡ verified.now.config }
    requires seated { IsSeated verified.now.config core.now.group }
    requires few { cars ≤ MOST_CARS }
    requires all { cars ≡ (sizes_of verified.now.config).cars }
    ensures as_many { IfOk result (λ ss. length ss.items ≡ suc cars) }
    ensures there { IfOk result (λ ss. (t : ℕ) → t ≤ cars
        → is_some (model.flat (slice_get ss.items t)) ≡ is_some (task_at core.now.group t)) }
    ensures each { IfOk result (λ ss. (t : ℕ) (s : Standing)
        → model.flat (slice_get ss.items t) ≡ Some s → IsOf verified.now.config t s) }
    ensures variables { IfOk result (λ ss. (t : ℕ) (s : Standing)
        → model.flat (slice_get ss.items t) ≡ Some s → HasVariables core.now.group t s) }
{
    let mut stores = Vec::new(alloc);
    for task in 0..cars + 1 {
        stores.push(resumed_store(alloc, verified, core, task)?)?;
    }
    Ok(stores)
}

/// The task's scan begins, in its store, which still has its variables.
pub fn begin(core: &mut Core, verified: &Verified, task: u8, store: &mut Option<Store>)
    requires program { core.old.config ≡ verified.now.config }
    requires there { IsSome (task_at core.old.group task) }
    requires kept { IsSome store.old }
    requires of { (s : Standing) → store.old ≡ Some s → IsOf verified.now.config task s }
    requires variables { (x : TaskState) (s : Standing) → task_at core.old.group task ≡ Some x
        → store.old ≡ Some s → StillHas x.variables s.state }
    ensures config { core.new.config ≡ core.old.config }
    ensures group { (x : TaskState) → task_at core.old.group task ≡ Some x
        → core.new.group ≡ model.started_group core.old.group task x }
    ensures store { (x : TaskState) → task_at core.old.group task ≡ Some x
        → (s : Standing) × (store.new ≡ Some s) × IsOf verified.now.config task s
        × (s.state
        ≡ scan_begins verified.now.config task (model.beginning_of core.old.group x)) }
{
    if let Some(store) = store {
        core.start_in_place(verified, task, store);
    }
}

/// One step of a task's scan, if it has not ended.
pub fn advance(verified: &Verified, task: u8, store: &mut Option<Store>) -> Reply
    requires kept { IsSome store.old }
    requires of { (s : Standing) → store.old ≡ Some s → IsOf verified.now.config task s }
    ensures ended { (s : Standing) → store.old ≡ Some s → s.state.frames ≡ []
        → (result ≡ Reply.Refused NoOpenScan) × (store.new ≡ store.old) }
    ensures step { (s : Standing) → store.old ≡ Some s → s.state.frames ≢ []
        → Steps verified.now.config task s store.new result }
    ensures plain { reports_by result ≡ 0 }
{
    match store {
        Some(store) => {
            if store.has_ended(verified) {
                return Reply::Refused(EventFault::NoOpenScan);
            }
            match step(verified, task, store) {
                Stepped::More => Reply::More,
                Stepped::End => Reply::End,
            }
        }
        None => unreachable!(),
    }
}

/// The rest of a task's scan, if it has not ended.
pub fn run_out(verified: &Verified, task: u8, store: &mut Option<Store>) -> Result<u32, EventFault>
    requires kept { IsSome store.old }
    requires of { (s : Standing) → store.old ≡ Some s → IsOf verified.now.config task s }
    ensures ended { IfErr result (λ fault. (fault ≡ NoOpenScan) × (store.new ≡ store.old)
        × ((s : Standing) → store.old ≡ Some s → s.state.frames ≡ [])) }
    ensures steps { IfOk result (λ n. (s : Standing) → store.old ≡ Some s
        → RunsOut verified.now.config task s store.new n) }
{
    match store {
        Some(store) => {
            if store.has_ended(verified) {
                return Err(EventFault::NoOpenScan);
            }
            Ok(finish(verified, task, store))
        }
        None => unreachable!(),
    }
}

/// What a group of a configuration begins with: what its tasks share, and a store for each task.
#[derive(Drop)]
pub struct Opened {
    pub core: Core,
    pub stores: Vec<Option<Store>>,
}

/// What a group of a configuration opens with (own rule).
pub fn opening(alloc: Global, verified: &Verified) -> Result<Opened, AllocError>
    ensures config { IfOk result (λ o. o.core.config ≡ verified.now.config) }
    ensures group { IfOk result (λ o. o.core.group ≡ model.opening_group verified.now.config) }
    ensures stores { IfOk result
        (λ o. StoresFit verified.now.config o.core.group.tasks o.stores.items) }
    ensures variables { IfOk result (λ o. KeepVariables o.core.group.tasks o.stores.items) }
{
    let core = Core::new(alloc, verified)?;
    resumed(alloc, verified, core)
}

/// What a group between scans goes on with.
pub fn resumed(alloc: Global, verified: &Verified, core: Core) -> Result<Opened, AllocError>
    requires program { core.config ≡ verified.now.config }
    requires seated { IsSeated core.config core.group }
    ensures core { IfOk result (λ o. o.core ≡ core) }
    ensures stores { IfOk result
        (λ o. StoresFit verified.now.config o.core.group.tasks o.stores.items) }
    ensures variables { IfOk result (λ o. KeepVariables o.core.group.tasks o.stores.items) }
{
    let _config = verified.config();
    core.rests();
    let stores = resumed_stores(alloc, verified, &core, verified.sizes().cars);
    let (core, stores) = both(core, stores)?;
    Ok(Opened { core, stores })
}
