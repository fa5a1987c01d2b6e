// What was read of a group, set in its core.

ghost use Rattle.std.specs.Prelude.{◌≡◌, ◌≤◌, Some, Contains, IsSome, replicate};
ghost use Rattle.base_maps.specs.NameMap.{insert};
ghost use Rattle.il_semantics.specs.Values.{IsOf};
ghost use Rattle.load_slots.specs.Program.{global_cells};
ghost use Rattle.group_spec.specs.Image.{sizes_of};
ghost use Rattle.group_spec.specs.World.{TaskState, task_at, opening_group};
ghost use Rattle.group_world.specs.Setting.{with_variables};
ghost use Rattle.group_spec.specs.declared.calls.Slot.TheVariants.{Free};
ghost use Rattle.group_state.specs.Parts.{calls_of};
ghost use Rattle.group_state.specs.Holding.{HoldsHead, with_head, with_slots, SlotsHold, with_globals, IsOwnCell};

use crate::head::Head;
use group_spec::SLOT_PLACES;
use group_spec::calls::Slot;
use group_world::Core;
use scan_task::{Cell, Value, Verified};

// Sets each slot of a group whose slots are free.
fn set_slots(core: &mut Core, slots: &[Slot])
    requires few { (sizes_of core.old.config).slots ≤ SLOT_PLACES }
    requires free { core.old.group.calls.slots ≡ replicate (sizes_of core.old.config).slots Free }
    requires holds { SlotsHold (sizes_of core.old.config) core.old.group.calls.last_ticket
        slots.now }
    ensures config { core.new.config ≡ core.old.config }
    ensures group { core.new.group ≡ with_slots core.old.group slots.now }
{
    'slots: for index in 0..slots.len() {
        core.set_slot(index as u8 + 1, slots[index]);
    }
}

/// Sets the image and the calls of a group that opens.
pub fn set_head(core: &mut Core, head: &Head)
    requires few { (sizes_of core.old.config).slots ≤ SLOT_PLACES }
    requires opened { core.old.group ≡ opening_group core.old.config }
    requires holds { HoldsHead (sizes_of core.old.config) head.now.image
        (calls_of head.now.calls) }
    ensures config { core.new.config ≡ core.old.config }
    ensures group { core.new.group
        ≡ with_head core.old.group head.now.image (calls_of head.now.calls) }
{
    core.set_image(&head.image);
    core.set_last_ticket(head.calls.last_ticket);
    set_slots(core, head.calls.slots.as_slice());
}

/// Gives a global a value of its declared set.
pub fn set_global(core: &mut Core, verified: &Verified, cell: &Cell, value: Value)
    requires program { core.old.config ≡ verified.now.config }
    requires cell { Contains (global_cells verified.now.config) cell.now }
    requires value { IsOf cell.now.scalar value }
    ensures config { core.new.config ≡ core.old.config }
    ensures group { core.new.group ≡ with_globals core.old.group
        (insert core.old.group.globals cell.now.path value) }
{
    let _config = verified.config();
    let _set = core.set_global(verified, cell.path.as_str(), value);
}

/// Gives a variable of a task a value of its declared set.
pub fn set_variable(core: &mut Core, verified: &Verified, task: u8, cell: &Cell, value: Value)
    requires program { core.old.config ≡ verified.now.config }
    requires there { IsSome (task_at core.old.group task) }
    requires cell { IsOwnCell verified.now.config task cell.now }
    requires value { IsOf cell.now.scalar value }
    ensures config { core.new.config ≡ core.old.config }
    ensures group { (x : TaskState) → task_at core.old.group task ≡ Some x
        → core.new.group ≡ with_variables core.old.group task x
        (insert x.variables cell.now.path value) }
{
    let _config = verified.config();
    let _set = core.set_variable(verified, task, cell.path.as_str(), value);
}
