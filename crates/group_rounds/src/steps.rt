// What rounds have in common: the tasks, and the gathering of each floor.

ghost use Rattle.std.specs.Prelude.{◌≡◌, ◌≤◌, [], ◌∷◌, map};
ghost use Rattle.group_spec.specs.declared.event.Event.TheVariants.{Gather as GatherOf};
ghost use Rattle.group_spec.specs.Image.{sizes_of};
ghost use Rattle.group_journal.specs.Rounds.{Happen, floors_rising, tasks_in_order};

use group_spec::event::Event;
use group_spec::report::Report;
use group_spec::{Bounded, Sizes, TASK_PLACES};
use group_world::World;
use scan_task::Verified;

/// The tasks that the group has, in the order in which a round runs them: CAR1 to CARn, and then GROUP.
pub fn tasks_in(verified: &Verified) -> Bounded<u8, TASK_PLACES>
    ensures { result ≡ tasks_in_order verified.now.config }
{
    let _config = verified.config();
    let Sizes { cars, .. } = verified.sizes();
    let mut tasks = Bounded::new();
    'cars: for below in 0..cars {
        if verified.has_task(below + 1) {
            tasks.push(below + 1);
        }
    }
    if verified.has_task(0) {
        tasks.push(0);
    }
    tasks
}

// What the desk has from a floor is gathered. Where it has none, the world stays as it is.
fn gather_from(world: &mut World, floor: u8, report: &mut Report)
    requires first { 1 ≤ floor }
    requires last { floor ≤ (sizes_of world.old.program.config).floors }
    ensures taken { Happen world.old.program.config world.old.world (GatherOf floor ∷ [])
        world.new.world }
    ensures same { world.new.program ≡ world.old.program }
{
    let _config = world.verified().config();
    if !world.desk().has_from(floor) {
        return;
    }
    world.apply(&Event::Gather(floor), report);
}

/// What the desk has from each floor is gathered.
pub fn gather_all(world: &mut World, report: &mut Report)
    ensures taken { Happen world.old.program.config world.old.world
        (map GatherOf (floors_rising world.old.program.config)) world.new.world }
    ensures same { world.new.program ≡ world.old.program }
{
    let _config = world.verified().config();
    let Sizes { floors, .. } = world.sizes();
    'floors: for below in 0..floors {
        gather_from(world, below + 1, report);
    }
}
