// A caller that opens a world, hands in events one by one, and reads what they left.

ghost use Rattle.std.specs.Prelude.{◌≡◌, IfOk, option_and_then, codes};
ghost use Rattle.base_maps.specs.NameMap.{get};
ghost use Rattle.load_text.specs.Loading.{IsAccepted};
ghost use Rattle.group_spec.specs.World.{opening, task_at};
ghost use Rattle.example_library.specs.Stepping.{IsWellReached};

use group_world::{Call, Event, EventFault, Refusal, Reply, Report, World};
use load_text::load;
use scan_task::Value;
use std::alloc::Global;

/// What is read of a world: the variable N of car 1, the global LAST, and the time of the image in milliseconds.
#[derive(Clone, Copy)]
pub struct Seen {
    pub n: Option<Value>,
    pub last: Option<Value>,
    pub time: u32,
}

/// The world of a text as it opens.
pub fn opened(alloc: Global, text: &[u8]) -> Result<World, Refusal>
    ensures accepted { IfOk result (λ w. IsAccepted text.now w.program.config) }
    ensures opening { IfOk result (λ w. w.world ≡ opening w.program.config) }
{
    World::new(alloc, load(alloc, text)?)
}

/// A call from floor 3 to floor 5, a refresh, and three scans of car 1, or why there was no scan to run.
/// Whatever came of them, some history leads from the opening to the world that is left, and that world is well.
pub fn drive(world: &mut World) -> Result<(), EventFault>
    ensures well { IsWellReached world.new.program.config world.new.world }
    ensures same { world.new.program ≡ world.old.program }
{
    let mut report = Report::new();
    world.apply(&Event::Press(Call { from: 3, to: 5 }), &mut report);
    world.apply(&Event::Gather(3), &mut report);
    let mut fields = world.image().fields.copied();
    fields.time = 100;
    world.apply(&Event::Refresh(fields), &mut report);
    'scans: for _scan in 0..3 {
        scan(world, 1, &mut report)?;
    }
    Ok(())
}

// A scan of a task, from its start to its commit: the reply to that.
fn scan(world: &mut World, task: u8, report: &mut Report) -> Result<Reply, EventFault>
    ensures well { IsWellReached world.new.program.config world.new.world }
    ensures same { world.new.program ≡ world.old.program }
{
    world.apply(&Event::Start(task), report);
    world.finish(task)?;
    Ok(world.apply(&Event::Commit(task), report))
}

/// What the events left.
pub fn read(world: &World) -> Seen
    ensures n { result.n ≡ option_and_then (λ t. get t.variables (codes "N"))
        (task_at world.now.world.group 1) }
    ensures last { result.last ≡ get world.now.world.group.globals (codes "LAST") }
    ensures time { result.time ≡ world.now.world.group.image.fields.time }
{
    Seen {
        n: world.variable(1, "N"),
        last: world.global("LAST"),
        time: world.image().fields.time,
    }
}
