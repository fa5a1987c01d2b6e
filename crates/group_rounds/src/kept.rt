// A world, and what its rounds go on with.

ghost use Rattle.std.specs.Prelude.{◌≡◌};
ghost use Rattle.group_journal.specs.Rounds.{tasks_in_order};

use crate::notice::Notices;
use crate::rounds::round;
use crate::steps::tasks_in;
use group_spec::report::Report;
use group_spec::{Bounded, Fields, TASK_PLACES};
use group_world::World;

/// A world, and what its rounds go on with from one to the next: the tasks that they run, the notices of the last, and room for a report. A
/// round writes no more of it than it has to tell.
pub struct Rounds {
    pub world: World,
    pub tasks: Bounded<u8, TASK_PLACES>,
    pub notices: Notices,
    pub report: Report,
    pub ghost fits: { tasks ≡ tasks_in_order world.program.config },
}

// Written by hand, since who drops a type whose drop is derived proves the drop of each type inside again.
impl Drop for Rounds {
    fn drop(self) {
        let Rounds {
            world: _world,
            tasks: _tasks,
            notices: _notices,
            report: _report,
        } = self;
    }
}

impl Rounds {
    ghost use Rattle.group_spec.specs.Image.{sizes_of, FieldsInRange};
    ghost use Rattle.group_journal.specs.Closed.{IsClosed};
    ghost use Rattle.group_rounds.specs.Rounds.{IsRoundOf};

    /// The rounds of a world.
    pub fn of(world: World) -> Rounds
        ensures { result.world ≡ world }
    {
        let tasks = tasks_in(world.verified());
        Rounds {
            world,
            tasks,
            notices: Notices::new(),
            report: Report::new(),
        }
    }

    /// A round of the world: each floor is gathered, rising, the image is refreshed with the fields, and each task makes a whole scan, CAR1 to
    /// CARn and then GROUP. No allocation.
    pub fn go(&mut self, fields: Fields)
        requires inside { FieldsInRange (sizes_of self.old.world.program.config) fields }
        requires closed { IsClosed self.old.world.world }
        ensures round { IsRoundOf self.old.world.program.config fields self.old.world.world
            self.new.world.world self.new.notices }
        ensures closed { IsClosed self.new.world.world }
        ensures same { self.new.world.program ≡ self.old.world.program }
    {
        let Rounds {
            world,
            tasks,
            notices,
            report,
        } = self;
        round(world, tasks.as_slice(), fields, notices, report);
    }
}
