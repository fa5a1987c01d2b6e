// A round.

ghost use Rattle.std.specs.Prelude.{◌≡◌, ◌++◌, ◌∷◌, ◌≤◌, ◌+◌, [], List, length, Ok};
ghost use Rattle.scan_task.specs.Scanning.{HasTask};
ghost use Rattle.group_spec.specs.declared.event.Event.TheVariants.{Refresh as RefreshOf};
ghost use Rattle.group_spec.specs.Image.{sizes_of, FieldsInRange};
ghost use Rattle.group_spec.specs.Replies.{Refreshed};
ghost use Rattle.group_spec.specs.World.{happens};
ghost use Rattle.group_journal.specs.Rounds.{tasks_in_order};
ghost use Rattle.group_journal.specs.Closed.{IsClosed};
ghost use Rattle.group_rounds.specs.Driven.{AreTasks};
ghost use Rattle.group_rounds.specs.Shown.{ScansReporting};
ghost use Rattle.group_rounds.specs.declared.notice.Notice.{Notice as NoticeOf};
ghost use Rattle.group_rounds.specs.Notices.{commit_notices, refresh_notices};
ghost use Rattle.group_rounds.specs.Rounds.{IsRoundOf, ScansNoticed, most_of_scans};

use crate::notice::{MOST_NOTICES, Notices, add_answers, add_denials, add_entered};
use crate::scan::scan;
use crate::steps::gather_all;
use group_spec::Fields;
use group_spec::report::Report;
use group_world::World;

// A whole scan of a task, and what it has to tell.
fn scan_one(world: &mut World, task: u8, notices: &mut Notices, report: &mut Report)
    requires task { HasTask world.old.program.config task }
    requires closed { IsClosed world.old.world }
    requires room { length notices.old + most_of_scans (task ∷ []) ≤ MOST_NOTICES }
    ensures scan { ScansReporting world.old.program.config task world.old.world world.new.world
        report.new }
    ensures noticed { notices.new ≡ notices.old ++ commit_notices task report.new }
    ensures room { length notices.new ≤ length notices.old + most_of_scans (task ∷ []) }
    ensures closed { IsClosed world.new.world }
    ensures same { world.new.program ≡ world.old.program }
{
    scan(world, task, report);
    let _few = report.answers.len();
    add_denials(notices, report.denials.as_slice());
    add_answers(notices, task, report.answers.as_slice());
}

// A whole scan of each of some tasks, and what they have to tell.
fn scan_all(world: &mut World, tasks: &[u8], notices: &mut Notices, report: &mut Report)
    requires tasks { AreTasks world.old.program.config tasks.now }
    requires closed { IsClosed world.old.world }
    requires room { length notices.old + most_of_scans tasks.now ≤ MOST_NOTICES }
    ensures noticed { (scanned : List NoticeOf) × (notices.new ≡ notices.old ++ scanned)
        × ScansNoticed world.old.program.config tasks.now world.old.world world.new.world scanned }
    ensures closed { IsClosed world.new.world }
    ensures same { world.new.program ≡ world.old.program }
{
    'tasks: for task in tasks {
        scan_one(world, *task, notices, report);
    }
}

// A refresh with fields in range, and what it has to tell.
fn refresh(world: &mut World, fields: Fields, notices: &mut Notices, report: &mut Report)
    requires inside { FieldsInRange (sizes_of world.old.program.config) fields }
    requires none { notices.old ≡ [] }
    ensures taken { happens world.old.program.config world.old.world (RefreshOf fields)
        ≡ Ok (world.new.world, Refreshed report.new) }
    ensures noticed { notices.new ≡ refresh_notices report.new }
    ensures room { length notices.new ≤ 80 }
    ensures same { world.new.program ≡ world.old.program }
{
    world.refresh(&fields, report);
    let _few = report.entered.len();
    let _denied = report.denials.len();
    add_entered(notices, report.entered.as_slice());
    add_denials(notices, report.denials.as_slice());
}

/// A round: each floor is gathered, rising, the image is refreshed with the fields, and each task makes a whole scan, CAR1 to CARn and then
/// GROUP. The notices are those of the refresh, and then those of the scans, in the order in which they came. No allocation.
pub fn round(
    world: &mut World,
    tasks: &[u8],
    fields: Fields,
    notices: &mut Notices,
    report: &mut Report,
)
    requires tasks { tasks.now ≡ tasks_in_order world.old.program.config }
    requires inside { FieldsInRange (sizes_of world.old.program.config) fields }
    requires closed { IsClosed world.old.world }
    ensures round { IsRoundOf world.old.program.config fields world.old.world world.new.world
        notices.new }
    ensures closed { IsClosed world.new.world }
    ensures same { world.new.program ≡ world.old.program }
{
    let _config = world.verified().config();
    notices.clear();
    gather_all(world, report);
    refresh(world, fields, notices, report);
    scan_all(world, tasks, notices, report);
}
