// A group on its simulated plant.

ghost use Rattle.std.specs.Prelude.{◌≡◌, ◌++◌, ◌≤◌, ◌+◌, ℕ, true, [], ◌∷◌, map, flat_map, length, Ok, OnOk, IfOk, IfErr, List};
ghost use Rattle.il_syntax.specs.declared.fault.Refusal.TheVariants.{Memory};
ghost use Rattle.group_spec.specs.World.{opening};
ghost use Rattle.scan_task.specs.Scanning.{HasTask};
ghost use Rattle.group_spec.specs.declared.event.Event.TheVariants.{Press as PressOf, Gather as GatherOf, Refresh as RefreshOf};
ghost use Rattle.group_spec.specs.Calls.{IsCall};
ghost use Rattle.group_spec.specs.Image.{sizes_of, FieldsInRange};
ghost use Rattle.group_spec.specs.Plant.{IsPlantOf, fields_of_plant};
ghost use Rattle.group_spec.specs.Replies.{Refreshed};
ghost use Rattle.group_spec.specs.World.{happens};
ghost use Rattle.group_spec.specs.declared.journal.Entry.TheVariants as entry;
ghost use Rattle.group_journal.specs.Rounds.{Happen, desk_events, floors_rising, tasks_in_order, scan_entries, entered_calls_of};
ghost use Rattle.group_journal.specs.Closed.{IsClosed};
ghost use Rattle.group_rounds.specs.Driven.{call_of, ArePressed, AreSettings, IsSimulated, AreTasks};
ghost use Rattle.group_rounds.specs.Observing.{ScansObserved, RoundObserved, IsObserved};

use crate::ahead::{at_first, presses_by_round, presses_due, set_in, settings_by_round};
use crate::observer::{Nobody, Observer};
use crate::scan::scan;
use crate::steps::{gather_all, tasks_in};
use cli_host::press::{Press, Setting};
use group_journal::entered::calls_of;
use group_plant::plant::Plant;
use group_plant::switches::Switches;
use group_spec::calls::Call;
use group_spec::event::Event;
use group_spec::journal::Entry;
use group_spec::report::Report;
use group_spec::{Fields, Sizes};
use group_world::World;
use il_syntax::fault::Refusal;
use scan_task::Verified;
use std::alloc::{AllocError, Global};

/// What drives a simulation: the presses, and what the building sets of the plant, each in any order of rounds. Those of one round
/// come in their order.
#[derive(Clone, Copy)]
pub struct Drive<'d> {
    pub presses: &'d [Press],
    pub settings: &'d [Setting],
}

// What a round makes and has set.
#[derive(Clone, Copy)]
struct Due<'d> {
    presses: &'d [Press],
    switches: Switches,
    // Nothing was pressed so far, so that nothing is on the desk.
    idle: bool,
}

// The call of a press.
fn call_of(press: &Press) -> Call
    requires from { press.now.from ≤ 255 }
    requires to { press.now.to ≤ 255 }
    ensures { result ≡ call_of press.now }
{
    Call {
        from: press.from as u8,
        to: press.to as u8,
    }
}

// Presses are made, in their order.
fn press_all(world: &mut World, presses: &[Press], report: &mut Report)
    requires calls { ArePressed (sizes_of world.old.program.config) presses.now }
    ensures taken { Happen world.old.program.config world.old.world
        (map PressOf (map call_of presses.now)) world.new.world }
    ensures same { world.new.program ≡ world.old.program }
{
    let _config = world.verified().config();
    'presses: for press in presses {
        world.apply(&Event::Press(call_of(press)), report);
    }
}

// The presses of a round, and the gatherings. Where nothing was pressed so far, there is nothing to gather.
#[inline(always)]
fn desk(world: &mut World, due: Due<'_>, report: &mut Report)
    requires calls { ArePressed (sizes_of world.old.program.config) due.presses.now }
    requires idle { due.idle ≡ true → world.old.world.desk ≡ [] }
    ensures taken { Happen world.old.program.config world.old.world
        (desk_events world.old.program.config (map call_of due.entry.presses.now))
        world.new.world }
    ensures idle { due.entry.idle ≡ true → due.entry.presses.now ≡ []
        → world.new.world.desk ≡ [] }
    ensures same { world.new.program ≡ world.old.program }
{
    if due.idle && due.presses.is_empty() {
        return;
    }
    press_all(world, due.presses, report);
    gather_all(world, report);
}

// A refresh with fields in range, and its entry.
#[inline(always)]
fn refresh(
    world: &mut World,
    fields: Fields,
    entries: &mut Vec<Entry>,
    report: &mut Report,
) -> Result<(), AllocError>
    requires inside { FieldsInRange (sizes_of world.old.program.config) fields }
    ensures taken { OnOk result (happens world.old.program.config world.old.world
        (RefreshOf fields) ≡ Ok (world.new.world, Refreshed report.new)) }
    ensures journal { OnOk result (entries.new.items ≡ entries.old.items
        ++ entry.Refresh fields (entered_calls_of report.new) ∷ []) }
    ensures same { world.new.program ≡ world.old.program }
{
    let _config = world.verified().config();
    entries.reserve(1)?;
    world.refresh(&fields, report);
    let calls = calls_of(report.entered.as_slice());
    entries.push_reserved(Entry::Refresh { fields, calls });
    Ok(())
}

// A scan of each of the tasks in a round, and their entries.
fn scan_all<O: Observer>(
    world: &mut World,
    number: u16,
    tasks: &[u8],
    entries: &mut Vec<Entry>,
    report: &mut Report,
    observer: &mut O,
) -> Result<(), AllocError>
    requires tasks { AreTasks world.old.program.config tasks.now }
    requires closed { IsClosed world.old.world }
    ensures scans { OnOk result (ScansObserved O.Observer number world.old.program.config tasks.now
        world.old.world world.new.world observer.old observer.new) }
    ensures closed { OnOk result (IsClosed world.new.world) }
    ensures journal { OnOk result (entries.new.items ≡ entries.old.items
        ++ flat_map scan_entries tasks.now) }
    ensures same { world.new.program ≡ world.old.program }
{
    'tasks: for task in tasks {
        scan(world, *task, report);
        entries.reserve(2)?;
        entries.push_reserved(Entry::Start(*task));
        entries.push_reserved(Entry::Commit(*task));
        observer.committed(number, *task, report)?;
    }
    Ok(())
}

// One round: its presses and gatherings, a step of the plant, a refresh, and a scan of each task.
fn round<O: Observer>(
    world: &mut World,
    plant: &mut Plant,
    due: Due<'_>,
    number: u16,
    tasks: &[u8],
    entries: &mut Vec<Entry>,
    report: &mut Report,
    observer: &mut O,
) -> Result<(), AllocError>
    requires calls { ArePressed (sizes_of world.old.program.config) due.presses.now }
    requires limit { due.switches.run_limit ≤ (sizes_of world.old.program.config).cars }
    requires tasks { tasks.now ≡ tasks_in_order world.old.program.config }
    requires plant { IsPlantOf (sizes_of world.old.program.config) plant.old }
    requires closed { IsClosed world.old.world }
    requires idle { due.idle ≡ true → world.old.world.desk ≡ [] }
    ensures round { OnOk result (RoundObserved O.Observer number
        (map call_of due.entry.presses.now) due.entry.switches plant.old plant.new world.old
        world.new entries.old.items entries.new.items observer.old observer.new) }
    ensures plant { OnOk result (IsPlantOf (sizes_of world.old.program.config) plant.new) }
    ensures closed { OnOk result (IsClosed world.new.world) }
    ensures idle { OnOk result (due.entry.idle ≡ true → due.entry.presses.now ≡ []
        → world.new.world.desk ≡ []) }
    ensures same { world.new.program ≡ world.old.program }
{
    let _config = world.verified().config();
    desk(world, due, report);
    plant.set(due.switches);
    let fields = plant.step(&world.image().outputs);
    refresh(world, fields, entries, report)?;
    observer.refreshed(number, report)?;
    scan_all(world, number, tasks, entries, report, observer)?;
    observer.ended(number, world)?;
    Ok(())
}

// So many rounds of a world that opens. Its presses and settings are copied by their rounds, so that each round takes its own from the front.
fn run_rounds<O: Observer>(
    alloc: Global,
    world: &mut World,
    drive: Drive<'_>,
    rounds: u16,
    tasks: &[u8],
    entries: &mut Vec<Entry>,
    observer: &mut O,
) -> Result<(), AllocError>
    requires opening { world.old.world ≡ opening world.old.program.config }
    requires calls { ArePressed (sizes_of world.old.program.config) drive.presses.now }
    requires settings { AreSettings (sizes_of world.old.program.config).cars drive.settings.now }
    requires tasks { tasks.now ≡ tasks_in_order world.old.program.config }
    requires none { entries.old.items ≡ [] }
    ensures rounds { OnOk result (IsObserved O.Observer world.old.program.config
        drive.entry.presses.now drive.entry.settings.now rounds entries.new.items
        observer.old observer.new) }
    ensures same { world.new.program ≡ world.old.program }
{
    let _config = world.verified().config();
    let Sizes { cars, floors, .. } = world.sizes();
    let presses = presses_by_round(alloc, drive.presses)?;
    let settings = settings_by_round(alloc, drive.settings)?;
    let mut plant = Plant::new(cars, floors);
    let mut report = Report::new();
    let mut ahead = &presses[presses_due(&presses, 0)..];
    let mut standing = at_first(cars, &settings);
    let mut idle = true;
    'rounds: for number in 0..rounds {
        let (now, later) = ahead.split_at(presses_due(ahead, number + 1));
        standing = set_in(standing, number + 1);
        let due = Due {
            presses: now,
            switches: standing.switches,
            idle,
        };
        round(
            world,
            &mut plant,
            due,
            number + 1,
            tasks,
            entries,
            &mut report,
            observer,
        )?;
        idle = idle && now.is_empty();
        ahead = later;
    }
    Ok(())
}

/// So many rounds of a world that opens, before an observer: their journal, which has room for all of its entries from the first on.
pub fn simulate_on<O: Observer>(
    alloc: Global,
    world: &mut World,
    drive: Drive<'_>,
    rounds: u16,
    observer: &mut O,
) -> Result<Vec<Entry>, AllocError>
    requires opening { world.old.world ≡ opening world.old.program.config }
    requires calls { ArePressed (sizes_of world.old.program.config) drive.presses.now }
    requires settings { AreSettings (sizes_of world.old.program.config).cars drive.settings.now }
    ensures rounds { IfOk result (λ entries. IsObserved O.Observer world.old.program.config
        drive.entry.presses.now drive.entry.settings.now rounds entries.items
        observer.old observer.new) }
{
    let _config = world.verified().config();
    let tasks = tasks_in(world.verified());
    let tasks = tasks.as_slice();
    let mut entries = Vec::with_capacity(alloc, usize::from(rounds) * (1 + 2 * tasks.len()))?;
    run_rounds(alloc, world, drive, rounds, tasks, &mut entries, observer)?;
    Ok(entries)
}

/// The journal of so many rounds of a group on its plant, from its opening: in each, the presses are made and gathered, the plant
/// goes one step under the outputs of the image, the image is refreshed, and each task runs one scan.
pub fn simulate(
    alloc: Global,
    verified: Verified,
    drive: Drive<'_>,
    rounds: u16,
) -> Result<Vec<Entry>, Refusal>
    requires calls { ArePressed (sizes_of verified.config) drive.presses.now }
    requires settings { AreSettings (sizes_of verified.config).cars drive.settings.now }
    ensures rounds { IfOk result (λ entries. IsSimulated verified.config drive.entry.presses.now
        drive.entry.settings.now rounds entries.items) }
    ensures memory { IfErr result (λ refusal. refusal ≡ Memory) }
{
    simulate_before(alloc, verified, drive, rounds, &mut Nobody)
}

/// The journal of so many rounds, simulated before an observer, who writes of each round.
pub fn simulate_before<O: Observer>(
    alloc: Global,
    verified: Verified,
    drive: Drive<'_>,
    rounds: u16,
    observer: &mut O,
) -> Result<Vec<Entry>, Refusal>
    requires calls { ArePressed (sizes_of verified.config) drive.presses.now }
    requires settings { AreSettings (sizes_of verified.config).cars drive.settings.now }
    ensures rounds { IfOk result (λ entries. IsObserved O.Observer verified.config
        drive.entry.presses.now drive.entry.settings.now rounds entries.items
        observer.old observer.new) }
    ensures memory { IfErr result (λ refusal. refusal ≡ Memory) }
{
    let mut world = World::new(alloc, verified)?;
    let entries = simulate_on(alloc, &mut world, drive, rounds, observer);
    world.release();
    Ok(entries?)
}
