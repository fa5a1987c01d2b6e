// A run: its threads, and what they leave.

ghost use Rattle.std.specs.Prelude.{◌≡◌, ◌+◌, ◌≤◌, ◌*◌, [], ℕ, All, map, filter, length, slice_index_or, sum_by, IfOk, IsPermutation};
ghost use Rattle.group_spec.specs.declared.calls.Call.{Call};
ghost use Rattle.std.specs.Thread.{IsSync};
ghost use Rattle.group_spec.specs.Image.{sizes_of};
ghost use Rattle.group_rounds.specs.Ahead.{setting_round, Rises, IsAhead};
ghost use Rattle.group_rounds.specs.Driven.{AreSettings, switches_in};
ghost use Rattle.threads_desk.specs.Account.{times};
ghost use Rattle.threads_desk.specs.Passes.{AreNewPanels, AreAllPanels};
ghost use Rattle.threads_station.specs.Passes.{is_task, all_tasks};
ghost use Rattle.threads_workers.specs.Panels.{IsPressAt, IsIdle, at_panel, ArePressed};
ghost use Rattle.threads_workers.specs.Ran.{IsEntered, IsRun};

use crate::fault::RunFault;
use crate::gate::Gate;
use crate::panel::{PanelHandle, is_pressed};
use crate::refresher::{Pace, Refresher};
use crate::{panel, refresher, task};
use cli_host::press::{Press, Setting};
use group_rounds::ahead::settings_by_round;
use group_spec::Sizes;
use group_spec::journal::Entry;
use scan_task::Verified;
use std::alloc::{AllocError, Global};
use std::marker::Brand;
use std::sync::Wait;
use std::thread;
use std::thread::{Scope, Threads};
use threads_desk::{Desk, DeskClosed, HandPass, PanelPass};
use threads_station::{Blanks, Closed, Naming, RefreshPass, Station, TaskPass};

/// How many panels each floor has.
pub const PANELS: u8 = 4;

/// What drives a run: the presses, how many rounds, and what the building sets of the plant, by the number of a refresh.
#[derive(Clone, Copy)]
pub struct Plan<'p> {
    pub presses: &'p [Press],
    pub rounds: u16,
    pub settings: &'p [Setting],
}

/// Those who go into threads.
#[derive(Drop)]
pub struct Crew<G: Naming> {
    pub tasks: Vec<TaskPass<G>>,
    pub refresher: Refresher<G>,
    pub panels: Vec<PanelPass>,
}

/// The passes that came back.
#[derive(Drop)]
pub struct Passes<G: Naming> {
    pub tasks: Vec<TaskPass<G>>,
    pub refresher: Refresher<G>,
    pub panels: Vec<PanelPass>,
}

// The panels whose workers were started, and those that nobody presses.
#[derive(Drop)]
struct Panels<'p> {
    pressed: Vec<PanelHandle<'p>>,
    idle: Vec<PanelPass>,
}

// Starts a worker for each panel that is pressed.
fn start_panels<'s, E>(
    scope: &Scope<'s, E>,
    alloc: Global,
    desk: &'s Desk,
    panels: Vec<PanelPass>,
    presses: &'s [Press],
) -> Result<Panels<'s>, AllocError>
    requires new { All (λ pass. IsIdle desk.now.table pass) panels.items }
    requires presses { All (λ press. IsPressAt desk.now.floors press) presses.now }
    ensures count { IfOk result (λ p. length p.pressed.items + length p.idle.items
        ≡ length panels.items) }
    ensures pressed { IfOk result (λ p. All (λ h. IsIdle desk.now.table h.promise.before.value)
        p.pressed.items) }
    ensures idle { IfOk result (λ p. All (λ pass. IsIdle desk.now.table pass) p.idle.items) }
    ensures made { IfOk result (λ p. (c : Call)
        → sum_by (λ h. at_panel c h.promise.presses.value.now h.promise.before.value)
        p.pressed.items ≡ sum_by (λ pass. at_panel c presses.now pass) panels.items) }
{
    let mut panels = panels;
    let mut pressed = Vec::new(alloc);
    let mut idle = Vec::new(alloc);
    'panels: while let Some(pass) = panels.pop() {
        if is_pressed(&pass, presses) {
            pressed.push(panel::start(scope, desk, pass, presses)?)?;
        } else {
            idle.push(pass)?;
        }
    }
    Ok(Panels { pressed, idle })
}

// Joins the workers of panels: the passes of all panels.
fn join_panels<R: Threads>(
    rt: &R,
    desk: &Desk,
    panels: Panels<'_>,
) -> Result<Vec<PanelPass>, AllocError>
    requires pressed { All (λ h. IsIdle desk.now.table h.promise.before.value)
        panels.pressed.items }
    requires idle { All (λ pass. IsIdle desk.now.table pass) panels.idle.items }
    ensures count { IfOk result (λ ps. length ps.items
        ≡ length panels.entry.pressed.items + length panels.entry.idle.items) }
    ensures tables { IfOk result (λ ps. All (λ pass. pass.table ≡ desk.now.table) ps.items) }
    ensures pressed { IfOk result (λ ps. (c : Call) → sum_by (λ p. times c p.pressed) ps.items
        ≡ sum_by (λ h. at_panel c h.promise.presses.value.now h.promise.before.value)
        panels.entry.pressed.items) }
    ensures news { IfOk result (λ ps. (c : Call)
        → sum_by (λ p. times c p.news) ps.items ≤ sum_by (λ p. times c p.pressed) ps.items) }
{
    let Panels { pressed, idle } = panels;
    let mut pressed = pressed;
    let mut passes = idle;
    'pressed: while let Some(handle) = pressed.pop() {
        passes.push(handle.join(rt))?;
    }
    Ok(passes)
}

// What was started; where it could not be, no one waits for it.
fn or_give_up<X: Drop, T: Gate, R: Wait>(
    rt: &R,
    gate: &T,
    started: Result<X, AllocError>,
) -> Result<X, AllocError>
    ensures { result ≡ started }
{
    if started.is_err() {
        gate.gives_up(rt);
    }
    started
}

/// Runs the crew: a thread for each task, one for the refresher and one for each panel that is pressed. All of them have ended when it answers.
pub fn run_all<G: Naming + Send + Sync, T: Gate + Sync, R: Threads + Wait + Sync>(
    rt: &R,
    alloc: Global,
    station: &Station<G>,
    desk: &Desk,
    gate: &T,
    crew: Crew<G>,
    plan: Plan<'_>,
) -> Result<Passes<G>, RunFault>
    requires tasks { All (λ p. p.count ≡ 0) crew.tasks.items }
    requires refreshes { (crew.refresher.pass.refreshes ≡ 0) × (crew.refresher.pass.driven ≡ 0) }
    requires hand { crew.refresher.hand.table ≡ desk.now.table }
    requires floors { crew.refresher.hand.floors ≡ (sizes_of G.program.config).floors }
    requires rises { Rises setting_round 0 plan.settings.now }
    requires switches { G.switches
        ≡ switches_in (sizes_of G.program.config).cars plan.settings.now }
    requires limit { (n : ℕ)
        → (G.switches n).run_limit ≤ (sizes_of G.program.config).cars }
    requires entered { IsEntered crew.refresher.pass.entered crew.refresher.hand }
    requires each { desk.now.panels ≡ 4 }
    requires panels { AreNewPanels desk.now crew.panels.items }
    requires presses { All (λ press. IsPressAt desk.now.floors press) plan.presses.now }
    ensures tasks { IfOk result (λ p. map (λ q. q.task) p.tasks.items
        ≡ map (λ q. q.task) crew.tasks.items) }
    ensures counts { IfOk result (λ p. All (λ q. q.count ≡ plan.entry.rounds + plan.entry.rounds)
        p.tasks.items) }
    ensures refreshes { IfOk result (λ p. (p.refresher.pass.refreshes ≡ plan.entry.rounds)
        × (p.refresher.pass.driven ≡ plan.entry.rounds)) }
    ensures entered { IfOk result (λ p. IsEntered p.refresher.pass.entered p.refresher.hand) }
    ensures desk { IfOk result (λ p. (p.refresher.hand.table ≡ desk.now.table)
        × AreAllPanels desk.now p.panels.items) }
    ensures pressed { IfOk result (λ p. ArePressed plan.entry.presses.now p.panels.items) }
{
    let Crew {
        tasks,
        refresher,
        panels,
    } = crew;
    let Plan {
        presses,
        rounds,
        settings,
    } = plan;
    thread::scope(
        thread::scope_env(),
        rt,
        move |scope| -> Result<Passes<G>, RunFault>
            requires r { IsSync R.row }
            requires t { IsSync T.row }
            requires tasks { All (λ p. p.count ≡ 0) tasks.items }
            requires refreshes { (refresher.pass.refreshes ≡ 0) × (refresher.pass.driven ≡ 0) }
            requires hand { refresher.hand.table ≡ desk.now.table }
            requires floors { refresher.hand.floors ≡ (sizes_of G.program.config).floors }
            requires rises { Rises setting_round 0 settings.now }
            requires switches { G.switches
                ≡ switches_in (sizes_of G.program.config).cars settings.now }
            requires limit { (n : ℕ)
                → (G.switches n).run_limit ≤ (sizes_of G.program.config).cars }
            requires entered { IsEntered refresher.pass.entered refresher.hand }
            requires each { desk.now.panels ≡ 4 }
            requires panels { AreNewPanels desk.now panels.items }
            requires presses { All (λ press. IsPressAt desk.now.floors press) presses.now }
            ensures tasks { IfOk result (λ p. map (λ q. q.task) p.tasks.items
                ≡ map (λ q. q.task) tasks.items) }
            ensures counts { IfOk result (λ p. All (λ q. q.count ≡ rounds + rounds) p.tasks.items) }
            ensures refreshes { IfOk result (λ p. (p.refresher.pass.refreshes ≡ rounds)
                × (p.refresher.pass.driven ≡ rounds)) }
            ensures entered { IfOk result (λ p. IsEntered p.refresher.pass.entered
                p.refresher.hand) }
            ensures desk { IfOk result (λ p. (p.refresher.hand.table ≡ desk.entry.now.table)
                × AreAllPanels desk.entry.now p.panels.items) }
            ensures pressed { IfOk result (λ p. ArePressed presses.entry.now p.panels.items) }
        {
            let panels = start_panels(scope, alloc, desk, panels, presses)?;
            let tasks = or_give_up(
                rt,
                gate,
                task::start_all(scope, rt, alloc, station, gate, tasks, rounds),
            )?;
            let refresher = or_give_up(
                rt,
                gate,
                refresher::start(
                    scope,
                    rt,
                    station,
                    desk,
                    gate,
                    refresher,
                    Pace { rounds, settings },
                ),
            )?;
            let tasks = task::join_all(rt, alloc, tasks, rounds)?;
            let refresher = refresher.join(rt)?;
            let panels = join_panels(rt, desk, panels)?;
            Ok(Passes {
                tasks,
                refresher,
                panels,
            })
        },
    )
}

// A copy of the presses, by their rounds; those of one round in their order.
fn by_round(alloc: Global, presses: &[Press]) -> Result<Vec<Press>, AllocError>
    ensures { IfOk result (λ ps. IsPermutation presses.now ps.items) }
{
    let mut ordered = presses.to_vec(alloc)?;
    ordered.sort_by_key(|press| press.round)?;
    Ok(ordered)
}

// The presses and the settings by their rounds, and new ledgers.
fn prepared(alloc: Global, plan: Plan<'_>) -> Result<(Vec<Press>, Vec<Setting>, Blanks), AllocError>
    ensures presses { IfOk result (λ r. IsPermutation plan.entry.presses.now r.0.items) }
    ensures settings { IfOk result (λ r. IsAhead setting_round 0 plan.entry.settings.now
        r.1.items) }
{
    let presses = by_round(alloc, plan.presses)?;
    let settings = settings_by_round(alloc, plan.settings)?;
    Ok((presses, settings, Blanks::new(alloc)?))
}

// How many entries a journal gets in so many rounds.
fn entries(verified: &Verified, rounds: u16) -> usize {
    let tasks = usize::from(verified.sizes().cars) + usize::from(verified.has_task(0));
    usize::from(rounds) * (1 + 2 * tasks)
}

/// What a run leaves: its journal, and the calls that no refresh has entered yet.
#[derive(Drop)]
pub struct Ran {
    pub journal: Vec<Entry>,
    pub left: DeskClosed,
}

// Closes the desk and the station.
fn closed<G: Naming>(station: Station<G>, desk: Desk, passes: Passes<G>, plan: Plan<'_>) -> Ran
    requires tasks { map (λ q. q.task) passes.tasks.items
        ≡ filter (is_task G.program.config) all_tasks }
    requires counts { All (λ q. q.count ≡ plan.rounds + plan.rounds) passes.tasks.items }
    requires refreshes { (passes.refresher.pass.refreshes ≡ plan.rounds)
        × (passes.refresher.pass.driven ≡ plan.rounds) }
    requires entered { IsEntered passes.refresher.pass.entered passes.refresher.hand }
    requires floors { desk.floors ≡ (sizes_of G.program.config).floors }
    requires desk { (passes.refresher.hand.table ≡ desk.table)
        × AreAllPanels desk passes.panels.items }
    requires presses { All (λ press. IsPressAt desk.floors press) plan.presses.now }
    requires pressed { ArePressed plan.presses.now passes.panels.items }
    ensures { IsRun G.program.config G.switches plan.entry.rounds plan.entry.presses.now
        result.journal.items result.left }
{
    let Passes {
        tasks,
        refresher,
        panels,
    } = passes;
    let left = desk.close(panels, refresher.hand);
    let Closed { verified, book } = station.close(tasks, refresher.pass);
    let _config = verified.config();
    verified.release();
    Ran {
        journal: book.into_journal(),
        left,
    }
}

// A run of a station with its passes.
fn run_at<G: Naming + Send + Sync, T: Gate + Sync, R: Threads + Wait + Sync>(
    rt: &R,
    alloc: Global,
    station: Station<G>,
    desk: Desk,
    gate: &T,
    crew: Crew<G>,
    plan: Plan<'_>,
) -> Result<Ran, RunFault>
    requires tasks { map (λ q. q.task) crew.tasks.items
        ≡ filter (is_task G.program.config) all_tasks }
    requires new { All (λ p. p.count ≡ 0) crew.tasks.items }
    requires refreshes { (crew.refresher.pass.refreshes ≡ 0) × (crew.refresher.pass.driven ≡ 0) }
    requires hand { crew.refresher.hand.table ≡ desk.table }
    requires floors { crew.refresher.hand.floors ≡ (sizes_of G.program.config).floors }
    requires rises { Rises setting_round 0 plan.settings.now }
    requires switches { G.switches
        ≡ switches_in (sizes_of G.program.config).cars plan.settings.now }
    requires limit { (n : ℕ)
        → (G.switches n).run_limit ≤ (sizes_of G.program.config).cars }
    requires entered { IsEntered crew.refresher.pass.entered crew.refresher.hand }
    requires size { (desk.floors ≡ (sizes_of G.program.config).floors) × (desk.panels ≡ 4) }
    requires panels { AreNewPanels desk crew.panels.items }
    requires presses { All (λ press. IsPressAt desk.floors press) plan.presses.now }
    ensures { IfOk result (λ ran. IsRun G.program.config G.switches plan.entry.rounds
        plan.entry.presses.now ran.journal.items ran.left) }
{
    match run_all(rt, alloc, &station, &desk, gate, crew, plan) {
        Ok(passes) => Ok(closed(station, desk, passes, plan)),
        Err(fault) => {
            station.release();
            Err(fault)
        }
    }
}

// A desk as it opens, with all passes.
#[derive(Drop)]
struct Opened {
    desk: Desk,
    panels: Vec<PanelPass>,
    hand: HandPass,
}

// The desk of a group.
fn desk_of(alloc: Global, sizes: Sizes) -> Result<Opened, AllocError>
    requires floors { (2 ≤ sizes.floors) × (sizes.floors ≤ 16) }
    ensures size { IfOk result (λ o. (o.desk.floors ≡ sizes.floors) × (o.desk.panels ≡ 4)) }
    ensures hand { IfOk result (λ o. o.hand
        ≡ record { table = o.desk.table; floors = sizes.floors; hand = []; gathered = [] }) }
    ensures panels { IfOk result (λ o. AreNewPanels o.desk o.panels.items) }
{
    match Desk::new(alloc, sizes.floors, PANELS) {
        Ok((desk, panels, hand)) => Ok(Opened { desk, panels, hand }),
        Err(_) => Err(AllocError),
    }
}

fn run_in<G: Naming + Send + Sync, T: Gate + Sync, R: Threads + Wait + Sync>(
    rt: &R,
    alloc: Global,
    blanks: Blanks,
    verified: Verified,
    gate: &T,
    plan: Plan<'_>,
) -> Result<Ran, RunFault>
    requires program { verified ≡ G.program }
    requires rises { Rises setting_round 0 plan.settings.now }
    requires switches { G.switches
        ≡ switches_in (sizes_of G.program.config).cars plan.settings.now }
    requires limit { (n : ℕ)
        → (G.switches n).run_limit ≤ (sizes_of G.program.config).cars }
    requires names { (i : ℕ) → slice_index_or blanks.ledgers i 0 ≡ G.names i }
    requires tally { blanks.tally ≡ G.tally }
    requires presses { All (λ press. IsPressAt (sizes_of verified.config).floors press)
        plan.presses.now }
    ensures { IfOk result (λ ran. IsRun G.program.config G.switches plan.entry.rounds
        plan.entry.presses.now ran.journal.items ran.left) }
{
    let _config = verified.config();
    let sizes = verified.sizes();
    let capacity = entries(&verified, plan.rounds);
    let Ok((station, tasks, refresher)) = Station::<G>::new(alloc, blanks, verified, capacity)
    else {
        return Err(RunFault::OutOfMemory);
    };
    match desk_of(alloc, sizes) {
        Ok(Opened { desk, panels, hand }) => {
            let crew = Crew {
                tasks,
                refresher: Refresher {
                    pass: refresher,
                    hand,
                },
                panels,
            };
            run_at(rt, alloc, station, desk, gate, crew, plan)
        }
        Err(_) => {
            station.release();
            Err(RunFault::OutOfMemory)
        }
    }
}

/// Runs a group in threads: one for each task, with so many scans, one that gathers calls and refreshes by the plant, so many times,
/// and one for each panel that is pressed. The answer is the journal, and the calls that are left. Memory for all of its entries is reserved before the first thread starts; a thread that
/// can't be started ends the run with `OutOfMemory`, once the others have ended.
pub fn run<T: Gate + Sync, R: Threads + Wait + Sync>(
    rt: &R,
    alloc: Global,
    verified: Verified,
    gate: &T,
    plan: Plan<'_>,
) -> Result<Ran, RunFault>
    requires presses { All (λ press. IsPressAt (sizes_of verified.config).floors press)
        plan.presses.now }
    requires settings { AreSettings (sizes_of verified.config).cars plan.settings.now }
    ensures { IfOk result (λ ran. IsRun verified.config
        (switches_in (sizes_of verified.config).cars plan.entry.settings.now) plan.entry.rounds
        plan.entry.presses.now ran.journal.items ran.left) }
{
    match prepared(alloc, plan) {
        Ok((presses, settings, blanks)) => {
            let plan = Plan {
                presses: &presses,
                settings: &settings,
                ..plan
            };
            run_in::<Brand, T, R>(rt, alloc, blanks, verified, gate, plan)
        }
        Err(_) => {
            verified.release();
            Err(RunFault::OutOfMemory)
        }
    }
}
