// Stations made from texts, and steps on them.

ghost use Rattle.std.specs.Prelude.{◌≡◌, ◌≤◌, ℕ, IfOk, slice_index_or};
ghost use Rattle.threads_desk.specs.Passes.{AreAllPanels, IsFloorOf};
ghost use Rattle.group_plant.specs.Switches.{opening_switches};
ghost use Rattle.group_spec.specs.Image.{sizes_of};

use group_plant::switches::Switches;
use group_spec::calls::Slot;
use group_spec::journal::Entry;
use group_spec::report::Report;
use group_spec::{Bounded, CarFields, Fields, Motor, Outputs, Sizes};
use il_syntax::fault::Refusal;
use load_text::load;
use scan_task::{Scanned, Value, Verified, scan};
use std::alloc::{AllocError, Global};
use std::marker::Brand;
use std::sync::Wait;
use threads_desk::{Desk, DeskClosed, HandPass, PanelPass, Pressed};
use threads_station::{Blanks, Closed, Naming, RefreshPass, Station, TaskPass};

/// What a row does. Each step answers a number.
#[derive(Clone, Copy)]
pub enum Step {
    /// A scan of the task begins and runs to its end: 0, or the number of the fault.
    Start(u8),
    /// The scan of one task is committed with the pass of another: 0, or the number of the fault.
    Commit { scan: u8, by: u8 },
    /// So many cars stand at floor 1: 0, or the number of the fault.
    Refresh { cars: u8, time: u32, run_limit: u8 },
    /// So many cars, of which car 1 is between floors 1 and 2, with its door shut.
    Leave { time: u32 },
    /// A refresh by the plant, without FIRE: 0, or the number of the fault.
    Drive,
    /// 0 for New, 1 for Already, 2 for SameFloor.
    Press { from: u8, panel: u8, to: u8 },
    /// The calls from a floor that are then in the hand.
    Gather(u8),
    /// The word of a floor.
    Show(u8),
    /// The car that is told, or 0.
    Told(u64),
    /// How many cars are asked to go up.
    Rising,
}

/// What the steps of a row leave.
#[derive(Drop)]
pub struct Played {
    pub answers: Vec<u64>,
    pub report: Report,
    pub journal: Vec<Entry>,
    pub outputs: Outputs,
    /// Call slot 1.
    pub slot: Option<Slot>,
    /// The globals G and H.
    pub globals: [Option<Value>; 2],
    pub desk: DeskClosed,
}

// A scan that was run.
#[derive(Drop)]
struct Run<'s> {
    task: u8,
    scanned: Scanned<'s>,
}

// The passes of the tasks, and the scans that were run.
#[derive(Drop)]
struct Crew<'s, G: Naming> {
    passes: Vec<TaskPass<G>>,
    runs: Vec<Run<'s>>,
}

// Answered where a row names a task or a scan that isn't there.
const NOBODY: u64 = 255;

// A scan of a task begins and runs to its end. One that finds no memory is not kept.
fn start<'s, G: Naming, R: Wait>(
    rt: &R,
    station: &'s Station<G>,
    crew: &mut Crew<'s, G>,
    task: u8,
) -> u64 {
    let Some(at) = crew.passes.iter().position(|pass| pass.task() == task) else {
        return NOBODY;
    };
    let pass = crew.passes.swap_remove(at);
    let (pass, begun) = station.start(rt, pass);
    crew.passes.push_reserved(pass);
    match begun {
        Ok(begun) => {
            let scanned = scan(station.verified(), begun);
            match crew.runs.push(Run { task, scanned }) {
                Ok(()) => 0,
                Err(_) => NOBODY,
            }
        }
        Err(fault) => u64::from(fault.number()),
    }
}

// The scan of a task is committed with the pass of another.
fn commit<'s, G: Naming, R: Wait>(
    rt: &R,
    station: &Station<G>,
    crew: &mut Crew<'s, G>,
    task: u8,
    by: u8,
    report: &mut Report,
) -> u64 {
    let Some(run) = crew.runs.iter().position(|run| run.task == task) else {
        return NOBODY;
    };
    let Some(at) = crew.passes.iter().position(|pass| pass.task() == by) else {
        return NOBODY;
    };
    let Run { scanned, .. } = crew.runs.swap_remove(run);
    let pass = crew.passes.swap_remove(at);
    let (pass, committed) = station.commit(rt, pass, scanned, report);
    crew.passes.push_reserved(pass);
    match committed {
        Ok(()) => 0,
        Err((fault, scanned)) => {
            crew.runs.push_reserved(Run { task, scanned });
            u64::from(fault.number())
        }
    }
}

// The fields of so many cars at floor 1.
fn fields(cars: u8, time: u32, run_limit: u8, level: bool) -> Fields
    requires { cars ≤ 8 }
{
    let standing = CarFields {
        pos: 1,
        level,
        top: false,
        bottom: level,
        locked: true,
        opened: false,
    };
    let all = [standing; 8];
    Fields {
        time,
        run_limit,
        fire: false,
        cars: Bounded::from_slice(&all[..usize::from(cars)]),
    }
}

// Presses at a panel, if it is the one that is meant.
fn press_if(
    desk: &Desk,
    pass: PanelPass,
    from: u8,
    panel: u8,
    to: u8,
) -> (PanelPass, Option<Pressed>)
    requires table { pass.table ≡ desk.now.table }
    requires to { IsFloorOf desk.now.floors to }
    ensures { result.0.table ≡ pass.table }
{
    if from == pass.floor() && panel == pass.panel() {
        let (pass, answer) = desk.press(pass, to);
        return (pass, Some(answer));
    }
    (pass, None)
}

// Presses at the first of the panels, if it is the one that is meant. It is the last one then.
fn press_first(
    desk: &Desk,
    panels: &mut Vec<PanelPass>,
    from: u8,
    panel: u8,
    to: u8,
) -> Option<Pressed>
    requires panels { AreAllPanels desk.now panels.old.items }
    requires to { IsFloorOf desk.now.floors to }
    ensures { AreAllPanels desk.now panels.new.items }
{
    if panels.is_empty() {
        return None;
    }
    let pass = panels.remove(0);
    let (pass, answer) = press_if(desk, pass, from, panel, to);
    panels.push_reserved(pass);
    answer
}

// Presses at one of the panels.
fn press(desk: &Desk, panels: &mut Vec<PanelPass>, from: u8, panel: u8, to: u8) -> Option<Pressed>
    requires panels { AreAllPanels desk.now panels.old.items }
    requires to { IsFloorOf desk.now.floors to }
    ensures { AreAllPanels desk.now panels.new.items }
{
    let mut answer = None;
    'panels: for _ in 0..panels.len() {
        answer = answer.or(press_first(desk, panels, from, panel, to));
    }
    answer
}

// The number of an answer to a press.
fn number_of(answer: Option<Pressed>) -> u64 {
    match answer {
        Some(Pressed::New) => 0,
        Some(Pressed::Already) => 1,
        Some(Pressed::SameFloor) => 2,
        None => NOBODY,
    }
}

// How many cars are asked to go up.
fn rising<G: Naming, R: Wait>(
    rt: &R,
    station: &Station<G>,
    pass: RefreshPass<G>,
) -> (RefreshPass<G>, u64) {
    let (pass, image) = station.outputs(rt, pass);
    let mut count = 0u64;
    for car in image.outputs.as_slice() {
        if car.motor == Motor::Up {
            count = count.wrapping_add(1);
        }
    }
    (pass, count)
}

// The image is refreshed with these fields: 0, or the number of the fault.
fn refresh<G: Naming, R: Wait>(
    rt: &R,
    station: &Station<G>,
    pass: RefreshPass<G>,
    collector: HandPass,
    fields: Fields,
    report: &mut Report,
) -> (RefreshPass<G>, HandPass, u64)
    requires { collector.floors ≡ (sizes_of G.program.config).floors }
    ensures { (result.1.table ≡ collector.table) × (result.1.floors ≡ collector.floors) }
{
    let (pass, collector, answer) = station.refresh(rt, pass, fields, collector, report);
    match answer {
        Ok(()) => (pass, collector, 0),
        Err(fault) => (pass, collector, u64::from(fault.number())),
    }
}

// The plant goes a step without FIRE, where all cars may run, and the image takes what it reports: 0, or the number of the fault.
fn drive<G: Naming, R: Wait>(
    rt: &R,
    station: &Station<G>,
    pass: RefreshPass<G>,
    collector: HandPass,
    report: &mut Report,
) -> (RefreshPass<G>, HandPass, u64)
    requires floors { collector.floors ≡ (sizes_of G.program.config).floors }
    requires switches { (n : ℕ)
        → opening_switches (sizes_of G.program.config).cars ≡ G.switches n }
    ensures { (result.1.table ≡ collector.table) × (result.1.floors ≡ collector.floors) }
{
    let switches = Switches::opening(station.verified().sizes().cars);
    let (pass, collector, answer) = station.drive(rt, pass, switches, collector, report);
    match answer {
        Ok(()) => (pass, collector, 0),
        Err(fault) => (pass, collector, u64::from(fault.number())),
    }
}

// Each floor is gathered: the calls from one of them that are then in the hand.
fn gather(desk: &Desk, collector: HandPass, from: u8) -> (HandPass, u64)
    requires { collector.table ≡ desk.now.table }
    ensures { (result.0.table ≡ collector.table) × (result.0.floors ≡ collector.floors) }
{
    let collector = desk.gather(collector);
    if !(1..=16).contains(&from) {
        return (collector, NOBODY);
    }
    let mask = collector.hand().mask_from(from);
    (collector, u64::from(mask))
}

// The word of a floor.
fn show(desk: &Desk, collector: HandPass, from: u8) -> (HandPass, u64)
    requires { collector.table ≡ desk.now.table }
    ensures { (result.0.table ≡ collector.table) × (result.0.floors ≡ collector.floors) }
{
    if !(1..=desk.floors()).contains(&from) {
        return (collector, NOBODY);
    }
    desk.shown(collector, from)
}

// A step of a task, if it is one: what it answers.
fn of_task<'s, G: Naming, R: Wait>(
    rt: &R,
    station: &'s Station<G>,
    crew: &mut Crew<'s, G>,
    report: &mut Report,
    step: Step,
) -> Option<u64> {
    match step {
        Step::Start(task) => Some(start(rt, station, crew, task)),
        Step::Commit { scan, by } => Some(commit(rt, station, crew, scan, by, report)),
        _ => None,
    }
}

// A press, if the step is one: what it answers.
fn of_panel(desk: &Desk, panels: &mut Vec<PanelPass>, step: Step) -> Option<u64>
    requires { AreAllPanels desk.now panels.old.items }
    ensures { AreAllPanels desk.now panels.new.items }
{
    match step {
        Step::Press { from, panel, to } => {
            if !(1..=desk.floors()).contains(&to) {
                return Some(NOBODY);
            }
            Some(number_of(press(desk, panels, from, panel, to)))
        }
        _ => None,
    }
}

// A step of the collector, if it is one: what it answers.
fn of_collector(desk: &Desk, collector: HandPass, step: Step) -> (HandPass, Option<u64>)
    requires { collector.table ≡ desk.now.table }
    ensures { (result.0.table ≡ collector.table) × (result.0.floors ≡ collector.floors) }
{
    match step {
        Step::Gather(from) => {
            let (collector, answer) = gather(desk, collector, from);
            (collector, Some(answer))
        }
        Step::Show(from) => {
            let (collector, answer) = show(desk, collector, from);
            (collector, Some(answer))
        }
        _ => (collector, None),
    }
}

// A step of the refresher, if it is one: what it answers.
fn of_refresher<G: Naming, R: Wait>(
    rt: &R,
    station: &Station<G>,
    pass: RefreshPass<G>,
    collector: HandPass,
    report: &mut Report,
    step: Step,
) -> (RefreshPass<G>, HandPass, Option<u64>)
    requires floors { collector.floors ≡ (sizes_of G.program.config).floors }
    requires switches { (n : ℕ)
        → opening_switches (sizes_of G.program.config).cars ≡ G.switches n }
    ensures { (result.1.table ≡ collector.table) × (result.1.floors ≡ collector.floors) }
{
    let fields = match step {
        Step::Refresh {
            cars,
            time,
            run_limit,
        } => fields(cars.min(8), time, run_limit, true),
        Step::Leave { time } => fields(1, time, 1, false),
        Step::Drive => {
            let (pass, collector, answer) = drive(rt, station, pass, collector, report);
            return (pass, collector, Some(answer));
        }
        Step::Told(ticket) => {
            let car = station.told(rt, ticket).map_or(0, u64::from);
            return (pass, collector, Some(car));
        }
        Step::Rising => {
            let (pass, count) = rising(rt, station, pass);
            return (pass, collector, Some(count));
        }
        _ => return (pass, collector, None),
    };
    let (pass, collector, answer) = refresh(rt, station, pass, collector, fields, report);
    (pass, collector, Some(answer))
}

// One step, and what it answers.
fn take_step<'s, G: Naming, R: Wait>(
    rt: &R,
    station: &'s Station<G>,
    desk: &Desk,
    crew: &mut Crew<'s, G>,
    panels: &mut Vec<PanelPass>,
    refresher: RefreshPass<G>,
    collector: HandPass,
    report: &mut Report,
    step: Step,
) -> (RefreshPass<G>, HandPass, u64)
    requires table { collector.table ≡ desk.now.table }
    requires floors { collector.floors ≡ (sizes_of G.program.config).floors }
    requires switches { (n : ℕ)
        → opening_switches (sizes_of G.program.config).cars ≡ G.switches n }
    requires panels { AreAllPanels desk.now panels.old.items }
    ensures collector { (result.1.table ≡ collector.table) × (result.1.floors ≡ collector.floors) }
    ensures panels { AreAllPanels desk.now panels.new.items }
{
    let first = of_task(rt, station, crew, report, step);
    let second = of_panel(desk, panels, step);
    let (collector, third) = of_collector(desk, collector, step);
    let (refresher, collector, fourth) = of_refresher(
        rt, station, refresher, collector, report, step,
    );
    let answer = first.or(second).or(third).or(fourth).unwrap_or(NOBODY);
    (refresher, collector, answer)
}

// The passes after the steps, and what the steps answered.
struct Rest<G: Naming> {
    passes: Vec<TaskPass<G>>,
    panels: Vec<PanelPass>,
    refresher: RefreshPass<G>,
    collector: HandPass,
    report: Report,
    answers: Vec<u64>,
}

// The steps of a row, one after the other. An answer that finds no memory is missing.
fn steps<'s, G: Naming, R: Wait>(
    rt: &R,
    alloc: Global,
    station: &'s Station<G>,
    desk: &Desk,
    passes: Vec<TaskPass<G>>,
    panels: Vec<PanelPass>,
    refresher: RefreshPass<G>,
    collector: HandPass,
    row: &[Step],
) -> Rest<G>
    requires table { collector.table ≡ desk.now.table }
    requires floors { collector.floors ≡ (sizes_of G.program.config).floors }
    requires switches { (n : ℕ)
        → opening_switches (sizes_of G.program.config).cars ≡ G.switches n }
    requires panels { AreAllPanels desk.now panels.items }
    ensures table { result.collector.table ≡ desk.now.table }
    ensures panels { AreAllPanels desk.now result.panels.items }
{
    let mut crew = Crew {
        passes,
        runs: Vec::new(alloc),
    };
    let mut panels = panels;
    let mut refresher = refresher;
    let mut collector = collector;
    let mut report = Report::new();
    let mut answers = Vec::new(alloc);
    'steps: for one in row {
        let (refresh_pass, hand_pass, answer) = take_step(
            rt,
            station,
            desk,
            &mut crew,
            &mut panels,
            refresher,
            collector,
            &mut report,
            *one,
        );
        refresher = refresh_pass;
        collector = hand_pass;
        let _ = answers.push(answer);
    }
    let Crew { passes, .. } = crew;
    Rest {
        passes,
        panels,
        refresher,
        collector,
        report,
        answers,
    }
}

// Closes a station and its desk: what the steps left.
fn closed<G: Naming>(station: Station<G>, desk: Desk, rest: Rest<G>) -> Played
    requires table { rest.collector.table ≡ desk.table }
    requires panels { AreAllPanels desk rest.panels.items }
{
    let Rest {
        passes,
        panels,
        refresher,
        collector,
        report,
        answers,
    } = rest;
    let desk = desk.close(panels, collector);
    let Closed { verified, book } = station.close(passes, refresher);
    let globals = [book.global(&verified, "G"), book.global(&verified, "H")];
    verified.release();
    Played {
        answers,
        report,
        outputs: book.copied_image().outputs,
        slot: book.slots().as_slice().first().copied(),
        journal: book.into_journal(),
        globals,
        desk,
    }
}

// Takes the steps of a row on the station of a program, with room for so many entries, and closes it and its desk.
fn play_in<G: Naming, R: Wait>(
    rt: &R,
    alloc: Global,
    blanks: Blanks,
    verified: Verified,
    capacity: usize,
    opened: (Desk, Vec<PanelPass>, HandPass),
    row: &[Step],
) -> Result<Played, Refusal>
    requires program { verified ≡ G.program }
    requires names { (i : ℕ) → slice_index_or blanks.ledgers i 0 ≡ G.names i }
    requires tally { blanks.tally ≡ G.tally }
    requires table { opened.2.table ≡ opened.0.table }
    requires floors { opened.2.floors ≡ (sizes_of G.program.config).floors }
    requires switches { (n : ℕ)
        → opening_switches (sizes_of G.program.config).cars ≡ G.switches n }
    requires panels { AreAllPanels opened.0 opened.1.items }
{
    let (desk, panels, collector) = opened;
    match Station::<G>::new(alloc, blanks, verified, capacity) {
        Ok((station, passes, refresher)) => {
            let rest = steps(
                rt, alloc, &station, &desk, passes, panels, refresher, collector, row,
            );
            Ok(closed(station, desk, rest))
        }
        Err(refusal) => {
            let _closed = desk.close(panels, collector);
            Err(refusal)
        }
    }
}

// A desk with so many panels on each floor, and its passes.
fn desk_of(
    alloc: Global,
    sizes: Sizes,
    panels: u8,
) -> Result<(Desk, Vec<PanelPass>, HandPass), AllocError>
    requires floors { (2 ≤ sizes.floors) × (sizes.floors ≤ 16) }
    requires panels { (1 ≤ panels) × (panels ≤ 4) }
    ensures table { IfOk result (λ o. o.2.table ≡ o.0.table) }
    ensures floors { IfOk result (λ o. o.2.floors ≡ sizes.floors) }
    ensures panels { IfOk result (λ o. AreAllPanels o.0 o.1.items) }
{
    match Desk::new(alloc, sizes.floors, panels) {
        Ok(opened) => Ok(opened),
        Err(_) => Err(AllocError),
    }
}

// Takes the steps of a row on the station of a program and a desk.
fn play_on<R: Wait>(
    rt: &R,
    alloc: Global,
    verified: Verified,
    capacity: usize,
    panels: u8,
    row: &[Step],
) -> Result<Played, Refusal>
    requires { (1 ≤ panels) × (panels ≤ 4) }
{
    let _config = verified.config();
    let sizes = verified.sizes();
    let Ok(blanks) = Blanks::new(alloc) else {
        verified.release();
        return Err(Refusal::Memory);
    };
    match desk_of(alloc, sizes, panels) {
        Ok(opened) => { play_in::<Brand, R>(rt, alloc, blanks, verified, capacity, opened, row) }
        Err(_) => {
            verified.release();
            Err(Refusal::Memory)
        }
    }
}

/// Takes the steps of a row on the station of a text, with so many panels on each floor of its desk and room for so many entries.
pub fn play<R: Wait>(
    rt: &R,
    alloc: Global,
    text: &[u8],
    capacity: usize,
    panels: u8,
    row: &[Step],
) -> Result<Played, Refusal>
    requires { (1 ≤ panels) × (panels ≤ 4) }
{
    play_on(rt, alloc, load(alloc, text)?, capacity, panels, row)
}
