// The workers of tasks.

ghost use Rattle.std.specs.Prelude.{◌≡◌, ◌+◌, ◌++◌, ◌∷◌, [], All, map, IfOk, OnOk};

use crate::fault::RunFault;
use crate::gate::Gate;
use group_journal::fault::StationFault;
use group_spec::report::Report;
use scan_task::OpenScan;
use std::alloc::{AllocError, Global};
use std::marker::Model;
use std::sync::Wait;
use std::thread::{Promise, PromisedHandle, Scope, Threads};
use threads_station::{Naming, Station, TaskPass};

/// The task of a worker, and how many rounds it does.
#[derive(Clone, Copy, Drop)]
pub struct TaskRounds {
    pub task: u8,
    pub rounds: u16,
}

impl<G: Naming> Promise<Result<TaskPass<G>, StationFault>> for TaskRounds {
    ghost use Rattle.std.specs.Prelude.{◌≡◌, ◌+◌, IfOk};

    ghost kept_by = { λ p r. IfOk r (λ pass. (pass.task ≡ p.task) × (pass.count ≡ p.rounds + p.rounds)) };
}

/// The handle of a task's worker.
pub type TaskHandle<G> = PromisedHandle<Result<TaskPass<G>, StationFault>, TaskRounds>;

// A task's pass, and its scan that has begun. Contracts see it as the pass.
#[derive(Drop)]
struct Begun<G: Naming> {
    pass: TaskPass<G>,
    scan: OpenScan,
}

impl<G: Naming> Model for Begun<G> {
    ghost use Rattle.std.specs.Prelude.{◌≡◌};
    ghost use Rattle.threads_station.specs.Passes.{TaskCount, task_count_code};

    ghost Value = { TaskCount };

    ghost coded = { task_count_code };

    ghost view = { λ b. b.pass };

    ghost invariant = { λ b. b.scan.config ≡ G.program.config };
}

// A task's scan of a round begins, once its gate lets it.
fn begin<G: Naming, T: Gate, R: Wait>(
    rt: &R,
    station: &Station<G>,
    gate: &T,
    pass: TaskPass<G>,
    round: u16,
) -> Result<Begun<G>, StationFault>
    ensures { IfOk result (λ b. (b.task ≡ pass.task) × (b.count ≡ pass.count + 1)) }
{
    let task = pass.task();
    gate.begins(rt, task, round);
    let (pass, scan) = station.start(rt, pass);
    let scan = scan?;
    gate.started(rt, task);
    Ok(Begun { pass, scan })
}

// A scan that has begun runs to its end, and is committed.
fn end<G: Naming, T: Gate, R: Wait>(
    rt: &R,
    station: &Station<G>,
    gate: &T,
    begun: Begun<G>,
    report: &mut Report,
) -> Result<TaskPass<G>, StationFault>
    ensures { IfOk result (λ p. (p.task ≡ begun.task) × (p.count ≡ begun.count + 1)) }
{
    let Begun { pass, scan } = begun;
    let task = pass.task();
    let (pass, committed) = station.commit_ours(rt, pass, station.scan(scan), report);
    if let Err((fault, _ours)) = committed {
        return Err(fault);
    }
    gate.committed(rt, task);
    Ok(pass)
}

// A scan that has begun runs to its end and is committed, and the task's scan of the next round begins in the same step.
fn turn<G: Naming, T: Gate, R: Wait>(
    rt: &R,
    station: &Station<G>,
    gate: &T,
    begun: Begun<G>,
    round: u16,
    report: &mut Report,
) -> Result<Begun<G>, StationFault>
    ensures { IfOk result (λ b. (b.task ≡ begun.task) × (b.count ≡ begun.count + 2)) }
{
    let Begun { pass, scan } = begun;
    let task = pass.task();
    gate.begins(rt, task, round);
    let (pass, turned) = station.turn(rt, pass, station.scan(scan), report);
    match turned {
        Ok(Ok(scan)) => {
            gate.committed(rt, task);
            gate.started(rt, task);
            Ok(Begun { pass, scan })
        }
        Ok(Err(fault)) => Err(fault),
        Err((fault, _ours)) => Err(fault),
    }
}

// A scan that has begun is run and committed, and the task's scan of the next round begins.
fn go_on<G: Naming, T: Gate, R: Wait>(
    rt: &R,
    station: &Station<G>,
    gate: &T,
    begun: Begun<G>,
    round: u16,
    report: &mut Report,
) -> Result<Begun<G>, StationFault>
    ensures { IfOk result (λ b. (b.task ≡ begun.task) × (b.count ≡ begun.count + 2)) }
{
    if gate.is_open() {
        return turn(rt, station, gate, begun, round, report);
    }
    let pass = end(rt, station, gate, begun, report)?;
    begin(rt, station, gate, pass, round)
}

// So many rounds of a task.
fn all_rounds<G: Naming, T: Gate, R: Wait>(
    rt: &R,
    station: &Station<G>,
    gate: &T,
    pass: TaskPass<G>,
    rounds: u16,
) -> Result<TaskPass<G>, StationFault>
    ensures { IfOk result (λ p. (p.task ≡ pass.task) × (p.count ≡ pass.count + (rounds + rounds))) }
{
    if rounds == 0 {
        return Ok(pass);
    }
    let mut report = Report::new();
    let mut begun = begin(rt, station, gate, pass, 1)?;
    'rounds: for below in 1..rounds {
        begun = go_on(rt, station, gate, begun, below + 1, &mut report)?;
    }
    end(rt, station, gate, begun, &mut report)
}

/// So many rounds of a task. At a fault it gives up.
pub fn work<G: Naming, T: Gate, R: Wait>(
    rt: &R,
    station: &Station<G>,
    gate: &T,
    pass: TaskPass<G>,
    rounds: u16,
) -> Result<TaskPass<G>, StationFault>
    ensures { IfOk result (λ p. (p.task ≡ pass.task) × (p.count ≡ pass.count + (rounds + rounds))) }
{
    let done = all_rounds(rt, station, gate, pass, rounds);
    if done.is_err() {
        gate.gives_up(rt);
    }
    done
}

// Starts the worker of a task.
fn start<'s, E, G: Naming + Send + Sync, T: Gate + Sync, R: Threads + Wait + Sync>(
    scope: &Scope<'s, E>,
    rt: &'s R,
    station: &'s Station<G>,
    gate: &'s T,
    pass: TaskPass<G>,
    rounds: u16,
) -> Result<TaskHandle<G>, AllocError>
    requires new { pass.count ≡ 0 }
    ensures { IfOk result (λ h. (h.promise.task ≡ pass.task) × (h.promise.rounds ≡ rounds)) }
{
    let task = pass.task();
    let job = move || -> Result<TaskPass<G>, StationFault>
        ensures { IfOk result (λ p. (p.task ≡ pass.task)
            × (p.count ≡ pass.count + (rounds + rounds))) }
    { work(rt, station, gate, pass, rounds) };
    Ok(scope.spawn_with(TaskRounds { task, rounds }, job)?)
}

// Adds an item at the end.
fn add<T: Drop>(items: &mut Vec<T>, item: T) -> Result<(), AllocError>
    ensures { OnOk result (items.new.items ≡ items.old.items ++ item ∷ []) }
{
    Ok(items.push(item)?)
}

/// Starts a worker for each pass.
pub fn start_all<'s, E, G: Naming + Send + Sync, T: Gate + Sync, R: Threads + Wait + Sync>(
    scope: &Scope<'s, E>,
    rt: &'s R,
    alloc: Global,
    station: &'s Station<G>,
    gate: &'s T,
    passes: Vec<TaskPass<G>>,
    rounds: u16,
) -> Result<Vec<TaskHandle<G>>, AllocError>
    requires new { All (λ p. p.count ≡ 0) passes.items }
    ensures tasks { IfOk result (λ hs. map (λ h. h.promise.task) hs.items
        ≡ map (λ p. p.task) passes.items) }
    ensures rounds { IfOk result (λ hs. All (λ h. h.promise.rounds ≡ rounds) hs.items) }
{
    let mut started = Vec::new(alloc);
    'passes: for pass in passes {
        let handle = start(scope, rt, station, gate, pass, rounds)?;
        add(&mut started, handle)?;
    }
    Ok(started)
}

/// Joins the workers: their passes.
pub fn join_all<G: Naming, R: Threads>(
    rt: &R,
    alloc: Global,
    started: Vec<TaskHandle<G>>,
    rounds: u16,
) -> Result<Vec<TaskPass<G>>, RunFault>
    requires rounds { All (λ h. h.promise.rounds ≡ rounds) started.items }
    ensures tasks { IfOk result (λ ps. map (λ p. p.task) ps.items
        ≡ map (λ h. h.promise.task) started.items) }
    ensures counts { IfOk result (λ ps. All (λ p. p.count ≡ rounds + rounds) ps.items) }
{
    let mut passes = Vec::new(alloc);
    'started: for handle in started {
        let pass = handle.join(rt)?;
        add(&mut passes, pass)?;
    }
    Ok(passes)
}
