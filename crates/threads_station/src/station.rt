// The station.

ghost use Rattle.std.specs.Prelude.{◌≡◌, ◌≤◌, ◌↔◌, ◌%◌, ◌+◌, ◌∷◌, [], false, All, length, map, filter, slice_index_or, Some, Ok, Err, IfOk, IfErr, IfSome, OnOk, OnErr, ◌++◌, ℕ};
ghost use Rattle.il_syntax.specs.declared.fault.Refusal.TheVariants.{Memory};
ghost use Rattle.scan_task.specs.Scanning.{HasTask};
ghost use Rattle.scan_task.specs.Standing.{IsOf};
ghost use Rattle.group_spec.specs.Image.{sizes_of, fields_in_range, Obeys};
ghost use Rattle.group_spec.specs.Plant.{PlantState, IsPlantOf};
ghost use Rattle.group_journal.specs.Journal.{calls_entered, entries_by, refresher};
ghost use Rattle.group_journal.specs.Driven.{IsDrivenJournal, first_plant};
ghost use Rattle.group_journal.specs.Pages.{Kept, IsSnapped, IsShown, IsTold};
ghost use Rattle.group_journal.specs.declared.fault.StationFault.TheVariants.{FieldOutOfRange, JournalFull, NotOpen, AlreadyOpen};
ghost use Rattle.threads_book.specs.Ledgers.{fault_of, fault_in};
ghost use Rattle.threads_desk.specs.Account.{times, membership};
ghost use Rattle.group_spec.specs.declared.calls.Call.{Call};
ghost use Rattle.threads_station.specs.Passes.{task_of, count_of, counts_one, is_task, all_tasks};
ghost use Rattle.threads_station.specs.Counted.{IsNoneOrFull, calls_in, IsCommitted, IsTurned, IsRefreshed, IsDrivenOn};

use crate::actor::{Blanks, Books, Naming, RefreshPass, TaskShare};
use crate::locked::Locked;
use crate::ours::Ours;
use crate::passes::TaskPass;
use group_journal::fault::StationFault;
use group_plant::plant::Plant;
use group_plant::switches::Switches;
use group_spec::report::Report;
use group_spec::{Fields, Image, MOST_CARS};
use il_syntax::fault::Refusal;
use scan_task::{OpenScan, Scanned, Store, Verified, scan};
use std::alloc::{AllocError, Global};
use std::marker::{Model, PhantomData};
use std::sync::{Mutex, Wait};
use threads_book::Book;
use threads_desk::HandPass;

// The program of the station. Contracts see it as the program.
struct Mine<G: Naming> {
    verified: Verified,
    of: PhantomData<G>,
}

impl<G: Naming> Model for Mine<G> {
    ghost use Rattle.std.specs.Prelude.{◌≡◌};
    ghost use Rattle.scan_task.specs.Scanning.{Program, verified_code};

    ghost Value = { Program };

    ghost coded = { verified_code };

    ghost view = { λ m. m.verified };

    ghost invariant = { λ m. m.verified ≡ G.program };
}

impl<G: Naming> Mine<G> {
    fn program(&self) -> &Verified
        ensures { result.now ≡ G.program }
    {
        &self.verified
    }

    fn into_verified(self) -> Verified
        ensures { result ≡ G.program }
    {
        let Mine { verified, of: _of } = self;
        verified
    }
}

// Whether the group has a task of this number.
fn is_task(verified: &Verified, task: u8) -> bool
    requires { task ≤ MOST_CARS }
    ensures { result ≡ is_task verified.now.config task }
{
    task <= verified.sizes().cars && verified.has_task(task)
}

// The pass of a task that the program has.
fn pass_of<G: Naming>(
    alloc: Global,
    verified: &Verified,
    share: TaskShare<G>,
) -> Result<TaskPass<G>, AllocError>
    requires program { verified.now ≡ G.program }
    requires there { HasTask G.program.config (task_of share) }
    requires new { count_of share ≡ 0 }
    ensures { IfOk result (λ p. p ≡ record { task = task_of share; count = 0 }) }
{
    let store = Store::new(alloc, verified, share.task())?;
    Ok(TaskPass {
        share,
        store: Some(store),
    })
}

// The passes of those tasks that the program has.
fn passes_of<G: Naming>(
    alloc: Global,
    verified: &Verified,
    shares: Vec<TaskShare<G>>,
) -> Result<Vec<TaskPass<G>>, AllocError>
    requires program { verified.now ≡ G.program }
    requires new { All (λ s. count_of s ≡ 0) shares.items }
    ensures tasks { IfOk result (λ ps. map (λ p. p.task) ps.items
        ≡ filter (is_task G.program.config) (map task_of shares.items)) }
    ensures counts { IfOk result (λ ps. All (λ p. p.count ≡ 0) ps.items) }
{
    let mut passes = Vec::new(alloc);
    for share in shares {
        add_pass(alloc, verified, share, &mut passes)?;
    }
    Ok(passes)
}

// Adds the pass of a task, if the program has it.
fn add_pass<G: Naming>(
    alloc: Global,
    verified: &Verified,
    share: TaskShare<G>,
    passes: &mut Vec<TaskPass<G>>,
) -> Result<(), AllocError>
    requires program { verified.now ≡ G.program }
    requires new { count_of share ≡ 0 }
    ensures tasks { OnOk result
        (map (λ p. p.task) passes.new.items
        ≡ map (λ p. p.task) passes.old.items
        ++ filter (is_task G.program.config) (task_of share ∷ [])) }
    ensures counts { All (λ p. p.count ≡ 0) passes.old.items
        → OnOk result (All (λ p. p.count ≡ 0) passes.new.items) }
{
    if !is_task(verified, share.task()) {
        return Ok(());
    }
    passes.push(pass_of(alloc, verified, share)?)?;
    Ok(())
}

// The plant of the group as it opens.
fn plant_of(verified: &Verified) -> Plant
    ensures opens { result ≡ first_plant verified.now.config }
    ensures sized { IsPlantOf (sizes_of verified.now.config) result }
{
    let _config = verified.config();
    let sizes = verified.sizes();
    Plant::new(sizes.cars, sizes.floors)
}

// What lies under the lock at the start, and the passes.
fn opened<G: Naming>(
    alloc: Global,
    blanks: Blanks,
    verified: &Verified,
    capacity: usize,
) -> Result<(Locked<G>, Vec<TaskPass<G>>, RefreshPass<G>), AllocError>
    requires program { verified.now ≡ G.program }
    requires names { (i : ℕ) → slice_index_or blanks.ledgers i 0 ≡ G.names i }
    requires tally { blanks.tally ≡ G.tally }
    ensures tasks { IfOk result
        (λ r. map (λ p. p.task) r.1.items ≡ filter (is_task G.program.config) all_tasks) }
    ensures counts { IfOk result (λ r. All (λ p. p.count ≡ 0) r.1.items) }
    ensures refreshes { IfOk result
        (λ r. r.2 ≡ record { refreshes = 0; entered = []; driven = 0 }) }
{
    let Books {
        counts,
        entered,
        shares,
        refresher,
    } = blanks.open::<G>(alloc)?;
    let tasks = passes_of(alloc, verified, shares)?;
    let book = Book::new(alloc, verified, capacity)?;
    Ok((
        Locked::of(book, counts, plant_of(verified), entered),
        tasks,
        refresher,
    ))
}

/// The station: a program, and a book under a lock. It is given up by `close` or `release`.
pub struct Station<G: Naming> {
    program: Mine<G>,
    book: Mutex<Locked<G>>,
}

/// What a closed station leaves: the program, and the book with its journal, image, call slots and globals. Each is given up by its `release`.
pub struct Closed {
    pub verified: Verified,
    pub book: Book,
}

/// What a turn answers: the next scan, or why it didn't begin; or why the scan was not committed, and the scan.
pub type Turned<'v, G> = Result<Result<OpenScan, StationFault>, (StationFault, Ours<'v, G>)>;

impl<G: Naming> Station<G> {
    /// A station of a program, with room for so many entries in its journal: the passes of its tasks, and the refresher's.
    pub fn new(
        alloc: Global,
        blanks: Blanks,
        verified: Verified,
        capacity: usize,
    ) -> Result<(Station<G>, Vec<TaskPass<G>>, RefreshPass<G>), Refusal>
        requires program { verified ≡ G.program }
        requires names { (i : ℕ) → slice_index_or blanks.ledgers i 0 ≡ G.names i }
        requires tally { blanks.tally ≡ G.tally }
        ensures tasks { IfOk result
            (λ r. map (λ p. p.task) r.1.items ≡ filter (is_task G.program.config) all_tasks) }
        ensures counts { IfOk result (λ r. All (λ p. p.count ≡ 0) r.1.items) }
        ensures refreshes { IfOk result
            (λ r. r.2 ≡ record { refreshes = 0; entered = []; driven = 0 }) }
        ensures memory { IfErr result (λ e. e ≡ Memory) }
    {
        let opened = opened::<G>(alloc, blanks, &verified, capacity);
        match opened {
            Ok((locked, tasks, refresher)) => {
                let station = Station {
                    program: Mine {
                        verified,
                        of: PhantomData,
                    },
                    book: Mutex::new(locked),
                };
                Ok((station, tasks, refresher))
            }
            Err(_) => {
                verified.release();
                Err(Refusal::Memory)
            }
        }
    }

    /// The program.
    pub fn verified(&self) -> &Verified
        ensures { result.now ≡ G.program }
    {
        self.program.program()
    }

    /// Start: a scan of the pass's task begins. It waits for the lock.
    pub fn start(
        &self,
        rt: &impl Wait,
        pass: TaskPass<G>,
    ) -> (TaskPass<G>, Result<OpenScan, StationFault>)
        ensures odd { pass.count % 2 ≡ 1 → result.1 ≡ Err AlreadyOpen }
        ensures even { pass.count % 2 ≡ 0 → IsNoneOrFull (fault_in result.1) }
        ensures done { OnOk result.1 (result.0 ≡ counts_one pass) }
        ensures begins { IfOk result.1 (λ o. IsOf G.program.config pass.task o
            × IsSnapped G.program.config pass.task pass.count o.state) }
        ensures refused { OnErr result.1 (result.0 ≡ pass) }
    {
        pass.task();
        let (mut share, store) = pass.into_parts();
        let Some(store) = store else {
            return (
                TaskPass { share, store: None },
                Err(StationFault::AlreadyOpen),
            );
        };
        let answer = self
            .book
            .lock(rt)
            .start(self.program.program(), &mut share, store);
        match answer {
            Ok(open) => (TaskPass { share, store: None }, Ok(open)),
            Err((fault, store)) => (
                TaskPass {
                    share,
                    store: Some(store),
                },
                Err(fault),
            ),
        }
    }

    /// Runs a scan of the program from its start to its end (IEC 61131-3:2003, 3.2). It waits for no lock.
    pub fn scan(&self, begun: OpenScan) -> Ours<'_, G>
        requires { begun.config ≡ G.program.config }
        ensures program { result.config ≡ begun.config }
        ensures task { result.task ≡ begun.task }
        ensures first { result.first ≡ begun.state }
    {
        Ours::of(scan(self.program.program(), begun))
    }

    /// Commit: the pass's scan, which was run, hands over what it left. The scan's program is compared first; then it waits for the lock.
    pub fn commit<'v>(
        &self,
        rt: &impl Wait,
        pass: TaskPass<G>,
        scanned: Scanned<'v>,
        report: &mut Report,
    ) -> (TaskPass<G>, Result<(), (StationFault, Scanned<'v>)>)
        ensures even { pass.count % 2 ≡ 0 → fault_of result.1 ≡ Some NotOpen }
        ensures done { OnOk result.1 (result.0 ≡ counts_one pass) }
        ensures report { OnOk result.1
            (IsCommitted G.program.config pass.task pass.count scanned.entry report.new) }
        ensures refused { IfErr result.1
            (λ r. (result.0 ≡ pass) × (report.new ≡ report.old) × (r.1 ≡ scanned.entry)) }
    {
        if !scanned.is_of(self.program.program()) {
            return (pass, Err((StationFault::NotOpen, scanned)));
        }
        let (pass, answer) = self.commit_ours(rt, pass, Ours::of(scanned), report);
        match answer {
            Ok(()) => (pass, Ok(())),
            Err((fault, ours)) => (pass, Err((fault, ours.into_scanned()))),
        }
    }

    /// Commit of a scan of the station's own program, which is not compared again. It waits for the lock.
    pub fn commit_ours<'v>(
        &self,
        rt: &impl Wait,
        pass: TaskPass<G>,
        ours: Ours<'v, G>,
        report: &mut Report,
    ) -> (TaskPass<G>, Result<(), (StationFault, Ours<'v, G>)>)
        ensures even { pass.count % 2 ≡ 0 → fault_of result.1 ≡ Some NotOpen }
        ensures done { OnOk result.1 (result.0 ≡ counts_one pass) }
        ensures report { OnOk result.1
            (IsCommitted G.program.config pass.task pass.count ours.entry report.new) }
        ensures refused { IfErr result.1
            (λ r. (result.0 ≡ pass) × (report.new ≡ report.old) × (r.1 ≡ ours.entry)) }
    {
        pass.task();
        let scanned = ours.into_scanned();
        let (mut share, store) = pass.into_parts();
        let answer = self
            .book
            .lock(rt)
            .commit(self.program.program(), &mut share, scanned, report);
        match answer {
            Ok(left) => (
                TaskPass {
                    share,
                    store: Some(left),
                },
                Ok(()),
            ),
            Err((fault, scanned)) => (TaskPass { share, store }, Err((fault, Ours::of(scanned)))),
        }
    }

    /// Turn: a commit of a scan of the station's own program, and right after it a start of the task's next scan, under one lock. Where the
    /// commit is refused there is no start; where the start is refused, the scan is committed. It waits for the lock.
    pub fn turn<'v>(
        &self,
        rt: &impl Wait,
        pass: TaskPass<G>,
        ours: Ours<'v, G>,
        report: &mut Report,
    ) -> (TaskPass<G>, Turned<'v, G>)
        ensures even { pass.count % 2 ≡ 0 → fault_of result.1 ≡ Some NotOpen }
        ensures next { IfOk result.1 (λ next. IsNoneOrFull (fault_in next)) }
        ensures done { IfOk result.1 (λ next. OnOk next (result.0 ≡ counts_one (counts_one pass))
            × OnErr next (result.0 ≡ counts_one pass)) }
        ensures turned { IfOk result.1 (λ next.
            IsTurned G.program.config pass.task pass.count ours.entry report.new next) }
        ensures begins { IfOk result.1 (λ next. IfOk next (λ o.
            IsSnapped G.program.config pass.task (pass.count + 1) o.state)) }
        ensures refused { IfErr result.1
            (λ r. (result.0 ≡ pass) × (report.new ≡ report.old) × (r.1 ≡ ours.entry)) }
    {
        pass.task();
        let scanned = ours.into_scanned();
        let (mut share, store) = pass.into_parts();
        let answer = self
            .book
            .lock(rt)
            .turn(self.program.program(), &mut share, scanned, report);
        match answer {
            Ok((store, next)) => (TaskPass { share, store }, Ok(next)),
            Err((fault, scanned)) => (TaskPass { share, store }, Err((fault, Ours::of(scanned)))),
        }
    }

    /// Refresh: the image takes the fields, and the first calls of the hand enter. It waits for the lock.
    pub fn refresh(
        &self,
        rt: &impl Wait,
        pass: RefreshPass<G>,
        fields: Fields,
        collector: HandPass,
        report: &mut Report,
    ) -> (RefreshPass<G>, HandPass, Result<(), StationFault>)
        requires { collector.floors ≡ (sizes_of G.program.config).floors }
        ensures out_of_range { (fields_in_range (sizes_of G.program.config) fields ≡ false)
            ↔ (result.2 ≡ Err FieldOutOfRange) }
        ensures pass { OnOk result.2
            (result.0
            ≡ record {
              refreshes = pass.refreshes + 1;
              entered = pass.entered ++ calls_in report.new;
              driven = pass.driven;
            }) }
        ensures report { OnOk result.2
            (IsRefreshed G.program.config pass.refreshes pass.entered fields collector.hand
            report.new) }
        ensures hand { OnOk result.2 (collector.hand ≡ calls_in report.new ++ result.1.hand) }
        ensures left { OnOk result.2
            ((c : Call)
            → times c (calls_in report.new) + membership result.1.hand c
            ≡ membership collector.hand c) }
        ensures rest { result.1 ≡ record collector { hand = result.1.hand } }
        ensures refused { OnErr result.2
            ((result.0 ≡ pass) × (result.1 ≡ collector) × (report.new ≡ report.old)) }
    {
        let mut pass = pass;
        let mut collector = collector;
        let mut hand = collector.hand();
        let answer = self.book.lock(rt).refresh(
            self.program.program(),
            &mut pass,
            fields,
            &mut hand,
            report,
        );
        collector.keep(hand);
        (pass, collector, answer)
    }

    /// Refresh by the plant: it goes one step under the outputs of the image, as it is set, and the image takes what it then reports; the
    /// first calls of the hand enter. It waits for the lock.
    pub fn drive(
        &self,
        rt: &impl Wait,
        pass: RefreshPass<G>,
        switches: Switches,
        collector: HandPass,
        report: &mut Report,
    ) -> (RefreshPass<G>, HandPass, Result<(), StationFault>)
        requires floors { collector.floors ≡ (sizes_of G.program.config).floors }
        requires switches { switches ≡ G.switches (pass.refreshes + 1) }
        requires limit { switches.run_limit ≤ (sizes_of G.program.config).cars }
        ensures full { IsNoneOrFull (fault_in result.2) }
        ensures pass { OnOk result.2
            (result.0
            ≡ record {
              refreshes = pass.refreshes + 1;
              entered = pass.entered ++ calls_in report.new;
              driven = pass.driven + 1;
            }) }
        ensures report { OnOk result.2
            (IsDrivenOn G.program.config pass.refreshes pass.entered switches collector.hand
            report.new) }
        ensures hand { OnOk result.2 (collector.hand ≡ calls_in report.new ++ result.1.hand) }
        ensures left { OnOk result.2
            ((c : Call)
            → times c (calls_in report.new) + membership result.1.hand c
            ≡ membership collector.hand c) }
        ensures rest { result.1 ≡ record collector { hand = result.1.hand } }
        ensures refused { OnErr result.2
            ((result.0 ≡ pass) × (result.1 ≡ collector) × (report.new ≡ report.old)) }
    {
        let mut pass = pass;
        let mut collector = collector;
        let mut called = collector.hand();
        let answer = self.book.lock(rt).drive(
            self.program.program(),
            &mut pass,
            switches,
            &mut called,
            report,
        );
        collector.keep(called);
        (pass, collector, answer)
    }

    /// The car to which a slot is told under a ticket, if there is one. It waits for the lock.
    pub fn told(&self, rt: &impl Wait, ticket: u64) -> Option<u8>
        ensures { IfSome result (λ car. IsTold G.program.config ticket car) }
    {
        self.book.lock(rt).told(ticket)
    }

    /// The image's fields and outputs, for the refresher. It waits for the lock.
    pub fn outputs(&self, rt: &impl Wait, pass: RefreshPass<G>) -> (RefreshPass<G>, Image)
        ensures same { result.0 ≡ pass }
        ensures shown { IsShown G.program.config pass.refreshes result.1.fields result.1.outputs }
        ensures obeys { Obeys result.1 }
        ensures sized { length result.1.outputs ≡ (sizes_of G.program.config).cars }
    {
        let mut pass = pass;
        let image = self.book.lock(rt).image(&mut pass);
        (pass, image)
    }

    /// Gives up the station.
    pub fn release(self) {
        let Station { program, book } = self;
        program.into_verified().release();
        book.into_inner().into_book().release();
    }

    /// The program and the book at the end: the journal runs to the book's image, holds as many entries as the passes count, and entered the
    /// calls that the refresher's pass knows. Where all refreshes came from the plant, the journal is driven by it.
    pub fn close(self, tasks: Vec<TaskPass<G>>, pass: RefreshPass<G>) -> Closed
        ensures verified { result.verified ≡ G.program }
        ensures program { result.book.config ≡ G.program.config }
        ensures kept { Kept result.book }
        ensures tasks { All (λ p. p.count ≡ entries_by p.task result.book.journal) tasks.items }
        ensures refreshes { pass.refreshes ≡ entries_by refresher result.book.journal }
        ensures entered { pass.entered ≡ calls_entered result.book.journal }
        ensures driven { pass.driven ≡ pass.refreshes
            → (plant : PlantState)
            × IsDrivenJournal G.program.config G.switches result.book.journal plant
            result.book.world }
    {
        let Station { program, book } = self;
        let mut locked = book.into_inner();
        let mut pass = pass;
        locked.audit_refreshes(&mut pass);
        for task in tasks {
            locked.take_in(task);
        }
        Closed {
            verified: program.into_verified(),
            book: locked.into_book(),
        }
    }
}
