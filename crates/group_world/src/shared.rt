// What the tasks share, by its rows, and what a commit does to them.

ghost use Rattle.std.specs.Prelude.{◌≡◌, ℕ, suc, ◌≤◌, [], List, Option, length, map, slice_get, Some, None, IfOk, IsSome, option_copied};
ghost use Rattle.group_world.specs.declared.shared.TaskMemory.{TaskMemory as MemoryOf};
ghost use Rattle.scan_task.specs.Scanning.{FitsOwn};
ghost use Rattle.scan_task.specs.Standing.{IsOf};
ghost use Rattle.group_spec.specs.Image.{sizes_of};
ghost use Rattle.group_spec.specs.Calls.{ticket_of};
ghost use Rattle.group_spec.specs.Settle.{settled_car, settled_all, with_outputs};
ghost use Rattle.group_spec.specs.Snapshot.{program_of, wishes_of, written_globals};
ghost use Rattle.group_spec.specs.World.{InRanges, flat, opening_task, opening_tasks_from, opening_group};
ghost use Rattle.group_world.specs.Running.{memory_at, task_by, tasks_in, group_in, FitDeclared, SharedFits, with_memory, HasOpenScan, Commits, CommitsUnder, ClosesWith, ClosesAmong, TellsTo, CommitsTold, settled_report, wished_ticket};
ghost use Rattle.group_world.specs.Setting.{SetsMemory, SetsAmong};
ghost use Rattle.scan_task.specs.Sharing.{globals_in};

use crate::calling::{clear, report_denials, serve, tell_all, tell_all_now, ticket_in};
use crate::taking::{take_fields, take_outputs};
use crate::tickets::Tickets;
use group_calls::book::CallBook;
use group_interlock::{replace, settle_car, settle_each};
use group_spec::image::Wishes;
use group_spec::report::{Answered, Report};
use group_spec::{Bounded, Fields, Image, MOST_CARS, Motor, SLOT_PLACES};
use scan_task::{FirstRows, Rows, Store, Unset, Value, Verified, opening_image, set_variable};
use std::alloc::{AllocError, Global};

/// What a task keeps: its variables as its last commit left them, and the tickets of the call slots that its open scan saw, if it has one.
#[derive(Drop)]
pub struct TaskMemory {
    pub variables: Rows,
    pub tickets: Tickets,
}

/// What the tasks of a group share, and what each keeps: GROUP first, then CAR1 and so on; none where the group has no such task.
pub struct Shared {
    pub image: Image,
    pub calls: CallBook,
    pub globals: Rows,
    pub memories: Vec<Option<TaskMemory>>,
}

// Written by hand, since who drops a type whose drop is derived proves the drop of each type inside again.
impl Drop for Shared {
    fn drop(self) {
        let Shared {
            image: _image,
            calls: _calls,
            globals: _globals,
            memories: _memories,
        } = self;
    }
}

// Rows of their own with these values.
fn copied(alloc: Global, first: &FirstRows) -> Result<Rows, AllocError>
    ensures { IfOk result (λ r. r ≡ first.now) }
{
    Rows::of(alloc, first.numbers(), first.flags())
}

// A task as it opens, if the group has it.
fn opening_memory(
    alloc: Global,
    verified: &Verified,
    task: u8,
) -> Result<Option<TaskMemory>, AllocError>
    requires { task ≤ (sizes_of verified.now.config).cars }
    ensures task { IfOk result (λ s. task_by verified.now.config task s
        ≡ opening_task verified.now.config (program_of verified.now.config task)) }
    ensures fits { IfOk result
        (λ o. (s : MemoryOf) → o ≡ Some s → FitDeclared verified.now.config task s.variables) }
{
    let _config = verified.config();
    if !verified.has_task(task) {
        return Ok(None);
    }
    let variables = copied(alloc, verified.opening_variables(task))?;
    Ok(Some(TaskMemory {
        variables,
        tickets: Tickets::none(),
    }))
}

// The tasks as they open: GROUP, and then the cars'.
fn opening_memories(
    alloc: Global,
    verified: &Verified,
    cars: u8,
) -> Result<Vec<Option<TaskMemory>>, AllocError>
    requires few { cars ≤ MOST_CARS }
    requires all { cars ≡ (sizes_of verified.now.config).cars }
    ensures tasks { IfOk result (λ ss. tasks_in verified.now.config 0 ss.items
        ≡ opening_tasks_from verified.now.config 0 (suc cars)) }
    ensures fits { IfOk result (λ ss. (t : ℕ) (s : MemoryOf) → flat (slice_get ss.items t) ≡ Some s
        → FitDeclared verified.now.config t s.variables) }
{
    let mut memories = Vec::new(alloc);
    for task in 0..cars + 1 {
        memories.push(opening_memory(alloc, verified, task)?)?;
    }
    Ok(memories)
}

// Gives a variable of a task another value of its declared set. Otherwise nothing changes.
fn set_memory(
    memory: &mut Option<TaskMemory>,
    verified: &Verified,
    task: u8,
    path: &str,
    value: Value,
) -> Result<(), Unset>
    requires there { IsSome memory.old }
    requires variables { (s : MemoryOf) → memory.old ≡ Some s
        → FitDeclared verified.now.config task s.variables }
    ensures { (s : MemoryOf) → memory.old ≡ Some s
        → SetsMemory verified.now.config task s path.now value result memory.new }
{
    match memory {
        Some(memory) => set_variable(&mut memory.variables, verified, task, path, value),
        None => unreachable!(),
    }
}

// The task holds the tickets that the slots have, as its scan begins.
fn open_task(memory: &mut Option<TaskMemory>, calls: &CallBook)
    ensures { (s : MemoryOf) → memory.old ≡ Some s
        → memory.new
        ≡ Some (record {
          variables = s.variables;
          tickets = Some (map ticket_of calls.now.slots);
        }) }
{
    if let Some(memory) = memory {
        memory.tickets.open(calls);
    }
}

// A task between scans, with what its scan left of its variables. Whatever tickets it held, it holds none.
#[inline(always)]
fn close_task(memory: &mut Option<TaskMemory>, verified: &Verified, task: u8, store: &Store)
    requires variables { (s : MemoryOf) → memory.old ≡ Some s
        → FitsOwn verified.now.config task s.variables }
    requires of { IsOf verified.now.config task store.now }
    ensures { (s : MemoryOf) → memory.old ≡ Some s
        → ClosesWith verified.now.config task s store.now.state.values memory.new }
{
    if let Some(memory) = memory {
        store.copy_variables(verified, &mut memory.variables);
        memory.tickets.shut();
    }
}

// The tickets of the slots, as the open scan of a task saw them.
fn saw(memory: &Option<TaskMemory>) -> &[Option<u64>]
    requires { (s : MemoryOf) × (tickets : List (Option ℕ)) × (memory.now ≡ Some s)
        × (s.tickets ≡ Some tickets) }
    ensures { (s : MemoryOf) (tickets : List (Option ℕ)) → memory.now ≡ Some s
        → s.tickets ≡ Some tickets → result.now ≡ tickets }
{
    match memory {
        Some(memory) => memory.tickets.saw(),
        None => unreachable!(),
    }
}

// A car's outputs are settled, and reported.
#[inline(always)]
fn settle(image: &mut Image, car: u8, motor: Motor, opens: bool, report: &mut Report)
    requires car { (1 ≤ car) × (car ≤ length image.old.fields.cars) }
    requires outputs { length image.old.outputs ≡ length image.old.fields.cars }
    ensures image { image.new
        ≡ record {
          fields = image.old.fields;
          outputs = with_outputs image.old.outputs car
              (settled_car image.old car motor opens).outputs;
        } }
    ensures report { report.new ≡ settled_report image.old car motor opens report.old.answers }
{
    let _room = image.outputs.len();
    let settled = settle_car(image, car, motor, opens);
    replace(&mut image.outputs, usize::from(car - 1), settled.outputs);
    take_outputs(&mut report.outputs, &image.outputs);
    report_denials(&mut report.denials, car, settled.denials.as_slice());
    clear(&mut report.entered);
}

// Tells each call to the car that GROUP's scan assigned to its slot, under the tickets that the slots have. Most scans assign none.
#[inline(always)]
fn tell_assigned(
    calls: &mut CallBook,
    verified: &Verified,
    store: &Store,
    answers: &mut Bounded<Answered, SLOT_PLACES>,
)
    requires of { IsOf verified.now.config 0 store.now }
    requires slots { length calls.old.slots ≡ (sizes_of verified.now.config).slots }
    ensures { TellsTo calls.old (map ticket_of calls.old.slots) store.now.state.values calls.new
        answers.new }
{
    if store.assigns_none(verified) {
        clear(answers);
        return;
    }
    let cars = store.assigned(verified);
    tell_all_now(calls, cars.as_slice(), answers);
}

/// The image takes fields of as many cars, and the outputs of all are settled under them, and reported.
#[inline(always)]
pub fn settle_cars(image: &mut Image, fields: &Fields, report: &mut Report)
    requires { length image.old.outputs ≡ length fields.now.cars }
    ensures image { image.new
        ≡ record {
          fields = fields.now;
          outputs = (settled_all image.old.outputs fields.now).outputs;
        } }
    ensures report { report.new
        ≡ record {
          outputs = (settled_all image.old.outputs fields.now).outputs;
          denials = (settled_all image.old.outputs fields.now).denials;
          answers = [];
          entered = report.old.entered;
        } }
{
    settle_each(&mut image.outputs, fields, &mut report.denials);
    take_fields(&mut image.fields, fields);
    take_outputs(&mut report.outputs, &image.outputs);
    clear(&mut report.answers);
}

impl Shared {
    /// What the tasks share as the group opens, and the tasks (own rule).
    pub fn new(alloc: Global, verified: &Verified) -> Result<Shared, AllocError>
        ensures group { IfOk result
            (λ k. group_in verified.now.config k ≡ opening_group verified.now.config) }
        ensures fits { IfOk result (SharedFits verified.now.config) }
    {
        let _config = verified.config();
        let sizes = verified.sizes();
        let globals = copied(alloc, verified.opening_globals())?;
        let memories = opening_memories(alloc, verified, sizes.cars)?;
        Ok(Shared {
            image: opening_image(sizes),
            calls: CallBook::new(sizes),
            globals,
            memories,
        })
    }

    /// The task of a number, if the group has it.
    pub fn memory(&self, task: u8) -> Option<&TaskMemory>
        ensures { option_copied result ≡ memory_at self.now task }
    {
        self.memories.as_slice().get(usize::from(task))?.as_ref()
    }

    /// Gives a variable of a task another value of its declared set. Otherwise nothing changes.
    pub fn set_variable(
        &mut self,
        verified: &Verified,
        task: u8,
        path: &str,
        value: Value,
    ) -> Result<(), Unset>
        requires there { IsSome (memory_at self.old task) }
        requires fits { SharedFits verified.now.config self.old }
        ensures set { (s : MemoryOf) → memory_at self.old task ≡ Some s
            → SetsAmong verified.now.config task self.old s path.now value result self.new }
        ensures image { self.new.image ≡ self.old.image }
        ensures calls { self.new.calls ≡ self.old.calls }
        ensures globals { self.new.globals ≡ self.old.globals }
    {
        set_memory(
            &mut self.memories[usize::from(task)],
            verified,
            task,
            path,
            value,
        )
    }

    /// The task holds the tickets that the slots have, as its scan begins.
    pub fn open(&mut self, task: u8)
        requires there { IsSome (memory_at self.old task) }
        ensures shared { (self.new.image ≡ self.old.image) × (self.new.calls ≡ self.old.calls)
            × (self.new.globals ≡ self.old.globals) }
        ensures memories { (s : MemoryOf) → memory_at self.old task ≡ Some s
            → self.new.memories.items
            ≡ with_memory self.old task s.variables
            (Some (map ticket_of self.old.calls.slots)) }
    {
        open_task(&mut self.memories[usize::from(task)], &self.calls);
    }

    /// A task's scan, which has ended, hands over its variables and the globals that its program writes. A car's outputs are settled,
    /// and it may serve a call; GROUP tells each call to the car that it assigned.
    pub fn commit(&mut self, verified: &Verified, task: u8, store: &Store, report: &mut Report)
        requires open { HasOpenScan verified.now.config self.old task }
        requires fits { SharedFits verified.now.config self.old }
        requires ranges { InRanges verified.now.config (group_in verified.now.config self.old) }
        requires of { IsOf verified.now.config task store.now }
        ensures { Commits verified.now.config task self.old store.now.state.values self.new
            report.new }
    {
        if task == 0 {
            self.commit_group(verified, store, report);
        } else {
            self.commit_car(verified, task, store, report);
        }
    }

    // A car's commit, under the ticket that its open scan saw.
    fn commit_car(&mut self, verified: &Verified, car: u8, store: &Store, report: &mut Report)
        requires car { 1 ≤ car }
        requires open { HasOpenScan verified.now.config self.old car }
        requires fits { SharedFits verified.now.config self.old }
        requires ranges { InRanges verified.now.config (group_in verified.now.config self.old) }
        requires of { IsOf verified.now.config car store.now }
        ensures { Commits verified.now.config car self.old store.now.state.values self.new
            report.new }
    {
        let wishes = store.wishes(verified);
        let ticket = ticket_in(saw(&self.memories[usize::from(car)]), wishes.serve);
        self.leave_car(verified, car, store, wishes, ticket, report);
    }

    // GROUP's commit, under the tickets that its open scan saw.
    fn commit_group(&mut self, verified: &Verified, store: &Store, report: &mut Report)
        requires open { HasOpenScan verified.now.config self.old 0 }
        requires fits { SharedFits verified.now.config self.old }
        requires ranges { InRanges verified.now.config (group_in verified.now.config self.old) }
        requires of { IsOf verified.now.config 0 store.now }
        ensures { Commits verified.now.config 0 self.old store.now.state.values self.new
            report.new }
    {
        let _config = verified.config();
        let cars = store.assigned(verified);
        let tickets = saw(&self.memories[0]);
        tell_all(
            &mut self.calls,
            tickets,
            cars.as_slice(),
            &mut report.answers,
        );
        self.leave_group(verified, store, report);
    }

    /// The commit of a task's scan, which has ended, under the tickets that the slots have now.
    #[inline(always)]
    pub fn commit_now(&mut self, verified: &Verified, task: u8, store: &Store, report: &mut Report)
        requires there { IsSome (memory_at self.old task) }
        requires fits { SharedFits verified.now.config self.old }
        requires ranges { InRanges verified.now.config (group_in verified.now.config self.old) }
        requires of { IsOf verified.now.config task store.now }
        ensures { CommitsUnder verified.now.config task self.old
            (map ticket_of self.old.calls.slots) store.now.state.values self.new report.new }
    {
        if task == 0 {
            self.commit_group_now(verified, store, report);
        } else {
            self.commit_car_now(verified, task, store, report);
        }
    }

    // A car's commit, under the ticket that its slot has now.
    #[inline(always)]
    fn commit_car_now(&mut self, verified: &Verified, car: u8, store: &Store, report: &mut Report)
        requires car { 1 ≤ car }
        requires there { IsSome (memory_at self.old car) }
        requires fits { SharedFits verified.now.config self.old }
        requires ranges { InRanges verified.now.config (group_in verified.now.config self.old) }
        requires of { IsOf verified.now.config car store.now }
        ensures { CommitsUnder verified.now.config car self.old
            (map ticket_of self.old.calls.slots) store.now.state.values self.new report.new }
    {
        let wishes = store.wishes(verified);
        let ticket = ticket_in(self.calls.columns().tickets(), wishes.serve);
        self.leave_car(verified, car, store, wishes, ticket, report);
    }

    // GROUP's commit, under the tickets that the slots have now.
    #[inline(always)]
    fn commit_group_now(&mut self, verified: &Verified, store: &Store, report: &mut Report)
        requires there { IsSome (memory_at self.old 0) }
        requires fits { SharedFits verified.now.config self.old }
        requires ranges { InRanges verified.now.config (group_in verified.now.config self.old) }
        requires of { IsOf verified.now.config 0 store.now }
        ensures { CommitsUnder verified.now.config 0 self.old (map ticket_of self.old.calls.slots)
            store.now.state.values self.new report.new }
    {
        tell_assigned(&mut self.calls, verified, store, &mut report.answers);
        self.leave_group(verified, store, report);
    }

    // What a car's commit leaves, by its wishes and the ticket of the slot that it wishes to serve.
    #[inline(always)]
    fn leave_car(
        &mut self,
        verified: &Verified,
        car: u8,
        store: &Store,
        wishes: Wishes,
        ticket: Option<u64>,
        report: &mut Report,
    )
        requires car { 1 ≤ car }
        requires there { IsSome (memory_at self.old car) }
        requires fits { SharedFits verified.now.config self.old }
        requires ranges { InRanges verified.now.config (group_in verified.now.config self.old) }
        requires of { IsOf verified.now.config car store.now }
        requires wishes { wishes ≡ wishes_of store.now.state.values }
        ensures { (tickets : List (Option ℕ)) → ticket ≡ wished_ticket tickets wishes.serve
            → CommitsUnder verified.now.config car self.old tickets store.now.state.values self.new
            report.new }
    {
        settle(&mut self.image, car, wishes.motor, wishes.opens, report);
        serve(
            &mut self.calls,
            car,
            wishes.serve,
            ticket,
            &mut report.answers,
        );
        self.close(verified, car, store);
    }

    // What GROUP's commit leaves once it has told its calls, which were so before.
    #[inline(always)]
    fn leave_group(&mut self, verified: &Verified, store: &Store, report: &mut Report)
        requires there { IsSome (memory_at self.old 0) }
        requires fits { SharedFits verified.now.config self.old }
        requires of { IsOf verified.now.config 0 store.now }
        ensures { CommitsTold verified.now.config self.old report.old.answers
            store.now.state.values self.new report.new }
    {
        let _room = self.image.outputs.len();
        self.close(verified, 0, store);
        take_outputs(&mut report.outputs, &self.image.outputs);
        clear(&mut report.denials);
        clear(&mut report.entered);
    }

    // A task between scans, with what its scan left of its variables and of the globals that its program writes.
    #[inline(always)]
    fn close(&mut self, verified: &Verified, task: u8, store: &Store)
        requires there { IsSome (memory_at self.old task) }
        requires fits { SharedFits verified.now.config self.old }
        requires of { IsOf verified.now.config task store.now }
        ensures shared { (self.new.image ≡ self.old.image) × (self.new.calls ≡ self.old.calls) }
        ensures globals { globals_in verified.now.config self.new.globals
            ≡ written_globals (program_of verified.now.config task)
            (globals_in verified.now.config self.old.globals) store.now.state.values }
        ensures closed { (s : MemoryOf) → memory_at self.old task ≡ Some s
            → ClosesAmong verified.now.config task self.old s store.now.state.values self.new }
        ensures fits { SharedFits verified.now.config self.new }
    {
        store.copy_globals(verified, &mut self.globals);
        close_task(&mut self.memories[usize::from(task)], verified, task, store);
    }
}
