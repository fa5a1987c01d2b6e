// The world of a lift group, and what each event does to it.

ghost use Rattle.il_syntax.specs.declared.fault.Refusal.TheVariants.{Memory};
ghost use Rattle.std.specs.Prelude.{◌≡◌, ℕ, ◌+◌, ◌≤◌, List, [], ◌∷◌, length, option_and_then, option_map, IfOk, IfErr, IfSome, Ok, Some, None};
ghost use Rattle.il_syntax.specs.declared.tree.Unit.{Unit as Organized};
ghost use Rattle.base_maps.specs.NameMap as values;
ghost use Rattle.scan_task.specs.Listing.{TaskLine, task_line};
ghost use Rattle.scan_task.specs.Scanning.{HasTask};
ghost use Rattle.scan_task.specs.Standing.{IsOf};
ghost use Rattle.group_spec.specs.Calls.{slot_at};
ghost use Rattle.group_spec.specs.Image.{sizes_of, FieldsInRange, Obeys};
ghost use Rattle.group_spec.specs.Replies.{reply_with, Refreshed, Refused};
ghost use Rattle.group_spec.specs.declared.event.Event.{Event as EventOf};
ghost use Rattle.group_spec.specs.declared.event.Event.TheVariants.{Start, Instruction, Commit, Refresh, Press, Gather};
ghost use Rattle.group_spec.specs.declared.report.Report.{Report as ReportOf};
ghost use Rattle.group_spec.specs.Snapshot.{program_of};
ghost use Rattle.group_spec.specs.World as model;
ghost use Rattle.group_laws.specs.Tasks.{budget_of};
ghost use Rattle.group_laws.specs.Runs.{IsReached};
ghost use Rattle.group_laws.specs.Histories.{CallGoesWell};
ghost use Rattle.group_world.specs.Running.{reports_by, may_report, reporting, instructions, up_to_end, scan_events};
ghost use Rattle.group_world.specs.Worlds.{Happens, PrintsEachBudget, IsWholeScan};
ghost use Rattle.group_laws.specs.Holding.{at_rest};
ghost use Rattle.group_world.specs.Setting.{IsSeated, resting};

use crate::group::Core;
use crate::held::{Held, refresh};
use crate::replies::Replies;
use crate::stores::{advance, begin, resumed, run_out};
use group_spec::calls::{Call, Slot};
use group_spec::event::{Event, EventFault, Reply};
use group_spec::hand::Hand;
use group_spec::report::Report;
use group_spec::{Bounded, Fields, Image, SLOT_PLACES, Sizes, in_range, is_floor};
use il_syntax::fault::Refusal;
use il_syntax::pair::both;
use scan_task::{Store, Value, Verified};
use std::alloc::Global;
use std::marker::Model;

/// The world of a lift group: its verified configuration, what the tasks share, a store for each task's scan, the calls on the desk
/// and those in the hand. Some history of events has led to it from the opening world.
pub struct World {
    verified: Verified,
    core: Core,
    stores: Vec<Option<Store>>,
    desk: Hand,
    hand: Held,
}

// Written by hand, since who drops a type whose drop is derived proves the drop of each type inside again.
impl Drop for World {
    fn drop(self) {
        let World {
            verified: _verified,
            core: _core,
            stores: _stores,
            desk: _desk,
            hand: _hand,
        } = self;
    }
}

impl Model for World {
    ghost use Rattle.group_world.specs.Worlds.{WorldOf, world_of_code};

    ghost Value = { WorldOf };

    ghost coded = { world_of_code };

    ghost use Rattle.group_world.specs.Kept.{world_in, IsWorld};

    ghost view = { λ w. record { program = w.verified; world = world_in w } };

    ghost invariant = { IsWorld };
}

impl World {
    /// The opening world of a configuration.
    pub fn new(alloc: Global, verified: Verified) -> Result<World, Refusal>
        ensures same { IfOk result (λ w. w.program ≡ verified) }
        ensures opening { IfOk result (λ w. w.world ≡ model.opening verified.config) }
        ensures memory { IfErr result (λ e. e ≡ Memory) }
    {
        let core = Core::new(alloc, &verified);
        let (verified, core) = both(verified, core)?;
        World::resume(alloc, verified, core)
    }

    /// The world of a group between scans. No call is on the desk or in the hand.
    pub fn resume(alloc: Global, verified: Verified, core: Core) -> Result<World, Refusal>
        requires program { core.config ≡ verified.config }
        requires seated { IsSeated core.config core.group }
        ensures same { IfOk result (λ w. w.program ≡ verified) }
        ensures world { IfOk result (λ w. w.world ≡ resting verified.config core.group) }
        ensures memory { IfErr result (λ e. e ≡ Memory) }
    {
        let _config = verified.config();
        core.rests();
        let opened = resumed(alloc, &verified, core);
        let (verified, opened) = both(verified, opened)?;
        Ok(World {
            verified,
            core: opened.core,
            stores: opened.stores,
            desk: Hand::new(),
            hand: Held::new(),
        })
    }

    /// Every motor is still, and no door has an open command, as after a stop.
    pub fn rest(&mut self)
        requires closed { (t : ℕ) → model.scan_at self.old.world t ≡ None }
        ensures world { self.new.world ≡ at_rest self.old.world }
        ensures same { self.new.program ≡ self.old.program }
    {
        self.core.rest(&self.verified);
    }

    /// Gives the world up. Who calls it has no drop of one to prove.
    pub fn release(self) {}

    // What holds of every world: some history has led to it, whatever comes next goes well, and each task is printed with its budget.
    #[inline(always)]
    fn holds(&self)
        ensures reached { IsReached self.now.program.config self.now.world }
        ensures well { (events : List EventOf)
            → CallGoesWell self.now.program.config self.now.world events }
        ensures printed { (task : ℕ) (line : TaskLine) (u : Organized)
            → task_line self.now.program task ≡ Some line
            → program_of self.now.program.config task ≡ Some u
            → line.budget ≡ budget_of self.now.program.config task }
        ensures each { PrintsEachBudget self.now.program }
    {
        let _verified = &self.verified;
    }

    // Start: the task's scan begins.
    fn start(&mut self, task: u8) -> Reply
        ensures model { (r : ReportOf)
            → Happens self.old (Start task) self.new (reply_with result r) }
        ensures plain { reports_by result ≡ 0 }
        ensures same { self.new.program ≡ self.old.program }
    {
        if !self.core.has_task(task) {
            return Reply::Refused(EventFault::NoSuchActor);
        }
        if self.core.is_open(task) {
            return Reply::Refused(EventFault::AlreadyOpen);
        }
        begin(
            &mut self.core,
            &self.verified,
            task,
            &mut self.stores[usize::from(task)],
        );
        Reply::Started
    }

    // Instruction: one step of the task's open scan.
    fn instruction(&mut self, task: u8) -> Reply
        ensures model { (r : ReportOf)
            → Happens self.old (Instruction task) self.new (reply_with result r) }
        ensures plain { reports_by result ≡ 0 }
        ensures same { self.new.program ≡ self.old.program }
    {
        if !self.core.has_task(task) {
            return Reply::Refused(EventFault::NoSuchActor);
        }
        if !self.core.is_open(task) {
            return Reply::Refused(EventFault::NoOpenScan);
        }
        advance(&self.verified, task, &mut self.stores[usize::from(task)])
    }

    // Commit: the task's scan, which has ended, hands over what it left.
    #[inline(always)]
    fn commit(&mut self, task: u8, report: &mut Report) -> Reply
        ensures model { Happens self.old (Commit task) self.new (reply_with result report.new) }
        ensures kept { reports_by result ≡ 0 → report.new ≡ report.old }
        ensures one { reports_by result ≤ 1 }
        ensures same { self.new.program ≡ self.old.program }
    {
        if !self.core.has_task(task) {
            return Reply::Refused(EventFault::NoSuchActor);
        }
        if !self.core.is_open(task) {
            return Reply::Refused(EventFault::NoOpenScan);
        }
        let Some(store) = &self.stores[usize::from(task)] else {
            unreachable!()
        };
        if !store.has_ended(&self.verified) {
            return Reply::Refused(EventFault::NotAtEnd);
        }
        self.core.commit(&self.verified, task, store, report);
        Reply::Committed
    }

    // Refresh: the fields are taken where they lie in their ranges.
    fn refresh_if_in_range(&mut self, fields: &Fields, report: &mut Report) -> Reply
        ensures model { Happens self.old (Refresh fields.now) self.new
            (reply_with result report.new) }
        ensures kept { reports_by result ≡ 0 → report.new ≡ report.old }
        ensures one { reports_by result ≤ 1 }
        ensures same { self.new.program ≡ self.old.program }
    {
        if !in_range(fields, self.verified.sizes()) {
            return Reply::Refused(EventFault::FieldOutOfRange);
        }
        self.refresh(fields, report);
        Reply::Refreshed
    }

    // Press: the call is put on the desk.
    fn press(&mut self, call: Call) -> Reply
        ensures model { (r : ReportOf)
            → Happens self.old (Press call) self.new (reply_with result r) }
        ensures plain { reports_by result ≡ 0 }
        ensures same { self.new.program ≡ self.old.program }
    {
        let sizes = self.verified.sizes();
        if !is_floor(call.from, sizes) || !is_floor(call.to, sizes) {
            return Reply::Refused(EventFault::NoSuchActor);
        }
        if call.from == call.to {
            return Reply::Refused(EventFault::SameFloor);
        }
        if self.desk.has(call) {
            return Reply::Already;
        }
        self.desk.insert(call);
        Reply::New
    }

    // Gather: the calls from a floor go from the desk to the hand, where the hand has none from there.
    fn gather(&mut self, floor: u8) -> Reply
        ensures model { (r : ReportOf)
            → Happens self.old (Gather floor) self.new (reply_with result r) }
        ensures plain { reports_by result ≡ 0 }
        ensures same { self.new.program ≡ self.old.program }
    {
        if !is_floor(floor, self.verified.sizes()) {
            return Reply::Refused(EventFault::NoSuchActor);
        }
        if self.hand.has_from(floor) {
            return Reply::Held;
        }
        Reply::Gathered(self.hand.take_from(floor, &mut self.desk))
    }

    /// One event. The report is written by a commit and by a refresh that are done, and by nothing else. An event that is refused
    /// changes nothing.
    #[inline(always)]
    pub fn apply(&mut self, event: &Event, report: &mut Report) -> Reply
        ensures model { model.happens self.old.program.config self.old.world event.now
            ≡ Ok (self.new.world, reply_with result report.new) }
        ensures kept { reports_by result ≡ 0 → report.new ≡ report.old }
        ensures reports { reports_by result ≤ may_report event.now }
        ensures same { self.new.program ≡ self.old.program }
        // an Instruction leaves the group and all other scans as they were
        ensures scan_only { (task : ℕ) → event.now ≡ Instruction task
            → model.ChangesScanOnly task self.old.world self.new.world }
        ensures well { CallGoesWell self.old.program.config self.old.world (event.now ∷ []) }
        ensures reached { IsReached self.old.program.config self.old.world }
        ensures printed { PrintsEachBudget self.old.program }
    {
        self.holds();
        match event {
            Event::Start(task) => self.start(*task),
            Event::Instruction(task) => self.instruction(*task),
            Event::Commit(task) => self.commit(*task, report),
            Event::Refresh(fields) => self.refresh_if_in_range(fields, report),
            Event::Press(call) => self.press(*call),
            Event::Gather(floor) => self.gather(*floor),
        }
    }

    /// A run over a list of events, with a reply for each, after those that are there. What room is left is left for a further run.
    pub fn run(&mut self, events: &[Event], replies: &mut Replies)
        requires room { length replies.old.items + length events.now ≤ replies.old.room }
        requires report_room { replies.old.reports + reporting events.now
            ≤ replies.old.report_room }
        // the run is the definitions'
        ensures model { model.run self.old.program.config self.old.world replies.old.items
            events.now
            ≡ Ok (self.new.world, replies.new.items) }
        ensures same { self.new.program ≡ self.old.program }

        // a reply for each event, and no more reports than events that may have one
        ensures count { length replies.new.items ≡ length replies.old.items + length events.now }
        ensures reports { replies.new.reports ≤ replies.old.reports + reporting events.now }
        ensures room_kept { replies.old.room ≤ replies.new.room }
        ensures report_room_kept { replies.old.report_room ≤ replies.new.report_room }

        // whatever history has led here, after each event of the run the world is well: no scan traps, sticks or passes its budget,
        // image and variables lie in their ranges, and the image obeys the interlock
        ensures well { CallGoesWell self.old.program.config self.old.world events.now }
        ensures reached { IsReached self.old.program.config self.old.world }

        // and the budget is the one that is printed, of each task
        ensures printed { (task : ℕ) (line : TaskLine) (u : Organized)
            → task_line self.old.program task ≡ Some line
            → program_of self.old.program.config task ≡ Some u
            → line.budget ≡ budget_of self.old.program.config task }
        ensures each { PrintsEachBudget self.old.program }
    {
        self.holds();
        let mut report = Report::new();
        'events: for event in events {
            let reply = self.apply(event, &mut report);
            replies.push(reply, &mut report);
        }
    }

    /// The open scan of a task runs to its end. The answer is the number of its instructions since now, or why there is no scan to run;
    /// then nothing changes.
    pub fn finish(&mut self, task: u8) -> Result<u32, EventFault>
        ensures model { IfOk result (λ n. (1 ≤ n)
            × (model.run self.old.program.config self.old.world [] (instructions task n)
            ≡ Ok (self.new.world, up_to_end n))) }
        ensures refused { IfErr result (λ fault. (self.new.world ≡ self.old.world)
            × (model.happens self.old.program.config self.old.world (Instruction task)
            ≡ Ok (self.old.world, Refused fault))) }
        ensures same { self.new.program ≡ self.old.program }
        ensures scan_only { model.ChangesScanOnly task self.old.world self.new.world }
        ensures well { (n : ℕ)
            → CallGoesWell self.old.program.config self.old.world (instructions task n) }
        ensures reached { IsReached self.old.program.config self.old.world }
        ensures printed { PrintsEachBudget self.old.program }
    {
        self.holds();
        if !self.core.has_task(task) {
            return Err(EventFault::NoSuchActor);
        }
        if !self.core.is_open(task) {
            return Err(EventFault::NoOpenScan);
        }
        run_out(&self.verified, task, &mut self.stores[usize::from(task)])
    }

    /// A whole scan of a task that has none open: its start, its instructions to the end, and its commit, which writes the report.
    #[inline(always)]
    pub fn scan_whole(&mut self, task: u8, report: &mut Report)
        requires there { HasTask self.old.program.config task }
        requires closed { model.scan_at self.old.world task ≡ None }
        ensures scan { IsWholeScan self.old.program.config task self.old.world self.new.world
            report.new }
        ensures same { self.new.program ≡ self.old.program }
        ensures well { (n : ℕ)
            → CallGoesWell self.old.program.config self.old.world (scan_events task n) }
        ensures reached { IsReached self.old.program.config self.old.world }
        ensures printed { PrintsEachBudget self.old.program }
    {
        self.holds();
        let Some(scan) = &mut self.stores[usize::from(task)] else {
            unreachable!()
        };
        self.core.scan_whole(&self.verified, task, scan, report);
    }

    /// A refresh with fields in range: the image takes them, and the calls of the hand enter. It writes the report.
    #[inline(always)]
    pub fn refresh(&mut self, fields: &Fields, report: &mut Report)
        requires inside { FieldsInRange (sizes_of self.old.program.config) fields.now }
        ensures model { model.happens self.old.program.config self.old.world (Refresh fields.now)
            ≡ Ok (self.new.world, Refreshed report.new) }
        ensures same { self.new.program ≡ self.old.program }
        ensures well { CallGoesWell self.old.program.config self.old.world
            (Refresh fields.now ∷ []) }
        ensures reached { IsReached self.old.program.config self.old.world }
        ensures printed { PrintsEachBudget self.old.program }
    {
        self.holds();
        refresh(&mut self.core, fields, &mut self.hand, report);
    }

    /// The image. It lies in its ranges and obeys the interlock.
    pub fn image(&self) -> &Image
        ensures image { result.now ≡ self.now.world.group.image }
        ensures ranges { FieldsInRange (sizes_of self.now.program.config)
            self.now.world.group.image.fields }
        ensures obeys { Obeys self.now.world.group.image }
        ensures reached { IsReached self.now.program.config self.now.world }
    {
        self.holds();
        self.core.holds();
        self.core.image()
    }

    /// A call slot, by its number from 1 on.
    pub fn slot(&self, number: u8) -> Option<Slot>
        ensures { result ≡ slot_at self.now.world.group.calls.slots number }
    {
        self.core.calls().slot(number)
    }

    /// The call slots, slot 1 first.
    pub fn slots(&self) -> Bounded<Slot, SLOT_PLACES>
        ensures { result ≡ self.now.world.group.calls.slots }
    {
        self.core.slots()
    }

    /// The last ticket that was given, 0 before the first.
    pub fn last_ticket(&self) -> u64
        ensures { result ≡ self.now.world.group.calls.last_ticket }
    {
        self.core.calls().last_ticket()
    }

    /// The calls on the desk.
    pub fn desk(&self) -> &Hand
        ensures { result.now ≡ self.now.world.desk }
    {
        &self.desk
    }

    /// The calls in the hand.
    pub fn hand(&self) -> &Hand
        ensures { result.now ≡ self.now.world.hand }
    {
        self.hand.calls()
    }

    /// The program.
    pub fn verified(&self) -> &Verified
        ensures { result.now ≡ self.now.program }
    {
        &self.verified
    }

    /// How many cars, floors and slots the group has.
    pub fn sizes(&self) -> Sizes
        ensures { result ≡ sizes_of self.now.program.config }
    {
        self.verified.sizes()
    }

    /// Where the open scan of a task is, if it has one.
    pub fn scan(&self, task: u8) -> Option<&Store>
        ensures stands { option_map (λ s. s.now.state) result
            ≡ model.scan_at self.now.world task }
        ensures of { IfSome result (λ s. IsOf self.now.program.config task s.now) }
    {
        if !self.core.is_open(task) {
            return None;
        }
        self.stores[usize::from(task)].as_ref()
    }

    /// The value of a global, by its path, as the last commit left it.
    pub fn global(&self, path: &str) -> Option<Value>
        ensures { result ≡ values.get self.now.world.group.globals path.now }
    {
        self.core.global(&self.verified, path)
    }

    /// The value of a variable of a task, as its last commit left it.
    pub fn variable(&self, task: u8, path: &str) -> Option<Value>
        ensures { result
            ≡ option_and_then (λ t. values.get t.variables path.now)
            (model.task_at self.now.world.group task) }
    {
        self.core.variable(&self.verified, task, path)
    }
}
