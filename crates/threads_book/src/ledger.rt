// What a group has open and in its journal.

ghost use Rattle.std.specs.Prelude.{◌≡◌, ◌≤◌, ◌↔◌, [], ◌++◌, ◌∷◌, map, length, Some, IfOk, IfErr, OnOk, OnErr, IsSome, true};
ghost use Rattle.scan_task.specs.Scanning.{HasTask};
ghost use Rattle.scan_task.specs.Standing.{Standing, IsOf, at_its_end};
ghost use Rattle.group_spec.specs.Image.{sizes_of};
ghost use Rattle.group_spec.specs.Replies.{Started, Committed, Refreshed};
ghost use Rattle.group_spec.specs.Snapshot.{scan_begins};
ghost use Rattle.group_spec.specs.World.{TaskState, task_at, opening, beginning_of, started_group};
ghost use Rattle.group_spec.specs.declared.report.EnteredCall.{EnteredCall as EnteredOf};
ghost use Rattle.group_journal.specs.Journal.{AllCalls, calls_entering};
ghost use Rattle.group_journal.specs.Pages.{Adds, Kept};
ghost use Rattle.group_spec.specs.declared.journal.Entry.TheVariants as entry;
ghost use Rattle.threads_book.specs.Ledgers.{page_of, IsLedger, start_fault, full_fault, refresh_fault, fault_of, fault_in, SnappedNow, IsOpenHere};
ghost use Rattle.group_journal.specs.declared.fault.StationFault.TheVariants.{NotOpen};

use group_journal::entered::calls_of;
use group_journal::fault::StationFault;
use group_spec::hand::Hand;
use group_spec::journal::Entry;
use group_spec::report::Report;
use group_spec::{Fields, in_range};
use group_world::{Core, opening};
use scan_task::{OpenScan, Scanned, Store, Verified};
use std::alloc::{AllocError, Global};
use std::snapshot::Snapshot;

/// What is kept of a group: the program, as contracts see it; what the tasks share; of each task a store in which its scan, if it is
/// open, is at its start; and the journal, with room for so many entries.
#[derive(Drop)]
pub struct Ledger {
    pub program: Snapshot<Verified>,
    pub core: Core,
    pub stores: Vec<Option<Store>>,
    pub capacity: usize,
    pub journal: Vec<Entry>,
}

// The scan of a task begins, in its own store and in another.
fn begin(core: &mut Core, verified: &Verified, task: u8, own: &mut Option<Store>, store: &mut Store)
    requires program { core.old.config ≡ verified.now.config }
    requires there { IsSome (task_at core.old.group task) }
    requires own { IsSome own.old }
    requires own_of { (s : Standing) → own.old ≡ Some s → IsOf verified.now.config task s }
    requires of { IsOf verified.now.config task store.old }
    ensures config { core.new.config ≡ core.old.config }
    ensures group { (x : TaskState) → task_at core.old.group task ≡ Some x
        → core.new.group ≡ started_group core.old.group task x }
    ensures own { (x : TaskState) → task_at core.old.group task ≡ Some x
        → (s : Standing) × (own.new ≡ Some s) × IsOf verified.now.config task s
        × (s.state ≡ scan_begins verified.now.config task (beginning_of core.old.group x)) }
    ensures store { (x : TaskState) → task_at core.old.group task ≡ Some x
        → store.new.state ≡ scan_begins verified.now.config task (beginning_of core.old.group x) }
    ensures of { IsOf verified.now.config task store.new }
{
    if let Some(own) = own {
        core.start(verified, task, store);
        core.start(verified, task, own);
    }
}

impl Ledger {
    /// The group as it opens, with an empty journal that has room for so many entries.
    pub fn new(alloc: Global, verified: &Verified, capacity: usize) -> Result<Ledger, AllocError>
        ensures page { IfOk result (λ l. page_of l
            ≡ record {
              config = verified.now.config;
              capacity = capacity;
              journal = [];
              world = opening verified.now.config;
            }) }
        ensures program { IfOk result (λ l. l.program.value ≡ verified.now) }
        ensures kept { IfOk result IsLedger }
    {
        let _config = verified.config();
        let opened = opening(alloc, verified)?;
        let journal = Vec::with_capacity(alloc, capacity)?;
        Ok(Ledger {
            program: Snapshot::of(verified),
            core: opened.core,
            stores: opened.stores,
            capacity,
            journal,
        })
    }

    // Whether the journal is full.
    fn is_full(&self) -> bool
        ensures { (result ≡ true) ↔ (length self.now.journal.items ≡ self.now.capacity) }
    {
        self.journal.len() == self.capacity
    }

    // Whether what is open of this task is this scan.
    fn has_open(&self, verified: &Verified, task: u8, scanned: &Scanned<'_>) -> bool
        requires program { verified.now.config ≡ self.now.program.value.config }
        requires own { scanned.now.config ≡ verified.now.config }
        requires kept { IsLedger self.now }
        ensures { (result ≡ true) ↔ IsOpenHere (page_of self.now) task scanned.now }
    {
        if !self.core.is_open(task) {
            return false;
        }
        match &self.stores[usize::from(task)] {
            Some(store) => scanned.began_as(verified, store),
            None => unreachable!(),
        }
    }

    /// Start: the scan of a task begins, in this store of the task. No allocation.
    pub fn start(
        &mut self,
        verified: &Verified,
        task: u8,
        store: Store,
    ) -> Result<OpenScan, (StationFault, Store)>
        requires program { verified.now.config ≡ self.old.program.value.config }
        requires there { HasTask verified.now.config task }
        requires of { IsOf verified.now.config task store }
        requires kept { IsLedger self.old }
        ensures fault { fault_of result ≡ start_fault (page_of self.old) task }
        ensures done { OnOk result
            (Adds (page_of self.old) (entry.Start task) Started (page_of self.new)) }
        ensures begins { IfOk result
            (λ o. IsOf verified.now.config task o × SnappedNow (page_of self.old) task o.state) }
        ensures refused { IfErr result (λ r. (self.new ≡ self.old) × (r.1 ≡ store)) }
        ensures kept { IsLedger self.new }
        ensures same { self.new.program ≡ self.old.program }
    {
        if self.core.is_open(task) {
            return Err((StationFault::AlreadyOpen, store));
        }
        if self.is_full() {
            return Err((StationFault::JournalFull, store));
        }
        let mut store = store;
        begin(
            &mut self.core,
            verified,
            task,
            &mut self.stores[usize::from(task)],
            &mut store,
        );
        self.journal.push_reserved(Entry::Start(task));
        Ok(OpenScan::of(store))
    }

    /// Commit: a scan of the program that was run is what is open of this task, and hands over what it left. No allocation.
    pub fn commit<'v>(
        &mut self,
        verified: &Verified,
        task: u8,
        scanned: Scanned<'v>,
        report: &mut Report,
    ) -> Result<Store, (StationFault, Scanned<'v>)>
        requires program { verified.now.config ≡ self.old.program.value.config }
        requires own { scanned.config ≡ verified.now.config }
        requires kept { IsLedger self.old }
        ensures open { IsOpenHere (page_of self.old) task scanned.entry
            → fault_of result ≡ full_fault (page_of self.old) }
        ensures other { ¬ (IsOpenHere (page_of self.old) task scanned.entry)
            → fault_of result ≡ Some NotOpen }
        ensures mine { OnOk result (IsOpenHere (page_of self.old) task scanned.entry) }
        ensures done { IfOk result (λ s. Adds (page_of self.old) (entry.Commit task)
            (Committed report.new) (page_of self.new) × (s ≡ at_its_end scanned.entry)) }
        ensures refused { IfErr result
            (λ r. (self.new ≡ self.old) × (report.new ≡ report.old) × (r.1 ≡ scanned.entry)) }
        ensures kept { IsLedger self.new }
        ensures same { self.new.program ≡ self.old.program }
    {
        if !self.has_open(verified, task, &scanned) {
            return Err((StationFault::NotOpen, scanned));
        }
        if self.is_full() {
            return Err((StationFault::JournalFull, scanned));
        }
        scanned.is_scan();
        let store = scanned.into_store();
        self.core.commit(verified, task, &store, report);
        self.journal.push_reserved(Entry::Commit(task));
        Ok(store)
    }

    /// Refresh: the image takes the fields, and the first calls of the hand enter. No allocation.
    pub fn refresh(
        &mut self,
        verified: &Verified,
        fields: Fields,
        hand: &mut Hand,
        report: &mut Report,
    ) -> Result<(), StationFault>
        requires program { verified.now.config ≡ self.old.program.value.config }
        requires calls { AllCalls (sizes_of verified.now.config) hand.old }
        requires kept { IsLedger self.old }
        ensures fault { fault_in result ≡ refresh_fault (page_of self.old) fields }
        ensures done { OnOk result
            (Adds (page_of self.old)
            (entry.Refresh fields (map (λ (d : EnteredOf). d.call) report.new.entered))
            (Refreshed report.new) (page_of self.new)) }
        ensures exact { OnOk result
            (map (λ (d : EnteredOf). d.call) report.new.entered
            ≡ calls_entering (page_of self.old).world.group.calls hand.old) }
        ensures hand { OnOk result
            (hand.old ≡ map (λ (d : EnteredOf). d.call) report.new.entered ++ hand.new) }
        ensures refused { OnErr result
            ((self.new ≡ self.old) × (hand.new ≡ hand.old) × (report.new ≡ report.old)) }
        ensures kept { IsLedger self.new }
        ensures same { self.new.program ≡ self.old.program }
    {
        if !in_range(&fields, verified.sizes()) {
            return Err(StationFault::FieldOutOfRange);
        }
        if self.is_full() {
            return Err(StationFault::JournalFull);
        }
        hand.in_order();
        self.core.refresh(&fields, hand, report);
        let entered = calls_of(report.entered.as_slice());
        self.journal.push_reserved(Entry::Refresh {
            fields,
            calls: entered,
        });
        Ok(())
    }
}
