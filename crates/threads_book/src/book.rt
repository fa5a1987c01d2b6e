// The book of one owner.

ghost use Rattle.std.specs.Prelude.{◌≡◌, ◌++◌, ◌∷◌, [], map, Some, IfOk, IfErr, OnOk, OnErr};
ghost use Rattle.base_maps.specs.NameMap as values;
ghost use Rattle.group_spec.specs.Calls.{told_car};
ghost use Rattle.scan_task.specs.Scanning.{HasTask};
ghost use Rattle.scan_task.specs.Standing.{IsOf, at_its_end};
ghost use Rattle.group_spec.specs.Image.{sizes_of, Obeys};
ghost use Rattle.group_spec.specs.Replies.{Started, Committed, Refreshed};
ghost use Rattle.group_spec.specs.World.{opening, InRanges};
ghost use Rattle.group_spec.specs.declared.report.EnteredCall.{EnteredCall as EnteredOf};
ghost use Rattle.group_journal.specs.Journal.{AllCalls, calls_entering};
ghost use Rattle.group_journal.specs.Pages.{Adds, Kept};
ghost use Rattle.group_spec.specs.declared.journal.Entry.TheVariants as entry;
ghost use Rattle.group_journal.specs.declared.fault.StationFault.TheVariants.{NotOpen};
ghost use Rattle.threads_book.specs.Ledgers.{start_fault, full_fault, refresh_fault, fault_of, fault_in, SnappedNow, IsOpenHere};

use crate::ledger::Ledger;
use group_journal::fault::StationFault;
use group_spec::calls::Slot;
use group_spec::hand::Hand;
use group_spec::journal::Entry;
use group_spec::report::Report;
use group_spec::{Bounded, Fields, Image, SLOT_PLACES};
use scan_task::{OpenScan, Scanned, Store, Value, Verified};
use std::alloc::{AllocError, Global};
use std::marker::Model;

/// A group beside the journal of what was done to it. Its owner starts and commits scans, and refreshes the image; each is one entry.
pub struct Book {
    ledger: Ledger,
}

// Written by hand, since who drops a type whose drop is derived proves the drop of each type inside again.
impl Drop for Book {
    fn drop(self) {
        let Book { ledger: _ledger } = self;
    }
}

impl Model for Book {
    ghost use Rattle.group_journal.specs.Pages.{Page, page_code};
    ghost use Rattle.threads_book.specs.Ledgers.{page_of, IsLedger};

    ghost Value = { Page };

    ghost coded = { page_code };

    ghost view = { λ b. page_of b.ledger };

    ghost invariant = { λ b. IsLedger b.ledger };
}

impl Book {
    /// The book of a program, in its opening world, with room for so many entries in its journal.
    pub fn new(alloc: Global, verified: &Verified, capacity: usize) -> Result<Book, AllocError>
        ensures page { IfOk result (λ b. b
            ≡ record {
              config = verified.now.config;
              capacity = capacity;
              journal = [];
              world = opening verified.now.config;
            }) }
    {
        let ledger = Ledger::new(alloc, verified, capacity)?;
        Ok(Book { ledger })
    }

    /// What is kept: the journal runs from the opening world to this one, whose image lies in its ranges and obeys the interlock.
    pub fn runs(&self)
        ensures kept { Kept self.now }
        ensures ranges { InRanges self.now.config self.now.world.group }
        ensures obeys { Obeys self.now.world.group.image }
    {
        let _capacity = self.ledger.capacity;
    }

    /// Start: the scan of a task begins, in this store of the task. No allocation.
    pub fn start(
        &mut self,
        verified: &Verified,
        task: u8,
        store: Store,
    ) -> Result<OpenScan, (StationFault, Store)>
        requires program { verified.now.config ≡ self.old.config }
        requires there { HasTask verified.now.config task }
        requires of { IsOf verified.now.config task store }
        ensures fault { fault_of result ≡ start_fault self.old task }
        ensures done { OnOk result (Adds self.old (entry.Start task) Started self.new) }
        ensures begins { IfOk result
            (λ o. IsOf verified.now.config task o × SnappedNow self.old task o.state) }
        ensures refused { IfErr result (λ r. (self.new ≡ self.old) × (r.1 ≡ store)) }
    {
        self.ledger.start(verified, task, store)
    }

    /// Commit: a scan that was run is, by value, what is open of this task, and hands over what it left. No allocation.
    pub fn commit<'v>(
        &mut self,
        verified: &Verified,
        task: u8,
        scanned: Scanned<'v>,
        report: &mut Report,
    ) -> Result<Store, (StationFault, Scanned<'v>)>
        requires { verified.now.config ≡ self.old.config }
        ensures open { IsOpenHere self.old task scanned.entry
            → fault_of result ≡ full_fault self.old }
        ensures other { ¬ (IsOpenHere self.old task scanned.entry)
            → fault_of result ≡ Some NotOpen }
        ensures mine { OnOk result (IsOpenHere self.old task scanned.entry) }
        ensures done { IfOk result (λ s. Adds self.old (entry.Commit task) (Committed report.new)
            self.new × (s ≡ at_its_end scanned.entry)) }
        ensures refused { IfErr result
            (λ r. (self.new ≡ self.old) × (report.new ≡ report.old) × (r.1 ≡ scanned.entry)) }
    {
        if !scanned.is_of(verified) {
            return Err((StationFault::NotOpen, scanned));
        }
        self.ledger.commit(verified, task, scanned, report)
    }

    /// Commit of a scan of the book's own program, which is not compared again. No allocation.
    pub fn commit_own<'v>(
        &mut self,
        verified: &Verified,
        task: u8,
        scanned: Scanned<'v>,
        report: &mut Report,
    ) -> Result<Store, (StationFault, Scanned<'v>)>
        requires program { verified.now.config ≡ self.old.config }
        requires own { scanned.config ≡ verified.now.config }
        ensures open { IsOpenHere self.old task scanned.entry
            → fault_of result ≡ full_fault self.old }
        ensures other { ¬ (IsOpenHere self.old task scanned.entry)
            → fault_of result ≡ Some NotOpen }
        ensures mine { OnOk result (IsOpenHere self.old task scanned.entry) }
        ensures done { IfOk result (λ s. Adds self.old (entry.Commit task) (Committed report.new)
            self.new × (s ≡ at_its_end scanned.entry)) }
        ensures refused { IfErr result
            (λ r. (self.new ≡ self.old) × (report.new ≡ report.old) × (r.1 ≡ scanned.entry)) }
    {
        self.ledger.commit(verified, task, scanned, report)
    }

    /// Refresh: the image takes the fields, and the first calls of the hand enter. No allocation.
    pub fn refresh(
        &mut self,
        verified: &Verified,
        fields: Fields,
        hand: &mut Hand,
        report: &mut Report,
    ) -> Result<(), StationFault>
        requires program { verified.now.config ≡ self.old.config }
        requires calls { AllCalls (sizes_of verified.now.config) hand.old }
        ensures fault { fault_in result ≡ refresh_fault self.old fields }
        ensures done { OnOk result
            (Adds self.old
            (entry.Refresh fields (map (λ (d : EnteredOf). d.call) report.new.entered))
            (Refreshed report.new) self.new) }
        ensures exact { OnOk result
            (map (λ (d : EnteredOf). d.call) report.new.entered
            ≡ calls_entering self.old.world.group.calls hand.old) }
        ensures hand { OnOk result
            (hand.old ≡ map (λ (d : EnteredOf). d.call) report.new.entered ++ hand.new) }
        ensures refused { OnErr result
            ((self.new ≡ self.old) × (hand.new ≡ hand.old) × (report.new ≡ report.old)) }
    {
        self.ledger.refresh(verified, fields, hand, report)
    }

    /// The image.
    pub fn image(&self) -> &Image
        ensures { result.now ≡ self.now.world.group.image }
    {
        self.ledger.core.image()
    }

    /// The journal.
    pub fn journal(&self) -> &[Entry]
        ensures { result.now ≡ self.now.journal }
    {
        self.ledger.journal.as_slice()
    }

    /// Gives up the book.
    pub fn release(self) {}

    /// The journal alone.
    pub fn into_journal(self) -> Vec<Entry>
        ensures { result.items ≡ self.journal }
    {
        let Book { ledger } = self;
        let Ledger { journal, .. } = ledger;
        journal
    }

    /// A copy of the image.
    pub fn copied_image(&self) -> Image
        ensures { result ≡ self.now.world.group.image }
    {
        let image = self.ledger.core.image();
        Image {
            fields: image.fields.copied(),
            outputs: image.outputs.copied(),
        }
    }

    /// The call slots, slot 1 first.
    pub fn slots(&self) -> Bounded<Slot, SLOT_PLACES>
        ensures { result ≡ self.now.world.group.calls.slots }
    {
        self.ledger.core.slots()
    }

    /// The car to which a slot is told under a ticket, if there is one.
    pub fn told(&self, ticket: u64) -> Option<u8>
        ensures { result ≡ told_car ticket self.now.world.group.calls.slots }
    {
        told_car(self.slots().as_slice(), ticket)
    }

    /// The value of a global, as the last commit left it.
    pub fn global(&self, verified: &Verified, path: &str) -> Option<Value>
        requires { verified.now.config ≡ self.now.config }
        ensures { result ≡ values.get self.now.world.group.globals path.now }
    {
        self.ledger.core.global(verified, path)
    }
}

// The car to which a slot is told under a ticket, if there is one.
fn told_car(slots: &[Slot], ticket: u64) -> Option<u8>
    ensures { result ≡ told_car ticket slots.now }
{
    for slot in slots {
        if let Some(car) = told_under(slot, ticket) {
            return Some(car);
        }
    }
    None
}

// The car to which a slot is told under this ticket.
fn told_under(slot: &Slot, ticket: u64) -> Option<u8>
    ensures { result ≡ told_car ticket (slot.now ∷ []) }
{
    match slot {
        Slot::Told {
            ticket: other,
            car,
            ..
        } => { if *other == ticket { Some(*car) } else { None } }
        _ => None,
    }
}
