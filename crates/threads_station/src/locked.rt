// The book with its ledgers, as it lies under the lock.

ghost use Rattle.std.specs.Prelude.{◌≡◌, ◌↔◌, ◌%◌, ◌+◌, false, [], ◌++◌, length, replicate, Some, Err, ◌≤◌, ℕ, IfOk, IfErr, IfSome, OnOk, OnErr};
ghost use Rattle.scan_task.specs.Scanning.{HasTask};
ghost use Rattle.scan_task.specs.Standing.{IsOf, at_its_end};
ghost use Rattle.group_spec.specs.Calls.{told_car};
ghost use Rattle.group_spec.specs.Image.{sizes_of, fields_in_range, Obeys};
ghost use Rattle.group_spec.specs.Plant.{PlantState, IsPlantOf};
ghost use Rattle.group_spec.specs.World.{InRanges, opening};
ghost use Rattle.group_spec.specs.Replies.{Started, Committed, Refreshed};
ghost use Rattle.group_journal.specs.Journal.{AllCalls, calls_entered, calls_entering, entries_by, refresher};
ghost use Rattle.group_journal.specs.Driven.{IsDrivenJournal, first_plant};
ghost use Rattle.group_journal.specs.Pages.{Page, Adds, Kept, IsSnapped, IsShown, IsTold};
ghost use Rattle.group_spec.specs.declared.journal.Entry.TheVariants as entry;
ghost use Rattle.group_journal.specs.declared.fault.StationFault.TheVariants.{FieldOutOfRange, NotOpen, AlreadyOpen};
ghost use Rattle.threads_book.specs.Ledgers.{fault_of, fault_in, full_fault, start_fault, refresh_fault, IsOpenHere, SnappedNow};
ghost use Rattle.threads_station.specs.Passes.{task_of, count_of, CountsOne, KeepsStore};
ghost use Rattle.threads_station.specs.Counted.{IsNoneOrFull, calls_in, IsCommitted, IsTurned, IsRefreshed, IsDrivenOn};

use crate::actor::{Counts, Naming, RefreshPass, TaskShare};
use crate::passes::TaskPass;
use crate::tally::Tally;
use group_journal::fault::StationFault;
use group_plant::plant::{Plant, plant_step};
use group_plant::switches::Switches;
use group_spec::hand::Hand;
use group_spec::report::Report;
use group_spec::{Fields, Image};
use scan_task::{OpenScan, Scanned, Store, Verified};
use std::marker::Model;
use threads_book::Book;

/// What lies under the lock: the book, the totals, the plant, which is at the journal's end where all refreshes came from it, and the tally
/// of the calls that the journal enters. Contracts see it as the book.
pub struct Locked<G: Naming> {
    book: Book,
    counts: Counts<G>,
    plant: Plant,
    entered: Tally<G>,
}

impl<G: Naming> Model for Locked<G> {
    ghost use Rattle.std.specs.Prelude.{◌≡◌};
    ghost use Rattle.group_journal.specs.Pages.{Page, page_code};
    ghost use Rattle.threads_station.specs.Counted.{Counted, IsAtPlant};
    ghost use Rattle.group_journal.specs.Journal.{calls_entered};

    ghost Value = { Page };

    ghost coded = { page_code };

    ghost view = { λ l. l.book };

    ghost invariant = { λ l. (l.book.config ≡ G.program.config) × Counted l.counts l.book.journal
        × IsAtPlant G.program.config G.switches l.counts l.book l.plant
        × (l.entered ≡ calls_entered l.book.journal) };
}

impl<G: Naming> Locked<G> {
    /// The book with the totals, the plant and the tally, as they are at the start.
    pub(crate) fn of(book: Book, counts: Counts<G>, plant: Plant, entered: Tally<G>) -> Locked<G>
        requires program { book.config ≡ G.program.config }
        requires world { book.world ≡ opening G.program.config }
        requires empty { book.journal ≡ [] }
        requires counts { counts ≡ replicate 11 0 }
        requires entered { entered ≡ [] }
        requires plant { plant ≡ first_plant G.program.config }
        requires sized { IsPlantOf (sizes_of G.program.config) plant }
        ensures { result ≡ book }
    {
        Locked {
            book,
            counts,
            plant,
            entered,
        }
    }

    /// What holds whenever the lock is got, and of a task's share.
    pub fn audit(&mut self, share: &mut TaskShare<G>)
        ensures same { (self.new ≡ self.old) × (share.new ≡ share.old) }
        ensures program { self.old.config ≡ G.program.config }
        ensures kept { Kept self.old }
        ensures ranges { InRanges G.program.config self.old.world.group }
        ensures obeys { Obeys self.old.world.group.image }
        ensures count { count_of share.old ≡ entries_by (task_of share.old) self.old.journal }
    {
        self.counts.audit(share);
        self.book.runs();
    }

    /// Start, as the book does it; the share counts one more.
    pub fn start(
        &mut self,
        verified: &Verified,
        share: &mut TaskShare<G>,
        store: Store,
    ) -> Result<OpenScan, (StationFault, Store)>
        requires program { verified.now ≡ G.program }
        requires there { HasTask G.program.config (task_of share.old) }
        requires of { IsOf G.program.config (task_of share.old) store }
        ensures fault { fault_of result ≡ start_fault self.old (task_of share.old) }
        ensures odd { count_of share.old % 2 ≡ 1 → fault_of result ≡ Some AlreadyOpen }
        ensures even { count_of share.old % 2 ≡ 0 → IsNoneOrFull (fault_of result) }
        ensures done { OnOk result
            (Adds self.old (entry.Start (task_of share.old)) Started self.new
            × CountsOne share.old share.new) }
        ensures begins { IfOk result (λ o. IsOf G.program.config (task_of share.old) o
            × IsSnapped G.program.config (task_of share.old) (count_of share.old) o.state) }
        ensures now { IfOk result (λ o. SnappedNow self.old (task_of share.old) o.state) }
        ensures refused { IfErr result
            (λ r. (self.new ≡ self.old) × (share.new ≡ share.old) × (r.1 ≡ store)) }
    {
        self.audit(share);
        let _config = verified.config();
        match self.book.start(verified, share.task(), store) {
            Ok(open) => {
                self.counts.count(share);
                Ok(open)
            }
            Err(refused) => Err(refused),
        }
    }

    /// Commit of a scan of the station's program, as the book does it; the share counts one more.
    pub fn commit<'v>(
        &mut self,
        verified: &Verified,
        share: &mut TaskShare<G>,
        scanned: Scanned<'v>,
        report: &mut Report,
    ) -> Result<Store, (StationFault, Scanned<'v>)>
        requires program { verified.now ≡ G.program }
        requires own { scanned.config ≡ G.program.config }
        requires there { HasTask G.program.config (task_of share.old) }
        ensures open { IsOpenHere self.old (task_of share.old) scanned.entry
            → fault_of result ≡ full_fault self.old }
        ensures other { ¬ (IsOpenHere self.old (task_of share.old) scanned.entry)
            → fault_of result ≡ Some NotOpen }
        ensures mine { OnOk result (IsOpenHere self.old (task_of share.old) scanned.entry) }
        ensures even { count_of share.old % 2 ≡ 0 → fault_of result ≡ Some NotOpen }
        ensures done { OnOk result
            (Adds self.old (entry.Commit (task_of share.old)) (Committed report.new) self.new
            × CountsOne share.old share.new) }
        ensures report { OnOk result
            (IsCommitted G.program.config (task_of share.old) (count_of share.old) scanned.entry
            report.new) }
        ensures store { IfOk result
            (λ s. (s ≡ at_its_end scanned.entry) × IsOf G.program.config (task_of share.old) s) }
        ensures refused { IfErr result (λ r. (self.new ≡ self.old) × (share.new ≡ share.old)
            × (report.new ≡ report.old) × (r.1 ≡ scanned.entry)) }
    {
        self.audit(share);
        let _config = verified.config();
        scanned.is_scan();
        match self
            .book
            .commit_own(verified, share.task(), scanned, report)
        {
            Ok(store) => {
                self.counts.count(share);
                Ok(store)
            }
            Err(refused) => Err(refused),
        }
    }

    /// A commit, and right after it a start of the task's next scan. The store comes back where there was no start.
    pub fn turn<'v>(
        &mut self,
        verified: &Verified,
        share: &mut TaskShare<G>,
        scanned: Scanned<'v>,
        report: &mut Report,
    ) -> Result<(Option<Store>, Result<OpenScan, StationFault>), (StationFault, Scanned<'v>)>
        requires program { verified.now ≡ G.program }
        requires own { scanned.config ≡ G.program.config }
        requires there { HasTask G.program.config (task_of share.old) }
        ensures open { IsOpenHere self.old (task_of share.old) scanned.entry
            → fault_of result ≡ full_fault self.old }
        ensures other { ¬ (IsOpenHere self.old (task_of share.old) scanned.entry)
            → fault_of result ≡ Some NotOpen }
        ensures even { count_of share.old % 2 ≡ 0 → fault_of result ≡ Some NotOpen }
        ensures done { IfOk result (λ r. (page : Page)
            × Adds self.old (entry.Commit (task_of share.old)) (Committed report.new) page
            × OnOk r.1 (Adds page (entry.Start (task_of share.old)) Started self.new)
            × OnErr r.1 (self.new ≡ page)) }
        ensures turned { IfOk result (λ r. IsTurned G.program.config (task_of share.old)
            (count_of share.old) scanned.entry report.new r.1) }
        ensures next { IfOk result (λ r. IsNoneOrFull (fault_in r.1)) }
        ensures begins { IfOk result (λ r. IfOk r.1 (λ o.
            IsSnapped G.program.config (task_of share.old) (count_of share.old + 1) o.state)) }
        ensures counts { IfOk result (λ r. (task_of share.new ≡ task_of share.old)
            × OnOk r.1 (count_of share.new ≡ count_of share.old + 2)
            × OnErr r.1 (count_of share.new ≡ count_of share.old + 1)) }
        ensures store { IfOk result (λ r. KeepsStore G.program.config (task_of share.old)
            (count_of share.new) r.0) }
        ensures refused { IfErr result (λ r. (self.new ≡ self.old) × (share.new ≡ share.old)
            × (report.new ≡ report.old) × (r.1 ≡ scanned.entry)) }
    {
        self.audit(share);
        let store = match self.commit(verified, share, scanned, report) {
            Ok(store) => store,
            Err(refused) => return Err(refused),
        };
        match self.start(verified, share, store) {
            Ok(open) => Ok((None, Ok(open))),
            Err((fault, store)) => Ok((Some(store), Err(fault))),
        }
    }

    /// What holds whenever the lock is got, and of the refresher's pass.
    pub fn audit_refreshes(&mut self, pass: &mut RefreshPass<G>)
        ensures same { (self.new ≡ self.old) × (pass.new ≡ pass.old) }
        ensures program { self.old.config ≡ G.program.config }
        ensures kept { Kept self.old }
        ensures ranges { InRanges G.program.config self.old.world.group }
        ensures obeys { Obeys self.old.world.group.image }
        ensures refreshes { pass.old.refreshes ≡ entries_by refresher self.old.journal }
        ensures entered { pass.old.entered ≡ calls_entered self.old.journal }
        ensures driven { pass.old.driven ≡ pass.old.refreshes
            → (plant : PlantState)
            × IsDrivenJournal G.program.config G.switches self.old.journal plant self.old.world }
    {
        self.counts.audit_refreshes(pass);
        self.entered.audit(&mut pass.entered);
        self.book.runs();
    }

    /// Refresh, as the book does it; the pass counts one more, and knows the calls that were entered.
    pub fn refresh(
        &mut self,
        verified: &Verified,
        pass: &mut RefreshPass<G>,
        fields: Fields,
        hand: &mut Hand,
        report: &mut Report,
    ) -> Result<(), StationFault>
        requires program { verified.now ≡ G.program }
        requires calls { AllCalls (sizes_of G.program.config) hand.old }
        ensures fault { fault_in result ≡ refresh_fault self.old fields }
        ensures out_of_range { (fields_in_range (sizes_of G.program.config) fields ≡ false)
            ↔ (result ≡ Err FieldOutOfRange) }
        ensures done { OnOk result
            (Adds self.old (entry.Refresh fields (calls_in report.new)) (Refreshed report.new)
            self.new) }
        ensures pass { OnOk result
            (pass.new
            ≡ record {
              refreshes = pass.old.refreshes + 1;
              entered = pass.old.entered ++ calls_in report.new;
              driven = pass.old.driven;
            }) }
        ensures report { OnOk result
            (IsRefreshed G.program.config pass.old.refreshes pass.old.entered fields hand.old
            report.new) }
        ensures exact { OnOk result
            (calls_in report.new ≡ calls_entering self.old.world.group.calls hand.old) }
        ensures hand { OnOk result (hand.old ≡ calls_in report.new ++ hand.new) }
        ensures refused { OnErr result
            ((self.new ≡ self.old) × (pass.new ≡ pass.old) × (hand.new ≡ hand.old)
            × (report.new ≡ report.old)) }
    {
        self.audit_refreshes(pass);
        self.book.refresh(verified, fields, hand, report)?;
        self.counts.count_refresh(pass);
        self.entered.add(&mut pass.entered, report);
        Ok(())
    }

    /// Refresh by the plant: it goes one step under the outputs of the image, as it is set, and the image takes what it then reports. The
    /// pass counts one more of each.
    pub fn drive(
        &mut self,
        verified: &Verified,
        pass: &mut RefreshPass<G>,
        switches: Switches,
        hand: &mut Hand,
        report: &mut Report,
    ) -> Result<(), StationFault>
        requires program { verified.now ≡ G.program }
        requires switches { switches ≡ G.switches (pass.old.refreshes + 1) }
        requires limit { switches.run_limit ≤ (sizes_of G.program.config).cars }
        requires calls { AllCalls (sizes_of G.program.config) hand.old }
        ensures full { IsNoneOrFull (fault_in result) }
        ensures pass { OnOk result
            (pass.new
            ≡ record {
              refreshes = pass.old.refreshes + 1;
              entered = pass.old.entered ++ calls_in report.new;
              driven = pass.old.driven + 1;
            }) }
        ensures report { OnOk result
            (IsDrivenOn G.program.config pass.old.refreshes pass.old.entered switches hand.old
            report.new) }
        ensures exact { OnOk result
            (calls_in report.new ≡ calls_entering self.old.world.group.calls hand.old) }
        ensures hand { OnOk result (hand.old ≡ calls_in report.new ++ hand.new) }
        ensures refused { OnErr result
            ((self.new ≡ self.old) × (pass.new ≡ pass.old) × (hand.new ≡ hand.old)
            × (report.new ≡ report.old)) }
    {
        self.audit_refreshes(pass);
        let _config = verified.config();
        let before = self.plant.copied().with_switches(switches);
        let (plant, fields) = plant_step(before, &self.book.image().outputs);
        self.book.refresh(verified, fields, hand, report)?;
        self.counts.count_refresh(pass);
        self.counts.count_driven(pass);
        self.entered.add(&mut pass.entered, report);
        self.plant = plant;
        Ok(())
    }

    /// The car to which a slot is told under a ticket. A ticket that was told and isn't served yet has its car.
    pub fn told(&self, ticket: u64) -> Option<u8>
        ensures exact { result ≡ told_car ticket self.now.world.group.calls.slots }
        ensures told { IfSome result (λ car. IsTold G.program.config ticket car) }
    {
        self.book.runs();
        self.book.told(ticket)
    }

    /// The image, which is that at the end of a run with so many refreshes.
    pub fn image(&mut self, pass: &mut RefreshPass<G>) -> Image
        ensures same { (self.new ≡ self.old) × (pass.new ≡ pass.old) }
        ensures shown { IsShown G.program.config pass.old.refreshes result.fields result.outputs }
        ensures obeys { Obeys result }
        ensures sized { length result.outputs ≡ (sizes_of G.program.config).cars }
    {
        self.audit_refreshes(pass);
        self.book.copied_image()
    }

    /// Takes a task's pass back: the journal holds as many entries of the task as it counts.
    pub(crate) fn take_in(&mut self, pass: TaskPass<G>)
        ensures same { self.new ≡ self.old }
        ensures count { pass.count ≡ entries_by pass.task self.old.journal }
    {
        let mut share = pass.into_share();
        self.audit(&mut share);
    }

    /// The book, once the station is closed.
    pub(crate) fn into_book(self) -> Book
        ensures book { result ≡ self }
        ensures kept { Kept result }
        ensures program { result.config ≡ G.program.config }
    {
        let Locked {
            book,
            counts: _counts,
            plant: _plant,
            entered: _entered,
        } = self;
        book.runs();
        book
    }
}
