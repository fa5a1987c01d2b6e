// Who makes entries, and how they are counted.

ghost use Rattle.std.specs.Prelude.{◌≡◌, ◌≤◌, ℕ, ◌+◌, [], ◌∷◌, All, IfOk, map, replicate, slice_index_or, slice_set};
ghost use Rattle.atomic_table.specs.Seated.{TableId};
ghost use Rattle.scan_task.specs.Scanning.{Program};
ghost use Rattle.group_plant.specs.declared.switches.Switches.{Switches};

use crate::tally::{BlankTally, Mark, Tally};
use group_spec::MOST_CARS;
use std::alloc::{AllocError, Global};
use std::marker::{Brand, Model, PhantomData};
use std::sync::ledger::{Blank, Book as Total, Ledger, Share};

/// The program of a station, what is set of the plant in a refresh by it, by its number, the names of its ledgers, and the table of its tally.
/// The call that makes the station picks them.
pub trait Naming {
    ghost program: { Program };

    ghost switches: { ℕ → Switches };

    ghost names: { ℕ → ℕ };

    ghost tally: { TableId };
}

impl Naming for Brand {
    ghost use Rattle.threads_station.specs.Placeholders.{no_program, no_switches, no_table};

    ghost program = { no_program };

    ghost switches = { λ i. no_switches };

    ghost names = { λ i. i };

    ghost tally = { no_table };
}

/// The ledger of a number: 0 is GROUP's, 1 to 8 the cars', 9 the refresher's, and 10 that of the refreshes by the plant.
pub struct Counter<G: Naming, const I: usize>(PhantomData<G>);

impl<G: Naming, const I: usize> Ledger for Counter<G, I> {
    ghost name = { G.names I };

    ghost parts = { 1 };
}

/// The whole share of a ledger. Contracts see it as its amount, which is the ledger's total.
pub struct Whole<L: Ledger> {
    share: Share<L>,
}

// Drops here are written by hand, since who drops a type whose drop is derived proves the drop of each type inside again.
impl<L: Ledger> Drop for Whole<L> {
    fn drop(self) {
        let Whole { share: _share } = self;
    }
}

impl<L: Ledger> Model for Whole<L> {
    ghost use Rattle.std.specs.Prelude.{◌≡◌, ℕ};

    ghost Value = { ℕ };

    ghost view = { λ w. w.share.amount };

    ghost invariant = { λ w. w.share.parts ≡ 1 };
}

impl<L: Ledger> Whole<L> {
    // Opens a ledger of one part.
    fn open(blank: Blank) -> (Total<L>, Whole<L>)
        requires { (blank.name ≡ L.name) × (blank.parts ≡ L.parts) × (L.parts ≡ 1) }
        ensures { (result.0.total ≡ 0) × (result.1 ≡ 0) }
    {
        let (total, share) = blank.open::<L>();
        (total, Whole { share })
    }

    // Counts some more.
    fn add(&mut self, total: &mut Total<L>, more: u64)
        ensures { (total.new.total ≡ total.old.total + more) × (self.new ≡ self.old + more) }
    {
        total.add(&mut self.share, more);
    }

    // The count is the total.
    fn audit(&mut self, total: &mut Total<L>)
        requires { L.parts ≡ 1 }
        ensures { (self.old ≡ total.old.total) × (total.new.total ≡ total.old.total)
            × (self.new ≡ self.old) }
    {
        total.audit(&mut self.share);
    }
}

/// The whole share of a task's ledger.
pub enum TaskShare<G: Naming> {
    Group(Whole<Counter<G, 0>>),
    Car1(Whole<Counter<G, 1>>),
    Car2(Whole<Counter<G, 2>>),
    Car3(Whole<Counter<G, 3>>),
    Car4(Whole<Counter<G, 4>>),
    Car5(Whole<Counter<G, 5>>),
    Car6(Whole<Counter<G, 6>>),
    Car7(Whole<Counter<G, 7>>),
    Car8(Whole<Counter<G, 8>>),
}

impl<G: Naming> Drop for TaskShare<G> {
    fn drop(self) {
        match self {
            TaskShare::Group(_whole) => {}
            TaskShare::Car1(_whole) => {}
            TaskShare::Car2(_whole) => {}
            TaskShare::Car3(_whole) => {}
            TaskShare::Car4(_whole) => {}
            TaskShare::Car5(_whole) => {}
            TaskShare::Car6(_whole) => {}
            TaskShare::Car7(_whole) => {}
            TaskShare::Car8(_whole) => {}
        }
    }
}

impl<G: Naming> TaskShare<G> {
    ghost use Rattle.threads_station.specs.Passes.{task_of};

    /// The task: 0 is GROUP, k is CARk.
    pub fn task(&self) -> u8
        ensures { (result ≡ task_of self.now) × (result ≤ MOST_CARS) }
    {
        match self {
            TaskShare::Group(_) => 0,
            TaskShare::Car1(_) => 1,
            TaskShare::Car2(_) => 2,
            TaskShare::Car3(_) => 3,
            TaskShare::Car4(_) => 4,
            TaskShare::Car5(_) => 5,
            TaskShare::Car6(_) => 6,
            TaskShare::Car7(_) => 7,
            TaskShare::Car8(_) => 8,
        }
    }
}

/// The pass of the refresher. It counts the refreshes and those that came from the plant, and knows the calls that they entered.
pub struct RefreshPass<G: Naming> {
    refreshes: Whole<Counter<G, 9>>,
    pub(crate) entered: Mark<G>,
    driven: Whole<Counter<G, 10>>,
}

impl<G: Naming> Drop for RefreshPass<G> {
    fn drop(self) {
        let RefreshPass {
            refreshes: _refreshes,
            entered: _entered,
            driven: _driven,
        } = self;
    }
}

/// The totals of all ledgers. Contracts see them as a list: the tasks', the refreshes, and the refreshes by the plant.
#[derive(Drop)]
pub struct Counts<G: Naming> {
    group: Total<Counter<G, 0>>,
    car1: Total<Counter<G, 1>>,
    car2: Total<Counter<G, 2>>,
    car3: Total<Counter<G, 3>>,
    car4: Total<Counter<G, 4>>,
    car5: Total<Counter<G, 5>>,
    car6: Total<Counter<G, 6>>,
    car7: Total<Counter<G, 7>>,
    car8: Total<Counter<G, 8>>,
    refreshes: Total<Counter<G, 9>>,
    driven: Total<Counter<G, 10>>,
}

impl<G: Naming> Model for Counts<G> {
    ghost use Rattle.std.specs.Prelude.{List, ℕ, [], ◌∷◌};

    ghost Value = { List ℕ };

    ghost view = { λ c. c.group.total ∷ c.car1.total ∷ c.car2.total ∷ c.car3.total ∷ c.car4.total
        ∷ c.car5.total ∷ c.car6.total ∷ c.car7.total ∷ c.car8.total ∷ c.refreshes.total
        ∷ c.driven.total ∷ [] };
}

impl<G: Naming> Counts<G> {
    ghost use Rattle.threads_station.specs.Passes.{task_of, count_of};

    /// Tells that what a task's share counts is its total.
    pub fn audit(&mut self, share: &mut TaskShare<G>)
        ensures same { (self.new ≡ self.old) × (share.new ≡ share.old) }
        ensures count { count_of share.old ≡ slice_index_or self.old (task_of share.old) 0 }
    {
        match share {
            TaskShare::Group(whole) => whole.audit(&mut self.group),
            TaskShare::Car1(whole) => whole.audit(&mut self.car1),
            TaskShare::Car2(whole) => whole.audit(&mut self.car2),
            TaskShare::Car3(whole) => whole.audit(&mut self.car3),
            TaskShare::Car4(whole) => whole.audit(&mut self.car4),
            TaskShare::Car5(whole) => whole.audit(&mut self.car5),
            TaskShare::Car6(whole) => whole.audit(&mut self.car6),
            TaskShare::Car7(whole) => whole.audit(&mut self.car7),
            TaskShare::Car8(whole) => whole.audit(&mut self.car8),
        }
    }

    /// Counts an entry of a task.
    pub fn count(&mut self, share: &mut TaskShare<G>)
        ensures total { self.new
            ≡ slice_set self.old (task_of share.old)
            (slice_index_or self.old (task_of share.old) 0 + 1) }
        ensures share { (task_of share.new ≡ task_of share.old)
            × (count_of share.new ≡ count_of share.old + 1) }
    {
        match share {
            TaskShare::Group(whole) => whole.add(&mut self.group, 1),
            TaskShare::Car1(whole) => whole.add(&mut self.car1, 1),
            TaskShare::Car2(whole) => whole.add(&mut self.car2, 1),
            TaskShare::Car3(whole) => whole.add(&mut self.car3, 1),
            TaskShare::Car4(whole) => whole.add(&mut self.car4, 1),
            TaskShare::Car5(whole) => whole.add(&mut self.car5, 1),
            TaskShare::Car6(whole) => whole.add(&mut self.car6, 1),
            TaskShare::Car7(whole) => whole.add(&mut self.car7, 1),
            TaskShare::Car8(whole) => whole.add(&mut self.car8, 1),
        }
    }

    /// Tells that what the refresher's pass counts are the totals.
    pub fn audit_refreshes(&mut self, pass: &mut RefreshPass<G>)
        ensures same { (self.new ≡ self.old) × (pass.new ≡ pass.old) }
        ensures refreshes { pass.old.refreshes ≡ slice_index_or self.old 9 0 }
        ensures driven { pass.old.driven ≡ slice_index_or self.old 10 0 }
    {
        pass.refreshes.audit(&mut self.refreshes);
        pass.driven.audit(&mut self.driven);
    }

    /// Counts a refresh.
    pub fn count_refresh(&mut self, pass: &mut RefreshPass<G>)
        ensures total { self.new ≡ slice_set self.old 9 (slice_index_or self.old 9 0 + 1) }
        ensures pass { pass.new
            ≡ record {
              refreshes = pass.old.refreshes + 1;
              entered = pass.old.entered;
              driven = pass.old.driven;
            } }
    {
        pass.refreshes.add(&mut self.refreshes, 1);
    }

    /// Counts that a refresh came from the plant.
    pub fn count_driven(&mut self, pass: &mut RefreshPass<G>)
        ensures total { self.new ≡ slice_set self.old 10 (slice_index_or self.old 10 0 + 1) }
        ensures pass { pass.new
            ≡ record {
              refreshes = pass.old.refreshes;
              entered = pass.old.entered;
              driven = pass.old.driven + 1;
            } }
    {
        pass.driven.add(&mut self.driven, 1);
    }
}

/// What opens with a station: the totals and the tally, which lie under the lock, the tasks' shares and the refresher's pass.
#[derive(Drop)]
pub struct Books<G: Naming> {
    pub counts: Counts<G>,
    pub entered: Tally<G>,
    pub shares: Vec<TaskShare<G>>,
    pub refresher: RefreshPass<G>,
}

/// A new ledger for each number, and a new tally. Contracts see the names of the ledgers, and the table of the tally.
#[derive(Drop)]
pub struct Blanks {
    group: Blank,
    car1: Blank,
    car2: Blank,
    car3: Blank,
    car4: Blank,
    car5: Blank,
    car6: Blank,
    car7: Blank,
    car8: Blank,
    refreshes: Blank,
    driven: Blank,
    tally: BlankTally,
}

impl Model for Blanks {
    ghost use Rattle.std.specs.Prelude.{◌≡◌, [], ◌∷◌};
    ghost use Rattle.threads_station.specs.Passes.{Names, names_code};

    ghost Value = { Names };

    ghost coded = { names_code };

    ghost view = { λ b. record {
      tally = b.tally;
      ledgers = b.group.name ∷ b.car1.name ∷ b.car2.name
          ∷ b.car3.name ∷ b.car4.name ∷ b.car5.name ∷ b.car6.name ∷ b.car7.name ∷ b.car8.name
          ∷ b.refreshes.name ∷ b.driven.name ∷ [];
    } };

    ghost invariant = { λ b. (b.group.parts ≡ 1) × (b.car1.parts ≡ 1) × (b.car2.parts ≡ 1)
        × (b.car3.parts ≡ 1) × (b.car4.parts ≡ 1) × (b.car5.parts ≡ 1) × (b.car6.parts ≡ 1)
        × (b.car7.parts ≡ 1) × (b.car8.parts ≡ 1) × (b.refreshes.parts ≡ 1)
        × (b.driven.parts ≡ 1) };
}

impl Blanks {
    ghost use Rattle.threads_station.specs.Passes.{task_of, count_of};

    /// New ledgers, and a new tally.
    pub fn new(alloc: Global) -> Result<Blanks, AllocError> {
        let tally = BlankTally::new(alloc)?;
        Ok(Blanks {
            group: Blank::new(1),
            car1: Blank::new(1),
            car2: Blank::new(1),
            car3: Blank::new(1),
            car4: Blank::new(1),
            car5: Blank::new(1),
            car6: Blank::new(1),
            car7: Blank::new(1),
            car8: Blank::new(1),
            refreshes: Blank::new(1),
            driven: Blank::new(1),
            tally,
        })
    }

    /// Opens all ledgers and the tally: each total is 0, each share counts 0, and no call was entered.
    pub fn open<G: Naming>(self, alloc: Global) -> Result<Books<G>, AllocError>
        requires names { (i : ℕ) → slice_index_or self.ledgers i 0 ≡ G.names i }
        requires tally { self.tally ≡ G.tally }
        ensures totals { IfOk result (λ r. r.counts ≡ replicate 11 0) }
        ensures entered { IfOk result (λ r. r.entered ≡ []) }
        ensures tasks { IfOk result
            (λ r. map task_of r.shares.items ≡ 0 ∷ 1 ∷ 2 ∷ 3 ∷ 4 ∷ 5 ∷ 6 ∷ 7 ∷ 8 ∷ []) }
        ensures counts { IfOk result (λ r. All (λ s. count_of s ≡ 0) r.shares.items) }
        ensures refreshes { IfOk result
            (λ r. r.refresher ≡ record { refreshes = 0; entered = []; driven = 0 }) }
    {
        let Blanks {
            group,
            car1,
            car2,
            car3,
            car4,
            car5,
            car6,
            car7,
            car8,
            refreshes,
            driven,
            tally,
        } = self;
        let (group, share0) = Whole::open(group);
        let (car1, share1) = Whole::open(car1);
        let (car2, share2) = Whole::open(car2);
        let (car3, share3) = Whole::open(car3);
        let (car4, share4) = Whole::open(car4);
        let (car5, share5) = Whole::open(car5);
        let (car6, share6) = Whole::open(car6);
        let (car7, share7) = Whole::open(car7);
        let (car8, share8) = Whole::open(car8);
        let (refreshes, share9) = Whole::open(refreshes);
        let (driven, share10) = Whole::open(driven);
        let (entered, mark) = tally.open::<G>();
        let counts = Counts {
            group,
            car1,
            car2,
            car3,
            car4,
            car5,
            car6,
            car7,
            car8,
            refreshes,
            driven,
        };
        let shares = Vec::from_array(
            alloc,
            [
                TaskShare::Group(share0),
                TaskShare::Car1(share1),
                TaskShare::Car2(share2),
                TaskShare::Car3(share3),
                TaskShare::Car4(share4),
                TaskShare::Car5(share5),
                TaskShare::Car6(share6),
                TaskShare::Car7(share7),
                TaskShare::Car8(share8),
            ],
        )?;
        let refresher = RefreshPass {
            refreshes: share9,
            entered: mark,
            driven: share10,
        };
        Ok(Books {
            counts,
            entered,
            shares,
            refresher,
        })
    }
}
