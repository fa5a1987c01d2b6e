// The tally: which calls refreshes entered. A half of it lies under the lock and a half in the refresher's pass, and they agree.

ghost use Rattle.std.specs.Prelude.{◌≡◌, ◌++◌, ◌∷◌, [], List, IfOk};
ghost use Rattle.group_spec.specs.declared.calls.Call.{Call};
ghost use Rattle.threads_station.specs.Counted.{calls_in};
ghost use Rattle.threads_station.specs.Halves.{Agrees, opening_view, Enters, together, first_half, second_half};
ghost use Rattle.threads_station.specs.declared.tally.View.TheVariants.{Spent};

use crate::actor::Naming;
use atomic_table::{Badge, Join, Play, Seat, Split, Table, TableRule};
use group_spec::calls::Call;
use group_spec::report::Report;
use std::alloc::{AllocError, Global};
use std::collections::LinkedList;
use std::marker::{Brand, Model, PhantomData};
use std::mem;

/// What a half of the tally knows. No value of it is made.
#[derive(Drop)]
pub enum View {
    /// A half's: the calls that were entered, in their order.
    Half(LinkedList<Call>),
    /// That of both halves, brought together.
    Both {
        here: LinkedList<Call>,
        there: LinkedList<Call>,
    },
    /// That of a half which was brought to the other.
    Spent,
}

/// The rule: both halves know the same calls.
pub struct Agreement;

impl TableRule<u64, View, u8> for Agreement {
    ghost holds = { Agrees };

    ghost first = { opening_view };
}

/// The calls that both halves come to know. The call that adds them picks them.
pub trait Entering {
    ghost calls: { List Call };
}

impl Entering for Brand {
    ghost calls = { [] };
}

/// Both halves, brought together, come to know some calls more.
pub(crate) struct Enter<E: Entering>(PhantomData<E>);

impl<E: Entering> Play<u64, View> for Enter<E> {
    ghost then = { Enters E.calls };
}

/// The two halves are brought together.
pub(crate) struct Together;

impl Join<View> for Together {
    ghost both = { together };

    ghost spent = { Spent };
}

/// They part.
pub(crate) struct Apart;

impl Split<View> for Apart {
    ghost left = { first_half };

    ghost right = { second_half };
}

/// A tally of no calls, which is of no station yet. Contracts see it as its table.
#[derive(Drop)]
pub struct BlankTally {
    table: Table<u64, View, u8, Agreement, Global>,
    both: Badge<View>,
}

impl Model for BlankTally {
    ghost use Rattle.std.specs.Prelude.{◌≡◌, [], ◌∷◌};
    ghost use Rattle.atomic_table.specs.Seated.{TableId, table_id_coded};
    ghost use Rattle.threads_station.specs.Halves.{opening_view};

    ghost Value = { TableId };

    ghost coded = { table_id_coded };

    ghost view = { λ t. t.table.shared.table_id };

    ghost invariant = { λ t. (t.table.shared.table_id.words ≡ 1)
        × (t.both.table_id ≡ t.table.shared.table_id) × (t.both.views ≡ opening_view 0 ∷ []) };
}

/// The half that lies under the lock. Contracts see it as the calls that were entered.
pub struct Tally<G: Naming> {
    table: Table<u64, View, u8, Agreement, Global>,
    half: Badge<View>,
    of: PhantomData<G>,
}

impl<G: Naming> Drop for Tally<G> {
    fn drop(self) {
        let Tally {
            table: _table,
            half: _half,
            of: _of,
        } = self;
    }
}

impl<G: Naming> Model for Tally<G> {
    ghost use Rattle.std.specs.Prelude.{◌≡◌, List};
    ghost use Rattle.std.specs.Coded.{coded_list};
    ghost use Rattle.group_spec.specs.declared.calls.Call.{Call};
    ghost use Rattle.threads_desk.specs.Passes.{call_code};
    ghost use Rattle.threads_station.specs.Halves.{known, IsHalf};

    ghost Value = { List Call };

    ghost coded = { coded_list call_code };

    ghost view = { λ t. known t.half.views };

    ghost invariant = { λ t. (t.table.shared.table_id.words ≡ 1)
        × (t.table.shared.table_id ≡ G.tally) × (t.half.table_id ≡ G.tally) × IsHalf t.half.views };
}

/// The half that the refresher's pass has. Contracts see it as the calls that were entered.
pub struct Mark<G: Naming> {
    half: Badge<View>,
    of: PhantomData<G>,
}

impl<G: Naming> Drop for Mark<G> {
    fn drop(self) {
        let Mark {
            half: _half,
            of: _of,
        } = self;
    }
}

impl<G: Naming> Model for Mark<G> {
    ghost use Rattle.std.specs.Prelude.{◌≡◌, List};
    ghost use Rattle.std.specs.Coded.{coded_list};
    ghost use Rattle.group_spec.specs.declared.calls.Call.{Call};
    ghost use Rattle.threads_desk.specs.Passes.{call_code};
    ghost use Rattle.threads_station.specs.Halves.{known, IsHalf};

    ghost Value = { List Call };

    ghost coded = { coded_list call_code };

    ghost view = { λ m. known m.half.views };

    ghost invariant = { λ m. (m.half.table_id ≡ G.tally) × IsHalf m.half.views };
}

impl BlankTally {
    /// A new tally.
    pub fn new(alloc: Global) -> Result<BlankTally, AllocError> {
        let (table, seat) = Table::of_words(alloc, &[0], &0)?;
        Ok(BlankTally {
            table,
            both: seat.into_badge(),
        })
    }

    /// Opens it, with no calls.
    pub fn open<G: Naming>(self) -> (Tally<G>, Mark<G>)
        requires { self ≡ G.tally }
        ensures { (result.0 ≡ []) × (result.1 ≡ []) }
    {
        let BlankTally { table, both } = self;
        let mut seat: Seat<u64, View> = both.into_seat();
        let other = table.shared.split_seat::<Apart>(&mut seat);
        (
            Tally {
                table,
                half: seat.into_badge(),
                of: PhantomData,
            },
            Mark {
                half: other.into_badge(),
                of: PhantomData,
            },
        )
    }
}

impl<G: Naming> Tally<G> {
    // Both halves meet, come to know some calls more, and part.
    fn meet<E: Entering>(&mut self, mark: &mut Mark<G>)
        ensures same { self.old ≡ mark.old }
        ensures more { (self.new ≡ self.old ++ E.calls) × (mark.new ≡ mark.old ++ E.calls) }
    {
        let mut seat: Seat<u64, View> = mem::replace(&mut self.half, Badge::blank()).into_seat();
        let other: Seat<u64, View> = mem::replace(&mut mark.half, Badge::blank()).into_seat();
        self.table.shared.join_seat::<Together>(&mut seat, other);
        self.table.shared.load::<Enter<E>>(&mut seat, 0);
        let other = self.table.shared.split_seat::<Apart>(&mut seat);
        self.half = seat.into_badge();
        mark.half = other.into_badge();
    }

    // The calls that a report names, as these are picked.
    fn meet_for<E: Entering>(&mut self, mark: &mut Mark<G>, report: &Report)
        requires { calls_in report.now ≡ E.calls }
        ensures same { self.old ≡ mark.old }
        ensures more { (self.new ≡ self.old ++ calls_in report.now)
            × (mark.new ≡ mark.old ++ calls_in report.now) }
    {
        let _entered = report;
        self.meet::<E>(mark)
    }

    /// Adds the calls that a report names as entered.
    pub fn add(&mut self, mark: &mut Mark<G>, report: &Report)
        ensures same { self.old ≡ mark.old }
        ensures more { (self.new ≡ self.old ++ calls_in report.now)
            × (mark.new ≡ mark.old ++ calls_in report.now) }
    {
        self.meet_for::<Brand>(mark, report)
    }

    /// Tells that both halves know the same calls.
    pub fn audit(&mut self, mark: &mut Mark<G>)
        ensures agree { self.old ≡ mark.old }
        ensures same { (self.new ≡ self.old) × (mark.new ≡ mark.old) }
    {
        self.meet::<Brand>(mark)
    }
}
