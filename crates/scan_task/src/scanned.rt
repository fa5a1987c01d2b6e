// Scans that are handed from a start to a commit.

ghost use Rattle.std.specs.Prelude.{◌≡◌, ◌↔◌, ◌<◌, ℕ, true, length};
ghost use Rattle.scan_task.specs.Ran.{HaveSameValues};
ghost use Rattle.scan_task.specs.Standing.{IsAtStart, IsScan, BeganAs};

use crate::rows::{copy_front, value};
use crate::store::Store;
use crate::verified::Verified;
use il_semantics::value::Value;
use il_syntax_equal::same::Same;
use load_slots::flat::Cell;
use scan_loop::ScanState;
use scan_step::rows::Rows;
use std::marker::Model;
use std::snapshot::Snapshot;

/// A scan that has begun: a store at a scan's start.
#[derive(Drop)]
pub struct OpenScan {
    store: Store,
}

impl Model for OpenScan {
    ghost use Rattle.scan_task.specs.Standing.{Standing, standing_code, IsAtStart};

    ghost Value = { Standing };

    ghost coded = { standing_code };

    ghost view = { λ o. o.store };

    ghost invariant = { λ o. IsAtStart o.store };
}

/// A scan that was run to its end. There is no other way to make one than `scan`, so it is the definitions' scan of its task, its
/// program, and the variables and the snapshot with which it began.
#[derive(Drop)]
pub struct Scanned<'v> {
    verified: &'v Verified,
    task: u8,
    scan: Box<ScanState>,
    first: Rows,
    began: Snapshot<ScanState>,
}

impl<'v> Model for Scanned<'v> {
    ghost use Rattle.scan_task.specs.Standing.{Finished, finished_code};
    ghost use Rattle.scan_task.specs.Ran.{IsRan, finished};
    ghost use Rattle.std.specs.Prelude.{◌≡◌};

    ghost Value = { Finished };

    ghost coded = { finished_code };

    ghost view = { λ s. finished record
        { config = s.verified.now.config; task = s.task; first = s.began.value; last = s.scan.value } };

    ghost invariant = { λ s. (s.first ≡ s.began.value.rows)
        × IsRan record {
          config = s.verified.now.config;
          task = s.task;
          first = s.began.value;
          last = s.scan.value;
        } };
}

impl OpenScan {
    /// A scan that begins as this store is. No allocation.
    pub fn of(store: Store) -> OpenScan
        requires { IsAtStart store }
        ensures { result ≡ store }
    {
        OpenScan { store }
    }

    /// It is at a scan's start.
    pub fn begins(&self)
        ensures { IsAtStart self.now }
    {
        let _task = self.store.task();
    }
}

/// Runs a scan from its start to its end (IEC 61131-3:2003, 3.2). No allocation.
pub fn scan<'v>(verified: &'v Verified, begun: OpenScan) -> Scanned<'v>
    requires { begun.config ≡ verified.now.config }
    ensures program { result.config ≡ begun.config }
    ensures task { result.task ≡ begun.task }
    ensures first { result.first ≡ begun.state }
{
    let OpenScan { store } = begun;
    let (task, mut scan, mut first) = store.into_parts();
    copy_front(&mut first, &scan.rows);
    let began = Snapshot::of(&*scan);
    let budget = verified.budget(task);
    scan.run(verified.running(task), budget);
    Scanned {
        verified,
        task,
        scan,
        first,
        began,
    }
}

// Whether two slots hold the same.
fn is_same(one: Option<Value>, other: Option<Value>) -> bool
    ensures { (result ≡ true) ↔ (one ≡ other) }
{
    match one {
        None => match other {
            None => true,
            _ => false,
        },
        Some(Value::Boolean(one)) => match other {
            Some(Value::Boolean(other)) => one == other,
            _ => false,
        },
        Some(Value::Integer(one)) => match other {
            Some(Value::Integer(other)) => one == other,
            _ => false,
        },
    }
}

// Whether two lists of numbers are the same.
fn same_numbers(numbers: &[i64], others: &[i64]) -> bool
    ensures { (result ≡ true) ↔ (numbers.now ≡ others.now) }
{
    numbers == others
}

// Whether two lists of flags are the same.
fn same_flags(flags: &[bool], others: &[bool]) -> bool
    ensures { (result ≡ true) ↔ (flags.now ≡ others.now) }
{
    flags == others
}

// Whether two rows are the same in each slot, also in what a slot doesn't show.
fn is_same_rows(rows: &Rows, others: &Rows) -> bool
    ensures { result ≡ true → rows.now ≡ others.now }
{
    same_numbers(rows.numbers.as_slice(), others.numbers.as_slice())
        && same_flags(rows.flags.as_slice(), others.flags.as_slice())
}

// Whether rows hold the same value at each slot.
fn same_values(rows: &Rows, others: &Rows, cells: &[Cell]) -> bool
    ensures { (result ≡ true) ↔ HaveSameValues cells.now rows.now others.now }
{
    is_same_rows(rows, others) || same_by_slots(rows, others, cells)
}

// Whether rows hold the same value at each slot, slot by slot.
fn same_by_slots(rows: &Rows, others: &Rows, cells: &[Cell]) -> bool
    ensures { (result ≡ true) ↔ HaveSameValues cells.now rows.now others.now }
{
    for slot in 0..cells.len() {
        if !is_same(value(rows, cells, slot), value(others, cells, slot)) {
            return false;
        }
    }
    true
}

impl<'v> Scanned<'v> {
    /// It is the definitions' scan.
    pub fn is_scan(&self)
        ensures { IsScan self.now }
    {
        let _task = self.task;
    }

    /// Whether it is a scan of this program, by value: the two configurations are compared part by part.
    pub fn is_of(&self, verified: &Verified) -> bool
        ensures { (result ≡ true) ↔ (self.now.config ≡ verified.now.config) }
    {
        self.verified.config().same(verified.config())
    }

    /// Whether task, variables and snapshot of a scan of this program are those of a store at a scan's start, by value.
    pub fn began_as(&self, verified: &Verified, store: &Store) -> bool
        requires program { self.now.config ≡ verified.now.config }
        requires of { store.now.config ≡ verified.now.config }
        requires begins { IsAtStart store.now }
        ensures { (result ≡ true) ↔ BeganAs self.now store.now }
    {
        if self.task != store.task() {
            return false;
        }
        same_values(
            &self.first,
            store.rows(verified),
            verified.task_code(self.task).cells(),
        )
    }

    /// The store of the scan, at its end. No allocation.
    pub fn into_store(self) -> Store
        ensures { result
            ≡ record {
              config = self.entry.config;
              task = self.entry.task;
              state = self.entry.last;
            } }
    {
        let Scanned {
            verified,
            task,
            scan,
            first,
            ..
        } = self;
        Store::of_parts(verified, task, scan, first)
    }
}
