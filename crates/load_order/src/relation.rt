// Relations between units, by their numbers.

ghost use Rattle.std.specs.Prelude.{◌≡◌, slice_get, IfOk};
ghost use Rattle.load_order.specs.Related.{is_set, holds, row_or_none, either_row, joined_row, joined, leads_anywhere, next, closed};

use base_lists::Items;
use std::alloc::{AllocError, Global};

/// Which units are related to which: a row for each unit, counted from 0, with an entry for each unit.
pub type Relation = Items<Items<bool>>;

/// Whether an entry of a row is set.
pub fn is_set(row: &Items<bool>, at: usize) -> bool
    ensures { result ≡ is_set row.now at }
{
    match row.as_slice().get(at) {
        Some(set) => *set,
        None => false,
    }
}

/// Whether a unit is related to another.
pub fn holds(relation: &Relation, from: usize, to: usize) -> bool
    ensures { result ≡ holds relation.now from to }
{
    match relation.as_slice().get(from) {
        Some(row) => is_set(row, to),
        None => false,
    }
}

/// The relation of one after another (IEC 61131-3:2003, 2.5): first by itself, then through more and more units.
pub fn closed(alloc: Global, relation: &Relation, count: usize) -> Result<Relation, AllocError>
    ensures { IfOk result (λ r. r ≡ closed count relation.now count) }
{
    let mut closed = copied(alloc, relation)?;
    for through in 0..count {
        closed = next(alloc, closed, count, through)?;
    }
    Ok(closed)
}

/// The relation, on memory of its own.
pub fn copied(alloc: Global, relation: &Relation) -> Result<Relation, AllocError>
    ensures { IfOk result (λ r. r ≡ relation.now) }
{
    let mut rows = Items::new(alloc);
    for row in relation.as_slice() {
        rows.push(row.try_copy(alloc)?)?;
    }
    Ok(rows)
}

// The relation, through one unit more. It stays as it is where nothing leads on from there.
fn next(
    alloc: Global,
    relation: Relation,
    count: usize,
    through: usize,
) -> Result<Relation, AllocError>
    ensures { IfOk result (λ r. r ≡ next count relation through) }
{
    if leads_anywhere(&relation, count, through) {
        joined(alloc, &relation, count, through)
    } else {
        Ok(relation)
    }
}

// Whether a relation leads on from a unit.
fn leads_anywhere(relation: &Relation, count: usize, through: usize) -> bool
    ensures { result ≡ leads_anywhere count relation.now through }
{
    let mut found = false;
    for to in 0..count {
        found = found || holds(relation, through, to);
    }
    found
}

// From each unit that leads through another, it leads on to where it leads from there.
fn joined(
    alloc: Global,
    relation: &Relation,
    count: usize,
    through: usize,
) -> Result<Relation, AllocError>
    ensures { IfOk result (λ r. r ≡ joined count relation.now through) }
{
    let mut rows = Items::new(alloc);
    for from in 0..count {
        rows.push(joined_row(alloc, relation, count, through, from)?)?;
    }
    Ok(rows)
}

// One row of it. Most stay as they are.
fn joined_row(
    alloc: Global,
    relation: &Relation,
    count: usize,
    through: usize,
    from: usize,
) -> Result<Items<bool>, AllocError>
    ensures { IfOk result (λ r. r ≡ joined_row count relation.now through from) }
{
    if holds(relation, from, through) {
        either_row(alloc, relation, count, through, from)
    } else {
        row_of(alloc, relation, from)
    }
}

// Where a relation leads from a unit, or from another.
fn either_row(
    alloc: Global,
    relation: &Relation,
    count: usize,
    other: usize,
    from: usize,
) -> Result<Items<bool>, AllocError>
    ensures { IfOk result (λ r. r ≡ either_row count relation.now other from) }
{
    let mut row = Items::new(alloc);
    for to in 0..count {
        row.push(holds(relation, from, to) || holds(relation, other, to))?;
    }
    Ok(row)
}

// The row of a unit, on memory of its own.
fn row_of(alloc: Global, relation: &Relation, from: usize) -> Result<Items<bool>, AllocError>
    ensures { IfOk result (λ r. r ≡ row_or_none (slice_get relation.now from)) }
{
    match relation.as_slice().get(from) {
        Some(row) => row.try_copy(alloc),
        None => Ok(Items::new(alloc)),
    }
}
