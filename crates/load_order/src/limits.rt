// How many uses can lead on from a unit at most.
//
// A cover names units so that of each use the user or the used one is named for that. On a chain each unit is at most once a user and
// at most once used, so no chain has more uses than the cover has names that are not after it.

ghost use Rattle.std.specs.Prelude.{◌≡◌, ◌+◌, ◌<◌, ◌||◌, nat_lt, IfOk, IfSome, false, length};
ghost use Rattle.load_order.specs.Related.{tabulate, closed};
ghost use Rattle.load_order.specs.Used.{is_among};
ghost use Rattle.load_order.specs.Chained.{AreAmong, leads_on};
ghost use Rattle.load_order.specs.Bounded.{AreLimits, is_left, users_left, used_left, others_left, uses_made, uses_many, is_used_by_few, reached_of, named_of};

use crate::relation::{Relation, copied, holds, is_set};
use crate::slots::number_at;
use crate::uses::is_among;
use base_lists::Items;
use il_statics::limits::LONGEST_CHAIN;
use std::alloc::{AllocError, Global};

/// What bounds chains of uses: which units reach which, and a cover of the uses.
#[derive(Drop)]
pub struct Limits {
    /// Which units reach which.
    reached: Relation,
    /// The users of the cover.
    users: Items<bool>,
    /// The used ones of the cover.
    used: Items<bool>,
}

/// The limits of some uses: in the cover are the users of more than so many, and those that others use. Of these covers it is the smallest.
pub fn limits_of(
    alloc: Global,
    uses: &Relation,
    reached: &Relation,
    count: usize,
) -> Result<Limits, AllocError>
    requires { reached.now ≡ closed count uses.now count }
    ensures { IfOk result (λ l. AreLimits count uses.now l) }
{
    let numbers = all_made(alloc, uses, count)?;
    let made = numbers.as_slice();
    let most = smallest(uses, count, made);
    Ok(Limits {
        reached: copied(alloc, reached)?,
        users: many_users(alloc, count, made, most)?,
        used: used_by_few(alloc, uses, count, made, most)?,
    })
}

// How many each unit uses.
fn all_made(alloc: Global, uses: &Relation, count: usize) -> Result<Items<usize>, AllocError>
    ensures { IfOk result (λ r. r ≡ tabulate count (λ u. uses_made count uses.now u)) }
{
    let mut all = Items::new(alloc);
    for unit in 0..count {
        all.push(uses_made(uses, count, unit))?;
    }
    Ok(all)
}

// How many a unit uses.
fn uses_made(uses: &Relation, count: usize, from: usize) -> usize
    ensures { result ≡ uses_made count uses.now from }
{
    let mut made = 0;
    for to in 0..count {
        if holds(uses, from, to) {
            made += 1;
        }
    }
    made
}

// The bound of the smallest of such covers. One that is of use has fewer than 17 names, so those that it doesn't name use no more.
fn smallest(uses: &Relation, count: usize, made: &[usize]) -> usize {
    let mut best = 0;
    let mut least = usize::MAX;
    for most in 0..LONGEST_CHAIN {
        let size = size(uses, count, made, most);
        if size < least {
            least = size;
            best = most;
        }
    }
    best
}

// How many a cover names.
fn size(uses: &Relation, count: usize, made: &[usize], most: usize) -> usize {
    let mut size: usize = 0;
    for unit in 0..count {
        if uses_many(made, most, unit) {
            size = size.saturating_add(1);
        }
        if is_used_by_few(uses, count, made, most, unit) {
            size = size.saturating_add(1);
        }
    }
    size
}

// Whether a unit uses more than so many.
fn uses_many(made: &[usize], most: usize, unit: usize) -> bool
    ensures { result ≡ uses_many made.now most unit }
{
    most < number_at(made, unit)
}

// Whether one that doesn't uses a unit.
fn is_used_by_few(uses: &Relation, count: usize, made: &[usize], most: usize, to: usize) -> bool
    ensures { result ≡ is_used_by_few count uses.now made.now most to }
{
    let mut found = false;
    for from in 0..count {
        found = found || (holds(uses, from, to) && !uses_many(made, most, from));
    }
    found
}

// The units that use more than so many.
fn many_users(
    alloc: Global,
    count: usize,
    made: &[usize],
    most: usize,
) -> Result<Items<bool>, AllocError>
    ensures { IfOk result (λ r. r ≡ tabulate count (λ u. uses_many made.now most u)) }
{
    let mut row = Items::new(alloc);
    for unit in 0..count {
        row.push(uses_many(made, most, unit))?;
    }
    Ok(row)
}

// The units that others use.
fn used_by_few(
    alloc: Global,
    uses: &Relation,
    count: usize,
    made: &[usize],
    most: usize,
) -> Result<Items<bool>, AllocError>
    ensures { IfOk result (λ r. r ≡ tabulate count
        (λ u. is_used_by_few count uses.now made.now most u)) }
{
    let mut row = Items::new(alloc);
    for unit in 0..count {
        row.push(is_used_by_few(uses, count, made, most, unit))?;
    }
    Ok(row)
}

/// Some of the units on the way, where with these so many uses can't lead on from a unit: none, those that the cover names, or those
/// that the unit reaches.
pub fn cut_off(
    alloc: Global,
    uses: &Relation,
    limits: &Limits,
    left: usize,
    way: &[usize],
    from: usize,
) -> Result<Option<Items<usize>>, AllocError>
    requires unit { from < length uses.now }
    requires limits { AreLimits (length uses.now) uses.now limits.now }
    requires away { is_among way.now from ≡ false }
    ensures among { IfOk result (λ o. IfSome o (λ r. AreAmong r way.now)) }
    ensures none { IfOk result (λ o. IfSome o
        (λ r. leads_on (length uses.now) uses.now left r from ≡ false)) }
{
    let count = uses.as_slice().len();
    if !is_cut_off(limits, count, left, way, from) {
        return Ok(None);
    }
    let none = Items::new(alloc);
    if is_cut_off(limits, count, left, none.as_slice(), from) {
        return Ok(Some(none));
    }
    let near = reached_of(alloc, limits, from, way)?;
    let named = named_of(alloc, limits, near.as_slice())?;
    if is_cut_off(limits, count, left, named.as_slice(), from) {
        return Ok(Some(named));
    }
    if is_cut_off(limits, count, left, near.as_slice(), from) {
        return Ok(Some(near));
    }
    Ok(None)
}

// Whether fewer units, or names of the cover, are left than uses.
fn is_cut_off(limits: &Limits, count: usize, left: usize, way: &[usize], from: usize) -> bool
    ensures { result ≡ (nat_lt (others_left count limits.now way.now from) left || nat_lt
        (users_left count limits.now way.now from + used_left count limits.now way.now from) left) }
{
    let users = users_left(limits, count, way, from);
    others_left(limits, count, way, from) < left
        || (users < left && used_left(limits, count, way, from) < left - users)
}

// The units of a list that a unit reaches.
fn reached_of(
    alloc: Global,
    limits: &Limits,
    from: usize,
    way: &[usize],
) -> Result<Items<usize>, AllocError>
    ensures { IfOk result (λ r. r ≡ reached_of limits.now.reached from way.now) }
{
    let mut near = Items::new(alloc);
    for unit in way {
        if holds(&limits.reached, from, *unit) {
            near.push(*unit)?;
        }
    }
    Ok(near)
}

// Those of them that the cover names.
fn named_of(alloc: Global, limits: &Limits, units: &[usize]) -> Result<Items<usize>, AllocError>
    ensures { IfOk result (λ r. r ≡ named_of limits.now units.now) }
{
    let mut named = Items::new(alloc);
    for unit in units {
        if is_set(&limits.users, *unit) || is_set(&limits.used, *unit) {
            named.push(*unit)?;
        }
    }
    Ok(named)
}

// How many users of the cover, the unit itself with them.
fn users_left(limits: &Limits, count: usize, way: &[usize], from: usize) -> usize
    ensures { result ≡ users_left count limits.now way.now from }
{
    let mut users = 0;
    for unit in 0..count {
        if (unit == from || holds(&limits.reached, from, unit))
            && is_set(&limits.users, unit)
            && !is_among(way, unit)
        {
            users += 1;
        }
    }
    users
}

// How many used ones of the cover.
fn used_left(limits: &Limits, count: usize, way: &[usize], from: usize) -> usize
    ensures { result ≡ used_left count limits.now way.now from }
{
    let mut used = 0;
    for unit in 0..count {
        if is_left(limits, way, from, unit) && is_set(&limits.used, unit) {
            used += 1;
        }
    }
    used
}

// How many others.
fn others_left(limits: &Limits, count: usize, way: &[usize], from: usize) -> usize
    ensures { result ≡ others_left count limits.now way.now from }
{
    let mut others = 0;
    for unit in 0..count {
        if is_left(limits, way, from, unit) {
            others += 1;
        }
    }
    others
}

// Whether a unit reaches another one that is not on the way.
fn is_left(limits: &Limits, way: &[usize], from: usize, unit: usize) -> bool
    ensures { result ≡ is_left limits.now way.now from unit }
{
    holds(&limits.reached, from, unit) && unit != from && !is_among(way, unit)
}
