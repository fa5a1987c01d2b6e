// The search for chains of uses. What it finds is checked use by use where it is reported.

use base_lists::Items;
use load_order::relation::{Relation, holds, is_set};
use load_order::uses::uses;
use load_scope::Scoped;
use std::alloc::{AllocError, Global};

// How many uses a chain of too many units has (own rule).
const TOO_MANY: usize = 16;

// A unit to which a search has come, and the number of the entry from which it has.
#[derive(Clone, Copy)]
struct Met {
    unit: usize,
    from: usize,
}

// Whether a search has come to a unit.
fn is_met(met: &[Met], unit: usize) -> bool {
    for one in met {
        if one.unit == unit {
            return true;
        }
    }
    false
}

// Notes the units to which a search comes first from the unit of an entry.
fn meet(met: &mut Items<Met>, all: &Relation, from: usize, user: usize) -> Result<(), AllocError> {
    for unit in 0..all.as_slice().len() {
        if holds(all, user, unit) && !is_met(met.as_slice(), unit) {
            met.push(Met { unit, from })?;
        }
    }
    Ok(())
}

// The units after the first entry of a search, up to another.
fn way_back(alloc: Global, met: &[Met], last: usize) -> Result<Items<usize>, AllocError> {
    let mut way = Items::new(alloc);
    let mut at = last;
    for _step in 0..met.len() {
        if at == 0 {
            return Ok(way);
        }
        let Some(one) = met.get(at) else {
            return Ok(way);
        };
        way.push_first(one.unit)?;
        at = one.from;
    }
    Ok(way)
}

// The units of a shortest chain of uses between a unit and itself, if there is one.
fn way_among(
    alloc: Global,
    all: &Relation,
    unit: usize,
) -> Result<Option<Items<usize>>, AllocError> {
    let mut met = Items::new(alloc);
    met.push(Met { unit, from: 0 })?;
    for at in 0..all.as_slice().len() {
        let Some(one) = met.as_slice().get(at).copied() else {
            return Ok(None);
        };
        if holds(all, one.unit, unit) {
            return Ok(Some(way_back(alloc, met.as_slice(), at)?));
        }
        meet(&mut met, all, at, one.unit)?;
    }
    Ok(None)
}

/// The units of a shortest chain of uses between a unit and itself, if there is one.
pub(crate) fn way_to_itself(
    alloc: Global,
    names: &Scoped,
    unit: usize,
) -> Result<Option<Items<usize>>, AllocError> {
    let all = uses(alloc, names, true)?;
    way_among(alloc, &all, unit)
}

// The first of the units that a unit uses that is set.
fn first_set(all: &Relation, user: usize, set: &Items<bool>) -> Option<usize> {
    for unit in 0..all.as_slice().len() {
        if holds(all, user, unit) && is_set(set, unit) {
            return Some(unit);
        }
    }
    None
}

// Every unit.
fn every(alloc: Global, count: usize) -> Result<Items<bool>, AllocError> {
    let mut level = Items::new(alloc);
    for _unit in 0..count {
        level.push(true)?;
    }
    Ok(level)
}

// From which units one use more leads than from the last.
fn one_more(
    alloc: Global,
    all: &Relation,
    levels: &[Items<bool>],
) -> Result<Items<bool>, AllocError> {
    let mut more = Items::new(alloc);
    if let Some(before) = levels.last() {
        for user in 0..all.as_slice().len() {
            more.push(first_set(all, user, before).is_some())?;
        }
    }
    Ok(more)
}

// From which units so many uses lead: none, one, and so on up to those of a chain that is too long.
fn leading(alloc: Global, all: &Relation) -> Result<Items<Items<bool>>, AllocError> {
    let mut levels = Items::new(alloc);
    levels.push(every(alloc, all.as_slice().len())?)?;
    for _use in 1..TOO_MANY {
        let more = one_more(alloc, all, levels.as_slice())?;
        levels.push(more)?;
    }
    Ok(levels)
}

// The units after another, from each of which as many uses lead as the chain still takes; fewer where there is none.
fn chain_among(
    alloc: Global,
    all: &Relation,
    levels: &[Items<bool>],
    unit: usize,
) -> Result<Items<usize>, AllocError> {
    let mut way = Items::new(alloc);
    let mut at = unit;
    for level in levels.iter().rev() {
        let Some(next) = first_set(all, at, level) else {
            return Ok(way);
        };
        way.push(next)?;
        at = next;
    }
    Ok(way)
}

/// The units of a chain of too many, after its first: as many uses as it takes lead from that; fewer where there is none.
pub(crate) fn too_long(
    alloc: Global,
    names: &Scoped,
    unit: usize,
) -> Result<Items<usize>, AllocError> {
    let all = uses(alloc, names, true)?;
    let levels = leading(alloc, &all)?;
    chain_among(alloc, &all, levels.as_slice(), unit)
}
