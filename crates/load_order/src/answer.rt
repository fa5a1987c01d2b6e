// The rules of order and of slots in a configuration.

ghost use Rattle.std.specs.Prelude.{◌≡◌, ◌<◌, IfOk, length};
ghost use Rattle.il_statics.specs.Faults.{HasNoFault, BreaksDeclarations, BreaksOrder};
ghost use Rattle.il_statics.specs.Least.{IsLeast, earlier_of, fault_of};
ghost use Rattle.load_order.specs.Breaks as breaks;
ghost use Rattle.load_order.specs.Instances.{needed};
ghost use Rattle.load_order.specs.Breaks.{RecursionsBreak, UnitsBreak, LinesBreak, GlobalsBreak, SlotsBreak, precedes};
ghost use Rattle.load_order.specs.Bounded.{AreLimits};
ghost use Rattle.load_order.specs.Chained.{AreDead, is_long};
ghost use Rattle.load_order.specs.Related.{closed};

use crate::chains::is_long;
use crate::dead_ends::{DeadEnds, no_ends};
use crate::fault::OrderFault;
use crate::limits::{Limits, limits_of};
use crate::relation::{Relation, closed, holds};
use crate::slots::{counts, is_over, unit_counts, with_variables};
use crate::uses::{are_named, uses};
use crate::variables::{all_listed, units_listed};
use base_lists::Items;
use il_statics::limits::MOST_TASK_SLOTS;
use il_statics::{Found, PhaseFault, earlier, fault_if};
use il_syntax::tree::Place;
use load_scope::Scoped;
use std::alloc::{AllocError, Global};

/// What is found of a configuration's order.
#[derive(Drop)]
pub struct Checked {
    /// The first fault of order and of slots.
    pub fault: Option<Found<OrderFault>>,
    /// Which units reach which.
    pub reached: Relation,
}

/// Finds the first fault of order and of slots, and which units reach which.
pub fn order_fault(alloc: Global, names: &Scoped) -> Result<Checked, AllocError>
    requires { HasNoFault (BreaksDeclarations names.now) }
    ensures fault { IfOk result (λ c. IsLeast c.fault (λ n p. BreaksOrder names.now n p)) }
    ensures reached { IfOk result (λ c. c.reached ≡ breaks.reached names.now) }
{
    let count = names.config().units.as_slice().len();
    let uses = uses(alloc, names, true)?;
    let reached = closed(alloc, &uses, count)?;
    let units = units_fault(alloc, names, &uses, &reached)?;
    let slots = slots_fault(alloc, names, &reached)?;
    Ok(Checked {
        fault: earlier(units, slots),
        reached,
    })
}

/// Which units need which, by calls and by instances that have a name: those that reach each other, where each declaration has one.
pub fn needed(alloc: Global, names: &Scoped, reached: Relation) -> Result<Relation, AllocError>
    requires { reached ≡ breaks.reached names.now }
    ensures { IfOk result (λ r. r ≡ needed names.now) }
{
    let units = names.config().units.as_slice();
    if are_named(units) {
        Ok(reached)
    } else {
        closed(alloc, &uses(alloc, names, false)?, units.len())
    }
}

// The first unit that reaches itself, or has a chain of uses that is too long.
fn units_fault(
    alloc: Global,
    names: &Scoped,
    uses: &Relation,
    reached: &Relation,
) -> Result<Option<Found<OrderFault>>, AllocError>
    requires count { length uses.now ≡ length names.now.units }
    requires reached { reached.now ≡ closed (length uses.now) uses.now (length uses.now) }
    ensures { IfOk result (λ found. IsLeast found (UnitsBreak names.now uses.now reached.now)) }
{
    let units = names.config().units.as_slice();
    let limits = limits_of(alloc, uses, reached, units.len())?;
    let mut ends = no_ends(alloc, units.len())?;
    let mut found = recursive_fault(names, reached);
    for at in 0..units.len() {
        let unit = &units[at];
        found = with_chain(alloc, uses, &limits, &mut ends, at, unit.place, found)?;
    }
    Ok(found)
}

// The first unit that reaches itself.
fn recursive_fault(names: &Scoped, reached: &Relation) -> Option<Found<OrderFault>>
    ensures { IsLeast result (RecursionsBreak names.now reached.now (length names.now.units)) }
{
    let units = names.config().units.as_slice();
    let mut found = None;
    for at in 0..units.len() {
        let unit = &units[at];
        let here = fault_if(holds(reached, at, at), OrderFault::Recursive, unit.place);
        found = earlier(found, here);
    }
    found
}

// The first of what was found and of a unit's chain that is too long. Such a chain is searched only where it would be the first.
fn with_chain(
    alloc: Global,
    uses: &Relation,
    limits: &Limits,
    ends: &mut DeadEnds,
    at: usize,
    place: Place,
    found: Option<Found<OrderFault>>,
) -> Result<Option<Found<OrderFault>>, AllocError>
    requires unit { at < length ends.old.items }
    requires count { length ends.old.items ≡ length uses.now }
    requires limits { AreLimits (length uses.now) uses.now limits.now }
    requires dead { AreDead (length ends.old.items) uses.now ends.old.items }
    ensures units { IfOk result (λ _. length ends.new.items ≡ length ends.old.items) }
    ensures dead { IfOk result (λ _. AreDead (length ends.old.items) uses.now ends.new.items) }
    ensures first { IfOk result (λ r. r ≡ earlier_of found
        (fault_of (is_long (length ends.old.items) uses.now at) 46 place)) }
{
    if !precedes(place, &found) {
        return Ok(found);
    }
    let long = is_long(alloc, uses, limits, ends, at)?;
    Ok(earlier(found, fault_if(long, OrderFault::TooDeepCalls, place)))
}

// Whether a chain that is too long, from a unit at this place, would be named before a fault.
fn precedes(place: Place, found: &Option<Found<OrderFault>>) -> bool
    ensures { result ≡ precedes place found.now }
{
    match found {
        None => true,
        Some(fault) => {
            let there = fault.place().offset;
            if place.offset == there {
                OrderFault::TooDeepCalls.number() < fault.number()
            } else {
                place.offset < there
            }
        }
    }
}

// The first task, or the globals, with too many slots.
fn slots_fault(
    alloc: Global,
    names: &Scoped,
    reached: &Relation,
) -> Result<Option<Found<OrderFault>>, AllocError>
    requires { reached.now ≡ breaks.reached names.now }
    ensures { IfOk result (λ found. IsLeast found (SlotsBreak names.now)) }
{
    let depth = names.config().units.as_slice().len() + 1;
    let units = units_listed(alloc, names)?;
    let counted = counts(alloc, &units, depth)?;
    let all = unit_counts(alloc, &units, depth, &counted)?;
    let declared = all_listed(alloc, names, names.config().globals.as_slice())?;
    let globals = globals_fault(names, with_variables(depth, &counted, &declared));
    Ok(earlier(lines_fault(names, reached, &all), globals))
}

// The first PROGRAM line whose program needs too many slots.
fn lines_fault(
    names: &Scoped,
    reached: &Relation,
    counted: &Items<usize>,
) -> Option<Found<OrderFault>>
    ensures { IsLeast result (LinesBreak names.now reached.now counted.now
        (length names.now.programs)) }
{
    let lines = names.config().programs.as_slice();
    let mut found = None;
    for at in 0..lines.len() {
        let line = &lines[at];
        let over = is_over(names, reached, counted, line);
        found = earlier(found, fault_if(over, OrderFault::TooMany, line.place));
    }
    found
}

// Globals with so many slots, if these are too many, at their VAR_GLOBAL.
fn globals_fault(names: &Scoped, total: usize) -> Option<Found<OrderFault>>
    ensures { IsLeast result (GlobalsBreak names.now total) }
{
    match names.config().globals_place {
        Some(place) => fault_if(total > MOST_TASK_SLOTS, OrderFault::TooMany, place),
        None => None,
    }
}
