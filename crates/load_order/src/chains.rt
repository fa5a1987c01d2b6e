// Chains of uses that name no unit twice.

ghost use Rattle.std.specs.Prelude.{◌≡◌, ◌+◌, ◌<◌, ◌≤◌, ◌++◌, ◌∷◌, IfOk, IfSome, None, [], true, false, length, slice_set, get_or};
ghost use Rattle.load_order.specs.Related.{holds};
ghost use Rattle.load_order.specs.Used.{is_among};
ghost use Rattle.load_order.specs.Chained.{is_long, leads_on, is_shut, AreAmong, AreDead};
ghost use Rattle.load_order.specs.Bounded.{AreLimits};

use crate::dead_ends::{DeadEnd, DeadEnds, merge, met, note, without};
use crate::limits::{Limits, cut_off};
use crate::relation::{Relation, holds};
use crate::uses::is_among;
use arrayvec::ArrayVec;
use base_lists::Items;
use il_statics::limits::LONGEST_CHAIN;
use std::alloc::{AllocError, Global};

// The units on the way of a search.
type Way = ArrayVec<usize, LONGEST_CHAIN>;

/// Whether a chain of more than 16 units, itself counted, that names none twice leads from a unit. Dead ends that are found are noted.
pub fn is_long(
    alloc: Global,
    uses: &Relation,
    limits: &Limits,
    ends: &mut DeadEnds,
    unit: usize,
) -> Result<bool, AllocError>
    requires unit { unit < length ends.old.items }
    requires count { length ends.old.items ≡ length uses.now }
    requires limits { AreLimits (length uses.now) uses.now limits.now }
    requires dead { AreDead (length ends.old.items) uses.now ends.old.items }
    ensures units { IfOk result (λ _. length ends.new.items ≡ length ends.old.items) }
    ensures dead { IfOk result (λ _. AreDead (length ends.old.items) uses.now ends.new.items) }
    ensures is { IfOk result (λ long. long ≡ is_long (length ends.old.items) uses.now unit) }
{
    let mut way = ArrayVec::new();
    let shut = leads_on(alloc, uses, limits, ends, LONGEST_CHAIN, &mut way, unit)?;
    Ok(shut.is_none())
}

// Whether so many uses lead on from a unit, to none on the way to it. If not, some of the units on the way suffice for that.
fn leads_on(
    alloc: Global,
    uses: &Relation,
    limits: &Limits,
    ends: &mut DeadEnds,
    left: usize,
    way: &mut Way,
    from: usize,
) -> Result<Option<Items<usize>>, AllocError>
    requires room { length way.old.items + left ≤ LONGEST_CHAIN }
    requires unit { from < length ends.old.items }
    requires away { is_among way.old.items from ≡ false }
    requires count { length ends.old.items ≡ length uses.now }
    requires limits { AreLimits (length uses.now) uses.now limits.now }
    requires dead { AreDead (length ends.old.items) uses.now ends.old.items }
    ensures same { IfOk result (λ _. way.new.items ≡ way.old.items) }
    ensures units { IfOk result (λ _. length ends.new.items ≡ length ends.old.items) }
    ensures dead { IfOk result (λ _. AreDead (length ends.old.items) uses.now ends.new.items) }
    ensures found { IfOk result (λ o. o ≡ None
        → leads_on (length ends.old.items) uses.now left way.old.items from ≡ true) }
    ensures among { IfOk result (λ o. IfSome o (λ reason. AreAmong reason way.old.items)) }
    ensures none { IfOk result (λ o. IfSome o
        (λ reason. leads_on (length ends.old.items) uses.now left reason from ≡ false)) }
{
    if left == 0 {
        return Ok(None);
    }
    if let Some(others) = cut_off(alloc, uses, limits, left, way.as_slice(), from)? {
        return Ok(Some(shut(alloc, ends, left, from, others)?));
    }
    way.push(from);
    let mut reason = Items::new(alloc);
    let mut found = false;
    let count = ends.len();
    for to in 0..count {
        if !found && !is_shut(uses, ends, left - 1, way.as_slice(), from, to, &mut reason)? {
            match leads_on(alloc, uses, limits, ends, left - 1, way, to)? {
                None => found = true,
                Some(more) => merge(&mut reason, more.as_slice())?,
            }
        }
    }
    way.pop();
    if found {
        return Ok(None);
    }
    let others = without(alloc, from, reason.as_slice())?;
    Ok(Some(shut(alloc, ends, left, from, others)?))
}

// Notes that no chain of so many uses leads from a unit with these on the way.
fn shut(
    alloc: Global,
    ends: &mut DeadEnds,
    left: usize,
    from: usize,
    others: Items<usize>,
) -> Result<Items<usize>, AllocError>
    requires { from < length ends.old.items }
    ensures same { IfOk result (λ r. r ≡ others) }
    ensures noted { IfOk result (λ _. (d : _) → ends.new.items
        ≡ slice_set ends.old.items from
        (get_or ends.old.items from d ++ record { left = left; on_way = others } ∷ [])) }
{
    let on_way = others.try_copy(alloc)?;
    note(ends, from, DeadEnd { left, on_way })?;
    Ok(others)
}

// Whether a unit doesn't use another, or is known not to lead on there. The units on the way that suffice for it are added to the reason.
fn is_shut(
    uses: &Relation,
    ends: &DeadEnds,
    left: usize,
    way: &[usize],
    from: usize,
    to: usize,
    reason: &mut Items<usize>,
) -> Result<bool, AllocError>
    requires unit { to < length ends.now.items }
    requires dead { AreDead (length ends.now.items) uses.now ends.now.items }
    ensures more { IfOk result (λ _. AreAmong reason.old reason.new) }
    ensures among { IfOk result (λ _. AreAmong reason.old way.now → AreAmong reason.new way.now) }
    ensures shut { IfOk result (λ b. b ≡ true → holds uses.now from to ≡ true
        → is_shut (length ends.now.items) uses.now left reason.new to ≡ true) }
    ensures open { IfOk result (λ b. b ≡ false → holds uses.now from to ≡ true
        × (is_among way.now to ≡ false)) }
{
    if !holds(uses, from, to) {
        return Ok(true);
    }
    let known = ends[to].as_slice();
    if let Some(at) = met(known, left, way) {
        merge(reason, known[at].on_way.as_slice())?;
        return Ok(true);
    }
    let again = is_among(way, to);
    if again {
        merge(reason, &[to])?;
    }
    Ok(again)
}
