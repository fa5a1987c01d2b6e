// What is known where two paths meet.

ghost use Rattle.std.specs.Prelude.{◌≡◌, length, Option, Some, None, if◌then◌else◌};
ghost use Rattle.ranges_laws.specs.Facts.{known_join, result_join, is_same_operator, one_join, deferred_join, row_join, facts_join};
ghost use Rattle.il_semantics.specs.declared.known.KnownDeferred.{KnownDeferred};

use crate::carried::Carried;
use base_lists::Items;
use il_semantics::known::{Known, KnownDeferred};
use il_statics::elementary::is_same_type;
use ranges_laws::facts::Facts;
use ranges_rows::{Row, hull};

// What is known of a value from two paths, if it has one type.
fn known_join(first: Known, second: Known) -> Option<Known>
    ensures { result ≡ known_join first second }
{
    match (first, second) {
        (Known::Flag, Known::Flag) => Some(Known::Flag),
        (Known::Ranged(elementary, first), Known::Ranged(other, second)) => {
            if is_same_type(elementary, other) {
                Some(Known::Ranged(elementary, hull(first, second)))
            } else {
                None
            }
        }
        _ => None,
    }
}

// The result, where both have it with one type.
fn result_join(first: Option<Known>, second: Option<Known>) -> Option<Known>
    ensures { result ≡ result_join first second }
{
    match (first, second) {
        (Some(first), Some(second)) => known_join(first, second),
        _ => None,
    }
}

// What was set aside on two paths, if it is the same operator with one type.
fn one_join(first: KnownDeferred, second: KnownDeferred) -> Option<KnownDeferred>
    ensures { result ≡ one_join first second }
{
    if first.operator != second.operator {
        return None;
    }
    match known_join(first.left, second.left) {
        Some(left) => Some(KnownDeferred {
            operator: first.operator,
            left,
        }),
        None => None,
    }
}

// All that was set aside on two paths, if it is the same.
fn join_deferred(deferred: &mut Items<KnownDeferred>, other: &Items<KnownDeferred>) -> bool
    ensures { deferred_join deferred.old other.now ≡ (if result then Some deferred.new else None) }
{
    if deferred.as_slice().len() != other.as_slice().len() {
        return false;
    }
    for number in 0..other.as_slice().len() {
        let Some(joined) = one_join(deferred.as_slice()[number], other.as_slice()[number]) else {
            return false;
        };
        deferred.set(number, joined);
    }
    true
}

/// Each range with that of the same number.
pub fn join_rows(row: &mut Row, other: &Row)
    requires { length row.old ≡ length other.now }
    ensures { row.new ≡ row_join row.old other.now }
{
    row.join(other);
}

// What is known on two paths, if something covers both.
fn join_into(facts: &mut Facts, other: &Facts) -> bool
    ensures { facts_join facts.old other.now ≡ (if result then Some facts.new else None) }
{
    if facts.row.len() != other.row.len() {
        return false;
    }
    if !join_deferred(&mut facts.deferred, &other.deferred) {
        return false;
    }
    join_rows(&mut facts.row, &other.row);
    facts.result = result_join(facts.result, other.result);
    true
}

/// What is known where two paths meet, if something covers both.
pub fn join_facts(first: Carried, second: Carried) -> Option<Carried>
    ensures { result ≡ facts_join first second }
{
    let mut facts = first;
    if join_into(&mut *facts.kept, &*second.kept) {
        Some(facts)
    } else {
        None
    }
}
