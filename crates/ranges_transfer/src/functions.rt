// Standard functions of ranges (IEC 61131-3:2003, 2.5.1.5).

ghost use Rattle.std.specs.Prelude.{◌≡◌, ◌∷◌, []};
ghost use Rattle.il_statics.specs.declared.names.StandardFunction.TheVariants.{Limited};
ghost use Rattle.il_statics.specs.Names as names;
ghost use Rattle.ranges_laws.specs.Facts.{IsFineKnown};
ghost use Rattle.ranges_laws.specs.Found.{found_selected, found_applied};

use crate::known::fitting;
use il_semantics::known::Known;
use il_statics::elementary::{is_same_type, is_whole};
use il_statics::names::StandardFunction;
use ranges_interval::Interval;
use ranges_rows::hull;

/// A function of the current result alone.
pub fn applied_alone(function: StandardFunction, first: Known) -> Option<Known>
    requires { IsFineKnown first }
    ensures { result ≡ found_applied function first [] }
{
    let Known::Ranged(elementary, range) = first else {
        return None;
    };
    match function {
        StandardFunction::Absolute => {
            if is_whole(elementary) {
                fitting(elementary, range.abs())
            } else {
                None
            }
        }
        StandardFunction::Converted(from, to) => {
            if is_same_type(elementary, from) {
                fitting(to, range)
            } else {
                None
            }
        }
        _ => None,
    }
}

/// A function of the current result and another value.
pub fn applied_to_one(function: StandardFunction, first: Known, second: Known) -> Option<Known>
    requires first { IsFineKnown first }
    requires second { IsFineKnown second }
    ensures { result ≡ found_applied function first (second ∷ []) }
{
    let (Known::Ranged(elementary, left), Known::Ranged(other, right)) = (first, second) else {
        return None;
    };
    if !is_same_type(elementary, other) {
        return None;
    }
    match function {
        StandardFunction::Minimum => fitting(elementary, left.min(right)),
        StandardFunction::Maximum => fitting(elementary, left.max(right)),
        _ => None,
    }
}

// SEL gives both of its inputs.
fn selected(first: Known, second: Known) -> Option<Known>
    ensures { result ≡ found_selected first second }
{
    match (first, second) {
        (Known::Flag, Known::Flag) => Some(Known::Flag),
        (Known::Ranged(elementary, first), Known::Ranged(other, second)) => {
            if is_same_type(elementary, other) {
                fitting(elementary, hull(first, second))
            } else {
                None
            }
        }
        _ => None,
    }
}

// LIMIT.
fn limited(least: Known, input: Known, most: Known) -> Option<Known>
    requires least { IsFineKnown least }
    requires input { IsFineKnown input }
    requires most { IsFineKnown most }
    ensures { result ≡ found_applied Limited least (input ∷ most ∷ []) }
{
    match (least, input, most) {
        (
            Known::Ranged(elementary, least),
            Known::Ranged(first, input),
            Known::Ranged(second, most),
        ) => {
            if is_same_type(elementary, first) && is_same_type(elementary, second) {
                fitting(elementary, Interval::limit(least, input, most))
            } else {
                None
            }
        }
        _ => None,
    }
}

/// A function of the current result and two other values.
pub fn applied_to_two(
    function: StandardFunction,
    first: Known,
    second: Known,
    third: Known,
) -> Option<Known>
    requires first { IsFineKnown first }
    requires second { IsFineKnown second }
    requires third { IsFineKnown third }
    ensures { result ≡ found_applied function first (second ∷ third ∷ []) }
{
    match (function, first) {
        (StandardFunction::Limited, first) => limited(first, second, third),
        (StandardFunction::Selected, Known::Flag) => selected(second, third),
        _ => None,
    }
}
