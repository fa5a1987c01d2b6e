// What is reported of chains of uses.

ghost use Rattle.std.specs.Prelude.{◌≡◌, Some, IfOk, IfSome, slice_get, string_bytes};
ghost use Rattle.reasons_faults.specs.ChainReasons.{AreToldBetween, IsRecursionTold, IsLongChainTold, AreToldOfChains};

use crate::chain_search::{too_long, way_to_itself};
use crate::chain_uses::{is_apart, put_uses};
use il_syntax::tree::{Place, Unit};
use load_scope::Scoped;
use std::alloc::{AllocError, Global};

// A unit, and its number.
#[derive(Clone, Copy)]
struct Numbered<'n> {
    at: usize,
    unit: &'n Unit,
}

// The unit whose heading is at an offset.
fn unit_at(units: &[Unit], offset: u32) -> Option<Numbered<'_>>
    ensures unit { IfSome result (λ n. slice_get units.now n.at ≡ Some n.unit.now) }
    ensures stands { IfSome result (λ n. n.unit.now.place.offset ≡ offset) }
{
    for at in 0..units.len() {
        let unit = &units[at];
        if unit.place.offset == offset {
            return Some(Numbered { at, unit });
        }
    }
    None
}

// What is reported of uses, or nothing where one of them is none.
fn uses_told(
    alloc: Global,
    names: &Scoped,
    unit: &Unit,
    between: &[usize],
    other: usize,
) -> Result<Option<String>, AllocError>
    ensures { IfOk result (λ found. IfSome found (λ t.
        AreToldBetween names.now unit.now between.now other (string_bytes t))) }
{
    let mut text = String::new(alloc);
    if put_uses(&mut text, names, unit, between, other)? {
        Ok(Some(text))
    } else {
        Ok(None)
    }
}

// What is reported of a unit that uses itself through others.
fn recursion_told(
    alloc: Global,
    names: &Scoped,
    at: usize,
    unit: &Unit,
) -> Result<Vec<u8>, AllocError>
    requires { slice_get names.now.units at ≡ Some unit.now }
    ensures { IfOk result (λ lines. IsRecursionTold names.now unit.now lines.items) }
{
    let Some(between) = way_to_itself(alloc, names, at)? else {
        return Ok(Vec::new(alloc));
    };
    match uses_told(alloc, names, unit, between.as_slice(), at)? {
        Some(text) => Ok(text.into_bytes()),
        None => Ok(Vec::new(alloc)),
    }
}

// What is reported of a chain of units, by the numbers of those after its first.
fn chain_told(
    alloc: Global,
    names: &Scoped,
    unit: &Unit,
    chain: &[usize],
) -> Result<Vec<u8>, AllocError>
    ensures { IfOk result (λ lines. IsLongChainTold names.now unit.now lines.items) }
{
    let Some((last, between)) = chain.split_last() else {
        return Ok(Vec::new(alloc));
    };
    if between.len() < 15 || !is_apart(names, unit.name.name.as_str(), between, *last) {
        return Ok(Vec::new(alloc));
    }
    match uses_told(alloc, names, unit, between, *last)? {
        Some(text) => Ok(text.into_bytes()),
        None => Ok(Vec::new(alloc)),
    }
}

// What is reported of a unit from which a chain of too many units leads.
fn long_told(alloc: Global, names: &Scoped, at: usize, unit: &Unit) -> Result<Vec<u8>, AllocError>
    ensures { IfOk result (λ lines. IsLongChainTold names.now unit.now lines.items) }
{
    let chain = too_long(alloc, names, at)?;
    chain_told(alloc, names, unit, chain.as_slice())
}

/// What is reported of a chain of uses that was refused at a place (own rule): of 36 the uses from the unit of the place back to
/// itself, of 46 the uses of a chain of at least 17 units from there on, each with its line.
pub(crate) fn told(
    alloc: Global,
    names: &Scoped,
    number: u16,
    place: Place,
) -> Result<Vec<u8>, AllocError>
    ensures { IfOk result (λ lines. AreToldOfChains names.now number place lines.items) }
{
    let units = names.config().units.as_slice();
    let Some(found) = unit_at(units, place.offset) else {
        return Ok(Vec::new(alloc));
    };
    match number {
        36 => recursion_told(alloc, names, found.at, found.unit),
        46 => long_told(alloc, names, found.at, found.unit),
        _ => Ok(Vec::new(alloc)),
    }
}
