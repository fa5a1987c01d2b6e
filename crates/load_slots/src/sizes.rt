// How many slots blocks and variables take.

ghost use Rattle.std.specs.Prelude.{◌≡◌, ◌+◌, map, slice_get, IsTrue, IfOk};
ghost use Rattle.il_semantics.specs.Meaning.{width, own_entities};
ghost use Rattle.load_slots.specs.Making.{shown, block_lists, size_or_zero, block_size, variable_size, list_size, sizes_to};
ghost use Rattle.load_slots.specs.Places.{capped};

use crate::standard::standard_size;
use crate::variables::{Variable, own_variables};
use base_lists::Items;
use il_syntax::tree::{Subrange, Unit};
use load_scope::Scoped;
use load_scope::entry::{BlockType, VariableType};
use std::alloc::{AllocError, Global};

// The own variables of each unit.
fn own_lists(
    alloc: Global,
    names: &Scoped,
    units: &[Unit],
) -> Result<Items<Items<Variable>>, AllocError>
    ensures { IfOk result (λ ls. ls ≡ map (λ u. map (shown names.now) (own_entities u)) units.now) }
{
    let mut lists = Items::new(alloc);
    for unit in units {
        lists.push(own_variables(alloc, names, unit)?)?;
    }
    Ok(lists)
}

/// The variables of each own block, by the numbers of the units.
pub fn block_lists(alloc: Global, names: &Scoped) -> Result<Items<Items<Variable>>, AllocError>
    ensures { IfOk result (λ ls. ls ≡ block_lists names.now) }
{
    own_lists(alloc, names, names.config().units.as_slice())
}

// The most slots that are counted.
const LIMIT: usize = 9_223_372_036_854_775_808;

/// The sum of two numbers of slots, as far as slots are counted.
pub fn sum(first: usize, second: usize) -> usize
    ensures { result ≡ capped (first + second) }
{
    first.saturating_add(second).min(LIMIT)
}

/// How many slots an array takes.
pub fn array_size(bounds: Subrange) -> usize
    ensures { result ≡ capped (width bounds) }
{
    if bounds.upper < bounds.lower {
        return 0;
    }
    sum(bounds.upper.abs_diff(bounds.lower) as usize, 1)
}

// How many slots a block takes, if the sizes of own ones are known.
fn block_size(known: bool, sizes: &[usize], block: Option<BlockType>) -> usize
    ensures { result ≡ block_size known sizes.now block }
{
    if !known {
        return 0;
    }
    match block {
        Some(BlockType::Own(number)) => size_at(sizes, number),
        Some(BlockType::Standard(block)) => standard_size(block),
        None => 0,
    }
}

// The size of a number, or 0 where there is none.
fn size_at(sizes: &[usize], place: usize) -> usize
    ensures { result ≡ size_or_zero (slice_get sizes.now place) }
{
    match sizes.get(place) {
        Some(size) => *size,
        None => 0,
    }
}

/// How many slots a variable takes, if the sizes of blocks are known.
pub(crate) fn variable_size(known: bool, sizes: &[usize], declared: VariableType) -> usize
    ensures { result ≡ variable_size known sizes.now declared }
{
    match declared {
        VariableType::Scalar(_) => 1,
        VariableType::Array { bounds, .. } => array_size(bounds),
        VariableType::Instance(block) => block_size(known, sizes, block),
    }
}

// How many slots variables take.
fn list_size(known: bool, sizes: &[usize], list: &[Variable]) -> usize
    ensures { result ≡ list_size known sizes.now 0 list.now }
{
    let mut total: usize = 0;
    'variables: for variable in list {
        total = sum(total, variable_size(known, sizes, variable.declared));
    }
    total
}

// The sizes of blocks, from those of the blocks in them.
fn next_sizes(
    alloc: Global,
    known: bool,
    sizes: &[usize],
    lists: &[Items<Variable>],
) -> Result<Items<usize>, AllocError>
    ensures { IfOk result (λ ns. ns ≡ map (λ vs. list_size known sizes.now 0 vs) lists.now) }
{
    let mut all = Items::new(alloc);
    for list in lists {
        all.push(list_size(known, sizes, list.as_slice()))?;
    }
    Ok(all)
}

// Whether sizes are the same.
#[tactic(auto, using(crate::proofs::Counted::same_sizes))]
fn are_same(first: &[usize], second: &[usize]) -> bool
    ensures { IsTrue result → first.now ≡ second.now }
{
    first == second
}

/// How many slots each own block takes: instances are no deeper than 17 in one another.
pub(crate) fn block_sizes(
    alloc: Global,
    lists: &[Items<Variable>],
) -> Result<Items<usize>, AllocError>
    ensures { IfOk result (λ ns. ns ≡ sizes_to 16 lists.now) }
{
    let mut sizes = next_sizes(alloc, false, &[], lists)?;
    for _ in 0..16usize {
        let next = next_sizes(alloc, true, sizes.as_slice(), lists)?;
        if are_same(next.as_slice(), sizes.as_slice()) {
            return Ok(next);
        }
        sizes = next;
    }
    Ok(sizes)
}
