// The offsets of all names.

ghost use Rattle.std.specs.Prelude.{◌≡◌, ◌<◌, length, map, slice_get, Some, IfOk};
ghost use Rattle.load_slots.specs.Making.{shown, block_lists, sizes_of, offsets_of, unit_offsets, all_offsets};
ghost use Rattle.il_syntax.specs.declared.tree.Unit.{Unit as ProgramUnit};
ghost use Rattle.il_semantics.specs.Meaning.{own_entities};

use crate::offsets::offsets_of;
use crate::sizes::block_sizes;
use crate::variables::{Variable, other_variables};
use base_lists::Items;
use base_maps::Table;
use il_syntax::tree::Unit;
use load_scope::Scoped;
use std::alloc::{AllocError, Global};

// The offsets of a unit's names.
#[tactic(auto, using(crate::proofs::Counted::unit_list))]
fn unit_offsets(
    alloc: Global,
    names: &Scoped,
    sizes: &[usize],
    own: &[Variable],
    unit: &Unit,
) -> Result<Table<usize>, AllocError>
    requires sizes { sizes.now ≡ sizes_of names.now }
    requires own { own.now ≡ map (shown names.now) (own_entities unit.now) }
    ensures { IfOk result (λ t. t ≡ unit_offsets names.now unit.now) }
{
    let others = other_variables(alloc, names, unit)?;
    offsets_of(alloc, sizes, own, others.as_slice())
}

// The offsets of the names of the unit of a number.
fn table_at(
    alloc: Global,
    names: &Scoped,
    sizes: &[usize],
    lists: &[Items<Variable>],
    at: usize,
) -> Result<Table<usize>, AllocError>
    requires sizes { sizes.now ≡ sizes_of names.now }
    requires lists { lists.now ≡ block_lists names.now }
    requires at { at < length names.now.units }
    ensures { IfOk result (λ t. (u : ProgramUnit) → slice_get names.now.units at ≡ Some u → t
        ≡ unit_offsets names.now u) }
{
    let unit = &names.config().units.as_slice()[at];
    let own = lists[at].as_slice();
    unit_offsets(alloc, names, sizes, own, unit)
}

// The offsets of each unit's names.
fn units_offsets(
    alloc: Global,
    names: &Scoped,
    sizes: &[usize],
    lists: &[Items<Variable>],
) -> Result<Items<Table<usize>>, AllocError>
    requires sizes { sizes.now ≡ sizes_of names.now }
    requires lists { lists.now ≡ block_lists names.now }
    ensures { IfOk result (λ ts. ts ≡ map (unit_offsets names.now) names.now.units) }
{
    let units = names.config().units.as_slice().len();
    let mut tables = Items::new(alloc);
    for at in 0..units {
        tables.push(table_at(alloc, names, sizes, lists, at)?)?;
    }
    Ok(tables)
}

/// The offsets of each unit's names, from the variables of all blocks.
#[tactic(auto, using(crate::proofs::Counted::sizes_found))]
pub fn all_offsets(
    alloc: Global,
    names: &Scoped,
    lists: &[Items<Variable>],
) -> Result<Items<Table<usize>>, AllocError>
    requires lists { lists.now ≡ block_lists names.now }
    ensures { IfOk result (λ ts. ts ≡ all_offsets names.now) }
{
    let sizes = block_sizes(alloc, lists)?;
    units_offsets(alloc, names, sizes.as_slice(), lists)
}
