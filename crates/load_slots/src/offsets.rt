// How far the variables of units and the words of blocks are from the first.

ghost use Rattle.std.specs.Prelude.{◌≡◌, ◌++◌, IfOk, OnOk};
ghost use Rattle.load_slots.specs.Making.{no_offsets, with_offset, with_offsets, offsets_of};

use crate::sizes::{sum, variable_size};
use crate::variables::Variable;
use base_lists::Items;
use base_maps::Table;
use std::alloc::{AllocError, Global};

/// Offsets by names, and how many slots all take.
#[derive(Drop)]
pub struct Offsets {
    pub table: Table<usize>,
    pub total: usize,
}

// No variable yet.
fn no_offsets(alloc: Global) -> Offsets
    ensures { result ≡ no_offsets }
{
    Offsets {
        table: Table::new(alloc),
        total: 0,
    }
}

// Adds a name, if it is not there, and so many slots.
fn add_offset(
    alloc: Global,
    offsets: &mut Offsets,
    name: &str,
    size: usize,
) -> Result<(), AllocError>
    ensures { OnOk result (offsets.new ≡ with_offset offsets.old name.now size) }
{
    if offsets.table.get(name).is_none() {
        offsets.table.put(alloc, name, offsets.total)?;
    }
    offsets.total = sum(offsets.total, size);
    Ok(())
}

// Adds variables.
fn add_offsets(
    alloc: Global,
    sizes: &[usize],
    offsets: &mut Offsets,
    list: &[Variable],
) -> Result<(), AllocError>
    ensures { OnOk result (offsets.new ≡ with_offsets sizes.now offsets.old list.now) }
{
    'variables: for variable in list {
        let size = variable_size(true, sizes, variable.declared);
        add_offset(alloc, offsets, variable.name.as_str(), size)?;
    }
    Ok(())
}

/// The offsets of the variables of two lists, one after the other.
#[tactic(auto, using(crate::proofs::Counted::offsets_twice))]
pub fn offsets_of(
    alloc: Global,
    sizes: &[usize],
    own: &[Variable],
    others: &[Variable],
) -> Result<Table<usize>, AllocError>
    ensures { IfOk result (λ t. t ≡ offsets_of sizes.now (own.now ++ others.now)) }
{
    let mut offsets = no_offsets(alloc);
    add_offsets(alloc, sizes, &mut offsets, own)?;
    add_offsets(alloc, sizes, &mut offsets, others)?;
    Ok(offsets.table)
}
