// A unit with the tables of its names.

ghost use Rattle.std.specs.Prelude.{◌≡◌, Some, IfOk, option_and_then, slice_get};
ghost use Rattle.il_statics.specs.Names.{unit_named};
ghost use Rattle.base_maps.specs.NameMap as map;
ghost use Rattle.load_slots.specs.Making.{IsChecked, all_offsets, unit_offsets};
ghost use Rattle.load_code.specs.Resolving.{known, known_by, word_offset, input_known, output_known, function_known, unit_inputs, IsSmall};

use crate::operands::Known;
use base_lists::Items;
use base_maps::Table;
use load_scope::UnitScope;
use load_scope::entry::{BlockType, VariableType};
use load_slots::standard_offset;
use load_slots::variables::{Variable, input_variables};
use std::alloc::{AllocError, Global};

/// A unit of a configuration with the offsets of its names, and those of all names.
#[derive(Drop)]
pub struct Here<'a> {
    pub scope: UnitScope<'a>,
    pub own: &'a Table<usize>,
    pub tables: &'a [Table<usize>],
    pub ghost there: { unit_named scope.config scope.unit.name.name ≡ Some scope.unit },
    pub ghost offsets: { own.now ≡ unit_offsets scope.config scope.unit },
    pub ghost all: { tables.now ≡ all_offsets scope.config },
    pub ghost checked: { IsChecked scope.config },
}

// A type with an offset, where both are there.
fn known_by(declared: Option<VariableType>, offset: Option<usize>) -> Option<Known>
    ensures { result ≡ known_by declared offset }
{
    match (declared, offset) {
        (Some(declared), Some(offset)) => Some(Known { declared, offset }),
        _ => None,
    }
}

// The offset of a name in the table of a number.
fn offset_at(tables: &[Table<usize>], at: usize, name: &str) -> Option<usize>
    ensures { result ≡ option_and_then (λ t. map.get t name.now) (slice_get tables.now at) }
{
    match tables.get(at) {
        Some(table) => table.get(name),
        None => None,
    }
}

impl Here<'_> {
    /// The variable that a name means, with its offset.
    #[inline(always)]
    pub fn known(&self, name: &str) -> Option<Known>
        ensures is { result ≡ known self.now.scope.config self.now.scope.unit name.now }
        ensures small { IsSmall result }
    {
        known_by(self.scope.declared_type(name), self.own.get(name))
    }

    // The offset of a word in its block.
    fn word_offset(&self, block: BlockType, word: &str) -> Option<usize>
        ensures { result ≡ word_offset self.now.scope.config block word.now }
    {
        match block {
            BlockType::Own(unit) => offset_at(self.tables, unit, word),
            BlockType::Standard(block) => standard_offset(block, word),
        }
    }

    /// An input of a block.
    pub fn input(&self, block: BlockType, word: &str) -> Option<Known>
        ensures { result ≡ input_known self.now.scope.config block word.now }
    {
        let declared = self.scope.names().block_input(block, word);
        known_by(declared, self.word_offset(block, word))
    }

    /// An output of a block.
    pub fn output(&self, block: BlockType, word: &str) -> Option<Known>
        ensures { result ≡ output_known self.now.scope.config block word.now }
    {
        let declared = self.scope.names().block_output(block, word);
        known_by(declared, self.word_offset(block, word))
    }

    // The offset of a variable of the unit of a number.
    fn offset_in(&self, unit: usize, name: &str) -> Option<usize>
        ensures { result ≡ option_and_then (λ t. map.get t name.now)
            (slice_get (all_offsets self.now.scope.config) unit) }
    {
        offset_at(self.tables, unit, name)
    }

    /// A variable of the unit of a number, with its offset.
    pub fn function_variable(&self, unit: usize, variable: &Variable) -> Option<Known>
        ensures { result ≡ function_known self.now.scope.config unit variable.now }
    {
        let offset = self.offset_in(unit, variable.name.as_str());
        known_by(Some(variable.declared), offset)
    }

    /// The inputs of the unit of a number.
    pub fn inputs_of(&self, alloc: Global, unit: usize) -> Result<Items<Variable>, AllocError>
        ensures { IfOk result (λ vs. vs ≡ unit_inputs self.now.scope.config unit) }
    {
        let names = self.scope.names();
        match names.config().units.as_slice().get(unit) {
            Some(unit) => input_variables(alloc, names, unit),
            None => Ok(Items::new(alloc)),
        }
    }
}
