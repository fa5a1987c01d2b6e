// Units and blocks by names.

ghost use Rattle.std.specs.Prelude.{◌≡◌, Some, None, IfSome, option_map, option_and_then, slice_get};
ghost use Rattle.il_syntax.specs.declared.tree.Config.{Config};
ghost use Rattle.il_syntax.specs.declared.tree.Unit.{Unit as ProgramUnit};
ghost use Rattle.il_statics.specs.Names.{entry_of, is_one_of, standard_inputs, standard_outputs};
ghost use Rattle.il_statics.specs.Declarations.{names_of_units};
ghost use Rattle.il_statics.specs.Types.{label_place};
ghost use Rattle.load_scope.specs.declared.entry.BlockType.TheVariants.{Own};
ghost use Rattle.load_scope.specs.Views.{type_of, variables_of_block};
ghost use Rattle.load_scope.specs.StoredNames.{is_stored};
ghost use Rattle.load_scope.specs.Tables.{AreUnits, AreTables};
ghost use Rattle.load_scope.specs.Units.{AreInputsOf};

use crate::blocks::{standard_input, standard_output};
use crate::entry::{BlockType, VariableType};
use crate::image::plain;
use crate::tables::Tables;
use base_maps::Table;
use il_statics::names::StandardBlock;
use il_syntax::tree::Scalar;

/// Whether a unit has a name, predeclared or not.
pub fn is_unit(units: &Table<usize>, name: &str) -> bool
    ensures { (config : Config) → AreUnits config units.now → result
        ≡ is_one_of (names_of_units config) name.now }
{
    units.get(name).is_some()
}

/// The type of a block's input by its word (IEC 61131-3:2003, 2.5.2).
pub fn block_input(tables: &Tables, block: BlockType, word: &str) -> Option<VariableType>
    ensures { (config : Config) → AreTables config tables.now → result
        ≡ option_map (type_of config) (option_and_then (λ b. entry_of b.inputs word.now)
        (variables_of_block config block)) }
{
    match block {
        BlockType::Standard(standard) => standard_input_type(standard, word),
        BlockType::Own(number) => own_input(tables, number, word),
    }
}

// The type of a standard block's input by its word (2.5.2.3).
fn standard_input_type(block: StandardBlock, word: &str) -> Option<VariableType>
    ensures { (config : Config) → result
        ≡ option_map (type_of config) (entry_of (standard_inputs block) word.now) }
{
    match standard_input(block, word) {
        Some(elementary) => Some(VariableType::Scalar(plain(elementary))),
        None => None,
    }
}

// The type of an own block's input by its word.
fn own_input(tables: &Tables, number: usize, word: &str) -> Option<VariableType>
    ensures { (config : Config) → AreTables config tables.now → result
        ≡ option_map (type_of config) (option_and_then (λ b. entry_of b.inputs word.now)
        (variables_of_block config (Own number))) }
{
    match tables.scopes.as_slice().get(number) {
        Some(scope) => scope.inputs.get(word),
        None => None,
    }
}

/// The type of a block's output by its word (IEC 61131-3:2003, 2.5.2).
pub fn block_output(tables: &Tables, block: BlockType, word: &str) -> Option<VariableType>
    ensures { (config : Config) → AreTables config tables.now → result
        ≡ option_map (type_of config) (option_and_then (λ b. entry_of b.outputs word.now)
        (variables_of_block config block)) }
{
    match block {
        BlockType::Standard(standard) => standard_output_type(standard, word),
        BlockType::Own(number) => own_output(tables, number, word),
    }
}

// The type of a standard block's output by its word (2.5.2.3).
fn standard_output_type(block: StandardBlock, word: &str) -> Option<VariableType>
    ensures { (config : Config) → result
        ≡ option_map (type_of config) (entry_of (standard_outputs block) word.now) }
{
    match standard_output(block, word) {
        Some(elementary) => Some(VariableType::Scalar(plain(elementary))),
        None => None,
    }
}

// The type of an own block's output by its word.
fn own_output(tables: &Tables, number: usize, word: &str) -> Option<VariableType>
    ensures { (config : Config) → AreTables config tables.now → result
        ≡ option_map (type_of config) (option_and_then (λ b. entry_of b.outputs word.now)
        (variables_of_block config (Own number))) }
{
    match tables.scopes.as_slice().get(number) {
        Some(scope) => scope.outputs.get(word),
        None => None,
    }
}

/// The scalar types of the inputs of the unit of a number, in their order.
pub fn input_scalars(tables: &Tables, number: usize) -> Option<&[Option<Scalar>]>
    ensures none { result ≡ None → (config : Config) → AreTables config tables.now
        → slice_get config.units number ≡ None }
    ensures some { IfSome result (λ inputs. (config : Config) → AreTables config tables.now
        → AreInputsOf (slice_get config.units number) inputs.now) }
{
    match tables.scopes.as_slice().get(number) {
        Some(scope) => Some(scope.scalars.as_slice()),
        None => None,
    }
}

/// The place of a label in the body of the unit of a number.
#[inline(always)]
pub fn label(tables: &Tables, at: usize, name: &str) -> Option<usize>
    ensures { (config : Config) (unit : ProgramUnit) → AreTables config tables.now
        → slice_get config.units at ≡ Some unit → result ≡ label_place unit.body name.now }
{
    match tables.scopes.as_slice().get(at) {
        Some(scope) => scope.labels.get(name),
        None => None,
    }
}

/// Whether the body of the unit of a number stores into a variable of a name.
#[inline(always)]
pub fn stores(tables: &Tables, at: usize, name: &str) -> bool
    ensures { (config : Config) (unit : ProgramUnit) → AreTables config tables.now
        → slice_get config.units at ≡ Some unit → result ≡ is_stored unit.body.steps name.now }
{
    match tables.scopes.as_slice().get(at) {
        Some(scope) => scope.stored.get(name).is_some(),
        None => false,
    }
}
