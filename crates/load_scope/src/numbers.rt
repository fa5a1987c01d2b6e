// The numbers of units.

ghost use Rattle.std.specs.Prelude.{◌≡◌, option_map, slice_get};
ghost use Rattle.il_statics.specs.Names.{is_function, is_function_block, is_program, is_function_kind, is_function_block_kind, is_program_kind};
ghost use Rattle.load_scope.specs.declared.entry.BlockType.TheVariants.{Own};
ghost use Rattle.load_scope.specs.Views.{passes, unit_number, function_number, function_block_number, program_number, block_type};
ghost use Rattle.load_scope.specs.Tables.{AreUnits};

use crate::blocks::standard_block;
use crate::entry::BlockType;
use crate::words::is_predeclared;
use base_maps::Table;
use il_syntax::tree::{Config, UnitKind};

/// The number of the unit of a name; a unit with a predeclared name is none (IEC 61131-3:2003, 2.5).
#[tactic(auto, unfolding(crate::specs::Views::unit_number))]
pub fn unit_number(config: &Config, units: &Table<usize>, name: &str) -> Option<usize>
    requires { AreUnits config.now units.now }
    ensures { result ≡ unit_number config.now name.now }
{
    if is_predeclared(config, name) {
        return None;
    }
    units.get(name)
}

/// The number of the own function of a name (2.5.1).
#[tactic(auto, unfolding(crate::specs::Views::function_number))]
pub fn function_number(config: &Config, units: &Table<usize>, name: &str) -> Option<usize>
    requires { AreUnits config.now units.now }
    ensures { result ≡ function_number config.now name.now }
{
    let number = unit_number(config, units, name);
    match number {
        Some(number) => if is_function_at(config, number) {
            Some(number)
        } else {
            None
        },
        None => None,
    }
}

// Whether the unit of a number is there and a function.
fn is_function_at(config: &Config, number: usize) -> bool
    ensures { result ≡ passes is_function (slice_get config.now.units number) }
{
    match config.units.as_slice().get(number) {
        Some(unit) => is_function(unit.kind),
        None => false,
    }
}

// Whether a kind is a function's (2.5.1).
fn is_function(kind: UnitKind) -> bool
    ensures { result ≡ is_function_kind kind }
{
    matches!(kind, UnitKind::Function(..))
}

/// The number of the own function block of a name (2.5.2).
#[tactic(auto, unfolding(crate::specs::Views::function_block_number))]
pub fn function_block_number(config: &Config, units: &Table<usize>, name: &str) -> Option<usize>
    requires { AreUnits config.now units.now }
    ensures { result ≡ function_block_number config.now name.now }
{
    let number = unit_number(config, units, name);
    match number {
        Some(number) => if is_function_block_at(config, number) {
            Some(number)
        } else {
            None
        },
        None => None,
    }
}

// Whether the unit of a number is there and a function block.
fn is_function_block_at(config: &Config, number: usize) -> bool
    ensures { result ≡ passes is_function_block (slice_get config.now.units number) }
{
    match config.units.as_slice().get(number) {
        Some(unit) => is_function_block(unit.kind),
        None => false,
    }
}

// Whether a kind is a function block's (2.5.2).
fn is_function_block(kind: UnitKind) -> bool
    ensures { result ≡ is_function_block_kind kind }
{
    matches!(kind, UnitKind::FunctionBlock)
}

/// The number of the program of a name (2.5.3).
#[tactic(auto, unfolding(crate::specs::Views::program_number))]
pub fn program_number(config: &Config, units: &Table<usize>, name: &str) -> Option<usize>
    requires { AreUnits config.now units.now }
    ensures { result ≡ program_number config.now name.now }
{
    let number = unit_number(config, units, name);
    match number {
        Some(number) => if is_program_at(config, number) {
            Some(number)
        } else {
            None
        },
        None => None,
    }
}

// Whether the unit of a number is there and a program.
fn is_program_at(config: &Config, number: usize) -> bool
    ensures { result ≡ passes is_program (slice_get config.now.units number) }
{
    match config.units.as_slice().get(number) {
        Some(unit) => is_program(unit.kind),
        None => false,
    }
}

/// Whether a kind is a program's (2.5.3).
pub fn is_program(kind: UnitKind) -> bool
    ensures { result ≡ is_program_kind kind }
{
    matches!(kind, UnitKind::Program)
}

/// The block of a name, standard or own (2.5.2).
#[tactic(auto, unfolding(crate::specs::Views::block_type))]
pub fn block_type(config: &Config, units: &Table<usize>, name: &str) -> Option<BlockType>
    requires { AreUnits config.now units.now }
    ensures { result ≡ block_type config.now name.now }
{
    match standard_block(name) {
        Some(block) => Some(BlockType::Standard(block)),
        None => own_block(config, units, name),
    }
}

// The own block of a name.
fn own_block(config: &Config, units: &Table<usize>, name: &str) -> Option<BlockType>
    requires { AreUnits config.now units.now }
    ensures { result ≡ option_map Own (function_block_number config.now name.now) }
{
    match function_block_number(config, units, name) {
        Some(number) => Some(BlockType::Own(number)),
        None => None,
    }
}
