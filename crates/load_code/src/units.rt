// The flat code of units.

ghost use Rattle.std.specs.Prelude.{◌≡◌, ◌<◌, ◌^◌, reverse, length, map, slice_get, Some, IfOk, option_map};
ghost use Rattle.il_syntax.specs.declared.tree.Unit.{Unit as ProgramUnit};
ghost use Rattle.load_slots.specs.Flattened.{function_by};
ghost use Rattle.load_slots.specs.Making.{IsChecked, all_offsets, block_lists};
ghost use Rattle.load_slots.specs.Program.{program_names};
ghost use Rattle.load_code.specs.Resolving.{fresh_by, fresh_list, first_of, own_function_code};
ghost use Rattle.load_slots.specs.Whole.{unit_code};

use crate::bodies::flat_code;
use crate::here::Here;
use crate::operands::{slot_known, slot_of};
use base_lists::Items;
use base_maps::Table;
use il_semantics::value::Content;
use il_syntax::name::Name;
use il_syntax::tree::{Literal, UnitKind};
use load_scope::entry::VariableType;
use load_scope::{Scoped, UnitScope};
use load_slots::flat::{Assignment, FunctionCode, Operand, Slot, UnitCode};
use load_slots::tables::all_offsets;
use load_slots::variables::{Variable, function_variables, initial_value, input_variables};
use std::alloc::{AllocError, Global};

// What a variable begins with, if it is a scalar.
fn fresh_by(declared: VariableType, initial: Option<Literal>, offset: usize) -> Assignment
    ensures { result ≡ fresh_by declared initial offset }
{
    match declared {
        VariableType::Scalar(scalar) => Assignment {
            to: slot_of(scalar, offset),
            from: Operand::Constant(Content {
                elementary: scalar.elementary,
                value: initial_value(scalar, initial),
            }),
        },
        _ => Assignment {
            to: Slot::Flag(0),
            from: Operand::Outside,
        },
    }
}

// What variables begin with, the last one first.
fn fresh(alloc: Global, list: &[Variable]) -> Result<Items<Assignment>, AllocError>
    ensures { IfOk result (λ xs. xs ≡ reverse (fresh_list 0 list.now)) }
{
    let mut all = Items::new(alloc);
    for passed in 0..list.len() {
        let at = list.len() - 1 - passed;
        let variable = &list[at];
        all.push(fresh_by(variable.declared, variable.initial, at))?;
    }
    Ok(all)
}

// The slot of the first input.
fn first_of(here: &Here, inputs: &[Variable]) -> Slot
    ensures { result ≡ first_of here.now.scope.config here.now.scope.unit inputs.now }
{
    match inputs {
        [first, ..] => slot_known(0, here.known(first.name.as_str())),
        [] => Slot::Flag(0),
    }
}

// What calls of a function need.
fn function_code(alloc: Global, here: &Here) -> Result<FunctionCode, AllocError>
    ensures { IfOk result (λ f. f ≡ own_function_code here.now.scope.config here.now.scope.unit) }
{
    let names = here.scope.names();
    let unit = here.scope.tree();
    let inputs = input_variables(alloc, names, unit)?;
    let all = function_variables(alloc, names, unit)?;
    Ok(FunctionCode {
        first: first_of(here, inputs.as_slice()),
        result: slot_known(0, here.known(unit.name.name.as_str())),
        fresh: fresh(alloc, all.as_slice())?,
    })
}

// What calls of a unit need, if it is a function.
fn function_by(alloc: Global, here: &Here) -> Result<Option<FunctionCode>, AllocError>
    ensures { IfOk result (λ f. f ≡ function_by
        (program_names here.now.scope.config here.now.scope.unit.name.name) here.now.scope.config
        here.now.scope.unit here.now.scope.unit.kind) }
{
    match here.scope.tree().kind {
        UnitKind::Function(..) => Ok(Some(function_code(alloc, here)?)),
        _ => Ok(None),
    }
}

// The flat code of a unit.
fn unit_code(alloc: Global, here: &Here) -> Result<UnitCode, AllocError>
    ensures { IfOk result (λ code. code
        ≡ unit_code (program_names here.now.scope.config) here.now.scope.config
        here.now.scope.unit) }
{
    Ok(UnitCode {
        name: Name::of(alloc, here.scope.tree().name.name.as_str())?,
        code: flat_code(alloc, here)?,
        function: function_by(alloc, here)?,
    })
}

// The flat code of the unit of a number.
fn code_at(
    alloc: Global,
    names: &Scoped,
    tables: &[Table<usize>],
    at: usize,
) -> Result<UnitCode, AllocError>
    requires checked { IsChecked names.now }
    requires tables { tables.now ≡ all_offsets names.now }
    requires at { at < length names.now.units }
    ensures { IfOk result (λ code. (u : ProgramUnit) → slice_get names.now.units at ≡ Some u
        → code ≡ unit_code (program_names names.now) names.now u) }
{
    let unit = &names.config().units.as_slice()[at];
    let here = Here {
        scope: UnitScope::of(names, at, unit),
        own: &tables[at],
        tables,
    };
    unit_code(alloc, &here)
}

// The flat code of all units, by the offsets of all names.
fn codes(
    alloc: Global,
    names: &Scoped,
    tables: &[Table<usize>],
) -> Result<Items<UnitCode>, AllocError>
    requires checked { IsChecked names.now }
    requires tables { tables.now ≡ all_offsets names.now }
    ensures { IfOk result (λ codes. codes
        ≡ map (unit_code (program_names names.now) names.now) names.now.units) }
{
    let units = names.config().units.as_slice().len();
    let mut codes = Items::new(alloc);
    for at in 0..units {
        codes.push(code_at(alloc, names, tables, at)?)?;
    }
    Ok(codes)
}

/// The flat code of each unit, in the written order, from the variables of all blocks; linear in the text.
pub fn unit_codes(
    alloc: Global,
    names: &Scoped,
    lists: &[Items<Variable>],
) -> Result<Items<UnitCode>, AllocError>
    requires checked { IsChecked names.now }
    requires lists { lists.now ≡ block_lists names.now }
    ensures { IfOk result (λ codes. codes
        ≡ map (unit_code (program_names names.now) names.now) names.now.units) }
{
    let tables = all_offsets(alloc, names, lists)?;
    codes(alloc, names, tables.as_slice())
}
