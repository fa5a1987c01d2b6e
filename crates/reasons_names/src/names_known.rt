// The names that could have been meant.

ghost use Rattle.std.specs.Prelude.{◌≡◌, ◌++◌, ◌∷◌, [], IfOk, OnOk, flat_map, map};
ghost use Rattle.il_statics.specs.Declarations.{unit_names};
ghost use Rattle.il_statics.specs.Names.{standard_functions, standard_blocks};
ghost use Rattle.reasons_names.specs.NamesNear.{candidate_shown, known_name, declared_name, predeclared_name};
ghost use Rattle.reasons_names.specs.NamesKnown.{own_function, own_block, seen_image, images_near, globals_near, variables_near, declared_instances, instances_near, type_words, operator_words, functions_near, types_near};

use crate::names_near::{Candidate, push_spots};
use crate::names_spots::{declared_spots, unit_spots};
use il_statics::standard::{NamedBlock, NamedFunction, standard_blocks, standard_functions};
use il_syntax::tree::{Config, Declaration, Form, Named, Unit, UnitKind};
use load_scope::{ImageRow, UnitScope, image_rows};
use std::alloc::{AllocError, Global};

// A word of the language.
#[derive(Clone, Copy)]
struct Word {
    text: &'static str,
}

// The words of the elementary types (IEC 61131-3:2003, 2.3.1).
static TYPES: [Word; 8] = [
    Word { text: "BOOL" },
    Word { text: "SINT" },
    Word { text: "INT" },
    Word { text: "DINT" },
    Word { text: "USINT" },
    Word { text: "UINT" },
    Word { text: "UDINT" },
    Word { text: "TIME" },
];

// The operators (IEC 61131-3:2003, 3.2.2).
static OPERATORS: [Word; 33] = [
    Word { text: "LD" },
    Word { text: "LDN" },
    Word { text: "ST" },
    Word { text: "STN" },
    Word { text: "S" },
    Word { text: "R" },
    Word { text: "AND" },
    Word { text: "ANDN" },
    Word { text: "OR" },
    Word { text: "ORN" },
    Word { text: "XOR" },
    Word { text: "XORN" },
    Word { text: "NOT" },
    Word { text: "ADD" },
    Word { text: "SUB" },
    Word { text: "MUL" },
    Word { text: "DIV" },
    Word { text: "MOD" },
    Word { text: "GT" },
    Word { text: "GE" },
    Word { text: "EQ" },
    Word { text: "NE" },
    Word { text: "LE" },
    Word { text: "LT" },
    Word { text: "JMP" },
    Word { text: "JMPC" },
    Word { text: "JMPCN" },
    Word { text: "CAL" },
    Word { text: "CALC" },
    Word { text: "CALCN" },
    Word { text: "RET" },
    Word { text: "RETC" },
    Word { text: "RETCN" },
];

/// The variables of a unit: a function's result, those that it declares, the globals, then the image names that it sees.
pub fn variables_near<'c>(
    alloc: Global,
    here: &UnitScope<'c>,
) -> Result<Vec<Candidate<'c>>, AllocError>
    ensures { IfOk result (λ k. map candidate_shown k.items
        ≡ variables_near here.now.config here.now.unit) }
{
    let mut candidates = Vec::new(alloc);
    push_function(&mut candidates, here.tree())?;
    push_own(alloc, &mut candidates, here.tree())?;
    push_globals(alloc, &mut candidates, here.names().config())?;
    push_images(&mut candidates, here)?;
    Ok(candidates)
}

/// The instances that a unit declares (IEC 61131-3:2003, 2.5.2.1).
pub fn instances_near<'c>(alloc: Global, unit: &'c Unit) -> Result<Vec<Candidate<'c>>, AllocError>
    ensures { IfOk result (λ k. map candidate_shown k.items ≡ instances_near unit.now) }
{
    let mut candidates = Vec::new(alloc);
    push_instances(&mut candidates, unit.variables.as_slice())?;
    Ok(candidates)
}

/// The globals.
pub fn globals_near<'c>(alloc: Global, config: &'c Config) -> Result<Vec<Candidate<'c>>, AllocError>
    ensures { IfOk result (λ k. map candidate_shown k.items ≡ globals_near config.now) }
{
    let mut candidates = Vec::new(alloc);
    push_globals(alloc, &mut candidates, config)?;
    Ok(candidates)
}

/// The functions, own ones first, and the operators.
pub fn functions_near<'c>(
    alloc: Global,
    config: &'c Config,
) -> Result<Vec<Candidate<'c>>, AllocError>
    ensures { IfOk result (λ k. map candidate_shown k.items ≡ functions_near config.now) }
{
    let mut candidates = Vec::new(alloc);
    push_functions(&mut candidates, config.units.as_slice())?;
    push_standard_functions(&mut candidates)?;
    push_operators(&mut candidates)?;
    Ok(candidates)
}

/// The types of variables: function blocks, own ones first, and elementary types.
pub fn types_near<'c>(alloc: Global, config: &'c Config) -> Result<Vec<Candidate<'c>>, AllocError>
    ensures { IfOk result (λ k. map candidate_shown k.items ≡ types_near config.now) }
{
    let mut candidates = Vec::new(alloc);
    push_blocks(&mut candidates, config.units.as_slice())?;
    push_standard_blocks(&mut candidates)?;
    push_types(&mut candidates)?;
    Ok(candidates)
}

// Adds a name, and the line where it is declared.
fn push_known<'c>(
    candidates: &mut Vec<Candidate<'c>>,
    name: &'c str,
    line: Option<u32>,
) -> Result<(), AllocError>
    ensures { OnOk result (map candidate_shown candidates.new.items
        ≡ map candidate_shown candidates.old.items ++ known_name name.now line ∷ []) }
{
    candidates.push(Candidate { name, line })?;
    Ok(())
}

// Adds a unit that is a function.
fn push_function<'c>(candidates: &mut Vec<Candidate<'c>>, unit: &'c Unit) -> Result<(), AllocError>
    ensures { OnOk result (map candidate_shown candidates.new.items
        ≡ map candidate_shown candidates.old.items ++ own_function unit.now) }
{
    match unit.kind {
        UnitKind::Function(_, _) => {
            push_known(candidates, unit.name.name.as_str(), Some(unit.place.line))
        }
        _ => Ok(()),
    }
}

// Adds a unit that is a function block.
fn push_block<'c>(candidates: &mut Vec<Candidate<'c>>, unit: &'c Unit) -> Result<(), AllocError>
    ensures { OnOk result (map candidate_shown candidates.new.items
        ≡ map candidate_shown candidates.old.items ++ own_block unit.now) }
{
    match unit.kind {
        UnitKind::FunctionBlock => {
            push_known(candidates, unit.name.name.as_str(), Some(unit.place.line))
        }
        _ => Ok(()),
    }
}

// Adds the units that are functions.
fn push_functions<'c>(
    candidates: &mut Vec<Candidate<'c>>,
    units: &'c [Unit],
) -> Result<(), AllocError>
    ensures { OnOk result (map candidate_shown candidates.new.items
        ≡ map candidate_shown candidates.old.items ++ flat_map own_function units.now) }
{
    'units: for unit in units {
        push_function(candidates, unit)?;
    }
    Ok(())
}

// Adds the units that are function blocks.
fn push_blocks<'c>(candidates: &mut Vec<Candidate<'c>>, units: &'c [Unit]) -> Result<(), AllocError>
    ensures { OnOk result (map candidate_shown candidates.new.items
        ≡ map candidate_shown candidates.old.items ++ flat_map own_block units.now) }
{
    'units: for unit in units {
        push_block(candidates, unit)?;
    }
    Ok(())
}

// Adds the variables that a unit declares.
fn push_own<'c>(
    alloc: Global,
    candidates: &mut Vec<Candidate<'c>>,
    unit: &'c Unit,
) -> Result<(), AllocError>
    ensures { OnOk result (map candidate_shown candidates.new.items
        ≡ map candidate_shown candidates.old.items ++ map declared_name (unit_names unit.now)) }
{
    let spots = unit_spots(alloc, unit)?;
    push_spots(candidates, spots.as_slice())
}

// Adds the instances that declarations give.
fn push_instances<'c>(
    candidates: &mut Vec<Candidate<'c>>,
    declarations: &'c [Declaration],
) -> Result<(), AllocError>
    ensures { OnOk result (map candidate_shown candidates.new.items
        ≡ map candidate_shown candidates.old.items
        ++ flat_map declared_instances declarations.now) }
{
    'declarations: for declaration in declarations {
        push_instances_of(candidates, declaration)?;
    }
    Ok(())
}

// Adds the names of a declaration, if its type is a block.
fn push_instances_of<'c>(
    candidates: &mut Vec<Candidate<'c>>,
    declaration: &'c Declaration,
) -> Result<(), AllocError>
    ensures { OnOk result (map candidate_shown candidates.new.items
        ≡ map candidate_shown candidates.old.items ++ declared_instances declaration.now) }
{
    match &declaration.declared.form {
        Form::Block(_) => push_names(candidates, declaration.names.as_slice()),
        _ => Ok(()),
    }
}

// Adds declared names.
fn push_names<'c>(candidates: &mut Vec<Candidate<'c>>, names: &'c [Named]) -> Result<(), AllocError>
    ensures { OnOk result (map candidate_shown candidates.new.items
        ≡ map candidate_shown candidates.old.items ++ map declared_name names.now) }
{
    'names: for named in names {
        push_known(candidates, named.name.as_str(), Some(named.place.line))?;
    }
    Ok(())
}

// Adds the globals.
fn push_globals<'c>(
    alloc: Global,
    candidates: &mut Vec<Candidate<'c>>,
    config: &'c Config,
) -> Result<(), AllocError>
    ensures { OnOk result (map candidate_shown candidates.new.items
        ≡ map candidate_shown candidates.old.items ++ globals_near config.now) }
{
    let spots = declared_spots(alloc, config.globals.as_slice())?;
    push_spots(candidates, spots.as_slice())
}

// Adds the image names that a unit sees.
#[tactic(auto, using(crate::proofs::Known::images_of_rows))]
fn push_images<'c>(
    candidates: &mut Vec<Candidate<'c>>,
    here: &UnitScope<'_>,
) -> Result<(), AllocError>
    ensures { OnOk result (map candidate_shown candidates.new.items
        ≡ map candidate_shown candidates.old.items
        ++ images_near here.now.config here.now.unit) }
{
    push_rows(candidates, here, image_rows())
}

// Adds the image names of rows that a unit sees.
fn push_rows<'c>(
    candidates: &mut Vec<Candidate<'c>>,
    here: &UnitScope<'_>,
    rows: &'static [ImageRow],
) -> Result<(), AllocError>
    ensures { OnOk result (map candidate_shown candidates.new.items
        ≡ map candidate_shown candidates.old.items
        ++ flat_map (λ r. seen_image here.now.config here.now.unit r.name.now) rows.now) }
{
    'rows: for row in rows {
        push_image(candidates, here, row.name)?;
    }
    Ok(())
}

// Adds an image name that a unit sees.
#[tactic(auto, unfolding(crate::specs::NamesKnown::seen_image))]
fn push_image<'c>(
    candidates: &mut Vec<Candidate<'c>>,
    here: &UnitScope<'_>,
    name: &'c str,
) -> Result<(), AllocError>
    ensures { OnOk result (map candidate_shown candidates.new.items
        ≡ map candidate_shown candidates.old.items
        ++ seen_image here.now.config here.now.unit name.now) }
{
    if here.variable(name).is_some() {
        push_known(candidates, name, None)
    } else {
        Ok(())
    }
}

// Adds the standard functions.
#[tactic(auto, using(crate::proofs::Known::functions_of_rows))]
fn push_standard_functions(candidates: &mut Vec<Candidate<'_>>) -> Result<(), AllocError>
    ensures { OnOk result (map candidate_shown candidates.new.items
        ≡ map candidate_shown candidates.old.items
        ++ map (λ f. predeclared_name f.0) standard_functions) }
{
    push_function_rows(candidates, standard_functions())
}

fn push_function_rows(
    candidates: &mut Vec<Candidate<'_>>,
    rows: &'static [NamedFunction],
) -> Result<(), AllocError>
    ensures { OnOk result (map candidate_shown candidates.new.items
        ≡ map candidate_shown candidates.old.items
        ++ map (λ f. predeclared_name f.name.now) rows.now) }
{
    'rows: for row in rows {
        push_known(candidates, row.name, None)?;
    }
    Ok(())
}

// Adds the standard blocks.
#[tactic(auto, using(crate::proofs::Known::blocks_of_rows))]
fn push_standard_blocks(candidates: &mut Vec<Candidate<'_>>) -> Result<(), AllocError>
    ensures { OnOk result (map candidate_shown candidates.new.items
        ≡ map candidate_shown candidates.old.items
        ++ map (λ b. predeclared_name b.0) standard_blocks) }
{
    push_block_rows(candidates, standard_blocks())
}

fn push_block_rows(
    candidates: &mut Vec<Candidate<'_>>,
    rows: &'static [NamedBlock],
) -> Result<(), AllocError>
    ensures { OnOk result (map candidate_shown candidates.new.items
        ≡ map candidate_shown candidates.old.items
        ++ map (λ b. predeclared_name b.name.now) rows.now) }
{
    'rows: for row in rows {
        push_known(candidates, row.name, None)?;
    }
    Ok(())
}

// The words of the elementary types.
#[tactic(auto, unfolding(crate::specs::NamesKnown::type_words))]
fn types() -> &'static [Word]
    ensures { map (λ w. w.text.now) result.now ≡ type_words }
{
    &TYPES
}

// The operators.
#[tactic(auto, unfolding(crate::specs::NamesKnown::operator_words))]
fn operators() -> &'static [Word]
    ensures { map (λ w. w.text.now) result.now ≡ operator_words }
{
    &OPERATORS
}

// Adds the words of the elementary types.
#[tactic(auto, using(crate::proofs::Known::words_of_rows))]
fn push_types(candidates: &mut Vec<Candidate<'_>>) -> Result<(), AllocError>
    ensures { OnOk result (map candidate_shown candidates.new.items
        ≡ map candidate_shown candidates.old.items ++ map predeclared_name type_words) }
{
    push_words(candidates, types())
}

// Adds the operators.
#[tactic(auto, using(crate::proofs::Known::words_of_rows))]
fn push_operators(candidates: &mut Vec<Candidate<'_>>) -> Result<(), AllocError>
    ensures { OnOk result (map candidate_shown candidates.new.items
        ≡ map candidate_shown candidates.old.items ++ map predeclared_name operator_words) }
{
    push_words(candidates, operators())
}

fn push_words(candidates: &mut Vec<Candidate<'_>>, rows: &'static [Word]) -> Result<(), AllocError>
    ensures { OnOk result (map candidate_shown candidates.new.items
        ≡ map candidate_shown candidates.old.items
        ++ map (λ w. predeclared_name w.text.now) rows.now) }
{
    'rows: for row in rows {
        push_known(candidates, row.text, None)?;
    }
    Ok(())
}
