// The slots of variables, with the values with which they begin.

ghost use Rattle.std.specs.Prelude.{◌≡◌, ℕ, List, Option, map, slice_get, ◌++◌, ◌∷◌, [], ◌+ℤ◌, pos, codes, IfOk, OnOk, None};
ghost use Rattle.std.specs.String.{string_bytes};
ghost use Rattle.il_semantics.specs.Meaning.{under, element_path, initial_value};
ghost use Rattle.load_order.specs.Related.{tabulate};
ghost use Rattle.il_statics.specs.Tables.{word};
ghost use Rattle.load_scope.specs.declared.entry.BlockType.{BlockType as BlockTypeOf};
ghost use Rattle.load_slots.specs.Making.{block_lists, list_if, standard_list, word_variable};
ghost use Rattle.load_code.specs.declared.laying.Opening.{Opening as OpeningOf};
ghost use Rattle.load_code.specs.Laying.{opening, element_opening, variable_openings, list_openings, block_openings};

use base_lists::Items;
use il_semantics::value::Value;
use il_statics::names::StandardBlock;
use il_statics::standard::{BlockWord, words_of};
use il_syntax::name::Name;
use il_syntax::tree::Scalar;
use load_scope::Scoped;
use load_scope::entry::{BlockType, VariableType};
use load_slots::sizes::array_size;
use load_slots::variables::{Variable, initial_value};
use std::alloc::{AllocError, Global};

/// A slot: its path and type, and the value with which it begins.
#[derive(Drop)]
pub struct Opening {
    pub path: Name,
    pub scalar: Scalar,
    pub value: Value,
}

/// A configuration with the variables of its units, by their numbers.
#[derive(Drop)]
pub struct Blocks<'a> {
    pub names: &'a Scoped,
    pub lists: &'a [Items<Variable>],
    pub ghost all: { lists.now ≡ block_lists names.now },
}

// The path of a variable of a body that has a path.
fn member_path(alloc: Global, path: &str, name: &str) -> Result<String, AllocError>
    ensures { IfOk result (λ p. string_bytes p ≡ path.now ++ codes "." ++ name.now) }
{
    let path = format!(in alloc; "{path}.{name}")?;
    Ok(path)
}

// The path of a variable of a body (own rule).
fn under(alloc: Global, path: &str, name: &str) -> Result<Name, AllocError>
    ensures { IfOk result (λ p. p ≡ under path.now name.now) }
{
    if path.is_empty() {
        return Name::of(alloc, name);
    }
    let path = member_path(alloc, path, name)?;
    Name::of(alloc, path.as_str())
}

// The path of an element by its number.
fn numbered_path(alloc: Global, path: &str, number: i128) -> Result<String, AllocError>
    ensures { IfOk result (λ p. string_bytes p ≡ element_path path.now number) }
{
    let path = format!(in alloc; "{path}[{number}]")?;
    Ok(path)
}

// The path of an element that is so far from the first (IEC 61131-3:2003, 2.4.1.2).
fn path_of_element(
    alloc: Global,
    path: &str,
    lower: i64,
    before: usize,
) -> Result<String, AllocError>
    ensures { IfOk result (λ p. string_bytes p ≡ element_path path.now (lower +ℤ pos before)) }
{
    numbered_path(alloc, path, i128::from(lower) + before as i128)
}

// Adds a slot.
fn push(
    alloc: Global,
    openings: &mut Items<Opening>,
    path: &str,
    scalar: Scalar,
    value: Value,
) -> Result<(), AllocError>
    ensures { OnOk result (openings.new ≡ openings.old ++ opening path.now scalar value ∷ []) }
{
    let path = Name::of(alloc, path)?;
    openings.push(Opening {
        path,
        scalar,
        value,
    })
}

// Adds an element of an array.
fn add_element(
    alloc: Global,
    openings: &mut Items<Opening>,
    path: &str,
    lower: i64,
    element: Scalar,
    before: usize,
) -> Result<(), AllocError>
    ensures { OnOk result (openings.new ≡ openings.old
        ++ element_opening path.now lower element before ∷ []) }
{
    let path = path_of_element(alloc, path, lower, before)?;
    push(
        alloc,
        openings,
        path.as_str(),
        element,
        initial_value(element, None),
    )
}

// Adds the elements of an array (2.3.3.1).
fn add_elements(
    alloc: Global,
    openings: &mut Items<Opening>,
    path: &str,
    lower: i64,
    element: Scalar,
    count: usize,
) -> Result<(), AllocError>
    ensures { OnOk result (openings.new ≡ openings.old
        ++ tabulate count (element_opening path.now lower element)) }
{
    'elements: for before in 0..count {
        add_element(alloc, openings, path, lower, element, before)?;
    }
    Ok(())
}

// The list of a number, or none.
fn list_at(lists: &[Items<Variable>], place: usize) -> &[Variable]
    ensures { result.now ≡ list_if (slice_get lists.now place) }
{
    match lists.get(place) {
        Some(list) => list.as_slice(),
        None => &[],
    }
}

// Adds the slots of words of a standard block (2.5.2.3).
fn add_words(
    alloc: Global,
    openings: &mut Items<Opening>,
    path: &str,
    words: &[BlockWord],
) -> Result<(), AllocError>
    ensures { OnOk result ((inner : List ℕ → Option BlockTypeOf → List OpeningOf) → openings.new
        ≡ openings.old ++ list_openings inner path.now
        (map (λ w. word_variable (word w)) words.now)) }
{
    'words: for each in words {
        let path = under(alloc, path, each.name)?;
        let scalar = Scalar {
            elementary: each.elementary,
            subrange: None,
        };
        push(
            alloc,
            openings,
            path.as_str(),
            scalar,
            initial_value(scalar, None),
        )?;
    }
    Ok(())
}

// Adds the slots of a standard block.
fn add_standard(
    alloc: Global,
    openings: &mut Items<Opening>,
    path: &str,
    block: StandardBlock,
) -> Result<(), AllocError>
    ensures { OnOk result ((inner : List ℕ → Option BlockTypeOf → List OpeningOf) → openings.new
        ≡ openings.old ++ list_openings inner path.now (standard_list block)) }
{
    let words = words_of(block);
    add_words(alloc, openings, path, words.inputs)?;
    add_words(alloc, openings, path, words.outputs)?;
    add_words(alloc, openings, path, words.inner)
}

// Adds the slots of an instance, with those of the instances in it, so many deep.
#[cycle(laying)]
fn add_instance(
    alloc: Global,
    blocks: &Blocks,
    openings: &mut Items<Opening>,
    depth: usize,
    path: &str,
    block: Option<BlockType>,
) -> Result<(), AllocError>
    ensures { OnOk result (openings.new ≡ openings.old
        ++ block_openings depth blocks.now.lists.now path.now block) }
{
    if depth == 0 {
        return Ok(());
    }
    match block {
        Some(BlockType::Own(number)) => {
            let variables = list_at(blocks.lists, number);
            add_variables(alloc, blocks, openings, depth - 1, path, variables)
        }
        Some(BlockType::Standard(block)) => add_standard(alloc, openings, path, block),
        None => Ok(()),
    }
}

// Adds the slots of a variable at a path.
#[cycle(laying)]
fn add_variable(
    alloc: Global,
    blocks: &Blocks,
    openings: &mut Items<Opening>,
    depth: usize,
    path: &str,
    variable: &Variable,
) -> Result<(), AllocError>
    ensures { OnOk result (openings.new ≡ openings.old
        ++ variable_openings (block_openings depth blocks.now.lists.now) path.now
        variable.now.initial variable.now.declared) }
{
    match variable.declared {
        VariableType::Scalar(scalar) => {
            let value = initial_value(scalar, variable.initial);
            push(alloc, openings, path, scalar, value)
        }
        VariableType::Array { bounds, element } => {
            let count = array_size(bounds);
            add_elements(alloc, openings, path, bounds.lower, element, count)
        }
        VariableType::Instance(block) => {
            add_instance(alloc, blocks, openings, depth, path, block)
        }
    }
}

/// Adds the slots of variables of the body at a path, with those of instances, so many deep.
#[cycle(laying)]
pub fn add_variables(
    alloc: Global,
    blocks: &Blocks,
    openings: &mut Items<Opening>,
    depth: usize,
    path: &str,
    list: &[Variable],
) -> Result<(), AllocError>
    ensures { OnOk result (openings.new ≡ openings.old
        ++ list_openings (block_openings depth blocks.now.lists.now) path.now
        list.now) }
{
    'variables: for variable in list {
        let path = under(alloc, path, variable.name.as_str())?;
        add_variable(alloc, blocks, openings, depth, path.as_str(), variable)?;
    }
    Ok(())
}
