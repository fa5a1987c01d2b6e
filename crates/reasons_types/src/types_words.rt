// The words of blocks (IEC 61131-3:2003, 2.5.2).

ghost use Rattle.std.specs.Prelude.{◌≡◌, ◌++◌, Some, map, flat_map, codes, IfOk, OnOk};
ghost use Rattle.base_texts.specs.Puts.{Puts};
ghost use Rattle.il_statics.specs.Names.{named_forms, standard_variables, own_block_variables};
ghost use Rattle.load_scope.specs.Views.{variables_of_block};
ghost use Rattle.load_scope.specs.declared.entry.BlockType.TheVariants.{Own as OwnBlock};
ghost use Rattle.reasons_types.specs.ArgumentReasons.{words_of, words_text, inputs_line, outputs_line, block_lines};

use il_statics::names::StandardBlock;
use il_statics::standard::{BlockWord, words_of};
use il_syntax::tree::{Declaration, Named, Unit};
use load_scope::Scoped;
use load_scope::entry::BlockType;
use reasons_names::names_spots::unit_at;
use reasons_names::writing::{put_three, put_two};
use std::alloc::{AllocError, Global};

// Words after others.
fn put_others(text: &mut String, words: &[&str]) -> Result<(), AllocError>
    ensures { OnOk result (Puts text.old text.new
        (flat_map (λ w. codes ", " ++ w) (map (λ w. w.now) words.now))) }
{
    'words: for word in words {
        put_two(text, ", ", *word)?;
    }
    Ok(())
}

// `CU, R, PV`
fn put_words(text: &mut String, words: &[&str]) -> Result<(), AllocError>
    ensures { OnOk result (Puts text.old text.new (words_text (map (λ w. w.now) words.now))) }
{
    match words {
        [] => text.push_str("none"),
        [first, others @ ..] => {
            text.push_str(*first)?;
            put_others(text, others)
        }
    }
}

// `inputs of C1: CU, R, PV`, or `outputs of ..`
fn put_line(text: &mut String, head: &str, instance: &str, words: &[&str]) -> Result<(), AllocError>
    ensures { OnOk result (Puts text.old text.new
        (head.now ++ (instance.now ++
        (codes ": " ++ (words_text (map (λ w. w.now) words.now) ++ codes "\n"))))) }
{
    put_three(text, head, instance, ": ")?;
    put_words(text, words)?;
    text.push_str("\n")
}

// `inputs of C1: CU, R, PV`
fn put_inputs(text: &mut String, instance: &str, words: &[&str]) -> Result<(), AllocError>
    ensures { OnOk result (Puts text.old text.new
        (inputs_line instance.now (map (λ w. w.now) words.now))) }
{
    put_line(text, "inputs of ", instance, words)
}

// `outputs of C1: Q, CV`
fn put_outputs(text: &mut String, instance: &str, words: &[&str]) -> Result<(), AllocError>
    ensures { OnOk result (Puts text.old text.new
        (outputs_line instance.now (map (λ w. w.now) words.now))) }
{
    put_line(text, "outputs of ", instance, words)
}

// The words of a standard block.
fn standard_words(
    alloc: Global,
    words: &'static [BlockWord],
) -> Result<Vec<&'static str>, AllocError>
    ensures { IfOk result (λ v. map (λ w. w.now) v.items ≡ map (λ w. w.name.now) words.now) }
{
    let mut found = Vec::new(alloc);
    'words: for word in words {
        found.push(word.name)?;
    }
    Ok(found)
}

// Adds names.
fn add_names<'n>(found: &mut Vec<&'n str>, names: &'n [Named]) -> Result<(), AllocError>
    ensures { OnOk result (map (λ w. w.now) found.new.items
        ≡ map (λ w. w.now) found.old.items ++ map (λ n. n.name) names.now) }
{
    'names: for named in names {
        found.push(named.name.as_str())?;
    }
    Ok(())
}

// The names that declarations give.
fn declared_words(alloc: Global, declarations: &[Declaration]) -> Result<Vec<&str>, AllocError>
    ensures { IfOk result (λ v. map (λ w. w.now) v.items
        ≡ words_of (named_forms declarations.now)) }
{
    let mut found = Vec::new(alloc);
    'declarations: for declaration in declarations {
        add_names(&mut found, declaration.names.as_slice())?;
    }
    Ok(found)
}

// The inputs and outputs of a standard block.
fn put_standard(
    alloc: Global,
    text: &mut String,
    instance: &str,
    block: StandardBlock,
) -> Result<(), AllocError>
    ensures { OnOk result (Puts text.old text.new
        (block_lines instance.now (Some (standard_variables block)))) }
{
    let words = words_of(block);
    let inputs = standard_words(alloc, words.inputs)?;
    let outputs = standard_words(alloc, words.outputs)?;
    put_inputs(text, instance, inputs.as_slice())?;
    put_outputs(text, instance, outputs.as_slice())
}

// The inputs and outputs of an own block.
fn put_unit_words(
    alloc: Global,
    text: &mut String,
    instance: &str,
    unit: &Unit,
) -> Result<(), AllocError>
    ensures { OnOk result (Puts text.old text.new
        (block_lines instance.now (Some (own_block_variables unit.now)))) }
{
    let inputs = declared_words(alloc, unit.inputs.as_slice())?;
    let outputs = declared_words(alloc, unit.outputs.as_slice())?;
    put_inputs(text, instance, inputs.as_slice())?;
    put_outputs(text, instance, outputs.as_slice())
}

// The inputs and outputs of an own block, by the number of its unit.
fn put_own(
    alloc: Global,
    text: &mut String,
    names: &Scoped,
    instance: &str,
    number: usize,
) -> Result<(), AllocError>
    ensures { OnOk result (Puts text.old text.new
        (block_lines instance.now (variables_of_block names.now (OwnBlock number)))) }
{
    match unit_at(names, number) {
        Some(unit) => put_unit_words(alloc, text, instance, unit),
        None => Ok(()),
    }
}

/// The inputs and outputs of the block of an instance.
pub fn put_block(
    alloc: Global,
    text: &mut String,
    names: &Scoped,
    instance: &str,
    block: BlockType,
) -> Result<(), AllocError>
    ensures { OnOk result (Puts text.old text.new
        (block_lines instance.now (variables_of_block names.now block))) }
{
    match block {
        BlockType::Standard(standard) => put_standard(alloc, text, instance, standard),
        BlockType::Own(number) => put_own(alloc, text, names, instance, number),
    }
}
