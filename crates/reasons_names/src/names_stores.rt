// What is reported of a place that may not be stored into (33).

ghost use Rattle.std.specs.Prelude.{◌≡◌, OnOk};
ghost use Rattle.base_texts.specs.Puts.{Puts};
ghost use Rattle.reasons_names.specs.NamesStores.{input_line, image_line, output_line, literal_line, origin_text, origin_named, variable_text, member_text};

use crate::names_meant::has_output;
use crate::writing::{put_four, put_two};
use il_statics::names::Origin;
use load_scope::UnitScope;
use std::alloc::AllocError;

/// A variable by its name, where it may not be stored into.
pub fn put_variable(text: &mut String, here: &UnitScope<'_>, name: &str) -> Result<(), AllocError>
    ensures { OnOk result (Puts text.old text.new
        (variable_text here.now.config here.now.unit name.now)) }
{
    put_origin(text, name, origin_named(here, name))
}

/// Where the variable of a name is (2.4.3).
#[tactic(auto, using(crate::proofs::Meanings::origin_kept))]
pub fn origin_named(here: &UnitScope<'_>, name: &str) -> Option<Origin>
    ensures { result ≡ origin_named here.now.config here.now.unit name.now }
{
    match here.variable(name) {
        Some(variable) => Some(variable.origin),
        None => None,
    }
}

// A variable by where it is.
fn put_origin(text: &mut String, name: &str, origin: Option<Origin>) -> Result<(), AllocError>
    ensures { OnOk result (Puts text.old text.new (origin_text name.now origin)) }
{
    match origin {
        Some(Origin::Input) => put_input_line(text, name),
        Some(Origin::ReadImage) => put_image_line(text, name),
        _ => Ok(()),
    }
}

/// An output of an instance.
pub fn put_member(
    text: &mut String,
    here: &UnitScope<'_>,
    name: &str,
    word: &str,
) -> Result<(), AllocError>
    ensures { OnOk result (Puts text.old text.new
        (member_text here.now.config here.now.unit name.now word.now)) }
{
    if has_output(here, name, word) {
        put_output_line(text, name, word)
    } else {
        Ok(())
    }
}

#[tactic(auto, unfolding(crate::specs::NamesStores::input_line))]
fn put_input_line(text: &mut String, name: &str) -> Result<(), AllocError>
    ensures { OnOk result (Puts text.old text.new (input_line name.now)) }
{
    put_two(
        text,
        name,
        " can't be stored into: it is an input of this unit\n",
    )
}

#[tactic(auto, unfolding(crate::specs::NamesStores::image_line))]
fn put_image_line(text: &mut String, name: &str) -> Result<(), AllocError>
    ensures { OnOk result (Puts text.old text.new (image_line name.now)) }
{
    put_two(
        text,
        name,
        " can't be stored into: it is an input of the image\n",
    )
}

#[tactic(auto, unfolding(crate::specs::NamesStores::output_line))]
fn put_output_line(text: &mut String, name: &str, word: &str) -> Result<(), AllocError>
    ensures { OnOk result (Puts text.old text.new (output_line name.now word.now)) }
{
    put_four(
        text,
        name,
        ".",
        word,
        " can't be stored into: it is an output of an instance\n",
    )
}

/// A literal.
#[tactic(auto, unfolding(crate::specs::NamesStores::literal_line))]
pub fn put_literal_line(text: &mut String) -> Result<(), AllocError>
    ensures { OnOk result (Puts text.old text.new literal_line) }
{
    text.push_str("a literal can't be stored into\n")
}
