// Values and variables, as they are written.

ghost use Rattle.std.specs.Prelude.{◌≡◌, ◌++◌, ◌∷◌, [], codes, flat_map, map, OnOk};
ghost use Rattle.base_json.specs.Objects.{list_member, text_member};
ghost use Rattle.base_texts.specs.Puts.{Puts};
ghost use Rattle.show_names.specs.RangeLines.{type_word, range_text, result_text, variable_text, range_members, result_tokens, variable_tokens, variable_shown};
ghost use Rattle.json.specs.Token.{begin_array, begin_object, key};

use crate::range_variables::RangedVariable;
use base_json::object::Object;
use il_semantics::known::Known;
use il_syntax::tree::Elementary;
use ranges_interval::Interval;
use std::alloc::AllocError;

// The word of a type.
fn type_word(elementary: Elementary) -> &'static str
    ensures { result.now ≡ type_word elementary }
{
    match elementary {
        Elementary::Bool => "BOOL",
        Elementary::Sint => "SINT",
        Elementary::Int => "INT",
        Elementary::Dint => "DINT",
        Elementary::Usint => "USINT",
        Elementary::Uint => "UINT",
        Elementary::Udint => "UDINT",
        Elementary::Time => "TIME",
    }
}

// ` LO..HI`
#[tactic(auto, unfolding(crate::specs::RangeLines::range_text))]
fn put_range(text: &mut String, range: Interval) -> Result<(), AllocError>
    ensures { OnOk result (Puts text.old text.new (range_text range)) }
{
    write!(text, " {}..{}", range.lo, range.hi)
}

// A type and its range.
fn put_ranged(text: &mut String, elementary: Elementary, range: Interval) -> Result<(), AllocError>
    ensures { OnOk result (Puts text.old text.new (type_word elementary ++ range_text range)) }
{
    text.push_str(type_word(elementary))?;
    put_range(text, range)
}

/// `none`, `BOOL`, or a type and its range.
pub fn put_result(text: &mut String, found: Option<Known>) -> Result<(), AllocError>
    ensures { OnOk result (Puts text.old text.new (result_text found)) }
{
    match found {
        None => text.push_str("none"),
        Some(Known::Flag) => text.push_str("BOOL"),
        Some(Known::Ranged(elementary, range)) => put_ranged(text, elementary, range),
    }
}

// `, NAME LO..HI`
fn put_variable(text: &mut String, variable: &RangedVariable<'_>) -> Result<(), AllocError>
    ensures { OnOk result (Puts text.old text.new (variable_text (variable_shown variable.now))) }
{
    text.push_str(", ")?;
    text.push_str(variable.name)?;
    put_range(text, variable.range)
}

/// `, NAME LO..HI` for each variable.
pub fn put_variables(text: &mut String, variables: &[RangedVariable<'_>]) -> Result<(), AllocError>
    ensures { OnOk result (Puts text.old text.new
        (flat_map variable_text (map variable_shown variables.now))) }
{
    'variables: for variable in variables {
        put_variable(text, variable)?;
    }
    Ok(())
}

// The members of a range.
fn add_range(object: &mut Object, range: Interval) -> Result<(), AllocError>
    ensures { OnOk result (object.new ≡ object.old ++ range_members range) }
{
    object.integer_member("from", range.lo)?;
    object.integer_member("to", range.hi)
}

/// The type of a result and its range, or null.
pub fn add_result(object: &mut Object, found: Option<Known>) -> Result<(), AllocError>
    ensures { OnOk result (object.new ≡ object.old ++ key (codes "result") ∷ result_tokens found) }
{
    match found {
        None => object.null_member("result"),
        Some(Known::Flag) => {
            begin_result(object, "BOOL")?;
            object.end_object()
        }
        Some(Known::Ranged(elementary, range)) => {
            begin_result(object, type_word(elementary))?;
            add_range(object, range)?;
            object.end_object()
        }
    }
}

// An object that begins with the type of a result.
fn begin_result(object: &mut Object, word: &str) -> Result<(), AllocError>
    ensures { OnOk result (object.new ≡ object.old
        ++ key (codes "result") ∷ begin_object ∷ text_member (codes "type") word.now) }
{
    object.key("result")?;
    object.begin_object()?;
    object.text_member("type", word)
}

// The object of a variable.
fn add_variable(object: &mut Object, variable: &RangedVariable<'_>) -> Result<(), AllocError>
    ensures { OnOk result (object.new ≡ object.old
        ++ variable_tokens (variable_shown variable.now)) }
{
    object.begin_object()?;
    object.text_member("name", variable.name)?;
    add_range(object, variable.range)?;
    object.end_object()
}

// An object of each variable.
fn add_each(object: &mut Object, variables: &[RangedVariable<'_>]) -> Result<(), AllocError>
    ensures { OnOk result (object.new ≡ object.old
        ++ flat_map variable_tokens (map variable_shown variables.now)) }
{
    'variables: for variable in variables {
        add_variable(object, variable)?;
    }
    Ok(())
}

/// The list of variables.
pub fn add_variables(
    object: &mut Object,
    variables: &[RangedVariable<'_>],
) -> Result<(), AllocError>
    ensures { OnOk result (object.new ≡ object.old ++ list_member (codes "variables")
        (flat_map variable_tokens (map variable_shown variables.now))) }
{
    add_list(object, "variables", variables)
}

fn add_list(
    object: &mut Object,
    name: &str,
    variables: &[RangedVariable<'_>],
) -> Result<(), AllocError>
    ensures { OnOk result (object.new ≡ object.old ++ list_member name.now
        (flat_map variable_tokens (map variable_shown variables.now))) }
{
    begin_list(object, name)?;
    add_each(object, variables)?;
    object.end_list()
}

fn begin_list(object: &mut Object, name: &str) -> Result<(), AllocError>
    ensures { OnOk result (object.new ≡ object.old ++ key name.now ∷ begin_array ∷ []) }
{
    object.key(name)?;
    object.begin_list()
}
