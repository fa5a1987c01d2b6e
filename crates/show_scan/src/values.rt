// Values, and the paths under which a scan has them.

ghost use Rattle.std.specs.Prelude.{◌≡◌, IfOk, OnOk, string_bytes};
ghost use Rattle.base_texts.specs.Puts.{Puts};
ghost use Rattle.il_semantics.specs.Meaning as meaning;
ghost use Rattle.show_scan.specs.Stands.{value_text, result_text, named_text, there_by, there_text, indexed_text, element_text, reference_text};

use crate::view::{View, under};
use il_semantics::value::Content;
use il_syntax::tree::{Index, Reference};
use scan_task::Value;
use std::alloc::{AllocError, Global};

// A value.
fn put_value(text: &mut String, value: Option<Value>) -> Result<(), AllocError>
    ensures { OnOk result (Puts text.old text.new (value_text value)) }
{
    match value {
        None => text.push_str("none"),
        Some(Value::Boolean(true)) => text.push_str("TRUE"),
        Some(Value::Boolean(false)) => text.push_str("FALSE"),
        Some(Value::Integer(number)) => write!(text, "{}", number),
    }
}

/// A current result.
pub fn put_result(text: &mut String, current: Option<Content>) -> Result<(), AllocError>
    ensures { OnOk result (Puts text.old text.new (result_text current)) }
{
    match current {
        None => text.push_str("none"),
        Some(content) => put_value(text, Some(content.value)),
    }
}

// A path and its value.
fn put_named(text: &mut String, view: &View<'_>, path: &str) -> Result<(), AllocError>
    ensures { OnOk result (Puts text.old text.new (named_text view.now.state.values path.now)) }
{
    write!(text, ", {} ", path)?;
    put_value(text, view.value(path))
}

/// A variable of the body at a path, and its value.
pub fn put_variable(
    alloc: Global,
    text: &mut String,
    view: &View<'_>,
    path: &str,
    name: &str,
) -> Result<(), AllocError>
    ensures { OnOk result (Puts text.old text.new
        (named_text view.now.state.values (meaning.under path.now name.now))) }
{
    let path = under(String::from_str(alloc, path)?, name)?;
    put_named(text, view, path.as_str())
}

// The path of an input or output of an instance of the body at a path.
fn member_path(alloc: Global, path: &str, instance: &str, word: &str) -> Result<String, AllocError>
    ensures { IfOk result (λ member. string_bytes member
        ≡ meaning.member_path (meaning.under path.now instance.now) word.now) }
{
    let mut member = under(String::from_str(alloc, path)?, instance)?;
    member.push_str(".")?;
    member.push_str(word)?;
    Ok(member)
}

/// An input or output of an instance of the body at a path, and its value.
pub fn put_member(
    alloc: Global,
    text: &mut String,
    view: &View<'_>,
    path: &str,
    instance: &str,
    word: &str,
) -> Result<(), AllocError>
    ensures { OnOk result (Puts text.old text.new
        (named_text view.now.state.values
        (meaning.member_path (meaning.under path.now instance.now) word.now))) }
{
    let path = member_path(alloc, path, instance, word)?;
    put_named(text, view, path.as_str())
}

/// An input or output of an instance that may lack it, and its value: nothing where it does.
pub fn put_member_there(
    alloc: Global,
    text: &mut String,
    view: &View<'_>,
    path: &str,
    instance: &str,
    word: &str,
) -> Result<(), AllocError>
    ensures { OnOk result (Puts text.old text.new
        (there_text view.now.state.values
        (meaning.member_path (meaning.under path.now instance.now) word.now))) }
{
    let path = member_path(alloc, path, instance, word)?;
    put_there(text, path.as_str(), view.value(path.as_str()))
}

// A path and its value, if it has one.
fn put_there(text: &mut String, path: &str, value: Option<Value>) -> Result<(), AllocError>
    ensures { OnOk result (Puts text.old text.new (there_by path.now value)) }
{
    match value {
        None => Ok(()),
        Some(_) => {
            write!(text, ", {} ", path)?;
            put_value(text, value)
        }
    }
}

// An element of the array at a path, and its value.
fn put_numbered(
    text: &mut String,
    view: &View<'_>,
    array: String,
    number: i64,
) -> Result<(), AllocError>
    ensures { OnOk result (Puts text.old text.new
        (named_text view.now.state.values (meaning.element_path (string_bytes array) number))) }
{
    let mut path = array;
    write!(path, "[{}]", number)?;
    put_named(text, view, path.as_str())
}

// An element whose index is a variable, and its value.
fn put_indexed(
    text: &mut String,
    view: &View<'_>,
    array: String,
    index: Option<Value>,
) -> Result<(), AllocError>
    ensures { OnOk result (Puts text.old text.new
        (indexed_text view.now.state.values (string_bytes array) index)) }
{
    match index {
        Some(Value::Integer(number)) => put_numbered(text, view, array, number),
        _ => Ok(()),
    }
}

// An element of an array of the body at a path, and its value.
fn put_element(
    alloc: Global,
    text: &mut String,
    view: &View<'_>,
    path: &str,
    name: &str,
    index: &Index,
) -> Result<(), AllocError>
    ensures { OnOk result (Puts text.old text.new
        (element_text view.now.state.values path.now name.now index.now)) }
{
    let array = under(String::from_str(alloc, path)?, name)?;
    match index {
        Index::Number(number) => put_numbered(text, view, array, *number),
        Index::Variable(variable) => {
            let index = under(String::from_str(alloc, path)?, variable.as_str())?;
            put_indexed(text, view, array, view.value(index.as_str()))
        }
    }
}

/// What an operand of the body at a path names, and its value.
pub fn put_reference(
    alloc: Global,
    text: &mut String,
    view: &View<'_>,
    path: &str,
    reference: &Reference,
) -> Result<(), AllocError>
    ensures { OnOk result (Puts text.old text.new
        (reference_text view.now.state.values path.now reference.now)) }
{
    match reference {
        Reference::Literal(_) => Ok(()),
        Reference::Variable(name) => put_variable(alloc, text, view, path, name.as_str()),
        Reference::Element(name, index) => {
            put_element(alloc, text, view, path, name.as_str(), index)
        }
        Reference::Member(instance, word) => {
            put_member(alloc, text, view, path, instance.as_str(), word.as_str())
        }
    }
}
