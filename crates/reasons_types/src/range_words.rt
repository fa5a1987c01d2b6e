// Ranges, types, operands and the lines of declarations, as they are reported.

ghost use Rattle.std.specs.Prelude.{◌≡◌, ◌++◌, OnOk, codes, decimal};
ghost use Rattle.std.specs.Fmt.{signed_decimal};
ghost use Rattle.base_texts.specs.Puts.{Puts};
ghost use Rattle.il_statics.specs.Names.{or_else};
ghost use Rattle.reasons_types.specs.RangeWords.{both_text, ends_text, limits_text, within_text, scalar_text, index_text, index_name, reference_text, line_among, line_in, result_line, declared_line, declared_text, instance_text, where_text};

use crate::types_operands::type_word;
use il_statics::elementary::declared_limits;
use il_syntax::tree::{Declaration, Index, Named, Reference, Scalar, Subrange, Unit, UnitKind};
use ranges_interval::Interval;
use reasons_names::writing::{put_numbered, put_three, put_two};
use std::alloc::AllocError;

/// A piece of text.
pub fn put(text: &mut String, piece: &str) -> Result<(), AllocError>
    ensures { OnOk result (Puts text.old text.new piece.now) }
{
    text.push_str(piece)
}

// `LO..HI`
#[tactic(auto, unfolding(crate::specs::RangeWords::both_text))]
fn put_both(text: &mut String, range: Interval) -> Result<(), AllocError>
    ensures { OnOk result (Puts text.old text.new (both_text range)) }
{
    write!(text, "{}..{}", range.lo, range.hi)
}

// A number.
fn put_number(text: &mut String, number: i128) -> Result<(), AllocError>
    ensures { OnOk result (Puts text.old text.new (signed_decimal number)) }
{
    write!(text, "{}", number)
}

/// `LO..HI`, or the number alone where there is one.
#[tactic(auto, unfolding(crate::specs::RangeWords::ends_text))]
pub fn put_ends(text: &mut String, range: Interval) -> Result<(), AllocError>
    ensures { OnOk result (Puts text.old text.new (ends_text range)) }
{
    if range.hi <= range.lo {
        put_number(text, range.lo)
    } else {
        put_both(text, range)
    }
}

/// A range between two pieces.
pub fn put_range(
    text: &mut String,
    before: &str,
    range: Interval,
    after: &str,
) -> Result<(), AllocError>
    ensures { OnOk result (Puts text.old text.new (before.now ++ (ends_text range ++ after.now))) }
{
    text.push_str(before)?;
    put_ends(text, range)?;
    text.push_str(after)
}

/// `LO..HI` of written limits.
#[tactic(auto, unfolding(crate::specs::RangeWords::limits_text))]
pub fn put_limits(text: &mut String, limits: Subrange) -> Result<(), AllocError>
    ensures { OnOk result (Puts text.old text.new (limits_text limits)) }
{
    write!(text, "{}..{}", limits.lower, limits.upper)
}

/// ` (LO..HI)`, where there are limits.
pub fn put_within(text: &mut String, limits: Option<Subrange>) -> Result<(), AllocError>
    ensures { OnOk result (Puts text.old text.new (within_text limits)) }
{
    match limits {
        Some(limits) => {
            text.push_str(" (")?;
            put_limits(text, limits)?;
            text.push_str(")")
        }
        None => Ok(()),
    }
}

/// A scalar type with its limits, as `INT (0..9)`.
pub fn put_scalar(text: &mut String, scalar: Scalar) -> Result<(), AllocError>
    ensures { OnOk result (Puts text.old text.new (scalar_text scalar)) }
{
    text.push_str(type_word(scalar.elementary))?;
    put_within(text, declared_limits(scalar))
}

/// ` I`, an index that has a name.
pub fn put_index_name(text: &mut String, index: &Index) -> Result<(), AllocError>
    ensures { OnOk result (Puts text.old text.new (index_name index.now)) }
{
    match index {
        Index::Number(_) => Ok(()),
        Index::Variable(name) => put_spaced_name(text, name.as_str()),
    }
}

// ` I`
fn put_spaced_name(text: &mut String, name: &str) -> Result<(), AllocError>
    ensures { OnOk result (Puts text.old text.new (codes " " ++ name.now)) }
{
    put_two(text, " ", name)
}

/// An index, as it is written.
pub fn put_index(text: &mut String, index: &Index) -> Result<(), AllocError>
    ensures { OnOk result (Puts text.old text.new (index_text index.now)) }
{
    match index {
        Index::Number(number) => write!(text, "{}", *number),
        Index::Variable(name) => text.push_str(name.as_str()),
    }
}

// `A[I]`
fn put_element(text: &mut String, name: &str, index: &Index) -> Result<(), AllocError>
    ensures { OnOk result (Puts text.old text.new
        (name.now ++ (codes "[" ++ (index_text index.now ++ codes "]")))) }
{
    put_two(text, name, "[")?;
    put_index(text, index)?;
    text.push_str("]")
}

// `C.PV`
fn put_member(text: &mut String, name: &str, word: &str) -> Result<(), AllocError>
    ensures { OnOk result (Puts text.old text.new (name.now ++ (codes "." ++ word.now))) }
{
    put_three(text, name, ".", word)
}

/// What an operand names, as it is written; a literal names nothing.
pub fn put_reference(text: &mut String, reference: &Reference) -> Result<(), AllocError>
    ensures { OnOk result (Puts text.old text.new (reference_text reference.now)) }
{
    match reference {
        Reference::Literal(_) => Ok(()),
        Reference::Variable(name) => text.push_str(name.as_str()),
        Reference::Element(name, index) => put_element(text, name.as_str(), index),
        Reference::Member(name, word) => put_member(text, name.as_str(), word.as_str()),
    }
}

// The line of the first of some names that is this one.
fn line_among(names: &[Named], name: &str) -> Option<u32>
    ensures { result ≡ line_among names.now name.now }
{
    for one in names {
        if one.name.as_str() == name {
            return Some(one.place.line);
        }
    }
    None
}

// The line of the first declaration of this name.
fn line_in(declarations: &[Declaration], name: &str) -> Option<u32>
    ensures { result ≡ line_in declarations.now name.now }
{
    for declaration in declarations {
        if let Some(line) = line_among(declaration.names.as_slice(), name) {
            return Some(line);
        }
    }
    None
}

// The line of a function's heading, under its own name.
fn result_line(kind: UnitKind, own: &Named, name: &str) -> Option<u32>
    ensures { result ≡ result_line kind own.now name.now }
{
    match kind {
        UnitKind::Function(_, _) => {
            if own.name.as_str() == name {
                Some(own.place.line)
            } else {
                None
            }
        }
        _ => None,
    }
}

// The first line that is there.
fn first_line(first: Option<u32>, other: Option<u32>) -> Option<u32>
    ensures { result ≡ or_else first other }
{
    match first {
        Some(line) => Some(line),
        None => other,
    }
}

// The line in which a unit declares the variable that it means by a name; an image name has none.
fn declared_line(unit: &Unit, name: &str) -> Option<u32>
    ensures { result ≡ declared_line unit.now name.now }
{
    let own = result_line(unit.kind, &unit.name, name);
    let inputs = line_in(unit.inputs.as_slice(), name);
    let outputs = line_in(unit.outputs.as_slice(), name);
    let variables = line_in(unit.variables.as_slice(), name);
    let externals = line_in(unit.externals.as_slice(), name);
    let inner = first_line(outputs, first_line(variables, externals));
    first_line(own, first_line(inputs, inner))
}

// `, declared in line N`, where there is a line.
fn put_declared(text: &mut String, line: Option<u32>) -> Result<(), AllocError>
    ensures { OnOk result (Puts text.old text.new (declared_text line)) }
{
    match line {
        Some(line) => put_numbered(text, ", declared in line ", line),
        None => Ok(()),
    }
}

/// `, declared in line N` of the line in which a unit declares a name, where there is one.
pub fn put_line_of(text: &mut String, unit: &Unit, name: &str) -> Result<(), AllocError>
    ensures { OnOk result (Puts text.old text.new
        (declared_text (declared_line unit.now name.now))) }
{
    put_declared(text, declared_line(unit, name))
}

// ` declared in line N`
fn put_in_line(text: &mut String, line: u32) -> Result<(), AllocError>
    ensures { OnOk result (Puts text.old text.new (codes " declared in line " ++ decimal line)) }
{
    put_numbered(text, " declared in line ", line)
}

// `, C declared in line N`
fn put_declared_name(text: &mut String, name: &str, line: u32) -> Result<(), AllocError>
    ensures { OnOk result (Puts text.old text.new
        (codes ", " ++ (name.now ++ (codes " declared in line " ++ decimal line)))) }
{
    put_two(text, ", ", name)?;
    put_in_line(text, line)
}

// Where the instance is declared, if it is.
fn put_instance(text: &mut String, name: &str, line: Option<u32>) -> Result<(), AllocError>
    ensures { OnOk result (Puts text.old text.new (instance_text name.now line)) }
{
    match line {
        Some(line) => put_declared_name(text, name, line),
        None => Ok(()),
    }
}

/// The line in which what an operand names is declared, of a member the instance.
pub fn put_where(text: &mut String, unit: &Unit, reference: &Reference) -> Result<(), AllocError>
    ensures { OnOk result (Puts text.old text.new (where_text unit.now reference.now)) }
{
    match reference {
        Reference::Literal(_) => Ok(()),
        Reference::Variable(name) => put_line_of(text, unit, name.as_str()),
        Reference::Element(name, _) => put_line_of(text, unit, name.as_str()),
        Reference::Member(name, _) => {
            put_instance(text, name.as_str(), declared_line(unit, name.as_str()))
        }
    }
}
