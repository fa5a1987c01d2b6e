// What operands mean, with the numbers of variables.

ghost use Rattle.std.specs.Prelude.{◌≡◌};
ghost use Rattle.il_semantics.specs.Annotation.{interval, declared_known};
ghost use Rattle.ranges_laws.specs.Facts.{put_by};
ghost use Rattle.il_semantics.specs.Annotation.{range};
ghost use Rattle.ranges_laws.specs.Found.{found_flow};
ghost use Rattle.ranges_transfer.specs.Meant.{range_in, index_fits, operand_in, operand_inside_in, natural_of, context_of, target_fits, stored_in, is_inside_in};

use crate::known::{
    fits_range, found_literal, is_part, known_of, literal_type, only, range, range_of_bounds,
};
use il_semantics::known::Known;
use il_statics::elementary::is_whole;
use il_syntax::tree::{Elementary, Literal, Scalar, Subrange};
use ranges_interval::Interval;
use ranges_rows::Row;

/// What an operand means (IEC 61131-3:2003, 3.2.1).
#[derive(Clone, Copy)]
pub enum Meant {
    Literal(Literal),
    /// A scalar variable, with its number if it has one.
    Variable {
        scalar: Scalar,
        number: Option<usize>,
    },
    /// An element of an array by a number.
    Numbered {
        bounds: Subrange,
        element: Scalar,
        index: i64,
    },
    /// An element of an array by a scalar variable.
    Indexed {
        bounds: Subrange,
        element: Scalar,
        variable: Scalar,
        number: Option<usize>,
    },
    /// An input or output of an instance.
    Inside(Scalar),
    /// Nothing that is declared so.
    Unknown,
}

/// The range of a variable: that of its number, or its declared one.
#[inline(always)]
pub fn range_in(row: &Row, scalar: Scalar, number: Option<usize>) -> Option<Interval>
    ensures { result ≡ range_in row.now scalar number }
{
    match number {
        Some(number) => row.get(number),
        None => range(scalar),
    }
}

// Whether an index lies in its array for all of its values.
fn index_fits(row: &Row, variable: Scalar, number: Option<usize>, bounds: Subrange) -> bool
    ensures { result ≡ index_fits row.now variable number bounds }
{
    match range_in(row, variable, number) {
        Some(index) => is_part(index, range_of_bounds(bounds)),
        None => false,
    }
}

// What is known of a variable.
#[inline(always)]
fn variable_in(row: &Row, scalar: Scalar, number: Option<usize>) -> Option<Known>
    ensures { result ≡ found_flow scalar.elementary (range scalar)
        (range_in row.now scalar number) }
{
    match range(scalar) {
        Some(_) => {
            let found = range_in(row, scalar, number)?;
            Some(Known::Ranged(scalar.elementary, found))
        }
        None => Some(Known::Flag),
    }
}

/// What is known of an operand, of a bare literal with the type that is given.
#[inline(always)]
pub fn operand_in(row: &Row, elementary: Elementary, meant: Meant) -> Option<Known>
    ensures { result ≡ operand_in row.now elementary meant }
{
    match meant {
        Meant::Literal(literal) => found_literal(elementary, literal),
        Meant::Variable { scalar, number } => variable_in(row, scalar, number),
        Meant::Numbered {
            bounds,
            element,
            index,
        } => {
            if is_part(only(index), range_of_bounds(bounds)) {
                Some(known_of(element))
            } else {
                None
            }
        }
        Meant::Indexed {
            bounds,
            element,
            variable,
            number,
        } => {
            if is_whole(variable.elementary) && index_fits(row, variable, number, bounds) {
                Some(known_of(element))
            } else {
                None
            }
        }
        Meant::Inside(scalar) => Some(known_of(scalar)),
        Meant::Unknown => None,
    }
}

/// What is known of an operand whose index lies in its array.
pub fn operand_inside_in(row: &Row, elementary: Elementary, meant: Meant) -> Option<Known>
    ensures { result ≡ operand_inside_in row.now elementary meant }
{
    match meant {
        Meant::Numbered { element, .. } | Meant::Indexed { element, .. } => Some(known_of(element)),
        _ => operand_in(row, elementary, meant),
    }
}

/// The type of a bare literal where none is given; other operands have types of their own.
pub fn natural_of(meant: Meant) -> Elementary
    ensures { result ≡ natural_of meant }
{
    match meant {
        Meant::Literal(literal) => literal_type(literal),
        _ => Elementary::Int,
    }
}

/// The type of a bare literal after an operator: that of the current result.
pub fn context_of(meant: Meant, left: Known) -> Elementary
    ensures { result ≡ context_of meant left }
{
    match left {
        Known::Ranged(elementary, _) => elementary,
        Known::Flag => natural_of(meant),
    }
}

/// Whether a target takes all such values.
#[inline(always)]
pub fn target_fits(row: &Row, meant: Meant, known: Known) -> bool
    ensures { result ≡ target_fits row.now meant known }
{
    match meant {
        Meant::Variable { scalar, .. } => fits_range(scalar, known),
        Meant::Numbered {
            bounds,
            element,
            index,
        } => is_part(only(index), range_of_bounds(bounds)) && fits_range(element, known),
        Meant::Indexed {
            bounds,
            element,
            variable,
            number,
        } => {
            is_whole(variable.elementary)
                && (index_fits(row, variable, number, bounds) && fits_range(element, known))
        }
        Meant::Inside(scalar) => fits_range(scalar, known),
        _ => false,
    }
}

/// Another range for a number.
pub fn put(row: &mut Row, number: Option<usize>, range: Interval)
    ensures { row.new ≡ put_by row.old number range }
{
    if let Some(number) = number {
        if number < row.len() {
            row.set(number, range);
        }
    }
}

/// Keeps what is stored into a variable with a number.
#[inline(always)]
pub fn store_in(row: &mut Row, meant: Meant, known: Known)
    ensures { row.new ≡ stored_in meant known row.old }
{
    if let (Meant::Variable { number, .. }, Known::Ranged(_, stored)) = (meant, known) {
        put(row, number, stored);
    }
}

/// Whether the index of an operand lies in its array for all of its values.
pub fn is_inside_in(row: &Row, meant: Meant) -> bool
    ensures { result ≡ is_inside_in row.now meant }
{
    match meant {
        Meant::Numbered { bounds, index, .. } => is_part(only(index), range_of_bounds(bounds)),
        Meant::Indexed {
            bounds,
            variable,
            number,
            ..
        } => index_fits(row, variable, number, bounds),
        _ => true,
    }
}
