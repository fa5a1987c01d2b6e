// Pieces of text, one after the other.

ghost use Rattle.std.specs.Prelude.{◌++◌, OnOk, decimal};
ghost use Rattle.base_texts.specs.Puts.{Puts};

use std::alloc::AllocError;

/// Two pieces.
#[tactic(auto, using(crate::proofs::Pieces::join))]
pub fn put_two(text: &mut String, first: &str, second: &str) -> Result<(), AllocError>
    ensures { OnOk result (Puts text.old text.new (first.now ++ second.now)) }
{
    text.push_str(first)?;
    text.push_str(second)
}

/// Three pieces.
pub fn put_three(
    text: &mut String,
    first: &str,
    second: &str,
    third: &str,
) -> Result<(), AllocError>
    ensures { OnOk result (Puts text.old text.new (first.now ++ (second.now ++ third.now))) }
{
    text.push_str(first)?;
    put_two(text, second, third)
}

/// Four pieces.
pub fn put_four(
    text: &mut String,
    first: &str,
    second: &str,
    third: &str,
    fourth: &str,
) -> Result<(), AllocError>
    ensures { OnOk result (Puts text.old text.new
        (first.now ++ (second.now ++ (third.now ++ fourth.now)))) }
{
    put_two(text, first, second)?;
    put_two(text, third, fourth)
}

/// A number.
pub fn put_number(text: &mut String, number: u32) -> Result<(), AllocError>
    ensures { OnOk result (Puts text.old text.new (decimal number)) }
{
    write!(text, "{}", number)
}

/// A piece, and a number.
pub fn put_numbered(text: &mut String, piece: &str, number: u32) -> Result<(), AllocError>
    ensures { OnOk result (Puts text.old text.new (piece.now ++ decimal number)) }
{
    text.push_str(piece)?;
    put_number(text, number)
}

/// Two pieces, a number and a piece.
pub fn put_in_line(
    text: &mut String,
    first: &str,
    second: &str,
    number: u32,
    end: &str,
) -> Result<(), AllocError>
    ensures { OnOk result (Puts text.old text.new
        (first.now ++ (second.now ++ (decimal number ++ end.now)))) }
{
    put_two(text, first, second)?;
    put_number(text, number)?;
    text.push_str(end)
}
