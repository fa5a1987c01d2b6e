// A refusal as JSON.

ghost use Rattle.std.specs.Prelude.{◌≡◌, ◌+◌, ◌++◌, ℕ, List, map, flat_map, length, codes, IfOk, OnOk, string_bytes};
ghost use Rattle.json.specs.Token.{Token};
ghost use Rattle.cli_messages.specs.Places.{IsTitle};
ghost use Rattle.show_refusal.specs.Pieces.{lines_of};
ghost use Rattle.show_refusal.specs.Refusals.{Adds, AreRefusalTokens, IsRefusalLine, column_members, line_byte, line_tokens, number_member, place_members, text_member, told_member};

use crate::pieces::first_line;
use base_shown::shown::shown;
use cli_explain::title;
use cli_messages::lines::{Line, line_around};
use cli_messages::mark::marked;
use il_syntax::tree::Place;
use json::Writer;
use std::alloc::{AllocError, Global};

/// The refusal of a text with a number at a place as a JSON object in one line: the name of the file, the line and the column, both counted from 1,
/// how many bytes are marked, the number, what it means, and the lines that are reported of it.
pub fn refusal_line(
    alloc: Global,
    name: &str,
    text: &[u8],
    number: u16,
    place: Place,
    reason: &[u8],
) -> Result<Vec<u8>, AllocError>
    ensures { IfOk result (λ line. IsRefusalLine name.now text.now number place reason.now
        line.items) }
{
    let mut json = Writer::new(Vec::new(alloc));
    put_refusal(alloc, &mut json, name, text, number, place, reason)?;
    let mut line = json.into_inner();
    line.push(b'\n')?;
    Ok(line)
}

// The object.
fn put_refusal(
    alloc: Global,
    json: &mut Writer<Global>,
    name: &str,
    text: &[u8],
    number: u16,
    place: Place,
    reason: &[u8],
) -> Result<(), AllocError>
    ensures { OnOk result ((tokens : List Token)
        × AreRefusalTokens name.now text.now number place reason.now tokens
        × Adds json.old json.new tokens) }
{
    let told = told_text(alloc, reason)?;
    let line = line_around(text, place.offset as usize);
    json.begin_object()?;
    put_place(json, name, place.line, line)?;
    put_number(json, "number", number as u64)?;
    put_title(json, number)?;
    put_told(json, &told)?;
    json.end_object()
}

// Where it is.
fn put_place(
    json: &mut Writer<Global>,
    name: &str,
    at: u32,
    line: Line<'_>,
) -> Result<(), AllocError>
    ensures { OnOk result (Adds json.old json.new
        (place_members name.now at line.entry.front.now line.entry.back.now)) }
{
    put_text(json, "file", name)?;
    put_number(json, "line", at as u64)?;
    put_column(json, line)
}

// Where it is in its line.
fn put_column(json: &mut Writer<Global>, line: Line<'_>) -> Result<(), AllocError>
    ensures { OnOk result (Adds json.old json.new
        (column_members line.entry.front.now line.entry.back.now)) }
{
    let column = line.front.len() + 1;
    put_number(json, "column", column as u64)?;
    put_number(json, "length", marked(line.back) as u64)
}

// What the number means.
fn put_title(json: &mut Writer<Global>, number: u16) -> Result<(), AllocError>
    ensures { OnOk result ((title : List ℕ) × IsTitle number title
        × Adds json.old json.new (text_member (codes "title") title)) }
{
    put_text(json, "title", title(number).unwrap_or(""))?;
    Ok(())
}

// The lines that are reported.
fn put_told(json: &mut Writer<Global>, told: &str) -> Result<(), AllocError>
    ensures { OnOk result (Adds json.old json.new (told_member told.now)) }
{
    json.key("told")?;
    json.begin_array()?;
    put_lines(json, told)?;
    json.end_array()
}

fn put_lines(json: &mut Writer<Global>, told: &str) -> Result<(), AllocError>
    ensures { OnOk result (Adds json.old json.new
        (flat_map line_tokens (lines_of told.now))) }
{
    let mut rest = Some(told);
    'lines: while let Some(left) = rest {
        let (line, behind) = first_line(left);
        put_line(json, line)?;
        rest = behind;
    }
    Ok(())
}

fn put_line(json: &mut Writer<Global>, line: &str) -> Result<(), AllocError>
    ensures { OnOk result (Adds json.old json.new (line_tokens line.now)) }
{
    if line.is_empty() {
        Ok(())
    } else {
        json.string(line)
    }
}

fn put_text(json: &mut Writer<Global>, name: &str, text: &str) -> Result<(), AllocError>
    ensures { OnOk result (Adds json.old json.new (text_member name.now text.now)) }
{
    json.key(name)?;
    json.string(text)
}

fn put_number(json: &mut Writer<Global>, name: &str, number: u64) -> Result<(), AllocError>
    ensures { OnOk result (Adds json.old json.new (number_member name.now number)) }
{
    json.key(name)?;
    json.u64(number)
}

// What is reported, as it is shown.
fn told_text(alloc: Global, reason: &[u8]) -> Result<String, AllocError>
    ensures { IfOk result (λ told. string_bytes told ≡ map line_byte reason.now) }
{
    let mut told = String::new(alloc);
    'bytes: for byte in reason {
        told.push(char::from(line_byte(*byte)))?;
    }
    Ok(told)
}

// A byte of lines, as it is shown.
fn line_byte(byte: u8) -> u8
    ensures { result ≡ line_byte byte }
{
    match byte {
        b'\n' => byte,
        _ => shown(byte),
    }
}
