// What `--changes` leaves of the lines that `watch` prints.

ghost use Rattle.std.specs.Prelude.{◌≡◌, None, IfOk, OnOk, map, option_map, string_bytes};
ghost use Rattle.std.specs.Str.Lines.{lines};
ghost use Rattle.base_texts.specs.Puts.{Puts};
ghost use Rattle.show_values.specs.Changes.{values_in, repeats, changed_rows, changed_lines, shown_text};

use std::alloc::{AllocError, Global};

/// A text of lines as it is, or where `changes` is set its header and the rows whose values are not those of the row before.
pub fn shown_text(alloc: Global, changes: bool, text: String) -> Result<String, AllocError>
    ensures { IfOk result (λ shown. string_bytes shown ≡ shown_text changes (string_bytes text)) }
{
    if !changes {
        return Ok(text);
    }
    let mut shown = String::new(alloc);
    put_changed(&mut shown, &all_lines(alloc, &text)?)?;
    Ok(shown)
}

fn all_lines(alloc: Global, text: &str) -> Result<Vec<&str>, AllocError>
    ensures { IfOk result (λ all. map (λ x. x.now) all.items ≡ lines text.now) }
{
    text.lines().collect(alloc)
}

fn put_changed(text: &mut String, lines: &[&str]) -> Result<(), AllocError>
    ensures { OnOk result (Puts text.old text.new (changed_lines (map (λ x. x.now) lines.now))) }
{
    match lines {
        [] => Ok(()),
        [header, rows @ ..] => {
            text.push_str(header)?;
            text.push_str("\n")?;
            put_rows(text, rows)
        }
    }
}

fn put_rows(text: &mut String, rows: &[&str]) -> Result<(), AllocError>
    ensures { OnOk result (Puts text.old text.new
        (changed_rows None (map (λ x. x.now) rows.now))) }
{
    let mut before: Option<&str> = None;
    'rows: for row in rows {
        if !repeats(before, row) {
            text.push_str(row)?;
            text.push_str("\n")?;
        }
        before = Some(*row);
    }
    Ok(())
}

// Whether a row has the values of the row before it.
fn repeats(before: Option<&str>, row: &str) -> bool
    ensures { result ≡ repeats (option_map (λ x. x.now) before.entry) row.now }
{
    match before {
        Some(before) => values_in(before) == values_in(row),
        None => false,
    }
}

// What follows the first comma of a row; nothing, where there is none.
fn values_in(row: &str) -> &str
    ensures { result.now ≡ values_in row.now }
{
    match row.split_once(',') {
        Some((_, values)) => values,
        None => "",
    }
}
