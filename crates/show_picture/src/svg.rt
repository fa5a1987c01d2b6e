// Elements of SVG, in whole pixels from the upper left corner.

use std::alloc::AllocError;

/// A point of the picture.
#[derive(Clone, Copy)]
pub struct Point {
    pub x: u64,
    pub y: u64,
}

/// Opens a group whose elements have these attributes.
pub fn open_group(text: &mut String, attributes: &str) -> Result<(), AllocError> {
    writeln!(text, "<g {attributes}>")
}

/// Closes a group.
pub fn close_group(text: &mut String) -> Result<(), AllocError> {
    text.push_str("</g>\n")
}

/// Words, where they begin or, as their group says, are centred or end.
pub fn put_words(text: &mut String, at: Point, words: &str) -> Result<(), AllocError> {
    let Point { x, y } = at;
    writeln!(text, "<text x=\"{x}\" y=\"{y}\">{words}</text>")
}

/// A number, as words are.
pub fn put_number(text: &mut String, at: Point, number: u64) -> Result<(), AllocError> {
    let Point { x, y } = at;
    writeln!(text, "<text x=\"{x}\" y=\"{y}\">{number}</text>")
}

/// A time in milliseconds, as seconds with one decimal.
pub fn put_seconds(text: &mut String, time: u32) -> Result<(), AllocError> {
    let seconds = time / 1000;
    let tenths = time % 1000 / 100;
    write!(text, "{seconds}.{tenths}")
}

/// A point of the picture, in tenths of a pixel.
#[derive(Clone, Copy)]
pub struct FinePoint {
    pub x: u64,
    pub y: u64,
}

// A length in tenths of a pixel.
fn put_tenths(text: &mut String, length: u64) -> Result<(), AllocError> {
    let pixels = length / 10;
    write!(text, "{pixels}")?;
    let tenths = length % 10;
    if tenths == 0 {
        return Ok(());
    }
    write!(text, ".{tenths}")
}

fn put_fine(text: &mut String, at: FinePoint) -> Result<(), AllocError> {
    put_tenths(text, at.x)?;
    text.push_str(" ")?;
    put_tenths(text, at.y)
}

/// A step of a path: a move to a point.
pub fn put_move(text: &mut String, to: FinePoint) -> Result<(), AllocError> {
    text.push_str("M")?;
    put_fine(text, to)
}

/// A step of a path: a straight line to a point.
pub fn put_line(text: &mut String, to: FinePoint) -> Result<(), AllocError> {
    text.push_str("L")?;
    put_fine(text, to)
}

/// A step of a path: a level line from a point.
pub fn put_level(text: &mut String, from: Point, end: u64) -> Result<(), AllocError> {
    let Point { x, y } = from;
    write!(text, "M{x} {y}H{end}")
}

/// A step of a path: a plumb line from a point.
pub fn put_plumb(text: &mut String, from: Point, end: u64) -> Result<(), AllocError> {
    let Point { x, y } = from;
    write!(text, "M{x} {y}V{end}")
}

/// A step of a path: a rectangle from its upper left corner to the opposite one.
pub fn put_box(text: &mut String, from: Point, to: Point) -> Result<(), AllocError> {
    let Point { x, y } = from;
    let Point { x: right, y: below } = to;
    write!(text, "M{x} {y}H{right}V{below}H{x}z")
}

/// The end of the path of a group.
pub fn end_path(text: &mut String) -> Result<(), AllocError> {
    text.push_str("\"/>\n")
}
