// Lines that are cut at the edges of the bands.

use crate::frame::Frame;
use crate::svg::{FinePoint, put_line, put_move};
use std::alloc::AllocError;

/// A corner of a line: at the left edge of a round, at a height.
#[derive(Clone, Copy)]
pub struct Corner {
    pub round: u64,
    pub y: u64,
}

/// The height of the line between two corners, at a round between them.
pub fn height_at(from: Corner, to: Corner, round: u64) -> u64 {
    let way = to.round.saturating_sub(from.round);
    if way == 0 {
        return to.y;
    }
    let past = round.saturating_sub(from.round).min(way);
    let change = from.y.abs_diff(to.y).saturating_mul(past) / way;
    if to.y < from.y {
        from.y.saturating_sub(change)
    } else {
        from.y.saturating_add(change)
    }
}

/// Draws a line from corner to corner, as far as the picture shows it. Heights are in tenths of a pixel.
#[derive(Clone, Copy)]
pub struct Pen {
    frame: Frame,
    at: Option<Corner>,
}

impl Pen {
    /// Before the first corner.
    pub fn new(frame: Frame) -> Pen {
        Pen { frame, at: None }
    }

    /// The next corner, in the round of the last one or after it.
    pub fn draw(&mut self, text: &mut String, to: Corner) -> Result<(), AllocError> {
        match self.at {
            Some(from) => put_stretch(text, self.frame, from, to)?,
            None => put_beginning(text, self.frame, to)?,
        }
        self.at = Some(to);
        Ok(())
    }
}

// The point of a corner.
fn point(frame: Frame, corner: Corner) -> FinePoint {
    FinePoint {
        x: frame.fine_x(corner.round),
        y: corner.y,
    }
}

// The first corner, where the picture shows it.
fn put_beginning(text: &mut String, frame: Frame, corner: Corner) -> Result<(), AllocError> {
    if frame.window().has(corner.round) {
        put_move(text, point(frame, corner))
    } else {
        Ok(())
    }
}

// Where the line between two corners is at a round, or at its nearer end.
fn cut_at(from: Corner, to: Corner, round: u64) -> Corner {
    let round = round.max(from.round).min(to.round);
    let y = height_at(from, to, round);
    Corner { round, y }
}

// The line from a corner to the next, where the picture shows it.
fn put_stretch(
    text: &mut String,
    frame: Frame,
    from: Corner,
    to: Corner,
) -> Result<(), AllocError> {
    let window = frame.window();
    if to.round < window.first || window.end() <= from.round {
        return Ok(());
    }
    if from.round < window.first {
        put_move(text, point(frame, cut_at(from, to, window.first)))?;
    }
    put_line(text, point(frame, cut_at(from, to, window.end())))
}
