// Where the labels of the calls are, so that none overlaps another.

use crate::svg::Point;
use group_spec::calls::Call;
use std::alloc::{AllocError, Global};

// The width of a character, and the height of a line.
const CHARACTER: u64 = 6;

const LINE: u64 = 11;

// How far to the right a label may be of where its call begins.
const FAR: u64 = 60;

// The room of a label: from its left end, along its base line.
#[derive(Clone, Copy)]
struct Room {
    at: Point,
    width: u64,
}

/// The labels that were placed.
#[derive(Drop)]
pub struct Labels {
    rooms: Vec<Room>,
}

// How many digits a number has.
fn digits(number: u64) -> u64 {
    match number {
        0..=9 => 1,
        10..=99 => 2,
        100..=999 => 3,
        1000..=9999 => 4,
        10000..=99999 => 5,
        _ => 20,
    }
}

/// How wide the label `TICKET: FROM-TO` of a call is.
pub fn width_of(ticket: u64, call: Call) -> u64 {
    let floors = digits(u64::from(call.from)).saturating_add(digits(u64::from(call.to)));
    let characters = digits(ticket).saturating_add(floors).saturating_add(3);
    characters.saturating_mul(CHARACTER)
}

impl Room {
    // Whether two rooms overlap.
    fn overlaps(self, other: Room) -> bool {
        let apart = self.at.x.saturating_add(self.width) <= other.at.x
            || other.at.x.saturating_add(other.width) <= self.at.x;
        let over = self.at.y.abs_diff(other.at.y) >= LINE;
        !apart && !over
    }
}

// The place of a label: the nth that is looked at, from where its call begins. A line that goes up has its label below.
fn place_at(from: Point, up: bool, nth: u64) -> Point {
    let x = from
        .x
        .saturating_add(4)
        .saturating_add((nth / 2).saturating_mul(FAR / 4));
    let below = from.y.saturating_add(LINE);
    let above = from.y.saturating_sub(3);
    let first = nth % 2 == 0;
    let y = if first == up { below } else { above };
    Point { x, y }
}

impl Labels {
    /// No label yet.
    pub fn new(alloc: Global) -> Labels {
        Labels {
            rooms: Vec::new(alloc),
        }
    }

    // Whether a room is free.
    fn is_free(&self, room: Room) -> bool {
        'rooms: for other in &self.rooms {
            if room.overlaps(*other) {
                return false;
            }
        }
        true
    }

    /// Room for a label of this width near where its call begins, if there is some; it is taken.
    pub fn place(
        &mut self,
        from: Point,
        width: u64,
        up: bool,
    ) -> Result<Option<Point>, AllocError> {
        'places: for nth in 0..10 {
            let room = Room {
                at: place_at(from, up, nth),
                width,
            };
            if self.is_free(room) {
                self.rooms.push(room)?;
                return Ok(Some(room.at));
            }
        }
        Ok(None)
    }
}
