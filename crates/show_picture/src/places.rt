// Where the cars are and how their doors stand, from change to change.

use group_spec::image::{CAR_PLACES, CarFields};
use std::alloc::{AllocError, Global};

/// A door, as LOCKED and OPENED say.
#[derive(Clone, Copy, PartialEq, Eq)]
pub enum Door {
    Shut,
    Moving,
    Open,
}

/// What a refresh reports of a car: its floor, whether it is level with the landing, and its door.
#[derive(Clone, Copy, PartialEq, Eq)]
pub struct Place {
    pub floor: u8,
    pub level: bool,
    pub door: Door,
}

/// The place of a car from a round on, up to its next change. Cars count from 1.
#[derive(Clone, Copy)]
pub struct Change {
    pub car: u64,
    pub round: u64,
    pub place: Place,
}

/// The changes of all cars, in the order of the rounds.
#[derive(Drop)]
pub struct Places {
    latest: [Option<Place>; CAR_PLACES],
    changes: Vec<Change>,
}

// The door of a car.
fn door_of(fields: &CarFields) -> Door {
    if fields.opened {
        Door::Open
    } else if fields.locked {
        Door::Shut
    } else {
        Door::Moving
    }
}

// The place of a car.
fn place_of(fields: &CarFields) -> Place {
    Place {
        floor: fields.pos,
        level: fields.level,
        door: door_of(fields),
    }
}

impl Places {
    /// No change yet.
    pub fn new(alloc: Global) -> Places {
        Places {
            latest: [None; CAR_PLACES],
            changes: Vec::new(alloc),
        }
    }

    /// The changes of all cars, in the order of the rounds.
    pub fn changes(&self) -> &[Change] {
        self.changes.as_slice()
    }

    /// What a refresh reports of the cars, car 1 first.
    pub fn note(&mut self, cars: &[CarFields], round: u64) -> Result<(), AllocError> {
        'cars: for (index, fields) in cars.iter().enumerate() {
            self.note_car(index, place_of(fields), round)?;
        }
        Ok(())
    }

    // The place of one car, by its index. Where it is the same as before, there is nothing to note.
    fn note_car(&mut self, index: usize, place: Place, round: u64) -> Result<(), AllocError> {
        if index >= CAR_PLACES || self.latest[index] == Some(place) {
            return Ok(());
        }
        self.latest[index] = Some(place);
        let car = index as u64 + 1;
        self.changes.push(Change { car, round, place })?;
        Ok(())
    }
}
