// What happened along a trace.

use crate::denials::Denials;
use crate::places::Places;
use crate::rides::Rides;
use group_spec::calls::Slot;
use group_spec::image::{Fields, Sizes};
use group_spec::report::Report;
use std::alloc::{AllocError, Global};

/// FIRE from a round on, up to the next switch.
#[derive(Clone, Copy)]
pub struct Switch {
    pub round: u64,
    pub on: bool,
}

/// What happened along a trace, by rounds: a round begins with a refresh, and the first is round 1.
#[derive(Drop)]
pub struct Story {
    sizes: Sizes,
    // NOW at each refresh, in milliseconds
    times: Vec<u32>,
    burns: bool,
    fires: Vec<Switch>,
    pub places: Places,
    pub rides: Rides,
    pub denials: Denials,
}

impl Story {
    /// Nothing has happened yet.
    pub fn new(alloc: Global, sizes: Sizes) -> Story {
        Story {
            sizes,
            times: Vec::new(alloc),
            burns: false,
            fires: Vec::new(alloc),
            places: Places::new(alloc),
            rides: Rides::new(alloc),
            denials: Denials::new(alloc),
        }
    }

    /// The sizes of the group.
    pub fn sizes(&self) -> Sizes {
        self.sizes
    }

    /// How many rounds there are.
    pub fn rounds(&self) -> u64 {
        self.times.len() as u64
    }

    /// NOW in a round, in milliseconds.
    pub fn time(&self, round: u64) -> u32 {
        let index = round.saturating_sub(1) as usize;
        self.times.get(index).copied().unwrap_or(0)
    }

    /// The switches of FIRE, in the order of the rounds.
    pub fn fires(&self) -> &[Switch] {
        self.fires.as_slice()
    }

    /// A refresh, with its report.
    pub fn note_refresh(&mut self, fields: &Fields, report: &Report) -> Result<(), AllocError> {
        self.times.push(fields.time)?;
        let round = self.rounds();
        self.note_fire(fields.fire, round)?;
        self.places.note(fields.cars.as_slice(), round)?;
        self.rides.board(fields.cars.as_slice(), round);
        self.rides.enter(report.entered.as_slice(), round)?;
        self.denials.note_refresh(report.denials.as_slice(), round)
    }

    fn note_fire(&mut self, on: bool, round: u64) -> Result<(), AllocError> {
        if on != self.burns {
            self.burns = on;
            self.fires.push(Switch { round, on })?;
        }
        Ok(())
    }

    /// A commit, with its report and the call slots after it.
    pub fn note_commit(&mut self, slots: &[Slot], report: &Report) -> Result<(), AllocError> {
        let round = self.rounds();
        self.rides.follow(slots, round);
        self.denials.note(report.denials.as_slice(), round)
    }
}
