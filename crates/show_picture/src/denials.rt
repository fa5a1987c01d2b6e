// What the interlock denied.

ghost use Rattle.std.specs.Prelude.{◌<◌};

use group_spec::image::CAR_PLACES;
use group_spec::report::{Denial, Rule};
use std::alloc::{AllocError, Global};

// Denials of a car by a rule that are no more rounds apart are one.
const GAP: u64 = 5;

// The index of the stops at the ends of the shaft, after those of the rules.
const END_STOP: usize = 7;

// The places of a car: one for each rule, which count from 1, and one for its stops at the ends of the shaft.
const PLACES_OF_CAR: usize = 8;

// The places of all cars.
const PLACES: usize = PLACES_OF_CAR * CAR_PLACES;

/// What a rule denied to a car, again and again, from a round to a round.
#[derive(Clone, Copy)]
pub struct Denied {
    pub car: u64,
    pub rule: Rule,
    /// Whether a refresh stopped the running car at the top or the bottom, as it must.
    pub is_end_stop: bool,
    pub first: u64,
    pub last: u64,
    pub times: u64,
}

/// What was denied, in the order of the first rounds.
#[derive(Drop)]
pub struct Denials {
    // the latest of each car and rule, by its index
    latest: [Option<usize>; PLACES],
    list: Vec<Denied>,
}

// The place of a car and a rule, or of the car's stops at the ends.
fn place_of(denial: &Denial, is_end_stop: bool) -> usize {
    let index = if is_end_stop {
        END_STOP
    } else {
        usize::from(denial.rule.number())
    };
    usize::from(denial.car).saturating_sub(1) * PLACES_OF_CAR + index
}

impl Denied {
    // Whether a denial in this round is one with the denials before; then it is added.
    fn goes_on(&mut self, round: u64) -> bool {
        if round > self.last.saturating_add(GAP) {
            return false;
        }
        self.last = round;
        self.times = self.times.saturating_add(1);
        true
    }
}

impl Denials {
    /// No denial yet.
    pub fn new(alloc: Global) -> Denials {
        Denials {
            latest: [None; PLACES],
            list: Vec::new(alloc),
        }
    }

    /// What was denied, in the order of the first rounds.
    pub fn list(&self) -> &[Denied] {
        self.list.as_slice()
    }

    /// The denials of a commit.
    pub fn note(&mut self, denials: &[Denial], round: u64) -> Result<(), AllocError> {
        'denials: for denial in denials {
            self.note_one(denial, false, round)?;
        }
        Ok(())
    }

    /// The denials of a refresh: by rule 3 it stops a car that has come to an end of its shaft.
    pub fn note_refresh(&mut self, denials: &[Denial], round: u64) -> Result<(), AllocError> {
        'denials: for denial in denials {
            let is_end_stop = matches!(denial.rule, Rule::AtEnd);
            self.note_one(denial, is_end_stop, round)?;
        }
        Ok(())
    }

    fn note_one(
        &mut self,
        denial: &Denial,
        is_end_stop: bool,
        round: u64,
    ) -> Result<(), AllocError> {
        let place = place_of(denial, is_end_stop);
        if place >= PLACES || self.goes_on(place, round) {
            return Ok(());
        }
        self.latest[place] = Some(self.list.len());
        self.list.push(Denied {
            car: u64::from(denial.car),
            rule: denial.rule,
            is_end_stop,
            first: round,
            last: round,
            times: 1,
        })?;
        Ok(())
    }

    // Whether a denial goes on that was noted before at this place.
    fn goes_on(&mut self, place: usize, round: u64) -> bool
        requires { place < PLACES }
    {
        match self.latest[place] {
            Some(at) => match self.list.get_mut(at) {
                Some(denied) => denied.goes_on(round),
                None => false,
            },
            None => false,
        }
    }
}
