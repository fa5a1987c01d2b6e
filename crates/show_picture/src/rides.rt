// The calls, from their entry to their service.

use group_spec::calls::{Call, Slot};
use group_spec::image::CarFields;
use group_spec::report::EnteredCall;
use std::alloc::{AllocError, Global};

// The most call slots of a group.
const MOST_SLOTS: usize = 64;

/// The car that a call was told, and the round.
#[derive(Clone, Copy)]
pub struct Told {
    pub car: u64,
    pub round: u64,
}

/// A call: the round in which a refresh entered it, its car, the round of the first refresh in which this stood at the landing with its door open, and the
/// round in which it was served.
#[derive(Clone, Copy)]
pub struct Ride {
    pub ticket: u64,
    pub call: Call,
    pub entered: u64,
    pub told: Option<Told>,
    pub boarded: Option<u64>,
    pub served: Option<u64>,
}

/// The calls, in the order in which they were entered.
#[derive(Drop)]
pub struct Rides {
    // the call in each slot, by its index
    held: [Option<usize>; MOST_SLOTS],
    list: Vec<Ride>,
}

// Whether the car of a call stands at its landing with its door open.
fn is_ready(ride: &Ride, cars: &[CarFields]) -> bool {
    match ride.told {
        Some(told) => match cars.get((told.car as usize).saturating_sub(1)) {
            Some(fields) => fields.pos == ride.call.from && fields.level && fields.opened,
            None => false,
        },
        None => false,
    }
}

impl Rides {
    /// No call yet.
    pub fn new(alloc: Global) -> Rides {
        Rides {
            held: [None; MOST_SLOTS],
            list: Vec::new(alloc),
        }
    }

    /// The calls, in the order in which they were entered.
    pub fn list(&self) -> &[Ride] {
        self.list.as_slice()
    }

    /// The calls that a refresh entered.
    pub fn enter(&mut self, calls: &[EnteredCall], round: u64) -> Result<(), AllocError> {
        'calls: for entered in calls {
            self.enter_call(entered, round)?;
        }
        Ok(())
    }

    fn enter_call(&mut self, entered: &EnteredCall, round: u64) -> Result<(), AllocError> {
        let at = self.list.len();
        self.hold(usize::from(entered.slot).saturating_sub(1), Some(at));
        self.list.push(Ride {
            ticket: entered.ticket,
            call: entered.call,
            entered: round,
            told: None,
            boarded: None,
            served: None,
        })?;
        Ok(())
    }

    /// What a refresh reports of the cars, car 1 first: which calls can board.
    pub fn board(&mut self, cars: &[CarFields], round: u64) {
        'slots: for index in 0..MOST_SLOTS {
            if let Some(at) = self.holder(index) {
                self.board_call(at, cars, round);
            }
        }
    }

    fn board_call(&mut self, at: usize, cars: &[CarFields], round: u64) {
        if let Some(ride) = self.list.get_mut(at) {
            if ride.boarded.is_none() && is_ready(ride, cars) {
                ride.boarded = Some(round);
            }
        }
    }

    /// The call slots after a commit, slot 1 first: which calls were told a car, and which were served.
    pub fn follow(&mut self, slots: &[Slot], round: u64) {
        'slots: for (index, slot) in slots.iter().enumerate() {
            self.follow_slot(index, slot, round);
        }
    }

    fn follow_slot(&mut self, index: usize, slot: &Slot, round: u64) {
        if let Some(at) = self.holder(index) {
            match slot {
                Slot::Free => {
                    self.hold(index, None);
                    self.serve(at, round);
                }
                Slot::Told { car, .. } => self.tell(at, u64::from(*car), round),
                Slot::Waiting { .. } => {}
            }
        }
    }

    fn tell(&mut self, at: usize, car: u64, round: u64) {
        if let Some(ride) = self.list.get_mut(at) {
            if ride.told.is_none() {
                ride.told = Some(Told { car, round });
            }
        }
    }

    fn serve(&mut self, at: usize, round: u64) {
        if let Some(ride) = self.list.get_mut(at) {
            ride.served = Some(round);
        }
    }

    // The call in a slot, by the indexes of both.
    fn holder(&self, index: usize) -> Option<usize> {
        if index < MOST_SLOTS {
            self.held[index]
        } else {
            None
        }
    }

    fn hold(&mut self, index: usize, ride: Option<usize>) {
        if index < MOST_SLOTS {
            self.held[index] = ride;
        }
    }
}
