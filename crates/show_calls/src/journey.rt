// A call on its way, from its press to its service.

use group_spec::calls::Call;

/// When something happened: in which round, from 1 on, and NOW of that round, in milliseconds.
#[derive(Clone, Copy)]
pub struct Moment {
    pub round: u32,
    pub now: u32,
}

/// The car that a call was told, and the round of the commit that did it.
#[derive(Clone, Copy)]
pub struct Told {
    pub round: u32,
    pub car: u8,
}

/// When a call's slot was freed, and whether its car then stood at the destination with its door wholly open.
#[derive(Clone, Copy)]
pub struct Served {
    pub at: Moment,
    pub there: bool,
}

/// A call that a refresh entered, and what happened to it. What didn't happen is `None`.
#[derive(Clone, Copy)]
pub struct Journey {
    pub ticket: u64,
    pub call: Call,
    /// The round of its press, where one is known.
    pub pressed: Option<u32>,
    /// The refresh that entered it.
    pub entered: Moment,
    pub told: Option<Told>,
    /// The first refresh after the telling that found its car at the landing with its door wholly open.
    pub boarded: Option<Moment>,
    pub served: Option<Served>,
}
