// What a commit or a refresh reports.

ghost use Rattle.std.specs.Prelude.{◌≡◌, []};
ghost use Rattle.group_spec.specs.Settle.{rule_number, rule_sentence};

use crate::calls::{Answer, Call};
use crate::image::{CAR_PLACES, SLOT_PLACES};
use crate::outputs::Outputs;
use base_lists::Bounded;

/// The rules of the interlock.
#[derive(Clone, Copy, Debug, Default, PartialEq, Eq)]
pub enum Rule {
    /// 1: no reversal of the committed motor at once.
    #[default]
    Reversal,
    /// 2: a motor runs only locked and with no open command.
    Unlocked,
    /// 3: up not at the top, down not at the bottom.
    AtEnd,
    /// 4: an open command only at a level.
    NotLevel,
    /// 5: fewer than RUNLIMIT other cars are running.
    Crowded,
    /// 6: no car runs up while FIRE holds.
    Fire,
}

impl Rule {
    /// The number by which it is known, 1 to 6.
    pub fn number(self) -> u8
        ensures { result ≡ rule_number self }
    {
        match self {
            Rule::Reversal => 1,
            Rule::Unlocked => 2,
            Rule::AtEnd => 3,
            Rule::NotLevel => 4,
            Rule::Crowded => 5,
            Rule::Fire => 6,
        }
    }

    /// What it demands.
    pub fn sentence(self) -> &'static str
        ensures { result.now ≡ rule_sentence self }
    {
        match self {
            Rule::Reversal => "a motor does not reverse at once",
            Rule::Unlocked => "a motor runs only with its door locked and no open command",
            Rule::AtEnd => "no car runs up at the top or down at the bottom",
            Rule::NotLevel => "a door opens only at a level",
            Rule::Crowded => "a motor runs only while fewer than RUNLIMIT other cars run",
            Rule::Fire => "no car runs up while FIRE holds",
        }
    }
}

/// A wish, or a running motor, that a rule denied to a car.
#[derive(Clone, Copy, Debug, Default, PartialEq, Eq)]
pub struct Denial {
    pub car: u8,
    pub rule: Rule,
}

/// A tell or a serve of a commit: its slot, the ticket that the scan saw there (none where the slot was free), the car that the call
/// was told to or that served it, and the answer.
#[derive(Clone, Copy, Debug, Default, PartialEq, Eq)]
pub struct Answered {
    pub slot: u8,
    pub ticket: Option<u64>,
    pub car: u8,
    pub answer: Answer,
}

/// A call that a refresh entered.
#[derive(Clone, Copy, Default)]
pub struct EnteredCall {
    pub slot: u8,
    pub ticket: u64,
    pub call: Call,
}

/// The places of the denials of an event: two for each car.
pub const DENIAL_PLACES: usize = 2 * CAR_PLACES;

/// The outputs of all cars after the event, the denials by rising car with rule 4 first, and the
/// tells or the serve with their answers, or the entered calls, in the order done.
#[derive(Drop)]
pub struct Report {
    pub outputs: Outputs,
    pub denials: Bounded<Denial, DENIAL_PLACES>,
    pub answers: Bounded<Answered, SLOT_PLACES>,
    pub entered: Bounded<EnteredCall, SLOT_PLACES>,
}

impl Default for Report {
    fn default() -> Report
        ensures { result ≡ record { outputs = []; denials = []; answers = []; entered = [] } }
    {
        Report::new()
    }
}

impl Report {
    /// A report of nothing.
    pub fn new() -> Report
        ensures { result ≡ record { outputs = []; denials = []; answers = []; entered = [] } }
    {
        Report {
            outputs: Outputs::new(),
            denials: Bounded::new(),
            answers: Bounded::new(),
            entered: Bounded::new(),
        }
    }
}
