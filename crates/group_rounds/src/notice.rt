// What a round has to tell beside the outputs.

ghost use Rattle.std.specs.Prelude.{◌≡◌, ◌<◌, ◌≤◌, ◌+◌, ◌++◌, ◌∷◌, [], length, map};
ghost use Rattle.group_rounds.specs.Notices.{answered_notices, done_by, done_notice, notices_of};
ghost use Rattle.group_rounds.specs.declared.notice.Notice.TheVariants.{Entered as EnteredOf, Denied as DeniedOf};

use arrayvec::ArrayVec;
use group_spec::calls::Answer;
use group_spec::report::{Answered, Denial, EnteredCall};
use group_spec::{CAR_PLACES, SLOT_PLACES};
use std::marker::Model;

/// The most notices of a round: 64 calls that enter, two denials of each car by the refresh, two denials and a serve of each car's scan,
/// and 64 tells.
pub const MOST_NOTICES: usize = 2 * SLOT_PLACES + 5 * CAR_PLACES;

/// What a round has to tell beside the outputs.
#[derive(Clone, Copy)]
pub enum Notice {
    /// A call entered a slot, under a ticket.
    Entered(EnteredCall),
    /// A wish, or a running motor, was denied to a car.
    Denied(Denial),
    /// GROUP told the call of a ticket to a car.
    Told { ticket: u64, car: u8 },
    /// A car served the call of a ticket.
    Served { ticket: u64, car: u8 },
}

impl Default for Notice {
    fn default() -> Notice {
        Notice::Denied(Denial::default())
    }
}

/// The notices of a round, in the order in which they came. Contracts see their list. No call takes memory, and what is emptied is filled
/// again, so that its room is set but once.
#[derive(Drop)]
pub struct Notices {
    items: ArrayVec<Notice, MOST_NOTICES>,
}

impl Model for Notices {
    ghost use Rattle.std.specs.Prelude.{List};
    ghost use Rattle.group_rounds.specs.declared.notice.Notice.{Notice as NoticeOf};

    ghost Value = { List NoticeOf };

    ghost view = { λ n. n.items.items };
}

impl Notices {
    /// No notice.
    pub fn new() -> Notices
        ensures { result ≡ [] }
    {
        Notices {
            items: ArrayVec::new(),
        }
    }

    /// Takes all notices out.
    pub fn clear(&mut self)
        ensures { self.new ≡ [] }
    {
        self.items.clear();
    }

    /// Adds a notice at the end.
    pub fn push(&mut self, notice: Notice)
        requires { length self.old < MOST_NOTICES }
        ensures { self.new ≡ self.old ++ notice ∷ [] }
    {
        self.items.push(notice);
    }

    /// The notices.
    pub fn as_slice(&self) -> &[Notice]
        ensures { result.now ≡ self.now }
    {
        self.items.as_slice()
    }

    /// How many notices there are.
    pub fn len(&self) -> usize
        ensures count { result ≡ length self.now }
        ensures fits { length self.now ≤ MOST_NOTICES }
    {
        self.items.len()
    }
}

/// The calls that entered.
pub(crate) fn add_entered(notices: &mut Notices, entered: &[EnteredCall])
    requires { length notices.old + length entered.now ≤ MOST_NOTICES }
    ensures { notices.new ≡ notices.old ++ map EnteredOf entered.now }
{
    'calls: for call in entered {
        notices.push(Notice::Entered(*call));
    }
}

/// What was denied.
pub(crate) fn add_denials(notices: &mut Notices, denials: &[Denial])
    requires { length notices.old + length denials.now ≤ MOST_NOTICES }
    ensures { notices.new ≡ notices.old ++ map DeniedOf denials.now }
{
    'denials: for denial in denials {
        notices.push(Notice::Denied(*denial));
    }
}

/// The tells or the serve of a task's commit that were done.
pub(crate) fn add_answers(notices: &mut Notices, task: u8, answers: &[Answered])
    requires { length notices.old + length answers.now ≤ MOST_NOTICES }
    ensures told { notices.new ≡ notices.old ++ answered_notices task answers.now }
    ensures room { length notices.new ≤ length notices.old + length answers.now }
{
    'answers: for answered in answers {
        if let Some(notice) = notice_of(task, *answered) {
            notices.push(notice);
        }
    }
}

// A tell or a serve, if it was done.
fn notice_of(task: u8, answered: Answered) -> Option<Notice>
    ensures { notices_of result ≡ done_notice task answered.car answered.ticket answered.answer }
{
    let Some(ticket) = answered.ticket else {
        return None;
    };
    match answered.answer {
        Answer::Done => Some(done(task, ticket, answered.car)),
        Answer::Stale | Answer::NotYours | Answer::NoSlot => None,
    }
}

// GROUP tells, and a car serves.
fn done(task: u8, ticket: u64, car: u8) -> Notice
    ensures { result ≡ done_by task ticket car }
{
    match task {
        0 => Notice::Told { ticket, car },
        _ => Notice::Served { ticket, car },
    }
}
