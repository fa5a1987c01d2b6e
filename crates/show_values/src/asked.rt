// What the tasks ask for at their commits.

ghost use Rattle.std.specs.Prelude.{◌≡◌, ◌≤◌, length, slice_set};
ghost use Rattle.show_values.specs.Asked.{nothing_asked, serve_in, asked_after, serve_at, assign_of};
ghost use Rattle.show_values.specs.Wished.{ServeIsWished, AssignIsWished};

use base_lists::Bounded;
use group_spec::report::{Answered, Report};
use group_spec::{CAR_PLACES, SLOT_PLACES};

/// What the last commit of each task asked for, whether it was done or not.
#[derive(Drop)]
pub struct Asked {
    /// The slot that each car asked to serve, or 0; car 1 first.
    pub serves: Bounded<u8, CAR_PLACES>,
    /// The tells of GROUP.
    pub tells: Bounded<Answered, SLOT_PLACES>,
}

impl Asked {
    /// No task has committed yet.
    pub fn new() -> Asked
        ensures { result ≡ nothing_asked }
    {
        Asked {
            serves: Bounded::from_slice(&[0; CAR_PLACES]),
            tells: Bounded::new(),
        }
    }

    /// A task has committed, 0 for GROUP and k for CARk. What it asks for takes the place of what it asked for before.
    pub fn commit(&mut self, task: u8, report: &Report)
        ensures { self.new ≡ asked_after task report.now.answers self.old }
    {
        if task == 0 {
            self.tells = copied(&report.answers);
        } else {
            self.set_serve(usize::from(task - 1), serve_in(report.answers.as_slice()));
        }
    }

    // The serve of the car at a place, if it has one.
    fn set_serve(&mut self, place: usize, slot: u8)
        ensures { self.new ≡ record self.old { serves = slice_set self.old.serves place slot } }
    {
        if place < self.serves.len() {
            self.serves.set(place, slot);
        }
    }

    /// The slot that a car asked to serve, or 0. The first car is at place 0.
    pub fn serve_at(&self, place: usize) -> u8
        ensures { result ≡ serve_at place self.now }
    {
        self.serves.as_slice().get(place).copied().unwrap_or(0)
    }

    /// The car that GROUP asked to tell a slot to, or 0.
    pub fn assign_of(&self, slot: u8) -> u8
        ensures { result ≡ assign_of slot self.now }
    {
        let tells = self.tells.as_slice();
        tells
            .iter()
            .find(|tell| tell.slot == slot)
            .map_or(0, |tell| tell.car)
    }
}

fn copied(answers: &Bounded<Answered, SLOT_PLACES>) -> Bounded<Answered, SLOT_PLACES>
    ensures { result ≡ answers.now }
{
    let _count = answers.len();
    Bounded::from_slice(answers.as_slice())
}

// The slot that a car's commit asks to serve, or 0.
fn serve_in(answers: &[Answered]) -> u8
    ensures { result ≡ serve_in answers.now }
{
    answers.first().map_or(0, |serve| serve.slot)
}

/// A law: what a car's commit asks to serve is SERVE as its scan left it, whatever it was answered.
pub fn serve_is_wished()
    ensures { ServeIsWished }
{}

/// A law: what a commit of GROUP asks to tell a slot to is ASSIGN of the slot as its scan left it, whatever it was answered.
pub fn assign_is_wished()
    ensures { AssignIsWished }
{}
