// What a book answers, call by call.

ghost use Rattle.std.specs.Prelude.{◌≤◌};

use group_calls::book::CallBook;
use group_calls::{Answer, Call, Entering, Sizes, Slot};

// A call of the book, with its answer.
#[derive(Clone, Copy)]
enum Step {
    Enter(Call, Entering),
    Tell(u8, u64, u8, Answer),
    Serve(u8, u64, u8, Answer),
}

const UP: Call = Call { from: 3, to: 5 };

const DOWN: Call = Call { from: 2, to: 1 };

fn book_of(slots: u8) -> CallBook
    requires { (1 ≤ slots) × (slots ≤ 64) }
{
    CallBook::new(Sizes {
        cars: 2,
        floors: 8,
        slots,
    })
}

// Makes a call: whether the book answers so.
fn is_answered(book: &mut CallBook, step: Step) -> bool {
    match step {
        Step::Enter(call, answer) => book.enter(call) == answer,
        Step::Tell(slot, ticket, car, answer) => book.tell(slot, ticket, car) == answer,
        Step::Serve(slot, ticket, car, answer) => book.serve(slot, ticket, car) == answer,
    }
}

// Whether the book answers all these calls so, made in turn.
fn are_answered(book: &mut CallBook, steps: &[Step]) -> bool {
    for step in steps {
        if !is_answered(book, *step) {
            return false;
        }
    }
    true
}

// A call that waits in a slot.
fn waits(ticket: u64, call: Call) -> Option<Slot> {
    Some(Slot::Waiting { ticket, call })
}

// A call entered into an open book.
static ONE: [Step; 1] = [Step::Enter(UP, Entering::Done { slot: 1, ticket: 1 })];

// A slot that was served and entered again: its old ticket is stale.
static AGAIN: [Step; 14] = [
    Step::Enter(UP, Entering::Done { slot: 1, ticket: 1 }),
    Step::Serve(1, 1, 1, Answer::Stale),
    Step::Tell(1, 1, 1, Answer::Done),
    Step::Tell(1, 1, 2, Answer::Stale),
    Step::Serve(1, 1, 2, Answer::NotYours),
    Step::Serve(1, 2, 1, Answer::Stale),
    Step::Serve(1, 1, 1, Answer::Done),
    Step::Serve(1, 1, 1, Answer::Stale),
    Step::Tell(1, 1, 1, Answer::Stale),
    Step::Enter(DOWN, Entering::Done { slot: 1, ticket: 2 }),
    Step::Tell(1, 1, 1, Answer::Stale),
    Step::Tell(0, 2, 1, Answer::NoSlot),
    Step::Serve(2, 2, 1, Answer::NoSlot),
    Step::Enter(UP, Entering::Kept),
];

// After 64 calls in 64 slots the slot that is served is the next to be entered.
static FULL: [Step; 4] = [
    Step::Enter(UP, Entering::Kept),
    Step::Tell(7, 7, 2, Answer::Done),
    Step::Serve(7, 7, 2, Answer::Done),
    Step::Enter(
        UP,
        Entering::Done {
            slot: 7,
            ticket: 65,
        },
    ),
];

// Whether a book of 64 slots enters 64 calls, each into the next one.
fn fills(book: &mut CallBook) -> bool {
    for slot in 1..=64u8 {
        let entered = Entering::Done {
            slot,
            ticket: u64::from(slot),
        };
        if book.enter(UP) != entered {
            return false;
        }
    }
    true
}

#[test]
fn answers(rt: HostRuntime) {
    let mut one = book_of(8);
    assert!(rt; are_answered(&mut one, &ONE));
    assert!(rt; one.slot(1) == waits(1, UP) && one.slot(2) == Some(Slot::Free));
    assert!(rt; one.count() == 8);
    let mut again = book_of(1);
    assert!(rt; are_answered(&mut again, &AGAIN));
    assert!(rt; again.slot(1) == waits(2, DOWN) && again.last_ticket() == 2);
    let mut full = book_of(64);
    assert!(rt; fills(&mut full) && are_answered(&mut full, &FULL));
    assert!(rt; full.last_ticket() == 65);
}
