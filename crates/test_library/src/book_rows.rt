// What the book of one owner journals and refuses. No command shows it yet.

ghost use Rattle.std.specs.Prelude.{◌≡◌, ◌≤◌, true, [], ◌∷◌, IfOk};
ghost use Rattle.scan_task.specs.Scanning.{HasTask};

use crate::group::fields;
use crate::texts::{TWO_IDLE, TWO_SLOTS};
use group_spec::calls::Call;
use group_spec::hand::Hand;
use group_spec::report::Report;
use load_text::load;
use scan_task::{OpenScan, Store, Verified, scan};
use std::alloc::Global;
use threads_book::Book;

// What a commit and a start were answered, by the number of a fault or 0, and how many entries the journal has.
#[derive(Clone, Copy)]
struct Refused {
    committed: u8,
    number: u8,
    entries: usize,
}

// The first two calls that a refresh entered, and the first call that stays in the hand.
#[derive(Clone, Copy)]
struct Entering {
    first: Option<Call>,
    second: Option<Call>,
    stays: Option<Call>,
}

// Whether the group has the task of a car.
fn has_car(verified: &Verified, car: u8) -> bool
    requires { car ≤ 8 }
    ensures { result ≡ true → HasTask verified.now.config car }
{
    let _config = verified.config();
    car <= verified.sizes().cars && verified.has_task(car)
}

// Answered where no memory is left, or a scan doesn't begin.
const NOBODY: u8 = 255;

// A scan of a car begins, or a fault has this number.
fn begun(alloc: Global, book: &mut Book, verified: &Verified, car: u8) -> Result<OpenScan, u8>
    requires program { verified.now.config ≡ book.old.config }
    requires there { HasTask verified.now.config car }
    ensures of { IfOk result (λ b. b.config ≡ verified.now.config) }
    ensures same { book.new.config ≡ book.old.config }
{
    let Ok(store) = Store::new(alloc, verified, car) else {
        return Err(NOBODY);
    };
    match book.start(verified, car, store) {
        Ok(begun) => Ok(begun),
        Err((fault, _)) => Err(fault.number()),
    }
}

// The number of the fault of a start, 0 where it starts.
fn start_fault(begun: Result<OpenScan, u8>) -> u8 {
    begun.err().unwrap_or(0)
}

// The number of the fault of a commit of a scan for a car, 0 where it is done.
fn commit_fault(book: &mut Book, verified: &Verified, car: u8, begun: OpenScan) -> u8
    requires program { verified.now.config ≡ book.old.config }
    requires of { begun.config ≡ verified.now.config }
    ensures same { book.new.config ≡ book.old.config }
{
    match book.commit(verified, car, scan(verified, begun), &mut Report::new()) {
        Ok(_) => 0,
        Err((fault, _)) => fault.number(),
    }
}

// A round of car 1, and a further start: the numbers of the faults of its commit and of that start.
fn round_and_start(alloc: Global, book: &mut Book, verified: &Verified) -> (u8, u8)
    requires program { verified.now.config ≡ book.old.config }
    requires there { HasTask verified.now.config 1 }
{
    match begun(alloc, book, verified, 1) {
        Err(number) => (number, NOBODY),
        Ok(open) => {
            let committed = commit_fault(book, verified, 1, open);
            (committed, start_fault(begun(alloc, book, verified, 1)))
        }
    }
}

// A start of the other car, a start of car 1 where its scan is open, and a commit of that scan for the other car, which runs the same
// program: the numbers of their faults.
fn start_and_commit_other(alloc: Global, book: &mut Book, verified: &Verified) -> (u8, u8, u8)
    requires program { verified.now.config ≡ book.old.config }
    requires first { HasTask verified.now.config 1 }
    requires second { HasTask verified.now.config 2 }
{
    match begun(alloc, book, verified, 1) {
        Err(number) => (number, NOBODY, NOBODY),
        Ok(open) => {
            let second = start_fault(begun(alloc, book, verified, 2));
            let again = start_fault(begun(alloc, book, verified, 1));
            (second, again, commit_fault(book, verified, 2, open))
        }
    }
}

// The calls from 1 to 2 and from 2 to 1.
fn both_calls() -> Hand
    ensures { result ≡ record { from = 1; to = 2 } ∷ record { from = 2; to = 1 } ∷ [] }
{
    let mut hand = Hand::new();
    hand.insert(Call { from: 1, to: 2 });
    hand.insert(Call { from: 2, to: 1 });
    hand
}

// The call that was entered at a place of the report.
fn entered_at(report: &Report, at: usize) -> Option<Call> {
    match report.entered.as_slice().get(at) {
        Some(one) => Some(one.call),
        None => None,
    }
}

// A refresh of two cars that stand at floor 1, with both calls in the hand.
fn refreshed(alloc: Global, verified: &Verified) -> Option<Entering> {
    let _config = verified.config();
    let Ok(mut book) = Book::new(alloc, verified, 1) else {
        return None;
    };
    let mut hand = both_calls();
    let mut report = Report::new();
    let answer = book.refresh(verified, fields(1, 2, 1), &mut hand, &mut report);
    book.release();
    if answer.is_err() {
        return None;
    }
    Some(Entering {
        first: entered_at(&report, 0),
        second: entered_at(&report, 1),
        stays: hand.first(),
    })
}

// The two faults over a journal of two entries, and how many it has then.
fn third_entry(alloc: Global, verified: &Verified) -> Option<Refused> {
    if !has_car(verified, 1) {
        return None;
    }
    let Ok(mut book) = Book::new(alloc, verified, 2) else {
        return None;
    };
    let (committed, number) = round_and_start(alloc, &mut book, verified);
    let entries = book.journal().len();
    book.release();
    Some(Refused {
        committed,
        number,
        entries,
    })
}

// The faults over a journal with room.
fn other_car(alloc: Global, verified: &Verified) -> Option<(u8, u8, u8)> {
    if !has_car(verified, 1) || !has_car(verified, 2) {
        return None;
    }
    let Ok(mut book) = Book::new(alloc, verified, 9) else {
        return None;
    };
    let faults = start_and_commit_other(alloc, &mut book, verified);
    book.release();
    Some(faults)
}

// What books over the program of a text leave and answer.
#[derive(Clone, Copy)]
struct Asked {
    entering: Option<Entering>,
    full: Option<Refused>,
    other: Option<(u8, u8, u8)>,
}

// Asks the books of a text, if there is memory.
fn ask(alloc: Global, text: &[u8]) -> Option<Asked> {
    let Ok(verified) = load(alloc, text) else {
        return None;
    };
    let asked = Asked {
        entering: refreshed(alloc, &verified),
        full: third_entry(alloc, &verified),
        other: other_car(alloc, &verified),
    };
    verified.release();
    Some(asked)
}

// Whether a refresh entered these calls, and this one stays.
fn enters(asked: Asked, second: Option<Call>, stays: Option<Call>) -> bool {
    match asked.entering {
        Some(left) => { left.first == Some(ASCENT) && left.second == second && left.stays == stays }
        None => false,
    }
}

// Whether a third entry finds the journal full.
fn is_full(asked: Asked) -> bool {
    matches!(
        asked.full,
        Some(Refused {
            committed: 0,
            number: 70,
            entries: 2
        })
    )
}

// Whether car 2 starts, a second scan of car 1 does not, and its scan is not committed for car 2.
fn refuses_other_scans(asked: Asked) -> bool {
    matches!(asked.other, Some((0, 72, 71)))
}

// From floor 1 to 2.
const ASCENT: Call = Call { from: 1, to: 2 };

// From floor 2 to 1.
const DESCENT: Call = Call { from: 2, to: 1 };

#[test]
fn of_two_calls_both_enter_two_slots(rt: HostRuntime) {
    let Some(asked) = ask(rt.alloc(), TWO_SLOTS) else {
        panic!(&rt; "no memory")
    };
    assert!(rt; enters(asked, Some(DESCENT), None));
}

#[test]
fn of_two_calls_the_first_enters_one_slot_and_other_scans_are_refused(rt: HostRuntime) {
    let Some(asked) = ask(rt.alloc(), TWO_IDLE) else {
        panic!(&rt; "no memory")
    };
    assert!(rt; enters(asked, None, Some(DESCENT)));
    assert!(rt; is_full(asked));
    assert!(rt; refuses_other_scans(asked));
}
