// The calls of a call book, and those of a set of calls.

use group_calls::book::CallBook;
use group_calls::{Answer, Call, Entering, Hand, Sizes};

const SIZES: Sizes = Sizes {
    cars: 2,
    floors: 8,
    slots: 4,
};

const UP: Call = Call { from: 3, to: 5 };

const DOWN: Call = Call { from: 4, to: 1 };

/// What changes a book: the ticket of a call, and whether it is told and served.
pub fn changes() -> [i128; 3] {
    let mut book = CallBook::new(SIZES);
    let ticket = match book.enter(UP) {
        Entering::Done { ticket, .. } => ticket,
        Entering::Kept => 0,
    };
    let told = book.tell(1, ticket, 2) == Answer::Done;
    let served = book.serve(1, ticket, 2) == Answer::Done;
    [ticket as i128, told as i128, served as i128]
}

/// What reads a book.
pub fn readings() -> [i128; 5] {
    let mut book = CallBook::new(SIZES);
    book.enter(DOWN);
    [
        book.count() as i128,
        book.slot(1).is_some() as i128,
        book.slots().len() as i128,
        book.last_ticket() as i128,
        book.copied().last_ticket() as i128,
    ]
}

/// What changes and reads a set.
pub fn of_sets() -> [i128; 8] {
    let mut hand = Hand::new();
    hand.insert(UP);
    hand.insert_from(4, 1);
    let mut other = Hand::default();
    let moved = hand.move_from(3, &mut other);
    let taken = hand.take_first() == Some(DOWN);
    [
        moved as i128,
        taken as i128,
        other.len() as i128,
        hand.is_empty() as i128,
        other.has(UP) as i128,
        other.has_from(5) as i128,
        other.mask_from(3) as i128,
        other.first().is_some() as i128,
    ]
}
