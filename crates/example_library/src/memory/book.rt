// The calls of the book of one owner.

ghost use Rattle.std.specs.Prelude.{◌≡◌};
ghost use Rattle.scan_task.specs.Scanning.{HasTask};
ghost use Rattle.scan_task.specs.Standing.{IsOf};

use crate::memory::interlock::fields;
use crate::memory::lines::{allocation, no_allocation, print};
use crate::memory::program::number;
use crate::memory::trace;
use group_spec::hand::Hand;
use group_spec::report::Report;
use scan_task::{Store, Verified, scan};
use std::alloc::{AllocError, Global};
use std::io::Print;
use threads_book::Book;

// How many entries the journal has room for: those of a refresh and of a scan.
const ENTRIES: usize = 3;

// A refresh: whether it is done.
fn refresh(verified: &Verified, book: &mut Book, report: &mut Report) -> bool
    requires { verified.now.config ≡ book.old.config }
    ensures { book.new.config ≡ book.old.config }
{
    book.refresh(verified, fields(2), &mut Hand::new(), report)
        .is_ok()
}

// A scan of car 1 begins, runs and is committed: whether it is.
fn commit(verified: &Verified, book: &mut Book, store: Store, report: &mut Report) -> bool
    requires program { verified.now.config ≡ book.old.config }
    requires there { HasTask verified.now.config 1 }
    requires of { IsOf verified.now.config 1 store }
    ensures { book.new.config ≡ book.old.config }
{
    let begun = match book.start(verified, 1, store) {
        Ok(begun) => begun,
        Err(_) => return false,
    };
    match book.commit(verified, 1, scan(verified, begun), report) {
        Ok(_store) => true,
        Err((_, scanned)) => {
            let _store = scanned.into_store();
            false
        }
    }
}

// What reads it.
fn readings(verified: &Verified, book: &Book) -> [i128; 6]
    requires { verified.now.config ≡ book.now.config }
{
    book.runs();
    [
        book.image().fields.time as i128,
        book.copied_image().fields.time as i128,
        book.slots().len() as i128,
        book.told(1).is_some() as i128,
        number(book.global(verified, "G")),
        book.journal().len() as i128,
    ]
}

/// Each call, and those of the trace of its journal: whether a refresh is done, and a scan of car 1; then what reads the book.
pub fn all<R: Print>(
    rt: &R,
    alloc: Global,
    verified: &Verified,
    report: &mut Report,
) -> Result<(), AllocError>
    requires { HasTask verified.now.config 1 }
{
    let store = Store::new(alloc, verified, 1)?;
    let mut book = Book::new(alloc, verified, ENTRIES)?;
    no_allocation(rt);
    let is_refreshed = refresh(verified, &mut book, report);
    let is_committed = commit(verified, &mut book, store, report);
    print(
        rt,
        "Book::refresh, start and commit",
        &[is_refreshed as i128, is_committed as i128],
    );
    print(
        rt,
        "Book::image, copied_image, slots, told, global, journal",
        &readings(verified, &book),
    );
    allocation(rt);
    trace::all(rt, alloc, book.journal());
    book.release();
    Ok(())
}
