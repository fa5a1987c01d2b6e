// Ranges in two words of 32 bits.

ghost use Rattle.std.specs.Prelude.{◌≡◌, ◌<◌, ◌++◌, ◌∷◌, [], pos, ◌-ℤ◌, length, get_or, slice_set, IfOk, IfSome, OnOk};
ghost use Rattle.ranges_rows.specs.Ranges.{range_of, widened};

use ranges_interval::Interval;
use std::alloc::{AllocError, Global};

/// The words of a range. The second falls as the upper end grows, so that a hull has the lesser words.
#[derive(Clone, Copy)]
pub struct Ends {
    pub low: i32,
    pub high: i32,
}

// What an upper end and its word are together: each end from 0 to 4294967295 has one.
const SUM: i128 = 2_147_483_647;

// The word of an upper end.
fn high_word(end: i128) -> Option<i32>
    ensures { IfSome result (λ high. SUM -ℤ high ≡ end) }
{
    i32::try_from(SUM.checked_sub(end)?).ok()
}

impl Ends {
    /// The words of a range, if both ends have one.
    pub fn of(range: Interval) -> Option<Ends>
        ensures { IfSome result (λ e. range_of e.low e.high ≡ range) }
    {
        match (i32::try_from(range.lo), high_word(range.hi)) {
            (Ok(low), Some(high)) => Some(Ends { low, high }),
            _ => None,
        }
    }

    /// The range of these words.
    #[inline(always)]
    pub fn range(self) -> Interval
        ensures { result ≡ range_of self.low self.high }
    {
        Interval {
            lo: i128::from(self.low),
            hi: SUM - i128::from(self.high),
        }
    }
}

/// The range of a number.
#[inline(always)]
#[tactic(auto, using(crate::proofs::Widened::widened_get, crate::proofs::Widened::inside_words))]
pub fn range_in(words: &[i32], number: usize) -> Interval
    requires { number < length (widened words.now) }
    ensures { (d : Interval) → result ≡ get_or (widened words.now) number d }
{
    // (So that a length bounds the products.)
    let _count = words.len();
    let ends = Ends {
        low: words[2 * number],
        high: words[2 * number + 1],
    };
    ends.range()
}

/// Another range for a number.
#[tactic(auto, using(crate::proofs::Widened::widened_set, crate::proofs::Widened::inside_words))]
pub fn put(words: &mut Vec<i32>, number: usize, ends: Ends)
    requires { number < length (widened words.old.items) }
    ensures { widened words.new.items
        ≡ slice_set (widened words.old.items) number (range_of ends.low ends.high) }
{
    // (So that a length bounds the products.)
    let _count = words.len();
    words[2 * number] = ends.low;
    words[2 * number + 1] = ends.high;
}

// Adds the words of a range.
fn add(words: &mut Vec<i32>, ends: Ends) -> Result<(), AllocError>
    ensures { OnOk result (words.new.items ≡ words.old.items ++ ends.low ∷ ends.high ∷ []) }
{
    words.push(ends.low)?;
    words.push(ends.high)?;
    Ok(())
}

/// The words of all ranges, if each has some.
pub fn narrowed(alloc: Global, ranges: &[Interval]) -> Result<Option<Vec<i32>>, AllocError>
    ensures { IfOk result (λ found. IfSome found (λ words. widened words.items ≡ ranges.now)) }
{
    let mut words = Vec::new(alloc);
    'ranges: for range in ranges {
        let Some(ends) = Ends::of(*range) else {
            return Ok(None);
        };
        add(&mut words, ends)?;
    }
    Ok(Some(words))
}

// So many are copied at once: the C library copies more than 4 KB byte by byte.
const AT_ONCE: usize = 1000;

// Adds copies at the end.
fn append(copies: &mut Vec<i32>, words: &[i32]) -> Result<(), AllocError>
    ensures { OnOk result (copies.new.items ≡ copies.old.items ++ words.now) }
{
    if words.len() <= AT_ONCE {
        copies.extend_from_slice(words)?;
        return Ok(());
    }
    let (front, rest) = words.split_at(words.len() / 2);
    append(copies, front)?;
    append(copies, rest)
}

/// A copy of the words, on memory of its own.
pub fn copy_of(alloc: Global, words: &[i32]) -> Result<Vec<i32>, AllocError>
    ensures { IfOk result (λ copies. copies.items ≡ words.now) }
{
    let mut copies = Vec::with_capacity(alloc, words.len())?;
    append(&mut copies, words)?;
    Ok(copies)
}
