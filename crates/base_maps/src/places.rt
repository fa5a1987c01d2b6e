// Places of short names.

ghost use Rattle.std.specs.Prelude.{◌≡◌, ◌+◌, ◌*◌, ◌/◌, ◌%◌, ◌++◌, slice_index};
ghost use Rattle.std.specs.Hash as fed;
ghost use Rattle.base_maps.specs.Places.{spread, fed_bytes, fed_alike};

use std::alloc::AllocError;
use std::hash::{BuildHasher, Hash, Hasher};

// A table has so many places, and twice as many whenever it has nine names for each, as the index table has groups.
const FEWEST_PLACES: usize = 512;

const MOST_PLACES: usize = 4096;

const NAMES_A_PLACE: usize = 9;

// A place of a small table takes so many names, one more for each `NAMES_A_STEP` of a larger one, and never so many that a group of the index
// table is full, which has room for twelve: a search ends at a group that isn't.
const FEWEST: usize = 4;

const NAMES_A_STEP: usize = 256;

const MOST: usize = 11;

// A table of so few names has no need to count them.
const FEW: usize = 16;

/// A short name, by its number.
#[derive(Clone, Copy, PartialEq, Eq)]
pub struct Short {
    pub number: u128,
}

// A number, spread over sixteen bits: the lower ones are its place, the upper eight its tag.
#[inline(always)]
fn spread(number: u128) -> u16
    ensures { result ≡ spread number }
{
    let low = (number % 0x1_0000_0000_0000_0000) as u64;
    let high = (number / 0x1_0000_0000_0000_0000) as u64;
    (low.wrapping_add(high).wrapping_mul(0x9E37_79B9_7F4A_7C15) >> 48) as u16
}

// The place of a name. There are a power of two, if any.
fn place_of(taken: &[u8], number: u128) -> usize {
    usize::from(spread(number)) & taken.len().wrapping_sub(1)
}

impl Hash for Short {
    ghost hash_input = { λ s. fed_bytes (spread s.number) };

    ghost respects_eq = { λ x y. fed_alike x.number y.number };

    fn hash<H: Hasher>(&self, state: &mut H) {
        let spread = spread(self.number);
        state.write_u8((spread / 256) as u8);
        state.write_u8((spread % 256) as u8);
    }
}

/// Hashes a name by what it is spread to.
#[derive(Clone, Copy)]
pub struct Places;

/// The two bytes that were written last.
#[derive(Clone, Copy)]
pub struct Place {
    spread: u16,
}

impl Hasher for Place {
    ghost write = { λ s bytes. record { spread = s.spread % 256 * 256 + slice_index bytes 0 } };

    // The lower bits choose the group, the upper ones are the tag.
    ghost finish = { λ s. s.spread * 65537 };

    fn finish(&self) -> u64 {
        u64::from(self.spread) * 65537
    }

    fn write(&mut self, bytes: &[u8]) {
        self.write_u8(if bytes.is_empty() { 0 } else { bytes[0] });
    }

    fn write_u8(&mut self, i: u8) {
        self.spread = self.spread % 256 * 256 + u16::from(i);
    }
}

impl BuildHasher for Places {
    type Hasher = Place;

    ghost build_hasher = { λ _. record { spread = 0 } };

    fn build_hasher(&self) -> Place {
        Place { spread: 0 }
    }
}

/// Whether the place of a name is full, in a table of so many names.
pub fn is_full(taken: &[u8], names: usize, number: u128) -> bool {
    let most = (FEWEST + names / NAMES_A_STEP).min(MOST);
    match taken.get(place_of(taken, number)) {
        Some(count) => usize::from(*count) >= most,
        None => false,
    }
}

/// How many places a table of so many names needs in place of those that it has, if others.
pub fn wanted(taken: &[u8], names: usize) -> Option<usize> {
    let places = taken.len();
    if places == 0 {
        (names >= FEW).then_some(FEWEST_PLACES)
    } else if places < MOST_PLACES && names >= NAMES_A_PLACE * places {
        Some(2 * places)
    } else {
        None
    }
}

/// Counts a name at its place.
pub fn count(taken: &mut [u8], number: u128) {
    let place = place_of(taken, number);
    if let Some(count) = taken.get_mut(place) {
        *count = count.saturating_add(1);
    }
}
