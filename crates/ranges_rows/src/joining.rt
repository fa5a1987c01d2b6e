// Joining of ranges in words: the lesser word of each two.

ghost use Rattle.std.specs.Prelude.{◌≡◌, true, length};
ghost use Rattle.std.specs.Int.{int_min};
ghost use Rattle.ranges_rows.specs.Ranges.{paired};

// So many are compared at once, and left where they are equal.
const BLOCK: usize = 64;

// Whether all words are equal. It goes to the end, so that several are compared at a time.
#[inline(always)]
fn are_equal(row: &[i32], other: &[i32]) -> bool
    requires { length row.now ≡ length other.now }
    ensures { result ≡ true → row.now ≡ other.now }
{
    let mut equal = true;
    for number in 0..other.len() {
        equal &= row[number] == other[number];
    }
    equal
}

// Joins the words of a block.
#[inline(always)]
fn join_block(row: &mut [i32], other: &[i32])
    requires { length row.old ≡ length other.now }
    ensures { row.new ≡ paired int_min row.old other.now }
{
    if row.last() == other.last() && are_equal(&*row, other) {
        return;
    }
    for number in 0..other.len() {
        row[number] = row[number].min(other[number]);
    }
}

/// Joins all words, block by block.
pub fn join_words(row: &mut [i32], other: &[i32])
    requires { length row.old ≡ length other.now }
    ensures { row.new ≡ paired int_min row.old other.now }
{
    if other.len() <= BLOCK {
        join_block(row, other);
        return;
    }
    let (front, rest) = row.split_at_mut(BLOCK);
    let (other_front, other_rest) = other.split_at(BLOCK);
    join_block(front, other_front);
    join_words(rest, other_rest);
}
