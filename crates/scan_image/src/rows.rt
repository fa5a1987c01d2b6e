// Values in rows.

ghost use Rattle.std.specs.Prelude.{◌≡◌, ◌+◌, ◌<◌, ◌≤◌, List, length, map};
ghost use Rattle.il_semantics.specs.declared.value.Value.{Value as Written};
ghost use Rattle.load_slots.specs.Layout.{rows, number_part, flag_part};
ghost use Rattle.scan_image.specs.Image.{with_slot, filled, spliced};

use il_semantics::value::Value;
use load_slots::parts::parts_of;
use scan_step::rows::Rows;

/// Gives a slot a value.
pub fn put(all: &mut Rows, at: usize, value: Value)
    requires numbers { at < length all.old.numbers }
    requires flags { at < length all.old.flags }
    ensures { all.new ≡ with_slot all.old at value }
{
    let (number, flag) = parts_of(value);
    all.numbers[at] = number;
    all.flags[at] = flag;
}

// Copies numbers or Booleans into a row from a slot on.
#[inline(always)]
fn copy_at<T: Copy>(row: &mut [T], at: usize, some: &[T])
    requires { at + length some.now ≤ length row.old }
    ensures { row.new ≡ spliced row.old at some.now }
{
    let (_, behind) = row.split_at_mut(at);
    let (front, _) = behind.split_at_mut(some.len());
    front.copy_from_slice(some);
}

// Copies numbers and Booleans into rows from a slot on.
#[inline(always)]
fn copy_parts(all: &mut Rows, at: usize, numbers: &[i64], flags: &[bool])
    requires numbers { at + length numbers.now ≤ length all.old.numbers }
    requires flags { at + length flags.now ≤ length all.old.flags }
    ensures { all.new
        ≡ rows (spliced all.old.numbers at numbers.now) (spliced all.old.flags at flags.now) }
{
    copy_at(all.numbers.as_mut_slice(), at, numbers);
    copy_at(all.flags.as_mut_slice(), at, flags);
}

/// Gives slots from one on values: what the two rows keep of each.
#[inline(always)]
pub fn put_parts(all: &mut Rows, at: usize, numbers: &[i64], flags: &[bool])
    requires numbers { at + length numbers.now ≤ length all.old.numbers }
    requires flags { at + length flags.now ≤ length all.old.flags }
    ensures { (values : List Written) → map number_part values ≡ numbers.now
        → map flag_part values ≡ flags.now → all.new ≡ filled all.old at values }
{
    copy_parts(all, at, numbers, flags);
}
