// Short names as numbers.

ghost use Rattle.std.specs.Prelude.{◌≡◌, ◌≤◌, IfSome, IsNone, length, true, false};
ghost use Rattle.base_maps.specs.Numbers.{is_short, number};

// From here on, a further byte would make a number of more than 128 bits.
const MOST: u128 = 1_329_227_995_784_915_872_903_807_060_280_344_576;

// A name of so many bytes has a number of 64 bits.
const SMALL: usize = 7;

/// The number of a name, if it is short: a 1 and then its bytes, to the base 256.
#[inline(always)]
pub fn number_of(name: &str) -> Option<u128>
    ensures some { IfSome result (λ k. (is_short name.now ≡ true) × (k ≡ number name.now)) }
    ensures none { IsNone result → is_short name.now ≡ false }
{
    if name.len() <= SMALL {
        Some(u128::from(small_number(name)))
    } else {
        long_number(name)
    }
}

// The number of a name of at most seven bytes.
#[inline(always)]
fn small_number(name: &str) -> u64
    requires { length name.now ≤ 7 }
    ensures short { is_short name.now ≡ true }
    ensures number { result ≡ number name.now }
{
    let mut number: u64 = 1;
    for byte in name.as_bytes() {
        number = number * 256 + u64::from(*byte);
    }
    number
}

// The number of a name, if it is short.
#[inline(never)]
fn long_number(name: &str) -> Option<u128>
    ensures some { IfSome result (λ k. (is_short name.now ≡ true) × (k ≡ number name.now)) }
    ensures none { IsNone result → is_short name.now ≡ false }
{
    let mut number: u128 = 1;
    for byte in name.as_bytes() {
        if number >= MOST {
            return None;
        }
        number = number * 256 + u128::from(*byte);
    }
    Some(number)
}
