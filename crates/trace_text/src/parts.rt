// The parts of a line, read from its front.

ghost use Rattle.std.specs.Prelude.{◌≡◌, ◌≤◌, ◌↔◌, ◌⊎◌, ℕ, Bool, List, [], ◌∷◌, ◌++◌, IsTrue, false, decimal, IfSome, IfNone};
ghost use Rattle.group_spec.specs.declared.image.CarFields.{CarFields};
ghost use Rattle.trace_text.specs.Text.{part, flag, flags, car_part};
ghost use Rattle.trace_text.specs.Reading.{Without, IsOneLine};
ghost use Rattle.trace_text.specs.Parts.{Ends, HasNoLeadingZero};

use group_spec::image::CarFields;
use memchr::memchr;

// What comes before the first such byte, and the rest from it on.
fn split_before(stop: u8, text: &[u8]) -> (&[u8], &[u8])
    ensures whole { text.now ≡ result.0.now ++ result.1.now }
    ensures without { Without stop result.0.now }
    ensures ends { Ends stop result.1.now }
{
    let end = memchr(stop, text).unwrap_or(text.len());
    text.split_at(end)
}

/// The first line, without its line feed, and the text after that; none where no line is complete.
pub fn split_line(text: &[u8]) -> Option<(&[u8], &[u8])>
    ensures found { IfSome result (λ p. (text.now ≡ p.0.now ++ (10 ∷ p.1.now))
        × IsOneLine p.0.now) }
    ensures none { IfNone result (IsOneLine text.now) }
{
    let (line, rest) = split_before(b'\n', text);
    let (_, after) = rest.split_first()?;
    Some((line, after))
}

// The part of a line before the first space, and the rest from it on. A part is short, so its bytes are compared one by one.
fn split_part(text: &[u8]) -> (&[u8], &[u8])
    ensures whole { text.now ≡ result.0.now ++ result.1.now }
    ensures without { Without 32 result.0.now }
    ensures ends { Ends 32 result.1.now }
{
    let mut end = 0;
    'bytes: while end < text.len() && text[end] != b' ' {
        end += 1;
    }
    text.split_at(end)
}

/// The next part of a line, without the space before it, and what follows it.
pub fn next_part(text: &[u8]) -> Option<(&[u8], &[u8])>
    ensures found { IfSome result (λ p. (text.now ≡ 32 ∷ (p.0.now ++ p.1.now))
        × Without 32 p.0.now × Ends 32 p.1.now) }
    ensures none { IfNone result ((rest : List ℕ) → text.now ≡ 32 ∷ rest → ⊥) }
{
    let (space, rest) = text.split_first()?;
    if *space != b' ' {
        return None;
    }
    Some(split_part(rest))
}

// Whether there are digits, and no 0 before others.
fn has_no_leading_zero(digits: &[u8]) -> bool
    ensures { IsTrue result ↔ HasNoLeadingZero digits.now }
{
    match digits.split_first() {
        None => false,
        Some((first, rest)) => *first != b'0' || rest.is_empty(),
    }
}

// The number that these bytes spell, where it is at most the greatest.
fn number_of(bytes: &[u8], greatest: u32) -> Option<u32>
    ensures found { IfSome result (λ n. (n ≤ greatest) × (bytes.now ≡ decimal n)) }
    ensures none { IfNone result ((n : ℕ) → n ≤ greatest → bytes.now ≡ decimal n → ⊥) }
{
    if !has_no_leading_zero(bytes) {
        return None;
    }
    let mut value = 0;
    let mut rest = bytes;
    'digits: while let Some((digit, after)) = rest.split_first() {
        if !digit.is_ascii_digit() {
            return None;
        }
        value = 10 * value + u64::from(*digit - b'0');
        if value > u64::from(greatest) {
            return None;
        }
        rest = after;
    }
    Some(value as u32)
}

/// A space and a number that is at most the greatest, and what follows it.
pub fn number(text: &[u8], greatest: u32) -> Option<(u32, &[u8])>
    ensures found { IfSome result (λ p. (p.0 ≤ greatest) × (text.now ≡ part p.0 ++ p.1.now)
        × Ends 32 p.1.now) }
    ensures none { IfNone result ((n : ℕ) (rest : List ℕ) → n ≤ greatest → Ends 32 rest → text.now
        ≡ part n ++ rest → ⊥) }
{
    let (digits, rest) = next_part(text)?;
    Some((number_of(digits, greatest)?, rest))
}

// Whether a part ends here.
#[inline(always)]
fn is_end(text: &[u8]) -> bool
    ensures { IsTrue result ↔ Ends 32 text.now }
{
    match text {
        [] => true,
        [byte, ..] => *byte == b' ',
    }
}

// A space and a number that is at most 255, by the digits of the part.
#[inline(never)]
fn part_number(text: &[u8]) -> Option<(u8, &[u8])>
    ensures found { IfSome result (λ p. (p.0 ≤ 255) × (text.now ≡ part p.0 ++ p.1.now)
        × Ends 32 p.1.now) }
    ensures none { IfNone result ((n : ℕ) (rest : List ℕ) → n ≤ 255 → Ends 32 rest → text.now
        ≡ part n ++ rest → ⊥) }
{
    let (value, rest) = number(text, 255)?;
    Some((value as u8, rest))
}

// A space and a number that is at most 255, and what follows it; two digits are read at once.
#[inline(always)]
fn longer_number(text: &[u8]) -> Option<(u8, &[u8])>
    ensures found { IfSome result (λ p. (p.0 ≤ 255) × (text.now ≡ part p.0 ++ p.1.now)
        × Ends 32 p.1.now) }
    ensures none { IfNone result ((n : ℕ) (rest : List ℕ) → n ≤ 255 → Ends 32 rest → text.now
        ≡ part n ++ rest → ⊥) }
{
    match text {
        [b' ', ten @ b'1'..=b'9', one @ b'0'..=b'9', rest @ ..] if is_end(rest) => {
            Some((10 * (*ten - b'0') + (*one - b'0'), rest))
        }
        _ => part_number(text),
    }
}

/// A space and a number that is at most 255, and what follows it. One digit is read at once.
#[inline(always)]
pub fn small_number(text: &[u8]) -> Option<(u8, &[u8])>
    ensures found { IfSome result (λ p. (p.0 ≤ 255) × (text.now ≡ part p.0 ++ p.1.now)
        × Ends 32 p.1.now) }
    ensures none { IfNone result ((n : ℕ) (rest : List ℕ) → n ≤ 255 → Ends 32 rest → text.now
        ≡ part n ++ rest → ⊥) }
{
    match text {
        [b' ', digit @ b'0'..=b'9', rest @ ..] if is_end(rest) => Some((*digit - b'0', rest)),
        _ => longer_number(text),
    }
}

fn flag_of(byte: u8) -> Option<bool>
    ensures found { IfSome result (λ b. byte ≡ flag b) }
    ensures none { IfNone result ((b : Bool) → byte ≡ flag b → ⊥) }
{
    match byte {
        b'0' => Some(false),
        b'1' => Some(true),
        _ => None,
    }
}

/// A space and a flag, and what follows it.
pub fn flag_part(text: &[u8]) -> Option<(bool, &[u8])>
    ensures found { IfSome result (λ p. (text.now ≡ 32 ∷ flag p.0 ∷ p.1.now) × Ends 32 p.1.now) }
    ensures none { IfNone result ((b : Bool) (rest : List ℕ) → Ends 32 rest → text.now
        ≡ 32 ∷ flag b ∷ rest → ⊥) }
{
    let [space, byte, rest @ ..] = text else {
        return None;
    };
    if *space != b' ' || !is_end(rest) {
        return None;
    }
    Some((flag_of(*byte)?, rest))
}

// Whether a byte spells a flag.
#[inline(always)]
fn is_flag(byte: u8) -> bool
    ensures yes { IsTrue result → (byte ≡ 48) ⊎ (byte ≡ 49) }
    ensures no { result ≡ false → (b : Bool) → byte ≡ flag b → ⊥ }
{
    byte == b'0' || byte == b'1'
}

// The flag that a byte spells.
#[inline(always)]
fn is_set(byte: u8) -> bool
    requires { (byte ≡ 48) ⊎ (byte ≡ 49) }
    ensures { byte ≡ flag result }
{
    byte == b'1'
}

// A car at this floor, with LEVEL, TOP, BOTTOM, LOCKED and OPENED by a digit each, and what follows them. All digits
// are looked at before one is read, so that there is one way out.
#[inline(always)]
fn car_at(pos: u8, text: &[u8]) -> Option<(CarFields, &[u8])>
    ensures found { IfSome result (λ p. (p.0.pos ≡ pos) × (text.now ≡ 32 ∷ (flags p.0 ++ p.1.now))
        × Ends 32 p.1.now) }
    ensures none { IfNone result ((car : CarFields) (rest : List ℕ) → Ends 32 rest → text.now
        ≡ 32 ∷ (flags car ++ rest) → ⊥) }
{
    let [space, level, top, bottom, locked, opened, rest @ ..] = text else {
        return None;
    };
    if *space != b' ' || !is_end(rest) {
        return None;
    }
    if !is_flag(*level)
        || !is_flag(*top)
        || !is_flag(*bottom)
        || !is_flag(*locked)
        || !is_flag(*opened)
    {
        return None;
    }
    let car = CarFields {
        pos,
        level: is_set(*level),
        top: is_set(*top),
        bottom: is_set(*bottom),
        locked: is_set(*locked),
        opened: is_set(*opened),
    };
    Some((car, rest))
}

/// The part of a car, and what follows it.
#[inline(always)]
pub fn car(text: &[u8]) -> Option<(CarFields, &[u8])>
    ensures found { IfSome result (λ p. (p.0.pos ≤ 255) × (text.now ≡ car_part p.0 ++ p.1.now)
        × Ends 32 p.1.now) }
    ensures none { IfNone result ((car : CarFields) (rest : List ℕ) → car.pos ≤ 255 → Ends 32 rest
        → text.now ≡ car_part car ++ rest → ⊥) }
{
    let (pos, rest) = small_number(text)?;
    car_at(pos, rest)
}
