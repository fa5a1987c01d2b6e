// Values, as words.

ghost use Rattle.std.specs.Prelude.{◌≡◌, ℕ, suc, ◌<◌, ◌^◌, ℤ, negsuc, pos, Bool, false, decimal, length, slice_index_or, FitsSigned, IfSome, IfNone};
ghost use Rattle.std.specs.Fmt.{signed_decimal};
ghost use Rattle.std.specs.Int.{w64};
ghost use Rattle.il_statics.specs.Declarations.{declared_limits};
ghost use Rattle.load_slots.specs.Layout.{value_by};
ghost use Rattle.il_semantics.specs.declared.value.Value.{Value as ValueOf};
ghost use Rattle.group_state.specs.Text.{truth_text, same_value};
ghost use Rattle.group_state.specs.Variables.{SpellsValue};

use crate::lines::behind;
use crate::numbers::number_of;
use il_statics::elementary::{declared_limits, is_within};
use il_syntax::tree::Scalar;
use scan_task::{Cell, FirstRows, Value};

// The Boolean that a word spells.
fn truth_of(word: &[u8]) -> Option<bool>
    ensures found { IfSome result (λ truth. word.now ≡ truth_text truth) }
    ensures none { IfNone result ((truth : Bool) → word.now ≡ truth_text truth → ⊥) }
{
    if word == b"TRUE".as_slice() {
        Some(true)
    } else if word == b"FALSE".as_slice() {
        Some(false)
    } else {
        None
    }
}

// The number below 0 of which a word has the digits, after its sign.
fn negative(digits: &[u8]) -> Option<i64>
    ensures found { IfSome result (λ z. (n : ℕ) × (z ≡ negsuc n) × (digits.now
        ≡ decimal (suc n))) }
    ensures none { IfNone result ((n : ℕ) → n < 2 ^ 63 → digits.now ≡ decimal (suc n) → ⊥) }
{
    let number = number_of(digits, 9_223_372_036_854_775_808)?;
    if number == 0 {
        return None;
    }
    Some(-1 - (number - 1) as i64)
}

// The number that a word without a sign spells.
fn natural(word: &[u8]) -> Option<i64>
    ensures found { IfSome result (λ z. (n : ℕ) × (z ≡ pos n) × (word.now ≡ decimal n)) }
    ensures none { IfNone result ((n : ℕ) → n < 2 ^ 63 → word.now ≡ decimal n → ⊥) }
{
    let number = number_of(word, 9_223_372_036_854_775_807)?;
    Some(number as i64)
}

// The number that a word spells.
fn integer(word: &[u8]) -> Option<i64>
    ensures found { IfSome result (λ z. FitsSigned w64 z × (word.now ≡ signed_decimal z)) }
    ensures none { IfNone result ((z : ℤ) → FitsSigned w64 z → word.now ≡ signed_decimal z → ⊥) }
{
    match behind(b"-", word) {
        Some(digits) => negative(digits),
        None => natural(word),
    }
}

/// The value of a declared set that a word spells.
pub fn value_of(scalar: Scalar, word: &[u8]) -> Option<Value>
    ensures found { IfSome result (λ value. SpellsValue scalar value word.now) }
    ensures none { IfNone result ((value : ValueOf) → SpellsValue scalar value word.now → ⊥) }
{
    let Some(limits) = declared_limits(scalar) else {
        return Some(Value::Boolean(truth_of(word)?));
    };
    let number = integer(word)?;
    if !is_within(limits, number) {
        return None;
    }
    Some(Value::Integer(number))
}

// The value of a slot of a type.
fn value_by(scalar: Scalar, number: i64, flag: bool) -> Value
    ensures { result ≡ value_by (declared_limits scalar) number flag }
{
    match declared_limits(scalar) {
        None => Value::Boolean(flag),
        Some(_) => Value::Integer(number),
    }
}

/// The value with which the cell at an index begins.
pub fn first_value(cell: &Cell, first: &FirstRows, at: usize) -> Value
    requires numbers { at < length first.now.numbers }
    requires flags { at < length first.now.flags }
    ensures { result ≡ value_by (declared_limits cell.now.scalar)
        (slice_index_or first.now.numbers at (pos 0)) (slice_index_or first.now.flags at false) }
{
    value_by(cell.scalar, first.numbers()[at], first.flags()[at])
}

/// Whether two values are the same.
pub fn is_same(one: Value, other: Value) -> bool
    ensures { result ≡ same_value one other }
{
    match (one, other) {
        (Value::Boolean(a), Value::Boolean(b)) => a == b,
        (Value::Integer(a), Value::Integer(b)) => a == b,
        (Value::Boolean(_), Value::Integer(_)) => false,
        (Value::Integer(_), Value::Boolean(_)) => false,
    }
}
