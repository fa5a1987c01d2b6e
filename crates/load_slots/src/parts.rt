// What rows keep of a value.

ghost use Rattle.std.specs.Prelude.{◌≡◌};
ghost use Rattle.load_slots.specs.Layout.{number_part, flag_part};

use il_semantics::value::Value;

/// The number and the Boolean that rows keep of a value at its slot: one is the value, the other 0 or FALSE.
#[inline(always)]
pub fn parts_of(value: Value) -> (i64, bool)
    ensures number { result.0 ≡ number_part value }
    ensures flag { result.1 ≡ flag_part value }
{
    match value {
        Value::Boolean(flag) => (0, flag),
        Value::Integer(number) => (number, false),
    }
}
