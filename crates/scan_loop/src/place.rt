// The code of units, by places.

ghost use Rattle.std.specs.Prelude.{◌≡◌, ◌+◌, ◌^◌, ◌<◌, IsSome, Some, slice_get};
ghost use Rattle.scan_loop.specs.Going.{code_of};

use load_slots::flat::{Flat, UnitCode};

// The code of a unit.
pub fn code_of(units: &[UnitCode], unit: usize) -> &[Flat]
    requires { IsSome (code_of units.now unit) }
    ensures { code_of units.now unit ≡ Some result.now }
{
    units[unit].code.as_slice()
}

// The instruction at a place.
pub fn instruction_at(code: &[Flat], place: usize) -> &Flat
    requires { IsSome (slice_get code.now place) }
    ensures is { slice_get code.now place ≡ Some result.now }
    ensures place { place + 1 < 2 ^ 64 }
{
    &code[place]
}
