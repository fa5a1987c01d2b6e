// The line of an event, read.

ghost use Rattle.std.specs.Prelude.{◌≡◌, ◌≤◌, ℕ, Bool, List, [], ◌∷◌, ◌++◌, length, flat_map, IfSome, IfNone};
ghost use Rattle.std.specs.List.{AllByRecursion};
ghost use Rattle.group_spec.specs.declared.image.CarFields.{CarFields};
ghost use Rattle.group_spec.specs.declared.image.Fields.{Fields};
ghost use Rattle.group_spec.specs.declared.calls.Call.{Call};
ghost use Rattle.group_spec.specs.declared.trace.TraceEvent.{TraceEvent};
ghost use Rattle.trace_text.specs.Text.{part, car_part, fire_part, fields_part, line_of, CanSayFire, AreFields, IsTraced, HasPosition};
ghost use Rattle.trace_text.specs.Parts.{Ends};

use crate::format::Format;
use crate::parts::{car, flag_part, number, small_number};
use base_lists::Bounded;
use group_spec::calls::Call;
use group_spec::image::{CAR_PLACES, CarFields, Fields, MOST_CARS};
use group_spec::trace::TraceEvent;

// A number, and nothing after it.
fn only_number(parts: &[u8]) -> Option<u8>
    ensures found { IfSome result (λ n. (n ≤ 255) × (parts.now ≡ part n)) }
    ensures none { IfNone result ((n : ℕ) → n ≤ 255 → parts.now ≡ part n → ⊥) }
{
    let (value, rest) = small_number(parts)?;
    if !rest.is_empty() {
        return None;
    }
    Some(value)
}

// The two floors of a call, and nothing after them.
fn call(parts: &[u8]) -> Option<Call>
    ensures found { IfSome result (λ call. (call.from ≤ 255) × (call.to ≤ 255)
        × (parts.now ≡ part call.from ++ part call.to)) }
    ensures none { IfNone result ((call : Call) → call.from ≤ 255 → call.to ≤ 255 → parts.now
        ≡ part call.from ++ part call.to → ⊥) }
{
    let (from, rest) = small_number(parts)?;
    Some(Call {
        from,
        to: only_number(rest)?,
    })
}

// FIRE, which the first format doesn't have, and what follows it.
fn fire(format: Format, parts: &[u8]) -> Option<(bool, &[u8])>
    requires { Ends 32 parts.now }
    ensures found { IfSome result (λ p. CanSayFire format p.0
        × (parts.now ≡ fire_part format p.0 ++ p.1.now) × Ends 32 p.1.now) }
    ensures none { IfNone result ((b : Bool) (rest : List ℕ) → CanSayFire format b → Ends 32 rest
        → parts.now ≡ fire_part format b ++ rest → ⊥) }
{
    match format {
        Format::One => Some((false, parts)),
        Format::Two => flag_part(parts),
    }
}

// So many cars, at most eight, and nothing after them.
fn cars(count: u8, parts: &[u8]) -> Option<Bounded<CarFields, CAR_PLACES>>
    requires { Ends 32 parts.now }
    ensures found { IfSome result (λ cars. (length cars ≡ count) × (count ≤ MOST_CARS)
        × AllByRecursion HasPosition cars × (parts.now ≡ flat_map car_part cars)) }
    ensures none { IfNone result ((cars : List CarFields) → length cars ≡ count → count ≤ MOST_CARS
        → AllByRecursion HasPosition cars → parts.now ≡ flat_map car_part cars → ⊥) }
{
    if count > MOST_CARS {
        return None;
    }
    let mut cars = Bounded::new();
    let mut rest = parts;
    'cars: while cars.len() < usize::from(count) {
        let (next, behind) = car(rest)?;
        cars.push(next);
        rest = behind;
    }
    if !rest.is_empty() {
        return None;
    }
    Some(cars)
}

// The fields of a group of so many cars. They are a function of their own, so that the lines of other events clear no room for them.
#[inline(never)]
fn fields(format: Format, count: u8, parts: &[u8]) -> Option<Fields>
    ensures found { IfSome result (λ fields. AreFields format count fields
        × (parts.now ≡ fields_part format fields)) }
    ensures none { IfNone result ((fields : Fields) → AreFields format count fields → parts.now
        ≡ fields_part format fields → ⊥) }
{
    let (time, rest) = number(parts, u32::MAX)?;
    let (run_limit, rest) = small_number(rest)?;
    let (fire, rest) = fire(format, rest)?;
    Some(Fields {
        time,
        run_limit,
        fire,
        cars: cars(count, rest)?,
    })
}

/// The event that a line tells of a group of so many cars.
#[tactic(auto, unfolding(crate::specs::Text::line_of))]
pub fn event(format: Format, count: u8, line: &[u8]) -> Option<TraceEvent>
    ensures found { IfSome result (λ e. IsTraced format count e × (line.now ≡ line_of format e)) }
    ensures none { IfNone result ((e : TraceEvent) → IsTraced format count e → line.now
        ≡ line_of format e → ⊥) }
{
    let (letter, parts) = line.split_first()?;
    match *letter {
        b'S' => Some(TraceEvent::Start(only_number(parts)?)),
        b'C' => Some(TraceEvent::Commit(only_number(parts)?)),
        b'P' => Some(TraceEvent::Press(call(parts)?)),
        b'G' => Some(TraceEvent::Gather(only_number(parts)?)),
        b'R' => Some(TraceEvent::Refresh(fields(format, count, parts)?)),
        _ => None,
    }
}
