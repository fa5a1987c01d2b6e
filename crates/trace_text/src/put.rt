// The lines of a trace, put after bytes that wait for a sink.

ghost use Rattle.std.specs.Prelude.{◌≡◌, ◌≤◌, ◌+◌, ◌*◌, [], ◌∷◌, ◌++◌, length, flat_map, decimal};
ghost use Rattle.trace_text.specs.declared.format.Format.TheVariants.{Two};
ghost use Rattle.group_spec.specs.declared.trace.TraceEvent.TheVariants.{Start, Commit, Press, Gather, Refresh};
ghost use Rattle.trace_text.specs.Text.{part, flag, flags, car_part, fields_part, first_line, last_line, line_of};

use crate::waiting::Waiting;
use group_spec::calls::Call;
use group_spec::image::{CAR_PLACES, CarFields, Fields};
use itoa::{Buffer, write_digits};

// Puts the digits of a number.
fn put_digits(waiting: &mut Waiting, number: u32)
    requires { length waiting.old ≤ 4080 }
    ensures text { waiting.new ≡ waiting.old ++ decimal number }
    ensures short { length waiting.new ≤ length waiting.old + 16 }
{
    let mut block = [0; 32];
    let start = write_digits(u64::from(number), &mut block, 16);
    waiting.put_front(&block[start..start + 16], 16 - start);
}

// Puts a space and a small number.
#[inline(always)]
fn put_number(waiting: &mut Waiting, number: u8)
    requires { length waiting.old ≤ 4000 }
    ensures text { waiting.new ≡ waiting.old ++ part number }
    ensures short { length waiting.new ≤ length waiting.old + 17 }
{
    if number < 10 {
        waiting.put(&[b' ', b'0' + number]);
    } else {
        waiting.push(b' ');
        put_digits(waiting, u32::from(number));
    }
}

/// Puts the first line.
pub fn put_first(waiting: &mut Waiting)
    requires { length waiting.old ≤ 3584 }
    ensures { waiting.new ≡ waiting.old ++ (first_line Two ++ 10 ∷ []) }
{
    waiting.put(b"LIFTTRACE 2\n");
}

/// Puts the last line, after so many others.
#[tactic(auto, unfolding(crate::specs::Text::last_line))]
pub fn put_last(waiting: &mut Waiting, count: u128)
    requires { length waiting.old ≤ 3584 }
    ensures { waiting.new ≡ waiting.old ++ last_line count ++ 10 ∷ [] }
{
    let mut buffer = Buffer::new();
    waiting.put(b"E ");
    waiting.put(buffer.format(count).as_bytes());
    waiting.push(b'\n');
}

// Puts a line of a letter and a number.
#[inline(always)]
fn put_line(waiting: &mut Waiting, letter: u8, number: u8)
    requires { length waiting.old ≤ 3584 }
    ensures { waiting.new ≡ waiting.old ++ letter ∷ part number ++ 10 ∷ [] }
{
    if number < 10 {
        waiting.put(&[letter, b' ', b'0' + number, b'\n']);
    } else {
        waiting.put(&[letter, b' ']);
        put_digits(waiting, u32::from(number));
        waiting.push(b'\n');
    }
}

/// Puts the start of a task's scan.
#[tactic(auto, unfolding(crate::specs::Text::line_of))]
pub fn put_start(waiting: &mut Waiting, task: u8)
    requires { length waiting.old ≤ 3584 }
    ensures { waiting.new ≡ waiting.old ++ line_of Two (Start task) ++ 10 ∷ [] }
{
    put_line(waiting, b'S', task);
}

/// Puts the commit of a task's scan.
#[tactic(auto, unfolding(crate::specs::Text::line_of))]
pub fn put_commit(waiting: &mut Waiting, task: u8)
    requires { length waiting.old ≤ 3584 }
    ensures { waiting.new ≡ waiting.old ++ line_of Two (Commit task) ++ 10 ∷ [] }
{
    put_line(waiting, b'C', task);
}

/// Puts the gathering of a floor.
#[tactic(auto, unfolding(crate::specs::Text::line_of))]
pub fn put_gather(waiting: &mut Waiting, floor: u8)
    requires { length waiting.old ≤ 3584 }
    ensures { waiting.new ≡ waiting.old ++ line_of Two (Gather floor) ++ 10 ∷ [] }
{
    put_line(waiting, b'G', floor);
}

/// Puts the press of a call.
#[tactic(auto, unfolding(crate::specs::Text::line_of))]
pub fn put_press(waiting: &mut Waiting, call: Call)
    requires { length waiting.old ≤ 3584 }
    ensures { waiting.new ≡ waiting.old ++ line_of Two (Press call) ++ 10 ∷ [] }
{
    waiting.push(b'P');
    put_number(waiting, call.from);
    put_number(waiting, call.to);
    waiting.push(b'\n');
}

fn digit(value: bool) -> u8
    ensures { result ≡ flag value }
{
    if value { b'1' } else { b'0' }
}

// Puts what is told of a car.
#[tactic(auto, unfolding(crate::specs::Text::car_part))]
fn put_car(waiting: &mut Waiting, car: &CarFields)
    requires { length waiting.old ≤ 4000 }
    ensures text { waiting.new ≡ waiting.old ++ car_part car.now }
    ensures short { length waiting.new ≤ length waiting.old + 23 }
{
    put_number(waiting, car.pos);
    let digits = [
        b' ',
        digit(car.level),
        digit(car.top),
        digit(car.bottom),
        digit(car.locked),
        digit(car.opened),
    ];
    waiting.put(&digits);
}

// Puts the parts of cars.
fn put_cars(waiting: &mut Waiting, cars: &[CarFields])
    requires room { length waiting.old ≤ 3800 }
    requires few { length cars.now ≤ CAR_PLACES }
    ensures text { waiting.new ≡ waiting.old ++ flat_map car_part cars.now }
    ensures short { length waiting.new ≤ length waiting.old + 23 * CAR_PLACES }
{
    'cars: for car in cars {
        put_car(waiting, car);
    }
}

/// Puts a refresh.
#[tactic(auto, unfolding(crate::specs::Text::line_of))]
pub fn put_refresh(waiting: &mut Waiting, fields: &Fields)
    requires { length waiting.old ≤ 3584 }
    ensures { waiting.new ≡ waiting.old ++ line_of Two (Refresh fields.now) ++ 10 ∷ [] }
{
    waiting.put(b"R ");
    put_digits(waiting, fields.time);
    put_number(waiting, fields.run_limit);
    waiting.put(&[b' ', digit(fields.fire)]);
    let count = fields.cars.len();
    put_cars(waiting, &fields.cars.as_slice()[..count]);
    waiting.push(b'\n');
}
