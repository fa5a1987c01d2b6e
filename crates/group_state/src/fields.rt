// The lines of the image.

ghost use Rattle.std.specs.Prelude.{◌≡◌, ◌≤◌, Bool, length, IfSome, IfNone, IfOk, IfErr};
ghost use Rattle.group_state.specs.Saying.{SaysFire, TakesFire, RefusesFire};
ghost use Rattle.group_spec.specs.Image.{Obeys};
ghost use Rattle.group_state.specs.Heads.{TakesTimes, RefusesTimes, TakesAllCars, RefusesCars, TakesImage, RefusesImage, Disobeys};

use crate::car::take_car;
use crate::fault::{StateFault, Wrong};
use crate::lines::next_line;
use crate::numbers::take_number;
use group_interlock::settle_all;
use group_spec::{Bounded, CAR_PLACES, CarFields, Fields, Image, MOST_CARS, Outputs, Sizes};

// The greatest NOW, in milliseconds.
const LATEST: u64 = 2_147_483_647;

// TRUE or FALSE, after FIRE.
fn fire_of(line: &[u8]) -> Option<bool>
    ensures found { IfSome result (λ fire. SaysFire fire line.now) }
    ensures none { IfNone result ((fire : Bool) → SaysFire fire line.now → ⊥) }
{
    if line == b"FIRE TRUE".as_slice() {
        Some(true)
    } else if line == b"FIRE FALSE".as_slice() {
        Some(false)
    } else {
        None
    }
}

// FIRE, and what follows its line.
fn take_fire(text: &[u8]) -> Result<(bool, &[u8]), StateFault>
    ensures found { IfOk result (λ p. TakesFire text.now p.0 p.1.now) }
    ensures wrong { IfErr result (λ fault. RefusesFire text.now fault) }
{
    let (line, rest) = next_line(text)?;
    let Some(fire) = fire_of(line) else {
        return Err(StateFault::BadLine);
    };
    Ok((fire, rest))
}

/// NOW, RUNLIMIT and FIRE.
#[derive(Clone, Copy)]
pub struct Times {
    pub time: u32,
    pub run_limit: u8,
    pub fire: bool,
}

/// NOW, RUNLIMIT and FIRE, each from its line, and what follows them.
pub fn take_times(sizes: Sizes, text: &[u8]) -> Result<(Times, &[u8]), Wrong>
    ensures found { IfOk result (λ p. TakesTimes sizes text.now p.0.time p.0.run_limit p.0.fire
        p.1.now) }
    ensures wrong { IfErr result (λ wrong. RefusesTimes sizes text.now wrong) }
{
    let (time, rest) = match take_number(b"NOW", u64::from(u32::MAX), LATEST, text) {
        Ok(taken) => taken,
        Err(fault) => return Err(Wrong { fault, line: 3 }),
    };
    let most = u64::from(sizes.cars);
    let (run_limit, rest) = match take_number(b"RUNLIMIT", 255, most, rest) {
        Ok(taken) => taken,
        Err(fault) => return Err(Wrong { fault, line: 4 }),
    };
    let (fire, rest) = match take_fire(rest) {
        Ok(taken) => taken,
        Err(fault) => return Err(Wrong { fault, line: 5 }),
    };
    let times = Times {
        time: time as u32,
        run_limit: run_limit as u8,
        fire,
    };
    Ok((times, rest))
}

/// The fields and the outputs of all cars, car 1 first.
#[derive(Drop)]
pub struct Cars {
    pub fields: Bounded<CarFields, CAR_PLACES>,
    pub outputs: Outputs,
}

// The line of each car, and what follows them.
fn take_cars(sizes: Sizes, text: &[u8]) -> Result<(Cars, &[u8]), Wrong>
    requires { sizes.cars ≤ MOST_CARS }
    ensures found { IfOk result (λ p. TakesAllCars sizes text.now p.0.fields p.0.outputs p.1.now) }
    ensures wrong { IfErr result (λ wrong. RefusesCars sizes text.now wrong) }
{
    let mut fields = Bounded::new();
    let mut outputs = Outputs::new();
    let mut rest = text;
    'cars: while fields.len() < usize::from(sizes.cars) {
        let number = fields.len() as u8 + 1;
        match take_car(sizes, number, rest) {
            Ok((car, behind)) => {
                fields.push(car.fields);
                outputs.push(car.outputs);
                rest = behind;
            }
            Err(fault) => {
                return Err(Wrong {
                    fault,
                    line: 5 + u64::from(number),
                });
            }
        }
    }
    Ok((Cars { fields, outputs }, rest))
}

// The first car that doesn't obey the interlock.
fn disobeying(image: &Image) -> Option<Wrong>
    requires { length image.now.outputs ≡ length image.now.fields.cars }
    ensures none { IfNone result (Obeys image.now) }
    ensures some { IfSome result (λ wrong. Disobeys image.now wrong) }
{
    let settled = settle_all(&image.outputs, &image.fields);
    let denial = settled.denials.as_slice().first()?;
    Some(Wrong {
        fault: StateFault::Interlock,
        line: 5 + u64::from(denial.car),
    })
}

/// The image, and what follows its lines.
pub fn take_image(sizes: Sizes, text: &[u8]) -> Result<(Image, &[u8]), Wrong>
    requires { sizes.cars ≤ MOST_CARS }
    ensures found { IfOk result (λ p. TakesImage sizes text.now p.0 p.1.now) }
    ensures wrong { IfErr result (λ wrong. RefusesImage sizes text.now wrong) }
{
    let (times, rest) = take_times(sizes, text)?;
    let (cars, rest) = take_cars(sizes, rest)?;
    let image = Image {
        fields: Fields {
            time: times.time,
            run_limit: times.run_limit,
            fire: times.fire,
            cars: cars.fields,
        },
        outputs: cars.outputs,
    };
    match disobeying(&image) {
        Some(wrong) => Err(wrong),
        None => Ok((image, rest)),
    }
}
