// FIRE, and what the interlock denied.

use crate::denials::Denied;
use crate::frame::Frame;
use crate::span::Window;
use crate::story::Switch;
use crate::svg::{Point, close_group, end_path, open_group, put_box, put_words};
use group_spec::image::CAR_PLACES;
use std::alloc::AllocError;

// FIRE, from a round to a round.
fn put_burning(text: &mut String, frame: Frame, from: u64, to: u64) -> Result<(), AllocError> {
    let upper = Point {
        x: frame.x(from),
        y: frame.top(),
    };
    let lower = Point {
        x: frame.x(to),
        y: frame.bottom(),
    };
    put_box(text, upper, lower)
}

// The round from which on FIRE holds up to the next switch, if the switch before was on and the picture shows it.
fn burning_before(window: Window, before: Option<Switch>, to: u64) -> Option<u64> {
    let switch = before?;
    if switch.on && window.meets(switch.round, to) {
        Some(switch.round)
    } else {
        None
    }
}

// FIRE up to the next switch, if the switch before was on.
fn put_until(
    text: &mut String,
    frame: Frame,
    before: Option<Switch>,
    to: u64,
) -> Result<(), AllocError> {
    match burning_before(frame.window(), before, to) {
        Some(from) => put_burning(text, frame, from, to),
        None => Ok(()),
    }
}

fn put_areas(text: &mut String, frame: Frame, fires: &[Switch]) -> Result<(), AllocError> {
    let mut before: Option<Switch> = None;
    'fires: for switch in fires {
        put_until(text, frame, before, switch.round)?;
        before = Some(*switch);
    }
    put_until(text, frame, before, frame.window().end())
}

// The name of FIRE up to the next switch, if the switch before was on.
fn put_name(
    text: &mut String,
    frame: Frame,
    before: Option<Switch>,
    to: u64,
) -> Result<(), AllocError> {
    match burning_before(frame.window(), before, to) {
        Some(from) => {
            let x = frame.x(from).saturating_add(3);
            let y = frame.top().saturating_sub(3);
            put_words(text, Point { x, y }, "FIRE")
        }
        None => Ok(()),
    }
}

// The name of each time of FIRE.
fn put_names(text: &mut String, frame: Frame, fires: &[Switch]) -> Result<(), AllocError> {
    let mut before: Option<Switch> = None;
    'fires: for switch in fires {
        put_name(text, frame, before, switch.round)?;
        before = Some(*switch);
    }
    put_name(text, frame, before, frame.window().end())
}

/// The time of FIRE, as areas.
pub fn put_fire(text: &mut String, frame: Frame, fires: &[Switch]) -> Result<(), AllocError> {
    if fires.is_empty() {
        return Ok(());
    }
    text.push_str("<path fill=\"#fde3c8\" d=\"")?;
    put_areas(text, frame, fires)?;
    end_path(text)?;
    open_group(text, "fill=\"#b35900\" font-size=\"9\"")?;
    put_names(text, frame, fires)?;
    close_group(text)
}

// The width of a triangle.
const TRIANGLE: u64 = 8;

// Where the next triangle of each car has room, by the car's index.
#[derive(Clone, Copy)]
struct Free {
    from: [u64; CAR_PLACES],
}

impl Free {
    // Whether a triangle has room at this place in the band of a car; then it is taken.
    fn take(&mut self, car: u64, x: u64) -> bool {
        let index = car.saturating_sub(1) as usize;
        if index >= CAR_PLACES || x < self.from[index] {
            return false;
        }
        self.from[index] = x.saturating_add(TRIANGLE);
        true
    }
}

// A triangle where a denial begins, if the picture shows that and it has room, and a bar to where it ends.
fn put_triangle(
    text: &mut String,
    frame: Frame,
    free: &mut Free,
    denied: &Denied,
) -> Result<(), AllocError> {
    let x = frame.x(denied.first);
    let end = frame.x(denied.last).max(x.saturating_add(1));
    let y = frame.band_top(denied.car).saturating_add(2);
    let base = y.saturating_add(7);
    if !frame.window().has(denied.first) || !free.take(denied.car, x) {
        return write!(text, "<path d=\"M{x} {base}H{end}\"><title>");
    }
    write!(
        text,
        "<path d=\"M{x} {y}l4 7h-8zM{x} {base}H{end}\"><title>"
    )
}

// When something was denied.
fn put_rounds(text: &mut String, denied: &Denied) -> Result<(), AllocError> {
    let first = denied.first;
    if denied.times == 1 {
        return write!(text, "round {first}");
    }
    let last = denied.last;
    let times = denied.times;
    write!(text, "rounds {first} to {last}, {times} times")
}

// What was denied, and why.
fn put_reason(text: &mut String, denied: &Denied) -> Result<(), AllocError> {
    let car = denied.car;
    let number = denied.rule.number();
    write!(text, ": CAR {car}, rule {number}: ")?;
    text.push_str(denied.rule.sentence())
}

// A grey tick where a car was stopped at an end of its shaft.
fn put_tick(text: &mut String, frame: Frame, denied: &Denied) -> Result<(), AllocError> {
    let x = frame.x(denied.first);
    let y = frame.band_top(denied.car).saturating_add(5);
    write!(text, "<path stroke=\"#9e9e9e\" d=\"M{x} {y}v4\"><title>")
}

fn put_mark(
    text: &mut String,
    frame: Frame,
    free: &mut Free,
    denied: &Denied,
) -> Result<(), AllocError> {
    if denied.is_end_stop {
        put_tick(text, frame, denied)
    } else {
        put_triangle(text, frame, free, denied)
    }
}

// Whether the picture shows a denial: an end stop by its first round, and what has a bar by any.
fn is_shown(window: Window, denied: &Denied) -> bool {
    if denied.is_end_stop {
        window.has(denied.first)
    } else {
        window.meets(denied.first, denied.last.saturating_add(1))
    }
}

fn put_denied(
    text: &mut String,
    frame: Frame,
    free: &mut Free,
    denied: &Denied,
) -> Result<(), AllocError> {
    put_mark(text, frame, free, denied)?;
    put_rounds(text, denied)?;
    put_reason(text, denied)?;
    text.push_str("</title></path>\n")
}

/// What the interlock denied, at the upper edge of the cars' bands.
pub fn put_denials(text: &mut String, frame: Frame, list: &[Denied]) -> Result<(), AllocError> {
    open_group(text, "fill=\"#c62828\" stroke=\"#c62828\"")?;
    let mut free = Free {
        from: [0; CAR_PLACES],
    };
    'denials: for denied in list {
        if is_shown(frame.window(), denied) {
            put_denied(text, frame, &mut free, denied)?;
        }
    }
    close_group(text)
}
