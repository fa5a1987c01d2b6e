// The band of a car: its floors, its place and its door.

use crate::frame::{Frame, LEFT};
use crate::pen::{Corner, Pen};
use crate::places::{Change, Door, Place};
use crate::svg::{Point, close_group, end_path, open_group, put_box, put_level, put_number};
use std::alloc::AllocError;

// A line for each floor.
fn put_floor_lines(text: &mut String, frame: Frame, car: u64) -> Result<(), AllocError> {
    text.push_str("<path stroke=\"#d0d0d0\" d=\"")?;
    'floors: for below in 0..frame.floors() {
        let y = frame.y(car, below + 1);
        put_level(text, Point { x: LEFT, y }, frame.right())?;
    }
    end_path(text)
}

// The number of each floor.
fn put_floor_numbers(text: &mut String, frame: Frame, car: u64) -> Result<(), AllocError> {
    open_group(text, "fill=\"#444\" text-anchor=\"end\"")?;
    'floors: for below in 0..frame.floors() {
        let y = frame.y(car, below + 1).saturating_add(4);
        put_number(text, Point { x: LEFT - 6, y }, below + 1)?;
    }
    close_group(text)
}

// The car's name, at the middle of its band.
fn put_name(text: &mut String, frame: Frame, car: u64) -> Result<(), AllocError> {
    let y = (frame.y(car, 1) / 2)
        .saturating_add(frame.y(car, frame.floors()) / 2)
        .saturating_add(4);
    writeln!(
        text,
        "<text x=\"8\" y=\"{y}\" font-size=\"12\" font-weight=\"bold\" fill=\"#222\">CAR {car}</text>"
    )
}

// How far apart the names of a car stand in a wide picture.
const APART: u64 = 1200;

// The car's name again, above its band, where the picture is wide.
fn put_names_along(text: &mut String, frame: Frame, car: u64) -> Result<(), AllocError> {
    let y = frame.band_top(car).saturating_add(12);
    open_group(text, "fill=\"#999\"")?;
    'names: for nth in 0..frame.width() / APART {
        let x = LEFT + (nth + 1) * APART;
        writeln!(text, "<text x=\"{x}\" y=\"{y}\">CAR {car}</text>")?;
    }
    close_group(text)
}

// The door of a car, where it is so, from a change to a round.
fn put_door(text: &mut String, frame: Frame, from: Change, to: u64) -> Result<(), AllocError> {
    let y = frame.y(from.car, u64::from(from.place.floor));
    let upper = Point {
        x: frame.x(from.round),
        y: y.saturating_sub(4),
    };
    let lower = Point {
        x: frame.x(to),
        y: y.saturating_add(4),
    };
    put_box(text, upper, lower)
}

// A bar for each time that the door of a car is so.
fn put_bars(
    text: &mut String,
    frame: Frame,
    changes: &[Change],
    car: u64,
    door: Door,
) -> Result<(), AllocError> {
    let mut before: Option<Change> = None;
    'changes: for change in changes {
        if change.car == car {
            put_bar(text, frame, before, door, change.round)?;
            before = Some(*change);
        }
    }
    put_bar(text, frame, before, door, frame.window().end())
}

// The bar of the change before, if the door was so, where the picture shows it.
fn put_bar(
    text: &mut String,
    frame: Frame,
    before: Option<Change>,
    door: Door,
    to: u64,
) -> Result<(), AllocError> {
    match before {
        Some(from) if from.place.door == door && frame.window().meets(from.round, to) => {
            put_door(text, frame, from, to)
        }
        _ => Ok(()),
    }
}

// Whether two places are drawn alike, but for the door.
fn is_same(from: Place, to: Place) -> bool {
    from.floor == to.floor && from.level == to.level
}

// Where a car is at a floor at the beginning of a round.
fn corner(frame: Frame, car: u64, round: u64, floor: u8) -> Corner {
    let y = frame.y(car, u64::from(floor)).saturating_mul(10);
    Corner { round, y }
}

// The line up to the last round in which a car was level with a landing.
fn put_stand(
    text: &mut String,
    pen: &mut Pen,
    frame: Frame,
    from: Change,
    to: u64,
) -> Result<(), AllocError> {
    let last = to.saturating_sub(1);
    if from.place.level && last > from.round {
        pen.draw(text, corner(frame, from.car, last, from.place.floor))?;
    }
    Ok(())
}

// The round in which a car was half way to another floor. There the upper of the two is reported.
fn half_way(from: Place, to: &Change) -> u64 {
    if to.place.floor < from.floor {
        to.round.saturating_sub(1)
    } else {
        to.round
    }
}

// The line to a place: to the landing where the car is level with it, and half way where it is between two and nearer to another.
fn put_turn(
    text: &mut String,
    pen: &mut Pen,
    frame: Frame,
    from: Change,
    to: &Change,
) -> Result<(), AllocError> {
    let at = corner(frame, to.car, to.round, to.place.floor);
    if to.place.level {
        return pen.draw(text, at);
    }
    if from.place.level {
        return Ok(());
    }
    let round = half_way(from.place, to);
    let before = corner(frame, from.car, round, from.place.floor);
    let y = (before.y / 2).saturating_add(at.y / 2);
    pen.draw(text, Corner { round, y })
}

// The line from a change to the next.
fn put_way(
    text: &mut String,
    pen: &mut Pen,
    frame: Frame,
    from: Change,
    to: &Change,
) -> Result<(), AllocError> {
    put_stand(text, pen, frame, from, to.round)?;
    put_turn(text, pen, frame, from, to)
}

// The line from a change to the end of the last round.
fn put_rest(
    text: &mut String,
    pen: &mut Pen,
    frame: Frame,
    from: Change,
) -> Result<(), AllocError> {
    let behind = frame.window().end();
    pen.draw(text, corner(frame, from.car, behind, from.place.floor))
}

// The line after the change before, or its beginning.
fn put_next(
    text: &mut String,
    pen: &mut Pen,
    frame: Frame,
    before: Option<Change>,
    change: &Change,
) -> Result<(), AllocError> {
    match before {
        Some(from) => put_way(text, pen, frame, from, change),
        None => pen.draw(
            text,
            corner(frame, change.car, change.round, change.place.floor),
        ),
    }
}

// Whether a change of a car is one of its place, after the change before.
fn is_turn(before: Option<Change>, change: &Change) -> bool {
    match before {
        Some(from) => !is_same(from.place, change.place),
        None => true,
    }
}

// The steps of the line of a car's place.
fn put_steps(
    text: &mut String,
    frame: Frame,
    changes: &[Change],
    car: u64,
) -> Result<(), AllocError> {
    let mut pen = Pen::new(frame);
    let mut before: Option<Change> = None;
    'changes: for change in changes {
        if change.car == car && is_turn(before, change) {
            put_next(text, &mut pen, frame, before, change)?;
            before = Some(*change);
        }
    }
    match before {
        Some(from) => put_rest(text, &mut pen, frame, from),
        None => Ok(()),
    }
}

// The line of a car's place.
fn put_line_of(
    text: &mut String,
    frame: Frame,
    changes: &[Change],
    car: u64,
) -> Result<(), AllocError> {
    text.push_str("<path fill=\"none\" stroke=\"#222\" stroke-width=\"1.5\" d=\"")?;
    put_steps(text, frame, changes, car)?;
    end_path(text)
}

// The doors of a car, moving and open.
fn put_doors(
    text: &mut String,
    frame: Frame,
    changes: &[Change],
    car: u64,
) -> Result<(), AllocError> {
    text.push_str("<path fill=\"#b9e3cf\" d=\"")?;
    put_bars(text, frame, changes, car, Door::Moving)?;
    text.push_str("\"/>\n<path fill=\"#2e9e6b\" d=\"")?;
    put_bars(text, frame, changes, car, Door::Open)?;
    end_path(text)
}

// The floors of a car, and its name.
fn put_floors(text: &mut String, frame: Frame, car: u64) -> Result<(), AllocError> {
    put_floor_lines(text, frame, car)?;
    put_floor_numbers(text, frame, car)?;
    put_name(text, frame, car)?;
    put_names_along(text, frame, car)
}

/// A band for each car, one below the other.
pub fn put_bands(text: &mut String, frame: Frame, changes: &[Change]) -> Result<(), AllocError> {
    'cars: for below in 0..frame.cars() {
        let car = below + 1;
        put_floors(text, frame, car)?;
        put_doors(text, frame, changes, car)?;
        put_line_of(text, frame, changes, car)?;
    }
    Ok(())
}
