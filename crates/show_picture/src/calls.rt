// The calls: in the bands of their cars, and in a strip of their own while they wait.

use crate::frame::Frame;
use crate::labels::{Labels, width_of};
use crate::pen::{Corner, height_at};
use crate::rides::{Ride, Told};
use crate::span::Window;
use crate::svg::{Point, close_group, open_group, put_words};
use std::alloc::{AllocError, Global};

// The most calls that are labelled.
const MOST_LABELLED: u64 = 1000;

// Whether a picture of these rounds shows a call: it was entered, and not served before them.
fn is_shown(window: Window, ride: &Ride) -> bool {
    let is_over = match ride.served {
        Some(served) => served < window.first,
        None => false,
    };
    ride.entered < window.end() && !is_over
}

/// How many calls a picture of these rounds shows.
pub fn shown(window: Window, rides: &[Ride]) -> u64 {
    let mut count: u64 = 0;
    'rides: for ride in rides {
        if is_shown(window, ride) {
            count = count.saturating_add(1);
        }
    }
    count
}

/// How many of them wait at the end of the trace.
pub fn waiting(window: Window, rides: &[Ride]) -> u64 {
    let mut count: u64 = 0;
    'rides: for ride in rides {
        if ride.told.is_none() && is_shown(window, ride) {
            count = count.saturating_add(1);
        }
    }
    count
}

// Where a call was entered: at its floor in the band of its car, or in a lane.
fn entry(frame: Frame, ride: &Ride, lane: u64) -> Corner {
    let round = ride.entered;
    match ride.told {
        Some(told) => Corner {
            round,
            y: frame.y(told.car, u64::from(ride.call.from)),
        },
        None => Corner {
            round,
            y: frame.lane(lane),
        },
    }
}

// The point of a corner.
fn point(frame: Frame, corner: Corner) -> Point {
    Point {
        x: frame.x(corner.round),
        y: corner.y,
    }
}

// The lane of the call after one that is shown.
fn next_lane(ride: &Ride, lane: u64) -> u64 {
    if ride.told.is_none() {
        lane.saturating_add(1)
    } else {
        lane
    }
}

// The round up to which a call's line is level: it boards or, where that was not seen, it is told its car.
fn turn(ride: &Ride, told: Told) -> u64 {
    ride.boarded.unwrap_or(told.round)
}

// The mark of the boarding, where it was seen and the picture shows it.
fn put_boarding(text: &mut String, window: Window, ride: &Ride) -> Result<(), AllocError> {
    match ride.boarded {
        Some(round) if window.has(round) => text.push_str(" marker-mid=\"url(#boarding)\""),
        _ => Ok(()),
    }
}

// No mark at the left edge, where a call was entered before it.
fn put_entry(text: &mut String, window: Window, ride: &Ride) -> Result<(), AllocError> {
    if window.has(ride.entered) {
        Ok(())
    } else {
        text.push_str(" marker-start=\"none\"")
    }
}

// No mark at the right edge, where a call was served after it.
fn put_exit(text: &mut String, window: Window, served: u64) -> Result<(), AllocError> {
    if window.has(served) {
        Ok(())
    } else {
        text.push_str(" marker-end=\"none\"")
    }
}

// Where the line of a call turns.
fn turn_of(ride: &Ride, told: Told, from: Corner) -> Corner {
    Corner {
        round: turn(ride, told),
        y: from.y,
    }
}

// Where it ends: where the call was served.
fn end_of(frame: Frame, ride: &Ride, told: Told, served: u64) -> Corner {
    Corner {
        round: served,
        y: frame.y(told.car, u64::from(ride.call.to)),
    }
}

// Where it begins in the picture: where the call was entered, or at the left edge.
fn beginning(frame: Frame, ride: &Ride, from: Corner) -> Corner {
    let round = from.round.max(frame.window().first);
    let y = match (ride.told, ride.served) {
        (Some(told), Some(served)) if turn(ride, told) < round => height_at(
            turn_of(ride, told, from),
            end_of(frame, ride, told, served),
            round,
        ),
        _ => from.y,
    };
    Corner { round, y }
}

// The steps of the line after its beginning: level to its turn, and straight to its end, as far as the picture shows them.
fn put_way(text: &mut String, frame: Frame, turn: Corner, end: Corner) -> Result<(), AllocError> {
    let window = frame.window();
    if window.first <= turn.round {
        let x = frame.x(turn.round);
        write!(text, "H{x}")?;
    }
    if window.end() <= turn.round {
        return Ok(());
    }
    let round = end.round.min(window.end());
    let x = frame.x(round);
    let y = height_at(turn, end, round);
    write!(text, "L{x} {y}")
}

// The line of a call that was served: level until it boarded, and straight to where and when it was served.
fn put_served(
    text: &mut String,
    frame: Frame,
    ride: &Ride,
    from: Corner,
    turn: Corner,
    end: Corner,
) -> Result<(), AllocError> {
    let window = frame.window();
    let Point { x, y } = point(frame, from);
    write!(text, "<path d=\"M{x} {y}")?;
    put_way(text, frame, turn, end)?;
    text.push_str("\"")?;
    put_entry(text, window, ride)?;
    put_exit(text, window, end.round)?;
    put_boarding(text, window, ride)?;
    text.push_str(">")
}

// The line of a call that was not served: level to the end.
fn put_unserved(
    text: &mut String,
    frame: Frame,
    ride: &Ride,
    from: Corner,
) -> Result<(), AllocError> {
    let window = frame.window();
    let Point { x, y } = point(frame, from);
    let turn = frame.x(ride.boarded.unwrap_or(ride.entered));
    let end = frame.right();
    write!(
        text,
        "<path d=\"M{x} {y}H{turn}H{end}\" stroke-dasharray=\"4 3\" stroke-opacity=\".5\" marker-end=\"none\""
    )?;
    put_entry(text, window, ride)?;
    put_boarding(text, window, ride)?;
    text.push_str(">")
}

// The line of a call.
fn put_line(text: &mut String, frame: Frame, ride: &Ride, from: Corner) -> Result<(), AllocError> {
    match (ride.told, ride.served) {
        (Some(told), Some(served)) => {
            let turn = turn_of(ride, told, from);
            let end = end_of(frame, ride, told, served);
            put_served(text, frame, ride, beginning(frame, ride, from), turn, end)
        }
        _ => put_unserved(text, frame, ride, from),
    }
}

// What a call is.
fn put_call(text: &mut String, ride: &Ride) -> Result<(), AllocError> {
    let ticket = ride.ticket;
    let from = ride.call.from;
    let to = ride.call.to;
    let entered = ride.entered;
    write!(
        text,
        "<title>call {ticket} from floor {from} to floor {to}: entered in round {entered}"
    )
}

// When it was told its car.
fn put_told(text: &mut String, told: Option<Told>) -> Result<(), AllocError> {
    match told {
        Some(Told { car, round }) => write!(text, ", told car {car} in round {round}"),
        None => text.push_str(", waiting"),
    }
}

// When its car stood at the landing with its door open.
fn put_boarded(text: &mut String, boarded: Option<u64>) -> Result<(), AllocError> {
    match boarded {
        Some(round) => write!(text, ", could board in round {round}"),
        None => Ok(()),
    }
}

// When it was served.
fn put_service(text: &mut String, served: Option<u64>) -> Result<(), AllocError> {
    match served {
        Some(round) => write!(text, ", served in round {round}"),
        None => Ok(()),
    }
}

// A call, with a title.
fn put_ride(text: &mut String, frame: Frame, ride: &Ride, from: Corner) -> Result<(), AllocError> {
    put_line(text, frame, ride, from)?;
    put_call(text, ride)?;
    put_told(text, ride.told)?;
    put_boarded(text, ride.boarded)?;
    put_service(text, ride.served)?;
    text.push_str("</title></path>\n")
}

// The lines of the calls.
fn put_lines(text: &mut String, frame: Frame, rides: &[Ride]) -> Result<(), AllocError> {
    let mut lane: u64 = 0;
    'rides: for ride in rides {
        if is_shown(frame.window(), ride) {
            put_ride(text, frame, ride, entry(frame, ride, lane))?;
            lane = next_lane(ride, lane);
        }
    }
    Ok(())
}

// The label of a call: its ticket and its floors.
fn put_label(text: &mut String, at: Point, ride: &Ride) -> Result<(), AllocError> {
    let Point { x, y } = at;
    let ticket = ride.ticket;
    let from = ride.call.from;
    let to = ride.call.to;
    writeln!(
        text,
        "<text x=\"{x}\" y=\"{y}\">{ticket}: {from}-{to}</text>"
    )
}

// Whether a call's line goes up from where it begins.
fn goes_up(ride: &Ride) -> bool {
    ride.told.is_some() && ride.call.from < ride.call.to
}

// The label of a call, where there is room for it.
fn put_free_label(
    text: &mut String,
    frame: Frame,
    labels: &mut Labels,
    ride: &Ride,
    lane: u64,
) -> Result<(), AllocError> {
    let from = entry(frame, ride, lane);
    let width = width_of(ride.ticket, ride.call);
    match labels.place(
        point(frame, beginning(frame, ride, from)),
        width,
        goes_up(ride),
    )? {
        Some(at) => put_label(text, at, ride),
        None => Ok(()),
    }
}

// The labels of the calls. One that would overlap another is left out.
fn put_labels(
    text: &mut String,
    alloc: Global,
    frame: Frame,
    rides: &[Ride],
) -> Result<(), AllocError> {
    let mut labels = Labels::new(alloc);
    let mut lane: u64 = 0;
    'rides: for ride in rides {
        if is_shown(frame.window(), ride) {
            put_free_label(text, frame, &mut labels, ride, lane)?;
            lane = next_lane(ride, lane);
        }
    }
    Ok(())
}

// The name of the strip of the calls that wait, if any do.
fn put_name(text: &mut String, frame: Frame, rides: &[Ride]) -> Result<(), AllocError> {
    if waiting(frame.window(), rides) == 0 {
        return Ok(());
    }
    let y = frame.top().saturating_add(14);
    put_words(text, Point { x: 8, y }, "waiting")
}

// The lines of the calls, as a group.
fn put_all(text: &mut String, frame: Frame, rides: &[Ride]) -> Result<(), AllocError> {
    open_group(
        text,
        "fill=\"none\" stroke=\"#1f5fbf\" marker-start=\"url(#entry)\" marker-end=\"url(#service)\"",
    )?;
    put_lines(text, frame, rides)?;
    close_group(text)
}

/// The calls, with their tickets and floors if they are few enough.
pub fn put_calls(
    text: &mut String,
    alloc: Global,
    frame: Frame,
    rides: &[Ride],
) -> Result<(), AllocError> {
    put_name(text, frame, rides)?;
    put_all(text, frame, rides)?;
    if shown(frame.window(), rides) > MOST_LABELLED {
        return Ok(());
    }
    open_group(text, "fill=\"#1f5fbf\"")?;
    put_labels(text, alloc, frame, rides)?;
    close_group(text)
}
