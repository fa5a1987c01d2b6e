// The time below the bands.

ghost use Rattle.std.specs.Prelude.{◌≤◌, ◌<◌, ◌+◌, IfSome};

use crate::frame::Frame;
use crate::span::Window;
use crate::story::Story;
use crate::svg::{
    Point, close_group, end_path, open_group, put_number, put_plumb, put_seconds, put_words,
};
use std::alloc::AllocError;

// How many rounds may lie between two labels.
static STEPS: [u64; 19] = [
    1, 2, 5, 10, 20, 50, 100, 200, 500, 1000, 2000, 5000, 10000, 20000, 50000, 100000, 200000,
    500000, 1000000,
];

// The least number of labels but the first, and how many pixels a label has in a wide picture.
const FEW_LABELS: u64 = 11;

const WIDE_LABEL: u64 = 200;

// The most labels but the first.
fn most_labels(frame: Frame) -> u64
    ensures { result ≤ 12100 }
{
    (frame.width() / WIDE_LABEL).max(FEW_LABELS)
}

// How many rounds lie between two of so many labels.
fn step_of(rounds: u64, labels: u64) -> u64 {
    'steps: for step in STEPS.iter() {
        if rounds <= step.saturating_mul(labels) {
            return *step;
        }
    }
    rounds
}

// The last round that the step divides and that is before this one.
fn divided_before(first: u64, step: u64) -> u64 {
    let steps = first.saturating_sub(1).checked_div(step).unwrap_or(0);
    steps.saturating_mul(step)
}

// Whether the next round that the step divides is nearer than half a step.
fn is_crowded(first: u64, step: u64) -> bool {
    let next = divided_before(first, step).saturating_add(step);
    next.saturating_sub(first).saturating_mul(2) < step
}

// The round of a label, from 0 on: the first round, unless the next label is near, and then each that the step divides.
fn labelled(count: u64, step: u64, window: Window) -> Option<u64>
    ensures { IfSome result (λ round. (window.first ≤ round)
        × (round < window.first + window.count)) }
{
    let first = window.first;
    if count == 0 && is_crowded(first, step) {
        return None;
    }
    let round = divided_before(first, step)
        .saturating_add(step.saturating_mul(count))
        .max(first);
    if window.has(round) { Some(round) } else { None }
}

/// A line down from each label's round.
pub fn put_grid(text: &mut String, frame: Frame) -> Result<(), AllocError> {
    let labels = most_labels(frame);
    let window = frame.window();
    let step = step_of(window.count, labels);
    text.push_str("<path stroke=\"#e4e4e4\" d=\"")?;
    'lines: for count in 0..labels + 1 {
        if let Some(round) = labelled(count, step, window) {
            let x = frame.x(round);
            put_plumb(text, Point { x, y: frame.top() }, frame.bottom())?;
        }
    }
    end_path(text)
}

// The seconds of NOW in a round.
fn put_time(text: &mut String, story: &Story, at: Point, round: u64) -> Result<(), AllocError> {
    let Point { x, y } = at;
    write!(text, "<text x=\"{x}\" y=\"{y}\">")?;
    put_seconds(text, story.time(round))?;
    text.push_str("</text>\n")
}

// The seconds and the number of a round.
fn put_label(text: &mut String, story: &Story, frame: Frame, round: u64) -> Result<(), AllocError> {
    let x = frame.x(round);
    let y = frame.bottom().saturating_add(14);
    put_time(text, story, Point { x, y }, round)?;
    let y = frame.bottom().saturating_add(28);
    put_number(text, Point { x, y }, round)
}

fn put_labels(text: &mut String, story: &Story, frame: Frame) -> Result<(), AllocError> {
    let labels = most_labels(frame);
    let window = frame.window();
    let step = step_of(window.count, labels);
    'labels: for count in 0..labels + 1 {
        if let Some(round) = labelled(count, step, window) {
            put_label(text, story, frame, round)?;
        }
    }
    Ok(())
}

// What the two rows of labels are.
fn put_names(text: &mut String, frame: Frame) -> Result<(), AllocError> {
    let y = frame.bottom().saturating_add(14);
    put_words(text, Point { x: 8, y }, "seconds")?;
    let y = frame.bottom().saturating_add(28);
    put_words(text, Point { x: 8, y }, "round")
}

/// The time in seconds, and the numbers of the rounds.
pub fn put_axes(text: &mut String, story: &Story, frame: Frame) -> Result<(), AllocError> {
    open_group(text, "fill=\"#444\" text-anchor=\"middle\"")?;
    put_labels(text, story, frame)?;
    close_group(text)?;
    open_group(text, "fill=\"#444\"")?;
    put_names(text, frame)?;
    close_group(text)
}
