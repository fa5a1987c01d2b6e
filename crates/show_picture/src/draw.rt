// A trace's picture.

ghost use Rattle.std.specs.Prelude.{◌≡◌, OnOk, IfErr};
ghost use Rattle.group_journal.specs.Rounds.{TakesAll};
ghost use Rattle.show_picture.specs.Stops.{IsStopped};

use crate::axes::{put_axes, put_grid};
use crate::band::put_bands;
use crate::calls::{put_calls, shown, waiting};
use crate::follow::follow;
use crate::frame::Frame;
use crate::marks::{put_denials, put_fire};
use crate::span::{Span, Window};
use crate::stop::Stop;
use crate::story::Story;
use crate::svg::put_seconds;
use group_world::World;
use std::alloc::{AllocError, Global};
use trace_text::trace::Trace;

// What the colours mean, and how a call's line begins, turns and ends.
const LEGEND: &str = "\
<defs>
<marker id=\"entry\" markerWidth=\"6\" markerHeight=\"6\" refX=\"3\" refY=\"3\" markerUnits=\"userSpaceOnUse\"><circle cx=\"3\" cy=\"3\" r=\"2.5\" fill=\"#1f5fbf\"/></marker>
<marker id=\"boarding\" markerWidth=\"6\" markerHeight=\"8\" refX=\"3\" refY=\"4\" markerUnits=\"userSpaceOnUse\"><path d=\"M3 0V8\" stroke=\"#1f5fbf\" stroke-width=\"2\"/></marker>
<marker id=\"service\" markerWidth=\"6\" markerHeight=\"6\" refX=\"3\" refY=\"3\" markerUnits=\"userSpaceOnUse\"><path d=\"M1 1H5V5H1z\" fill=\"#1f5fbf\"/></marker>
</defs>
<g fill=\"#444\">
<path d=\"M72 35H92\" stroke=\"#222\" stroke-width=\"1.5\"/><text x=\"96\" y=\"38\">car</text>
<path d=\"M122 31H138V39H122z\" fill=\"#2e9e6b\"/><text x=\"142\" y=\"38\">door open</text>
<path d=\"M198 31H214V39H198z\" fill=\"#b9e3cf\"/><text x=\"218\" y=\"38\">door moving</text>
<path d=\"M286 35H302H318\" stroke=\"#1f5fbf\" marker-start=\"url(#entry)\" marker-mid=\"url(#boarding)\" marker-end=\"url(#service)\"/><text x=\"325\" y=\"38\">call: entry, boarding, service</text>
<path d=\"M478 31l4 7h-8z\" fill=\"#c62828\"/><text x=\"486\" y=\"38\">denied by interlock</text>
<path d=\"M590 31H606V39H590z\" fill=\"#fde3c8\"/><text x=\"610\" y=\"38\">FIRE</text>
</g>
";

// The head of the picture, on white.
fn put_head(text: &mut String, frame: Frame) -> Result<(), AllocError> {
    let width = frame.width();
    let height = frame.height();
    write!(
        text,
        "<svg xmlns=\"http://www.w3.org/2000/svg\" width=\"{width}\" height=\"{height}\" viewBox=\"0 0 {width} {height}\""
    )?;
    text.push_str(" font-family=\"sans-serif\" font-size=\"10\">\n")?;
    writeln!(text, "<path fill=\"#fff\" d=\"M0 0H{width}V{height}H0z\"/>")
}

// The sizes of the group.
fn put_sizes(text: &mut String, story: &Story) -> Result<(), AllocError> {
    let sizes = story.sizes();
    let cars = sizes.cars;
    let floors = sizes.floors;
    let slots = sizes.slots;
    write!(
        text,
        "cars: {cars}, floors: {floors}, call slots: {slots}; "
    )
}

// The rounds that are shown, all of the trace or some, and their time.
fn put_rounds(text: &mut String, story: &Story, window: Window) -> Result<(), AllocError> {
    let rounds = story.rounds();
    let Window { first, count } = window;
    if count == rounds {
        write!(text, "rounds: {rounds}, ")?;
        return put_time(text, story, window);
    }
    if count == 0 {
        return write!(text, "rounds: 0 of {rounds}; ");
    }
    let last = window.end().saturating_sub(1);
    write!(text, "rounds: {first} to {last} of {rounds}, ")?;
    put_time(text, story, window)
}

fn put_time(text: &mut String, story: &Story, window: Window) -> Result<(), AllocError> {
    put_seconds(text, story.time(window.first))?;
    text.push_str(" s to ")?;
    put_seconds(text, story.time(window.end().saturating_sub(1)))?;
    text.push_str(" s; ")
}

// How much happened in them.
fn put_counts(text: &mut String, story: &Story, window: Window) -> Result<(), AllocError> {
    let calls = shown(window, story.rides.list());
    write!(text, "calls: {calls}")
}

// The title row.
fn put_title(text: &mut String, story: &Story, window: Window) -> Result<(), AllocError> {
    text.push_str("<text x=\"72\" y=\"18\" font-size=\"12\" fill=\"#222\">")?;
    put_sizes(text, story)?;
    put_rounds(text, story, window)?;
    put_counts(text, story, window)?;
    text.push_str("</text>\n")
}

// What is along the time: FIRE, the bands of the cars, the calls, and what was denied.
fn put_body(
    text: &mut String,
    alloc: Global,
    story: &Story,
    frame: Frame,
) -> Result<(), AllocError> {
    put_fire(text, frame, story.fires())?;
    put_grid(text, frame)?;
    put_bands(text, frame, story.places.changes())?;
    put_calls(text, alloc, frame, story.rides.list())?;
    put_denials(text, frame, story.denials.list())
}

// The picture of these rounds, as SVG.
fn put_picture(
    text: &mut String,
    alloc: Global,
    story: &Story,
    window: Window,
) -> Result<(), AllocError> {
    let lanes = waiting(window, story.rides.list());
    let frame = Frame::new(story.sizes(), window, lanes);
    put_head(text, frame)?;
    put_title(text, story, window)?;
    text.push_str(LEGEND)?;
    put_body(text, alloc, story, frame)?;
    put_axes(text, story, frame)?;
    text.push_str("</svg>\n")
}

// The text of the picture.
fn picture(alloc: Global, story: &Story, span: Span) -> Result<String, AllocError> {
    let mut text = String::new(alloc);
    put_picture(&mut text, alloc, story, span.window(story.rounds()))?;
    Ok(text)
}

/// The picture of these rounds of a trace, as SVG: what happens along its events, from this world on, which is changed as they say. The
/// text of the picture is no part of the promise.
pub fn drawing(
    alloc: Global,
    world: &mut World,
    events: &Trace<'_>,
    span: Span,
) -> Result<String, Stop>
    ensures taken { OnOk result (TakesAll world.old.program.config world.old.world events.now
        world.new.world) }
    ensures stopped { IfErr result (IsStopped world.old.program.config world.old.world events.now) }
    ensures same { world.new.program ≡ world.old.program }
{
    let mut story = Story::new(alloc, world.sizes());
    follow(world, events, &mut story)?;
    let text = picture(alloc, &story, span)?;
    Ok(text)
}
