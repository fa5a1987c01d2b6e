// What `denials` and `watch` print along a trace.

ghost use Rattle.std.specs.Prelude.{◌≡◌, ◌+◌, ◌++◌, ◌^◌, ◌<◌, ℕ, List, length, IfErr, IfOk, OnOk, string_bytes};
ghost use Rattle.base_texts.specs.Puts.{Puts};
ghost use Rattle.group_rounds.specs.Along.{IsStopped};
ghost use Rattle.group_spec.specs.Replies.{reply_with};
ghost use Rattle.show_values.specs.Asked.{asked_at, asked_by};
ghost use Rattle.show_values.specs.Following.{round_behind, denials_in, denied_at, row_of, row_before, IsDeniedIn, AreRowsAlong};

use crate::asked::Asked;
use crate::calls::answers_of;
use crate::denials::{put_answers, put_denials, put_refresh};
use crate::names::Watched;
use crate::watch::put_row;
use base_json::form::Form;
use group_rounds::along::{Stop, reply_to};
use group_rounds::replay::Refused;
use group_spec::event::Reply;
use group_spec::report::{Denial, Report};
use group_spec::trace::TraceEvent;
use group_world::World;
use std::alloc::{AllocError, Global};
use trace_text::trace::Trace;

/// What the interlock denied along a trace's events, which the world takes one after the other, up to the first that is refused; with
/// the stops at the ends of the shaft, where all are asked for. In a form.
pub fn denied_in(
    alloc: Global,
    world: &mut World,
    events: &Trace<'_>,
    form: Form,
    all: bool,
) -> Result<String, Stop>
    requires few { length events.now < 2 ^ 31 }
    ensures text { IfOk result (λ text. IsDeniedIn form all world.old.program.config world.old.world
        events.now world.new.world (string_bytes text)) }
    ensures stopped { IfErr result (IsStopped world.old.program.config world.old.world events.now) }
    ensures same { world.new.program ≡ world.old.program }
{
    let mut text = String::new(alloc);
    let mut report = Report::new();
    let mut round: u32 = 0;
    let mut left = events.events();
    let mut index = 0;
    'events: while let Some(event) = left.next() {
        match reply_to(world, &event, &mut report) {
            Ok(reply) => {
                round = round_behind(&event, round);
                put_denied(alloc, &mut text, form, all, &event, reply, &report, round)?;
            }
            Err(fault) => return Err(Stop::Refused(Refused { index, fault })),
        }
        index += 1;
    }
    Ok(text)
}

/// Writes the values of names after each round of a trace, whose events the world takes one after the other, up to the first that is
/// refused. A round ends where a refresh begins the next, and the last one at the end.
pub fn rows_along(
    world: &mut World,
    events: &Trace<'_>,
    watched: &[Watched<'_>],
    text: &mut String,
) -> Result<(), Stop>
    requires few { length events.now < 2 ^ 31 }
    ensures rows { OnOk result ((rows : List ℕ) × (string_bytes text.new ≡ string_bytes text.old
        ++ rows) × AreRowsAlong watched.now world.old.program.config world.old.world events.now
        world.new.world rows) }
    ensures stopped { IfErr result (IsStopped world.old.program.config world.old.world events.now) }
    ensures same { world.new.program ≡ world.old.program }
{
    let mut report = Report::new();
    let mut asked = Asked::new();
    let mut round: u32 = 0;
    let mut left = events.events();
    let mut index = 0;
    'events: while let Some(event) = left.next() {
        put_row_before(text, watched, &event, round, &asked, world)?;
        match reply_to(world, &event, &mut report) {
            Ok(reply) => {
                note_asked(&mut asked, &event, reply, &report);
                round = round_behind(&event, round);
            }
            Err(fault) => return Err(Stop::Refused(Refused { index, fault })),
        }
        index += 1;
    }
    put_row_of(text, watched, round, &asked, world)?;
    Ok(())
}

// The round after an event: a refresh begins one.
fn round_behind(event: &TraceEvent, round: u32) -> u32
    requires { round + 1 < 2 ^ 32 }
    ensures { result ≡ round_behind event.now round }
{
    match event {
        TraceEvent::Refresh(_) => round + 1,
        _ => round,
    }
}

// The denials of a refresh or a commit.
fn denials_in(reply: Reply, report: &Report) -> &[Denial]
    ensures { result.now ≡ denials_in (reply_with reply report.now) }
{
    match reply {
        Reply::Refreshed | Reply::Committed => report.denials.as_slice(),
        _ => &[],
    }
}

// What is printed of an event, in its round.
fn put_denied(
    alloc: Global,
    text: &mut String,
    form: Form,
    all: bool,
    event: &TraceEvent,
    reply: Reply,
    report: &Report,
    round: u32,
) -> Result<(), AllocError>
    ensures { OnOk result (Puts text.old text.new
        (denied_at form all event.now (reply_with reply report.now) round)) }
{
    match event {
        TraceEvent::Refresh(_) => {
            put_refresh(alloc, text, form, all, round, denials_in(reply, report))
        }
        TraceEvent::Commit(task) => {
            put_denials(alloc, text, form, round, denials_in(reply, report))?;
            put_answers(alloc, text, form, round, *task, answers_of(reply, report))
        }
        _ => Ok(()),
    }
}

// What is asked for after an event, by what the world replied to it.
fn note_asked(asked: &mut Asked, event: &TraceEvent, reply: Reply, report: &Report)
    ensures { asked.new ≡ asked_at event.now (reply_with reply report.now) asked.old }
{
    if let TraceEvent::Commit(task) = event {
        note_commit(asked, *task, reply, report);
    }
}

// What is asked for after a commit that has reported.
fn note_commit(asked: &mut Asked, task: u8, reply: Reply, report: &Report)
    ensures { asked.new ≡ asked_by task (reply_with reply report.now) asked.old }
{
    if let Reply::Committed = reply {
        asked.commit(task, report);
    }
}

// The row of the round that an event ends.
fn put_row_before(
    text: &mut String,
    watched: &[Watched<'_>],
    event: &TraceEvent,
    round: u32,
    asked: &Asked,
    world: &World,
) -> Result<(), AllocError>
    ensures { OnOk result (Puts text.old text.new
        (row_before watched.now event.now round asked.now world.now.world)) }
{
    match event {
        TraceEvent::Refresh(_) => put_row_of(text, watched, round, asked, world),
        _ => Ok(()),
    }
}

// The row of a round that is over; before the first refresh there is none.
fn put_row_of(
    text: &mut String,
    watched: &[Watched<'_>],
    round: u32,
    asked: &Asked,
    world: &World,
) -> Result<(), AllocError>
    ensures { OnOk result (Puts text.old text.new
        (row_of watched.now round asked.now world.now.world)) }
{
    if round == 0 {
        return Ok(());
    }
    put_row(text, round, asked, world, watched)
}
