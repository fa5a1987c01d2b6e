// The events of a trace that was read, which stay in its text.

ghost use Rattle.std.specs.Prelude.{◌≡◌, ◌≤◌, ◌<◌, ◌+◌, ℕ, List, [], ◌∷◌, ◌++◌, ◌↔◌, length, slice_get, IfSome, IfNone, IfOk, IsTrue, MatchOption, Some};
ghost use base.Fml.{ftrue};
ghost use Rattle.group_spec.specs.declared.trace.TraceEvent.{TraceEvent as EventOf};
ghost use Rattle.trace_text.specs.Told.{events_code, BeginsWith, IsTextOf};
ghost use Rattle.trace_text.specs.Text.{line_of, IsTraced};
ghost use Rattle.trace_text.specs.Reading.{greatest_trace};

use crate::event::event;
use crate::format::Format;
use crate::parts::split_line;
use crate::short::short_line;
use group_spec::trace::TraceEvent;
use std::alloc::{AllocError, Global};
use std::marker::Model;

// What the lines of a text say. It exists only in proofs.
#[derive(Drop)]
pub(crate) struct Told {
    pub ghost events: { List EventOf } by { events_code },
}

impl Model for Told {
    ghost also_owns = { λ _. ftrue };
}

impl Told {
    // Nothing.
    pub(crate) fn new() -> Told
        ensures { result.events ≡ [] }
    {
        Told {}
    }

    // One event more.
    #[inline(always)]
    pub(crate) fn then(&self, _event: &TraceEvent) -> Told
        ensures { result.events ≡ self.now.events ++ _event.now ∷ [] }
    {
        Told {}
    }
}

/// The events of a trace that was read. They stay in its text, and each is read again when it is asked for, so that a long
/// trace takes no memory beside its text. Contracts see the list of the events.
#[derive(Drop)]
pub struct Trace<'t> {
    format: Format,
    cars: u8,
    lines: &'t [u8],
    count: usize,
    told: Told,
}

impl<'t> Model for Trace<'t> {
    ghost use Rattle.std.specs.Prelude.{List};
    ghost use Rattle.group_spec.specs.declared.trace.TraceEvent.{TraceEvent as EventOf};
    ghost use Rattle.trace_text.specs.Told.{IsTextOf};

    ghost Value = { List EventOf };

    ghost view = { λ t. t.told.events };

    ghost invariant = { λ t. IsTextOf t.format t.cars t.lines.now t.count t.told.events };
}

impl<'t> Trace<'t> {
    // The events that these lines say.
    pub(crate) fn of(
        format: Format,
        cars: u8,
        lines: &'t [u8],
        count: usize,
        told: Told,
    ) -> Trace<'t>
        requires { IsTextOf format cars lines.now count told.events }
        ensures { result ≡ told.events }
    {
        Trace {
            format,
            cars,
            lines,
            count,
            told,
        }
    }

    /// How many events there are.
    pub fn len(&self) -> usize
        ensures is { result ≡ length self.now }
        ensures few { length self.now ≤ greatest_trace }
    {
        self.count
    }

    /// Whether there is none.
    pub fn is_empty(&self) -> bool
        ensures { IsTrue result ↔ (self.now ≡ []) }
    {
        self.count == 0
    }

    /// The events, from the first one on.
    pub fn events(&self) -> Events<'_>
        ensures { result ≡ (self.now, 0) }
    {
        Events {
            format: self.format,
            cars: self.cars,
            rest: self.lines,
            count: self.count,
            index: 0,
            told: &self.told,
        }
    }

    /// The events as a list in memory.
    pub fn to_vec(&self, alloc: Global) -> Result<Vec<TraceEvent>, AllocError>
        ensures { IfOk result (λ events. events.items ≡ self.now) }
    {
        let mut list = Vec::new(alloc);
        let mut events = self.events();
        'events: while let Some(event) = events.next() {
            list.push(event)?;
        }
        Ok(list)
    }
}

/// The events of a trace, one after another. Contracts see all of them, and how many were taken.
#[derive(Drop)]
pub struct Events<'a> {
    format: Format,
    cars: u8,
    rest: &'a [u8],
    count: usize,
    index: usize,
    told: &'a Told,
}

impl<'a> Model for Events<'a> {
    ghost use Rattle.std.specs.Prelude.{ℕ, List};
    ghost use Rattle.group_spec.specs.declared.trace.TraceEvent.{TraceEvent as EventOf};
    ghost use Rattle.trace_text.specs.Told.{IsLeftOf};

    ghost Value = { List EventOf × ℕ };

    ghost view = { λ e. (e.told.now.events, e.index) };

    ghost invariant = { λ e. IsLeftOf e.format e.cars e.rest.now e.count e.index e.told.now.events };
}

impl<'a> Events<'a> {
    /// The next event, which is read from its line; none at the end.
    #[inline(always)]
    pub fn next(&mut self) -> Option<TraceEvent>
        ensures found { MatchOption result (self.old.1 ≡ length self.old.0)
            (λ e. slice_get self.old.0 self.old.1 ≡ Some e) }
        ensures all { self.new.0 ≡ self.old.0 }
        ensures moves { IfSome result (λ _. self.new.1 ≡ self.old.1 + 1) }
        ensures stays { IfNone result (self.new.1 ≡ self.old.1) }
        ensures within { self.new.1 ≤ length self.new.0 }
        ensures few { length self.new.0 ≤ greatest_trace }
    {
        if self.index == self.count {
            return None;
        }
        let (event, rest) = first_event(self.format, self.cars, self.rest);
        self.rest = rest;
        self.index += 1;
        Some(event)
    }
}

// The event of the first line, and the text after it.
#[inline(always)]
fn first_event(format: Format, cars: u8, text: &[u8]) -> (TraceEvent, &[u8])
    requires { (e : EventOf) × (behind : List ℕ) × IsTraced format cars e
        × (text.now ≡ line_of format e ++ (10 ∷ behind)) }
    ensures { (e : EventOf) (behind : List ℕ) → IsTraced format cars e → text.now
        ≡ line_of format e ++ (10 ∷ behind) → (result.0 ≡ e) × (result.1.now ≡ behind) }
{
    if let Some((short, behind)) = short_line(text) {
        return (short.event(), behind);
    }
    let Some((line, behind)) = split_line(text) else {
        unreachable!()
    };
    match event(format, cars, line) {
        Some(event) => (event, behind),
        None => unreachable!(),
    }
}
