// A group driven by lines.

ghost use Rattle.std.specs.Prelude.{◌≡◌, ◌≢◌, ◌≤◌, ◌⊎◌, ◌++◌, ◌+◌, ◌∷◌, [], ℕ, List, Bool, true, length, OnOk, OnErr, IfOk, IfErr, None, string_bytes, map, flat_map};
ghost use Rattle.std.specs.Io.KnownBytes.{Appends};
ghost use Rattle.base_texts.specs.Puts.{Puts};
ghost use Rattle.group_spec.specs.declared.trace.TraceEvent.TheVariants.{Gather};
ghost use Rattle.group_spec.specs.Image.{sizes_of, FieldsInRange, Obeys, opening_image};
ghost use Rattle.group_journal.specs.Closed.{IsClosed};
ghost use Rattle.trace_text.specs.Text.{last_line};
ghost use Rattle.trace_text.specs.Writing.{events_text};
ghost use Rattle.group_journal.specs.Rounds.{TakesAll, counting_from};
ghost use Rattle.serve_lines.specs.Saying.{scan_events, events_of, Says, IsSpelled, IsTaken};
ghost use Rattle.serve_lines.specs.Answers.{Acts, greatest_answer, outputs_line};
ghost use Rattle.serve_lines.specs.Serving.{IsServer, IsUntraced, traced_text, record_text, is_end};
ghost use Rattle.serve_lines.specs.Between.{config_of, world_of, IsUnanswered, IsHeard, IsUnheard};
ghost use Rattle.serve_lines.specs.declared.said.Said.{Said as SaidOf};

use crate::act::act;
use crate::answer::put_outputs;
use crate::said::{Said, WrongLine, is_call, read_said};
use cli_host::sink::{Sink, put_all};
use group_rounds::kept::Rounds;
use group_spec::{MOST_CARS, Sizes};
use group_world::World;
use itoa::Buffer;
use scan_task::opening_image;
use std::alloc::{AllocError, Global};
use thiserror::Error;

/// Why a line isn't answered.
#[derive(Clone, Copy, Debug, Error)]
pub enum ServeFault {
    #[error("the line says nothing to the group")]
    WrongLine(WrongLine),
    #[error("the trace can't be written")]
    Trace,
    #[error("the answer can't be written")]
    Output,
    /// An allocation failed.
    #[error("out of memory")]
    Memory,
    #[error("the events of the line can't be counted any more")]
    Full,
}

/// A group driven by lines: with what is traced of each of its rounds, with the stop, and with room for an answer and for what is traced of a
/// line.
pub struct Server {
    pub rounds: Rounds,
    pub gathers: String,
    pub scans: String,
    pub stop: String,
    pub answer: String,
    pub traced: Vec<u8>,
    pub count: u64,
}

// Written by hand, since who drops a type whose drop is derived proves the drop of each type inside again.
impl Drop for Server {
    fn drop(self) {
        let Server {
            rounds: _rounds,
            gathers: _gathers,
            scans: _scans,
            stop: _stop,
            answer: _answer,
            traced: _traced,
            count: _count,
        } = self;
    }
}

// The lines that are traced of the gatherings of a round.
#[tactic(auto, unfolding(trace_text::specs::Text::line_of))]
fn gathers_text(alloc: Global, floors: u8) -> Result<String, AllocError>
    ensures { IfOk result (λ text. string_bytes text
        ≡ events_text (map Gather (counting_from 1 floors))) }
{
    let mut text = String::new(alloc);
    'floors: for below in 0..floors {
        put_gather(&mut text, below + 1)?;
    }
    Ok(text)
}

#[tactic(auto, unfolding(trace_text::specs::Text::line_of))]
pub(crate) fn put_gather(text: &mut String, floor: u8) -> Result<(), AllocError>
    ensures { OnOk result (Puts text.old text.new (events_text (Gather floor ∷ []))) }
{
    writeln!(text, "G {}", floor)
}

#[tactic(auto, unfolding(trace_text::specs::Text::line_of))]
fn put_scan(text: &mut String, task: u8) -> Result<(), AllocError>
    ensures { OnOk result (Puts text.old text.new (events_text (scan_events task))) }
{
    writeln!(text, "S {}", task)?;
    writeln!(text, "C {}", task)
}

// The lines that are traced of a scan of each of some tasks.
fn scans_text(alloc: Global, tasks: &[u8]) -> Result<String, AllocError>
    ensures { IfOk result (λ text. string_bytes text
        ≡ events_text (flat_map scan_events tasks.now)) }
{
    let mut text = String::new(alloc);
    'tasks: for task in tasks {
        put_scan(&mut text, *task)?;
    }
    Ok(text)
}

fn put_line(traced: &mut Vec<u8>, line: &[u8]) -> Result<(), AllocError>
    ensures { OnOk result (traced.new.items ≡ traced.old.items ++ (line.now ++ 10 ∷ [])) }
{
    traced.extend_from_slice(line)?;
    Ok(traced.push(b'\n')?)
}

#[tactic(auto, unfolding(trace_text::specs::Text::last_line))]
fn put_end(traced: &mut Vec<u8>, count: u64) -> Result<(), AllocError>
    ensures { OnOk result (traced.new.items ≡ traced.old.items ++ (last_line count ++ 10 ∷ [])) }
{
    let mut buffer = Buffer::new();
    traced.extend_from_slice(b"E ")?;
    traced.extend_from_slice(buffer.format(count).as_bytes())?;
    Ok(traced.push(b'\n')?)
}

// What is traced of a line, by the texts of its group.
fn put_said(
    traced: &mut Vec<u8>,
    gathers: &[u8],
    scans: &[u8],
    line: &[u8],
    count: u64,
    sizes: Sizes,
    said: &Said,
) -> Result<(), AllocError>
    requires empty { traced.old.items ≡ [] }
    ensures text { OnOk result (traced.new.items
        ≡ record_text gathers.now scans.now line.now count sizes said.now) }
{
    match said {
        Said::Round(_) => {
            traced.extend_from_slice(gathers)?;
            put_line(traced, line)?;
            traced.extend_from_slice(scans)
        }
        Said::Press(call) => {
            if is_call(*call, sizes) {
                put_line(traced, line)
            } else {
                Ok(())
            }
        }
        Said::End => put_end(traced, count),
    }
}

impl Server {
    /// A group that goes on from a world between scans, of which so many events are traced.
    pub fn of(alloc: Global, world: World, count: u64) -> Result<Server, AllocError>
        requires { IsClosed world.world }
        ensures server { IfOk result IsServer }
        ensures begins { IfOk result (λ s. (s.rounds.world ≡ world) × (s.count ≡ count)) }
    {
        let rounds = Rounds::of(world);
        let _config = rounds.world.verified().config();
        let gathers = gathers_text(alloc, rounds.world.sizes().floors)?;
        let scans = scans_text(alloc, rounds.tasks.as_slice())?;
        let stop = stop_of(alloc, rounds.world.sizes())?;
        Ok(Server {
            rounds,
            gathers,
            scans,
            stop,
            answer: String::with_capacity(alloc, 8192)?,
            traced: Vec::with_capacity(alloc, 4096)?,
            count,
        })
    }

    // How many events are traced of it.
    fn events_in(&self, said: &Said) -> u64
        requires { IsServer self.now }
        ensures { result ≡ length (events_of (config_of self.now) said.now) }
    {
        let _config = self.rounds.world.verified().config();
        match said {
            Said::Round(_) => {
                u64::from(self.rounds.world.sizes().floors)
                    + (1 + 2 * self.rounds.tasks.len() as u64)
            }
            Said::Press(call) => u64::from(is_call(*call, self.rounds.world.sizes())),
            Said::End => 0,
        }
    }

    // What a line says is traced.
    fn trace_said<T: Sink>(
        &mut self,
        line: &[u8],
        said: &Said,
        trace: &mut T,
    ) -> Result<(), ServeFault>
        requires server { IsServer self.old }
        requires says { Says (config_of self.old) line.now said.now }
        ensures traced { OnOk result (Appends (T.contents trace.old) (T.contents trace.new)
            (traced_text (config_of self.old) said.now self.old.count)) }
        ensures counted { OnOk result (self.new.count
            ≡ self.old.count + length (events_of (config_of self.old) said.now)) }
        ensures fault { IfErr result (IsUntraced (config_of self.old) said.now self.old.count
            (T.contents trace.old) (T.contents trace.new) (T.has_failed trace.new)) }
        ensures silent { T.contents trace.old ≡ None → T.contents trace.new ≡ None }
        ensures made { T.made trace.new ≡ T.made trace.old }
        ensures same { self.new.rounds.world ≡ self.old.rounds.world }
        ensures tasks { self.new.rounds.tasks ≡ self.old.rounds.tasks }
        ensures notices { self.new.rounds.notices ≡ self.old.rounds.notices }
        ensures report { self.new.rounds.report ≡ self.old.rounds.report }
        ensures stop { self.new.stop ≡ self.old.stop }
        ensures server { IsServer self.new }
    {
        let Some(count) = self.count.checked_add(self.events_in(said)) else {
            return Err(ServeFault::Full);
        };
        self.traced.clear();
        let gathers = self.gathers.as_bytes();
        let scans = self.scans.as_bytes();
        let sizes = self.rounds.world.sizes();
        let count_before = self.count;
        if put_said(
            &mut self.traced,
            gathers,
            scans,
            line,
            count_before,
            sizes,
            said,
        )
        .is_err()
        {
            return Err(ServeFault::Memory);
        }
        if put_all(trace, &self.traced).is_err() {
            return Err(ServeFault::Trace);
        }
        self.count = count;
        Ok(())
    }

    // What is said is done, and answered.
    fn answer_said<O: Sink>(&mut self, said: Said, out: &mut O) -> Result<(), ServeFault>
        requires server { IsServer self.old }
        requires numbers { IsSpelled (config_of self.old) said }
        requires taken { IsTaken (config_of self.old) said }
        ensures answered { OnOk result ((text : List ℕ)
            × Acts (config_of self.old) said (world_of self.old) (world_of self.new) text
            × Appends (O.contents out.old) (O.contents out.new) text) }
        ensures fault { IfErr result (IsUnanswered O.Sink self.old self.new said out.old out.new) }
        ensures same { self.new.rounds.world.program ≡ self.old.rounds.world.program }
        ensures count { self.new.count ≡ self.old.count }
        ensures stop { self.new.stop ≡ self.old.stop }
        ensures server { OnOk result (IsServer self.new) }
    {
        self.answer.clear();
        let acted = act(&mut self.rounds, said, self.stop.as_str(), &mut self.answer);
        if acted.is_err() {
            return Err(ServeFault::Memory);
        }
        if put_all(out, self.answer.as_bytes()).is_err() {
            return Err(ServeFault::Output);
        }
        Ok(())
    }

    /// A line: what it says is traced, done and answered. The answer is whether it is the end.
    pub fn hear<O: Sink, T: Sink>(
        &mut self,
        line: &[u8],
        out: &mut O,
        trace: &mut T,
    ) -> Result<bool, ServeFault>
        requires { IsServer self.old }
        ensures heard { IfOk result (IsHeard O.Sink T.Sink self.old self.new line.now out.old out.new
            trace.old trace.new) }
        ensures unheard { IfErr result (IsUnheard O.Sink T.Sink self.old line.now out.old out.new
            trace.old trace.new) }
        ensures silent { T.contents trace.old ≡ None → T.contents trace.new ≡ None }
        ensures made { T.made trace.new ≡ T.made trace.old }
        ensures same { self.new.rounds.world.program ≡ self.old.rounds.world.program }
        ensures stop { self.new.stop ≡ self.old.stop }
        ensures server { OnOk result (IsServer self.new) }
        // the events that are traced of the line lead to the world after it
        ensures replays { OnOk result ((said : SaidOf)
            × Says (config_of self.old) line.now said × TakesAll (config_of self.old)
            (world_of self.old) (events_of (config_of self.old) said) (world_of self.new)) }
        ensures ranges { OnOk result (FieldsInRange (sizes_of (config_of self.old))
            (world_of self.new).group.image.fields) }
        ensures obeys { OnOk result (Obeys (world_of self.new).group.image) }
    {
        let said = match read_said(&self.rounds.world, line) {
            Ok(said) => said,
            Err(why) => return Err(ServeFault::WrongLine(why)),
        };
        let ended = is_last(&said);
        self.trace_said(line, &said, trace)?;
        if let Err(fault) = self.answer_said(said, out) {
            return Err(fault);
        }
        let _image = self.rounds.world.image();
        Ok(ended)
    }
}

// The stop of a group of these sizes, as a line.
fn stop_of(alloc: Global, sizes: Sizes) -> Result<String, AllocError>
    requires { sizes.cars ≤ MOST_CARS }
    ensures line { IfOk result (λ text. string_bytes text
        ≡ outputs_line (opening_image sizes).outputs) }
    ensures short { IfOk result (λ text. length (string_bytes text) ≤ greatest_answer) }
{
    let outputs = &opening_image(sizes).outputs;
    let _cars = outputs.len();
    let mut text = String::new(alloc);
    put_outputs(&mut text, outputs.as_slice())?;
    Ok(text)
}

// Whether it is the end.
fn is_last(said: &Said) -> bool
    ensures { result ≡ is_end said.now }
{
    match said {
        Said::Round(_) | Said::Press(_) => false,
        Said::End => true,
    }
}
