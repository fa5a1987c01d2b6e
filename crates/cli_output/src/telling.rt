// What a command reports of a trace.

ghost use Rattle.std.specs.Prelude.{◌≡◌};
ghost use Rattle.cli_output.specs.Tellings.{telling_of};

use base_json::form::Form;
use cli_host::request::{Following, Traced, Words};

/// What a command reports of a trace.
#[derive(Clone, Copy)]
pub enum Telling<'w> {
    /// The image after it.
    Image,
    /// A picture of the rounds that a word says, or of all.
    Picture(Option<&'w str>),
    /// Its calls: a row of each in a form, or where `true` a summary.
    Calls(Form, bool),
    /// What the interlock denied along it, in a form; where `true` also the stops at the ends of the shaft.
    Denials(Form, bool),
    /// The values of names after each of its rounds; where `true` without the rounds that repeat those of the round before.
    Values(Words<'w>, bool),
}

impl<'w> Telling<'w> {
    /// What a command reports of a whole trace, with what it takes; `scan` shows a part of one.
    pub fn of(command: Following, traced: Traced<'w>) -> Option<Telling<'w>>
        ensures { result ≡ telling_of command traced.entry }
    {
        match command {
            Following::Replay => Some(Telling::Image),
            Following::Draw => Some(Telling::Picture(traced.span)),
            Following::Calls => Some(Telling::Calls(Form::of(traced.json), traced.flag)),
            Following::Denials => Some(Telling::Denials(Form::of(traced.json), traced.flag)),
            Following::Watch => Some(Telling::Values(traced.names, traced.flag)),
            Following::Scan => None,
        }
    }
}
