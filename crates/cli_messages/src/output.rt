// What a program prints.

ghost use Rattle.std.specs.Prelude.{◌≡◌, true, false};
ghost use Rattle.std.specs.Io.KnownBytes.{Appends};
ghost use Rattle.cli_host.specs.Writes.{AppendsFront};
ghost use Rattle.cli_messages.specs.Outputs.{bytes_of, Warns};

use cli_host::sink::{Sink, put_all};
use group_spec::journal::Entry;
use trace_text::write::write_trace;

/// What a program prints: a text, a text with warnings for the standard error, the trace of a journal, or that with what is left of a run, for the
/// standard error.
#[derive(Drop)]
pub enum Output {
    Text(String),
    Warned(Warned),
    Trace(Vec<Entry>),
    Ran(Ran),
}

/// A text, and what is reported beside it.
#[derive(Drop)]
pub struct Warned {
    pub text: String,
    /// One line each.
    pub warnings: String,
}

/// A journal, and a line on what is left of its run.
#[derive(Drop)]
pub struct Ran {
    pub entries: Vec<Entry>,
    pub left: String,
}

impl Output {
    /// Writes it to a sink that hasn't failed. The answer is whether all of it was written.
    pub fn put<S: Sink>(&self, sink: &mut S) -> bool
        requires { S.has_failed sink.old ≡ false }
        ensures written { result ≡ true → Appends (S.contents sink.old) (S.contents sink.new)
            (bytes_of self.now) }
        ensures failed { result ≡ false → S.has_failed sink.new ≡ true }
        ensures front { result ≡ false → AppendsFront (S.contents sink.old) (S.contents sink.new)
            (bytes_of self.now) }
    {
        match self {
            Output::Text(text) => put_all(sink, text.as_bytes()).is_ok(),
            Output::Warned(warned) => put_all(sink, warned.text.as_bytes()).is_ok(),
            Output::Trace(entries) => write_trace(entries, sink).is_ok(),
            Output::Ran(ran) => write_trace(&ran.entries, sink).is_ok(),
        }
    }

    /// Writes what it has for the standard error, if it may have something. A sink that fails changes nothing.
    pub fn warn<S: Sink>(&self, sink: &mut S)
        ensures { Warns self.now (S.contents sink.old) (S.contents sink.new)
            (S.has_failed sink.new) }
    {
        match self {
            Output::Text(_) | Output::Trace(_) => {}
            Output::Warned(warned) => {
                let _ = put_all(sink, warned.warnings.as_bytes());
            }
            Output::Ran(ran) => {
                let _ = put_all(sink, ran.left.as_bytes());
            }
        }
    }
}
