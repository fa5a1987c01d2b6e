// How a program ends, and what it then says.

ghost use Rattle.std.specs.Prelude.{◌≡◌, ◌++◌, true, OnOk, OnErr, decimal};
ghost use Rattle.std.specs.Io.KnownBytes.{Appends};
ghost use Rattle.cli_host.specs.Writes.{AppendsFront};
ghost use Rattle.cli_host.specs.Messages.{message_of, scan_sentence, line_fault_number, status_of, code_of};

use crate::files::{Cause, ReadFault};
use crate::press::PressFault;
use crate::sink::{Sink, SinkFault, put_all};
use il_syntax::fault::Refusal;
use il_syntax::tree::Place;
use itoa::Buffer;
use std::alloc::AllocError;
use thiserror::Error;

/// How a program ends.
#[derive(Clone, Copy)]
pub enum Status {
    /// It has written its output.
    Done,
    /// The words or a file were refused.
    Refused,
    /// The file can't be read.
    CannotRead,
    /// The standard output can't be written.
    CannotWrite,
    /// An allocation failed.
    NoMemory,
}

/// Why `scan` shows no scan, and of which word.
#[derive(Clone, Copy)]
pub enum ScanFault {
    /// TASK is no task of the group.
    Task,
    /// The name after the period of TASK is no unit of the text.
    Unit,
    /// The word after `--round` is no number from 1 to 65535.
    Round,
    /// The word after `--until` is no line, and no two lines.
    Line,
    /// The trace commits no scan of TASK.
    Uncommitted,
    /// It commits none in the round after `--round`.
    UncommittedInRound,
}

impl ScanFault {
    /// What it says of its word.
    pub fn sentence(self) -> &'static str
        ensures { result.now ≡ scan_sentence self }
    {
        match self {
            ScanFault::Task => "the group has no such task",
            ScanFault::Unit => "the text has no such unit",
            ScanFault::Round => "no round: a number from 1 to 65535",
            ScanFault::Line => "no lines: LINE, FROM:LINE or FROM:, numbers from 1 to 65535",
            ScanFault::Uncommitted => "the trace commits no scan of this task",
            ScanFault::UncommittedInRound => "the trace commits no scan of the task in this round",
        }
    }
}

/// Why a line of `serve`'s input, of a trace or of a file of calls is refused (own rules). What an event breaks has numbers of its own.
#[derive(Clone, Copy, Debug, Error)]
pub enum LineFault {
    #[error("a field is out of its range")]
    OutOfRange,
    #[error("no more lines or events can be counted")]
    Full,
    #[error("this is no line of a trace, or of `serve`'s input")]
    BadLine,
    #[error("the lines end too early")]
    Truncated,
    #[error("this is no line of a file of calls")]
    BadCall,
    #[error("a file of calls has too many lines or bytes")]
    TooManyCalls,
}

impl LineFault {
    /// The number that is printed.
    pub fn number(self) -> u16
        ensures { result ≡ line_fault_number self }
    {
        match self {
            LineFault::OutOfRange => 60,
            LineFault::Full => 70,
            LineFault::BadLine => 80,
            LineFault::Truncated => 81,
            LineFault::BadCall => 83,
            LineFault::TooManyCalls => 84,
        }
    }
}

/// Why a program has no output.
#[derive(Drop)]
pub enum Fault {
    /// The words are wrong: what the parser says.
    Misuse(String),
    /// The text is refused with the number at the place.
    RefusedText { number: u16, place: Place },
    /// Another file is refused with the number at the line, counted from 1.
    Refused { number: u16, line: u32 },
    /// This word is no PRESS.
    BadPress(String),
    /// There are more than 1000 words for presses.
    TooManyPresses,
    /// This ROUND of `--fire` is no round of the simulation.
    BadFire(String),
    /// This word after `--rounds` says no rounds.
    BadSpan(String),
    /// There is no such scan, for what this word says.
    BadScan(ScanFault, String),
    /// This NAME of `watch` names nothing that has a value, and what is said of it.
    BadName { name: String, says: String },
    CannotRead(Cause),
    CannotWrite,
    NoMemory,
}

impl Status {
    /// The process's exit status.
    pub fn code(self) -> u8
        ensures { result ≡ code_of self }
    {
        match self {
            Status::Done => 0,
            Status::Refused => 2,
            Status::CannotRead => 3,
            Status::CannotWrite => 3,
            Status::NoMemory => 4,
        }
    }
}

impl From<Refusal> for Fault {
    ghost use Rattle.cli_host.specs.Messages.{fault_of};

    ghost from_gives = { λ r f. f ≡ fault_of r };

    fn from(refusal: Refusal) -> Fault {
        match refusal {
            Refusal::Fault { number, place } => Fault::RefusedText { number, place },
            Refusal::Memory => Fault::NoMemory,
        }
    }
}

impl From<ReadFault> for Fault {
    ghost use Rattle.cli_host.specs.Messages.{fault_of_reading};

    ghost from_gives = { λ r f. f ≡ fault_of_reading r };

    fn from(fault: ReadFault) -> Fault {
        match fault {
            ReadFault::CannotRead(cause) => Fault::CannotRead(cause),
            ReadFault::NoMemory => Fault::NoMemory,
        }
    }
}

impl From<PressFault> for Fault {
    ghost use Rattle.cli_host.specs.Messages.{fault_of_press};

    ghost from_gives = { λ p f. f ≡ fault_of_press p };

    fn from(fault: PressFault) -> Fault {
        match fault {
            PressFault::Bad(word) => Fault::BadPress(word),
            PressFault::TooMany => Fault::TooManyPresses,
            PressFault::NoMemory => Fault::NoMemory,
        }
    }
}

impl From<AllocError> for Fault {
    ghost use Rattle.std.specs.Prelude.{◌≡◌};
    ghost use Rattle.cli_host.specs.declared.status.Fault.TheVariants.{NoMemory};

    ghost from_gives = { λ _ f. f ≡ NoMemory };

    fn from(_error: AllocError) -> Fault {
        Fault::NoMemory
    }
}

impl Fault {
    /// How the program ends.
    pub fn status(&self) -> Status
        ensures { result ≡ status_of self.now }
    {
        match self {
            Fault::Misuse(_) => Status::Refused,
            Fault::RefusedText { .. } => Status::Refused,
            Fault::Refused { .. } => Status::Refused,
            Fault::BadPress(_) => Status::Refused,
            Fault::TooManyPresses => Status::Refused,
            Fault::BadFire(_) => Status::Refused,
            Fault::BadSpan(_) => Status::Refused,
            Fault::BadScan(_, _) => Status::Refused,
            Fault::BadName { .. } => Status::Refused,
            Fault::CannotRead(_) => Status::CannotRead,
            Fault::CannotWrite => Status::CannotWrite,
            Fault::NoMemory => Status::NoMemory,
        }
    }

    /// Writes what the program says of it.
    pub fn put<S: Sink>(&self, sink: &mut S) -> Result<(), SinkFault>
        ensures ok { OnOk result (Appends (S.contents sink.old) (S.contents sink.new)
            (message_of self.now)) }
        ensures failed { OnErr result (S.has_failed sink.new ≡ true) }
        ensures front { OnErr result (AppendsFront (S.contents sink.old) (S.contents sink.new)
            (message_of self.now)) }
    {
        match self {
            Fault::Misuse(text) => put_all(sink, text.as_bytes()),
            Fault::RefusedText { number, place } => put_refusal(sink, *number, place.line),
            Fault::Refused { number, line } => put_refusal(sink, *number, *line),
            Fault::BadPress(_) => put_all(sink, b"bad press\n"),
            Fault::TooManyPresses => put_all(sink, b"bad press\n"),
            Fault::BadFire(_) => put_all(sink, b"bad fire\n"),
            Fault::BadSpan(_) => put_all(sink, b"bad rounds\n"),
            Fault::BadScan(_, _) => put_all(sink, b"bad scan\n"),
            Fault::BadName { .. } => put_all(sink, b"bad name\n"),
            Fault::CannotRead(_) => put_all(sink, b"cannot read\n"),
            Fault::CannotWrite => put_all(sink, b"cannot write\n"),
            Fault::NoMemory => put_all(sink, b"no memory\n"),
        }
    }
}

// Writes that a text or another file is refused.
fn put_refusal<S: Sink>(sink: &mut S, number: u16, line: u32) -> Result<(), SinkFault>
    ensures ok { OnOk result (Appends (S.contents sink.old) (S.contents sink.new)
        (message_of (Fault.Refused number line))) }
    ensures failed { OnErr result (S.has_failed sink.new ≡ true) }
    ensures front { OnErr result (AppendsFront (S.contents sink.old) (S.contents sink.new)
        (message_of (Fault.Refused number line))) }
{
    put_numbered(sink, b"refused ", u32::from(number))?;
    put_numbered(sink, b" at line ", line)?;
    put_all(sink, b"\n")
}

// Writes a text and a number after it.
fn put_numbered<S: Sink>(sink: &mut S, text: &[u8], number: u32) -> Result<(), SinkFault>
    ensures ok { OnOk result (Appends (S.contents sink.old) (S.contents sink.new)
        (text.now ++ decimal number)) }
    ensures failed { OnErr result (S.has_failed sink.new ≡ true) }
    ensures front { OnErr result (AppendsFront (S.contents sink.old) (S.contents sink.new)
        (text.now ++ decimal number)) }
{
    put_all(sink, text)?;
    put_number(sink, number)
}

// Writes a decimal, without sign or leading zeros.
fn put_number<S: Sink>(sink: &mut S, number: u32) -> Result<(), SinkFault>
    ensures ok { OnOk result (Appends (S.contents sink.old) (S.contents sink.new)
        (decimal number)) }
    ensures failed { OnErr result (S.has_failed sink.new ≡ true) }
    ensures front { OnErr result (AppendsFront (S.contents sink.old) (S.contents sink.new)
        (decimal number)) }
{
    let mut buffer = Buffer::new();
    put_all(sink, buffer.format(number).as_bytes())
}
