// The cases, and the transcript of their runs.

use cli_command::program::{Outcome, tried};
use std::alloc::Global;
use std::io::Write;
use std::sync::Wait;
use std::thread::Threads;
use std::{io, str};
use test_files::line::{Line, line_of};
use test_files::shelf::Shelf;
use test_files::words::words_of;

// The file that is the standard input of a run.
const INPUT: &str = "input";

// The file that has the trace which the last run of `serve` wrote, if it wrote one.
const TRACE: &str = "traced";

/// What the lines so far have made: the files, and how many bytes the standard output of the next
/// run takes.
#[derive(Drop)]
pub struct Cases {
    alloc: Global,
    shelf: Shelf,
    limit: usize,
}

impl Cases {
    /// No file, and no limit.
    pub fn new(alloc: Global) -> Cases {
        Cases {
            alloc,
            shelf: Shelf::new(alloc),
            limit: usize::MAX,
        }
    }

    /// Does what a line says, and prints what it makes.
    pub fn take<R: Threads + Wait + Sync, W: Write + Drop>(
        &mut self,
        rt: &R,
        line: &str,
        to: &mut W,
    ) -> io::Result<()> {
        match line_of(line).ok_or(io::ErrorKind::InvalidData)? {
            Line::Begin(name) => Ok(self.shelf.begin(name, false)?),
            Line::Break(name) => Ok(self.shelf.begin(name, true)?),
            Line::Include(name) => self.shelf.include(name),
            Line::Text { times, text } => self.shelf.add_lines(times, text),
            Line::Bytes { times, bytes } => self.shelf.add_bytes(times, bytes),
            Line::Limit(limit) => {
                self.limit = limit;
                Ok(())
            }
            Line::Run(words) => {
                let outcome = self.outcome(rt, words)?;
                write_run(line, &outcome, to)
            }
            Line::Status(words) => {
                let outcome = self.outcome(rt, words)?;
                write_status(line, &outcome, to)
            }
            Line::Keep(words) => {
                let outcome = self.outcome(rt, words)?;
                self.shelf.add(outcome.out.bytes())?;
                write_status(line, &outcome, to)
            }
            Line::Count(start) => write!(to, "{line} -> {}\n", self.shelf.count(start)?),
            Line::Note => write!(to, "{line}\n"),
        }
    }

    // Runs the program on the words of a line.
    fn outcome<R: Threads + Wait + Sync>(&mut self, rt: &R, line: &str) -> io::Result<Outcome> {
        let words = words_of(self.alloc, line)?;
        let input = self.shelf.bytes(INPUT);
        let left = tried(rt, self.alloc, &words, &self.shelf, input, self.limit);
        self.limit = usize::MAX;
        if let Some(bytes) = left.trace.bytes() {
            self.shelf.begin(TRACE, false)?;
            self.shelf.add(bytes)?;
        }
        Ok(left)
    }
}

// Prints the words of a run, its exit status and all that it wrote. A `\` means the end of an
// output that ends within a line, and `! ` before each line of the standard error.
fn write_run<W: Write + Drop>(line: &str, outcome: &Outcome, to: &mut W) -> io::Result<()> {
    write!(to, "{line} -> {}\n", outcome.status.code())?;
    write_output(outcome.out.bytes(), to)?;
    write_errors(outcome.err.bytes(), to)
}

fn write_output<W: Write + Drop>(bytes: &[u8], to: &mut W) -> io::Result<()> {
    to.write_all(bytes)?;
    match bytes {
        [] | [.., b'\n'] => Ok(()),
        _ => to.write_all(b"\\\n"),
    }
}

fn write_errors<W: Write + Drop>(bytes: &[u8], to: &mut W) -> io::Result<()> {
    let Ok(text) = str::from_utf8(bytes) else {
        return Err(io::ErrorKind::InvalidData.into());
    };
    for line in text.lines() {
        write!(to, "! {line}\n")?;
    }
    Ok(())
}

// Prints the words of a run, its exit status and where it wrote something.
fn write_status<W: Write + Drop>(line: &str, outcome: &Outcome, to: &mut W) -> io::Result<()> {
    write!(to, "{line} -> {}", outcome.status.code())?;
    if !outcome.out.bytes().is_empty() {
        to.write_all(b", standard output")?;
    }
    if !outcome.err.bytes().is_empty() {
        to.write_all(b", standard error")?;
    }
    to.write_all(b"\n")
}
