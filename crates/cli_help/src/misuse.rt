// What is wrong with words that the parser of the command line takes, and that ask for nothing.

use crate::table::EXPLAIN;
use clap::Command;
use clap::error::ErrorKind;
use cli_host::request::{
    CALLS, CUT, FIRE, FROM, MOST_ROUNDS, Name, ROUNDS, Simulating, TRACE, is_digits, is_option,
    number_to,
};
use cli_host::serving::{SYNC, is_serve};
use std::alloc::{AllocError, Global};

// The option `--fire`, as it is shown.
const FIRE_SHOWN: &str = "--fire <ROUND>";

// The option `--calls`, as it is shown.
const CALLS_SHOWN: &str = "--calls <CALLS>";

// The option `--rounds`, as it is shown.
const ROUNDS_SHOWN: &str = "--rounds <A:B>";

// The option `--trace`, as it is shown.
const TRACE_SHOWN: &str = "--trace <TRACE>";

// The option `--from`, as it is shown.
const FROM_SHOWN: &str = "--from <OLD>";

/// What is wrong with words that the parser takes.
#[derive(Drop)]
pub enum Misuse<'w> {
    /// A word is where none may, or begins with `-`.
    Unexpected(&'w str),
    /// No value follows an option that needs one.
    NoValue(&'static str),
    /// An option is twice.
    Twice(&'static str),
    /// An option is without what it is for.
    Alone(Lone),
    /// ROUNDS is no decimal in its range.
    Rounds(&'w str),
    /// NUMBER is none of a fault or a refusal.
    Number(&'w str),
    /// No NAME comes before the calls of `watch`.
    NoName,
    /// A command or its FILE is missing.
    Missing,
}

// An option, and what it is beside.
#[derive(Clone, Copy)]
pub struct Lone {
    option: &'static str,
    beside: &'static str,
}

// `--sync` without `--trace`.
const SYNC_ALONE: Lone = Lone {
    option: SYNC,
    beside: "'--trace <TRACE>'",
};

// `--from` without `--trace`.
const FROM_ALONE: Lone = Lone {
    option: FROM_SHOWN,
    beside: "'--trace <TRACE>'",
};

// `--cut` without a trace.
const CUT_ALONE: Lone = Lone {
    option: CUT,
    beside: "a TRACE",
};

// `--fire` at a trace.
const FIRE_ALONE: Lone = Lone {
    option: FIRE_SHOWN,
    beside: "ROUNDS",
};

// `--calls` at a trace.
const CALLS_ALONE: Lone = Lone {
    option: CALLS_SHOWN,
    beside: "ROUNDS",
};

/// What is wrong with words that ask for nothing, though the parser takes them.
pub fn misuse_of(words: &[String]) -> Misuse<'_> {
    match words {
        [command, number] if command.as_str() == EXPLAIN => Misuse::Number(number),
        [command, rest @ ..] if is_serve(command) => misuse_of_serve(rest),
        [command, rest @ ..] => misuse_behind(Name::of(command), rest),
        [] => Misuse::Missing,
    }
}

// What is wrong with words after a command's name.
fn misuse_behind(name: Option<Name>, words: &[String]) -> Misuse<'_> {
    match name {
        Some(Name::Rounds(command)) => misuse_of_seen(Some(command), words),
        Some(Name::Trace(_)) => misuse_of_seen(None, words),
        _ => first_option(words).unwrap_or(Misuse::Missing),
    }
}

// The first word that begins with `-`.
fn first_option(words: &[String]) -> Option<Misuse<'_>> {
    let word = words.iter().find(|word| is_option(word))?;
    Some(Misuse::Unexpected(word))
}

// What was seen so far of the words after a command.
#[derive(Clone, Copy)]
struct Seen {
    /// How many words there were.
    words: usize,
    /// Whether there was one in the place of FILE.
    file: bool,
    /// Where the next one is, and the one after that, from 0 on.
    second: Option<usize>,
    third: Option<usize>,
    /// The option whose value is next.
    needs_value: Option<Valued>,
    fire: bool,
    calls: bool,
    rounds: bool,
    cut: bool,
}

// An option with a value.
#[derive(Clone, Copy)]
enum Valued {
    Fire,
    Calls,
    Rounds,
}

impl Valued {
    // The option that a word is.
    fn of(word: &str) -> Option<Valued> {
        if word == FIRE {
            Some(Valued::Fire)
        } else if word == CALLS {
            Some(Valued::Calls)
        } else if word == ROUNDS {
            Some(Valued::Rounds)
        } else {
            None
        }
    }

    // As it is shown.
    fn shown(self) -> &'static str {
        match self {
            Valued::Fire => FIRE_SHOWN,
            Valued::Calls => CALLS_SHOWN,
            Valued::Rounds => ROUNDS_SHOWN,
        }
    }
}

// What is wrong with a word after others.
#[derive(Clone, Copy)]
enum Wrong {
    Unexpected,
    NoValue(&'static str),
    Twice(&'static str),
}

impl Wrong {
    fn misuse<'w>(self, word: &'w str) -> Misuse<'w> {
        match self {
            Wrong::Unexpected => Misuse::Unexpected(word),
            Wrong::NoValue(option) => Misuse::NoValue(option),
            Wrong::Twice(option) => Misuse::Twice(option),
        }
    }
}

impl Seen {
    // Nothing so far.
    fn nothing() -> Seen {
        Seen {
            words: 0,
            file: false,
            second: None,
            third: None,
            needs_value: None,
            fire: false,
            calls: false,
            rounds: false,
            cut: false,
        }
    }

    // What was seen, and a word more.
    fn with(self, word: &str) -> Result<Seen, Wrong> {
        let seen = self.with_word(word)?;
        Ok(Seen {
            words: self.words.saturating_add(1),
            ..seen
        })
    }

    fn with_word(self, word: &str) -> Result<Seen, Wrong> {
        if let Some(option) = self.needs_value {
            return self.with_value(option, word);
        }
        if let Some(option) = Valued::of(word) {
            return self.with_option(option);
        }
        if word == CUT {
            return self.with_cut();
        }
        if is_option(word) {
            return Err(Wrong::Unexpected);
        }
        Ok(self.with_place())
    }

    fn with_value(self, option: Valued, word: &str) -> Result<Seen, Wrong> {
        if is_option(word) {
            return Err(Wrong::NoValue(option.shown()));
        }
        Ok(Seen {
            needs_value: None,
            ..self
        })
    }

    fn with_option(self, option: Valued) -> Result<Seen, Wrong> {
        if self.has(option) {
            return Err(Wrong::Twice(option.shown()));
        }
        let mut seen = self;
        seen.needs_value = Some(option);
        match option {
            Valued::Fire => seen.fire = true,
            Valued::Calls => seen.calls = true,
            Valued::Rounds => seen.rounds = true,
        }
        Ok(seen)
    }

    fn has(self, option: Valued) -> bool {
        match option {
            Valued::Fire => self.fire,
            Valued::Calls => self.calls,
            Valued::Rounds => self.rounds,
        }
    }

    fn with_cut(self) -> Result<Seen, Wrong> {
        if self.cut {
            return Err(Wrong::Twice(CUT));
        }
        Ok(Seen { cut: true, ..self })
    }

    fn with_place(self) -> Seen {
        let mut seen = self;
        if !self.file {
            seen.file = true;
        } else if self.second.is_none() {
            seen.second = Some(self.words);
        } else if self.third.is_none() {
            seen.third = Some(self.words);
        }
        seen
    }
}

// What was seen of words, or which one is wrong.
fn seen_of(words: &[String]) -> Result<Seen, Misuse<'_>> {
    let mut seen = Seen::nothing();
    for word in words {
        match seen.with(word) {
            Ok(next) => seen = next,
            Err(wrong) => return Err(wrong.misuse(word)),
        }
    }
    match seen.needs_value {
        Some(option) => Err(Misuse::NoValue(option.shown())),
        None => Ok(seen),
    }
}

// A word at its place.
fn word_at(words: &[String], place: Option<usize>) -> Option<&str> {
    let word = words.get(place?)?;
    Some(word)
}

// What is wrong with words after a command that simulates, if it is one.
fn misuse_of_seen(command: Option<Simulating>, words: &[String]) -> Misuse<'_> {
    match (seen_of(words), command) {
        (Err(misuse), _) => misuse,
        (Ok(seen), Some(command)) => misuse_of_rounds(command, seen, words),
        (Ok(_), None) => Misuse::Missing,
    }
}

// What is wrong with the words of a simulation, each option of which is well formed.
fn misuse_of_rounds(command: Simulating, seen: Seen, words: &[String]) -> Misuse<'_> {
    let Some(second) = word_at(words, seen.second) else {
        return Misuse::Missing;
    };
    match command {
        Simulating::Denials if !is_digits(second) => misuse_at_trace(seen, words),
        Simulating::Watch if !is_digits(second) => misuse_at_trace(seen, words),
        _ if seen.cut => Misuse::Alone(CUT_ALONE),
        _ if number_to(MOST_ROUNDS, second).is_some() => Misuse::NoName,
        _ => Misuse::Rounds(second),
    }
}

// What is wrong with words after `denials` or `watch`, where they have a trace.
fn misuse_at_trace(seen: Seen, words: &[String]) -> Misuse<'_> {
    if seen.fire {
        return Misuse::Alone(FIRE_ALONE);
    }
    if seen.calls {
        return Misuse::Alone(CALLS_ALONE);
    }
    match word_at(words, seen.third) {
        Some(word) => Misuse::Unexpected(word),
        None => Misuse::NoName,
    }
}

// What was seen so far of the words after `serve`.
#[derive(Clone, Copy)]
struct Served {
    /// The option whose value is next, as it is shown.
    needs_value: Option<&'static str>,
    from: bool,
    trace: bool,
    sync: bool,
}

impl Served {
    // What was seen of `serve`, and a word more.
    fn with(self, word: &str) -> Result<Served, Wrong> {
        if let Some(option) = self.needs_value {
            return self.with_value(option, word);
        }
        if word == FROM {
            return self.with_from();
        }
        if word == TRACE {
            return self.with_trace();
        }
        if word == SYNC {
            return self.with_sync();
        }
        if is_option(word) {
            return Err(Wrong::Unexpected);
        }
        Ok(self)
    }

    fn with_value(self, option: &'static str, word: &str) -> Result<Served, Wrong> {
        if is_option(word) {
            return Err(Wrong::NoValue(option));
        }
        Ok(Served {
            needs_value: None,
            ..self
        })
    }

    fn with_from(self) -> Result<Served, Wrong> {
        if self.from {
            return Err(Wrong::Twice(FROM_SHOWN));
        }
        Ok(Served {
            needs_value: Some(FROM_SHOWN),
            from: true,
            ..self
        })
    }

    fn with_trace(self) -> Result<Served, Wrong> {
        if self.trace {
            return Err(Wrong::Twice(TRACE_SHOWN));
        }
        Ok(Served {
            needs_value: Some(TRACE_SHOWN),
            trace: true,
            ..self
        })
    }

    fn with_sync(self) -> Result<Served, Wrong> {
        if self.sync {
            return Err(Wrong::Twice(SYNC));
        }
        Ok(Served { sync: true, ..self })
    }

    // What is wrong with words, each of which may be there.
    fn misuse<'w>(self) -> Misuse<'w> {
        match self.needs_value {
            Some(option) => Misuse::NoValue(option),
            None if self.trace => Misuse::Missing,
            None if self.from => Misuse::Alone(FROM_ALONE),
            None if self.sync => Misuse::Alone(SYNC_ALONE),
            None => Misuse::Missing,
        }
    }
}

// What is wrong with words after `serve`.
fn misuse_of_serve(words: &[String]) -> Misuse<'_> {
    let mut served = Served {
        needs_value: None,
        from: false,
        trace: false,
        sync: false,
    };
    for word in words {
        match served.with(word) {
            Ok(next) => served = next,
            Err(wrong) => return wrong.misuse(word),
        }
    }
    served.misuse()
}

/// What the parser would say of the misuse.
pub fn error_of(
    alloc: Global,
    command: &mut Command<'_>,
    misuse: Misuse<'_>,
) -> Result<clap::Error, AllocError> {
    let text = text_of(alloc, &misuse)?;
    command.error(kind_of(&misuse), &text)
}

// The parser's kind of the misuse.
fn kind_of(misuse: &Misuse<'_>) -> ErrorKind {
    match misuse {
        Misuse::Unexpected(_) => ErrorKind::UnknownArgument,
        Misuse::NoValue(_) => ErrorKind::InvalidValue,
        Misuse::Twice(_) => ErrorKind::ArgumentConflict,
        Misuse::Alone(_) => ErrorKind::MissingRequiredArgument,
        Misuse::Rounds(_) => ErrorKind::ValueValidation,
        Misuse::Number(_) => ErrorKind::ValueValidation,
        Misuse::NoName => ErrorKind::MissingRequiredArgument,
        Misuse::Missing => ErrorKind::MissingRequiredArgument,
    }
}

// The text of the misuse.
fn text_of(alloc: Global, misuse: &Misuse<'_>) -> Result<String, AllocError> {
    match misuse {
        Misuse::Unexpected(word) => format!(in alloc; "unexpected argument '{word}' found"),
        Misuse::NoValue(option) => format!(in alloc;
            "a value is required for '{option}' but none was supplied"
        ),
        Misuse::Twice(option) => format!(in alloc;
            "the argument '{option}' cannot be used multiple times"
        ),
        Misuse::Alone(lone) => text_of_lone(alloc, *lone),
        Misuse::Rounds(word) => format!(in alloc;
            "invalid value '{word}' for '<ROUNDS>': not a decimal from 1 to {MOST_ROUNDS}"
        ),
        Misuse::Number(word) => format!(in alloc;
            "invalid value '{word}' for '<NUMBER>': no fault or refusal has it"
        ),
        Misuse::NoName => String::from_str(
            alloc,
            "a NAME is required after ROUNDS or TRACE, and before the calls, and begins with no digit",
        ),
        Misuse::Missing => String::from_str(alloc, "a required argument was not provided"),
    }
}

// The text of an option that is without what it is for.
fn text_of_lone(alloc: Global, lone: Lone) -> Result<String, AllocError> {
    let Lone { option, beside } = lone;
    format!(in alloc; "'{option}' is allowed only with {beside}")
}
