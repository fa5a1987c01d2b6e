// What the words ask for.

ghost use Rattle.std.specs.Prelude.{◌≡◌, ◌≤◌, ◌<◌, ◌∷◌, ◌++◌, ◌↔◌, [], ℕ, Bool, List, Option, Some, true, false, IfSome, IfOk, IsNone, IsTrue, MatchOption, OnOk, codes, bytes_eq, flat_map, length, map, option_map, slice_get, string_bytes};
ghost use Rattle.cli_host.specs.Requests.{IsNumberTo, IsDigits, IsOption, AreNoOptions, LeaveOut, IsApart, IsOnlyApart, AreApart, AreOnlyApart, IsBehind, IsOnlyBehind, IsFlagApart, IsFile, IsFileBeside, IsFileWith, AreFiles, GiveRounds, GiveTrace, GiveDrawing, GiveFollowed, GiveScan, AreNames, Takes, TakesTrace, Asks, BeginsWithDigit, BeginWithName, NeedsName, AreNamesFirst, plain_words, plain_word, cut_word, cut_scan_word, cut_serve_word, flag_of, second_of, third_of, json_of, own_flag, own_second, own_third, own_json, asked_json, excludes_json, is_flag, is_other_flag, explains, names_flag, flags_of, with_flags, command_of, name_of, word_of, words_of};
ghost use Rattle.cli_host.specs.declared.request.Name.{Name};
ghost use Rattle.cli_host.specs.declared.request.Request.{Request};
ghost use Rattle.cli_host.specs.declared.request.Rounds.{Rounds};
ghost use Rattle.cli_host.specs.declared.request.Traced.{Traced};

use std::alloc::{AllocError, Global};

/// The most rounds of a simulation.
pub const MOST_ROUNDS: u16 = 50_000;

/// The option of a simulation whose value is the round from which on fire recall is on.
pub const FIRE: &str = "--fire";

// `--fire` with its value in one word.
const FIRE_IS: &str = "--fire=";

/// The option of a simulation whose value is the name of a file with presses and settings.
pub const CALLS: &str = "--calls";

// `--calls` with its value in one word.
const CALLS_IS: &str = "--calls=";

/// The option of `draw` whose value is which rounds are drawn.
pub const ROUNDS: &str = "--rounds";

// `--rounds` with its value in one word.
const ROUNDS_IS: &str = "--rounds=";

/// The option of `scan` whose value is the round in which the scan was committed.
pub const ROUND: &str = "--round";

// `--round` with its value in one word.
const ROUND_IS: &str = "--round=";

/// The option of `scan` whose value is the line after which nothing more is shown.
pub const UNTIL: &str = "--until";

// `--until` with its value in one word.
const UNTIL_IS: &str = "--until=";

/// The option of `serve` whose value is the name of the trace that it writes.
pub const TRACE: &str = "--trace";

// `--trace` with its value in one word.
const TRACE_IS: &str = "--trace=";

/// The option of `serve` whose value is the name of the trace that the group goes on from.
pub const FROM: &str = "--from";

// `--from` with its value in one word.
const FROM_IS: &str = "--from=";

/// The flag of `watch` that has it leave out a round whose values are those of the round before.
pub const CHANGES: &str = "--changes";

/// The flag of `denials` that has it show all denials, and of `check` that has it report the first fault of each unit.
pub const ALL: &str = "--all";

/// The flag of `run` that has a round end for all before the next begins.
pub const TOGETHER: &str = "--together";

/// The flag of `run` that has it print how many calls are left.
pub const LEFT: &str = "--left";

/// The flag of `calls` that has it print a summary.
pub const SUMMARY: &str = "--summary";

/// The flag of the commands over a trace that has them take it up to its last whole line.
pub const CUT: &str = "--cut";

// The option of every command that has a refusal of a text shown with the text's line and the number's meaning.
const EXPLAIN: &str = "--explain";

/// The option of `check` that has it report what it warns of.
pub const WARN: &str = "--warn";

/// The flag of `check` that has it print how much of each limit is used.
pub const LIMITS: &str = "--limits";

/// The flag of `check` that has it print lines of a path that follow one another as a range.
pub const PATHS: &str = "--paths";

/// The flag of `ranges` that has it print the text of each instruction.
pub const TEXT: &str = "--text";

/// The flag of the commands that print lines that has them print JSON, an object a line.
pub const JSON: &str = "--json";

/// A command that shows what is known of a text.
#[derive(Clone, Copy)]
pub enum Showing {
    /// The ranges that the verifier has found for each instruction.
    Ranges,
    /// Where each name is declared, read, written and called.
    Xref,
}

/// A command over a simulation of so many rounds.
#[derive(Clone, Copy)]
pub enum Simulating {
    /// Its trace, in one thread.
    Sim,
    /// Its trace, with a thread for each task.
    Run,
    /// What the interlock denied in it.
    Denials,
    /// Values after each round.
    Watch,
}

/// A command over a trace.
#[derive(Clone, Copy)]
pub enum Following {
    /// The image after it.
    Replay,
    /// A picture of it.
    Draw,
    /// The calls that it enters, each from its press to its service.
    Calls,
    /// What the interlock denied along it.
    Denials,
    /// Values after each of its rounds.
    Watch,
    /// A scan of it, instruction by instruction.
    Scan,
}

/// The name of a command. `denials` and `watch` are each the name of a simulation and of a command over a trace.
#[derive(Clone, Copy)]
pub enum Name {
    Check,
    Show(Showing),
    Rounds(Simulating),
    Trace(Following),
}

/// Words in three parts, one after the other.
#[derive(Clone, Copy)]
pub struct Words<'w> {
    pub front: &'w [String],
    pub middle: &'w [String],
    pub back: &'w [String],
}

/// What `check` takes.
#[derive(Clone, Copy)]
pub struct Checked<'w> {
    /// The name of the file.
    pub file: &'w str,
    /// Whether `--warn` is beside it.
    pub warns: bool,
    /// Whether how much of each limit is used is to be printed too.
    pub limits: bool,
    /// Whether lines of a path that follow one another are to be printed as a range.
    pub paths: bool,
    /// Whether the first fault of each other unit is to be reported too.
    pub all: bool,
    /// Whether JSON is to be printed.
    pub json: bool,
}

/// What a command takes that shows what is known of a text.
#[derive(Clone, Copy)]
pub struct Shown<'w> {
    /// The name of the file.
    pub file: &'w str,
    /// Whether `ranges` is to print the text of each instruction.
    pub text: bool,
    /// Whether JSON is to be printed.
    pub json: bool,
}

/// What a command takes that simulates.
#[derive(Clone, Copy)]
pub struct Rounds<'w> {
    /// The name of the file.
    pub file: &'w str,
    /// How many rounds.
    pub rounds: u16,
    /// The words after ROUNDS, which are to be presses, after names for `watch`.
    pub presses: Words<'w>,
    /// The word after `--fire`, which is to be a round.
    pub fire: Option<&'w str>,
    /// The word after `--calls`, the name of a file.
    pub calls: Option<&'w str>,
    /// Whether the command's own flag is among the words: `denials` is to show all, also the stops at the ends of the shaft; `watch` is to
    /// leave out what doesn't change; a round of `run` is to end for all before the next begins.
    pub flag: bool,
    /// Whether `run` is to print how many calls are left.
    pub left: bool,
    /// Whether JSON is to be printed.
    pub json: bool,
}

/// What a command takes that follows a trace.
#[derive(Clone, Copy)]
pub struct Traced<'w> {
    /// The name of the file.
    pub file: &'w str,
    /// The name of the trace.
    pub trace: &'w str,
    /// The words after TRACE, which are the names of `watch`, and the task of `scan`; another command has none.
    pub names: Words<'w>,
    /// The word after `--rounds`, which is to say what rounds `draw` shows.
    pub span: Option<&'w str>,
    /// The word after `--round`, which is to be the round of the scan that `scan` shows.
    pub round: Option<&'w str>,
    /// The word after `--until`, which is to be the line after which `scan` shows nothing more.
    pub until: Option<&'w str>,
    /// Whether the command's own flag is among the words: `calls` is to print a summary, `denials` is to show all, `watch` is to leave out
    /// what doesn't change.
    pub flag: bool,
    /// Whether the trace may be cut off, and is taken up to its last whole line.
    pub cut: bool,
    /// Whether JSON is to be printed.
    pub json: bool,
}

/// What the words ask for.
#[derive(Clone, Copy)]
pub enum Request<'w> {
    Check(Checked<'w>),
    Show(Showing, Shown<'w>),
    Rounds(Simulating, Rounds<'w>),
    Trace(Following, Traced<'w>),
}

impl Name {
    /// The command that a word names.
    pub fn of(word: &str) -> Option<Name>
        ensures some { IfSome result (λ name. word.now ≡ word_of name) }
        ensures none { IsNone result → (name : Name) → word.now ≡ word_of name → ⊥ }
    {
        match word {
            "check" => Some(Name::Check),
            "ranges" => Some(Name::Show(Showing::Ranges)),
            "xref" => Some(Name::Show(Showing::Xref)),
            "sim" => Some(Name::Rounds(Simulating::Sim)),
            "run" => Some(Name::Rounds(Simulating::Run)),
            "denials" => Some(Name::Rounds(Simulating::Denials)),
            "watch" => Some(Name::Rounds(Simulating::Watch)),
            "replay" => Some(Name::Trace(Following::Replay)),
            "draw" => Some(Name::Trace(Following::Draw)),
            "calls" => Some(Name::Trace(Following::Calls)),
            "scan" => Some(Name::Trace(Following::Scan)),
            _ => None,
        }
    }

    /// Its word.
    pub fn word<'a>(self) -> &'a str
        ensures { result.now ≡ word_of self }
    {
        match self {
            Name::Check => "check",
            Name::Show(Showing::Ranges) => "ranges",
            Name::Show(Showing::Xref) => "xref",
            Name::Rounds(Simulating::Sim) => "sim",
            Name::Rounds(Simulating::Run) => "run",
            Name::Rounds(Simulating::Denials) => "denials",
            Name::Rounds(Simulating::Watch) => "watch",
            Name::Trace(Following::Replay) => "replay",
            Name::Trace(Following::Draw) => "draw",
            Name::Trace(Following::Calls) => "calls",
            Name::Trace(Following::Denials) => "denials",
            Name::Trace(Following::Watch) => "watch",
            Name::Trace(Following::Scan) => "scan",
        }
    }
}

impl<'w> Words<'w> {
    /// Words in one part.
    pub fn of(words: &'w [String]) -> Words<'w>
        ensures { words_of result ≡ map string_bytes words.now }
    {
        Words::around(words, &[])
    }

    /// Words in two parts.
    pub fn around(front: &'w [String], back: &'w [String]) -> Words<'w>
        ensures { words_of result ≡ map string_bytes front.now ++ map string_bytes back.now }
    {
        Words {
            front,
            middle: &[],
            back,
        }
    }

    /// How many they are.
    pub fn len(self) -> usize
        ensures { result ≡ length (words_of self.entry) }
    {
        self.front.len() + self.middle.len() + self.back.len()
    }

    /// The first word, and those after it.
    pub fn split_first(self) -> Option<(&'w str, Words<'w>)>
        ensures some { IfSome result (λ parts. words_of self.entry
            ≡ parts.0.now ∷ words_of parts.1) }
        ensures none { IsNone result → words_of self.entry ≡ [] }
    {
        if let Some((word, front)) = self.front.split_first() {
            return Some((word, Words { front, ..self }));
        }
        if let Some((word, middle)) = self.middle.split_first() {
            return Some((word, Words { middle, ..self }));
        }
        let (word, back) = self.back.split_first()?;
        Some((word, Words { back, ..self }))
    }
}

/// Words that are names, and those after them.
#[derive(Clone, Copy)]
pub struct Named<'w> {
    pub names: Words<'w>,
    pub presses: Words<'w>,
}

impl<'w> Words<'w> {
    /// The names before the first word that begins with a digit, and the words from there on.
    pub fn names_first(self) -> Named<'w>
        ensures { AreNamesFirst (words_of self.entry) (words_of result.names)
            (words_of result.presses) }
    {
        let (names, presses) = self.front.split_at(first_number(self.front));
        if !presses.is_empty() {
            return Named {
                names: Words::of(names),
                presses: Words {
                    front: presses,
                    ..self
                },
            };
        }
        let (more, presses) = self.middle.split_at(first_number(self.middle));
        if !presses.is_empty() {
            return Named {
                names: Words::around(self.front, more),
                presses: Words::around(presses, self.back),
            };
        }
        let (more, presses) = self.back.split_at(first_number(self.back));
        Named {
            names: Words { back: more, ..self },
            presses: Words::of(presses),
        }
    }
}

impl<'w> Request<'w> {
    /// The request, with the flags of its command or without.
    pub fn with_flags(self, flags: Flags) -> Request<'w>
        ensures { result ≡ with_flags flags self.entry }
    {
        let json = flags.json;
        match self {
            Request::Check(checked) => {
                Request::Check(Checked {
                    limits: flags.own,
                    paths: flags.second,
                    all: flags.third,
                    json,
                    ..checked
                })
            }
            Request::Show(command, shown) => {
                Request::Show(
                    command,
                    Shown {
                        text: flags.own,
                        json,
                        ..shown
                    },
                )
            }
            Request::Rounds(command, rounds) => {
                Request::Rounds(
                    command,
                    Rounds {
                        flag: flags.own,
                        left: flags.second,
                        json,
                        ..rounds
                    },
                )
            }
            Request::Trace(command, traced) => {
                Request::Trace(
                    command,
                    Traced {
                        flag: flags.own,
                        cut: flags.second || traced.cut,
                        json,
                        ..traced
                    },
                )
            }
        }
    }

    /// The name of its file.
    pub fn file(self) -> &'w str
        ensures { result.now ≡ name_of self.entry }
    {
        match self {
            Request::Check(checked) => checked.file,
            Request::Show(_, shown) => shown.file,
            Request::Rounds(_, rounds) => rounds.file,
            Request::Trace(_, traced) => traced.file,
        }
    }
}

/// Whether a text is ASCII digits alone.
pub fn is_digits(text: &str) -> bool
    ensures { IsTrue result ↔ IsDigits text.now }
{
    text.as_bytes().iter().all(|b| b.is_ascii_digit())
}

/// The number that ASCII digits alone spell, from 1 to a greatest one.
pub fn number_to(greatest: u16, text: &str) -> Option<u16>
    ensures some { IfSome result (IsNumberTo greatest text.now) }
    ensures none { IsNone result → (number : ℕ) → IsNumberTo greatest text.now number → ⊥ }
{
    if !is_digits(text) {
        return None;
    }
    match text.parse::<u16>() {
        Ok(number) if (1..=greatest).contains(&number) => Some(number),
        _ => None,
    }
}

/// Whether a word is an option: it begins with `-`.
pub fn is_option(word: &str) -> bool
    ensures { IsTrue result ↔ IsOption word.now }
{
    matches!(word.as_bytes(), [b'-', ..])
}

/// What the words ask for, where they are a command, its file and what else it takes.
pub fn asked(words: &[String]) -> Option<Request<'_>>
    ensures some { IfSome result (Asks (map string_bytes words.now)) }
    ensures none { IsNone result → (request : Request) → Asks (map string_bytes words.now) request
        → ⊥ }
{
    let (name, rest) = words.split_first()?;
    takes(Name::of(name)?, rest)
}

// What a command is asked for by the words after its name.
fn takes(name: Name, rest: &[String]) -> Option<Request<'_>>
    ensures some { IfSome result (λ request. (word_of (command_of request) ≡ word_of name)
        × Takes (map string_bytes rest.now) request) }
    ensures none { IsNone result → (request : Request)
        → word_of (command_of request) ≡ word_of name
        → Takes (map string_bytes rest.now) request → ⊥ }
{
    match name {
        Name::Check => Some(Request::Check(check_given(rest)?)),
        Name::Show(command) => Some(Request::Show(command, shown_given(rest)?)),
        Name::Rounds(command) => simulates_or_follows(command, rest),
        Name::Trace(Following::Denials) => simulates_or_follows(Simulating::Denials, rest),
        Name::Trace(Following::Watch) => simulates_or_follows(Simulating::Watch, rest),
        Name::Trace(command) => Some(Request::Trace(command, trace_given(command, rest)?)),
    }
}

// The command over a trace that has the name of one over a simulation.
fn following_of(command: Simulating) -> Option<Following>
    ensures some { IfSome result (λ following. word_of (Name.Trace following)
        ≡ word_of (Name.Rounds command)) }
    ensures none { IsNone result → (following : Following) → word_of (Name.Trace following)
        ≡ word_of (Name.Rounds command) → ⊥ }
{
    match command {
        Simulating::Sim => None,
        Simulating::Run => None,
        Simulating::Denials => Some(Following::Denials),
        Simulating::Watch => Some(Following::Watch),
    }
}

// What a name is asked for that simulates, or follows a trace.
fn simulates_or_follows(command: Simulating, rest: &[String]) -> Option<Request<'_>>
    ensures some { IfSome result (λ request. (word_of (command_of request)
        ≡ word_of (Name.Rounds command)) × Takes (map string_bytes rest.now) request) }
    ensures none { IsNone result → (request : Request)
        → word_of (command_of request) ≡ word_of (Name.Rounds command)
        → Takes (map string_bytes rest.now) request → ⊥ }
{
    if let Some(rounds) = simulation_given(command, rest) {
        return Some(Request::Rounds(command, rounds));
    }
    let command = following_of(command)?;
    Some(Request::Trace(command, trace_given(command, rest)?))
}

// FILE, where it is the one word.
fn shown_given(rest: &[String]) -> Option<Shown<'_>>
    ensures some { IfSome result (λ shown. IsFile (map string_bytes rest.now) shown.file.now) }
    ensures none { IsNone result → (file : List ℕ) → IsFile (map string_bytes rest.now) file → ⊥ }
{
    match rest {
        [file] if !is_option(file) => Some(Shown {
            file,
            text: false,
            json: false,
        }),
        _ => None,
    }
}

// FILE, and whether an option is beside it.
#[derive(Clone, Copy)]
struct FileWith<'w> {
    file: &'w str,
    has_option: bool,
}

// FILE, where it is the one of two words beside which the option is.
fn file_beside<'w>(option: &str, first: &'w str, second: &'w str) -> Option<&'w str>
    ensures some { IfSome result (λ file. IsFileBeside option.now first.now second.now file.now) }
    ensures none { IsNone result → (file : List ℕ)
        → IsFileBeside option.now first.now second.now file → ⊥ }
{
    if second == option && !is_option(first) {
        return Some(first);
    }
    if first == option && !is_option(second) {
        return Some(second);
    }
    None
}

// FILE, where it is the one word or the option is beside it.
fn file_with<'w>(option: &str, words: Words<'w>) -> Option<FileWith<'w>>
    ensures some { IfSome result (λ found. IsFileWith option.now (words_of words.entry)
        found.file.now found.has_option) }
    ensures none { IsNone result → (file : List ℕ) (has_option : Bool)
        → IsFileWith option.now (words_of words.entry) file has_option → ⊥ }
{
    let (first, rest) = words.split_first()?;
    let Some((second, rest)) = rest.split_first() else {
        return file_without_option(first);
    };
    if rest.split_first().is_some() {
        return None;
    }
    Some(FileWith {
        file: file_beside(option, first, second)?,
        has_option: true,
    })
}

// FILE, where the one word is no option.
fn file_without_option(word: &str) -> Option<FileWith<'_>>
    ensures some { IfSome result (λ found. (found.file.now ≡ word.now)
        × (found.has_option ≡ false) × (IsOption word.now → ⊥)) }
    ensures none { IsNone result → IsOption word.now }
{
    if is_option(word) {
        return None;
    }
    Some(FileWith {
        file: word,
        has_option: false,
    })
}

// FILE, where it is the one word or is beside `--warn`.
fn check_given(rest: &[String]) -> Option<Checked<'_>>
    ensures some { IfSome result (λ checked.
        IsFileWith (codes "--warn") (map string_bytes rest.now) checked.file.now checked.warns) }
    ensures none { IsNone result → (file : List ℕ) (warns : Bool)
        → IsFileWith (codes "--warn") (map string_bytes rest.now) file warns → ⊥ }
{
    let FileWith { file, has_option } = file_with(WARN, Words::of(rest))?;
    Some(Checked {
        file,
        warns: has_option,
        limits: false,
        paths: false,
        all: false,
        json: false,
    })
}

// FILE and TRACE.
#[derive(Clone, Copy)]
struct Files<'w> {
    file: &'w str,
    trace: &'w str,
}

// What a command over a trace is given.
fn trace_given(command: Following, rest: &[String]) -> Option<Traced<'_>>
    ensures some { IfSome result (TakesTrace (map string_bytes rest.now) command) }
    ensures none { IsNone result → (traced : Traced)
        → TakesTrace (map string_bytes rest.now) command traced → ⊥ }
{
    match command {
        Following::Replay => whole_trace_given(rest),
        Following::Draw => drawing_given(rest),
        Following::Calls => whole_trace_given(rest),
        Following::Denials => followed_given(false, rest),
        Following::Watch => followed_given(true, rest),
        Following::Scan => scan_given(rest),
    }
}

// FILE and TRACE, where they are the words.
fn files_given(words: Words<'_>) -> Option<Files<'_>>
    ensures some { IfSome result (λ files.
        AreFiles (words_of words.entry) files.file.now files.trace.now) }
    ensures none { IsNone result → (file trace : List ℕ)
        → AreFiles (words_of words.entry) file trace → ⊥ }
{
    let (file, rest) = words.split_first()?;
    let (trace, rest) = rest.split_first()?;
    if rest.split_first().is_some() || is_option(file) || is_option(trace) {
        return None;
    }
    Some(Files { file, trace })
}

// FILE and TRACE alone.
fn whole_trace_given(rest: &[String]) -> Option<Traced<'_>>
    ensures some { IfSome result (GiveTrace (map string_bytes rest.now)) }
    ensures none { IsNone result → (traced : Traced)
        → GiveTrace (map string_bytes rest.now) traced → ⊥ }
{
    let Files { file, trace } = files_given(Words::of(rest))?;
    Some(Traced {
        file,
        trace,
        names: Words::of(&[]),
        span: None,
        round: None,
        until: None,
        flag: false,
        cut: false,
        json: false,
    })
}

// FILE and TRACE, and maybe `--rounds A:B`.
fn drawing_given(rest: &[String]) -> Option<Traced<'_>>
    ensures some { IfSome result (GiveDrawing (map string_bytes rest.now)) }
    ensures none { IsNone result → (traced : Traced)
        → GiveDrawing (map string_bytes rest.now) traced → ⊥ }
{
    let WordsApart { front, back, value } = apart(ROUNDS, rest)?;
    let Files { file, trace } = files_given(Words::around(front, back))?;
    Some(Traced {
        file,
        trace,
        names: Words::of(&[]),
        span: value,
        round: None,
        until: None,
        flag: false,
        cut: false,
        json: false,
    })
}

// FILE, TRACE and TASK, and maybe `--round N` and `--until LINE`.
fn scan_given(rest: &[String]) -> Option<Traced<'_>>
    ensures some { IfSome result (GiveScan (map string_bytes rest.now)) }
    ensures none { IsNone result → (traced : Traced)
        → GiveScan (map string_bytes rest.now) traced → ⊥ }
{
    let OptionsApart {
        positional,
        first,
        second,
    } = options_apart(ROUND, UNTIL, rest)?;
    let (file, behind) = positional.split_first()?;
    let (trace, names) = behind.split_first()?;
    let (_task, more) = names.split_first()?;
    if let Some((_next, _rest)) = more.split_first() {
        return None;
    }
    Some(Traced {
        file,
        trace,
        names,
        span: None,
        round: first,
        until: second,
        flag: false,
        cut: false,
        json: false,
    })
}

// FILE, TRACE, and names after them where they are needed; maybe `--cut`.
fn followed_given(named: bool, rest: &[String]) -> Option<Traced<'_>>
    ensures some { IfSome result (λ traced. GiveFollowed (map string_bytes rest.now) traced
        × AreNames named (words_of traced.names)) }
    ensures none { IsNone result → (traced : Traced)
        → GiveFollowed (map string_bytes rest.now) traced
        → AreNames named (words_of traced.names) → ⊥ }
{
    let traced = any_followed_given(rest)?;
    if traced.names.split_first().is_some() != named {
        return None;
    }
    Some(traced)
}

// FILE, TRACE, and any names; maybe `--cut`.
fn any_followed_given(rest: &[String]) -> Option<Traced<'_>>
    ensures some { IfSome result (GiveFollowed (map string_bytes rest.now)) }
    ensures only { IfSome result (λ found. (traced : Traced)
        → GiveFollowed (map string_bytes rest.now) traced → words_of traced.names
        ≡ words_of found.names) }
    ensures none { IsNone result → (traced : Traced)
        → GiveFollowed (map string_bytes rest.now) traced → ⊥ }
{
    let CutApart { positional, cut } = cut_apart(rest)?;
    let (file, behind) = positional.split_first()?;
    let (trace, names) = behind.split_first()?;
    if is_digits(trace) {
        return None;
    }
    Some(Traced {
        file,
        trace,
        names,
        span: None,
        round: None,
        until: None,
        flag: false,
        cut,
        json: false,
    })
}

// Words without `--cut`, and whether it was among them.
#[derive(Clone, Copy)]
struct CutApart<'w> {
    positional: Words<'w>,
    cut: bool,
}

// Words apart, where they have no option but one `--cut`.
fn cut_apart(rest: &[String]) -> Option<CutApart<'_>>
    ensures some { IfSome result (λ apart. IsFlagApart (codes "--cut") (map string_bytes rest.now)
        (words_of apart.positional) apart.cut) }
    ensures plain { IfSome result (λ apart. AreNoOptions (words_of apart.positional)) }
    ensures only { IfSome result (λ apart. (positional : List (List ℕ)) (cut : Bool)
        → IsFlagApart (codes "--cut") (map string_bytes rest.now) positional cut
        → AreNoOptions positional → positional ≡ words_of apart.positional) }
    ensures none { IsNone result → (positional : List (List ℕ)) (cut : Bool)
        → IsFlagApart (codes "--cut") (map string_bytes rest.now) positional cut
        → AreNoOptions positional → ⊥ }
{
    let (front, rest) = rest.split_at(first_option(rest));
    let Some((option, back)) = rest.split_first() else {
        return Some(CutApart {
            positional: Words::around(front, rest),
            cut: false,
        });
    };
    if !is_same(option, CUT) || has_option(back) {
        return None;
    }
    Some(CutApart {
        positional: Words::around(front, back),
        cut: true,
    })
}

// FILE and ROUNDS, and what follows them.
fn rounds_given(rest: &[String]) -> Option<Rounds<'_>>
    ensures some { IfSome result (GiveRounds (map string_bytes rest.now)) }
    ensures only { IfSome result (λ found. (rounds : Rounds)
        → GiveRounds (map string_bytes rest.now) rounds → words_of rounds.presses
        ≡ words_of found.presses) }
    ensures none { IsNone result → (rounds : Rounds)
        → GiveRounds (map string_bytes rest.now) rounds → ⊥ }
{
    let OptionsApart {
        positional,
        first,
        second,
    } = options_apart(FIRE, CALLS, rest)?;
    let (file, behind) = positional.split_first()?;
    let (rounds, presses) = behind.split_first()?;
    let rounds = number_to(MOST_ROUNDS, rounds)?;
    Some(Rounds {
        file,
        rounds,
        presses,
        fire: first,
        calls: second,
        flag: false,
        left: false,
        json: false,
    })
}

// FILE, ROUNDS and, where the command needs one, a name after them.
fn simulation_given(command: Simulating, rest: &[String]) -> Option<Rounds<'_>>
    ensures some { IfSome result (λ rounds. GiveRounds (map string_bytes rest.now) rounds
        × NeedsName command (words_of rounds.presses)) }
    ensures none { IsNone result → (rounds : Rounds)
        → GiveRounds (map string_bytes rest.now) rounds
        → NeedsName command (words_of rounds.presses) → ⊥ }
{
    let rounds = rounds_given(rest)?;
    if has_needed_name(command, rounds.presses) {
        Some(rounds)
    } else {
        None
    }
}

// Whether words begin with a name, where the command needs one.
fn has_needed_name(command: Simulating, words: Words<'_>) -> bool
    ensures { IsTrue result ↔ NeedsName command (words_of words.entry) }
{
    match command {
        Simulating::Sim => true,
        Simulating::Run => true,
        Simulating::Denials => true,
        Simulating::Watch => begin_with_name(words),
    }
}

// Whether the first of the words is there and begins with no digit.
fn begin_with_name(words: Words<'_>) -> bool
    ensures { IsTrue result ↔ BeginWithName (words_of words.entry) }
{
    match words.split_first() {
        Some((first, _)) => !is_number(first),
        None => false,
    }
}

// Words without two options and the values after them, and those values.
#[derive(Clone, Copy)]
struct OptionsApart<'w> {
    positional: Words<'w>,
    first: Option<&'w str>,
    second: Option<&'w str>,
}

// The words after such a command apart, where they have no option but these two and a word after each of them.
fn options_apart<'w>(one: &str, two: &str, rest: &'w [String]) -> Option<OptionsApart<'w>>
    requires one { IsOption one.now }
    requires two { IsOption two.now }
    requires differ { one.now ≡ two.now → ⊥ }
    ensures some { IfSome result (λ apart. AreApart one.now two.now (map string_bytes rest.now)
        (words_of apart.positional) (option_map (λ value. value.now) apart.first)
        (option_map (λ value. value.now) apart.second)) }
    ensures plain { IfSome result (λ apart. AreNoOptions (words_of apart.positional)) }
    ensures only { IfSome result (λ apart. AreOnlyApart one.now two.now
        (map string_bytes rest.now) (words_of apart.positional)) }
    ensures none { IsNone result → (positional : List (List ℕ)) (first second : Option (List ℕ))
        → AreApart one.now two.now (map string_bytes rest.now) positional first second
        → AreNoOptions positional → ⊥ }
{
    let (front, rest) = rest.split_at(first_option(rest));
    let Some((option, rest)) = rest.split_first() else {
        return Some(OptionsApart {
            positional: Words::around(front, rest),
            first: None,
            second: None,
        });
    };
    if is_same(option, one) {
        let behind = from_value(two, rest)?;
        return Some(OptionsApart {
            positional: behind.words_from(front),
            first: Some(behind.value),
            second: behind.other,
        });
    }
    if !is_same(option, two) {
        return None;
    }
    let behind = from_value(one, rest)?;
    Some(OptionsApart {
        positional: behind.words_from(front),
        first: behind.other,
        second: Some(behind.value),
    })
}

// A value, and what follows it: words without another option and its value, and that value.
#[derive(Clone, Copy)]
struct Behind<'w> {
    value: &'w str,
    front: &'w [String],
    back: &'w [String],
    other: Option<&'w str>,
}

impl<'w> Behind<'w> {
    // The words after others.
    fn words_from(self, front: &'w [String]) -> Words<'w>
        ensures { words_of result ≡ map string_bytes front.now
            ++ (map string_bytes self.entry.front.now ++ map string_bytes self.entry.back.now) }
    {
        Words {
            front,
            middle: self.front,
            back: self.back,
        }
    }
}

// What follows an option, where that is a value and after it no option but another one with its value.
fn from_value<'w>(option: &str, words: &'w [String]) -> Option<Behind<'w>>
    requires { IsOption option.now }
    ensures some { IfSome result (λ behind. IsBehind option.now (map string_bytes words.now)
        behind.value.now (map string_bytes behind.front.now ++ map string_bytes behind.back.now)
        (option_map (λ value. value.now) behind.other)) }
    ensures plain { IfSome result (λ behind. AreNoOptions (map string_bytes behind.front.now
        ++ map string_bytes behind.back.now)) }
    ensures only { IfSome result (λ behind. IsOnlyBehind option.now (map string_bytes words.now)
        (map string_bytes behind.front.now ++ map string_bytes behind.back.now)) }
    ensures none { IsNone result → (value : List ℕ) (others : List (List ℕ))
        (other : Option (List ℕ))
        → IsBehind option.now (map string_bytes words.now) value others other
        → AreNoOptions others → ⊥ }
{
    let (value, rest) = words.split_first()?;
    if is_option(value) {
        return None;
    }
    let parts = apart(option, rest)?;
    if has_option(parts.front) || has_option(parts.back) {
        return None;
    }
    Some(Behind {
        value,
        front: parts.front,
        back: parts.back,
        other: parts.value,
    })
}

// Words without an option and the value after it, those before it and those after, and that value.
#[derive(Clone, Copy)]
struct WordsApart<'w> {
    front: &'w [String],
    back: &'w [String],
    value: Option<&'w str>,
}

// Words apart at the first place of an option, where a value follows it that begins with no `-`.
fn apart<'w>(option: &str, words: &'w [String]) -> Option<WordsApart<'w>>
    ensures some { IfSome result (λ apart. IsApart option.now (map string_bytes words.now)
        (map string_bytes apart.front.now ++ map string_bytes apart.back.now)
        (option_map (λ value. value.now) apart.value)) }
    ensures only { IfSome result (λ apart. IsOnlyApart option.now (map string_bytes words.now)
        (map string_bytes apart.front.now ++ map string_bytes apart.back.now)
        (option_map (λ value. value.now) apart.value)) }
    ensures none { IsNone result → (positional : List (List ℕ)) (value : Option (List ℕ))
        → IsApart option.now (map string_bytes words.now) positional value
        → LeaveOut option.now positional → ⊥ }
{
    let (front, rest) = words.split_at(first_of(option, words));
    let Some((_, rest)) = rest.split_first() else {
        return Some(WordsApart {
            front,
            back: rest,
            value: None,
        });
    };
    let (value, back) = rest.split_first()?;
    if is_option(value) {
        return None;
    }
    Some(WordsApart {
        front,
        back,
        value: Some(value),
    })
}

/// Whether two words are the same.
pub(crate) fn is_same(word: &str, other: &str) -> bool
    ensures { IsTrue result ↔ (word.now ≡ other.now) }
{
    word == other
}

// How many words come before the first that is the option.
fn first_of(option: &str, words: &[String]) -> usize
    ensures within { result ≤ length words.now }
    ensures before { (k : ℕ) (word : List ℕ) → k < result
        → slice_get (map string_bytes words.now) k ≡ Some word → word ≡ option.now → ⊥ }
    ensures at { (word : List ℕ) → slice_get (map string_bytes words.now) result ≡ Some word
        → word ≡ option.now }
{
    let mut place = 0;
    'words: for word in words {
        if is_same(word, option) {
            return place;
        }
        place += 1;
    }
    place
}

// Whether one of the words is an option.
fn has_option(words: &[String]) -> bool
    ensures no { result ≡ false → AreNoOptions (map string_bytes words.now) }
    ensures yes { result ≡ true → AreNoOptions (map string_bytes words.now) → ⊥ }
{
    first_option(words) < words.len()
}

// How many words come before the first option.
fn first_option(words: &[String]) -> usize
    ensures within { result ≤ length words.now }
    ensures before { (k : ℕ) (word : List ℕ) → k < result
        → slice_get (map string_bytes words.now) k ≡ Some word → IsOption word → ⊥ }
    ensures at { (word : List ℕ) → slice_get (map string_bytes words.now) result ≡ Some word
        → IsOption word }
{
    let mut place = 0;
    'words: for word in words {
        if is_option(word) {
            return place;
        }
        place += 1;
    }
    place
}

/// Whether a word begins with a digit.
pub fn is_number(word: &str) -> bool
    ensures { IsTrue result ↔ BeginsWithDigit word.now }
{
    matches!(word.as_bytes(), [b'0'..=b'9', ..])
}

// How many words come before the first that begins with a digit.
fn first_number(words: &[String]) -> usize
    ensures within { result ≤ length words.now }
    ensures before { (k : ℕ) (word : List ℕ) → k < result
        → slice_get (map string_bytes words.now) k ≡ Some word → BeginsWithDigit word → ⊥ }
    ensures at { (word : List ℕ) → slice_get (map string_bytes words.now) result ≡ Some word
        → BeginsWithDigit word }
{
    let mut place = 0;
    'words: for word in words {
        if is_number(word) {
            return place;
        }
        place += 1;
    }
    place
}

// Whether a word is the option `--explain`.
fn is_explain(word: &str) -> bool
    ensures { result ≡ bytes_eq word.now (codes "--explain") }
{
    word == EXPLAIN
}

/// Which flags of a command are among its words.
#[derive(Clone, Copy)]
pub struct Flags {
    /// That of the command's own: `--limits` of `check`, `--text` of `ranges`, `--all` of `denials`, `--changes` of `watch`, `--together` of `run`,
    /// `--summary` of `calls`.
    pub own: bool,
    /// A second one: `--paths` of `check`, `--left` of `run`, `--cut` of `replay`, `draw`, `calls` and `scan`; that of `denials` and `watch` over a trace is one of the words.
    pub second: bool,
    /// A third one: `--all` of `check`.
    pub third: bool,
    /// `--json` of `check`, `ranges`, `xref`, `calls` and `denials`. Beside `--summary`, `--paths` or `--text` it stays one of the words.
    pub json: bool,
}

/// The words of a command line as they are read, and the flags that may be anywhere among them.
#[derive(Drop)]
pub struct Plain {
    /// The words without `--explain` and the flags of their command; for `--fire=ROUND`, `--calls=CALLS`, `--rounds=A:B`, `--trace=TRACE` and
    /// `--from=OLD` are two words.
    pub words: Vec<String>,
    /// Whether `--explain` was among them.
    pub explains: bool,
    /// Which flags of their command were.
    pub flags: Flags,
}

/// Words as they are read.
pub fn read_words(alloc: Global, words: &[String]) -> Result<Plain, AllocError>
    ensures words { IfOk result (λ plain. map string_bytes plain.words.items
        ≡ plain_words (map string_bytes words.now)) }
    ensures explains { IfOk result (λ plain. plain.explains
        ≡ explains (map string_bytes words.now)) }
    ensures flags { IfOk result (λ plain. plain.flags ≡ flags_of (map string_bytes words.now)) }
{
    let own = own_flag(words);
    let second = own_second(words);
    let third = own_third(words);
    let json = asked_json(words);
    Ok(Plain {
        words: plain_words(alloc, words, own, second, third, json)?,
        explains: explains(words),
        flags: Flags {
            own: names_flag(own, words),
            second: names_flag(second, words),
            third: names_flag(third, words),
            json: names_flag(json, words),
        },
    })
}

// The flag of the words' command.
fn own_flag(words: &[String]) -> Option<&'static str>
    ensures { option_map (λ f. f.now) result ≡ own_flag (map string_bytes words.now) }
{
    'words: for word in words {
        if !is_explain(word) {
            return flag_of(word);
        }
    }
    None
}

// The second flag of the words' command.
fn own_second(words: &[String]) -> Option<&'static str>
    ensures { option_map (λ f. f.now) result ≡ own_second (map string_bytes words.now) }
{
    'words: for word in words {
        if !is_explain(word) {
            return second_of(word);
        }
    }
    None
}

// The third flag of the words' command.
fn own_third(words: &[String]) -> Option<&'static str>
    ensures { option_map (λ f. f.now) result ≡ own_third (map string_bytes words.now) }
{
    'words: for word in words {
        if !is_explain(word) {
            return third_of(word);
        }
    }
    None
}

// `--json`, where the words' command takes it.
fn own_json(words: &[String]) -> Option<&'static str>
    ensures { option_map (λ f. f.now) result ≡ own_json (map string_bytes words.now) }
{
    'words: for word in words {
        if !is_explain(word) {
            return json_of(word);
        }
    }
    None
}

// `--json`, where the words' command takes it and no flag among them has no JSON.
fn asked_json(words: &[String]) -> Option<&'static str>
    ensures { option_map (λ f. f.now) result ≡ asked_json (map string_bytes words.now) }
{
    if excludes_json(words) {
        None
    } else {
        own_json(words)
    }
}

// Whether a flag is one of the words that has no JSON.
fn excludes_json(words: &[String]) -> bool
    ensures { result ≡ excludes_json (map string_bytes words.now) }
{
    names_flag(Some(SUMMARY), words)
        || names_flag(Some(PATHS), words)
        || names_flag(Some(TEXT), words)
}

// The flag of a command's own.
fn flag_of(command: &str) -> Option<&'static str>
    ensures { option_map (λ f. f.now) result ≡ flag_of command.now }
{
    match command {
        "check" => Some(LIMITS),
        "ranges" => Some(TEXT),
        "denials" => Some(ALL),
        "watch" => Some(CHANGES),
        "run" => Some(TOGETHER),
        "calls" => Some(SUMMARY),
        _ => None,
    }
}

// The second flag of a command: `--paths` of `check`, `--left` of `run`, `--cut` of one that is always over a trace.
fn second_of(command: &str) -> Option<&'static str>
    ensures { option_map (λ f. f.now) result ≡ second_of command.now }
{
    match command {
        "check" => Some(PATHS),
        "run" => Some(LEFT),
        "replay" | "draw" | "calls" | "scan" => Some(CUT),
        _ => None,
    }
}

// The third flag of a command: `--all` of `check`.
fn third_of(command: &str) -> Option<&'static str>
    ensures { option_map (λ f. f.now) result ≡ third_of command.now }
{
    match command {
        "check" => Some(ALL),
        _ => None,
    }
}

// `--json`, where a command takes it.
fn json_of(command: &str) -> Option<&'static str>
    ensures { option_map (λ f. f.now) result ≡ json_of command.now }
{
    match command {
        "check" | "ranges" | "xref" | "calls" | "denials" => Some(JSON),
        _ => None,
    }
}

// Whether a word is the flag, where there is one.
fn is_flag(flag: Option<&str>, word: &str) -> bool
    ensures { result ≡ is_flag (option_map (λ f. f.now) flag.entry) word.now }
{
    match flag {
        Some(flag) => word == flag,
        None => false,
    }
}

// Whether `--explain` is one of the words.
fn explains(words: &[String]) -> bool
    ensures { result ≡ explains (map string_bytes words.now) }
{
    'words: for word in words {
        if is_explain(word) {
            return true;
        }
    }
    false
}

// Whether the flag is one of the words.
fn names_flag(flag: Option<&str>, words: &[String]) -> bool
    ensures { result ≡ names_flag (option_map (λ f. f.now) flag.entry)
        (map string_bytes words.now) }
{
    'words: for word in words {
        if is_flag(flag, word) {
            return true;
        }
    }
    false
}

// The words in place of each word.
fn plain_words(
    alloc: Global,
    words: &[String],
    own: Option<&str>,
    second: Option<&str>,
    third: Option<&str>,
    json: Option<&str>,
) -> Result<Vec<String>, AllocError>
    ensures { IfOk result (λ plain. map string_bytes plain.items
        ≡ flat_map (plain_word (option_map (λ f. f.now) own.entry)
        (option_map (λ f. f.now) second.entry) (option_map (λ f. f.now) third.entry)
        (option_map (λ f. f.now) json.entry))
        (map string_bytes words.now)) }
{
    let mut plain = Vec::new(alloc);
    'words: for word in words {
        add_plain(alloc, &mut plain, word, own, second, third, json)?;
    }
    Ok(plain)
}

// Adds the words in place of a word.
fn add_plain(
    alloc: Global,
    plain: &mut Vec<String>,
    word: &str,
    own: Option<&str>,
    second: Option<&str>,
    third: Option<&str>,
    json: Option<&str>,
) -> Result<(), AllocError>
    ensures { OnOk result (map string_bytes plain.new.items ≡ map string_bytes plain.old.items
        ++ plain_word (option_map (λ f. f.now) own.entry)
        (option_map (λ f. f.now) second.entry) (option_map (λ f. f.now) third.entry)
        (option_map (λ f. f.now) json.entry) word.now) }
{
    if is_explain(word) || is_flag(own, word) || is_other_flag(second, third, json, word) {
        return Ok(());
    }
    add_word(alloc, plain, word)
}

// Whether a word is one of the flags that are not the command's first one.
fn is_other_flag(second: Option<&str>, third: Option<&str>, json: Option<&str>, word: &str) -> bool
    ensures { result ≡ is_other_flag (option_map (λ f. f.now) second.entry)
        (option_map (λ f. f.now) third.entry) (option_map (λ f. f.now) json.entry) word.now }
{
    is_flag(second, word) || is_flag(third, word) || is_flag(json, word)
}

// An option and its value.
#[derive(Clone, Copy)]
struct Valued<'w> {
    option: &'static str,
    value: &'w str,
}

// The ROUND of `--fire=ROUND`.
fn round_behind(word: &str) -> Option<&str>
    ensures some { IfSome result (λ round. word.now ≡ codes "--fire=" ++ round.now) }
    ensures none { IsNone result → (round : List ℕ) → word.now ≡ codes "--fire=" ++ round → ⊥ }
{
    word.strip_prefix(FIRE_IS)
}

// The TRACE of `--trace=TRACE`.
fn trace_behind(word: &str) -> Option<&str>
    ensures some { IfSome result (λ trace. word.now ≡ codes "--trace=" ++ trace.now) }
    ensures none { IsNone result → (trace : List ℕ) → word.now ≡ codes "--trace=" ++ trace → ⊥ }
{
    word.strip_prefix(TRACE_IS)
}

// The OLD of `--from=OLD`.
fn old_behind(word: &str) -> Option<&str>
    ensures some { IfSome result (λ old. word.now ≡ codes "--from=" ++ old.now) }
    ensures none { IsNone result → (old : List ℕ) → word.now ≡ codes "--from=" ++ old → ⊥ }
{
    word.strip_prefix(FROM_IS)
}

// The CALLS of `--calls=CALLS`.
fn calls_behind(word: &str) -> Option<&str>
    ensures some { IfSome result (λ calls. word.now ≡ codes "--calls=" ++ calls.now) }
    ensures none { IsNone result → (calls : List ℕ) → word.now ≡ codes "--calls=" ++ calls → ⊥ }
{
    word.strip_prefix(CALLS_IS)
}

// The A:B of `--rounds=A:B`.
fn span_behind(word: &str) -> Option<&str>
    ensures some { IfSome result (λ span. word.now ≡ codes "--rounds=" ++ span.now) }
    ensures none { IsNone result → (span : List ℕ) → word.now ≡ codes "--rounds=" ++ span → ⊥ }
{
    word.strip_prefix(ROUNDS_IS)
}

// The N of `--round=N`.
fn number_behind(word: &str) -> Option<&str>
    ensures some { IfSome result (λ number. word.now ≡ codes "--round=" ++ number.now) }
    ensures none { IsNone result → (number : List ℕ) → word.now ≡ codes "--round=" ++ number → ⊥ }
{
    word.strip_prefix(ROUND_IS)
}

// The LINE of `--until=LINE`.
fn line_behind(word: &str) -> Option<&str>
    ensures some { IfSome result (λ line. word.now ≡ codes "--until=" ++ line.now) }
    ensures none { IsNone result → (line : List ℕ) → word.now ≡ codes "--until=" ++ line → ⊥ }
{
    word.strip_prefix(UNTIL_IS)
}

// The option and the value that are in one word.
fn value_within(word: &str) -> Option<Valued<'_>>
    ensures { MatchOption result (cut_word word.now ≡ word.now ∷ [])
        (λ valued. cut_word word.now ≡ valued.option.now ∷ valued.value.now ∷ []) }
{
    if let Some(round) = round_behind(word) {
        return Some(Valued {
            option: FIRE,
            value: round,
        });
    }
    if let Some(calls) = calls_behind(word) {
        return Some(Valued {
            option: CALLS,
            value: calls,
        });
    }
    if let Some(span) = span_behind(word) {
        return Some(Valued {
            option: ROUNDS,
            value: span,
        });
    }
    of_serve_within(word)
}

// The option of `serve` or of `scan`, and the value, in one word.
fn of_serve_within(word: &str) -> Option<Valued<'_>>
    ensures { MatchOption result (cut_serve_word word.now ≡ word.now ∷ [])
        (λ valued. cut_serve_word word.now ≡ valued.option.now ∷ valued.value.now ∷ []) }
{
    if let Some(trace) = trace_behind(word) {
        return Some(Valued {
            option: TRACE,
            value: trace,
        });
    }
    if let Some(old) = old_behind(word) {
        return Some(Valued {
            option: FROM,
            value: old,
        });
    }
    of_scan_within(word)
}

// The option of `scan` and the value in one word.
fn of_scan_within(word: &str) -> Option<Valued<'_>>
    ensures { MatchOption result (cut_scan_word word.now ≡ word.now ∷ [])
        (λ valued. cut_scan_word word.now ≡ valued.option.now ∷ valued.value.now ∷ []) }
{
    if let Some(number) = number_behind(word) {
        return Some(Valued {
            option: ROUND,
            value: number,
        });
    }
    let line = line_behind(word)?;
    Some(Valued {
        option: UNTIL,
        value: line,
    })
}

// Adds a word; two for an option with its value.
fn add_word(alloc: Global, plain: &mut Vec<String>, word: &str) -> Result<(), AllocError>
    ensures { OnOk result (map string_bytes plain.new.items ≡ map string_bytes plain.old.items
        ++ cut_word word.now) }
{
    match value_within(word) {
        Some(valued) => {
            push_word(alloc, plain, valued.option)?;
            push_word(alloc, plain, valued.value)
        }
        None => push_word(alloc, plain, word),
    }
}

fn push_word(alloc: Global, plain: &mut Vec<String>, word: &str) -> Result<(), AllocError>
    ensures { OnOk result (map string_bytes plain.new.items ≡ map string_bytes plain.old.items
        ++ word.now ∷ []) }
{
    plain.push(String::from_str(alloc, word)?)?;
    Ok(())
}
