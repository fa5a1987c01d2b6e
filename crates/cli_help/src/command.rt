// Help, the version, and what the parser says of wrong words.

ghost use Rattle.std.specs.Prelude.{◌≡◌, ℕ, List, IfSome, true, map, string_bytes};
ghost use Rattle.cli_help.specs.Helps.{IsAskedFor, ask_for_help, begin_with_help, has_help_option, is_help_option, is_helper, is_short_help};

use crate::misuse::{error_of, misuse_of};
use crate::table::{EXPLAIN, commands};
use clap::Command;
use clap::error::ErrorKind;
use cli_explain::explanation;
use cli_host::request::number_to;
use std::alloc::{AllocError, Global};

const VERSION: &str = "0.1.0";

const AFTER_HELP: &str = "\
With every command, --explain shows below a fault the line of a refused FILE, TRACE or CALLS and what its number means, or the wrong word or file, as on a terminal.

Exit status:
  0  done
  2  the command line, FILE, TRACE or CALLS is refused
  3  FILE, TRACE or CALLS can't be read, or standard output or the TRACE of `serve` can't be written
  4  out of memory

A refused FILE prints `refused NUMBER at line LINE`: `liftplc explain NUMBER` and docs/FAULTS.md say what it means.";

// The command that shows help.
const HELP: &str = "help";

// The greatest number of a fault.
const MOST_NUMBER: u16 = 99;

/// What words say that ask for nothing.
#[derive(Drop)]
pub enum Answer {
    /// Help or the version was asked for: its text.
    Help(String),
    /// The words are wrong: what the parser of the command line says.
    Misuse(String),
    NoMemory,
}

// The program with its commands.
fn program<'a>(alloc: Global) -> Result<Command<'a>, AllocError> {
    Command::new(alloc, "liftplc")
        .version(VERSION)
        .about("Runs lift groups on programs in Instruction List")
        .after_help(AFTER_HELP)
        .no_binary_name(true)
        .subcommand_required(true)
        .bin_name("liftplc")?
        .subcommands(commands(alloc)?)
}

// Whether a word is an option that asks for help or the version; after a short one others may be.
fn is_help_option(word: &str) -> bool
    ensures { result ≡ is_help_option word.now }
{
    word == "--help" || word == "--version" || is_short_help(word.as_bytes())
}

// Whether a word begins with `-h` or `-V`.
fn is_short_help(word: &[u8]) -> bool
    ensures { result ≡ is_short_help word.now }
{
    matches!(word, [b'-', b'h' | b'V', ..])
}

// Whether one of the words is such an option.
fn has_help_option(words: &[String]) -> bool
    ensures { result ≡ has_help_option (map string_bytes words.now) }
{
    'words: for word in words {
        if is_help_option(word) {
            return true;
        }
    }
    false
}

// Whether the first word is `help` or `explain`.
fn begin_with_help(words: &[String]) -> bool
    ensures { result ≡ begin_with_help (map string_bytes words.now) }
{
    match words.first() {
        Some(word) => is_helper(word),
        None => false,
    }
}

// Whether a word is the command `help` or `explain`.
fn is_helper(word: &str) -> bool
    ensures { result ≡ is_helper word.now }
{
    word == HELP || word == EXPLAIN
}

// Whether words ask for help, the version or what a number means.
fn ask_for_help(words: &[String]) -> bool
    ensures { result ≡ ask_for_help (map string_bytes words.now) }
{
    begin_with_help(words) || has_help_option(words)
}

// What comes of the parser's error of these words.
fn answer_to(alloc: Global, words: &[String], error: clap::Error) -> Answer
    ensures { IsAskedFor (map string_bytes words.now) result }
{
    if let ErrorKind::OutOfMemory = error.kind() {
        return Answer::NoMemory;
    }
    let is_help = !error.use_stderr() && ask_for_help(words);
    match format!(in alloc; "{error}") {
        Ok(text) if is_help => Answer::Help(text),
        Ok(text) => answer_to_misuse(alloc, &text),
        Err(_) => Answer::NoMemory,
    }
}

// What the parser says of wrong words, without its tip to put `--` before them, which the commands don't take.
fn answer_to_misuse(alloc: Global, text: &str) -> Answer
    ensures { (words : List (List ℕ)) → IsAskedFor words result }
{
    match without_tip(alloc, text) {
        Ok(text) => Answer::Misuse(text),
        Err(_) => Answer::NoMemory,
    }
}

fn without_tip(alloc: Global, text: &str) -> Result<String, AllocError> {
    let Some((front, tip)) = text.split_once("  tip: to pass '") else {
        return String::from_str(alloc, text);
    };
    let rest = tip.split_once("\n\n").map_or("", |parts| parts.1);
    let mut text = String::from_str(alloc, front)?;
    text.push_str(rest)?;
    Ok(text)
}

// The parser's error.
fn parsed<'w>(
    alloc: Global,
    command: &mut Command<'w>,
    words: &'w [String],
) -> Result<clap::Error, AllocError> {
    match command.try_get_matches_from_mut(words) {
        Ok(_) => error_of(alloc, command, misuse_of(words)),
        Err(error) => Ok(error),
    }
}

fn error_in(alloc: Global, words: &[String]) -> Result<clap::Error, AllocError> {
    let mut command = program(alloc)?;
    parsed(alloc, &mut command, words)
}

// What words explain, if they are `explain` and a number that has a meaning.
fn explained(words: &[String]) -> Option<&'static str>
    ensures { IfSome result (λ _. ask_for_help (map string_bytes words.now) ≡ true) }
{
    match words {
        [command, number] if command.as_str() == EXPLAIN => explanation(number_to(
            MOST_NUMBER,
            number,
        )?),
        _ => None,
    }
}

// What the parser says of words, in which it finds no control character to hand on.
fn parser_answer(alloc: Global, words: &[String]) -> Answer
    ensures { IsAskedFor (map string_bytes words.now) result }
{
    match printed_error(alloc, words) {
        Ok(error) => answer_to(alloc, words, error),
        Err(_) => Answer::NoMemory,
    }
}

fn printed_error(alloc: Global, words: &[String]) -> Result<clap::Error, AllocError> {
    let mut printed = Vec::new(alloc);
    'words: for word in words {
        printed.push(printed_word(alloc, word)?)?;
    }
    error_in(alloc, &printed)
}

// A word with `?` for each control character.
fn printed_word(alloc: Global, word: &str) -> Result<String, AllocError> {
    let mut printed = String::new(alloc);
    'characters: for character in word.chars() {
        printed.push(if character.is_control() {
            '?'
        } else {
            character
        })?;
    }
    Ok(printed)
}

/// What the program prints of words that ask for no file.
pub fn answer_of(alloc: Global, words: &[String]) -> Answer
    ensures { IsAskedFor (map string_bytes words.now) result }
{
    let Some(text) = explained(words) else {
        return parser_answer(alloc, words);
    };
    match String::from_str(alloc, text) {
        Ok(text) => Answer::Help(text),
        Err(_) => Answer::NoMemory,
    }
}
