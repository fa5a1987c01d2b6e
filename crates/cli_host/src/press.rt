// The presses that a simulation makes.

ghost use Rattle.std.specs.Prelude.{◌≡◌, ◌++◌, ◌∷◌, [], ℕ, List, IfSome, IfErr, IfOk, IsNone, OnOk, map, string_bytes};
ghost use Rattle.cli_host.specs.Requests.{IsNumberTo, words_of};
ghost use Rattle.cli_host.specs.Presses.{IsPressOf, IsPress, AreOfWords, ArePresses, IsUnpressed, IsUnpressedWord, parts_of};
ghost use Rattle.cli_host.specs.declared.press.Press.{Press};

use crate::request::{Words, number_to};
use base_lists::Items;
use std::alloc::{AllocError, Global};
use thiserror::Error;

// The most presses of a command.
const MOST_PRESSES: usize = 1000;

/// The most panels of a floor.
pub(crate) const MOST_PANELS: u16 = 4;

/// A press of a landing panel: the round before which it comes, the floors from which and to which, and which of the
/// floor's panels it is, counted from 1.
#[derive(Clone, Copy)]
pub struct Press {
    pub round: u16,
    pub from: u16,
    pub to: u16,
    pub panel: u16,
}

/// What is set of the plant from a round on.
#[derive(Clone, Copy)]
pub enum Set {
    /// FIRE.
    Fire(bool),
    /// RUNLIMIT: how many cars may run.
    RunLimit(u8),
}

/// What is set of the plant, and from which round on, until it is set anew.
#[derive(Clone, Copy)]
pub struct Setting {
    pub round: u16,
    pub set: Set,
}

/// Why words give no presses.
#[derive(Debug, Drop, Error)]
pub enum PressFault {
    /// This word is no press.
    #[error("`{0}` is no press")]
    Bad(String),
    /// There are more than 1000 words.
    #[error("more than 1000 presses")]
    TooMany,
    /// An allocation failed.
    #[error("out of memory")]
    NoMemory,
}

impl From<AllocError> for PressFault {
    ghost use Rattle.std.specs.Prelude.{◌≡◌};
    ghost use Rattle.cli_host.specs.declared.press.PressFault.TheVariants.{NoMemory};

    ghost from_gives = { λ _ f. f ≡ NoMemory };

    fn from(_error: AllocError) -> PressFault {
        PressFault::NoMemory
    }
}

/// The round that the word after `--fire` spells in decimal, from 1 to `rounds`.
pub fn fire_round(word: &str, rounds: u16) -> Option<u16>
    ensures some { IfSome result (IsNumberTo rounds word.now) }
    ensures none { IsNone result → (n : ℕ) → IsNumberTo rounds word.now n → ⊥ }
{
    number_to(rounds, word)
}

/// The presses that words spell, each as `ROUND:FROM:TO` or `ROUND:FROM:TO:PANEL` in decimal: a round from 1 to
/// `rounds`, two different floors from 1 to `floors` and a panel from 1 to 4, which is 1 where none is written.
pub fn presses(
    alloc: Global,
    words: Words<'_>,
    rounds: u16,
    floors: u16,
) -> Result<Items<Press>, PressFault>
    ensures ok { IfOk result (ArePresses rounds floors (words_of words.entry)) }
    ensures err { IfErr result (IsUnpressed rounds floors (words_of words.entry)) }
{
    if words.len() > MOST_PRESSES {
        return Err(PressFault::TooMany);
    }
    each_press(alloc, words, rounds, floors)
}

// A press for each word.
fn each_press(
    alloc: Global,
    words: Words<'_>,
    rounds: u16,
    floors: u16,
) -> Result<Items<Press>, PressFault>
    ensures ok { IfOk result (AreOfWords rounds floors (words_of words.entry)) }
    ensures err { IfErr result (IsUnpressedWord rounds floors (words_of words.entry)) }
{
    let mut presses = Items::new(alloc);
    add_presses(alloc, &mut presses, words.front, rounds, floors)?;
    add_presses(alloc, &mut presses, words.middle, rounds, floors)?;
    add_presses(alloc, &mut presses, words.back, rounds, floors)?;
    Ok(presses)
}

// Adds a press for each word.
fn add_presses(
    alloc: Global,
    presses: &mut Items<Press>,
    words: &[String],
    rounds: u16,
    floors: u16,
) -> Result<(), PressFault>
    ensures ok { OnOk result ((before : List (List ℕ))
        → AreOfWords rounds floors before presses.old
        → AreOfWords rounds floors (before ++ map string_bytes words.now) presses.new) }
    ensures err { IfErr result (IsUnpressedWord rounds floors (map string_bytes words.now)) }
{
    'words: for word in words {
        match press_of(word, rounds, floors) {
            Some(press) => presses.push(press)?,
            None => return Err(PressFault::Bad(String::from_str(alloc, word)?)),
        }
    }
    Ok(())
}

// The press that a word spells.
fn press_of(word: &str, rounds: u16, floors: u16) -> Option<Press>
    ensures some { IfSome result (IsPress rounds floors word.now) }
    ensures none { IsNone result → (press : Press) → IsPress rounds floors word.now press → ⊥ }
{
    let (round, rest) = first_part(word)?;
    let (from, to) = first_part(rest)?;
    match first_part(to) {
        None => press_by(round, from, to, 1, rounds, floors),
        Some((to, panel)) => {
            let panel = number_to(MOST_PANELS, panel)?;
            press_by(round, from, to, panel, rounds, floors)
        }
    }
}

// What comes before the first colon of a text, and what follows it.
fn first_part(text: &str) -> Option<(&str, &str)>
    ensures some { IfSome result (λ parts. parts_of text.now ≡ parts.0.now ∷ parts_of parts.1.now) }
    ensures none { IsNone result → parts_of text.now ≡ text.now ∷ [] }
{
    text.split_once(':')
}

// The press of these parts.
fn press_by(
    round: &str,
    from: &str,
    to: &str,
    panel: u16,
    rounds: u16,
    floors: u16,
) -> Option<Press>
    ensures some { IfSome result (λ press. IsPressOf rounds floors round.now from.now to.now press
        × (press.panel ≡ panel)) }
    ensures none { IsNone result → (press : Press)
        → IsPressOf rounds floors round.now from.now to.now press → ⊥ }
{
    let press = Press {
        round: number_to(rounds, round)?,
        from: number_to(floors, from)?,
        to: number_to(floors, to)?,
        panel,
    };
    if press.from == press.to {
        return None;
    }
    Some(press)
}
