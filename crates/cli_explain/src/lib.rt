//! What each fault and each refusal of an event means, with a text that has it and the mended text.
#![tactic(auto)]

mod texts;

ghost use Rattle.std.specs.Prelude.{◌≡◌, ◌↔◌, Contains, IsSome, option_copied};
ghost use Rattle.cli_explain.specs.Explained.{configuration_numbers, meaning_in, numbers, run_numbers};

use crate::texts::{OF_CONFIGURATIONS, OF_RUNS};

/// What a number means.
#[derive(Clone, Copy)]
pub(crate) struct Meaning {
    pub(crate) number: u16,
    pub(crate) text: &'static str,
}

/// What the fault or the refusal of this number means, if there is one (own rule).
pub fn explanation(number: u16) -> Option<&'static str>
    ensures { IsSome result ↔ Contains numbers number }
{
    match of_configuration(number) {
        Some(text) => Some(text),
        None => of_run(number),
    }
}

// What a fault of a configuration means.
fn of_configuration(number: u16) -> Option<&'static str>
    ensures { IsSome result ↔ Contains configuration_numbers number }
{
    Some(meaning_in(&OF_CONFIGURATIONS, number)?.text)
}

// What a refusal means, or a fault of a trace or of a file of calls.
fn of_run(number: u16) -> Option<&'static str>
    ensures { IsSome result ↔ Contains run_numbers number }
{
    Some(meaning_in(&OF_RUNS, number)?.text)
}

/// The first line of what it means: the number and its title.
pub fn title(number: u16) -> Option<&'static str>
    ensures { IsSome result ↔ Contains numbers number }
{
    let text = explanation(number)?;
    Some(first_line(text))
}

fn first_line(text: &str) -> &str {
    match text.split_once('\n') {
        Some((line, _)) => line,
        None => text,
    }
}

// The first meaning of a number.
#[tactic(auto, unfolding(crate::specs::Explained::meaning_in))]
fn meaning_in(meanings: &[Meaning], number: u16) -> Option<&Meaning>
    ensures { option_copied result ≡ meaning_in meanings.now number }
{
    meanings.iter().find(|meaning| meaning.number == number)
}
