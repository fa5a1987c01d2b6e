// The standard function blocks (IEC 61131-3:2003, 2.5.2.3).

ghost use Rattle.std.specs.Prelude.{◌≡◌, find, option_map};
ghost use Rattle.il_statics.specs.Names.{entry_of, standard_block, standard_inputs, standard_outputs, word_form};
ghost use Rattle.load_scope.specs.Words.{is_name};

use crate::words::is_name;
use il_statics::names::StandardBlock;
use il_statics::standard::{BlockWord, NamedBlock, standard_blocks, words_of};
use il_syntax::tree::Elementary;

/// The standard block of a name (2.5.2.3).
pub fn standard_block(name: &str) -> Option<StandardBlock>
    ensures { result ≡ standard_block name.now }
{
    match row_named(standard_blocks(), name) {
        Some(row) => Some(row.block),
        None => None,
    }
}

// The row of a name.
fn row_named<'a>(rows: &'a [NamedBlock], name: &str) -> Option<&'a NamedBlock>
    ensures { option_map (λ r. r.now) result
        ≡ find (λ r. is_name r.name.now name.now) rows.now }
{
    rows.iter().find(|row| is_name(name, row.name))
}

/// The type of a standard block's input by its word (2.5.2.3).
pub fn standard_input(block: StandardBlock, word: &str) -> Option<Elementary>
    ensures { option_map word_form result ≡ entry_of (standard_inputs block) word.now }
{
    match word_among(words_of(block).inputs, word) {
        Some(found) => Some(found.elementary),
        None => None,
    }
}

/// The type of a standard block's output by its word (2.5.2.3).
pub fn standard_output(block: StandardBlock, word: &str) -> Option<Elementary>
    ensures { option_map word_form result ≡ entry_of (standard_outputs block) word.now }
{
    match word_among(words_of(block).outputs, word) {
        Some(found) => Some(found.elementary),
        None => None,
    }
}

// The variable of a word.
fn word_among<'a>(words: &'a [BlockWord], word: &str) -> Option<&'a BlockWord>
    ensures { option_map (λ w. w.now) result
        ≡ find (λ w. is_name w.name.now word.now) words.now }
{
    words.iter().find(|each| is_name(word, each.name))
}
