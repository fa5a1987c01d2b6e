// The words of the standard blocks (IEC 61131-3:2003, 2.5.2.3).

ghost use Rattle.std.specs.Prelude.{◌≡◌, ◌+◌, length, map, option_map};
ghost use Rattle.il_statics.specs.Tables.{word};
ghost use Rattle.load_scope.specs.Words.{is_name};
ghost use Rattle.load_slots.specs.Making.{all_words, place_from, standard_offset, word_variable};
ghost use Rattle.load_slots.specs.Places.{capped};

use crate::sizes::sum;
use il_statics::names::StandardBlock;
use il_statics::standard::{BlockWord, words_of};

// Whether a name is this word: a function of its own, so that no caller's proof sees the bytes.
#[tactic(auto, unfolding(load_scope::specs::Words::is_name))]
fn is_word(name: &str, word: &str) -> bool
    ensures { result ≡ is_name word.now name.now }
{
    name.len() == word.len() && name == word
}

// How far a word is from the first of its block, where so many come before these.
fn place_behind(before: usize, words: &[BlockWord], name: &str) -> Option<usize>
    ensures { result ≡ option_map (λ k. capped (before + k))
        (place_from 0 (map (λ w. word_variable (word w)) words.now) name.now) }
{
    for at in 0..words.len() {
        if is_word(name, words[at].name) {
            return Some(sum(before, at));
        }
    }
    None
}

/// How far a word of a standard block is from the first.
pub fn standard_offset(block: StandardBlock, word: &str) -> Option<usize>
    ensures { result ≡ standard_offset block word.now }
{
    let words = words_of(block);
    let outputs = words.inputs.len();
    let inner = sum(outputs, words.outputs.len());
    place_behind(0, words.inputs, word)
        .or(place_behind(outputs, words.outputs, word))
        .or(place_behind(inner, words.inner, word))
}

/// How many slots a standard block takes.
pub(crate) fn standard_size(block: StandardBlock) -> usize
    ensures { result ≡ capped (length (all_words block)) }
{
    let words = words_of(block);
    sum(
        sum(words.inputs.len(), words.outputs.len()),
        words.inner.len(),
    )
}
