// What the words of `watch` mean.

ghost use Rattle.std.specs.Prelude.{◌≡◌, ◌++◌, ◌∷◌, [], IfOk, OnOk, map, option_map, string_bytes};
ghost use Rattle.cli_host.specs.Requests.{words_of};
ghost use Rattle.show_values.specs.Known.{parts_of};
ghost use Rattle.show_values.specs.Words.{starred, parts_or, expanded_by, expanded, meant};

use crate::known::{known_names, parts_in};
use crate::names::upper_names;
use cli_host::request::Words;
use group_world::World;
use scan_task::Verified;
use std::alloc::{AllocError, Global};

/// The names that words mean in a group: in the place of `NAME.*` all parts of the name, in the text's order. Where it has none, the word
/// stays, which has no value.
pub fn meant(alloc: Global, world: &World, words: Words<'_>) -> Result<Vec<String>, AllocError>
    ensures { IfOk result (λ names. map string_bytes names.items
        ≡ meant world.now.program.config (words_of words.entry)) }
{
    let upper = upper_names(alloc, words)?;
    expanded(alloc, world.verified(), &upper)
}

// The words that mean several, of words in upper case.
fn expanded(alloc: Global, verified: &Verified, words: &[String]) -> Result<Vec<String>, AllocError>
    ensures { IfOk result (λ names. map string_bytes names.items
        ≡ expanded verified.now.config (map string_bytes words.now)) }
{
    let mut names = Vec::new(alloc);
    'words: for word in words {
        add_word(alloc, &mut names, verified, word)?;
    }
    Ok(names)
}

fn add_word(
    alloc: Global,
    names: &mut Vec<String>,
    verified: &Verified,
    word: &str,
) -> Result<(), AllocError>
    ensures { OnOk result (map string_bytes names.new.items ≡ map string_bytes names.old.items
        ++ expanded_by verified.now.config word.now (starred word.now)) }
{
    match starred(word) {
        Some(whole) => add_parts(alloc, names, verified, word, whole),
        None => add_copy(alloc, names, word),
    }
}

// The name before `.*` at the end of a word.
fn starred(word: &str) -> Option<&str>
    ensures { option_map (λ whole. whole.now) result ≡ starred word.now }
{
    word.strip_suffix(".*")
}

fn add_parts(
    alloc: Global,
    names: &mut Vec<String>,
    verified: &Verified,
    word: &str,
    whole: &str,
) -> Result<(), AllocError>
    ensures { OnOk result (map string_bytes names.new.items ≡ map string_bytes names.old.items
        ++ parts_or word.now (parts_of verified.now.config whole.now)) }
{
    let known = known_names(alloc, verified)?;
    let parts = parts_in(alloc, &known, whole)?;
    if parts.is_empty() {
        add_copy(alloc, names, word)
    } else {
        add_copies(alloc, names, &parts)
    }
}

fn add_copy(alloc: Global, names: &mut Vec<String>, name: &str) -> Result<(), AllocError>
    ensures { OnOk result (map string_bytes names.new.items
        ≡ map string_bytes names.old.items ++ name.now ∷ []) }
{
    names.push(String::from_str(alloc, name)?)?;
    Ok(())
}

fn add_copies(alloc: Global, names: &mut Vec<String>, parts: &[&str]) -> Result<(), AllocError>
    ensures { OnOk result (map string_bytes names.new.items ≡ map string_bytes names.old.items
        ++ map (λ p. p.now) parts.now) }
{
    'parts: for part in parts {
        add_copy(alloc, names, part)?;
    }
    Ok(())
}
