// Names that are near.

ghost use Rattle.std.specs.Prelude.{◌≡◌, ◌++◌, IfOk, IfSome, OnOk, map, option_map};
ghost use Rattle.base_texts.specs.Puts.{Puts};
ghost use Rattle.reasons_names.specs.NameSpots.{shown};
ghost use Rattle.reasons_names.specs.NamesNear.{declared_name, candidate_shown, near_shown, distance, is_short, are_few, are_fewer, after_edits, nearer, nearest, IsNearest, declared_words, external_words, nearness, hint_of, hint, ending};

use crate::names_spots::Spot;
use crate::writing::{put_numbered, put_two};
use std::alloc::{AllocError, Global};
use strsim::osa_distance;

// The most edits that lead to a near name.
const MOST_EDITS: usize = 2;

// The most bytes of a name that is compared.
const MOST_BYTES: usize = 32;

/// A name that could have been meant, and the line where it is declared; a predeclared one has none.
#[derive(Clone, Copy)]
pub struct Candidate<'c> {
    pub name: &'c str,
    pub line: Option<u32>,
}

/// A name that is near, and how many edits lead to it.
#[derive(Clone, Copy)]
pub struct Near<'c> {
    pub candidate: Candidate<'c>,
    pub distance: usize,
}

/// Of names the one that is nearest to a name, of equals the first; none where none is near (own rule).
#[tactic(auto, using(crate::proofs::Nearest::nearest_is))]
pub fn nearest<'c>(
    alloc: Global,
    name: &str,
    candidates: &[Candidate<'c>],
) -> Result<Option<Near<'c>>, AllocError>
    ensures first { IfOk result (λ n. option_map near_shown n
        ≡ nearest name.now (map candidate_shown candidates.now)) }
    ensures nobody_nearer { IfOk result (λ n. IfSome (option_map near_shown n)
        (IsNearest name.now (map candidate_shown candidates.now))) }
{
    let mut found = None;
    'candidates: for candidate in candidates {
        found = nearer(alloc, name, found, *candidate)?;
    }
    Ok(found)
}

// What is found after one name more.
#[tactic(auto, unfolding(crate::specs::NamesNear::nearer))]
fn nearer<'c>(
    alloc: Global,
    name: &str,
    found: Option<Near<'c>>,
    candidate: Candidate<'c>,
) -> Result<Option<Near<'c>>, AllocError>
    ensures { IfOk result (λ n. option_map near_shown n
        ≡ nearer name.now (option_map near_shown found.entry) (candidate_shown candidate.entry)) }
{
    if is_short(name) && is_short(candidate.name) {
        let edits = distance(alloc, name, candidate.name)?;
        return Ok(after_edits(name, found, candidate, edits));
    }
    Ok(found)
}

// How many edits lead from a name to another.
#[tactic(auto, unfolding(crate::specs::NamesNear::distance))]
fn distance(alloc: Global, from: &str, to: &str) -> Result<usize, AllocError>
    ensures { IfOk result (λ d. d ≡ distance from.now to.now) }
{
    osa_distance(alloc, from, to)
}

// Whether a name is short enough to be compared.
fn is_short(name: &str) -> bool
    ensures { result ≡ is_short name.now }
{
    name.len() <= MOST_BYTES
}

// What is found after a name that so many edits lead to.
fn after_edits<'c>(
    name: &str,
    found: Option<Near<'c>>,
    candidate: Candidate<'c>,
    edits: usize,
) -> Option<Near<'c>>
    ensures { option_map near_shown result
        ≡ after_edits name.now (option_map near_shown found.entry) (candidate_shown candidate.entry) edits }
{
    if are_few(name, edits) && are_fewer(edits, found) {
        Some(Near {
            candidate,
            distance: edits,
        })
    } else {
        found
    }
}

// Whether so many edits are few for a name.
fn are_few(name: &str, edits: usize) -> bool
    ensures { result ≡ are_few name.now edits }
{
    edits <= MOST_EDITS && edits < name.len()
}

// Whether so many edits are fewer than those to what was found.
fn are_fewer(edits: usize, found: Option<Near<'_>>) -> bool
    ensures { result ≡ are_fewer edits (option_map near_shown found.entry) }
{
    match found {
        Some(near) => edits < near.distance,
        None => true,
    }
}

/// Adds declared names to candidates.
pub fn push_spots<'c>(
    candidates: &mut Vec<Candidate<'c>>,
    spots: &[Spot<'c>],
) -> Result<(), AllocError>
    ensures { OnOk result (map candidate_shown candidates.new.items
        ≡ map candidate_shown candidates.old.items ++ map declared_name (shown spots.now)) }
{
    'spots: for spot in spots {
        candidates.push(Candidate {
            name: spot.name,
            line: Some(spot.place.line),
        })?;
    }
    Ok(())
}

/// Ends a line that reports of a name: with what is said of one that is near, if there is one: `; NEAR is near`, and the line where it is declared (own rule).
#[tactic(auto, unfolding(crate::specs::NamesNear::ending))]
pub fn put_ending(text: &mut String, near: Option<Near<'_>>) -> Result<(), AllocError>
    ensures { OnOk result (Puts text.old text.new (ending (option_map near_shown near.entry))) }
{
    put_hint(text, near)?;
    text.push_str("\n")
}

/// A name with words after it, and the end of the line.
pub fn put_ended(
    text: &mut String,
    name: &str,
    words: &str,
    near: Option<Near<'_>>,
) -> Result<(), AllocError>
    ensures { OnOk result (Puts text.old text.new
        (name.now ++ (words.now ++ ending (option_map near_shown near.entry)))) }
{
    put_two(text, name, words)?;
    put_ending(text, near)
}

// What is said of a name that is near.
#[tactic(auto, unfolding(crate::specs::NamesNear::hint_of))]
fn put_hint(text: &mut String, near: Option<Near<'_>>) -> Result<(), AllocError>
    ensures { OnOk result (Puts text.old text.new (hint (option_map near_shown near.entry))) }
{
    match near {
        Some(near) => {
            put_two(text, "; ", near.candidate.name)?;
            put_nearness(text, near.distance, near.candidate.line)
        }
        None => Ok(()),
    }
}

// Where a name is that so many edits lead to.
fn put_nearness(text: &mut String, edits: usize, line: Option<u32>) -> Result<(), AllocError>
    ensures { OnOk result (Puts text.old text.new (nearness edits line)) }
{
    match line {
        Some(line) => {
            put_numbered(text, declared_words(edits), line)?;
            text.push_str(external_words(edits))
        }
        None => text.push_str(" is near"),
    }
}

// What is said of a declared name that so many edits lead to.
fn declared_words(edits: usize) -> &'static str
    ensures { result.now ≡ declared_words edits }
{
    match edits {
        0 => " is declared in line ",
        _ => " is near, declared in line ",
    }
}

// What is missing for a declared name that no edit leads to.
fn external_words(edits: usize) -> &'static str
    ensures { result.now ≡ external_words edits }
{
    match edits {
        0 => ", and this unit has no VAR_EXTERNAL of it",
        _ => "",
    }
}
