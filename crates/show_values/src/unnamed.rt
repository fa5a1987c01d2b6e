// What is said of a name that has no value.

ghost use Rattle.std.specs.Prelude.{◌≡◌, ◌++◌, ℕ, List, IfOk, OnOk, codes, flat_map, map, string_bytes};
ghost use Rattle.base_texts.specs.Puts.{Puts};
ghost use Rattle.reasons_names.specs.NamesNear.{nearest, predeclared_name, candidate_shown};
ghost use Rattle.show_values.specs.Unnamed.{more_text, near_text, sentence_by, unnamed_sentence};

use crate::known::{known_names, parts_in};
use reasons_names::names_near::{Candidate, nearest};
use scan_task::Verified;
use std::alloc::{AllocError, Global};

// How many parts are shown after the first.
const MOST_MORE: usize = 7;

/// What is said of a name that has no value: which parts it has, or which name is near.
pub fn unnamed_sentence(
    alloc: Global,
    verified: &Verified,
    name: &str,
) -> Result<String, AllocError>
    ensures { IfOk result (λ says. string_bytes says
        ≡ unnamed_sentence verified.now.config name.now) }
{
    let names = known_names(alloc, verified)?;
    let parts = parts_in(alloc, &names, name)?;
    sentence_by(alloc, name, &names, &parts)
}

fn sentence_by(
    alloc: Global,
    name: &str,
    names: &[String],
    parts: &[&str],
) -> Result<String, AllocError>
    ensures { IfOk result (λ says. string_bytes says
        ≡ sentence_by name.now (map string_bytes names.now) (map (λ p. p.now) parts.now)) }
{
    let mut text = String::new(alloc);
    match parts {
        [] => {
            text.push_str("no field, variable of a task or global has this name")?;
            put_near(alloc, &mut text, name, names)?;
        }
        [part, more @ ..] => {
            text.push_str("it has parts; name one of ")?;
            text.push_str(part)?;
            put_more(&mut text, more)?;
        }
    }
    Ok(text)
}

// The name that is near, if there is one.
fn put_near(
    alloc: Global,
    text: &mut String,
    name: &str,
    names: &[String],
) -> Result<(), AllocError>
    ensures { OnOk result (Puts text.old text.new
        (near_text (nearest name.now (map predeclared_name (map string_bytes names.now))))) }
{
    match nearest(alloc, name, &candidates(alloc, names)?)? {
        Some(near) => {
            text.push_str("; near is ")?;
            text.push_str(near.candidate.name)
        }
        None => Ok(()),
    }
}

fn candidates(alloc: Global, names: &[String]) -> Result<Vec<Candidate<'_>>, AllocError>
    ensures { IfOk result (λ all. map candidate_shown all.items
        ≡ map predeclared_name (map string_bytes names.now)) }
{
    let mut all = Vec::new(alloc);
    'names: for name in names {
        all.push(Candidate { name, line: None })?;
    }
    Ok(all)
}

// The parts after the first, as many as are shown.
fn put_more(text: &mut String, more: &[&str]) -> Result<(), AllocError>
    ensures { OnOk result (Puts text.old text.new (more_text (map (λ p. p.now) more.now))) }
{
    let shown = more.len().min(MOST_MORE);
    put_each(text, &more[..shown])?;
    if shown < more.len() {
        text.push_str(" ..")?;
    }
    Ok(())
}

fn put_each(text: &mut String, parts: &[&str]) -> Result<(), AllocError>
    ensures { OnOk result (Puts text.old text.new
        (flat_map (λ (name : List ℕ). codes ", " ++ name) (map (λ p. p.now) parts.now))) }
{
    'parts: for part in parts {
        text.push_str(", ")?;
        text.push_str(part)?;
    }
    Ok(())
}
