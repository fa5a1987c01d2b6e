// Names.

ghost use Rattle.std.specs.Prelude.{◌≡◌, IfOk};
ghost use Rattle.il_syntax.specs.Kept.{kept_text};

use arrayvec::ArrayString;
use std::alloc::{AllocError, Global};
use std::marker::Model;

// The most bytes of a text that is kept inside its name.
const MOST_INSIDE: usize = 32;

// How the text of a name is kept: inside it where there is room, otherwise on memory of its own.
#[derive(Drop)]
enum Kept {
    Inside(ArrayString<MOST_INSIDE>),
    Apart(String),
}

/// A name in upper case, or the path of a variable. Contracts see its bytes.
pub struct Name {
    text: Kept,
}

// Written by hand, since who drops a type whose drop is derived proves the drop of each type inside again.
impl Drop for Name {
    fn drop(self) {
        let Name { text: _text } = self;
    }
}

impl Model for Name {
    ghost use Rattle.std.specs.Prelude.{List, ℕ};
    ghost use Rattle.il_syntax.specs.Kept.{kept_text};

    ghost Value = { List ℕ };

    ghost view = { λ n. kept_text n.text };
}

// A text, kept.
fn keep(alloc: Global, text: &str) -> Result<Kept, AllocError>
    ensures { IfOk result (λ k. kept_text k ≡ text.now) }
{
    match ArrayString::from(text) {
        Ok(inside) => Ok(Kept::Inside(inside)),
        Err(_) => Ok(Kept::Apart(String::from_str(alloc, text)?)),
    }
}

impl Name {
    /// A name of this text. One of at most 32 bytes takes no memory.
    #[inline(always)]
    pub fn of(alloc: Global, text: &str) -> Result<Name, AllocError>
        ensures { IfOk result (λ n. n ≡ text.now) }
    {
        Ok(Name {
            text: keep(alloc, text)?,
        })
    }

    /// The name's text.
    pub fn as_str(&self) -> &str
        ensures { result.now ≡ self.now }
    {
        match &self.text {
            Kept::Inside(text) => text.as_str(),
            Kept::Apart(text) => text.as_str(),
        }
    }
}
