// The next line of a text, and words at its front.

ghost use Rattle.std.specs.Prelude.{◌≡◌, ◌++◌, ℕ, List, IfSome, IfNone, IfOk, IfErr};
ghost use Rattle.trace_text.specs.Reading.{IsOneLine};
ghost use Rattle.group_state.specs.Lines.{IsNext};

use crate::fault::StateFault;
use trace_text::parts::split_line;

/// The next line of a text, without its line feed, and what follows that.
pub fn next_line(text: &[u8]) -> Result<(&[u8], &[u8]), StateFault>
    ensures found { IfOk result (λ p. IsNext text.now p.0.now p.1.now) }
    ensures wrong { IfErr result (λ fault. (fault ≡ StateFault.Truncated) × IsOneLine text.now) }
{
    match split_line(text) {
        Some((line, rest)) => Ok((line, rest)),
        None => Err(StateFault::Truncated),
    }
}

/// What follows a word with which a text begins.
pub fn behind<'a>(word: &[u8], text: &'a [u8]) -> Option<&'a [u8]>
    ensures found { IfSome result (λ rest. text.now ≡ word.now ++ rest.now) }
    ensures none { IfNone result ((rest : List ℕ) → text.now ≡ word.now ++ rest → ⊥) }
{
    text.strip_prefix(word)
}
