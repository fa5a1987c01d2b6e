//! What is reported of a token, a byte or a literal with which a text spells no configuration.
#![tactic(auto)]

ghost use Rattle.std.specs.Prelude.{◌≤◌, length, IfOk};
ghost use Rattle.il_syntax.specs.Grammar.{Spells};
ghost use Rattle.load_tree.specs.Refused.{IsFault};
ghost use Rattle.load_text.specs.Loading.{SpellsNone};
ghost use Rattle.il_syntax.specs.declared.limits.TheConstants.{LONGEST_TEXT};

mod expected;
mod expected_search;
pub mod fractions;
mod instead;
pub mod left_out;
mod parentheses;
pub mod unexpected;

use il_statics::Written;
use il_syntax::fault::Refusal;
use load_tokens::tokens;
use load_tree::parse;
use std::alloc::Global;

/// The configuration that a text spells, or its refusal by number and place.
pub fn spelled(alloc: Global, text: &[u8]) -> Result<Written, Refusal>
    ensures found { IfOk result (λ c. Spells text.now c) }
    ensures short { IfOk result (λ c. length text.now ≤ LONGEST_TEXT) }
    ensures none { IsFault result → SpellsNone text.now }
{
    let tokens = tokens(alloc, text)?;
    let written = parse(alloc, text, &tokens)?;
    Ok(written)
}
