//! Parser: the tree that the tokens of a text spell.
#![tactic(auto)]

ghost use Rattle.std.specs.Prelude.{◌≡◌, ◌<◌, ◌≤◌, length, IfOk, IfErr, []};
ghost use Rattle.il_syntax.specs.Text.{AreTokens, upper_case, line_at};
ghost use Rattle.il_syntax.specs.Grammar.{AfterLines, SpellsConfig, Spells, IsWithinLimits};
ghost use Rattle.il_syntax.specs.declared.tree.Config.{Config};
ghost use Rattle.load_lines.specs.Reads.{Reads, Refuses, RefusesBy};
ghost use Rattle.load_tree.specs.Refused.{IsFault, IsOfParser, IsSmall, GoesOnNowhere, NoTextGoesOn, GoesOnBefore};
ghost use Rattle.load_tree.specs.Parts.{SpellsSmallConfig, SpellsConfigBy};
ghost use Rattle.load_lines.specs.declared.stop.SyntaxError.TheVariants.{Unexpected};
ghost use Rattle.load_tree.specs.GoesOn.{BreaksAll};
ghost use Rattle.load_tree.specs.Late.{LeavesLate, AreLateUnits, NoneTooMany};
ghost use Rattle.il_syntax.specs.declared.limits.TheConstants.{LONGEST_TEXT};

mod bodies;
mod configuration;
mod headings;
mod insides;
mod one_unit;
mod units;
mod variables;

pub use bodies::{Entry, body};
use configuration::configuration;
pub use headings::{block, function, program};
pub use il_statics::Written;
pub use il_syntax::fault::Refusal;
pub use il_syntax::token::Token;
use il_syntax::tree::{Config, Place};
pub use insides::{block_inside, function_inside, program_inside};
use load_lines::{Source, Stop, Tokens};
pub use one_unit::unit;
use std::alloc::{AllocError, Global};
pub use variables::{comes, externals, filled_list, full_list, no_list, optional_list};

/// The configuration that the tokens of a text spell.
///
/// Fault 10 is at the first token with which no text goes on; at the end of the text its line is one more than the line
/// feeds. Fault 11 is at the 17th parenthesis that is open at once, and fault 12 at the 65th unit and at the operator of a
/// unit's 4097th instruction. That no text goes on with it is proved, and that one goes on with the tokens before it, in which
/// nothing before it is beyond a limit: a 12 is told before whatever follows it. With the token of fault 11 or 12 one goes
/// on too, beyond the limit: 10 is what the grammar forbids, and 11 and 12 what a limit does. In the one of fault 12 the first
/// unit or instruction too many is at that token.
pub fn parse(alloc: Global, text: &[u8], tokens: &[Token]) -> Result<Written, Refusal>
    requires { AreTokens text.now 0 tokens.now }
    // What is read is spelled so.
    ensures found { IfOk result (λ c. AfterLines (SpellsConfig text.now c) tokens.now []) }
    ensures spelled { IfOk result (λ c. Spells text.now c) }

    // It is small enough.
    ensures small { IfOk result (λ c. IsSmall c) }
    ensures limits { IfOk result (λ c. length text.now ≤ LONGEST_TEXT → IsWithinLimits text.now c) }

    // What is spelled within the limits is read, unless memory runs out.
    ensures refused { IsFault result → (c : Config)
        → AfterLines (SpellsConfig text.now c) tokens.now [] → IsSmall c → ⊥ }

    // With the token that a fault names, no text goes on.
    ensures nowhere { IfErr result (λ e. GoesOnNowhere text.now tokens.now e) }
    ensures texts { IfErr result (λ e. NoTextGoesOn text.now tokens.now e) }

    // With the tokens before it, some text does, in which nothing before it is beyond a limit. With it one does too where
    // only a limit forbids it, and for 12 the first unit or instruction too many is at it.
    ensures before { IfErr result (λ e. GoesOnBefore text.now tokens.now e) }

    // Before a token with which no text goes on nothing is too many, whatever follows.
    ensures early { IfErr result (λ e. NoneTooMany text.now tokens.now e) }

    // What is refused is 10, what no text goes on with, 11, too many open parentheses, or 12, too many units or instructions.
    ensures number { IfErr result (λ e. IsOfParser e) }

    // And nothing else is spelled.
    ensures only { IfOk result (λ c. (d : Config)
        → AfterLines (SpellsConfig text.now d) tokens.now [] → d ≡ c) }
{
    match read(alloc, text, tokens) {
        Ok(tree) => Ok(Written::of(tree)),
        Err(Stop::Memory) => Err(Refusal::Memory),
        Err(Stop::Fault { error, place }) => Err(Refusal::Fault {
            number: error.number(),
            place: place.unwrap_or(end_of(text)),
        }),
    }
}

// The configuration that the tokens of a text spell.
fn read(alloc: Global, text: &[u8], tokens: &[Token]) -> Result<Config, Stop>
    requires { AreTokens text.now 0 tokens.now }
    ensures reads { IfOk result (λ c. Reads (SpellsSmallConfig text.now) tokens.now c []) }
    ensures refused { IfErr result (λ e. RefusesBy SpellsConfigBy text.now tokens.now e) }
    ensures begins { IfErr result (λ e. BreaksAll text.now tokens.now e) }
    ensures late { IfErr result (λ e. LeavesLate (λ vs c. AreLateUnits vs c.units)
        (SpellsConfigBy Unexpected) text.now tokens.now e) }
{
    let upper = in_upper_case(alloc, text)?;
    let source = Source::new(alloc, text, &upper);
    configuration(&source, &mut Tokens::new(tokens))
}

// A text in upper case. Its bytes are written once; std copies them and goes over the copy.
fn in_upper_case(alloc: Global, text: &[u8]) -> Result<Vec<u8>, AllocError>
    ensures { IfOk result (λ v. v.items ≡ upper_case text.now) }
{
    let mut upper = Vec::with_capacity(alloc, text.len())?;
    for byte in text {
        upper.push_reserved(byte.to_ascii_uppercase());
    }
    Ok(upper)
}

// The place of the end of a text. Its line is one more than the line feeds.
fn end_of(text: &[u8]) -> Place
    ensures offset { length text.now < 4294967295 → result.offset ≡ length text.now }
    ensures line { length text.now < 4294967295
        → result.line ≡ line_at text.now (length text.now) }
{
    let feeds = text.iter().filter(|byte| **byte == b'\n').count();
    Place {
        offset: as_u32(text.len()),
        line: as_u32(feeds).saturating_add(1),
    }
}

// A count of bytes of a text, which has fewer than 2^32.
fn as_u32(count: usize) -> u32
    ensures { count < 4294967296 → result ≡ count }
{
    u32::try_from(count).unwrap_or(u32::MAX)
}
