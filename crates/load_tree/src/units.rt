// The units of a text.

ghost use Rattle.load_lines.specs.Reads.{Reads, Refuses, fault_at, turn, RefusesBy};
ghost use Rattle.load_tree.specs.Late.{LeavesLate, AreLateUnits};
ghost use Rattle.load_tree.specs.GoesOn.{BreaksUnits};
ghost use Rattle.std.specs.Prelude.{◌≡◌, length, IsTrue, IsFalse, IfOk, IfErr, ◌⊎◌};
ghost use Rattle.load_lines.specs.declared.stop.SyntaxError.{SyntaxError};
ghost use Rattle.load_tree.specs.Parts.{SpellsFewUnits, SpellsFewUnitsBy};
ghost use Rattle.load_lines.specs.Lead.{lead_at};
ghost use Rattle.load_lines.specs.declared.stop.SyntaxError.TheVariants.{Unexpected, TooMany};
ghost use Rattle.load_tree.specs.Units.{unit_begins};
ghost use Rattle.il_syntax.specs.declared.limits.TheConstants.{MOST_UNITS};

use crate::one_unit::unit;
use base_lists::Items;
use il_syntax::keyword::Keyword;
use il_syntax::limits::MOST_UNITS;
use il_syntax::tree::Unit;
use load_lines::{Lead, Source, Stop, SyntaxError, Tokens};

// Whether a text has as many units as it may have.
fn is_full(units: &Items<Unit>) -> bool
    ensures yes { IsTrue result → length units.now ≡ MOST_UNITS }
    ensures no { IsFalse result → length units.now ≡ MOST_UNITS → ⊥ }
{
    units.as_slice().len() == MOST_UNITS
}

// Why no unit may be here: it is one too many, or it is none.
fn surplus(source: &Source, tokens: &Tokens) -> Stop
    ensures { ((result ≡ fault_at TooMany tokens.now)
        × IsTrue (unit_begins (lead_at source.now tokens.now)))
        ⊎ ((result ≡ fault_at Unexpected tokens.now)
        × IsFalse (unit_begins (lead_at source.now tokens.now))) }
{
    match source.lead(tokens) {
        Lead::Reserved(Keyword::Function | Keyword::FunctionBlock | Keyword::Program) => {
            tokens.fault(SyntaxError::TooMany)
        }
        _ => tokens.outside(),
    }
}

/// The units of a text, and CONFIGURATION.
pub fn units(source: &Source, tokens: &mut Tokens) -> Result<Items<Unit>, Stop>
    ensures reads { IfOk result (λ us. Reads (SpellsFewUnits source.now) tokens.old us tokens.new) }
    ensures refused { IfErr result (λ e. RefusesBy SpellsFewUnitsBy source.now tokens.old e) }
    ensures begins { IfErr result (λ e. BreaksUnits source.now tokens.old e) }
    ensures late { IfErr result (λ e. LeavesLate AreLateUnits
        (SpellsFewUnitsBy Unexpected) source.now tokens.old e) }
{
    let mut units = Items::new(source.alloc());
    'units: while !source.eat_word(tokens, Keyword::Configuration) {
        if is_full(&units) {
            return Err(surplus(source, tokens));
        }
        let unit = unit(source, tokens)?;
        units.push(unit)?;
        tokens.skip_lines();
    }
    Ok(units)
}
