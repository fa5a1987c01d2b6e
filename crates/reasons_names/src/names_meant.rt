// What a name means where it is, as far as it is reported.

ghost use Rattle.std.specs.Prelude.{◌≡◌, is_some, option_and_then};
ghost use Rattle.il_statics.specs.Names.{entry_of};
ghost use Rattle.il_statics.specs.Declarations.{is_visible};
ghost use Rattle.il_statics.specs.Types.{instance_block};
ghost use Rattle.reasons_names.specs.NamesUnknown.{meant, type_meant, binding_meant, rule_access};

use load_scope::UnitScope;
use load_scope::entry::{Binding, VariableType};

/// What a name means in a unit.
#[derive(Clone, Copy)]
pub enum Meant {
    Nothing,
    SingleVariable,
    ArrayVariable,
    /// An instance of a function block.
    Instance,
    OwnUnit,
    /// A standard function or block.
    Standard,
}

/// Whether an operand is read or stored into.
#[derive(Clone, Copy)]
pub enum Access {
    Reads,
    Stores,
}

/// What a name means in a unit (IEC 61131-3:2003, 2.4.3).
#[tactic(auto, using(crate::proofs::Meanings::binding_is_meant))]
pub fn meaning_of(here: &UnitScope, name: &str) -> Meant
    ensures { result ≡ meant here.now.config here.now.unit name.now }
{
    binding_meant(here.meaning(name))
}

fn binding_meant(binding: Option<Binding>) -> Meant
    ensures { result ≡ binding_meant binding }
{
    match binding {
        Some(Binding::Variable(variable)) => type_meant(variable.declared),
        Some(Binding::Unit) => Meant::OwnUnit,
        Some(Binding::Standard) => Meant::Standard,
        None => Meant::Nothing,
    }
}

fn type_meant(declared: VariableType) -> Meant
    ensures { result ≡ type_meant declared }
{
    match declared {
        VariableType::Scalar(_) => Meant::SingleVariable,
        VariableType::Array { .. } => Meant::ArrayVariable,
        VariableType::Instance(_) => Meant::Instance,
    }
}

/// Whether a word after an instance is an output, or an input where it is stored into (2.5.2.1).
#[tactic(auto, using(crate::proofs::Meanings::visible_read, crate::proofs::Meanings::visible_stored))]
pub fn is_visible(here: &UnitScope, access: Access, name: &str, word: &str) -> bool
    ensures { result ≡ is_visible (rule_access access)
        (instance_block here.now.config here.now.unit name.now) word.now }
{
    match access {
        Access::Reads => has_output(here, name, word),
        Access::Stores => has_output(here, name, word) || has_input(here, name, word),
    }
}

/// Whether a word is an output of an instance (2.5.2.1).
#[tactic(auto, using(crate::proofs::Meanings::some_changed))]
pub fn has_output(here: &UnitScope, name: &str, word: &str) -> bool
    ensures { result ≡ is_some (option_and_then (λ b. entry_of b.outputs word.now)
        (instance_block here.now.config here.now.unit name.now)) }
{
    here.output(name, word).is_some()
}

/// Whether a word is an input of an instance (2.5.2.1).
#[tactic(auto, using(crate::proofs::Meanings::some_changed))]
pub fn has_input(here: &UnitScope, name: &str, word: &str) -> bool
    ensures { result ≡ is_some (option_and_then (λ b. entry_of b.inputs word.now)
        (instance_block here.now.config here.now.unit name.now)) }
{
    here.input(name, word).is_some()
}
