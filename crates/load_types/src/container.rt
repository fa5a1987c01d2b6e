// Configurations whose types are checked.

ghost use Rattle.std.specs.Prelude.{◌≡◌};
ghost use Rattle.il_statics.specs.Faults.{Broken, Typing, HasNoFault, BreaksDeclarations};
ghost use Rattle.il_statics.specs.Written.{IsWritten, HasFewInstructions, IsNested};

use il_syntax::tree::Config;
use load_declarations::Declared;
use load_scope::Scoped;
use std::marker::Model;

/// A configuration of which no rule of declarations and none of types is broken, with what its names mean.
#[derive(Drop)]
pub struct Typed {
    declared: Declared,
}

impl Model for Typed {
    ghost use Rattle.il_syntax.specs.declared.tree.Config.{Config};
    ghost use Rattle.il_statics.specs.Faults.{Broken, Typing, HasNoFault, BreaksDeclarations};

    ghost Value = { Config };

    ghost view = { λ t. t.declared };

    ghost invariant = { λ t. HasNoFault (Broken Typing t.declared) };
}

impl Typed {
    // A configuration whose types are checked.
    pub(crate) fn of(declared: Declared) -> Typed
        requires { HasNoFault (Broken Typing declared) }
        ensures { result ≡ declared }
    {
        Typed { declared }
    }

    /// The configuration.
    pub fn config(&self) -> &Config
        ensures is { result.now ≡ self.now }
        ensures written { IsWritten self.now }
        ensures few { HasFewInstructions self.now }
        ensures nested { IsNested self.now }
        ensures declared { HasNoFault (BreaksDeclarations self.now) }
        ensures typed { HasNoFault (Broken Typing self.now) }
    {
        self.declared.config()
    }

    /// What its names mean.
    pub fn names(&self) -> &Scoped
        ensures { result.now ≡ self.now }
    {
        self.declared.names()
    }
}
