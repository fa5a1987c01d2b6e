// Configurations whose declarations are checked.

ghost use Rattle.std.specs.Prelude.{◌≡◌};
ghost use Rattle.il_statics.specs.Faults.{HasNoFault, BreaksDeclarations};
ghost use Rattle.il_statics.specs.Written.{IsWritten, HasFewInstructions, IsNested};

use il_syntax::tree::Config;
use load_scope::Scoped;
use std::marker::Model;

/// A configuration of which no rule of declarations is broken, with what its names mean.
#[derive(Drop)]
pub struct Declared {
    scoped: Scoped,
}

impl Model for Declared {
    ghost use Rattle.il_syntax.specs.declared.tree.Config.{Config};
    ghost use Rattle.il_statics.specs.Faults.{HasNoFault, BreaksDeclarations};

    ghost Value = { Config };

    ghost view = { λ d. d.scoped };

    ghost invariant = { λ d. HasNoFault (BreaksDeclarations d.scoped) };
}

impl Declared {
    /// A configuration whose declarations are checked.
    pub(crate) fn of(scoped: Scoped) -> Declared
        requires { HasNoFault (BreaksDeclarations scoped) }
        ensures { result ≡ scoped }
    {
        Declared { scoped }
    }

    /// The configuration.
    pub fn config(&self) -> &Config
        ensures is { result.now ≡ self.now }
        ensures written { IsWritten self.now }
        ensures few { HasFewInstructions self.now }
        ensures nested { IsNested self.now }
        ensures declared { HasNoFault (BreaksDeclarations self.now) }
    {
        self.scoped.written().tree()
    }

    /// What its names mean.
    pub fn names(&self) -> &Scoped
        ensures { result.now ≡ self.now }
    {
        &self.scoped
    }
}
