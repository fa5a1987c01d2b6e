// Code with ranges.

ghost use Rattle.std.specs.Prelude.{◌≡◌};
ghost use Rattle.il_statics.specs.Faults.{Broken, Declaring, Typing, Ordering, HasNoFault};
ghost use Rattle.il_semantics.specs.Annotation.{Annotated};

use load_code::Code;
use load_scope::Scoped;
use std::marker::Model;

/// The code of a configuration of which no rule of declarations, types and order is broken, each instruction of which has ranges, so that
/// none of its scans traps.
pub struct Checked {
    code: Code,
}

// Written by hand, since who drops a type whose drop is derived proves the drop of each type inside again.
impl Drop for Checked {
    fn drop(self) {
        let Checked { code: _code } = self;
    }
}

impl Model for Checked {
    ghost use Rattle.il_syntax.specs.declared.tree.Config.{Config};
    ghost use Rattle.il_semantics.specs.Annotation.{Annotated};

    ghost Value = { Config };

    ghost view = { λ c. c.code };

    ghost invariant = { λ c. Annotated c.code };
}

impl Checked {
    // Code with ranges.
    pub(crate) fn of(code: Code) -> Checked
        requires { Annotated code }
        ensures { result ≡ code }
    {
        Checked { code }
    }

    /// The configuration, with what its names mean.
    pub fn names(&self) -> &Scoped
        ensures is { result.now ≡ self.now }
        ensures declared { HasNoFault (Broken Declaring self.now) }
        ensures typed { HasNoFault (Broken Typing self.now) }
        ensures ordered { HasNoFault (Broken Ordering self.now) }
        ensures annotated { Annotated self.now }
    {
        self.code.names()
    }

    /// The code.
    pub fn code(&self) -> &Code
        ensures is { result.now ≡ self.now }
        ensures annotated { Annotated self.now }
    {
        &self.code
    }
}
