// Trees as texts spell them.

ghost use Rattle.std.specs.Prelude.{◌≡◌};
ghost use Rattle.il_statics.specs.Written.{IsWritten, HasFewInstructions, IsNested};

use il_syntax::tree::Config;
use std::marker::Model;

/// A configuration as a text can spell it within the limits: its names are words, no unit has more than 4096 instructions, and in no
/// body more than 16 parentheses are open at once. The parser makes it; who gets it need not ask for any of this. Contracts see it as
/// the tree.
pub struct Written {
    tree: Config,
}

// Written by hand, since who drops a type whose drop is derived proves the drop of each type inside again.
impl Drop for Written {
    fn drop(self) {
        let Written { tree: _tree } = self;
    }
}

impl Model for Written {
    ghost use Rattle.il_syntax.specs.declared.tree.Config.{Config};
    ghost use Rattle.il_statics.specs.Written.{IsWritten, HasFewInstructions, IsNested};

    ghost Value = { Config };

    ghost view = { λ w. w.tree };

    ghost invariant = { λ w. IsWritten w.tree × HasFewInstructions w.tree × IsNested w.tree };
}

impl Written {
    /// A tree that a text can spell within the limits.
    pub fn of(tree: Config) -> Written
        requires written { IsWritten tree }
        requires few { HasFewInstructions tree }
        requires nested { IsNested tree }
        ensures { result ≡ tree }
    {
        Written { tree }
    }

    /// The tree.
    pub fn tree(&self) -> &Config
        ensures same { result.now ≡ self.now }
        ensures written { IsWritten self.now }
        ensures few { HasFewInstructions self.now }
        ensures nested { IsNested self.now }
    {
        &self.tree
    }
}
