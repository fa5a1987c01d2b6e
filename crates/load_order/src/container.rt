// Configurations whose order is checked.

ghost use Rattle.std.specs.Prelude.{◌≡◌, ◌↔◌, true, slice_get, Some};
ghost use Rattle.il_syntax.specs.declared.tree.Unit.{Unit as ProgramUnit};
ghost use Rattle.il_statics.specs.Faults.{Broken, Typing, Ordering, HasNoFault, BreaksDeclarations};
ghost use Rattle.il_statics.specs.Written.{IsWritten, HasFewInstructions, IsNested};
ghost use Rattle.load_order.specs.Instances.{Needs, needed};

use crate::relation::{Relation, holds};
use il_syntax::tree::Config;
use load_scope::Scoped;
use load_types::Typed;
use std::marker::Model;

/// A configuration of which no rule of declarations, types and order is broken, with what its names mean and which units need which.
#[derive(Drop)]
pub struct Ordered {
    typed: Typed,
    relation: Relation,
}

impl Model for Ordered {
    ghost use Rattle.il_syntax.specs.declared.tree.Config.{Config};
    ghost use Rattle.std.specs.Prelude.{◌≡◌};
    ghost use Rattle.il_statics.specs.Faults.{Broken, Ordering, HasNoFault};
    ghost use Rattle.load_order.specs.Instances.{needed};

    ghost Value = { Config };

    ghost view = { λ o. o.typed };

    ghost invariant = { λ o. HasNoFault (Broken Ordering o.typed) × (o.relation ≡ needed o.typed) };
}

impl Ordered {
    // A configuration whose order is checked.
    pub(crate) fn of(typed: Typed, relation: Relation) -> Ordered
        requires ordered { HasNoFault (Broken Ordering typed) }
        requires needed { relation ≡ needed typed }
        ensures { result ≡ typed }
    {
        Ordered { typed, relation }
    }

    /// The configuration.
    pub fn config(&self) -> &Config
        ensures is { result.now ≡ self.now }
        ensures written { IsWritten self.now }
        ensures few { HasFewInstructions self.now }
        ensures nested { IsNested self.now }
        ensures declared { HasNoFault (BreaksDeclarations self.now) }
        ensures typed { HasNoFault (Broken Typing self.now) }
        ensures ordered { HasNoFault (Broken Ordering self.now) }
    {
        self.typed.config()
    }

    /// What its names mean.
    pub fn names(&self) -> &Scoped
        ensures { result.now ≡ self.now }
    {
        self.typed.names()
    }

    /// Whether a unit needs another, by their numbers: it uses it, directly or through others (IEC 61131-3:2003, 2.5). A declaration
    /// without a name, which no text spells, is no use.
    pub fn needs(&self, unit: usize, other: usize) -> bool
        ensures { (U V : ProgramUnit) → slice_get self.now.units unit ≡ Some U
            → slice_get self.now.units other ≡ Some V → (result ≡ true) ↔ Needs self.now U V }
    {
        let _config = self.typed.config();
        holds(&self.relation, unit, other)
    }
}
