// What is known at a place, and who is shown it.

ghost use Rattle.std.specs.Prelude.{◌≡◌, ◌++◌, ℕ, List, Option, Some, None, OnOk};
ghost use Rattle.il_syntax.specs.declared.tree.Step.{Step as StepOf};
ghost use Rattle.base_maps.specs.NameMap.{get};
ghost use Rattle.il_semantics.specs.Annotation.{Knowledge};
ghost use Rattle.ranges_laws.specs.Facts.{shown};

use crate::numbered_unit::NumberedUnit;
use il_semantics::known::{Known, KnownDeferred};
use il_syntax::tree::Step;
use ranges_interval::Interval;
use ranges_laws::facts::Facts;
use std::alloc::AllocError;
use std::marker::Model;

/// What is known before an instruction: the facts of the pass, with what names mean in the unit.
#[derive(Drop)]
pub struct PlaceFacts<'n> {
    scope: &'n NumberedUnit<'n>,
    facts: &'n Facts,
}

impl<'n> Model for PlaceFacts<'n> {
    ghost use Rattle.il_semantics.specs.Annotation.{Knowledge};
    ghost use Rattle.ranges_laws.specs.Facts.{shown};
    ghost use Rattle.ranges_pass.specs.Shown.{knowledge_code};

    ghost Value = { Knowledge };

    ghost coded = { knowledge_code };

    ghost view = { λ k. shown k.scope.now k.facts.now };
}

impl<'n> PlaceFacts<'n> {
    /// These facts of a place of this unit.
    pub fn of(scope: &'n NumberedUnit<'n>, facts: &'n Facts) -> PlaceFacts<'n>
        ensures { result ≡ shown scope.now facts.now }
    {
        PlaceFacts { scope, facts }
    }

    /// What is known of the current result, if there is one.
    pub fn result(&self) -> Option<Known>
        ensures { result ≡ self.now.result }
    {
        let _scope = self.scope;
        self.facts.result
    }

    /// What is known of the results that were set aside for a `)`, the innermost first.
    pub fn deferred(&self) -> &[KnownDeferred]
        ensures { result.now ≡ self.now.deferred }
    {
        let _scope = self.scope;
        self.facts.deferred.as_slice()
    }

    /// The range of the variable of a name, if it is a scalar with numbers. TIME is in milliseconds.
    pub fn range(&self, name: &str) -> Option<Interval>
        ensures { result ≡ get self.now.variables name.now }
    {
        self.scope.range(&self.facts.row, name)
    }
}

/// What sees the instructions of a unit with what is known before each, and writes a text of it.
pub trait Witness {
    // The text so far.
    ghost text: { Self → List ℕ };

    // What it writes of an instruction, by what is known before it; none where nothing reaches it.
    ghost shows: { Self → StepOf → Option Knowledge → List ℕ };

    /// An instruction that is reached, with what is known before it.
    fn reached(&mut self, step: &Step, known: &PlaceFacts) -> Result<(), AllocError>
        ensures text { OnOk result (text self.new ≡ text self.old
            ++ shows self.old step.now (Some known.now)) }
        ensures same { OnOk result (shows self.new ≡ shows self.old) };

    /// An instruction that nothing reaches.
    fn not_reached(&mut self, step: &Step) -> Result<(), AllocError>
        ensures text { OnOk result (text self.new ≡ text self.old ++ shows self.old step.now None) }
        ensures same { OnOk result (shows self.new ≡ shows self.old) };
}
