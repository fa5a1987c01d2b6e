// The code of configurations.

ghost use Rattle.std.specs.Prelude.{◌≡◌, ◌<◌, length, map, slice_get, Some};
ghost use Rattle.il_syntax.specs.declared.tree.Unit.{Unit as ProgramUnit};
ghost use Rattle.il_statics.specs.Faults.{Broken, Declaring, Typing, Ordering, HasNoFault};
ghost use Rattle.il_statics.specs.Written.{IsWritten, IsNested};
ghost use Rattle.il_semantics.specs.Scan.{program_of};
ghost use Rattle.load_slots.specs.Layout.{AreOnce};
ghost use Rattle.load_slots.specs.Program.{program_names};
ghost use Rattle.load_code.specs.Tasks.{IsTaskOf, AreGlobals, Belongs};
ghost use Rattle.load_slots.specs.Whole.{unit_code};

use crate::task::TaskCode;
use base_lists::Items;
use il_syntax::tree::Config;
use load_order::Ordered;
use load_scope::Scoped;
use load_slots::flat::UnitCode;
use std::marker::Model;

/// What the code of a configuration keeps beside it.
#[derive(Drop)]
pub(crate) struct Parts {
    pub units: Items<UnitCode>,
    pub tasks: Items<TaskCode>,
    pub globals: TaskCode,
}

/// An ordered configuration with the flat code of its units and the slots of its tasks. Contracts see the configuration.
#[derive(Drop)]
pub struct Code {
    ordered: Ordered,
    parts: Parts,
}

impl Model for Code {
    ghost use Rattle.il_syntax.specs.declared.tree.Config.{Config};
    ghost use Rattle.load_code.specs.Tasks.{AreGlobals, Belongs};

    ghost Value = { Config };

    ghost view = { λ c. c.ordered };

    ghost invariant = { λ c. Belongs c.ordered c.parts.units c.parts.tasks × AreGlobals c.ordered c.parts.globals };
}

impl Code {
    /// An ordered configuration with its code.
    pub(crate) fn of(ordered: Ordered, parts: Parts) -> Code
        requires belongs { Belongs ordered parts.units parts.tasks }
        requires globals { AreGlobals ordered parts.globals }
        ensures { result ≡ ordered }
    {
        Code { ordered, parts }
    }

    /// The configuration, with what its names mean.
    pub fn names(&self) -> &Scoped
        ensures is { result.now ≡ self.now }
        ensures written { IsWritten self.now }
        ensures declared { HasNoFault (Broken Declaring self.now) }
        ensures typed { HasNoFault (Broken Typing self.now) }
        ensures ordered { HasNoFault (Broken Ordering self.now) }
    {
        self.ordered.names()
    }

    /// The configuration.
    pub fn config(&self) -> &Config
        ensures is { result.now ≡ self.now }
        ensures written { IsWritten self.now }
        ensures declared { HasNoFault (Broken Declaring self.now) }
        ensures typed { HasNoFault (Broken Typing self.now) }
        ensures ordered { HasNoFault (Broken Ordering self.now) }
        ensures nested { IsNested self.now }
    {
        self.ordered.config()
    }

    /// The flat code of each unit, in the written order.
    pub fn units(&self) -> &[UnitCode]
        ensures { result.now ≡ map (unit_code (program_names self.now) self.now) self.now.units }
    {
        self.parts.units.as_slice()
    }

    /// The slots of the globals; all of them stay.
    pub fn globals(&self) -> &TaskCode
        ensures is { AreGlobals self.now result.now }
        ensures once { AreOnce result.now.cells }
    {
        &self.parts.globals
    }

    /// The slots of the task of a PROGRAM line, by the line's number, counted from 0.
    pub fn task(&self, line: usize) -> &TaskCode
        requires { line < length self.now.programs }
        ensures is { (p : ProgramUnit) → program_of self.now (slice_get self.now.programs line)
            ≡ Some p → IsTaskOf self.now p result.now }
        ensures once { (p : ProgramUnit) → program_of self.now (slice_get self.now.programs line)
            ≡ Some p → AreOnce result.now.cells }
    {
        &self.parts.tasks.as_slice()[line]
    }
}
