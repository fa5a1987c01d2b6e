// What the body of a unit uses, by name and manner.

ghost use Rattle.std.specs.Prelude.{◌≡◌, ◌++◌, List, ℕ, IfOk, OnOk};
ghost use Rattle.show_names.specs.declared.uses.Manner.{Manner};
ghost use Rattle.show_names.specs.Uses.{is_used, use_shown};
ghost use Rattle.show_names.specs.Xref.{use_line, use_lines};
ghost use Rattle.show_names.specs.Lines.{line_of, AreSound, HaveUses};

use crate::lines::Lines;
use crate::uses::{Manner, Use, uses};
use il_syntax::tree::{Step, Unit};
use std::alloc::{AllocError, Global};

/// A unit, and the lines in which its body uses each name.
#[derive(Drop)]
pub struct UnitUses<'c> {
    pub unit: &'c Unit,
    lines: Lines<u32>,
    ghost holds: { HaveUses lines unit.now.body.steps },
}

impl<'c> UnitUses<'c> {
    /// The uses of a unit, in one pass over its body.
    pub fn of(alloc: Global, unit: &'c Unit) -> Result<UnitUses<'c>, AllocError>
        ensures { IfOk result (λ u. u.unit.now ≡ unit.now) }
    {
        let lines = lines_of(alloc, unit.body.steps.as_slice())?;
        Ok(UnitUses { unit, lines })
    }

    /// The lines in which the body uses a name in a manner.
    pub fn lines(&self, manner: Manner, name: &str) -> &[u32]
        ensures { result.now ≡ use_lines self.now.unit.now.body.steps name.now manner }
    {
        self.lines.of(manner, name)
    }

    /// Whether the body uses a name in a manner.
    pub fn is_used(&self, manner: Manner, name: &str) -> bool
        ensures { result ≡ is_used manner name.now self.now.unit.now.body.steps }
    {
        !self.lines(manner, name).is_empty()
    }
}

// The lines in which steps use names.
fn lines_of(alloc: Global, steps: &[Step]) -> Result<Lines<u32>, AllocError>
    ensures { IfOk result (λ l. HaveUses l steps.now) }
{
    let mut lines = Lines::new(alloc);
    'uses: for used in uses(steps) {
        add_use(alloc, &mut lines, &used)?;
    }
    Ok(lines)
}

// Adds the line of a use.
fn add_use(alloc: Global, lines: &mut Lines<u32>, used: &Use<'_>) -> Result<(), AllocError>
    requires { AreSound lines.old }
    ensures sound { OnOk result (AreSound lines.new) }
    ensures lines { OnOk result ((name : List ℕ) (manner : Manner) → line_of lines.new name manner
        ≡ line_of lines.old name manner ++ use_line manner name (use_shown used.now)) }
{
    lines.push(alloc, used.manner, used.name, used.line)
}
