// What is reported of a label that does not be in its unit (34).

ghost use Rattle.std.specs.Prelude.{◌≡◌, IfOk, OnOk, option_map};
ghost use Rattle.base_texts.specs.Puts.{Puts};
ghost use Rattle.reasons_names.specs.NamesNear.{near_shown, nearest};
ghost use Rattle.reasons_names.specs.NamesLabels.{missing_line, labels_near, missing_text, jump_text};

use crate::names_near::{Near, nearest, push_spots, put_ended};
use crate::names_spots::label_spots;
use il_syntax::tree::{Body, Instruction};
use load_scope::UnitScope;
use std::alloc::{AllocError, Global};

/// Adds what is reported of the label of a jump: that it isn't in its unit, and one that is near (own rule).
pub fn put_jump(
    alloc: Global,
    text: &mut String,
    scope: &UnitScope<'_>,
    instruction: &Instruction,
) -> Result<(), AllocError>
    ensures { OnOk result (Puts text.old text.new (jump_text scope.now.unit.body instruction.now)) }
{
    match instruction {
        Instruction::Jump { label, .. } => put_missing(alloc, text, scope, label.name.as_str()),
        _ => Ok(()),
    }
}

// The name of a label, where the body lacks it.
fn put_missing(
    alloc: Global,
    text: &mut String,
    scope: &UnitScope<'_>,
    name: &str,
) -> Result<(), AllocError>
    ensures { OnOk result (Puts text.old text.new (missing_text scope.now.unit.body name.now)) }
{
    if scope.label(name).is_some() {
        return Ok(());
    }
    let near = near_label(alloc, &scope.tree().body, name)?;
    put_missing_line(text, name, near)
}

// The label that is nearest to a name.
fn near_label<'c>(alloc: Global, body: &'c Body, name: &str) -> Result<Option<Near<'c>>, AllocError>
    ensures { IfOk result (λ n. option_map near_shown n ≡ nearest name.now (labels_near body.now)) }
{
    let labels = label_spots(alloc, body)?;
    let mut candidates = Vec::new(alloc);
    push_spots(&mut candidates, labels.as_slice())?;
    nearest(alloc, name, candidates.as_slice())
}

#[tactic(auto, unfolding(crate::specs::NamesLabels::missing_line))]
fn put_missing_line(text: &mut String, name: &str, near: Option<Near<'_>>) -> Result<(), AllocError>
    ensures { OnOk result (Puts text.old text.new
        (missing_line name.now (option_map near_shown near.entry))) }
{
    text.push_str("label ")?;
    put_ended(text, name, " is not in this unit", near)
}
