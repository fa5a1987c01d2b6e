// The text of a configuration.

ghost use Rattle.std.specs.Prelude.{◌≡◌, ◌++◌, ℕ, List, Some, IfOk, option_map, slice_get, string_bytes};
ghost use Rattle.il_statics.specs.Faults.{BreaksDeclarations, Broken, Typing, HasNoFault};
ghost use Rattle.show_names.specs.Sources.{shown_source};
ghost use Rattle.show_names.specs.RangeTexts.{IsUnitShown, AreRangesIn};

use crate::range_lines::{Lines, put_heading, put_refused};
use base_json::form::Form;
use il_syntax::tree::Unit;
use load_scope::Scoped;
use ranges_pass::shown_unit;
use std::alloc::{AllocError, Global};

// The lines of a unit, after others.
fn unit_lines(
    alloc: Global,
    names: &Scoped,
    at: usize,
    unit: &Unit,
    form: Form,
    source: Option<&[u8]>,
    before: String,
) -> Result<String, AllocError>
    requires unit { slice_get names.now.units at ≡ Some unit.now }
    requires declared { HasNoFault (BreaksDeclarations names.now) }
    requires typed { HasNoFault (Broken Typing names.now) }
    ensures { IfOk result (λ after. (one : List ℕ)
        × (string_bytes after ≡ string_bytes before ++ one)
        × IsUnitShown form (option_map (λ s. s.now) source.entry) names.now unit.now one) }
{
    let mut text = before;
    put_heading(alloc, &mut text, form, unit)?;
    let lines = Lines {
        alloc,
        form,
        text,
        source,
    };
    let (found, lines) = shown_unit(alloc, names, at, unit, lines)?;
    let Lines { mut text, .. } = lines;
    put_refused(alloc, &mut text, form, &found)?;
    Ok(text)
}

// The lines of all units, with the text of their instructions where that is to be shown.
fn units_text(
    alloc: Global,
    names: &Scoped,
    form: Form,
    source: Option<&[u8]>,
) -> Result<String, AllocError>
    requires declared { HasNoFault (BreaksDeclarations names.now) }
    requires typed { HasNoFault (Broken Typing names.now) }
    ensures { IfOk result (λ t. AreRangesIn form (option_map (λ s. s.now) source.entry) names.now
        (string_bytes t)) }
{
    let units = names.config().units.as_slice();
    let mut lines = String::new(alloc);
    'units: for at in 0..units.len() {
        lines = unit_lines(alloc, names, at, &units[at], form, source, lines)?;
    }
    Ok(lines)
}

/// What the verifier knows before each instruction of each unit, in the written order: after a heading for each unit a
/// line for each instruction, with the range of the current result and of the variables that it names (own rule). The
/// lines of a unit that is refused end after the instruction that is refused. TIME is in milliseconds. `with_text` has
/// each line show the text of its instruction, as it is in `source`, the text of the configuration.
/// In a form: lines, or an object for each of them. Objects have no text of an instruction.
pub fn ranges_in(
    alloc: Global,
    names: &Scoped,
    form: Form,
    with_text: bool,
    source: &[u8],
) -> Result<String, AllocError>
    requires declared { HasNoFault (BreaksDeclarations names.now) }
    requires typed { HasNoFault (Broken Typing names.now) }
    ensures { IfOk result (λ t. AreRangesIn form (shown_source with_text source.now) names.now
        (string_bytes t)) }
{
    if with_text {
        units_text(alloc, names, form, Some(source))
    } else {
        units_text(alloc, names, form, None)
    }
}
