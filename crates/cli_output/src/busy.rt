// The units of a configuration that may do much work.

ghost use Rattle.std.specs.Prelude.{◌≡◌, IfOk, OnOk, map};
ghost use Rattle.base_texts.specs.Puts.{Puts};
ghost use Rattle.load_order.specs.Counted.{number_at};
ghost use Rattle.il_work_laws.specs.Work.{most_work};
ghost use Rattle.load_work.specs.Sizes.{capped};
ghost use Rattle.cli_output.specs.Busy.{busy_line, busy_by, busy_lines};

use crate::limits::number_at;
use base_lists::Items;
use il_syntax::tree::{Config, Unit};
use load_scope::Scoped;
use load_work::works;
use std::alloc::{AllocError, Global};

// More work than this is warned of: the greatest budget.
const MUCH_WORK: usize = 1_000_000;

/// Writes a warning for each unit whose steps and moves may be more than the greatest budget, at the line of its heading
/// (own rule).
pub fn put_busy(alloc: Global, text: &mut String, names: &Scoped) -> Result<(), AllocError>
    ensures { OnOk result (Puts text.old text.new (busy_lines names.now)) }
{
    let works = works(alloc, names)?;
    put_units(text, names.config(), &works)
}

fn put_units(text: &mut String, config: &Config, works: &Items<usize>) -> Result<(), AllocError>
    requires { works.now ≡ map (λ u. capped (most_work config.now u)) config.now.units }
    ensures { OnOk result (Puts text.old text.new (busy_lines config.now)) }
{
    let units = config.units.as_slice();
    'units: for at in 0..units.len() {
        put_unit(text, &units[at], number_at(works, at))?;
    }
    Ok(())
}

// A unit with this work, where that is much.
fn put_unit(text: &mut String, unit: &Unit, used: usize) -> Result<(), AllocError>
    ensures { OnOk result (Puts text.old text.new (busy_by used unit.now)) }
{
    if MUCH_WORK < used {
        put_line(text, unit.place.line, unit.name.name.as_str(), used)
    } else {
        Ok(())
    }
}

// `line 3: SCENE may do 2400000 steps and moves, more than 1000000`
#[tactic(auto, unfolding(crate::specs::Busy::busy_line))]
fn put_line(text: &mut String, line: u32, name: &str, used: usize) -> Result<(), AllocError>
    ensures { OnOk result (Puts text.old text.new (busy_line line name.now used)) }
{
    write!(text, "line {}: {}", line, name)?;
    writeln!(text, " may do {} steps and moves, more than 1000000", used)
}
