// From a text to a verified configuration.

ghost use Rattle.std.specs.Prelude.{ℕ, ◌≡◌, IfOk, IfErr, IsErrAnd, map};
ghost use Rattle.il_syntax.specs.declared.fault.Refusal.TheVariants.{Fault};
ghost use Rattle.il_syntax.specs.declared.tree.Config.{Config as ConfigOf};
ghost use Rattle.il_syntax.specs.declared.tree.Place.{Place};
ghost use Rattle.il_statics.specs.Faults.{HasNoFault, IsRefusedBy};
ghost use Rattle.il_statics.specs.Written.{IsWritten, IsNested};
ghost use Rattle.il_semantics.specs.Annotation.{Annotated};
ghost use Rattle.load_tree.specs.Refused.{IsFault};
ghost use Rattle.il_semantics.specs.Paths.{longest};
ghost use Rattle.load_budgets.specs.Costs.{IsTooLong, cost_of, path_of};
ghost use Rattle.load_slots.specs.Program.{program_names};
ghost use Rattle.load_slots.specs.Whole.{unit_code};
ghost use Rattle.scan_loop.specs.Windows.{AreAllQuick};
ghost use Rattle.scan_task.specs.Sharing.{ArePlans};
ghost use Rattle.il_work_laws.specs.Work.{ScansDoNoMore};
ghost use Rattle.group_laws.specs.Runs.{RunsWell};
ghost use Rattle.load_text.specs.Loading.{IsSpelled, SpellsOnly, SpellsNone, IsUnbroken, IsAccepted, IsRefusedFor, IsSpelledWith, IsExplained, ReportsFaultOfText, ReportsFaultOfGrammar};

use il_fault_laws::one_fault_of_grammar;
use il_syntax::fault::Refusal;
use il_syntax::pair::both;
use load_budgets::{Budget, Checked, Path, budget, verify};
use load_code::code;
use load_declarations::declare;
use load_order::{Ordered, ordered};
use load_tokens::tokens;
use load_tree::{Written, parse};
use load_types::typed;
use scan_task::{Tables, Verified, tables_of};
use std::alloc::Global;

/// The configuration that a text spells, verified.
///
/// A text is refused with the first fault of these phases, in their order: tokens (1 to 6), grammar (10 to 12), declarations (20 to 25),
/// types (30 to 35, 37 to 39), order and slots (36, 46, 12), ranges (40 to 44), budgets (50). From 20 on it is the phase's fault at the
/// earliest place, at one place the one with the lowest number.
pub fn load(alloc: Global, text: &[u8]) -> Result<Verified, Refusal>
    ensures found { IfOk result (λ v. IsAccepted text.now v.config) }
    ensures costs { IfOk result (λ v. v.costs ≡ map (cost_of v.config) v.config.units) }
    ensures runs { IfOk result (λ v. RunsWell v.config) }
    ensures works { IfOk result (λ v. ScansDoNoMore v.config) }
    ensures refused { IsFault result → (c : ConfigOf) → IsAccepted text.now c → ⊥ }
    ensures named { IsFault result → (c : ConfigOf) → IsSpelled text.now c
        → IsErrAnd result (IsRefusedFor c) }
    ensures number { IfErr result (IsExplained text.now) }

    // A text whose bytes have a fault is refused with this fault and no other.
    ensures bytes { ReportsFaultOfText text.now result }

    // One that has tokens and spells no configuration within the limits is refused with its fault of the grammar and no other.
    ensures grammar { ReportsFaultOfGrammar text.now result }

    // A text that spells a configuration has no other fault.
    ensures one { IsFault result → (n : ℕ) (p : Place) → IsSpelledWith text.now (Fault n p)
        → IsErrAnd result (λ e. e ≡ Fault n p) }
{
    let config = parsed(alloc, text)?;
    verified(alloc, config)
}

/// The configuration that a text spells, of which no rule of declarations, types and order is broken: what `load` comes to before it
/// looks for ranges.
pub fn unbroken(alloc: Global, text: &[u8]) -> Result<Ordered, Refusal>
    ensures found { IfOk result (λ o. IsSpelled text.now o × IsUnbroken o) }
    ensures none { IsFault result → (c : ConfigOf) → IsSpelled text.now c → IsUnbroken c → ⊥ }
    ensures number { IfErr result (IsExplained text.now) }
    ensures bytes { ReportsFaultOfText text.now result }
{
    let written = parsed(alloc, text)?;
    in_order(alloc, written)
}

/// The configuration that a text spells. Its tokens are given up before it is verified.
pub(crate) fn parsed(alloc: Global, text: &[u8]) -> Result<Written, Refusal>
    ensures only { IfOk result (SpellsOnly text.now) }
    ensures written { IfOk result IsWritten }
    ensures nested { IfOk result IsNested }
    ensures none { IsFault result → SpellsNone text.now }
    ensures number { IfErr result (IsExplained text.now) }
    ensures bytes { ReportsFaultOfText text.now result }
    ensures grammar { ReportsFaultOfGrammar text.now result }
{
    one_fault_of_grammar();
    let tokens = tokens(alloc, text)?;
    let config = parse(alloc, text, &tokens)?;
    Ok(config)
}

// A configuration that breaks no rule of declarations, types and order, or the first that it breaks.
fn in_order(alloc: Global, config: Written) -> Result<Ordered, Refusal>
    ensures same { IfOk result (λ o. o ≡ config) }
    ensures unbroken { IfOk result (λ _. IsUnbroken config) }
    ensures refused { IfErr result (IsRefusedFor config) }
    ensures broken { IsFault result → IsUnbroken config → ⊥ }
{
    let declared = declare(alloc, config)?;
    let typed = typed(alloc, declared)?;
    ordered(alloc, typed)
}

// A configuration that a text spells, verified, or its first fault: its order is checked, its code is made, ranges are found, and budgets.
fn verified(alloc: Global, config: Written) -> Result<Verified, Refusal>
    ensures same { IfOk result (λ v. v.config ≡ config) }
    ensures unbroken { IfOk result (λ _. IsUnbroken config) }
    ensures annotated { IfOk result (λ _. Annotated config) }
    ensures affordable { IfOk result (λ _. HasNoFault (IsTooLong config)) }
    ensures costs { IfOk result (λ v. v.costs ≡ map (cost_of v.config) v.config.units) }
    ensures refused { IfErr result (IsRefusedFor config) }
{
    let ordered = in_order(alloc, config)?;
    let code = code(alloc, ordered)?;
    let checked = verify(alloc, code)?;
    affordable(alloc, checked)
}

// A configuration with ranges none of whose units costs too much, verified, or the first that does.
fn affordable(alloc: Global, checked: Checked) -> Result<Verified, Refusal>
    ensures same { IfOk result (λ v. v.config ≡ checked) }
    ensures affordable { IfOk result (λ _. HasNoFault (IsTooLong checked)) }
    ensures costs { IfOk result (λ v. v.costs ≡ map (cost_of v.config) v.config.units) }
    ensures refused { IfErr result (IsRefusedBy (IsTooLong checked)) }
{
    let found = parts(alloc, &checked);
    let (checked, found) = both(checked, found)?;
    Ok(Verified::of(checked, found.0, found.1, found.2))
}

// What belongs to a configuration with ranges, or its first unit that costs too much.
fn parts(alloc: Global, checked: &Checked) -> Result<(Budget, Path, Tables), Refusal>
    ensures costs { IfOk result (λ p. p.0.units ≡ map (longest checked.now) checked.now.units) }
    ensures lines { IfOk result (λ p. p.1.units ≡ map (path_of checked.now) checked.now.units) }
    ensures plans { IfOk result (λ p. ArePlans checked.now p.2.plans) }
    ensures quick { IfOk result (λ p. AreAllQuick p.2.quick
        (map (unit_code (program_names checked.now) checked.now) checked.now.units)) }
    ensures affordable { IfOk result (λ _. HasNoFault (IsTooLong checked.now)) }
    ensures refused { IfErr result (IsRefusedBy (IsTooLong checked.now)) }
{
    let found = budget(alloc, checked)?;
    let tables = tables_of(alloc, checked)?;
    Ok((found.0, found.1, tables))
}
