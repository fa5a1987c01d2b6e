// A caller that only loads texts.

ghost use Rattle.std.specs.Prelude.{◌≡◌, ℕ, IfOk, IfErr, IsErrAnd};
ghost use Rattle.scan_task.specs.Scanning.{Program};
ghost use Rattle.load_tree.specs.Refused.{IsFault};
ghost use Rattle.il_syntax.specs.declared.fault.Refusal.TheVariants.{Fault};
ghost use Rattle.il_syntax.specs.declared.tree.Config.{Config};
ghost use Rattle.il_syntax.specs.declared.tree.Place.{Place};
ghost use Rattle.load_text.specs.Loading.{IsAccepted, IsExplained, IsRefusedFor, IsSpelled, IsSpelledWith, ReportsFaultOfText, ReportsFaultOfGrammar};
ghost use Rattle.example_library.specs.Budgets.{AreBudgets};

use il_syntax::fault::Refusal;
use load_text::load;
use scan_task::Verified;
use std::alloc::{AllocError, Global};

/// The budget of each task of a text, CAR1 to CARn and then GROUP, or why the text is refused.
pub fn budgets(alloc: Global, text: &[u8]) -> Result<Vec<u32>, Refusal>
    // the text spells a configuration that breaks no rule, and these are its budgets
    ensures found { IfOk result (λ budgets. (p : Program) × IsAccepted text.now p.config
        × AreBudgets p budgets.items) }

    // a refusal is the loader's: no configuration that the text spells is accepted, and its fault is the only one
    ensures refused { IsFault result → (c : Config) → IsAccepted text.now c → ⊥ }
    ensures named { IsFault result → (c : Config) → IsSpelled text.now c
        → IsErrAnd result (IsRefusedFor c) }
    ensures number { IfErr result (IsExplained text.now) }
    ensures one { IsFault result → (n : ℕ) (p : Place) → IsSpelledWith text.now (Fault n p)
        → IsErrAnd result (λ e. e ≡ Fault n p) }
    ensures bytes { ReportsFaultOfText text.now result }
    ensures grammar { ReportsFaultOfGrammar text.now result }
{
    let verified = load(alloc, text)?;
    let budgets = listed(alloc, &verified);
    verified.release();
    Ok(budgets?)
}

// The budget of each task of a verified configuration.
fn listed(alloc: Global, verified: &Verified) -> Result<Vec<u32>, AllocError>
    ensures { IfOk result (λ budgets. AreBudgets verified.now budgets.items) }
{
    verified.tasks().map(|task| task.budget).collect(alloc)
}
