//! No scan does more work than its program's table says: a law of the definitions alone.
#![tactic(auto)]

ghost use Rattle.il_syntax.specs.declared.tree.Config.{Config};
ghost use Rattle.il_syntax.specs.declared.tree.Unit.{Unit as ProgramUnit};
ghost use Rattle.il_semantics.specs.Annotation.{Annotated};
ghost use Rattle.il_semantics_laws.specs.Accepted.{IsAccepted};
ghost use Rattle.il_work_laws.specs.Work.{WorksWithin};

/// A law: no scan of an accepted program whose units are annotated does more work than the greatest of its control paths,
/// where each step counts 1 and a call also the values that it sets and copies.
pub fn accepted_scans_do_no_more()
    ensures { (c : Config) (p : ProgramUnit) → IsAccepted c p → Annotated c → WorksWithin c p }
{}
