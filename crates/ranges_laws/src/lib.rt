//! The least annotation of a unit: laws of the one forward pass.
#![tactic(auto)]

ghost use Rattle.std.specs.Prelude.{List};
ghost use Rattle.ranges_interval.specs.declared.Interval.{Interval};
ghost use Rattle.il_syntax.specs.declared.tree.Config.{Config};
ghost use Rattle.il_syntax.specs.declared.tree.Unit.{Unit as ProgramUnit};
ghost use Rattle.il_semantics.specs.Annotation.{Annotation, IsAnnotated};
ghost use Rattle.ranges_laws.specs.Pass.{Arrived};
ghost use Rattle.ranges_laws.specs.declared.facts.Facts.{Facts};
ghost use Rattle.ranges_laws.specs.Facts.{Names};
ghost use Rattle.ranges_laws.specs.Prepared.{IsPrepared, IsPassed};
ghost use Rattle.ranges_laws.specs.Refused.{RefusesAtFirst};
ghost use Rattle.ranges_laws.specs.Whole.{IsAnnotatedWhole};

pub mod facts;

/// A law: where the pass goes over each instruction of a unit, the unit has an annotation.
pub fn passed_is_annotated()
    ensures { (c : Config) (u : ProgramUnit) (names : Names) (declared : List Interval)
        → IsPrepared c u names declared → (arrived : Arrived Facts)
        → IsPassed c u names declared arrived → (a : Annotation) × IsAnnotated c u a }
{}

/// A law: where the pass is refused at an instruction, this is the first up to and including which no annotation holds.
pub fn refused_is_first()
    ensures { (c : Config) (u : ProgramUnit) (names : Names) (declared : List Interval)
        → IsPrepared c u names declared → RefusesAtFirst c u names declared }
{}

/// A law: an annotation that holds without tests holds with them, so whatever was accepted without them still is.
pub fn narrowing_accepts_no_less()
    ensures { (c : Config) (u : ProgramUnit) (a : Annotation) → IsAnnotatedWhole c u a
        → IsAnnotated c u a }
{}
