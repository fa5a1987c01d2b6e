//! An annotated program never traps, never sticks, and ends within its budget: laws of the definitions alone.
#![tactic(auto)]

ghost use Rattle.il_syntax.specs.declared.tree.Config.{Config};
ghost use Rattle.il_syntax.specs.declared.tree.Unit.{Unit as ProgramUnit};
ghost use Rattle.il_semantics.specs.Annotation.{Annotated};
ghost use Rattle.il_semantics.specs.State.{Values};
ghost use Rattle.il_semantics.specs.Ranges.{HoldVariables};
ghost use Rattle.il_semantics_laws.specs.Agreement.{Holds};
ghost use Rattle.il_semantics_laws.specs.Soundness.{IsInOrder, StepIsSound, ScansWell};
ghost use Rattle.il_semantics_laws.specs.Accepted.{IsAccepted};
ghost use Rattle.il_semantics_laws.specs.Listed.{KeepsListed, StartsInSets, OpensInSets, SharesGlobals};
ghost use Rattle.std.specs.Prelude.{ℕ, ◌+◌, Some, length, Contains};
ghost use Rattle.il_syntax.specs.declared.tree.Config.{Config};
ghost use Rattle.il_syntax.specs.declared.tree.Unit.{Unit as ProgramUnit};
ghost use Rattle.il_semantics.specs.Paths.{IsLongest, followed, rest_at, table_of};
ghost use Rattle.il_statics.specs.Faults.{Declaring, Typing, Broken, HasNoFault};
ghost use Rattle.il_semantics_laws.specs.Accepted.{IsOrdered};
ghost use Rattle.il_semantics_laws.specs.Forward.{IsForward, CallsLongest, IsPathAt, HasLongest};

/// A law: a state of a scan that has not ended has a next one, in which all holds again, with fewer steps left.
pub fn step_is_sound()
    ensures { (c : Config) (p : ProgramUnit) → Annotated c → IsInOrder c p → StepIsSound c p }
{}

/// A law: of each scan from variables in their declared sets, no step traps or sticks, it ends within the
/// program's budget, and its variables keep to their declared sets.
pub fn scans_are_sound()
    ensures { (c : Config) (p : ProgramUnit) → Annotated c → IsInOrder c p → ScansWell c p }
{}

/// A law: a program of a configuration that the grammar spells and that breaks no rule is in order.
pub fn rules_give_order()
    ensures { (c : Config) (p : ProgramUnit) → IsAccepted c p → IsInOrder c p }
{}

/// A law: the scans of an accepted program whose units are annotated are sound.
pub fn accepted_scans_are_sound()
    ensures { (c : Config) (p : ProgramUnit) → IsAccepted c p → Annotated c → ScansWell c p }
{}

/// A law: where all that an accepted program's scans keep holds, each variable of the program has a value of its declared set.
pub fn kept_variables_hold()
    ensures { (c : Config) (p : ProgramUnit) (values : Values) → IsAccepted c p → Holds c p values
        → HoldVariables c p values }
{}

/// A law: what the scans of an accepted program keep is a list of paths, each of one type: the task's variables, the
/// globals that the program lists, and the image that it sees.
pub fn kept_variables_are_listed()
    ensures { (c : Config) (p : ProgramUnit) → IsAccepted c p → KeepsListed c p }
{}

/// A law: a scan of an accepted program starts with values of the declared sets, where the task's variables have such
/// values, and so have the globals and the image that the scan is given.
pub fn scans_start_in_sets()
    ensures { (c : Config) (p : ProgramUnit) → IsAccepted c p → StartsInSets c p }
{}

/// A law: the globals, and the variables of an accepted program's task, open with values of their declared sets.
pub fn variables_open_in_sets()
    ensures { (c : Config) (p : ProgramUnit) → IsAccepted c p → OpensInSets c p }
{}

/// A law: an external of an accepted program is a global of the same type, and no path of a global has two types.
pub fn globals_are_shared()
    ensures { (c : Config) (p : ProgramUnit) → IsAccepted c p → SharesGlobals c p }
{}

/// A law: where jumps go forward, and what callees cost is the greatest cost of a path of theirs, the table gives the
/// greatest cost of a path of the unit.
pub fn table_is_longest()
    ensures { (longest : ProgramUnit → ℕ) (c : Config) (u : ProgramUnit) → IsForward u
        → CallsLongest longest c u → IsLongest c u (rest_at (table_of longest c u) 0 0).cost }
{}

/// A law: the places that the table gives, one after another, are those of a path of that cost; where both ways cost the
/// same, it doesn't jump, return or call.
pub fn table_gives_path()
    ensures { (longest : ProgramUnit → ℕ) (c : Config) (u : ProgramUnit) → IsForward u
        → CallsLongest longest c u
        → IsPathAt c u (rest_at (table_of longest c u) 0 0).cost
        (followed (length u.body.steps + 1) (table_of longest c u) (Some 0)) }
{}

/// A law: in an accepted configuration `longest` is the greatest cost of a path of each unit, and `longest_path` has the
/// places of a path of that cost; where both ways cost the same, it doesn't jump, return or call.
pub fn accepted_costs_are_longest()
    ensures { (c : Config) → HasNoFault (Broken Declaring c) → HasNoFault (Broken Typing c)
        → IsOrdered c → (u : ProgramUnit) → Contains c.units u → HasLongest c u }
{}
