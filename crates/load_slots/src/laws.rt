// What flat code and slots mean.

ghost use Rattle.std.specs.Prelude.{◌<◌, ◌^◌, length};
ghost use Rattle.il_syntax.specs.declared.tree.Config.{Config};
ghost use Rattle.il_syntax.specs.declared.tree.Unit.{Unit as ProgramUnit};
ghost use Rattle.il_semantics_laws.specs.Accepted.{IsAccepted};
ghost use Rattle.load_slots.specs.Paths.{ArePaired};
ghost use Rattle.load_slots.specs.Program.{program_cells};
ghost use Rattle.load_slots.specs.Meant.{MeansTree};

/// A law: in the task of a program each path has one slot, and each slot one path.
pub fn paths_and_slots_are_paired()
    ensures { (c : Config) (p : ProgramUnit) → IsAccepted c p → ArePaired (program_cells c p) }
{}

/// A law: the flat code and the slots of the task of a program mean its tree, where the slots can be counted.
pub fn flat_code_means_the_tree()
    ensures { (c : Config) (p : ProgramUnit) → IsAccepted c p
        → length (program_cells c p) < 2 ^ 63 → MeansTree c p }
{}
