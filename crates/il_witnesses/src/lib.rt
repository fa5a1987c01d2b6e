//! Rows of the grammar and of the rules: a text with its tree, and trees with their faults. Nothing builds on this crate: it is
//! there so that a grammar that is too strict, or a rule that is off, is seen.
#![tactic(auto)]

ghost use Rattle.il_syntax.specs.Grammar.{Spells};
ghost use Rattle.il_statics.specs.Faults.{Declaring, Typing, Ordering, Broken, IsFirst};
ghost use Rattle.il_witnesses.specs.Trees.{place};
ghost use Rattle.il_witnesses.specs.EveryConstruct.{whole_text, whole_tree};
ghost use Rattle.il_witnesses.specs.Cases.{added_boolean, array_input, behind_return, boolean_subrange, calls_itself, empty_subrange, external_of_none, global_as_unit, great_literal, label_twice, line_twice, missing_car, missing_line, negated_number, no_cars, no_result, one_argument, other_external, predeclared_global, predeclared_unit, predeclared_variable, task_twice, two_globals, two_lines, two_roles, two_units, two_writers, unknown_label, unknown_name, unknown_program, unknown_task, unknown_type, unused_program, variable_as_unit, written_input, wrong_element};

/// A text with every construct of the language spells its tree.
pub fn every_construct_is_spelled()
    ensures { Spells whole_text whole_tree }
{}

/// 20: a name that another declaration has, or that is predeclared.
pub fn names_are_declared_once()
    ensures of_predeclared_unit { IsFirst (Broken Declaring predeclared_unit) 20 (place 0 1) }
    ensures of_two_units { Broken Declaring two_units 20 (place 67 6) }
    ensures of_variable_as_unit { Broken Declaring variable_as_unit 20 (place 14 2) }
    ensures of_predeclared_variable { Broken Declaring predeclared_variable 20 (place 14 2) }
    ensures of_label_twice { Broken Declaring label_twice 20 (place 18 3) }
    ensures of_two_globals { Broken Declaring two_globals 20 (place 140 5) }
    ensures of_global_as_unit { Broken Declaring global_as_unit 20 (place 131 5) }
    ensures of_predeclared_global { Broken Declaring predeclared_global 20 (place 131 5) }
    ensures of_task_twice { Broken Declaring task_twice 20 (place 186 7) }
    ensures of_line_twice { Broken Declaring line_twice 20 (place 260 9) }
{}

/// 21: a name that means nothing which its place takes.
pub fn names_are_known()
    ensures of_unknown_type { Broken Declaring unknown_type 21 (place 85 7) }
    ensures of_external_of_none { Broken Declaring external_of_none 21 (place 23 2) }
    ensures of_unknown_name { Broken Declaring unknown_name 21 (place 10 2) }
{}

/// 22: limits that are none.
pub fn ranges_are_not_empty()
    ensures of_empty_subrange { Broken Declaring empty_subrange 22 (place 18 2) }
    ensures of_wrong_element { Broken Declaring wrong_element 22 (place 85 7) }
{}

/// 23: a size outside its limits.
pub fn sizes_lie_in_their_limits()
    ensures { Broken Declaring no_cars 23 (place 72 4) }
{}

/// 24: tasks that are not those of the group, each with its program.
pub fn tasks_run_the_group()
    ensures of_unknown_task { Broken Declaring unknown_task 24 (place 186 7) }
    ensures of_two_lines { Broken Declaring two_lines 24 (place 212 8) }
    ensures of_unknown_program { Broken Declaring unknown_program 24 (place 260 9) }
    ensures of_two_roles { Broken Declaring two_roles 24 (place 261 9) }
    ensures of_missing_car { Broken Declaring missing_car 24 (place 212 8) }
    ensures of_missing_line { Broken Declaring missing_line 24 (place 258 9) }
    ensures of_unused_program { Broken Declaring unused_program 24 (place 0 1) }
{}

/// 25: a type that is not what its place asks for.
pub fn types_stand_where_they_may()
    ensures of_boolean_subrange { Broken Declaring boolean_subrange 25 (place 85 7) }
    ensures of_other_external { Broken Declaring other_external 25 (place 27 2) }
    ensures of_array_input { Broken Declaring array_input 25 (place 31 2) }
{}

/// 30: a result or an operand of another kind.
pub fn kinds_agree()
    ensures of_negated_number { IsFirst (Broken Typing negated_number) 30 (place 10 2) }
    ensures of_added_boolean { IsFirst (Broken Typing added_boolean) 30 (place 15 3) }
{}

/// 31: an operand of another type.
pub fn types_agree()
    ensures { IsFirst (Broken Typing great_literal) 31 (place 15 3) }
{}

/// 32: no current result.
pub fn results_are_there()
    ensures { IsFirst (Broken Typing no_result) 32 (place 10 2) }
{}

/// 33: a target that is only read.
pub fn inputs_are_not_written()
    ensures { Broken Typing written_input 33 (place 49 4) }
{}

/// 34: a jump to a label that its body lacks.
pub fn labels_are_known()
    ensures { Broken Typing unknown_label 34 (place 345 14) }
{}

/// 36: a unit that reaches itself.
pub fn units_do_not_reach_themselves()
    ensures { IsFirst (Broken Ordering calls_itself) 36 (place 0 1) }
{}

/// 37: a wrong number of arguments.
pub fn functions_have_their_arguments()
    ensures { IsFirst (Broken Typing one_argument) 37 (place 15 3) }
{}

/// 38: two tasks that write one global.
pub fn globals_have_one_writer()
    ensures { Broken Typing two_writers 38 (place 45 4) }
{}

/// 39: an instruction that no control path reaches.
pub fn instructions_are_reached()
    ensures { Broken Typing behind_return 39 (place 352 15) }
{}
