//! The grammar of a text: it spells one tree, whose names are words and whose places are those of the text.
#![tactic(auto)]

ghost use Rattle.std.specs.Prelude.{◌≡◌, ℕ, List, []};
ghost use Rattle.il_syntax.specs.declared.token.Token.{Token};
ghost use Rattle.il_syntax.specs.declared.tree.Config.{Config};
ghost use Rattle.il_syntax.specs.Grammar.{AfterLines, SpellsConfig, Spells};
ghost use Rattle.il_statics.specs.Faults.{Phase, Broken};
ghost use Rattle.il_statics.specs.Written.{IsWritten};
ghost use Rattle.il_syntax_laws.specs.Places.{places, AreInText, BreaksAtPlaces, IsFirstAtOneLine};

/// A law: tokens of a text spell at most one configuration.
pub fn one_tree()
    ensures { (text : List ℕ) (ts : List Token) (c d : Config)
        → AfterLines (SpellsConfig text c) ts [] → AfterLines (SpellsConfig text d) ts [] → c ≡ d }
{}

/// A law: a text spells at most one configuration.
pub fn one_configuration()
    ensures { (text : List ℕ) (c d : Config) → Spells text c → Spells text d → c ≡ d }
{}

/// A law: the names of a spelled tree are words, programs alone have externals in it, and the type before a number is a whole one.
pub fn spelled_trees_are_written()
    ensures { (text : List ℕ) (c : Config) → Spells text c → IsWritten c }
{}

/// A law: each place of a spelled tree has the line of its byte, and none comes before one that comes earlier in the tree.
pub fn places_are_in_the_text()
    ensures { (text : List ℕ) (c : Config) → Spells text c → AreInText text (places c) }
{}

/// A law: what breaks a rule is at a place of the tree.
pub fn faults_are_at_places()
    ensures { (phase : Phase) (config : Config) → BreaksAtPlaces config (Broken phase config) }
{}

/// A law: a spelled tree has at most one first fault, by its number and its line.
pub fn first_fault_is_at_one_line()
    ensures { (text : List ℕ) (c : Config) (phase : Phase) → Spells text c
        → IsFirstAtOneLine (Broken phase c) }
{}
