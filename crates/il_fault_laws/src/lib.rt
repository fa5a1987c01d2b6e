//! The faults of the grammar and its limits: a text has one at most.
#![tactic(auto)]

ghost use Rattle.std.specs.Prelude.{◌≡◌, ℕ, ◌≤◌, List, [], length};
ghost use Rattle.il_syntax.specs.declared.fault.Refusal.{Refusal};
ghost use Rattle.il_syntax.specs.declared.token.Token.{Token};
ghost use Rattle.il_syntax.specs.declared.tree.Config.{Config};
ghost use Rattle.il_syntax.specs.Text.{AreTokens};
ghost use Rattle.il_syntax.specs.Grammar.{AfterLines, SpellsConfig};
ghost use Rattle.load_tree.specs.Refused.{IsSmall};
ghost use Rattle.il_fault_laws.specs.Faults.{IsFaultOfGrammar};
ghost use Rattle.il_syntax.specs.declared.limits.TheConstants.{LONGEST_TEXT};

/// A law: a text that has tokens has at most one fault of the grammar, and none where it spells a configuration within the limits.
pub fn one_fault_of_grammar()
    ensures once { (text : List ℕ) (ts : List Token) (e f : Refusal) → AreTokens text 0 ts
        → length text ≤ LONGEST_TEXT
        → IsFaultOfGrammar text ts e → IsFaultOfGrammar text ts f → e ≡ f }
    ensures none { (text : List ℕ) (ts : List Token) (c : Config) (e : Refusal)
        → AreTokens text 0 ts
        → AfterLines (SpellsConfig text c) ts [] → IsSmall c → IsFaultOfGrammar text ts e → ⊥ }
{}
