// What names mean in a unit.

ghost use Rattle.std.specs.Prelude.{◌≡◌, Option, Some, None, IfSome, option_map};
ghost use Rattle.il_syntax.specs.declared.tree.Form.TheVariants.{Block as BlockForm};
ghost use Rattle.il_statics.specs.Names.{standard_function, function_named};
ghost use Rattle.il_statics.specs.Types.{label_place};
ghost use Rattle.base_maps.specs.NameMap.{Text};
ghost use Rattle.ranges_laws.specs.Facts.{Names};
ghost use Rattle.ranges_laws.specs.Prepared.{IsFineDenotation};
ghost use Rattle.ranges_transfer.specs.Meant.{resolved};
ghost use Rattle.load_scope.specs.Units.{scalar_of, is_block, AreInputsOf};
ghost use Rattle.ranges_transfer.specs.Scopes.{denoted, named, form_in, result_by, input_form, output_form};

use crate::meant::Meant;
use il_semantics::known::Known;
use il_statics::names::StandardFunction;
use il_syntax::tree::{Reference, Scalar};

/// What names mean in a unit.
pub trait Scope {
    /// The unit, with the numbers of its variables.
    ghost names: { Self → Names };

    /// What an operand means.
    fn meant(&self, reference: &Reference) -> Meant
        ensures fine { IsFineDenotation (denoted (names self.now) reference.now) }
        ensures is { result ≡ resolved (names self.now) (denoted (names self.now) reference.now) };

    /// What a name alone means.
    fn variable(&self, name: &str) -> Meant
        ensures { result ≡ resolved (names self.now) (named (names self.now) name.now) };

    /// The place of a label.
    fn label(&self, name: &str) -> Option<usize>
        ensures { result ≡ label_place (names self.now).unit.body name.now };

    /// The standard function of a name.
    fn standard_function(&self, name: &str) -> Option<StandardFunction>
        ensures { result ≡ standard_function name.now };

    /// The scalar types of an own function's inputs.
    fn own_inputs(&self, name: &str) -> Option<&[Option<Scalar>]>
        ensures none { result ≡ None → function_named (names self.now).config name.now ≡ None }
        ensures some { IfSome result (λ inputs.
            AreInputsOf (function_named (names self.now).config name.now) inputs.now) };

    /// What an own function leaves.
    fn own_result(&self, name: &str) -> Option<Known>
        ensures { result ≡ result_by (function_named (names self.now).config name.now) };

    /// Whether a name is that of an instance.
    fn is_instance(&self, name: &str) -> bool
        ensures { result ≡ is_block (form_in (names self.now) name.now) };

    /// The scalar type of an input of an instance by its word.
    fn input(&self, name: &str, word: &str) -> Option<Scalar>
        ensures { (block : Text) → form_in (names self.now) name.now ≡ Some (BlockForm block)
            → result ≡ scalar_of (input_form (names self.now) block word.now) };

    /// The scalar type of an output of an instance by its word.
    fn output(&self, name: &str, word: &str) -> Option<Scalar>
        ensures { (block : Text) → form_in (names self.now) name.now ≡ Some (BlockForm block)
            → result ≡ scalar_of (output_form (names self.now) block word.now) };
}
