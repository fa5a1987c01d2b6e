// What names mean in a unit.

ghost use Rattle.std.specs.Prelude.{◌≡◌, Option, Some, None, IfSome, is_some, List, option_map, option_and_then};
ghost use Rattle.il_syntax.specs.declared.tree.Config.{Config};
ghost use Rattle.il_syntax.specs.declared.tree.Unit.{Unit as ProgramUnit};
ghost use Rattle.il_statics.specs.Names.{BlockVariables, entry_of, variable_named, standard_function, function_named};
ghost use Rattle.il_statics.specs.Types.{scalar_type, name_type, element_type, reference_type, written_variable_numbers, written_member_numbers, instance_block, function_type, label_place};
ghost use Rattle.il_statics.specs.Lowest.{lowest};
ghost use Rattle.load_scope.specs.Units.{AreInputsOf};
ghost use Rattle.load_types.specs.Types.{member_type_of};

use crate::fault::LowestFault;
use il_statics::names::StandardFunction;
use il_syntax::tree::{Elementary, Operand, Scalar};

/// What is known of a place into which a store goes: its type, if it is a scalar, and 33 where it may not be written.
#[derive(Drop)]
pub struct Target {
    pub declared: Option<Elementary>,
    pub written: LowestFault,
}

/// What names mean in a unit of a configuration.
pub trait Scope {
    /// The configuration.
    ghost config: { Self → Config };

    /// The unit.
    ghost unit: { Self → ProgramUnit };

    /// The type of the scalar variable of a name.
    fn name_type(&self, name: &str) -> Option<Elementary>
        ensures { result ≡ name_type (config self.now) (unit self.now) name.now };

    /// The type of the elements of the array of a name.
    fn element_type(&self, name: &str) -> Option<Elementary>
        ensures { result ≡ option_and_then (λ v. element_type v.form)
            (variable_named (config self.now) (unit self.now) name.now) };

    /// The variable of a name as a target.
    fn name_target(&self, name: &str) -> Target
        ensures declared { result.declared ≡ name_type (config self.now) (unit self.now) name.now }
        ensures written { result.written ≡ lowest (written_variable_numbers
            (variable_named (config self.now) (unit self.now) name.now)) };

    /// 33 where a word names an output of the instance of a name.
    fn written_member_fault(&self, name: &str, word: &str) -> LowestFault
        ensures { result ≡ lowest (written_member_numbers word.now
            (instance_block (config self.now) (unit self.now) name.now)) };

    /// The type of an input or output of the instance of a name.
    fn member_type(&self, name: &str, word: &str) -> Option<Elementary>
        ensures { result ≡ member_type_of (config self.now) (unit self.now) name.now word.now };

    /// Whether a name is that of an instance.
    fn is_instance(&self, name: &str) -> bool
        ensures { result ≡ is_some (instance_block (config self.now) (unit self.now) name.now) };

    /// The type of an input of an instance by its word, if its block has it.
    fn input_type(&self, name: &str, word: &str) -> Option<Option<Elementary>>
        ensures { (block : BlockVariables)
            → instance_block (config self.now) (unit self.now) name.now ≡ Some block → result
            ≡ option_map scalar_type (entry_of block.inputs word.now) };

    /// The type of an output of an instance by its word, if its block has it.
    fn output_type(&self, name: &str, word: &str) -> Option<Option<Elementary>>
        ensures { (block : BlockVariables)
            → instance_block (config self.now) (unit self.now) name.now ≡ Some block → result
            ≡ option_map scalar_type (entry_of block.outputs word.now) };

    /// The place of a label in the unit's body.
    fn label(&self, name: &str) -> Option<usize>
        ensures { result ≡ label_place (unit self.now).body name.now };

    /// The standard function of a name.
    fn standard_function(&self, name: &str) -> Option<StandardFunction>
        ensures { result ≡ standard_function name.now };

    /// The scalar types of an own function's inputs.
    fn own_inputs(&self, name: &str) -> Option<&[Option<Scalar>]>
        ensures none { result ≡ None → function_named (config self.now) name.now ≡ None }
        ensures some { IfSome result (λ inputs.
            AreInputsOf (function_named (config self.now) name.now) inputs.now) };

    /// The type that an own function leaves.
    fn own_type(
        &self,
        name: &str,
        operands: &[Operand],
        before: Option<Elementary>,
    ) -> Option<Elementary>
        ensures { result ≡ function_type (config self.now) (unit self.now) None
            (function_named (config self.now) name.now) operands.now before };
}
