// What names mean in a unit, by the tables of its configuration.

ghost use Rattle.std.specs.Prelude.{◌≡◌};
ghost use Rattle.il_syntax.specs.declared.tree.Config.{Config as Configuration};
ghost use Rattle.il_syntax.specs.declared.tree.Form.{Form};
ghost use Rattle.il_statics.specs.declared.names.Origin.{Origin as Origins};
ghost use Rattle.il_statics.specs.Types as rules;
ghost use Rattle.load_scope.specs.Views.{type_of};
ghost use Rattle.load_types.specs.Types.{elementary_of};

use crate::fault::{LowestFault, TypeFault, unless};
use crate::scope::{Scope, Target};
use il_statics::names::{Origin, StandardFunction};
use il_syntax::tree::{Elementary, Operand, Scalar};
use load_scope::UnitScope;
use load_scope::entry::VariableType;
use load_scope::functions::standard_function;

/// The type of a scalar, if there is one.
#[inline(always)]
pub fn elementary(scalar: Option<Scalar>) -> Option<Elementary>
    ensures { result ≡ elementary_of scalar }
{
    match scalar {
        Some(scalar) => Some(scalar.elementary),
        None => None,
    }
}

// The type of a scalar variable.
#[inline(always)]
fn scalar_type(declared: VariableType) -> Option<Elementary>
    ensures { (config : Configuration) (form : Form) → declared ≡ type_of config form → result
        ≡ rules.scalar_type form }
{
    match declared {
        VariableType::Scalar(scalar) => Some(scalar.elementary),
        _ => None,
    }
}

// The type of an array's elements.
fn element_type(declared: VariableType) -> Option<Elementary>
    ensures { (config : Configuration) (form : Form) → declared ≡ type_of config form → result
        ≡ rules.element_type form }
{
    match declared {
        VariableType::Array { element, .. } => Some(element.elementary),
        _ => None,
    }
}

// Whether a body may write a variable.
fn is_written(origin: Origin) -> bool
    ensures { (o : Origins) → origin ≡ o → result ≡ rules.origin_is_written o }
{
    !matches!(origin, Origin::Input | Origin::ReadImage)
}

impl<'n> Scope for UnitScope<'n> {
    ghost config = { λ n. n.config };

    ghost unit = { λ n. n.unit };

    fn name_type(&self, name: &str) -> Option<Elementary> {
        elementary(self.scalar(name))
    }

    fn element_type(&self, name: &str) -> Option<Elementary> {
        match self.variable(name) {
            Some(variable) => element_type(variable.declared),
            None => None,
        }
    }

    fn name_target(&self, name: &str) -> Target {
        match self.variable(name) {
            Some(variable) => Target {
                declared: scalar_type(variable.declared),
                written: unless(is_written(variable.origin), TypeFault::NotWritable),
            },
            None => Target {
                declared: None,
                written: LowestFault::none(),
            },
        }
    }

    fn written_member_fault(&self, name: &str, word: &str) -> LowestFault {
        match self.output(name, word) {
            Some(_) => LowestFault::of(TypeFault::NotWritable),
            None => LowestFault::none(),
        }
    }

    fn member_type(&self, name: &str, word: &str) -> Option<Elementary> {
        elementary(self.member_scalar(name, word))
    }

    fn is_instance(&self, name: &str) -> bool {
        self.block(name).is_some()
    }

    fn input_type(&self, name: &str, word: &str) -> Option<Option<Elementary>> {
        match self.input(name, word) {
            Some(declared) => Some(scalar_type(declared)),
            None => None,
        }
    }

    fn output_type(&self, name: &str, word: &str) -> Option<Option<Elementary>> {
        match self.output(name, word) {
            Some(declared) => Some(scalar_type(declared)),
            None => None,
        }
    }

    fn label(&self, name: &str) -> Option<usize> {
        self.label(name)
    }

    fn standard_function(&self, name: &str) -> Option<StandardFunction> {
        standard_function(name)
    }

    fn own_inputs(&self, name: &str) -> Option<&[Option<Scalar>]> {
        self.own_inputs(name)
    }

    fn own_type(
        &self,
        name: &str,
        _operands: &[Operand],
        _before: Option<Elementary>,
    ) -> Option<Elementary> {
        elementary(self.own_result(name))
    }
}
