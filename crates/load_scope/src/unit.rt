// What names mean in a unit (IEC 61131-3:2003, 2.4.3).

ghost use Rattle.std.specs.Prelude.{◌≡◌, Option, Some, None, IfSome, is_some, option_map, option_and_then, option_copied, slice_get};
ghost use Rattle.il_syntax.specs.declared.tree.Config.{Config as Configuration};
ghost use Rattle.il_syntax.specs.declared.tree.Form.{Form};
ghost use Rattle.il_syntax.specs.declared.tree.Form.TheVariants.{Block as BlockForm};
ghost use Rattle.il_statics.specs.Names.{Spelling, entry_of, form_named, function_named, meaning, variable_named};
ghost use Rattle.il_statics.specs.Types as rules;
ghost use Rattle.load_scope.specs.Views.{binding_of, block_type, type_of, variable_of, variables_of_block};
ghost use Rattle.load_scope.specs.StoredNames.{is_stored};
ghost use Rattle.load_scope.specs.Units.{AreInputsOf, is_block, kind_result, own_scalar, scalar_of};

use crate::entry::{Binding, BlockType, Variable, VariableType};
use crate::scoped::Scoped;
use il_syntax::tree::{Scalar, Unit, UnitKind};
use std::marker::Model;

/// A unit of a configuration, with what names mean in it.
#[derive(Drop)]
pub struct UnitScope<'n> {
    names: &'n Scoped,
    unit: &'n Unit,
    at: usize,
}

impl<'n> Model for UnitScope<'n> {
    ghost use Rattle.std.specs.Prelude.{◌≡◌, Some, slice_get};
    ghost use Rattle.load_scope.specs.Units.{InUnit, in_unit_code};

    ghost Value = { InUnit };

    ghost coded = { in_unit_code };

    ghost view = { λ n. record { config = n.names.now; unit = n.unit.now } };

    ghost invariant = { λ n. slice_get n.names.now.units n.at ≡ Some n.unit.now };
}

// The type of a scalar variable.
#[inline(always)]
fn scalar_type(declared: VariableType) -> Option<Scalar>
    ensures { (config : Configuration) (form : Form) → declared ≡ type_of config form → result
        ≡ scalar_of (Some form) }
{
    match declared {
        VariableType::Scalar(scalar) => Some(scalar),
        _ => None,
    }
}

// The scalar type, if there is one.
#[inline(always)]
fn scalar_if(declared: Option<VariableType>) -> Option<Scalar>
    ensures { (config : Configuration) (form : Option Form) → declared
        ≡ option_map (type_of config) form → result ≡ scalar_of form }
{
    match declared {
        Some(declared) => scalar_type(declared),
        None => None,
    }
}

// Whether it is the type of an instance.
fn is_instance_type(declared: Option<VariableType>) -> bool
    ensures { (config : Configuration) (form : Option Form) → declared
        ≡ option_map (type_of config) form → result ≡ is_block form }
{
    matches!(declared, Some(VariableType::Instance(_)))
}

// The block of an instance.
#[tactic(auto, using(crate::proofs::Laws::block_found, crate::proofs::Laws::block_there))]
fn block_of(declared: VariableType) -> Option<BlockType>
    ensures there { (config : Configuration) (form : Form) → declared ≡ type_of config form
        → is_some result ≡ is_some (rules.block_of config form) }
    ensures is { (config : Configuration) (form : Form) → declared ≡ type_of config form
        → option_and_then (variables_of_block config) result ≡ rules.block_of config form }
    ensures named { (config : Configuration) (block : Spelling) → declared
        ≡ type_of config (BlockForm block) → result ≡ block_type config block }
{
    match declared {
        VariableType::Instance(block) => block,
        _ => None,
    }
}

// The type of a function's result.
fn kind_result(kind: UnitKind) -> Option<Scalar>
    ensures { result ≡ kind_result kind }
{
    match kind {
        UnitKind::Function(scalar, _) => Some(scalar),
        _ => None,
    }
}

impl<'n> UnitScope<'n> {
    /// The unit of a number, counted from 0.
    pub fn of(names: &'n Scoped, at: usize, unit: &'n Unit) -> UnitScope<'n>
        requires { slice_get names.now.units at ≡ Some unit.now }
        ensures config { result.config ≡ names.now }
        ensures unit { result.unit ≡ unit.now }
    {
        UnitScope { names, unit, at }
    }

    /// The names of its configuration.
    pub fn names(&self) -> &'n Scoped
        ensures { result.now ≡ self.now.config }
    {
        self.names
    }

    /// Its tree.
    pub fn tree(&self) -> &'n Unit
        ensures { result.now ≡ self.now.unit }
    {
        self.unit
    }

    /// What a name means in it; none where it is unknown there.
    #[inline(always)]
    pub fn meaning(&self, name: &str) -> Option<Binding>
        ensures { result ≡ option_map (binding_of self.now.config)
            (meaning self.now.config self.now.unit name.now) }
    {
        self.names.meaning(self.at, name)
    }

    // The variable that a name means, where its entry is.
    #[inline(always)]
    fn entry(&self, name: &str) -> Option<&'n Variable>
        ensures { option_copied result ≡ option_map (variable_of self.now.config)
            (variable_named self.now.config self.now.unit name.now) }
    {
        self.names.variable(self.at, name)
    }

    /// The variable that a name means.
    #[inline(always)]
    pub fn variable(&self, name: &str) -> Option<Variable>
        ensures { result ≡ option_map (variable_of self.now.config)
            (variable_named self.now.config self.now.unit name.now) }
    {
        self.entry(name).copied()
    }

    /// The type of the variable that a name means.
    #[inline(always)]
    pub fn declared_type(&self, name: &str) -> Option<VariableType>
        ensures { result ≡ option_map (type_of self.now.config)
            (form_named self.now.config self.now.unit name.now) }
    {
        match self.entry(name) {
            Some(variable) => Some(variable.declared),
            None => None,
        }
    }

    /// The type of the scalar variable that a name means.
    #[inline(always)]
    pub fn scalar(&self, name: &str) -> Option<Scalar>
        ensures { result ≡ scalar_of (form_named self.now.config self.now.unit name.now) }
    {
        scalar_if(self.declared_type(name))
    }

    /// Whether a name is that of an instance, of whatever block (2.5.2.1).
    pub fn is_instance(&self, name: &str) -> bool
        ensures { result ≡ is_block (form_named self.now.config self.now.unit name.now) }
    {
        is_instance_type(self.declared_type(name))
    }

    /// The block of the instance of a name.
    pub fn block(&self, name: &str) -> Option<BlockType>
        ensures there { is_some result ≡ is_some
            (rules.instance_block self.now.config self.now.unit name.now) }
        ensures is { option_and_then (variables_of_block self.now.config) result
            ≡ rules.instance_block self.now.config self.now.unit name.now }
    {
        match self.variable(name) {
            Some(variable) => block_of(variable.declared),
            None => None,
        }
    }

    /// The type of an input of the instance of a name, by its word.
    pub fn input(&self, name: &str, word: &str) -> Option<VariableType>
        ensures { result ≡ option_map (type_of self.now.config)
            (option_and_then (λ b. entry_of b.inputs word.now)
            (rules.instance_block self.now.config self.now.unit name.now)) }
    {
        match self.block(name) {
            Some(block) => self.names.block_input(block, word),
            None => None,
        }
    }

    /// The type of an output of the instance of a name, by its word.
    pub fn output(&self, name: &str, word: &str) -> Option<VariableType>
        ensures { result ≡ option_map (type_of self.now.config)
            (option_and_then (λ b. entry_of b.outputs word.now)
            (rules.instance_block self.now.config self.now.unit name.now)) }
    {
        match self.block(name) {
            Some(block) => self.names.block_output(block, word),
            None => None,
        }
    }

    /// The type of a word of the instance of a name: of its output, otherwise of its input.
    pub fn member(&self, name: &str, word: &str) -> Option<VariableType>
        ensures { result ≡ option_map (type_of self.now.config)
            (option_and_then (rules.member_form word.now)
            (rules.instance_block self.now.config self.now.unit name.now)) }
    {
        let block = self.block(name)?;
        self.names
            .block_output(block, word)
            .or(self.names.block_input(block, word))
    }

    /// The scalar type of an input of the instance of a name, by its word.
    pub fn input_scalar(&self, name: &str, word: &str) -> Option<Scalar>
        ensures { result ≡ scalar_of (option_and_then (λ b. entry_of b.inputs word.now)
            (rules.instance_block self.now.config self.now.unit name.now)) }
    {
        scalar_if(self.input(name, word))
    }

    /// The scalar type of an output of the instance of a name, by its word.
    pub fn output_scalar(&self, name: &str, word: &str) -> Option<Scalar>
        ensures { result ≡ scalar_of (option_and_then (λ b. entry_of b.outputs word.now)
            (rules.instance_block self.now.config self.now.unit name.now)) }
    {
        scalar_if(self.output(name, word))
    }

    /// The scalar type of a word of the instance of a name.
    pub fn member_scalar(&self, name: &str, word: &str) -> Option<Scalar>
        ensures { result ≡ scalar_of (option_and_then (rules.member_form word.now)
            (rules.instance_block self.now.config self.now.unit name.now)) }
    {
        scalar_if(self.member(name, word))
    }

    /// The place of a label in its body, counted from 0 (3.2.1); the first of a name counts.
    #[inline(always)]
    pub fn label(&self, name: &str) -> Option<usize>
        ensures { result ≡ rules.label_place self.now.unit.body name.now }
    {
        self.names.label(self.at, name)
    }

    /// Whether its body stores into a variable of a name, or into an element of it.
    pub fn stores(&self, name: &str) -> bool
        ensures { result ≡ is_stored self.now.unit.body.steps name.now }
    {
        self.names.stores(self.at, name)
    }

    /// The scalar types of the inputs of the own function of a name, in their order (2.5.1).
    pub fn own_inputs(&self, name: &str) -> Option<&'n [Option<Scalar>]>
        ensures none { result ≡ None → function_named self.now.config name.now ≡ None }
        ensures some { IfSome result (λ inputs.
            AreInputsOf (function_named self.now.config name.now) inputs.now) }
    {
        let number = self.names.function(name)?;
        self.names.inputs(number)
    }

    /// The type of the result of the own function of a name.
    pub fn own_result(&self, name: &str) -> Option<Scalar>
        ensures { result ≡ own_scalar (function_named self.now.config name.now) }
    {
        let number = self.names.function(name)?;
        let unit = self.names.config().units.as_slice().get(number)?;
        kind_result(unit.kind)
    }
}
