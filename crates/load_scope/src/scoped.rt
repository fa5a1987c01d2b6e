// Configurations with what their names mean.

ghost use Rattle.std.specs.Prelude.{◌≡◌, IfOk, Some, None, IfSome, option_map, option_and_then, option_copied, slice_get};
ghost use Rattle.il_syntax.specs.declared.tree.Unit.{Unit as ProgramUnit};
ghost use Rattle.il_statics.specs.Names.{entry_of, is_one_of, is_predeclared, meaning, program_role, variable_named};
ghost use Rattle.il_statics.specs.Declarations.{global_form, names_of_units};
ghost use Rattle.il_statics.specs.Types.{label_place};
ghost use Rattle.load_scope.specs.Images.{image_in};
ghost use Rattle.load_scope.specs.StoredNames.{is_stored};
ghost use Rattle.load_scope.specs.Units.{AreInputsOf};
ghost use Rattle.load_scope.specs.Views.{block_type, function_number, program_number, unit_number, type_of, binding_of, variable_of, variables_of_block};

use crate::entry::{Binding, BlockType, ImageName, Variable, VariableType};
use crate::image::{ImageRow, image_in};
use crate::lookup::{block_input, block_output, input_scalars, is_unit, label, stores};
use crate::meaning::{meaning, variable};
use crate::numbers::{block_type, function_number, program_number, unit_number};
use crate::tables::{Tables, tables_of, type_of};
use crate::words::is_predeclared;
use il_statics::Written;
use il_statics::names::Role;
use il_syntax::tree::{Config, Form, Scalar};
use std::alloc::{AllocError, Global};
use std::marker::Model;

/// A configuration with what its names mean. Units are named by their numbers, counted from 0.
pub struct Scoped {
    written: Written,
    tables: Tables,
}

// Written by hand, since who drops a type whose drop is derived proves the drop of each type inside again.
impl Drop for Scoped {
    fn drop(self) {
        let Scoped {
            written: _written,
            tables: _tables,
        } = self;
    }
}

impl Model for Scoped {
    ghost use Rattle.il_syntax.specs.declared.tree.Config.{Config};
    ghost use Rattle.load_scope.specs.Tables.{AreTables};

    ghost Value = { Config };

    ghost view = { λ s. s.written };

    ghost invariant = { λ s. AreTables s.written s.tables };
}

impl Scoped {
    /// Finds what the names of a configuration mean.
    pub fn of(alloc: Global, written: Written) -> Result<Scoped, AllocError>
        ensures { IfOk result (λ s. s ≡ written) }
    {
        let tables = tables_of(alloc, written.tree())?;
        Ok(Scoped { written, tables })
    }

    /// The configuration.
    pub fn config(&self) -> &Config
        ensures { result.now ≡ self.now }
    {
        self.written.tree()
    }

    /// The configuration, as a text can spell it.
    pub fn written(&self) -> &Written
        ensures { result.now ≡ self.now }
    {
        &self.written
    }

    /// Whether no text may declare a name again (own rule).
    pub fn is_predeclared(&self, name: &str) -> bool
        ensures { result ≡ is_predeclared self.now name.now }
    {
        is_predeclared(self.written.tree(), name)
    }

    /// Whether a unit has a name, predeclared or not.
    pub fn is_unit(&self, name: &str) -> bool
        ensures { result ≡ is_one_of (names_of_units self.now) name.now }
    {
        is_unit(&self.tables.units, name)
    }

    /// The number of the unit of a name (IEC 61131-3:2003, 2.5); a unit with a predeclared name is none.
    pub fn unit(&self, name: &str) -> Option<usize>
        ensures { result ≡ unit_number self.now name.now }
    {
        unit_number(self.written.tree(), &self.tables.units, name)
    }

    /// The number of the own function of a name (2.5.1).
    pub fn function(&self, name: &str) -> Option<usize>
        ensures { result ≡ function_number self.now name.now }
    {
        function_number(self.written.tree(), &self.tables.units, name)
    }

    /// The number of the program of a name (2.5.3).
    pub fn program(&self, name: &str) -> Option<usize>
        ensures { result ≡ program_number self.now name.now }
    {
        program_number(self.written.tree(), &self.tables.units, name)
    }

    /// The block of a name, standard or own (2.5.2).
    pub fn block(&self, name: &str) -> Option<BlockType>
        ensures { result ≡ block_type self.now name.now }
    {
        block_type(self.written.tree(), &self.tables.units, name)
    }

    /// The role of the program of a name: that of the first PROGRAM line that gives it one (own rule).
    pub fn role(&self, name: &str) -> Option<Role>
        ensures { result ≡ program_role self.now name.now self.now.programs }
    {
        self.tables.roles.get(name)
    }

    /// A written type.
    pub fn type_of(&self, form: &Form) -> VariableType
        ensures { result ≡ type_of self.now form.now }
    {
        type_of(self.written.tree(), &self.tables.units, form)
    }

    /// The type of the first global of a name (2.4.3).
    pub fn global(&self, name: &str) -> Option<VariableType>
        ensures { result ≡ option_map (type_of self.now) (global_form self.now name.now) }
    {
        self.tables.globals.get(name)
    }

    /// What a name means in the unit of a number; none where it is unknown there (2.4.3).
    #[inline(always)]
    pub fn meaning(&self, at: usize, name: &str) -> Option<Binding>
        ensures { (unit : ProgramUnit) → slice_get self.now.units at ≡ Some unit → result
            ≡ option_map (binding_of self.now) (meaning self.now unit name.now) }
    {
        meaning(self.written.tree(), &self.tables, at, name)
    }

    /// The variable that a name means in the unit of a number.
    #[inline(always)]
    pub fn variable(&self, at: usize, name: &str) -> Option<&Variable>
        ensures { (unit : ProgramUnit) → slice_get self.now.units at ≡ Some unit
            → option_copied result
            ≡ option_map (variable_of self.now) (variable_named self.now unit name.now) }
    {
        variable(&self.tables, at, name)
    }

    /// The place of a label in the body of the unit of a number, counted from 0 (3.2.1); the first of a name counts.
    #[inline(always)]
    pub fn label(&self, at: usize, name: &str) -> Option<usize>
        ensures { (unit : ProgramUnit) → slice_get self.now.units at ≡ Some unit → result
            ≡ label_place unit.body name.now }
    {
        label(&self.tables, at, name)
    }

    /// Whether the body of the unit of a number stores into a variable of a name, or into an element of it.
    #[inline(always)]
    pub fn stores(&self, at: usize, name: &str) -> bool
        ensures { (unit : ProgramUnit) → slice_get self.now.units at ≡ Some unit → result
            ≡ is_stored unit.body.steps name.now }
    {
        stores(&self.tables, at, name)
    }

    /// The image name of a row of the table (own rule).
    pub fn image_name(&self, row: &ImageRow) -> ImageName
        ensures { result ≡ image_in self.now row.now }
    {
        image_in(self.written.tree(), row)
    }

    /// The scalar types of the inputs of the unit of a number, in their order (2.4.3).
    pub fn inputs(&self, number: usize) -> Option<&[Option<Scalar>]>
        ensures none { result ≡ None → slice_get self.now.units number ≡ None }
        ensures some { IfSome result (λ inputs.
            AreInputsOf (slice_get self.now.units number) inputs.now) }
    {
        input_scalars(&self.tables, number)
    }

    /// The type of a block's input by its word (2.5.2).
    pub fn block_input(&self, block: BlockType, word: &str) -> Option<VariableType>
        ensures { result ≡ option_map (type_of self.now)
            (option_and_then (λ b. entry_of b.inputs word.now)
            (variables_of_block self.now block)) }
    {
        block_input(&self.tables, block, word)
    }

    /// The type of a block's output by its word (2.5.2).
    pub fn block_output(&self, block: BlockType, word: &str) -> Option<VariableType>
        ensures { result ≡ option_map (type_of self.now)
            (option_and_then (λ b. entry_of b.outputs word.now)
            (variables_of_block self.now block)) }
    {
        block_output(&self.tables, block, word)
    }
}
