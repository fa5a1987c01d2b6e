// What names mean in a unit, with the numbers of its variables.

ghost use Rattle.std.specs.Prelude.{◌≡◌, Option, Some, option_map};
ghost use Rattle.il_syntax.specs.declared.tree.Form.TheVariants.{Block as BlockForm};
ghost use Rattle.il_syntax.specs.declared.tree.Reference.{Reference as Operands};
ghost use Rattle.il_statics.specs.Names.{or_else, function_named};
ghost use Rattle.base_maps.specs.NameMap as table;
ghost use Rattle.base_maps.specs.NameMap.{Text};
ghost use Rattle.il_semantics.specs.Meaning.{denotation, direct, indexed_by, element_of, member_of};
ghost use Rattle.load_scope.specs.Views.{type_of};
ghost use Rattle.ranges_laws.specs.Facts.{row_at};
ghost use Rattle.ranges_laws.specs.Prepared.{IsFineDenotation};
ghost use Rattle.ranges_transfer.specs.Meant.{resolved};
ghost use Rattle.load_scope.specs.Units.{scalar_of};
ghost use Rattle.ranges_transfer.specs.Scopes.{named, form_in, input_form, output_form};
ghost use Rattle.ranges_pass.specs.Numbering.{HaveRanges};
ghost use Rattle.ranges_pass.specs.Units.{names_of};

use crate::numbering::{Numbering, declared_range};
use il_semantics::known::Known;
use il_statics::names::StandardFunction;
use il_syntax::tree::{Index, Reference, Scalar, Subrange};
use load_scope::UnitScope;
use load_scope::entry::VariableType;
use load_scope::functions::standard_function;
use ranges_interval::Interval;
use ranges_rows::Row;
use ranges_transfer::{Meant, Scope, known_of, range};
use std::marker::Model;

/// A unit of a configuration, with what its names mean and the numbers of its variables.
#[derive(Drop)]
pub struct NumberedUnit<'n> {
    unit: &'n UnitScope<'n>,
    numbering: &'n Numbering,
}

impl<'n> Model for NumberedUnit<'n> {
    ghost use Rattle.il_syntax.specs.declared.tree.Reference.{Reference};
    ghost use Rattle.il_semantics.specs.Meaning.{denotation};
    ghost use Rattle.ranges_laws.specs.Facts.{Names};
    ghost use Rattle.ranges_laws.specs.Prepared.{IsFineDenotation};
    ghost use Rattle.ranges_pass.specs.Numbering.{HaveRanges};
    ghost use Rattle.ranges_pass.specs.Units.{names_code, names_of};

    ghost Value = { Names };

    ghost coded = { names_code };

    ghost view = { λ n. names_of n.unit.now n.numbering.now.numbers n.numbering.now.declared };

    ghost invariant = { λ n. ((r : Reference)
        → IsFineDenotation (denotation n.unit.now.config n.unit.now.unit r))
        × HaveRanges n.unit.now n.numbering.now.numbers };
}

impl<'n> NumberedUnit<'n> {
    /// A unit with the numbers of its variables.
    pub fn of(unit: &'n UnitScope<'n>, numbering: &'n Numbering) -> NumberedUnit<'n>
        requires fine { (r : Operands) → IsFineDenotation
            (denotation unit.now.config unit.now.unit r) }
        requires ranges { HaveRanges unit.now numbering.now.numbers }
        ensures { result ≡ names_of unit.now numbering.now.numbers numbering.now.declared }
    {
        NumberedUnit { unit, numbering }
    }

    // The number of a variable, if it has one.
    #[inline(always)]
    fn number(&self, name: &str) -> Option<usize>
        ensures { result ≡ table.get self.now.numbers name.now }
    {
        self.numbering.number(name)
    }

    // The number of a variable of this type, if it has one. A flag has none, so it isn't looked for.
    #[inline(always)]
    fn number_of(&self, name: &str, scalar: Scalar) -> Option<usize>
        requires { scalar_of (form_in self.now name.now) ≡ Some scalar }
        ensures { result ≡ table.get self.now.numbers name.now }
    {
        let _unit = self.unit;
        match range(scalar) {
            Some(_range) => self.number(name),
            None => None,
        }
    }

    /// The range of a variable: that of its number, or its declared one.
    pub fn range(&self, row: &Row, name: &str) -> Option<Interval>
        ensures { result ≡ row_at self.now row.now name.now }
    {
        match self.number(name) {
            Some(number) => row.get(number),
            None => declared_range(self.unit, name),
        }
    }

    // The type of the variable of a name.
    #[inline(always)]
    fn declared_type(&self, name: &str) -> Option<VariableType>
        ensures { result ≡ option_map (type_of self.now.config) (form_in self.now name.now) }
    {
        self.unit.declared_type(name)
    }

    // The type of the scalar variable of a name.
    #[inline(always)]
    fn scalar(&self, name: &str) -> Option<Scalar>
        ensures { result ≡ scalar_of (form_in self.now name.now) }
    {
        self.unit.scalar(name)
    }

    // The scalar type of a word of an instance.
    fn member(&self, name: &str, word: &str) -> Option<Scalar>
        ensures { (block : Text) → form_in self.now name.now ≡ Some (BlockForm block) → result
            ≡ scalar_of (or_else (output_form self.now block word.now)
            (input_form self.now block word.now)) }
    {
        self.unit.member_scalar(name, word)
    }

    // What a name alone means.
    #[inline(always)]
    fn named(&self, name: &str) -> Meant
        ensures { result ≡ resolved self.now (direct name.now (form_in self.now name.now)) }
    {
        match self.scalar(name) {
            Some(scalar) => Meant::Variable {
                scalar,
                number: self.number_of(name, scalar),
            },
            None => Meant::Unknown,
        }
    }

    // What an element by a variable means.
    fn indexed(&self, bounds: Subrange, element: Scalar, name: &str) -> Meant
        ensures { (array : Text) → result ≡ resolved self.now
            (indexed_by array bounds element name.now (form_in self.now name.now)) }
    {
        match self.scalar(name) {
            Some(variable) => Meant::Indexed {
                bounds,
                element,
                variable,
                number: self.number_of(name, variable),
            },
            None => Meant::Unknown,
        }
    }

    // What an element means.
    fn element(&self, name: &str, index: &Index) -> Meant
        ensures { result ≡ resolved self.now
            (element_of (form_in self.now) name.now index.now (form_in self.now name.now)) }
    {
        let Some(VariableType::Array { bounds, element }) = self.declared_type(name) else {
            return Meant::Unknown;
        };
        match index {
            Index::Number(index) => Meant::Numbered {
                bounds,
                element,
                index: *index,
            },
            Index::Variable(variable) => self.indexed(bounds, element, variable.as_str()),
        }
    }

    // What a word of an instance means.
    fn word(&self, name: &str, word: &str) -> Meant
        ensures { result ≡ resolved self.now
            (member_of self.now.config name.now word.now (form_in self.now name.now)) }
    {
        if !self.is_instance(name) {
            return Meant::Unknown;
        }
        match self.member(name, word) {
            Some(scalar) => Meant::Inside(scalar),
            None => Meant::Unknown,
        }
    }
}

impl<'n> Scope for NumberedUnit<'n> {
    ghost names = { λ n. n };

    #[inline(always)]
    fn meant(&self, reference: &Reference) -> Meant {
        let _unit = self.unit;
        match reference {
            Reference::Literal(literal) => Meant::Literal(*literal),
            Reference::Variable(name) => self.named(name.as_str()),
            Reference::Element(name, index) => self.element(name.as_str(), index),
            Reference::Member(name, word) => self.word(name.as_str(), word.as_str()),
        }
    }

    fn variable(&self, name: &str) -> Meant {
        self.named(name)
    }

    fn label(&self, name: &str) -> Option<usize> {
        self.unit.label(name)
    }

    fn standard_function(&self, name: &str) -> Option<StandardFunction> {
        standard_function(name)
    }

    fn own_inputs(&self, name: &str) -> Option<&[Option<Scalar>]> {
        self.unit.own_inputs(name)
    }

    fn own_result(&self, name: &str) -> Option<Known> {
        match self.unit.own_result(name) {
            Some(scalar) => Some(known_of(scalar)),
            None => None,
        }
    }

    fn is_instance(&self, name: &str) -> bool {
        self.unit.is_instance(name)
    }

    fn input(&self, name: &str, word: &str) -> Option<Scalar> {
        self.unit.input_scalar(name, word)
    }

    fn output(&self, name: &str, word: &str) -> Option<Scalar> {
        self.unit.output_scalar(name, word)
    }
}
