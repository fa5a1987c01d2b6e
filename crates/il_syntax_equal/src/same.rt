// Trees that are compared by value.

ghost use Rattle.std.specs.Prelude.{◌≡◌, ◌↔◌, true};

use base_lists::Items;
use il_syntax::name::Name;
use il_syntax::tree::{
    Argument, Arithmetic, Body, Comparison, Condition, Config, Declaration, Elementary, Form,
    Index, Initial, Instruction, Literal, Logic, Named, Operand, Operator, Place, ProgramLine,
    Reference, Scalar, Size, Step, Store, Subrange, Task, Unit, UnitKind, WrittenType,
};

/// What can be compared by value.
pub trait Same {
    /// Whether this is the other.
    fn same(&self, other: &Self) -> bool
        ensures { (result ≡ true) ↔ (self.now ≡ other.now) };
}

impl Same for Name {
    fn same(&self, other: &Name) -> bool {
        self.as_str() == other.as_str()
    }
}

// Whether two lists have the same items.
fn same_items<T: Same>(items: &[T], others: &[T]) -> bool
    ensures { (result ≡ true) ↔ (items.now ≡ others.now) }
{
    if items.len() != others.len() {
        return false;
    }
    for at in 0..items.len() {
        if !items[at].same(&others[at]) {
            return false;
        }
    }
    true
}

impl<T: Same + Drop> Same for Items<T> {
    fn same(&self, other: &Items<T>) -> bool {
        same_items(self.as_slice(), other.as_slice())
    }
}

impl<T: Same> Same for Option<T> {
    fn same(&self, other: &Option<T>) -> bool {
        match self {
            None => other.is_none(),
            Some(part) => match other {
                None => false,
                Some(other) => part.same(other),
            },
        }
    }
}

impl Same for Elementary {
    fn same(&self, other: &Elementary) -> bool {
        match self {
            Elementary::Bool => matches!(other, Elementary::Bool),
            Elementary::Sint => matches!(other, Elementary::Sint),
            Elementary::Int => matches!(other, Elementary::Int),
            Elementary::Dint => matches!(other, Elementary::Dint),
            Elementary::Usint => matches!(other, Elementary::Usint),
            Elementary::Uint => matches!(other, Elementary::Uint),
            Elementary::Udint => matches!(other, Elementary::Udint),
            Elementary::Time => matches!(other, Elementary::Time),
        }
    }
}

impl Same for Logic {
    fn same(&self, other: &Logic) -> bool {
        match self {
            Logic::Conjunction => matches!(other, Logic::Conjunction),
            Logic::Disjunction => matches!(other, Logic::Disjunction),
            Logic::Exclusive => matches!(other, Logic::Exclusive),
        }
    }
}

impl Same for Arithmetic {
    fn same(&self, other: &Arithmetic) -> bool {
        match self {
            Arithmetic::Add => matches!(other, Arithmetic::Add),
            Arithmetic::Sub => matches!(other, Arithmetic::Sub),
            Arithmetic::Mul => matches!(other, Arithmetic::Mul),
            Arithmetic::Div => matches!(other, Arithmetic::Div),
            Arithmetic::Mod => matches!(other, Arithmetic::Mod),
        }
    }
}

impl Same for Comparison {
    fn same(&self, other: &Comparison) -> bool {
        match self {
            Comparison::Greater => matches!(other, Comparison::Greater),
            Comparison::GreaterOrEqual => matches!(other, Comparison::GreaterOrEqual),
            Comparison::Equal => matches!(other, Comparison::Equal),
            Comparison::NotEqual => matches!(other, Comparison::NotEqual),
            Comparison::LessOrEqual => matches!(other, Comparison::LessOrEqual),
            Comparison::Less => matches!(other, Comparison::Less),
        }
    }
}

impl Same for Store {
    fn same(&self, other: &Store) -> bool {
        match self {
            Store::Plain => matches!(other, Store::Plain),
            Store::Negated => matches!(other, Store::Negated),
            Store::Set => matches!(other, Store::Set),
            Store::Reset => matches!(other, Store::Reset),
        }
    }
}

impl Same for Condition {
    fn same(&self, other: &Condition) -> bool {
        match self {
            Condition::Always => matches!(other, Condition::Always),
            Condition::WhenTrue => matches!(other, Condition::WhenTrue),
            Condition::WhenFalse => matches!(other, Condition::WhenFalse),
        }
    }
}

impl Same for Place {
    fn same(&self, other: &Place) -> bool {
        self.offset == other.offset && self.line == other.line
    }
}

impl Same for Subrange {
    fn same(&self, other: &Subrange) -> bool {
        self == other
    }
}

impl Same for Scalar {
    fn same(&self, other: &Scalar) -> bool {
        self.elementary.same(&other.elementary) && self.subrange.same(&other.subrange)
    }
}

impl Same for Literal {
    fn same(&self, other: &Literal) -> bool {
        match self {
            Literal::Truth(truth) => match other {
                Literal::Truth(other_truth) => *truth == *other_truth,
                _ => false,
            },
            Literal::Bare(number) => match other {
                Literal::Bare(other_number) => *number == *other_number,
                _ => false,
            },
            Literal::Whole(elementary, number) => match other {
                Literal::Whole(other_elementary, other_number) => elementary.same(other_elementary)
                    && *number == *other_number,
                _ => false,
            },
            Literal::Time(number) => match other {
                Literal::Time(other_number) => *number == *other_number,
                _ => false,
            },
        }
    }
}

impl Same for Form {
    fn same(&self, other: &Form) -> bool {
        match self {
            Form::Scalar(scalar) => match other {
                Form::Scalar(other_scalar) => scalar.same(other_scalar),
                _ => false,
            },
            Form::Array { bounds, element } => match other {
                Form::Array {
                    bounds: other_bounds,
                    element: other_element,
                } => bounds.same(other_bounds) && element.same(other_element),
                _ => false,
            },
            Form::Block(name) => match other {
                Form::Block(other_name) => name.same(other_name),
                _ => false,
            },
        }
    }
}

impl Same for Named {
    fn same(&self, other: &Named) -> bool {
        self.place.same(&other.place) && self.name.same(&other.name)
    }
}

impl Same for WrittenType {
    fn same(&self, other: &WrittenType) -> bool {
        self.place.same(&other.place) && self.form.same(&other.form)
    }
}

impl Same for Initial {
    fn same(&self, other: &Initial) -> bool {
        self.place.same(&other.place) && self.literal.same(&other.literal)
    }
}

impl Same for Declaration {
    fn same(&self, other: &Declaration) -> bool {
        self.names.same(&other.names)
            && self.declared.same(&other.declared)
            && self.initial.same(&other.initial)
    }
}

impl Same for Index {
    fn same(&self, other: &Index) -> bool {
        match self {
            Index::Number(number) => match other {
                Index::Number(other_number) => *number == *other_number,
                _ => false,
            },
            Index::Variable(name) => match other {
                Index::Variable(other_name) => name.same(other_name),
                _ => false,
            },
        }
    }
}

impl Same for Reference {
    fn same(&self, other: &Reference) -> bool {
        match self {
            Reference::Literal(literal) => match other {
                Reference::Literal(other_literal) => literal.same(other_literal),
                _ => false,
            },
            Reference::Variable(name) => match other {
                Reference::Variable(other_name) => name.same(other_name),
                _ => false,
            },
            Reference::Element(name, index) => match other {
                Reference::Element(other_name, other_index) => name.same(other_name)
                    && index.same(other_index),
                _ => false,
            },
            Reference::Member(name, member) => match other {
                Reference::Member(other_name, other_member) => name.same(other_name)
                    && member.same(other_member),
                _ => false,
            },
        }
    }
}

impl Same for Operand {
    fn same(&self, other: &Operand) -> bool {
        self.place.same(&other.place) && self.reference.same(&other.reference)
    }
}

impl Same for Operator {
    fn same(&self, other: &Operator) -> bool {
        match self {
            Operator::Logic { logic, negated } => match other {
                Operator::Logic {
                    logic: other_logic,
                    negated: other_negated,
                } => logic.same(other_logic) && *negated == *other_negated,
                _ => false,
            },
            Operator::Arithmetic(arithmetic) => match other {
                Operator::Arithmetic(other_arithmetic) => arithmetic.same(other_arithmetic),
                _ => false,
            },
            Operator::Comparison(comparison) => match other {
                Operator::Comparison(other_comparison) => comparison.same(other_comparison),
                _ => false,
            },
        }
    }
}

impl Same for Argument {
    fn same(&self, other: &Argument) -> bool {
        match self {
            Argument::Input { word, operand } => match other {
                Argument::Input {
                    word: other_word,
                    operand: other_operand,
                } => word.same(other_word) && operand.same(other_operand),
                _ => false,
            },
            Argument::Output { word, target } => match other {
                Argument::Output {
                    word: other_word,
                    target: other_target,
                } => word.same(other_word) && target.same(other_target),
                _ => false,
            },
        }
    }
}

impl Same for Instruction {
    fn same(&self, other: &Instruction) -> bool {
        match self {
            Instruction::Load { negated, operand } => match other {
                Instruction::Load {
                    negated: other_negated,
                    operand: other_operand,
                } => *negated == *other_negated && operand.same(other_operand),
                _ => false,
            },
            Instruction::Store { store, target } => match other {
                Instruction::Store {
                    store: other_store,
                    target: other_target,
                } => store.same(other_store) && target.same(other_target),
                _ => false,
            },
            Instruction::Not => matches!(other, Instruction::Not),
            Instruction::Operate { operator, operand } => match other {
                Instruction::Operate {
                    operator: other_operator,
                    operand: other_operand,
                } => operator.same(other_operator) && operand.same(other_operand),
                _ => false,
            },
            Instruction::Defer { operator, first } => match other {
                Instruction::Defer {
                    operator: other_operator,
                    first: other_first,
                } => operator.same(other_operator) && first.same(other_first),
                _ => false,
            },
            Instruction::Evaluate => matches!(other, Instruction::Evaluate),
            Instruction::Jump { condition, label } => match other {
                Instruction::Jump {
                    condition: other_condition,
                    label: other_label,
                } => condition.same(other_condition) && label.same(other_label),
                _ => false,
            },
            Instruction::Return { condition } => match other {
                Instruction::Return {
                    condition: other_condition,
                } => condition.same(other_condition),
                _ => false,
            },
            Instruction::Call {
                condition,
                instance,
                arguments,
            } => match other {
                Instruction::Call {
                    condition: other_condition,
                    instance: other_instance,
                    arguments: other_arguments,
                } => condition.same(other_condition)
                    && instance.same(other_instance)
                    && arguments.same(other_arguments),
                _ => false,
            },
            Instruction::Invoke { function, operands } => match other {
                Instruction::Invoke {
                    function: other_function,
                    operands: other_operands,
                } => function.same(other_function) && operands.same(other_operands),
                _ => false,
            },
        }
    }
}

impl Same for Step {
    fn same(&self, other: &Step) -> bool {
        self.labels.same(&other.labels)
            && self.place.same(&other.place)
            && self.instruction.same(&other.instruction)
    }
}

impl Same for Body {
    fn same(&self, other: &Body) -> bool {
        self.steps.same(&other.steps)
            && self.last_labels.same(&other.last_labels)
            && self.end.same(&other.end)
    }
}

impl Same for UnitKind {
    fn same(&self, other: &UnitKind) -> bool {
        match self {
            UnitKind::Function(scalar, place) => match other {
                UnitKind::Function(other_scalar, other_place) => scalar.same(other_scalar)
                    && place.same(other_place),
                _ => false,
            },
            UnitKind::FunctionBlock => matches!(other, UnitKind::FunctionBlock),
            UnitKind::Program => matches!(other, UnitKind::Program),
        }
    }
}

impl Same for Unit {
    fn same(&self, other: &Unit) -> bool {
        self.place.same(&other.place)
            && self.kind.same(&other.kind)
            && self.name.same(&other.name)
            && self.inputs.same(&other.inputs)
            && self.outputs.same(&other.outputs)
            && self.variables.same(&other.variables)
            && self.externals.same(&other.externals)
            && self.body.same(&other.body)
    }
}

impl Same for Size {
    fn same(&self, other: &Size) -> bool {
        self.place.same(&other.place) && self.value == other.value
    }
}

impl Same for Task {
    fn same(&self, other: &Task) -> bool {
        self.place.same(&other.place)
            && self.name.same(&other.name)
            && self.interval == other.interval
            && self.priority == other.priority
    }
}

impl Same for ProgramLine {
    fn same(&self, other: &ProgramLine) -> bool {
        self.place.same(&other.place)
            && self.name.same(&other.name)
            && self.task.same(&other.task)
            && self.program.same(&other.program)
    }
}

impl Same for Config {
    fn same(&self, other: &Config) -> bool {
        self.units.same(&other.units)
            && self.cars.same(&other.cars)
            && self.floors.same(&other.floors)
            && self.slots.same(&other.slots)
            && self.globals_place.same(&other.globals_place)
            && self.globals.same(&other.globals)
            && self.tasks.same(&other.tasks)
            && self.programs.same(&other.programs)
            && self.end_resource.same(&other.end_resource)
    }
}
