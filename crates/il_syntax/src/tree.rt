// The tree that a text spells. Its parts carry their places.

use crate::name::Name;
use base_lists::Items;

/// Where a part begins: how many bytes come before it, and its line, counted from 1.
#[derive(Clone, Copy, Debug)]
pub struct Place {
    pub offset: u32,
    pub line: u32,
}

/// The elementary types of the profile (IEC 61131-3:2003, 2.3.1).
#[derive(Clone, Copy, Debug, PartialEq, Eq)]
pub enum Elementary {
    Bool,
    Sint,
    Int,
    Dint,
    Usint,
    Uint,
    Udint,
    Time,
}

/// A literal (2.2). TIME is in whole milliseconds.
#[derive(Clone, Copy, Debug, PartialEq, Eq)]
pub enum Literal {
    Truth(bool),
    /// A whole number without a type.
    Bare(i64),
    /// A whole number of the type written before it.
    Whole(Elementary, i64),
    Time(i64),
}

/// The limits of a subrange, both within it.
#[derive(Clone, Copy, PartialEq, Eq)]
pub struct Subrange {
    pub lower: i64,
    pub upper: i64,
}

/// A scalar type (2.3.3).
#[derive(Clone, Copy, PartialEq, Eq)]
pub struct Scalar {
    pub elementary: Elementary,
    pub subrange: Option<Subrange>,
}

/// What a type is.
pub enum Form {
    Scalar(Scalar),
    Array { bounds: Subrange, element: Scalar },
    /// A function block, own or standard, by its name.
    Block(Name),
}

// Written by hand, as all below, since who drops a type whose drop is derived proves the drop of each type inside again.
impl Drop for Form {
    fn drop(self) {
        match self {
            Form::Scalar(_part) => {}
            Form::Array {
                bounds: _bounds,
                element: _element,
            } => {}
            Form::Block(_part) => {}
        }
    }
}

/// A type where it is written.
pub struct WrittenType {
    pub place: Place,
    pub form: Form,
}

impl Drop for WrittenType {
    fn drop(self) {
        let WrittenType {
            place: _place,
            form: _form,
        } = self;
    }
}

/// A name where it is written.
pub struct Named {
    pub place: Place,
    pub name: Name,
}

impl Drop for Named {
    fn drop(self) {
        let Named {
            place: _place,
            name: _name,
        } = self;
    }
}

/// A literal where it is written.
#[derive(Clone, Copy)]
pub struct Initial {
    pub place: Place,
    pub literal: Literal,
}

/// A declaration of variables (2.4.3).
pub struct Declaration {
    pub names: Items<Named>,
    pub declared: WrittenType,
    pub initial: Option<Initial>,
}

impl Drop for Declaration {
    fn drop(self) {
        let Declaration {
            names: _names,
            declared: _declared,
            initial: _initial,
        } = self;
    }
}

/// An index of an array.
pub enum Index {
    Number(i64),
    Variable(Name),
}

impl Drop for Index {
    fn drop(self) {
        match self {
            Index::Number(_part) => {}
            Index::Variable(_part) => {}
        }
    }
}

/// What an operand names.
pub enum Reference {
    Literal(Literal),
    Variable(Name),
    Element(Name, Index),
    /// An input or output of an instance.
    Member(Name, Name),
}

impl Drop for Reference {
    fn drop(self) {
        match self {
            Reference::Literal(_part) => {}
            Reference::Variable(_part) => {}
            Reference::Element(_first, _second) => {}
            Reference::Member(_first, _second) => {}
        }
    }
}

/// An operand where it is written.
pub struct Operand {
    pub place: Place,
    pub reference: Reference,
}

impl Drop for Operand {
    fn drop(self) {
        let Operand {
            place: _place,
            reference: _reference,
        } = self;
    }
}

/// AND, OR and XOR.
#[derive(Clone, Copy, PartialEq, Eq)]
pub enum Logic {
    Conjunction,
    Disjunction,
    Exclusive,
}

/// ADD, SUB, MUL, DIV and MOD.
#[derive(Clone, Copy, PartialEq, Eq)]
pub enum Arithmetic {
    Add,
    Sub,
    Mul,
    Div,
    Mod,
}

/// GT, GE, EQ, NE, LE and LT.
#[derive(Clone, Copy, PartialEq, Eq)]
pub enum Comparison {
    Greater,
    GreaterOrEqual,
    Equal,
    NotEqual,
    LessOrEqual,
    Less,
}

/// An operator that takes the current result and an operand (3.2.2).
#[derive(Clone, Copy, PartialEq, Eq)]
pub enum Operator {
    Logic { logic: Logic, negated: bool },
    Arithmetic(Arithmetic),
    Comparison(Comparison),
}

/// ST, STN, S and R.
#[derive(Clone, Copy)]
pub enum Store {
    Plain,
    Negated,
    Set,
    Reset,
}

/// When a jump, a call or a return acts: always, with C, or with CN.
#[derive(Clone, Copy)]
pub enum Condition {
    Always,
    WhenTrue,
    WhenFalse,
}

/// An argument of a CAL.
pub enum Argument {
    Input { word: Named, operand: Operand },
    Output { word: Named, target: Named },
}

impl Drop for Argument {
    fn drop(self) {
        match self {
            Argument::Input {
                word: _word,
                operand: _operand,
            } => {}
            Argument::Output {
                word: _word,
                target: _target,
            } => {}
        }
    }
}

/// An instruction (3.2.1). A parenthesis that opens and one that closes are instructions of their own.
pub enum Instruction {
    Load {
        negated: bool,
        operand: Operand,
    },
    Store {
        store: Store,
        target: Operand,
    },
    Not,
    Operate {
        operator: Operator,
        operand: Operand,
    },
    /// `OP(`, with the operand of the short form.
    Defer {
        operator: Operator,
        first: Option<Operand>,
    },
    /// `)`
    Evaluate,
    Jump {
        condition: Condition,
        label: Named,
    },
    Return {
        condition: Condition,
    },
    Call {
        condition: Condition,
        instance: Named,
        arguments: Items<Argument>,
    },
    /// A function by its name, with the arguments after the first.
    Invoke {
        function: Named,
        operands: Items<Operand>,
    },
}

impl Drop for Instruction {
    fn drop(self) {
        match self {
            Instruction::Load {
                negated: _negated,
                operand: _operand,
            } => {}
            Instruction::Store {
                store: _store,
                target: _target,
            } => {}
            Instruction::Not => {}
            Instruction::Operate {
                operator: _operator,
                operand: _operand,
            } => {}
            Instruction::Defer {
                operator: _operator,
                first: _first,
            } => {}
            Instruction::Evaluate => {}
            Instruction::Jump {
                condition: _condition,
                label: _label,
            } => {}
            Instruction::Return {
                condition: _condition,
            } => {}
            Instruction::Call {
                condition: _condition,
                instance: _instance,
                arguments: _arguments,
            } => {}
            Instruction::Invoke {
                function: _function,
                operands: _operands,
            } => {}
        }
    }
}

/// An instruction at the place of its operator, with the labels that name it.
pub struct Step {
    pub labels: Items<Named>,
    pub place: Place,
    pub instruction: Instruction,
}

impl Drop for Step {
    fn drop(self) {
        let Step {
            labels: _labels,
            place: _place,
            instruction: _instruction,
        } = self;
    }
}

/// The body of a unit. The labels at its end name the implicit RET, at the place of the END word.
pub struct Body {
    pub steps: Items<Step>,
    pub last_labels: Items<Named>,
    pub end: Place,
}

impl Drop for Body {
    fn drop(self) {
        let Body {
            steps: _steps,
            last_labels: _last_labels,
            end: _end,
        } = self;
    }
}

/// The kinds of program organization units (2.5).
#[derive(Clone, Copy)]
pub enum UnitKind {
    /// A function, with the type of its result, and where that is written.
    Function(Scalar, Place),
    FunctionBlock,
    Program,
}

/// A program organization unit.
pub struct Unit {
    pub place: Place,
    pub kind: UnitKind,
    pub name: Named,
    pub inputs: Items<Declaration>,
    pub outputs: Items<Declaration>,
    pub variables: Items<Declaration>,
    pub externals: Items<Declaration>,
    pub body: Body,
}

impl Drop for Unit {
    fn drop(self) {
        let Unit {
            place: _place,
            kind: _kind,
            name: _name,
            inputs: _inputs,
            outputs: _outputs,
            variables: _variables,
            externals: _externals,
            body: _body,
        } = self;
    }
}

/// CARS, FLOORS or SLOTS, at the place of its number.
#[derive(Clone, Copy)]
pub struct Size {
    pub place: Place,
    pub value: i64,
}

/// A TASK line (2.7.2). The interval is in milliseconds.
pub struct Task {
    pub place: Place,
    pub name: Named,
    pub interval: i64,
    pub priority: i64,
}

impl Drop for Task {
    fn drop(self) {
        let Task {
            place: _place,
            name: _name,
            interval: _interval,
            priority: _priority,
        } = self;
    }
}

/// A PROGRAM line: an instance of a program type, and its task.
pub struct ProgramLine {
    pub place: Place,
    pub name: Named,
    pub task: Named,
    pub program: Named,
}

impl Drop for ProgramLine {
    fn drop(self) {
        let ProgramLine {
            place: _place,
            name: _name,
            task: _task,
            program: _program,
        } = self;
    }
}

/// A configuration (2.7.1).
pub struct Config {
    pub units: Items<Unit>,
    pub cars: Size,
    pub floors: Size,
    pub slots: Size,
    /// Where the second VAR_GLOBAL is, if there is one.
    pub globals_place: Option<Place>,
    pub globals: Items<Declaration>,
    pub tasks: Items<Task>,
    pub programs: Items<ProgramLine>,
    pub end_resource: Place,
}

impl Drop for Config {
    fn drop(self) {
        let Config {
            units: _units,
            cars: _cars,
            floors: _floors,
            slots: _slots,
            globals_place: _globals_place,
            globals: _globals,
            tasks: _tasks,
            programs: _programs,
            end_resource: _end_resource,
        } = self;
    }
}
