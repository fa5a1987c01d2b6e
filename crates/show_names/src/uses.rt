// What the instructions of a body use.

ghost use Rattle.std.specs.Prelude.{◌≡◌, ◌++◌, ◌∷◌, [], MatchOption};
ghost use Rattle.std.specs.Iterator.{YieldsFirstBy, item_count};
ghost use Rattle.show_names.specs.Uses.{named_use, index_uses, operand_uses, argument_uses, short_form_uses, use_in, operands_uses, arguments_uses, instruction_uses, uses, use_shown, index_shown, found_shown, maybe_found_shown, rest_shown, head_shown, uses_left};

use il_syntax::name::Name;
use il_syntax::tree::{Argument, Index, Instruction, Named, Operand, Reference, Step};

/// How an instruction uses a name.
#[derive(Clone, Copy)]
pub enum Manner {
    Read,
    Written,
    /// An instance after CAL, or a function.
    Called,
}

/// A use of a name: the line where it is written, and how it is used there.
#[derive(Clone, Copy)]
pub struct Use<'c> {
    pub name: &'c str,
    pub line: u32,
    pub manner: Manner,
}

/// The use of an operand, and that of its index.
#[derive(Clone, Copy)]
pub struct Found<'c> {
    pub used: Use<'c>,
    pub index: Option<Use<'c>>,
}

/// What is left of an instruction.
#[derive(Clone, Copy)]
pub enum Rest<'c> {
    /// Operands that are read.
    Operands(&'c [Operand]),
    /// Arguments of a CAL.
    Arguments(&'c [Argument]),
}

/// The first uses of an instruction, and what is left of it.
#[derive(Clone, Copy)]
pub struct Head<'c> {
    pub found: Found<'c>,
    pub rest: Rest<'c>,
}

/// The uses that are left of steps.
#[derive(Clone, Copy)]
pub struct UsesLeft<'c> {
    /// That of an index, whose array was the last use.
    pub index: Option<Use<'c>>,
    /// What is left of the instruction that is begun.
    pub rest: Rest<'c>,
    /// The steps after it.
    pub steps: &'c [Step],
}

/// The uses of steps, in their order (own rule). Operands and inputs are read, the targets of
/// stores and outputs are written, instances and functions are called. The index of an element is
/// read; a member counts for its instance. Labels are left out.
pub fn uses<'c>(steps: &'c [Step]) -> UsesLeft<'c>
    ensures { uses_left result ≡ uses steps.now }
{
    UsesLeft {
        index: None,
        rest: Rest::Operands(&[]),
        steps,
    }
}

impl<'c> Iterator for UsesLeft<'c> {
    type Item = Use<'c>;

    ghost next_gives = { YieldsFirstBy use_shown uses_left };

    ghost remaining = { item_count uses_left };

    fn next(&mut self) -> Option<Use<'c>> {
        if let Some(used) = self.index {
            self.index = None;
            return Some(used);
        }
        if let Some((found, rest)) = first_of_rest(self.rest) {
            self.index = found.index;
            self.rest = rest;
            return Some(found.used);
        }
        let (head, steps) = first_of_steps(self.steps)?;
        self.index = head.found.index;
        self.rest = head.rest;
        self.steps = steps;
        Some(head.found.used)
    }
}

// The first use of what is left of an instruction, and what is left after it.
fn first_of_rest<'c>(rest: Rest<'c>) -> Option<(Found<'c>, Rest<'c>)>
    ensures { MatchOption result (rest_shown rest.entry ≡ [])
        (λ r. rest_shown rest.entry ≡ found_shown r.0 ++ rest_shown r.1) }
{
    match rest {
        Rest::Operands(operands) => {
            let (found, operands) = first_of_operands(operands)?;
            Some((found, Rest::Operands(operands)))
        }
        Rest::Arguments(arguments) => {
            let (found, arguments) = first_of_arguments(arguments)?;
            Some((found, Rest::Arguments(arguments)))
        }
    }
}

// The first operand that uses a name, and the operands after it.
fn first_of_operands<'c>(operands: &'c [Operand]) -> Option<(Found<'c>, &'c [Operand])>
    ensures { MatchOption result (operands_uses operands.now ≡ [])
        (λ r. operands_uses operands.now ≡ found_shown r.0 ++ operands_uses r.1.now) }
{
    let mut left = operands;
    'operands: while let Some((operand, others)) = left.split_first() {
        left = others;
        if let Some(found) = operand_use(Manner::Read, operand) {
            return Some((found, left));
        }
    }
    None
}

// The first argument that uses a name, and the arguments after it.
fn first_of_arguments<'c>(arguments: &'c [Argument]) -> Option<(Found<'c>, &'c [Argument])>
    ensures { MatchOption result (arguments_uses arguments.now ≡ [])
        (λ r. arguments_uses arguments.now ≡ found_shown r.0 ++ arguments_uses r.1.now) }
{
    let mut left = arguments;
    'arguments: while let Some((argument, others)) = left.split_first() {
        left = others;
        if let Some(found) = argument_use(argument) {
            return Some((found, left));
        }
    }
    None
}

// The first step that uses a name, and the steps after it.
fn first_of_steps<'c>(steps: &'c [Step]) -> Option<(Head<'c>, &'c [Step])>
    ensures { MatchOption result (uses steps.now ≡ [])
        (λ r. uses steps.now ≡ (found_shown r.0.found ++ rest_shown r.0.rest) ++ uses r.1.now) }
{
    let mut left = steps;
    'steps: while let Some((step, others)) = left.split_first() {
        left = others;
        if let Some(head) = instruction_head(&step.instruction) {
            return Some((head, left));
        }
    }
    None
}

// An instruction that uses a name.
fn instruction_head<'c>(instruction: &'c Instruction) -> Option<Head<'c>>
    ensures { head_shown result ≡ instruction_uses instruction.now }
{
    match instruction {
        Instruction::Load { operand, .. } => whole(operand_use(Manner::Read, operand)),
        Instruction::Store { target, .. } => whole(operand_use(Manner::Written, target)),
        Instruction::Operate { operand, .. } => whole(operand_use(Manner::Read, operand)),
        Instruction::Defer { first, .. } => whole(short_form_use(first)),
        Instruction::Call {
            instance,
            arguments,
            ..
        } => Some(Head {
            found: named_use(Manner::Called, instance),
            rest: Rest::Arguments(arguments.as_slice()),
        }),
        Instruction::Invoke { function, operands } => Some(Head {
            found: named_use(Manner::Called, function),
            rest: Rest::Operands(operands.as_slice()),
        }),
        _ => None,
    }
}

// An instruction of one operand.
fn whole<'c>(found: Option<Found<'c>>) -> Option<Head<'c>>
    ensures { head_shown result ≡ maybe_found_shown found.entry }
{
    let found = found?;
    Some(Head {
        found,
        rest: Rest::Operands(&[]),
    })
}

// The operand of a short form, if there is one.
fn short_form_use<'c>(first: &'c Option<Operand>) -> Option<Found<'c>>
    ensures { maybe_found_shown result ≡ short_form_uses first.now }
{
    match first {
        Some(operand) => operand_use(Manner::Read, operand),
        None => None,
    }
}

// What an operand uses.
fn operand_use<'c>(manner: Manner, operand: &'c Operand) -> Option<Found<'c>>
    ensures { maybe_found_shown result ≡ operand_uses manner operand.now }
{
    let line = operand.place.line;
    match &operand.reference {
        Reference::Literal(_) => None,
        Reference::Variable(name) => Some(Found {
            used: use_in(manner, line, name),
            index: None,
        }),
        Reference::Element(name, index) => Some(Found {
            used: use_in(manner, line, name),
            index: index_use(line, index),
        }),
        Reference::Member(instance, _) => Some(Found {
            used: use_in(manner, line, instance),
            index: None,
        }),
    }
}

// What an index uses.
fn index_use<'c>(line: u32, index: &'c Index) -> Option<Use<'c>>
    ensures { index_shown result ≡ index_uses line index.now }
{
    match index {
        Index::Number(_) => None,
        Index::Variable(name) => Some(use_in(Manner::Read, line, name)),
    }
}

// What an argument of a CAL uses.
fn argument_use<'c>(argument: &'c Argument) -> Option<Found<'c>>
    ensures { maybe_found_shown result ≡ argument_uses argument.now }
{
    match argument {
        Argument::Input { operand, .. } => operand_use(Manner::Read, operand),
        Argument::Output { target, .. } => Some(named_use(Manner::Written, target)),
    }
}

// The use of a name at its own place.
fn named_use<'c>(manner: Manner, named: &'c Named) -> Found<'c>
    ensures { found_shown result ≡ named_use manner named.now ∷ [] }
{
    Found {
        used: use_in(manner, named.place.line, &named.name),
        index: None,
    }
}

// The use of a name in a line.
fn use_in<'c>(manner: Manner, line: u32, name: &'c Name) -> Use<'c>
    ensures { use_shown result ≡ use_in manner line name.now }
{
    Use {
        name: name.as_str(),
        line,
        manner,
    }
}
