// The arguments of functions and calls, and what is taken (IEC 61131-3:2003, 2.5.1, 3.2.3).

ghost use Rattle.std.specs.Prelude.{◌≡◌, ◌+◌, [], None, length, OnOk};
ghost use Rattle.base_texts.specs.Puts.{Puts};
ghost use Rattle.il_statics.specs.Names.{standard_function, further_arguments, function_named};
ghost use Rattle.il_statics.specs.Types as rules;
ghost use Rattle.reasons_types.specs.ArgumentReasons.{taken_count, arguments_text, standing_text, with_result, count_line, is_given, twice_line, enable_line, lacks_input, lacks_output, no_input_line, no_output_line, word_line, argument_lines, arguments_lines, call_lines, taken_lines};

use crate::types_words::put_block;
use il_statics::names::StandardFunction;
use il_syntax::tree::{Argument, Instruction};
use load_scope::UnitScope;
use load_scope::functions::standard_function;
use reasons_names::names_meant::{has_input, has_output};
use reasons_names::writing::{put_four, put_two};
use std::alloc::{AllocError, Global};

// The arguments of a standard function, the current result as the first of them.
fn standard_count(function: StandardFunction) -> usize
    ensures { result ≡ further_arguments function + 1 }
{
    match function {
        StandardFunction::Absolute => 1,
        StandardFunction::Minimum => 2,
        StandardFunction::Maximum => 2,
        StandardFunction::Limited => 3,
        StandardFunction::Selected => 3,
        StandardFunction::Converted(_, _) => 1,
    }
}

// The inputs of an own function.
fn own_count(scope: &UnitScope<'_>, name: &str) -> Option<usize>
    ensures { result ≡ taken_count None (function_named scope.now.config name.now) }
{
    match scope.own_inputs(name) {
        Some(inputs) => Some(inputs.len()),
        None => None,
    }
}

// How many arguments a function takes, the current result as the first of them.
fn taken_count(scope: &UnitScope<'_>, name: &str) -> Option<usize>
    ensures { result ≡ taken_count (standard_function name.now)
        (function_named scope.now.config name.now) }
{
    match standard_function(name) {
        Some(function) => Some(standard_count(function)),
        None => own_count(scope, name),
    }
}

// `1 argument`, `2 arguments`
fn put_arguments_count(text: &mut String, count: usize) -> Result<(), AllocError>
    ensures { OnOk result (Puts text.old text.new (arguments_text count)) }
{
    write!(text, "{}", count)?;
    if count == 1 {
        text.push_str(" argument")
    } else {
        text.push_str(" arguments")
    }
}

// `1 is given`, `2 are given`
fn put_standing(text: &mut String, count: usize) -> Result<(), AllocError>
    ensures { OnOk result (Puts text.old text.new (standing_text count)) }
{
    write!(text, "{}", count)?;
    if count == 1 {
        text.push_str(" is given")
    } else {
        text.push_str(" are given")
    }
}

// ` with the current result`, and the end of the line.
#[tactic(auto, unfolding(crate::specs::ArgumentReasons::with_result))]
fn put_with_result(text: &mut String) -> Result<(), AllocError>
    ensures { OnOk result (Puts text.old text.new with_result) }
{
    text.push_str(" with the current result\n")
}

// `MAX takes 2 arguments, 3 stand here with the current result`, of a known function.
fn put_count(
    text: &mut String,
    name: &str,
    standing: usize,
    taken: Option<usize>,
) -> Result<(), AllocError>
    ensures { OnOk result (Puts text.old text.new (count_line name.now standing taken)) }
{
    match taken {
        Some(taken) => {
            put_two(text, name, " takes ")?;
            put_arguments_count(text, taken)?;
            text.push_str(", ")?;
            put_standing(text, standing)?;
            put_with_result(text)
        }
        None => Ok(()),
    }
}

// The word that an argument gives.
fn argument_word(argument: &Argument) -> &str
    ensures { result.now ≡ rules.argument_word argument.now }
{
    match argument {
        Argument::Input { word, .. } => word.name.as_str(),
        Argument::Output { word, .. } => word.name.as_str(),
    }
}

// Whether one of these arguments gives a word.
fn is_given(arguments: &[Argument], word: &str) -> bool
    ensures { result ≡ is_given arguments.now word.now }
{
    'arguments: for argument in arguments {
        if argument_word(argument) == word {
            return true;
        }
    }
    false
}

// `PV is given twice`
fn put_twice(text: &mut String, given: bool, word: &str) -> Result<(), AllocError>
    ensures { OnOk result (Puts text.old text.new (twice_line given word.now)) }
{
    if given {
        put_two(text, word, " is given twice\n")
    } else {
        Ok(())
    }
}

// Of a word of the standard that says whether a block runs, and whether it ran.
#[tactic(auto, unfolding(crate::specs::ArgumentReasons::enable_line))]
fn put_enable(text: &mut String, word: &str) -> Result<(), AllocError>
    ensures { OnOk result (Puts text.old text.new (enable_line word.now)) }
{
    if word == "EN" {
        text.push_str("the language has no EN: call with CALC, or jump over the CAL with JMPC\n")
    } else if word == "ENO" {
        text.push_str("the language has no ENO: each CAL that is reached runs to its end\n")
    } else {
        Ok(())
    }
}

// `Q1 is no input of C1`
#[tactic(auto, unfolding(crate::specs::ArgumentReasons::lacks_input))]
fn put_lacks_input(text: &mut String, word: &str, instance: &str) -> Result<(), AllocError>
    ensures { OnOk result (Puts text.old text.new (lacks_input word.now instance.now)) }
{
    put_four(text, word, " is no input of ", instance, "\n")
}

// `PV is no output of C1`
#[tactic(auto, unfolding(crate::specs::ArgumentReasons::lacks_output))]
fn put_lacks_output(text: &mut String, word: &str, instance: &str) -> Result<(), AllocError>
    ensures { OnOk result (Puts text.old text.new (lacks_output word.now instance.now)) }
{
    put_four(text, word, " is no output of ", instance, "\n")
}

// That the block has no input of this word, and what it has instead.
fn put_no_input(text: &mut String, has: bool, word: &str, instance: &str) -> Result<(), AllocError>
    ensures { OnOk result (Puts text.old text.new (no_input_line has word.now instance.now)) }
{
    if has {
        Ok(())
    } else {
        put_lacks_input(text, word, instance)?;
        put_enable(text, word)
    }
}

// That the block has no output of this word, and what it has instead.
fn put_no_output(text: &mut String, has: bool, word: &str, instance: &str) -> Result<(), AllocError>
    ensures { OnOk result (Puts text.old text.new (no_output_line has word.now instance.now)) }
{
    if has {
        Ok(())
    } else {
        put_lacks_output(text, word, instance)?;
        put_enable(text, word)
    }
}

// Of an argument, whether the block has its word.
fn put_word(
    text: &mut String,
    scope: &UnitScope<'_>,
    instance: &str,
    argument: &Argument,
) -> Result<(), AllocError>
    ensures { OnOk result (Puts text.old text.new
        (word_line (rules.instance_block scope.now.config scope.now.unit instance.now) instance.now
        argument.now)) }
{
    match argument {
        Argument::Input { word, .. } => {
            let word = word.name.as_str();
            put_no_input(text, has_input(scope, instance, word), word, instance)
        }
        Argument::Output { word, .. } => {
            let word = word.name.as_str();
            put_no_output(text, has_output(scope, instance, word), word, instance)
        }
    }
}

// Of an argument after others.
fn put_argument(
    text: &mut String,
    scope: &UnitScope<'_>,
    instance: &str,
    before: &[Argument],
    argument: &Argument,
) -> Result<(), AllocError>
    ensures { OnOk result (Puts text.old text.new
        (argument_lines (rules.instance_block scope.now.config scope.now.unit instance.now)
        instance.now before.now argument.now)) }
{
    let word = argument_word(argument);
    put_twice(text, is_given(before, word), word)?;
    put_word(text, scope, instance, argument)
}

// Of all arguments.
fn put_arguments(
    text: &mut String,
    scope: &UnitScope<'_>,
    instance: &str,
    arguments: &[Argument],
) -> Result<(), AllocError>
    ensures { OnOk result (Puts text.old text.new
        (arguments_lines
        (rules.instance_block scope.now.config scope.now.unit instance.now) instance.now []
        arguments.now)) }
{
    'arguments: for at in 0..arguments.len() {
        put_argument(text, scope, instance, &arguments[..at], &arguments[at])?;
    }
    Ok(())
}

// Of a CAL: the words that are twice or that the block lacks, and those that it has.
fn put_call(
    alloc: Global,
    text: &mut String,
    scope: &UnitScope<'_>,
    instance: &str,
    arguments: &[Argument],
) -> Result<(), AllocError>
    ensures { OnOk result (Puts text.old text.new
        (call_lines (rules.instance_block scope.now.config scope.now.unit instance.now) instance.now
        arguments.now)) }
{
    match scope.block(instance) {
        Some(block) => {
            put_arguments(text, scope, instance, arguments)?;
            put_block(alloc, text, scope.names(), instance, block)
        }
        None => Ok(()),
    }
}

/// The arguments of an instruction, and what is taken.
pub fn put_taken(
    alloc: Global,
    text: &mut String,
    scope: &UnitScope<'_>,
    instruction: &Instruction,
) -> Result<(), AllocError>
    ensures { OnOk result (Puts text.old text.new
        (taken_lines scope.now.config scope.now.unit instruction.now)) }
{
    match instruction {
        Instruction::Call {
            instance,
            arguments,
            ..
        } => put_call(
            alloc,
            text,
            scope,
            instance.name.as_str(),
            arguments.as_slice(),
        ),
        Instruction::Invoke { function, operands } => {
            let name = function.name.as_str();
            let standing = operands.as_slice().len() + 1;
            put_count(text, name, standing, taken_count(scope, name))
        }
        _ => Ok(()),
    }
}
