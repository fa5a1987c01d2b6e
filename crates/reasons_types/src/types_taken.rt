// What the operator of an instruction takes (IEC 61131-3:2003, 3.2.2).

ghost use Rattle.std.specs.Prelude.{◌≡◌, OnOk};
ghost use Rattle.base_texts.specs.Puts.{Puts};
ghost use Rattle.reasons_types.specs.TypeReasons.{arithmetic_line, comparison_line, operator_line, taken_line};

use il_syntax::tree::{Arithmetic, Comparison, Instruction, Operator};
use std::alloc::AllocError;

fn arithmetic_line(arithmetic: Arithmetic) -> &'static str
    ensures { result.now ≡ arithmetic_line arithmetic }
{
    match arithmetic {
        Arithmetic::Add | Arithmetic::Sub => {
            "ADD and SUB take two whole numbers of one type, or two TIME\n"
        }
        Arithmetic::Mul | Arithmetic::Div | Arithmetic::Mod => {
            "MUL, DIV and MOD take two whole numbers of one type\n"
        }
    }
}

fn comparison_line(comparison: Comparison) -> &'static str
    ensures { result.now ≡ comparison_line comparison }
{
    match comparison {
        Comparison::Equal | Comparison::NotEqual => "EQ and NE take two of one type\n",
        _ => "GT, GE, LE and LT take two whole numbers of one type, or two TIME\n",
    }
}

fn operator_line(operator: Operator) -> &'static str
    ensures { result.now ≡ operator_line operator }
{
    match operator {
        Operator::Logic { .. } => "AND, OR and XOR take two BOOL\n",
        Operator::Arithmetic(arithmetic) => arithmetic_line(arithmetic),
        Operator::Comparison(comparison) => comparison_line(comparison),
    }
}

/// The types that an instruction's operator takes, if it has one.
pub fn put_taken(text: &mut String, instruction: &Instruction) -> Result<(), AllocError>
    ensures { OnOk result (Puts text.old text.new (taken_line instruction.now)) }
{
    match instruction {
        Instruction::Operate { operator, .. } => text.push_str(operator_line(*operator)),
        Instruction::Defer { operator, .. } => text.push_str(operator_line(*operator)),
        _ => Ok(()),
    }
}
