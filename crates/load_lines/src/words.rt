// Reserved words.

ghost use Rattle.std.specs.Prelude.{◌≡◌};
ghost use Rattle.load_lines.specs.Count.{keyword_number, sign_number};
ghost use Rattle.il_syntax.specs.Text.{entry_of};
ghost use Rattle.il_syntax.specs.Words.{keyword_of};
ghost use Rattle.load_lines.specs.Lengths.{one_letter_words, two_letter_words, three_letter_words, four_letter_words, five_letter_words, longer_words};

use il_syntax::keyword::Keyword;
use il_syntax::token::Sign;
use il_syntax::tree::{Arithmetic, Comparison, Condition, Elementary, Logic, Operator, Store};

// A reserved word of one letter.
#[tactic(auto, unfolding(il_syntax::specs::Text::entry_of))]
fn one_letter_word(word: &str) -> Option<Keyword>
    ensures { result ≡ entry_of one_letter_words word.now }
{
    match word {
        "S" => Some(Keyword::Store(Store::Set)),
        "R" => Some(Keyword::Store(Store::Reset)),
        _ => None,
    }
}

// A reserved word of two letters. LD and ST are told first, as most instructions are these.
#[tactic(auto, using(crate::proofs::First::load, crate::proofs::First::store))]
fn two_letter_word(word: &str) -> Option<Keyword>
    ensures { result ≡ entry_of two_letter_words word.now }
{
    match word {
        "LD" => Some(Keyword::Load { negated: false }),
        "ST" => Some(Keyword::Store(Store::Plain)),
        _ => any_two_letter_word(word),
    }
}

// A reserved word of two letters, of all of them.
#[tactic(auto, unfolding(il_syntax::specs::Text::entry_of))]
fn any_two_letter_word(word: &str) -> Option<Keyword>
    ensures { result ≡ entry_of two_letter_words word.now }
{
    match word {
        "OR" => Some(Keyword::Operate(Operator::Logic {
            logic: Logic::Disjunction,
            negated: false,
        })),
        "GT" => Some(Keyword::Operate(Operator::Comparison(Comparison::Greater))),
        "GE" => Some(Keyword::Operate(Operator::Comparison(Comparison::GreaterOrEqual))),
        "EQ" => Some(Keyword::Operate(Operator::Comparison(Comparison::Equal))),
        "NE" => Some(Keyword::Operate(Operator::Comparison(Comparison::NotEqual))),
        "LE" => Some(Keyword::Operate(Operator::Comparison(Comparison::LessOrEqual))),
        "LT" => Some(Keyword::Operate(Operator::Comparison(Comparison::Less))),
        "LD" => Some(Keyword::Load { negated: false }),
        "ST" => Some(Keyword::Store(Store::Plain)),
        "OF" => Some(Keyword::Of),
        "ON" => Some(Keyword::On),
        _ => None,
    }
}

// A reserved word of three letters.
#[tactic(auto, unfolding(il_syntax::specs::Text::entry_of))]
fn three_letter_word(word: &str) -> Option<Keyword>
    ensures { result ≡ entry_of three_letter_words word.now }
{
    match word {
        "AND" => Some(Keyword::Operate(Operator::Logic {
            logic: Logic::Conjunction,
            negated: false,
        })),
        "ORN" => Some(Keyword::Operate(Operator::Logic {
            logic: Logic::Disjunction,
            negated: true,
        })),
        "XOR" => Some(Keyword::Operate(Operator::Logic {
            logic: Logic::Exclusive,
            negated: false,
        })),
        "ADD" => Some(Keyword::Operate(Operator::Arithmetic(Arithmetic::Add))),
        "SUB" => Some(Keyword::Operate(Operator::Arithmetic(Arithmetic::Sub))),
        "MUL" => Some(Keyword::Operate(Operator::Arithmetic(Arithmetic::Mul))),
        "DIV" => Some(Keyword::Operate(Operator::Arithmetic(Arithmetic::Div))),
        "MOD" => Some(Keyword::Operate(Operator::Arithmetic(Arithmetic::Mod))),
        "LDN" => Some(Keyword::Load { negated: true }),
        "STN" => Some(Keyword::Store(Store::Negated)),
        "NOT" => Some(Keyword::Not),
        "JMP" => Some(Keyword::Jump(Condition::Always)),
        "CAL" => Some(Keyword::Call(Condition::Always)),
        "RET" => Some(Keyword::Return(Condition::Always)),
        "INT" => Some(Keyword::Elementary(Elementary::Int)),
        "VAR" => Some(Keyword::Var),
        _ => None,
    }
}

// A reserved word of four letters.
#[tactic(auto, unfolding(il_syntax::specs::Text::entry_of))]
fn four_letter_word(word: &str) -> Option<Keyword>
    ensures { result ≡ entry_of four_letter_words word.now }
{
    match word {
        "ANDN" => Some(Keyword::Operate(Operator::Logic {
            logic: Logic::Conjunction,
            negated: true,
        })),
        "XORN" => Some(Keyword::Operate(Operator::Logic {
            logic: Logic::Exclusive,
            negated: true,
        })),
        "JMPC" => Some(Keyword::Jump(Condition::WhenTrue)),
        "CALC" => Some(Keyword::Call(Condition::WhenTrue)),
        "RETC" => Some(Keyword::Return(Condition::WhenTrue)),
        "BOOL" => Some(Keyword::Elementary(Elementary::Bool)),
        "SINT" => Some(Keyword::Elementary(Elementary::Sint)),
        "DINT" => Some(Keyword::Elementary(Elementary::Dint)),
        "UINT" => Some(Keyword::Elementary(Elementary::Uint)),
        "TIME" => Some(Keyword::Elementary(Elementary::Time)),
        "TRUE" => Some(Keyword::Truth(true)),
        "TASK" => Some(Keyword::Task),
        "WITH" => Some(Keyword::With),
        _ => None,
    }
}

// A reserved word of five letters.
#[tactic(auto, unfolding(il_syntax::specs::Text::entry_of))]
fn five_letter_word(word: &str) -> Option<Keyword>
    ensures { result ≡ entry_of five_letter_words word.now }
{
    match word {
        "JMPCN" => Some(Keyword::Jump(Condition::WhenFalse)),
        "CALCN" => Some(Keyword::Call(Condition::WhenFalse)),
        "RETCN" => Some(Keyword::Return(Condition::WhenFalse)),
        "USINT" => Some(Keyword::Elementary(Elementary::Usint)),
        "UDINT" => Some(Keyword::Elementary(Elementary::Udint)),
        "ARRAY" => Some(Keyword::Array),
        "FALSE" => Some(Keyword::Truth(false)),
        _ => None,
    }
}

// A reserved word of more than five letters. It is by itself, so that the others pay nothing for its calls.
#[inline(never)]
#[tactic(auto, unfolding(il_syntax::specs::Text::entry_of))]
fn longer_word(word: &str) -> Option<Keyword>
    ensures { result ≡ entry_of longer_words word.now }
{
    match word {
        "VAR_INPUT" => Some(Keyword::VarInput),
        "VAR_OUTPUT" => Some(Keyword::VarOutput),
        "VAR_EXTERNAL" => Some(Keyword::VarExternal),
        "VAR_GLOBAL" => Some(Keyword::VarGlobal),
        "CONSTANT" => Some(Keyword::Constant),
        "END_VAR" => Some(Keyword::EndVar),
        "FUNCTION" => Some(Keyword::Function),
        "END_FUNCTION" => Some(Keyword::EndFunction),
        "FUNCTION_BLOCK" => Some(Keyword::FunctionBlock),
        "END_FUNCTION_BLOCK" => Some(Keyword::EndFunctionBlock),
        "PROGRAM" => Some(Keyword::Program),
        "END_PROGRAM" => Some(Keyword::EndProgram),
        "CONFIGURATION" => Some(Keyword::Configuration),
        "END_CONFIGURATION" => Some(Keyword::EndConfiguration),
        "RESOURCE" => Some(Keyword::Resource),
        "END_RESOURCE" => Some(Keyword::EndResource),
        "INTERVAL" => Some(Keyword::Interval),
        "PRIORITY" => Some(Keyword::Priority),
        _ => None,
    }
}

/// The reserved word that a word in upper case is.
#[tactic(auto, using(crate::proofs::Lengths::one_letter, crate::proofs::Lengths::two_letters, crate::proofs::Lengths::three_letters, crate::proofs::Lengths::four_letters, crate::proofs::Lengths::five_letters, crate::proofs::Lengths::six_letters, crate::proofs::Lengths::other_letters))]
pub fn keyword_of(word: &str) -> Option<Keyword>
    ensures { result ≡ keyword_of word.now }
{
    match word.len() {
        1 => one_letter_word(word),
        2 => two_letter_word(word),
        3 => three_letter_word(word),
        4 => four_letter_word(word),
        5 => five_letter_word(word),
        // No reserved word has six letters.
        6 => None,
        _ => longer_word(word),
    }
}

/// The number of a reserved word, by which words are compared.
#[inline(always)]
pub fn keyword_number(keyword: Keyword) -> u8
    ensures { result ≡ keyword_number keyword }
{
    match keyword {
        Keyword::Load { negated: false } => 0,
        Keyword::Load { negated: true } => 1,
        Keyword::Store(Store::Plain) => 2,
        Keyword::Store(Store::Negated) => 3,
        Keyword::Store(Store::Set) => 4,
        Keyword::Store(Store::Reset) => 5,
        Keyword::Not => 6,
        Keyword::Operate(
            Operator::Logic {
                logic: Logic::Conjunction,
                negated: false,
            },
        ) => 7,
        Keyword::Operate(
            Operator::Logic {
                logic: Logic::Conjunction,
                negated: true,
            },
        ) => 8,
        Keyword::Operate(
            Operator::Logic {
                logic: Logic::Disjunction,
                negated: false,
            },
        ) => 9,
        Keyword::Operate(
            Operator::Logic {
                logic: Logic::Disjunction,
                negated: true,
            },
        ) => 10,
        Keyword::Operate(
            Operator::Logic {
                logic: Logic::Exclusive,
                negated: false,
            },
        ) => 11,
        Keyword::Operate(
            Operator::Logic {
                logic: Logic::Exclusive,
                negated: true,
            },
        ) => 12,
        Keyword::Operate(Operator::Arithmetic(Arithmetic::Add)) => 13,
        Keyword::Operate(Operator::Arithmetic(Arithmetic::Sub)) => 14,
        Keyword::Operate(Operator::Arithmetic(Arithmetic::Mul)) => 15,
        Keyword::Operate(Operator::Arithmetic(Arithmetic::Div)) => 16,
        Keyword::Operate(Operator::Arithmetic(Arithmetic::Mod)) => 17,
        Keyword::Operate(Operator::Comparison(Comparison::Greater)) => 18,
        Keyword::Operate(Operator::Comparison(Comparison::GreaterOrEqual)) => 19,
        Keyword::Operate(Operator::Comparison(Comparison::Equal)) => 20,
        Keyword::Operate(Operator::Comparison(Comparison::NotEqual)) => 21,
        Keyword::Operate(Operator::Comparison(Comparison::LessOrEqual)) => 22,
        Keyword::Operate(Operator::Comparison(Comparison::Less)) => 23,
        Keyword::Jump(Condition::Always) => 24,
        Keyword::Jump(Condition::WhenTrue) => 25,
        Keyword::Jump(Condition::WhenFalse) => 26,
        Keyword::Call(Condition::Always) => 27,
        Keyword::Call(Condition::WhenTrue) => 28,
        Keyword::Call(Condition::WhenFalse) => 29,
        Keyword::Return(Condition::Always) => 30,
        Keyword::Return(Condition::WhenTrue) => 31,
        Keyword::Return(Condition::WhenFalse) => 32,
        Keyword::Elementary(Elementary::Bool) => 33,
        Keyword::Elementary(Elementary::Sint) => 34,
        Keyword::Elementary(Elementary::Int) => 35,
        Keyword::Elementary(Elementary::Dint) => 36,
        Keyword::Elementary(Elementary::Usint) => 37,
        Keyword::Elementary(Elementary::Uint) => 38,
        Keyword::Elementary(Elementary::Udint) => 39,
        Keyword::Elementary(Elementary::Time) => 40,
        Keyword::Truth(false) => 41,
        Keyword::Truth(true) => 42,
        Keyword::Array => 43,
        Keyword::Of => 44,
        Keyword::Var => 45,
        Keyword::VarInput => 46,
        Keyword::VarOutput => 47,
        Keyword::VarExternal => 48,
        Keyword::VarGlobal => 49,
        Keyword::Constant => 50,
        Keyword::EndVar => 51,
        Keyword::Function => 52,
        Keyword::EndFunction => 53,
        Keyword::FunctionBlock => 54,
        Keyword::EndFunctionBlock => 55,
        Keyword::Program => 56,
        Keyword::EndProgram => 57,
        Keyword::Configuration => 58,
        Keyword::EndConfiguration => 59,
        Keyword::Resource => 60,
        Keyword::EndResource => 61,
        Keyword::On => 62,
        Keyword::Task => 63,
        Keyword::With => 64,
        Keyword::Interval => 65,
        Keyword::Priority => 66,
    }
}

/// The number of a sign, by which signs are compared.
pub fn sign_number(sign: Sign) -> u8
    ensures { result ≡ sign_number sign }
{
    sign as u8
}
