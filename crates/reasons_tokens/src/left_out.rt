// What IEC 61131-3 has and the language leaves out, and what there is instead.

ghost use Rattle.std.specs.Prelude.{◌≡◌, ◌++◌, ◌+◌, ◌<◌, None, OnOk, map, option_map, slice_get};
ghost use Rattle.reasons_tokens.specs.LeftOut.{is_fraction, is_long, is_bits, is_characters, is_date, absent_type, instead, absent_line, type_by, type_line, slash_or, star_or, stray_of, stray_line, stray_lines, byte_stray, stray_at, before_from, token_before, is_retain, is_constant, is_list, is_of, lists_line, list_by, retain_line, constant_line, elements_line, elements_by, behind_by, words_lines, named_by};

use il_syntax::token::Token;
use std::alloc::AllocError;

/// The elementary types that the language leaves out (IEC 61131-3:2003, 2.3.1).
#[derive(Clone, Copy)]
pub(crate) enum AbsentType {
    /// REAL and LREAL.
    Fraction,
    /// LINT and ULINT.
    Long,
    /// BYTE, WORD, DWORD and LWORD.
    Bits,
    /// STRING and WSTRING.
    Characters,
    /// DATE, TIME_OF_DAY and DATE_AND_TIME.
    Date,
}

/// What begins with a byte that has no place in a text.
#[derive(Clone, Copy)]
pub(crate) enum Stray {
    /// `%IX0.0`
    Address,
    /// `// up`
    LineComment,
    /// `/`
    Division,
    /// `=`
    Equals,
    /// `+`
    Plus,
    /// `*`
    Times,
    /// `-`
    Minus,
    /// `<` or `>`
    Comparison,
    /// `'up'`
    Quote,
    /// A byte of no ASCII text.
    NotAscii,
}

#[tactic(auto, unfolding(crate::specs::LeftOut::is_fraction))]
fn is_fraction(word: &str) -> bool
    ensures { result ≡ is_fraction word.now }
{
    word == "REAL" || word == "LREAL"
}

#[tactic(auto, unfolding(crate::specs::LeftOut::is_long))]
fn is_long(word: &str) -> bool
    ensures { result ≡ is_long word.now }
{
    word == "LINT" || word == "ULINT"
}

#[tactic(auto, unfolding(crate::specs::LeftOut::is_bits))]
fn is_bits(word: &str) -> bool
    ensures { result ≡ is_bits word.now }
{
    word == "BYTE" || word == "WORD" || word == "DWORD" || word == "LWORD"
}

#[tactic(auto, unfolding(crate::specs::LeftOut::is_characters))]
fn is_characters(word: &str) -> bool
    ensures { result ≡ is_characters word.now }
{
    word == "STRING" || word == "WSTRING"
}

#[tactic(auto, unfolding(crate::specs::LeftOut::is_date))]
fn is_date(word: &str) -> bool
    ensures { result ≡ is_date word.now }
{
    word == "DATE"
        || word == "TIME_OF_DAY"
        || word == "TOD"
        || word == "DATE_AND_TIME"
        || word == "DT"
}

impl AbsentType {
    // The kind of a type that is left out.
    fn of(word: &str) -> Option<AbsentType>
        ensures { result ≡ absent_type word.now }
    {
        if is_fraction(word) {
            Some(AbsentType::Fraction)
        } else if is_long(word) {
            Some(AbsentType::Long)
        } else if is_bits(word) {
            Some(AbsentType::Bits)
        } else if is_characters(word) {
            Some(AbsentType::Characters)
        } else if is_date(word) {
            Some(AbsentType::Date)
        } else {
            None
        }
    }

    // What there is instead.
    fn instead(self) -> &'static str
        ensures { result.now ≡ instead self }
    {
        match self {
            AbsentType::Fraction => {
                ": numbers are whole, SINT, INT, DINT, USINT, UINT or UDINT\n"
            }
            AbsentType::Long => ": the largest integer types are DINT and UDINT\n",
            AbsentType::Bits => ": a bit is a BOOL, and several are an array of BOOL\n",
            AbsentType::Characters => ": there are no texts\n",
            AbsentType::Date => ": there are no dates, and a duration is a TIME\n",
        }
    }
}

// A piece of text.
fn put(lines: &mut Vec<u8>, piece: &str) -> Result<(), AllocError>
    ensures { OnOk result (lines.new.items ≡ lines.old.items ++ piece.now) }
{
    lines.extend_from_slice(piece.as_bytes())
}

// `the language has no REAL: numbers are whole, SINT, INT, DINT, USINT, UINT or UDINT`
#[tactic(auto, unfolding(crate::specs::LeftOut::absent_line))]
fn put_absent(lines: &mut Vec<u8>, word: &str, absent: AbsentType) -> Result<(), AllocError>
    ensures { OnOk result (lines.new.items ≡ lines.old.items ++ absent_line word.now absent) }
{
    put(lines, "the language has no ")?;
    put(lines, word)?;
    put(lines, absent.instead())
}

// Of a word that is a type which is left out.
fn put_type(lines: &mut Vec<u8>, word: &str) -> Result<(), AllocError>
    ensures { OnOk result (lines.new.items ≡ lines.old.items ++ type_line word.now) }
{
    match AbsentType::of(word) {
        Some(absent) => put_absent(lines, word, absent),
        None => Ok(()),
    }
}

/// Of an unknown name (21), where one is read.
pub(crate) fn put_named(lines: &mut Vec<u8>, word: Option<&str>) -> Result<(), AllocError>
    ensures { OnOk result (lines.new.items ≡ lines.old.items
        ++ named_by (option_map (λ w. w.now) word.entry)) }
{
    match word {
        Some(word) => put_type(lines, word),
        None => Ok(()),
    }
}

impl Stray {
    // Of a `/` and the byte after it.
    fn of_slash(next: Option<u8>) -> Option<Stray>
        ensures { result ≡ slash_or next }
    {
        match next {
            Some(next) => {
                if next == b'/' {
                    Some(Stray::LineComment)
                } else {
                    Some(Stray::Division)
                }
            }
            None => Some(Stray::Division),
        }
    }

    // Of a `*` and the byte after it. A `*)` that ends no comment is no product.
    fn of_star(next: Option<u8>) -> Option<Stray>
        ensures { result ≡ star_or next }
    {
        match next {
            Some(next) => {
                if next == b')' {
                    None
                } else {
                    Some(Stray::Times)
                }
            }
            None => Some(Stray::Times),
        }
    }

    // What a byte begins, with the one after it.
    fn of(byte: u8, next: Option<u8>) -> Option<Stray>
        ensures { result ≡ stray_of byte next }
    {
        if byte == b'%' {
            Some(Stray::Address)
        } else if byte == b'/' {
            Stray::of_slash(next)
        } else if byte == b'=' {
            Some(Stray::Equals)
        } else if byte == b'+' {
            Some(Stray::Plus)
        } else if byte == b'*' {
            Stray::of_star(next)
        } else if byte == b'-' {
            Some(Stray::Minus)
        } else if byte == b'<' || byte == b'>' {
            Some(Stray::Comparison)
        } else if byte == b'\'' || byte == b'"' {
            Some(Stray::Quote)
        } else if byte >= 128 {
            Some(Stray::NotAscii)
        } else {
            None
        }
    }

    // What to write instead.
    fn line(self) -> &'static str
        ensures { result.now ≡ stray_line self }
    {
        match self {
            Stray::Address => {
                "there are no direct addresses: fields and outputs have names, as LEVEL and OPEN\n"
            }
            Stray::LineComment => "a comment is written (* *)\n",
            Stray::Division => "write DIV\n",
            Stray::Equals => "write EQ, or := in a declaration or a CAL\n",
            Stray::Plus => "write ADD, a literal has no +; an index is a number or a variable\n",
            Stray::Times => "write MUL\n",
            Stray::Minus => "write SUB, or a - directly before its digits\n",
            Stray::Comparison => "write LT, LE, GT, GE or NE\n",
            Stray::Quote => "there are no texts in quotes\n",
            Stray::NotAscii => "a text is ASCII, in its comments too\n",
        }
    }
}

// A byte that is there, and the one after it.
fn byte_stray(byte: Option<u8>, next: Option<u8>) -> Option<Stray>
    ensures { result ≡ byte_stray byte next }
{
    match byte {
        Some(byte) => Stray::of(byte, next),
        None => None,
    }
}

// What to write instead, where something is known.
fn put_stray_lines(lines: &mut Vec<u8>, stray: Option<Stray>) -> Result<(), AllocError>
    ensures { OnOk result (lines.new.items ≡ lines.old.items ++ stray_lines stray) }
{
    match stray {
        Some(stray) => put(lines, stray.line()),
        None => Ok(()),
    }
}

// The byte at a place.
fn byte_at(text: &[u8], at: usize) -> Option<u8>
    ensures { result ≡ slice_get text.now at }
{
    match text.get(at) {
        Some(byte) => Some(*byte),
        None => None,
    }
}

// What the byte at a place begins.
fn stray_at(text: &[u8], at: usize) -> Option<Stray>
    requires { at < 4294967296 }
    ensures { result ≡ stray_at text.now at }
{
    byte_stray(byte_at(text, at), byte_at(text, at + 1))
}

/// Of the byte at a place that has no place in a text (1).
pub fn put_stray(lines: &mut Vec<u8>, text: &[u8], offset: u32) -> Result<(), AllocError>
    ensures { OnOk result (lines.new.items ≡ lines.old.items
        ++ stray_lines (stray_at text.now offset)) }
{
    put_stray_lines(lines, stray_at(text, offset as usize))
}

/// The token before the one that begins at a place.
pub(crate) fn token_before(tokens: &[Token], offset: u32) -> Option<Token>
    ensures { result ≡ token_before offset tokens.now }
{
    let mut last = None;
    for token in tokens {
        if token.start == offset {
            return last;
        }
        last = Some(*token);
    }
    None
}

#[tactic(auto, unfolding(crate::specs::LeftOut::is_retain))]
fn is_retain(word: &str) -> bool
    ensures { result ≡ is_retain word.now }
{
    word == "RETAIN" || word == "NON_RETAIN"
}

#[tactic(auto, unfolding(crate::specs::LeftOut::is_constant))]
fn is_constant(word: &str) -> bool
    ensures { result ≡ is_constant word.now }
{
    word == "CONSTANT"
}

#[tactic(auto, unfolding(crate::specs::LeftOut::is_list))]
fn is_list(word: &str) -> bool
    ensures { result ≡ is_list word.now }
{
    word == "VAR" || word == "VAR_INPUT" || word == "VAR_OUTPUT" || word == "VAR_EXTERNAL"
}

#[tactic(auto, unfolding(crate::specs::LeftOut::is_of))]
fn is_of(word: &str) -> bool
    ensures { result ≡ is_of word.now }
{
    word == "OF"
}

#[tactic(auto, unfolding(crate::specs::LeftOut::retain_line))]
fn put_retain(lines: &mut Vec<u8>) -> Result<(), AllocError>
    ensures { OnOk result (lines.new.items ≡ lines.old.items ++ retain_line) }
{
    put(
        lines,
        "the language has no RETAIN: a trace or a state keeps values over a restart\n",
    )
}

#[tactic(auto, unfolding(crate::specs::LeftOut::constant_line))]
fn put_constant(lines: &mut Vec<u8>) -> Result<(), AllocError>
    ensures { OnOk result (lines.new.items ≡ lines.old.items ++ constant_line) }
{
    put(
        lines,
        "CONSTANT is for CARS, FLOORS and SLOTS alone: a variable that nothing stores into keeps its initial value\n",
    )
}

#[tactic(auto, unfolding(crate::specs::LeftOut::elements_line))]
fn put_no_element(lines: &mut Vec<u8>) -> Result<(), AllocError>
    ensures { OnOk result (lines.new.items ≡ lines.old.items ++ elements_line) }
{
    put(
        lines,
        "an array has elements of an elementary type: declare each instance by a name of its own\n",
    )
}

// Where a type of elements is: a type that is left out, or none.
fn put_elements(lines: &mut Vec<u8>, word: &str) -> Result<(), AllocError>
    ensures { OnOk result (lines.new.items ≡ lines.old.items
        ++ elements_by word.now (absent_type word.now)) }
{
    match AbsentType::of(word) {
        Some(absent) => put_absent(lines, word, absent),
        None => put_no_element(lines),
    }
}

// Of a word, and what comes before it.
fn put_behind(lines: &mut Vec<u8>, before: Option<&str>, word: &str) -> Result<(), AllocError>
    ensures { OnOk result (lines.new.items ≡ lines.old.items
        ++ behind_by (option_map (λ w. w.now) before.entry) word.now) }
{
    match before {
        Some(before) => {
            if is_retain(before) {
                put_retain(lines)
            } else if is_of(before) {
                put_elements(lines, word)
            } else {
                Ok(())
            }
        }
        None => Ok(()),
    }
}

#[tactic(auto, unfolding(crate::specs::LeftOut::lists_line))]
fn put_lists(lines: &mut Vec<u8>) -> Result<(), AllocError>
    ensures { OnOk result (lines.new.items ≡ lines.old.items ++ lists_line) }
{
    put(
        lines,
        "declarations come first, each list once and in this order: VAR_INPUT and VAR in a FUNCTION, VAR_INPUT, VAR_OUTPUT and VAR in a FUNCTION_BLOCK, VAR and VAR_EXTERNAL in a PROGRAM\n",
    )
}

// Of a word that begins a list of declarations, or of another one.
fn put_list(lines: &mut Vec<u8>, before: Option<&str>, word: &str) -> Result<(), AllocError>
    ensures { OnOk result (lines.new.items ≡ lines.old.items
        ++ list_by (option_map (λ w. w.now) before.entry) word.now) }
{
    if is_list(word) {
        put_lists(lines)
    } else {
        put_behind(lines, before, word)
    }
}

/// Of an unexpected word (10), where one is there, and the word before it.
pub(crate) fn put_words(
    lines: &mut Vec<u8>,
    before: Option<&str>,
    word: Option<&str>,
) -> Result<(), AllocError>
    ensures { OnOk result (lines.new.items ≡ lines.old.items
        ++ words_lines (option_map (λ w. w.now) before.entry) (option_map (λ w. w.now) word.entry)) }
{
    match word {
        Some(word) => {
            if is_constant(word) {
                put_constant(lines)
            } else {
                put_list(lines, before, word)
            }
        }
        None => Ok(()),
    }
}
