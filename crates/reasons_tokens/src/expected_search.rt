// The search for what can be at a place of a text, and for the rest of a text after it. What it finds is checked where it is reported.

use crate::expected::{Expected, Group};
use crate::spelled;
use il_syntax::fault::Refusal;
use il_syntax::token::{Kind, Token};
use std::alloc::{AllocError, Global};

// How many bytes a search may read in all: the longest text some 76 times.
const MOST_BYTES: usize = 20_000_000;

// How many pieces a rest has at most.
const MOST_PIECES: usize = 40;

// A smallest configuration.
const CONFIGURATION: &str =
    "CONFIGURATION X VAR_GLOBAL CONSTANT CARS : INT := 1; FLOORS : INT := 2; SLOTS : INT := 1; END_VAR RESOURCE X ON X END_RESOURCE END_CONFIGURATION";

// The pieces of a rest. Of those with which the text goes on the first leads soonest to the end of the text.
static PIECES: [&str; 36] = [
    CONFIGURATION,
    "\nEND_PROGRAM",
    "\nEND_FUNCTION_BLOCK",
    "\nEND_FUNCTION",
    "END_CONFIGURATION",
    "END_RESOURCE",
    "END_VAR",
    ";",
    "\n)",
    "]",
    ": INT",
    ": X",
    ":= 1",
    ":= T#1s",
    ".. 1",
    "OF INT",
    "1",
    "X",
    "INT",
    "T#1s",
    "VAR_INPUT X : INT; END_VAR",
    "\nLD X",
    "VAR_GLOBAL CONSTANT",
    "CONSTANT",
    "CARS",
    "FLOORS",
    "SLOTS",
    "RESOURCE X",
    "ON X",
    "( INTERVAL",
    "INTERVAL",
    ", PRIORITY",
    "PRIORITY",
    "WITH",
    "OF",
    "[ 1",
];

// How far the parser reads a text.
#[derive(Clone, Copy)]
enum Reach {
    /// To its end, and it is a text of the language.
    Whole,
    /// To its end, and something is missing there.
    End,
    /// Not to its end.
    Less,
}

// How far the parser reads a text.
fn reach_in(alloc: Global, text: &[u8]) -> Result<Reach, AllocError> {
    match spelled(alloc, text) {
        Ok(_tree) => Ok(Reach::Whole),
        Err(Refusal::Memory) => Err(AllocError),
        Err(Refusal::Fault { number: 10, place }) => Ok(reach_of(text, place.offset)),
        Err(Refusal::Fault { .. }) => Ok(Reach::Less),
    }
}

// How far a text is read whose token at so many bytes is unexpected.
fn reach_of(text: &[u8], offset: u32) -> Reach {
    if offset as usize >= text.len() {
        Reach::End
    } else {
        Reach::Less
    }
}

// Whether a sample is a word.
fn begins_word(sample: &str) -> bool {
    match sample.as_bytes().first() {
        Some(byte) => byte.is_ascii_alphabetic(),
        None => false,
    }
}

// Whether a token is the last word of a unit.
fn ends_unit(text: &[u8], token: &Token) -> bool {
    match text.get(token.start as usize..token.end as usize) {
        Some(word) => {
            word.eq_ignore_ascii_case(b"END_PROGRAM")
                || word.eq_ignore_ascii_case(b"END_FUNCTION_BLOCK")
                || word.eq_ignore_ascii_case(b"END_FUNCTION")
        }
        None => false,
    }
}

// Where the unit of a place begins: after the last word of the one before it. A body may have such a word as the name of a component.
fn unit_start(text: &[u8], tokens: &[Token], offset: usize) -> usize {
    let mut start = 0;
    for token in tokens {
        let end = token.end as usize;
        if end <= offset && matches!(token.kind, Kind::Word) && ends_unit(text, token) {
            start = end;
        }
    }
    start
}

// Whether of two kinds one is reported in place of the other.
fn is_one_group(group: Group, other: Group) -> bool {
    match group {
        Group::Instruction => matches!(other, Group::Instruction),
        Group::Name => matches!(other, Group::Name),
        Group::Literal => matches!(other, Group::Literal),
        Group::Type => matches!(other, Group::Type),
        Group::LineEnd | Group::TextEnd | Group::Word | Group::Sign => false,
    }
}

// Whether whole units come before so many bytes: with a configuration after them they are a text.
fn are_units(alloc: Global, text: &[u8], start: usize) -> Result<bool, AllocError> {
    let mut whole = Vec::new(alloc);
    whole.extend_from_slice(text.get(..start).unwrap_or(b""))?;
    whole.extend_from_slice(b" ")?;
    whole.extend_from_slice(CONFIGURATION.as_bytes())?;
    Ok(matches!(reach_in(alloc, &whole)?, Reach::Whole))
}

// Where the text that a search reads begins: at the unit of a place, if the place is refused there too.
fn search_start(
    alloc: Global,
    text: &[u8],
    tokens: &[Token],
    offset: usize,
) -> Result<usize, AllocError> {
    let start = unit_start(text, tokens, offset);
    let unit = text.get(start..).unwrap_or(b"");
    match spelled(alloc, unit) {
        Err(Refusal::Fault { number: 10, place })
            if place.offset as usize == offset.saturating_sub(start) => {
            if are_units(alloc, text, start)? {
                Ok(start)
            } else {
                Ok(0)
            }
        }
        Err(Refusal::Memory) => Err(AllocError),
        _ => Ok(0),
    }
}

/// A search for what can be at a place of a text.
#[derive(Drop)]
pub(crate) struct Search {
    alloc: Global,
    // The unit of the place, up to the place.
    before: Vec<u8>,
    // The rest that was found last.
    rest: Vec<u8>,
    // How many bytes may be read still.
    left: usize,
    // Whether any word can be at the place, also a reserved one.
    any_word: bool,
    // The group of the kind that was found last.
    last: Option<Group>,
}

impl Search {
    /// A search at a place of a text.
    pub(crate) fn new(
        alloc: Global,
        text: &[u8],
        tokens: &[Token],
        offset: usize,
    ) -> Result<Search, AllocError> {
        let start = search_start(alloc, text, tokens, offset)?;
        let mut before = Vec::new(alloc);
        before.extend_from_slice(text.get(start..offset).unwrap_or(b""))?;
        let mut search = Search {
            alloc,
            before,
            rest: Vec::new(alloc),
            left: MOST_BYTES,
            any_word: false,
            last: None,
        };
        search.any_word = search.goes_on("OF")? && search.goes_on("WITH")?;
        Ok(search)
    }

    /// The rest that was found last.
    pub(crate) fn rest(&self) -> &[u8] {
        self.rest.as_slice()
    }

    /// Whether a kind can be at the place, as far as the search finds a rest for it, and it isn't reported by the kind before it.
    pub(crate) fn finds(&mut self, kind: &Expected) -> Result<bool, AllocError> {
        if !self.is_wanted(kind)? || !self.finds_rest(kind.sample)? {
            return Ok(false);
        }
        self.last = Some(kind.group);
        Ok(true)
    }

    // Whether it helps to report a kind.
    fn is_wanted(&mut self, kind: &Expected) -> Result<bool, AllocError> {
        if let Some(last) = self.last {
            if is_one_group(last, kind.group) {
                return Ok(false);
            }
        }
        match kind.group {
            // Elsewhere the end of a line is blank.
            Group::LineEnd => Ok(self.goes_on("\nLD")? && !self.goes_on("LD")?),
            Group::Name => Ok(true),
            // Where any word can be, a name is reported.
            _ => Ok(!self.any_word || !begins_word(kind.sample)),
        }
    }

    // Whether a text of the language can go on with these bytes.
    fn goes_on(&mut self, sample: &str) -> Result<bool, AllocError> {
        let text = self.with(sample)?;
        let reach = self.reach(&text)?;
        Ok(!matches!(reach, Reach::Less))
    }

    // What comes before the place, and a sample.
    fn with(&self, sample: &str) -> Result<Vec<u8>, AllocError> {
        let mut text = Vec::new(self.alloc);
        text.extend_from_slice(self.before.as_slice())?;
        text.push(b' ')?;
        text.extend_from_slice(sample.as_bytes())?;
        Ok(text)
    }

    // How far the parser reads a text, if that is still to be read.
    fn reach(&mut self, text: &[u8]) -> Result<Reach, AllocError> {
        if text.len() > self.left {
            return Ok(Reach::Less);
        }
        self.left -= text.len();
        reach_in(self.alloc, text)
    }

    // Whether a sample can be at the place with some rest after it, which is kept.
    fn finds_rest(&mut self, sample: &str) -> Result<bool, AllocError> {
        let mut text = self.with(sample)?;
        match self.reach(&text)? {
            Reach::Less => Ok(false),
            Reach::Whole => {
                self.rest.clear();
                Ok(true)
            }
            // The end of the text has nothing after it.
            Reach::End if sample.is_empty() => Ok(false),
            Reach::End => self.completes(&mut text),
        }
    }

    // Adds a rest with which a text is of the language: the last one, or one piece by piece.
    fn completes(&mut self, text: &mut Vec<u8>) -> Result<bool, AllocError> {
        Ok(self.takes_last(text)? || self.takes_pieces(text)?)
    }

    // Adds the rest that was found last, if it fits.
    fn takes_last(&mut self, text: &mut Vec<u8>) -> Result<bool, AllocError> {
        let end = text.len();
        text.extend_from_slice(self.rest.as_slice())?;
        let reach = self.reach(text)?;
        text.truncate(end);
        Ok(matches!(reach, Reach::Whole))
    }

    // Adds pieces up to the end of a text of the language.
    fn takes_pieces(&mut self, text: &mut Vec<u8>) -> Result<bool, AllocError> {
        let end = text.len();
        for _piece in 0..MOST_PIECES {
            match self.take_piece(text)? {
                Reach::Whole => {
                    self.rest.clear();
                    self.rest.extend_from_slice(text.get(end..).unwrap_or(b""))?;
                    return Ok(true);
                }
                Reach::End => {}
                Reach::Less => return Ok(false),
            }
        }
        Ok(false)
    }

    // Adds the first piece with which a text goes on.
    fn take_piece(&mut self, text: &mut Vec<u8>) -> Result<Reach, AllocError> {
        let end = text.len();
        for piece in &PIECES {
            text.push(b' ')?;
            text.extend_from_slice(piece.as_bytes())?;
            match self.reach(text)? {
                Reach::Less => text.truncate(end),
                reach => return Ok(reach),
            }
        }
        Ok(Reach::Less)
    }
}
