// The kinds of what may be expected at a place of a text.

ghost use Rattle.std.specs.Prelude.{◌≡◌, map};
ghost use Rattle.reasons_tokens.specs.ExpectedKinds.{kind_of, expected_kinds};

/// Of several kinds of a group only the first that can be is reported.
#[derive(Clone, Copy)]
pub(crate) enum Group {
    /// The end of a line, where it isn't blank.
    LineEnd,
    /// The end of the text.
    TextEnd,
    Instruction,
    Name,
    Literal,
    Type,
    /// A reserved word: each for itself.
    Word,
    /// A sign: each for itself.
    Sign,
}

/// A kind: how it is reported, and a token of it. The end of the text has none.
#[derive(Clone, Copy)]
pub(crate) struct Expected {
    pub(crate) words: &'static str,
    pub(crate) sample: &'static str,
    pub(crate) group: Group,
}

// The kinds, in the order in which they are reported.
static KINDS: [Expected; 49] = [
    Expected {
        words: "the end of the line",
        sample: "\n",
        group: Group::LineEnd,
    },
    Expected {
        words: "the end of the text",
        sample: "",
        group: Group::TextEnd,
    },
    Expected {
        words: "an instruction",
        sample: "JMP",
        group: Group::Instruction,
    },
    Expected {
        words: "an instruction but JMP, CAL and RET",
        sample: "NOT",
        group: Group::Instruction,
    },
    Expected {
        words: "`LD` or `LDN`",
        sample: "LD",
        group: Group::Instruction,
    },
    Expected {
        words: "a name",
        sample: "X",
        group: Group::Name,
    },
    Expected {
        words: "`CARS`",
        sample: "CARS",
        group: Group::Name,
    },
    Expected {
        words: "`FLOORS`",
        sample: "FLOORS",
        group: Group::Name,
    },
    Expected {
        words: "`SLOTS`",
        sample: "SLOTS",
        group: Group::Name,
    },
    Expected {
        words: "a literal",
        sample: "TRUE",
        group: Group::Literal,
    },
    Expected {
        words: "a number",
        sample: "1",
        group: Group::Literal,
    },
    Expected {
        words: "a duration",
        sample: "T#1s",
        group: Group::Literal,
    },
    Expected {
        words: "a type",
        sample: "BOOL",
        group: Group::Type,
    },
    Expected {
        words: "`INT`",
        sample: "INT",
        group: Group::Type,
    },
    Expected {
        words: "`(`",
        sample: "(",
        group: Group::Sign,
    },
    Expected {
        words: "`)`",
        sample: ")",
        group: Group::Sign,
    },
    Expected {
        words: "`[`",
        sample: "[",
        group: Group::Sign,
    },
    Expected {
        words: "`]`",
        sample: "]",
        group: Group::Sign,
    },
    Expected {
        words: "`,`",
        sample: ",",
        group: Group::Sign,
    },
    Expected {
        words: "`:`",
        sample: ":",
        group: Group::Sign,
    },
    Expected {
        words: "`:=`",
        sample: ":=",
        group: Group::Sign,
    },
    Expected {
        words: "`=>`",
        sample: "=>",
        group: Group::Sign,
    },
    Expected {
        words: "`;`",
        sample: ";",
        group: Group::Sign,
    },
    Expected {
        words: "`..`",
        sample: "..",
        group: Group::Sign,
    },
    Expected {
        words: "`.`",
        sample: ".",
        group: Group::Sign,
    },
    Expected {
        words: "`ARRAY`",
        sample: "ARRAY",
        group: Group::Word,
    },
    Expected {
        words: "`OF`",
        sample: "OF",
        group: Group::Word,
    },
    Expected {
        words: "`VAR_INPUT`",
        sample: "VAR_INPUT",
        group: Group::Word,
    },
    Expected {
        words: "`VAR_OUTPUT`",
        sample: "VAR_OUTPUT",
        group: Group::Word,
    },
    Expected {
        words: "`VAR`",
        sample: "VAR",
        group: Group::Word,
    },
    Expected {
        words: "`VAR_EXTERNAL`",
        sample: "VAR_EXTERNAL",
        group: Group::Word,
    },
    Expected {
        words: "`END_VAR`",
        sample: "END_VAR",
        group: Group::Word,
    },
    Expected {
        words: "`FUNCTION`",
        sample: "FUNCTION",
        group: Group::Word,
    },
    Expected {
        words: "`FUNCTION_BLOCK`",
        sample: "FUNCTION_BLOCK",
        group: Group::Word,
    },
    Expected {
        words: "`PROGRAM`",
        sample: "PROGRAM",
        group: Group::Word,
    },
    Expected {
        words: "`CONFIGURATION`",
        sample: "CONFIGURATION",
        group: Group::Word,
    },
    Expected {
        words: "`END_FUNCTION`",
        sample: "END_FUNCTION",
        group: Group::Word,
    },
    Expected {
        words: "`END_FUNCTION_BLOCK`",
        sample: "END_FUNCTION_BLOCK",
        group: Group::Word,
    },
    Expected {
        words: "`END_PROGRAM`",
        sample: "END_PROGRAM",
        group: Group::Word,
    },
    Expected {
        words: "`VAR_GLOBAL`",
        sample: "VAR_GLOBAL",
        group: Group::Word,
    },
    Expected {
        words: "`CONSTANT`",
        sample: "CONSTANT",
        group: Group::Word,
    },
    Expected {
        words: "`RESOURCE`",
        sample: "RESOURCE",
        group: Group::Word,
    },
    Expected {
        words: "`ON`",
        sample: "ON",
        group: Group::Word,
    },
    Expected {
        words: "`TASK`",
        sample: "TASK",
        group: Group::Word,
    },
    Expected {
        words: "`INTERVAL`",
        sample: "INTERVAL",
        group: Group::Word,
    },
    Expected {
        words: "`PRIORITY`",
        sample: "PRIORITY",
        group: Group::Word,
    },
    Expected {
        words: "`WITH`",
        sample: "WITH",
        group: Group::Word,
    },
    Expected {
        words: "`END_RESOURCE`",
        sample: "END_RESOURCE",
        group: Group::Word,
    },
    Expected {
        words: "`END_CONFIGURATION`",
        sample: "END_CONFIGURATION",
        group: Group::Word,
    },
];

/// The kinds of what may be expected, in the order in which they are reported.
#[tactic(auto, unfolding(crate::specs::ExpectedKinds::expected_kinds))]
pub(crate) fn kinds() -> &'static [Expected]
    ensures { map kind_of result.now ≡ expected_kinds }
{
    &KINDS
}
