// The tables of the standard's names (IEC 61131-3:2003, 2.5.1.5, 2.5.2.3).

ghost use Rattle.std.specs.Prelude.{◌≡◌, map};
ghost use Rattle.il_statics.specs.Names.{standard_blocks, standard_functions, standard_words};
ghost use Rattle.il_statics.specs.Tables.{named_block, named_function, word_lists};

use crate::names::{StandardBlock, StandardFunction};
use il_syntax::tree::Elementary;

/// A variable of a standard block: its word and its elementary type.
#[derive(Clone, Copy)]
pub struct BlockWord {
    pub name: &'static str,
    pub elementary: Elementary,
}

/// The variables of a standard block, in the order of their slots: a caller sees the inputs and outputs.
#[derive(Clone, Copy)]
pub struct BlockWords {
    pub inputs: &'static [BlockWord],
    pub outputs: &'static [BlockWord],
    pub inner: &'static [BlockWord],
}

/// A standard block under its name.
#[derive(Clone, Copy)]
pub struct NamedBlock {
    pub name: &'static str,
    pub block: StandardBlock,
}

/// A standard function under its name.
#[derive(Clone, Copy)]
pub struct NamedFunction {
    pub name: &'static str,
    pub function: StandardFunction,
}

const BOOL: Elementary = Elementary::Bool;

const INT: Elementary = Elementary::Int;

const TIME: Elementary = Elementary::Time;

// The words of SR.
static SR: BlockWords = BlockWords {
    inputs: &[
        BlockWord {
            name: "S1",
            elementary: BOOL,
        },
        BlockWord {
            name: "R",
            elementary: BOOL,
        },
    ],
    outputs: &[BlockWord {
        name: "Q1",
        elementary: BOOL,
    }],
    inner: &[],
};

// The words of RS.
static RS: BlockWords = BlockWords {
    inputs: &[
        BlockWord {
            name: "S",
            elementary: BOOL,
        },
        BlockWord {
            name: "R1",
            elementary: BOOL,
        },
    ],
    outputs: &[BlockWord {
        name: "Q1",
        elementary: BOOL,
    }],
    inner: &[],
};

// The words of R_TRIG and F_TRIG.
static TRIGGER: BlockWords = BlockWords {
    inputs: &[BlockWord {
        name: "CLK",
        elementary: BOOL,
    }],
    outputs: &[BlockWord {
        name: "Q",
        elementary: BOOL,
    }],
    inner: &[BlockWord {
        name: "M",
        elementary: BOOL,
    }],
};

// The words of CTU.
static CTU: BlockWords = BlockWords {
    inputs: &[
        BlockWord {
            name: "CU",
            elementary: BOOL,
        },
        BlockWord {
            name: "R",
            elementary: BOOL,
        },
        BlockWord {
            name: "PV",
            elementary: INT,
        },
    ],
    outputs: &[
        BlockWord {
            name: "Q",
            elementary: BOOL,
        },
        BlockWord {
            name: "CV",
            elementary: INT,
        },
    ],
    inner: &[BlockWord {
        name: "M",
        elementary: BOOL,
    }],
};

// The words of CTD.
static CTD: BlockWords = BlockWords {
    inputs: &[
        BlockWord {
            name: "CD",
            elementary: BOOL,
        },
        BlockWord {
            name: "LD",
            elementary: BOOL,
        },
        BlockWord {
            name: "PV",
            elementary: INT,
        },
    ],
    outputs: &[
        BlockWord {
            name: "Q",
            elementary: BOOL,
        },
        BlockWord {
            name: "CV",
            elementary: INT,
        },
    ],
    inner: &[BlockWord {
        name: "M",
        elementary: BOOL,
    }],
};

// The words of CTUD.
static CTUD: BlockWords = BlockWords {
    inputs: &[
        BlockWord {
            name: "CU",
            elementary: BOOL,
        },
        BlockWord {
            name: "CD",
            elementary: BOOL,
        },
        BlockWord {
            name: "R",
            elementary: BOOL,
        },
        BlockWord {
            name: "LD",
            elementary: BOOL,
        },
        BlockWord {
            name: "PV",
            elementary: INT,
        },
    ],
    outputs: &[
        BlockWord {
            name: "QU",
            elementary: BOOL,
        },
        BlockWord {
            name: "QD",
            elementary: BOOL,
        },
        BlockWord {
            name: "CV",
            elementary: INT,
        },
    ],
    inner: &[
        BlockWord {
            name: "MU",
            elementary: BOOL,
        },
        BlockWord {
            name: "MD",
            elementary: BOOL,
        },
    ],
};

// The words of TP.
static TP: BlockWords = BlockWords {
    inputs: &[
        BlockWord {
            name: "IN",
            elementary: BOOL,
        },
        BlockWord {
            name: "PT",
            elementary: TIME,
        },
    ],
    outputs: &[
        BlockWord {
            name: "Q",
            elementary: BOOL,
        },
        BlockWord {
            name: "ET",
            elementary: TIME,
        },
    ],
    inner: &[
        BlockWord {
            name: "RUN",
            elementary: BOOL,
        },
        BlockWord {
            name: "M",
            elementary: BOOL,
        },
        BlockWord {
            name: "LAST",
            elementary: TIME,
        },
    ],
};

// The words of TON and TOF.
static DELAY: BlockWords = BlockWords {
    inputs: &[
        BlockWord {
            name: "IN",
            elementary: BOOL,
        },
        BlockWord {
            name: "PT",
            elementary: TIME,
        },
    ],
    outputs: &[
        BlockWord {
            name: "Q",
            elementary: BOOL,
        },
        BlockWord {
            name: "ET",
            elementary: TIME,
        },
    ],
    inner: &[
        BlockWord {
            name: "RUN",
            elementary: BOOL,
        },
        BlockWord {
            name: "LAST",
            elementary: TIME,
        },
    ],
};

// The standard blocks.
static BLOCKS: [NamedBlock; 10] = [
    NamedBlock {
        name: "SR",
        block: StandardBlock::Sr,
    },
    NamedBlock {
        name: "RS",
        block: StandardBlock::Rs,
    },
    NamedBlock {
        name: "R_TRIG",
        block: StandardBlock::RTrig,
    },
    NamedBlock {
        name: "F_TRIG",
        block: StandardBlock::FTrig,
    },
    NamedBlock {
        name: "CTU",
        block: StandardBlock::Ctu,
    },
    NamedBlock {
        name: "CTD",
        block: StandardBlock::Ctd,
    },
    NamedBlock {
        name: "CTUD",
        block: StandardBlock::Ctud,
    },
    NamedBlock {
        name: "TP",
        block: StandardBlock::Tp,
    },
    NamedBlock {
        name: "TON",
        block: StandardBlock::Ton,
    },
    NamedBlock {
        name: "TOF",
        block: StandardBlock::Tof,
    },
];

// The standard functions.
static FUNCTIONS: [NamedFunction; 35] = [
    NamedFunction {
        name: "ABS",
        function: StandardFunction::Absolute,
    },
    NamedFunction {
        name: "MIN",
        function: StandardFunction::Minimum,
    },
    NamedFunction {
        name: "MAX",
        function: StandardFunction::Maximum,
    },
    NamedFunction {
        name: "LIMIT",
        function: StandardFunction::Limited,
    },
    NamedFunction {
        name: "SEL",
        function: StandardFunction::Selected,
    },
    NamedFunction {
        name: "SINT_TO_INT",
        function: StandardFunction::Converted(Elementary::Sint, Elementary::Int),
    },
    NamedFunction {
        name: "SINT_TO_DINT",
        function: StandardFunction::Converted(Elementary::Sint, Elementary::Dint),
    },
    NamedFunction {
        name: "SINT_TO_USINT",
        function: StandardFunction::Converted(Elementary::Sint, Elementary::Usint),
    },
    NamedFunction {
        name: "SINT_TO_UINT",
        function: StandardFunction::Converted(Elementary::Sint, Elementary::Uint),
    },
    NamedFunction {
        name: "SINT_TO_UDINT",
        function: StandardFunction::Converted(Elementary::Sint, Elementary::Udint),
    },
    NamedFunction {
        name: "INT_TO_SINT",
        function: StandardFunction::Converted(Elementary::Int, Elementary::Sint),
    },
    NamedFunction {
        name: "INT_TO_DINT",
        function: StandardFunction::Converted(Elementary::Int, Elementary::Dint),
    },
    NamedFunction {
        name: "INT_TO_USINT",
        function: StandardFunction::Converted(Elementary::Int, Elementary::Usint),
    },
    NamedFunction {
        name: "INT_TO_UINT",
        function: StandardFunction::Converted(Elementary::Int, Elementary::Uint),
    },
    NamedFunction {
        name: "INT_TO_UDINT",
        function: StandardFunction::Converted(Elementary::Int, Elementary::Udint),
    },
    NamedFunction {
        name: "DINT_TO_SINT",
        function: StandardFunction::Converted(Elementary::Dint, Elementary::Sint),
    },
    NamedFunction {
        name: "DINT_TO_INT",
        function: StandardFunction::Converted(Elementary::Dint, Elementary::Int),
    },
    NamedFunction {
        name: "DINT_TO_USINT",
        function: StandardFunction::Converted(Elementary::Dint, Elementary::Usint),
    },
    NamedFunction {
        name: "DINT_TO_UINT",
        function: StandardFunction::Converted(Elementary::Dint, Elementary::Uint),
    },
    NamedFunction {
        name: "DINT_TO_UDINT",
        function: StandardFunction::Converted(Elementary::Dint, Elementary::Udint),
    },
    NamedFunction {
        name: "USINT_TO_SINT",
        function: StandardFunction::Converted(Elementary::Usint, Elementary::Sint),
    },
    NamedFunction {
        name: "USINT_TO_INT",
        function: StandardFunction::Converted(Elementary::Usint, Elementary::Int),
    },
    NamedFunction {
        name: "USINT_TO_DINT",
        function: StandardFunction::Converted(Elementary::Usint, Elementary::Dint),
    },
    NamedFunction {
        name: "USINT_TO_UINT",
        function: StandardFunction::Converted(Elementary::Usint, Elementary::Uint),
    },
    NamedFunction {
        name: "USINT_TO_UDINT",
        function: StandardFunction::Converted(Elementary::Usint, Elementary::Udint),
    },
    NamedFunction {
        name: "UINT_TO_SINT",
        function: StandardFunction::Converted(Elementary::Uint, Elementary::Sint),
    },
    NamedFunction {
        name: "UINT_TO_INT",
        function: StandardFunction::Converted(Elementary::Uint, Elementary::Int),
    },
    NamedFunction {
        name: "UINT_TO_DINT",
        function: StandardFunction::Converted(Elementary::Uint, Elementary::Dint),
    },
    NamedFunction {
        name: "UINT_TO_USINT",
        function: StandardFunction::Converted(Elementary::Uint, Elementary::Usint),
    },
    NamedFunction {
        name: "UINT_TO_UDINT",
        function: StandardFunction::Converted(Elementary::Uint, Elementary::Udint),
    },
    NamedFunction {
        name: "UDINT_TO_SINT",
        function: StandardFunction::Converted(Elementary::Udint, Elementary::Sint),
    },
    NamedFunction {
        name: "UDINT_TO_INT",
        function: StandardFunction::Converted(Elementary::Udint, Elementary::Int),
    },
    NamedFunction {
        name: "UDINT_TO_DINT",
        function: StandardFunction::Converted(Elementary::Udint, Elementary::Dint),
    },
    NamedFunction {
        name: "UDINT_TO_USINT",
        function: StandardFunction::Converted(Elementary::Udint, Elementary::Usint),
    },
    NamedFunction {
        name: "UDINT_TO_UINT",
        function: StandardFunction::Converted(Elementary::Udint, Elementary::Uint),
    },
];

/// The standard blocks by name (2.5.2.3).
pub fn standard_blocks() -> &'static [NamedBlock]
    ensures { map named_block result.now ≡ standard_blocks }
{
    &BLOCKS
}

/// The standard functions by name (2.5.1.5).
pub fn standard_functions() -> &'static [NamedFunction]
    ensures { map named_function result.now ≡ standard_functions }
{
    &FUNCTIONS
}

/// The words of a standard block (2.5.2.3).
pub fn words_of(block: StandardBlock) -> &'static BlockWords
    ensures { word_lists result.now ≡ standard_words block }
{
    match block {
        StandardBlock::Sr => &SR,
        StandardBlock::Rs => &RS,
        StandardBlock::RTrig | StandardBlock::FTrig => &TRIGGER,
        StandardBlock::Ctu => &CTU,
        StandardBlock::Ctd => &CTD,
        StandardBlock::Ctud => &CTUD,
        StandardBlock::Tp => &TP,
        StandardBlock::Ton | StandardBlock::Tof => &DELAY,
    }
}
