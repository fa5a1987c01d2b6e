// The commands and their arguments, as help shows them.

use clap::{Arg, ArgAction, Command};
use cli_host::request::{
    ALL, CALLS, CHANGES, CUT, FIRE, FROM, Following, JSON, LEFT, LIMITS, Name, PATHS, ROUND,
    ROUNDS, SUMMARY, Showing, Simulating, TEXT, TOGETHER, TRACE, UNTIL, WARN,
};
use cli_host::serving::SYNC;
use std::alloc::{AllocError, Global};

/// The command that explains a number.
pub const EXPLAIN: &str = "explain";

// A command.
#[derive(Clone, Copy)]
enum Named {
    Of(Name),
    Serve,
    Explain,
}

impl Named {
    fn word(self) -> &'static str {
        match self {
            Named::Of(name) => name.word(),
            Named::Serve => "serve",
            Named::Explain => EXPLAIN,
        }
    }
}

// Where an argument is.
#[derive(Clone, Copy)]
enum Standing {
    // One word in its place.
    Once,
    // One word or several.
    Often,
    // Any number of words.
    Freely,
    // After an option: its value, as it is shown.
    Behind(&'static str),
    // A flag.
    Alone,
}

// An argument: its name, or the option or flag that it is.
#[derive(Clone, Copy)]
struct Argument {
    name: &'static str,
    standing: Standing,
    help: &'static str,
}

// A command with its arguments.
#[derive(Clone, Copy)]
struct Row {
    name: Named,
    about: &'static str,
    arguments: &'static [Argument],
}

const FILE_WORD: Argument = Argument {
    name: "FILE",
    standing: Standing::Once,
    help: "A configuration in Instruction List",
};

const WARN_FLAG: Argument = Argument {
    name: WARN,
    standing: Standing::Alone,
    help: "Also prints, on standard error, what an accepted FILE declares or stores without effect",
};

const LIMITS_FLAG: Argument = Argument {
    name: LIMITS,
    standing: Standing::Alone,
    help: "Also shows how much of each limit FILE uses",
};

const PATHS_FLAG: Argument = Argument {
    name: PATHS,
    standing: Standing::Alone,
    help: "Shows lines of a path that follow one another as a range, as 144-247; not with --json",
};

const ALL_UNITS_FLAG: Argument = Argument {
    name: ALL,
    standing: Standing::Alone,
    help: "Also prints the first fault of each other unit of a refused FILE",
};

const TEXT_FLAG: Argument = Argument {
    name: TEXT,
    standing: Standing::Alone,
    help: "Also shows the text of each instruction; not with --json",
};

const JSON_FLAG: Argument = Argument {
    name: JSON,
    standing: Standing::Alone,
    help: "Prints JSON, an object a line, and one below a refusal; docs/COMMANDS.md has the keys",
};

const ROUNDS_WORD: Argument = Argument {
    name: "ROUNDS",
    standing: Standing::Once,
    help: "How many rounds of 100 ms, from 1 to 50000",
};

const ROUNDS_OR_TRACE: Argument = Argument {
    name: "ROUNDS|TRACE",
    standing: Standing::Once,
    help: "How many rounds of 100 ms, from 1 to 50000; or a trace that `sim` or `run` printed, whose name isn't digits alone",
};

const PRESSES: Argument = Argument {
    name: "PRESS",
    standing: Standing::Freely,
    help: "A call: ROUND:FROM:TO or ROUND:FROM:TO:PANEL, a round, two floors and a panel from 1 to 4; at most 1000",
};

const NAMES: Argument = Argument {
    name: "NAME",
    standing: Standing::Often,
    help: "What is shown after each round, as NOW, CAR1.POS, CAR1.V or a global; after the names come calls, as for `sim`, but not after a trace",
};

const FIRE_OPTION: Argument = Argument {
    name: FIRE,
    standing: Standing::Behind("ROUND"),
    help: "From this round on, fire recall is on",
};

const CALLS_OPTION: Argument = Argument {
    name: CALLS,
    standing: Standing::Behind("CALLS"),
    help: "Also makes the calls of the file CALLS, and sets FIRE and RUNLIMIT as it says; docs/COMMANDS.md has its lines",
};

const TOGETHER_FLAG: Argument = Argument {
    name: TOGETHER,
    standing: Standing::Alone,
    help: "A round ends for all tasks before the next begins",
};

const LEFT_FLAG: Argument = Argument {
    name: LEFT,
    standing: Standing::Alone,
    help: "Also says on the standard error how many calls are left in the collector's hand and on the desk",
};

const ALL_FLAG: Argument = Argument {
    name: ALL,
    standing: Standing::Alone,
    help: "Also shows each stop at the top or the bottom, which no program can avoid",
};

const CHANGES_FLAG: Argument = Argument {
    name: CHANGES,
    standing: Standing::Alone,
    help: "Leaves out a round whose values are those of the round before",
};

const TRACE_WORD: Argument = Argument {
    name: "TRACE",
    standing: Standing::Once,
    help: "A trace that `sim` or `run` printed",
};

const CUT_FLAG: Argument = Argument {
    name: CUT,
    standing: Standing::Alone,
    help: "Takes a trace that was cut off, up to its last whole line",
};

const ROUNDS_OPTION: Argument = Argument {
    name: ROUNDS,
    standing: Standing::Behind("A:B"),
    help: "Draws the rounds from A to B alone; `A:` is up to the last one, `:B` from the first on",
};

const SUMMARY_FLAG: Argument = Argument {
    name: SUMMARY,
    standing: Standing::Alone,
    help: "Shows how many calls there are, and how long they wait and take, in seconds; not with --json",
};

const TASK: Argument = Argument {
    name: "TASK",
    standing: Standing::Once,
    help: "A task: GROUP, or CAR1 and so on; CAR1.UNIT shows the instructions of that unit alone",
};

const ROUND_OPTION: Argument = Argument {
    name: ROUND,
    standing: Standing::Behind("N"),
    help: "Shows the scan that is committed in round N",
};

const UNTIL_OPTION: Argument = Argument {
    name: UNTIL,
    standing: Standing::Behind("LINE"),
    help: "Shows nothing after the first instruction of LINE; with FROM:LINE nothing before that of FROM",
};

const FROM_OPTION: Argument = Argument {
    name: FROM,
    standing: Standing::Behind("OLD"),
    help: "With --trace: goes on where the trace OLD ends: its calls, cars and variables are there again, every output still; TRACE begins with that state",
};

const TRACE_OPTION: Argument = Argument {
    name: TRACE,
    standing: Standing::Behind("TRACE"),
    help: "Writes each event to TRACE, a new file, before it happens",
};

const SYNC_FLAG: Argument = Argument {
    name: SYNC,
    standing: Standing::Alone,
    help: "With --trace: has the disk write each line before it is answered",
};

const NUMBER: Argument = Argument {
    name: "NUMBER",
    standing: Standing::Once,
    help: "The number of a fault or a refusal",
};

// The commands, in the order in which help lists them.
static COMMANDS: [Row; 13] = [
    Row {
        name: Named::Of(Name::Check),
        about: "Verifies FILE and shows its tasks and units",
        arguments: &[
            FILE_WORD,
            WARN_FLAG,
            LIMITS_FLAG,
            PATHS_FLAG,
            ALL_UNITS_FLAG,
            JSON_FLAG,
        ],
    },
    Row {
        name: Named::Of(Name::Show(Showing::Ranges)),
        about: "Shows the ranges that the verifier finds for each instruction of FILE",
        arguments: &[FILE_WORD, TEXT_FLAG, JSON_FLAG],
    },
    Row {
        name: Named::Of(Name::Show(Showing::Xref)),
        about: "Shows where FILE declares, reads, writes and calls each name",
        arguments: &[FILE_WORD, JSON_FLAG],
    },
    Row {
        name: Named::Of(Name::Rounds(Simulating::Sim)),
        about: "Runs FILE on a simulated plant and prints the trace",
        arguments: &[FILE_WORD, ROUNDS_WORD, PRESSES, FIRE_OPTION, CALLS_OPTION],
    },
    Row {
        name: Named::Of(Name::Rounds(Simulating::Run)),
        about: "Runs FILE with a thread for each task and prints the trace",
        arguments: &[
            FILE_WORD,
            ROUNDS_WORD,
            PRESSES,
            FIRE_OPTION,
            CALLS_OPTION,
            TOGETHER_FLAG,
            LEFT_FLAG,
        ],
    },
    Row {
        name: Named::Of(Name::Rounds(Simulating::Denials)),
        about: "Runs FILE as `sim` does, or replays a trace on it, and prints what the interlock denied",
        arguments: &[
            FILE_WORD,
            ROUNDS_OR_TRACE,
            PRESSES,
            FIRE_OPTION,
            CALLS_OPTION,
            ALL_FLAG,
            CUT_FLAG,
            JSON_FLAG,
        ],
    },
    Row {
        name: Named::Of(Name::Rounds(Simulating::Watch)),
        about: "Runs FILE as `sim` does, or replays a trace on it, and prints values after each round, as CSV",
        arguments: &[
            FILE_WORD,
            ROUNDS_OR_TRACE,
            NAMES,
            FIRE_OPTION,
            CALLS_OPTION,
            CHANGES_FLAG,
            CUT_FLAG,
        ],
    },
    Row {
        name: Named::Of(Name::Trace(Following::Replay)),
        about: "Replays a trace on FILE and prints the image",
        arguments: &[FILE_WORD, TRACE_WORD, CUT_FLAG],
    },
    Row {
        name: Named::Of(Name::Trace(Following::Draw)),
        about: "Replays a trace on FILE and prints a picture of it, as SVG",
        arguments: &[FILE_WORD, TRACE_WORD, CUT_FLAG, ROUNDS_OPTION],
    },
    Row {
        name: Named::Of(Name::Trace(Following::Calls)),
        about: "Replays a trace on FILE and prints its calls, from press to service, as CSV",
        arguments: &[FILE_WORD, TRACE_WORD, CUT_FLAG, SUMMARY_FLAG, JSON_FLAG],
    },
    Row {
        name: Named::Of(Name::Trace(Following::Scan)),
        about: "Replays a trace on FILE and prints the last scan of TASK that it commits, instruction by instruction",
        arguments: &[
            FILE_WORD,
            TRACE_WORD,
            CUT_FLAG,
            TASK,
            ROUND_OPTION,
            UNTIL_OPTION,
        ],
    },
    Row {
        name: Named::Serve,
        about: "Runs FILE by lines: R, P, K and E in, outputs back; docs/SERVE.md has the lines",
        arguments: &[FILE_WORD, FROM_OPTION, TRACE_OPTION, SYNC_FLAG],
    },
    Row {
        name: Named::Explain,
        about: "Says what a fault or a refusal means",
        arguments: &[NUMBER],
    },
];

// An option without its dashes.
fn long(option: &'static str) -> &'static str {
    option.strip_prefix("--").unwrap_or(option)
}

// An argument for the parser.
fn arg_of<'a>(alloc: Global, argument: Argument) -> Arg<'a> {
    let Argument {
        name,
        standing,
        help,
    } = argument;
    let arg = Arg::new(alloc, long(name)).help(help);
    match standing {
        Standing::Once => arg.required(true),
        Standing::Often => arg.required(true).num_args(1..),
        Standing::Freely => arg.num_args(0..),
        Standing::Behind(value) => arg.long(long(name)).value_name(value),
        Standing::Alone => arg.long(long(name)).action(ArgAction::SetTrue),
    }
}

// A command for the parser.
fn command_of<'a>(alloc: Global, row: &Row) -> Result<Command<'a>, AllocError> {
    let mut command = Command::new(alloc, row.name.word()).about(row.about);
    for argument in row.arguments {
        command = command.arg(arg_of(alloc, *argument))?;
    }
    Ok(command)
}

/// The commands for the parser, in the order in which help lists them.
pub fn commands<'a>(alloc: Global) -> Result<Vec<Command<'a>>, AllocError> {
    let mut commands = Vec::new(alloc);
    for row in &COMMANDS {
        commands.push(command_of(alloc, row)?)?;
    }
    Ok(commands)
}
