//! The words that `lsr` takes, as a table.

use crate::help::{
    CHECK_ABOUT, CHECK_HELP, CONFIG_ABOUT, CONFIG_HELP, DECODE_ABOUT, DECODE_HELP, EXPLAIN_ABOUT,
    EXPLAIN_HELP, PLAY_ABOUT, PLAY_HELP, SERVE_ABOUT, SERVE_HELP, SHOW_JOURNAL_ABOUT,
    SHOW_JOURNAL_HELP, STEP_ABOUT, STEP_HELP,
};

/// The program's name.
pub(crate) const PROGRAM: &str = "lsr";
/// The name of the command that answers lines.
pub(crate) const STEP: &str = "step";
/// The name of the command that decodes a message.
pub(crate) const DECODE: &str = "decode";
/// The name of the command that explains what is told.
pub(crate) const EXPLAIN: &str = "explain";
/// The name of the command that serves links over sockets.
pub(crate) const SERVE: &str = "serve";
/// The name of the command that prints a configuration.
pub(crate) const CONFIG: &str = "config";
/// The name of the command that plays a world.
pub(crate) const PLAY: &str = "play";
/// The name of the command that checks recorded runs.
pub(crate) const CHECK: &str = "check";
/// The name of the command that prints a recorded run.
pub(crate) const SHOW_JOURNAL: &str = "show-journal";
/// The name of the argument of `config`, of `serve`, of `play`, of `check` and of `show-journal`.
pub(crate) const FILE: &str = "FILE";
/// The name of the option of `serve` that takes a number of turns.
pub(crate) const TURNS: &str = "turns";
/// The name of the option of `play` that takes more lines.
pub(crate) const LAB: &str = "lab";
/// The name of the argument of `explain`.
pub(crate) const WHAT: &str = "WHAT";
/// The name of the argument of `decode`.
pub(crate) const HEX: &str = "HEX";
/// The name of the option of `step` that takes a file.
pub(crate) const CONFIG_OPTION: &str = "config";
/// The name of the option of `step` that prints lines, too, and of the one of `serve` that prints what is sent.
pub(crate) const ECHO: &str = "echo";
/// The name of the option of `step` that answers lines as they come.
pub(crate) const LIVE: &str = "live";
/// The name of the option of `step` and of `serve` that records the run.
pub(crate) const JOURNAL: &str = "journal";
/// The name of the option of `serve` that answers an operator.
pub(crate) const CONSOLE: &str = "console";
/// The name of the option of `serve` that marks the ends of answers.
pub(crate) const MARK: &str = "mark";
/// The name of the option of `serve` that says how much is told.
pub(crate) const LOG: &str = "log";
/// The name of the option of `decode` that names fields.
pub(crate) const FIELDS: &str = "fields";

/// How a word stands after a command's name.
pub(crate) enum Form {
    /// `--NAME VALUE`, where help calls the value so.
    Option(&'static str),
    /// `--NAME`.
    Switch,
    /// A word that may be left out.
    Optional,
    /// A word that has to be there.
    Required,
    /// A word that has to be there, and there may be more.
    Several,
}

/// A word that a command takes.
pub(crate) struct Word {
    /// Its name.
    pub(crate) name: &'static str,
    /// How it stands there.
    pub(crate) form: Form,
    /// What help says of it.
    pub(crate) help: &'static str,
}

/// A command.
pub(crate) struct Row {
    /// Its name.
    pub(crate) name: &'static str,
    /// What help says of it beside its name.
    pub(crate) about: &'static str,
    /// What stands below its help.
    pub(crate) after_help: &'static str,
    /// The words that it takes.
    pub(crate) words: &'static [Word],
}

/// `step [--config FILE] [--echo] [--live] [--journal FILE]`.
const STEP_WORDS: [Word; 4] = [
    Word {
        name: CONFIG_OPTION,
        form: Form::Option(FILE),
        help: "The file of the router's configuration (TOML); without it the built-in router serves",
    },
    Word {
        name: ECHO,
        form: Form::Switch,
        help: "\
Prints each line before its answers, and passes over empty lines and lines that begin with #",
    },
    Word {
        name: LIVE,
        form: Form::Switch,
        help: "Answers each line as soon as it has come, and goes on after a bad line",
    },
    Word {
        name: JOURNAL,
        form: Form::Option(FILE),
        help: "Records the run in FILE, for `lsr check` and `lsr show-journal`; not beside --live",
    },
];

/// `config [FILE]`.
const CONFIG_WORDS: [Word; 1] = [Word {
    name: FILE,
    form: Form::Optional,
    help: "\
The file of a router's configuration (TOML); without it the built-in router's is printed",
}];

/// `decode HEX [--fields]`.
const DECODE_WORDS: [Word; 2] = [
    Word {
        name: HEX,
        form: Form::Required,
        help: "\
The message's bytes: an even number of hexadecimal digits of either case; `-` for a message in
each line of standard input, which is read to its end; or the name of a capture file, a word with
`.` or `/` in it",
    },
    Word {
        name: FIELDS,
        form: Form::Switch,
        help: "Prints after the line of each object what it says: its class and its fields by name",
    },
];

/// `explain WHAT..`.
const EXPLAIN_WORDS: [Word; 1] = [Word {
    name: WHAT,
    form: Form::Several,
    help: "\
A line that was told, as one word or as many; or a refusal's number or name, an error's code and
value, as 24/5, or its name, a fault's name; or `list`",
}];

/// `serve FILE [--turns N] [--journal PREFIX] [--console] [--echo] [--mark] [--log LEVEL]`.
const SERVE_WORDS: [Word; 7] = [
    Word {
        name: FILE,
        form: Form::Required,
        help: "\
The file of the router's configuration (TOML); each of its links has `listen` and `send`",
    },
    Word {
        name: TURNS,
        form: Form::Option("N"),
        help: "\
How many turns each link makes, of 100 milliseconds at most: 1 to 1000000; without it 1000",
    },
    Word {
        name: JOURNAL,
        form: Form::Option("PREFIX"),
        help: "\
Records the run in PREFIX.1, PREFIX.2 and so on, for `lsr check` and `lsr show-journal`",
    },
    Word {
        name: CONSOLE,
        form: Form::Switch,
        help: "\
Answers each line of the input at once, and runs until `quit` or the end of the input; not beside
--turns",
    },
    Word {
        name: ECHO,
        form: Form::Switch,
        help: "Prints what a line has the router send after its answer; only beside --console",
    },
    Word {
        name: MARK,
        form: Form::Switch,
        help: "\
Prints a line with a full stop after each answer, for a program; only beside --console",
    },
    Word {
        name: LOG,
        form: Form::Option("LEVEL"),
        help: "\
How much is told of what happens: info, warn or off; only beside --console; without it info",
    },
];

/// `play FILE [--lab]`.
const PLAY_WORDS: [Word; 2] = [
    Word {
        name: FILE,
        form: Form::Required,
        help: "The file of the world: its routers, its wires and its moves, one in each line",
    },
    Word {
        name: LAB,
        form: Form::Switch,
        help: "Takes remarks, `show NAME WHAT`, `run` and `seed N MOVES`, too",
    },
];

/// `check FILE..`.
const CHECK_WORDS: [Word; 1] = [Word {
    name: FILE,
    form: Form::Several,
    help: "The files of recorded runs, each of which begins where the one before it ended",
}];

/// `show-journal FILE`.
const SHOW_JOURNAL_WORDS: [Word; 1] = [Word {
    name: FILE,
    form: Form::Required,
    help: "The file of a recorded run",
}];

/// The commands, in the order of the program's help.
pub(crate) const COMMANDS: [Row; 8] = [
    Row {
        name: STEP,
        about: STEP_ABOUT,
        after_help: STEP_HELP,
        words: &STEP_WORDS,
    },
    Row {
        name: CONFIG,
        about: CONFIG_ABOUT,
        after_help: CONFIG_HELP,
        words: &CONFIG_WORDS,
    },
    Row {
        name: DECODE,
        about: DECODE_ABOUT,
        after_help: DECODE_HELP,
        words: &DECODE_WORDS,
    },
    Row {
        name: EXPLAIN,
        about: EXPLAIN_ABOUT,
        after_help: EXPLAIN_HELP,
        words: &EXPLAIN_WORDS,
    },
    Row {
        name: SERVE,
        about: SERVE_ABOUT,
        after_help: SERVE_HELP,
        words: &SERVE_WORDS,
    },
    Row {
        name: PLAY,
        about: PLAY_ABOUT,
        after_help: PLAY_HELP,
        words: &PLAY_WORDS,
    },
    Row {
        name: CHECK,
        about: CHECK_ABOUT,
        after_help: CHECK_HELP,
        words: &CHECK_WORDS,
    },
    Row {
        name: SHOW_JOURNAL,
        about: SHOW_JOURNAL_ABOUT,
        after_help: SHOW_JOURNAL_HELP,
        words: &SHOW_JOURNAL_WORDS,
    },
];
