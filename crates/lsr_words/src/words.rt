//! Reads the words of the command line.
ghost use Rattle.std.specs.Prelude.{◌≡◌, true, None, codes, map, option_map, IfOk, IfErr};
ghost use Rattle.std.specs.Option.{MatchOption};
ghost use Rattle.clap.specs.Matches.{found_of};
ghost use Rattle.clap.specs.Words.{FailsBy, fault_of, first_of, kind_of, rows_of, subcommand_rows_of, takes};
ghost use Rattle.lsr_words.specs.declared.words.Asked.{Asked};
ghost use Rattle.lsr_words.specs.Words.{AreAll, Asks, AsksFor, AsksIn, is_given, lsr_words};

use crate::command::command;
use crate::table::{
    CHECK, CONFIG, CONFIG_OPTION, CONSOLE, DECODE, ECHO, EXPLAIN, FIELDS, FILE, HEX, JOURNAL, LAB,
    LIVE, LOG, MARK, PLAY, SERVE, SHOW_JOURNAL, STEP, TURNS, WHAT,
};
use clap::ArgMatches;
use clap::error::{Error, ErrorKind};
use std::alloc::{AllocError, Global};
use std::convert::AsStr;

/// What the words ask for.
#[derive(Debug, Drop)]
pub enum Asked<'a> {
    /// `step`: lines are answered by a router.
    Step {
        /// The name of the router's file; without one the built-in router answers.
        file: Option<&'a str>,
        /// Whether each line is printed before its answers, and comments and empty lines are passed over.
        echo: bool,
        /// Whether each line is answered as soon as it has come, and a bad line doesn't end the run.
        live: bool,
        /// The name of the file that the run is recorded in; without one it isn't recorded.
        journal: Option<&'a str>,
    },
    /// `config [FILE]`: the configuration of the file of this name is printed; without one the built-in router's.
    Config(Option<&'a str>),
    /// `decode HEX`: the word is decoded; `-` stands for the lines of the input, and a word with `.` or `/` in it for a
    /// capture file.
    Decode {
        /// The word.
        word: &'a str,
        /// Whether the fields of each object are printed by name, too.
        fields: bool,
    },
    /// `explain WHAT..`: what these words name, or a line in which it is told, is explained. There is one word at least.
    Explain(Vec<&'a str>),
    /// `serve FILE`: the router of the file of this name serves its links over sockets.
    Serve {
        /// The file's name.
        file: &'a str,
        /// How many turns each link has, as the words give it; none where they give no number.
        turns: Option<&'a str>,
        /// What the names of the files begin with that the run is recorded in; without it it isn't recorded.
        journal: Option<&'a str>,
        /// Whether an operator's lines are answered, until the run is told to end.
        console: bool,
        /// Whether what an operator's line has the router send is printed, too.
        echo: bool,
        /// Whether an end mark is printed after each answer to an operator.
        mark: bool,
        /// How much is told of what happens, as the words give it.
        log: Option<&'a str>,
    },
    /// `play FILE`: the world of the file of this name is played.
    Play {
        /// The file's name.
        file: &'a str,
        /// Whether lines are taken, too, that remark something, show what a router knows, or deliver all frames.
        lab: bool,
    },
    /// `check FILE..`: the recorded runs of the files of these names are checked, in this order. There is one at least.
    Check(Vec<&'a str>),
    /// `show-journal FILE`: the entries of the recorded run of the file of this name are printed.
    ShowJournal(&'a str),
}

/// What an option without a value is given as, where it is given.
const GIVEN: &str = "true";

/// Whether an option without a value is given.
fn is_given(found: Option<&str>) -> bool
    ensures { result ≡ is_given (option_map (λ f. f.now) found.entry) }
{
    match found {
        Some(word) => word == GIVEN,
        None => false,
    }
}

/// What `step` asks for.
fn step_asked<'a>(given: &ArgMatches<'a>) -> Asked<'a>
    ensures { Asks (codes "step") (rows_of (found_of given.now)) result }
{
    Asked::Step {
        file: given.get_str(CONFIG_OPTION),
        echo: is_given(given.get_str(ECHO)),
        live: is_given(given.get_str(LIVE)),
        journal: given.get_str(JOURNAL),
    }
}

/// What `serve` asks for; none without its file.
fn serve_asked<'a>(given: &ArgMatches<'a>) -> Option<Asked<'a>>
    ensures { MatchOption result
        (first_of (codes "FILE") (rows_of (found_of given.now)) ≡ None)
        (Asks (codes "serve") (rows_of (found_of given.now))) }
{
    match given.get_str(FILE) {
        Some(file) => Some(Asked::Serve {
            file,
            turns: given.get_str(TURNS),
            journal: given.get_str(JOURNAL),
            console: is_given(given.get_str(CONSOLE)),
            echo: is_given(given.get_str(ECHO)),
            mark: is_given(given.get_str(MARK)),
            log: given.get_str(LOG),
        }),
        None => None,
    }
}

/// All that was given for this word; none where nothing was. The only error is that memory ran out.
fn several<'a>(
    alloc: Global,
    given: &ArgMatches<'a>,
    name: &str,
) -> Result<Option<Vec<&'a str>>, AllocError>
    ensures { IfOk result (λ words. MatchOption words
        (first_of name.now (rows_of (found_of given.now)) ≡ None)
        (λ all. AreAll name.now (rows_of (found_of given.now)) all.items)) }
{
    match given.get_strs(name) {
        Some(words) if !words.is_empty() => Ok(Some(words.to_vec(alloc)?)),
        _ => Ok(None),
    }
}

/// What a command asks for with what was given; none where a word lacks that it can't do without, or no command has this name.
/// The only error is that memory ran out.
fn asked_by<'a>(
    alloc: Global,
    command: &str,
    given: &ArgMatches<'a>,
) -> Result<Option<Asked<'a>>, AllocError>
    ensures { IfOk result (λ asked. MatchOption asked
        ((other : Asked) → ¬ Asks command.now (rows_of (found_of given.now)) other)
        (Asks command.now (rows_of (found_of given.now)))) }
{
    match command {
        STEP => Ok(Some(step_asked(given))),
        CONFIG => Ok(Some(Asked::Config(given.get_str(FILE)))),
        DECODE => match given.get_str(HEX) {
            Some(word) => Ok(Some(Asked::Decode {
                word,
                fields: is_given(given.get_str(FIELDS)),
            })),
            None => Ok(None),
        },
        EXPLAIN => match several(alloc, given, WHAT)? {
            Some(words) => Ok(Some(Asked::Explain(words))),
            None => Ok(None),
        },
        SERVE => Ok(serve_asked(given)),
        PLAY => match given.get_str(FILE) {
            Some(file) => Ok(Some(Asked::Play {
                file,
                lab: is_given(given.get_str(LAB)),
            })),
            None => Ok(None),
        },
        CHECK => match several(alloc, given, FILE)? {
            Some(files) => Ok(Some(Asked::Check(files))),
            None => Ok(None),
        },
        SHOW_JOURNAL => match given.get_str(FILE) {
            Some(file) => Ok(Some(Asked::ShowJournal(file))),
            None => Ok(None),
        },
        _ => Ok(None),
    }
}

/// What the matches of the program's words ask for; none where they name no command. The only error is that memory ran out.
fn asked_in<'a>(alloc: Global, matches: &ArgMatches<'a>) -> Result<Option<Asked<'a>>, AllocError>
    ensures { IfOk result (λ asked. MatchOption asked
        ((other : Asked) → ¬ AsksIn (subcommand_rows_of matches.now) other)
        (AsksIn (subcommand_rows_of matches.now))) }
{
    match matches.subcommand() {
        Some((command, given)) => asked_by(alloc, command, given),
        None => Ok(None),
    }
}

/// What the words ask for, the first of which is the program's own name; none where they name no command. The error
/// is why they aren't taken, the help that they ask for, or that memory ran out.
pub fn read_words<'a, S: AsStr>(alloc: Global, words: &'a [S]) -> Result<Option<Asked<'a>>, Error>
    ensures asked { IfOk result (λ asked. MatchOption asked
        ((other : Asked) → ¬ AsksFor (map S.text words.entry.now) other)
        (AsksFor (map S.text words.entry.now))) }
    ensures taken { IfErr result (λ fault. takes lsr_words (map S.text words.entry.now) ≡ true → kind_of fault ≡ ErrorKind.OutOfMemory) }
    ensures kinds { FailsBy (fault_of lsr_words (map S.text words.entry.now)) result }
{
    match command(alloc)?.try_get_matches_from(words) {
        Ok(matches) => Ok(asked_in(alloc, &matches)?),
        Err(fault) => Err(fault),
    }
}
