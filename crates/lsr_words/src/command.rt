//! The commands of the table as clap takes them.
ghost use Rattle.std.specs.Prelude.{◌≡◌, false, fold, IfOk};
ghost use Rattle.clap.specs.Words.{app_of, rule_of};
ghost use Rattle.clap.specs.declared.builder.command.Command.{Command, out-Command};
ghost use Rattle.lsr_words.specs.Words.{lsr_words, program_words};
ghost use Rattle.lsr_words.specs.Rows.{add_row, row_words, word_rule};

use crate::help::{ABOUT, HELP, VERSION};
use crate::table::{COMMANDS, Form, PROGRAM, Row, Word};
use clap::{Arg, ArgAction, Command};
use std::alloc::{AllocError, Global};

/// The argument of a word.
fn argument<'a>(alloc: Global, word: &Word) -> Arg<'a>
    ensures rule { rule_of result ≡ word_rule word.now }
    ensures local { result.global ≡ false }
{
    let argument = Arg::new(alloc, word.name).help(word.help);
    match word.form {
        Form::Option(value) => argument.long(word.name).value_name(value),
        Form::Switch => argument.long(word.name).action(ArgAction::SetTrue),
        Form::Optional => argument,
        Form::Required => argument.required(true),
        Form::Several => argument.required(true).action(ArgAction::Append),
    }
}

/// The command of a row, with its words and its help. The only error is that memory ran out.
fn row_command<'a>(alloc: Global, row: &Row) -> Result<Command<'a>, AllocError>
    ensures words { IfOk result (λ command. app_of command ≡ row_words row.now) }
    ensures local { IfOk result (λ command. (out-Command command).has_globals ≡ false) }
{
    let mut command = Command::new(alloc, row.name)
        .about(row.about)
        .after_help(row.after_help);
    for word in row.words {
        command = command.arg(argument(alloc, word))?;
    }
    Ok(command)
}

/// The program with the commands of these rows. The only error is that memory ran out.
fn with_rows<'a>(alloc: Global, rows: &[Row]) -> Result<Command<'a>, AllocError>
    ensures { IfOk result (λ command. app_of command ≡ fold add_row program_words rows.now) }
{
    let mut program = Command::new(alloc, PROGRAM)
        .about(ABOUT)
        .version(VERSION)
        .after_help(HELP)
        .subcommand_required(true)
        .arg_required_else_help(true);
    for row in rows {
        program = program.subcommand(row_command(alloc, row)?)?;
    }
    Ok(program)
}

/// The program, with all its commands. The only error is that memory ran out.
pub(crate) fn command<'a>(alloc: Global) -> Result<Command<'a>, AllocError>
    ensures { IfOk result (λ command. app_of command ≡ lsr_words) }
{
    with_rows(alloc, &COMMANDS)
}
