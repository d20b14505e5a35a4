//! The commands of the program for `clap`, made from the rows of the table.
ghost use Rattle.std.specs.Prelude.{◌≡◌, IfOk, false, fold};
ghost use Rattle.clap.specs.Words.{app_of, new_app, rule_of};
ghost use Rattle.uv_arguments.specs.Commands.{app_in, long_rule, option_rule, text_rule, urlcheck, with_command, IsApp};

use crate::help;
use crate::table::{COMMANDS, CommandRow, OptionForm, OptionRow, TextRow};
use clap::{Arg, ArgAction, Command};
use std::alloc::{AllocError, Global};

/// The commands of the program `urlcheck`.
pub(crate) fn urlcheck<'a>(alloc: Global) -> Result<Command<'a>, AllocError>
    ensures { IfOk result (λ c. app_of c ≡ urlcheck) }
{
    let program = Command::new(alloc, "urlcheck")
        .version("0.5.0")
        .long_version("0.5.0\nUnicode 18.0, in domains")
        .about(help::ABOUT)
        .after_help(help::EXAMPLES)
        .after_long_help(help::NOTES)
        .arg_required_else_help(true)
        .subcommand_required(true);
    with_commands(alloc, program, &COMMANDS)
}

// A program with the commands of these rows.
fn with_commands<'a>(
    alloc: Global,
    program: Command<'a>,
    rows: &[CommandRow],
) -> Result<Command<'a>, AllocError>
    ensures { IfOk result (λ c. app_of c ≡ fold with_command (app_of program.entry) rows.now) }
{
    let mut program = program;
    for row in rows {
        program = program.subcommand(command(alloc, row)?)?;
    }
    Ok(program)
}

// The command of a row, with its options and its texts.
fn command<'a>(alloc: Global, row: &CommandRow) -> Result<Command<'a>, AllocError>
    ensures { IfOk result (IsApp (app_in row.now)) }
{
    let mut command = bare(alloc, row);
    for option in row.options {
        command = command.arg(option_arg(alloc, option))?;
    }
    match &row.texts {
        Some(texts) => command.arg(text_arg(alloc, texts)),
        None => Ok(command),
    }
}

// The command of a row without arguments.
fn bare<'a>(alloc: Global, row: &CommandRow) -> Command<'a>
    ensures { IsApp (new_app row.now.name.now) result }
{
    let command = Command::new(alloc, row.name)
        .about(row.about)
        .after_help(row.examples)
        .after_long_help(row.notes);
    match row.usage {
        Some(usage) => command.override_usage(usage),
        None => command,
    }
}

// The argument for an option.
fn option_arg<'a>(alloc: Global, row: &OptionRow) -> Arg<'a>
    ensures rule { rule_of result ≡ option_rule row.now.form row.now.name.now }
    ensures local { result.global ≡ false }
{
    let arg = named(alloc, row);
    match row.form {
        OptionForm::Value(value) => arg.value_name(value),
        OptionForm::Flag => arg.action(ArgAction::SetTrue),
        OptionForm::Letter(letter) => arg.action(ArgAction::SetTrue).short(letter),
    }
}

// The argument for an option, by its long name and with its help.
fn named<'a>(alloc: Global, row: &OptionRow) -> Arg<'a>
    ensures rule { rule_of result ≡ long_rule row.now.name.now }
    ensures local { result.global ≡ false }
{
    let arg = Arg::new(alloc, row.name)
        .long(row.name)
        .help_heading(row.heading)
        .help(row.help);
    match row.long_help {
        Some(help) => arg.long_help(help),
        None => arg,
    }
}

// The argument for texts.
fn text_arg<'a>(alloc: Global, row: &TextRow) -> Arg<'a>
    ensures rule { rule_of result ≡ text_rule row.now.name.now row.now.is_required row.now.is_repeated }
    ensures local { result.global ≡ false }
{
    let arg = Arg::new(alloc, row.name)
        .required(row.is_required)
        .help(row.help);
    if row.is_repeated {
        arg.action(ArgAction::Append)
    } else {
        arg
    }
}
