//! The program's commands and options (profile).
ghost use Rattle.std.specs.Prelude.{◌≡◌, map, IfOk};
ghost use Rattle.clap.specs.Words.{app_of, shape_of};
ghost use Rattle.command_line.specs.CommandLine.{uecp_app, with_commands};
ghost use Rattle.command_line.specs.CommandLine as spec;
ghost use Rattle.command_line.specs.Rows.{rule_of_row, shape_of_row, with_rules};

use crate::command_row::CommandRow;
use crate::command_rows::command_rows;
use crate::command_table::{FILE_OPTIONS, PHRASES_NAME};
use crate::option_row::{OptionRow, row_argument};
use clap::Command;
use phrase_commands::PHRASES;
use std::alloc::{AllocError, Global};

/// The version. `packaging/stamp` writes the commit over the word in brackets once the program is built.
const VERSION: &str = "1.0.0 (unreleased)";

/// Who uses which command, what is read, and what the exit statuses say, below the list of commands.
const GUIDE: &str =
    "At the studio: send, server. At the transmitter: encoder. On the line: watch, conformance. On the air: receive.\nTo look: page, state. With no line at all: make, show, answer, line. For scripts: quote. What phrases there are: phrases.\n\nEach command but encoder, state, conformance and phrases reads standard input to its end, at most 1 MiB (1,048,576 bytes);\nwatch, send, receive and page go on as it comes, and have no limit.\n'uecp COMMAND --help' has its options and an example.\nExit status: 0 done, 1 an input line was refused, 2 the command line or the services were refused,\n3 memory, reading, writing, a connection or a state failed, 4 send: the encoder refused a message, or it is unknown.";

/// How many options `--help` shows at most with no headings.
const PLAIN_MAX: usize = 8;

/// The program's commands and options, with their ranges, defaults and helpful texts.
pub fn program<'a>(alloc: Global) -> Result<Command<'a>, AllocError>
    ensures { IfOk result (λ program. app_of program ≡ uecp_app) }
{
    let program = Command::new(alloc, "uecp")
        .bin_name("uecp")?
        .version(VERSION)
        .about("Both ends of an RDS encoder's control line (UECP)")
        .after_help(GUIDE)
        .subcommand_required(true);
    with_commands(alloc, program, &command_rows())
}

/// The program with these commands too, each of which takes a file of options.
fn with_commands<'a>(
    alloc: Global,
    program: Command<'a>,
    commands: &[CommandRow],
) -> Result<Command<'a>, AllocError>
    ensures { IfOk result (λ whole. app_of whole
        ≡ with_commands (app_of program.entry) (map shape_of_row commands.now)) }
{
    let mut whole = program;
    for row in commands {
        whole = whole.subcommand(command_of(alloc, row)?)?;
    }
    Ok(whole)
}

/// The command of a row, which takes a file of options.
fn command_of<'a>(alloc: Global, row: &CommandRow) -> Result<Command<'a>, AllocError>
    ensures { IfOk result (λ command. shape_of command ≡ spec.configurable (shape_of_row row.now)) }
{
    let told = Command::new(alloc, row.name)
        .about(row.about)
        .after_help(row.after);
    let named = with_page(told, row.name);
    let has_headings = row.options.len() > PLAIN_MAX;
    let command = with_options(alloc, named, row.options, has_headings)?;
    with_options(alloc, command, FILE_OPTIONS, has_headings)
}

/// The command of this name, with the page of phrases for its help where it is the one that tells it.
fn with_page<'a>(command: Command<'a>, name: &str) -> Command<'a>
    ensures { shape_of result ≡ shape_of command.entry }
{
    if name == PHRASES_NAME {
        command.override_help(PHRASES)
    } else {
        command
    }
}

/// The command with these options too; under headings, where they are to be.
fn with_options<'a>(
    alloc: Global,
    command: Command<'a>,
    options: &[OptionRow],
    has_headings: bool,
) -> Result<Command<'a>, AllocError>
    ensures { IfOk result (λ whole. shape_of whole
        ≡ with_rules (shape_of command.entry) (map rule_of_row options.now)) }
{
    let mut whole = command;
    for row in options {
        whole = whole.arg(row_argument(alloc, row, has_headings))?;
    }
    Ok(whole)
}
