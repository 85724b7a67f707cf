//! The rows of the program's commands, by what each is (profile).
ghost use Rattle.std.specs.Prelude.{◌≡◌, ◌∷◌, [], map};
ghost use Rattle.command_line.specs.CommandLine as spec;
ghost use Rattle.command_line.specs.Rows.{shape_of_row};

use crate::command_row::CommandRow;
use crate::command_table::{
    ANSWER_COMMAND, CONFORMANCE_COMMAND, ENCODER_COMMAND, LINE_COMMAND, MAKE_COMMAND, PAGE_COMMAND,
    PHRASES_COMMAND, QUOTE_COMMAND, RECEIVE_COMMAND, SEND_COMMAND, SERVER_COMMAND, SHOW_COMMAND,
    STATE_COMMAND, WATCH_COMMAND,
};

/// The commands, in the order of `--help`.
pub(crate) fn command_rows() -> [CommandRow; 14]
    ensures { map shape_of_row result ≡ spec.answering_command ∷ spec.showing_command ∷ spec.making_command
        ∷ spec.playing_command ∷ spec.listening_command ∷ spec.sending_command ∷ spec.live_command
        ∷ spec.watching_command ∷ spec.looking_command ∷ spec.receiving_command ∷ spec.trying_command
        ∷ spec.paging_command ∷ spec.quoting_command ∷ spec.telling_command ∷ [] }
{
    [
        answer_row(),
        show_row(),
        make_row(),
        line_row(),
        encoder_row(),
        server_row(),
        send_row(),
        watch_row(),
        state_row(),
        receive_row(),
        conformance_row(),
        page_row(),
        quote_row(),
        phrases_row(),
    ]
}

fn answer_row() -> CommandRow
    ensures { shape_of_row result ≡ spec.answering_command }
{
    ANSWER_COMMAND
}

fn show_row() -> CommandRow
    ensures { shape_of_row result ≡ spec.showing_command }
{
    SHOW_COMMAND
}

fn make_row() -> CommandRow
    ensures { shape_of_row result ≡ spec.making_command }
{
    MAKE_COMMAND
}

fn line_row() -> CommandRow
    ensures { shape_of_row result ≡ spec.playing_command }
{
    LINE_COMMAND
}

fn encoder_row() -> CommandRow
    ensures { shape_of_row result ≡ spec.listening_command }
{
    ENCODER_COMMAND
}

fn server_row() -> CommandRow
    ensures { shape_of_row result ≡ spec.sending_command }
{
    SERVER_COMMAND
}

fn send_row() -> CommandRow
    ensures { shape_of_row result ≡ spec.live_command }
{
    SEND_COMMAND
}

fn watch_row() -> CommandRow
    ensures { shape_of_row result ≡ spec.watching_command }
{
    WATCH_COMMAND
}

fn state_row() -> CommandRow
    ensures { shape_of_row result ≡ spec.looking_command }
{
    STATE_COMMAND
}

fn receive_row() -> CommandRow
    ensures { shape_of_row result ≡ spec.receiving_command }
{
    RECEIVE_COMMAND
}

fn conformance_row() -> CommandRow
    ensures { shape_of_row result ≡ spec.trying_command }
{
    CONFORMANCE_COMMAND
}

fn page_row() -> CommandRow
    ensures { shape_of_row result ≡ spec.paging_command }
{
    PAGE_COMMAND
}

fn quote_row() -> CommandRow
    ensures { shape_of_row result ≡ spec.quoting_command }
{
    QUOTE_COMMAND
}

fn phrases_row() -> CommandRow
    ensures { shape_of_row result ≡ spec.telling_command }
{
    PHRASES_COMMAND
}
