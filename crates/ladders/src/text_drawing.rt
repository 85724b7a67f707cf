//! A ladder in the characters of boxes (profile).
ghost use Rattle.std.specs.Prelude.{◌≡◌};
ghost use Rattle.uecp_text.specs.Written.{Adds};
ghost use Rattle.ladders.specs.Text.{repeated, server_post, encoder_post, between, text_row, text_ladder};
ghost use Rattle.ladders.specs.Words.{label_words};

use crate::row::{Label, Mark, Row};
use crate::row_words::{label_length, put_label, put_said};
use uecp_text::Output;

/// Adds the names of the ends, and the rows below them.
pub(crate) fn put_text(rows: &[Row], output: &mut Output)
    ensures { Adds output.old output.new (text_ladder rows.now) }
{
    output.text("server                              encoder\n");
    for row in rows {
        put_row(row, output);
    }
}

/// Adds the line of a row.
fn put_row(row: &Row, output: &mut Output)
    ensures { Adds output.old output.new (text_row row.now) }
{
    output.text("  ");
    output.text(server_post(row.mark));
    put_between(row.mark, row.label, output);
    output.text(encoder_post(row.mark));
    output.text("  ");
    put_said(row.said, output);
}

/// The post of the server.
fn server_post(mark: Mark) -> &'static str
    ensures { result.now ≡ server_post mark }
{
    match mark {
        Mark::AtServer => "┣",
        Mark::LostAtServer => "╳",
        _ => "│",
    }
}

/// The post of the encoder.
fn encoder_post(mark: Mark) -> &'static str
    ensures { result.now ≡ encoder_post mark }
{
    match mark {
        Mark::AtEncoder => "┫",
        Mark::LostAtEncoder => "╳",
        _ => "│",
    }
}

/// Adds what stands between the posts.
fn put_between(mark: Mark, label: Label, output: &mut Output)
    ensures { Adds output.old output.new (between mark (label_words label)) }
{
    let length = label_length(label);
    match mark {
        Mark::ToEncoder => {
            output.text("── ");
            put_label(label, output);
            output.text(" ");
            put_repeated("─", 31usize.saturating_sub(length), output);
            output.text("▶");
        }
        Mark::ToServer => {
            output.text("◀─ ");
            put_label(label, output);
            output.text(" ");
            put_repeated("─", 32usize.saturating_sub(length), output);
        }
        Mark::LostToEncoder => {
            output.text("── ");
            put_label(label, output);
            output.text(" ──╳");
            put_repeated(" ", 29usize.saturating_sub(length), output);
        }
        Mark::LostToServer => {
            put_repeated(" ", 29usize.saturating_sub(length), output);
            output.text("╳── ");
            put_label(label, output);
            output.text(" ──");
        }
        _ => {
            output.text("   ");
            put_label(label, output);
            put_repeated(" ", 33usize.saturating_sub(length), output);
        }
    }
}

/// Adds so many of the same.
fn put_repeated(part: &str, count: usize, output: &mut Output)
    ensures { Adds output.old output.new (repeated count part.now) }
{
    for _at in 0..count {
        output.text(part);
    }
}
