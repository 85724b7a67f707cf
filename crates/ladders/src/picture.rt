//! A ladder as SVG (profile).
ghost use Rattle.std.specs.Prelude.{◌≡◌, ◌++◌, decimal};
ghost use Rattle.uecp_text.specs.Written.{Adds};
ghost use Rattle.uecp_lines.specs.Steps.{totals_line};
ghost use Rattle.ladders.specs.Picture.{depth, foot, head, height, picture, picture_row, picture_rows, shape_name};
ghost use Rattle.ladders.specs.Drawing.{totals_of};

use crate::row::{Mark, Row};
use crate::row_words::{put_label, put_said};
use itoa::Buffer;
use rds_store::RdsStore;
use uecp_lines::put_totals;
use uecp_link::Line;
use uecp_text::Output;

/// The shapes of the marks, each under its name.
const SHAPES: &str =
    "<defs>\n<g id=\"to-encoder\"><path d=\"M 60 0 L 375 12\" stroke=\"#1d5fa8\"/><path d=\"M 380 12 l -10 -5 l 0 9 z\" fill=\"#1d5fa8\"/></g>\n<g id=\"to-server\"><path d=\"M 380 0 L 65 12\" stroke=\"#2f7d4f\"/><path d=\"M 60 12 l 10 -5 l 0 9 z\" fill=\"#2f7d4f\"/></g>\n<g id=\"lost-to-encoder\"><path d=\"M 60 0 L 220 7\" stroke=\"#1d5fa8\" stroke-dasharray=\"5 4\"/><path d=\"M 220 1 l 12 12 m -12 0 l 12 -12\" stroke=\"#b3261e\"/></g>\n<g id=\"lost-to-server\"><path d=\"M 380 0 L 220 7\" stroke=\"#2f7d4f\" stroke-dasharray=\"5 4\"/><path d=\"M 208 1 l 12 12 m -12 0 l 12 -12\" stroke=\"#b3261e\"/></g>\n<g id=\"at-server\"><circle cx=\"60\" cy=\"10\" r=\"4\" fill=\"#1d5fa8\"/></g>\n<g id=\"at-encoder\"><circle cx=\"380\" cy=\"10\" r=\"4\" fill=\"#2f7d4f\"/></g>\n<g id=\"lost-at-server\"><path d=\"M 54 4 l 12 12 m -12 0 l 12 -12\" stroke=\"#b3261e\"/></g>\n<g id=\"lost-at-encoder\"><path d=\"M 374 4 l 12 12 m -12 0 l 12 -12\" stroke=\"#b3261e\"/></g>\n<g id=\"nothing\"/>\n</defs>\n";

/// Adds the picture of the rows, with the totals of the line below them.
pub(crate) fn put_picture(rows: &[Row], line: &Line<RdsStore>, output: &mut Output)
    ensures { Adds output.old output.new (picture rows.now (totals_of line.now)) }
{
    put_head(height(rows.len()), output);
    put_rows(rows, output);
    put_foot(depth(rows.len()) + 14, line, output);
}

/// Adds what stands above the rows of a picture of this height.
fn put_head(height: u128, output: &mut Output)
    ensures { Adds output.old output.new (head height) }
{
    output.text("<svg xmlns=\"http://www.w3.org/2000/svg\" width=\"760\" height=\"");
    put_number(height, output);
    output.text("\" viewBox=\"0 0 760 ");
    put_number(height, output);
    output.text(
        "\" font-family=\"DejaVu Sans Mono, monospace\" font-size=\"12\" stroke-width=\"1.5\" role=\"img\">\n<title>A line between a server and an encoder</title>\n<rect width=\"760\" height=\"100%\" fill=\"white\"/>\n",
    );
    output.text(SHAPES);
    output.text(
        "<text x=\"60\" y=\"26\" text-anchor=\"middle\" font-size=\"15\" fill=\"#1d5fa8\">server</text>\n<text x=\"380\" y=\"26\" text-anchor=\"middle\" font-size=\"15\" fill=\"#2f7d4f\">encoder</text>\n<path stroke=\"#1d5fa8\" stroke-width=\"2\" d=\"M 60 36 V ",
    );
    put_number(height, output);
    output.text("\"/>\n<path stroke=\"#2f7d4f\" stroke-width=\"2\" d=\"M 380 36 V ");
    put_number(height, output);
    output.text("\"/>\n");
}

/// Adds the rows, each below the one before.
fn put_rows(rows: &[Row], output: &mut Output)
    ensures { Adds output.old output.new (picture_rows 0 rows.now) }
{
    for place in 0..rows.len() {
        put_row(place, &rows[place], output);
    }
}

/// Adds the row at a place, the first being 0.
fn put_row(place: usize, row: &Row, output: &mut Output)
    ensures { Adds output.old output.new (picture_row place row.now) }
{
    output.text("<g transform=\"translate(0 ");
    put_number(depth(place), output);
    output.text(")\"><use href=\"#");
    output.text(shape_name(row.mark));
    output.text("\"/><text x=\"220\" y=\"-3\" text-anchor=\"middle\" fill=\"#1f2933\">");
    put_label(row.label, output);
    output.text("</text><text x=\"400\" y=\"16\" fill=\"#1f2933\">");
    put_said(row.said, output);
    output.text("</text></g>\n");
}

/// Adds the totals below the rows, and ends the picture.
fn put_foot(depth: u128, line: &Line<RdsStore>, output: &mut Output)
    ensures { Adds output.old output.new (foot depth (totals_of line.now)) }
{
    output.text("<text x=\"20\" y=\"");
    put_number(depth, output);
    output.text("\" fill=\"#1f2933\">");
    put_totals(line, output);
    output.text("</text>\n</svg>\n");
}

/// Adds a number in decimal.
fn put_number(number: u128, output: &mut Output)
    ensures { Adds output.old output.new (decimal number) }
{
    output.text(Buffer::new().format(number));
}

/// How far below the top the row of this place stands.
fn depth(place: usize) -> u128
    ensures { result ≡ depth place }
{
    34 * place as u128 + 62
}

/// How high a picture of so many rows is.
fn height(count: usize) -> u128
    ensures { result ≡ height count }
{
    34 * count as u128 + 92
}

/// The name of the shape of a mark.
fn shape_name(mark: Mark) -> &'static str
    ensures { result.now ≡ shape_name mark }
{
    match mark {
        Mark::ToEncoder => "to-encoder",
        Mark::ToServer => "to-server",
        Mark::LostToEncoder => "lost-to-encoder",
        Mark::LostToServer => "lost-to-server",
        Mark::AtServer => "at-server",
        Mark::AtEncoder => "at-encoder",
        Mark::LostAtServer => "lost-at-server",
        Mark::LostAtEncoder => "lost-at-encoder",
        Mark::Nothing => "nothing",
    }
}
