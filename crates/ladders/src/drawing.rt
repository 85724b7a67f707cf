//! A ladder in either form (profile).
ghost use Rattle.uecp_text.specs.Written.{Adds};
ghost use Rattle.ladders.specs.Drawing.{ladder};

use crate::picture::put_picture;
use crate::row::Row;
use crate::text_drawing::put_text;
use commands::LadderForm;
use rds_store::RdsStore;
use uecp_lines::put_totals;
use uecp_link::Line;
use uecp_text::Output;

/// Adds a ladder of these rows, the first at the top, with the totals of the line below them.
pub fn put_ladder(form: LadderForm, rows: &[Row], line: &Line<RdsStore>, output: &mut Output)
    ensures { Adds output.old output.new (ladder form rows.now line.now) }
{
    match form {
        LadderForm::Picture => put_picture(rows, line, output),
        LadderForm::Text => {
            put_text(rows, output);
            put_totals(line, output);
        }
    }
}
