//! The events of a script, played for a ladder (profile).
ghost use Rattle.std.specs.Prelude.{◌≡◌, ◌⊎◌, ◌++◌, ◌∷◌, ℕ, [], OnOk, IfOk, IfErr};
ghost use Rattle.uecp_link.specs.Replacing.{Replaces};
ghost use Rattle.rds_store.specs.Step.{step};
ghost use Rattle.uecp_text.specs.declared.run_fault.RunFault.TheVariants.{OutOfMemory};
ghost use Rattle.uecp_words.specs.EventWords.{event_seen, named_message};
ghost use Rattle.uecp_link.specs.Events.{event_of};
ghost use Rattle.uecp_link.specs.Holds.{is_acknowledged};
ghost use Rattle.uecp_jobs.specs.Setups.{IsSetup, RefusesSetup};
ghost use Rattle.ladders.specs.Jobs.{options_of, drawn_at_first, last_lines};
ghost use Rattle.ladders.specs.Playing.{Draws, DrawsEvent, Drawn};
ghost use Rattle.ladders.specs.Rows.{rows_of, replaced};
ghost use Rattle.ladders.specs.View.{drawn_of};

use crate::drawing::put_ladder;
use crate::ladder_job::LadderJob;
use crate::row::Row;
use crate::row_making::{row_of_replacement, rows_of};
use commands::LadderForm;
use rds_store::RdsStore;
use rds_store::laws::empty_message_changes_nothing;
use std::alloc::{AllocError, Global};
use uecp_jobs::{line_event, named_message, new_line};
use uecp_link::{Line, LineEvent};
use uecp_text::{Interpreter, Output, RunFault, Taken, TextFault, words_of};
use uecp_words::{event_of, is_replacement};

/// Plays events on a line and keeps the rows of what came of them; the ladder is drawn at the end.
#[derive(Drop)]
pub(crate) struct Drawing {
    line: Line<RdsStore>,
    /// The rows so far, the first at the top.
    rows: Vec<Row>,
    form: LadderForm,
}

impl Drawing {
    /// A new line to the encoder that the job describes, with an opening store, and no row. The services are judged
    /// before the address; `OutOfMemory` where there is no memory.
    pub(crate) fn new(alloc: Global, job: &LadderJob<'_>) -> Result<Drawing, RunFault>
        ensures described { IfOk result (λ d. IsSetup (options_of job.now)) }
        ensures made { IfOk result (λ d. drawn_of d ≡ drawn_at_first (options_of job.now)) }
        ensures form { IfOk result (λ d. d.form ≡ job.now.form) }
        ensures refused { IfErr result (λ fault. (fault ≡ OutOfMemory) ⊎ RefusesSetup (options_of job.now) fault) }
    {
        Ok(Drawing {
            line: new_line(alloc, &job.setup)?,
            rows: Vec::new(alloc),
            form: job.form,
        })
    }
}

impl Interpreter for Drawing {
    ghost meaning = { λ d text outcome d'. Draws (drawn_of d) text outcome (drawn_of d') × (d'.form ≡ d.form) };

    ghost closing = { λ d. last_lines d.form (drawn_of d) };

    fn take(
        &mut self,
        alloc: Global,
        text: &[u8],
        _output: &mut Output,
    ) -> Result<Taken, TextFault> {
        let words = words_of(alloc, text)?;
        if is_replacement(words.as_slice()) {
            replace(&mut self.line, &mut self.rows)?;
        } else {
            let event = event_of(alloc, words.as_slice())?;
            play(&mut self.line, &line_event(&event), &mut self.rows)?;
        }
        Ok(Taken::GoesOn)
    }

    fn close(&self, output: &mut Output) {
        put_ladder(self.form, self.rows.as_slice(), &self.line, output);
    }
}

/// Plays one event, and adds its rows.
fn play(
    line: &mut Line<RdsStore>,
    event: &LineEvent<'_>,
    rows: &mut Vec<Row>,
) -> Result<(), AllocError>
    ensures { OnOk result (DrawsEvent (record { line = line.old; rows = rows.old.items }) (event_of event.now)
        (record { line = line.new; rows = rows.new.items })) }
{
    let is_acknowledged = line.is_acknowledged(named_message(event));
    let outcome = line.step(event);
    rows_of(event, outcome, is_acknowledged, rows)
}

/// Replaces the server by a new one, which joins, and adds the row of that.
fn replace(line: &mut Line<RdsStore>, rows: &mut Vec<Row>) -> Result<(), AllocError>
    ensures { OnOk result ((given_up : ℕ) × Replaces step line.old given_up line.new
        × (rows.new.items ≡ rows.old.items ++ replaced given_up ∷ [])) }
{
    empty_message_changes_nothing();
    rows.push(row_of_replacement(line.replace_server()))?;
    Ok(())
}
