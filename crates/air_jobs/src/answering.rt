//! What an encoder answers, and then has on the air (profile).
ghost use Rattle.std.specs.Prelude.{◌≡◌, ◌<◌, ◌≤◌, ◌⊎◌, IfOk, IfErr, length, take, flat_map};
ghost use Rattle.rds_store.specs.Step.{step};
ghost use Rattle.uecp_encoder.specs.State.{fed};
ghost use Rattle.uecp_encoder.specs.Answering.{responses_to};
ghost use Rattle.uecp_text.specs.Written.{Adds};
ghost use Rattle.uecp_text.specs.declared.run_fault.RunFault.TheVariants.{OutOfMemory};
ghost use Rattle.uecp_jobs.specs.Commands.{AnswersIn};
ghost use Rattle.uecp_jobs.specs.Setups.{IsSetup, RefusesSetup, encoder_at_first};
ghost use Rattle.output_forms.specs.Forms.{answer_lines};
ghost use Rattle.air_jobs.specs.Airing.{last_lines};
ghost use Rattle.air_jobs.specs.AirJobs.{options_of};
ghost use Rattle.air_jobs.specs.View.{asked_of};

use crate::air_job::AirJob;
use crate::airing::put_air;
use output_forms::{Form, put_answer, put_store};
use rds_store::RdsStore;
use std::alloc::Global;
use uecp_encoder::Encoder;
use uecp_jobs::new_encoder;
use uecp_text::{Interpreter, Output, PieceBuffer, RunFault, Taken, TextFault, rest_after};

/// What of an encoder is written.
#[derive(Clone, Copy, Debug)]
pub(crate) struct Asked {
    /// The form of each line.
    pub(crate) form: Form,
    /// Whether the store comes behind what is answered.
    pub(crate) store: bool,
    /// How many groups come last.
    pub(crate) groups: u32,
}

/// Feeds pieces to an encoder and says what it answers to each; then its store, where that is asked for, and then what
/// it has on the air.
#[derive(Drop)]
pub(crate) struct AnsweringOnAir {
    encoder: Encoder<RdsStore>,
    /// What is written, and how.
    asked: Asked,
    /// Room for one piece after another.
    room: PieceBuffer,
}

impl AnsweringOnAir {
    /// The encoder that the job describes, with an opening store, before any piece. The services are judged before the
    /// address; `OutOfMemory` where there is no memory.
    pub(crate) fn new(alloc: Global, job: &AirJob<'_>) -> Result<AnsweringOnAir, RunFault>
        ensures described { IfOk result (λ a. IsSetup (options_of job.now)) }
        ensures made { IfOk result (λ a. a.encoder ≡ encoder_at_first (options_of job.now)) }
        ensures asked { IfOk result (λ a. a.asked ≡ asked_of job.now) }
        ensures refused { IfErr result (λ fault. (fault ≡ OutOfMemory) ⊎ RefusesSetup (options_of job.now) fault) }
    {
        Ok(AnsweringOnAir {
            encoder: new_encoder(alloc, &job.setup)?,
            asked: Asked {
                form: job.form,
                store: job.store,
                groups: job.groups,
            },
            room: PieceBuffer::new(alloc),
        })
    }
}

impl Interpreter for AnsweringOnAir {
    ghost meaning = { λ a text outcome a'. AnswersIn (answer_lines a.asked.form) a.encoder text outcome a'.encoder
        × (a'.asked ≡ a.asked) };

    ghost closing = { λ a. last_lines a.asked.form a.asked.store a.asked.groups a.encoder };

    fn take(
        &mut self,
        _alloc: Global,
        text: &[u8],
        output: &mut Output,
    ) -> Result<Taken, TextFault> {
        let piece = self.room.read(text)?;
        answer_piece(self.asked.form, &mut self.encoder, piece, output);
        output.check()?;
        Ok(Taken::GoesOn)
    }

    fn close(&self, output: &mut Output) {
        let store = self.encoder.target();
        put_store(self.asked.form, store, self.asked.store, output);
        put_air(self.asked.form, self.asked.groups, store, output);
    }
}

/// Feeds one piece to its end.
fn answer_piece(form: Form, encoder: &mut Encoder<RdsStore>, piece: &[u8], output: &mut Output)
    ensures lines { Adds output.old output.new (flat_map (answer_lines form)
        (responses_to step encoder.old piece.now)) }
    ensures left { encoder.new ≡ fed step encoder.old piece.now }
{
    let mut rest = piece;
    while !rest.is_empty() {
        let used = answer_first(form, encoder, rest, output);
        rest = rest_after(rest, used);
    }
}

/// Feeds a piece up to the end of its first segment, and answers how many bytes those are.
fn answer_first(
    form: Form,
    encoder: &mut Encoder<RdsStore>,
    piece: &[u8],
    output: &mut Output,
) -> usize
    requires { 0 < length piece.now }
    ensures used { result ≤ length piece.now }
    ensures moves { 0 < result }
    ensures lines { Adds output.old output.new (flat_map (answer_lines form)
        (responses_to step encoder.old (take result piece.now))) }
    ensures left { encoder.new ≡ fed step encoder.old (take result piece.now) }
{
    let answer = encoder.feed(piece);
    put_answer(form, answer.what, output);
    answer.used
}
