//! The command `answer` (profile).
ghost use Rattle.std.specs.Prelude.{◌≡◌, ◌<◌, ◌≤◌, ◌⊎◌, IfOk, IfErr, length, take, flat_map};
ghost use Rattle.rds_store.specs.Step.{step};
ghost use Rattle.uecp_encoder.specs.State.{fed};
ghost use Rattle.uecp_encoder.specs.Answering.{responses_to};
ghost use Rattle.uecp_lines.specs.Lines.{response_line};
ghost use Rattle.uecp_text.specs.Written.{Adds};
ghost use Rattle.uecp_text.specs.declared.run_fault.RunFault.TheVariants.{OutOfMemory};
ghost use Rattle.uecp_jobs.specs.Commands.{AnswersIn};
ghost use Rattle.output_forms.specs.Forms.{answer_lines, store_lines};
ghost use Rattle.uecp_jobs.specs.Setups.{options_of, IsSetup, RefusesSetup, encoder_at_first};

use crate::asked::Asked;
use crate::setup::{Setup, new_encoder};
use output_forms::{Form, put_answer, put_store};
use rds_store::RdsStore;
use std::alloc::Global;
use uecp_encoder::Encoder;
use uecp_lines::ReplyLines;
use uecp_text::{Interpreter, Output, PieceBuffer, RunFault, Taken, TextFault, rest_after};

/// Feeds pieces to an encoder and says what it answers to each; then, where that is asked for, its store.
#[derive(Drop)]
pub struct Answering {
    encoder: Encoder<RdsStore>,
    /// Whether the store is written out at the end, and the form of all that is written.
    asked: Asked,
    /// Room for one piece after another.
    room: PieceBuffer,
    /// The lines of the replies, as they were written before.
    replies: ReplyLines,
}

impl Answering {
    /// The encoder that the options describe, with an opening store, before any piece. The services are judged before
    /// the address; `OutOfMemory` where there is no memory.
    pub fn new(alloc: Global, setup: &Setup<'_>, asked: Asked) -> Result<Answering, RunFault>
        ensures described { IfOk result (λ a. IsSetup (options_of setup.now)) }
        ensures made { IfOk result (λ a. (a.encoder ≡ encoder_at_first (options_of setup.now)) × (a.asked ≡ asked)) }
        ensures refused { IfErr result (λ fault. (fault ≡ OutOfMemory) ⊎ RefusesSetup (options_of setup.now) fault) }
    {
        let encoder = new_encoder(alloc, setup)?;
        let replies = ReplyLines::new(alloc, encoder.address())?;
        Ok(Answering {
            encoder,
            asked,
            room: PieceBuffer::new(alloc),
            replies,
        })
    }
}

impl Interpreter for Answering {
    ghost meaning = { λ a text outcome a'. AnswersIn (answer_lines a.asked.form) a.encoder text outcome a'.encoder
        × (a'.asked ≡ a.asked) };

    ghost closing = { λ a. store_lines a.asked.form a.asked.store a.encoder.value };

    #[inline(always)]
    fn take(
        &mut self,
        _alloc: Global,
        text: &[u8],
        output: &mut Output,
    ) -> Result<Taken, TextFault> {
        let piece = self.room.read(text)?;
        answer_piece(
            self.asked.form,
            &mut self.encoder,
            &mut self.replies,
            piece,
            output,
        );
        output.check()?;
        Ok(Taken::GoesOn)
    }

    fn close(&self, output: &mut Output) {
        put_store(
            self.asked.form,
            self.encoder.target(),
            self.asked.store,
            output,
        );
    }
}

/// Feeds one piece to its end.
fn answer_piece(
    form: Form,
    encoder: &mut Encoder<RdsStore>,
    replies: &mut ReplyLines,
    piece: &[u8],
    output: &mut Output,
)
    ensures lines { Adds output.old output.new (flat_map (answer_lines form)
        (responses_to step encoder.old piece.now)) }
    ensures left { encoder.new ≡ fed step encoder.old piece.now }
{
    let mut rest = piece;
    while !rest.is_empty() {
        let used = answer_first(form, encoder, replies, rest, output);
        rest = rest_after(rest, used);
    }
}

/// Feeds a piece up to the end of its first segment, and answers how many bytes those are.
fn answer_first(
    form: Form,
    encoder: &mut Encoder<RdsStore>,
    replies: &mut ReplyLines,
    piece: &[u8],
    output: &mut Output,
) -> usize
    requires { 0 < length piece.now }
    ensures used { result ≤ length piece.now }
    ensures moves { 0 < result }
    ensures lines { Adds output.old output.new (flat_map (answer_lines form)
        (responses_to step encoder.old (take result piece.now))) }
    ensures left { encoder.new ≡ fed step encoder.old (take result piece.now) }
{
    if form == Form::Lines {
        return answer_in_lines(encoder, replies, piece, output);
    }
    let answer = encoder.feed(piece);
    put_answer(form, answer.what, output);
    answer.used
}

/// The same in lines, with those of the replies as they were written before.
fn answer_in_lines(
    encoder: &mut Encoder<RdsStore>,
    replies: &mut ReplyLines,
    piece: &[u8],
    output: &mut Output,
) -> usize
    requires { 0 < length piece.now }
    ensures used { result ≤ length piece.now }
    ensures moves { 0 < result }
    ensures lines { Adds output.old output.new (flat_map response_line
        (responses_to step encoder.old (take result piece.now))) }
    ensures left { encoder.new ≡ fed step encoder.old (take result piece.now) }
{
    let heard = encoder.hear(piece);
    replies.put(encoder.address(), heard.outcome, output);
    heard.used
}
