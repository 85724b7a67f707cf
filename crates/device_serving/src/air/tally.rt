//! One read of the connection that is open, with what is sent over it counted. Source: profile.
ghost use Rattle.std.specs.Prelude.{◌≡◌};
ghost use Rattle.uecp_encoder.specs.Keeping.{Settled};
ghost use Rattle.uecp_encoder.specs.ServingWith.{StaysSettled};
ghost use Rattle.device_serving.specs.AirLines.{ReadsOnce};
ghost use Rattle.device_serving.specs.AirParts.{sent_with, counts_with};

use crate::air::line::{OpenLine, Sent, together};
use std::io::{Read, Write};
use uecp_encoder::{
    Answered, BatchLimits, Encoder, Event, Keep, KeptFault, Listener, Meter, SavedEncoder, Served,
    Target, serve_with,
};

/// Tells a listener, and counts the replies that were written whole.
#[derive(Drop)]
struct Tally<'a, L: Listener> {
    listener: &'a mut L,
    sent: Sent,
}

impl<'a, L: Listener> Listener for Tally<'a, L> {
    ghost use Rattle.std.specs.Prelude.{true};
    ghost use Rattle.std.proofs.Common.{true≢false};

    ghost listens = { λ _. true };

    ghost deaf = { λ _ _ _ no. absurd (true≢false no) };

    ghost begins = { λ t t'. L.begins t.listener.now t'.listener.now × (t'.sent ≡ t.sent)
        × (t'.listener.ghost_name ≡ t.listener.ghost_name) };

    ghost hears = { λ t event sent t'. L.hears t.listener.now event sent t'.listener.now
        × (t'.sent ≡ counts_with t.sent event.answer sent)
        × (t'.listener.ghost_name ≡ t.listener.ghost_name) };

    fn is_listening(&self) -> bool {
        true
    }

    fn begin(&mut self) {
        self.listener.begin();
    }

    fn hear(&mut self, event: &Event, sent: bool) {
        if sent {
            self.sent = sent_with(self.sent, &event.answer);
        }
        self.listener.hear(event, sent);
    }
}

/// What was sent, with an answer that was written whole.
fn sent_with(sent: Sent, answer: &Answered) -> Sent
    ensures { result ≡ sent_with sent answer.now }
{
    match answer {
        Answered::New { code: _, reply } | Answered::Repeat { code: _, reply } => Sent {
            replies: together(sent.replies, 1),
            bytes: together(sent.bytes, reply.len() as u64),
        },
        Answered::NotNext | Answered::Unnumbered | Answered::NotForMe | Answered::Dropped(_) =>
            sent,
    }
}

/// What one read of a connection left of it, and how it ended.
#[derive(Drop)]
pub(crate) struct Turn<I, O> {
    pub(crate) line: OpenLine<I, O>,
    pub(crate) ended: Result<Served, KeptFault>,
}

/// Makes one read of a connection and serves what it brings: one call of [`serve_with`] of one turn. What is sent is
/// counted.
pub(crate) fn read_once<
    T: Target,
    K: Keep<SavedEncoder<T>> + BatchLimits,
    L: Listener,
    I: Read + Drop,
    O: Write + Drop,
>(encoder: &mut Encoder<T>, keeper: &mut K, listener: &mut L, line: OpenLine<I, O>) -> Turn<I, O>
    ensures reads { ReadsOnce K.TOGETHER_MAX K.READ_MAX T.step K.leaves K.is_clean K.saves K.fails L.hears I.remaining
        O.contents encoder.old encoder.new keeper.old keeper.new listener.old listener.new line result.line
        result.ended }
    ensures settled { Settled (K.leaves keeper.old) encoder.old → K.is_clean keeper.new
        → StaysSettled (K.leaves keeper.new) encoder.new result.ended }
    ensures clean { K.is_clean keeper.new → K.is_clean keeper.old }
{
    let OpenLine {
        input,
        output,
        left,
        sent,
    } = line;
    let mut reader = Meter::new(input);
    let mut writer = Meter::new(output);
    let mut tally = Tally { listener, sent };
    let ended = serve_with(encoder, keeper, &mut reader, &mut writer, &mut tally, 1);
    let sent = tally.sent;
    Turn {
        line: OpenLine {
            input: reader.into_inner(),
            output: writer.into_inner(),
            left: left.saturating_sub(1),
            sent,
        },
        ended,
    }
}
