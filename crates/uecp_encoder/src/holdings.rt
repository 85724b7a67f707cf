//! What an encoder holds apart from the open part of the line, and what a finding does to it. Source: profile.
ghost use Rattle.std.specs.Prelude.{◌≡◌, Ok, [], ◌∷◌, option_to_list};
ghost use Rattle.reply_ring.specs.Ring.{newest};
ghost use Rattle.uecp_frame.specs.declared.fed.Found.TheVariants.{Frame};
ghost use Rattle.uecp_frame.specs.Findings.{OpenPart};
ghost use Rattle.uecp_frame.specs.Feeding.{findings_of};
ghost use Rattle.uecp_frame.specs.Lent.{found_lent, frame_lent};
ghost use Rattle.uecp_encoder.specs.State.{next_after, after_finding, after_findings};
ghost use Rattle.uecp_encoder.specs.Answering.{response_to, responses};
ghost use Rattle.uecp_encoder.specs.ReplyCodes.{replies_to};
ghost use Rattle.uecp_encoder.specs.Holdings.{with_part};
ghost use Rattle.uecp_encoder.specs.Outcomes.{said_of, coded_of, ComesTo};

use crate::counts::Counts;
use crate::outcome::Outcome;
use crate::target::Target;
use reply_ring::ReplyRing;
use uecp_frame::{Address, FoundRef, FrameRef};

/// The greatest counter of a numbered frame; 01 follows it.
const LAST_COUNTER: u8 = 255;

/// The encoder's memory between frames.
#[derive(Drop)]
pub(crate) struct Holdings<T> {
    /// The encoder's own address, from which its replies go out.
    pub(crate) address: Address,
    /// What the messages are applied to.
    pub(crate) target: T,
    /// The codes of the last 127 applied messages, by counter.
    pub(crate) ring: ReplyRing,
    /// What came, by kind.
    pub(crate) counts: Counts,
}

impl<T: Target> Holdings<T> {
    /// Takes what a piece of the stream brought.
    #[inline(always)]
    pub(crate) fn take(&mut self, found: &FoundRef<'_>) -> Outcome
        ensures holds { (part : OpenPart) → with_part self.new part
            ≡ after_findings T.step (with_part self.old part) (findings_of (found_lent found.now)) }
        ensures says { (part : OpenPart) → said_of self.old.address result
            ≡ responses T.step (with_part self.old part) (findings_of (found_lent found.now)) }
        ensures codes { (part : OpenPart) → option_to_list (coded_of result)
            ≡ replies_to T.step (with_part self.old part) (findings_of (found_lent found.now)) }
        ensures comes { ComesTo (found_lent found.now) result }
        ensures address { self.new.address ≡ self.old.address }
    {
        match found {
            FoundRef::Nothing => Outcome::Nothing,
            FoundRef::Refused(fault) => {
                self.counts.dropped = self.counts.dropped.saturating_add(1);
                Outcome::Dropped(*fault)
            }
            FoundRef::Frame(frame) => self.take_frame(frame),
        }
    }

    /// Takes a frame: in order, the address, counter 00, a counter that is kept, one that is not the next, and else the
    /// message is applied.
    #[inline(never)]
    fn take_frame(&mut self, frame: &FrameRef<'_>) -> Outcome
        ensures holds { (part : OpenPart) → with_part self.new part
            ≡ after_finding T.step (with_part self.old part) (Ok (frame_lent frame.now)) }
        ensures says { (part : OpenPart) → said_of self.old.address result
            ≡ response_to T.step (with_part self.old part) (Ok (frame_lent frame.now)) ∷ [] }
        ensures codes { (part : OpenPart) → option_to_list (coded_of result)
            ≡ replies_to T.step (with_part self.old part) (Ok (frame_lent frame.now) ∷ []) }
        ensures comes { ComesTo (Frame (frame_lent frame.now)) result }
        ensures address { self.new.address ≡ self.old.address }
    {
        if !frame.address.reaches(self.address) {
            self.counts.not_for_me = self.counts.not_for_me.saturating_add(1);
            return Outcome::NotForMe;
        }
        let counter = frame.counter;
        if counter == 0 {
            self.counts.unnumbered = self.counts.unnumbered.saturating_add(1);
            return Outcome::Unnumbered;
        }
        if let Some(code) = self.ring.find(counter) {
            self.counts.repeats = self.counts.repeats.saturating_add(1);
            return Outcome::Reply {
                code,
                counter,
                fresh: false,
            };
        }
        if counter != self.next_counter() {
            return Outcome::NotNext;
        }
        let code = self.target.apply(frame.message);
        self.ring.keep(counter, code);
        self.counts.fresh = self.counts.fresh.saturating_add(1);
        Outcome::Reply {
            code,
            counter,
            fresh: true,
        }
    }

    /// The counter of the message that is to be applied next: 01 where no reply is kept, else the one after the newest
    /// kept, FF being followed by 01.
    fn next_counter(&self) -> u8
        ensures { result ≡ next_after (newest self.now.ring) }
    {
        match self.ring.newest() {
            None => 1,
            Some(last) => 1 + last % LAST_COUNTER,
        }
    }
}
