//! The lines of replies, each written once (profile).
ghost use Rattle.std.specs.Prelude.{◌≡◌, None, Some, flat_map};
ghost use Rattle.uecp_encoder.specs.Outcomes.{said_of};
ghost use Rattle.uecp_lines.specs.Lines.{response_line};
ghost use Rattle.uecp_lines.specs.ReplyLines.{reply_words};
ghost use Rattle.uecp_text.specs.Written.{Adds};

use crate::finding_lines::put_fault;
use arrayvec::ArrayVec;
use std::alloc::{AllocError, Global};
use std::marker::Model;
use uecp_elements::Code;
use uecp_encoder::{Outcome, ReplyBytes, spell_reply};
use uecp_frame::Address;
use uecp_text::{Output, digits_of_byte};

/// How many counters there are, 00 among them.
const COUNTERS: usize = 256;

/// The word, a space, and two digits for each of the 16 bytes that a reply has at most.
const LINE_MAX: usize = 5 + 1 + 2 * 16;

/// The line of one reply, but for what ends it.
#[derive(Drop)]
struct ReplyLine {
    /// The address that the reply goes out from.
    address: Address,
    /// The code of the reply; None before its line was written.
    code: Option<Code>,
    /// The line.
    text: ArrayVec<u8, LINE_MAX>,
}

/// The lines of what encoders answer. The counters of messages come round, and most replies have the address and the
/// code of the ones before, so the line of a reply is kept under its counter, and written anew only where address or
/// code is another. Contracts see nothing of what it holds.
#[derive(Drop)]
pub struct ReplyLines {
    /// The lines, by counter.
    lines: Vec<ReplyLine>,
}

impl Model for ReplyLines {
    ghost use Rattle.uecp_lines.specs.ReplyLines.{AreReplyLines};

    ghost Value = { Unit {0} };

    ghost view = { λ _. tt };

    ghost invariant = { λ l. AreReplyLines l.lines.items };
}

impl ReplyLines {
    /// No line was written yet; the first that come are expected to be from this address. All memory is taken here.
    ///
    /// ```
    /// let mut lines = ReplyLines::new(alloc, encoder.address())?;
    /// ```
    pub fn new(alloc: Global, address: Address) -> Result<ReplyLines, AllocError> {
        let mut lines = Vec::with_capacity(alloc, COUNTERS)?;
        for _counter in 0..COUNTERS {
            lines.push(ReplyLine::unwritten(address))?;
        }
        Ok(ReplyLines { lines })
    }

    /// The line of what an encoder at this address answers, if it answers, as [`put_answer`](crate::put_answer) adds
    /// it.
    #[inline(always)]
    pub fn put(&mut self, address: Address, outcome: Outcome, output: &mut Output)
        ensures { Adds output.old output.new (flat_map response_line (said_of address outcome)) }
    {
        match outcome {
            Outcome::Nothing => {}
            Outcome::Reply {
                code,
                counter,
                fresh,
            } => {
                self.put_reply(address, code, counter, output);
                if fresh {
                    output.text(" new\n");
                } else {
                    output.text(" kept\n");
                }
            }
            Outcome::NotForMe => output.text("not for me\n"),
            Outcome::Unnumbered => output.text("unnumbered\n"),
            Outcome::NotNext => output.text("not next\n"),
            Outcome::Dropped(fault) => put_fault(fault, output),
        }
    }

    /// The line of a reply, but for what ends it. It is no part of `put`, so that what brings no reply stays short.
    #[inline(never)]
    fn put_reply(&mut self, address: Address, code: Code, counter: u8, output: &mut Output)
        ensures { Adds output.old output.new (reply_words address counter code) }
    {
        let place = usize::from(counter);
        let line = &self.lines[place];
        if line.address != address || line.code != Some(code) {
            self.lines[place] = ReplyLine::written(address, code, counter);
        }
        output.add(self.lines[place].text.as_slice());
    }
}

impl ReplyLine {
    /// No line.
    fn unwritten(address: Address) -> ReplyLine
        ensures { result.code ≡ None }
    {
        ReplyLine {
            address,
            code: None,
            text: ArrayVec::new(),
        }
    }

    /// The line of the reply to a counter.
    fn written(address: Address, code: Code, counter: u8) -> ReplyLine
        ensures address { result.address ≡ address }
        ensures code { result.code ≡ Some code }
        ensures text { result.text.items ≡ reply_words address counter code }
    {
        let mut reply = ReplyBytes::new();
        spell_reply(address, code, counter, &mut reply);
        let mut text = ArrayVec::new();
        match text.try_extend_from_slice(b"reply ") {
            Ok(()) => {}
            Err(_) => unreachable!(),
        }
        let bytes = reply.as_slice();
        'bytes: for i in 0..bytes.len() {
            let [high, low] = digits_of_byte(bytes[i]);
            text.push(high);
            text.push(low);
        }
        ReplyLine {
            address,
            code: Some(code),
            text,
        }
    }
}
