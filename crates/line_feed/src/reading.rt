//! The lines of a reader (profile).
ghost use Rattle.std.specs.Prelude.{◌≡◌, [], true, false, Ok, IfOk, IfErr};
ghost use Rattle.line_feed.specs.Reading.{Looks, IsReady, IsNotReady, ReadsNoMore, unread};
ghost use Rattle.line_feed.specs.declared.feed_fault.FeedFault.TheVariants.{OutOfMemory};

use crate::arrival::Arrival;
use crate::feed::{Feed, Next};
use crate::feed_fault::{FeedFault, NotKept};
use crate::held::Held;
use crate::source::Source;
use crate::taking::{has_line, read_on, take_next};
use std::alloc::Global;
use std::io::Read;
use std::marker::Model;
use uecp_text::TextFault;

/// The lines of a reader. It takes memory for one line when it is made, and none after that. It reads at most 4096
/// bytes at a time, and only where no whole line is held. Before a read that may wait it waits by its arrival. Once the
/// reader was at its end it is not read again; a read that was interrupted is made again. Contracts see it as one
/// value, `Reads`.
#[derive(Drop)]
pub struct LineFeed<R: Read, A: Arrival> {
    held: Held,
    source: Source<R>,
    arrival: A,
}

impl<R: Read, A: Arrival> Model for LineFeed<R, A> {
    ghost use Rattle.line_feed.specs.Reading.{Reads};

    ghost Value = { Reads A };

    ghost view = { λ f. record { held = f.held; reader = f.source; arrival = f.arrival } };
}

impl<R: Read + Drop, A: Arrival + Drop> LineFeed<R, A> {
    /// The lines of this reader, which was not read yet.
    ///
    /// Errors: `OutOfMemory`.
    pub fn new(alloc: Global, reader: R, arrival: A) -> Result<LineFeed<R, A>, FeedFault>
        ensures left { IfOk result (λ feed. unread feed ≡ R.remaining reader) }
        ensures begun { IfOk result (λ feed. feed ≡ record {
          held = [];
          reader = record { left = R.remaining reader; ended = false; failed = false };
          arrival = arrival;
        }) }
        ensures fault { IfErr result (λ fault. fault ≡ OutOfMemory) }
    {
        let held = Held::new(alloc)?;
        Ok(LineFeed {
            held,
            source: Source::new(reader),
            arrival,
        })
    }
}

impl<R: Read, A: Arrival> LineFeed<R, A> {
    /// Whether the next line can be told without a read.
    fn is_held(&self) -> bool
        ensures ready { result ≡ true → IsReady self.now }
        ensures else_not { result ≡ false → IsNotReady self.now }
    {
        self.source.is_done() || has_line(self.held.as_slice())
    }
}

impl<R: Read, A: Arrival> Feed for LineFeed<R, A> {
    ghost remaining = { λ f. unread f };

    ghost takes = { λ f answer line f'. ReadsNoMore f f' };

    ghost says = { λ f there f'. Looks A.answers f there f' };

    // nothing is done
    ghost passes = { λ f refusal kept f'. (kept ≡ Ok tt) × (f' ≡ f) };

    fn next(&mut self, line: &mut Vec<u8>) -> Result<Next, FeedFault> {
        take_next(&mut self.held, &mut self.source, &mut self.arrival, line)
    }

    fn is_there(&mut self) -> bool {
        if self.is_held() {
            return true;
        }
        if !self.arrival.wait(Some(0)) {
            return false;
        }
        read_on(&mut self.held, &mut self.source);
        self.is_held()
    }

    fn pass_over(
        &mut self,
        _number: usize,
        _fault: &TextFault,
        _line: &[u8],
    ) -> Result<(), NotKept> {
        Ok(())
    }

    fn pause(&mut self, milliseconds: u64) {
        self.arrival.pause(milliseconds);
    }
}
