//! A feed that keeps the lines that are passed over. Source: profile.
ghost use Rattle.std.specs.Prelude.{◌≡◌, None, IfOk};
ghost use Rattle.send_commands.specs.Passing.{IsRecord, IsText, Keeps, behind_name};

use crate::ledger::{Ledger, LedgerFault};
use crate::refusals::RefusalObjects;
use itoa::Buffer;
use line_feed::{Feed, FeedFault, Next, NotKept};
use std::alloc::Global;
use std::io::Write;
use std::marker::Model;
use std::time::Clock;
use uecp_text::{TextFault, report, write_parts};

/// A feed whose lines that are passed over are kept in a ledger, where there is one: each is written there, and brought
/// to the disk, before the next is taken; and then it is told as an object, of which no contract speaks. Contracts see
/// it as one value, `Kept`.
#[derive(Drop)]
pub struct Passing<'a, F: Feed, L: Ledger, T: Clock, Q: Write> {
    alloc: Global,
    feed: F,
    ledger: Option<L>,
    objects: RefusalObjects<'a, T, Q>,
    fault: Option<LedgerFault>,
}

impl<'a, F: Feed, L: Ledger, T: Clock, Q: Write> Model for Passing<'a, F, L, T, Q> {
    ghost use Rattle.send_commands.specs.Passing.{Kept};

    ghost Value = { Kept F L };

    ghost view = { λ p. record { feed = p.feed; ledger = p.ledger; fault = p.fault } };
}

impl<'a, F: Feed, L: Ledger, T: Clock, Q: Write> Passing<'a, F, L, T, Q> {
    /// The lines of this feed; those that are passed over are kept in this ledger, if there is one, and told so.
    pub(crate) fn new(
        alloc: Global,
        feed: F,
        ledger: Option<L>,
        objects: RefusalObjects<'a, T, Q>,
    ) -> Passing<'a, F, L, T, Q>
        ensures { result ≡ record { feed = feed; ledger = ledger; fault = None } }
    {
        Passing {
            alloc,
            feed,
            ledger,
            objects,
            fault: None,
        }
    }

    /// Why the line that was passed over last could not be kept, if it could not.
    pub(crate) fn fault(&self) -> Option<LedgerFault>
        ensures { result ≡ self.now.fault }
    {
        self.fault
    }
}

impl<'a, F: Feed, L: Ledger, T: Clock, Q: Write> Feed for Passing<'a, F, L, T, Q> {
    ghost use Rattle.send_commands.specs.Passing.{Asks, PassesTo, Takes};

    ghost remaining = { λ p. F.remaining p.feed };

    ghost takes = { Takes F.takes };

    ghost says = { Asks F.says };

    ghost passes = { PassesTo L.writes L.syncs };

    fn next(&mut self, line: &mut Vec<u8>) -> Result<Next, FeedFault> {
        self.feed.next(line)
    }

    fn is_there(&mut self) -> bool {
        self.feed.is_there()
    }

    fn pass_over(&mut self, number: usize, fault: &TextFault, line: &[u8]) -> Result<(), NotKept> {
        if let Some(ledger) = &mut self.ledger {
            if let Err(why) = keep(self.alloc, ledger, number, fault, line) {
                self.fault = Some(why);
                return Err(NotKept);
            }
        }
        self.objects.tell(number, fault, line);
        Ok(())
    }

    fn pause(&mut self, milliseconds: u64) {
        self.feed.pause(milliseconds);
    }
}

/// Keeps a line that is passed over: writes its record, and brings it to the disk.
fn keep<L: Ledger>(
    alloc: Global,
    ledger: &mut L,
    number: usize,
    fault: &TextFault,
    line: &[u8],
) -> Result<(), LedgerFault>
    ensures { IfOk result (λ _. Keeps L.writes L.syncs (record { number = number; fault = fault.now; line = line.now })
        ledger.old ledger.new) }
{
    let record = record_of(alloc, number, fault, line)?;
    ledger.write_record(record.as_slice())?;
    ledger.sync()
}

/// What is kept of a line that is passed over, of this number and for this, of which this is held.
fn record_of(
    alloc: Global,
    number: usize,
    fault: &TextFault,
    line: &[u8],
) -> Result<Vec<u8>, LedgerFault>
    ensures { IfOk result (λ bytes. IsRecord (record { number = number; fault = fault.now; line = line.now })
        bytes.items) }
{
    let mut said = Vec::new(alloc);
    let Ok(()) = report(&fault.at(number), &mut said) else {
        return Err(LedgerFault::OutOfMemory);
    };
    let mut buffer = Buffer::new();
    let digits = buffer.format(number).as_bytes();
    let mut bytes = Vec::new(alloc);
    let Ok(()) = write_parts(
        &[
            digits,
            b"\t",
            behind_name(said.as_slice()),
            b"\t",
            text_of(line),
            b"\n",
        ],
        &mut bytes,
    ) else {
        return Err(LedgerFault::OutOfMemory);
    };
    Ok(bytes)
}

/// What standard error has of a line that is refused, but for the name of the program before it and its line feed.
fn behind_name(said: &[u8]) -> &[u8]
    ensures { result.now ≡ behind_name said.now }
{
    let end = said.len().saturating_sub(1);
    let start = end.min(NAME.len());
    &said[start..end]
}

/// What stands before what is said.
const NAME: &[u8] = b"uecp: ";

/// A line but for its line feed.
fn text_of(line: &[u8]) -> &[u8]
    ensures { IsText line.now result.now }
{
    match line.split_last() {
        Some((last, text)) if *last == b'\n' => text,
        _ => line,
    }
}
