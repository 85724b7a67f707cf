//! Messages that are all there before the first is sent. Source: profile.
ghost use Rattle.std.specs.Prelude.{◌≡◌, ◌≤◌, [], length};
ghost use Rattle.state_jobs.specs.Lists.{ended_by};

use line_batches::After;
use sending::Source;
use std::marker::Model;
use std::mem::replace;
use uecp_frame::Message;
use uecp_text::RunFault;

/// Messages that are all there, which are taken in order, as many a batch as there are. Contracts see it as one value,
/// `Listed`.
#[derive(Drop)]
pub(crate) struct Listed<'a> {
    left: &'a [Message],
    batch: &'a [Message],
    /// How the run ends behind the last.
    ends: Result<(), RunFault>,
}

impl<'a> Model for Listed<'a> {
    ghost use Rattle.state_jobs.specs.Lists.{Listed};

    ghost Value = { Listed };

    ghost view = { λ l. record { at = record { left = l.left.now; ends = l.ends }; batch = l.batch.now } };
}

impl<'a> Listed<'a> {
    /// These messages, of which none was taken, behind which a line is refused so, if one is.
    pub(crate) fn new(messages: &'a [Message], refused: Option<RunFault>) -> Listed<'a>
        ensures { result.at ≡ record { left = messages.now; ends = ended_by refused } }
    {
        let (batch, left) = messages.split_at(0);
        Listed {
            left,
            batch,
            ends: ended_by(refused),
        }
    }
}

impl<'a> Source for Listed<'a> {
    ghost use Rattle.state_jobs.specs.Lists.{Listing, FromList};
    ghost use Rattle.std.specs.Prelude.{[]};

    ghost At = { Listing };

    ghost at = { λ l. l.at };

    ghost How = { Unit {0} };

    ghost how = { λ l. tt };

    ghost takes = { λ how. FromList };

    ghost taken = { λ l. l.batch };

    ghost lent = { λ l. [] };

    fn take(&mut self, size: usize) -> After {
        let rest = self.left;
        let (batch, left) = rest.split_at(size.min(rest.len()));
        self.batch = batch;
        self.left = left;
        if left.is_empty() {
            return After::Ends(replace(&mut self.ends, Ok(())));
        }
        After::GoesOn
    }

    fn batch(&self) -> &[Message] {
        self.batch
    }
}

/// How a run ends behind the messages of an input of which this is refused, if anything is.
fn ended_by(refused: Option<RunFault>) -> Result<(), RunFault>
    ensures { result ≡ ended_by refused }
{
    match refused {
        None => Ok(()),
        Some(fault) => Err(fault),
    }
}
