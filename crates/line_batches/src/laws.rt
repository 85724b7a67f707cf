//! Laws of the definitions, each the contract of a function that does nothing.
ghost use Rattle.line_batches.specs.Laws.{AreKept, IsSeen, NoneWaits, WasThere};

use line_feed::Feed;

/// What is seen of a batch that was taken from a feed: its lines were taken one after another from the front of what
/// was left, no byte between two of them, each gives what it says and was counted, and the batch has their messages.
pub fn is_seen<F: Feed>()
    ensures { IsSeen F.remaining F.takes F.says F.passes }
{}

/// Behind a batch that goes on with fewer messages than it may have, the feed had just said that no line is there: none
/// that was there waits while the batch is sent.
pub fn none_waits<F: Feed>()
    ensures { NoneWaits F.remaining F.takes F.says F.passes }
{}

/// A line that was taken behind a message of its batch was there, as the feed had just said: no message waits for a
/// line that has not come.
pub fn was_there<F: Feed>()
    ensures { WasThere F.remaining F.takes F.says F.passes }
{}

/// A feed that keeps what it is told of lines that are refused has each refused one of the lines that were taken, once,
/// in order and under its number, and no other.
pub fn are_kept<F: Feed>()
    ensures { AreKept F.remaining F.takes F.says F.passes }
{}
