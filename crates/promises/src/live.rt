//! What a whole run leaves of a server whose lines come as they like, with its state kept: which lines were taken, and
//! what a crash leaves of the server.
ghost use Rattle.promises.specs.LiveLaws.{DoneIsKept, WhatACrashLeaves, ToldIsTaken, TakenInBatches, InBatches};

use line_feed::Feed;
use sending::Source;
use uecp_encoder::Keep;
use uecp_net::{Connections, SavedServer};

/// A run that ended with status 0, 1 or 4 took all lines of its input, or with `strict` all up to one that was refused,
/// and all that they gave is kept: whatever a crash leaves of the server is joined, counts as taken each message of
/// these lines and those that were taken before, and no other, and none waits.
///
/// Its premises: what was kept at the start is the server, and that of the keeper holds up to the end.
pub fn done_is_kept<F: Feed, K: Keep<SavedServer>, C: Connections>()
    ensures { DoneIsKept F.remaining F.takes F.says F.passes C.opens C.closes C.Input.remaining C.Output.contents
        K.leaves
        K.is_clean
        K.saves K.fails }
{}

/// However a run ended, or was cut within, a crash leaves the server as it was; or a new one that is not joined and
/// holds nothing, where it began anew; or one that came from such a beginning by calls of `settle_kept` and `send_kept`
/// alone, each from what the one before left, so that the laws of those hold of it. It counts as taken some of the
/// messages of the lines that were taken, besides those that were taken before.
///
/// Its premises: what was kept at the start is the server, and that of the keeper holds up to the end.
pub fn what_a_crash_leaves<F: Feed, K: Keep<SavedServer>, C: Connections>()
    ensures { WhatACrashLeaves F.remaining F.takes F.says F.passes C.opens C.closes C.Input.remaining C.Output.contents
        K.leaves
        K.is_clean
        K.saves K.fails }
{}

/// A run that ended with status 0, 1 or 4 took all lines of its input, or with `strict` all up to one that was refused:
/// each of them gave nothing, or was refused, and that was said, or gave a message. And what it wrote, behind the lines
/// on the server and on what waited at the start, is one line for each of these messages, in order and under its
/// number: a code, in JSON with the message itself, or that it is unknown. In between stands at most what is told of an
/// encoder that was taken for a new one, and then joined. The status is 1 where a line was refused; else 0, and then
/// each message is told to be applied; or 4.
///
/// It has no premise of the keeper.
pub fn told_is_taken<F: Feed, K: Keep<SavedServer>, C: Connections>()
    ensures { ToldIsTaken F.remaining F.takes F.says F.passes C.opens C.closes C.Input.remaining C.Output.contents
        K.leaves
        K.is_clean
        K.saves K.fails }
{}

/// However a run ended it took its lines batch by batch, and between two batches nothing was taken of the feed, and
/// nothing asked of it. So no line waits while a batch that has a message could have gone, and no message waits for a
/// line that has not come: a batch takes a further line behind its first message only where the feed had just said that
/// one is there, and one that goes on short of as many messages as it may have went where the feed had just said that
/// none is.
///
/// It has no premise.
pub fn taken_in_batches<F: Feed, K: Keep<SavedServer>, C: Connections>()
    ensures { TakenInBatches F.remaining F.takes F.says F.passes C.opens C.closes C.Input.remaining C.Output.contents
        K.leaves
        K.is_clean K.saves K.fails }
{}

/// However a run ended, wherever its batches come from, as messages that are all there, it took them one after another,
/// each from where the one before ended, and between two of them nothing was taken.
///
/// It has no premise.
pub fn any_in_batches<S: Source, K: Keep<SavedServer>, C: Connections>()
    ensures { (how : S.How) → InBatches (S.takes how) C.opens C.closes C.Input.remaining C.Output.contents K.leaves
        K.is_clean K.saves K.fails }
{}
