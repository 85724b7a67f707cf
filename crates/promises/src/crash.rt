//! Both ends of an RDS encoder's control line (RDS Forum SPB 490, two-way mode), each with its state in a file: over
//! every list of events of the line, of saves and of crashes of either end at any moment, each followed by a start from
//! the file, the line holds what a line without a crash holds.
ghost use Rattle.promises.specs.CrashLaws.{CrashesAreLineEvents, HeadlineWithDisks, AcknowledgedAfterAnyCrash};
ghost use Rattle.promises.specs.CrashLaws.{WhatIsLeftIsACut, WhatIsLeftIsAFile};
ghost use Rattle.promises.specs.Epochs.{HeadlineOverEpochs};

use uecp_encoder::Target;
use uecp_net::Connections;

/// A crash is an event of a line. Over every list of events and crashes, each crash followed by a start from the file,
/// the ends come to exactly what they come to by some events of a line without a crash, with the same history. (These
/// are, in the proof: the events but what was lost with an end's memory, and for each crash the restart of an end that
/// kept all.)
///
/// The encoder at first is new, or has joined, and the server is new; each file holds its end.
pub fn crashes_are_line_events<T: Target>()
    ensures { CrashesAreLineEvents T.step T.taken }
{}

/// The headline of `uecp_link`, word for word, over every list of events and crashes: the encoder's store is what a
/// prefix of the sent messages with the takes between makes, each applied once and in order; every acknowledged message
/// is in it with its one reply, and every message that is missing is still outstanding. A message is sent once the
/// server's file has it: before that no byte of it leaves. Whatever was told to be acknowledged is acknowledged, in the
/// server's memory and in its file, after any crash too, and a code that was told is that of the message's own reply;
/// and of the messages that were sent the file has each that it does not show to be acknowledged.
///
/// The file may have counted any number of lines before, as of servers before this one.
pub fn headline_with_disks<T: Target>()
    ensures { HeadlineWithDisks T.step T.taken }
{}

/// Over any number of beginnings anew, at each of which the server gives up what waits, and its encoder, or another one
/// in its place, was joined: from each up to the next the headline holds, of the messages that were sent in between and
/// the store that the encoder had; and of each line, by its number in the file, one thing at most is told.
///
/// How a join comes about is no event here: its premise is an encoder that is ready, as
/// [`joined_over_a_line`](uecp_link::laws::joined_over_a_line) says of a complete pass. What is given up, or of a
/// station that a crash cut is sent again, is outstanding in the epoch before.
pub fn headline_over_epochs<T: Target>()
    ensures { HeadlineOverEpochs T.step T.taken }
{}

/// No crash stops the line: whatever happened and crashed, where nothing is lost any more and no end crashes, every
/// message that was sent is acknowledged once the frame of each that is outstanding came, and the reply to each.
pub fn acknowledged_after_any_crash<T: Target>()
    ensures { AcknowledgedAfterAnyCrash T.step T.taken }
{}

/// What `serve_with` says that a crash may leave of an encoder, over a connection on which events bring what comes or
/// of a take, is its file here after a crash within one of these events.
pub fn what_is_left_is_a_cut<T: Target>()
    ensures { WhatIsLeftIsACut T.step T.taken }
{}

/// What `uecp_net` says that a crash may leave of a server, of a batch or of what was outstanding, is its file
/// here: as it was, with the batch submitted, or after one more save.
pub fn what_is_left_is_a_file<T: Target, C: Connections>()
    ensures { WhatIsLeftIsAFile C C.Input C.Output T.step T.taken }
{}
