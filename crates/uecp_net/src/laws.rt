//! Laws of the definitions, each the contract of a function that does nothing.
ghost use Rattle.uecp_net.specs.Laws.{GoesOnAsItWas, LosesNoMessage, LosesNoneOutstanding, SendsNoneAgain};
ghost use Rattle.uecp_net.specs.Laws.{WaitsInEveryFile, NumbersByPlace, BeginsAnewOrIsJoined};

use crate::connect::Connections;
use crate::saved::SavedServer;
use uecp_encoder::Keep;

/// A server that goes on from what was kept is the one that was saved, as the next connection finds it, but that
/// nothing is counted: it lends the very frames of the messages that waited, byte for byte and under the same counters,
/// numbers the next message as that server would, and says the same to whatever it hears.
pub fn goes_on_as_it_was()
    ensures { GoesOnAsItWas }
{}

/// A crash loses no message. Whatever [`send_kept`](crate::send_kept) did with a batch, and whatever a crash leaves of
/// it: where a connection was opened or a byte written, each message of the batch, and each that waited before, waits
/// at a server that goes on from that, or its acknowledgement came; and the batch is not taken from the input again.
/// Else the batch may be left out as a whole: then it is taken again, and no byte of it was written.
pub fn loses_no_message<K: Keep<SavedServer>, C: Connections>()
    ensures { LosesNoMessage C.opens C.closes C.Input.remaining C.Output.contents K.saves K.fails }
{}

/// A crash loses no outstanding message either. Whatever [`settle_kept`](crate::settle_kept) did, and whatever a crash
/// leaves of it: each message that waited waits at a server that goes on from that, under its counter, or its
/// acknowledgement came.
pub fn loses_none_outstanding<K: Keep<SavedServer>, C: Connections>()
    ensures { LosesNoneOutstanding C.opens C.closes C.Input.remaining C.Output.contents K.saves K.fails }
{}

/// Over any number of calls and crashes each message that waits once waits in every file, until its acknowledgement
/// came. With [`loses_no_message`] that holds of each message of which a byte was written.
pub fn waits_in_every_file<K: Keep<SavedServer>, C: Connections>()
    ensures { WaitsInEveryFile C.opens C.closes C.Input.remaining C.Output.contents K.saves K.fails }
{}

/// Over any number of calls and crashes the messages of the input are numbered by their places, from counter 01 on: so
/// a message is sent under one counter alone, and none is left out.
pub fn numbers_by_place<K: Keep<SavedServer>, C: Connections>()
    ensures { NumbersByPlace C.opens C.closes C.Input.remaining C.Output.contents K.saves K.fails }
{}

/// A message whose acknowledgement was told is not sent again: a server that goes on from what is kept then lends no
/// frame.
pub fn told_is_not_sent_again<C: Connections>()
    ensures { SendsNoneAgain C.opens C.closes C.Input.remaining C.Output.contents }
{}

/// A pass that a crash cut begins anew: where no pass was complete, what the crash left says that the encoder is not
/// joined, and holds nothing. Where it says that it is joined a pass was complete, and the next message has counter 01.
pub fn a_cut_pass_begins_anew<C: Connections>()
    ensures { BeginsAnewOrIsJoined C.opens C.closes C.Input.remaining C.Output.contents }
{}
