//! Each line once: both ends of the line with their files, and the bytes that are on their way between them, connection
//! by connection. A law over whatever happens at either end; and laws by which the calls that the program makes do just
//! that. No code.
ghost use Rattle.promises.specs.EachLine.{EachLineOnce, EachLineOnceOverStretches, OneTryIsEnough, EachEndIsItsOwn};
ghost use Rattle.std.specs.Prelude.{ℕ};
ghost use Rattle.promises.specs.Doings.{StudioDoes, RunsAreEvents, EachIsNumbered, RunsTell, JoinsBegin, StationBegins};
ghost use Rattle.promises.specs.Doings.{DaysAreEndEvents};
ghost use Rattle.promises.specs.Display.{EachLineIsShown};
ghost use Rattle.promises.specs.Histories.{FourHistories};

use sending::Source;
use uecp_encoder::{Keep, Target};
use uecp_net::{Connections, SavedServer};

/// Whatever happens: lines are taken, connections dialled, frames written, bytes read at either end, in any pieces, or
/// lost with a connection; either end crashes at any moment and goes on from its file; groups go on the air. Then the
/// encoder's store is what a beginning of the lines taken makes, each once and in order, with the groups taken between.
/// Each line that was told with a code is in that beginning, and got that code. Each line that is not in it waits in
/// the studio's file, under its counter; and that file counts the lines taken, and no other.
///
/// Its premise on the outside (`MayHappen`): what an end reads of a connection is a beginning of what the other end
/// wrote on it; the encoder takes connections in the order in which they were dialled; and a connection that is of
/// nobody here brings no message for this encoder. That nothing comes too late is no premise: it follows, since each
/// frame is read behind those that were written before it, and of messages at most eight wait.
///
/// At first the encoder is ready, as a new one is or one that was joined, and the server is new.
pub fn each_line_once<T: Target>()
    ensures { EachLineOnce T.step T.taken }
{}

/// So it is in each of any number of stretches, one behind another, each from a beginning anew: there the encoder has
/// the store that was left, or, where it is a new one or lost its file, the opening one. What waited at a beginning
/// anew is given up, and a station that a crash cut is sent again: both are of the stretch before. And of each line, by
/// its number in the studio's file, one code is told at most, over all of them.
pub fn each_line_once_over_stretches<T: Target>()
    ensures { EachLineOnceOverStretches T.step T.taken }
{}

/// And a receiver shows what these lines made: of RDS stores, from one that can be, where each line is of bytes, the
/// store is again one that can be, and while nothing more comes a receiver shows its main service and its text, as
/// [`what_is_taken_is_shown`](crate::display::what_is_taken_is_shown) says.
pub fn each_line_is_shown()
    ensures { EachLineIsShown }
{}

/// And where a connection holds, one try is enough. Whatever happened before, the encoder may leave its connections,
/// and the studio dial, write what waits, have all of it read, hear all that is answered, and tell: then all lines that
/// were taken made the store, each that waited was told, and none waits, at the studio or in its file. So what is lost
/// is lost for a while: nothing that may happen brings the ends where they can't go on.
pub fn one_try_is_enough<T: Target>()
    ensures { OneTryIsEnough T.step T.taken }
{}

/// What an end comes to is what its own events make of it: the other one reaches it by bytes alone. So where a run of
/// the studio does some events ([`run_is_events`]), and one of the encoder some others ([`transmitter_does`]),
/// [`each_line_once`] is of both, in whichever order they fell in which each byte was read behind its writing.
pub fn each_end_is_its_own<T: Target>()
    ensures { EachEndIsItsOwn T.step T.taken }
{}

/// What the clauses of `uecp_net` say of calls of `settle_kept` and `send_kept`, and of the connections on which they
/// send, is done by such events, with the bytes that were written and read; what is told of each message is what the
/// studio then told under its number; and what a crash leaves within a call is the file behind such events and a crash.
///
/// Its premise: the studio has the server and the file with which the call begins.
pub fn studio_does<C: Connections, K: Keep<SavedServer>>()
    ensures { StudioDoes C.opens C.closes C.Input.remaining C.Output.contents K.saves K.fails }
{}

/// A run of [`run_live`](sending::run_live), however it ended, is such events, once its encoder was joined or has not
/// to be (`RunsOn` of its clause, of one sender): of the batches that it took, one after another; and whatever a crash
/// leaves of it is the file behind such events, with some first of these lines taken.
///
/// Its premises: the studio has the server and the file with which the run begins; and for a crash, that what was kept
/// then is that server, and that of the keeper holds up to the end.
pub fn run_is_events<S: Source, K: Keep<SavedServer>, C: Connections>()
    ensures { (how : S.How) → RunsAreEvents (S.takes how) C.opens C.closes C.Input.remaining C.Output.contents K.leaves
        K.is_clean K.saves K.fails }
{}

/// A studio counts as its server does, whatever happened: the last counter is that of its last message, and of none
/// that is to come anything was heard or told.
pub fn each_is_numbered<T: Target>()
    ensures { EachIsNumbered T.step T.taken }
{}

/// What a run tells of its messages is what the theorem says was told of them: from a studio of which no message waits,
/// turn by turn, each batch is such events, and what the writer got are the lines of its messages, each under its
/// number in the file, with the code that the studio then has told of that message. So `3 applied` is told of the third
/// message that the file counts, and its code is its own.
///
/// Its premise: the studio has the server and the file with which the turns begin, and is numbered, as each is
/// ([`each_is_numbered`]); and a batch has at most eight messages. It is not of what waited when the run began.
pub fn told_by_number<S: Source, K: Keep<SavedServer>, C: Connections>()
    ensures { (how : S.How) → (size : ℕ) → RunsTell (S.takes how size) C.opens C.closes C.Input.remaining
        C.Output.contents K.leaves K.is_clean K.saves K.fails }
{}

/// A join begins a stretch: where on its last connection all is over, as
/// [`joined_over_a_line`](uecp_link::laws::joined_over_a_line) says of one that keeps the order of each direction and
/// loses nothing but its end, the server is new, the encoder is ready, with nothing open and its store as it was, and
/// nothing is on its way. So the connection goes on as one that was just dialled.
pub fn join_begins<T: Target, C: Connections>()
    ensures { JoinsBegin T.step C.opens C.closes C.Input.remaining C.Output.contents }
{}

/// A station that went out, as [`station_is_out`](crate::station::station_is_out) says of a run, begins so: with its
/// join, and then with events that say it, batch by batch, of which the file has none until it is saved once, behind
/// them. A crash before that ends the stretch, as the next run begins anew.
pub fn station_begins<T: Target, C: Connections>()
    ensures { StationBegins T.step C.opens C.closes C.Input.remaining C.Output.contents }
{}

/// The days of an encoder are such events at its end. They are what the clauses of the calls come to that serve it:
/// [`device_is_days`](crate::device::device_is_days), [`air_is_days`](crate::device::air_is_days).
pub fn transmitter_does<T: Target>()
    ensures { DaysAreEndEvents T.step T.taken }
{}

/// Four histories, byte by byte, computed: each may happen, and comes out as it should. Each end is killed within a
/// save; a reply is cut off with its connection; a port scanner comes between two connections, with a frame for another
/// encoder; and an encoder comes back with nothing, and is joined anew.
pub fn four_histories()
    ensures { FourHistories }
{}
