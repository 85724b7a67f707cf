//! What a run of `send` leaves and tells, as the program makes it over TCP: its clause is that of `run_send_over_tcp`.
ghost use Rattle.promises.specs.SendLaws.{SentIsKept, SentOutlives, SentIsTold};

use line_feed::Arrival;
use state_jobs::OpenStates;
use std::io::{Read, Write};
use std::net::TcpStream;

/// A run that ended with status 0, 1 or 4, and whose state is in a file, took all lines of its input, or with `strict`
/// all up to one that was refused, and all that they gave is kept: whatever a crash leaves behind the last save is
/// joined, counts as taken each message of these lines and those that were taken before, and no other, and none waits.
///
/// Its premise: that of the keeper holds up to the end. That what is kept at the start is the server which the run goes
/// on from is the clause of who opens the file.
pub fn sent_is_kept<A: Arrival, S: OpenStates>(states: &S)
    ensures { SentIsKept A.answers ⟦<TcpStream as Read>⟧.remaining ⟦<TcpStream as Write>⟧.contents
        (S.gives_server states.now) (S.refuses_server states.now) (S.closes_server states.now) S.ServerKeeper.leaves
        S.ServerKeeper.is_clean S.ServerKeeper.saves S.ServerKeeper.fails }
{}

/// However a run ended, or was cut within, nothing was begun; or a crash leaves of its file what
/// [`what_a_crash_leaves`](crate::live::what_a_crash_leaves) says.
///
/// Its premise: that of the keeper holds up to the end.
pub fn sent_outlives<A: Arrival, S: OpenStates>(states: &S)
    ensures { SentOutlives A.answers ⟦<TcpStream as Read>⟧.remaining ⟦<TcpStream as Write>⟧.contents
        (S.gives_server states.now) (S.refuses_server states.now) (S.closes_server states.now) S.ServerKeeper.leaves
        S.ServerKeeper.is_clean S.ServerKeeper.saves S.ServerKeeper.fails }
{}

/// A run that ended with status 0, 1 or 4 took all lines of its input, or with `strict` all up to one that was refused,
/// and told of each message one line, as [`told_is_taken`](crate::live::told_is_taken) says; with a state in a file,
/// and with none.
///
/// It has no premise.
pub fn sent_is_told<A: Arrival, S: OpenStates>(states: &S)
    ensures { SentIsTold A.answers ⟦<TcpStream as Read>⟧.remaining ⟦<TcpStream as Write>⟧.contents
        (S.gives_server states.now) (S.refuses_server states.now) (S.closes_server states.now) S.ServerKeeper.leaves
        S.ServerKeeper.is_clean S.ServerKeeper.saves S.ServerKeeper.fails }
{}
