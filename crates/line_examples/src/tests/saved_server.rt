//! A server over a keeper that fails where it is told to, and connections whose replies are known.

use crate::tests::asserting::{holds, same};
use arrayvec::ArrayVec;
use faulty_io::{APPLIED_1, FaultyReader, FaultyWriter, own_address, reply_made};
use std::process::Abort;
use std::test::Fail;
use uecp_elements::Code;
use uecp_encoder::{Keep, SaveFailed};
use uecp_frame::Message;
use uecp_link::Server;
use uecp_net::{
    Connections, KeptOutstanding, Limits, Outstanding, Progress, SavedServer, Sender, join_kept,
    send_kept, settle_kept,
};

/// One try over one connection, with no other.
const ONCE: Limits = Limits {
    tries: 1,
    turns: 8,
    reconnects: 0,
    reconnect_silent: false,
};
/// A file that is new.
const NEW: Progress = Progress {
    taken: 0,
    joined: false,
};

/// Keeps nothing but what was saved last, and fails where it is told to. It says of no crash what one leaves.
#[derive(Drop)]
struct FaultyKeeper<'a> {
    /// How many saves were made.
    saves: u32,
    /// How many messages waited at the save before the last, and at the last.
    waiting: (usize, usize),
    /// The progress that was saved last.
    progress: Progress,
    /// The saves that fail, counted from 1.
    failing: &'a [u32],
}

impl<'a> FaultyKeeper<'a> {
    fn new(failing: &'a [u32]) -> FaultyKeeper<'a> {
        FaultyKeeper {
            saves: 0,
            waiting: (0, 0),
            progress: NEW,
            failing,
        }
    }
}

impl Keep<SavedServer> for FaultyKeeper<'_> {
    ghost leaves = { λ _ _. Unit {0} };

    ghost is_clean = { λ _. ⊥ };

    ghost saves = { λ _ _ _. Unit {0} };

    ghost fails = { λ _ _ _. Unit {0} };

    fn save(&mut self, server: &Server, progress: Progress) -> Result<(), SaveFailed> {
        self.saves = self.saves.saturating_add(1);
        self.waiting = (self.waiting.1, server.waiting());
        self.progress = progress;
        if self.failing.contains(&self.saves) {
            return Err(SaveFailed);
        }
        Ok(())
    }
}

/// Connections whose inputs are known, one after another.
#[derive(Drop)]
struct Prepared<'a> {
    inputs: &'a [&'a [u8]],
    /// How many were opened.
    opened: usize,
    /// What was written to the last that was closed.
    output: Option<FaultyWriter<'a>>,
}

impl<'a> Prepared<'a> {
    fn new(inputs: &'a [&'a [u8]]) -> Prepared<'a> {
        Prepared {
            inputs,
            opened: 0,
            output: None,
        }
    }
}

impl<'a> Connections for Prepared<'a> {
    type Input = FaultyReader<'a>;

    type Output = FaultyWriter<'a>;

    ghost opens = { λ _ _ _. Unit {0} };

    ghost closes = { λ _ _ _ _. Unit {0} };

    fn open(&mut self) -> Option<(FaultyReader<'a>, FaultyWriter<'a>)> {
        let input = self.inputs.get(self.opened)?;
        self.opened = self.opened.saturating_add(1);
        Some((FaultyReader::new(input), FaultyWriter::new()))
    }

    fn close(&mut self, _input: FaultyReader<'a>, output: FaultyWriter<'a>) {
        self.output = Some(output);
    }
}

/// No element, counters 01 and 02.
const BOTH: [u8; 16] = *b"\xFE\x00\x41\x01\x00\x62\x93\xFF\xFE\x00\x41\x02\x00\x37\xC0\xFF";
/// Code 00 to counters 01 and 02.
const BOTH_APPLIED: [u8; 22] =
    *b"\xFE\x00\x41\x00\x03\x18\x00\x01\x40\xBE\xFF\xFE\x00\x41\x00\x03\x18\x00\x02\x70\xDD\xFF";
/// Two messages were taken.
const TWO: Progress = Progress {
    taken: 2,
    joined: false,
};

/// A new server sends two empty messages, and it ends so: None where both are acknowledged.
fn sends_two<K: Keep<SavedServer>, C: Connections>(
    rt: &impl Abort,
    keeper: &mut K,
    connect: &mut C,
) -> Option<KeptOutstanding> {
    let mut sender = Sender::new(connect, Server::new(own_address()), ONCE);
    let mut progress = NEW;
    let batch = [Message::new(), Message::new()];
    let ended = match send_kept(&mut sender, keeper, &mut progress, &batch) {
        Ok(settled) => {
            same!(*rt;
                settled.codes.as_slice(),
                [Code::Applied, Code::Applied].as_slice()
            );
            None
        }
        Err(fault) => Some(fault),
    };
    same!(*rt; progress, TWO);
    let _connect = sender.finish();
    ended
}

/// Both were written to the last connection.
fn has_both(rt: &impl Abort, connect: &Prepared<'_>) {
    let output = connect.output.as_ref().expect(rt, "an output");
    same!(*rt; output.taken(), BOTH.as_slice());
}

#[test]
fn a_batch_is_saved_before_it_is_sent_and_before_it_is_told(rt: HostRuntime) {
    let mut keeper = FaultyKeeper::new(&[]);
    let mut connect = Prepared::new(&[&BOTH_APPLIED]);
    same!(rt; sends_two(&rt, &mut keeper, &mut connect), None);
    same!(rt; (keeper.saves, keeper.waiting), (2, (2, 0)));
    same!(rt; keeper.progress, TWO);
    has_both(&rt, &connect);
}

#[test]
fn nothing_is_sent_where_the_first_save_fails(rt: HostRuntime) {
    let mut keeper = FaultyKeeper::new(&[1]);
    let mut connect = Prepared::new(&[&BOTH_APPLIED]);
    let ended = sends_two(&rt, &mut keeper, &mut connect);
    same!(rt; ended, Some(KeptOutstanding::StateFailed));
    same!(rt; (keeper.saves, connect.opened), (1, 0));
}

#[test]
fn nothing_is_told_where_the_second_save_fails(rt: HostRuntime) {
    let mut keeper = FaultyKeeper::new(&[2]);
    let mut connect = Prepared::new(&[&BOTH_APPLIED]);
    let ended = sends_two(&rt, &mut keeper, &mut connect);
    same!(rt; ended, Some(KeptOutstanding::StateFailed));
    same!(rt; (keeper.saves, keeper.waiting), (2, (2, 0)));
    has_both(&rt, &connect);
}

/// A new server sends two empty messages, which are outstanding, and then acknowledged on the next connection.
fn sends_again<K: Keep<SavedServer>, C: Connections>(
    rt: &impl Abort,
    keeper: &mut K,
    connect: &mut C,
) {
    let mut sender = Sender::new(connect, Server::new(own_address()), ONCE);
    let mut progress = NEW;
    let batch = [Message::new(), Message::new()];
    let Err(fault) = send_kept(&mut sender, keeper, &mut progress, &batch) else {
        holds!(*rt; false, "acknowledged");
        return;
    };
    same!(*rt;
        fault,
        KeptOutstanding::Outstanding(Outstanding::ConnectionFailed)
    );
    holds!(*rt; !sender.server().is_idle());
    let settled = settle_kept(&mut sender, keeper, progress);
    holds!(*rt; settled.is_ok());
    let _connect = sender.finish();
}

#[test]
fn what_is_outstanding_is_sent_again_and_saved(rt: HostRuntime) {
    let mut keeper = FaultyKeeper::new(&[]);
    let mut connect = Prepared::new(&[b"", &BOTH_APPLIED]);
    sends_again(&rt, &mut keeper, &mut connect);
    same!(rt; (keeper.saves, keeper.waiting), (3, (2, 0)));
    has_both(&rt, &connect);
}

/// A new server joins, and it ends so, with this progress.
fn joins<K: Keep<SavedServer>, C: Connections>(
    keeper: &mut K,
    connect: &mut C,
) -> (Result<(), KeptOutstanding>, Progress) {
    let mut sender = Sender::new(connect, Server::new(own_address()), ONCE);
    let mut progress = NEW;
    let ended = join_kept(&mut sender, keeper, &mut progress);
    let _connect = sender.finish();
    (ended, progress)
}

/// Code 00 to counters 81 and FF.
fn both_replies() -> ArrayVec<u8, 32> {
    let mut replies = ArrayVec::new();
    for counter in [0x81, 0xff] {
        let _ = replies.try_extend_from_slice(reply_made(0x00, counter).as_slice());
    }
    replies
}

#[test]
fn a_pass_that_is_complete_is_saved(rt: HostRuntime) {
    let mut keeper = FaultyKeeper::new(&[]);
    let replies = both_replies();
    let inputs = [replies.as_slice()];
    let mut connect = Prepared::new(&inputs);
    let (ended, progress) = joins(&mut keeper, &mut connect);
    same!(rt; ended, Ok(()));
    same!(rt;
        (keeper.saves, progress.joined, keeper.progress.joined),
        (1, true, true)
    );
}

#[test]
fn a_pass_that_is_not_complete_saves_nothing(rt: HostRuntime) {
    let mut keeper = FaultyKeeper::new(&[]);
    let mut connect = Prepared::new(&[&APPLIED_1]);
    let (ended, progress) = joins(&mut keeper, &mut connect);
    same!(rt;
        ended,
        Err(KeptOutstanding::Outstanding(Outstanding::ConnectionFailed))
    );
    same!(rt; (keeper.saves, progress), (0, NEW));
}
