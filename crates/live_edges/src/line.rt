//! What the two ends of a connection know together, and who made it (profile).

use crate::awaited::Awaited;
use crate::patience::{Patience, Wait};
use std::cell::Cell;
use std::time::Clock;
use uecp_frame::Address;

/// How a line stands that is waited for, and which of its frames wait for their replies. Whoever makes the connections
/// has it, and each end of one; no contract says what it holds.
#[derive(Drop)]
pub(crate) struct Line {
    wait: Cell<Wait>,
    awaited: Cell<Option<Awaited>>,
}

impl Line {
    /// Nothing waited yet, and there is no connection.
    pub(crate) fn new() -> Line {
        Line {
            wait: Cell::new(Wait::new()),
            awaited: Cell::new(None),
        }
    }

    /// What waited on it last: nobody uses it any more.
    pub(crate) fn finish(self) -> Option<Awaited> {
        self.awaited.into_inner()
    }

    /// How it stands.
    pub(crate) fn wait(&self) -> Wait {
        self.wait.get()
    }

    /// It stands so from now on.
    pub(crate) fn stands(&self, wait: Wait) {
        self.wait.set(wait);
    }

    /// A connection was made, to the encoder at this address, on which nothing waits yet. With no address no reply
    /// counts.
    pub(crate) fn made(&self, address: Option<Address>, now: u64) {
        self.awaited.set(address.map(Awaited::new));
        let mut wait = self.wait();
        wait.made(now);
        self.stands(wait);
    }

    /// The connection is used now: whether it may be written to.
    pub(crate) fn may_be_written(&self, patience: &Patience, now: u64) -> bool {
        !self.used(now).is_spent(patience, now)
    }

    /// The connection is used now: whether it may be read of.
    pub(crate) fn may_be_read(&self, patience: &Patience, now: u64) -> bool {
        !self.used(now).is_cut(patience, now)
    }

    /// Something waits on the connection now.
    fn used(&self, now: u64) -> Wait {
        let mut wait = self.wait();
        wait.used(now);
        self.stands(wait);
        wait
    }

    /// These bytes were written.
    pub(crate) fn wrote(&self, bytes: &[u8]) {
        if let Some(mut awaited) = self.awaited.take() {
            awaited.wrote(bytes);
            self.awaited.set(Some(awaited));
        }
    }

    /// These bytes were read: whether a reply came with them to a frame that waited.
    pub(crate) fn heard(&self, bytes: &[u8]) -> bool {
        let Some(mut awaited) = self.awaited.take() else {
            return false;
        };
        let is_answered = awaited.heard(bytes);
        self.awaited.set(Some(awaited));
        if is_answered {
            let mut wait = self.wait();
            wait.answered();
            self.stands(wait);
        }
        is_answered
    }
}

/// The milliseconds of a clock that never goes back; 0 where it tells no time.
pub(crate) fn now<C: Clock>(clock: &C) -> u64 {
    match clock.monotonic() {
        Ok(time) => time
            .as_secs()
            .saturating_mul(1000)
            .saturating_add(u64::from(time.subsec_millis())),
        Err(_) => 0,
    }
}
