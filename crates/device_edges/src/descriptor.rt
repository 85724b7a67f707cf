//! Whether a descriptor takes more, by a poll. Nothing is claimed of what it answers (profile).

use crate::outlet::Taker;
use libc::net::{POLLOUT, poll};
use libc::types::pollfd;
use std::os::fd::RawFd;

/// The longest wait of one poll, in milliseconds.
const POLL_MAX: u64 = 1_000_000_000;

/// A descriptor that is written to. A file always takes more; and one that is closed, or that nobody can read any more,
/// takes it too, so that a write tells what is wrong.
#[derive(Clone, Copy, Debug)]
pub struct Descriptor {
    fd: RawFd,
}

impl Descriptor {
    /// This one.
    pub fn new(fd: RawFd) -> Descriptor {
        Descriptor { fd }
    }
}

impl Taker for Descriptor {
    fn takes(&mut self, milliseconds: u64) -> bool {
        let mut asked = [pollfd {
            fd: self.fd,
            events: POLLOUT,
            revents: 0,
        }];
        let timeout = i32::try_from(milliseconds.min(POLL_MAX)).unwrap_or(i32::MAX);
        poll(&mut asked, timeout) > 0
    }
}
