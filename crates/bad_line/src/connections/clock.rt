//! The clock of a line (profile).

use std::thread;
use std::time::{Clock, Duration};

/// The milliseconds of a clock that never goes back; 0 where it tells no time.
pub(crate) fn now<T: Clock>(time: &T) -> u64 {
    match time.monotonic() {
        Ok(time) => time
            .as_secs()
            .saturating_mul(1000)
            .saturating_add(u64::from(time.subsec_millis())),
        Err(_) => 0,
    }
}

/// Sleeps for so many milliseconds, if there are any.
pub(crate) fn hold<T: Clock>(time: &T, milliseconds: u64) {
    if milliseconds > 0 {
        thread::sleep(time, Duration::from_millis(milliseconds));
    }
}
