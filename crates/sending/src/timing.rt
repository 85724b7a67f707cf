//! How long something took. No clause speaks of it.
use std::time::Clock;

/// The milliseconds of a clock that never goes back; 0 where it tells no time.
pub(crate) fn now<T: Clock>(clock: &T) -> u64 {
    match clock.monotonic() {
        Ok(time) => time
            .as_secs()
            .saturating_mul(1000)
            .saturating_add(u64::from(time.subsec_millis())),
        Err(_) => 0,
    }
}

/// How many milliseconds went by since then.
pub(crate) fn milliseconds_since(then: u64, now: u64) -> u64 {
    now.saturating_sub(then)
}
