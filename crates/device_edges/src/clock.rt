//! The time of the system's clock that never goes back (profile).

use libc::types::timespec;
use libc::{CLOCK_MONOTONIC, clock_gettime};

/// The most seconds that are counted.
const SECONDS_MAX: u64 = 1 << 40;

/// How many milliseconds have gone by since some moment, the same for as long as the machine runs; 0 where no clock can
/// be read.
pub(crate) fn now() -> u64 {
    let mut time = timespec {
        tv_sec: 0,
        tv_nsec: 0,
    };
    if clock_gettime(CLOCK_MONOTONIC, &mut time) != 0 {
        return 0;
    }
    let seconds = u64::try_from(time.tv_sec).unwrap_or(0).min(SECONDS_MAX);
    let nanoseconds = u64::try_from(time.tv_nsec).unwrap_or(0).min(999_999_999);
    seconds * 1000 + nanoseconds / 1_000_000
}
