//! How long is waited (profile).
ghost use Rattle.std.specs.Prelude.{◌≡◌, ◌<◌, ◌^◌, ◌&&◌};
ghost use Rattle.air_edges.specs.Edge.{is_silent, wait_limit};

use crate::pace::Pace;

/// Whether a connection is open on which something came last at `heard`, and it was silent for too long now.
pub(crate) fn is_silent(is_open: bool, idle: Option<u32>, heard: u64, now: u64) -> bool
    ensures { result ≡ (is_open && is_silent idle heard now) }
{
    match idle {
        Some(seconds) => is_open && u64::from(seconds) * 1000 <= now.saturating_sub(heard),
        None => false,
    }
}

/// How many milliseconds are waited at most.
pub(crate) fn wait_limit(is_open: bool, idle: Option<u32>, heard: u64, pace: &Pace, now: u64) -> u64
    requires { now < 2 ^ 58 }
    ensures { result ≡ wait_limit is_open idle heard pace.now now }
{
    let until_due = pace.wait(now);
    match idle {
        Some(seconds) if is_open => {
            let patience = (u64::from(seconds) * 1000).saturating_sub(now.saturating_sub(heard));
            until_due.min(patience)
        }
        _ => until_due,
    }
}
