//! Since when announcements are on (profile).
ghost use Rattle.std.specs.Prelude.{◌≡◌, ◌++◌, IfOk, OnOk, map};
ghost use Rattle.page.specs.Announced.{is_its, since_of, announcing, announced_after, seconds_since};
ghost use Rattle.page.specs.StateView.{seen_of};

use crate::state::seen::Seen;
use std::alloc::{AllocError, Global};

/// A service of which an announcement is on.
#[derive(Clone, Copy, Debug)]
pub(crate) struct Announcement {
    /// The data set's number.
    pub(crate) set: u64,
    /// The programme service's number.
    pub(crate) service: u64,
    /// Since when, by the page's clock, in milliseconds.
    pub(crate) since: u64,
}

impl Announcement {
    /// Whether it is of this service.
    fn is_its(&self, set: u64, service: u64) -> bool
        ensures { result ≡ is_its set service self.now }
    {
        self.set == set && self.service == service
    }
}

/// Since when one of this service is on.
pub(crate) fn since_of(list: &[Announcement], set: u64, service: u64) -> Option<u64>
    ensures { result ≡ since_of set service list.now }
{
    for one in list {
        if one.is_its(set, service) {
            return Some(one.since);
        }
    }
    None
}

/// Which are on behind an object that came then, of those that were on before: of each service of which TA is shown as
/// on, since when it was on, or since then.
#[tactic(auto, unfolding(crate::specs::Announced::announced_after))]
pub(crate) fn announced_after(
    alloc: Global,
    came: u64,
    behind: &[Seen],
    before: &[Announcement],
) -> Result<Vec<Announcement>, AllocError>
    ensures { IfOk result (λ list. list.items ≡ announced_after came (map seen_of behind.now) before.now) }
{
    let mut list = Vec::new(alloc);
    for one in behind {
        put_announcement(came, before, one, &mut list)?;
    }
    Ok(list)
}

/// Adds that of a service, where one is on.
fn put_announcement(
    came: u64,
    before: &[Announcement],
    one: &Seen,
    list: &mut Vec<Announcement>,
) -> Result<(), AllocError>
    ensures { OnOk result (list.new.items ≡ list.old.items ++ announcing came before.now (seen_of one.now)) }
{
    if one.ta == Some(true) {
        list.push(Announcement {
            set: one.set,
            service: one.service,
            since: since_of(before, one.set, one.service).unwrap_or(came),
        })?;
    }
    Ok(())
}

/// How many whole seconds ago that was.
pub(crate) fn seconds_since(now: u64, since: u64) -> u64
    ensures { result ≡ seconds_since now since }
{
    now.saturating_sub(since) / 1000
}
