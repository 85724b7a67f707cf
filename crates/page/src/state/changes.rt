//! The history of a control line: what changed on the air as it is shown, and when (profile).
ghost use Rattle.std.specs.Prelude.{◌≡◌, ◌∷◌, [], ◌++◌, OnOk, map, flat_map};
ghost use Rattle.page.specs.Changes.{changed, ended, history_after, last_1000};
ghost use Rattle.page.specs.StateView.{seen_of, change_of, history_of};

use crate::state::rows::{Change, Changes, ROWS_MAX};
use crate::state::seen::{Seen, has_it, was_so};
use std::alloc::{AllocError, Global};
use std::collections::VecDeque;

impl Changes {
    /// Nothing changed yet.
    pub(crate) fn new(alloc: Global) -> Changes
        ensures { history_of result ≡ [] }
    {
        Changes {
            rows: VecDeque::new(alloc),
        }
    }

    /// An object came then: the first of these was shown before it, the other is shown behind it.
    ///
    /// Errors: where memory is refused it may have been noted in part.
    pub(crate) fn note(
        &mut self,
        alloc: Global,
        came: u64,
        before: &[Seen],
        behind: &[Seen],
    ) -> Result<(), AllocError>
        ensures { OnOk result (history_of self.new
            ≡ history_after came (map seen_of before.now) (map seen_of behind.now) (history_of self.old)) }
    {
        self.note_shown(alloc, came, before, behind)?;
        self.note_gone(came, before, behind)
    }

    /// A row for each that is shown, where something else was shown of it before.
    fn note_shown(
        &mut self,
        alloc: Global,
        came: u64,
        before: &[Seen],
        behind: &[Seen],
    ) -> Result<(), AllocError>
        ensures { OnOk result (history_of self.new ≡ last_1000 (history_of self.old
            ++ flat_map (changed came (map seen_of before.now)) (map seen_of behind.now))) }
    {
        for one in behind {
            self.note_one(alloc, came, before, one)?;
        }
        Ok(())
    }

    /// A row for one that is shown, where something else was shown of it before.
    fn note_one(
        &mut self,
        alloc: Global,
        came: u64,
        before: &[Seen],
        one: &Seen,
    ) -> Result<(), AllocError>
        ensures { OnOk result (history_of self.new
            ≡ last_1000 (history_of self.old ++ changed came (map seen_of before.now) (seen_of one.now))) }
    {
        if was_so(before, one) {
            return Ok(());
        }
        let seen = one.copy(alloc)?;
        self.push(Change { came, seen })
    }

    /// A row with nothing for each that is shown no more, where something was shown of it.
    fn note_gone(&mut self, came: u64, before: &[Seen], behind: &[Seen]) -> Result<(), AllocError>
        ensures { OnOk result (history_of self.new ≡ last_1000 (history_of self.old
            ++ flat_map (ended came (map seen_of behind.now)) (map seen_of before.now))) }
    {
        for one in before {
            self.end_one(came, behind, one)?;
        }
        Ok(())
    }

    /// A row with nothing for one that is shown no more, where something was shown of it.
    fn end_one(&mut self, came: u64, behind: &[Seen], one: &Seen) -> Result<(), AllocError>
        ensures { OnOk result (history_of self.new
            ≡ last_1000 (history_of self.old ++ ended came (map seen_of behind.now) (seen_of one.now))) }
    {
        if has_it(behind, one.set, one.service) || one.is_nothing() {
            return Ok(());
        }
        let seen = Seen::none(one.set, one.service);
        self.push(Change { came, seen })
    }

    /// One more row is the last; of all the last 1,000 are kept.
    fn push(&mut self, change: Change) -> Result<(), AllocError>
        ensures { OnOk result (history_of self.new ≡ last_1000 (history_of self.old ++ change_of change ∷ [])) }
    {
        if self.rows.len() < ROWS_MAX {
            self.rows.push_back(change)?;
            return Ok(());
        }
        self.rows.pop_front();
        self.rows.push_back(change)?;
        Ok(())
    }
}
