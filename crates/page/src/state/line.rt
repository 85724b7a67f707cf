//! What is known of one control line (profile).
ghost use Rattle.std.specs.Prelude.{◌≡◌, OnOk, map, string_bytes};
ghost use Rattle.serde_json.specs.View.{view};
ghost use Rattle.page.specs.StateView.{air_of, line_of, seen_of};
ghost use Rattle.page.specs.ControlLine.{new_line, is_named, line_after, air_shown, taken, noted};
ghost use Rattle.page.specs.Answered.{is_of_encoder};

use crate::state::air::Air;
use crate::state::announced::{Announcement, announced_after};
use crate::state::counts::{Counts, is_kind};
use crate::state::link::{
    Linked, Refusal, RefusedLine, failed_after, heard_after, linked_after, refused_after,
    refused_line_after,
};
use crate::state::minutes::Minutes;
use crate::state::row::{is_shown, is_stored};
use crate::state::rows::Changes;
use crate::state::seen::{Seen, each_seen};
use serde_json::Value;
use std::alloc::{AllocError, Global};

/// What is known of a control line.
#[derive(Drop)]
pub(crate) struct Line {
    /// Its name, empty where objects name none.
    pub(crate) name: String,
    /// What is on the air, as the encoder's end tells.
    air: Air,
    /// What is on the air, as the studio was answered.
    answered: Air,
    /// Whether the encoder's end told anything.
    pub(crate) has_encoder: bool,
    /// What was counted.
    pub(crate) counts: Counts,
    /// What was told of its connection.
    pub(crate) linked: Option<Linked>,
    /// The last message, where it was refused.
    pub(crate) refused: Option<Refusal>,
    /// The last line of the studio's, where that was refused.
    pub(crate) refused_line: Option<RefusedLine>,
    /// Whether a save failed.
    pub(crate) failed: bool,
    /// The time that was told last.
    pub(crate) heard: Option<String>,
    /// When the last object that names it came, by the page's clock, in milliseconds.
    pub(crate) told_at: u64,
    /// How many messages came in each minute.
    pub(crate) minutes: Minutes,
    /// The rows of its history that are kept.
    pub(crate) changes: Changes,
    /// Which announcements are on.
    pub(crate) announced: Vec<Announcement>,
}

impl Line {
    /// Nothing was told of it yet.
    pub(crate) fn new(alloc: Global, name: String) -> Line
        ensures { line_of result ≡ new_line (string_bytes name) }
    {
        Line {
            name,
            air: Air::new(alloc),
            answered: Air::new(alloc),
            has_encoder: false,
            counts: Counts::new(),
            linked: None,
            refused: None,
            refused_line: None,
            failed: false,
            heard: None,
            told_at: 0,
            minutes: Minutes::new(),
            changes: Changes::new(alloc),
            announced: Vec::new(alloc),
        }
    }

    /// Whether this is its name.
    pub(crate) fn is_named(&self, name: &str) -> bool
        ensures { result ≡ is_named name.now (line_of self.now) }
    {
        self.name.as_str() == name
    }

    /// Takes an object that names it, and that came then.
    ///
    /// Errors: where memory is refused it may have been taken in part.
    pub(crate) fn take(&mut self, alloc: Global, value: Value, came: u64) -> Result<(), AllocError>
        ensures { OnOk result (line_of self.new ≡ line_after (record {
          object = view value;
          came = came;
        }) (line_of self.old)) }
    {
        let before = each_seen(alloc, self.air().rows())?;
        self.take_told(alloc, value, came)?;
        self.note(alloc, came, before.as_slice())
    }

    /// Takes what it tells.
    ///
    /// Errors: where memory is refused it may have been taken in part.
    fn take_told(&mut self, alloc: Global, value: Value, came: u64) -> Result<(), AllocError>
        ensures { OnOk result (line_of self.new ≡ taken (record {
          object = view value;
          came = came;
        }) (line_of self.old)) }
    {
        self.told_at = came;
        self.minutes.take(&value, came);
        self.counts.count(&value);
        self.linked = linked_after(alloc, &value, self.linked.take())?;
        self.refused = refused_after(alloc, &value, self.refused.take())?;
        self.refused_line = refused_line_after(alloc, &value, self.refused_line.take())?;
        self.failed = failed_after(&value, self.failed);
        self.heard = heard_after(alloc, &value, self.heard.take())?;
        self.has_encoder = is_of_encoder(&value) || self.has_encoder;
        self.answered.take_answer(alloc, &value)?;
        self.air.take(alloc, value)
    }

    /// Notes what changed on the air, as it is shown, by an object that came then; this was shown before it.
    ///
    /// Errors: where memory is refused it may have been noted in part.
    fn note(&mut self, alloc: Global, came: u64, before: &[Seen]) -> Result<(), AllocError>
        ensures { OnOk result (line_of self.new ≡ noted came (map seen_of before.now) (line_of self.old)) }
    {
        let behind = each_seen(alloc, self.air().rows())?;
        self.announced = announced_after(
            alloc,
            came,
            behind.as_slice(),
            self.announced.as_slice(),
        )?;
        self.changes.note(alloc, came, before, behind.as_slice())
    }

    /// What is shown as on the air: what the encoder's end tells, where that told anything; else as the studio was
    /// answered.
    pub(crate) fn air(&self) -> &Air
        ensures { air_of result.now ≡ air_shown (line_of self.now) }
    {
        if self.has_encoder {
            &self.air
        } else {
            &self.answered
        }
    }
}

/// Whether the encoder's end tells an object.
fn is_of_encoder(value: &Value) -> bool
    ensures { result ≡ is_of_encoder (view value.now) }
{
    is_kind(value, "frame")
        || is_kind(value, "answered")
        || is_kind(value, "connection")
        || is_kind(value, "store")
        || is_shown(value)
        || is_stored(value)
        || is_kind(value, "reply")
}
