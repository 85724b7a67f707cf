//! How many messages were told of a control line in each minute of the page's clock (profile).
ghost use Rattle.std.specs.Prelude.{◌≡◌, ◌<◌, ◌%◌};
ghost use Rattle.serde_json.specs.View.{view};
ghost use Rattle.page.specs.StateView.{minutes_of};
ghost use Rattle.page.specs.Minutes.{no_minutes, minute_of, count_in, one_more_in, minutes_after, count_before};

use crate::state::counts::{add, is_told};
use serde_json::Value;

/// How many minutes are kept.
pub(crate) const MINUTES: usize = 60;

/// Of each minute of an hour the one of which messages were counted last, and how many came in it.
#[derive(Drop)]
pub(crate) struct Minutes {
    numbers: [u64; MINUTES],
    counts: [u64; MINUTES],
}

impl Minutes {
    /// None came yet.
    pub(crate) fn new() -> Minutes
        ensures { minutes_of result ≡ no_minutes }
    {
        Minutes {
            numbers: [0; MINUTES],
            counts: [0; MINUTES],
        }
    }

    /// Takes an object of the line that came then.
    pub(crate) fn take(&mut self, value: &Value, came: u64)
        ensures { minutes_of self.new ≡ minutes_after came (view value.now) (minutes_of self.old) }
    {
        if is_told(value) {
            self.count_one(minute_of(came));
        }
    }

    /// One more came in this minute.
    fn count_one(&mut self, minute: u64)
        ensures { minutes_of self.new ≡ one_more_in minute (minutes_of self.old) }
    {
        let mut count = self.count(minute);
        add(true, &mut count);
        let place = place_of(minute);
        self.numbers[place] = minute;
        self.counts[place] = count;
    }

    /// How many came in this minute.
    fn count(&self, minute: u64) -> u64
        ensures { result ≡ count_in minute (minutes_of self.now) }
    {
        let place = place_of(minute);
        if self.numbers[place] == minute {
            self.counts[place]
        } else {
            0
        }
    }

    /// How many came so many minutes before this one.
    pub(crate) fn before(&self, newest: u64, ago: u64) -> u64
        ensures { result ≡ count_before newest ago (minutes_of self.now) }
    {
        if newest < ago {
            0
        } else {
            self.count(newest - ago)
        }
    }
}

/// The minute of a time in milliseconds.
pub(crate) fn minute_of(time: u64) -> u64
    ensures { result ≡ minute_of time }
{
    time / 60000
}

/// Where a minute is counted.
fn place_of(minute: u64) -> usize
    ensures place { result ≡ minute % 60 }
    ensures within { result < 60 }
{
    (minute % 60) as usize
}
