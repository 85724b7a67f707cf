//! How long a line is waited for (profile).
ghost use Rattle.std.specs.Prelude.{◌≡◌, ◌↔◌, ℕ, ◌≤◌, Some, IfSome, IsNone, IsTrue};
ghost use Rattle.live_edges.specs.Waiting.{next_pause, milliseconds, seconds_left, pause_of, IsGivenUp, IsSilent};
ghost use Rattle.live_edges.specs.Waiting.{left_of, until_silent, IsOpen, IsDue, after_silence};
ghost use Rattle.live_edges.specs.Waiting.{nothing_waits, IsLate, HadItsChance, IsSpent, IsCut, wanted, used, made};
ghost use Rattle.live_edges.specs.Waiting.{after_reply, after_refusal, after_close};

/// How long a new connection is read at least, whatever has waited before it was made, in milliseconds.
const CHANCE: u64 = 1000;

/// How long a line is waited for. Seconds all.
#[derive(Clone, Copy, Debug, PartialEq, Eq)]
pub struct Patience {
    /// The longest pause between two tries to connect, at least 1.
    pub retry_every: u64,
    /// After how long, in which something waited and no reply to it came, the line is given up; None for never.
    pub give_up: Option<u64>,
    /// After how long on connections on which no such reply comes the encoder is told to be silent.
    pub silent: u64,
    /// Whether no connection is given then, so that the encoder can be joined anew.
    pub stop_when_silent: bool,
}

/// How a line stands that is waited for: since when, and after which pause the next try is made. Times are milliseconds
/// of a clock that never goes back; a pause is in seconds. A reply is one that was waited for, and nothing else that
/// comes.
#[derive(Clone, Copy, Debug)]
pub(crate) struct Wait {
    /// The pause before the next try: 0 where none failed since the last reply.
    pause: u64,
    /// Since when something waits and no reply came; None where nothing has waited since the last one.
    since: Option<u64>,
    /// The same on connections.
    silent_since: Option<u64>,
    /// Whether it was said that the encoder is silent.
    is_told: bool,
    /// Since when the last connection is there.
    opened: u64,
}

impl Wait {
    /// Nothing waited yet.
    pub(crate) fn new() -> Wait
        ensures { result ≡ nothing_waits }
    {
        Wait {
            pause: 0,
            since: None,
            silent_since: None,
            is_told: false,
            opened: 0,
        }
    }

    /// The pause before the next try where a connection is wanted now, in seconds; None where the line is given up.
    pub(crate) fn next(&mut self, patience: &Patience, now: u64) -> Option<u64>
        // It is given up exactly where there is a limit, something has waited for so long, and a try has failed.
        ensures given_up { IsNone result ↔ IsGivenUp patience.now now self.old }
        ensures pause { IfSome result (λ pause. pause ≡ pause_of patience.now now self.old) }
        ensures waits { self.new ≡ wanted now self.old }
    {
        let since = self.since.unwrap_or(now);
        self.since = Some(since);
        let waited = now.saturating_sub(since);
        if self.pause > 0 && is_reached(patience.give_up, waited) {
            return None;
        }
        Some(
            self.pause
                .min(left_of(patience.give_up, waited))
                .min(self.until_silent(patience, now)),
        )
    }

    /// In how many seconds the encoder's silence is due; the most that a number can be where it is not to be.
    fn until_silent(&self, patience: &Patience, now: u64) -> u64
        ensures { result ≡ until_silent patience.now now self.now }
    {
        if self.is_told && !patience.stop_when_silent {
            return u64::MAX;
        }
        match self.silent_since {
            Some(since) => seconds_left(patience.silent, now.saturating_sub(since)),
            None => u64::MAX,
        }
    }

    /// Whether it was said since the last reply that the encoder is silent.
    pub(crate) fn is_told(&self) -> bool
        ensures { result ≡ self.now.is_told }
    {
        self.is_told
    }

    /// Whether the encoder is silent, and that is to be told, or it is to be joined anew by it.
    pub(crate) fn is_due(&self, patience: &Patience, now: u64) -> bool
        ensures { IsTrue result ↔ IsDue patience.now now self.now }
    {
        self.is_open(patience) && self.is_silent(patience, now)
    }

    /// Whether that is not told yet, or the encoder is joined anew by it.
    fn is_open(&self, patience: &Patience) -> bool
        ensures { IsTrue result ↔ IsOpen patience.now self.now }
    {
        !self.is_told || patience.stop_when_silent
    }

    /// Whether the encoder is silent.
    fn is_silent(&self, patience: &Patience, now: u64) -> bool
        ensures { IsTrue result ↔ IsSilent patience.now now self.now }
    {
        match self.silent_since {
            Some(since) => has_passed(patience.silent, now.saturating_sub(since)),
            None => false,
        }
    }

    /// That the encoder is silent is told. Where it is joined anew by that, its time begins anew.
    pub(crate) fn told_silent(&mut self, patience: &Patience)
        ensures { self.new ≡ after_silence patience.now self.old }
    {
        self.is_told = true;
        if patience.stop_when_silent {
            self.silent_since = None;
        }
    }

    /// Whether something has waited for as long as the line is to be.
    pub(crate) fn is_late(&self, patience: &Patience, now: u64) -> bool
        ensures { IsTrue result ↔ IsLate patience.now now self.now }
    {
        match self.since {
            Some(since) => is_reached(patience.give_up, now.saturating_sub(since)),
            None => false,
        }
    }

    /// Whether the connection that there is is written to no more.
    pub(crate) fn is_spent(&self, patience: &Patience, now: u64) -> bool
        ensures { IsTrue result ↔ IsSpent patience.now now self.now }
    {
        self.had_its_chance(now) && self.is_late(patience, now)
    }

    /// Whether the connection that there is is read no more.
    pub(crate) fn is_cut(&self, patience: &Patience, now: u64) -> bool
        ensures { IsTrue result ↔ IsCut patience.now now self.now }
    {
        self.had_its_chance(now) && (self.is_late(patience, now) || self.is_due(patience, now))
    }

    /// Whether the last connection is there for a while.
    fn had_its_chance(&self, now: u64) -> bool
        ensures { IsTrue result ↔ HadItsChance now self.now }
    {
        now.saturating_sub(self.opened) >= CHANCE
    }

    /// The connection is written to or read of now.
    pub(crate) fn used(&mut self, now: u64)
        ensures { self.new ≡ used now self.old }
    {
        self.since = Some(self.since.unwrap_or(now));
        self.silent_since = Some(self.silent_since.unwrap_or(now));
    }

    /// A connection was made.
    pub(crate) fn made(&mut self, now: u64)
        ensures { self.new ≡ made now self.old }
    {
        self.silent_since = Some(self.silent_since.unwrap_or(now));
        self.opened = now;
    }

    /// A reply came that was waited for.
    pub(crate) fn answered(&mut self)
        ensures { self.new ≡ after_reply self.old }
    {
        self.pause = 0;
        self.since = None;
        self.silent_since = None;
        self.is_told = false;
    }

    /// None could be made.
    pub(crate) fn refused(&mut self, longest: u64)
        ensures { self.new ≡ after_refusal longest self.old }
    {
        self.silent_since = None;
        self.pause = next_pause(self.pause, longest);
    }

    /// A connection is done with, on which a reply came or none, and which was broken or held to the end. One that
    /// broke with none is like none: whoever takes it and lets it go is no silent encoder.
    pub(crate) fn closed(&mut self, is_answered: bool, is_broken: bool, longest: u64)
        ensures { self.new ≡ after_close is_answered is_broken longest self.old }
    {
        if is_broken {
            self.silent_since = None;
        }
        if !is_answered {
            self.pause = next_pause(self.pause, longest);
        }
    }
}

/// So many seconds in milliseconds.
fn thousandfold(seconds: u64) -> u64
    ensures { result ≡ milliseconds seconds }
{
    seconds.saturating_mul(1000)
}

/// Whether so many milliseconds are that many seconds or more.
fn has_passed(limit: u64, passed: u64) -> bool
    ensures { IsTrue result ↔ (milliseconds limit ≤ passed) }
{
    passed >= thousandfold(limit)
}

/// Whether there is a limit, and so many milliseconds reach it.
fn is_reached(limit: Option<u64>, passed: u64) -> bool
    ensures { IsTrue result ↔ ((seconds : ℕ) × (limit ≡ Some seconds) × (milliseconds seconds ≤ passed)) }
{
    match limit {
        Some(limit) => has_passed(limit, passed),
        None => false,
    }
}

/// How many seconds are left of a limit of so many, where so many milliseconds have passed; a part of one counts as
/// one.
fn seconds_left(limit: u64, passed: u64) -> u64
    ensures { result ≡ seconds_left limit passed }
{
    thousandfold(limit).saturating_sub(passed).div_ceil(1000)
}

/// The same where there is a limit, else the most that a number can be.
fn left_of(limit: Option<u64>, passed: u64) -> u64
    ensures { result ≡ left_of limit passed }
{
    match limit {
        Some(limit) => seconds_left(limit, passed),
        None => u64::MAX,
    }
}

/// The pause after a try that fails, where there was one of so many seconds before it: 1, 2, 4 .. up to the longest.
fn next_pause(pause: u64, longest: u64) -> u64
    ensures { result ≡ next_pause pause longest }
{
    pause.saturating_mul(2).max(1).min(longest)
}
