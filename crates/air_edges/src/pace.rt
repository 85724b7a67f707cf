//! The pace of the air. Source: IEC 62106, data rate: 1187.5 bits a second, 104 bits a group.
ghost use Rattle.std.specs.Prelude.{◌≡◌, ◌≤◌, ◌<◌, ◌*◌, ◌+◌, ◌-◌, ◌^◌, ◌↔◌, true};
ghost use Rattle.air_edges.specs.Pace as pace;

use std::marker::Model;

/// How long a group takes, in nineteenths of a millisecond: 104 bits at 1187.5 bits a second are 1664/19 ms.
const GROUP: u64 = 1664;

/// How many groups may be behind their time before the time begins anew.
const LATE_MAX: u64 = 10;

/// When groups are due, by the time since the air began. Contracts see when the next one is, in nineteenths of a
/// millisecond: so no group comes early or late by what the others were.
#[derive(Debug, Drop)]
pub struct Pace {
    next: u64,
}

impl Model for Pace {
    ghost use Rattle.std.specs.Prelude.{ℕ};

    ghost Value = { ℕ };

    ghost view = { λ p. p.next };
}

impl Pace {
    /// The first group is due at once.
    pub fn new() -> Pace
        ensures { result ≡ 0 }
    {
        Pace { next: 0 }
    }

    /// Whether the next group is due so many milliseconds after the beginning.
    pub fn is_due(&self, now: u64) -> bool
        requires { now < 2 ^ 58 }
        ensures { result ≡ pace.is_due self.now now }
    {
        self.next <= now * 19
    }

    /// How many milliseconds later it is due, rounded up; 0 where it is.
    pub fn wait(&self, now: u64) -> u64
        requires { now < 2 ^ 58 }
        ensures { result ≡ pace.wait self.now now }
    {
        self.next.saturating_sub(now * 19).div_ceil(19)
    }

    /// One more group goes out now. The next is due a group's time after this one was; where that is more than ten
    /// groups ago, as after a pause of the machine, a group's time from now.
    pub fn sent(&mut self, now: u64)
        requires now { now < 2 ^ 58 }
        requires next { self.old < 2 ^ 63 }
        ensures { self.new ≡ pace.after self.old now }
    {
        let now = now * 19;
        self.next = if self.next + LATE_MAX * GROUP < now {
            now + GROUP
        } else {
            self.next + GROUP
        };
    }
}
