//! The machine of one direction (profile).
ghost use Rattle.std.specs.Prelude.{◌≡◌, ◌+◌, ◌-◌, ◌^◌, min, IfOk};
ghost use Rattle.bad_line.specs.Fates.{MayCome};
ghost use Rattle.bad_line.specs.Delays.{delay_in, pace_in};

use crate::rules::chances::{draws_loss, draws_place};
use crate::rules::delays::{delay_of, pace_of};
use crate::rules::fate::Fate;
use crate::rules::fates::fate_in;
use crate::rules::rule::{Rule, Way};
use rand_core::SeedableRng;
use rand_pcg::Pcg32;
use std::alloc::{AllocError, Global};
use std::marker::Model;

/// What a line does to the segments of one direction, by rules, as they come one after another. Contracts see the
/// rules, the direction and how many segments have come; what is drawn for the rules of chance they don't see. The same
/// seed draws the same.
#[derive(Drop)]
pub struct LineFaults {
    rules: Vec<Rule>,
    way: Way,
    /// How many segments have come; at most 2^64 - 1, which is past every rule.
    passed: u64,
    draws: Pcg32,
}

impl Model for LineFaults {
    ghost use Rattle.bad_line.specs.Fates.{Passing};

    ghost Value = { Passing };

    ghost view = { λ f. record { rules = f.rules.items; way = f.way; passed = f.passed } };
}

impl LineFaults {
    /// The faults of a line by these rules in this direction, where no segment has come yet. Rules of the other
    /// direction, and those that are no matter of a segment, do nothing here.
    ///
    /// Errors: no memory for a copy of the rules.
    pub fn of(alloc: Global, rules: &[Rule], way: Way, seed: u64) -> Result<LineFaults, AllocError>
        ensures { IfOk result (λ f. f ≡ record { rules = rules.now; way = way; passed = 0 }) }
    {
        let mut kept = Vec::new(alloc);
        kept.extend_from_slice(rules)?;
        Ok(LineFaults {
            rules: kept,
            way,
            passed: 0,
            draws: Pcg32::seed_from_u64(seed),
        })
    }

    /// The next segment of this direction comes, of so many bytes: what comes of it.
    pub fn pass(&mut self, length: usize) -> Fate
        ensures counted { self.new ≡ record self.old { passed = min (self.old.passed + 1) (2 ^ 64 - 1) } }
        ensures fate { MayCome self.old.rules self.old.way self.new.passed length result }
    {
        self.passed = self.passed.saturating_add(1);
        let lost = draws_loss(self.rules.as_slice(), self.passed, &mut self.draws);
        let place = draws_place(self.rules.as_slice(), self.passed, length, &mut self.draws);
        fate_in(
            self.rules.as_slice(),
            self.way,
            self.passed,
            length,
            lost,
            place,
        )
    }

    /// How many milliseconds later the segment of this number comes.
    pub(crate) fn delay(&self, number: u64) -> u64
        ensures { result ≡ delay_in number self.now.rules }
    {
        delay_of(self.rules.as_slice(), number)
    }

    /// For how many milliseconds the last segment that came is held, one behind the other.
    pub(crate) fn pace(&self) -> u64
        ensures { result ≡ pace_in self.now.passed self.now.rules }
    {
        pace_of(self.rules.as_slice(), self.passed)
    }

    /// How many segments have come; 2^64 - 1 stands for more too.
    pub fn passed(&self) -> u64
        ensures { result ≡ self.now.passed }
    {
        self.passed
    }
}
