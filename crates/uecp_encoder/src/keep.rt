//! Where the state of an end of the line is kept. Source: profile.
ghost use Rattle.std.specs.Prelude.{◌≡◌, ◌<◌, ◌≤◌, ◌⊎◌, ℕ, OnOk, IfErr};

use crate::encoder::Encoder;
use crate::target::Target;
use reply_ring::ReplyRing;
use std::marker::Model;

/// The state of an end could not be saved. Why is for the keeper to say.
#[derive(Clone, Copy, Debug, PartialEq, Eq)]
pub struct SaveFailed;

/// The state of an end, as it is saved: of an encoder, or of a server.
pub trait SavedState {
    /// The end.
    type End;

    /// How far it has come, which is saved with it; `()` of an encoder.
    type Progress: Copy;

    // What is to be kept of an end that has come so far.
    ghost kept_of: { Self.Progress → Self.End → Self };
}

/// An encoder as it is saved: its target and its kept replies. Contracts speak of it; no value is made.
pub struct SavedEncoder<T> {
    target: T,
    ring: ReplyRing,
}

impl<T> Model for SavedEncoder<T> {
    ghost use Rattle.uecp_encoder.specs.Keeping.{Kept};

    ghost Value = { Kept T };

    ghost view = { λ k. record { value = k.target; ring = k.ring } };
}

impl<T: Target> SavedState for SavedEncoder<T> {
    ghost use Rattle.uecp_encoder.specs.Keeping.{kept_of as kept_of_encoder};

    type End = Encoder<T>;

    type Progress = ();

    ghost kept_of = { λ progress e. kept_of_encoder e };
}

/// Keeps the state of an end. Contracts see what a crash may leave of it now; a crash within a save leaves what a save
/// that failed may leave.
pub trait Keep<V: SavedState> {
    // Whether a crash now may leave this.
    ghost leaves: { Self → V → Type 0 };

    // The premise of what the keeper stands on, up to now: as that a disk kept what it said it had.
    ghost is_clean: { Self → Type 0 };

    // Whether a save of this may succeed, and leave the keeper so.
    ghost saves: { Self → V → Self → Type 0 };

    // Whether a save of this may fail, and leave the keeper so.
    ghost fails: { Self → V → Self → Type 0 };

    /// Saves the state of the end. Once it has, a crash leaves that; where it fails, a crash leaves that or what one
    /// might have left before. The premise reaches back: where it holds now it held before.
    fn save(&mut self, end: &V::End, progress: V::Progress) -> Result<(), SaveFailed>
        ensures saved { is_clean self.new → OnOk result
            ((left : V) → leaves self.new left → left ≡ V.kept_of progress end.now) }
        ensures either { is_clean self.new → (left : V) → leaves self.new left
            → leaves self.old left ⊎ (left ≡ V.kept_of progress end.now) }
        ensures clean { is_clean self.new → is_clean self.old }
        ensures made { OnOk result (saves self.old (V.kept_of progress end.now) self.new) }
        ensures failed { IfErr result (λ _. fails self.old (V.kept_of progress end.now) self.new) };
}

/// How much an encoder takes together, before it is saved and its replies are written.
pub trait BatchLimits {
    /// How many bytes one read takes at most, 1 to 4,192: eight of the longest frames.
    const READ_MAX: usize;

    /// How many things found are answered together at most, by one save and one write: 1 to 126.
    const TOGETHER_MAX: usize;

    ghost READ_MAX: { ℕ };

    ghost TOGETHER_MAX: { ℕ };

    ghost reads_some: { 0 < READ_MAX };

    ghost reads_few: { READ_MAX ≤ 4192 };

    ghost answers_some: { 0 < TOGETHER_MAX };

    ghost answers_few: { TOGETHER_MAX ≤ 126 };
}

/// Keeps nothing: each save succeeds, and nothing is promised of what a crash leaves. An encoder with it writes each
/// reply before the next byte is fed.
#[derive(Clone, Copy, Debug)]
pub struct NotSaved;

impl<V: SavedState> Keep<V> for NotSaved {
    ghost leaves = { λ _ _. Unit {0} };

    ghost is_clean = { λ _. ⊥ };

    ghost saves = { λ k _ k'. k' ≡ k };

    ghost fails = { λ _ _ _. ⊥ };

    fn save(&mut self, _end: &V::End, _progress: V::Progress) -> Result<(), SaveFailed> {
        Ok(())
    }
}

impl BatchLimits for NotSaved {
    ghost use Rattle.std.proofs.Common.{lit≤};

    const READ_MAX: usize = 512;

    const TOGETHER_MAX: usize = 1;

    ghost READ_MAX = { 512 };

    ghost TOGETHER_MAX = { 1 };

    ghost reads_some = { lit≤ tt };

    ghost reads_few = { lit≤ tt };

    ghost answers_some = { lit≤ tt };

    ghost answers_few = { lit≤ tt };
}
