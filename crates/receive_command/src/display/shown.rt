//! What a receiver shows. Source: IEC 62106, type 0 and type 2 groups.
ghost use Rattle.std.specs.Prelude.{◌≡◌, ◌↔◌, true};
ghost use Rattle.std.specs.Option.{option_map};
ghost use Rattle.rds_groups.specs.View.{receiver_of};
ghost use Rattle.receive_command.specs.Shown.{shown_by};
ghost use Rattle.receive_command.specs.DisplayView.{shown_in};

use arrayvec::ArrayVec;
use rds_groups::Receiver;

/// What a receiver shows: each thing where it was heard.
#[derive(Debug, Drop)]
pub struct Shown {
    /// The programme identification.
    pub pi: Option<u16>,
    /// The name.
    pub name: Option<[u8; 8]>,
    /// Whether it is a traffic programme.
    pub tp: Option<bool>,
    /// Whether a traffic announcement is on.
    pub ta: Option<bool>,
    /// Music, or else speech.
    pub music: Option<bool>,
    /// The programme type, 00 to 1F.
    pub pty: Option<u8>,
    /// The RadioText, up to its first 0D.
    pub text: Option<ArrayVec<u8, 64>>,
}

impl Shown {
    /// What this receiver shows.
    pub fn of(receiver: &Receiver) -> Shown
        ensures { shown_in result ≡ shown_by (receiver_of receiver.now) }
    {
        Shown {
            pi: receiver.pi,
            name: receiver.name,
            tp: receiver.tp,
            ta: receiver.ta,
            music: receiver.music,
            pty: receiver.pty,
            text: receiver.text_shown(),
        }
    }

    /// Whether the same is shown.
    #[tactic(auto, using(crate::proofs::Same::same_shown))]
    pub fn is_same(&self, other: &Shown) -> bool
        ensures { result ≡ true ↔ (shown_in self.now ≡ shown_in other.now) }
    {
        if !self.has_same_head(other) || !self.has_same_flags(other) {
            return false;
        }
        is_same_text(&self.text, &other.text)
    }

    /// Whether PI, name and PTY are the same.
    fn has_same_head(&self, other: &Shown) -> bool
        ensures { result ≡ true ↔ (self.now.pi ≡ other.now.pi) × (self.now.name ≡ other.now.name)
            × (self.now.pty ≡ other.now.pty) }
    {
        self.pi == other.pi && self.name == other.name && self.pty == other.pty
    }

    /// Whether TP, TA and MS are the same.
    fn has_same_flags(&self, other: &Shown) -> bool
        ensures { result ≡ true ↔ (self.now.tp ≡ other.now.tp) × (self.now.ta ≡ other.now.ta)
            × (self.now.music ≡ other.now.music) }
    {
        self.tp == other.tp && self.ta == other.ta && self.music == other.music
    }
}

/// Whether two texts are the same.
fn is_same_text(one: &Option<ArrayVec<u8, 64>>, other: &Option<ArrayVec<u8, 64>>) -> bool
    ensures { result ≡ true ↔ (option_map (λ text. text.items) one.now ≡ option_map (λ text. text.items) other.now) }
{
    match (one, other) {
        (None, None) => true,
        (Some(one), Some(other)) => one.as_slice() == other.as_slice(),
        _ => false,
    }
}
