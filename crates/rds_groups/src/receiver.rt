//! A receiver. Source: IEC 62106, type 0 and type 2 groups.
ghost use Rattle.std.specs.Prelude.{◌≡◌, ◌<◌, ◌≤◌, length, Some, if◌then◌else◌};
ghost use Rattle.std.specs.Option.{option_map};
ghost use Rattle.rds_groups.specs.Shown as shown;
ghost use Rattle.rds_groups.specs.View.{receiver_of, heard_in};

use crate::heard::HeardGroup;
use arrayvec::ArrayVec;

/// What a receiver has heard of a station.
#[derive(Debug, Drop)]
pub struct Receiver {
    /// The programme identification.
    pub pi: Option<u16>,
    /// Whether it is a traffic programme.
    pub tp: Option<bool>,
    /// The programme type.
    pub pty: Option<u8>,
    /// Whether a traffic announcement is on.
    pub ta: Option<bool>,
    /// Music, or else speech.
    pub music: Option<bool>,
    /// What came of the name since its first segment.
    pub coming: ArrayVec<u8, 8>,
    /// The last name whose four segments came in one pass.
    pub name: Option<[u8; 8]>,
    /// The A/B flag of the RadioText that is being collected.
    pub flag: bool,
    /// Whether that text comes by 2B, with 32 characters.
    pub is_short: bool,
    /// Its characters, where they were heard.
    pub text: [Option<u8>; 64],
    /// The last group, where its PI is another than that of the station.
    pub held: Option<HeardGroup>,
}

impl Receiver {
    /// A receiver that has heard nothing.
    pub fn new() -> Receiver
        ensures { receiver_of result ≡ shown.switched_on }
    {
        Receiver {
            pi: None,
            tp: None,
            pty: None,
            ta: None,
            music: None,
            coming: ArrayVec::new(),
            name: None,
            flag: false,
            is_short: false,
            text: no_text(),
            held: None,
        }
    }

    /// Hears one more group. A group of which nothing came is heard too: it may have been a segment of a name.
    ///
    /// The first group with another PI is held back; where the next one has the same, the receiver begins anew with the
    /// two. A group without a PI is of the station that is tuned.
    pub fn hear(&mut self, group: &HeardGroup)
        ensures { receiver_of self.new ≡ shown.hears group.now (receiver_of self.old) }
    {
        if is_another(self.pi, group.block1) {
            self.hear_another(group);
        } else {
            self.held = None;
            self.hear_own(group);
        }
    }

    /// A group of another station.
    fn hear_another(&mut self, group: &HeardGroup)
        ensures { receiver_of self.new ≡ shown.hears_another self.old.held group.now (receiver_of self.old) }
    {
        match self.held {
            Some(first) if !is_another(first.block1, group.block1) => {
                self.begin_anew(&first, group);
            }
            _ => self.hold(group),
        }
    }

    /// What was heard of the station before is gone.
    fn begin_anew(&mut self, first: &HeardGroup, second: &HeardGroup)
        ensures { receiver_of self.new ≡ shown.hears_own second.now (shown.hears_own first.now shown.switched_on) }
    {
        *self = Receiver::new();
        self.hear_own(first);
        self.hear_own(second);
    }

    /// A group is held back.
    fn hold(&mut self, group: &HeardGroup)
        ensures { receiver_of self.new ≡ shown.holds group.now (receiver_of self.old) }
    {
        self.coming.clear();
        self.held = Some(*group);
    }

    /// A group of the station.
    fn hear_own(&mut self, group: &HeardGroup)
        ensures { receiver_of self.new ≡ shown.hears_own group.now (receiver_of self.old) }
    {
        if let Some(pi) = group.block1 {
            self.pi = Some(pi);
        }
        match group.block2 {
            Some(block2) => self.hear_type(block2, group),
            None => self.coming.clear(),
        }
    }

    fn hear_type(&mut self, block2: u16, group: &HeardGroup)
        ensures { receiver_of self.new ≡ shown.by_type block2 group.now (shown.tuned block2 (receiver_of self.old)) }
    {
        self.tp = Some(block2 / 1024 % 2 == 1);
        self.pty = Some((block2 / 32 % 32) as u8);
        match block2 / 4096 {
            0 => self.hear_name(block2, group.block4),
            2 => self.hear_text(block2, group.block3, group.block4),
            _ => {}
        }
    }

    fn hear_name(&mut self, block2: u16, block4: Option<u16>)
        ensures { receiver_of self.new ≡ shown.name_heard block2 block4 (receiver_of self.old) }
    {
        self.ta = Some(block2 / 16 % 2 == 1);
        self.music = Some(block2 / 8 % 2 == 1);
        match block4 {
            Some(word) => self.hear_segment(usize::from(block2 % 4), word),
            None => self.coming.clear(),
        }
    }

    /// Two characters of the name.
    fn hear_segment(&mut self, segment: usize, word: u16)
        requires { segment < 4 }
        ensures { receiver_of self.new ≡ shown.named segment (Some word) (receiver_of self.old) }
    {
        let is_next = self.coming.len() == 2 * segment;
        if segment == 0 || !is_next {
            self.coming.clear();
        }
        if segment == 0 || is_next {
            self.coming.push((word / 256) as u8);
            self.coming.push((word % 256) as u8);
        }
        if self.coming.len() == 8 {
            self.name = Some(name_of(self.coming.as_slice()));
        }
    }

    fn hear_text(&mut self, block2: u16, block3: Option<u16>, block4: Option<u16>)
        ensures { receiver_of self.new ≡ shown.text_heard block2 block3 block4 (receiver_of self.old) }
    {
        let is_short = block2 / 2048 % 2 == 1;
        self.keep_text(block2 / 16 % 2 == 1, is_short);
        place_segment(
            &mut self.text,
            is_short,
            usize::from(block2 % 16),
            block3,
            block4,
        );
    }

    /// What was heard of the text stays only where a group has its flag and its version.
    fn keep_text(&mut self, flag: bool, is_short: bool)
        ensures { receiver_of self.new ≡ record (receiver_of self.old) {
          flag = flag;
          is_short = is_short;
          text = shown.left_of flag is_short (receiver_of self.old);
        } }
    {
        if self.flag != flag || self.is_short != is_short {
            self.text = no_text();
        }
        self.flag = flag;
        self.is_short = is_short;
    }

    /// How many characters the text has at most.
    fn text_room(&self) -> usize
        ensures value { result ≡ (if self.now.is_short then 32 else 64) }
        ensures few { result ≤ 64 }
    {
        if self.is_short { 32 } else { 64 }
    }

    /// The RadioText, up to its first 0D, once all of that was heard.
    pub fn text_shown(&self) -> Option<ArrayVec<u8, 64>>
        ensures { option_map (λ text. text.items) result ≡ shown.text_shown (receiver_of self.now) }
    {
        let count = self.text_room();
        let mut shown = ArrayVec::new();
        for place in 0..count {
            let Some(character) = self.text[place] else {
                return None;
            };
            if character == 0x0d {
                return Some(shown);
            }
            shown.push(character);
        }
        Some(shown)
    }
}

/// The other PI is another than this one; a group without its block 1 has none.
fn is_another(this: Option<u16>, other: Option<u16>) -> bool
    ensures { result ≡ shown.is_another this other }
{
    match (this, other) {
        (Some(this), Some(other)) => this != other,
        _ => false,
    }
}

/// The eight characters of a name.
fn name_of(characters: &[u8]) -> [u8; 8]
    requires { length characters.now ≡ 8 }
    ensures { result ≡ characters.now }
{
    [
        characters[0],
        characters[1],
        characters[2],
        characters[3],
        characters[4],
        characters[5],
        characters[6],
        characters[7],
    ]
}

/// The two characters of a block take their places, if it came.
fn place(text: &mut [Option<u8>; 64], pair: usize, block: Option<u16>)
    requires { pair < 32 }
    ensures { heard_in text.new ≡ shown.placed pair block (heard_in text.old) }
{
    if let Some(word) = block {
        text[2 * pair] = Some((word / 256) as u8);
        text[2 * pair + 1] = Some((word % 256) as u8);
    }
}

/// A segment of a text: two pairs of characters by 2A, and one by 2B.
fn place_segment(
    text: &mut [Option<u8>; 64],
    is_short: bool,
    segment: usize,
    block3: Option<u16>,
    block4: Option<u16>,
)
    requires { segment < 16 }
    ensures { heard_in text.new ≡ shown.text_placed is_short segment block3 block4 (heard_in text.old) }
{
    if is_short {
        place(text, segment, block4);
    } else {
        place(text, 2 * segment, block3);
        place(text, 2 * segment + 1, block4);
    }
}

/// A text of which nothing was heard.
fn no_text() -> [Option<u8>; 64]
    ensures { heard_in result ≡ shown.nothing }
{
    [None; 64]
}
