//! What goes out, group by group. Source: IEC 62106, type 0 and type 2 groups; RDS Forum SPB 490, RadioText; profile
//! for the order.
ghost use Rattle.std.specs.Prelude.{◌≡◌, ◌<◌, ◌≤◌, ◌+◌, length, drop, slice_get, IfSome};
ghost use Rattle.carousel.specs.Carousel.{switched_on, restarted, blanks_left};
ghost use Rattle.carousel.specs.Texts as choice;
ghost use Rattle.carousel.specs.Next as air;
ghost use Rattle.carousel.specs.View.{service_of, text_of};

use crate::station::{Offer, Station, count, main_service, no_text, text_at};
use arrayvec::ArrayVec;
use rds_groups::{Group, Segment};
use rds_store::{Group as StoredGroup, RadioText, RdsStore};
use std::marker::Model;

/// How many groups of an empty text a start sends before its first text.
const BLANKS: u8 = 8;

/// What a carousel sends next.
#[derive(Clone, Copy, Debug, PartialEq, Eq)]
pub struct NextGroup {
    /// The group.
    pub group: Group,
    /// Whether it is the first group that waits in the store, which is to be taken now.
    pub is_queued: bool,
}

/// Sends the main service of a store: its name in every other group, and between a free-format group where one waits,
/// else its text. A clause sees where it stands.
#[derive(Debug, Drop)]
pub struct Carousel {
    /// The name that goes out.
    name: [u8; 8],
    /// Its segment that comes next.
    name_segment: u8,
    /// Whether the name's turn is over.
    is_other: bool,
    /// The text that goes out.
    text: ArrayVec<u8, 64>,
    /// Its A/B flag.
    flag: bool,
    /// Its place among the texts.
    place: usize,
    /// How many passes of it are over.
    passes: u8,
    /// Its segment that comes next.
    text_segment: u8,
    /// Behind a start: that the first text is still to come, and how many groups of an empty one go out before it.
    blanks: Option<u8>,
}

impl Model for Carousel {
    ghost use Rattle.std.specs.Prelude.{◌≤◌, length};
    ghost use Rattle.carousel.specs.Carousel.{Carousel as State, coded_carousel};

    ghost Value = { State };

    ghost coded = { coded_carousel };

    ghost view = { λ c. record {
      name = c.name;
      name_segment = c.name_segment;
      is_other = c.is_other;
      text = c.text.items;
      flag = c.flag;
      place = c.place;
      passes = c.passes;
      text_segment = c.text_segment;
      blanks = c.blanks;
    } };

    ghost invariant = { λ c. length c.text.items ≤ 64 };
}

impl Carousel {
    /// A carousel that has sent nothing.
    pub fn new() -> Carousel
        ensures { result ≡ switched_on }
    {
        Carousel {
            name: [0x00; 8],
            name_segment: 0,
            is_other: false,
            text: ArrayVec::new(),
            flag: false,
            place: 0,
            passes: 0,
            text_segment: 0,
            blanks: None,
        }
    }

    /// A carousel at the start of an encoder that may have been on the air before, with a text that receivers still
    /// hold, under whichever flag: an empty text goes out first, and then the first one under the other flag.
    pub fn restarted() -> Carousel
        ensures { result ≡ restarted }
    {
        let mut carousel = Carousel::new();
        carousel.blanks = Some(BLANKS);
        carousel
    }

    /// The next group of a store's main service in its current data set. Where it is the first group that waits, the
    /// caller takes that.
    pub fn next_group(&mut self, store: &RdsStore) -> NextGroup
        ensures group { result.group ≡ (air.next_group store.now self.old).0 }
        ensures queued { result.is_queued ≡ air.is_queued store.now self.old }
        ensures after { self.new ≡ (air.next_group store.now self.old).1 }
    {
        self.next_group_behind(store, 0)
    }

    /// The same of the store without the first so many groups that wait. So the groups of a store that stays can be
    /// told with none taken: a caller counts those that were queued.
    pub fn next_group_behind(&mut self, store: &RdsStore, taken: usize) -> NextGroup
        ensures group { result.group ≡ (air.next_group (air.behind taken store.now) self.old).0 }
        ensures queued { result.is_queued ≡ air.is_queued (air.behind taken store.now) self.old }
        ensures after { self.new ≡ (air.next_group (air.behind taken store.now) self.old).1 }
    {
        let station = main_service(store);
        if !self.is_other {
            return NextGroup {
                group: self.send_name(&station),
                is_queued: false,
            };
        }
        match first_waiting(store, taken) {
            None => NextGroup {
                group: self.send_text(&station),
                is_queued: false,
            },
            Some(first) => {
                self.is_other = false;
                NextGroup {
                    group: free_group(&station, first),
                    is_queued: true,
                }
            }
        }
    }

    /// The next group goes out: where it is one that waited, it is taken from the store.
    pub fn send(&mut self, store: &mut RdsStore) -> Group
        ensures { (result, store.new, self.new) ≡ air.aired store.old self.old }
    {
        let next = self.next_group(store);
        if next.is_queued {
            store.take_group();
        }
        next.group
    }

    fn send_name(&mut self, station: &Station<'_>) -> Group
        requires { station.now.head.pty < 32 }
        ensures group { result ≡ (air.send_name (service_of station.now) self.old).0 }
        ensures after { self.new ≡ (air.send_name (service_of station.now) self.old).1 }
    {
        let segment = if self.name == station.ps {
            turn(4, self.name_segment)
        } else {
            0
        };
        self.name = station.ps;
        self.name_segment = segment + 1;
        self.is_other = true;
        name_group(station, segment)
    }

    fn send_text(&mut self, station: &Station<'_>) -> Group
        requires pty { station.now.head.pty < 32 }
        requires few { length station.now.texts.now ≤ 8 }
        ensures group { result ≡ (air.send_text (service_of station.now) self.old).0 }
        ensures after { self.new ≡ (air.send_text (service_of station.now) self.old).1 }
    {
        self.turn_to_text(station.texts);
        let segment = self.text_segment;
        self.text_segment = segment + 1;
        self.is_other = false;
        let characters = four_of(self.text.as_slice(), segment);
        Group::text_a(station.head, self.flag, segment, characters)
    }

    /// Turns to the text of which a segment goes out next.
    fn turn_to_text(&mut self, texts: &[RadioText])
        requires { length texts.now ≤ 8 }
        ensures after { self.new ≡ choice.text_next (choice.line_up texts.now) self.old }
        ensures within { self.new.text_segment < choice.segment_count self.new.text }
    {
        match self.blanks {
            Some(left) if left > 0 => self.blank(left - 1),
            _ => self.choose(texts),
        }
    }

    /// An empty text goes out, and so many more behind it.
    fn blank(&mut self, left: u8)
        requires { left + 1 ≡ blanks_left self.old }
        ensures after { self.new ≡ choice.blanked self.old }
        ensures within { self.new.text_segment < choice.segment_count self.new.text }
    {
        self.text = ArrayVec::new();
        self.flag = false;
        self.place = 0;
        self.passes = 0;
        self.text_segment = 0;
        self.blanks = Some(left);
    }

    /// Goes on with the text that stands at its place, or begins with the first.
    fn choose(&mut self, texts: &[RadioText])
        requires { length texts.now ≤ 8 }
        ensures after { self.new ≡ choice.chosen (choice.line_up texts.now) self.old }
        ensures within { self.new.text_segment < choice.segment_count self.new.text }
    {
        if let Some(text) = text_at(texts, self.place) {
            if self.text.as_slice() == text.bytes {
                self.go_on(texts, text);
                return;
            }
        }
        self.begin(texts, 0);
    }

    /// Goes on with a text up to the end of a pass.
    fn go_on(&mut self, texts: &[RadioText], text: Offer<'_>)
        requires few { length texts.now ≤ 8 }
        requires place { self.old.place < length (choice.line_up texts.now) }
        requires same { self.old.text ≡ text.bytes.now }
        ensures after { self.new ≡ choice.gone_on (choice.line_up texts.now) (text_of text.entry) self.old }
        ensures within { self.new.text_segment < choice.segment_count self.new.text }
    {
        if self.text_segment < segment_count(text.bytes) {
            return;
        }
        if text.transmissions == 0 {
            self.passes = 0;
            self.text_segment = 0;
        } else if self.passes < text.transmissions - 1 {
            self.passes += 1;
            self.text_segment = 0;
        } else {
            let next = self.place + 1;
            self.begin(texts, if next < count(texts) { next } else { 0 });
        }
    }

    /// Begins with the text at a place.
    fn begin(&mut self, texts: &[RadioText], place: usize)
        ensures after { self.new ≡ choice.begun_at (choice.line_up texts.now) place self.old }
        ensures within { self.new.text_segment < choice.segment_count self.new.text }
    {
        match text_at(texts, place) {
            Some(text) => self.take_up(place, text),
            None => self.take_up(place, no_text()),
        }
    }

    fn take_up(&mut self, place: usize, text: Offer<'_>)
        requires { length text.bytes.now ≤ 64 }
        ensures after { self.new ≡ choice.begun place (text_of text.entry) self.old }
        ensures within { self.new.text_segment < choice.segment_count self.new.text }
    {
        if self.text.as_slice() != text.bytes {
            if text.toggle || self.blanks.is_some() {
                self.flag = !self.flag;
            }
            self.blanks = None;
        }
        self.text = text_in(text.bytes);
        self.place = place;
        self.passes = 0;
        self.text_segment = 0;
    }
}

/// A text of its own.
fn text_in(bytes: &[u8]) -> ArrayVec<u8, 64>
    requires { length bytes.now ≤ 64 }
    ensures { result.items ≡ bytes.now }
{
    let mut text = ArrayVec::new();
    match text.try_extend_from_slice(bytes) {
        Ok(()) => {}
        Err(_) => unreachable!(),
    }
    text
}

/// The first group that waits behind so many.
fn first_waiting(store: &RdsStore, taken: usize) -> Option<StoredGroup>
    ensures value { result ≡ slice_get (drop taken store.now.groups) 0 }
    ensures in_range { IfSome result (λ group. (group.kind < 32) × (group.bits < 32)) }
{
    store.groups().get(taken).copied()
}

/// The segment that comes next of so many, after the last one the first.
fn turn(count: u8, next: u8) -> u8
    requires { 0 < count }
    ensures value { result ≡ air.turn count next }
    ensures below { result < count }
{
    if next < count { next } else { 0 }
}

/// How many segments of four hold a text with its 0D, at most 16.
fn segment_count(bytes: &[u8]) -> u8
    requires { length bytes.now ≤ 64 }
    ensures value { result ≡ choice.segment_count bytes.now }
    ensures few { result ≤ 16 }
{
    ((bytes.len() / 4 + 1) as u8).min(16)
}

/// A 0A with a segment of the name.
fn name_group(station: &Station<'_>, segment: u8) -> Group
    requires pty { station.now.head.pty < 32 }
    requires segment { segment < 4 }
    ensures { result ≡ air.name_group (service_of station.now) segment }
{
    let place = 2 * usize::from(segment);
    let characters = [station.ps[place], station.ps[place + 1]];
    let segment = Segment {
        ta: station.ta,
        music: station.music,
        decoder: false,
        segment,
        characters,
    };
    Group::name_a(station.head, segment, 0xe0e0)
}

/// A group of the store.
fn free_group(station: &Station<'_>, group: StoredGroup) -> Group
    requires pty { station.now.head.pty < 32 }
    requires kind { group.kind < 32 }
    requires bits { group.bits < 32 }
    ensures { result ≡ air.free_group (service_of station.now) group }
{
    let block3 = third_block(station.head.pi, &group);
    Group::of_kind(group.kind, station.head, group.bits, block3, group.block4)
}

/// Block 3 of a group of the store as it goes out: in version B the PI, whatever was stored.
fn third_block(pi: u16, group: &StoredGroup) -> u16
    ensures { result ≡ air.third_block pi group.now.kind group.now.block3 }
{
    if group.kind % 2 == 1 {
        pi
    } else {
        group.block3
    }
}

/// The four characters of a segment of a text.
fn four_of(bytes: &[u8], segment: u8) -> [u8; 4]
    ensures { result ≡ air.four_of bytes.now segment }
{
    let place = 4 * usize::from(segment);
    [
        character(bytes, place),
        character(bytes, place + 1),
        character(bytes, place + 2),
        character(bytes, place + 3),
    ]
}

/// The character that a text sends at a place: after its last byte 0D, and then spaces.
fn character(bytes: &[u8], place: usize) -> u8
    ensures { result ≡ air.sent bytes.now place }
{
    if place < bytes.len() {
        bytes[place]
    } else if place == bytes.len() {
        0x0d
    } else {
        0x20
    }
}
