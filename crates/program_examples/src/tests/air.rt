//! Check words as another program computes them, groups that a receiver of another maker was given, and a store that
//! sends them.
mod vectors;

use crate::tests::air::vectors::{FIRST, SECOND, SENT_BITS, THIRD};
use crate::tests::asserting::{holds, same};
use carousel::Carousel;
use rds_groups::{HeardGroup, Receiver, Synchroniser, check_word, line, read_line};
use rds_store::RdsStore;

/// Whether each line is a group's; the receiver hears them.
fn is_heard(receiver: &mut Receiver, lines: &[&str]) -> bool {
    for text in lines {
        match read_line(text.as_bytes()) {
            Some(group) => receiver.hear(&HeardGroup::whole(&group)),
            None => return false,
        }
    }
    true
}

/// How many groups these bits have; the receiver hears them.
fn groups_heard_in(receiver: &mut Receiver, lines: &[&str]) -> u64 {
    let mut synchroniser = Synchroniser::new();
    let mut count: u64 = 0;
    for line in lines {
        for character in line.as_bytes() {
            if let Some(heard) = synchroniser.take_character(*character) {
                receiver.hear(&heard);
                count = count.saturating_add(1);
            }
        }
    }
    count
}

/// Whether the receiver shows this text.
fn is_shown(receiver: &Receiver, text: &[u8]) -> bool {
    match receiver.text_shown() {
        Some(shown) => shown.as_slice() == text,
        None => false,
    }
}

/// Whether these groups go out.
fn is_sent(carousel: &mut Carousel, store: &mut RdsStore, lines: &[&str]) -> bool {
    for text in lines {
        let sent = line(&carousel.send(store));
        if sent.as_slice() != text.as_bytes() {
            return false;
        }
    }
    true
}

/// PI C201, PS, TP, music, PTY 10 and a text.
fn make_first(store: &mut RdsStore) {
    store.apply(&[0x01, 0x00, 0x00, 0xc2, 0x01]);
    store.apply(b"\x02\x00\x00RADIO 1 ");
    store.apply(&[0x03, 0x00, 0x00, 0x02]);
    store.apply(&[0x05, 0x00, 0x00, 0x01]);
    store.apply(&[0x07, 0x00, 0x00, 0x0a]);
    store.apply(
        b"\x0a\x00\x00\x3d\x00Now: the concert from the great hall, until midnight tonight",
    );
}

#[test]
fn check_words(rt: HostRuntime) {
    same!(rt; check_word(0x0000), 0x000);
    same!(rt; check_word(0x0001), 0x1b9);
    same!(rt; check_word(0x5241), 0x1da);
    same!(rt; check_word(0xc201), 0x291);
    same!(rt; check_word(0xffff), 0x0cd);
}

#[test]
fn groups_heard(rt: HostRuntime) {
    let mut receiver = Receiver::new();
    holds!(rt; is_heard(&mut receiver, FIRST));
    same!(rt; receiver.pi, Some(0xc201));
    same!(rt; receiver.pty, Some(10));
    same!(rt; receiver.name, Some(*b"RADIO 1 "));
    holds!(rt; is_shown(&receiver, b"Now: the concert from the great hall, until midnight tonight"));
    holds!(rt; is_heard(&mut receiver, SECOND));
    same!(rt; receiver.name, Some(*b"RAGTIME!"));
    holds!(rt; is_shown(&receiver, b"News"));
    holds!(rt; is_heard(&mut receiver, THIRD));
    same!(rt; receiver.pty, Some(1));
    same!(rt; receiver.ta, Some(true));
    same!(rt; receiver.music, Some(false));
    holds!(rt; is_shown(&receiver, b"0123456789abcdef0123456789abcdef0123456789abcdef0123456789abcdef"));
}

#[test]
fn store_sent(rt: HostRuntime) {
    let mut store = match RdsStore::new(rt.alloc(), 1, &[0x01]) {
        Ok(store) => store,
        Err(_) => return,
    };
    let mut carousel = Carousel::new();
    make_first(&mut store);
    holds!(rt; is_sent(&mut carousel, &mut store, FIRST));
    store.apply(b"\x02\x00\x00RAGTIME!");
    store.apply(&[0x03, 0x00, 0x00, 0x03]);
    store.apply(b"\x0a\x00\x00\x05\x00News");
    holds!(rt; is_sent(&mut carousel, &mut store, SECOND));
    // A group of type 6A waits, and has the text's turn.
    store.apply(&[0x24, 0x0c, 0x15, 0x12, 0x34, 0x56, 0x78]);
    holds!(rt; is_sent(&mut carousel, &mut store, &["C201 6555 1234 5678"]));
}

/// Half of what a start sends first: a name of spaces, and an empty text under flag 0.
const START: &[&str] = &[
    "C201 0000 E0E0 2020",
    "C201 2000 0D20 2020",
    "C201 0001 E0E0 2020",
    "C201 2000 0D20 2020",
    "C201 0002 E0E0 2020",
    "C201 2000 0D20 2020",
    "C201 0003 E0E0 2020",
    "C201 2000 0D20 2020",
];

#[test]
fn start_sent(rt: HostRuntime) {
    let mut store = match RdsStore::new(rt.alloc(), 1, &[0x01]) {
        Ok(store) => store,
        Err(_) => return,
    };
    let mut carousel = Carousel::restarted();
    store.apply(&[0x01, 0x00, 0x00, 0xc2, 0x01]);
    store.apply(b"\x0a\x00\x00\x05\x00News");
    holds!(rt; is_sent(&mut carousel, &mut store, START));
    holds!(rt; is_sent(&mut carousel, &mut store, START));
    // The text, whose toggle is not set, goes out under flag 1.
    holds!(rt; is_sent(&mut carousel, &mut store, &["C201 0000 E0E0 2020", "C201 2010 4E65 7773"]));
    holds!(rt; is_sent(&mut carousel, &mut store, &["C201 0001 E0E0 2020", "C201 2011 0D20 2020"]));
}

#[test]
fn bits_of_another_sender(rt: HostRuntime) {
    let mut receiver = Receiver::new();
    same!(rt; groups_heard_in(&mut receiver, SENT_BITS), 4);
    same!(rt; receiver.pi, Some(0xd393));
    same!(rt; receiver.name, Some(*b"WDR 3   "));
}
