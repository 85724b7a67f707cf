mod memory;

use crate::tests::asserting::{holds, same};
use crate::tests::making::new_ring;
use reply_ring::ReplyRing;
use std::process::Abort;
use uecp_elements::Code;

/// Two replies are kept, and none for a third counter.
fn keeps_two(rt: &impl Abort, ring: &mut ReplyRing) {
    holds!(rt; ring.is_empty());
    same!(rt; ring.newest(), None);
    ring.keep(1, Code::Applied);
    same!(rt; ring.newest(), Some(1));
    ring.keep(2, Code::BufferFull);
    same!(rt; ring.newest(), Some(2));
    same!(rt; ring.find(1), Some(Code::Applied));
    same!(rt; ring.find(2), Some(Code::BufferFull));
    same!(rt; ring.find(3), None);
    same!(rt; ring.len(), 2);
}

#[test]
fn two_replies_kept_and_none_for_a_third_counter(rt: HostRuntime) {
    let mut ring = new_ring(&rt, rt.alloc());
    keeps_two(&rt, &mut ring);
}

/// Replies to 128 counters are kept.
fn keeps_128(rt: &impl Abort, ring: &mut ReplyRing) {
    for counter in 1..129 {
        if ring.find(counter).is_none() {
            ring.keep(counter, Code::DataSet);
        }
    }
    same!(rt; ring.find(1), None);
    same!(rt; ring.find(2), Some(Code::DataSet));
    same!(rt; ring.find(128), Some(Code::DataSet));
    same!(rt; ring.newest(), Some(128));
    same!(rt; ring.len(), 127);
}

#[test]
fn the_128th_reply_drops_the_first(rt: HostRuntime) {
    let mut ring = new_ring(&rt, rt.alloc());
    keeps_128(&rt, &mut ring);
}

/// The code that the newest pair with the counter has.
fn find_in(pairs: &[(u8, Code)], counter: u8) -> Option<Code> {
    for pair in pairs {
        if pair.0 == counter {
            return Some(pair.1);
        }
    }
    None
}

/// The ring finds what these pairs have, the newest first.
fn is_as(rt: &impl Abort, ring: &ReplyRing, pairs: &[(u8, Code)]) {
    for asked in 0..=255 {
        same!(rt; ring.find(asked), find_in(pairs, asked));
    }
    same!(rt; ring.newest(), pairs.first().map(|pair| pair.0));
    same!(rt; ring.len(), pairs.len());
}

/// The reply is kept by the ring under the counter after so many steps, and put before the pairs, of which 127 stay.
fn is_kept(
    rt: &impl Abort,
    ring: &mut ReplyRing,
    pairs: &mut Vec<(u8, Code)>,
    steps: usize,
    code: Code,
) {
    let counter = (steps % 255) as u8 + 1;
    if ring.find(counter).is_none() {
        ring.keep(counter, code);
        pairs.insert(0, (counter, code)).expect(rt, "memory");
        pairs.truncate(127);
    }
}

/// The codes that are kept in turn.
const CODES: [Code; 4] = [
    Code::Applied,
    Code::DataSet,
    Code::Service,
    Code::BufferFull,
];

#[test]
fn a_thousand_replies_beside_a_plain_list_of_pairs(rt: HostRuntime) {
    let mut ring = new_ring(&rt, rt.alloc());
    let mut pairs = Vec::new(rt.alloc());
    for number in 0..1000 {
        let steps = number * (1 + number / 400);
        is_kept(&rt, &mut ring, &mut pairs, steps, CODES[number % 4]);
        is_as(&rt, &ring, pairs.as_slice());
    }
}
