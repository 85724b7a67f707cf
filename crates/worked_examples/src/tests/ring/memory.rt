//! A ring where memory is wanting.
use crate::tests::asserting::{holds, same};
use crate::tests::making::{new_ring, scarce_memory};
use faulty_io::ScarceMemory;
use reply_ring::ReplyRing;
use std::alloc::Global;
use std::process::Abort;
use uecp_elements::Code;

/// Whether there was memory for a new ring, which is empty.
fn is_made(rt: &impl Abort, alloc: Global) -> bool {
    match ReplyRing::new(alloc) {
        Ok(ring) => {
            holds!(rt; ring.is_empty());
            true
        }
        Err(_) => false,
    }
}

/// How often a new ring was refused before there was memory for it.
fn refusals(rt: &impl Abort, alloc: Global, memory: &mut ScarceMemory) -> usize {
    for refused in 0..128 {
        if is_made(rt, alloc) {
            return refused;
        }
        memory.give();
    }
    holds!(rt; false, "always refused");
    0
}

#[test]
fn a_new_ring_answers_want_of_memory(rt: HostRuntime) {
    let mut memory = scarce_memory(&rt, rt.alloc(), 4096);
    holds!(rt; refusals(&rt, rt.alloc(), &mut memory) > 0);
}

/// A thousand replies are kept and found.
fn keeps_a_thousand(rt: &impl Abort, ring: &mut ReplyRing) {
    for number in 0..1000_usize {
        let counter = (number % 255) as u8 + 1;
        if ring.find(counter).is_none() {
            ring.keep(counter, Code::BufferFull);
        }
        same!(rt; ring.find(counter), Some(Code::BufferFull));
        holds!(rt; ring.newest().is_some());
    }
    same!(rt; ring.len(), 127);
}

#[test]
fn a_ring_takes_no_memory_for_replies(rt: HostRuntime) {
    let mut ring = new_ring(&rt, rt.alloc());
    let _memory = scarce_memory(&rt, rt.alloc(), 0);
    keeps_a_thousand(&rt, &mut ring);
}
