//! An encoder where memory is wanting.
use super::{PI_1, gives_each_code};
use crate::tests::asserting::{holds, same};
use crate::tests::making::{scarce_memory, store_encoder};
use faulty_io::{
    APPLIED_1, CountTarget, FaultyReader, FaultyWriter, ScarceMemory, own_address, replies,
};
use rds_store::RdsStore;
use std::alloc::Global;
use std::process::Abort;
use uecp_encoder::{Encoder, Meter, Served, serve};

/// A target that was given messages before.
const TARGET: CountTarget = CountTarget {
    messages: 3,
    bytes: 5,
};

/// Whether there was memory for a new encoder, which applies a message; else its target is handed back.
fn is_made(rt: &impl Abort, alloc: Global) -> bool {
    match Encoder::new(alloc, own_address(), TARGET) {
        Ok(mut encoder) => {
            holds!(rt; replies(&mut encoder, &PI_1, &APPLIED_1, true));
            true
        }
        Err(fault) => {
            same!(rt; fault.target, TARGET);
            false
        }
    }
}

/// How often a new encoder was refused before there was memory for it.
fn refusals(rt: &impl Abort, alloc: Global, memory: &mut ScarceMemory) -> usize {
    for refused in 0..128 {
        if is_made(rt, alloc) {
            return refused;
        }
        memory.give();
    }
    holds!(rt; false, "always refused");
    0
}

#[test]
fn a_new_encoder_hands_the_target_back_where_memory_is_wanting(rt: HostRuntime) {
    let mut memory = scarce_memory(&rt, rt.alloc(), 4096);
    holds!(rt; refusals(&rt, rt.alloc(), &mut memory) > 0);
}

/// A repeat comes many times, and behind each a segment that is dropped.
fn comes_again(rt: &impl Abort, encoder: &mut Encoder<RdsStore>) {
    for _ in 0..10_000 {
        holds!(rt; replies(encoder, &PI_1, &APPLIED_1, false));
        same!(rt; encoder.feed(b"\xFE\x00\xFF\xFE").used, 3);
        encoder.line_lost();
        holds!(rt; encoder.take_group().is_none());
    }
}

/// A frame is served, and answered.
fn serves_one(rt: &impl Abort, encoder: &mut Encoder<RdsStore>) {
    let mut input = Meter::new(FaultyReader::new(&PI_1));
    let mut output = Meter::new(FaultyWriter::new());
    let served = serve(encoder, &mut input, &mut output, 2);
    let one = Served {
        read: 13,
        replies: 1,
    };
    same!(rt; served, Ok(one));
}

#[test]
fn an_encoder_takes_no_memory_for_what_it_hears(rt: HostRuntime) {
    let mut encoder = store_encoder(&rt, rt.alloc(), 2);
    let _memory = scarce_memory(&rt, rt.alloc(), 0);
    gives_each_code(&rt, &mut encoder);
    comes_again(&rt, &mut encoder);
    serves_one(&rt, &mut encoder);
}
