//! What the tests begin with, each made by a function of its own: a test that gave up with `?` where memory is wanting
//! would drop what it owns on one way out more.
use faulty_io::{CountTarget, ScarceMemory, new_encoder, new_store_encoder};
use rds_store::RdsStore;
use reply_ring::ReplyRing;
use std::alloc::Global;
use std::process::Abort;
use uecp_encoder::Encoder;

/// No memory but so many bytes, which are given back in parts.
pub(crate) fn scarce_memory(rt: &impl Abort, alloc: Global, room: usize) -> ScarceMemory {
    ScarceMemory::take_all(alloc, room).expect(rt, "scarce memory")
}

/// A new ring.
pub(crate) fn new_ring(rt: &impl Abort, alloc: Global) -> ReplyRing {
    ReplyRing::new(alloc).expect(rt, "a ring")
}

/// A new store with this many data sets and these services.
pub(crate) fn store_of(rt: &impl Abort, alloc: Global, sets: u8, services: &[u8]) -> RdsStore {
    RdsStore::new(alloc, sets, services).expect(rt, "a store")
}

/// A new encoder over a store with this many data sets and service 01.
pub(crate) fn store_encoder(rt: &impl Abort, alloc: Global, sets: u8) -> Encoder<RdsStore> {
    new_store_encoder(alloc, sets).expect(rt, "an encoder")
}

/// A new encoder over a target that counts.
pub(crate) fn count_encoder(rt: &impl Abort, alloc: Global) -> Encoder<CountTarget> {
    new_encoder(alloc, CountTarget::default()).expect(rt, "an encoder")
}
