//! A store where memory is wanting.
use super::answers;
use crate::tests::asserting::{holds, same};
use crate::tests::making::{scarce_memory, store_of};
use faulty_io::ScarceMemory;
use rds_store::{RdsStore, StoreFault};
use std::alloc::Global;
use std::process::Abort;
use uecp_elements::{Code, Element};

/// A message with each element, in all sets.
const ALL: [u8; 44] =
    *b"\x01\xFF\x08\x12\x34\x02\xFF\x08RADIO 1 \x03\xFF\x08\x03\x05\xFF\x08\x01\x07\xFF\x08\x1F\x0A\xFF\x08\x03\x40\x48\x49\x1C\x08\x24\x00\x40\x12\x34\x56\x78";

/// Whether there was memory for a new store, which has its sets and services.
fn is_made(rt: &impl Abort, alloc: Global) -> bool {
    match RdsStore::new(alloc, 8, &[1, 2, 3, 4, 5, 6, 7, 8]) {
        Ok(store) => {
            same!(rt; (store.set_count(), store.service_number(7)), (8, Some(8)));
            true
        }
        Err(fault) => {
            same!(rt; fault, StoreFault::OutOfMemory);
            false
        }
    }
}

/// How often a new store was refused before there was memory for it.
fn refusals(rt: &impl Abort, alloc: Global, memory: &mut ScarceMemory) -> usize {
    for refused in 0..1 << 14 {
        if is_made(rt, alloc) {
            return refused;
        }
        memory.give();
    }
    holds!(rt; false, "always refused");
    0
}

#[test]
fn a_new_store_answers_want_of_memory(rt: HostRuntime) {
    let mut memory = scarce_memory(&rt, rt.alloc(), 1 << 18);
    let refused = refusals(&rt, rt.alloc(), &mut memory);
    // It has many more bytes than requests.
    holds!(rt; refused > 100, refused);
}

/// A message with each element is applied as often as there is room for its text.
fn fills_its_texts(rt: &impl Abort, store: &mut RdsStore) {
    for _ in 0..8 {
        answers(rt, store, &ALL, Code::Applied);
    }
    answers(rt, store, &ALL, Code::BufferFull);
    let shown = store.service(8, 8).expect(rt, "service 08 of set 8");
    same!(rt; (shown.pi(), shown.texts().len(), store.groups().len()), (0x1234, 8, 8));
    same!(rt; store.apply_element(&Element::Select { dsn: 2 }), Code::Applied);
    holds!(rt; store.take_group().is_some());
}

#[test]
fn a_store_takes_no_memory_for_messages(rt: HostRuntime) {
    let mut store = store_of(&rt, rt.alloc(), 8, &[1, 2, 3, 4, 5, 6, 7, 8]);
    let _memory = scarce_memory(&rt, rt.alloc(), 0);
    fills_its_texts(&rt, &mut store);
}
