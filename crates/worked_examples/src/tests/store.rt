mod memory;

use crate::tests::asserting::{holds, same};
use crate::tests::making::store_of;
use faulty_io::{ADD, pi_of, texts_of};
use rds_store::{Group, RdsStore, Service, StoreFault};
use std::alloc::Global;
use std::process::Abort;
use uecp_elements::{Code, Element};

/// A message, and the code with which it is answered.
type Exchange<'a> = (&'a [u8], Code);

/// The store answers the message with this code.
fn answers(rt: &impl Abort, store: &mut RdsStore, message: &[u8], code: Code) {
    same!(rt; store.apply(message), code, message);
}

/// The store answers each message with its code.
fn answers_each(rt: &impl Abort, store: &mut RdsStore, exchanges: &[Exchange<'_>]) {
    for (message, code) in exchanges {
        answers(rt, store, message, *code);
    }
}

#[test]
fn one_full_set_refuses_a_text_for_all_sets(rt: HostRuntime) {
    let mut store = store_of(&rt, rt.alloc(), 2, &[0x01]);
    let to_set_2 = [0x0a, 0x02, 0x00, 0x03, 0x40, 0x48, 0x49];
    for _ in 0..8 {
        answers(&rt, &mut store, &to_set_2, Code::Applied);
    }
    same!(rt; texts_of(&store, 2), Some(8));
    let to_all = [0x0a, 0xff, 0x00, 0x03, 0x40, 0x48, 0x49];
    answers(&rt, &mut store, &to_all, Code::BufferFull);
    same!(rt; texts_of(&store, 1), Some(0));
    same!(rt; texts_of(&store, 2), Some(8));
}

/// Elements for all sets but the current one.
const TO_THE_OTHERS: [Exchange<'_>; 3] = [
    (&[0x01, 0xfe, 0x00, 0x12, 0x34], Code::Applied),
    (&[0x01, 0xfe, 0x05, 0x12, 0x34], Code::Service),
    (&[0x07, 0xfe, 0x00, 0x20], Code::OutOfRange),
];

#[test]
fn all_but_the_current_of_one_set_is_no_set_and_no_refusal(rt: HostRuntime) {
    let mut store = store_of(&rt, rt.alloc(), 1, &[0x01]);
    answers_each(&rt, &mut store, &TO_THE_OTHERS);
    same!(rt; pi_of(&store, 1), Some(0));
}

#[test]
fn what_came_before_an_unknown_element_is_not_kept(rt: HostRuntime) {
    let mut store = store_of(&rt, rt.alloc(), 1, &[0x01]);
    let message = [0x01, 0x00, 0x00, 0x12, 0x34, 0x99];
    answers(&rt, &mut store, &message, Code::UnknownElement);
    same!(rt; pi_of(&store, 1), Some(0));
}

/// The current set is this one, and the second has this programme.
fn has_current(rt: &impl Abort, store: &RdsStore, set: u8, pi: u16) {
    same!(rt; (store.current(), pi_of(store, 2)), (set, Some(pi)));
}

#[test]
fn a_selection_acts_with_its_whole_message_or_not_at_all(rt: HostRuntime) {
    let mut store = store_of(&rt, rt.alloc(), 2, &[0x01]);
    let refused = b"\x1C\x02\x01\x00\x00\xAB\xCD\x24\x20\x40\x00\x00\x00\x00";
    answers(&rt, &mut store, refused, Code::OutOfRange);
    has_current(&rt, &store, 1, 0);
    let applied = b"\x1C\x02\x01\x00\x00\x12\x34";
    answers(&rt, &mut store, applied, Code::Applied);
    has_current(&rt, &store, 2, 0x1234);
    answers(&rt, &mut store, refused, Code::OutOfRange);
    has_current(&rt, &store, 2, 0x1234);
}

/// The store answers the message with this code, and then has so many texts.
fn answers_and_has(
    rt: &impl Abort,
    store: &mut RdsStore,
    message: &[u8],
    (code, texts): (Code, usize),
) {
    answers(rt, store, message, code);
    same!(rt; texts_of(store, 1), Some(texts), message);
}

#[test]
fn texts_of_one_message_are_added_all_or_none(rt: HostRuntime) {
    let mut store = store_of(&rt, rt.alloc(), 1, &[0x01]);
    let nine = [ADD; 9];
    let texts = nine.as_flattened();
    answers_and_has(&rt, &mut store, texts, (Code::BufferFull, 0));
    let eight = [ADD; 8];
    let texts = eight.as_flattened();
    answers_and_has(&rt, &mut store, texts, (Code::Applied, 8));
    let empty_and_add = b"\x0A\x00\x00\x00\x0A\x00\x00\x03\x40\x48\x49";
    answers_and_has(&rt, &mut store, empty_and_add, (Code::Applied, 1));
}

#[test]
fn groups_of_a_refused_message_leave_the_queue(rt: HostRuntime) {
    let mut store = store_of(&rt, rt.alloc(), 1, &[0x01]);
    let add = b"\x24\x04\x41\x12\x34\x56\x78";
    answers(&rt, &mut store, add, Code::Applied);
    let add_replace_and_fail = b"\x24\x06\x40\x00\x01\x00\x02\x24\x06\x00\x00\x03\x00\x04\x99";
    answers(&rt, &mut store, add_replace_and_fail, Code::UnknownElement);
    let group = Group {
        kind: 0x04,
        bits: 0x01,
        block3: 0x1234,
        block4: 0x5678,
    };
    same!(rt; store.groups(), [group].as_slice());
}

/// Texts that a set takes, and texts that it refuses, with its code and how many texts it then has.
const TEXTS: [(&[u8], (Code, usize)); 7] = [
    (&[0x0a, 0x00, 0x00, 0x01, 0x00], (Code::Applied, 1)),
    (&[0x0a, 0x00, 0x00, 0x00], (Code::Applied, 0)),
    (&[0x0a, 0x00, 0x00, 0x42], (Code::ElementLength, 0)),
    (
        &[0x0a, 0x00, 0x00, 0x03, 0x40, 0x48],
        (Code::ElementLength, 0),
    ),
    (&[0x0a, 0x00, 0x00, 0x01, 0x20], (Code::OutOfRange, 0)),
    (&[0x0a, 0x00, 0x00, 0x01, 0x60], (Code::OutOfRange, 0)),
    (&ADD, (Code::Applied, 1)),
];

/// Texts that a set takes, and texts that it refuses.
fn takes_and_refuses_texts(rt: &impl Abort, store: &mut RdsStore) {
    for (message, comes_to) in &TEXTS {
        answers_and_has(rt, store, message, *comes_to);
    }
}

#[test]
fn texts_that_are_empty_removed_cut_or_of_a_wrong_rule(rt: HostRuntime) {
    let mut store = store_of(&rt, rt.alloc(), 1, &[0x01]);
    takes_and_refuses_texts(&rt, &mut store);
}

/// Groups fill the queue, and then one that stands alone takes the place of all.
fn fills_its_queue(rt: &impl Abort, store: &mut RdsStore) {
    let add = b"\x24\x00\x43\x12\x34\x56\x78";
    let group = Group {
        kind: 0x00,
        bits: 0x03,
        block3: 0x1234,
        block4: 0x5678,
    };
    for count in 1..33 {
        answers(rt, store, add, Code::Applied);
        same!(rt; store.groups().len(), count);
    }
    same!(rt; store.groups().first().copied(), Some(group));
    answers(rt, store, add, Code::BufferFull);
    let out_of_range = b"\x24\x20\x40\x00\x00\x00\x00";
    answers(rt, store, out_of_range, Code::OutOfRange);
    same!(rt; store.groups().len(), 32);
    let alone = b"\x24\x00\x03\x12\x34\x56\x78";
    answers(rt, store, alone, Code::Applied);
    same!(rt; store.groups(), [group].as_slice());
}

#[test]
fn groups_up_to_the_last_that_there_is_room_for(rt: HostRuntime) {
    let mut store = store_of(&rt, rt.alloc(), 1, &[0x01]);
    fills_its_queue(&rt, &mut store);
}

/// The second set is selected, and then it and the other are named.
const NAMED: [Exchange<'_>; 3] = [
    (&[0x1c, 0x02], Code::Applied),
    (&[0x01, 0x00, 0x00, 0xab, 0xcd], Code::Applied),
    (&[0x01, 0xfe, 0x00, 0x11, 0x11], Code::Applied),
];

/// What then changes nothing.
const REFUSED: [Exchange<'_>; 7] = [
    (&[0x1c, 0x03], Code::DataSet),
    (&[0x1c, 0xfe], Code::DataSet),
    (&[0x1c, 0x00], Code::Applied),
    (&[0x07, 0x03, 0x05, 0xff], Code::DataSet),
    (&[0x07, 0x01, 0x05, 0xff], Code::Service),
    (&[0x07, 0x01, 0x00, 0x20], Code::OutOfRange),
    (&[0x18, 0x00, 0x01], Code::NotHere),
];

#[test]
fn sets_that_are_selected_named_or_not_there(rt: HostRuntime) {
    let mut store = store_of(&rt, rt.alloc(), 2, &[0x01]);
    answers_each(&rt, &mut store, &NAMED);
    has_current(&rt, &store, 2, 0xabcd);
    same!(rt; pi_of(&store, 1), Some(0x1111));
    answers_each(&rt, &mut store, &REFUSED);
    same!(rt; store.current(), 2);
}

/// How many sets and which services make no store, and the fault with its number and name.
const FAULTS: [(u8, &[u8], StoreFault, u8, &str); 4] = [
    (9, &[], StoreFault::SetCount, 1, "SetCount"),
    (1, &[], StoreFault::ServiceCount, 2, "ServiceCount"),
    (1, &[1, 1, 0], StoreFault::ServiceZero, 3, "ServiceZero"),
    (1, &[1, 1], StoreFault::ServiceTwice, 4, "ServiceTwice"),
];

/// Why there is no store with so many sets and these services.
fn fault_of(alloc: Global, sets: u8, services: &[u8]) -> Option<StoreFault> {
    RdsStore::new(alloc, sets, services).err()
}

#[test]
fn sets_and_services_that_make_no_store(rt: HostRuntime) {
    for (sets, services, fault, number, name) in &FAULTS {
        same!(rt; fault_of(rt.alloc(), *sets, services), Some(*fault));
        same!(rt; (fault.number(), fault.name()), (*number, *name));
    }
}

/// A new store of eight sets with services 05 and 02.
fn is_new(rt: &impl Abort, store: &RdsStore) {
    same!(rt; store.set_count(), 8);
    same!(rt; (store.service_number(0), store.service_number(1)), (Some(0x05), Some(0x02)));
    same!(rt; store.service_number(2), None);
    holds!(rt; store.service(1, 0x00).is_none() && store.service(9, 0x02).is_none());
    let new = store.service(8, 0x02).expect(rt, "service 02 of set 8");
    same!(rt; (new.pi(), new.pty(), new.texts().len()), (0, 0, 0));
    same!(rt; new.ps(), b"        ");
    holds!(rt; !new.tp() && !new.ta() && !new.music() && store.groups().is_empty());
    same!(rt; store.current(), 1);
}

#[test]
fn a_new_store_shows_its_sets_and_services(rt: HostRuntime) {
    let store = store_of(&rt, rt.alloc(), 8, &[0x05, 0x02]);
    is_new(&rt, &store);
}

/// Elements for service 02 of set 8, which tell its attributes.
const TOLD: [Exchange<'_>; 4] = [
    (b"\x02\x08\x02RADIO 1 ", Code::Applied),
    (
        &[0x03, 0x08, 0x02, 0xfd, 0x05, 0x08, 0x02, 0x01],
        Code::Applied,
    ),
    (&[0x07, 0x08, 0x02, 0x1f], Code::Applied),
    (&[0x0a, 0x08, 0x02, 0x03, 0x9f, 0x48, 0x49], Code::Applied),
];

/// Elements for service 02 of set 8 tell its attributes.
fn shows_what_was_told(rt: &impl Abort, store: &mut RdsStore) {
    answers_each(rt, store, &TOLD);
    let select = Element::Select { dsn: 0x08 };
    same!(rt; store.apply_element(&select), Code::Applied);
    same!(rt; store.current(), 8);
    shows(rt, store.service(8, 0x02).expect(rt, "service 02 of set 8"));
}

/// The service shows what it was told.
fn shows(rt: &impl Abort, shown: &Service) {
    same!(rt; shown.ps(), b"RADIO 1 ");
    same!(rt; (shown.tp(), shown.ta(), shown.music(), shown.pty()), (false, true, true, 0x1f));
    let text = shown.texts().first().expect(rt, "a text");
    same!(rt; (text.toggle(), text.transmissions()), (true, 15));
    same!(rt; text.text(), b"HI".as_slice());
}

#[test]
fn a_service_shows_what_its_elements_told(rt: HostRuntime) {
    let mut store = store_of(&rt, rt.alloc(), 8, &[0x05, 0x02]);
    shows_what_was_told(&rt, &mut store);
}

/// The kind of the group that is taken, if any is.
fn takes_kind(store: &mut RdsStore) -> Option<u8> {
    store.take_group().map(|group| group.kind)
}

/// Groups are queued and taken, and some are undone.
fn gives_its_groups(rt: &impl Abort, store: &mut RdsStore) {
    same!(rt; store.take_group(), None);
    for kind in 0..3u8 {
        let add = [0x24, kind, 0x40, 0, 0, 0, 0];
        answers(rt, store, &add, Code::Applied);
    }
    same!(rt; takes_kind(store), Some(0));
    // A group that stands alone, and then an unknown element: the message is undone, up to the take before it.
    let refused = b"\x24\x05\x00\x00\x00\x00\x00\x99";
    answers(rt, store, refused, Code::UnknownElement);
    same!(rt; store.groups().len(), 2);
    same!(rt; takes_kind(store), Some(1));
    same!(rt; takes_kind(store), Some(2));
    same!(rt; store.take_group(), None);
    answers(rt, store, refused, Code::UnknownElement);
    holds!(rt; store.groups().is_empty());
}

#[test]
fn groups_are_taken_one_by_one_and_a_refused_message_brings_none_back(rt: HostRuntime) {
    let mut store = store_of(&rt, rt.alloc(), 1, &[0x01]);
    gives_its_groups(&rt, &mut store);
}
