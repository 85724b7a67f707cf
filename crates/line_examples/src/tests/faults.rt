//! What each fault and each refusal of a line says as an error.
use crate::tests::asserting::same;
use std::error::Error;
use std::fmt::InlineText;
use std::process::Abort;
use uecp_link::{DriveFault, LineRefusal};

/// The fault's text is this.
fn says<E: Error>(rt: &impl Abort, fault: E, text: &str) {
    same!(rt; InlineText::<80>::of(fault).as_str(), text);
}

const DRIVE: [(DriveFault, &str); 3] = [
    (
        DriveFault::WriteFailed { written: 13 },
        "writing failed after 13 bytes",
    ),
    (DriveFault::Closed, "the input ended"),
    (
        DriveFault::TriesSpent,
        "all tries ended without an acknowledgement",
    ),
];

const REFUSALS: [(LineRefusal, &str); 5] = [
    (
        LineRefusal::Busy,
        "eight messages were sent from the oldest unacknowledged one on",
    ),
    (
        LineRefusal::NotSent,
        "there is no such message yet, or no reply to it yet",
    ),
    (
        LineRefusal::TooLate,
        "more than 126 messages were numbered after it",
    ),
    (
        LineRefusal::HoldsAFrame,
        "a whole frame stands in the noise",
    ),
    (
        LineRefusal::OutOfMemory,
        "there was no memory for the message",
    ),
];

#[test]
fn each_fault_and_each_refusal_says_what_it_is(rt: HostRuntime) {
    for (fault, text) in DRIVE {
        says(&rt, fault, text);
    }
    for (refusal, text) in REFUSALS {
        says(&rt, refusal, text);
    }
}
