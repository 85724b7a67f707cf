//! What each fault of the crates below the line says as an error.
use crate::tests::asserting::same;
use faulty_io::CountTarget;
use rds_store::StoreFault;
use std::error::Error;
use std::fmt::InlineText;
use std::process::Abort;
use uecp_elements::{Code, ElementFault};
use uecp_encoder::{EncoderFault, Failed, ServeFault};
use uecp_frame::{FrameFault, Full};

/// The fault's text is this.
fn says<E: Error>(rt: &impl Abort, fault: E, text: &str) {
    same!(rt; InlineText::<80>::of(fault).as_str(), text);
}

/// The text of each of these faults is the one beside it.
fn each_says<E: Error + Copy>(rt: &impl Abort, rows: &[(E, &str)]) {
    for (fault, text) in rows {
        says(rt, *fault, text);
    }
}

const FRAME: [(FrameFault, &str); 6] = [
    (FrameFault::Unended, "no FF ends the segment"),
    (
        FrameFault::BadStuffing(14),
        "the FD at byte 14 is not followed by 00, 01 or 02",
    ),
    (
        FrameFault::TooLong,
        "another byte stands after 261 plain bytes",
    ),
    (FrameFault::TooShort, "fewer than 6 plain bytes"),
    (
        FrameFault::WrongLength,
        "the length field is not the number of plain bytes less 6",
    ),
    (
        FrameFault::WrongCheck,
        "the last two plain bytes are not the check of those before them",
    ),
];

const STORE: [(StoreFault, &str); 5] = [
    (StoreFault::SetCount, "SetCount"),
    (StoreFault::ServiceCount, "ServiceCount"),
    (StoreFault::ServiceZero, "ServiceZero"),
    (StoreFault::ServiceTwice, "ServiceTwice"),
    (StoreFault::OutOfMemory, "OutOfMemory"),
];

const SERVE: [(ServeFault, &str); 3] = [
    (ServeFault::ReadFailed, "reading failed"),
    (
        ServeFault::WriteFailed { written: 13 },
        "writing failed after 13 bytes",
    ),
    (
        ServeFault::TurnsSpent,
        "all reads that were allowed are made",
    ),
];

#[test]
fn each_fault_says_what_it_is(rt: HostRuntime) {
    each_says(&rt, &FRAME);
    each_says(&rt, &STORE);
    each_says(&rt, &SERVE);
}

#[test]
fn each_lone_fault_says_what_it_is(rt: HostRuntime) {
    let target = CountTarget::default();
    let element = ElementFault {
        place: 5,
        code: Code::UnknownElement,
    };
    says(
        &rt,
        element,
        "no element can be read at byte 5: UnknownElement",
    );
    says(&rt, Full, "the message would have more than 255 bytes");
    says(&rt, Failed, "the device failed, or took no byte");
    says(
        &rt,
        EncoderFault { target },
        "there was no memory for an encoder",
    );
}
