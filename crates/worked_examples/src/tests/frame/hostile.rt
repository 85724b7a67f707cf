//! Each known frame begun and left, and with each byte altered to each other value, beside a finder that is slow and
//! plain.
use super::{Finding, frame_of, head_of, is_found_in, is_found_one_by_one, pi};
use faulty_io::{KNOWN_FRAMES, SlowFinding, altered, own_address, slow_findings, spelling_of};
use std::alloc::Global;
use std::process::Abort;
use uecp_frame::{Frame, FrameBytes, FrameFault, encode};

/// The frame of plain bytes that are one.
fn frame_of_plain(rt: &impl Abort, plain: &[u8]) -> Option<Frame> {
    let (head, rest) = plain.split_at_checked(3)?;
    let [_, message @ .., _, _] = rest else {
        return None;
    };
    let (address, counter) = head_of(rt, head)?;
    Some(frame_of(rt, address, counter, message))
}

/// What the slow finder says, as the deframer says it.
fn finding_of(rt: &impl Abort, finding: &SlowFinding) -> Finding {
    match finding {
        Ok(plain) => Ok(frame_of_plain(rt, plain.as_slice()).expect(rt, "a frame")),
        Err(fault) => Err(*fault),
    }
}

/// What the slow finder says of all of these bytes.
fn wanted(rt: &impl Abort, alloc: Global, bytes: &[u8]) -> Vec<Finding> {
    let findings = slow_findings(alloc, bytes).expect(rt, "memory");
    let mut wanted = Vec::new(alloc);
    for finding in findings.iter() {
        wanted.push(finding_of(rt, finding)).expect(rt, "memory");
    }
    wanted
}

/// All of these bytes at once and one by one, by messages of their own and by lent ones, bring what the slow finder
/// says.
fn agrees(rt: &impl Abort, alloc: Global, bytes: &[u8]) {
    let want = wanted(rt, alloc, bytes);
    is_found_in(rt, alloc, &[bytes], want.as_slice());
    is_found_one_by_one(rt, alloc, bytes, want.as_slice());
}

/// One place of the bytes with each value.
fn agrees_at(rt: &impl Abort, alloc: Global, bytes: &[u8], place: usize) {
    for value in 0..=255 {
        let hostile = altered(bytes, place, value);
        agrees(rt, alloc, hostile.as_slice());
    }
}

/// Each place of the bytes with each value.
fn agrees_altered(rt: &impl Abort, alloc: Global, bytes: &[u8]) {
    for place in 0..bytes.len() {
        agrees_at(rt, alloc, bytes, place);
    }
}

#[test]
fn each_byte_altered_to_each_value(rt: HostRuntime) {
    for line in KNOWN_FRAMES.lines() {
        let bytes = spelling_of(line).expect(&rt, line);
        agrees_altered(&rt, rt.alloc(), bytes.as_slice());
    }
}

#[test]
fn each_byte_of_a_longest_frame_altered_to_each_value(rt: HostRuntime) {
    let mut message = [0x55; 255];
    message[..127].fill(0xfd);
    let mut bytes = FrameBytes::new();
    encode(&frame_of(&rt, own_address(), 1, &message), &mut bytes);
    agrees_altered(&rt, rt.alloc(), bytes.as_slice());
}

/// However much of these bytes, which are a frame, comes before the whole of another, that is found, and the first is
/// unended.
fn is_unended(rt: &impl Abort, alloc: Global, bytes: &[u8], whole: &[u8]) {
    let want = [Err(FrameFault::Unended), pi(rt)];
    for end in 1..bytes.len() {
        let (begun, _) = bytes.split_at(end);
        is_found_in(rt, alloc, &[begun, whole], &want);
    }
}

#[test]
fn a_frame_that_is_begun_before_another_is_unended(rt: HostRuntime) {
    let whole = b"\xFE\x00\x41\x01\x05\x01\x00\x00\xC2\x01\x67\xA8\xFF";
    for line in KNOWN_FRAMES.lines() {
        let bytes = spelling_of(line).expect(&rt, line);
        is_unended(&rt, rt.alloc(), bytes.as_slice(), whole);
    }
}
