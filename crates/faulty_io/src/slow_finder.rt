//! Which segments end in some bytes, and what each is, told as the protocol's page tells it: it cuts the segments
//! first, unstuffs them then, and judges what is left. No crate of the product knows it, and of their code it uses only
//! the names of the faults.
use arrayvec::ArrayVec;
use std::alloc::{AllocError, Global};
use uecp_frame::FrameFault;

/// The plain bytes of a segment, from its address to its check.
pub type Plain = ArrayVec<u8, 261>;

/// What a segment is: a frame, of these plain bytes, or one with a fault.
pub type SlowFinding = Result<Plain, FrameFault>;

/// The segments that end in these bytes, in order. What comes before the first FE is none, and a last one that has not
/// ended is not judged.
pub fn slow_findings(alloc: Global, bytes: &[u8]) -> Result<Vec<SlowFinding>, AllocError> {
    let mut findings = Vec::new(alloc);
    let mut has_ended = true;
    for piece in bytes.split(|byte| *byte == 0xfe).skip(1) {
        findings.push(judged(piece))?;
        has_ended = piece.contains(&0xff);
    }
    if !has_ended {
        findings.pop();
    }
    Ok(findings)
}

/// Whether no segment of these bytes is a frame.
pub fn holds_no_frame(alloc: Global, bytes: &[u8]) -> Result<bool, AllocError> {
    Ok(slow_findings(alloc, bytes)?.iter().all(Result::is_err))
}

/// What the segment is whose FE these bytes follow, up to the next FE.
fn judged(piece: &[u8]) -> SlowFinding {
    let mut parts = piece.split(|byte| *byte == 0xff);
    match (parts.next(), parts.next()) {
        (Some(stuffed), Some(_)) => judged_plain(unstuffed(stuffed)?),
        _ => Err(FrameFault::Unended),
    }
}

/// The plain bytes for which these stand, from the byte after the FE to the one before the FF.
fn unstuffed(stuffed: &[u8]) -> SlowFinding {
    let mut plain = Plain::new();
    let mut rest = stuffed;
    let mut place = 1;
    for _ in stuffed {
        let (byte, behind) = match rest {
            [] => break,
            _ if plain.is_full() => return Err(FrameFault::TooLong),
            [0xfd, 0x00, behind @ ..] => (0xfd, behind),
            [0xfd, 0x01, behind @ ..] => (0xfe, behind),
            [0xfd, 0x02, behind @ ..] => (0xff, behind),
            [0xfd, ..] => return Err(FrameFault::BadStuffing(place)),
            [byte, behind @ ..] => (*byte, behind),
        };
        if plain.try_push(byte).is_err() {
            return Err(FrameFault::TooLong);
        }
        place = place.saturating_add(rest.len() - behind.len());
        rest = behind;
    }
    Ok(plain)
}

/// What the segment of these plain bytes is.
fn judged_plain(plain: Plain) -> SlowFinding {
    let [_, _, _, length, message @ .., high, low] = plain.as_slice() else {
        return Err(FrameFault::TooShort);
    };
    if message.len() != usize::from(*length) {
        return Err(FrameFault::WrongLength);
    }
    let sent = u16::from_be_bytes([*high, *low]);
    let (checked, _) = plain.as_slice().split_at(4 + message.len());
    if check_by_bits(checked) != sent {
        return Err(FrameFault::WrongCheck);
    }
    Ok(plain)
}

/// The check of these bytes, bit by bit.
fn check_by_bits(bytes: &[u8]) -> u16 {
    let mut register: u16 = 0xffff;
    for byte in bytes {
        for bit in [7, 6, 5, 4, 3, 2, 1, 0] {
            let top = register / 0x8000;
            register = register % 0x8000 * 2;
            if top != u16::from(byte >> bit & 1) {
                register ^= 0x1021;
            }
        }
    }
    !register
}
