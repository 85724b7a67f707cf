//! Frames that are known from outside, and their bytes with one altered.
use uecp_frame::FrameBytes;

/// A line for each frame: address and counter, message, spelling. First those to an encoder, then replies.
pub const KNOWN_FRAMES: &str = "\
00 41 01 / 01 00 00 C2 01 / FE 00 41 01 05 01 00 00 C2 01 67 A8 FF
00 41 02 / 01 00 00 FE FF / FE 00 41 02 05 01 00 00 FD 01 FD 02 F1 03 FF
00 41 00 // FE 00 41 00 00 51 A2 FF
00 41 01 // FE 00 41 01 00 62 93 FF
00 41 02 // FE 00 41 02 00 37 C0 FF
00 41 07 // FE 00 41 07 00 C8 35 FF
00 41 FF // FE 00 41 FD 02 00 52 5D FF
00 00 01 // FE 00 00 01 00 48 0E FF
00 42 01 // FE 00 42 01 00 3B C3 FF
00 41 01 / 0A 00 00 03 40 48 49 / FE 00 41 01 07 0A 00 00 03 40 48 49 32 23 FF
00 41 03 / 0A 00 00 03 40 48 49 / FE 00 41 03 07 0A 00 00 03 40 48 49 F4 44 FF
00 41 09 / 0A 00 00 03 40 48 49 / FE 00 41 09 07 0A 00 00 03 40 48 49 1B DC FF
00 41 09 / 0A FF 00 03 40 48 49 / FE 00 41 09 07 0A FD 02 00 03 40 48 49 4F 63 FF
00 41 01 / 01 00 00 12 34 99 / FE 00 41 01 06 01 00 00 12 34 99 FD 02 A8 FF
00 41 00 / 18 00 01 / FE 00 41 00 03 18 00 01 40 BE FF
00 41 00 / 18 00 02 / FE 00 41 00 03 18 00 02 70 DD FF
00 42 00 / 18 00 02 / FE 00 42 00 03 18 00 02 BE 3D FF
00 41 00 / 18 00 03 / FE 00 41 00 03 18 00 03 60 FC FF
00 41 00 / 18 00 07 / FE 00 41 00 03 18 00 07 20 78 FF
00 41 00 / 18 00 0A / FE 00 41 00 03 18 00 0A F1 D5 FF
00 41 00 / 18 00 FF / FE 00 41 00 03 18 00 FD 02 4E 6F FF
00 41 00 / 18 03 01 / FE 00 41 00 03 18 03 01 15 ED FF
00 41 00 / 18 0B 09 / FE 00 41 00 03 18 0B 09 1D 4C FF";

/// The spelling of a line's frame, or none where the line has none.
pub fn spelling_of(line: &str) -> Option<FrameBytes> {
    let mut spelling = FrameBytes::new();
    for word in line.split('/').nth(2)?.split_whitespace() {
        spelling.try_push(u8::from_str_radix(word, 16).ok()?).ok()?;
    }
    Some(spelling)
}

/// The bytes with this value at this place, as far as there is room.
pub fn altered(bytes: &[u8], place: usize, value: u8) -> FrameBytes {
    let mut altered = FrameBytes::new();
    for (at, byte) in bytes.iter().enumerate() {
        if altered
            .try_push(if at == place { value } else { *byte })
            .is_err()
        {
            return altered;
        }
    }
    altered
}
