//! Phrases, and the bytes that they add.
use crate::tests::asserting::{holds, same};
use phrase_tokens::{put_tokens, tokens_of};
use rds_text::Region;
use std::alloc::Global;
use std::test::Fail;
use uecp_elements::elements;
use uecp_frame::Message;
use uecp_phrases::{message_in, phrase_in, phrase_of, put_message};
use uecp_text::Output;

/// Phrases as they are written, and the bytes that each adds.
const WRITTEN: &[(&str, &[u8])] = &[
    ("pi C201", &[0x01, 0, 0, 0xc2, 0x01]),
    ("in 2 for 0A pi C201", &[0x01, 2, 0x0a, 0xc2, 0x01]),
    (r#"ps "RADIO 1""#, b"\x02\0\0RADIO 1 "),
    (r#"in all ps "é\"\x0D""#, b"\x02\xff\0\x82\"\x0d     "),
    ("traffic none", &[0x03, 0, 0, 0]),
    ("traffic eon", &[0x03, 0, 0, 1]),
    ("in others traffic programme", &[0x03, 0xfe, 0, 2]),
    ("for 02 traffic announcement", &[0x03, 0, 2, 3]),
    ("traffic bits FC", &[0x03, 0, 0, 0xfc]),
    ("music", &[0x05, 0, 0, 1]),
    ("speech", &[0x05, 0, 0, 0]),
    ("ms bits 03", &[0x05, 0, 0, 3]),
    (r#"pty "Pop Music""#, &[0x07, 0, 0, 10]),
    ("pty bits 20", &[0x07, 0, 0, 0x20]),
    ("rt clear", &[0x0a, 0, 0, 0]),
    (r#"rt "HI""#, &[0x0a, 0, 0, 3, 0x01, 0x48, 0x49]),
    (r#"rt "HI" same"#, &[0x0a, 0, 0, 3, 0x00, 0x48, 0x49]),
    (r#"rt "HI" add times 3"#, &[0x0a, 0, 0, 3, 0x47, 0x48, 0x49]),
    (
        r#"rt "HI" add same times 3"#,
        &[0x0a, 0, 0, 3, 0x46, 0x48, 0x49],
    ),
    (r#"rt bits A0 "HI""#, &[0x0a, 0, 0, 3, 0xa0, 0x48, 0x49]),
    ("ack 0B 12", &[0x18, 0x0b, 0x12]),
    ("set 2", &[0x1c, 2]),
    ("set all", &[0x1c, 0xff]),
    (
        "group 8A 00 1234 5678",
        &[0x24, 0x10, 0, 0x12, 0x34, 0x56, 0x78],
    ),
    (
        "group 15B 1F 1234 5678 add",
        &[0x24, 0x1f, 0x5f, 0x12, 0x34, 0x56, 0x78],
    ),
    (
        "group bits 20 80 1234 5678",
        &[0x24, 0x20, 0x80, 0x12, 0x34, 0x56, 0x78],
    ),
];

/// Other phrases for what some of them add.
const READ: &[(&str, &[u8])] = &[
    ("in 0 pi c201", &[0x01, 0, 0, 0xc2, 0x01]),
    (r#"ps "RADIO 1 ""#, b"\x02\0\0RADIO 1 "),
    (r#"pty "pop MUSIC""#, &[0x07, 0, 0, 10]),
    ("pty 10", &[0x07, 0, 0, 10]),
    ("ta on", &[0x03, 0, 0, 3]),
    ("PI c201", &[0x01, 0, 0, 0xc2, 0x01]),
    (r#"for 0A Rt "HI""#, &[0x0a, 0, 0x0a, 3, 0x01, 0x48, 0x49]),
    ("in 2 TA on", &[0x03, 2, 0, 3]),
    ("RAW 99 00", &[0x99, 0]),
    ("in 2 ta off", &[0x03, 2, 0, 2]),
    ("for 0A tp on", &[0x03, 0, 0x0a, 2]),
    ("in all for 02 tp off", &[0x03, 0xff, 2, 0]),
    (
        r#"rt "HI" times 3 toggle add"#,
        &[0x0a, 0, 0, 3, 0x47, 0x48, 0x49],
    ),
    (
        r#"rt "HI" times 3 same add"#,
        &[0x0a, 0, 0, 3, 0x46, 0x48, 0x49],
    ),
    (
        "group bits 10 00 1234 5678",
        &[0x24, 0x10, 0, 0x12, 0x34, 0x56, 0x78],
    ),
    ("raw 99 00", &[0x99, 0]),
];

/// No phrases.
const REFUSED: &[&str] = &[
    "",
    "pi",
    "pi C20",
    "pi C201 00",
    "in pi C201",
    "in 254 pi C201",
    "for 0A in 2 pi C201",
    r#"ps "RADIO 123""#,
    "ps RADIO",
    "traffic both",
    "ta",
    "tp both",
    "ta on off",
    r#"ta "on""#,
    "ta bits 03",
    "IN 2 music",
    "ta ON",
    "music 1",
    r#"pty "Pop""#,
    "pty 32",
    r#"rt "HI" add add"#,
    r#"rt "HI" same same"#,
    r#"rt "HI" same toggle"#,
    r#"rt "HI" toggle same"#,
    "rt clear same",
    r#"rt "HI" times 16"#,
    r#"rt "HI" times"#,
    "set 254",
    "in 2 set 2",
    "group 16A 00 1234 5678",
    "group 8C 00 1234 5678",
    "group 8A 20 1234 5678",
    "raw",
    "raw 9",
];

/// What a phrase adds, or None where it is none.
fn said(alloc: Global, region: Region, text: &str) -> Result<Option<Message>, Fail> {
    let line: Vec<char> = text.chars().collect(alloc)?;
    match tokens_of(alloc, line.as_slice()) {
        Ok(tokens) => Ok(phrase_in(region, tokens.as_slice())),
        Err(_) => Err("no tokens".into()),
    }
}

/// Whether each phrase adds its bytes.
fn each_adds(alloc: Global, phrases: &[(&str, &[u8])]) -> Result<bool, Fail> {
    for (text, bytes) in phrases {
        match said(alloc, Region::Europe, text)? {
            Some(message) if message.bytes() == *bytes => {}
            _ => return Ok(false),
        }
    }
    Ok(true)
}

/// What is written of the one element of a message.
fn written(alloc: Global, region: Region, message: &[u8], into: &mut Vec<u8>) -> Result<(), Fail> {
    let mut output = Output::new(alloc);
    match elements(message).next() {
        Some(Ok(element)) => put_tokens(phrase_of(region, &element).as_slice(), &mut output),
        _ => return Err("no element".into()),
    }
    match output.write_out(into) {
        Ok(()) => Ok(()),
        Err(_) => Err("not written".into()),
    }
}

#[test]
fn phrases_add_their_bytes(rt: HostRuntime) -> Result<(), Fail> {
    holds!(rt; each_adds(rt.alloc(), WRITTEN)?);
    holds!(rt; each_adds(rt.alloc(), READ)?);
    Ok(())
}

/// What a line says, or None where it says nothing.
fn line_said(alloc: Global, text: &str) -> Result<Option<Message>, Fail> {
    let line: Vec<char> = text.chars().collect(alloc)?;
    match tokens_of(alloc, line.as_slice()) {
        Ok(tokens) => Ok(message_in(Region::Europe, tokens.as_slice())),
        Err(_) => Err("no tokens".into()),
    }
}

#[test]
fn lines_of_phrases(rt: HostRuntime) -> Result<(), Fail> {
    for (text, bytes) in [
        ("", b"".as_slice()),
        (";;", b"".as_slice()),
        ("set 2;", b"\x1c\x02".as_slice()),
        (
            "set 2; music;speech",
            b"\x1c\x02\x05\0\0\x01\x05\0\0\0".as_slice(),
        ),
        (r#"; raw 1C; ps "a;b""#, b"\x1c\x02\0\0a;b     ".as_slice()),
    ] {
        let message = line_said(rt.alloc(), text)?.ok_or("nothing said")?;
        same!(rt; message.bytes(), bytes);
    }
    for text in ["set 2; set", "set 2 music", "music; in 2; music"] {
        holds!(rt; line_said(rt.alloc(), text)?.is_none(), text);
    }
    Ok(())
}

/// The line of a message.
fn line(alloc: Global, message: &[u8], into: &mut Vec<u8>) -> Result<(), Fail> {
    let mut output = Output::new(alloc);
    put_message(Region::Europe, message, &mut output);
    match output.write_out(into) {
        Ok(()) => Ok(()),
        Err(_) => Err("not written".into()),
    }
}

#[test]
fn messages_as_lines(rt: HostRuntime) -> Result<(), Fail> {
    for (bytes, text) in [
        (b"".as_slice(), ""),
        (b"\x1c\x02".as_slice(), "set 2"),
        (
            b"\x1c\x02\x05\0\0\x01\x02\0\0a;b     ".as_slice(),
            r#"set 2; music; ps "a;b""#,
        ),
        (b"\x99\0".as_slice(), "raw 99 00"),
        (b"\x1c\x02\x01\x02".as_slice(), "set 2; raw 01 02"),
    ] {
        let mut written = Vec::new(rt.alloc());
        line(rt.alloc(), bytes, &mut written)?;
        same!(rt; written.as_slice(), text.as_bytes());
    }
    Ok(())
}

#[test]
fn what_is_no_phrase(rt: HostRuntime) -> Result<(), Fail> {
    for text in REFUSED {
        holds!(rt; said(rt.alloc(), Region::Europe, text)?.is_none(), text);
    }
    Ok(())
}

#[test]
fn elements_as_phrases(rt: HostRuntime) -> Result<(), Fail> {
    for (text, bytes) in WRITTEN {
        let mut line = Vec::new(rt.alloc());
        written(rt.alloc(), Region::Europe, bytes, &mut line)?;
        same!(rt; line.as_slice(), text.as_bytes());
    }
    Ok(())
}

#[test]
fn names_of_north_america(rt: HostRuntime) -> Result<(), Fail> {
    let mut line = Vec::new(rt.alloc());
    written(
        rt.alloc(),
        Region::NorthAmerica,
        &[0x07, 0, 0, 10],
        &mut line,
    )?;
    same!(rt; line.as_slice(), b"pty \"Country\"".as_slice());
    holds!(rt; said(rt.alloc(), Region::NorthAmerica, r#"pty "Pop Music""#)?.is_none());
    Ok(())
}
