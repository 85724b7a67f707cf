//! Lines that say nothing, and what was expected where.
use crate::tests::asserting::{holds, same};
use phrase_tokens::tokens_of;
use rds_text::Region;
use std::alloc::Global;
use std::test::Fail;
use uecp_phrases::{Expectation, Expected, expected_in};

/// Lines that say nothing, the index at which something else was expected, what, and the nearest word.
const WRONG: &[(&str, usize, &str, Option<&str>)] = &[
    (r#"pss "A""#, 0, "the first word of a phrase", Some("ps")),
    (
        r#"IN 2 PS "A""#,
        0,
        "the first word of a phrase",
        Some("in"),
    ),
    (r#"PSS "A""#, 0, "the first word of a phrase", Some("ps")),
    (
        r#""Traffic" none"#,
        0,
        "the first word of a phrase",
        Some("traffic"),
    ),
    (
        r#"in 9x ps "A""#,
        1,
        "a data set: its number, others or all",
        None,
    ),
    (
        "in al music",
        1,
        "a data set: its number, others or all",
        Some("all"),
    ),
    (
        "music;; set",
        4,
        "a data set: its number, others or all",
        None,
    ),
    (
        "in 2 set 2",
        2,
        "for, pi, ps, rt, traffic, ta, tp, music, speech, ms or pty",
        None,
    ),
    (
        "in 2 SET 2",
        2,
        "for, pi, ps, rt, traffic, ta, tp, music, speech, ms or pty",
        None,
    ),
    (
        "in 2 musik",
        2,
        "for, pi, ps, rt, traffic, ta, tp, music, speech, ms or pty",
        Some("music"),
    ),
    (
        "for 1 music",
        1,
        "a programme service: two hexadecimal digits",
        None,
    ),
    (
        "for 0A in 2 music",
        2,
        "pi, ps, rt, traffic, ta, tp, music, speech, ms or pty",
        None,
    ),
    (
        "for 0A; music",
        2,
        "pi, ps, rt, traffic, ta, tp, music, speech, ms or pty",
        None,
    ),
    ("pi C20", 1, "four hexadecimal digits", None),
    ("pi C201 00", 2, "the end of the phrase", None),
    (
        r#"ps "RADIO 123""#,
        1,
        "a text between quotes of at most 8 bytes",
        None,
    ),
    (
        "ps RADIO",
        1,
        "a text between quotes of at most 8 bytes",
        None,
    ),
];

/// More of them.
const OTHERS: &[(&str, usize, &str, Option<&str>)] = &[
    (
        "; rt claer",
        2,
        "a text between quotes, clear or bits",
        Some("clear"),
    ),
    (
        r#"rt "A" tims 3"#,
        2,
        "add, same, times or the end of the phrase",
        Some("times"),
    ),
    (
        r#"rt "A" smae"#,
        2,
        "add, same, times or the end of the phrase",
        Some("same"),
    ),
    (
        r#"rt "A" togle"#,
        2,
        "add, same, times or the end of the phrase",
        None,
    ),
    (
        r#"rt "A" add add"#,
        3,
        "same, times or the end of the phrase",
        None,
    ),
    (
        r#"rt "A" same toggle"#,
        3,
        "add, times or the end of the phrase",
        None,
    ),
    (
        r#"rt "A" toggle times 3 same"#,
        5,
        "add or the end of the phrase",
        None,
    ),
    (r#"rt "A" times 16"#, 3, "a number of times, 0 to 15", None),
    ("rt bits A0", 3, "a text between quotes", None),
    (
        "traffic anouncement",
        1,
        "none, eon, programme, announcement or bits",
        Some("announcement"),
    ),
    (
        r#"traffic "None""#,
        1,
        "none, eon, programme, announcement or bits",
        Some("none"),
    ),
    ("ms bist 03", 1, "bits", Some("bits")),
    ("ta", 1, "on or off", None),
    ("TA ON", 1, "on or off", Some("on")),
    ("in 2 ta onn", 3, "on or off", Some("on")),
    ("for 0A tp of", 3, "on or off", Some("off")),
    ("ta announcement", 1, "on or off", None),
    ("tp on off", 2, "the end of the phrase", None),
    ("tq on", 0, "the first word of a phrase", Some("ta")),
    (
        r#"pty "Pop Musik""#,
        1,
        "a name of a programme type between quotes, a number up to 31, or bits",
        Some("Pop Music"),
    ),
    (
        "group 16A 00 0000 0000",
        1,
        "a type of group, 0A to 15B, or bits",
        None,
    ),
    (
        "group 8A 20 0000 0000",
        2,
        "two hexadecimal digits, 00 to 1F",
        None,
    ),
    (
        "group 8A 00 0000 0000 ad",
        5,
        "add or the end of the phrase",
        Some("add"),
    ),
    ("ack 0B", 2, "two hexadecimal digits", None),
    (
        "set 2; raw 1C 2",
        5,
        "two hexadecimal digits or the end of the phrase",
        None,
    ),
    ("music", 1, "a semicolon", None),
];

/// What is expected of a line.
fn expected(alloc: Global, line: &[char]) -> Result<Expected, Fail> {
    match tokens_of(alloc, line) {
        Ok(tokens) => Ok(expected_in(alloc, Region::Europe, tokens.as_slice())?),
        Err(_) => Err("no tokens".into()),
    }
}

/// The first line of which something else is expected, if any.
fn first_other(
    alloc: Global,
    lines: &'static [(&'static str, usize, &'static str, Option<&'static str>)],
) -> Result<Option<&'static str>, Fail> {
    for (text, index, what, nearest) in lines {
        let line: Vec<char> = text.chars().collect(alloc)?;
        let found = expected(alloc, line.as_slice())?;
        if found.index != *index || found.what.text() != *what || found.nearest != *nearest {
            return Ok(Some(*text));
        }
    }
    Ok(None)
}

/// The line with so many bytes 00 behind it.
fn with_bytes(alloc: Global, front: &str, count: usize) -> Result<Vec<char>, Fail> {
    let mut line: Vec<char> = front.chars().collect(alloc)?;
    for _ in 0..count {
        line.extend_from_slice(&[' ', '0', '0'])?;
    }
    Ok(line)
}

#[test]
fn what_was_expected(rt: HostRuntime) -> Result<(), Fail> {
    same!(rt; first_other(rt.alloc(), WRONG)?, None);
    same!(rt; first_other(rt.alloc(), OTHERS)?, None);
    Ok(())
}

#[test]
fn lines_that_are_too_long(rt: HostRuntime) -> Result<(), Fail> {
    for (front, count, index, what) in [
        ("raw", 256, 0, Expectation::ShortMessage),
        ("music; raw", 252, 2, Expectation::ShortMessage),
        ("music; raw", 251, 254, Expectation::Semicolon),
    ] {
        let line = with_bytes(rt.alloc(), front, count)?;
        let found = expected(rt.alloc(), line.as_slice())?;
        same!(rt; found.index, index);
        same!(rt; found.what, what);
        holds!(rt; found.nearest.is_none());
    }
    Ok(())
}
