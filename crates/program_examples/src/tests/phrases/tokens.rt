//! Lines and their tokens.
use crate::tests::asserting::{holds, same};
use phrase_tokens::{Token, TokenFault, Unread, column_of, put_behind, put_tokens, tokens_of};
use std::alloc::Global;
use std::test::Fail;
use uecp_text::Output;

/// The characters of a line.
fn characters(alloc: Global, line: &str) -> Result<Vec<char>, Fail> {
    Ok(line.chars().collect(alloc)?)
}

/// The tokens of a line.
fn read(alloc: Global, line: &str) -> Result<Vec<Token>, Fail> {
    let text = characters(alloc, line)?;
    match tokens_of(alloc, text.as_slice()) {
        Ok(tokens) => Ok(tokens),
        Err(_) => Err("no tokens".into()),
    }
}

/// Where a line can't be read, and why.
fn unread(alloc: Global, line: &str) -> Result<TokenFault, Fail> {
    let text = characters(alloc, line)?;
    match tokens_of(alloc, text.as_slice()) {
        Ok(_) => Err("tokens".into()),
        Err(fault) => Ok(fault),
    }
}

/// A fault as it is expected.
fn at(column: usize, reason: Unread) -> TokenFault {
    TokenFault::Unread { column, reason }
}

#[test]
fn a_line_with_each_kind_of_token(rt: HostRuntime) -> Result<(), Fail> {
    let tokens = read(rt.alloc(), r#" ps "R\x41dio é";rt+  5"#)?;
    holds!(rt; tokens.len() == 5);
    same!(rt; tokens[0].word().ok_or("no word")?, b"ps".as_slice());
    same!(rt;
        tokens[1].quoted().ok_or("no text")?,
        b"RAdio \x82".as_slice()
    );
    holds!(rt; tokens[2].is_semicolon());
    same!(rt; tokens[3].word().ok_or("no word")?, b"rt+".as_slice());
    same!(rt; tokens[4].word().ok_or("no word")?, b"5".as_slice());
    Ok(())
}

#[test]
fn what_cannot_be_read_with_its_column(rt: HostRuntime) -> Result<(), Fail> {
    for (line, column, reason) in [
        ("pty é", 5, Unread::Word),
        ("a 12345678901234567", 3, Unread::Word),
        (r#"ps "a^""#, 6, Unread::NotInSet),
        (r#"ps "ab\q""#, 7, Unread::Escape),
        (r#"ps "ab"#, 4, Unread::Unclosed),
        (
            r#" "0123456789012345678901234567890123456789012345678901234567890123456789""#,
            2,
            Unread::TooLong,
        ),
    ] {
        same!(rt; unread(rt.alloc(), line)?, at(column, reason), line);
    }
    Ok(())
}

#[test]
fn a_line_is_written_with_one_space_between_tokens(rt: HostRuntime) -> Result<(), Fail> {
    let tokens = read(rt.alloc(), r#"  ps   "a\u00E9\\" ; ta"on""#)?;
    let mut output = Output::new(rt.alloc());
    put_tokens(tokens.as_slice(), &mut output);
    put_behind(tokens.get(3..).ok_or("no word")?, &mut output);
    let mut written: Vec<u8> = Vec::new(rt.alloc());
    holds!(rt; output.write_out(&mut written).is_ok());
    same!(rt;
        written.as_slice(),
        "ps \"aé\\\\\"; ta \"on\" ta \"on\"".as_bytes()
    );
    Ok(())
}

#[test]
fn the_columns_at_which_tokens_begin(rt: HostRuntime) -> Result<(), Fail> {
    let line = characters(rt.alloc(), r#" ps "é";ta"#)?;
    for (index, column) in [(0, 2), (1, 5), (2, 8), (3, 9), (4, 11)] {
        same!(rt; column_of(line.as_slice(), index), column);
    }
    Ok(())
}
