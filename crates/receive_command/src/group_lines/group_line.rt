//! What a line is to a receiver (profile).
ghost use Rattle.std.specs.Prelude.{ℕ, Option, IfOk, IfSome, IfNone};
ghost use Rattle.uecp_text.specs.Words.{texts};
ghost use Rattle.rds_groups.specs.declared.heard.HeardGroup.{HeardGroup};
ghost use Rattle.receive_command.specs.GroupLines.{IsBlock, AreBlocks, IsText, IsLine};

use rds_groups::HeardGroup;
use std::alloc::{AllocError, Global};
use uecp_text::{number_of, text_of, words_of};

/// What a line is.
#[derive(Clone, Copy, Debug, PartialEq, Eq)]
pub enum GroupLine {
    /// Nothing: it is empty or a comment.
    Nothing,
    /// A group, with the blocks that were heard.
    Group(HeardGroup),
    /// Something else.
    NoGroup,
}

/// What a line is, with or without its end: four words of four hexadecimal digits, `----` where a block was not heard.
///
/// ```
/// read_group(alloc, b"C201 0548 ---- 5241\n")?; // Group, with blocks 1, 2 and 4
/// ```
pub fn read_group(alloc: Global, line: &[u8]) -> Result<GroupLine, AllocError>
    ensures { IfOk result (IsLine line.now) }
{
    match text_of(line) {
        None => Ok(GroupLine::Nothing),
        Some(text) => read_text(alloc, text),
    }
}

/// What a text is that a line says.
fn read_text(alloc: Global, text: &[u8]) -> Result<GroupLine, AllocError>
    ensures { IfOk result (IsText text.now) }
{
    let words = words_of(alloc, text)?;
    match group_of(words.as_slice()) {
        Some(group) => Ok(GroupLine::Group(group)),
        None => Ok(GroupLine::NoGroup),
    }
}

/// The group that these words are.
fn group_of(words: &[&[u8]]) -> Option<HeardGroup>
    ensures some { IfSome result (AreBlocks (texts words.now)) }
    ensures none { IfNone result ((g : HeardGroup) → AreBlocks (texts words.now) g → ⊥) }
{
    match words {
        [first, second, third, fourth] => Some(HeardGroup {
            block1: block_of(first)?,
            block2: block_of(second)?,
            block3: block_of(third)?,
            block4: block_of(fourth)?,
        }),
        _ => None,
    }
}

/// The block that a word is: its number, or none where it was not heard.
fn block_of(word: &[u8]) -> Option<Option<u16>>
    ensures some { IfSome result (IsBlock word.now) }
    ensures none { IfNone result ((block : Option ℕ) → IsBlock word.now block → ⊥) }
{
    if word == b"----".as_slice() {
        return Some(None);
    }
    match number_of(word) {
        Some(number) => Some(Some(number)),
        None => None,
    }
}
