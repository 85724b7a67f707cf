//! For how long nothing was told of control lines, and which are stale (profile).
ghost use Rattle.std.specs.Prelude.{◌≡◌, ◌++◌, IfOk, OnOk, map};
ghost use Rattle.std.specs.List.{list_any};
ghost use Rattle.page.specs.StateView.{line_of, state_of};
ghost use Rattle.page.specs.Silence.{silent, is_stale};
ghost use Rattle.page.specs.Texts.{name_text, silence_text, stale_text, stale_texts};

use crate::state::line::Line;
use crate::state::metrics::put_escaped;
use crate::state::page::Page;
use itoa::Buffer;
use std::alloc::{AllocError, Global};

/// The moment at which it is asked how a page stands.
#[derive(Clone, Copy, Debug)]
pub struct Moment {
    /// The time by the page's clock, in milliseconds.
    pub now: u64,
    /// How many seconds ago the last message came, where one did.
    pub seconds: Option<u64>,
    /// For how many seconds, 1 to 86,400, nothing was told of a control line that is stale; None where none ever is.
    pub stale: Option<u32>,
}

/// How many whole seconds ago the last object that names it came.
pub(crate) fn silent(now: u64, line: &Line) -> u64
    ensures { result ≡ silent now (line_of line.now) }
{
    now.saturating_sub(line.told_at) / 1000
}

/// Whether it is stale.
fn is_stale(moment: Moment, line: &Line) -> bool
    ensures { result ≡ is_stale moment (line_of line.now) }
{
    match moment.stale {
        Some(limit) => u64::from(limit) <= silent(moment.now, line),
        None => false,
    }
}

/// Whether one of these is stale.
fn any_stale(moment: Moment, lines: &[Line]) -> bool
    ensures { result ≡ list_any (λ line. is_stale moment (line_of line)) lines.now }
{
    lines.iter().any(|line| is_stale(moment, line))
}

/// Whether a control line is stale.
pub fn has_stale(page: &Page, moment: Moment) -> bool
    ensures { result ≡ list_any (is_stale moment) (state_of page.now).lines }
{
    any_stale(moment, page.lines())
}

/// A line of text for each control line that is stale: its name, and for how many seconds nothing was told of it.
pub fn stale_text(alloc: Global, page: &Page, moment: Moment) -> Result<Vec<u8>, AllocError>
    ensures { IfOk result (λ text. text.items ≡ stale_texts moment (state_of page.now).lines) }
{
    let mut text = Vec::new(alloc);
    put_each(moment, page.lines(), &mut text)?;
    Ok(text)
}

/// Adds a line for each of these that is stale.
fn put_each(moment: Moment, lines: &[Line], text: &mut Vec<u8>) -> Result<(), AllocError>
    ensures { OnOk result (text.new.items ≡ text.old.items ++ stale_texts moment (map line_of lines.now)) }
{
    for line in lines {
        put_one(moment, line, text)?;
    }
    Ok(())
}

/// Adds a line for it, where it is stale.
fn put_one(moment: Moment, line: &Line, text: &mut Vec<u8>) -> Result<(), AllocError>
    ensures { OnOk result (text.new.items ≡ text.old.items ++ stale_text moment (line_of line.now)) }
{
    if is_stale(moment, line) {
        return put_silence(moment.now, line, text);
    }
    Ok(())
}

/// Adds its name, and for how many seconds nothing was told of it.
#[tactic(auto, unfolding(crate::specs::Texts::silence_text))]
fn put_silence(now: u64, line: &Line, text: &mut Vec<u8>) -> Result<(), AllocError>
    ensures { OnOk result (text.new.items ≡ text.old.items ++ silence_text now (line_of line.now)) }
{
    let mut buffer = Buffer::new();
    put_name(line.name.as_str(), text)?;
    text.extend_from_slice(b": ")?;
    text.extend_from_slice(buffer.format(silent(now, line)).as_bytes())?;
    text.extend_from_slice(b" s\n")?;
    Ok(())
}

/// Adds the name of a control line, or `-` where it has none.
fn put_name(name: &str, text: &mut Vec<u8>) -> Result<(), AllocError>
    ensures { OnOk result (text.new.items ≡ text.old.items ++ name_text name.now) }
{
    if name.is_empty() {
        return text.extend_from_slice(b"-");
    }
    put_escaped(name.as_bytes(), text)
}
