//! What is counted in the text form that monitoring systems read (the text format of Prometheus, version 0.0.4).
ghost use Rattle.std.specs.Prelude.{◌≡◌, ◌++◌, OnOk, IfOk, map, option_map};
ghost use Rattle.page.specs.Texts.{headed, escaped_byte, escaped, labels, ended, labelled, value_of, is_connected};
ghost use Rattle.page.specs.Texts.{is_refused, sample, samples, both_of, count_of, gauge_of, valued, since};
ghost use Rattle.page.specs.Texts.{counted_texts, standing_texts, metrics};
ghost use Rattle.page.specs.StateView.{line_of, linked_of, refusal_of, state_of};

use crate::state::line::Line;
use crate::state::link::{Linked, Refusal};
use crate::state::page::Page;
use crate::state::silence::{Moment, silent};
use itoa::Buffer;
use std::alloc::{AllocError, Global};

/// What is told of each control line.
#[derive(Clone, Copy, Debug)]
pub(crate) enum Metric {
    /// Objects.
    Lines,
    /// Messages, by the studio's end.
    Sent,
    /// Refusals, by the studio's end.
    SentRefusals,
    /// Lines that the studio's end refused.
    RefusedLines,
    /// Messages, by the encoder's end.
    Messages,
    /// Those that came again.
    Repeats,
    /// Refusals, by the encoder's end.
    Refusals,
    /// Segments that were no frame.
    Dropped,
    /// Connections.
    Connections,
    /// Lines that an end could not tell.
    NotTold,
    /// Whether it is connected.
    Connected,
    /// Whether the last message was refused.
    Refused,
    /// For how many seconds nothing was told of it, at this time by the page's clock, in milliseconds.
    Silent(u64),
}

/// What is counted, and how the control lines stand at this moment.
pub fn metrics_text(alloc: Global, page: &Page, moment: Moment) -> Result<Vec<u8>, AllocError>
    ensures { IfOk result (λ text. text.items ≡ metrics (state_of page.now) moment) }
{
    let mut text = Vec::new(alloc);
    put_counted(page.lines(), &mut text)?;
    put_standing(moment.now, page.lines(), &mut text)?;
    put_value(
        "uecp_other_lines_total",
        "Lines that are no object of ours.",
        " counter\n",
        page.others(),
        &mut text,
    )?;
    put_value(
        "uecp_further_total",
        "Objects of control lines that are shown nowhere.",
        " counter\n",
        page.further(),
        &mut text,
    )?;
    put_since(moment.seconds, &mut text)?;
    Ok(text)
}

/// Adds what was counted of each control line.
fn put_counted(lines: &[Line], text: &mut Vec<u8>) -> Result<(), AllocError>
    ensures { OnOk result (text.new.items ≡ text.old.items ++ counted_texts (map line_of lines.now)) }
{
    put_count(
        "uecp_lines_total",
        "Objects that were taken.",
        Metric::Lines,
        lines,
        text,
    )?;
    put_both(
        "uecp_messages_total",
        "Messages that an end of the line told.",
        Metric::Sent,
        Metric::Messages,
        lines,
        text,
    )?;
    put_both(
        "uecp_refusals_total",
        "Messages that were refused with a code.",
        Metric::SentRefusals,
        Metric::Refusals,
        lines,
        text,
    )?;
    put_count(
        "uecp_refused_lines_total",
        "Lines that the studio's end refused.",
        Metric::RefusedLines,
        lines,
        text,
    )?;
    put_count(
        "uecp_repeats_total",
        "Messages that came again.",
        Metric::Repeats,
        lines,
        text,
    )?;
    put_count(
        "uecp_dropped_segments_total",
        "Segments that were no frame.",
        Metric::Dropped,
        lines,
        text,
    )?;
    put_count(
        "uecp_connections_total",
        "Connections to an encoder.",
        Metric::Connections,
        lines,
        text,
    )?;
    put_count(
        "uecp_not_told_lines_total",
        "Lines that an end could not tell, as nobody read them.",
        Metric::NotTold,
        lines,
        text,
    )
}

/// Adds how each control line stands now.
fn put_standing(now: u64, lines: &[Line], text: &mut Vec<u8>) -> Result<(), AllocError>
    ensures { OnOk result (text.new.items ≡ text.old.items ++ standing_texts now (map line_of lines.now)) }
{
    put_gauge(
        "uecp_connected",
        "1 where the studio's end is connected, else 0.",
        Metric::Connected,
        lines,
        text,
    )?;
    put_gauge(
        "uecp_refused",
        "1 where the last message was refused, else 0.",
        Metric::Refused,
        lines,
        text,
    )?;
    put_gauge(
        "uecp_line_silent_seconds",
        "Seconds since something was told of the line.",
        Metric::Silent(now),
        lines,
        text,
    )
}

/// Adds how many seconds ago the last message came, where one did.
fn put_since(seconds: Option<u64>, text: &mut Vec<u8>) -> Result<(), AllocError>
    ensures { OnOk result (text.new.items ≡ text.old.items ++ since seconds) }
{
    match seconds {
        Some(seconds) => {
            put_value(
                "uecp_last_message_seconds",
                "Seconds since the last message.",
                " gauge\n",
                seconds,
                text,
            )
        }
        None => Ok(()),
    }
}

/// Adds a count that rises, of each control line.
fn put_count(
    name: &str,
    help: &str,
    metric: Metric,
    lines: &[Line],
    text: &mut Vec<u8>,
) -> Result<(), AllocError>
    ensures { OnOk result (text.new.items
        ≡ text.old.items ++ count_of name.now help.now metric (map line_of lines.now)) }
{
    put_head(name, help, " counter\n", text)?;
    put_samples(name, "", metric, lines, text)
}

/// Adds a value that may fall, of each control line.
fn put_gauge(
    name: &str,
    help: &str,
    metric: Metric,
    lines: &[Line],
    text: &mut Vec<u8>,
) -> Result<(), AllocError>
    ensures { OnOk result (text.new.items
        ≡ text.old.items ++ gauge_of name.now help.now metric (map line_of lines.now)) }
{
    put_head(name, help, " gauge\n", text)?;
    put_samples(name, "", metric, lines, text)
}

/// Adds a count that both ends of each control line tell.
fn put_both(
    name: &str,
    help: &str,
    studio: Metric,
    encoder: Metric,
    lines: &[Line],
    text: &mut Vec<u8>,
) -> Result<(), AllocError>
    ensures { OnOk result (text.new.items
        ≡ text.old.items ++ both_of name.now help.now studio encoder (map line_of lines.now)) }
{
    put_head(name, help, " counter\n", text)?;
    put_samples(name, ",end=\"studio\"", studio, lines, text)?;
    put_samples(name, ",end=\"encoder\"", encoder, lines, text)
}

/// Adds a value for each control line, with what stands behind the line's name.
fn put_samples(
    name: &str,
    more: &str,
    metric: Metric,
    lines: &[Line],
    text: &mut Vec<u8>,
) -> Result<(), AllocError>
    ensures { OnOk result (text.new.items
        ≡ text.old.items ++ samples name.now more.now metric (map line_of lines.now)) }
{
    for line in lines {
        put_sample(name, more, metric, line, text)?;
    }
    Ok(())
}

/// Adds the value for a control line, where it has one.
fn put_sample(
    name: &str,
    more: &str,
    metric: Metric,
    line: &Line,
    text: &mut Vec<u8>,
) -> Result<(), AllocError>
    ensures { OnOk result (text.new.items
        ≡ text.old.items ++ sample name.now more.now metric (line_of line.now)) }
{
    match value_of(metric, line) {
        Some(value) => put_labelled(name, line.name.as_str(), more, value, text),
        None => Ok(()),
    }
}

/// What is told of a control line.
fn value_of(metric: Metric, line: &Line) -> Option<u64>
    ensures { result ≡ value_of metric (line_of line.now) }
{
    match metric {
        Metric::Lines => Some(line.counts.lines),
        Metric::Sent => Some(line.counts.sent),
        Metric::SentRefusals => Some(line.counts.sent_refusals),
        Metric::RefusedLines => Some(line.counts.refused_lines),
        Metric::Messages => Some(line.counts.messages),
        Metric::Repeats => Some(line.counts.repeats),
        Metric::Refusals => Some(line.counts.refusals),
        Metric::Dropped => Some(line.counts.dropped),
        Metric::Connections => Some(line.counts.connections),
        Metric::NotTold => Some(line.counts.not_told),
        Metric::Connected => connected(&line.linked),
        Metric::Refused => Some(refused(&line.refused)),
        Metric::Silent(now) => Some(silent(now, line)),
    }
}

/// 1 where it is connected, 0 where it is not.
fn connected(linked: &Option<Linked>) -> Option<u64>
    ensures { result ≡ option_map is_connected (option_map linked_of linked.now) }
{
    match linked {
        Some(linked) => Some(if linked.link.is_bad() { 0 } else { 1 }),
        None => None,
    }
}

/// 1 where the last message was refused, else 0.
fn refused(refused: &Option<Refusal>) -> u64
    ensures { result ≡ is_refused (option_map refusal_of refused.now) }
{
    match refused {
        Some(_) => 1,
        None => 0,
    }
}

/// Adds a value of the page as a whole.
fn put_value(
    name: &str,
    help: &str,
    which: &str,
    value: u64,
    text: &mut Vec<u8>,
) -> Result<(), AllocError>
    ensures { OnOk result (text.new.items ≡ text.old.items ++ valued name.now help.now which.now value) }
{
    put_head(name, help, which, text)?;
    text.extend_from_slice(name.as_bytes())?;
    put_end(value, text)
}

/// Adds two lines that say what a metric is, and of which kind.
#[tactic(auto, unfolding(crate::specs::Texts::headed))]
fn put_head(name: &str, help: &str, which: &str, text: &mut Vec<u8>) -> Result<(), AllocError>
    ensures { OnOk result (text.new.items ≡ text.old.items ++ headed name.now help.now which.now) }
{
    text.extend_from_slice(b"# HELP ")?;
    text.extend_from_slice(name.as_bytes())?;
    text.extend_from_slice(b" ")?;
    text.extend_from_slice(help.as_bytes())?;
    text.extend_from_slice(b"\n# TYPE ")?;
    text.extend_from_slice(name.as_bytes())?;
    text.extend_from_slice(which.as_bytes())?;
    Ok(())
}

/// Adds a value under the name of a control line.
fn put_labelled(
    name: &str,
    line: &str,
    more: &str,
    value: u64,
    text: &mut Vec<u8>,
) -> Result<(), AllocError>
    ensures { OnOk result (text.new.items ≡ text.old.items ++ labelled name.now line.now more.now value) }
{
    text.extend_from_slice(name.as_bytes())?;
    put_labels(line, more, text)?;
    put_end(value, text)
}

/// Adds the labels of a control line, with what stands behind its name.
#[tactic(auto, unfolding(crate::specs::Texts::labels))]
fn put_labels(line: &str, more: &str, text: &mut Vec<u8>) -> Result<(), AllocError>
    ensures { OnOk result (text.new.items ≡ text.old.items ++ labels line.now more.now) }
{
    text.extend_from_slice(b"{line=\"")?;
    put_escaped(line.as_bytes(), text)?;
    text.extend_from_slice(b"\"")?;
    text.extend_from_slice(more.as_bytes())?;
    text.extend_from_slice(b"}")?;
    Ok(())
}

/// Adds a value, which ends the line.
#[tactic(auto, unfolding(crate::specs::Texts::ended))]
fn put_end(value: u64, text: &mut Vec<u8>) -> Result<(), AllocError>
    ensures { OnOk result (text.new.items ≡ text.old.items ++ ended value) }
{
    let mut buffer = Buffer::new();
    text.extend_from_slice(b" ")?;
    text.extend_from_slice(buffer.format(value).as_bytes())?;
    text.extend_from_slice(b"\n")?;
    Ok(())
}

/// Adds a value of a label.
pub(crate) fn put_escaped(label: &[u8], text: &mut Vec<u8>) -> Result<(), AllocError>
    ensures { OnOk result (text.new.items ≡ text.old.items ++ escaped label.now) }
{
    for byte in label {
        put_escaped_byte(*byte, text)?;
    }
    Ok(())
}

/// Adds a byte of a value of a label.
fn put_escaped_byte(byte: u8, text: &mut Vec<u8>) -> Result<(), AllocError>
    ensures { OnOk result (text.new.items ≡ text.old.items ++ escaped_byte byte) }
{
    match byte {
        b'\\' => text.extend_from_slice(b"\\\\"),
        b'"' => text.extend_from_slice(b"\\\""),
        b'\n' => text.extend_from_slice(b"\\n"),
        _ => text.extend_from_slice(&[byte]),
    }
}
