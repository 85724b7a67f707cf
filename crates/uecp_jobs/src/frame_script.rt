//! The command `make` (profile).
ghost use Rattle.std.specs.Prelude.{None, ◌≡◌, ℕ, List, [], OnOk, OnErr, IfErr};
ghost use Rattle.uecp_text.specs.Written.{Adds};
ghost use Rattle.uecp_words.specs.ScriptWords.{Extends, line_of};
ghost use Rattle.uecp_jobs.specs.FrameScript.{Does, IsUndone, Makes, spelled_line};

use std::alloc::Global;
use uecp_frame::{Frame, FrameBytes, Message, encode};
use uecp_text::{Interpreter, Output, Taken, TextFault};
use uecp_words::{ScriptLine, script_line};

/// Writes the frames of a script in hexadecimal: each as the next one begins, and the last one at the end.
#[derive(Drop)]
pub struct Making {
    frame: Option<Frame>,
}

impl Making {
    /// No frame was begun yet.
    pub fn new() -> Making
        ensures { result.frame ≡ None }
    {
        Making { frame: None }
    }
}

impl Interpreter for Making {
    ghost meaning = { λ m text outcome m'. Makes m.frame text outcome m'.frame };

    ghost closing = { λ m. spelled_line m.frame };

    fn take(
        &mut self,
        alloc: Global,
        text: &[u8],
        output: &mut Output,
    ) -> Result<Taken, TextFault> {
        do_line(script_line(alloc, text)?, &mut self.frame, output)?;
        output.check()?;
        Ok(Taken::GoesOn)
    }

    fn close(&self, output: &mut Output) {
        put_spelled(&self.frame, output);
    }
}

/// Does what a line said.
fn do_line(
    line: ScriptLine,
    frame: &mut Option<Frame>,
    output: &mut Output,
) -> Result<(), TextFault>
    ensures done { OnOk result ((lines : List ℕ) × Does frame.old (line_of line) lines frame.new
        × Adds output.old output.new lines) }
    ensures undone { IfErr result (λ e. IsUndone frame.old (line_of line) e × (frame.new ≡ frame.old)) }
    ensures unwritten { OnErr result (output.new ≡ output.old) }
{
    match line {
        ScriptLine::Frame(address, counter) => {
            put_spelled(frame, output);
            *frame = Some(Frame {
                address,
                counter,
                message: Message::new(),
            });
            Ok(())
        }
        ScriptLine::Element(spelling) => add_bytes(frame, spelling.bytes()),
        ScriptLine::Raw(bytes) => add_bytes(frame, bytes.as_slice()),
    }
}

/// Adds the bytes to the frame that was begun.
fn add_bytes(frame: &mut Option<Frame>, bytes: &[u8]) -> Result<(), TextFault>
    ensures done { OnOk result (Does frame.old (Extends bytes.now) [] frame.new) }
    ensures undone { IfErr result (λ e. IsUndone frame.old (Extends bytes.now) e × (frame.new ≡ frame.old)) }
{
    match frame {
        None => Err(TextFault::NoFrame),
        Some(frame) => frame
            .message
            .extend(bytes)
            .map_err(|_| TextFault::MessageTooLong),
    }
}

/// The line of a frame that is whole.
pub(crate) fn put_spelled(frame: &Option<Frame>, output: &mut Output)
    ensures { Adds output.old output.new (spelled_line frame.now) }
{
    if let Some(frame) = frame {
        let mut bytes = FrameBytes::new();
        encode(frame, &mut bytes);
        output.digits(bytes.as_slice());
        output.end();
    }
}
