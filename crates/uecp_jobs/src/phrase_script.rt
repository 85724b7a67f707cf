//! The command `make --words` (profile).
ghost use Rattle.std.specs.Prelude.{◌≡◌, List, ℕ};
ghost use Rattle.uecp_text.specs.Written.{Adds};
ghost use Rattle.phrase_scripts.specs.Lines.{line_of};
ghost use Rattle.uecp_link.specs.Counters.{next_counter};
ghost use Rattle.uecp_jobs.specs.PhraseScript.{Heading as Seen, first_heading, sent_line, left_line, DoesPhrase};
ghost use Rattle.uecp_jobs.specs.PhraseScript.{MakesWords};

use crate::frame_script::put_spelled;
use phrase_scripts::{PhraseLine, phrase_line};
use rds_text::Region;
use std::alloc::Global;
use std::marker::Model;
use uecp_frame::{Address, Frame, Message};
use uecp_text::{Interpreter, Output, Taken, TextFault};

/// Under which address and counter the next message goes.
#[derive(Debug, Drop)]
pub struct Heading {
    address: Address,
    counter: u8,
    /// Whether a line named them for a message that has not come yet.
    is_named: bool,
}

impl Model for Heading {
    ghost Value = { Seen };

    ghost view = { λ h. record { address = h.address; counter = h.counter; is_named = h.is_named } };
}

/// Writes the messages of a script as frames in hexadecimal, one a line.
#[derive(Drop)]
pub struct MakingWords {
    region: Region,
    heading: Heading,
}

impl MakingWords {
    /// No line was read yet.
    pub fn new(region: Region) -> MakingWords
        ensures { (result.region ≡ region) × (result.heading ≡ first_heading) }
    {
        let Some(address) = Address::new(1, 1) else {
            unreachable!()
        };
        MakingWords {
            region,
            heading: Heading {
                address,
                counter: 1,
                is_named: false,
            },
        }
    }
}

impl Interpreter for MakingWords {
    ghost meaning = { λ m text outcome m'. MakesWords m.region m.heading text outcome m'.heading
        × (m'.region ≡ m.region) };

    ghost closing = { λ m. left_line m.heading };

    fn take(
        &mut self,
        alloc: Global,
        text: &[u8],
        output: &mut Output,
    ) -> Result<Taken, TextFault> {
        do_phrase(
            phrase_line(alloc, self.region, text)?,
            &mut self.heading,
            output,
        );
        output.check()?;
        Ok(Taken::GoesOn)
    }

    fn close(&self, output: &mut Output) {
        put_left(&self.heading, output);
    }
}

/// Does what a line said.
fn do_phrase(line: PhraseLine, heading: &mut Heading, output: &mut Output)
    ensures { (lines : List ℕ) × DoesPhrase heading.old (line_of line) lines heading.new
        × Adds output.old output.new lines }
{
    match line {
        PhraseLine::Frame(address, counter) => {
            put_left(heading, output);
            *heading = Heading {
                address,
                counter,
                is_named: true,
            };
        }
        PhraseLine::Message(message) => {
            put_sent(heading, message, output);
            heading.counter = counter_after(heading.counter);
            heading.is_named = false;
        }
    }
}

/// The counter after this one.
fn counter_after(counter: u8) -> u8
    ensures { result ≡ next_counter counter }
{
    counter % 255 + 1
}

/// The line of the frame in which a message goes.
fn put_sent(heading: &Heading, message: Message, output: &mut Output)
    ensures { Adds output.old output.new (sent_line heading.now message) }
{
    let frame = Frame {
        address: heading.address,
        counter: heading.counter,
        message,
    };
    put_spelled(&Some(frame), output);
}

/// The line of a frame with no message, where one was named and no message came.
fn put_left(heading: &Heading, output: &mut Output)
    ensures { Adds output.old output.new (left_line heading.now) }
{
    if heading.is_named {
        put_sent(heading, Message::new(), output);
    }
}
