//! The messages of an input, one a line (profile).
ghost use Rattle.std.specs.Prelude.{◌≡◌, ◌⊎◌, Ok, Err, IfOk, IfErr};
ghost use Rattle.uecp_text.specs.declared.text_fault.TextFault.TheVariants as flaw;
ghost use Rattle.uecp_text.specs.declared.run_fault.RunFault.TheVariants as run;
ghost use Rattle.uecp_text.specs.Input.{texts_of};
ghost use Rattle.uecp_jobs.specs.Messages.{spelled, messages_first, refusal_in};

use std::alloc::Global;
use uecp_frame::Message;
use uecp_text::{PieceBuffer, RunFault, TextFault, first_input_line, text_of};
use uecp_words::message_of;

/// The messages of an input.
#[derive(Drop)]
pub struct Messages {
    /// The messages, in order, of all lines or of those before the first that is refused.
    pub list: Vec<Message>,
    /// The refusal of that line, if there is one.
    pub refused: Option<RunFault>,
}

/// The messages of an input, up to the first line that is refused.
///
/// Errors: `OutOfMemory` alone.
pub fn messages_of(alloc: Global, input: &[u8]) -> Result<Messages, RunFault>
    ensures messages { IfOk result (λ all. all.list.items ≡ messages_first (texts_of input.now)) }
    ensures refused_line { IfOk result (λ all. all.refused ≡ refusal_in (texts_of input.now)) }
    ensures refused { IfErr result (λ fault. fault ≡ run.OutOfMemory) }
{
    let mut list = Vec::new(alloc);
    let mut room = PieceBuffer::new(alloc);
    let mut rest = input;
    let mut number = 1;
    while !rest.is_empty() {
        let (line, more) = first_input_line(rest);
        if let Some(text) = text_of(line) {
            match message_in(text, &mut room) {
                Ok(message) => list.push(message)?,
                Err(fault) => match fault {
                    TextFault::OutOfMemory => return Err(RunFault::OutOfMemory),
                    _ => {
                        let refused = Some(RunFault::Text(number, fault));
                        return Ok(Messages { list, refused });
                    }
                },
            }
        }
        rest = more;
        number += 1;
    }
    Ok(Messages {
        list,
        refused: None,
    })
}

/// The message that a text spells, its bytes read into this room; a lone `-` is the empty one.
fn message_in(text: &[u8], room: &mut PieceBuffer) -> Result<Message, TextFault>
    ensures message { IfOk result (λ m. spelled text.now ≡ Ok m) }
    ensures refused { IfErr result (λ fault. (fault ≡ flaw.OutOfMemory) ⊎ (spelled text.now ≡ Err fault)) }
{
    match text {
        b"-" => Ok(Message::new()),
        _ => message_of(room.read(text)?),
    }
}
