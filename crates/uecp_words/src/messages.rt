//! Messages out of their bytes (profile).
ghost use Rattle.std.specs.Prelude.{◌≡◌, ◌≤◌, ◌<◌, length, IfOk, IfErr};
ghost use Rattle.uecp_text.specs.declared.text_fault.TextFault.TheVariants.{MessageTooLong};

use uecp_frame::Message;
use uecp_text::TextFault;

/// A message of these bytes; `MessageTooLong` where there are more than 255.
pub fn message_of(bytes: &[u8]) -> Result<Message, TextFault>
    ensures message { IfOk result (λ m. (m ≡ bytes.now) × (length bytes.now ≤ 255)) }
    ensures refused { IfErr result (λ e. (e ≡ MessageTooLong) × (255 < length bytes.now)) }
{
    Message::from_bytes(bytes).ok_or(TextFault::MessageTooLong)
}
