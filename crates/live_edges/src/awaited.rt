//! Which frames of a line wait for their replies (profile).
ghost use Rattle.std.specs.Prelude.{◌≡◌, false, replicate, Ok};
ghost use Rattle.uecp_frame.specs.Findings.{Closed};
ghost use Rattle.uecp_frame.specs.Beyond.{found_beyond, open_beyond};
ghost use Rattle.uecp_frame.specs.Feeding.{findings_of};
ghost use Rattle.uecp_link.specs.Joining.{reply_counter};
ghost use Rattle.live_edges.specs.Awaited.{sent_all, heard_all, waits_for, Replies};

use uecp_elements::Code;
use uecp_frame::{Address, Deframer, Found, Frame};
use uecp_text::rest_after;

/// The byte with which a reply begins.
const REPLY: u8 = 0x18;

/// Which frames of a line to an encoder wait for their replies: by the bytes that were written, and those that were
/// read.
#[derive(Drop)]
pub(crate) struct Awaited {
    /// The encoder's address.
    address: Address,
    /// Of each counter, whether it waits.
    waits: [bool; 256],
    /// What is open of the bytes that were written.
    written: Deframer,
    /// What is open of the bytes that were read.
    read: Deframer,
}

impl Awaited {
    /// Nothing was written or read.
    pub(crate) fn new(address: Address) -> Awaited
        ensures { result ≡ record { address = address; waits = replicate 256 false; written = Closed; read = Closed } }
    {
        Awaited {
            address,
            waits: [false; 256],
            written: Deframer::new(),
            read: Deframer::new(),
        }
    }

    /// These bytes were written: the frames for the encoder that they end wait.
    pub(crate) fn wrote(&mut self, bytes: &[u8])
        ensures { self.new ≡ record self.old {
          waits = sent_all self.old.address self.old.waits (found_beyond self.old.written bytes.now);
          written = open_beyond self.old.written bytes.now;
        } }
    {
        let mut rest = bytes;
        while !rest.is_empty() {
            let fed = self.written.feed(rest);
            rest = rest_after(rest, fed.used);
            self.note_sent(&fed.found);
        }
    }

    /// Notes what the bytes that were written ended.
    fn note_sent(&mut self, found: &Found)
        ensures { self.new ≡ record self.old {
          waits = sent_all self.old.address self.old.waits (findings_of found.now);
        } }
    {
        if let Found::Frame(frame) = found {
            if frame.address == self.address {
                self.waits[usize::from(frame.counter)] = true;
            }
        }
    }

    /// These bytes were read: whether a reply to one that waited came with them. It waits no more.
    pub(crate) fn heard(&mut self, bytes: &[u8]) -> bool
        ensures { let after = heard_all self.old.address (record { waits = self.old.waits; came = false })
            (found_beyond self.old.read bytes.now) in
            (self.new ≡ record self.old { waits = after.waits; read = open_beyond self.old.read bytes.now })
            × (result ≡ after.came) }
    {
        let mut came = false;
        let mut rest = bytes;
        while !rest.is_empty() {
            let fed = self.read.feed(rest);
            rest = rest_after(rest, fed.used);
            came = self.note_heard(&fed.found, came);
        }
        came
    }

    /// Notes what the bytes that were read ended; whether a reply to one that waits came, or had come before.
    fn note_heard(&mut self, found: &Found, before: bool) -> bool
        ensures { let after = heard_all self.old.address (record { waits = self.old.waits; came = before })
            (findings_of found.now) in
            (self.new ≡ record self.old { waits = after.waits }) × (result ≡ after.came) }
    {
        let Found::Frame(frame) = found else {
            return before;
        };
        match reply_counter(self.address, frame) {
            Some(counter) if self.waits_for(counter) => {
                self.waits[usize::from(counter)] = false;
                true
            }
            _ => before,
        }
    }

    /// Whether this counter waits.
    fn waits_for(&self, counter: u8) -> bool
        ensures { result ≡ waits_for self.now.waits counter }
    {
        match self.waits.get(usize::from(counter)) {
            Some(waits) => *waits,
            None => false,
        }
    }
}

/// The counter that a frame replies to, where it is a reply of the encoder at this address, whatever its code.
fn reply_counter(address: Address, frame: &Frame) -> Option<u8>
    ensures { result ≡ reply_counter address (Ok frame.now) }
{
    if frame.address != address || frame.counter != 0 {
        return None;
    }
    let [REPLY, code, counter] = frame.message.bytes() else {
        return None;
    };
    match Code::from_byte(*code) {
        Some(_) => Some(*counter),
        None => None,
    }
}
