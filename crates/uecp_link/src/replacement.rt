//! A line whose server is replaced by a new one, which knows nothing and joins. Source: profile.
ghost use Rattle.std.specs.Prelude.{◌≡◌, [], vec_capacity};
ghost use Rattle.uecp_encoder.specs.State.{fed};
ghost use Rattle.uecp_link.specs.Joining.{pass_sent};
ghost use Rattle.uecp_link.specs.Once.{at_first};
ghost use Rattle.uecp_link.specs.Holds.{Holds};
ghost use Rattle.uecp_link.specs.Replacing.{EmptyChangesNothing, Replaces};

use crate::counters::COUNTER_MAX;
use crate::line::Line;
use crate::pieces::give_cut;
use uecp_encoder::{Encoder, Target};
use uecp_frame::{Address, Frame, FrameBytes, Message, encode};

impl<T: Target> Line<T> {
    /// The server dies, and a new one joins over a new connection, at once and without loss: the encoder gets one pass,
    /// whole. It answers how many messages waited at the old one. These are given up: the new one knows nothing of
    /// them, and whether they were applied no end can tell. The line goes on from there as one of a new server and this
    /// encoder ([`of_encoder`](Line::of_encoder)): nothing is sent, the next message has the number 0, and what came
    /// before has no numbers any more. It takes no memory, and gives the room of the messages back.
    ///
    /// This server knows nothing of what was before. One that kept what it held goes on from that and does not join:
    /// that is the event [`ServerRestart`](crate::LineEvent::ServerRestart).
    ///
    /// It wants a target that an empty message leaves as it is, as [`RdsStore`](rds_store::RdsStore) is
    /// ([`empty_message_changes_nothing`](rds_store::laws::empty_message_changes_nothing)).
    ///
    /// ```
    /// let given_up = line.replace_server(); // line.sent() is empty now
    /// ```
    pub fn replace_server(&mut self) -> usize
        requires empty { EmptyChangesNothing T.step }
        ensures replaces { Replaces T.step self.old result self.new }
        ensures holds { Holds self.new (at_first self.new.encoder.value) }
    {
        let given_up = self.server.waiting();
        self.server.begin_again();
        self.encoder.line_lost();
        give_pass(self.address, &mut self.encoder);
        forget(&mut self.sent);
        forget(&mut self.codes);
        given_up
    }
}

/// Empties a list, and gives its room back.
fn forget<A: Drop>(values: &mut Vec<A>)
    ensures items { values.new.items ≡ [] }
    ensures room { vec_capacity values.new ≡ 0 }
{
    values.clear();
    values.shrink_to_fit();
}

/// Feeds an encoder a pass to this address.
fn give_pass<T: Target>(address: Address, encoder: &mut Encoder<T>)
    ensures { encoder.new ≡ fed T.step encoder.old (pass_sent address) }
{
    let mut bytes = FrameBytes::new();
    for before in 0..COUNTER_MAX {
        let frame = Frame {
            address,
            counter: before + 1,
            message: Message::new(),
        };
        encode(&frame, &mut bytes);
        let _ = give_cut(encoder, bytes.as_slice(), &[]);
    }
}
