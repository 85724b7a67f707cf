//! What a server does in a pass of empty messages, while it holds none. Source: profile.
ghost use Rattle.std.specs.Prelude.{◌≡◌, ◌<◌, ◌≤◌, [], length, take, option_to_list};
ghost use Rattle.uecp_link.specs.Server.{idle_at, heard};
ghost use Rattle.uecp_link.specs.Joining.{anew, reply_counters};

use crate::counts::ServerCounts;
use crate::server::Server;
use crate::server::replies::reply_from;
use arrayvec::ArrayVec;
use uecp_frame::{Address, Deframer, FoundRef};

impl Server {
    /// The encoder's address.
    pub fn address(&self) -> Address
        ensures { result ≡ self.now.address }
    {
        self.address
    }

    /// Forgets the last counter and a segment that has not ended. The counts stay.
    pub(crate) fn begin_anew(&mut self)
        requires { self.old.held ≡ [] }
        ensures { self.new ≡ anew self.old }
    {
        self.last = 0;
        self.deframer.line_lost();
    }

    /// Is a new server to the same encoder: what one that was started again is.
    pub(crate) fn begin_again(&mut self)
        ensures { self.new ≡ idle_at self.old.address }
    {
        *self = Server {
            address: self.address,
            last: 0,
            held: ArrayVec::new(),
            counts: ServerCounts::default(),
            deframer: Deframer::new(),
        };
    }

    /// As [`hear`](Server::hear), where no message is held: answers how many bytes it used, and the counter that the
    /// frame which ended replies to, where it is a reply.
    pub(crate) fn hear_reply(&mut self, piece: &[u8]) -> (usize, Option<u8>)
        requires { self.old.held ≡ [] }
        ensures fits { result.0 ≤ length piece.now }
        ensures moves { 0 < length piece.now → 0 < result.0 }
        ensures state { self.new ≡ heard self.old (take result.0 piece.now) }
        ensures counter { reply_counters self.old.address self.old.part (take result.0 piece.now)
            ≡ option_to_list result.1 }
    {
        let fed = self.deframer.feed_ref(piece);
        let used = fed.used;
        let counter = match &fed.found {
            FoundRef::Nothing => None,
            FoundRef::Refused(_) => {
                self.counts.dropped = self.counts.dropped.saturating_add(1);
                None
            }
            FoundRef::Frame(frame) => {
                self.counts.stray = self.counts.stray.saturating_add(1);
                match reply_from(self.address, frame) {
                    Some((counter, _)) => Some(counter),
                    None => None,
                }
            }
        };
        (used, counter)
    }
}
