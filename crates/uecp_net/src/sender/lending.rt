//! What a sender lends. Source: profile.
ghost use Rattle.std.specs.Prelude.{◌≡◌};

use super::Sender;
use crate::connect::Connections;
use uecp_link::Server;

impl<'a, C: Connections> Sender<'a, C> {
    /// The server as it is now: with what it holds, and the counter of its last message.
    ///
    /// ```
    /// let waiting = sender.server().waiting();
    /// ```
    pub fn server(&self) -> &Server
        ensures { result.now ≡ self.now.sender.server }
    {
        &self.server
    }
}
