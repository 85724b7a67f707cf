//! What connections are made with again and again (profile).

use crate::alive::keep_alive;
use crate::watch::Watch;
use std::net::{Net, TcpStream};
use uecp_net::{Connections, DialFault, Dialing};

/// Connections that a [`Patient`](crate::Patient) can make again and again: what it needs of them beside the two ends,
/// which neither call changes.
pub trait Dialler: Connections {
    /// Why the last connection that was asked for could not be made, where that is known.
    fn failed(&self) -> Option<DialFault>;

    /// Has the system ask whether somebody is at the other end of this connection, as [`keep_alive`] does, and gives
    /// the watch a handle of it.
    fn look_after(&self, output: &Self::Output, watch: &Watch);
}

impl<'a, N: Net<Stream = TcpStream>> Dialler for Dialing<'a, N> {
    fn failed(&self) -> Option<DialFault> {
        Dialing::failed(self)
    }

    fn look_after(&self, output: &TcpStream, watch: &Watch) {
        keep_alive(output);
        watch.opened(output);
    }
}
