//! Whether bytes have come on a connection that nobody has read yet (profile).

use std::io::ErrorKind;
use std::net::TcpStream;
use std::time::Duration;

/// A handle of a connection that tells whether something has come on it. What it tells no contract says.
pub trait Arrivals: Sized {
    /// Another handle of the same connection, if there is one to be had.
    fn another(&self) -> Option<Self>;

    /// Whether something has come that was not read yet, be it the end or a fault, or comes within so long. The wait is
    /// no longer than that; a time of 0 is none.
    fn comes_within(&self, limit: Duration) -> bool;
}

impl Arrivals for TcpStream {
    fn another(&self) -> Option<TcpStream> {
        self.try_clone().ok()
    }

    fn comes_within(&self, limit: Duration) -> bool {
        let Ok(usual) = self.read_timeout() else {
            return false;
        };
        if self.set_read_timeout(Some(limit)).is_err() {
            return false;
        }
        let mut byte = [0u8];
        let comes = match self.peek(&mut byte) {
            Ok(_) => true,
            Err(error) => {
                !matches!(error.kind(), ErrorKind::WouldBlock | ErrorKind::Interrupted)
            }
        };
        let _ = self.set_read_timeout(usual);
        comes
    }
}
