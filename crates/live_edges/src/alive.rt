//! Whether somebody is at the other end of a connection (profile).

use libc::net as c;
use std::net::TcpStream;
use std::os::fd::AsRawFd;

/// After how many seconds in which nothing came the system asks the other end whether it is there.
const FIRST: u16 = 60;

/// After how many seconds it asks again.
const NEXT: u16 = 10;

/// How often it asks before the connection fails.
const ASKS: u16 = 6;

/// Has the system ask the other end of a connection whether it is there, where nothing comes of it for a minute. Where
/// no answer comes for a minute more the connection breaks, and a read fails. Where that is refused, nobody asks.
pub fn keep_alive(stream: &TcpStream) {
    let fd = stream.as_raw_fd();
    unsafe {
        c::setsockopt(fd, c::IPPROTO_TCP, c::TCP_KEEPIDLE, &value_of(FIRST), 4);
        c::setsockopt(fd, c::IPPROTO_TCP, c::TCP_KEEPINTVL, &value_of(NEXT), 4);
        c::setsockopt(fd, c::IPPROTO_TCP, c::TCP_KEEPCNT, &value_of(ASKS), 4);
        c::setsockopt(fd, c::SOL_SOCKET, c::SO_KEEPALIVE, &value_of(1), 4);
    }
}

/// The value of an option that is a number.
fn value_of(number: u16) -> [u8; 16] {
    let mut value = [0u8; 16];
    value[..4].copy_from_slice(&u32::from(number).to_ne_bytes());
    value
}
