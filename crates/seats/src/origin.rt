//! From where an address is (profile; RFC 4291, 2.5.1 and 2.5.5.2).
ghost use Rattle.std.specs.Prelude.{◌≡◌};
ghost use Rattle.seats.specs.Origin.{own_origin, IsOrigin};

use std::net::IpAddr;

/// What stands before an address of version 4 in one of version 6 that holds it: 16 ones behind 80 zeros.
const HOLDS_IPV4: u128 = 0xffff << 32;

/// How many addresses of version 6 have the same first 64 bits: a network of one end, as one house or one machine has
/// it.
const ENDS: u128 = 1 << 64;

/// The origin of an address: of one of version 4 itself, as one of version 6 holds it; of another of version 6 its
/// first 64 bits, with zeros behind them.
pub fn origin_of(address: IpAddr) -> u128
    ensures { IsOrigin address result }
{
    own_origin(address.to_canonical())
}

/// The origin of an address that stands for no other.
fn own_origin(address: IpAddr) -> u128
    ensures { result ≡ own_origin address }
{
    match address {
        IpAddr::V4(address) => HOLDS_IPV4 + u128::from(address.to_bits()),
        IpAddr::V6(address) => address.to_bits() / ENDS * ENDS,
    }
}
