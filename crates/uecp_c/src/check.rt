//! The check of bytes. Source: RDS Forum SPB 490, check.
ghost use Rattle.std.specs.Prelude.{◌≡◌};
ghost use Rattle.uecp_frame.specs.Check.{check};

use uecp_frame::check_of;

/// The check of the bytes, as they stand before stuffing; a frame sends it high byte first. Of no bytes it is 0000.
#[unsafe(no_mangle)]
pub extern "C" fn uecp_check(bytes: &[u8]) -> u16
    ensures { result ≡ check bytes.now }
{
    check_of(bytes)
}
