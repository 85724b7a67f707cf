//! Addresses by their parts. Source: RDS Forum SPB 490, addressing.
ghost use Rattle.std.specs.Prelude.{◌≡◌, IfSome, IsTrue};
ghost use Rattle.uecp_frame.specs.Address.{is_exact};
ghost use Rattle.uecp_objects_c.specs.Faults.{own_address};

use uecp_frame::Address;

/// The address of one encoder, whose parts are not 0.
pub(crate) fn own_address(site: u16, encoder: u8) -> Option<Address>
    ensures value { result ≡ own_address site encoder }
    ensures exact { IfSome result (λ address. IsTrue (is_exact address)) }
{
    let address = Address::new(site, encoder)?;
    if address.is_exact() {
        Some(address)
    } else {
        None
    }
}
