//! Addresses. Source: RDS Forum SPB 490, addressing.
ghost use Rattle.std.specs.Prelude.{◌≡◌, ◌+◌, ◌*◌, ◌<◌, ◌⊎◌, ◌↔◌, IsTrue, IsSome, IfSome};
ghost use Rattle.uecp_frame.specs.Address.{site_of, encoder_of, is_exact, reaches};

use std::marker::Model;

/// How many sites an address can name, 0 for all among them: it has ten bits for them.
const SITES: u16 = 1024;

/// How many encoders of a site an address can name, 0 for all among them: it has six bits for them, the lower ones.
const ENCODERS: u16 = 64;

/// Whom a frame is for: a site of 10 bits and an encoder of 6. A part that is 0 stands for all sites, or for all
/// encoders of a site. Contracts see its value, the site times 64 plus the encoder.
#[derive(Clone, Copy, Debug, PartialEq, Eq)]
pub struct Address {
    value: u16,
}

impl Model for Address {
    ghost use Rattle.std.specs.Prelude.{ℕ};

    ghost Value = { ℕ };

    ghost view = { λ a. a.value };

    ghost inverse = { λ n. record { value = n } };
}

impl Address {
    /// The address of a site (0 to 1023) and an encoder (0 to 63). None where either is greater.
    pub fn new(site: u16, encoder: u8) -> Option<Address>
        ensures range { IsSome result ↔ ((site < 1024) × (encoder < 64)) }
        ensures value { IfSome result (λ a. a ≡ site * 64 + encoder) }
    {
        if site < SITES && u16::from(encoder) < ENCODERS {
            Some(Address {
                value: site * ENCODERS + u16::from(encoder),
            })
        } else {
            None
        }
    }

    /// The address of this value, of which every one is an address.
    pub(crate) fn from_value(value: u16) -> Address
        ensures { result ≡ value }
    {
        Address { value }
    }

    /// The 16 bits that a frame carries, sent high byte first.
    pub fn value(self) -> u16
        ensures { result ≡ self }
    {
        self.value
    }

    /// The site, 0 to 1023.
    pub fn site(self) -> u16
        ensures { result ≡ site_of self }
    {
        self.value / ENCODERS
    }

    /// The encoder at the site, 0 to 63.
    pub fn encoder(self) -> u8
        ensures { result ≡ encoder_of self }
    {
        (self.value % ENCODERS) as u8
    }

    /// Whether it is one encoder's own: neither part is 0.
    pub fn is_exact(self) -> bool
        ensures exact { result ≡ is_exact self }
        ensures parts { IsTrue result ↔ ((0 < site_of self) × (0 < encoder_of self)) }
    {
        self.site() != 0 && self.encoder() != 0
    }

    /// Whether a frame to this address is for the encoder of the other one: each part is 0 or that of the other.
    pub fn reaches(self, other: Address) -> bool
        ensures exact { result ≡ reaches self other }
        ensures parts { IsTrue result ↔ (((site_of self ≡ 0) ⊎ (site_of self ≡ site_of other))
            × ((encoder_of self ≡ 0) ⊎ (encoder_of self ≡ encoder_of other))) }
    {
        (self.site() == 0 || self.site() == other.site())
            && (self.encoder() == 0 || self.encoder() == other.encoder())
    }
}
