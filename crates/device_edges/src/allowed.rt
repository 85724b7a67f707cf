//! From where connections are taken (profile).
ghost use Rattle.std.specs.Prelude.{◌≡◌, ◌≤◌, ◌↔◌, ◌∷◌, ◌==◌, ℕ, [], List, Some, IsTrue, IfOk, IfErr, MatchOption};
ghost use Rattle.std.specs.List.{slice_split};
ghost use Rattle.std.specs.Net.Grammar.{IsNumber};
ghost use Rattle.device_edges.specs.declared.allowed.AllowFault.TheVariants.{NotAList};
ghost use Rattle.device_edges.specs.declared.allowed.Network.{Network};
ghost use Rattle.device_edges.specs.Allowed.{SharesFirst, IsIn, IsInOne, IsTaken, IsNetwork, IsNetworkText, IsListText};
ghost use Rattle.device_edges.specs.Allowed.{address_bits};

use std::alloc::Global;
use std::marker::Model;
use std::net::IpAddr;

/// A network: all addresses that begin with so many bits of this one.
#[derive(Clone, Copy, Debug)]
pub struct Network {
    address: IpAddr,
    bits: u8,
}

/// Why a text is no list of addresses and networks.
#[derive(Clone, Copy, Debug, PartialEq, Eq)]
pub enum AllowFault {
    /// A part of it is none.
    NotAList,
    /// Memory was wanting.
    OutOfMemory,
}

/// The addresses and networks from which connections are taken.
#[derive(Drop)]
pub struct Allowed {
    networks: Vec<Network>,
}

impl Model for Allowed {
    ghost use Rattle.std.specs.Prelude.{List};
    ghost use Rattle.device_edges.specs.declared.allowed.Network.{Network};

    ghost Value = { List Network };

    ghost view = { λ a. a.networks.items };
}

impl Allowed {
    /// Those of a text: addresses and networks behind one another with commas between, as
    /// `192.0.2.7,10.0.0.0/8,2001:db8::/32`. A network is an address, a slash, and how many of its first bits count.
    ///
    /// Errors: as [`AllowFault`] has them.
    pub fn of(alloc: Global, text: &str) -> Result<Allowed, AllowFault>
        ensures list { IfOk result (λ allowed. IsListText text.now allowed) }
        ensures refused { IfErr result (λ fault. fault ≡ NotAList
            → (networks : List Network) → ¬ (IsListText text.now networks)) }
    {
        let mut networks = Vec::new(alloc);
        for part in text.split(',') {
            let Some(network) = network_of(part) else {
                return Err(AllowFault::NotAList);
            };
            if networks.push(network).is_err() {
                return Err(AllowFault::OutOfMemory);
            }
        }
        Ok(Allowed { networks })
    }

    /// Whether a connection from this address is taken. One of version 4 that comes as one of version 6 is itself.
    pub fn has(&self, address: IpAddr) -> bool
        ensures { IsTrue result ↔ IsTaken (Some self.now) address }
    {
        is_in_one(&self.networks, address.to_canonical())
    }
}

/// Whether an address is in one of these networks.
fn is_in_one(networks: &[Network], address: IpAddr) -> bool
    ensures { IsTrue result ↔ IsInOne networks.now address }
{
    networks.iter().any(|network| network.has(address))
}

impl Network {
    /// Whether it has this address.
    pub fn has(&self, address: IpAddr) -> bool
        ensures { IsTrue result ↔ IsIn self.now address }
    {
        match self.address {
            IpAddr::V4(own) => match address {
                IpAddr::V4(other) => shares_first(self.bits, &own.octets(), &other.octets()),
                IpAddr::V6(_) => false,
            },
            IpAddr::V6(own) => match address {
                IpAddr::V6(other) => shares_first(self.bits, &own.octets(), &other.octets()),
                IpAddr::V4(_) => false,
            },
        }
    }
}

/// The network that a part of a list writes, if it writes one.
fn network_of(part: &str) -> Option<Network>
    ensures { MatchOption result ((network : Network) → ¬ (IsNetworkText part.now network)) (IsNetworkText part.now) }
{
    match part.split_once('/') {
        None => one_address(part),
        Some((address, bits)) => some_addresses(address, bits),
    }
}

/// The network of one address.
fn one_address(address: &str) -> Option<Network>
    ensures { MatchOption result ((network : Network) → ¬ (IsNetwork (address.now ∷ []) network))
        (IsNetwork (address.now ∷ [])) }
{
    let address = address.parse::<IpAddr>().ok()?;
    let bits = most_bits(&address);
    Some(Network { address, bits })
}

/// The network of an address and what stands behind its slash.
fn some_addresses(address: &str, bits: &str) -> Option<Network>
    ensures { let pieces = address.now ∷ slice_split (λ byte. byte == 47) bits.now in
        MatchOption result ((network : Network) → ¬ (IsNetwork pieces network)) (IsNetwork pieces) }
{
    let address = address.parse::<IpAddr>().ok()?;
    let bits = number_of(bits)?;
    if bits > most_bits(&address) {
        return None;
    }
    Some(Network { address, bits })
}

/// The number that decimal digits alone write, up to 255.
fn number_of(digits: &str) -> Option<u8>
    ensures { MatchOption result ((number : ℕ) → number ≤ 255 → ¬ (IsNumber 10 digits.now number))
        (IsNumber 10 digits.now) }
{
    if digits.starts_with('+') {
        return None;
    }
    digits.parse::<u8>().ok()
}

/// How many bits an address has.
fn most_bits(address: &IpAddr) -> u8
    ensures { result ≡ address_bits address.now }
{
    match address {
        IpAddr::V4(_) => 32,
        IpAddr::V6(_) => 128,
    }
}

/// Whether the first so many bits of these bytes are the same.
fn shares_first(bits: u8, bytes: &[u8], others: &[u8]) -> bool
    ensures { IsTrue result ↔ SharesFirst bits bytes.now others.now }
{
    let whole = usize::from(bits / 8);
    let rest = bits % 8;
    if bytes.len() < whole || others.len() < whole || bytes[..whole] != others[..whole] {
        return false;
    }
    if rest == 0 {
        return true;
    }
    if bytes.len() == whole || others.len() == whole {
        return false;
    }
    bytes[whole] >> (8 - rest) == others[whole] >> (8 - rest)
}
