//! The encoder that the options describe (profile).
ghost use Rattle.std.specs.Prelude.{◌≡◌, ◌⊎◌, None, IfSome, IfNone, IfOk, IfErr, IsTrue};
ghost use Rattle.uecp_frame.specs.Address.{is_exact};
ghost use Rattle.uecp_jobs.specs.Setups.{IsOneEncoder, address_of, options_of, IsSetup, encoder_at_first};
ghost use Rattle.uecp_jobs.specs.Setups.{line_at_first, RefusesSetup};
ghost use Rattle.rds_store.specs.Opening.{fault_of, opening};
ghost use Rattle.uecp_text.specs.declared.run_fault.RunFault.TheVariants.{OutOfMemory};

use rds_store::{RdsStore, StoreFault};
use std::alloc::Global;
use uecp_encoder::Encoder;
use uecp_frame::Address;
use uecp_link::Line;
use uecp_text::RunFault;

/// The options that describe an encoder.
#[derive(Clone, Copy, Debug)]
pub struct Setup<'a> {
    /// The encoder's site.
    pub site: u16,
    /// The encoder's number at its site.
    pub encoder: u8,
    /// How many data sets it has.
    pub sets: u8,
    /// The numbers of its services, the main one first.
    pub services: &'a [u8],
}

/// The address of exactly one encoder, or None where a part is 0 or out of range.
pub fn address_of(site: u16, encoder: u8) -> Option<Address>
    ensures value { IfSome result (λ a. a ≡ address_of site encoder) }
    ensures exact { IfSome result (λ a. IsTrue (is_exact a)) }
    ensures some { IfSome result (λ a. IsOneEncoder site encoder) }
    ensures none { IfNone result (IsOneEncoder site encoder → ⊥) }
{
    match Address::new(site, encoder) {
        Some(address) if address.is_exact() => Some(address),
        _ => None,
    }
}

/// A new encoder with an opening store. The services are judged before the address.
pub fn new_encoder(alloc: Global, setup: &Setup<'_>) -> Result<Encoder<RdsStore>, RunFault>
    ensures described { IfOk result (λ e. IsSetup (options_of setup.now)) }
    ensures made { IfOk result (λ e. e ≡ encoder_at_first (options_of setup.now)) }
    ensures refused { IfErr result (λ fault. (fault ≡ OutOfMemory) ⊎ RefusesSetup (options_of setup.now) fault) }
{
    let store = new_store(alloc, setup)?;
    match address_of(setup.site, setup.encoder) {
        Some(address) => Encoder::new(alloc, address, store).map_err(|_| RunFault::OutOfMemory),
        None => Err(RunFault::Address),
    }
}

/// A new line to an encoder with an opening store. The services are judged before the address.
pub fn new_line(alloc: Global, setup: &Setup<'_>) -> Result<Line<RdsStore>, RunFault>
    ensures described { IfOk result (λ line. IsSetup (options_of setup.now)) }
    ensures made { IfOk result (λ line. line ≡ line_at_first (options_of setup.now)) }
    ensures refused { IfErr result (λ fault. (fault ≡ OutOfMemory) ⊎ RefusesSetup (options_of setup.now) fault) }
{
    let store = new_store(alloc, setup)?;
    match address_of(setup.site, setup.encoder) {
        Some(address) => Line::new(alloc, address, store).map_err(|_| RunFault::OutOfMemory),
        None => Err(RunFault::Address),
    }
}

/// An opening store, or the first fault of data sets and services.
fn new_store(alloc: Global, setup: &Setup<'_>) -> Result<RdsStore, RunFault>
    ensures made { IfOk result (λ store. (fault_of setup.now.sets setup.now.services.now ≡ None)
        × (store ≡ opening setup.now.sets setup.now.services.now)) }
    ensures refused { IfErr result (λ fault. (fault ≡ OutOfMemory) ⊎ RefusesSetup (options_of setup.now) fault) }
{
    match RdsStore::new(alloc, setup.sets, setup.services) {
        Ok(store) => Ok(store),
        Err(StoreFault::OutOfMemory) => Err(RunFault::OutOfMemory),
        Err(refusal) => Err(RunFault::Services(refusal)),
    }
}
