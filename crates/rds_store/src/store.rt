//! The store: a message is whole or none. Source: RDS Forum SPB 490 for data sets and programme services, profile for
//! the limits.
ghost use Rattle.std.specs.Prelude.{ℕ, ◌≡◌, ◌==◌, All, ◌&&◌, nat_le, is_some, false, ◌<◌, ◌≤◌, IfSome, length};
ghost use Rattle.std.specs.Prelude.{slice_get};
ghost use Rattle.std.specs.Prelude.{IfOk, IfErr, unwrap_or, None};
ghost use Rattle.std.specs.Option.{option_copied};
ghost use Rattle.std.specs.List.{list_any};
ghost use Rattle.std.specs.FinMap.{get};
ghost use Rattle.uecp_elements.specs.Grammar as grammar;
ghost use Rattle.uecp_elements.specs.View.{element_of};
ghost use Rattle.rds_store.specs.Value.{IsGroup};
ghost use Rattle.rds_store.specs.Put.{put};
ghost use Rattle.rds_store.specs.Step.{element_by_element, step, group_taken};
ghost use Rattle.rds_store.specs.Opening.{opening, fault_of};

use crate::data_sets::DataSets;
use crate::fault::StoreFault;
use crate::group::Group;
use crate::opening_store::fault_of;
use crate::service::Service;
use std::alloc::{AllocError, Global};
use std::marker::Model;
use uecp_elements::{Code, Element, elements};

/// Data sets with the same services each, and one queue of groups.
///
/// A clause sees the number of sets, the services in configured order, the current set, what each service has in each
/// set, as a map from both numbers, and the groups.
#[derive(Drop)]
pub struct RdsStore {
    /// What the store holds.
    main: DataSets,
    /// Where a message that adds a text beside other elements is tried. It has the sets and the services of `main`;
    /// what else it has is left from the last try.
    trial: DataSets,
}

impl Model for RdsStore {
    ghost use Rattle.std.specs.Prelude.{◌≡◌};
    ghost use Rattle.rds_store.specs.Value.{Store, coded_store};

    ghost Value = { Store };

    ghost coded = { coded_store };

    ghost view = { λ s. s.main };

    ghost invariant = { λ s. (s.trial.sets ≡ s.main.sets) × (s.trial.services ≡ s.main.services) };
}

impl RdsStore {
    /// The opening store of 1 to 8 data sets and 1 to 8 services, whose numbers are listed with the main service first.
    ///
    /// All memory that a store ever has is taken here. The faults are looked for in the order in which `StoreFault`
    /// lists them, and `OutOfMemory` is answered only where memory was refused.
    pub fn new(alloc: Global, sets: u8, services: &[u8]) -> Result<RdsStore, StoreFault>
        ensures allowed { IfOk result (λ v. fault_of sets services.now ≡ None) }
        ensures opening { IfOk result (λ v. v ≡ opening sets services.now) }
        ensures first_fault { IfErr result (λ f. f ≡ unwrap_or (fault_of sets services.now) StoreFault.OutOfMemory) }
    {
        if let Some(fault) = fault_of(sets, services) {
            return Err(fault);
        }
        match RdsStore::opened(alloc, sets, services) {
            Ok(store) => Ok(store),
            Err(_) => Err(StoreFault::OutOfMemory),
        }
    }

    fn opened(alloc: Global, sets: u8, services: &[u8]) -> Result<RdsStore, AllocError>
        requires { fault_of sets services.now ≡ None }
        ensures { IfOk result (λ v. v ≡ opening sets services.now) }
    {
        Ok(RdsStore {
            main: DataSets::opened(alloc, sets, services)?,
            trial: DataSets::opened(alloc, sets, services)?,
        })
    }

    /// Puts one element, whole or not at all, and answers its code.
    ///
    /// The refusals are asked in the order 09, 04, 05, 06, 0B, also where the DSN names no set. After a code but 00
    /// nothing has changed. A text of the element has at most 64 bytes.
    pub fn apply_element(&mut self, element: &Element<'_>) -> Code
        requires { grammar.IsElement (element_of element.now) }
        ensures { (self.new, result) ≡ put self.old (element_of element.now) }
    {
        self.main.put(element)
    }

    /// Applies a message, whole or not at all, and answers its code: that of its first element that is refused or does
    /// not read, or 00. After a code but 00 nothing has changed, also not by what came before that element.
    ///
    /// It takes no memory. Only a message that adds a text and has other elements needs a trial.
    #[tactic(auto, unfolding(uecp_elements::specs::Folding::folded), using(crate::proofs::MessageLaws::one_element))]
    pub fn apply(&mut self, message: &[u8]) -> Code
        ensures { (self.new, result) ≡ step self.old message.now }
    {
        let mut read = elements(message);
        match read.next() {
            None => Code::Applied,
            Some(Err(fault)) => fault.code,
            Some(Ok(only)) => match read.next() {
                None => self.apply_element(&only),
                Some(_) => self.apply_longer(message),
            },
        }
    }

    /// Applies a message whose code is told first.
    fn apply_longer(&mut self, message: &[u8]) -> Code
        ensures { (self.new, result) ≡ step self.old message.now }
    {
        let code = match self.main.judged(message) {
            Some(code) => code,
            None => self.tried(message),
        };
        if code == Code::Applied {
            self.main.put_each(message);
        }
        code
    }

    /// The code with which a message is answered, by the trial. The store stays.
    fn tried(&mut self, message: &[u8]) -> Code
        ensures code { result ≡ (element_by_element self.old message.now).1 }
        ensures stays { self.new ≡ self.old }
    {
        self.trial.copy_from(&self.main);
        self.trial.put_each(message)
    }

    /// Removes the first group that waits, and gives it; nothing else changes. None exactly where none waits.
    ///
    /// ```
    /// store.apply(&[0x24, 0x00, 0x43, 0x12, 0x34, 0x56, 0x78]);
    /// let group = store.take_group(); // kind 00, bits 03, blocks 1234 and 5678; the next call answers None
    /// ```
    pub fn take_group(&mut self) -> Option<Group>
        ensures { (self.new, result) ≡ group_taken self.old }
    {
        self.main.take_group()
    }

    /// The current data set, 1 to their number. It is 1 at the start.
    pub fn current(&self) -> u8
        ensures value { result ≡ self.now.current }
        ensures from_1 { 1 ≤ result }
        ensures there { result ≤ self.now.sets }
    {
        self.main.current
    }

    /// How many data sets there are, 1 to 8.
    pub fn set_count(&self) -> u8
        ensures value { result ≡ self.now.sets }
        ensures from_1 { 1 ≤ result }
        ensures most { result ≤ 8 }
    {
        self.main.sets
    }

    /// How many services there are, 1 to 8.
    pub fn service_count(&self) -> usize
        ensures value { result ≡ length self.now.services }
        // Each service has something in each set, and there is nothing elsewhere.
        ensures there { (place : ℕ × ℕ) → is_some (get self.now.places place)
            ≡ (list_any (λ s. place.1 == s) self.now.services && (nat_le 1 place.0 && nat_le place.0 self.now.sets)) }
    {
        self.main.services.len()
    }

    /// The number of the service at a place of the configured order, counted from 0; None exactly from the number of
    /// services on, which is at most 8.
    pub fn service_number(&self, place: usize) -> Option<u8>
        ensures value { result ≡ slice_get self.now.services place }
        ensures few { IfSome result (λ number. place < 8) }
    {
        match self.main.services.get_index(place) {
            Some((number, _)) => Some(*number),
            None => None,
        }
    }

    /// What the service of that number has in a data set, which is counted from 1.
    ///
    /// None for a set or a number that is not there. The numbers are not those of an element: 00 is neither the
    /// current set nor the main service.
    pub fn service(&self, set: u8, psn: u8) -> Option<&Service>
        ensures value { option_copied result ≡ get self.now.places (set, psn) }
        ensures there { is_some result ≡ (list_any (λ s. psn == s) self.now.services
            && (nat_le 1 set && nat_le set self.now.sets)) }
        ensures zero { psn ≡ 0x00 → is_some result ≡ false }
    {
        match self.main.services.get(&psn) {
            Some(service) => service.get(set),
            None => None,
        }
    }

    /// The groups that wait, at most 32, first to go out first. The type and the bits of each are 00 to 1F.
    pub fn groups(&self) -> &[Group]
        ensures value { result.now ≡ self.now.groups }
        ensures at_most { length result.now ≤ 32 }
        ensures in_range { All IsGroup result.now }
    {
        self.main.groups.as_slice()
    }
}
