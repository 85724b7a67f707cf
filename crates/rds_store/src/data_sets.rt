//! Data sets with their services, and the groups. Source: RDS Forum SPB 490 for data sets and programme services,
//! profile for the limits.
ghost use Rattle.std.specs.Prelude.{◌≡◌, false, IfOk, None};
ghost use Rattle.rds_store.specs.Step.{element_by_element, group_taken};
ghost use Rattle.rds_store.specs.Opening.{opening, fault_of};

use crate::group::Group;
use crate::in_sets::{ServiceInSets, copy_services};
use crate::opening_store::opening_services;
use arrayvec::ArrayVec;
use indexmap::IndexMap;
use std::alloc::{AllocError, Global};
use std::marker::Model;
use uecp_elements::{Code, elements};

/// Data sets with the same services each, and one queue of groups; they are changed element by element.
///
/// A clause sees the number of sets, the services in configured order, the current set, what each service has in each
/// set, as a map from both numbers, and the groups.
#[derive(Drop)]
pub(crate) struct DataSets {
    /// The number of data sets, 1 to 8.
    pub(crate) sets: u8,
    /// The current data set, counted from 1.
    pub(crate) current: u8,
    /// Each service by its number, in configured order.
    pub(crate) services: IndexMap<u8, ServiceInSets>,
    /// The groups that wait, first to go out first.
    pub(crate) groups: ArrayVec<Group, 32>,
}

impl Model for DataSets {
    ghost use Rattle.indexmap.specs.IndexMap.{keys};
    ghost use Rattle.std.specs.FinMap.{from_entries};
    ghost use Rattle.rds_store.specs.Value.{Store, coded_store};
    ghost use Rattle.rds_store.specs.Kept.{all_places, IsKept};

    ghost Value = { Store };

    ghost coded = { coded_store };

    ghost view = { λ r. record {
      sets = r.sets;
      services = keys r.services;
      current = r.current;
      places = from_entries (all_places r.services.entries);
      groups = r.groups.items;
    } };

    ghost invariant = { λ r. IsKept r.sets r.current r.services.entries r.groups.items };
}

impl DataSets {
    /// Those of the opening store.
    pub(crate) fn opened(alloc: Global, sets: u8, services: &[u8]) -> Result<DataSets, AllocError>
        requires { fault_of sets services.now ≡ None }
        ensures { IfOk result (λ v. v ≡ opening sets services.now) }
    {
        Ok(DataSets {
            sets,
            current: 1,
            services: opening_services(alloc, sets, services)?,
            groups: ArrayVec::new(),
        })
    }

    /// Puts the elements of a message in turn, up to the first that is refused or does not read, and answers the code
    /// of that one, or 00.
    #[tactic(auto, unfolding(uecp_elements::specs::Folding::folded))]
    pub(crate) fn put_each(&mut self, message: &[u8]) -> Code
        ensures { (self.new, result) ≡ element_by_element self.old message.now }
    {
        for item in elements(message) {
            match item {
                Ok(element) => match self.put(&element) {
                    Code::Applied => {}
                    refused => return refused,
                },
                Err(fault) => return fault.code,
            }
        }
        Code::Applied
    }

    /// Becomes what others with the same sets and services are. It takes no memory.
    pub(crate) fn copy_from(&mut self, others: &DataSets)
        requires sets { self.old.sets ≡ others.now.sets }
        requires services { self.old.services ≡ others.now.services }
        ensures { self.new ≡ others.now }
    {
        self.current = others.current;
        copy_services(&mut self.services, &others.services);
        self.groups.clear();
        match self.groups.try_extend_from_slice(others.groups.as_slice()) {
            Ok(()) => {}
            Err(_) => unreachable!(),
        }
    }

    /// Removes the first group, and gives it.
    pub(crate) fn take_group(&mut self) -> Option<Group>
        ensures { (self.new, result) ≡ group_taken self.old }
    {
        self.groups.pop_at(0)
    }
}
