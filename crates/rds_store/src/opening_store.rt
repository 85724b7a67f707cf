//! The opening store: what is asked of its sets and services, and these at the start. Source: profile.
ghost use Rattle.std.specs.Prelude.{◌≡◌, ◌≤◌, map, replicate, IfOk, false};
ghost use Rattle.rds_store.specs.Content.{opening_service};
ghost use Rattle.rds_store.specs.Opening.{fault_of, has_duplicate};

use crate::fault::StoreFault;
use crate::in_sets::ServiceInSets;
use indexmap::IndexMap;
use std::alloc::{AllocError, Global};

/// How many data sets a store has at most.
const SETS_MAX: u8 = 8;

/// How many services a store has at most.
const SERVICES_MAX: usize = 8;

fn has_duplicate(numbers: &[u8]) -> bool
    ensures { result ≡ has_duplicate numbers.now }
{
    match numbers {
        [] => false,
        [first, rest @ ..] => rest.contains(first) || has_duplicate(rest),
    }
}

/// Why there is no store of these sets and services, if so.
pub(crate) fn fault_of(sets: u8, services: &[u8]) -> Option<StoreFault>
    ensures { result ≡ fault_of sets services.now }
{
    if sets == 0 || sets > SETS_MAX {
        return Some(StoreFault::SetCount);
    }
    if services.is_empty() || services.len() > SERVICES_MAX {
        return Some(StoreFault::ServiceCount);
    }
    if services.contains(&0) {
        return Some(StoreFault::ServiceZero);
    }
    if has_duplicate(services) {
        return Some(StoreFault::ServiceTwice);
    }
    None
}

/// Each service with its number, new in each of the sets, in their order.
pub(crate) fn opening_services(
    alloc: Global,
    sets: u8,
    services: &[u8],
) -> Result<IndexMap<u8, ServiceInSets>, AllocError>
    requires few { sets ≤ 8 }
    requires once { has_duplicate services.now ≡ false }
    ensures { IfOk result (λ m. m.entries ≡ map (λ n. (n, replicate sets opening_service)) services.now) }
{
    let mut opened = IndexMap::with_capacity(alloc, services.len())?;
    for number in services {
        let service = ServiceInSets::new(alloc, sets)?;
        opened.insert(*number, service)?;
    }
    Ok(opened)
}
