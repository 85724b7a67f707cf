//! What one service has in each data set. Source: profile.
ghost use Rattle.std.specs.Prelude.{◌≡◌, ◌≤◌, ◌==◌, ◌&&◌, length, replicate, slice_get, IsTrue, IfOk, IfSome, nat_eq};
ghost use Rattle.std.specs.Prelude.{false, true, None, not, if◌then◌else◌};
ghost use Rattle.std.specs.Option.{option_copied};
ghost use Rattle.indexmap.specs.IndexMap as index;
ghost use Rattle.uecp_elements.specs.Grammar as grammar;
ghost use Rattle.uecp_elements.specs.View.{element_of};
ghost use Rattle.rds_store.specs.Names.{names_set};
ghost use Rattle.rds_store.specs.Content.{opening_service, taken};
ghost use Rattle.rds_store.specs.Refusals.{is_out_of_range, adds_text};
ghost use Rattle.std.specs.Map.{values_of};
ghost use Rattle.indexmap.specs.Layout.{set_value_at};
ghost use Rattle.rds_store.specs.Kept.{changed_sets, any_set_full, in_set, shape_of};

use crate::named_sets::NamedSets;
use crate::rules::adds_text;
use crate::service::Service;
use indexmap::IndexMap;
use std::alloc::{AllocError, Global};
use std::marker::Model;
use uecp_elements::Element;

/// What one service has in each data set, set 1 first, in room for these alone. A clause sees the list.
#[derive(Drop)]
pub(crate) struct ServiceInSets {
    sets: Vec<Service>,
}

impl Model for ServiceInSets {
    ghost use Rattle.std.specs.Prelude.{List, length, ◌≤◌, ◌≡◌, vec_capacity};
    ghost use Rattle.std.specs.Coded.{coded_list};
    ghost use Rattle.rds_store.specs.Value.{ServiceData, coded_service};

    ghost Value = { List ServiceData };

    ghost coded = { coded_list coded_service };

    ghost view = { λ r. r.sets.items };

    ghost invariant = { λ r. (length r.sets.items ≤ 8) × (vec_capacity r.sets ≡ length r.sets.items) };
}

impl ServiceInSets {
    /// A new service in each of the sets.
    pub(crate) fn new(alloc: Global, sets: u8) -> Result<ServiceInSets, AllocError>
        requires { sets ≤ 8 }
        ensures { IfOk result (λ r. r ≡ replicate sets opening_service) }
    {
        let mut in_sets = Vec::with_capacity(alloc, usize::from(sets))?;
        for _ in 0..sets {
            in_sets.push_reserved(Service::new());
        }
        Ok(ServiceInSets { sets: in_sets })
    }

    /// What the service has in a set; None where the set is not there.
    pub(crate) fn get(&self, set: u8) -> Option<&Service>
        ensures { option_copied result ≡ in_set 1 self.now set }
    {
        if set == 0 {
            return None;
        }
        self.sets.get(usize::from(set - 1))
    }

    /// Whether the service has no room for a text in one of the named sets.
    pub(crate) fn is_full(&self, named: NamedSets) -> bool
        ensures { result ≡ any_set_full 1 (names_set named.dsn named.current) self.now }
    {
        match named.only() {
            Some(set) => match self.get(set) {
                Some(service) => service.is_full(),
                None => false,
            },
            None => is_any_full(self.sets.as_slice(), named),
        }
    }

    /// Each named set takes the element's content, and the answer is true; or one of them has no room for it, and all
    /// stay.
    pub(crate) fn put(&mut self, named: NamedSets, element: &Element<'_>) -> bool
        requires short { grammar.IsElement (element_of element.now) }
        requires in_range { is_out_of_range (element_of element.now) ≡ false }
        ensures room { result ≡ not (adds_text (element_of element.now)
            && any_set_full 1 (names_set named.dsn named.current) self.old) }
        ensures taken { self.new ≡ (if result
            then changed_sets 1 (names_set named.dsn named.current) (taken (element_of element.now)) self.old
            else self.old) }
    {
        if adds_text(element) && self.is_full(named) {
            return false;
        }
        self.change(named, element);
        true
    }

    /// Each named set takes the element's content.
    fn change(&mut self, named: NamedSets, element: &Element<'_>)
        requires short { grammar.IsElement (element_of element.now) }
        requires in_range { is_out_of_range (element_of element.now) ≡ false }
        requires room { IsTrue (adds_text (element_of element.now))
            → any_set_full 1 (names_set named.dsn named.current) self.old ≡ false }
        ensures { self.new ≡ changed_sets 1 (names_set named.dsn named.current) (taken (element_of element.now))
            self.old }
    {
        match named.only() {
            Some(set) => change_one(self.sets.as_mut_slice(), set, element),
            None => change_each(self.sets.as_mut_slice(), named, element),
        }
    }

    /// Becomes what another service of as many sets is.
    pub(crate) fn copy_from(&mut self, other: &ServiceInSets)
        requires { length self.old ≡ length other.now }
        ensures { self.new ≡ other.now }
    {
        copy_sets(self.sets.as_mut_slice(), other.sets.as_slice());
    }
}

fn copy_sets(sets: &mut [Service], others: &[Service])
    requires { length sets.old ≡ length others.now }
    ensures { sets.new ≡ others.now }
{
    let mut place = 0usize;
    for service in sets.iter_mut() {
        *service = others[place].copy();
        place += 1;
    }
}

fn is_any_full(sets: &[Service], named: NamedSets) -> bool
    requires { length sets.now ≤ 8 }
    ensures { result ≡ any_set_full 1 (names_set named.dsn named.current) sets.now }
{
    let mut set = 1u8;
    for service in sets {
        if named.has(set) && service.is_full() {
            return true;
        }
        set += 1;
    }
    false
}

/// The service takes the element in the set of this number, if that is there; in the others it stays.
fn change_one(sets: &mut [Service], set: u8, element: &Element<'_>)
    requires short { grammar.IsElement (element_of element.now) }
    requires in_range { is_out_of_range (element_of element.now) ≡ false }
    requires room { IsTrue (adds_text (element_of element.now))
        → any_set_full 1 (λ k. k == set) sets.old ≡ false }
    ensures { sets.new ≡ changed_sets 1 (λ k. k == set) (taken (element_of element.now)) sets.old }
{
    if set == 0 {
        return;
    }
    let place = usize::from(set - 1);
    if place < sets.len() {
        sets[place].take(element);
    }
}

fn change_each(sets: &mut [Service], named: NamedSets, element: &Element<'_>)
    requires few { length sets.old ≤ 8 }
    requires short { grammar.IsElement (element_of element.now) }
    requires in_range { is_out_of_range (element_of element.now) ≡ false }
    requires room { IsTrue (adds_text (element_of element.now))
        → any_set_full 1 (names_set named.dsn named.current) sets.old ≡ false }
    ensures { sets.new ≡ changed_sets 1 (names_set named.dsn named.current) (taken (element_of element.now)) sets.old }
{
    let mut set = 1u8;
    for service in sets.iter_mut() {
        if named.has(set) {
            service.take(element);
        }
        set += 1;
    }
}

/// The service at a place of the order takes the element in each named set, and the answer is true; or one of them has
/// no room for it, and all stay. The other services stay.
pub(crate) fn put_into_service(
    services: &mut IndexMap<u8, ServiceInSets>,
    place: usize,
    named: NamedSets,
    element: &Element<'_>,
) -> bool
    requires short { grammar.IsElement (element_of element.now) }
    requires in_range { is_out_of_range (element_of element.now) ≡ false }
    ensures room { IfSome (slice_get (values_of services.old.entries) place) (λ held. result
        ≡ not (adds_text (element_of element.now) && any_set_full 1 (names_set named.dsn named.current) held)) }
    ensures taken { IfSome (slice_get (values_of services.old.entries) place) (λ held. result ≡ true
        → services.new.entries ≡ set_value_at services.old.entries place
        (changed_sets 1 (names_set named.dsn named.current) (taken (element_of element.now)) held)) }
    ensures absent { slice_get (values_of services.old.entries) place ≡ None → result ≡ false }
    ensures kept { result ≡ false → services.new.entries ≡ services.old.entries }
    ensures unique { index.IsUnique nat_eq services.old }
    // The map has the room that it had.
    ensures spare { index.spare services.new ≡ index.spare services.old }
{
    match services.get_index_mut(place) {
        Some(service) => service.put(named, element),
        None => false,
    }
}

/// Each service becomes what it is in another map of the same services and as many sets.
pub(crate) fn copy_services(
    services: &mut IndexMap<u8, ServiceInSets>,
    others: &IndexMap<u8, ServiceInSets>,
)
    requires { shape_of services.old.entries ≡ shape_of others.now.entries }
    ensures entries { services.new.entries ≡ others.now.entries }
    // The map has the room that it had.
    ensures spare { index.spare services.new ≡ index.spare services.old }
{
    for place in 0..others.len() {
        match others.get_index(place) {
            Some((_, other)) => copy_service(services, place, other),
            None => {}
        }
    }
}

/// The service at a place of the order becomes what another is.
fn copy_service(services: &mut IndexMap<u8, ServiceInSets>, place: usize, other: &ServiceInSets)
    requires { IfSome (slice_get (values_of services.old.entries) place) (λ held. length held ≡ length other.now) }
    ensures entries { services.new.entries ≡ set_value_at services.old.entries place other.now }
    ensures spare { index.spare services.new ≡ index.spare services.old }
{
    match services.get_index_mut(place) {
        Some(service) => service.copy_from(other),
        None => {}
    }
}
