//! A store as lines of phrases (profile).
ghost use Rattle.std.specs.Prelude.{flat_map, [], ◌∷◌};
ghost use Rattle.rds_store.specs.Refusals.{set_numbers};
ghost use Rattle.uecp_elements.specs.Grammar.{Select};
ghost use Rattle.uecp_text.specs.Written.{Adds};
ghost use Rattle.store_phrases.specs.Said.{said_at, set_said, said_of, said_lines};

use crate::element_line::Lines;
use crate::form::ElementForm;
use crate::groups::put_groups;
use crate::services::put_service;
use rds_store::RdsStore;
use rds_text::Region;
use uecp_elements::Element;
use uecp_text::Output;

/// Adds the lines of a store, each the phrase of one element, in the order of [`put_elements`]. An encoder with the
/// same sets and services that is sent a message for each line then has this store. Where no group waits, those that
/// wait in the encoder stay: no element empties their queue.
pub fn put_store(region: Region, store: &RdsStore, output: &mut Output)
    ensures { Adds output.old output.new (said_lines region store.now) }
{
    put_elements(&Lines { region }, store, output);
}

/// Adds the elements of a store, each in the form: for each data set from 1 each service in configured order with its
/// PI, name, traffic flags, music, programme type and texts; then the groups that wait, and the current set.
///
/// ```
/// put_elements(&form, encoder.target(), &mut output);
/// ```
pub fn put_elements<F: ElementForm>(form: &F, store: &RdsStore, output: &mut F::Out)
    ensures { Adds (F.kept output.old) (F.kept output.new) (flat_map (F.bytes form.now) (said_of store.now)) }
{
    put_sets(form, store, output);
    put_groups(form, store.groups(), output);
    put_current(form, store.current(), output);
}

/// The element that selects the current set.
fn put_current<F: ElementForm>(form: &F, current: u8, output: &mut F::Out)
    ensures { Adds (F.kept output.old) (F.kept output.new) (flat_map (F.bytes form.now) (Select current ∷ [])) }
{
    form.put(&Element::Select { dsn: current }, output);
}

/// The services of each set, set 1 first.
fn put_sets<F: ElementForm>(form: &F, store: &RdsStore, output: &mut F::Out)
    ensures { Adds (F.kept output.old) (F.kept output.new)
        (flat_map (F.bytes form.now) (flat_map (set_said store.now) (set_numbers store.now.sets))) }
{
    for set in 1..=store.set_count() {
        put_set(form, store, set, output);
    }
}

/// The services of one set, in configured order.
fn put_set<F: ElementForm>(form: &F, store: &RdsStore, set: u8, output: &mut F::Out)
    ensures { Adds (F.kept output.old) (F.kept output.new) (flat_map (F.bytes form.now) (set_said store.now set)) }
{
    let mut place = 0;
    while let Some(number) = store.service_number(place) {
        put_at(form, store, set, number, output);
        place += 1;
    }
}

/// The service of that number in a set, where it is there.
#[tactic(auto, unfolding(crate::specs::Said::said_at))]
fn put_at<F: ElementForm>(form: &F, store: &RdsStore, set: u8, number: u8, output: &mut F::Out)
    ensures { Adds (F.kept output.old) (F.kept output.new)
        (flat_map (F.bytes form.now) (said_at store.now set number)) }
{
    if let Some(service) = store.service(set, number) {
        put_service(form, set, number, service, output);
    }
}
