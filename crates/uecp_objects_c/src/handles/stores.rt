//! What the store of an encoder has. Source: RDS Forum SPB 490, data sets and programme services; profile for how it is
//! told.
ghost use Rattle.std.specs.Prelude.{◌≡◌, Some, None, option_map, slice_get, MatchOption};
ghost use Rattle.std.specs.Option.{option_copied, option_and_then};
ghost use Rattle.c_values.specs.Statuses.{done, not_there};
ghost use Rattle.c_values.specs.Kinds.{encoder_of};
ghost use Rattle.c_values.specs.Calls.{Calls, Finds};
ghost use Rattle.uecp_objects_c.specs.Told.{told_store, told_service, told_text, service_at, text_at};

use c_values::status::{DONE, EMPTY, NOT_THERE, OTHER_KIND};
use c_values::{Handle, Object, put, take};
use rds_store::{RadioText, RdsStore, Service};
use std::alloc::Global;

/// What a store has, as C reads it.
#[repr(C)]
#[derive(Clone, Copy)]
pub struct StoreView {
    /// How many data sets there are, 1 to 8.
    pub sets: u8,
    /// The current data set, 1 to their number.
    pub current: u8,
    /// How many services there are, 1 to 8.
    pub services: usize,
    /// How many groups wait, at most 32.
    pub groups: usize,
}

/// What a service has in a data set, as C reads it.
#[repr(C)]
#[derive(Clone, Copy)]
pub struct ServiceView {
    /// The programme identification.
    pub pi: u16,
    /// The programme service name, bytes of any value.
    pub name: [u8; 8],
    /// Whether it is a traffic programme.
    pub is_traffic_programme: bool,
    /// Whether a traffic announcement is on.
    pub is_traffic_announcement: bool,
    /// Music, or else speech.
    pub is_music: bool,
    /// The programme type, 00 to 1F.
    pub programme_type: u8,
    /// How many RadioTexts it has, at most 8.
    pub texts: u8,
}

/// A RadioText of a service, as C reads it.
#[repr(C)]
#[derive(Clone, Copy)]
pub struct TextView {
    /// The toggle, by which a receiver tells a new text from a repeated one.
    pub toggle: bool,
    /// How many times it is to be sent, 0 to 15; 0 is without limit.
    pub transmissions: u8,
    /// How many bytes it has, 0 to 64.
    pub length: u8,
    /// Its bytes, at the start.
    pub text: [u8; 64],
}

/// Tells what a store has.
fn show_store(store: &RdsStore, view: &mut StoreView)
    ensures { view.new ≡ told_store store.now }
{
    view.sets = store.set_count();
    view.current = store.current();
    view.services = store.service_count();
    view.groups = store.groups().len();
}

/// Tells what the store of a handle's encoder has.
#[unsafe(no_mangle)]
pub extern "C" fn uecp_encoder_store(alloc: Global, handle: &mut Handle, view: &mut StoreView) -> u8
    ensures told { Calls (encoder_of handle.old.object.value) result (view.new ≡ view.old)
        (λ e. (result ≡ done) × (view.new ≡ told_store e.value)) }
    ensures stays { handle.new.object.value ≡ handle.old.object.value }
{
    let Some(object) = take(alloc, handle) else {
        return EMPTY;
    };
    let status = match &*object {
        Object::Encoder(encoder) => {
            show_store(encoder.target(), view);
            DONE
        }
        _ => OTHER_KIND,
    };
    put(handle, object);
    status
}

/// Tells the number of the service at a place.
fn show_number(store: &RdsStore, place: usize, number: &mut u8) -> u8
    ensures { Finds (slice_get store.now.services place) result (number.new ≡ number.old) (λ n. number.new ≡ n) }
{
    match store.service_number(place) {
        Some(found) => {
            *number = found;
            DONE
        }
        None => NOT_THERE,
    }
}

/// Tells the number of the service at a place of the order in which the services of a handle's encoder were given, the
/// main one at 0.
#[unsafe(no_mangle)]
pub extern "C" fn uecp_encoder_service_number(
    alloc: Global,
    handle: &mut Handle,
    place: usize,
    number: &mut u8,
) -> u8
    ensures told { Calls (encoder_of handle.old.object.value) result (number.new ≡ number.old)
        (λ e. Finds (slice_get e.value.services place) result (number.new ≡ number.old) (λ n. number.new ≡ n)) }
    ensures stays { handle.new.object.value ≡ handle.old.object.value }
{
    let Some(object) = take(alloc, handle) else {
        return EMPTY;
    };
    let status = match &*object {
        Object::Encoder(encoder) => show_number(encoder.target(), place, number),
        _ => OTHER_KIND,
    };
    put(handle, object);
    status
}

/// Tells what a service has.
fn show_service(service: &Service, view: &mut ServiceView)
    ensures { view.new ≡ told_service service.now }
{
    view.pi = service.pi();
    view.name = *service.ps();
    view.is_traffic_programme = service.tp();
    view.is_traffic_announcement = service.ta();
    view.is_music = service.music();
    view.programme_type = service.pty();
    view.texts = service.texts().len() as u8;
}

/// Tells what a service has in a set.
fn show_service_at(store: &RdsStore, set: u8, service: u8, view: &mut ServiceView) -> u8
    ensures { Finds (service_at store.now set service) result (view.new ≡ view.old)
        (λ s. view.new ≡ told_service s) }
{
    match store.service(set, service) {
        Some(found) => {
            show_service(found, view);
            DONE
        }
        None => NOT_THERE,
    }
}

/// Tells what the service of a number has in a data set, from 1, of a handle's encoder.
#[unsafe(no_mangle)]
pub extern "C" fn uecp_encoder_service(
    alloc: Global,
    handle: &mut Handle,
    set: u8,
    service: u8,
    view: &mut ServiceView,
) -> u8
    ensures told { Calls (encoder_of handle.old.object.value) result (view.new ≡ view.old)
        (λ e. Finds (service_at e.value set service) result (view.new ≡ view.old) (λ s. view.new ≡ told_service s)) }
    ensures stays { handle.new.object.value ≡ handle.old.object.value }
{
    let Some(object) = take(alloc, handle) else {
        return EMPTY;
    };
    let status = match &*object {
        Object::Encoder(encoder) => show_service_at(encoder.target(), set, service, view),
        _ => OTHER_KIND,
    };
    put(handle, object);
    status
}

/// Tells a RadioText.
fn show_text(text: &RadioText, view: &mut TextView)
    ensures { view.new ≡ told_text view.old text.now }
{
    let bytes = text.text();
    view.toggle = text.toggle();
    view.transmissions = text.transmissions();
    view.length = bytes.len() as u8;
    view.text[..bytes.len()].copy_from_slice(bytes);
}

/// Tells the RadioText at a place that a service has in a set.
fn show_text_at(store: &RdsStore, set: u8, service: u8, place: usize, view: &mut TextView) -> u8
    ensures { Finds (text_at (service_at store.now set service) place) result (view.new ≡ view.old)
        (λ t. view.new ≡ told_text view.old t) }
{
    let Some(found) = store.service(set, service) else {
        return NOT_THERE;
    };
    match found.texts().get(place) {
        Some(text) => {
            show_text(text, view);
            DONE
        }
        None => NOT_THERE,
    }
}

/// Tells the RadioText at a place, the oldest first, from 0, that a service has in a data set of a handle's encoder.
#[unsafe(no_mangle)]
pub extern "C" fn uecp_encoder_text(
    alloc: Global,
    handle: &mut Handle,
    set: u8,
    service: u8,
    place: usize,
    view: &mut TextView,
) -> u8
    ensures told { Calls (encoder_of handle.old.object.value) result (view.new ≡ view.old)
        (λ e. Finds (text_at (service_at e.value set service) place) result (view.new ≡ view.old)
        (λ t. view.new ≡ told_text view.old t)) }
    ensures stays { handle.new.object.value ≡ handle.old.object.value }
{
    let Some(object) = take(alloc, handle) else {
        return EMPTY;
    };
    let status = match &*object {
        Object::Encoder(encoder) => show_text_at(encoder.target(), set, service, place, view),
        _ => OTHER_KIND,
    };
    put(handle, object);
    status
}
