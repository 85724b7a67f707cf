//! The service that is on the air, and its texts. Source: RDS Forum SPB 490, data sets and programme services.
ghost use Rattle.std.specs.Prelude.{◌≡◌, ◌<◌, ◌≤◌, length, slice_get, IfSome};
ghost use Rattle.std.specs.Option.{option_map};
ghost use Rattle.rds_store.specs.Content.{opening_service};
ghost use Rattle.carousel.specs.Service.{main_service, is_told};
ghost use Rattle.carousel.specs.Texts as choice;
ghost use Rattle.carousel.specs.View.{service_of, text_of};

use rds_groups::Head;
use rds_store::{RadioText, RdsStore, Service};

/// What the store has of the service that is on the air.
#[derive(Clone, Copy)]
pub(crate) struct Station<'a> {
    pub(crate) head: Head,
    pub(crate) ps: [u8; 8],
    pub(crate) ta: bool,
    pub(crate) music: bool,
    pub(crate) texts: &'a [RadioText],
}

/// A text that can go out.
#[derive(Clone, Copy)]
pub(crate) struct Offer<'a> {
    pub(crate) toggle: bool,
    pub(crate) transmissions: u8,
    pub(crate) bytes: &'a [u8],
}

/// The main service in the current data set.
pub(crate) fn main_service(store: &RdsStore) -> Station<'_>
    ensures value { service_of result ≡ main_service store.now }
    ensures pty { result.head.pty < 32 }
    ensures few { length result.texts.now ≤ 8 }
{
    match store.service_number(0) {
        Some(number) => match store.service(store.current(), number) {
            Some(service) => station_of(service),
            None => no_station(),
        },
        None => no_station(),
    }
}

/// Whether the service that is on the air was told a PI. Until then it has 0000, as each store at first, and that goes
/// out. Source: profile.
pub fn has_pi(store: &RdsStore) -> bool
    ensures { result ≡ is_told (main_service store.now) }
{
    main_service(store).head.pi != 0
}

fn station_of(service: &Service) -> Station<'_>
    ensures value { service_of result ≡ service.now }
    ensures pty { result.head.pty < 32 }
    ensures few { length result.texts.now ≤ 8 }
{
    Station {
        head: Head {
            pi: service.pi(),
            tp: service.tp(),
            pty: service.pty(),
        },
        ps: *service.ps(),
        ta: service.ta(),
        music: service.music(),
        texts: service.texts(),
    }
}

fn no_station<'a>() -> Station<'a>
    ensures value { service_of result ≡ opening_service }
    ensures pty { result.head.pty < 32 }
    ensures few { length result.texts.now ≤ 8 }
{
    Station {
        head: Head::default(),
        ps: [0x20; 8],
        ta: false,
        music: false,
        texts: &[],
    }
}

/// How many texts there are to be sent, at least one.
pub(crate) fn count(texts: &[RadioText]) -> usize
    requires { length texts.now ≤ 8 }
    ensures value { result ≡ length (choice.line_up texts.now) }
    ensures few { result ≤ 8 }
{
    if texts.is_empty() { 1 } else { texts.len() }
}

/// The text at a place of those that are to be sent.
pub(crate) fn text_at(texts: &[RadioText], place: usize) -> Option<Offer<'_>>
    ensures value { option_map text_of result ≡ slice_get (choice.line_up texts.now) place }
    ensures short { IfSome result (λ text. length text.bytes.now ≤ 64) }
    ensures within { IfSome result (λ text. place < length (choice.line_up texts.now)) }
{
    if texts.is_empty() && place == 0 {
        return Some(no_text());
    }
    match texts.get(place) {
        Some(text) => Some(Offer {
            toggle: text.toggle(),
            transmissions: text.transmissions(),
            bytes: text.text(),
        }),
        None => None,
    }
}

/// An empty text.
pub(crate) fn no_text<'a>() -> Offer<'a>
    ensures value { text_of result ≡ choice.no_text }
    ensures short { length result.bytes.now ≤ 64 }
{
    Offer {
        toggle: true,
        transmissions: 0,
        bytes: &[],
    }
}
