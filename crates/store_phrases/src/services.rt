//! A service of a data set, element by element (profile).
ghost use Rattle.std.specs.Prelude.{◌≡◌, ◌++◌, [], true, false, map, flat_map};
ghost use Rattle.uecp_elements.specs.Grammar.{Ps};
ghost use Rattle.uecp_text.specs.Written.{Adds};
ghost use Rattle.store_phrases.specs.Said.{flag_bit, traffic_byte, head_byte, values_said, text_said, texts_said};
ghost use Rattle.store_phrases.specs.Said.{service_said};

use crate::form::ElementForm;
use crate::groups::rule_bits;
use rds_store::{RadioText, Service};
use uecp_elements::{Element, RtPart};

/// The elements of a service: what it has, then its texts.
pub(crate) fn put_service<F: ElementForm>(
    form: &F,
    set: u8,
    number: u8,
    service: &Service,
    output: &mut F::Out,
)
    ensures { Adds (F.kept output.old) (F.kept output.new)
        (flat_map (F.bytes form.now) (service_said set number service.now)) }
{
    put_values(form, set, number, service, output);
    put_texts(form, set, number, service.texts(), output);
}

/// The elements of what a service has but for its texts.
fn put_values<F: ElementForm>(form: &F, set: u8, number: u8, service: &Service, output: &mut F::Out)
    ensures { Adds (F.kept output.old) (F.kept output.new)
        (flat_map (F.bytes form.now) (values_said set number service.now)) }
{
    let (dsn, psn) = (set, number);
    let pi = service.pi();
    let traffic = traffic_byte(service);
    let music = u8::from(service.music());
    let pty = service.pty();
    form.put(&Element::Pi { dsn, psn, pi }, output);
    put_name(form, set, number, service.ps(), output);
    form.put(
        &Element::TaTp {
            dsn,
            psn,
            raw: traffic,
        },
        output,
    );
    form.put(
        &Element::Ms {
            dsn,
            psn,
            raw: music,
        },
        output,
    );
    form.put(&Element::Pty { dsn, psn, raw: pty }, output);
}

/// The element of a name.
fn put_name<F: ElementForm>(form: &F, set: u8, number: u8, name: &[u8; 8], output: &mut F::Out)
    ensures { Adds (F.kept output.old) (F.kept output.new) (F.bytes form.now (Ps set number name.now)) }
{
    let element = Element::Ps {
        dsn: set,
        psn: number,
        name,
    };
    form.put(&element, output);
}

/// TP in bit 1 and TA in bit 0.
fn traffic_byte(service: &Service) -> u8
    ensures { result ≡ traffic_byte service.now }
{
    2 * u8::from(service.tp()) + u8::from(service.ta())
}

/// The elements of the texts: one that empties where there is none, else the first replaces and each other is added.
fn put_texts<F: ElementForm>(
    form: &F,
    set: u8,
    number: u8,
    texts: &[RadioText],
    output: &mut F::Out,
)
    ensures { Adds (F.kept output.old) (F.kept output.new)
        (flat_map (F.bytes form.now) (texts_said set number texts.now)) }
{
    match texts.split_first() {
        None => put_no_text(form, set, number, output),
        Some((first, others)) => {
            put_text(form, set, number, false, first, output);
            put_added(form, set, number, others, output);
        }
    }
}

/// The element that empties a service's texts.
fn put_no_text<F: ElementForm>(form: &F, set: u8, number: u8, output: &mut F::Out)
    ensures { Adds (F.kept output.old) (F.kept output.new) (flat_map (F.bytes form.now) (texts_said set number [])) }
{
    let clear = Element::Rt {
        dsn: set,
        psn: number,
        part: RtPart::Empty,
    };
    form.put(&clear, output);
}

/// The elements of texts that are each added.
fn put_added<F: ElementForm>(
    form: &F,
    set: u8,
    number: u8,
    texts: &[RadioText],
    output: &mut F::Out,
)
    ensures { Adds (F.kept output.old) (F.kept output.new)
        (flat_map (F.bytes form.now) (map (text_said set number true) texts.now)) }
{
    for text in texts {
        put_text(form, set, number, true, text, output);
    }
}

/// The element of a text.
fn put_text<F: ElementForm>(
    form: &F,
    set: u8,
    number: u8,
    adds: bool,
    text: &RadioText,
    output: &mut F::Out,
)
    ensures { Adds (F.kept output.old) (F.kept output.new) (F.bytes form.now (text_said set number adds text.now)) }
{
    let element = Element::Rt {
        dsn: set,
        psn: number,
        part: RtPart::Text {
            head: head_byte(adds, text),
            text: text.text(),
        },
    };
    form.put(&element, output);
}

/// The first byte of a text.
fn head_byte(adds: bool, text: &RadioText) -> u8
    ensures { result ≡ head_byte adds text.now }
{
    rule_bits(adds) + (2 * text.transmissions() + u8::from(text.toggle()))
}
