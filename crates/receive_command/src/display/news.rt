//! What is new, as phrases (profile).
ghost use Rattle.std.specs.Prelude.{◌≡◌, [], nat_eq, bytes_eq, flat_map, false, true, length, ◌≤◌, IfSome, ◌≢◌};
ghost use Rattle.std.specs.Option.{option_map};
ghost use Rattle.rds_groups.specs.Groups.{bit};
ghost use Rattle.uecp_elements.specs.Grammar.{IsElement, Pi, Ps, TaTp, Ms, Pty};
ghost use Rattle.uecp_elements.specs.View.{element_of};
ghost use Rattle.uecp_text.specs.Written.{Adds};
ghost use Rattle.receive_command.specs.Told.{news, traffic, said, radio_text, new_elements, phrase_line};
ghost use Rattle.receive_command.specs.DisplayView.{shown_in, elements_in, IsShort};

use crate::display::shown::Shown;
use phrase_tokens::put_tokens;
use rds_text::Region;
use uecp_elements::{Element, RtPart};
use uecp_phrases::phrase_of;
use uecp_text::Output;

/// What is new.
#[derive(Drop)]
pub(crate) struct News<'a> {
    pi: Option<u16>,
    name: Option<&'a [u8; 8]>,
    traffic: Option<u8>,
    music: Option<u8>,
    pty: Option<u8>,
    text: Option<&'a [u8]>,
}

impl<'a> News<'a> {
    /// Whether there is nothing new.
    pub(crate) fn is_empty(&self) -> bool
        ensures none { result ≡ true → elements_in self.now ≡ [] }
        ensures some { result ≡ false → elements_in self.now ≢ [] }
    {
        self.pi.is_none()
            && self.name.is_none()
            && self.traffic.is_none()
            && self.music.is_none()
            && self.pty.is_none()
            && self.text.is_none()
    }
}

/// What is new where this was shown before, and that is shown now.
pub(crate) fn news_of<'a>(before: &Shown, after: &'a Shown) -> News<'a>
    ensures elements { elements_in result ≡ new_elements (shown_in before.now) (shown_in after.now) }
    ensures short { IsShort result }
{
    News {
        pi: new_number(before.pi, after.pi),
        name: new_name(before, after),
        traffic: new_byte(traffic_of(before), traffic_of(after)),
        music: new_byte(music_of(before), music_of(after)),
        pty: new_byte(before.pty, after.pty),
        text: new_text(before, after),
    }
}

/// TP and TA, once both were heard.
fn traffic_of(shown: &Shown) -> Option<u8>
    ensures { result ≡ traffic shown.now.tp shown.now.ta }
{
    match (shown.tp, shown.ta) {
        (Some(tp), Some(ta)) => Some(2 * u8::from(tp) + u8::from(ta)),
        _ => None,
    }
}

/// MS.
fn music_of(shown: &Shown) -> Option<u8>
    ensures { result ≡ option_map bit shown.now.music }
{
    match shown.music {
        Some(music) => Some(u8::from(music)),
        None => None,
    }
}

/// A number that is new.
fn new_number(before: Option<u16>, after: Option<u16>) -> Option<u16>
    ensures { result ≡ news nat_eq before after }
{
    match (before, after) {
        (Some(before), Some(now)) if before == now => None,
        _ => after,
    }
}

/// A byte that is new.
fn new_byte(before: Option<u8>, after: Option<u8>) -> Option<u8>
    ensures { result ≡ news nat_eq before after }
{
    match (before, after) {
        (Some(before), Some(now)) if before == now => None,
        _ => after,
    }
}

/// A name that is new.
fn new_name<'a>(before: &Shown, after: &'a Shown) -> Option<&'a [u8; 8]>
    ensures { option_map (λ name. name.now) result ≡ news bytes_eq before.now.name after.now.name }
{
    match (&before.name, &after.name) {
        (Some(before), Some(now)) if before.as_slice() == now.as_slice() => None,
        (_, Some(now)) => Some(now),
        (_, None) => None,
    }
}

/// A RadioText that is new.
fn new_text<'a>(before: &Shown, after: &'a Shown) -> Option<&'a [u8]>
    ensures value { option_map (λ text. text.now) result
        ≡ news bytes_eq (shown_in before.now).text (shown_in after.now).text }
    ensures short { IfSome result (λ text. length text.now ≤ 64) }
{
    match (&before.text, &after.text) {
        (Some(before), Some(now)) if before.as_slice() == now.as_slice() => None,
        (_, Some(now)) => Some(now.as_slice()),
        (_, None) => None,
    }
}

/// Adds a phrase for each thing that is new.
pub(crate) fn put_news(region: Region, news: &News<'_>, output: &mut Output)
    requires { IsShort news.now }
    ensures { Adds output.old output.new (flat_map (phrase_line region) (elements_in news.now)) }
{
    put_pi(region, news.pi, output);
    put_name(region, news.name, output);
    put_traffic(region, news.traffic, output);
    put_music(region, news.music, output);
    put_type(region, news.pty, output);
    put_radio_text(region, news.text, output);
}

fn put_pi(region: Region, pi: Option<u16>, output: &mut Output)
    ensures { Adds output.old output.new (flat_map (phrase_line region) (said (Pi 0x00 0x00) pi)) }
{
    if let Some(pi) = pi {
        put_phrase(region, &Element::Pi { dsn: 0, psn: 0, pi }, output);
    }
}

fn put_name(region: Region, name: Option<&[u8; 8]>, output: &mut Output)
    ensures { Adds output.old output.new (flat_map (phrase_line region)
        (said (Ps 0x00 0x00) (option_map (λ name. name.now) name.entry))) }
{
    if let Some(name) = name {
        put_full_name(region, name, output);
    }
}

fn put_full_name(region: Region, name: &[u8; 8], output: &mut Output)
    ensures { Adds output.old output.new (phrase_line region (Ps 0x00 0x00 name.now)) }
{
    put_phrase(
        region,
        &Element::Ps {
            dsn: 0,
            psn: 0,
            name,
        },
        output,
    );
}

fn put_traffic(region: Region, traffic: Option<u8>, output: &mut Output)
    ensures { Adds output.old output.new (flat_map (phrase_line region) (said (TaTp 0x00 0x00) traffic)) }
{
    if let Some(raw) = traffic {
        put_phrase(
            region,
            &Element::TaTp {
                dsn: 0,
                psn: 0,
                raw,
            },
            output,
        );
    }
}

fn put_music(region: Region, music: Option<u8>, output: &mut Output)
    ensures { Adds output.old output.new (flat_map (phrase_line region) (said (Ms 0x00 0x00) music)) }
{
    if let Some(raw) = music {
        put_phrase(
            region,
            &Element::Ms {
                dsn: 0,
                psn: 0,
                raw,
            },
            output,
        );
    }
}

fn put_type(region: Region, pty: Option<u8>, output: &mut Output)
    ensures { Adds output.old output.new (flat_map (phrase_line region) (said (Pty 0x00 0x00) pty)) }
{
    if let Some(raw) = pty {
        put_phrase(
            region,
            &Element::Pty {
                dsn: 0,
                psn: 0,
                raw,
            },
            output,
        );
    }
}

fn put_radio_text(region: Region, text: Option<&[u8]>, output: &mut Output)
    requires short { IfSome text (λ text. length text.now ≤ 64) }
    ensures { Adds output.old output.new (flat_map (phrase_line region)
        (said radio_text (option_map (λ text. text.now) text.entry))) }
{
    if let Some(text) = text {
        let part = RtPart::Text { head: 1, text };
        let element = Element::Rt {
            dsn: 0,
            psn: 0,
            part,
        };
        put_phrase(region, &element, output);
    }
}

/// Adds the line of an element.
fn put_phrase(region: Region, element: &Element<'_>, output: &mut Output)
    requires { IsElement (element_of element.now) }
    ensures { Adds output.old output.new (phrase_line region (element_of element.now)) }
{
    put_tokens(phrase_of(region, element).as_slice(), output);
    output.end();
}
