//! A store as lines (profile).
ghost use Rattle.std.specs.Prelude.{◌++◌, codes, length, flat_map, take};
ghost use Rattle.rds_store.specs.Refusals.{set_numbers};
ghost use Rattle.uecp_text.specs.Digits.{flagged};
ghost use Rattle.uecp_lines.specs.StoreLines.{place_words, name_words, flag_words, value_words, text_line, texts_lines};
ghost use Rattle.uecp_lines.specs.StoreLines.{group_words, group_line, service_lines, lines_at, set_lines, store_lines};
ghost use Rattle.uecp_lines.specs.StoreLines.{last_lines};
ghost use Rattle.uecp_text.specs.Written.{Adds};

use crate::step_lines::put_count;
use rds_store::{Group, RadioText, RdsStore, Service};
use uecp_text::Output;

/// The lines of a store where they are asked for.
pub fn put_last(store: &RdsStore, asked: bool, output: &mut Output)
    ensures { Adds output.old output.new (last_lines asked store.now) }
{
    if asked {
        put_store(store, output);
    }
}

/// The lines of a store: the current data set, each service of each set with its texts, and the groups.
fn put_store(store: &RdsStore, output: &mut Output)
    ensures { Adds output.old output.new (store_lines store.now) }
{
    put_count("current", usize::from(store.current()), output);
    output.end();
    put_sets(store, output);
    put_groups(store.groups(), output);
}

/// The services of each set, set 1 first.
fn put_sets(store: &RdsStore, output: &mut Output)
    ensures { Adds output.old output.new (flat_map (set_lines store.now) (set_numbers store.now.sets)) }
{
    for set in 1..=store.set_count() {
        put_set(store, set, output);
    }
}

/// The services of one set, in configured order.
fn put_set(store: &RdsStore, set: u8, output: &mut Output)
    ensures { Adds output.old output.new (set_lines store.now set) }
{
    let mut place = 0;
    while let Some(number) = store.service_number(place) {
        put_at(store, set, number, output);
        place += 1;
    }
}

/// The service of that number in a set, where it is there.
#[tactic(auto, unfolding(crate::specs::StoreLines::lines_at))]
fn put_at(store: &RdsStore, set: u8, number: u8, output: &mut Output)
    ensures { Adds output.old output.new (lines_at store.now set number) }
{
    if let Some(service) = store.service(set, number) {
        put_service(set, number, service, output);
    }
}

/// A service and its texts.
fn put_service(set: u8, number: u8, service: &Service, output: &mut Output)
    ensures { Adds output.old output.new (service_lines set number service.now) }
{
    put_place(set, number, output);
    put_values(service, output);
    put_texts(service.texts(), output);
}

/// The set and the number of a service.
fn put_place(set: u8, number: u8, output: &mut Output)
    ensures { Adds output.old output.new (place_words set number) }
{
    put_count("service", usize::from(set), output);
    output.byte(number);
}

/// What a service has, but for its texts.
fn put_values(service: &Service, output: &mut Output)
    ensures { Adds output.old output.new (value_words service.now) }
{
    put_names(service, output);
    put_flags(service, output);
    output.text(" pty");
    output.byte(service.pty());
}

/// The PI and the name of a service.
#[tactic(auto, unfolding(crate::specs::StoreLines::name_words))]
fn put_names(service: &Service, output: &mut Output)
    ensures { Adds output.old output.new (name_words service.now) }
{
    output.number(service.pi());
    output.row(service.ps());
}

/// The flags of a service.
#[tactic(auto, unfolding(crate::specs::StoreLines::flag_words))]
fn put_flags(service: &Service, output: &mut Output)
    ensures { Adds output.old output.new (flag_words service.now) }
{
    put_flag(" tp", service.tp(), output);
    put_flag(" ta", service.ta(), output);
    put_flag(" ms", service.music(), output);
}

/// A name and a flag.
#[tactic(auto, unfolding(uecp_text::specs::Digits::flagged))]
fn put_flag(name: &str, is_set: bool, output: &mut Output)
    ensures { Adds output.old output.new (flagged name.now is_set) }
{
    output.text(name);
    output.flag(is_set);
}

/// The number of texts, and a line for each, oldest first.
fn put_texts(texts: &[RadioText], output: &mut Output)
    ensures { Adds output.old output.new (texts_lines texts.now) }
{
    put_count(" texts", texts.len(), output);
    output.end();
    for text in texts {
        put_text(text, output);
    }
}

/// The line of a text.
fn put_text(text: &RadioText, output: &mut Output)
    ensures { Adds output.old output.new (text_line text.now) }
{
    put_flag("text", text.toggle(), output);
    output.decimal(usize::from(text.transmissions()));
    output.row(text.text());
    output.end();
}

/// A line for each group.
fn put_groups(groups: &[Group], output: &mut Output)
    ensures { Adds output.old output.new (flat_map group_line groups.now) }
{
    for group in groups {
        put_group(group, output);
    }
}

/// The line of a group that waits.
fn put_group(group: &Group, output: &mut Output)
    ensures { Adds output.old output.new (group_line group.now) }
{
    output.text("queued");
    put_group_words(group, output);
    output.end();
}

/// A group's type, bits and blocks.
#[tactic(auto, unfolding(crate::specs::StoreLines::group_words))]
pub(crate) fn put_group_words(group: &Group, output: &mut Output)
    ensures { Adds output.old output.new (group_words group.now) }
{
    output.byte(group.kind);
    output.byte(group.bits);
    output.number(group.block3);
    output.number(group.block4);
}
