//! A store as objects (profile).
ghost use Rattle.std.specs.Prelude.{◌++◌, [], ◌∷◌, false, flat_map, map, codes, take};
ghost use Rattle.serde_json.specs.Written.{compact_text, comma_if};
ghost use Rattle.rds_store.specs.Refusals.{set_numbers};
ghost use Rattle.json_lines.specs.Objects.{in_decimal, line_of, list_of};
ghost use Rattle.json_lines.specs.Texts.{field_text, fields_text};
ghost use Rattle.uecp_json.specs.Stores.{text_object, name_fields, flag_fields, texts_fields, service_line, line_at};
ghost use Rattle.uecp_json.specs.Stores.{set_lines, group_line, store_lines, first_line, value_fields, content_fields};
ghost use Rattle.uecp_json.specs.Elements.{place_fields};
ghost use Rattle.uecp_text.specs.Written.{Adds};

use crate::elements::put_place;
use crate::steps::put_bits;
use json_lines::{
    block_field, byte_field, close, close_line, flag_field, number_field, open_flag, open_line,
    put_name, said_fields,
};
use rds_store::{Group, RadioText, RdsStore, Service};
use uecp_text::Output;

/// The lines of a store: the current data set, each service of each set with its texts, and the groups.
pub fn put_store(store: &RdsStore, output: &mut Output)
    ensures { Adds output.old output.new (store_lines store.now) }
{
    put_first(store, output);
    put_sets(store, output);
    put_groups(store.groups(), output);
}

/// The first line of a store.
#[tactic(auto, using(json_lines::proofs::Public::parts))]
fn put_first(store: &RdsStore, output: &mut Output)
    ensures { Adds output.old output.new (first_line store.now) }
{
    open_line("store", output);
    number_field("current", usize::from(store.current()), output);
    number_field("sets", usize::from(store.set_count()), output);
    close_line(output);
}

/// The services of each set, set 1 first.
fn put_sets(store: &RdsStore, output: &mut Output)
    ensures { Adds output.old output.new (flat_map (set_lines store.now) (set_numbers store.now.sets)) }
{
    for set in 1..=store.set_count() {
        put_set(store, set, output);
    }
}

/// The services of one set, in configured order.
fn put_set(store: &RdsStore, set: u8, output: &mut Output)
    ensures { Adds output.old output.new (set_lines store.now set) }
{
    let mut place = 0;
    while let Some(number) = store.service_number(place) {
        put_at(store, set, number, output);
        place += 1;
    }
}

/// The service of that number in a set, where it is there.
#[tactic(auto, unfolding(crate::specs::Stores::line_at))]
fn put_at(store: &RdsStore, set: u8, number: u8, output: &mut Output)
    ensures { Adds output.old output.new (line_at store.now set number) }
{
    if let Some(service) = store.service(set, number) {
        put_service(set, number, service, output);
    }
}

/// The line of a service.
#[tactic(auto, using(json_lines::proofs::Public::parts))]
fn put_service(set: u8, number: u8, service: &Service, output: &mut Output)
    ensures { Adds output.old output.new (service_line set number service.now) }
{
    open_line("service", output);
    put_placed(set, number, service, output);
    close_line(output);
}

/// Where a service stands, and what it has.
fn put_placed(set: u8, number: u8, service: &Service, output: &mut Output)
    ensures { Adds output.old output.new (fields_text (place_fields set number ++ value_fields service.now)) }
{
    put_place(set, number, output);
    put_values(service, output);
}

/// What a service has.
fn put_values(service: &Service, output: &mut Output)
    ensures { Adds output.old output.new (fields_text (value_fields service.now)) }
{
    put_names(service, output);
    put_flags(service, output);
    put_texts(service.texts(), output);
}

/// The PI and the name of a service.
fn put_names(service: &Service, output: &mut Output)
    ensures { Adds output.old output.new (fields_text (name_fields service.now)) }
{
    block_field("pi", service.pi(), output);
    said_fields("name", service.ps(), output);
}

/// The flags of a service and its programme type.
fn put_flags(service: &Service, output: &mut Output)
    ensures { Adds output.old output.new (fields_text (flag_fields service.now)) }
{
    flag_field("tp", service.tp(), output);
    flag_field("ta", service.ta(), output);
    flag_field("music", service.music(), output);
    number_field("type", usize::from(service.pty()), output);
}

/// The texts of a service.
#[tactic(auto, unfolding(json_lines::specs::Texts::field_text))]
fn put_texts(texts: &[RadioText], output: &mut Output)
    ensures { Adds output.old output.new (fields_text (texts_fields texts.now)) }
{
    put_name("texts", output);
    put_list(texts, output);
}

/// The list of texts, the oldest first.
#[tactic(auto, unfolding(json_lines::specs::Texts::values_text, json_lines::specs::Objects::list_of))]
fn put_list(texts: &[RadioText], output: &mut Output)
    ensures { Adds output.old output.new (compact_text (list_of (map text_object texts.now))) }
{
    output.text("[");
    let mut later = false;
    for text in texts {
        put_behind(later, text, output);
        later = true;
    }
    output.text("]");
}

/// A text of a list, behind a comma where one stands before it.
fn put_behind(later: bool, text: &RadioText, output: &mut Output)
    ensures { Adds output.old output.new (comma_if later ++ compact_text (text_object text.now)) }
{
    if later {
        output.text(",");
    }
    put_text(text, output);
}

/// The object of a text.
#[tactic(auto, using(json_lines::proofs::Public::parts))]
fn put_text(text: &RadioText, output: &mut Output)
    ensures { Adds output.old output.new (compact_text (text_object text.now)) }
{
    open_flag("toggle", text.toggle(), output);
    put_content(text.transmissions(), text.text(), output);
    close(output);
}

/// How often a text is sent, and its characters.
fn put_content(transmissions: u8, bytes: &[u8], output: &mut Output)
    ensures { Adds output.old output.new (fields_text (content_fields transmissions bytes.now)) }
{
    number_field("transmissions", usize::from(transmissions), output);
    said_fields("bytes", bytes, output);
}

/// A line for each group.
fn put_groups(groups: &[Group], output: &mut Output)
    ensures { Adds output.old output.new (flat_map group_line groups.now) }
{
    for group in groups {
        put_group(group, output);
    }
}

/// The line of a group that waits.
#[tactic(auto, using(json_lines::proofs::Public::parts))]
fn put_group(group: &Group, output: &mut Output)
    ensures { Adds output.old output.new (group_line group.now) }
{
    open_line("queued", output);
    byte_field("type", group.kind, output);
    put_bits(group, output);
    close_line(output);
}
