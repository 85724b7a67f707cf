//! What is in a state, as lines. Source: profile.
ghost use Rattle.std.specs.Prelude.{flat_map};
ghost use Rattle.uecp_link.specs.Resuming.{held_of};
ghost use Rattle.uecp_text.specs.Digits.{byte_word};
ghost use Rattle.uecp_text.specs.Written.{Adds};
ghost use Rattle.state_jobs.specs.StateLines.{found_lines, encoder_lines, encoder_line, place_words, store_words};
ghost use Rattle.state_jobs.specs.StateLines.{last_line, counter_word, server_lines, server_line, taken_line};
ghost use Rattle.state_jobs.specs.StateLines.{held_line, held_word, joined_words};

use rds_store::RdsStore;
use state_files::Found;
use uecp_encoder::Encoder;
use uecp_frame::Address;
use uecp_lines::put_last;
use uecp_link::{LentMessage, Server};
use uecp_net::Progress;
use uecp_text::Output;

/// The lines of what was found.
pub(crate) fn put_found(found: &Found, output: &mut Output)
    ensures { Adds output.old output.new (found_lines found.now) }
{
    match found {
        Found::Encoder(encoder) => put_encoder(encoder, output),
        Found::Server(server, progress) => put_server(server, *progress, output),
        Found::Empty => output.text("empty\n"),
    }
}

/// The lines of an encoder: which one it is, the last message that it applied, and its store.
#[tactic(auto, unfolding(crate::specs::StateLines::encoder_lines))]
fn put_encoder(encoder: &Encoder<RdsStore>, output: &mut Output)
    ensures { Adds output.old output.new (encoder_lines encoder.now) }
{
    put_which(encoder.address(), encoder.target(), output);
    put_last_counter(encoder.kept().newest(), output);
    put_last(encoder.target(), true, output);
}

/// The line of which encoder it is.
#[tactic(auto, unfolding(crate::specs::StateLines::encoder_line))]
fn put_which(address: Address, store: &RdsStore, output: &mut Output)
    ensures { Adds output.old output.new (encoder_line address store.now) }
{
    output.text("encoder");
    put_place(address, output);
    put_shape(store, output);
    output.end();
}

/// A site and the number of an encoder there.
#[tactic(auto, unfolding(crate::specs::StateLines::place_words))]
fn put_place(address: Address, output: &mut Output)
    ensures { Adds output.old output.new (place_words address) }
{
    output.text(" site");
    output.decimal(usize::from(address.site()));
    output.text(" encoder");
    output.decimal(usize::from(address.encoder()));
}

/// How many data sets a store has, and its services.
#[tactic(auto, unfolding(crate::specs::StateLines::store_words))]
fn put_shape(store: &RdsStore, output: &mut Output)
    ensures { Adds output.old output.new (store_words store.now) }
{
    output.text(" sets");
    output.decimal(usize::from(store.set_count()));
    output.text(" services");
    put_services(store, output);
}

/// The numbers of a store's services, in configured order.
fn put_services(store: &RdsStore, output: &mut Output)
    ensures { Adds output.old output.new (flat_map byte_word store.now.services) }
{
    let mut place = 0;
    while let Some(number) = store.service_number(place) {
        output.byte(number);
        place += 1;
    }
}

/// The line of the counter of the last message, where there was one.
#[tactic(auto, unfolding(crate::specs::StateLines::last_line))]
fn put_last_counter(counter: Option<u8>, output: &mut Output)
    ensures { Adds output.old output.new (last_line counter) }
{
    output.text("last");
    put_counter(counter, output);
    output.end();
}

/// A counter, or `-` where there is none.
fn put_counter(counter: Option<u8>, output: &mut Output)
    ensures { Adds output.old output.new (counter_word counter) }
{
    match counter {
        Some(counter) => output.byte(counter),
        None => output.text(" -"),
    }
}

/// The lines of a server: of which encoder it is, how far it has come, and each message that it holds, the oldest
/// first.
#[tactic(auto, unfolding(crate::specs::StateLines::server_lines))]
fn put_server(server: &Server, progress: Progress, output: &mut Output)
    ensures { Adds output.old output.new (server_lines server.now progress) }
{
    put_whose(server.address(), progress.joined, output);
    put_taken(progress.taken, server.waiting(), output);
    put_last_counter(Some(server.last()), output);
    put_held(server, output);
}

/// The line of which encoder's server it is.
#[tactic(auto, unfolding(crate::specs::StateLines::server_line))]
fn put_whose(address: Address, joined: bool, output: &mut Output)
    ensures { Adds output.old output.new (server_line address joined) }
{
    output.text("server");
    put_place(address, output);
    put_joined(joined, output);
}

/// The line of how many messages were taken, and how many of them wait.
#[tactic(auto, unfolding(crate::specs::StateLines::taken_line))]
fn put_taken(taken: u64, outstanding: usize, output: &mut Output)
    ensures { Adds output.old output.new (taken_line taken outstanding) }
{
    output.text("taken");
    output.decimal(taken as usize);
    output.text(" outstanding");
    output.decimal(outstanding);
    output.end();
}

/// The lines of the messages that are held.
fn put_held(server: &Server, output: &mut Output)
    ensures { Adds output.old output.new (flat_map held_line server.now.held) }
{
    let mut place = 0;
    while let Some(held) = server.held(place) {
        put_one(&held, output);
        place += 1;
    }
}

/// The line of a message that is held: whether it waits or is acknowledged, its counter and its bytes.
#[tactic(auto, unfolding(crate::specs::StateLines::held_line))]
fn put_one(held: &LentMessage<'_>, output: &mut Output)
    ensures { Adds output.old output.new (held_line (held_of held.now)) }
{
    put_marked(held.marked, output);
    output.byte(held.counter);
    output.row(held.message.bytes());
    output.end();
}

/// Whether a message that is held has its reply.
fn put_marked(marked: bool, output: &mut Output)
    ensures { Adds output.old output.new (held_word marked) }
{
    output.text(if marked {
        "acknowledged"
    } else {
        "outstanding"
    });
}

/// Whether its encoder was joined.
fn put_joined(joined: bool, output: &mut Output)
    ensures { Adds output.old output.new (joined_words joined) }
{
    output.text(if joined { " joined\n" } else { " not joined\n" });
}
