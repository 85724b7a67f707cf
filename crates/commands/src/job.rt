//! What is asked of the program (profile).

use crate::answer_options::AnswerOptions;
use crate::conformance_options::ConformanceOptions;
use crate::encoder_options::EncoderOptions;
use crate::line_options::LineOptions;
use crate::page_options::PageOptions;
use crate::receive_options::ReceiveOptions;
use crate::script_options::{MakeOptions, ShowOptions, WatchOptions};
use crate::send_options::SendOptions;
use crate::server_options::ServerOptions;
use rds_text::Region;
use std::fmt;

/// One command with its options. `command_line`'s `parse` answers no other numbers than the ranges named here.
///
/// A command that got more options later has two variants: one with those that it had first, and one, `..With`, with
/// all. The first asks for what the second asks for with each later option as where it is not given.
#[derive(Drop, PartialEq, Eq)]
pub enum Job {
    /// What an encoder answers to the pieces on standard input.
    Answer {
        /// The encoder's site, 1 to 1023.
        site: u16,
        /// The encoder's number at its site, 1 to 63.
        encoder: u8,
        /// How many data sets it has, 1 to 8.
        sets: u8,
        /// The numbers of its services, the main one first. The store judges them.
        services: Vec<u8>,
        /// Whether the store is written out at the end.
        store: bool,
    },
    /// The same with all options: in another form, or with groups on the air behind.
    AnswerWith(AnswerOptions),
    /// The frames and elements that stand in the pieces on standard input.
    Show,
    /// The same with all options: in another form.
    ShowWith(ShowOptions),
    /// The frames of the script on standard input.
    Make,
    /// The same with all options: of a script of phrases.
    MakeWith(MakeOptions),
    /// The frames of a script of phrases, with the programme types of this region, of which a line that says nothing as
    /// it stands is made to fit.
    MakeFitted(Region),
    /// What comes of the events on standard input; the options are those of `Answer`.
    Line {
        /// The site of both ends, 1 to 1023.
        site: u16,
        /// The encoder's number at its site, 1 to 63.
        encoder: u8,
        /// How many data sets it has, 1 to 8.
        sets: u8,
        /// The numbers of its services, the main one first. The store judges them.
        services: Vec<u8>,
        /// Whether the store is written out at the end.
        store: bool,
    },
    /// The same with all options: in another form, or a ladder in its place.
    LineWith(LineOptions),
    /// An encoder that listens on 127.0.0.1 and serves one connection after another.
    Encoder {
        /// The encoder's site, 1 to 1023.
        site: u16,
        /// The encoder's number at its site, 1 to 63.
        encoder: u8,
        /// How many data sets it has, 1 to 8.
        sets: u8,
        /// The numbers of its services, the main one first. The store judges them.
        services: Vec<u8>,
        /// The port on which it listens, 1 to 65535.
        port: u16,
        /// How many connections it serves, 1 to 1000.
        connections: u32,
        /// How many reads one connection may take, 1 to 1000000.
        turns: u32,
    },
    /// The same with all options: kept in a file, on the air, without end.
    EncoderWith(EncoderOptions),
    /// A server that sends the messages on standard input to an encoder, batch by batch, each until it is acknowledged.
    Server {
        /// The site of its encoder, 1 to 1023.
        site: u16,
        /// That encoder's number at its site, 1 to 63.
        encoder: u8,
        /// Where the encoder listens: a name or an address.
        host: String,
        /// The encoder's port, 1 to 65535.
        port: u16,
        /// How often a message is sent on one connection, 1 to 100.
        tries: u32,
        /// How many milliseconds connecting, a read or a write may take, 1 to 60000.
        timeout: u32,
        /// How many reads one try makes at most, 1 to 1000.
        turns: u32,
        /// How many connections may be opened in all after the first, 0 to 100.
        reconnects: u32,
        /// How many messages may be on their way at once, 1 to 8.
        window: u8,
    },
    /// The same with all options: kept in a file, joining first.
    ServerWith(ServerOptions),
    /// A server that sends what the lines on standard input say for as long as they come.
    Send(SendOptions),
    /// What stands in the raw bytes on standard input, told as they come.
    Watch(WatchOptions),
    /// What is in a state file.
    State {
        /// Its path.
        file: String,
    },
    /// What a receiver shows of the groups on standard input.
    Receive(ReceiveOptions),
    /// Which rules of the protocol an encoder keeps.
    Conformance(ConformanceOptions),
    /// A live page of what the lines on standard input tell.
    Page(PageOptions),
    /// The lines on standard input as strings of phrases.
    Quote,
    /// The page that tells the phrases.
    Phrases,
}

/// The variant's name alone: the options can be many.
impl fmt::Debug for Job {
    fn fmt<W: fmt::Write>(&self, f: &mut fmt::Formatter<W>) -> fmt::Result {
        f.write_str(name_of(self))
    }
}

/// The variant's name.
fn name_of(job: &Job) -> &'static str {
    match job {
        Job::Answer { .. } => "Answer",
        Job::AnswerWith(_) => "AnswerWith",
        Job::Show => "Show",
        Job::ShowWith(_) => "ShowWith",
        Job::Make => "Make",
        Job::MakeWith(_) => "MakeWith",
        Job::MakeFitted(_) => "MakeFitted",
        Job::Line { .. } => "Line",
        Job::LineWith(_) => "LineWith",
        Job::Encoder { .. } => "Encoder",
        Job::EncoderWith(_) => "EncoderWith",
        Job::Server { .. } => "Server",
        Job::ServerWith(_) => "ServerWith",
        Job::Send(_) => "Send",
        Job::Watch(_) => "Watch",
        Job::State { .. } => "State",
        Job::Receive(_) => "Receive",
        Job::Conformance(_) => "Conformance",
        Job::Page(_) => "Page",
        Job::Quote => "Quote",
        Job::Phrases => "Phrases",
    }
}
