//! The options of the command `send` (profile).

use output_forms::Form;
use rds_text::Region;

/// The options of the command `send`.
#[derive(Debug, Drop, PartialEq, Eq)]
pub struct SendOptions {
    /// The encoder's site, 1 to 1023.
    pub site: u16,
    /// The encoder's number at its site, 1 to 63.
    pub encoder: u8,
    /// Where the encoder listens, a name or an address.
    pub host: String,
    /// Its port, 1 to 65535.
    pub port: u16,
    /// How often what is not acknowledged is sent over one connection, 1 to 100.
    pub tries: u32,
    /// How many milliseconds connecting, a read or a write may take, 1 to 60000.
    pub timeout: u32,
    /// How many reads one try makes at most, 1 to 1000.
    pub turns: u32,
    /// How many messages are on their way at once, 1 to 8.
    pub window: u8,
    /// Of which region the programme types of its lines are, and of the station's.
    pub region: Region,
    /// How its lines are titles; None where they are phrases.
    pub titles: Option<TitleOptions>,
    /// Whether a line is made to fit that is no title, or says nothing, as it stands.
    pub fit: bool,
    /// In which form it is told what comes of the messages.
    pub form: Form,
    /// Whether the run ends at a line that is refused.
    pub strict: bool,
    /// The file at whose end a line that is refused is kept, if there is one; not with `strict`.
    pub pass_over: Option<String>,
    /// The number of the first line of the input, at least 1.
    pub from_line: u32,
    /// Whether the encoder is joined even where it was joined before.
    pub join: bool,
    /// Whether an encoder that answers nothing is joined anew.
    pub rejoin: bool,
    /// The longest pause between two tries to connect, in seconds, at least 1.
    pub retry_every: u32,
    /// After how many seconds with nothing heard the run is given up; 0 for never.
    pub give_up: u32,
    /// After how many seconds on connections on which nothing is heard that is told.
    pub silent: u32,
    /// The file in which the server is kept, if it is.
    pub state: Option<String>,
    /// The file with the lines that make the station what it is, if there is one.
    pub station: Option<String>,
}

/// How the lines of `send` are titles, each a RadioText.
#[derive(Debug, Drop, PartialEq, Eq)]
pub struct TitleOptions {
    /// What stands before each title, in at most 32 bytes of the basic character set.
    pub prefix: Vec<u8>,
    /// The programme service whose RadioText it is, 0 for the main one.
    pub service: u8,
}
