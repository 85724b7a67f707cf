//! The options of the command `server` (profile).

/// The options of the command `server`.
#[derive(Debug, Drop, PartialEq, Eq)]
pub struct ServerOptions {
    /// The site of its encoder, 1 to 1023.
    pub site: u16,
    /// That encoder's number at its site, 1 to 63.
    pub encoder: u8,
    /// Where the encoder listens: a name or an address.
    pub host: String,
    /// The encoder's port, 1 to 65535.
    pub port: u16,
    /// How often a message is sent on one connection, 1 to 100.
    pub tries: u32,
    /// How many milliseconds connecting, a read or a write may take, 1 to 60000.
    pub timeout: u32,
    /// How many reads one try makes at most, 1 to 1000.
    pub turns: u32,
    /// How many connections may be opened in all after the first, 0 to 100.
    pub reconnects: u32,
    /// How many messages may be on their way at once, 1 to 8.
    pub window: u8,
    /// Whether the encoder is joined before the first message is sent, by a pass of empty messages.
    pub join: bool,
    /// Whether another connection is opened also where every try on one was spent.
    pub reconnect_silent: bool,
    /// Whether it is said why a connection could not be made.
    pub verbose: bool,
    /// The file in which the server is kept, if it is.
    pub state: Option<String>,
}
