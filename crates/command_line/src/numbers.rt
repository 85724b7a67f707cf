//! The numbers that the program's commands take: a table of their options (profile).

/// An option with a number.
#[derive(Clone, Copy)]
pub struct NumberOption {
    /// The option's name.
    pub name: &'static str,
    /// The least number.
    pub least: u32,
    /// The greatest number.
    pub most: u32,
    /// The number where the option is not given, or None where it has to be.
    pub default: Option<&'static str>,
    /// What `--help` says of it.
    pub help: &'static str,
}

/// The encoder's site.
pub const SITE: NumberOption = NumberOption {
    name: "site",
    least: 1,
    most: 1023,
    default: Some("1"),
    help: "The encoder's site, 1 to 1023",
};

/// The encoder's number at its site.
pub const ENCODER: NumberOption = NumberOption {
    name: "encoder",
    least: 1,
    most: 63,
    default: Some("1"),
    help: "The encoder's number at its site, 1 to 63",
};

/// How many data sets the encoder has.
pub const SETS: NumberOption = NumberOption {
    name: "sets",
    least: 1,
    most: 8,
    default: Some("1"),
    help: "How many data sets the encoder has, 1 to 8",
};

/// The encoder's port, which has to be given.
pub const PORT: NumberOption = NumberOption {
    name: "port",
    least: 1,
    most: 65_535,
    default: None,
    help: "The encoder's port, 1 to 65535",
};

/// After how many seconds with nothing read `encoder` closes a connection.
pub const IDLE: NumberOption = NumberOption {
    name: "idle",
    least: 0,
    most: 86_400,
    default: Some("0"),
    help: "After how many seconds with nothing read a connection is closed, 0 for never, up to 86400",
};

/// After how many seconds a connection of `encoder` gives way to one that waits.
pub const YIELD: NumberOption = NumberOption {
    name: "yield",
    least: 0,
    most: 86_400,
    default: None,
    help: "After how many seconds with no good frame, or with no reply taken, a connection gives way to one that waits with a frame, 0 for never, up to 86400; 10 for a device",
};

/// For how many seconds `encoder` waits for whoever reads its log.
pub const LOG_WAIT: NumberOption = NumberOption {
    name: "log-wait",
    least: 0,
    most: 86_400,
    default: None,
    help: "For how many seconds a line of the log waits for whoever reads it, before it is left out and counted, 0 for not at all, up to 86400; 1 for a device",
};

/// The port of those who listen to what `encoder` has on the air.
pub const AIR_PORT: NumberOption = NumberOption {
    name: "air",
    least: 1,
    most: 65_535,
    default: None,
    help: "The port at which the groups go out as they are on the air, a line each, 1 to 65535",
};

/// The port of a page.
pub const PAGE_PORT: NumberOption = NumberOption {
    name: "port",
    least: 1,
    most: 65_535,
    default: None,
    help: "The port, 1 to 65535; 8080 where it is not given",
};

/// After how many seconds in which nothing was told of a control line it is stale for a page.
pub const STALE: NumberOption = NumberOption {
    name: "stale",
    least: 1,
    most: 86_400,
    default: None,
    help: "After how many seconds in which nothing was told of a line it is stale, 1 to 86400; never where it is left out",
};

/// How many groups `answer` writes of what is on the air.
pub const AIR_GROUPS: NumberOption = NumberOption {
    name: "air",
    least: 1,
    most: 1_000_000,
    default: None,
    help: "How many groups to write, as the store has them on the air at the end, 1 to 1000000",
};

/// How many milliseconds `conformance` waits for a connection, or for a reply that is missing.
pub const CASE_TIMEOUT: NumberOption = NumberOption {
    name: "timeout",
    least: 1,
    most: 60_000,
    default: Some("3000"),
    help: "How many milliseconds connecting, a write or a missing reply may take, 1 to 60000",
};

/// After how many milliseconds with nothing read `conformance` judges a case.
pub const QUIET: NumberOption = NumberOption {
    name: "quiet",
    least: 1,
    most: 60_000,
    default: Some("300"),
    help: "After how many milliseconds with nothing read a case is judged, 1 to 60000",
};

/// After how long with nothing heard of a case `conformance` ends.
pub const CASE_SILENT: NumberOption = NumberOption {
    name: "silent",
    least: 1,
    most: 86_400,
    default: Some("30"),
    help: "After how many seconds with nothing read of a case the run ends, 1 to 86400",
};

/// What chance begins with on a bad line of `encoder`.
pub const SEED: NumberOption = NumberOption {
    name: "seed",
    least: 0,
    most: 1_000_000_000,
    default: Some("0"),
    help: "The number that chance begins with, 0 to 1000000000: the same gives the same faults",
};

/// How many connections `encoder` serves.
pub const CONNECTIONS: NumberOption = NumberOption {
    name: "connections",
    least: 1,
    most: 1000,
    default: Some("1"),
    help: "How many connections are served, one after another, 1 to 1000",
};

/// How many reads one connection of `encoder` may take.
pub const SERVE_TURNS: NumberOption = NumberOption {
    name: "turns",
    least: 1,
    most: 1_000_000,
    default: Some("100000"),
    help: "How many reads one connection may take, 1 to 1000000",
};

/// How often `server` sends a message on one connection.
pub const TRIES: NumberOption = NumberOption {
    name: "tries",
    least: 1,
    most: 100,
    default: Some("3"),
    help: "How often a message is sent on one connection, 1 to 100",
};

/// How many milliseconds connecting, a read or a write of `server` may take.
pub const TIMEOUT: NumberOption = NumberOption {
    name: "timeout",
    least: 1,
    most: 60_000,
    default: Some("1000"),
    help: "How many milliseconds connecting, a read or a write may take, 1 to 60000",
};

/// How many reads one try of `server` makes at most.
pub const TRY_TURNS: NumberOption = NumberOption {
    name: "turns",
    least: 1,
    most: 1000,
    default: Some("16"),
    help: "How many reads one try makes at most, 1 to 1000",
};

/// How many connections `server` may open after the first.
pub const RECONNECTS: NumberOption = NumberOption {
    name: "reconnects",
    least: 0,
    most: 100,
    default: Some("3"),
    help: "How many connections may be opened in all after the first, 0 to 100",
};

/// How long the pauses of `send` between two tries to connect may grow.
pub const RETRY_EVERY: NumberOption = NumberOption {
    name: "retry-every",
    least: 1,
    most: 3600,
    default: Some("30"),
    help: "The longest pause between two tries to connect, in seconds, 1 to 3600",
};

/// After how long with nothing heard `send` ends.
pub const GIVE_UP: NumberOption = NumberOption {
    name: "give-up",
    least: 0,
    most: 1_000_000,
    default: Some("0"),
    help: "After how many seconds with nothing heard the run ends, 0 for never, up to 1000000",
};

/// After how long `send` tells that its encoder answers nothing.
pub const SILENT: NumberOption = NumberOption {
    name: "silent",
    least: 1,
    most: 86_400,
    default: Some("60"),
    help: "After how many seconds on connections with no answer that is told, 1 to 86400",
};

/// The number of the first line that `send` reads.
pub const FROM_LINE: NumberOption = NumberOption {
    name: "from-line",
    least: 1,
    most: 4_294_967_295,
    default: Some("1"),
    help: "The number of the first line of the input, 1 to 4294967295: those of the lines are told from there on",
};

/// How many messages of `server` are on their way at once.
pub const WINDOW: NumberOption = NumberOption {
    name: "window",
    least: 1,
    most: 8,
    default: Some("1"),
    help: "How many messages are on their way at once, 1 to 8",
};
