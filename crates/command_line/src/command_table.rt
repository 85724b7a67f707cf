//! The table of the program's commands, with their options (profile).

use crate::command_row::CommandRow;
use crate::numbers::{
    AIR_GROUPS, AIR_PORT, CASE_SILENT, CASE_TIMEOUT, CONNECTIONS, ENCODER, FROM_LINE, GIVE_UP,
    IDLE, LOG_WAIT, PAGE_PORT, PORT, QUIET, RECONNECTS, RETRY_EVERY, SEED, SERVE_TURNS, SETS,
    SILENT, SITE, STALE, TIMEOUT, TRIES, TRY_TURNS, WINDOW, YIELD,
};
use crate::option_row::OptionRow;

/// The name of the command whose help is the page that it writes.
pub(crate) const PHRASES_NAME: &str = "phrases";

/// The list of services of each data set.
const SERVICES: OptionRow = OptionRow::WordOr(
    "services",
    "LIST",
    "The services of each data set, 1 to 8 hexadecimal numbers such as 01,0A, the main one first",
    "01",
);

/// The flag for an encoder's store.
const STORE: OptionRow = OptionRow::Flag("store", "Write the encoder's store at the end");

/// The flag that asks for words.
const WORDS: OptionRow = OptionRow::Flag("words", "Elements in words, such as ps \"RADIO 1\"");

/// The flag that asks for words with North America's names.
const RBDS: OptionRow = OptionRow::Flag(
    "rbds",
    "In words, with North America's names of programme types",
);

/// The flag that asks for North America's names.
const NAMES: OptionRow = OptionRow::Flag("rbds", "With North America's names of programme types");

/// The flag that asks for JSON.
const JSON: OptionRow = OptionRow::Flag("json", "Lines of JSON, one object each");

/// The flag against the time.
const UNTIMED: OptionRow = OptionRow::Flag("no-time", "Without the time before what is told");

/// The name of the line.
const NAME: OptionRow = OptionRow::MaybeWord(
    "name",
    "NAME",
    "With --json, the name of the line, which stands in each object: 1 to 64 characters of ASCII, no quote and no backslash",
);

/// Where the encoder listens.
const HOST: OptionRow = OptionRow::FilledOr(
    "host",
    "HOST",
    "Where the encoder listens, a name or an address",
    "127.0.0.1",
);

/// The form of a ladder.
const LADDER: OptionRow = OptionRow::MaybeWordOr(
    "ladder",
    "FORM",
    "Draw the line as a ladder, as SVG, or with 'text' for a terminal; it goes before the form and the store",
    "svg",
);

/// The file for the state of an end.
const STATE: OptionRow = OptionRow::MaybeFile(
    "state",
    "The file in which this end is kept, so that the next run goes on from it",
);

/// The options of a file of options, which each command has.
pub(crate) const FILE_OPTIONS: &[OptionRow] = &[
    OptionRow::MaybeFile(
        "config",
        "The file with options by their names, in TOML, as port = 4001; what the command line says goes first",
    ),
    OptionRow::Flag(
        "check-config",
        "Look at the file of --config alone: say that it is ok, or what is wrong and where",
    ),
];

/// The command `answer`.
pub(crate) const ANSWER_COMMAND: CommandRow = CommandRow {
    name: "answer",
    about: "Say what an encoder answers to hexadecimal pieces, one a line",
    after: "Example: echo FE004101006293FF | uecp answer --store",
    options: &[
        OptionRow::Number(SITE),
        OptionRow::Number(ENCODER),
        OptionRow::Number(SETS),
        SERVICES,
        STORE,
        WORDS,
        RBDS,
        JSON,
        OptionRow::MaybeNumber(AIR_GROUPS),
    ],
};

/// The command `show`.
pub(crate) const SHOW_COMMAND: CommandRow = CommandRow {
    name: "show",
    about: "Show the frames and elements in hexadecimal pieces, one a line",
    after: "Example: echo FE00410105010000C20167A8FF | uecp show --words",
    options: &[WORDS, RBDS, JSON],
};

/// The command `make`.
pub(crate) const MAKE_COMMAND: CommandRow = CommandRow {
    name: "make",
    about: "Write the frames of a frame script in hexadecimal, one a line",
    after: "Lines: frame AAAA CC, then its elements: pi, ps, tatp, ms, pty, rt, select, group, ack, raw\nWith --words a line is a message: phrases between semicolons; frame AAAA CC names its address and counter\nThe phrases: uecp help phrases\nExample: printf 'frame 0041 01\\npi 00 00 C201\\n' | uecp make",
    options: &[
        WORDS,
        RBDS,
        OptionRow::Flag(
            "fit",
            "With --words, make the strings of a line fit that is refused as it stands: take the nearest characters, cut them",
        ),
    ],
};

/// The command `line`.
pub(crate) const LINE_COMMAND: CommandRow = CommandRow {
    name: "line",
    about: "Play an event script on a line between a server and an encoder",
    after: "Lines: submit HEX, frame N, reply N, noise-encoder HEX, noise-server HEX, line-lost encoder or server, take, restart server\nExample: printf 'submit -\\nframe 0\\nreply 0\\n' | uecp line",
    options: &[
        OptionRow::Number(SITE),
        OptionRow::Number(ENCODER),
        OptionRow::Number(SETS),
        SERVICES,
        STORE,
        WORDS,
        RBDS,
        JSON,
        LADDER,
    ],
};

/// The command `encoder`.
pub(crate) const ENCODER_COMMAND: CommandRow = CommandRow {
    name: "encoder",
    about: "Be an encoder that serves one connection after another",
    after: "Standard input is not read. The protocol has no password: open it to a network behind a firewall or a tunnel alone.\nExample: uecp encoder --port 4001 --forever --log --words",
    options: &[
        OptionRow::Number(SITE),
        OptionRow::Number(ENCODER),
        OptionRow::Number(SETS),
        SERVICES,
        OptionRow::MaybeWord(
            "listen",
            "ADDRESS",
            "Where it listens, ADDRESS or ADDRESS:PORT, as 0.0.0.0:4001 or [::]:4001; 127.0.0.1 where it is left out",
        ),
        OptionRow::MaybeNumber(PORT),
        OptionRow::Number(CONNECTIONS),
        OptionRow::Number(SERVE_TURNS),
        OptionRow::Flag("forever", "Serve one connection after another without end"),
        OptionRow::Number(IDLE),
        OptionRow::MaybeNumber(YIELD),
        OptionRow::MaybeWord(
            "allow",
            "LIST",
            "From where connections are taken, addresses and networks, as 192.0.2.7,10.0.0.0/8,2001:db8::/32; from anywhere where it is left out",
        ),
        OptionRow::Flag(
            "log",
            "Tell what comes and what becomes of it, a line each, behind the time",
        ),
        OptionRow::MaybeNumber(LOG_WAIT),
        OptionRow::Flag("final-store", "Write the encoder's store at the end"),
        WORDS,
        RBDS,
        JSON,
        NAME,
        UNTIMED,
        OptionRow::MaybeFile(
            "faults",
            "The file with the rules of a bad line, one a line, as lose reply 5..9",
        ),
        OptionRow::Number(SEED),
        OptionRow::MaybeNumber(AIR_PORT),
        OptionRow::Flag(
            "air-bits",
            "With --air, each group as a line of its 104 bits",
        ),
        STATE,
    ],
};

/// The command `server`.
pub(crate) const SERVER_COMMAND: CommandRow = CommandRow {
    name: "server",
    about: "Send hexadecimal messages, one a line, to an encoder, each until it is acknowledged",
    after: "A line is HEX, or - for the empty message.\nWithout --join or --state a second run against an encoder that still runs begins at counter 01 again, and its messages are acknowledged and not applied.\nExample: echo 010000C201 | uecp server --port 4001 --join",
    options: &[
        OptionRow::Number(SITE),
        OptionRow::Number(ENCODER),
        HOST,
        OptionRow::Number(PORT),
        OptionRow::Number(TRIES),
        OptionRow::Number(TIMEOUT),
        OptionRow::Number(TRY_TURNS),
        OptionRow::Number(RECONNECTS),
        OptionRow::Number(WINDOW),
        OptionRow::Flag(
            "join",
            "Begin whatever the encoder has kept: always, but with one that was just started. With --state it gives up what waits",
        ),
        OptionRow::Flag(
            "reconnect-silent",
            "Go on over a new connection also where all tries on one were spent, as on a silent line",
        ),
        OptionRow::Flag(
            "verbose",
            "Say why a connection could not be made, in a line of its own",
        ),
        STATE,
    ],
};

/// The command `send`.
pub(crate) const SEND_COMMAND: CommandRow = CommandRow {
    name: "send",
    about: "Send messages in words, one a line, to an encoder as they come, for as long as they come",
    after: "A line is phrases between semicolons. Each is answered by a line: its number, and applied, refused or unknown.\nApplied is on the air where nobody else sends to this encoder: it answers by the counter, also for another's messages.\nA connection that is lost is made again; standard error says so, with the time.\nExit status 4: the encoder refused a message, or did not tell whether it applied it.\nThe phrases: uecp help phrases\nExample: uecp send --port 4001 --state studio.db",
    options: &[
        OptionRow::Number(SITE),
        OptionRow::Number(ENCODER),
        HOST,
        OptionRow::Number(PORT),
        OptionRow::Number(TRIES),
        OptionRow::Number(TIMEOUT),
        OptionRow::Number(TRY_TURNS),
        OptionRow::Number(WINDOW),
        OptionRow::Number(RETRY_EVERY),
        OptionRow::Number(GIVE_UP),
        OptionRow::Number(SILENT),
        NAMES,
        JSON,
        NAME,
        OptionRow::Flag("strict", "End at a line that is refused"),
        OptionRow::MaybeWord(
            "pass-over",
            "FILE",
            "Keep each line that is refused at the end of this file before the next is taken; not with --strict",
        ),
        OptionRow::Number(FROM_LINE),
        OptionRow::Flag(
            "join",
            "Begin anew with an encoder that was joined before. With --state it gives up what waits",
        ),
        OptionRow::Flag(
            "rejoin",
            "Join an encoder anew that answers nothing, and tell what was outstanding as unknown",
        ),
        STATE,
        OptionRow::MaybeFile(
            "station",
            "The file with the lines that make the station, sent behind each join; it asks for --rejoin too",
        ),
        OptionRow::WordOr(
            "input",
            "LINES",
            "What the lines are: phrases, or titles, each a RadioText whatever stands in it",
            "phrases",
        ),
        OptionRow::MaybeWord(
            "prefix",
            "TEXT",
            "With titles, what stands before each: at most 32 characters of the RDS set",
        ),
        OptionRow::MaybeWord(
            "service",
            "NUMBER",
            "With titles, whose RadioText it is, two hexadecimal digits; 00, the main service's, where it is left out",
        ),
        OptionRow::Flag(
            "fit",
            "Make a line fit that is refused as it stands, a title, or the strings of phrases: take the nearest characters, cut it",
        ),
    ],
};

/// The command `watch`.
pub(crate) const WATCH_COMMAND: CommandRow = CommandRow {
    name: "watch",
    about: "Tell what stands in the raw bytes of a control line, as they come",
    after: "Example: socat -u /dev/ttyUSB0,b9600,raw - | uecp watch --words",
    options: &[
        WORDS,
        RBDS,
        JSON,
        NAME,
        OptionRow::Flag("no-time", "Without the time before what was read"),
    ],
};

/// The command `state`.
pub(crate) const STATE_COMMAND: CommandRow = CommandRow {
    name: "state",
    about: "Tell what is in the state file of an encoder or a server",
    after: "Standard input is not read.\nExample: uecp state studio.db",
    options: &[OptionRow::Argument("file", "FILE", "The state file")],
};

/// The command `receive`.
pub(crate) const RECEIVE_COMMAND: CommandRow = CommandRow {
    name: "receive",
    about: "Tell what a receiver shows of RDS groups, one a line or in bits, as they come",
    after: "A line is a group's four words, as C201 0548 E0E0 5241; a block that was not heard is ----.\nExample: nc tx1 4001 | uecp receive",
    options: &[
        OptionRow::Flag(
            "bits",
            "The input is a stream of bits, the characters 0 and 1",
        ),
        NAMES,
        JSON,
        NAME,
        UNTIMED,
    ],
};

/// The command `conformance`.
pub(crate) const CONFORMANCE_COMMAND: CommandRow = CommandRow {
    name: "conformance",
    about: "Try which rules of the protocol an encoder keeps, case by case",
    after: "Not on the air: the cases set the programme identification and the RadioText, and queue groups.\nWhat is told is TAP. Exit status: 0 all rules that count are kept, 1 one is not.\nExample: uecp conformance tx1:4000",
    options: &[
        OptionRow::Number(SITE),
        OptionRow::Number(ENCODER),
        OptionRow::Argument(
            "place",
            "HOST:PORT",
            "Where the encoder listens, as tx1:4000, 192.0.2.7:4000 or [::1]:4000",
        ),
        OptionRow::MaybeWord(
            "only",
            "NAME",
            "The cases of this group, or the case of this name, alone",
        ),
        OptionRow::Number(CASE_TIMEOUT),
        OptionRow::Number(QUIET),
        OptionRow::Number(CASE_SILENT),
        OptionRow::Flag(
            "verbose",
            "Tell what was sent, wanted and came of a case that is not kept",
        ),
        JSON,
    ],
};

/// The command `page`.
pub(crate) const PAGE_COMMAND: CommandRow = CommandRow {
    name: "page",
    about: "Serve a live page of what lines of JSON tell, for a browser",
    after: "It reads what encoder, answer, send, watch and receive write with --json, and writes to no station.\nExample: uecp encoder --port 4000 --forever --log --json | uecp page",
    options: &[
        OptionRow::MaybeWord(
            "listen",
            "ADDRESS[:PORT]",
            "The IP address at which it listens; 127.0.0.1 where it is not given",
        ),
        OptionRow::MaybeNumber(PAGE_PORT),
        OptionRow::MaybeNumber(STALE),
    ],
};

/// The command `quote`.
pub(crate) const QUOTE_COMMAND: CommandRow = CommandRow {
    name: "quote",
    about: "Write each line of text as a string for a phrase, whatever stands in it",
    after: "A line that no string can be is refused, and nothing is written for it: a character is not in the RDS set, or it has more than 64.\nSpaces and # are text. An empty input is one empty line.\nExample: printf 'rt %s add\\n' \"$(printf '%s' \"$title\" | uecp quote)\"",
    options: &[],
};

/// The command `phrases`, whose help is the page that it writes.
pub(crate) const PHRASES_COMMAND: CommandRow = CommandRow {
    name: PHRASES_NAME,
    about: "Tell the phrases in which messages are said, an example each",
    after: "",
    options: &[],
};
