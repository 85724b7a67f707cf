//! The lines that make a station what it is (profile).
ghost use Rattle.std.specs.Prelude.{◌≡◌, IfOk};
ghost use Rattle.send_commands.specs.StationFile.{IsStationOf};

use line_batches::{After, Input, Reading, Tally, take_batch};
use line_feed::{Arrival, LineFeed};
use notices::NoticesTo;
use rds_text::Region;
use std::alloc::Global;
use std::fs::{Files, OpenOptions};
use std::io::{Read, Write};
use uecp_frame::Message;
use uecp_text::RunFault;

/// How many messages make a station at most.
pub const STATION_MAX: usize = 4096;

/// Why there is no station.
#[derive(Debug, Drop)]
pub(crate) enum StationFault {
    /// Its file can't be read.
    Unreadable,
    /// One of its lines is refused, which was said.
    LineRefused,
    /// It has more messages than [`STATION_MAX`].
    TooLong,
    /// Memory was wanting.
    OutOfMemory,
}

/// A file is there.
#[derive(Drop)]
struct IsThere;

impl Arrival for IsThere {
    fn wait(&mut self, _milliseconds: Option<u64>) -> bool {
        true
    }

    fn pause(&mut self, _milliseconds: u64) {}
}

/// The messages of the lines of the file at this path; what is wrong with a line that is refused is said on `errors`.
pub(crate) fn read_station<F: Files, E: Write>(
    alloc: Global,
    region: Region,
    path: &str,
    files: &F,
    errors: &mut NoticesTo<E>,
) -> Result<Vec<Message>, StationFault>
    ensures { IfOk result (λ station. (file : F.File) × IsStationOf region (F.File.Read.remaining file) station.items) }
{
    let Ok(file) = OpenOptions::new().read(true).open(files, path) else {
        return Err(StationFault::Unreadable);
    };
    messages_of(alloc, region, file, errors)
}

/// The messages of the lines of a reader.
fn messages_of<R: Read + Drop, E: Write>(
    alloc: Global,
    region: Region,
    reader: R,
    errors: &mut NoticesTo<E>,
) -> Result<Vec<Message>, StationFault>
    ensures { IfOk result (λ station. IsStationOf region (R.remaining reader) station.items) }
{
    let Ok(mut feed) = LineFeed::new(alloc, reader, IsThere) else {
        return Err(StationFault::OutOfMemory);
    };
    let reading = Reading {
        input: Input::Phrases(region),
        size: STATION_MAX + 1,
        strict: true,
    };
    let mut tally = Tally {
        lines: 0,
        refused: false,
    };
    let mut line = Vec::new(alloc);
    let mut messages = Vec::new(alloc);
    let after = take_batch(
        alloc,
        &reading,
        &mut feed,
        &mut line,
        errors,
        &mut tally,
        &mut messages,
    );
    match after {
        After::GoesOn => Err(StationFault::TooLong),
        After::Ends(Err(RunFault::OutOfMemory)) => Err(StationFault::OutOfMemory),
        After::Ends(Err(_)) => Err(StationFault::Unreadable),
        After::Ends(Ok(())) if tally.refused => Err(StationFault::LineRefused),
        After::Ends(Ok(())) => Ok(messages),
    }
}
