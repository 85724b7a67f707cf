//! Laws of a page, each the contract of a function that does nothing.
ghost use Rattle.std.specs.Prelude.{◌≡◌};
ghost use Rattle.page.specs.Stream.{part_text, gap, alive};
ghost use Rattle.page.specs.Laws.{TakenAsSent, EachOnce, BeginningOnce, OwedNewer};
ghost use Rattle.page.specs.CardLaws.{LineAlone, LineOnce, StoreClears, MainOnce, CountedOnce, OneEnd, AsAnswered};
ghost use Rattle.page.specs.Life.{WholeLife};
ghost use Rattle.page.specs.MinuteLaws.{MinuteExactly};
ghost use Rattle.page.specs.HistoryLaws.{HistoryExactly, NoRowWithoutChange, AnnouncedExactly};
ghost use Rattle.page.specs.StaleLaws.{StaleExactly, HealthExactly};
ghost use Rattle.page.specs.Lines.{EachLineOnce, AllLinesAtEnd};
ghost use Rattle.page.specs.Input.{RefusedExactly};

use crate::events::{ALIVE, GAP};

/// What is shown of a control line is what the objects that name it make of it, whatever was told of others; it is not
/// shown only where none named it, or where objects were of a further one. So two transmitters are never mixed.
pub fn line_alone()
    ensures { LineAlone }
{}

/// No control line is shown twice.
pub fn line_once()
    ensures { LineOnce }
{}

/// Behind a store, and whatever comes behind that, nothing is on the air that was told before.
pub fn store_clears()
    ensures { StoreClears }
{}

/// Behind a store, the service of a set that is told first is the main one there: what is told by 0 and what is told by
/// its number are told of that one service, whether the set is named itself or is one of those that are meant.
pub fn main_once()
    ensures { MainOnce }
{}

/// No object counts as a message under both ends, and what was sent rises by nothing but an answer.
pub fn counted_once()
    ensures { CountedOnce }
{}

/// Where the encoder's end told anything of a control line, what is shown is what it told, whatever its studio was
/// answered; where only the studio's end tells, it is shown as that was answered.
pub fn one_end()
    ensures { OneEnd }
{}

/// As its studio was answered, on the air is what the messages say that were acknowledged, each once and in order, and
/// nothing else: of all of them, or of those since it was in doubt last what the encoder has.
pub fn as_answered()
    ensures { AsAnswered }
{}

/// What is told of a minute of the last hour is how many objects count as messages and came in it, whenever one asks.
pub fn minute_exactly()
    ensures { MinuteExactly }
{}

/// Of the rows of all objects the last 1,000 are kept, each once and in order; and they say all that was shown: what
/// was shown of a service, at any time, is what the last of its rows up to then says, nothing where it had none.
pub fn history_exactly()
    ensures { HistoryExactly }
{}

/// There is no row without a change: each row of an object says what is shown of its service behind it, and something
/// else was shown of that before.
pub fn no_row_without_change()
    ensures { NoRowWithoutChange }
{}

/// An announcement is on since the object came that put it on, for as long as it stays on, whatever else is told; where
/// none is shown as on none is.
pub fn announced_exactly()
    ensures { AnnouncedExactly }
{}

/// A control line is stale exactly where as many seconds as the limit says have gone by, by the page's clock, since the
/// last object that names it came.
pub fn stale_exactly()
    ensures { StaleExactly }
{}

/// That something is wrong is told exactly where a control line that is shown is stale, and that all is well exactly
/// where none is; that always, where there is no limit.
pub fn health_exactly()
    ensures { HealthExactly }
{}

/// A browser takes each line from a stream, under its number, once and in order, and nothing else.
pub fn taken_as_sent()
    ensures { TakenAsSent }
{}

/// Whatever comes and whenever it is sent something, a browser that is not lost was sent, and has waiting, each event
/// that it was owed, once and in order.
pub fn each_once()
    ensures { EachOnce }
{}

/// What a browser was sent is a beginning of what it was owed, once and in order, lost or not.
pub fn beginning_once()
    ensures { BeginningOnce }
{}

/// A browser that names an event is owed exactly those of the kept ones that are newer.
pub fn owed_newer()
    ensures { OwedNewer }
{}

/// Whatever happens to a connection, its browser was sent nothing, or what it was told on its one request, and where it
/// gets events, behind that each event that it was owed, once and in order, comments, and nothing else.
pub fn whole_life()
    ensures { WholeLife }
{}

/// Whatever comes of an input and whenever a line is asked for, each line that has ended was handed out, once and in
/// order, and what came behind them waits.
pub fn each_line_once()
    ensures { EachLineOnce }
{}

/// At the end of an input, with the last line, all its lines were handed out, each once and in order.
pub fn all_lines_at_end()
    ensures { AllLinesAtEnd }
{}

/// Of an input whose lines were all taken it is remembered that one was no object of ours exactly where one was none.
pub fn refused_exactly()
    ensures { RefusedExactly }
{}

/// The other parts of a stream are sent as they are defined.
pub fn other_parts()
    ensures gap { GAP.now ≡ part_text gap }
    ensures alive { ALIVE.now ≡ part_text alive }
{}
