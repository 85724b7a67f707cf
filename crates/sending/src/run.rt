//! A server whose lines come as they like, with its state kept. Source: profile.
ghost use Rattle.std.specs.Prelude.{◌≡◌, ◌≤◌, ◌<◌, ◌+◌, ◌-◌, ◌^◌, [], false, IsTrue, IfOk, IfErr, Ok, Err};
ghost use Rattle.uecp_frame.specs.Address.{is_exact};
ghost use Rattle.kept_jobs.specs.Stops.{Went};
ghost use Rattle.kept_jobs.specs.ServerRun.{is_due};
ghost use Rattle.line_batches.specs.declared.taking.After.{After as Next};
ghost use Rattle.line_batches.specs.declared.taking.After.TheVariants.{GoesOn};
ghost use Rattle.sending.specs.Run.{live, Turn, ended_as, RunsTurns, RunsOn, RunsLive, LivesFrom, Lives};

use crate::account::form_of;
use crate::beginning::begin;
use crate::course::Course;
use crate::intake::Intake;
use crate::lives::run_all;
use crate::options::{LiveOptions, RunOptions, run_of};
use crate::source::Source;
use crate::station::make_if;
use crate::teller::Teller;
use crate::turn::{send_some, settle_first};
use kept_jobs::{KeptStop, Start};
use line_batches::After;
use line_feed::Feed;
use notices::NoticesTo;
use std::io::Write;
use std::mem::replace;
use std::time::Clock;
use uecp_encoder::Keep;
use uecp_net::{Connections, Progress, SavedServer, Sender};
use uecp_text::RunFault;

/// How many batches are taken at most.
const TURNS_MAX: u64 = 1 << 59;

/// Sends the messages of the lines that come to this server's encoder, with the server's state kept, and answers the
/// exit status: 0 all were applied, 1 a line was refused, 3 a message is outstanding, the server could not be saved, or
/// memory, reading or writing failed, 4 the encoder refused a message, or can't be known to have applied it.
///
/// It is told how many messages were taken before, and how many of them wait; a server that is not joined joins its
/// encoder, sends the messages of the station, and is then saved as joined; those that wait are settled; and then the
/// lines are taken as they come: it waits for one, and those that are there already go with it, up to as many messages
/// as are on their way at once. A line that is refused is told on `errors`, and the others go on. Of each message the
/// encoder's answer is told before the next line is taken.
///
/// What is told is told in the form that the options say; as objects of JSON each answer has its time and how long it
/// took, as the clock tells.
///
/// Where messages are outstanding the run stops; or, with `rejoin`, a new server is saved in place of this one, they
/// are told as unknown and not sent again, and it goes on with that as with one that is not joined. Where the end of
/// the run was found behind them it joins the encoder and makes the station, and then ends so.
pub fn run_live<'a, K: Keep<SavedServer>, F: Feed, W: Write, E: Write, C: Connections, T: Clock>(
    options: &'a LiveOptions<'_>,
    start: Start,
    keeper: &mut K,
    feed: &'a mut F,
    teller: &mut Teller<'_, W, T>,
    errors: &'a mut NoticesTo<E>,
    connect: &mut C,
) -> u8
    requires exact { IsTrue (is_exact start.server.address) }
    requires countable { start.progress.taken < 2 ^ 63 }
    requires some { 1 ≤ options.now.reading.size }
    requires most { options.now.reading.size ≤ 8 }
    ensures runs { Lives F.remaining F.takes F.says F.passes C.opens C.closes C.Input.remaining C.Output.contents
        K.leaves
        K.is_clean K.saves K.fails
        options.now connect.old connect.new (record {
          runs = start.server;
          keeper = keeper.old;
          progress = start.progress;
          held = teller.old.held;
        }) keeper.new teller.new.held feed.old feed.new errors.old
        errors.new result }
    ensures writer { teller.new.writer ≡ teller.old.writer }
{
    let mut intake = Intake::new(
        teller.alloc(),
        &options.reading,
        options.lines_before,
        feed,
        errors,
    );
    let mut applied = true;
    let ran = run_from(
        &run_of(options),
        start,
        keeper,
        &mut intake,
        teller,
        connect,
        &mut applied,
    );
    let status = intake.end(ran, applied);
    let (fed, told) = intake.finish();
    let_go(fed.finish(), told.finish());
    status
}

/// Lets both go at once, as they are.
fn let_go<F: Feed, E: Write>(_feed: &mut F, _errors: &mut NoticesTo<E>)
    ensures feed { _feed.new ≡ _feed.old }
    ensures errors { _errors.new ≡ _errors.old }
{}

/// Whether the encoder is to be joined: where that is asked for, or it was not yet.
fn is_due(join: bool, progress: Progress) -> bool
    ensures { result ≡ is_due join progress }
{
    join || !progress.joined
}

/// Tells how far the server has come, begins anew where its encoder is to be joined, and sends what comes from the
/// source by one sender after another.
///
/// The messages of the source are sent batch by batch, each kept before its frame leaves; what comes of them is told as
/// the options say. `applied` stays true where each message that was answered was applied.
pub fn run_from<K: Keep<SavedServer>, S: Source, W: Write, C: Connections, T: Clock>(
    options: &RunOptions<'_>,
    start: Start,
    keeper: &mut K,
    source: &mut S,
    teller: &mut Teller<'_, W, T>,
    connect: &mut C,
    applied: &mut bool,
) -> Result<(), KeptStop>
    requires exact { IsTrue (is_exact start.server.address) }
    requires countable { start.progress.taken < 2 ^ 63 }
    requires some { 1 ≤ options.now.size }
    requires most { options.now.size ≤ 8 }
    ensures lives { LivesFrom (S.takes (S.how source.old)) C.opens C.closes C.Input.remaining
        C.Output.contents
        K.leaves K.is_clean K.saves K.fails
        options.now connect.old connect.new (record {
          sends = record {
            runs = start.server;
            keeper = keeper.old;
            progress = start.progress;
            held = teller.old.held;
          };
          takes = S.at source.old;
          applied = applied.old;
          unknown = 0;
          behind = GoesOn;
        }) keeper.new teller.new.held (S.at source.new) applied.new result }
    ensures how { S.how source.new ≡ S.how source.old }
    ensures lent { S.lent source.new ≡ S.lent source.old }
    ensures writer { teller.new.writer ≡ teller.old.writer }
{
    let mut server = start.server;
    let mut progress = start.progress;
    let due = is_due(options.join, progress);
    match begin(
        form_of(options.account),
        due,
        &mut server,
        &mut progress,
        keeper,
        teller,
    ) {
        Err(stop) => Err(stop),
        Ok(()) => {
            let mut course = Course {
                progress,
                applied: *applied,
                unknown: 0,
                behind: After::GoesOn,
            };
            let ran = run_all(
                due,
                options,
                server,
                keeper,
                source,
                teller,
                connect,
                &mut course,
            );
            *applied = course.applied;
            ran
        }
    }
}

/// Joins the encoder and makes the station where that is due, and then goes on by what comes behind what was
/// outstanding.
pub(crate) fn run_sender<K: Keep<SavedServer>, S: Source, W: Write, C: Connections, T: Clock>(
    due: bool,
    options: &RunOptions<'_>,
    sender: &mut Sender<'_, C>,
    keeper: &mut K,
    source: &mut S,
    teller: &mut Teller<'_, W, T>,
    course: &mut Course,
) -> Result<(), KeptStop>
    requires some { 1 ≤ options.now.size }
    requires most { options.now.size ≤ 8 }
    requires idle { IsTrue due → sender.old.sender.server.held ≡ [] }
    requires not_joined { IsTrue due → course.old.progress.joined ≡ false }
    requires countable { course.old.progress.taken < 2 ^ 63 }
    ensures runs { RunsLive (S.takes (S.how source.old)) C.opens C.closes C.Input.remaining
        C.Output.contents
        K.leaves K.is_clean K.saves K.fails
        options.now due (live sender.old keeper.old (S.at source.old) teller.old course.old)
        (live sender.new keeper.new (S.at source.new) teller.new course.new) result }
    ensures loan { sender.new.loan ≡ sender.old.loan }
    ensures how { S.how source.new ≡ S.how source.old }
    ensures lent { S.lent source.new ≡ S.lent source.old }
    ensures writer { teller.new.writer ≡ teller.old.writer }
{
    make_if(options, due, sender, keeper, teller, course)?;
    match replace(&mut course.behind, After::GoesOn) {
        After::Ends(ended) => ended_as(ended),
        After::GoesOn => go_on(options, sender, keeper, source, teller, course),
    }
}

/// Settles what waits, and then takes and sends batch after batch.
fn go_on<K: Keep<SavedServer>, S: Source, W: Write, C: Connections, T: Clock>(
    options: &RunOptions<'_>,
    sender: &mut Sender<'_, C>,
    keeper: &mut K,
    source: &mut S,
    teller: &mut Teller<'_, W, T>,
    course: &mut Course,
) -> Result<(), KeptStop>
    requires some { 1 ≤ options.now.size }
    requires most { options.now.size ≤ 8 }
    requires countable { course.old.progress.taken < 2 ^ 63 }
    ensures runs { RunsOn (S.takes (S.how source.old)) C.opens C.closes C.Input.remaining
        C.Output.contents
        K.leaves K.is_clean K.saves K.fails
        options.now GoesOn (live sender.old keeper.old (S.at source.old) teller.old course.old)
        (live sender.new keeper.new (S.at source.new) teller.new course.new) result }
    ensures loan { sender.new.loan ≡ sender.old.loan }
    ensures how { S.how source.new ≡ S.how source.old }
    ensures lent { S.lent source.new ≡ S.lent source.old }
    ensures writer { teller.new.writer ≡ teller.old.writer }
{
    settle_first(options.account, sender, keeper, teller, course)?;
    run_turns(options, sender, keeper, source, teller, course)
}

/// Takes and sends one batch after another.
fn run_turns<K: Keep<SavedServer>, S: Source, W: Write, C: Connections, T: Clock>(
    options: &RunOptions<'_>,
    sender: &mut Sender<'_, C>,
    keeper: &mut K,
    source: &mut S,
    teller: &mut Teller<'_, W, T>,
    course: &mut Course,
) -> Result<(), KeptStop>
    requires some { 1 ≤ options.now.size }
    requires most { options.now.size ≤ 8 }
    requires idle { sender.old.sender.server.held ≡ [] }
    requires countable { course.old.progress.taken < 2 ^ 63 }
    ensures runs { RunsTurns (S.takes (S.how source.old) options.now.size) C.opens C.closes
        C.Input.remaining C.Output.contents K.leaves K.is_clean K.saves K.fails
        options.now.account
        (live sender.old keeper.old (S.at source.old) teller.old course.old)
        (live sender.new keeper.new (S.at source.new) teller.new course.new) result }
    ensures loan { sender.new.loan ≡ sender.old.loan }
    ensures how { S.how source.new ≡ S.how source.old }
    ensures lent { S.lent source.new ≡ S.lent source.old }
    ensures writer { teller.new.writer ≡ teller.old.writer }
{
    for _turn in 0..TURNS_MAX {
        match make_turn(options, sender, keeper, source, teller, course) {
            Err(stop) => return Err(stop),
            Ok(After::Ends(ended)) => return ended_as(ended),
            Ok(After::GoesOn) => {}
        }
    }
    Err(KeptStop::Run(RunFault::Reading))
}

/// How a run went that ends so.
fn ended_as(ended: Result<(), RunFault>) -> Result<(), KeptStop>
    ensures { result ≡ ended_as ended }
{
    match ended {
        Ok(()) => Ok(()),
        Err(fault) => Err(KeptStop::Run(fault)),
    }
}

/// Takes one batch and sends it, and tells what comes after it; where it could not be sent, that is put down as what
/// comes behind it.
fn make_turn<K: Keep<SavedServer>, S: Source, W: Write, C: Connections, T: Clock>(
    options: &RunOptions<'_>,
    sender: &mut Sender<'_, C>,
    keeper: &mut K,
    source: &mut S,
    teller: &mut Teller<'_, W, T>,
    course: &mut Course,
) -> Result<After, KeptStop>
    requires some { 1 ≤ options.now.size }
    requires most { options.now.size ≤ 8 }
    requires idle { sender.old.sender.server.held ≡ [] }
    requires countable { course.old.progress.taken + 8 < 2 ^ 64 - 1 }
    ensures made { IfOk result (λ after. Turn (S.takes (S.how source.old) options.now.size) C.opens
        C.closes
        C.Input.remaining C.Output.contents K.leaves K.is_clean
        K.saves K.fails options.now.account
        (live sender.old keeper.old (S.at source.old) teller.old course.old)
        (live sender.new keeper.new (S.at source.new) teller.new course.new) after (Ok tt)) }
    ensures stopped { IfErr result (λ stop. (after : Next)
        × Turn (S.takes (S.how source.old) options.now.size) C.opens C.closes C.Input.remaining
        C.Output.contents K.leaves K.is_clean
        K.saves K.fails options.now.account
        (live sender.old keeper.old (S.at source.old) teller.old course.old)
        (live sender.new keeper.new (S.at source.new) teller.new course.new) after (Err stop)) }
    ensures taken { course.new.progress.taken ≤ course.old.progress.taken + 8 }
    ensures idle { IfOk result (λ _. sender.new.sender.server.held ≡ []) }
    ensures loan { sender.new.loan ≡ sender.old.loan }
    ensures how { S.how source.new ≡ S.how source.old }
    ensures lent { S.lent source.new ≡ S.lent source.old }
    ensures writer { teller.new.writer ≡ teller.old.writer }
{
    let after = source.take(options.size);
    match send_some(
        options.account,
        source.batch(),
        sender,
        keeper,
        teller,
        course,
    ) {
        Err(stop) => {
            course.behind = after;
            Err(stop)
        }
        Ok(()) => Ok(after),
    }
}
