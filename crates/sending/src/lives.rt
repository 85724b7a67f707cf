//! One sender after another, where an encoder that answers nothing is taken for a new one. Source: profile.
ghost use Rattle.std.specs.Prelude.{◌≡◌, ◌⊎◌, ◌≤◌, ◌<◌, ◌-◌, ◌^◌, [], ℕ, true, false, IsTrue};
ghost use Rattle.uecp_frame.specs.Address.{is_exact};
ghost use Rattle.uecp_link.specs.Server.{ServerState};
ghost use Rattle.sending.specs.Run.{live, Renews, RunsOne, RunsAgain, RunsFor, IsLast};

use crate::account::form_of;
use crate::course::Course;
use crate::options::RunOptions;
use crate::run::run_sender;
use crate::source::Source;
use crate::teller::Teller;
use kept_jobs::KeptStop;
use output_forms::Form;
use std::io::Write;
use std::time::Clock;
use uecp_encoder::{Keep, SaveFailed};
use uecp_frame::Address;
use uecp_link::Server;
use uecp_net::{Connections, Progress, SavedServer, Sender};

/// How often another sender runs at most.
const AGAIN_MAX: u64 = 1 << 59;

/// At so many messages no other sender runs.
const TAKEN_MAX: u64 = 1 << 63;

/// Sends by one sender, and by another one as long as messages are outstanding and their encoder is taken for a new
/// one.
pub(crate) fn run_all<K: Keep<SavedServer>, S: Source, W: Write, C: Connections, T: Clock>(
    due: bool,
    options: &RunOptions<'_>,
    server: Server,
    keeper: &mut K,
    source: &mut S,
    teller: &mut Teller<'_, W, T>,
    connect: &mut C,
    course: &mut Course,
) -> Result<(), KeptStop>
    requires some { 1 ≤ options.now.size }
    requires most { options.now.size ≤ 8 }
    requires exact { IsTrue (is_exact server.address) }
    requires idle { IsTrue due → server.held ≡ [] }
    requires not_joined { IsTrue due → course.old.progress.joined ≡ false }
    requires countable { course.old.progress.taken < 2 ^ 63 }
    ensures runs { (again : ℕ) × (last : ServerState)
        × RunsFor (S.takes (S.how source.old)) C.opens C.closes C.Input.remaining C.Output.contents
        K.leaves
        K.is_clean K.saves K.fails
        options.now due again connect.old connect.new (live server keeper.old (S.at source.old) teller.old course.old)
        (live last keeper.new (S.at source.new) teller.new course.new) result
        × IsLast C.opens C.closes C.Input.remaining C.Output.contents K.leaves K.is_clean K.saves K.fails options.now
        again (live last keeper.new (S.at source.new) teller.new course.new) }
    ensures how { S.how source.new ≡ S.how source.old }
    ensures lent { S.lent source.new ≡ S.lent source.old }
    ensures writer { teller.new.writer ≡ teller.old.writer }
{
    let address = server.address();
    let mut ran = run_one(
        due, options, server, keeper, source, teller, connect, course,
    );
    for _again in 0..AGAIN_MAX {
        if !goes_on(options.rejoin, course.unknown, course.progress.taken) {
            return ran;
        }
        ran = run_again(address, options, keeper, source, teller, connect, course);
    }
    ran
}

/// Whether another sender runs behind one of which so many messages are outstanding, where so many were taken.
fn goes_on(rejoin: bool, unknown: usize, taken: u64) -> bool
    ensures so { IsTrue result → (rejoin ≡ true) × (1 ≤ unknown) × (taken < 2 ^ 63) }
    ensures else_not { result ≡ false → (unknown ≡ 0) ⊎ (rejoin ≡ false) ⊎ (2 ^ 63 ≤ taken) }
{
    rejoin && unknown > 0 && taken < TAKEN_MAX
}

/// Begins anew with a server to the encoder at this address, tells what is outstanding as unknown, and sends by another
/// sender.
fn run_again<K: Keep<SavedServer>, S: Source, W: Write, C: Connections, T: Clock>(
    address: Address,
    options: &RunOptions<'_>,
    keeper: &mut K,
    source: &mut S,
    teller: &mut Teller<'_, W, T>,
    connect: &mut C,
    course: &mut Course,
) -> Result<(), KeptStop>
    requires some { 1 ≤ options.now.size }
    requires most { options.now.size ≤ 8 }
    requires exact { IsTrue (is_exact address) }
    requires countable { course.old.progress.taken < 2 ^ 63 }
    ensures runs { (before : ServerState) → (last : ServerState)
        × RunsAgain (S.takes (S.how source.old)) C.opens C.closes C.Input.remaining C.Output.contents
        K.leaves
        K.is_clean K.saves K.fails
        options.now address connect.old connect.new (live before keeper.old (S.at source.old) teller.old course.old)
        (live last keeper.new (S.at source.new) teller.new course.new) result }
    ensures how { S.how source.new ≡ S.how source.old }
    ensures lent { S.lent source.new ≡ S.lent source.old }
    ensures writer { teller.new.writer ≡ teller.old.writer }
{
    let server = Server::new(address);
    let count = course.unknown;
    course.applied = false;
    course.unknown = 0;
    match renew(
        form_of(options.account),
        count,
        &server,
        keeper,
        &mut course.progress,
        teller,
    ) {
        Err(stop) => Err(stop),
        Ok(()) => run_one(
            true, options, server, keeper, source, teller, connect, course,
        ),
    }
}

/// Saves this server, not joined, and tells that so many messages, the last that were taken, are unknown.
fn renew<K: Keep<SavedServer>, W: Write, T: Clock>(
    form: Form,
    count: usize,
    server: &Server,
    keeper: &mut K,
    progress: &mut Progress,
    teller: &mut Teller<'_, W, T>,
) -> Result<(), KeptStop>
    requires countable { progress.old.taken < 2 ^ 64 - 1 }
    ensures renews { (before : ServerState)
        → Renews K.leaves K.is_clean K.saves K.fails form count
        (record { runs = before; keeper = keeper.old; progress = progress.old; held = teller.old.held })
        (record { runs = server.now; keeper = keeper.new; progress = progress.new; held = teller.new.held })
        result }
    ensures taken { progress.new.taken ≡ progress.old.taken }
    ensures not_joined { progress.new.joined ≡ false }
    ensures writer { teller.new.writer ≡ teller.old.writer }
{
    progress.joined = false;
    match keeper.save(server, *progress) {
        Err(SaveFailed) => Err(KeptStop::StateFailed),
        Ok(()) => teller.tell_unknown(form, progress.taken, count),
    }
}

/// Sends by one sender.
fn run_one<K: Keep<SavedServer>, S: Source, W: Write, C: Connections, T: Clock>(
    due: bool,
    options: &RunOptions<'_>,
    server: Server,
    keeper: &mut K,
    source: &mut S,
    teller: &mut Teller<'_, W, T>,
    connect: &mut C,
    course: &mut Course,
) -> Result<(), KeptStop>
    requires some { 1 ≤ options.now.size }
    requires most { options.now.size ≤ 8 }
    requires idle { IsTrue due → server.held ≡ [] }
    requires not_joined { IsTrue due → course.old.progress.joined ≡ false }
    requires countable { course.old.progress.taken < 2 ^ 63 }
    ensures runs { (last : ServerState)
        × RunsOne (S.takes (S.how source.old)) C.opens C.closes C.Input.remaining C.Output.contents
        K.leaves
        K.is_clean K.saves K.fails
        options.now due connect.old connect.new (live server keeper.old (S.at source.old) teller.old course.old)
        (live last keeper.new (S.at source.new) teller.new course.new) result }
    ensures how { S.how source.new ≡ S.how source.old }
    ensures lent { S.lent source.new ≡ S.lent source.old }
    ensures writer { teller.new.writer ≡ teller.old.writer }
{
    let mut sender = Sender::new(connect, server, options.limits);
    let ran = run_sender(due, options, &mut sender, keeper, source, teller, course);
    let _connect = sender.finish();
    ran
}
