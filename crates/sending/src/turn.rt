//! A batch is sent, and the reply to each message told. Source: profile.
ghost use Rattle.std.specs.Prelude.{◌≡◌, ◌≢◌, ◌≤◌, ◌<◌, ◌+◌, ◌-◌, ◌^◌, [], length, IfOk};
ghost use Rattle.uecp_net.specs.Keeping.{taking};
ghost use Rattle.sending.specs.Run.{SendsBatch, SendsSome, SettlesLive, are_applied, unknown_of, marks_in, stands};

use crate::account::Account;
use crate::course::Course;
use crate::lines::all_applied;
use crate::sent::{sent_after, waiting_of};
use crate::teller::{Teller, first_of};
use arrayvec::ArrayVec;
use kept_jobs::KeptStop;
use std::io::Write;
use std::time::Clock;
use uecp_encoder::Keep;
use uecp_frame::Message;
use uecp_link::{Server, WINDOW_MAX};
use uecp_net::{
    Connections, KeptOutstanding, Outstanding, SavedServer, Sender, Settled, send_kept, settle_kept,
};

/// Sends these messages, and tells what the encoder answered to each once that is kept.
pub(crate) fn send_batch<K: Keep<SavedServer>, W: Write, C: Connections, T: Clock>(
    account: Account,
    batch: &[Message],
    sender: &mut Sender<'_, C>,
    keeper: &mut K,
    teller: &mut Teller<'_, W, T>,
    course: &mut Course,
) -> Result<(), KeptStop>
    requires some { batch.now ≢ [] }
    requires most { length batch.now ≤ 8 }
    requires idle { sender.old.sender.server.held ≡ [] }
    requires countable { course.old.progress.taken + length batch.now < 2 ^ 64 - 1 }
    ensures sends { SendsBatch C.opens C.closes C.Input.remaining C.Output.contents K.leaves K.is_clean K.saves K.fails
        account batch.now (stands sender.old keeper.old course.old teller.old)
        (stands sender.new keeper.new course.new teller.new) course.old.applied course.new.applied course.new.unknown
        result }
    ensures progress { course.new.progress ≡ taking course.old.progress (length batch.now) }
    ensures behind { course.new.behind ≡ course.old.behind }
    ensures idle { IfOk result (λ _. sender.new.sender.server.held ≡ []) }
    ensures loan { sender.new.loan ≡ sender.old.loan }
    ensures writer { teller.new.writer ≡ teller.old.writer }
{
    let sent = sent_after(sender.server().last(), batch);
    let since = teller.now();
    let ended = send_kept(sender, keeper, &mut course.progress, batch);
    course.applied = course.applied && are_applied(&ended);
    course.unknown = unknown_of(batch.len(), &ended);
    teller.tell_replies(
        account,
        since,
        course.progress.taken,
        sent.as_slice(),
        &ended,
        sender.server().counts(),
    )
}

/// Sends these messages so, where there are some.
pub(crate) fn send_some<K: Keep<SavedServer>, W: Write, C: Connections, T: Clock>(
    account: Account,
    batch: &[Message],
    sender: &mut Sender<'_, C>,
    keeper: &mut K,
    teller: &mut Teller<'_, W, T>,
    course: &mut Course,
) -> Result<(), KeptStop>
    requires most { length batch.now ≤ 8 }
    requires idle { sender.old.sender.server.held ≡ [] }
    requires countable { course.old.progress.taken + length batch.now < 2 ^ 64 - 1 }
    ensures sends { SendsSome C.opens C.closes C.Input.remaining C.Output.contents K.leaves K.is_clean K.saves K.fails
        account batch.now (stands sender.old keeper.old course.old teller.old)
        (stands sender.new keeper.new course.new teller.new) course.old.applied course.new.applied course.old.unknown
        course.new.unknown result }
    ensures progress { course.new.progress.taken ≤ course.old.progress.taken + 8 }
    ensures behind { course.new.behind ≡ course.old.behind }
    ensures idle { IfOk result (λ _. sender.new.sender.server.held ≡ []) }
    ensures loan { sender.new.loan ≡ sender.old.loan }
    ensures writer { teller.new.writer ≡ teller.old.writer }
{
    if batch.is_empty() {
        return Ok(());
    }
    send_batch(account, batch, sender, keeper, teller, course)
}

/// Settles what waits, where messages wait, and tells what the encoder answered to each once that is kept.
pub(crate) fn settle_first<K: Keep<SavedServer>, W: Write, C: Connections, T: Clock>(
    account: Account,
    sender: &mut Sender<'_, C>,
    keeper: &mut K,
    teller: &mut Teller<'_, W, T>,
    course: &mut Course,
) -> Result<(), KeptStop>
    requires countable { course.old.progress.taken < 2 ^ 64 - 1 }
    ensures settles { SettlesLive C.opens C.closes C.Input.remaining C.Output.contents K.leaves K.is_clean K.saves
        K.fails account (stands sender.old keeper.old course.old teller.old)
        (stands sender.new keeper.new course.new teller.new) course.old.applied course.new.applied course.old.unknown
        course.new.unknown result }
    ensures progress { course.new.progress ≡ course.old.progress }
    ensures behind { course.new.behind ≡ course.old.behind }
    ensures idle { IfOk result (λ _. sender.new.sender.server.held ≡ []) }
    ensures loan { sender.new.loan ≡ sender.old.loan }
    ensures writer { teller.new.writer ≡ teller.old.writer }
{
    if sender.server().is_idle() {
        return Ok(());
    }
    let marks = marks_of(sender.server());
    let sent = waiting_of(sender.server());
    let since = teller.now();
    let ended = settle_kept(sender, keeper, course.progress);
    course.applied = course.applied && are_applied(&ended);
    course.unknown = unknown_of(marks.len(), &ended);
    teller.tell_held(
        account,
        since,
        first_of(course.progress.taken, marks.len()),
        marks.as_slice(),
        sent.as_slice(),
        &ended,
        sender.server().counts(),
    )
}

/// Of the messages that a server holds, the oldest first, whether each is marked.
fn marks_of(server: &Server) -> ArrayVec<bool, WINDOW_MAX>
    ensures { result.items ≡ marks_in server.now }
{
    let mut marks = ArrayVec::new();
    for place in 0..server.held_count() {
        let Some(held) = server.held(place) else {
            unreachable!();
        };
        marks.push(held.marked);
    }
    marks
}

/// Whether all messages that were settled so were applied, as far as they were answered.
fn are_applied(ended: &Result<Settled, KeptOutstanding>) -> bool
    ensures { result ≡ are_applied ended.now }
{
    match ended {
        Ok(settled) => all_applied(settled.codes.as_slice()),
        Err(_) => true,
    }
}

/// How many of so many messages that were settled so are unknown where the encoder is taken for a new one.
fn unknown_of(count: usize, ended: &Result<Settled, KeptOutstanding>) -> usize
    ensures { result ≡ unknown_of count ended.now }
{
    match ended {
        Ok(_) => 0,
        Err(KeptOutstanding::Outstanding(Outstanding::TriesSpent)) => count,
        Err(KeptOutstanding::Outstanding(Outstanding::ConnectionFailed)) => 0,
        Err(KeptOutstanding::StateFailed) => 0,
    }
}
