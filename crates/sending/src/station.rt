//! An encoder is joined, and the station made there, before that is kept. Source: profile.
ghost use Rattle.std.specs.Prelude.{◌≡◌, ◌≢◌, ◌≤◌, ◌<◌, ◌+◌, ◌&&◌, ◌^◌, [], length, true, false, List, ℕ, IsTrue, IfOk};
ghost use Rattle.std.specs.Prelude.{IfErr};
ghost use Rattle.std.specs.List.{list_all};
ghost use Rattle.uecp_elements.specs.declared.code.Code.{Code as AnyCode};
ghost use Rattle.uecp_text.specs.Written.{Adds};
ghost use Rattle.uecp_jobs.specs.Batches.{Acknowledges, GivesUp};
ghost use Rattle.uecp_net.specs.Sending.{submitted_all};
ghost use Rattle.uecp_net.specs.Keeping.{KeptServer, IsKept};
ghost use Rattle.uecp_net.specs.SavedJoining.{OutlivesPass, StaysKeptJoining, joined_as};
ghost use Rattle.sending.specs.Lines.{is_applied};
ghost use Rattle.sending.specs.Accounts.{form_of};
ghost use Rattle.sending.specs.Forms.{refused_in};
ghost use Rattle.sending.specs.Run.{stands};
ghost use Rattle.sending.specs.Station.{SettlesBatch, SendsStation, MakesStation, MakesKept, MakesIf};

use crate::account::form_of;
use crate::course::Course;
use crate::forms::{put_applied_in, put_joined_in, put_refused_in};
use crate::lines::all_applied;
use crate::options::RunOptions;
use crate::teller::Teller;
use kept_jobs::KeptStop;
use output_forms::Form;
use std::io::Write;
use std::time::Clock;
use uecp_encoder::{Keep, SaveFailed};
use uecp_frame::Message;
use uecp_net::{Connections, KeptOutstanding, Outstanding, Progress, SavedServer, Sender, Settled};
use uecp_text::Output;

/// Joins the encoder and makes the station where that is due, saves the server as joined then, and tells it once that
/// is kept.
pub(crate) fn make_if<K: Keep<SavedServer>, W: Write, C: Connections, T: Clock>(
    options: &RunOptions<'_>,
    due: bool,
    sender: &mut Sender<'_, C>,
    keeper: &mut K,
    teller: &mut Teller<'_, W, T>,
    course: &mut Course,
) -> Result<(), KeptStop>
    requires some { 1 ≤ options.now.size }
    requires most { options.now.size ≤ 8 }
    requires idle { IsTrue due → sender.old.sender.server.held ≡ [] }
    requires not_joined { IsTrue due → course.old.progress.joined ≡ false }
    ensures makes { MakesIf C.opens C.closes C.Input.remaining C.Output.contents K.leaves K.is_clean K.saves K.fails
        (form_of options.now.account) options.now.size options.now.station.now due
        (stands sender.old keeper.old course.old teller.old) (stands sender.new keeper.new course.new teller.new)
        course.old.applied course.new.applied result }
    ensures taken { course.new.progress.taken ≡ course.old.progress.taken }
    ensures unknown { course.new.unknown ≡ course.old.unknown }
    ensures behind { course.new.behind ≡ course.old.behind }
    ensures loan { sender.new.loan ≡ sender.old.loan }
    ensures writer { teller.new.writer ≡ teller.old.writer }
{
    if !due {
        return Ok(());
    }
    let form = form_of(options.account);
    let mut lines = Output::new(teller.alloc());
    put_joined_in(form, &mut lines);
    let mut all = true;
    let joined = make_kept(
        form,
        options.size,
        options.station,
        sender,
        keeper,
        &mut course.progress,
        &mut lines,
        &mut all,
    );
    course.applied = course.applied && all;
    put_applied_in(form, options.station, all, &mut lines);
    teller.tell_joined(form, joined, &mut lines)
}

/// Joins the encoder and makes the station, and saves the server as joined then. The lines of the messages that the
/// encoder refused are put down.
fn make_kept<K: Keep<SavedServer>, C: Connections>(
    form: Form,
    size: usize,
    station: &[Message],
    sender: &mut Sender<'_, C>,
    keeper: &mut K,
    progress: &mut Progress,
    lines: &mut Output,
    all: &mut bool,
) -> Result<(), KeptOutstanding>
    requires some { 1 ≤ size }
    requires most { size ≤ 8 }
    requires idle { sender.old.sender.server.held ≡ [] }
    requires not_joined { progress.old.joined ≡ false }
    ensures makes { (told : List AnyCode)
        × MakesKept C.opens C.closes C.Input.remaining C.Output.contents K.leaves K.is_clean K.saves K.fails form
        size station.now progress.new told sender.old sender.new keeper.old keeper.new result
        × Adds lines.old lines.new (refused_in form 1 told) × (all.new ≡ all.old && list_all is_applied told) }
    ensures progress { progress.new ≡ joined_as result progress.old }
    ensures outlives { IsKept (K.leaves keeper.old) progress.old sender.old.sender.server → K.is_clean keeper.new
        → (left : KeptServer) → K.leaves keeper.new left
        → OutlivesPass progress.old progress.new sender.old.sender.server sender.new.sender.server result left }
    ensures settled { K.is_clean keeper.new
        → StaysKeptJoining (K.leaves keeper.new) progress.new sender.new.sender.server result }
    ensures clean { K.is_clean keeper.new → K.is_clean keeper.old }
    ensures loan { sender.new.loan ≡ sender.old.loan }
{
    match join_and_send(form, size, station, sender, lines, all) {
        Err(reason) => Err(KeptOutstanding::Outstanding(reason)),
        Ok(()) => {
            progress.joined = true;
            match keeper.save(sender.server(), *progress) {
                Err(SaveFailed) => Err(KeptOutstanding::StateFailed),
                Ok(()) => Ok(()),
            }
        }
    }
}

/// Joins the encoder, and then sends the messages of the station.
fn join_and_send<C: Connections>(
    form: Form,
    size: usize,
    station: &[Message],
    sender: &mut Sender<'_, C>,
    lines: &mut Output,
    all: &mut bool,
) -> Result<(), Outstanding>
    requires some { 1 ≤ size }
    requires most { size ≤ 8 }
    requires idle { sender.old.sender.server.held ≡ [] }
    ensures makes { (told : List AnyCode)
        × MakesStation C.opens C.closes C.Input.remaining C.Output.contents size station.now told sender.old sender.new
        result × Adds lines.old lines.new (refused_in form 1 told) × (all.new ≡ all.old && list_all is_applied told) }
    ensures loan { sender.new.loan ≡ sender.old.loan }
{
    match sender.join() {
        Err(reason) => Err(reason),
        Ok(()) => send_station(form, size, station, sender, lines, all),
    }
}

/// Sends the messages of the station, batch by batch, and puts down the lines of those that the encoder refused.
fn send_station<C: Connections>(
    form: Form,
    size: usize,
    station: &[Message],
    sender: &mut Sender<'_, C>,
    lines: &mut Output,
    all: &mut bool,
) -> Result<(), Outstanding>
    requires some { 1 ≤ size }
    requires most { size ≤ 8 }
    requires idle { sender.old.sender.server.held ≡ [] }
    ensures sends { (told : List AnyCode)
        × SendsStation C.opens C.closes C.Input.remaining C.Output.contents size station.now told sender.old sender.new
        result × Adds lines.old lines.new (refused_in form 1 told) × (all.new ≡ all.old && list_all is_applied told) }
    ensures loan { sender.new.loan ≡ sender.old.loan }
{
    let mut rest = station;
    while !rest.is_empty() {
        let (batch, more) = rest.split_at(size.min(rest.len()));
        match send_one(form, station.len() - rest.len(), batch, sender, lines, all) {
            Err(reason) => return Err(reason),
            Ok(()) => {}
        }
        rest = more;
    }
    Ok(())
}

/// Sends these messages of the station, before which so many were sent, and puts down the lines of those that the
/// encoder refused.
fn send_one<C: Connections>(
    form: Form,
    number: usize,
    batch: &[Message],
    sender: &mut Sender<'_, C>,
    lines: &mut Output,
    all: &mut bool,
) -> Result<(), Outstanding>
    requires some { batch.now ≢ [] }
    requires most { length batch.now ≤ 8 }
    requires idle { sender.old.sender.server.held ≡ [] }
    requires countable { number + 1 + length batch.now < 2 ^ 64 }
    ensures sent { IfOk result (λ _. (told : List AnyCode) × (tries : ℕ)
        × Acknowledges C.opens C.closes C.Input.remaining C.Output.contents sender.old batch.now told tries sender.new
        × Adds lines.old lines.new (refused_in form (number + 1) told)
        × (all.new ≡ all.old && list_all is_applied told)) }
    ensures outstanding { IfErr result (λ reason.
        GivesUp C.opens C.closes C.Input.remaining C.Output.contents sender.old batch.now reason sender.new
        × (lines.new ≡ lines.old) × (all.new ≡ all.old)) }
    ensures idle { IfOk result (λ _. sender.new.sender.server.held ≡ []) }
    ensures loan { sender.new.loan ≡ sender.old.loan }
{
    match settle_batch(batch, sender) {
        Err(reason) => Err(reason),
        Ok(settled) => {
            let codes = settled.codes.as_slice();
            *all = *all && all_applied(codes);
            put_refused_in(form, number + 1, codes, lines);
            Ok(())
        }
    }
}

/// Submits these messages, and settles them.
fn settle_batch<C: Connections>(
    batch: &[Message],
    sender: &mut Sender<'_, C>,
) -> Result<Settled, Outstanding>
    requires some { batch.now ≢ [] }
    requires most { length batch.now ≤ 8 }
    requires idle { sender.old.sender.server.held ≡ [] }
    ensures settles { SettlesBatch C.opens C.closes C.Input.remaining C.Output.contents batch.now sender.old sender.new
        result }
    ensures idle { IfOk result (λ _. sender.new.sender.server.held ≡ []) }
    ensures loan { sender.new.loan ≡ sender.old.loan }
{
    submit_all(batch, sender);
    sender.settle()
}

/// Submits these messages, one after another.
fn submit_all<C: Connections>(batch: &[Message], sender: &mut Sender<'_, C>)
    requires room { length sender.old.sender.server.held + length batch.now ≤ 8 }
    ensures { sender.new ≡ submitted_all sender.old batch.now }
{
    for message in batch {
        sender.submit(message);
    }
}
