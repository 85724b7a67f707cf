//! Messages are sent once they are kept, and told once it is kept that they are acknowledged. Source: profile.
ghost use Rattle.std.specs.Prelude.{◌≡◌, ◌≢◌, ◌⊎◌, ◌+◌, ◌^◌, ◌<◌, ◌≤◌, [], length};
ghost use Rattle.uecp_net.specs.Sending.{submitted_all};
ghost use Rattle.uecp_net.specs.Keeping.{KeptServer, kept_of, taking, IsKept};
ghost use Rattle.uecp_net.specs.SavedSending.{SendsKept, SettlesKept, StaysKept, Outlives, OutlivesBatch, told_as};

use crate::connect::Connections;
use crate::saved::keep::{Progress, SavedServer};
use crate::sender::{Outstanding, Sender, Settled};
use uecp_encoder::{Keep, SaveFailed};
use uecp_frame::Message;

/// Why messages are outstanding, or may not be kept.
#[derive(Clone, Copy, Debug, PartialEq, Eq)]
pub enum KeptOutstanding {
    /// As [`settle`](Sender::settle) says. What is kept is what the server is.
    Outstanding(Outstanding),
    /// The server could not be saved. What it has taken or heard may not be kept, and is not told: save it before it
    /// goes on, or let it go and go on from what is kept.
    StateFailed,
}

/// Sends a batch of messages as [`settle`](Sender::settle) does, once they are kept; and says how that went, once that
/// is kept. They are submitted and counted as taken, and the server is saved before any connection is opened and any
/// byte is written; then what waits is settled, and the server is saved again before anything is told.
///
/// What is kept at the start is to be this server, and its progress. The batch is not empty, finds room, and does not
/// take the count of taken messages past 64 bits.
///
/// ```
/// let settled = send_kept(&mut sender, &mut keeper, &mut progress, &messages[..8])?;
/// ```
pub fn send_kept<K: Keep<SavedServer>, C: Connections>(
    sender: &mut Sender<'_, C>,
    keeper: &mut K,
    progress: &mut Progress,
    batch: &[Message],
) -> Result<Settled, KeptOutstanding>
    requires some { batch.now ≢ [] }
    requires room { length sender.old.sender.server.held + length batch.now ≤ 8 }
    requires countable { progress.old.taken + length batch.now < 2 ^ 64 }
    // What was opened, written and read: that of `settle` with the batch submitted, or nothing where the first save
    // failed; and what was saved.
    ensures sends { SendsKept C.opens C.closes C.Input.remaining C.Output.contents K.saves K.fails progress.new
        (submitted_all sender.old batch.now) sender.new keeper.old keeper.new result }
    ensures progress { progress.new ≡ taking progress.old (length batch.now) }
    // What a crash may leave, however the call ended. Where it may leave what was before the batch, nothing was opened
    // or written.
    ensures outlives { IsKept (K.leaves keeper.old) progress.old sender.old.sender.server → K.is_clean keeper.new
        → (left : KeptServer) → K.leaves keeper.new left
        → OutlivesBatch progress.old progress.new sender.old (submitted_all sender.old batch.now) sender.new left }
    // From here the next call goes on.
    ensures settled { K.is_clean keeper.new
        → StaysKept (K.leaves keeper.new) progress.new sender.new.sender.server result }
    ensures clean { K.is_clean keeper.new → K.is_clean keeper.old }
    ensures stays { record sender.new.sender { server = sender.old.sender.server; left = sender.old.sender.left }
        ≡ sender.old.sender }
    ensures loan { sender.new.loan ≡ sender.old.loan }
{
    submit_all(batch, sender);
    progress.taken += batch.len() as u64;
    send_submitted(sender, keeper, *progress)
}

/// Saves a server with a batch submitted, and then sends what waits, and says how that went once that is kept.
fn send_submitted<K: Keep<SavedServer>, C: Connections>(
    sender: &mut Sender<'_, C>,
    keeper: &mut K,
    progress: Progress,
) -> Result<Settled, KeptOutstanding>
    requires { sender.old.sender.server.held ≢ [] }
    ensures sends { SendsKept C.opens C.closes C.Input.remaining C.Output.contents K.saves K.fails progress sender.old
        sender.new keeper.old keeper.new result }
    // What a crash might have left before it may leave now only where nothing was opened or written.
    ensures outlives { K.is_clean keeper.new → (left : KeptServer) → K.leaves keeper.new left
        → (K.leaves keeper.old left × (sender.new ≡ sender.old))
        ⊎ Outlives progress sender.old.sender.server sender.new.sender.server left }
    ensures settled { K.is_clean keeper.new
        → StaysKept (K.leaves keeper.new) progress sender.new.sender.server result }
    ensures clean { K.is_clean keeper.new → K.is_clean keeper.old }
    ensures stays { record sender.new.sender { server = sender.old.sender.server; left = sender.old.sender.left }
        ≡ sender.old.sender }
    ensures loan { sender.new.loan ≡ sender.old.loan }
{
    match keeper.save(sender.server(), progress) {
        Err(SaveFailed) => Err(KeptOutstanding::StateFailed),
        Ok(()) => settle_kept(sender, keeper, progress),
    }
}

/// Sends the messages that are outstanding already, as after a start from what was kept, as
/// [`settle`](Sender::settle) does, and says how that went once that is kept. Some message waits.
///
/// What is kept at the start is to be this server, and its progress, which stays as it is.
///
/// ```
/// if !sender.server().is_idle() {
///     let settled = settle_kept(&mut sender, &mut keeper, progress)?;
/// }
/// ```
pub fn settle_kept<K: Keep<SavedServer>, C: Connections>(
    sender: &mut Sender<'_, C>,
    keeper: &mut K,
    progress: Progress,
) -> Result<Settled, KeptOutstanding>
    requires { sender.old.sender.server.held ≢ [] }
    // What was opened, written and read: that of `settle`; and what was saved.
    ensures settles { SettlesKept C.opens C.closes C.Input.remaining C.Output.contents K.saves K.fails progress
        sender.old sender.new keeper.old keeper.new result }
    // What a crash may leave, however the call ended.
    ensures outlives { IsKept (K.leaves keeper.old) progress sender.old.sender.server → K.is_clean keeper.new
        → (left : KeptServer) → K.leaves keeper.new left
        → Outlives progress sender.old.sender.server sender.new.sender.server left }
    // From here the next call goes on.
    ensures settled { K.is_clean keeper.new
        → StaysKept (K.leaves keeper.new) progress sender.new.sender.server result }
    ensures clean { K.is_clean keeper.new → K.is_clean keeper.old }
    ensures stays { record sender.new.sender { server = sender.old.sender.server; left = sender.old.sender.left }
        ≡ sender.old.sender }
    ensures loan { sender.new.loan ≡ sender.old.loan }
{
    let settled = sender.settle();
    let kept = keeper.save(sender.server(), progress);
    match kept {
        Err(SaveFailed) => Err(KeptOutstanding::StateFailed),
        Ok(()) => told_as(settled),
    }
}

/// What is told of messages that were settled so, and kept.
fn told_as(settled: Result<Settled, Outstanding>) -> Result<Settled, KeptOutstanding>
    ensures { result ≡ told_as settled }
{
    match settled {
        Ok(settled) => Ok(settled),
        Err(reason) => Err(KeptOutstanding::Outstanding(reason)),
    }
}

/// Submits these messages, one after another.
fn submit_all<C: Connections>(batch: &[Message], sender: &mut Sender<'_, C>)
    requires room { length sender.old.sender.server.held + length batch.now ≤ 8 }
    ensures { sender.new ≡ submitted_all sender.old batch.now }
{
    for message in batch {
        sender.submit(message);
    }
}
