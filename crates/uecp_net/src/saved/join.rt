//! An encoder is joined once it is kept that it was. Source: profile.
ghost use Rattle.std.specs.Prelude.{◌≡◌, ◌⊎◌, [], true, false};
ghost use Rattle.uecp_net.specs.Keeping.{KeptServer, kept_of, IsKept};
ghost use Rattle.uecp_net.specs.SavedJoining.{JoinsKept, joined_as, OutlivesPass, StaysKeptJoining};

use crate::connect::Connections;
use crate::saved::batch::KeptOutstanding;
use crate::saved::keep::{Progress, SavedServer};
use crate::sender::Sender;
use uecp_encoder::{Keep, SaveFailed};

/// Joins the encoder as [`join`](Sender::join) does, and says so once it is kept that it is joined. Where no pass was
/// complete nothing is saved: what is kept says still that the encoder is not joined, as it does all the time that a
/// pass is underway. So a pass that a crash cut begins anew.
///
/// What is kept at the start is to be this server, and its progress, which is not joined. No message is held.
///
/// ```
/// if !progress.joined {
///     join_kept(&mut sender, &mut keeper, &mut progress)?;
/// }
/// ```
pub fn join_kept<K: Keep<SavedServer>, C: Connections>(
    sender: &mut Sender<'_, C>,
    keeper: &mut K,
    progress: &mut Progress,
) -> Result<(), KeptOutstanding>
    requires idle { sender.old.sender.server.held ≡ [] }
    requires not_joined { progress.old.joined ≡ false }
    // What each connection did: that of `join`; and what was saved.
    ensures joins { JoinsKept C.opens C.closes C.Input.remaining C.Output.contents K.saves K.fails progress.new
        sender.old sender.new keeper.old keeper.new result }
    ensures progress { progress.new ≡ joined_as result progress.old }
    // What a crash may leave, however the call ended: it says that the encoder is joined only where a pass was
    // complete.
    ensures outlives { IsKept (K.leaves keeper.old) progress.old sender.old.sender.server → K.is_clean keeper.new
        → (left : KeptServer) → K.leaves keeper.new left
        → OutlivesPass progress.old progress.new sender.old.sender.server sender.new.sender.server result left }
    // From here a first message may follow.
    ensures settled { K.is_clean keeper.new
        → StaysKeptJoining (K.leaves keeper.new) progress.new sender.new.sender.server result }
    ensures clean { K.is_clean keeper.new → K.is_clean keeper.old }
    ensures idle { sender.new.sender.server.held ≡ [] }
    ensures stays { record sender.new.sender { server = sender.old.sender.server; left = sender.old.sender.left }
        ≡ sender.old.sender }
    ensures loan { sender.new.loan ≡ sender.old.loan }
{
    match sender.join() {
        Err(reason) => Err(KeptOutstanding::Outstanding(reason)),
        Ok(()) => {
            progress.joined = true;
            match keeper.save(sender.server(), *progress) {
                Err(SaveFailed) => Err(KeptOutstanding::StateFailed),
                Ok(()) => Ok(()),
            }
        }
    }
}
