//! How a server begins whose lines come as they like. Source: profile.
ghost use Rattle.std.specs.Prelude.{◌≡◌, IsTrue, IfOk, [], false};
ghost use Rattle.uecp_frame.specs.Address.{is_exact};
ghost use Rattle.kept_jobs.specs.Stops.{Then};
ghost use Rattle.sending.specs.Beginning.{TellsTaken, BeginsAnew, BeginsAnewIf};

use crate::teller::Teller;
use kept_jobs::KeptStop;
use output_forms::Form;
use std::io::Write;
use std::time::Clock;
use uecp_encoder::{Keep, SaveFailed};
use uecp_link::Server;
use uecp_net::{Progress, SavedServer};

/// Tells how far the server has come, and begins anew where its encoder is to be joined.
pub(crate) fn begin<K: Keep<SavedServer>, W: Write, T: Clock>(
    form: Form,
    due: bool,
    server: &mut Server,
    progress: &mut Progress,
    keeper: &mut K,
    teller: &mut Teller<'_, W, T>,
) -> Result<(), KeptStop>
    requires exact { IsTrue (is_exact server.old.address) }
    ensures begins { Then (TellsTaken form) (BeginsAnewIf K.leaves K.is_clean K.saves K.fails form due) (record {
      runs = server.old;
      keeper = keeper.old;
      progress = progress.old;
      held = teller.old.held;
    }) (record {
      runs = server.new;
      keeper = keeper.new;
      progress = progress.new;
      held = teller.new.held;
    }) result }
    ensures taken { progress.new.taken ≡ progress.old.taken }
    ensures idle { IfOk result (λ _. IsTrue due → server.new.held ≡ []) }
    ensures not_joined { IfOk result (λ _. IsTrue due → progress.new.joined ≡ false) }
    ensures writer { teller.new.writer ≡ teller.old.writer }
{
    teller.tell_taken(form, progress.taken, server.waiting())?;
    if due {
        return begin_anew(form, server, progress, keeper, teller);
    }
    Ok(())
}

/// Saves a new server to the same encoder, not joined, in place of this one, and tells how many messages are given up
/// by that.
fn begin_anew<K: Keep<SavedServer>, W: Write, T: Clock>(
    form: Form,
    server: &mut Server,
    progress: &mut Progress,
    keeper: &mut K,
    teller: &mut Teller<'_, W, T>,
) -> Result<(), KeptStop>
    requires exact { IsTrue (is_exact server.old.address) }
    ensures begins { BeginsAnew K.leaves K.is_clean K.saves K.fails form (record {
      runs = server.old;
      keeper = keeper.old;
      progress = progress.old;
      held = teller.old.held;
    }) (record {
      runs = server.new;
      keeper = keeper.new;
      progress = progress.new;
      held = teller.new.held;
    }) result }
    ensures writer { teller.new.writer ≡ teller.old.writer }
{
    let outstanding = server.waiting();
    *server = Server::new(server.address());
    progress.joined = false;
    match keeper.save(server, *progress) {
        Err(SaveFailed) => Err(KeptStop::StateFailed),
        Ok(()) => teller.tell_given_up(form, outstanding),
    }
}
