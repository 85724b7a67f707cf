//! A group is taken once it is kept that it was. Source: profile.
ghost use Rattle.std.specs.Prelude.{◌≡◌, ◌⊎◌, OnOk, IfOk, IfErr};
ghost use Rattle.uecp_encoder.specs.Keeping.{Kept, kept_of, Settled};

use crate::encoder::Encoder;
use crate::keep::{Keep, SaveFailed, SavedEncoder};
use crate::target::Target;
use rds_store::Group;

/// Takes from the target the group that is to go out next, or None where it has none, and hands it out once the encoder
/// is saved. So no group goes out twice; one that was taken before a crash, and was not yet sent, is not sent.
///
/// A call saves also where there is no group, since a target may change then too: a caller that asks often looks first
/// whether one waits, as a store tells.
///
/// Where the save fails nothing is handed out: save the encoder before it goes on, or let it go and go on from what is
/// kept.
///
/// ```
/// let group = take_kept(&mut encoder, &mut keeper)?; // of a store: the first group that waits
/// ```
pub fn take_kept<T: Target, K: Keep<SavedEncoder<T>>>(
    encoder: &mut Encoder<T>,
    keeper: &mut K,
) -> Result<Option<Group>, SaveFailed>
    ensures state { encoder.new ≡ record encoder.old { value = (T.taken encoder.old.value).0 } }
    ensures group { IfOk result (λ group. group ≡ (T.taken encoder.old.value).1) }
    ensures settled { K.is_clean keeper.new → OnOk result (Settled (K.leaves keeper.new) encoder.new) }
    ensures either { Settled (K.leaves keeper.old) encoder.old → K.is_clean keeper.new → (left : Kept T)
        → K.leaves keeper.new left → (left ≡ kept_of encoder.old) ⊎ (left ≡ kept_of encoder.new) }
    ensures clean { K.is_clean keeper.new → K.is_clean keeper.old }
    ensures saved { OnOk result (K.saves keeper.old (kept_of encoder.new) keeper.new) }
    ensures save_failed { IfErr result (λ _. K.fails keeper.old (kept_of encoder.new) keeper.new) }
{
    let group = encoder.take_group();
    keeper.save(encoder, ())?;
    Ok(group)
}
