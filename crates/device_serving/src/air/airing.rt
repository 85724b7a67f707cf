//! The group that is due. Source: profile.
ghost use Rattle.std.specs.Prelude.{ℕ, Option};
ghost use Rattle.device_serving.specs.Logging.{Log};
ghost use Rattle.device_serving.specs.declared.air.line.OpenLine.{OpenLine as OpenLineValue};
ghost use Rattle.device_serving.specs.AirRun.{Airs};

use crate::air::moments::Moments;
use carousel::Carousel;
use kept_jobs::KeptStop;
use rds_store::RdsStore;
use uecp_encoder::{BatchLimits, Encoder, Keep, SaveFailed, SavedEncoder, take_kept};

/// Sends the next group of the store. Where it is one that waited there, it is taken, and it goes out once that is
/// saved.
pub(crate) fn send_next<K: Keep<SavedEncoder<RdsStore>> + BatchLimits, M: Moments>(
    encoder: &mut Encoder<RdsStore>,
    keeper: &mut K,
    moments: &mut M,
    carousel: &mut Carousel,
) -> Result<(), KeptStop>
    ensures airs { (log : Log) → (line : Option (OpenLineValue M.Input M.Output)) → (left : ℕ)
        → Airs K.TOGETHER_MAX K.READ_MAX K.leaves K.is_clean K.saves K.fails M.sends (record {
          encoder = encoder.old;
          keeper = keeper.old;
          log = log;
          moments = moments.old;
          carousel = carousel.old;
          line = line;
          left = left;
        }) (record {
          encoder = encoder.new;
          keeper = keeper.new;
          log = log;
          moments = moments.new;
          carousel = carousel.new;
          line = line;
          left = left;
        }) result }
{
    let next = carousel.next_group(encoder.target());
    if next.is_queued {
        match take_kept(encoder, keeper) {
            Err(SaveFailed) => return Err(KeptStop::StateFailed),
            Ok(_) => {}
        }
    }
    moments.send(&next.group);
    Ok(())
}
