//! An encoder's state in a file. Source: profile.
ghost use Rattle.state_files.specs.Encoders.{IsPlaced};

use crate::image::Image;
use crate::laws::tells_what_is_kept;
use crate::saved::Saved;
use end_images::put_encoder;
use rds_store::RdsStore;
use sqlite::Alter;
use std::alloc::AllocError;
use uecp_encoder::{BatchLimits, Encoder, SavedEncoder};

/// How many bytes an encoder that is kept in a file reads at most, before it answers them: eight of the longest frames,
/// as many as a window has.
pub const READ_MAX: usize = 4192;

/// How many things found are answered together at most, by one save. So many replies are kept and one more, so each of
/// them is still known where a repeat comes with the last.
pub const TOGETHER_MAX: usize = 126;

/// An encoder's state in a file.
pub type EncoderFile<S> = Saved<S, SavedEncoder<RdsStore>>;

impl<S: Alter> BatchLimits for Saved<S, SavedEncoder<RdsStore>> {
    ghost use Rattle.std.proofs.Common.{lit≤};

    const READ_MAX: usize = READ_MAX;

    const TOGETHER_MAX: usize = TOGETHER_MAX;

    ghost READ_MAX = { 4192 };

    ghost TOGETHER_MAX = { 126 };

    ghost reads_some = { lit≤ tt };

    ghost reads_few = { lit≤ tt };

    ghost answers_some = { lit≤ tt };

    ghost answers_few = { lit≤ tt };
}

impl Image for SavedEncoder<RdsStore> {
    ghost use Rattle.end_images.specs.Images.{encoder_image};
    ghost use Rattle.state_files.specs.Encoders.{IsPlaced};

    ghost image = { λ progress e. encoder_image e };

    ghost is_end = { λ progress e. IsPlaced e.value };

    fn put(
        encoder: &Encoder<RdsStore>,
        _progress: (),
        bytes: &mut Vec<u8>,
    ) -> Result<(), AllocError> {
        put_encoder(encoder, bytes)
    }

    fn tells(encoder: &Encoder<RdsStore>, _progress: ()) {
        tells_what_is_kept();
        let _count = is_placed(encoder.target());
    }
}

/// How many services a store has; that each store has something in each of its places, and nothing elsewhere.
fn is_placed(store: &RdsStore) -> usize
    ensures { IsPlaced store.now }
{
    store.service_count()
}
