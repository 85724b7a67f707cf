//! An encoder over a keeper, a reader and a writer that fail where they are told to.

use crate::tests::asserting::{holds, same};
use faulty_io::{FaultyReader, FaultyWriter, comes_to, new_store_encoder};
use rds_store::RdsStore;
use std::process::Abort;
use std::test::Fail;
use uecp_encoder::{
    BatchLimits, Encoder, Keep, KeptFault, Meter, SaveFailed, SavedEncoder, Served, Unheard,
    serve_with, take_kept,
};
use uecp_net::{Connections, serve_connection_with};

/// No element, counter 01, twice, and then counter 02.
const TWICE_AND_NEXT: [u8; 24] =
    *b"\xFE\x00\x41\x01\x00\x62\x93\xFF\xFE\x00\x41\x01\x00\x62\x93\xFF\xFE\x00\x41\x02\x00\x37\xC0\xFF";
/// Code 00 to counter 01, twice, and to counter 02.
const ALL_APPLIED: [u8; 33] =
    *b"\xFE\x00\x41\x00\x03\x18\x00\x01\x40\xBE\xFF\xFE\x00\x41\x00\x03\x18\x00\x01\x40\xBE\xFF\xFE\x00\x41\x00\x03\x18\x00\x02\x70\xDD\xFF";
/// All was read and answered.
const ALL: Served = Served {
    read: 24,
    replies: 3,
};

/// Keeps nothing, and fails where it is told to. It says of no crash what one leaves.
#[derive(Drop)]
struct FaultyKeeper {
    /// How many saves were made.
    saves: u32,
    /// How many messages the encoder had applied when it was saved last.
    applied: u64,
    /// The save that fails, counted from 1; 0 for none.
    failing: u32,
}

impl FaultyKeeper {
    fn new(failing: u32) -> FaultyKeeper {
        FaultyKeeper {
            saves: 0,
            applied: 0,
            failing,
        }
    }
}

impl BatchLimits for FaultyKeeper {
    ghost use Rattle.std.proofs.Common.{lit≤};

    const READ_MAX: usize = 512;

    const TOGETHER_MAX: usize = 1;

    ghost READ_MAX = { 512 };

    ghost TOGETHER_MAX = { 1 };

    ghost reads_some = { lit≤ tt };

    ghost reads_few = { lit≤ tt };

    ghost answers_some = { lit≤ tt };

    ghost answers_few = { lit≤ tt };
}

impl Keep<SavedEncoder<RdsStore>> for FaultyKeeper {
    ghost leaves = { λ _ _. Unit {0} };

    ghost is_clean = { λ _. ⊥ };

    ghost saves = { λ _ _ _. Unit {0} };

    ghost fails = { λ _ _ _. Unit {0} };

    fn save(&mut self, encoder: &Encoder<RdsStore>, _progress: ()) -> Result<(), SaveFailed> {
        self.saves = self.saves.saturating_add(1);
        self.applied = encoder.counts().fresh;
        if self.failing == self.saves {
            return Err(SaveFailed);
        }
        Ok(())
    }
}

/// The same, for which what one read brings is answered together.
#[derive(Drop)]
struct BatchKeeper {
    keeper: FaultyKeeper,
}

impl BatchLimits for BatchKeeper {
    ghost use Rattle.std.proofs.Common.{lit≤};

    const READ_MAX: usize = 4192;

    const TOGETHER_MAX: usize = 126;

    ghost READ_MAX = { 4192 };

    ghost TOGETHER_MAX = { 126 };

    ghost reads_some = { lit≤ tt };

    ghost reads_few = { lit≤ tt };

    ghost answers_some = { lit≤ tt };

    ghost answers_few = { lit≤ tt };
}

impl Keep<SavedEncoder<RdsStore>> for BatchKeeper {
    ghost leaves = { λ _ _. Unit {0} };

    ghost is_clean = { λ _. ⊥ };

    ghost saves = { λ _ _ _. Unit {0} };

    ghost fails = { λ _ _ _. Unit {0} };

    fn save(&mut self, encoder: &Encoder<RdsStore>, _progress: ()) -> Result<(), SaveFailed> {
        self.keeper.save(encoder, ())
    }
}

/// One connection.
#[derive(Drop)]
struct OneConnection<'a> {
    input: Option<FaultyReader<'a>>,
    output: Option<FaultyWriter<'a>>,
}

impl<'a> Connections for OneConnection<'a> {
    type Input = FaultyReader<'a>;

    type Output = FaultyWriter<'a>;

    ghost opens = { λ _ _ _. Unit {0} };

    ghost closes = { λ _ _ _ _. Unit {0} };

    fn open(&mut self) -> Option<(FaultyReader<'a>, FaultyWriter<'a>)> {
        Some((self.input.take()?, FaultyWriter::new()))
    }

    fn close(&mut self, _input: FaultyReader<'a>, output: FaultyWriter<'a>) {
        self.output = Some(output);
    }
}

/// A message, the same again, and the next: two saves and three replies.
fn saves_what_is_fresh(rt: &impl Abort, encoder: &mut Encoder<RdsStore>) {
    let mut keeper = FaultyKeeper::new(0);
    let mut input = Meter::new(FaultyReader::new(&TWICE_AND_NEXT));
    let mut output = Meter::new(FaultyWriter::new());
    let served = serve_with(
        encoder,
        &mut keeper,
        &mut input,
        &mut output,
        &mut Unheard,
        64,
    );
    same!(*rt; served, Ok(ALL));
    same!(*rt; (keeper.saves, keeper.applied), (2, 2));
    same!(*rt; output.into_inner().taken(), ALL_APPLIED.as_slice());
}

#[test]
fn a_repeat_saves_nothing(rt: HostRuntime) -> Result<(), Fail> {
    let mut encoder = new_store_encoder(rt.alloc(), 1)?;
    saves_what_is_fresh(&rt, &mut encoder);
    Ok(())
}

/// Two messages, of which one comes twice, in one read: one save, and three replies; or where that save fails, none.
fn saves_once(rt: &impl Abort, encoder: &mut Encoder<RdsStore>, failing: u32) {
    let mut keeper = BatchKeeper {
        keeper: FaultyKeeper::new(failing),
    };
    let mut input = Meter::new(FaultyReader::new(&TWICE_AND_NEXT));
    let mut output = Meter::new(FaultyWriter::new());
    let served = serve_with(
        encoder,
        &mut keeper,
        &mut input,
        &mut output,
        &mut Unheard,
        64,
    );
    same!(*rt; (keeper.keeper.saves, keeper.keeper.applied), (1, 2));
    if failing == 0 {
        same!(*rt; served, Ok(ALL));
        same!(*rt; output.into_inner().taken(), ALL_APPLIED.as_slice());
    } else {
        same!(*rt; served, Err(KeptFault::StateFailed));
        same!(*rt; output.into_inner().taken(), &ALL_APPLIED[..0]);
    }
}

#[test]
fn what_one_read_brought_is_saved_once(rt: HostRuntime) -> Result<(), Fail> {
    let mut encoder = new_store_encoder(rt.alloc(), 1)?;
    saves_once(&rt, &mut encoder, 0);
    Ok(())
}

#[test]
fn a_failed_save_answers_none_of_its_batch(rt: HostRuntime) -> Result<(), Fail> {
    let mut encoder = new_store_encoder(rt.alloc(), 1)?;
    saves_once(&rt, &mut encoder, 1);
    Ok(())
}

/// The second save fails: of its reply nothing is written. Then it is saved, and the message comes again.
fn is_saved_before_it_goes_on(rt: &impl Abort, encoder: &mut Encoder<RdsStore>) {
    let mut keeper = FaultyKeeper::new(2);
    let mut input = Meter::new(FaultyReader::new(&TWICE_AND_NEXT));
    let mut output = Meter::new(FaultyWriter::new());
    let served = serve_with(
        encoder,
        &mut keeper,
        &mut input,
        &mut output,
        &mut Unheard,
        64,
    );
    same!(*rt; served, Err(KeptFault::StateFailed));
    same!(*rt; output.into_inner().taken(), &ALL_APPLIED[..22]);
    same!(*rt; keeper.save(encoder, ()), Ok(()));
    let mut input = Meter::new(FaultyReader::new(&TWICE_AND_NEXT[16..]));
    let mut output = Meter::new(FaultyWriter::new());
    let served = serve_with(
        encoder,
        &mut keeper,
        &mut input,
        &mut output,
        &mut Unheard,
        64,
    );
    same!(*rt;
        served,
        Ok(Served {
            read: 8,
            replies: 1
        })
    );
    same!(*rt; keeper.saves, 3);
    same!(*rt; output.into_inner().taken(), &ALL_APPLIED[22..]);
}

#[test]
fn a_failed_save_writes_nothing(rt: HostRuntime) -> Result<(), Fail> {
    let mut encoder = new_store_encoder(rt.alloc(), 1)?;
    is_saved_before_it_goes_on(&rt, &mut encoder);
    Ok(())
}

/// Two groups wait: the first take is saved, and the second is not.
fn hands_out_what_is_saved(rt: &impl Abort, encoder: &mut Encoder<RdsStore>) {
    let group = [0x24, 0x00, 0x43, 0x12, 0x34, 0x56, 0x78];
    holds!(*rt; comes_to(encoder, 0x01, &group, 0x00));
    holds!(*rt; comes_to(encoder, 0x02, &group, 0x00));
    let mut keeper = FaultyKeeper::new(2);
    let taken = take_kept(encoder, &mut keeper);
    same!(*rt;
        taken.map(|group| group.map(|group| group.block4)),
        Ok(Some(0x5678))
    );
    same!(*rt; take_kept(encoder, &mut keeper), Err(SaveFailed));
    same!(*rt; keeper.saves, 2);
}

#[test]
fn a_group_is_handed_out_once_it_is_saved(rt: HostRuntime) -> Result<(), Fail> {
    let mut encoder = new_store_encoder(rt.alloc(), 1)?;
    hands_out_what_is_saved(&rt, &mut encoder);
    Ok(())
}

/// One connection is served, and there is no other.
fn serves_one(rt: &impl Abort, encoder: &mut Encoder<RdsStore>) {
    let mut keeper = FaultyKeeper::new(0);
    let mut connect = OneConnection {
        input: Some(FaultyReader::new(&TWICE_AND_NEXT)),
        output: None,
    };
    let ended = serve_connection_with(encoder, &mut keeper, &mut Unheard, 64, &mut connect);
    same!(*rt; ended, Some(Ok(ALL)));
    let ended = serve_connection_with(encoder, &mut keeper, &mut Unheard, 64, &mut connect);
    same!(*rt; ended, None);
    same!(*rt; keeper.saves, 2);
    let output = connect.output.expect(rt, "the output");
    same!(*rt; output.taken(), ALL_APPLIED.as_slice());
}

#[test]
fn a_connection_is_served_and_kept(rt: HostRuntime) -> Result<(), Fail> {
    let mut encoder = new_store_encoder(rt.alloc(), 1)?;
    serves_one(&rt, &mut encoder);
    Ok(())
}
