//! States in files, each at its path. Source: profile.
ghost use Rattle.std.specs.Prelude.{◌≡◌, true, false, None, is_some, IfOk, IsTrue};
ghost use Rattle.state_files.specs.Opening.{Closes};

use crate::open_states::OpenStates;
use rds_store::RdsStore;
use sqlite::FileStore;
use sqlite_disk::Disk;
use sqlite_image::{Names, OpenFiles};
use state_files::{
    EncoderFile, Found, READ_MAX, Saved, ServerFile, StateFault, TOGETHER_MAX, open_encoder,
    open_server, read_state,
};
use std::marker::PhantomData;
use uecp_encoder::{BatchLimits, Encoder, Keep, SaveFailed, SavedEncoder};
use uecp_frame::Address;
use uecp_link::Server;
use uecp_net::{Progress, SavedServer};

/// Keeps the state of an encoder in a file, as long as the file's name and that of its log lead to what was opened.
/// Once a save failed none is made any more.
#[derive(Drop)]
pub struct StoredEncoder<D: Disk, N> {
    file: EncoderFile<FileStore<D>>,
    names: N,
    /// Why a save failed, if one did, as far as it is known here.
    fault: Option<StateFault>,
}

impl<D: Disk, N> BatchLimits for StoredEncoder<D, N> {
    const READ_MAX: usize = READ_MAX;

    const TOGETHER_MAX: usize = TOGETHER_MAX;

    ghost READ_MAX = { ⟦<EncoderFile<FileStore<D>> as BatchLimits>⟧.READ_MAX };

    ghost TOGETHER_MAX = { ⟦<EncoderFile<FileStore<D>> as BatchLimits>⟧.TOGETHER_MAX };

    ghost reads_some = { ⟦<EncoderFile<FileStore<D>> as BatchLimits>⟧.reads_some };

    ghost reads_few = { ⟦<EncoderFile<FileStore<D>> as BatchLimits>⟧.reads_few };

    ghost answers_some = { ⟦<EncoderFile<FileStore<D>> as BatchLimits>⟧.answers_some };

    ghost answers_few = { ⟦<EncoderFile<FileStore<D>> as BatchLimits>⟧.answers_few };
}

impl<D: Disk, N: Names> Keep<SavedEncoder<RdsStore>> for StoredEncoder<D, N> {
    ghost use Rattle.std.specs.Prelude.{◌≡◌, ◌⊎◌, true, is_some};

    ghost leaves = { λ m. ⟦<EncoderFile<FileStore<D>> as Keep<SavedEncoder<RdsStore>>>⟧.leaves m.file };

    ghost is_clean = { λ m. ⟦<EncoderFile<FileStore<D>> as Keep<SavedEncoder<RdsStore>>>⟧.is_clean m.file };

    // the file was saved, and then the names led to it
    ghost saves = { λ m v n. ⟦<EncoderFile<FileStore<D>> as Keep<SavedEncoder<RdsStore>>>⟧.saves m.file v n.file
        × N.Names.lead m.names n.names };

    // it could not be saved; or it was, and the names led elsewhere: no other save is made
    ghost fails = { λ m v n. (⟦<EncoderFile<FileStore<D>> as Keep<SavedEncoder<RdsStore>>>⟧.fails m.file v n.file
        ⊎ ⟦<EncoderFile<FileStore<D>> as Keep<SavedEncoder<RdsStore>>>⟧.saves m.file v n.file)
        × (is_some n.fault ≡ true) };

    fn save(&mut self, encoder: &Encoder<RdsStore>, _progress: ()) -> Result<(), SaveFailed> {
        if !is_there(&self.names, &mut self.fault) {
            return Err(SaveFailed);
        }
        match self.file.save(encoder, ()) {
            Ok(()) => {
                if lead_there(&mut self.names, &mut self.fault) {
                    Ok(())
                } else {
                    Err(SaveFailed)
                }
            }
            Err(SaveFailed) => {
                self.fault = Some(StateFault::Failed);
                Err(SaveFailed)
            }
        }
    }
}

/// Keeps the state of a server in a file, in the same way.
#[derive(Drop)]
pub struct StoredServer<D: Disk, N> {
    file: ServerFile<FileStore<D>>,
    names: N,
    /// Why a save failed, if one did, as far as it is known here.
    fault: Option<StateFault>,
}

impl<D: Disk, N: Names> Keep<SavedServer> for StoredServer<D, N> {
    ghost use Rattle.std.specs.Prelude.{◌≡◌, ◌⊎◌, true, is_some};

    ghost leaves = { λ m. ⟦<ServerFile<FileStore<D>> as Keep<SavedServer>>⟧.leaves m.file };

    ghost is_clean = { λ m. ⟦<ServerFile<FileStore<D>> as Keep<SavedServer>>⟧.is_clean m.file };

    ghost saves = { λ m v n. ⟦<ServerFile<FileStore<D>> as Keep<SavedServer>>⟧.saves m.file v n.file
        × N.Names.lead m.names n.names };

    ghost fails = { λ m v n. (⟦<ServerFile<FileStore<D>> as Keep<SavedServer>>⟧.fails m.file v n.file
        ⊎ ⟦<ServerFile<FileStore<D>> as Keep<SavedServer>>⟧.saves m.file v n.file) × (is_some n.fault ≡ true) };

    fn save(&mut self, server: &Server, progress: Progress) -> Result<(), SaveFailed> {
        if !is_there(&self.names, &mut self.fault) {
            return Err(SaveFailed);
        }
        match self.file.save(server, progress) {
            Ok(()) => {
                if lead_there(&mut self.names, &mut self.fault) {
                    Ok(())
                } else {
                    Err(SaveFailed)
                }
            }
            Err(SaveFailed) => {
                self.fault = Some(StateFault::Failed);
                Err(SaveFailed)
            }
        }
    }
}

/// Whether a save can be made: none has failed, and the names lead to the file, which was not cut since the last one.
/// That they don't is noted.
fn is_there<N: Names>(names: &N, fault: &mut Option<StateFault>) -> bool
    ensures there { IsTrue result → (fault.old ≡ None) × ((after : N) × N.Names.lead names.now after) }
    ensures noted { result ≡ false → is_some fault.new ≡ true }
{
    if fault.is_some() {
        return false;
    }
    if names.would_lead() {
        return true;
    }
    note_loss(fault)
}

/// Whether the names lead to the file, now. That they don't is noted.
fn lead_there<N: Names>(names: &mut N, fault: &mut Option<StateFault>) -> bool
    ensures lead { IsTrue result → N.Names.lead names.old names.new }
    ensures noted { result ≡ false → is_some fault.new ≡ true }
{
    if names.lead() {
        return true;
    }
    note_loss(fault)
}

/// Notes that the names don't lead to the file, and says no.
fn note_loss(fault: &mut Option<StateFault>) -> bool
    ensures no { result ≡ false }
    ensures noted { is_some fault.new ≡ true }
{
    *fault = Some(StateFault::Replaced);
    false
}

/// A clean end, where no save had failed and the names lead to the file; else why not, and nothing more is written.
fn closed<D: Disk + Drop, N: Names + Drop, V>(
    file: Saved<FileStore<D>, V>,
    mut names: N,
    fault: Option<StateFault>,
) -> Result<(), StateFault>
    ensures { IfOk result (λ _. Closes file × (fault ≡ None) × ((after : N) × N.Names.lead names after)) }
{
    if let Some(fault) = fault {
        return Err(why_failed(file, fault));
    }
    if !names.lead() {
        return Err(StateFault::Replaced);
    }
    match file.close() {
        Ok(_files) => Ok(()),
        Err(fault) => Err(fault),
    }
}

/// Why a save failed: the file knows more of it, where that could not be saved.
fn why_failed<D: Disk + Drop, V>(file: Saved<FileStore<D>, V>, fault: StateFault) -> StateFault {
    match fault {
        StateFault::Replaced => fault,
        _ => match file.close() {
            Ok(_files) => fault,
            Err(fault) => fault,
        },
    }
}

/// Each state in a file of its own: what opening a path gives is what the file held, and a clean end leaves the state
/// in the file alone.
#[derive(Drop)]
pub struct StatesInFiles<D, F> {
    files: F,
    of: PhantomData<D>,
}

impl<D: Disk + Drop, F: OpenFiles<D>> StatesInFiles<D, F> {
    /// States in these files.
    pub fn new(files: F) -> StatesInFiles<D, F> {
        StatesInFiles {
            files,
            of: PhantomData,
        }
    }
}

impl<D: Disk + Drop, F: OpenFiles<D>> OpenStates for StatesInFiles<D, F> {
    ghost use Rattle.state_files.specs.Opening.{GivesEncoder, GivesServer, Finds, Closes};
    ghost use Rattle.std.specs.Prelude.{◌≡◌, None, IfOk};

    type EncoderKeeper = StoredEncoder<D, F::FileNames>;

    type ServerKeeper = StoredServer<D, F::FileNames>;

    ghost gives_encoder = { λ states path e k. GivesEncoder F.OpenFiles.holds states.files path e k.file };

    ghost gives_server = { λ states path s progress k.
        GivesServer F.OpenFiles.holds states.files path s progress k.file };

    // why one can't be opened, closed or read is not said
    ghost refuses_encoder = { λ states path fault. Unit {0} };

    ghost refuses_server = { λ states path fault. Unit {0} };

    // no save had failed, the names led to the file, and it was closed
    ghost closes_encoder = { λ states k closed. IfOk closed (λ _. Closes k.file × (k.fault ≡ None)
        × ((names : F.FileNames) × F.FileNames.lead k.names names)) };

    ghost closes_server = { λ states k closed. IfOk closed (λ _. Closes k.file × (k.fault ≡ None)
        × ((names : F.FileNames) × F.FileNames.lead k.names names)) };

    ghost finds = { λ states path found. Finds F.OpenFiles.holds states.files path D D.Disk found };

    ghost hides = { λ states path fault. Unit {0} };

    fn open_encoder(
        &self,
        path: &str,
        address: Address,
        sets: u8,
        services: &[u8],
    ) -> Result<(Encoder<RdsStore>, StoredEncoder<D, F::FileNames>), StateFault> {
        match open_encoder(&self.files, path, address, sets, services) {
            Err(fault) => Err(fault),
            Ok((encoder, file)) => match self.files.names_of(path) {
                None => Err(StateFault::Replaced),
                Some(names) => {
                    let fault = None;
                    Ok((encoder, StoredEncoder { file, names, fault }))
                }
            },
        }
    }

    fn open_server(
        &self,
        path: &str,
        address: Address,
    ) -> Result<(Server, Progress, StoredServer<D, F::FileNames>), StateFault> {
        match open_server(&self.files, path, address) {
            Err(fault) => Err(fault),
            Ok((server, progress, file)) => match self.files.names_of(path) {
                None => Err(StateFault::Replaced),
                Some(names) => {
                    let fault = None;
                    Ok((server, progress, StoredServer { file, names, fault }))
                }
            },
        }
    }

    fn close_encoder(&self, encoder: StoredEncoder<D, F::FileNames>) -> Result<(), StateFault> {
        let StoredEncoder { file, names, fault } = encoder;
        closed(file, names, fault)
    }

    fn close_server(&self, server: StoredServer<D, F::FileNames>) -> Result<(), StateFault> {
        let StoredServer { file, names, fault } = server;
        closed(file, names, fault)
    }

    fn read_state(&self, path: &str) -> Result<Found, StateFault> {
        read_state(&self.files, path)
    }
}
