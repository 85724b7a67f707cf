//! Where the states of the two ends are kept. Source: profile.
ghost use Rattle.std.specs.Prelude.{◌≡◌, ℕ, List, Result, IsTrue, IfOk, IfErr};
ghost use Rattle.uecp_frame.specs.Address.{is_exact};
ghost use Rattle.rds_store.specs.Value.{Store};
ghost use Rattle.uecp_encoder.specs.State.{EncoderState};
ghost use Rattle.uecp_link.specs.Server.{ServerState};
ghost use Rattle.uecp_encoder.specs.Keeping.{Settled};
ghost use Rattle.uecp_net.specs.declared.saved.keep.Progress.{Progress};
ghost use Rattle.uecp_net.specs.Keeping.{IsKept};
ghost use Rattle.state_files.specs.Encoders.{IsDescribed};
ghost use Rattle.state_files.specs.declared.fault.StateFault.{StateFault};
ghost use Rattle.state_files.specs.declared.reading.Found.{Found};

use rds_store::RdsStore;
use state_files::{Found, StateFault};
use uecp_encoder::{BatchLimits, Encoder, Keep, SavedEncoder};
use uecp_frame::Address;
use uecp_link::Server;
use uecp_net::{Progress, SavedServer};

/// Opens the states of ends by their paths. What is refused is not overwritten.
pub trait OpenStates {
    /// Keeps the state of an encoder.
    type EncoderKeeper: Keep<SavedEncoder<RdsStore>> + BatchLimits + Drop;

    /// Keeps the state of a server.
    type ServerKeeper: Keep<SavedServer> + Drop;

    // Whether opening a path may give this encoder and its keeper.
    ghost gives_encoder: { Self → List ℕ → EncoderState Store → Self.EncoderKeeper → Type 0 };

    // Whether opening a path may give this server, so far, and its keeper.
    ghost gives_server: { Self → List ℕ → ServerState → Progress → Self.ServerKeeper → Type 0 };

    // Whether opening a path may give no encoder for this.
    ghost refuses_encoder: { Self → List ℕ → StateFault → Type 0 };

    // Whether opening a path may give no server for this.
    ghost refuses_server: { Self → List ℕ → StateFault → Type 0 };

    // Whether closing what keeps an encoder may end so.
    ghost closes_encoder: { Self → Self.EncoderKeeper → Result (Unit {0}) StateFault → Type 0 };

    // Whether closing what keeps a server may end so.
    ghost closes_server: { Self → Self.ServerKeeper → Result (Unit {0}) StateFault → Type 0 };

    // Whether reading a path may give this.
    ghost finds: { Self → List ℕ → Found → Type 0 };

    // Whether reading a path may give nothing for this.
    ghost hides: { Self → List ℕ → StateFault → Type 0 };

    /// The encoder that goes on from what is kept there, or a new one where nothing is, which is kept from then on.
    fn open_encoder(
        &self,
        path: &str,
        address: Address,
        sets: u8,
        services: &[u8],
    ) -> Result<(Encoder<RdsStore>, Self::EncoderKeeper), StateFault>
        requires { IsTrue (is_exact address) }
        ensures given { IfOk result (λ r. gives_encoder self.now path.now r.0 r.1) }
        ensures described { IfOk result (λ r. IsDescribed address sets services.now r.0) }
        ensures refused { IfErr result (refuses_encoder self.now path.now) }
        ensures settled { IfOk result (λ r. Self.EncoderKeeper.is_clean r.1
            → Settled (Self.EncoderKeeper.leaves r.1) r.0) };

    /// The server that goes on from what is kept there, with how far it has come; or a new one where nothing is, which
    /// is kept from then on.
    fn open_server(
        &self,
        path: &str,
        address: Address,
    ) -> Result<(Server, Progress, Self::ServerKeeper), StateFault>
        requires { IsTrue (is_exact address) }
        ensures given { IfOk result (λ r. gives_server self.now path.now r.0 r.1 r.2) }
        ensures address { IfOk result (λ r. r.0.address ≡ address) }
        ensures refused { IfErr result (refuses_server self.now path.now) }
        ensures settled { IfOk result (λ r. Self.ServerKeeper.is_clean r.2
            → IsKept (Self.ServerKeeper.leaves r.2) r.1 r.0) };

    /// A clean end of an encoder's state.
    fn close_encoder(&self, keeper: Self::EncoderKeeper) -> Result<(), StateFault>
        ensures { closes_encoder self.now keeper result };

    /// A clean end of a server's state.
    fn close_server(&self, keeper: Self::ServerKeeper) -> Result<(), StateFault>
        ensures { closes_server self.now keeper result };

    /// What is kept there. `Unreachable` for `NoFile` where there is no file.
    fn read_state(&self, path: &str) -> Result<Found, StateFault>
        ensures found { IfOk result (finds self.now path.now) }
        ensures hidden { IfErr result (hides self.now path.now) };
}
