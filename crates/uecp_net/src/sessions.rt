//! An encoder over one connection after another. Source: profile.
ghost use Rattle.std.specs.Prelude.{◌≡◌, None, IfSome, IfNone};
ghost use Rattle.uecp_encoder.specs.Keeping.{Settled};
ghost use Rattle.uecp_encoder.specs.ServingWith.{StaysSettled, IsSaveFailed};
ghost use Rattle.uecp_net.specs.Sessions.{Serving, ServingTold};

use crate::connect::Connections;
use uecp_encoder::{
    BatchLimits, Encoder, Keep, KeptFault, Listener, Meter, NotSaved, SavedEncoder, ServeFault,
    Served, Target, Unheard, serve_with,
};

/// Serves the next connection and says how it ended, or answers None where there is none to be had. The encoder forgets
/// what the connection before left open, then [`serve`] is called once, and the two ends are given back.
///
/// ```
/// while let Some(outcome) = serve_connection(&mut encoder, 100_000, &mut listening) {
///     connections += 1;
/// }
/// ```
pub fn serve_connection<T: Target, C: Connections>(
    encoder: &mut Encoder<T>,
    turns: u32,
    connect: &mut C,
) -> Option<Result<Served, ServeFault>>
    ensures served { IfSome result (λ outcome. Serving T.step C.opens C.closes C.Input.remaining C.Output.contents turns
        encoder.old connect.old outcome encoder.new connect.new) }
    ensures none { IfNone result (C.opens connect.old None connect.new × (encoder.new ≡ encoder.old)) }
{
    match serve_connection_with(encoder, &mut NotSaved, &mut Unheard, turns, connect)? {
        Ok(served) => Some(Ok(served)),
        Err(KeptFault::Serve(fault)) => Some(Err(fault)),
        Err(KeptFault::StateFailed) => unreachable!(),
    }
}

/// Serves the next connection and says how it ended, or answers None where there is none to be had. The encoder forgets
/// what the connection before left open, the listener is told that one was opened, then [`serve_with`] is called once,
/// and the two ends are given back.
///
/// ```
/// while let Some(outcome) = serve_connection_with(
///     &mut encoder, &mut keeper, &mut listener, 100_000, &mut listening,
/// ) {
///     if outcome == Err(KeptFault::StateFailed) {
///         break;
///     }
/// }
/// ```
pub fn serve_connection_with<
    T: Target,
    K: Keep<SavedEncoder<T>> + BatchLimits,
    L: Listener,
    C: Connections,
>(
    encoder: &mut Encoder<T>,
    keeper: &mut K,
    listener: &mut L,
    turns: u32,
    connect: &mut C,
) -> Option<Result<Served, KeptFault>>
    ensures served { IfSome result (λ ended. ServingTold K.TOGETHER_MAX K.READ_MAX T.step K.leaves K.is_clean K.saves
        K.fails L.begins L.hears C.opens
        C.closes C.Input.remaining C.Output.contents turns encoder.old keeper.old listener.old connect.old ended
        encoder.new keeper.new listener.new connect.new) }
    // From here the next connection goes on.
    ensures settled { IfSome result (λ ended. Settled (K.leaves keeper.old) encoder.old → K.is_clean keeper.new
        → StaysSettled (K.leaves keeper.new) encoder.new ended) }
    ensures clean { K.is_clean keeper.new → K.is_clean keeper.old }
    ensures save_failed { IfSome result (λ ended. IsSaveFailed K.fails encoder.new keeper.new ended) }
    ensures none { IfNone result (C.opens connect.old None connect.new × (encoder.new ≡ encoder.old)
        × (keeper.new ≡ keeper.old) × (listener.new ≡ listener.old)) }
{
    let (input, output) = connect.open()?;
    encoder.line_lost();
    listener.begin();
    let mut input = Meter::new(input);
    let mut output = Meter::new(output);
    let ended = serve_with(encoder, keeper, &mut input, &mut output, listener, turns);
    connect.close(input.into_inner(), output.into_inner());
    Some(ended)
}
