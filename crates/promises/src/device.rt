//! An encoder over its days, with its state in a file: connections, groups that go out, crashes and starts at any
//! moment.
ghost use Rattle.promises.specs.DeviceLives.{DaysAreOneLife, CallsAreEvents};
ghost use Rattle.promises.specs.DeviceRuns.{DeviceIsDays, AirIsDays};

use device_serving::Moments;
use rds_store::RdsStore;
use uecp_encoder::{BatchLimits, Keep, SavedEncoder, Target};
use uecp_net::Connections;

/// Over any number of connections, crashes and starts, each from what the file has, an encoder has lived once: its
/// store and its kept replies are what the messages that it applied and the groups that were taken make, one after
/// another, and each of these messages has the next counter behind the one before it. So no crash and no start has a
/// message applied twice or out of its turn; and where a byte of a reply was sent, what it replies to is among them.
pub fn days_are_one_life<T: Target>()
    ensures { DaysAreOneLife T.step T.taken }
{}

/// A call of `serve_with`, however it ended, is a read of such a day, of the encoder in memory; and whatever a crash
/// leaves within one is what a crash of such a day leaves, where what was kept at its start is the encoder.
pub fn calls_are_events<T: Target, K: Keep<SavedEncoder<T>> + BatchLimits>()
    ensures { CallsAreEvents K.TOGETHER_MAX K.READ_MAX T.step T.taken K.leaves K.is_clean K.saves K.fails }
{}

/// A run of `run_device`, however it ended, is some days of its encoder: reads of one connection after another.
pub fn device_is_days<K: Keep<SavedEncoder<RdsStore>> + BatchLimits, C: Connections>()
    ensures { DeviceIsDays K.TOGETHER_MAX K.READ_MAX K.leaves K.is_clean K.saves K.fails C.opens C.closes
        C.Input.remaining C.Output.contents }
{}

/// So is one of `run_on_air`: reads, and groups that were taken before they went out.
pub fn air_is_days<K: Keep<SavedEncoder<RdsStore>> + BatchLimits, M: Moments>()
    ensures { AirIsDays K.TOGETHER_MAX K.READ_MAX K.leaves K.is_clean K.saves K.fails M.waits M.closes M.sends
        M.Input.remaining M.Output.contents }
{}
