//! What a station makes that a server sends to its encoder once it has joined: where each of its messages is
//! acknowledged with code 00, the encoder's store is what they make, whatever was lost on the line.
ghost use Rattle.promises.specs.StationLaws.{StationMade, SaidStationMade, StationIsIndependent};
ghost use Rattle.promises.specs.StationLaws.{JoinedThenTold, SaidStationIsApplied, StationSaysTheSame};
ghost use Rattle.promises.specs.StationLaws.{ToldByEvents, ToldIsMarked, StationIsOut};

use uecp_encoder::Target;
use uecp_net::Connections;

/// Over every list of line events from an encoder that is ready, as one that has joined, and a new server: once each of
/// the station's messages, and no other was sent, was told to be acknowledged with code 00, the encoder's store is what
/// they make of the store that it had, each applied once and in order, with the takes where they fell.
pub fn station_made<T: Target>()
    ensures { StationMade T.step T.taken }
{}

/// And where they are the messages that tell a store, and the encoder's has the same sets and services, it is that
/// store then, whatever it was before, but for the groups that were taken.
pub fn said_station_made()
    ensures { SaidStationMade }
{}

/// Such an encoder answers each of these messages with 00, whatever happens on the line, whatever groups are taken in
/// between, and however many of them were sent so far: a store that is told is never refused.
pub fn said_station_is_applied()
    ensures { SaidStationIsApplied }
{}

/// So it is from a pass on, over a connection that keeps the order of each direction and loses nothing but its end:
/// whatever happened to the encoder since it was new, once the replies to 81 and then FF were read, and then each
/// message that tells a store was acknowledged with 00, the encoder's store is that one.
pub fn joined_then_told()
    ensures { JoinedThenTold }
{}

/// So it is by the definitions alone, of two ends that are fed nothing but the bytes of any events: once each of the
/// messages that tell a store is acknowledged, with whatever code, the encoder has that store.
pub fn told_by_events()
    ensures { ToldByEvents }
{}

/// So two encoders with the same sets and services to which the same store was told have the same then, whatever they
/// had before, but for the groups that wait; and where groups were told, and none was taken, these too.
pub fn station_is_independent()
    ensures { StationIsIndependent }
{}

/// Of any other station, as one that somebody wrote, that does not hold: it may leave things unsaid. But of two
/// encoders to which it was told, and which had the same sets, services and current set, each value of a service is the
/// same then, or is at both as it was; and so are the texts, to which the same may have been added at both.
pub fn station_says_the_same()
    ensures { StationSaysTheSame }
{}

/// What a line tells of a number is what its server marks of the bytes that the reply to it brings: its code, under its
/// counter. No other event brings the server a mark.
pub fn told_is_marked<T: Target>()
    ensures { ToldIsMarked T.step T.taken }
{}

/// Where `run_live` of `sending` made a station, its messages went out under the counters of the numbers from 0
/// on, batch by batch from a complete pass, and each was told the code of the first mark with its counter that was read
/// on the connections of its batch. Where `station applied` is told, each of these codes is 00.
pub fn station_is_out<C: Connections>()
    ensures { StationIsOut C.opens C.closes C.Input.remaining C.Output.contents }
{}
