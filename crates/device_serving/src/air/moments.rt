//! What a device on the air has to do next, and who it does it with. Source: profile.
ghost use Rattle.std.specs.Prelude.{Bool};
ghost use Rattle.rds_groups.specs.declared.group.Group.{Group as AirGroup};
ghost use Rattle.device_serving.specs.declared.air.moments.Moment.{Moment as MomentValue};

use rds_groups::Group;
use std::io::{Read, Write};

/// What is to be done next.
#[derive(Debug, Drop)]
pub enum Moment<I, O> {
    /// A connection came: its two ends. Only where none is open.
    Connected(I, O),
    /// Something came on the connection that is open, or its end, or nothing for so long that it is to be given up: a
    /// read does not wait.
    Readable,
    /// The next group is to go out.
    Due,
    /// There is nothing more to be waited for: nobody can be listened to any more.
    Over,
}

/// The edge of a device on the air: one wait for all that can come, and where its groups go.
pub trait Moments {
    /// Where a connection's bytes come from.
    type Input: Read + Drop;

    /// Where its bytes go.
    type Output: Write + Drop;

    // Whether a call that is told whether a connection is open may give this moment and leave this value.
    ghost waits: { Self → Bool → MomentValue Self.Input Self.Output → Self → Type 0 };

    // Whether it may be left so where it is given the two ends of a connection, as they are then.
    ghost closes: { Self → Self.Input → Self.Output → Self → Type 0 };

    // Whether it may be left so by sending a group.
    ghost sends: { Self → AirGroup → Self → Type 0 };

    /// Waits for what is to be done next.
    fn wait(&mut self, is_open: bool) -> Moment<Self::Input, Self::Output>
        ensures { waits self.old is_open result self.new };

    /// Takes the two ends of a connection back, which is done with.
    fn close(&mut self, input: Self::Input, output: Self::Output)
        ensures { closes self.old input output self.new };

    /// The group goes out to all who listen to the air, as far as they take it. It does not wait for any of them.
    fn send(&mut self, group: &Group)
        ensures { sends self.old group.now self.new };
}
