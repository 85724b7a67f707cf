//! What a message is applied to, and what groups are taken from. Source: profile.
ghost use Rattle.std.specs.Prelude.{◌≡◌};
ghost use Rattle.uecp_encoder.specs.Target.{Step, Taken};
ghost use Rattle.rds_store.specs.Step.{step as store_step, group_taken};

use rds_store::{Group, RdsStore};
use uecp_elements::Code;

/// Something that messages are applied to, one after another, and that hands out groups to be sent. Contracts see its
/// value; `step` says what one message makes of it and `taken` what one take makes of it, and the law is that `apply`
/// and `take` do just that.
pub trait Target {
    // The next value and the code, from a value and a message.
    ghost step: { Step Self };

    // The next value and the group that goes out, if there is one, from a value.
    ghost taken: { Taken Self };

    /// Applies a message (at most 255 bytes), and answers the code for the reply. It refuses nothing outside its code,
    /// and takes no memory.
    fn apply(&mut self, message: &[u8]) -> Code
        ensures { (self.new, result) ≡ step self.old message.now };

    /// Removes the group that is to go out next, and gives it, or None where there is none. It takes no memory.
    fn take(&mut self) -> Option<Group>
        ensures { (self.new, result) ≡ taken self.old };
}

impl Target for RdsStore {
    ghost step = { store_step };

    ghost taken = { group_taken };

    fn apply(&mut self, message: &[u8]) -> Code {
        RdsStore::apply(self, message)
    }

    fn take(&mut self) -> Option<Group> {
        self.take_group()
    }
}
