//! What was said of a line (profile).
ghost use Rattle.std.specs.Prelude.{◌≡◌, ◌↔◌, true, IsTrue};
ghost use Rattle.live_edges.specs.Said.{Said as SaidValue, nothing_said, noted, IsNews};

use uecp_net::DialFault;

/// What is said of a line where it changes.
#[derive(Clone, Copy, Debug)]
pub(crate) enum Notice {
    /// There is a connection.
    There,
    /// It is lost.
    Lost,
    /// There is none to be had, and why, where that is known.
    Away(Option<DialFault>),
}

/// What was said of a line since the last reply that was waited for.
#[derive(Clone, Copy, Debug)]
pub(crate) struct Said {
    /// Whether it was said that there is a connection.
    there: bool,
    /// Whether it was said that it is lost.
    lost: bool,
    /// Why there is none to be had, as it was said last.
    away: Option<Option<DialFault>>,
}

impl Said {
    /// Nothing was said.
    pub(crate) fn new() -> Said
        ensures { result ≡ nothing_said }
    {
        Said {
            there: false,
            lost: false,
            away: None,
        }
    }

    /// Whether this is to be said, as it was not since the last reply. It is said from now on.
    pub(crate) fn takes(&mut self, notice: Notice) -> bool
        ensures news { IsTrue result ↔ IsNews self.old notice }
        ensures noted { self.new ≡ noted self.old notice }
    {
        match notice {
            Notice::There => !replaced(&mut self.there),
            Notice::Lost => !replaced(&mut self.lost),
            Notice::Away(why) => {
                let before = self.away;
                self.away = Some(why);
                before != Some(why)
            }
        }
    }
}

/// Sets a flag, and answers what it was.
fn replaced(flag: &mut bool) -> bool
    ensures before { result ≡ flag.old }
    ensures set { flag.new ≡ true }
{
    let before = *flag;
    *flag = true;
    before
}
