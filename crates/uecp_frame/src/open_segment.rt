//! The segment that has not ended: where it begins, where it ends, and what it is then. Source: RDS Forum SPB 490,
//! frame format; profile for the order of the faults.
use crate::address::Address;
use crate::fault::FrameFault;
use crate::frame::{END, PlainBytes, START};
use crate::search::first_start;
use crate::verdict::judge;

/// What bytes ended. Of a frame, the plain bytes stand in the segment.
#[derive(Clone, Copy, Debug)]
pub(crate) enum Ended {
    Nothing,
    Frame,
    Refused(FrameFault),
}

/// How far a piece was used, and what that ended.
#[derive(Clone, Copy, Debug)]
pub(crate) struct Advanced {
    pub(crate) used: usize,
    pub(crate) ended: Ended,
}

/// The segment that has not ended, as far as it was read; or the frame that ended last.
#[derive(Debug, Drop)]
pub(crate) struct OpenSegment {
    /// Whether an FE came that no FE or FF has ended.
    pub(crate) is_open: bool,
    /// The fault, once it is certain.
    pub(crate) fault: Option<FrameFault>,
    /// The plain bytes up to there.
    pub(crate) plain: PlainBytes,
    /// Whether an FD came whose next byte has yet to come.
    pub(crate) is_escaping: bool,
    /// How many bytes the plain ones were sent as.
    pub(crate) sent: usize,
    /// The address of the frame that ended last, for lending it: a deframer lends one part of itself.
    pub(crate) address: Address,
}

impl OpenSegment {
    ghost use Rattle.std.specs.Prelude.{◌≡◌, ◌≤◌, ◌<◌, ◌↔◌, true, false, [], length, slice_index, IsTrue};
    ghost use Rattle.uecp_frame.specs.declared.fed.Found.TheVariants.{Nothing, Refused};
    ghost use Rattle.uecp_frame.specs.declared.fault.FrameFault.TheVariants.{Unended};
    ghost use Rattle.uecp_frame.specs.Findings.{Closed, Part};
    ghost use Rattle.uecp_frame.specs.Beyond.{closing, unended};
    ghost use Rattle.uecp_frame.specs.Feeding.{Feeds, findings_of};
    ghost use Rattle.uecp_frame.specs.OpenSegment.{inside_of, part_of, IsOpenSegment, found_ended, fed_ended, IsWhole};
    ghost use Rattle.uecp_frame.specs.OpenSegment.{Takes, TakesPlain};

    /// No segment is open.
    pub(crate) fn new() -> OpenSegment
        ensures part { part_of result ≡ Closed }
        ensures kept { IsOpenSegment result }
    {
        OpenSegment {
            is_open: false,
            fault: None,
            plain: PlainBytes::new(),
            is_escaping: false,
            sent: 0,
            address: Address::from_value(0),
        }
    }

    /// Another one that will find the same.
    pub(crate) fn copy(&self) -> OpenSegment
        requires { IsOpenSegment self.now }
        ensures part { part_of result ≡ part_of self.now }
        ensures kept { IsOpenSegment result }
    {
        let mut plain = PlainBytes::new();
        match plain.try_extend_from_slice(self.plain.as_slice()) {
            Ok(()) => OpenSegment {
                is_open: self.is_open,
                fault: self.fault,
                plain,
                is_escaping: self.is_escaping,
                sent: self.sent,
                address: self.address,
            },
            Err(_) => unreachable!(),
        }
    }

    /// Forgets a segment that has not ended.
    pub(crate) fn close(&mut self)
        requires { IsOpenSegment self.old }
        ensures part { part_of self.new ≡ Closed }
        ensures kept { IsOpenSegment self.new }
    {
        self.is_open = false;
    }

    /// Where a segment is open and the piece begins with FE, ends it and opens the next. Tells whether it did.
    #[inline(always)]
    pub(crate) fn end_at_once(&mut self, piece: &[u8]) -> bool
        requires { IsOpenSegment self.old }
        ensures when { IsTrue result ↔ ((self.old.is_open ≡ true) × (0 < length piece.now)
            × (slice_index piece.now 0 ≡ 254)) }
        ensures yes { IsTrue result → Feeds (part_of self.old) piece.now (record { used = 1; found = Refused Unended })
            (part_of self.new) }
        ensures no { result ≡ false → self.new ≡ self.old }
        ensures kept { IsOpenSegment self.new }
    {
        if self.is_open && !piece.is_empty() && piece[0] == START {
            self.open();
            return true;
        }
        false
    }

    /// Adds the one byte of a piece that is a plain one more. Tells whether it did.
    #[inline(always)]
    pub(crate) fn add_at_once(&mut self, piece: &[u8]) -> bool
        requires { IsOpenSegment self.old }
        ensures when { IsTrue result ↔ ((length piece.now ≡ 1) × TakesPlain self.old (slice_index piece.now 0)) }
        ensures yes { IsTrue result → Feeds (part_of self.old) piece.now (record { used = 1; found = Nothing })
            (part_of self.new) }
        ensures no { result ≡ false → self.new ≡ self.old }
        ensures kept { IsOpenSegment self.new }
    {
        if let [byte] = piece
            && self.takes_plain(*byte)
        {
            self.add_one(*byte);
            return true;
        }
        false
    }

    /// Uses the bytes of the piece up to and with the one that ends a segment, or all where none does.
    pub(crate) fn advance(&mut self, piece: &[u8]) -> Advanced
        requires { IsOpenSegment self.old }
        ensures fits { result.used ≤ length piece.now }
        ensures moves { 0 < length piece.now → 0 < result.used }
        ensures feeds { Feeds (part_of self.old) piece.now (fed_ended result self.new.plain.items) (part_of self.new) }
        ensures whole { IsWhole result.ended self.new.plain.items }
        ensures kept { IsOpenSegment self.new }
    {
        let mut used = 0;
        while used < piece.len() {
            let taken = self.take(&piece[used..]);
            used += taken.used;
            match taken.ended {
                Ended::Nothing => {}
                ended => return Advanced { used, ended },
            }
        }
        Advanced {
            used,
            ended: Ended::Nothing,
        }
    }

    /// Takes the next byte of the stream, or a run of bytes that end nothing, and tells what the last of them ended.
    fn take(&mut self, rest: &[u8]) -> Advanced
        requires kept { IsOpenSegment self.old }
        requires some { 0 < length rest.now }
        ensures takes { Takes (part_of self.old) rest.now (fed_ended result self.new.plain.items) (part_of self.new) }
        ensures whole { IsWhole result.ended self.new.plain.items }
        ensures kept { IsOpenSegment self.new }
    {
        let byte = rest[0];
        if byte == START {
            return Advanced {
                used: 1,
                ended: self.open(),
            };
        }
        if !self.is_open {
            return Advanced {
                used: first_start(rest),
                ended: Ended::Nothing,
            };
        }
        if byte == END {
            self.is_open = false;
            return Advanced {
                used: 1,
                ended: self.judged(),
            };
        }
        Advanced {
            used: self.keep(rest),
            ended: Ended::Nothing,
        }
    }

    /// Opens a segment at an FE, which ends one that was open.
    #[inline(always)]
    fn open(&mut self) -> Ended
        requires { IsOpenSegment self.old }
        ensures ended { findings_of (found_ended result self.new.plain.items) ≡ unended (part_of self.old) }
        ensures part { part_of self.new ≡ Part (record { plain = []; rest = [] }) }
        ensures whole { IsWhole result self.new.plain.items }
        ensures kept { IsOpenSegment self.new }
    {
        let was_open = self.is_open;
        self.is_open = true;
        self.fault = None;
        self.plain.clear();
        self.is_escaping = false;
        self.sent = 0;
        if was_open {
            Ended::Refused(FrameFault::Unended)
        } else {
            Ended::Nothing
        }
    }

    /// What a segment is at its FF.
    fn judged(&self) -> Ended
        requires { IsOpenSegment self.now }
        ensures findings { closing (inside_of self.now.fault self.now.plain.items self.now.is_escaping) [] 255
            ≡ findings_of (found_ended result self.now.plain.items) }
        ensures whole { IsWhole result self.now.plain.items }
    {
        match self.fault {
            Some(fault) => Ended::Refused(fault),
            None => {
                if self.is_escaping {
                    return Ended::Refused(FrameFault::BadStuffing(1 + self.sent));
                }
                match judge(self.plain.as_slice()) {
                    Ok(()) => Ended::Frame,
                    Err(fault) => Ended::Refused(fault),
                }
            }
        }
    }
}
