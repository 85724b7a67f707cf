//! The bytes of an open segment, taken out of their stuffing as they come. Source: RDS Forum SPB 490, byte stuffing;
//! profile for the order of the faults.
ghost use Rattle.std.specs.Prelude.{◌≡◌, ◌≤◌, ◌<◌, ◌↔◌, ℕ, false, true, None, [], ◌∷◌, length, take, slice_index};
ghost use Rattle.std.specs.Prelude.{IsTrue};
ghost use Rattle.uecp_frame.specs.Findings.{Part};
ghost use Rattle.uecp_frame.specs.Beyond.{prolonged};
ghost use Rattle.uecp_frame.specs.OpenSegment.{inside_of, IsOpenSegment, TakesPlain};

use crate::fault::FrameFault;
use crate::frame::{ESCAPE, START, STUFFED};
use crate::open_segment::OpenSegment;
use crate::search::run_below;

impl OpenSegment {
    /// Reads the next byte of an open segment, which is no FE and no FF, or the run of bytes that begins with it.
    /// Answers how many were read.
    pub(crate) fn keep(&mut self, rest: &[u8]) -> usize
        requires kept { IsOpenSegment self.old }
        requires some { 0 < length rest.now }
        requires other { slice_index rest.now 0 < 254 }
        ensures some { 0 < result }
        ensures fits { result ≤ length rest.now }
        ensures inside { (k : ℕ) → k < result → slice_index rest.now k < 254 }
        ensures part { prolonged (inside_of self.old.fault self.old.plain.items self.old.is_escaping)
            (take result rest.now) ≡ inside_of self.new.fault self.new.plain.items self.new.is_escaping }
        ensures open { self.new.is_open ≡ self.old.is_open }
        ensures kept { IsOpenSegment self.new }
    {
        match self.fault {
            Some(_) => run_below(START, rest),
            None => {
                if self.is_escaping {
                    self.unescape(rest[0]);
                    return 1;
                }
                if rest[0] == ESCAPE {
                    return self.keep_escape(rest);
                }
                let run = run_below(ESCAPE, rest);
                self.add(&rest[..run]);
                run
            }
        }
    }

    /// Reads an FD: with the byte after it where the two stand for a plain byte, and with as many more such pairs as
    /// follow at once and fit; else alone.
    fn keep_escape(&mut self, rest: &[u8]) -> usize
        requires kept { IsOpenSegment self.old }
        requires certain { self.old.fault ≡ None }
        requires plain { self.old.is_escaping ≡ false }
        requires some { 0 < length rest.now }
        requires escape { slice_index rest.now 0 ≡ 253 }
        ensures some { 0 < result }
        ensures fits { result ≤ length rest.now }
        ensures inside { (k : ℕ) → k < result → slice_index rest.now k < 254 }
        ensures part { prolonged (Part (record { plain = self.old.plain.items; rest = [] })) (take result rest.now)
            ≡ inside_of self.new.fault self.new.plain.items self.new.is_escaping }
        ensures open { self.new.is_open ≡ self.old.is_open }
        ensures kept { IsOpenSegment self.new }
    {
        let mut used = 0;
        while rest.len() - used >= 2
            && rest[used] == ESCAPE
            && rest[used + 1] < STUFFED
            && !self.plain.is_full()
        {
            self.plain.push(ESCAPE + rest[used + 1]);
            self.sent += 2;
            used += 2;
        }
        if used == 0 {
            self.escape();
            return 1;
        }
        used
    }

    /// Reads an FD.
    fn escape(&mut self)
        requires kept { IsOpenSegment self.old }
        requires certain { self.old.fault ≡ None }
        requires plain { self.old.is_escaping ≡ false }
        ensures part { prolonged (Part (record { plain = self.old.plain.items; rest = [] })) (253 ∷ [])
            ≡ inside_of self.new.fault self.new.plain.items self.new.is_escaping }
        ensures room { self.new.is_escaping ≡ true → self.new.fault ≡ None }
        ensures open { self.new.is_open ≡ self.old.is_open }
        ensures kept { IsOpenSegment self.new }
    {
        if self.plain.is_full() {
            self.fault = Some(FrameFault::TooLong);
        } else {
            self.is_escaping = true;
        }
    }

    /// Reads the byte after an FD.
    fn unescape(&mut self, byte: u8)
        requires kept { IsOpenSegment self.old }
        requires certain { self.old.fault ≡ None }
        requires escaping { self.old.is_escaping ≡ true }
        ensures part { prolonged (Part (record { plain = self.old.plain.items; rest = 253 ∷ [] })) (byte ∷ [])
            ≡ inside_of self.new.fault self.new.plain.items self.new.is_escaping }
        ensures open { self.new.is_open ≡ self.old.is_open }
        ensures kept { IsOpenSegment self.new }
    {
        if byte < STUFFED {
            self.plain.push(ESCAPE + byte);
            self.is_escaping = false;
            self.sent += 2;
        } else {
            self.fault = Some(FrameFault::BadStuffing(1 + self.sent));
        }
    }

    /// Whether the next byte is one below FD that is a plain one more, and there is room for it.
    #[inline(always)]
    pub(crate) fn takes_plain(&self, byte: u8) -> bool
        ensures { IsTrue result ↔ TakesPlain self.now byte }
    {
        byte < ESCAPE
            && self.is_open
            && self.fault.is_none()
            && !self.is_escaping
            && !self.plain.is_full()
    }

    /// Reads one byte below FD.
    #[inline(always)]
    pub(crate) fn add_one(&mut self, byte: u8)
        requires kept { IsOpenSegment self.old }
        requires takes { TakesPlain self.old byte }
        ensures part { prolonged (Part (record { plain = self.old.plain.items; rest = [] })) (byte ∷ [])
            ≡ inside_of self.new.fault self.new.plain.items self.new.is_escaping }
        ensures open { self.new.is_open ≡ self.old.is_open }
        ensures kept { IsOpenSegment self.new }
    {
        self.plain.push(byte);
        self.sent += 1;
    }

    /// Reads a run of bytes below FD.
    fn add(&mut self, run: &[u8])
        requires kept { IsOpenSegment self.old }
        requires certain { self.old.fault ≡ None }
        requires plain { self.old.is_escaping ≡ false }
        requires some { 0 < length run.now }
        requires below { (k : ℕ) → k < length run.now → slice_index run.now k < 253 }
        ensures part { prolonged (Part (record { plain = self.old.plain.items; rest = [] })) run.now
            ≡ inside_of self.new.fault self.new.plain.items self.new.is_escaping }
        ensures open { self.new.is_open ≡ self.old.is_open }
        ensures kept { IsOpenSegment self.new }
    {
        match self.plain.try_extend_from_slice(run) {
            Ok(()) => self.sent += run.len(),
            Err(_) => self.fault = Some(FrameFault::TooLong),
        }
    }
}
