//! A reader or a writer whose calls are counted. Source: profile.
ghost use Rattle.std.specs.Prelude.{◌≡◌, ◌<◌, ◌≤◌, ◌+◌, ◌^◌, length, take, OnOk, IfOk, IfErr};
ghost use Rattle.std.specs.Io.{ReadsAtMost, WritesAtMost};
ghost use Rattle.std.specs.Io.KnownBytes.{Appends, ReadConsumes, WriteAppends};
ghost use Rattle.uecp_encoder.specs.Metered.{counted, failures_after, empty_after};

use std::io::{Read, Write};
use std::marker::Model;
use thiserror::Error;

/// A call of a meter moved nothing: its device failed, or a write took no byte.
#[derive(Clone, Copy, Debug, PartialEq, Eq, Error)]
#[error("the device failed, or took no byte")]
pub struct Failed;

/// A reader or a writer, with how often it was called, how often it failed, and how often a read brought nothing. It is
/// the one way to its device. Contracts see it as one value, `Metered`.
#[derive(Drop)]
pub struct Meter<D> {
    device: D,
    calls: u128,
    failures: u128,
    empty: u128,
}

impl<D> Model for Meter<D> {
    ghost use Rattle.uecp_encoder.specs.Metered.{Metered, metered_code};

    ghost Value = { Metered D };

    ghost coded = { metered_code D.code };

    ghost view = { λ m. record { device = m.device; calls = m.calls; failures = m.failures; empty = m.empty } };
}

impl<D> Meter<D> {
    /// The device, not called yet.
    pub fn new(device: D) -> Meter<D>
        ensures device { result.device ≡ device }
        ensures calls { result.calls ≡ 0 }
        ensures failures { result.failures ≡ 0 }
        ensures empty { result.empty ≡ 0 }
    {
        Meter {
            device,
            calls: 0,
            failures: 0,
            empty: 0,
        }
    }

    /// The device back.
    pub fn into_inner(self) -> D
        ensures { result ≡ self.device }
    {
        let Meter {
            device,
            calls: _,
            failures: _,
            empty: _,
        } = self;
        device
    }

    /// How many reads or writes were made. At its greatest value it stays.
    pub fn calls(&self) -> u128
        ensures { result ≡ self.now.calls }
    {
        self.calls
    }

    /// How many of them failed. At its greatest value it stays.
    pub fn failures(&self) -> u128
        ensures { result ≡ self.now.failures }
    {
        self.failures
    }

    /// How many reads brought nothing: the input was at its end. At its greatest value it stays.
    pub fn empty(&self) -> u128
        ensures { result ≡ self.now.empty }
    {
        self.empty
    }
}

impl<D: Read> Meter<D> {
    /// Makes one read of the device; that it is one is only tested. The caller knows that the buffer is not empty; 0 is
    /// the end of input.
    pub fn read(&mut self, buffer: &mut [u8]) -> Result<usize, Failed>
        requires { 0 < length buffer.old }
        ensures within { ReadsAtMost result buffer.new }
        ensures bytes { ReadConsumes (D.remaining self.old.device) (D.remaining self.new.device) result buffer.new }
        ensures calls { self.new.calls ≡ counted self.old.calls }
        ensures failures { self.new.failures ≡ failures_after result self.old.failures }
        ensures empty { self.new.empty ≡ empty_after result self.old.empty }
    {
        self.calls = self.calls.saturating_add(1);
        match self.device.read(buffer) {
            Ok(0) => {
                self.empty = self.empty.saturating_add(1);
                Ok(0)
            }
            Ok(count) => Ok(count),
            Err(_) => {
                self.failures = self.failures.saturating_add(1);
                Err(Failed)
            }
        }
    }
}

impl<D: Write> Meter<D> {
    /// Makes one write of the device (that it is one is only tested), which takes at least one byte, or failed. The
    /// caller knows that there are bytes.
    pub fn write(&mut self, bytes: &[u8]) -> Result<usize, Failed>
        requires { 0 < length bytes.now }
        ensures within { WritesAtMost result bytes.now }
        ensures moves { IfOk result (λ n. 0 < n) }
        ensures bytes { WriteAppends (D.contents self.old.device) (D.contents self.new.device) result bytes.now }
        ensures calls { self.new.calls ≡ counted self.old.calls }
        ensures failures { self.new.failures ≡ failures_after result self.old.failures }
        ensures empty { self.new.empty ≡ self.old.empty }
    {
        self.calls = self.calls.saturating_add(1);
        match self.device.write(bytes) {
            Ok(0) | Err(_) => {
                self.failures = self.failures.saturating_add(1);
                Err(Failed)
            }
            Ok(count) => Ok(count),
        }
    }

    /// Writes all of the bytes, by as many writes as it takes, one for each byte at most, or says how many of them were
    /// written before one failed.
    pub fn write_whole(&mut self, bytes: &[u8]) -> Result<(), usize>
        ensures ok { OnOk result (Appends (D.contents self.old.device) (D.contents self.new.device) bytes.now) }
        ensures err { IfErr result (λ w. (w < length bytes.now)
            × Appends (D.contents self.old.device) (D.contents self.new.device) (take w bytes.now)) }
        ensures calls { self.old.calls + length bytes.now < 2 ^ 128
            → (self.old.calls ≤ self.new.calls) × (self.new.calls ≤ self.old.calls + length bytes.now) }
        ensures failures { self.new.failures ≡ failures_after result self.old.failures }
        ensures empty { self.new.empty ≡ self.old.empty }
    {
        let mut at = 0;
        while at < bytes.len() {
            match self.write(&bytes[at..]) {
                Err(Failed) => return Err(at),
                Ok(count) => at += count,
            }
        }
        Ok(())
    }
}
