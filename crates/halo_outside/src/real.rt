// Files, a source and a sink over std. They tell nothing of content, and count std's errors.
ghost use Rattle.std.specs.Prelude.{◌≡◌, ◌<◌, ◌≤◌, [], length, None, IfOk, OnOk, OnErr, IsErrOf};
ghost use Rattle.halo_outside.specs.Seen.{count_after, RoseBeyond};

use crate::{Failed, FileFault, Files, Sink, Source};
use std::alloc::Global;
use std::fs;
use std::io::{Read, Write};
use std::marker::Model;

/// The files that the runtime opens by their paths. Contracts see the two counts: `faults`, of
/// reads that failed, and `taken`, of bytes.
#[derive(Drop)]
pub struct RealFiles<'a, R: std::rt::Files> {
    rt: &'a R,
    faults: u64,
    taken: u64,
}

impl<'a, R: std::rt::Files> Model for RealFiles<'a, R> {
    ghost use Rattle.halo_outside.specs.Real.{RealCounts};

    ghost Value = { RealCounts };

    ghost view = { λ real. record { faults = real.faults; taken = real.taken } };
}

impl<'a, R: std::rt::Files> RealFiles<'a, R> {
    /// The files of the runtime `rt`.
    pub fn new(rt: &'a R) -> Self
        ensures { ⟦<RealFiles<'a, R> as Files>⟧.seen result
            ≡ record { told = None; faults = 0; taken = 0 } }
    {
        RealFiles {
            rt,
            faults: 0,
            taken: 0,
        }
    }
}

impl<R: std::rt::Files> Files for RealFiles<'_, R> {
    ghost seen = { λ real. record { told = None; faults = real.faults; taken = real.taken } };

    fn read(&mut self, alloc: Global, name: &str, limit: usize) -> Result<Vec<u8>, FileFault>
        ensures later { self.old.faults ≤ self.new.faults }
        ensures fault { IsErrOf result FileFault.Failed
            → self.new.faults ≡ count_after self.old.faults 1 }
        ensures no_fault { ¬ IsErrOf result FileFault.Failed → self.new.faults ≡ self.old.faults }

        ensures bound { IfOk result (λ bytes. length bytes.items ≤ limit) }
        ensures more { self.old.taken ≤ self.new.taken }
        ensures counted { IfOk result (λ bytes.
            self.new.taken ≡ count_after self.old.taken (length bytes.items)) }
        ensures too_long { IsErrOf result FileFault.TooLong →
            RoseBeyond limit self.old.taken self.new.taken }
    {
        let outcome = match fs::open(self.rt, name) {
            Ok(mut file) => read_to_end(&mut file, alloc, limit, &mut self.taken),
            Err(_) => Err(FileFault::Failed),
        };
        if let Err(FileFault::Failed) = &outcome {
            self.faults = self.faults.saturating_add(1);
        }
        outcome
    }
}

// All bytes of a reader, at most `limit`. It stops as soon as more were taken.
fn read_to_end<R: Read>(
    file: &mut R,
    alloc: Global,
    limit: usize,
    taken: &mut u64,
) -> Result<Vec<u8>, FileFault>
    ensures more { taken.old ≤ taken.new }
    ensures bound { IfOk result (λ bytes. length bytes.items ≤ limit) }
    ensures counted { IfOk result (λ bytes.
        taken.new ≡ count_after taken.old (length bytes.items)) }
    ensures too_long { IsErrOf result FileFault.TooLong → RoseBeyond limit taken.old taken.new }
{
    let _start = *taken;
    let mut bytes = Vec::new(alloc);
    let mut piece = [0; 4096];
    loop {
        let count = file.read(&mut piece).map_err(|_| FileFault::Failed)?;
        if count == 0 {
            return Ok(bytes);
        }
        *taken = taken.saturating_add(count as u64);
        if count > limit - bytes.len() {
            return Err(FileFault::TooLong);
        }
        bytes
            .extend_from_slice(&piece[..count])
            .map_err(|_| FileFault::Memory)?;
    }
}

/// A source over a reader of std. Contracts see the two counts: `faults`, of reads that failed, and
/// `taken`, of bytes.
#[derive(Drop)]
pub struct RealSource<R: Read> {
    inner: R,
    faults: u64,
    taken: u64,
}

impl<R: Read> Model for RealSource<R> {
    ghost use Rattle.halo_outside.specs.Real.{RealCounts};

    ghost Value = { RealCounts };

    ghost view = { λ real. record { faults = real.faults; taken = real.taken } };
}

impl<R: Read> RealSource<R> {
    /// A source over `inner`.
    pub fn new(inner: R) -> Self
        ensures { ⟦<RealSource<R> as Source>⟧.seen result
            ≡ record { told = None; faults = 0; taken = 0 } }
    {
        RealSource {
            inner,
            faults: 0,
            taken: 0,
        }
    }
}

impl<R: Read> Source for RealSource<R> {
    ghost seen = { λ real. record { told = None; faults = real.faults; taken = real.taken } };

    fn read(&mut self, into: &mut [u8]) -> Result<usize, Failed>
        ensures later { self.old.faults ≤ self.new.faults }
        ensures fault { OnErr result (self.new.faults ≡ count_after self.old.faults 1) }
        ensures no_fault { OnOk result (self.new.faults ≡ self.old.faults) }

        ensures within { IfOk result (λ count. count ≤ length into.old) }
        ensures more { self.old.taken ≤ self.new.taken }
        ensures counted { IfOk result (λ count. self.new.taken ≡ count_after self.old.taken count) }
        ensures none_taken { OnErr result (self.new.taken ≡ self.old.taken) }
    {
        match self.inner.read(into) {
            Ok(count) => {
                self.taken = self.taken.saturating_add(count as u64);
                Ok(count)
            }
            Err(_) => {
                self.faults = self.faults.saturating_add(1);
                Err(Failed)
            }
        }
    }
}

/// A sink over a writer of std. A writer that takes nothing of a piece that isn't empty has failed.
/// Contracts see the count of failed writes.
#[derive(Drop)]
pub struct RealSink<W: Write> {
    inner: W,
    faults: u64,
}

impl<W: Write> Model for RealSink<W> {
    ghost use Rattle.std.specs.Prelude.{ℕ};

    ghost Value = { ℕ };

    ghost view = { λ real. real.faults };
}

impl<W: Write> RealSink<W> {
    /// A sink over `inner`.
    pub fn new(inner: W) -> Self
        ensures { ⟦<RealSink<W> as Sink>⟧.seen result ≡ record { told = None; faults = 0 } }
    {
        RealSink { inner, faults: 0 }
    }
}

impl<W: Write> Sink for RealSink<W> {
    ghost seen = { λ faults. record { told = None; faults = faults } };

    fn write(&mut self, piece: &[u8]) -> Result<usize, Failed>
        ensures later { self.old ≤ self.new }
        ensures fault { OnErr result (self.new ≡ count_after self.old 1) }
        ensures no_fault { OnOk result (self.new ≡ self.old) }

        ensures within { IfOk result (λ count. count ≤ length piece.now) }
        ensures some { IfOk result (λ count. 0 < length piece.now → 0 < count) }
        ensures empty { piece.now ≡ [] → result ≡ Ok 0 }
    {
        if piece.is_empty() {
            return Ok(0);
        }
        match self.inner.write(piece) {
            Ok(count) if count > 0 => Ok(count),
            _ => {
                self.faults = self.faults.saturating_add(1);
                Err(Failed)
            }
        }
    }
}
