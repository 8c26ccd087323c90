// A source and a sink that never fail.
ghost use Rattle.std.specs.Prelude.{◌≡◌, Some, None};

use crate::bytes_left::BytesLeft;
use crate::{Failed, Sink, Source};

/// A source in memory that never fails. It tells the bytes left.
#[derive(Debug, Drop)]
pub struct SureSource {
    left: BytesLeft,
    taken: u64,
}

impl SureSource {
    /// A source of `bytes`.
    pub fn new(bytes: Vec<u8>) -> SureSource
        ensures { ⟦<SureSource as Source>⟧.seen result
            ≡ record { told = Some bytes.items; faults = 0; taken = 0 } }
    {
        SureSource {
            left: BytesLeft::new(bytes),
            taken: 0,
        }
    }
}

impl Source for SureSource {
    ghost seen = { λ source. record { told = Some source.left; faults = 0; taken = source.taken } };

    fn read(&mut self, into: &mut [u8]) -> Result<usize, Failed> {
        let count = self.left.move_front(into, usize::MAX);
        self.taken = self.taken.saturating_add(count as u64);
        Ok(count)
    }
}

/// A sink that never fails, drops its bytes and tells nothing.
#[derive(Debug, Drop)]
pub struct SureSink;

impl SureSink {
    /// A sink that never fails.
    pub fn new() -> SureSink
        ensures { ⟦<SureSink as Sink>⟧.seen result ≡ record { told = None; faults = 0 } }
    {
        SureSink
    }
}

impl Sink for SureSink {
    ghost seen = { λ _. record { told = None; faults = 0 } };

    fn write(&mut self, piece: &[u8]) -> Result<usize, Failed> {
        Ok(piece.len())
    }
}
