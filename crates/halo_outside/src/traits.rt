// What the program needs of the outside: named files, a source of bytes and a sink of bytes.
ghost use Rattle.std.specs.Prelude.{◌≡◌, ◌⊎◌, ℕ, ◌<◌, ◌≤◌, [], take, length, IfOk, OnErr, IsErr, IsErrOf, MatchResult};
ghost use Rattle.halo_outside.specs.Seen.{FilesSeen, SourceSeen, SinkSeen, count_after, Rose, IsToldAt, Lacks};
ghost use Rattle.halo_outside.specs.Seen.{IsLonger, IsTooLong, TellsAlike, Moves, Appends};

use crate::{Failed, FileFault};
use std::alloc::Global;

/// Named contents. What an object tells of them, and its counts of failures and of bytes taken, are
/// its `seen`. Counts stand still at the greatest u64.
pub trait Files {
    /// The contents, where they are told, with the counts `faults` and `taken`.
    ghost seen: { Self → FilesSeen };

    /// The whole contents of the file `name`, at most `limit` bytes.
    ///
    /// `Failed` means that the file is missing or couldn't be read, `TooLong` that it has more than
    /// `limit` bytes, and `Memory` that there was no memory for it. After `Memory` bytes may have
    /// been taken. Of told files with one name the first counts.
    fn read(&mut self, alloc: Global, name: &str, limit: usize) -> Result<Vec<u8>, FileFault>
        ensures same { (seen self.new).told ≡ (seen self.old).told }
        ensures later { (seen self.old).faults ≤ (seen self.new).faults }
        ensures more { (seen self.old).taken ≤ (seen self.new).taken }

        ensures bound { IfOk result (λ bytes. length bytes.items ≤ limit) }
        ensures whole { IfOk result (λ bytes. IsToldAt (seen self.old).told name.now bytes.items) }
        ensures counted { IfOk result (λ bytes.
            (seen self.new).taken ≡ count_after (seen self.old).taken (length bytes.items)) }

        ensures failed { IsErrOf result FileFault.Failed →
            Rose (seen self.old).faults (seen self.new).faults
            ⊎ Lacks (seen self.old).told name.now }
        ensures lacking { Lacks (seen self.old).told name.now → IsErrOf result FileFault.Failed }
        ensures lacking_keeps { Lacks (seen self.old).told name.now
            → seen self.new ≡ seen self.old }

        ensures too_long { IsErrOf result FileFault.TooLong →
            IsTooLong (seen self.old).told name.now limit
            (seen self.old).taken (seen self.new).taken }
        ensures longer { IsLonger (seen self.old).told name.now limit → IsErr result }

        ensures memory { IsErrOf result FileFault.Memory →
            (seen self.new).faults ≡ (seen self.old).faults };
}

/// Bytes that are read in order. What an object tells of the bytes left, and its counts of failures
/// and of bytes taken, are its `seen`. Counts stand still at the greatest u64.
pub trait Source {
    /// The bytes left, where they are told, with the counts `faults` and `taken`.
    ghost seen: { Self → SourceSeen };

    /// Moves some of the bytes left to the front of `into`, and answers their number. It answers 0
    /// where `into` is empty or nothing is left.
    fn read(&mut self, into: &mut [u8]) -> Result<usize, Failed>
        ensures tells { TellsAlike (seen self.old).told (seen self.new).told }
        ensures later { (seen self.old).faults ≤ (seen self.new).faults }
        ensures more { (seen self.old).taken ≤ (seen self.new).taken }

        ensures within { IfOk result (λ count. count ≤ length into.old) }
        ensures moved { IfOk result (λ count.
            Moves (seen self.old).told (seen self.new).told count into.old into.new) }
        ensures counted { IfOk result (λ count.
            (seen self.new).taken ≡ count_after (seen self.old).taken count) }

        ensures failed { OnErr result (Rose (seen self.old).faults (seen self.new).faults) }
        ensures kept { OnErr result ((seen self.new).told ≡ (seen self.old).told) }
        ensures none_taken { OnErr result ((seen self.new).taken ≡ (seen self.old).taken) };
}

/// A place that bytes are written to in order. What an object tells of the bytes written, and its
/// count of failures, are its `seen`. The count stands still at the greatest u64.
pub trait Sink {
    /// The bytes written, where they are told, with the count `faults`.
    ghost seen: { Self → SinkSeen };

    /// Appends some of the first bytes of `piece`, and answers their number: at least 1 of a piece
    /// that isn't empty.
    fn write(&mut self, piece: &[u8]) -> Result<usize, Failed>
        ensures tells { TellsAlike (seen self.old).told (seen self.new).told }
        ensures later { (seen self.old).faults ≤ (seen self.new).faults }

        ensures within { IfOk result (λ count. count ≤ length piece.now) }
        ensures some { IfOk result (λ count. 0 < length piece.now → 0 < count) }
        ensures appended { IfOk result (λ count.
            Appends (seen self.old).told (seen self.new).told (take count piece.now)) }
        ensures empty { piece.now ≡ [] → result ≡ Ok 0 }

        ensures failed { OnErr result (Rose (seen self.old).faults (seen self.new).faults) }
        ensures kept { OnErr result ((seen self.new).told ≡ (seen self.old).told) };
}
