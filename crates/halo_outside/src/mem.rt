// Files, a source and a sink in memory, whose calls fail where their maker says so.
ghost use Rattle.std.specs.Prelude.{◌≡◌, ◌↔◌, ◌⊎◌, ◌<◌, ◌≤◌, ◌-◌, ◌++◌, [], Some, IsSome, IfOk, IfSome, IfNone, IsErr};
ghost use Rattle.std.specs.Prelude.{IsErrOf, OnOk, OnErr, min, max, length, take};
ghost use Rattle.halo_outside.specs.Seen.{contents_of, count_after, IsLonger, IsMoved};
ghost use Rattle.halo_outside.specs.Memory.{first_call, after_call, FailsNow, IsFull};

use crate::bytes_left::BytesLeft;
use crate::schedule::Schedule;
use crate::{Failed, FileFault, Files, Sink, Source};
use std::alloc::{AllocError, Global};
use std::marker::Model;

/// A file in memory. Contracts see the pair of the bytes of its name and its contents.
#[derive(Debug, Drop)]
pub struct Named {
    pub name: String,
    pub bytes: Vec<u8>,
}

impl Model for Named {
    ghost use Rattle.std.specs.Prelude.{List, ℕ, string_bytes};

    ghost Value = { List ℕ × List ℕ };

    ghost view = { λ file. (string_bytes file.name, file.bytes.items) };
}

// The bytes of the first of the files with this name.
fn find<'a>(files: &'a [Named], name: &str) -> Option<&'a [u8]>
    ensures found { IfSome result (λ bytes. contents_of files.now name.now ≡ Some bytes.now) }
    ensures lacking { IfNone result (contents_of files.now name.now ≡ None) }
{
    for file in files {
        if file.name.as_str() == name {
            return Some(&file.bytes);
        }
    }
    None
}

/// Files in memory, which tell their contents. Of two files with one name the first counts.
#[derive(Debug, Drop)]
pub struct MemFiles {
    files: Vec<Named>,
    schedule: Schedule,
    faults: u64,
    taken: u64,
}

impl Model for MemFiles {
    ghost use Rattle.halo_outside.specs.Memory.{FilesInMemory};

    ghost Value = { FilesInMemory };

    ghost view = { λ mem. record {
      files = mem.files.items;
      calls = mem.schedule;
      faults = mem.faults;
      taken = mem.taken;
    } };
}

impl MemFiles {
    /// Files whose calls with a number in `failing`, counted from 0, fail.
    ///
    /// A read of a missing name is no fault, also at such a call.
    pub fn new(files: Vec<Named>, failing: Vec<u64>) -> MemFiles
        ensures seen { ⟦<MemFiles as Files>⟧.seen result
            ≡ record { told = Some files.items; faults = 0; taken = 0 } }
        ensures calls { result.calls ≡ first_call failing.items }
    {
        MemFiles {
            files,
            schedule: Schedule::new(failing),
            faults: 0,
            taken: 0,
        }
    }
}

impl Files for MemFiles {
    ghost seen = { λ mem. record {
      told = Some mem.files;
      faults = mem.faults;
      taken = mem.taken;
    } };

    fn read(&mut self, alloc: Global, name: &str, limit: usize) -> Result<Vec<u8>, FileFault>
        ensures same { self.new.files ≡ self.old.files }
        ensures calls { self.new.calls ≡ after_call self.old.calls }

        ensures bound { IfOk result (λ bytes. length bytes.items ≤ limit) }
        ensures whole { IfOk result (λ bytes.
            contents_of self.old.files name.now ≡ Some bytes.items) }
        ensures failed { IsErrOf result FileFault.Failed
            ↔ ((contents_of self.old.files name.now ≡ None) ⊎ FailsNow self.old.calls) }
        ensures too_long { IsErrOf result FileFault.TooLong
            ↔ (IsLonger (Some self.old.files) name.now limit × ¬ FailsNow self.old.calls) }

        ensures later { self.old.faults ≤ self.new.faults }
        ensures lacking { contents_of self.old.files name.now ≡ None
            → self.new.faults ≡ self.old.faults }
        ensures no_fault { ¬ FailsNow self.old.calls → self.new.faults ≡ self.old.faults }
        ensures fault { FailsNow self.old.calls → IsSome (contents_of self.old.files name.now)
            → self.new.faults ≡ count_after self.old.faults 1 }

        ensures more { self.old.taken ≤ self.new.taken }
        ensures counted { IfOk result (λ bytes.
            self.new.taken ≡ count_after self.old.taken (length bytes.items)) }
        ensures none_taken { OnErr result (self.new.taken ≡ self.old.taken) }
    {
        let fails = self.schedule.begins_failing_call();
        let Some(bytes) = find(&self.files, name) else {
            return Err(FileFault::Failed);
        };
        if fails {
            self.faults = self.faults.saturating_add(1);
            return Err(FileFault::Failed);
        }
        if bytes.len() > limit {
            return Err(FileFault::TooLong);
        }
        let copy = Vec::from_slice(alloc, bytes).map_err(|_| FileFault::Memory)?;
        self.taken = self.taken.saturating_add(copy.len() as u64);
        Ok(copy)
    }
}

/// A source in memory, which tells the bytes left.
#[derive(Debug, Drop)]
pub struct MemSource {
    left: BytesLeft,
    most: usize,
    schedule: Schedule,
    faults: u64,
    taken: u64,
}

impl Model for MemSource {
    ghost use Rattle.std.specs.Prelude.{◌<◌};
    ghost use Rattle.halo_outside.specs.Memory.{SourceInMemory};

    ghost Value = { SourceInMemory };

    ghost view = { λ mem. record {
      left = mem.left;
      most = mem.most;
      calls = mem.schedule;
      faults = mem.faults;
      taken = mem.taken;
    } };

    ghost invariant = { λ mem. 0 < mem.most };
}

impl MemSource {
    /// A source of `bytes` whose calls give at most `most` bytes each, or at most 1 where `most`
    /// is 0. Calls with a number in `failing`, counted from 0, fail.
    pub fn new(bytes: Vec<u8>, most: usize, failing: Vec<u64>) -> MemSource
        ensures seen { ⟦<MemSource as Source>⟧.seen result
            ≡ record { told = Some bytes.items; faults = 0; taken = 0 } }
        ensures most { result.most ≡ max most 1 }
        ensures calls { result.calls ≡ first_call failing.items }
    {
        MemSource {
            left: BytesLeft::new(bytes),
            most: most.max(1),
            schedule: Schedule::new(failing),
            faults: 0,
            taken: 0,
        }
    }
}

impl Source for MemSource {
    ghost seen = { λ mem. record { told = Some mem.left; faults = mem.faults; taken = mem.taken } };

    fn read(&mut self, into: &mut [u8]) -> Result<usize, Failed>
        ensures most { self.new.most ≡ self.old.most }
        ensures calls { self.new.calls ≡ after_call self.old.calls }

        ensures fails { IsErr result ↔ FailsNow self.old.calls }
        ensures count { IfOk result (λ count.
            count ≡ min (min (length into.old) self.old.most) (length self.old.left)) }
        ensures moved { IfOk result (λ count.
            IsMoved self.old.left self.new.left count into.old into.new) }
        ensures kept { OnErr result ((self.new.left ≡ self.old.left) × (into.new ≡ into.old)) }

        ensures later { self.old.faults ≤ self.new.faults }
        ensures no_fault { OnOk result (self.new.faults ≡ self.old.faults) }
        ensures fault { OnErr result (self.new.faults ≡ count_after self.old.faults 1) }
        ensures more { self.old.taken ≤ self.new.taken }
        ensures counted { IfOk result (λ count. self.new.taken ≡ count_after self.old.taken count) }
        ensures none_taken { OnErr result (self.new.taken ≡ self.old.taken) }
    {
        if self.schedule.begins_failing_call() {
            self.faults = self.faults.saturating_add(1);
            return Err(Failed);
        }
        let count = self.left.move_front(into, self.most);
        self.taken = self.taken.saturating_add(count as u64);
        Ok(count)
    }
}

/// A sink in memory with a fixed room, which tells the bytes written.
#[derive(Debug, Drop)]
pub struct MemSink {
    bytes: Vec<u8>,
    room: usize,
    most: usize,
    schedule: Schedule,
    faults: u64,
}

impl Model for MemSink {
    ghost use Rattle.std.specs.Prelude.{◌≤◌, ◌<◌, length, vec_capacity};
    ghost use Rattle.halo_outside.specs.Memory.{SinkInMemory};

    ghost Value = { SinkInMemory };

    ghost view = { λ mem. record {
      written = mem.bytes.items;
      room = mem.room;
      most = mem.most;
      calls = mem.schedule;
      faults = mem.faults;
    } };

    ghost invariant = { λ mem. (0 < mem.most)
        × (length mem.bytes.items ≤ mem.room) × (mem.room ≤ vec_capacity mem.bytes) };
}

impl MemSink {
    /// An empty sink with room for `room` bytes, for which it takes its memory here. Calls write at
    /// most `most` bytes each, or at most 1 where `most` is 0. Calls of a piece that isn't empty
    /// fail where no room is left, and where their number, counted from 0, is in `failing`.
    pub fn new(
        alloc: Global,
        room: usize,
        most: usize,
        failing: Vec<u64>,
    ) -> Result<MemSink, AllocError>
        ensures seen { IfOk result (λ sink.
            ⟦<MemSink as Sink>⟧.seen sink ≡ record { told = Some []; faults = 0 }) }
        ensures room { IfOk result (λ sink. sink.room ≡ room) }
        ensures most { IfOk result (λ sink. sink.most ≡ max most 1) }
        ensures calls { IfOk result (λ sink. sink.calls ≡ first_call failing.items) }
    {
        Ok(MemSink {
            bytes: Vec::with_capacity(alloc, room)?,
            room,
            most: most.max(1),
            schedule: Schedule::new(failing),
            faults: 0,
        })
    }

    /// The bytes written so far.
    pub fn bytes(&self) -> &[u8]
        ensures { result.now ≡ self.now.written }
    {
        &self.bytes
    }
}

impl Sink for MemSink {
    ghost seen = { λ mem. record { told = Some mem.written; faults = mem.faults } };

    fn write(&mut self, piece: &[u8]) -> Result<usize, Failed>
        ensures room { self.new.room ≡ self.old.room }
        ensures most { self.new.most ≡ self.old.most }
        ensures calls { self.new.calls ≡ after_call self.old.calls }

        ensures fails { IsErr result
            ↔ ((0 < length piece.now) × (FailsNow self.old.calls ⊎ IsFull self.old)) }
        ensures count { IfOk result (λ count.
            count ≡ min (min (length piece.now) self.old.most)
            (self.old.room - length self.old.written)) }
        ensures some { IfOk result (λ count. 0 < length piece.now → 0 < count) }
        ensures appended { IfOk result (λ count.
            self.new.written ≡ self.old.written ++ take count piece.now) }
        ensures kept { OnErr result (self.new.written ≡ self.old.written) }

        ensures later { self.old.faults ≤ self.new.faults }
        ensures no_fault { OnOk result (self.new.faults ≡ self.old.faults) }
        ensures fault { OnErr result (self.new.faults ≡ count_after self.old.faults 1) }
    {
        let fails = self.schedule.begins_failing_call();
        if piece.is_empty() {
            return Ok(0);
        }
        let left = self.room - self.bytes.len();
        if fails || left == 0 {
            self.faults = self.faults.saturating_add(1);
            return Err(Failed);
        }
        let count = piece.len().min(self.most).min(left);
        self.bytes.extend_from_slice(&piece[..count]).unwrap();
        Ok(count)
    }
}
