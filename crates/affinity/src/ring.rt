// The entries that are kept: the last one and those in reach of it.
ghost use Rattle.std.specs.Prelude.{◌≡◌, ℕ, ◌+◌, ◌-◌, ◌^◌, ◌<◌, ◌≤◌, ◌++◌, ◌∷◌, [], length, drop, take, List, OnOk};
ghost use Rattle.std.specs.Prelude.{OnErr};
ghost use Rattle.std.specs.VecDeque.{deque_len};
ghost use Rattle.affinity.specs.Weights.{block_at};
ghost use Rattle.affinity.specs.Near.{span, in_reach, last_width, ends_with, has_none};
ghost use Rattle.affinity.specs.State.{no_entries, with_block, without_block, entered};
ghost use Rattle.affinity.specs.Follows.{Follows};

use crate::entries::Entry;
use std::alloc::{AllocError, Global};
use std::collections::VecDeque;
use std::marker::Model;

/// The last entries of an access list, and the last entry of each block.
#[derive(Drop)]
pub struct Ring {
    entries: VecDeque<Entry>,
    reach: u64,
    count: u32,
    lasts: Vec<Option<u32>>,
}

impl Model for Ring {
    ghost use Rattle.std.specs.Prelude.{◌≡◌, ◌<◌, ◌^◌};
    ghost use Rattle.affinity.specs.State.{Held};
    ghost use Rattle.affinity.specs.Near.{span};

    ghost Value = { Held };

    ghost view = { λ a. record { entries = a.entries.items; count = a.count; lasts = a.lasts.items } };

    ghost invariant = { λ a. (a.reach ≡ span a.entries.items) × (a.reach < 2 ^ 32) };
}

// The width of the last entry, or 0 where there is none.
fn width_at_end(entries: &VecDeque<Entry>) -> u32
    ensures { result ≡ last_width entries.now.items }
{
    match entries.back() {
        Some(entry) => entry.width,
        None => 0,
    }
}

// Drops the entries that are too far from the last one, and gives how far the first one is then.
fn drop_far(entries: &mut VecDeque<Entry>, reach: u64, distance: u32) -> u64
    requires { reach ≡ span entries.old.items }
    ensures entries { entries.new.items ≡ in_reach distance entries.old.items }
    ensures reach { result ≡ span entries.new.items }
    ensures near { result ≤ distance }
{
    let mut reach = reach;
    while reach > u64::from(distance) {
        match entries.pop_front() {
            Some(entry) => reach -= u64::from(entry.width),
            None => return 0,
        }
    }
    reach
}

impl Ring {
    /// No entries and no blocks, which take no memory.
    pub fn new(alloc: Global) -> Self
        ensures { result ≡ no_entries }
    {
        Ring {
            entries: VecDeque::new(alloc),
            reach: 0,
            count: 0,
            lasts: Vec::new(alloc),
        }
    }

    /// How many entries are kept.
    pub fn len(&self) -> usize
        ensures { result ≡ length self.now.entries }
    {
        self.entries.len()
    }

    /// Whether the last entry is of this block.
    pub fn ends_with(&self, block: u32) -> bool
        ensures { result ≡ ends_with self.now.entries block }
    {
        match self.entries.back() {
            Some(entry) => entry.block == block,
            None => false,
        }
    }

    /// The block of a kept entry.
    pub fn block(&self, at: usize) -> u32
        requires { at < length self.now.entries }
        ensures { result ≡ block_at self.now.entries at }
    {
        self.entries[at].block
    }

    /// Whether no later entry is of the block of a kept entry.
    pub fn is_newest(&self, at: usize) -> bool
        requires inside { at < length self.now.entries }
        requires follows { (distance : ℕ) × (es : List Entry) × Follows distance self.now es }
        ensures { result ≡ has_none (drop (at + 1) self.now.entries) (block_at self.now.entries at) }
    {
        let block = self.entries[at].block;
        let behind = self.entries.len() - at;
        match self.lasts[block as usize] {
            Some(number) => number as usize + behind == self.count as usize,
            None => false,
        }
    }

    /// Adds a block that has no entry, or fails for want of memory and leaves the ring as it was.
    pub fn add_block(&mut self) -> Result<(), AllocError>
        ensures ok { OnOk result (self.new ≡ with_block self.old) }
        ensures err { OnErr result (self.new ≡ self.old) }
    {
        self.lasts.push(None)?;
        Ok(())
    }

    /// Takes the last block away.
    pub fn drop_block(&mut self)
        ensures { self.new ≡ without_block self.old }
    {
        let _ = self.lasts.pop();
    }

    /// Adds an entry and drops those that are too far from it; or fails for want of memory and leaves
    /// the ring as it was. It takes memory only while the ring grows.
    pub fn enter(&mut self, distance: u32, entry: Entry) -> Result<(), AllocError>
        requires known { entry.block < length self.old.lasts }
        requires small { self.old.count < 4294967295 }
        ensures ok { OnOk result (self.new ≡ entered distance self.old entry) }
        ensures err { OnErr result (self.new ≡ self.old) }
    {
        self.entries.reserve(1)?;
        self.lasts[entry.block as usize] = Some(self.count);
        self.count += 1;
        let reach = self.reach + u64::from(width_at_end(&self.entries));
        self.entries.push_back_reserved(entry);
        self.reach = drop_far(&mut self.entries, reach, distance);
        Ok(())
    }
}
