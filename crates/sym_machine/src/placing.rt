// Blocks that are granted, moved and released, in memory and in the layout of the heap.
ghost use Rattle.std.specs.Prelude.{◌≡◌, ◌≢◌, ◌+◌, ◌*◌, ◌<◌, ◌≤◌, ℕ, true, Some, IsSome, IfOk, OnErr, length};
ghost use Rattle.place_spec.specs.Layout.{granules_for};
ghost use Rattle.place_spec.specs.Place.{Placed, placed};
ghost use Rattle.elf_spec.specs.Memory.{image_end};
ghost use Rattle.elf_spec.specs.Records.{segments_of};
ghost use Rattle.sym_value.specs.Places.{is_living};
ghost use Rattle.sym_cells.specs.Memory.{copied, live_of};
ghost use Rattle.sym_spec.specs.SymMachine.{SymMachine};
ghost use Rattle.sym_spec.specs.HeapActions.{answers, grants, moves, releases};
ghost use Rattle.sym_machine.specs.Placing.{block_lives, with_placed, without, machine_with, outcome_of, outcome_with};
ghost use Rattle.sym_machine.specs.Placing.{NamesLiving};

use crate::reached::ImageMemory;
use crate::requests::{Acted, Request};
use place_model::need_of;
use std::alloc::AllocError;
use sym_value::Value;

/// An answer for which nothing was done.
fn answered(answer: Value) -> Acted
    ensures { (m : SymMachine) → answers answer m ≡ outcome_with result m }
{
    Acted {
        answer,
        grant: None,
        release: None,
    }
}

impl<'a> ImageMemory<'a> {
    /// Whether a block lives.
    #[tactic(auto, using(crate::proofs::Lives::not_named))]
    pub fn lives(&self, block: u32) -> bool
        ensures { result ≡ is_living (live_of (image_end (segments_of self.now.file)) self.now.memory) block }
    {
        (block as usize) < self.at.len() && self.held.live().lives(block)
    }

    /// One more block of so many granules, for which there is room.
    fn adds(&mut self, need: u32, bits: u32) -> Result<u32, AllocError>
        requires names { length self.old.at < 4294967295 }
        requires need { 1 ≤ need }
        requires small { need ≤ 1048576 }
        requires fits { IsSome (placed self.old.plan.rows self.old.plan.area self.old.layout need bits) }
        ensures name { IfOk result (λ block. block ≡ length self.old.memory.blocks) }
        ensures placed { IfOk result (λ block. (p : Placed)
            → placed self.old.plan.rows self.old.plan.area self.old.layout need bits ≡ Some p
            → self.new ≡ with_placed need p self.old) }
        ensures kept { OnErr result (self.new ≡ self.old) }
    {
        self.at.push(0)?;
        let block = match self.held.grant(self.alloc, need) {
            Ok(block) => block,
            Err(error) => {
                self.at.pop();
                return Err(error);
            }
        };
        let Some(addr) = self.places.place(need, bits) else {
            unreachable!();
        };
        self.at[block as usize] = addr;
        Ok(block)
    }

    /// Copies the cells of one living block in front of those of another, up to the lesser capacity.
    fn copies(&mut self, from: u32, to: u32)
        requires from { block_lives self.old.memory from ≡ true }
        requires to { block_lives self.old.memory to ≡ true }
        requires differ { from ≢ to }
        ensures { self.new ≡ record self.old { memory = copied from to self.old.memory } }
    {
        self.held.copy_block(from, to);
    }

    /// Releases a living block.
    fn drops(&mut self, block: u32)
        requires { block_lives self.old.memory block ≡ true }
        ensures { self.new ≡ without block self.old }
    {
        self.held.drop_block(block);
        self.places.release(self.at[block as usize]);
    }

    /// A request for a block of so many bytes, under these bits.
    fn grants(&mut self, size: u64, bits: u32) -> Result<Acted, AllocError>
        requires names { length self.old.at < 4294967295 }
        ensures done { IfOk result (λ acted. (m : SymMachine) → m.bits ≡ bits
            → grants self.old.file self.old.plan size (machine_with self.old m)
            ≡ outcome_with acted (machine_with self.new m)) }
        ensures lacks { OnErr result ((m : SymMachine) → m.bits ≡ bits
            → IsSome (grants self.old.file self.old.plan size (machine_with self.old m)).grant) }
        ensures same { (self.new.file ≡ self.old.file) × (self.new.plan ≡ self.old.plan) }
        ensures kept { OnErr result (self.new ≡ self.old) }
    {
        if size > u32::MAX as u64 {
            return Ok(answered(Value::Num(0)));
        }
        let need = need_of(size as u32);
        if !self.places.fits(need, bits) {
            return Ok(answered(Value::Num(0)));
        }
        let block = self.adds(need, bits)?;
        Ok(Acted {
            answer: Value::Ptr { block, offset: 0 },
            grant: Some(block),
            release: None,
        })
    }

    /// A request for a block of so many bytes in place of another, under these bits.
    fn moves(&mut self, block: u32, size: u32, bits: u32) -> Result<Acted, AllocError>
        requires names { length self.old.at < 4294967295 }
        requires lives { block_lives self.old.memory block ≡ true }
        ensures done { IfOk result (λ acted. (m : SymMachine) → m.bits ≡ bits
            → moves self.old.file self.old.plan block size (machine_with self.old m)
            ≡ outcome_with acted (machine_with self.new m)) }
        ensures lacks { OnErr result ((m : SymMachine) → m.bits ≡ bits
            → IsSome (moves self.old.file self.old.plan block size (machine_with self.old m)).grant) }
        ensures same { (self.new.file ≡ self.old.file) × (self.new.plan ≡ self.old.plan) }
        ensures kept { OnErr result (self.new ≡ self.old) }
    {
        let need = need_of(size);
        if !self.places.fits(need, bits) {
            return Ok(answered(Value::Num(0)));
        }
        let new = self.adds(need, bits)?;
        self.copies(block, new);
        self.drops(block);
        Ok(Acted {
            answer: Value::Ptr {
                block: new,
                offset: 0,
            },
            grant: Some(new),
            release: Some(block),
        })
    }

    /// A request that a block is released.
    fn releases(&mut self, block: u32) -> Acted
        requires { block_lives self.old.memory block ≡ true }
        ensures done { (m : SymMachine) → releases self.old.file self.old.plan block (machine_with self.old m)
            ≡ outcome_with result (machine_with self.new m) }
        ensures same { (self.new.file ≡ self.old.file) × (self.new.plan ≡ self.old.plan) }
    {
        self.drops(block);
        Acted {
            answer: Value::Unset,
            grant: None,
            release: Some(block),
        }
    }

    /// What a request leads to under these bits. A request for a block may lack memory; then nothing
    /// changes.
    pub fn acts_on(&mut self, request: Request, bits: u32) -> Result<Acted, AllocError>
        requires names { length self.old.at < 4294967295 }
        requires lives { NamesLiving request self.old.memory }
        ensures done { IfOk result (λ acted. (m : SymMachine) → m.bits ≡ bits
            → outcome_of self.old.file self.old.plan request (machine_with self.old m)
            ≡ outcome_with acted (machine_with self.new m)) }
        ensures lacks { OnErr result ((m : SymMachine) → m.bits ≡ bits
            → IsSome (outcome_of self.old.file self.old.plan request (machine_with self.old m)).grant) }
        ensures same { (self.new.file ≡ self.old.file) × (self.new.plan ≡ self.old.plan) }
        ensures kept { OnErr result (self.new ≡ self.old) }
    {
        match request {
            Request::Grant { size } => self.grants(size, bits),
            Request::Move { block, size } => self.moves(block, size, bits),
            Request::Release { block } => Ok(self.releases(block)),
            Request::Nothing => Ok(answered(Value::Unset)),
        }
    }
}
