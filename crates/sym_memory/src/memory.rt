// Symbol memory with its public calls: plain memory is reached by numbers, a block by pointers to it.
ghost use Rattle.std.specs.Prelude.{◌≡◌, ◌≢◌, ◌<◌, ◌≤◌, true, is_some, length, IfOk, OnErr, option_and_then, slice_get};
ghost use Rattle.rv_isa.specs.declared.Width.{Width};
ghost use Rattle.sym_value.specs.declared.Value.{Value};
ghost use Rattle.sym_spec.specs.SymCalls.{number_of_value};
ghost use Rattle.sym_cells.specs.Memory.{live_of, loaded, stored, known, granted, copied, dropped};
ghost use Rattle.sym_cells.specs.Buffers.{is_within};
ghost use Rattle.elf_spec.specs.Memory.{image_end};
ghost use Rattle.elf_spec.specs.Records.{segments_of};
ghost use Rattle.sym_spec.specs.Plain.{is_plain, is_plain_store};
ghost use Rattle.sym_spec.specs.StartMemory.{start_memory};
ghost use Rattle.sym_memory.specs.Kept.{is_alive};
ghost use Rattle.sym_memory.specs.Parts.{is_plain_in, is_storable_in};
ghost use Rattle.sym_memory.specs.Held.{Held, memory_after};

use crate::blocks::Blocks;
use crate::image_parts::plain_parts;
use crate::image_spans::{image_end, plain_spans};
use crate::parts::Access;
use crate::plain::Plain;
use exec_image::Image;
use rv_isa::Width;
use std::alloc::{AllocError, Global};
use std::marker::Model;
use sym_value::{Live, Value};

/// The memory of the symbol machine. All that plain memory needs is taken when it is made, and all that
/// a block needs at its grant; the block's death gives it back. No other call takes or gives memory.
#[derive(Debug, Drop)]
pub struct SymMemory {
    plain: Plain,
    blocks: Blocks,
}

impl Model for SymMemory {
    ghost use Rattle.sym_memory.specs.Held.{Held};

    ghost Value = { Held };

    ghost view = { λ m. record {
      memory = record { plain = m.plain.spans; blocks = m.blocks.blocks };
      parts = m.plain.parts;
      end = m.blocks.end;
    } };
}

impl SymMemory {
    /// The memory at the start: the plain bytes of an image and the stack, and no blocks.
    pub fn new(alloc: Global, image: &Image) -> Result<SymMemory, AllocError>
        ensures memory { IfOk result (λ m. m.memory ≡ start_memory image.now) }
        ensures plain { IfOk result (λ m. is_plain_in m.parts ≡ is_plain image.now) }
        ensures storable { IfOk result (λ m. is_storable_in m.parts ≡ is_plain_store image.now) }
        ensures end { IfOk result (λ m. m.end ≡ image_end (segments_of image.now)) }
    {
        let elf = image.elf();
        let segments = elf.segments.as_slice();
        let memory = flat_mem::load(alloc, elf, image.file())?;
        let parts = plain_parts(alloc, image)?;
        let spans = plain_spans(alloc, &parts, &memory, segments)?;
        let end = image_end(segments) as u32;
        let plain = Plain::new(parts, spans);
        let blocks = Blocks::new(alloc, end);
        Ok(SymMemory { plain, blocks })
    }

    /// The value of a load; none exactly where it isn't aligned, or not all its bytes are plain or in a
    /// living block to which the address points.
    #[tactic(auto, using(crate::proofs::MemoryLaws::number_loaded, crate::proofs::MemoryLaws::pointer_loaded, crate::proofs::MemoryLaws::nothing_loaded))]
    pub fn load(&self, at: Value, width: Width) -> Option<Value>
        ensures { result ≡ loaded (is_plain_in self.now.parts) self.now.memory width at }
    {
        match at {
            Value::Num(addr) => self.plain.load(width, addr),
            Value::Ptr { block, offset } => self.blocks.load(block, width, offset),
            Value::Ret(_) | Value::Mix(_) | Value::Part { .. } | Value::Unset => None,
        }
    }

    /// The number that a load of a word gives at a plain address; none where it gives another value or none.
    #[inline(always)]
    #[tactic(auto, using(crate::proofs::MemoryLaws::number_loaded))]
    pub fn word_at(&self, addr: u32) -> Option<u32>
        ensures { result ≡ option_and_then number_of_value
            (loaded (is_plain_in self.now.parts) self.now.memory Width.Word (Value.Num addr)) }
    {
        match self.plain.load(Width::Word, addr) {
            Some(Value::Num(word)) => Some(word),
            _ => None,
        }
    }

    /// Stores a number as a word at a plain address, as `store` does.
    #[inline(always)]
    #[tactic(auto, using(crate::proofs::MemoryLaws::number_stores, crate::proofs::MemoryLaws::number_stored))]
    pub fn store_word(&mut self, addr: u32, word: u32) -> bool
        ensures answer { result ≡ is_some (stored (is_storable_in self.old.parts) self.old.memory
            Width.Word (Value.Num addr) (Value.Num word)) }
        ensures memory { self.new ≡ record self.old {
          memory = memory_after (stored (is_storable_in self.old.parts) self.old.memory
              Width.Word (Value.Num addr) (Value.Num word)) self.old.memory;
        } }
    {
        self.plain.store(Width::Word, addr, Value::Num(word))
    }

    /// The number of the byte that is `i` behind an address, modulo 2^32; none exactly where it is
    /// neither plain nor in a living block to which the address points, or isn't known.
    #[tactic(auto, using(crate::proofs::MemoryLaws::number_known, crate::proofs::MemoryLaws::pointer_known, crate::proofs::MemoryLaws::nothing_known))]
    pub fn known(&self, at: Value, i: u32) -> Option<u8>
        ensures { result ≡ known (is_plain_in self.now.parts) self.now.memory at i }
    {
        match at {
            Value::Num(addr) => self.plain.known(addr.wrapping_add(i)),
            Value::Ptr { block, offset } => self.blocks.known(block, offset.wrapping_add(i)),
            Value::Ret(_) | Value::Mix(_) | Value::Part { .. } | Value::Unset => None,
        }
    }

    /// Stores a value. False exactly where it isn't aligned, or not all its bytes are plain ones that can
    /// be stored to or in a living block to which the address points; then nothing changes.
    #[tactic(auto, using(crate::proofs::MemoryLaws::number_stores, crate::proofs::MemoryLaws::number_stored, crate::proofs::MemoryLaws::pointer_stores, crate::proofs::MemoryLaws::pointer_stored, crate::proofs::MemoryLaws::nothing_stored))]
    pub fn store(&mut self, at: Value, width: Width, value: Value) -> bool
        ensures answer { result ≡ is_some (stored (is_storable_in self.old.parts) self.old.memory width at value) }
        ensures memory { self.new ≡ record self.old {
          memory = memory_after
              (stored (is_storable_in self.old.parts) self.old.memory width at value) self.old.memory;
        } }
    {
        match at {
            Value::Num(addr) => self.plain.store(width, addr, value),
            Value::Ptr { block, offset } => self.blocks.store(block, width, offset, value),
            Value::Ret(_) | Value::Mix(_) | Value::Part { .. } | Value::Unset => false,
        }
    }

    /// Whether the `len` bytes from an address on are plain, or in a living block to which it points.
    #[tactic(auto, unfolding(sym_cells::specs::Buffers::is_within))]
    pub fn can_reach(&self, at: Value, len: u32) -> bool
        ensures { result ≡ is_within (is_plain_in self.now.parts) self.now.memory len at }
    {
        match at {
            Value::Num(addr) => self.plain.allows_all(Access::Load, addr, len),
            Value::Ptr { block, offset } => self.blocks.can_reach(block, offset, len),
            Value::Ret(_) | Value::Mix(_) | Value::Part { .. } | Value::Unset => false,
        }
    }

    /// Whether the `len` bytes from an address on can be stored to: plain ones that can, or bytes of a
    /// living block to which it points.
    #[tactic(auto, unfolding(sym_cells::specs::Buffers::is_within))]
    pub fn can_fill(&self, at: Value, len: u32) -> bool
        ensures { result ≡ is_within (is_storable_in self.now.parts) self.now.memory len at }
    {
        match at {
            Value::Num(addr) => self.plain.allows_all(Access::Store, addr, len),
            Value::Ptr { block, offset } => self.blocks.can_reach(block, offset, len),
            Value::Ret(_) | Value::Mix(_) | Value::Part { .. } | Value::Unset => false,
        }
    }

    /// Makes a block of `need` granules of 16 bytes, which is zero; its name is how many there were.
    #[tactic(auto, using(crate::proofs::MemoryLaws::block_granted))]
    pub fn grant(&mut self, alloc: Global, need: u32) -> Result<u32, AllocError>
        requires need { (1 ≤ need) × (need ≤ 1048576) }
        requires name { length self.old.memory.blocks < 4294967295 }
        ensures name { IfOk result (λ block. block ≡ length self.old.memory.blocks) }
        ensures granted { IfOk result (λ block. self.new ≡ record self.old { memory = granted need self.old.memory }) }
        ensures unchanged { OnErr result (self.new ≡ self.old) }
    {
        self.blocks.grant(alloc, need)
    }

    /// Copies the cells of one living block in front of those of another, up to the lesser capacity.
    #[tactic(auto, using(crate::proofs::MemoryLaws::block_copied))]
    pub fn copy_block(&mut self, from: u32, to: u32)
        requires from { is_alive (slice_get self.old.memory.blocks from) ≡ true }
        requires to { is_alive (slice_get self.old.memory.blocks to) ≡ true }
        requires differ { from ≢ to }
        ensures { self.new ≡ record self.old { memory = copied from to self.old.memory } }
    {
        self.blocks.copy_block(from, to);
    }

    /// Ends a living block, and gives its memory back.
    #[tactic(auto, using(crate::proofs::MemoryLaws::block_dropped))]
    pub fn drop_block(&mut self, block: u32)
        requires { is_alive (slice_get self.old.memory.blocks block) ≡ true }
        ensures { self.new ≡ record self.old { memory = dropped block self.old.memory } }
    {
        self.blocks.drop_block(block);
    }

    /// The blocks so far as values see them, and the end of the image.
    pub fn live(&self) -> &Live
        ensures { result.now ≡ live_of self.now.end self.now.memory }
    {
        self.blocks.live()
    }
}
