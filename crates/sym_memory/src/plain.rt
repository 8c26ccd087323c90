// Plain memory with its calls, each over its parts and spans.
ghost use Rattle.std.specs.Prelude.{◌≡◌, ◌&&◌, Some, None, if◌then◌else◌};
ghost use Rattle.machine_spec.specs.Memory.{all_from};
ghost use Rattle.machine_spec.specs.Widths.{size_of};
ghost use Rattle.sym_cells.specs.Cells.{mark_at};
ghost use Rattle.sym_cells.specs.Moves.{load_at};
ghost use Rattle.sym_cells.specs.Memory.{cell_at, is_aligned, number_in, store_plain};
ghost use Rattle.sym_memory.specs.Parts.{allowed, is_plain_in, is_storable_in, spans_of};
ghost use Rattle.sym_memory.specs.Held.{HeldPlain};

use crate::parts::{Access, PlainPart, are_allowed, is_allowed};
use crate::spans::{PlainSpan, known_in, load_in, store_in};
use crate::widths::{is_aligned, size_of};
use rv_isa::Width;
use std::marker::Model;
use sym_value::Value;

/// Plain memory, which contracts see as its parts and its spans of cells.
#[derive(Debug, Drop)]
pub struct Plain {
    parts: Vec<PlainPart>,
    spans: Vec<PlainSpan>,
}

impl Model for Plain {
    ghost use Rattle.sym_memory.specs.Held.{HeldPlain};

    ghost Value = { HeldPlain };

    ghost use Rattle.sym_memory.specs.Parts.{spans_of};

    ghost view = { λ p. record { parts = p.parts.items; spans = spans_of p.spans.items } };
}

impl Plain {
    /// Plain memory of these parts, with its cells in spans.
    pub fn new(parts: Vec<PlainPart>, spans: Vec<PlainSpan>) -> Plain
        ensures { result ≡ record { parts = parts.items; spans = spans_of spans.items } }
    {
        Plain { parts, spans }
    }

    /// The value of a load; none exactly where it isn't aligned or not all its bytes are plain.
    #[inline(always)]
    pub fn load(&self, width: Width, addr: u32) -> Option<Value>
        ensures { result ≡ (if is_aligned width addr && all_from (is_plain_in self.now.parts) addr (size_of width)
            then Some (load_at width addr (cell_at self.now.spans)) else None) }
    {
        if self.allows(Access::Load, width, addr) {
            Some(load_in(&self.spans, width, addr))
        } else {
            None
        }
    }

    /// The number of a byte; none exactly where it isn't plain or isn't known.
    pub fn known(&self, addr: u32) -> Option<u8>
        ensures { result ≡ (if is_plain_in self.now.parts addr then number_in
            (mark_at (cell_at self.now.spans) addr) else None) }
    {
        if is_allowed(&self.parts, Access::Load, addr as usize) {
            known_in(&self.spans, addr)
        } else {
            None
        }
    }

    /// Stores a value. False exactly where it isn't aligned or not all its bytes can be stored to; then
    /// nothing changes.
    #[inline(always)]
    pub fn store(&mut self, width: Width, addr: u32, value: Value) -> bool
        ensures answer { result ≡ (is_aligned width addr
            && all_from (is_storable_in self.old.parts) addr (size_of width)) }
        ensures plain { self.new ≡ (if result
            then record self.old { spans = store_plain width addr value self.old.spans } else self.old) }
    {
        let stores = self.allows(Access::Store, width, addr);
        if stores {
            store_in(&mut self.spans, width, addr, value);
        }
        stores
    }

    /// Whether each of `len` bytes from an address on allows an access.
    pub fn allows_all(&self, access: Access, addr: u32, len: u32) -> bool
        ensures { result ≡ all_from (allowed access self.now.parts) addr len }
    {
        are_allowed(&self.parts, access, addr as usize, len as usize)
    }

    /// Whether an access is aligned, and each of its bytes allows it.
    #[inline(always)]
    fn allows(&self, access: Access, width: Width, addr: u32) -> bool
        ensures { result ≡ (is_aligned width addr && all_from (allowed access self.now.parts) addr (size_of width)) }
    {
        is_aligned(width, addr) && are_allowed(&self.parts, access, addr as usize, size_of(width))
    }
}
