// The memory of a program: plain bytes are those of its file, blocks stand where its plan places them, and
// buffers are reached byte by byte.
ghost use Rattle.std.specs.Prelude.{◌≡◌, ◌+◌, ◌^◌, ◌<◌, ◌≤◌, [], true, is_some, length, option_and_then, unwrap_or, IfOk, drop, take};
ghost use Rattle.elf_spec.specs.Memory.{image_end};
ghost use Rattle.elf_spec.specs.Records.{segments_of};
ghost use Rattle.plan_core.specs.Plan.{granules};
ghost use Rattle.place_spec.specs.Layout.{address_of, first_layout};
ghost use Rattle.heap_spec.specs.Places.{base_of};
ghost use Rattle.site_spec.specs.Places.{text_room};
ghost use Rattle.site_spec.specs.Plans.{Fits};
ghost use Rattle.rv_isa.specs.declared.Width.{Width};
ghost use Rattle.sym_value.specs.declared.Value.{Value};
ghost use Rattle.sym_cells.specs.Memory.{live_of, loaded, stored};
ghost use Rattle.sym_cells.specs.Buffers.{is_within, taken};
ghost use Rattle.sym_spec.specs.Plain.{is_plain, is_plain_store};
ghost use Rattle.sym_spec.specs.StartMemory.{start_memory};
ghost use Rattle.sym_spec.specs.SymCalls.{number_of_value};
ghost use Rattle.sym_memory.specs.Held.{memory_after};
ghost use Rattle.sym_machine.specs.Reached.{HeldMemory, IsLow, behind_by, number_at, put_from};

use exec_image::Image;
use place_model::Places;
use plan_core::{Area, Plan};
use rv_isa::Width;
use std::alloc::{AllocError, Global};
use std::marker::Model;
use sym_memory::SymMemory;
use sym_value::{Live, Value};

/// The memory of a program that runs an image under a plan: its bytes, the layout of its blocks, and the
/// address that each block got.
#[derive(Drop)]
pub struct ImageMemory<'a> {
    pub alloc: Global,
    pub image: &'a Image,
    pub plan: &'a Plan,
    pub held: SymMemory,
    pub places: Places,
    pub at: Vec<u32>,
}

impl<'a> Model for ImageMemory<'a> {
    ghost use Rattle.sym_machine.specs.Reached.{HeldMemory, IsOfFile};
    ghost use Rattle.sym_machine.specs.Placing.{HasPlaces};

    ghost Value = { HeldMemory };

    ghost view = { λ m. record {
      file = m.image.now;
      plan = m.plan.now;
      memory = m.held.memory;
      layout = m.places.layout;
      at = m.at.items;
    } };

    ghost invariant = { λ m. IsOfFile m.image.now m.held.parts m.held.end
        × HasPlaces m.image.now m.plan.now m.places m.held.memory m.at.items };
}

/// Where the area of the heap begins.
fn area_base(area: Area, text_at: u32) -> u32
    requires chunk { area.log_chunk ≤ 20 }
    requires chunks { area.chunks ≤ 256 }
    requires granules { granules area ≤ 1048576 }
    requires room { text_at ≤ 0x70001000 }
    ensures base { result ≡ base_of area (text_at + text_room) }
    ensures below { address_of result (granules area) < 2 ^ 32 }
{
    let granules = area.fallback + (area.chunks << area.log_chunk);
    text_at + 0x5000 + (128 + 16 * area.chunks + 8 * granules + 15) / 16 * 16
}

/// The memory with which an image starts under a plan that fits it.
pub fn memory_of<'a>(
    alloc: Global,
    image: &'a Image,
    plan: &'a Plan,
) -> Result<ImageMemory<'a>, AllocError>
    requires { Fits image.now plan.now }
    ensures { IfOk result (λ m. m ≡ record {
      file = image.now;
      plan = plan.now;
      memory = start_memory image.now;
      layout = first_layout plan.now.area;
      at = [];
    }) }
{
    let held = SymMemory::new(alloc, image)?;
    let places = Places::new(alloc, plan, area_base(plan.area, image.text_at()))?;
    Ok(ImageMemory {
        alloc,
        image,
        plan,
        held,
        places,
        at: Vec::new(alloc),
    })
}

impl<'a> ImageMemory<'a> {
    /// The blocks so far as values see them, and the end of the image.
    pub fn live(&self) -> &Live
        ensures { result.now ≡ live_of (image_end (segments_of self.now.file)) self.now.memory }
    {
        self.held.live()
    }

    /// The value of a load; none exactly where it isn't aligned or not all its bytes can be reached.
    pub fn load(&self, at: Value, width: Width) -> Option<Value>
        ensures { result ≡ loaded (is_plain self.now.file) self.now.memory width at }
    {
        self.held.load(at, width)
    }

    /// The number that a load of a word gives at a plain address; none where it gives another value or none.
    #[inline(always)]
    pub fn word_at(&self, addr: u32) -> Option<u32>
        ensures { result ≡ option_and_then number_of_value
            (loaded (is_plain self.now.file) self.now.memory Width.Word (Value.Num addr)) }
    {
        self.held.word_at(addr)
    }

    /// Stores a number as a word at a plain address, as `store` does.
    #[inline(always)]
    #[tactic(auto, using(crate::proofs::Lives::store_keeps))]
    pub fn store_word(&mut self, addr: u32, word: u32) -> bool
        ensures answer { result ≡ is_some (stored (is_plain_store self.old.file) self.old.memory
            Width.Word (Value.Num addr) (Value.Num word)) }
        ensures memory { self.new ≡ record self.old {
          memory = memory_after (stored (is_plain_store self.old.file) self.old.memory
              Width.Word (Value.Num addr) (Value.Num word)) self.old.memory;
        } }
    {
        self.held.store_word(addr, word)
    }

    /// Stores a value. False exactly where it isn't aligned or not all its bytes can be stored to; then
    /// nothing changes.
    #[tactic(auto, using(crate::proofs::Lives::store_keeps))]
    pub fn store(&mut self, at: Value, width: Width, value: Value) -> bool
        ensures answer { result ≡ is_some (stored (is_plain_store self.old.file) self.old.memory width at value) }
        ensures memory { self.new ≡ record self.old {
          memory = memory_after
              (stored (is_plain_store self.old.file) self.old.memory width at value) self.old.memory;
        } }
    {
        self.held.store(at, width, value)
    }

    /// Whether the `len` bytes from an address on can be reached.
    pub fn can_reach(&self, at: Value, len: u32) -> bool
        ensures { result ≡ is_within (is_plain self.now.file) self.now.memory len at }
    {
        self.held.can_reach(at, len)
    }

    /// Whether the `len` bytes from an address on can be stored to.
    pub fn can_fill(&self, at: Value, len: u32) -> bool
        ensures { result ≡ is_within (is_plain_store self.now.file) self.now.memory len at }
    {
        self.held.can_fill(at, len)
    }

    /// The number of a byte of a buffer; none where it isn't known.
    #[tactic(auto, using(crate::proofs::Reaching::byte_known))]
    fn byte_at(&self, at: Value, i: u32) -> Option<u8>
        requires { is_within (is_plain self.now.file) self.now.memory (i + 1) at ≡ true }
        ensures { result ≡ number_at self.now.memory at i }
    {
        self.held.known(self.place(at, i), 0)
    }

    /// Whether the bytes of a buffer are known.
    #[tactic(auto, using(crate::proofs::Reaching::behind_zero, crate::proofs::Reaching::shorter, crate::proofs::Reaching::known_step, crate::proofs::Reaching::unknown_step, crate::proofs::Reaching::known_all))]
    pub fn are_known(&self, at: Value, len: u32) -> bool
        requires { is_within (is_plain self.now.file) self.now.memory len at ≡ true }
        ensures { result ≡ is_some (taken self.now.memory len at) }
    {
        for i in 0..len {
            if self.byte_at(at, i).is_none() {
                return false;
            }
        }
        true
    }

    /// Copies some of the `len` bytes of a buffer, which are known, from one on.
    #[tactic(auto, using(crate::proofs::Reaching::shorter, crate::proofs::Filling::byte_there, crate::proofs::Filling::copy_more))]
    pub fn copy_from(&self, at: Value, len: u32, from: u32, into: &mut [u8])
        requires within { is_within (is_plain self.now.file) self.now.memory len at ≡ true }
        requires known { is_some (taken self.now.memory len at) ≡ true }
        requires inside { from + length into.old ≤ len }
        ensures { into.new ≡ take (length into.old) (drop from (unwrap_or (taken self.now.memory len at) [])) }
    {
        for i in 0..into.len() {
            let Some(byte) = self.byte_at(at, from + i as u32) else {
                unreachable!();
            };
            into[i] = byte;
        }
    }

    /// Puts bytes into a buffer, from its byte `from` on.
    #[tactic(auto, using(crate::proofs::Reaching::shorter, crate::proofs::Filling::storable_reached, crate::proofs::Filling::fill_more, crate::proofs::Filling::fill_within, crate::proofs::Filling::fill_first, crate::proofs::Filling::fill_done))]
    pub fn fill(&mut self, at: Value, from: u32, bytes: &[u8])
        requires within { is_within (is_plain_store self.old.file) self.old.memory (from + length bytes.now) at ≡ true }
        requires small { from + length bytes.now < 2 ^ 32 }
        ensures { self.new ≡ record self.old {
          memory = put_from (is_plain_store self.old.file) bytes.now
              (behind_by from at) self.old.memory;
        } }
    {
        for (i, byte) in bytes.iter().enumerate() {
            let to = self.place(at, from + i as u32);
            self.store(to, Width::ByteU, Value::Num(*byte as u32));
        }
    }

    /// The place of a byte of a buffer.
    fn place(&self, at: Value, i: u32) -> Value
        requires { is_within (is_plain self.now.file) self.now.memory (i + 1) at ≡ true }
        ensures place { result ≡ behind_by i at }
        ensures low { IsLow result }
    {
        let _elf = self.image.elf();
        match at {
            Value::Num(addr) => Value::Num(addr.wrapping_add(i)),
            Value::Ptr { block, offset } => {
                let _capacity = self.held.live().capacity(block);
                Value::Ptr {
                    block,
                    offset: offset.wrapping_add(i),
                }
            }
            other => other,
        }
    }
}
