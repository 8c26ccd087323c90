// Plain memory as spans of cells, each in a flat buffer: loads and stores of the first span that has
// the cell.
ghost use Rattle.std.specs.Prelude.{◌≡◌, ◌+◌, ◌-◌, ◌*◌, ◌/◌, ◌%◌, ◌<◌, length, position, IfSome};
ghost use Rattle.machine_spec.specs.Widths.{size_of};
ghost use Rattle.sym_cells.specs.Cells.{cell_in, mark_at};
ghost use Rattle.sym_cells.specs.Moves.{load_at, store};
ghost use Rattle.sym_cells.specs.Memory.{has, cell_at, number_in, store_plain};
ghost use Rattle.cell_buffer.specs.Entries.{IsAccess};
ghost use Rattle.sym_memory.specs.Parts.{span_of, spans_of};

use cell_buffer::CellBuffer;
use rv_isa::Width;
use sym_value::Value;

/// Cells from a cell number on.
#[derive(Debug, Drop)]
pub struct PlainSpan {
    pub first: u32,
    pub cells: CellBuffer,
}

impl PlainSpan {
    /// Whether it has the cell of an address.
    #[inline(always)]
    fn has(&self, addr: u32) -> bool
        ensures { result ≡ has (addr / 4) (span_of self.now) }
    {
        let cell = addr as usize / 4;
        self.first as usize <= cell && cell < self.first as usize + self.cells.len() / 4
    }

    /// Where an address stands in its buffer.
    #[inline(always)]
    fn place_of(&self, addr: u32) -> usize
        ensures { result ≡ addr - 4 * self.now.first }
    {
        (addr as usize).saturating_sub(4 * self.first as usize)
    }

    #[inline(always)]
    fn load(&self, width: Width, addr: u32) -> Value
        requires { IsAccess width (addr - 4 * self.now.first) (4 * length self.now.cells) }
        ensures { result ≡ load_at width (addr - 4 * self.now.first) (cell_in self.now.cells) }
    {
        self.cells.load(width, self.place_of(addr))
    }

    fn known(&self, addr: u32) -> Option<u8>
        requires { addr - 4 * self.now.first < 4 * length self.now.cells }
        ensures { result ≡ number_in (mark_at (cell_in self.now.cells) (addr - 4 * self.now.first)) }
    {
        self.cells.known(self.place_of(addr))
    }

    #[inline(always)]
    fn store(&mut self, width: Width, addr: u32, value: Value)
        requires { IsAccess width (addr - 4 * self.old.first) (4 * length self.old.cells) }
        ensures { self.new ≡ record self.old { cells = store width (addr - 4 * self.old.first) value self.old.cells } }
    {
        let place = self.place_of(addr);
        self.cells.store(width, place, value);
    }
}

/// The first span that has the cell of an address.
#[inline(always)]
fn find_span(spans: &[PlainSpan], addr: u32) -> Option<usize>
    ensures first { result ≡ position (λ s. has (addr / 4) (span_of s)) spans.now }
    ensures inside { IfSome result (λ i. i < length spans.now) }
{
    spans.iter().position(|span| span.has(addr))
}

/// The value of a load at an aligned address.
#[inline(always)]
pub fn load_in(spans: &[PlainSpan], width: Width, addr: u32) -> Value
    requires { addr % size_of width ≡ 0 }
    ensures { result ≡ load_at width addr (cell_at (spans_of spans.now)) }
{
    match find_span(spans, addr) {
        Some(i) => spans[i].load(width, addr),
        None => Value::Unset,
    }
}

/// The number of the byte at an address; none exactly where it isn't known.
pub fn known_in(spans: &[PlainSpan], addr: u32) -> Option<u8>
    ensures { result ≡ number_in (mark_at (cell_at (spans_of spans.now)) addr) }
{
    match find_span(spans, addr) {
        Some(i) => spans[i].known(addr),
        None => None,
    }
}

/// Stores a value at an aligned address.
#[inline(always)]
pub fn store_in(spans: &mut [PlainSpan], width: Width, addr: u32, value: Value)
    requires { addr % size_of width ≡ 0 }
    ensures { spans_of spans.new ≡ store_plain width addr value (spans_of spans.old) }
{
    match find_span(spans, addr) {
        Some(i) => spans[i].store(width, addr, value),
        None => {}
    }
}
