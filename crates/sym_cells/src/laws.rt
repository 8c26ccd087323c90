// Laws of symbol memory, each an empty function whose contract is proved: what loads and stores keep of
// the flat machine's bytes that stand for cells, over any region and then over the whole memory.
ghost use Rattle.std.specs.Prelude.{◌≡◌, ◌⊎◌, ℕ, ◌+◌, ◌*◌, ◌/◌, ◌%◌, ◌^◌, ◌<◌, ◌≤◌, List, All, Bool, true, Some};
ghost use Rattle.std.specs.Prelude.{length};
ghost use Rattle.rv_isa.specs.declared.Width.{Width};
ghost use Rattle.rv_isa.specs.declared.Width.TheVariants.{Word};
ghost use Rattle.machine_spec.specs.Widths.{number_of, low_bytes, size_of, loaded_as};
ghost use Rattle.machine_spec.specs.Memory.{Range, byte_of, all_from};
ghost use Rattle.flat_spec.specs.Stores.{bytes_from, put_bytes};
ghost use Rattle.sym_value.specs.declared.Value.{Value};
ghost use Rattle.sym_value.specs.declared.Whole.{Whole};
ghost use Rattle.sym_value.specs.Standing.{Holds};
ghost use Rattle.sym_cells.specs.Cells.{Cell, Cells, cell_in};
ghost use Rattle.sym_cells.specs.Moves.{value_of, load_at, store_at, store, copy_inside, copy_across};
ghost use Rattle.sym_cells.specs.Memory.{Span, Memory, has_cell, cell_at, store_plain, loaded, stored};
ghost use Rattle.sym_cells.specs.Buffers.{is_within, taken, filled};
ghost use Rattle.sym_cells.specs.Region.{Region, AreWords, MemoryStands, IsThere, Laid, LoadsAlike, StoresAlike};
ghost use Rattle.sym_cells.specs.Region.{FillsAlike};

/// A load at an aligned offset of a region gives a value for which the flat machine's word stands.
pub fn a_load_stands_for_the_flat_load()
    ensures { (back : ℕ → ℕ) (at : List ℕ) (memory : List Range) (base : ℕ) (covers : ℕ → Bool) (cells : Cells)
        (width : Width) (o : ℕ) (bs : List ℕ)
        → AreWords back → Region back at memory base covers cells → o % size_of width ≡ 0
        → all_from covers o (size_of width) ≡ true → bytes_from memory (base + o) (size_of width) ≡ Some bs
        → Holds back at (load_at width o cells) (loaded_as width (number_of bs)) }
{}

/// After a store on both machines at an aligned offset of a region its bytes still stand for its cells,
/// and so do those of each region that lies apart.
pub fn a_store_keeps_every_region()
    ensures here { (back : ℕ → ℕ) (at : List ℕ) (memory : List Range) (base : ℕ) (covers : ℕ → Bool) (cells : Cells)
        (width : Width) (o : ℕ) (v : Value) (w : ℕ)
        → Region back at memory base covers cells → o % size_of width ≡ 0
        → IsThere memory (base + o) (size_of width) → w < 2 ^ 32 → Holds back at v w
        → Region back at (put_bytes memory (base + o) (low_bytes (size_of width) w)) base covers
        (store_at width o v cells) }
    ensures apart { (back : ℕ → ℕ) (at : List ℕ) (memory : List Range) (base : ℕ) (covers : ℕ → Bool) (cells : Cells)
        (a : ℕ) (bs : List ℕ)
        → Region back at memory base covers cells
        → ((o : ℕ) → covers o ≡ true → (base + o < a) ⊎ (a + length bs ≤ base + o))
        → Region back at (put_bytes memory a bs) base covers cells }
    ensures same_bytes { (back : ℕ → ℕ) (at : List ℕ) (memory after : List Range) (base : ℕ) (covers : ℕ → Bool)
        (cells : Cells)
        → ((o : ℕ) → covers o ≡ true → byte_of after (base + o) ≡ byte_of memory (base + o))
        → Region back at memory base covers cells → Region back at after base covers cells }
{}

/// A store into a list of cells, or into spans of plain memory, is the store into the cells by their
/// numbers, and keeps how many cells there are.
pub fn a_store_into_a_list_is_the_store()
    ensures list { (cells : List Cell) (width : Width) (o : ℕ) (v : Value)
        → o % size_of width ≡ 0 → o + size_of width ≤ 4 * length cells
        → cell_in (store width o v cells) ≡ store_at width o v (cell_in cells) }
    ensures as_many { (cells : List Cell) (width : Width) (o : ℕ) (v : Value)
        → length (store width o v cells) ≡ length cells }
    ensures spans { (spans : List Span) (width : Width) (a : ℕ) (v : Value)
        → a % size_of width ≡ 0 → has_cell (a / 4) spans ≡ true
        → cell_at (store_plain width a v spans) ≡ store_at width a v (cell_at spans) }
    ensures same_spans { (spans : List Span) (width : Width) (a : ℕ) (v : Value) (k : ℕ)
        → has_cell k (store_plain width a v spans) ≡ has_cell k spans }
{}

/// Where words stand for an address and a value: what the symbol machine loads and stores, the flat one
/// does, and its memory still stands for the symbol machine's and lies as it did.
pub fn loads_and_stores_are_alike()
    ensures loads { (back : ℕ → ℕ) (at : List ℕ) (end : ℕ) (plain storable : ℕ → Bool) (memory : List Range)
        (m : Memory) (width : Width) (p x : Value) (a : ℕ)
        → AreWords back → Laid at end plain storable memory m → MemoryStands back at plain memory m
        → Holds back at p a → loaded plain m width p ≡ Some x → LoadsAlike back at memory width a x }
    ensures stores { (back : ℕ → ℕ) (at : List ℕ) (end : ℕ) (plain storable : ℕ → Bool) (memory : List Range)
        (m n : Memory) (width : Width) (p v : Value) (a w : ℕ)
        → Laid at end plain storable memory m → MemoryStands back at plain memory m
        → Holds back at p a → Holds back at v w → w < 2 ^ 32 → stored storable m width p v ≡ Some n
        → StoresAlike back at end plain storable memory m n width a w }
{}

/// Where a word stands for the start of a buffer: the bytes that a write takes on the symbol machine are
/// those that it takes on the flat one, and after a read into the buffer on both machines the memory of
/// the flat one still stands for the symbol machine's and lies as it did.
pub fn buffers_are_alike()
    ensures writes { (back : ℕ → ℕ) (at : List ℕ) (end : ℕ) (plain storable : ℕ → Bool) (memory : List Range)
        (m : Memory) (n : ℕ) (p : Value) (a : ℕ) (bs : List ℕ)
        → Laid at end plain storable memory m → MemoryStands back at plain memory m → Holds back at p a
        → is_within plain m n p ≡ true → taken m n p ≡ Some bs → bytes_from memory a n ≡ Some bs }
    ensures reads { (back : ℕ → ℕ) (at : List ℕ) (end : ℕ) (plain storable : ℕ → Bool) (memory : List Range)
        (m n : Memory) (size : ℕ) (bs : List ℕ) (p : Value) (a : ℕ)
        → Laid at end plain storable memory m → MemoryStands back at plain memory m → Holds back at p a
        → All (λ b. b < 256) bs → length bs ≤ size → filled storable m size bs p ≡ Some n
        → FillsAlike back at end plain storable memory m n size a bs }
{}

/// A pointer or a return address that is copied byte by byte, load by load and store by store, is itself
/// where it was copied to.
pub fn a_copy_byte_by_byte_is_whole()
    ensures inside { (width : Width) (s : Whole) (p q : ℕ) (cells : Cells)
        → size_of width ≡ 1 → p % 4 ≡ 0 → q % 4 ≡ 0 → load_at Word p cells ≡ value_of s
        → load_at Word q (copy_inside width p q cells) ≡ value_of s }
    ensures across { (width : Width) (s : Whole) (p q : ℕ) (from onto : Cells)
        → size_of width ≡ 1 → p % 4 ≡ 0 → q % 4 ≡ 0 → load_at Word p from ≡ value_of s
        → load_at Word q (copy_across width from p q onto) ≡ value_of s }
{}
