// Laws of requests, each a function that does nothing, whose contract is proved. Its body calls the laws
// that it rests on.
ghost use Rattle.std.specs.Prelude.{◌≡◌, ℕ, ◌+◌, ◌*◌, ◌%◌, ◌<◌, ◌≤◌, List, [], ◌∷◌, ◌++◌, All, Bool, true, Some};
ghost use Rattle.std.specs.Prelude.{nat_lt, length, replicate};
ghost use Rattle.plan_core.specs.declared.types.Area.{Area};
ghost use Rattle.plan_core.specs.declared.types.Row.{Row};
ghost use Rattle.place_spec.specs.Layout.{Layout};
ghost use Rattle.place_spec.specs.Place.{Placed, placed};
ghost use Rattle.place_spec.specs.Release.{block_at, released};
ghost use Rattle.place_spec.specs.Sound.{Sound};
ghost use Rattle.heap_spec.specs.Places.{tables_end};
ghost use Rattle.heap_spec.specs.Tables.{Spells};
ghost use Rattle.machine_spec.specs.Memory.{Range, byte_of};
ghost use Rattle.sym_value.specs.declared.Value.{Value};
ghost use Rattle.sym_value.specs.Standing.{Holds};
ghost use Rattle.sym_cells.specs.Cells.{Cell, Cells, zero_cell, cell_in};
ghost use Rattle.sym_cells.specs.Memory.{overlaid};
ghost use Rattle.sym_cells.specs.Region.{Region};
ghost use Rattle.block_laws.specs.Blocks.{StandsBeside, StandsWithout};

use place_spec::layouts_stay_sound;

/// Once a block is placed, it stands among the old ones, which all stay, and shares no granule with any
/// of them.
pub fn a_new_block_stands_apart_from_the_old_ones()
    ensures { (rows : List Row) (area : Area) (layout : Layout) (need bits : ℕ) (p : Placed)
        → All (λ row. row.group < 16) rows → Sound area layout → 1 ≤ need
        → placed rows area layout need bits ≡ Some p → StandsBeside need layout p }
{
    layouts_stay_sound();
}

/// A release takes away the block at its granule, if there is one, and no other.
pub fn a_release_takes_one_block_alone()
    ensures { (area : Area) (layout : Layout) (granule : ℕ)
        → StandsWithout granule layout.blocks (released area layout granule).blocks }
{}

/// Each live block of a sound layout is the one that its first granule finds.
pub fn a_block_is_found_by_its_first_granule()
    ensures { (area : Area) (layout : Layout) → Sound area layout
        → All (λ b. block_at layout b.first ≡ Some b) layout.blocks }
{}

/// Tables spell a sound layout in any memory whose words between the tables' front and their end are the
/// same.
pub fn tables_depend_on_their_own_words_alone()
    ensures { (area : Area) (layout : Layout) (data_at : ℕ) (memory after : ℕ → ℕ)
        → Sound area layout → data_at % 4 ≡ 0
        → ((k : ℕ) → k % 4 ≡ 0 → data_at ≤ k → k < tables_end area data_at → after k ≡ memory k)
        → Spells area data_at memory layout → Spells area data_at after layout }
{}

/// Words stand for the same values, and the bytes of regions for the same cells, where one more block has
/// an address.
pub fn one_more_address_keeps_what_words_and_bytes_stand_for()
    ensures value { (back : ℕ → ℕ) (at : List ℕ) (a : ℕ) (v : Value) (w : ℕ) → Holds back at v w
        → Holds back (at ++ a ∷ []) v w }
    ensures region { (back : ℕ → ℕ) (at : List ℕ) (a : ℕ) (memory : List Range) (base : ℕ) (covers : ℕ → Bool)
        (cells : Cells) → Region back at memory base covers cells
        → Region back (at ++ a ∷ []) memory base covers cells }
{}

/// Zero bytes stand for the cells of a new block of so many granules.
pub fn zero_bytes_stand_for_the_cells_of_a_new_block()
    ensures { (back : ℕ → ℕ) (at : List ℕ) (memory : List Range) (base need : ℕ)
        → ((o : ℕ) → o < 16 * need → byte_of memory (base + o) ≡ Some 0)
        → Region back at memory base (λ o. nat_lt o (16 * need)) (cell_in (replicate (4 * need) zero_cell)) }
{}

/// Bytes that were copied from a block, as many as both have, with zeros behind them, stand for its cells
/// with those of a new block behind them.
pub fn copied_bytes_stand_for_the_cells_of_a_moved_block()
    ensures { (back : ℕ → ℕ) (at : List ℕ) (memory after : List Range) (from to need : ℕ) (cells : List Cell)
        → Region back at memory from (λ o. nat_lt o (4 * length cells)) (cell_in cells)
        → ((o : ℕ) → o < 4 * length cells → o < 16 * need → byte_of after (to + o) ≡ byte_of memory (from + o))
        → ((o : ℕ) → 4 * length cells ≤ o → o < 16 * need → byte_of after (to + o) ≡ Some 0)
        → Region back at after to (λ o. nat_lt o (16 * need))
        (cell_in (overlaid cells (replicate (4 * need) zero_cell))) }
{}
