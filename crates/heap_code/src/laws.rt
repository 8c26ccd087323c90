// What the words of the heap functions do, and how many they are: laws, each an empty function whose
// contract is proved.
ghost use Rattle.std.specs.Prelude.{ℕ, ◌≤◌, ◌<◌, List, All, length};
ghost use Rattle.plan_core.specs.declared.types.Area.{Area};
ghost use Rattle.plan_core.specs.declared.types.Row.{Row};
ghost use Rattle.frag_code.specs.Forms.{IsFormed};
ghost use Rattle.heap_spec.specs.Service.{Suits, ServesHeap};
ghost use Rattle.heap_code.specs.Calls.{malloc_code, calloc_code, free_code};
ghost use Rattle.heap_code.specs.Moving.{realloc_code};
ghost use Rattle.heap_code.specs.Words.{all_words, entries};

use frag_code::a_run_changes_what_it_may;
use frag_rules::{fields_are_tested_and_words_counted_by_parts, words_of_a_range_stand_as_code};
use heap_bytes::granules_are_copied;
use heap_chunks::{blocks_are_placed_in_chunks, blocks_are_released_in_chunks, groups_are_found};
use heap_holes::{the_first_hole_that_is_long_enough_is_taken, the_released_block_becomes_a_hole};
use rv_isa::words_and_instructions_agree;

/// The four functions of every plan with at most 64 rows have code, and with their eight entries they have
/// at most 4096 words.
pub fn heap_functions_have_few_words()
    ensures malloc { (rows : List Row) (area : Area) (data_at : ℕ) → All (λ row. row.group < 16) rows
        → length rows ≤ 64 → area.log_chunk < 32 → IsFormed (malloc_code rows area data_at) }
    ensures calloc { (rows : List Row) (area : Area) (data_at : ℕ) → All (λ row. row.group < 16) rows
        → length rows ≤ 64 → area.log_chunk < 32 → IsFormed (calloc_code rows area data_at) }
    ensures realloc { (rows : List Row) (area : Area) (data_at : ℕ) → All (λ row. row.group < 16) rows
        → length rows ≤ 64 → area.log_chunk < 32 → IsFormed (realloc_code rows area data_at) }
    ensures free { (area : Area) (data_at : ℕ) → area.log_chunk < 32 → IsFormed (free_code area data_at) }
    ensures words { (rows : List Row) (area : Area) (data_at : ℕ) → length rows ≤ 64
        → length (all_words rows area data_at) ≤ 4096 }
{
    fields_are_tested_and_words_counted_by_parts();
}

/// The words of the heap functions serve every request of a machine, at each of their eight entries.
pub fn heap_functions_serve()
    ensures { (rows : List Row) (area : Area) (text_at data_at : ℕ) → Suits rows area text_at data_at
        → ServesHeap rows area text_at data_at (all_words rows area data_at) (entries rows area data_at text_at) }
{
    heap_functions_have_few_words();
    words_and_instructions_agree();
    a_run_changes_what_it_may();
    words_of_a_range_stand_as_code();
    the_first_hole_that_is_long_enough_is_taken();
    the_released_block_becomes_a_hole();
    groups_are_found();
    blocks_are_placed_in_chunks();
    blocks_are_released_in_chunks();
    granules_are_copied();
}
