// What the fragments do to the tables: laws, each an empty function whose contract is proved.
ghost use Rattle.std.specs.Prelude.{◌≡◌, ℕ, length};
ghost use Rattle.plan_core.specs.declared.types.Area.{Area};
ghost use Rattle.frag_code.specs.Code.{instructions_of};
ghost use Rattle.frag_code.specs.Forms.{IsFormed};
ghost use Rattle.heap_holes.specs.Fits.{TablesFit};
ghost use Rattle.heap_holes.specs.Placing.{first_fit, FirstFitPlaces};
ghost use Rattle.heap_holes.specs.Releasing.{release_low, ReleaseLowReleases};

use frag_rules::fields_are_tested_and_words_counted_by_parts;

/// From tables that spell a sound layout, `first_fit` gives the first granule of the block that the third
/// rule places, and tables that spell the layout after it; or the word for none, and tables that spell
/// the same layout, exactly where the third rule refuses.
pub fn the_first_hole_that_is_long_enough_is_taken()
    ensures { (area : Area) (data_at : ℕ) → TablesFit area data_at → FirstFitPlaces area data_at }
{}

/// From tables that spell a sound layout, `release_low` leads to tables that spell the layout after the
/// release of a block of the fallback, whose granules are joined with the holes that they touch.
pub fn the_released_block_becomes_a_hole()
    ensures { (area : Area) (data_at : ℕ) → TablesFit area data_at → ReleaseLowReleases area data_at }
{}

/// Both fragments have code, of 38 words and of 48.
pub fn fragments_of_holes_have_code()
    ensures placing { IsFormed first_fit }
    ensures placing_words { length (instructions_of first_fit) ≡ 38 }
    ensures releasing { IsFormed release_low }
    ensures releasing_words { length (instructions_of release_low) ≡ 48 }
{
    fields_are_tested_and_words_counted_by_parts();
}
