// The laws of the blocks that a run grants, each a function that does nothing, whose contract is proved.
ghost use Rattle.std.specs.Prelude.{◌≡◌, ◌<◌, ◌≤◌, ℕ, suc, All, Any, Some};
ghost use Rattle.place_spec.specs.Reached.{IsReached};
ghost use Rattle.run_laws.specs.Grants.{
  Run,
  Grants,
  GrantsIn,
  HasGroups,
  IsBlock,
  IsNamed,
  Lives,
  StandsIn,
  begins,
  ends,
  group_at,
  live_count_at,
  machine_at,
  owner_at,
};

use crate::turns::a_turn_does_what_its_note_says;
use block_laws::{a_new_block_stands_apart_from_the_old_ones, a_release_takes_one_block_alone};
use place_spec::{
    blocks_of_a_chunk_have_its_owner_as_group, layouts_stay_sound,
    the_next_block_begins_where_the_last_ends,
};

/// A block is granted in one turn alone, and its address stays as it was then. Every block that lives was granted.
pub fn a_block_is_granted_once_and_stays()
    ensures once { (run : Run) (i j block : ℕ) → HasGroups run → Grants run i block → Grants run j block → i ≡ j }
    ensures stays { (run : Run) (i n block : ℕ) → HasGroups run → Grants run i block → i < n
        → begins run n block ≡ begins run (suc i) block }
    ensures granted { (run : Run) (n block : ℕ) → HasGroups run → Lives run n block
        → (i : ℕ) × (i < n) × Grants run i block }
{
    a_turn_does_what_its_note_says();
    layouts_stay_sound();
    a_new_block_stands_apart_from_the_old_ones();
    a_release_takes_one_block_alone();
}

/// Requests lead to the layout of every moment of a run, and its live blocks are those that live, each at its address,
/// with its capacity and of the group of its grant.
pub fn live_blocks_are_those_of_the_layout()
    ensures reached { (run : Run) (n : ℕ) → IsReached run.plan.rows run.plan.area (machine_at run n).layout }
    ensures placed { (run : Run) (n turn block : ℕ) → HasGroups run → turn < n → Grants run turn block
        → Lives run n block → Any (IsBlock run n turn block) (machine_at run n).layout.blocks }
    ensures named { (run : Run) (n : ℕ) → HasGroups run → All (IsNamed run n) (machine_at run n).layout.blocks }
{
    a_turn_does_what_its_note_says();
    layouts_stay_sound();
    a_new_block_stands_apart_from_the_old_ones();
    a_release_takes_one_block_alone();
}

/// All live blocks in a chunk have its owner as group, which the plan's rows gave to the bits at their grants.
pub fn live_blocks_in_a_chunk_have_its_owner_as_group()
    ensures { (run : Run) (n turn block k : ℕ) → HasGroups run → turn < n → Grants run turn block → Lives run n block
        → k < run.plan.area.chunks → StandsIn run k n block
        → (group : ℕ) × (owner_at run k n ≡ Some group) × (group_at run turn ≡ Some group) }
{
    live_blocks_are_those_of_the_layout();
    blocks_of_a_chunk_have_its_owner_as_group();
}

/// Two turns grant blocks that stand in one chunk, and no turn between them grants another in it. If the chunk's live
/// count isn't 0 at any moment between them, the second block begins where the first ends.
pub fn the_next_block_in_a_chunk_begins_where_the_last_ends()
    ensures { (run : Run) (i j block next k : ℕ) → HasGroups run → k < run.plan.area.chunks → i < j
        → GrantsIn run k i block → GrantsIn run k j next
        → ((n other : ℕ) → i < n → n < j → ¬ GrantsIn run k n other)
        → ((n : ℕ) → i < n → n ≤ j → 0 < live_count_at run k n)
        → begins run (suc j) next ≡ ends run (suc i) block }
{
    a_turn_does_what_its_note_says();
    layouts_stay_sound();
    a_new_block_stands_apart_from_the_old_ones();
    a_release_takes_one_block_alone();
    the_next_block_begins_where_the_last_ends();
}
