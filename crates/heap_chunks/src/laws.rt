// Laws of the fragments of chunks, each an empty function whose contract is proved.
ghost use Rattle.std.specs.Prelude.{ℕ, ◌+◌, ◌^◌, ◌<◌, ◌≤◌, List, All};
ghost use Rattle.plan_core.specs.declared.types.Area.{Area};
ghost use Rattle.plan_core.specs.declared.types.Row.{Row};
ghost use Rattle.heap_chunks.specs.Results.{HasRoom, FindsGroup, PlacesHigh, ReleasesHigh};

/// The tests of the rows find the word of the group that the rows give to the bits.
pub fn groups_are_found()
    ensures { (rows : List Row) (data_at : ℕ) → All (λ row. row.mask < 2 ^ 32) rows
        → All (λ row. row.group < 16) rows → data_at + 128 ≤ 2 ^ 32 → FindsGroup rows data_at }
{}

/// A block of a group is placed in a chunk by the first two rules: tables that spell a layout spell the one
/// after the placing, or they stay, exactly where these rules find no room.
pub fn blocks_are_placed_in_chunks()
    ensures { (area : Area) (data_at : ℕ) → HasRoom area data_at → 0 < area.chunks → PlacesHigh area data_at }
{}

/// The release of a block in a chunk takes tables that spell a layout to those that spell the one after it.
pub fn blocks_are_released_in_chunks()
    ensures { (area : Area) (data_at : ℕ) → HasRoom area data_at → ReleasesHigh area data_at }
{}
