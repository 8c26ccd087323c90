// Laws of placing and releasing, each an empty function whose contract is proved.
ghost use Rattle.std.specs.Prelude.{◌≡◌, ℕ, ◌+◌, ◌<◌, ◌≤◌, ◌⊎◌, ◌↔◌, List, Option, option_map, All, AllPairs};
ghost use Rattle.plan_core.specs.declared.types.Area.{Area};
ghost use Rattle.plan_core.specs.declared.types.Row.{Row};
ghost use Rattle.plan_core.specs.Plan.{granules, group_of_bits};
ghost use Rattle.place_spec.specs.Layout.{Block, Layout, first_layout, current_of, chunk_of, chunk_size, chunk_front};
ghost use Rattle.place_spec.specs.Place.{Placed, IsRefused, placed};
ghost use Rattle.place_spec.specs.Release.{released, moved, block_at};
ghost use Rattle.place_spec.specs.Sound.{Sound, Covers, InChunk};
ghost use Rattle.place_spec.specs.Reached.{Request, IsAllowed, IsReached, StandsIn, StaysInUse, layout_after_all};

/// The first layout is sound, and placing, releasing and moving keep that; so each layout that
/// requests lead to is sound.
pub fn layouts_stay_sound()
    ensures first { (area : Area) → Sound area (first_layout area) }
    ensures placing { (rows : List Row) (area : Area) (layout : Layout) (need bits : ℕ) (p : Placed)
        → All (λ row. row.group < 16) rows → Sound area layout → 1 ≤ need
        → placed rows area layout need bits ≡ Some p → Sound area p.after }
    ensures releasing { (area : Area) (layout : Layout) (granule : ℕ) → Sound area layout
        → Sound area (released area layout granule) }
    ensures moving { (rows : List Row) (area : Area) (layout : Layout) (granule need bits : ℕ) (p : Placed)
        → All (λ row. row.group < 16) rows → Sound area layout → 1 ≤ need
        → moved rows area layout granule need bits ≡ Some p → Sound area p.after }
    ensures reached { (rows : List Row) (area : Area) (layout : Layout)
        → All (λ row. row.group < 16) rows → IsReached rows area layout → Sound area layout }
{}

/// A block is refused exactly where no hole is long enough and, if it has a group and a chunk can hold
/// it, the group's current chunk has no room and every chunk has an owner.
pub fn a_block_is_refused_exactly_where_nothing_has_room()
    ensures { (rows : List Row) (area : Area) (layout : Layout) (need bits : ℕ)
        → (placed rows area layout need bits ≡ None)
        ↔ IsRefused area layout need (group_of_bits rows bits) }
{}

/// No two live blocks share a granule; so it is in every layout that requests lead to.
pub fn live_blocks_share_no_granule()
    ensures sound { (area : Area) (layout : Layout) → Sound area layout
        → AllPairs (λ b c. (i : ℕ) → Covers b i → ¬ Covers c i) layout.blocks }
    ensures reached { (rows : List Row) (area : Area) (layout : Layout)
        → All (λ row. row.group < 16) rows → IsReached rows area layout
        → AllPairs (λ b c. (i : ℕ) → Covers b i → ¬ Covers c i) layout.blocks }
{}

/// Every live block lies inside the area, and inside the fallback or one chunk; so it is in every
/// layout that requests lead to.
pub fn live_blocks_lie_inside()
    ensures area { (area : Area) (layout : Layout) → Sound area layout
        → All (λ b. b.first + b.granules ≤ granules area) layout.blocks }
    ensures part { (area : Area) (layout : Layout) → Sound area layout
        → All (λ b. (b.first + b.granules ≤ area.fallback) ⊎ ((k : ℕ) × (k < area.chunks)
        × (chunk_front area k ≤ b.first)
        × (b.first + b.granules ≤ chunk_front area (k + 1)))) layout.blocks }
    ensures reached_area { (rows : List Row) (area : Area) (layout : Layout)
        → All (λ row. row.group < 16) rows → IsReached rows area layout
        → All (λ b. b.first + b.granules ≤ granules area) layout.blocks }
    ensures reached_part { (rows : List Row) (area : Area) (layout : Layout)
        → All (λ row. row.group < 16) rows → IsReached rows area layout
        → All (λ b. (b.first + b.granules ≤ area.fallback) ⊎ ((k : ℕ) × (k < area.chunks)
        × (chunk_front area k ≤ b.first)
        × (b.first + b.granules ≤ chunk_front area (k + 1)))) layout.blocks }
{}

/// A chunk with live blocks has an owner, and that is the group of all of them; so it is in every
/// layout that requests lead to.
pub fn blocks_of_a_chunk_have_its_owner_as_group()
    ensures sound { (area : Area) (layout : Layout) → Sound area layout → All (λ b. (k : ℕ)
        → k < area.chunks → InChunk area k b → (group : ℕ)
        × ((chunk_of layout k).owner ≡ Some group) × (b.group ≡ Some group)) layout.blocks }
    ensures reached { (rows : List Row) (area : Area) (layout : Layout)
        → All (λ row. row.group < 16) rows → IsReached rows area layout → All (λ b. (k : ℕ)
        → k < area.chunks → InChunk area k b → (group : ℕ)
        × ((chunk_of layout k).owner ≡ Some group) × (b.group ≡ Some group)) layout.blocks }
{}

/// Two blocks are placed in a chunk and no other between them. If at every moment between them the
/// chunk has a live block, the second begins where the first ends.
pub fn the_next_block_begins_where_the_last_ends()
    ensures { (rows : List Row) (area : Area) (layout : Layout) (k need bits : ℕ) (p : Placed)
        (between : List Request) (next_need next_bits : ℕ) (q : Placed)
        → All (λ row. row.group < 16) rows → Sound area layout → k < area.chunks
        → 1 ≤ need → placed rows area layout need bits ≡ Some p → StandsIn area k p.granule
        → All IsAllowed between → StaysInUse rows area k p.after between → 1 ≤ next_need
        → placed rows area (layout_after_all rows area p.after between) next_need next_bits ≡ Some q
        → StandsIn area k q.granule → q.granule ≡ p.granule + need }
{}

/// Once the only live block of a chunk is released that is its owner's current one, the group's next
/// block that a chunk can hold begins at the chunk's front.
pub fn an_emptied_chunk_is_filled_from_its_front()
    ensures { (rows : List Row) (area : Area) (layout : Layout) (k group granule need bits : ℕ) (b : Block)
        → Sound area layout → current_of layout group ≡ Some k → (chunk_of layout k).live ≡ 1
        → block_at layout granule ≡ Some b → InChunk area k b
        → need ≤ chunk_size area → group_of_bits rows bits ≡ Some group
        → option_map (λ p. p.granule) (placed rows area (released area layout granule) need bits)
        ≡ Some (chunk_front area k) }
{}
