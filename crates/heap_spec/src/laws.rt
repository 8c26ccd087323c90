// Laws of the tables, each an empty function whose contract is proved.
ghost use Rattle.std.specs.Prelude.{◌≡◌, ℕ, ◌+◌, ◌*◌, ◌==◌, [], ◌∷◌, length, if◌then◌else◌};
ghost use Rattle.plan_core.specs.declared.types.Area.{Area};
ghost use Rattle.place_spec.specs.Layout.{first_layout};
ghost use Rattle.heap_spec.specs.Places.{base_of, area_end};
ghost use Rattle.heap_spec.specs.Tables.{Spells, HasWords, first_words};

/// The first words of the tables spell the first layout, whatever stands behind them, and there are as
/// many as 128 bytes, 16 for each chunk and 8 for the one hole have.
pub fn first_words_spell_the_first_layout()
    ensures spells { (area : Area) (data_at : ℕ) (memory : ℕ → ℕ) → HasWords memory data_at (first_words area)
        → Spells area data_at memory (first_layout area) }
    ensures size { (area : Area) → 4 * length (first_words area)
        ≡ 128 + 16 * area.chunks + (if area.fallback == 0 then 0 else 8) }
{}

/// The tables of an area of one chunk of 4 granules and a fallback of 4, at 0x16000: their 38 first words,
/// and where the area begins and ends.
pub fn tables_of_a_small_area()
    ensures words { first_words (record { chunks = 1; log_chunk = 2; fallback = 4 })
        ≡ 0 ∷ 0 ∷ 0 ∷ 0 ∷ 0 ∷ 0 ∷ 0 ∷ 0 ∷ 0 ∷ 0 ∷ 0 ∷ 0 ∷ 0 ∷ 0 ∷ 0 ∷ 0
        ∷ 0xFFFFFFFF ∷ 0xFFFFFFFF ∷ 0xFFFFFFFF ∷ 0xFFFFFFFF ∷ 0xFFFFFFFF ∷ 0xFFFFFFFF ∷ 0xFFFFFFFF ∷ 0xFFFFFFFF
        ∷ 0xFFFFFFFF ∷ 0xFFFFFFFF ∷ 0xFFFFFFFF ∷ 0xFFFFFFFF ∷ 0xFFFFFFFF ∷ 0xFFFFFFFF ∷ 0xFFFFFFFF ∷ 0xFFFFFFFF
        ∷ 0xFFFFFFFF ∷ 0 ∷ 0 ∷ 0 ∷ 4 ∷ 0xFFFFFFFF ∷ [] }
    ensures front { base_of (record { chunks = 1; log_chunk = 2; fallback = 4 }) 0x16000 ≡ 0x160D0 }
    ensures end { area_end (record { chunks = 1; log_chunk = 2; fallback = 4 }) 0x16000 ≡ 0x16150 }
{}
