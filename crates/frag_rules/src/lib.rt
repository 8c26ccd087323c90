// What is used to prove runs of fragments: in specs/ rights to stretches of memory and a test of a
// fragment's fields; and, as contracts of empty functions, laws.
#![tactic(auto)]

ghost use Rattle.std.specs.Prelude.{◌≡◌, ℕ, ◌+◌, ◌*◌, ◌^◌, ◌<◌, ◌≤◌, List, Some, true, false, length, slice_index};
ghost use Rattle.rv_isa.specs.declared.Width.TheVariants.{Word};
ghost use Rattle.machine_spec.specs.Memory.{Range, range_at};
ghost use Rattle.flat_spec.specs.Stores.{loaded};
ghost use Rattle.frag_code.specs.Code.{instructions_of};
ghost use Rattle.frag_code.specs.Fragments.{Fragment};
ghost use Rattle.frag_code.specs.Forms.{HasFields};
ghost use Rattle.frag_code.specs.Machines.{StandsAt};
ghost use Rattle.frag_rules.specs.Checks.{has_fields, words_in};

/// A fragment that the test passes has its fields in their ranges, and its code has the sum of the words
/// of its parts.
pub fn fields_are_tested_and_words_counted_by_parts()
    ensures fields { (f : Fragment) → has_fields f ≡ true → HasFields f }
    ensures words { (f : Fragment) → length (instructions_of f) ≡ words_in f }
{}

/// Words that stand in a range with flag X and without flag W are code there, which a machine can run and
/// no store can change.
pub fn words_of_a_range_stand_as_code()
    ensures { (memory : List Range) (r : Range) (at : ℕ) (words : List ℕ) → r.executable ≡ true → r.writable ≡ false
        → at + 4 * length words ≤ 2 ^ 32
        → ((a : ℕ) → at ≤ a → a < at + 4 * length words → range_at memory a ≡ Some r)
        → ((k : ℕ) → k < length words → loaded memory Word (at + 4 * k) ≡ Some (slice_index words k))
        → StandsAt memory at words }
{}
