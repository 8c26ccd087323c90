// Laws of the readers and printers, each an empty function whose contract is proved.
ghost use Rattle.std.specs.Prelude.{◌≡◌, ◌≢◌, ◌<◌, ◌≤◌, ◌^◌, ◌++◌, ◌∷◌, ◌↔◌, ℕ, List, Some, None, All};
ghost use Rattle.std.specs.Fmt.{decimal};
ghost use Rattle.text_fields.specs.Reading.{after_front, cut_at, number_of, number_at, leading_at, GoesOnWithNoDigit};
ghost use Rattle.text_fields.specs.Reading.{hex_at};
ghost use Rattle.text_fields.specs.Writing.{hex8};

/// A number is read exactly where it is written and within the limit: as a whole word, before an end
/// byte that is no digit, from all digits at the front, and as eight hexadecimal digits.
pub fn numbers_are_read_as_they_are_written()
    ensures word { (max n : ℕ) (word : List ℕ) → max < 2 ^ 59
        → (number_of max word ≡ Some n) ↔ ((n ≤ max) × (word ≡ decimal n)) }
    ensures field { (end max n : ℕ) (bytes rest : List ℕ) → end < 48 → max < 2 ^ 59
        → (number_at end max bytes ≡ Some (n, rest)) ↔ ((n ≤ max) × (bytes ≡ decimal n ++ (end ∷ rest))) }
    ensures leading { (max n : ℕ) (bytes rest : List ℕ) → max < 2 ^ 59
        → (leading_at max bytes ≡ Some (n, rest))
        ↔ ((n ≤ max) × (bytes ≡ decimal n ++ rest) × GoesOnWithNoDigit rest) }
    ensures hexadecimal { (n : ℕ) (bytes rest : List ℕ)
        → (hex_at bytes ≡ Some (n, rest)) ↔ ((n < 2 ^ 32) × (bytes ≡ hex8 n ++ rest)) }
{}

/// A front is read exactly where it stands; a text is cut at the first end byte, and is left whole exactly
/// where it has none.
pub fn parts_are_read_where_they_stand()
    ensures front { (front bytes rest : List ℕ)
        → (after_front front bytes ≡ Some rest) ↔ (bytes ≡ front ++ rest) }
    ensures parts { (end : ℕ) (bytes word rest : List ℕ) → (cut_at end bytes ≡ Some (word, rest))
        ↔ ((bytes ≡ word ++ (end ∷ rest)) × All (λ b. b ≢ end) word) }
    ensures whole { (end : ℕ) (bytes : List ℕ) → (cut_at end bytes ≡ None) ↔ All (λ b. b ≢ end) bytes }
{}
