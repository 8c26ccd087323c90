// A law of first numbers, an empty function whose contract is proved.
ghost use Rattle.std.specs.Prelude.{◌≡◌, ◌<◌, ◌↔◌, ℕ, Bool, true, false, Some, None};
ghost use Rattle.first_check.specs.First.{first_below};

/// The first number below a bound that passes a test is found, and none exactly where none passes.
pub fn the_first_number_that_passes_is_found()
    ensures first { (test : ℕ → Bool) (bound n : ℕ) → (first_below test bound ≡ Some n)
        ↔ ((n < bound) × (test n ≡ true) × ((k : ℕ) → k < n → test k ≡ false)) }
    ensures none { (test : ℕ → Bool) (bound : ℕ) → (first_below test bound ≡ None)
        ↔ ((k : ℕ) → k < bound → test k ≡ false) }
{}
