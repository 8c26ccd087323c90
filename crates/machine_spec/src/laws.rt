// A law of successive addresses: an empty function whose contract is proved.
ghost use Rattle.std.specs.Prelude.{◌≡◌, ◌+◌, ◌<◌, ◌≤◌, ◌↔◌, ℕ, Bool, true};
ghost use Rattle.machine_spec.specs.Memory.{all_from};

/// Successive addresses pass a test together exactly where each of them does, and two tests that agree at each
/// of them agree on all.
pub fn all_addresses_pass_where_each_does()
    ensures together { (test : ℕ → Bool) (a n : ℕ) → (all_from test a n ≡ true)
        ↔ ((k : ℕ) → a ≤ k → k < a + n → test k ≡ true) }
    ensures agree { (test other : ℕ → Bool) (a n : ℕ)
        → ((k : ℕ) → a ≤ k → k < a + n → test k ≡ other k) → all_from test a n ≡ all_from other a n }
{}
