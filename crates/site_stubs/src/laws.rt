// The laws of stubs, each an empty function whose contract is proved.
ghost use Rattle.std.specs.Prelude.{◌≡◌, ◌<◌, ◌%◌, ◌^◌, ℕ};
ghost use Rattle.rv_isa.specs.Addresses.{minus, plus};
ghost use Rattle.rv_isa.specs.Encoded.{IsExtended};
ghost use Rattle.rv_isa.specs.Split.{split_of};
ghost use Rattle.new_file_spec.specs.Stubs.{stub_words};
ghost use Rattle.site_stubs.specs.StubRuns.{Calls, Returns};

/// What the words of a stub do: five turns set the bit and call the target, six clear it and come back.
pub fn stubs_call_and_come_back()
    ensures calls { (at bit target back : ℕ) → at < 2 ^ 32 → bit < 32 → target < 2 ^ 32 → target % 4 ≡ 0
        → Calls at bit target (stub_words at bit target back) }
    ensures returns { (at bit target back : ℕ) → bit < 32 → back < 2 ^ 32 → back % 4 ≡ 0
        → Returns at bit back (stub_words at bit target back) }
{}

/// The two parts of a distance are operands of `auipc` and `jalr`, and lead from one address to the other.
pub fn parts_of_a_distance_lead_there()
    ensures upper { (d : ℕ) → d < 2 ^ 32 → ((split_of d).0 < 2 ^ 32) × ((split_of d).0 % 2 ^ 12 ≡ 0) }
    ensures lower { (d : ℕ) → d < 2 ^ 32 → IsExtended 12 (split_of d).1 }
    ensures there { (from target : ℕ) → from < 2 ^ 32 → target < 2 ^ 32
        → plus (plus from (split_of (minus target from)).0) (split_of (minus target from)).1 ≡ target }
{}
