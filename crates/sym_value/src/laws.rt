// Laws of values and of the words that stand for them, each an empty function whose contract is proved.
ghost use Rattle.std.specs.Prelude.{◌≡◌, ℕ, ◌^◌, ◌<◌, ◌≤◌, List, Bool, false, Some};
ghost use Rattle.rv_isa.specs.declared.Op.{Op};
ghost use Rattle.rv_isa.specs.declared.Cond.{Cond};
ghost use Rattle.rv_isa.specs.Compute.{computed, is_held};
ghost use Rattle.sym_value.specs.declared.Value.{Value};
ghost use Rattle.sym_value.specs.Places.{Lives, is_low, is_high};
ghost use Rattle.sym_value.specs.Decisions.{decide};
ghost use Rattle.sym_value.specs.Operations.{apply};
ghost use Rattle.sym_value.specs.Standing.{Holds, Placed, area_start, area_end};

/// Words that stand for two values give, by an operation, a word that stands for the operation's
/// value, and a condition that is decided of the values holds of the words exactly as decided:
/// wherever blocks are placed in the area, the living ones apart, and return addresses mapped.
pub fn values_stand_for_their_words()
    ensures operations { (back : ℕ → ℕ) (at : List ℕ) (live : Lives) (op : Op) (a b : Value) (v w : ℕ)
        → Placed live at → v < 2 ^ 32 → w < 2 ^ 32 → Holds back at a v → Holds back at b w
        → Holds back at (apply live op a b) (computed op v w) }
    ensures conditions { (back : ℕ → ℕ) (at : List ℕ) (live : Lives) (cond : Cond) (a b : Value) (so : Bool) (v w : ℕ)
        → Placed live at → Holds back at a v → Holds back at b w → decide live cond a b ≡ Some so
        → is_held cond v w ≡ so }
{}

/// A number inside the area is neither low nor high.
pub fn the_area_is_neither_low_nor_high()
    ensures { (live : Lives) (w : ℕ) → area_start live ≤ w → w < area_end
        → (is_low live w ≡ false) × (is_high w ≡ false) }
{}
