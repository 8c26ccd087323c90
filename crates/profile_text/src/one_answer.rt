// The law that a text has one answer, an empty function whose contract is proved.
ghost use Rattle.std.specs.Prelude.{◌≡◌, ℕ, List};
ghost use Rattle.plan_core.specs.declared.profiles.Profile.{Profile as Value};
ghost use Rattle.profile_text.specs.Profile.{profile_text, IsProfile};
ghost use Rattle.profile_text.specs.Grammar.{FirstBad};

use text_fields::{numbers_are_read_as_they_are_written, parts_are_read_where_they_stand};

/// A text is that of one profile, or has one first bad line; and only one of the two.
pub fn a_profile_text_has_one_answer()
    ensures profile { (p q : Value) → IsProfile p → IsProfile q → profile_text p ≡ profile_text q → p ≡ q }
    ensures line { (text : List ℕ) (n m : ℕ) → FirstBad text n → FirstBad text m → n ≡ m }
    ensures profile_not_line { (p : Value) (n : ℕ) → IsProfile p → ¬ FirstBad (profile_text p) n }
{
    numbers_are_read_as_they_are_written();
    parts_are_read_where_they_stand();
}
