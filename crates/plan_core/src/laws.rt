// Laws of a plan's text, each an empty function whose contract is proved.
ghost use Rattle.std.specs.Prelude.{◌≡◌, ◌++◌, ◌↔◌, ℕ, List, Some};
ghost use Rattle.plan_core.specs.declared.lines.TextLine.{TextLine};
ghost use Rattle.plan_core.specs.declared.types.Plan.{Plan as Value};
ghost use Rattle.plan_core.specs.Plan.{line_text, plan_text, LineFits, IsPlan};
ghost use Rattle.plan_core.specs.Grammar.{FirstBad, FirstOver};
ghost use Rattle.plan_core.specs.Reading.{line_at};

use text_fields::{numbers_are_read_as_they_are_written, parts_are_read_where_they_stand};

/// A line is read exactly where it fits and is written.
pub(crate) fn lines_are_read_as_they_are_written()
    ensures { (text : List ℕ) (line : TextLine) (rest : List ℕ) → (line_at text ≡ Some (line, rest))
        ↔ (LineFits line × (text ≡ line_text line ++ rest)) }
{
    numbers_are_read_as_they_are_written();
    parts_are_read_where_they_stand();
}

/// A text is that of one plan, has one first bad line, or one first line that is too many; and only one
/// of the three.
pub fn a_text_has_one_answer()
    ensures plan { (p q : Value) → IsPlan p → IsPlan q → plan_text p ≡ plan_text q → p ≡ q }
    ensures line { (text : List ℕ) (n m : ℕ) → FirstBad text n → FirstBad text m → n ≡ m }
    ensures too_many { (text : List ℕ) (n m : ℕ) → FirstOver text n → FirstOver text m → n ≡ m }
    ensures line_alone { (text : List ℕ) (n m : ℕ) → FirstBad text n → ¬ FirstOver text m }
    ensures plan_not_line { (p : Value) (n : ℕ) → IsPlan p → ¬ FirstBad (plan_text p) n }
    ensures plan_not_too_many { (p : Value) (n : ℕ) → IsPlan p → ¬ FirstOver (plan_text p) n }
{
    lines_are_read_as_they_are_written();
}
