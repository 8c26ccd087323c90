// Laws of the grammar, for those who stand on its definitions.
ghost use Rattle.std.specs.Prelude.{◌≡◌, ℕ, List, true, slice_get, Some};
ghost use Rattle.halo_words.specs.Table.{Choice, OperandRule, CommandForm, fits, choice_named, shape_named, the_table};
ghost use Rattle.halo_words.specs.Grammar.{Asked, AsksFor, IsLine, IsFirstWrong, option_in, operand_in};

/// Words ask for one thing at most.
pub fn words_ask_for_one_thing()
    ensures { (words : List (List ℕ)) (a b : Asked) → AsksFor the_table words a → AsksFor the_table words b → a ≡ b }
{}

/// Words with a first wrong word are no line.
pub fn words_with_a_wrong_one_are_no_line()
    ensures { (words : List (List ℕ)) (place : ℕ) → IsFirstWrong the_table words place → IsLine the_table words → ⊥ }
{}

/// What a line gives to its command fits: each option's value, given or by default, and each operand.
pub fn what_a_line_gives_fits()
    ensures options { (words : List (List ℕ)) (asked : Asked) (shape : CommandForm) → AsksFor the_table words asked
        → shape_named the_table asked.word ≡ Some shape → (name : List ℕ) (choice : Choice)
        → choice_named shape.choices name ≡ Some choice → fits choice.kind (option_in asked.given name) ≡ true }
    ensures operands { (words : List (List ℕ)) (asked : Asked) (shape : CommandForm) → AsksFor the_table words asked
        → shape_named the_table asked.word ≡ Some shape → (k : ℕ) (place : OperandRule)
        → slice_get shape.operands k ≡ Some place → fits place.kind (operand_in asked.given k) ≡ true }
{}
