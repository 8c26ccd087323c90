// Laws of the table and of the words, each an empty function whose contract is proved.
ghost use Rattle.std.specs.Prelude.{◌≡◌, ℕ, ◌^◌, ◌<◌, ◌↔◌, length, All, AllPairs};
ghost use Rattle.rv_isa.specs.Table.{table, decoded, Fits, SharesNoWord};
ghost use Rattle.rv_isa.specs.Encoded.{encoded, IsFormed};
ghost use Rattle.rv_isa.specs.Compute.{computed};
ghost use Rattle.rv_isa.specs.declared.Op.{Op};
ghost use Rattle.rv_isa.specs.declared.Instr.{Instr};

/// The table has 48 rows, and no word fits two of them: their order is of no importance.
pub fn no_word_fits_two_rows()
    ensures rows { length table ≡ 48 }
    ensures apart { AllPairs SharesNoWord table }
{}

/// A word is what the row that it fits says, and no instruction exactly where it fits no row.
pub fn the_fitting_row_decides()
    ensures fits { (w : ℕ) → All (λ row. Fits row w → decoded w ≡ Some (row.read w)) table }
    ensures none { (w : ℕ) → (decoded w ≡ None) ↔ All (λ row. ¬ Fits row w) table }
{}

/// Each formed instruction has a word that decodes to it, and each word that decodes is the word of a
/// formed instruction. What is encoded is a word, also of an instruction that is not formed.
pub fn words_and_instructions_agree()
    ensures bound { (i : Instr) → encoded i < 2 ^ 32 }
    ensures decodes { (i : Instr) → IsFormed i → decoded (encoded i) ≡ Some i }
    ensures formed { (w : ℕ) (i : Instr) → w < 2 ^ 32 → decoded w ≡ Some i → IsFormed i }
    ensures only { (w : ℕ) (i : Instr) → w < 2 ^ 32 → decoded w ≡ Some i → w ≡ encoded i }
{}

/// Operations give words of words.
pub fn results_are_words()
    ensures { (op : Op) (a b : ℕ) → a < 2 ^ 32 → b < 2 ^ 32 → computed op a b < 2 ^ 32 }
{}
