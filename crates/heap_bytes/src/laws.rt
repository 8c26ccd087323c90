// What the fragment does to memory, and its code: a law, which is an empty function whose contract is proved.
ghost use Rattle.std.specs.Prelude.{◌≡◌, length};
ghost use Rattle.frag_code.specs.Code.{instructions_of};
ghost use Rattle.frag_code.specs.Forms.{IsFormed};
ghost use Rattle.heap_bytes.specs.Copying.{copy_block, CopiesBlocks};

use frag_rules::fields_are_tested_and_words_counted_by_parts;

/// `copy_block` copies granules between two stretches that have no word in common, changes no other
/// word, and costs 33 a granule and 9 more. Its code has 15 words.
pub fn granules_are_copied()
    ensures copies { CopiesBlocks }
    ensures formed { IsFormed copy_block }
    ensures words { length (instructions_of copy_block) ≡ 15 }
{
    fields_are_tested_and_words_counted_by_parts();
}
