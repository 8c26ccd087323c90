// What a listing's words say, as an empty function whose contract is proved.
ghost use Rattle.std.specs.Prelude.{◌≡◌, ℕ, ◌^◌, ◌<◌, Some, map};
ghost use Rattle.rv_isa.specs.Table.{decoded};
ghost use Rattle.rv_build.specs.Generated.{instructions, program};

use rv_isa::words_and_instructions_agree;

/// Each word of a generated program decodes to the instruction of its line: no immediate or jump of the
/// listing loses a bit.
pub fn the_words_decode_to_the_listing()
    ensures { (n : ℕ) → n < 2 ^ 32 → map decoded (program n).words ≡ map Some (instructions n) }
{
    words_and_instructions_agree();
}
