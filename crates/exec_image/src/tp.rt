// The check that no code word names x4.

ghost use Rattle.std.specs.Prelude.{◌≡◌, ℕ, ◌<◌, ◌≤◌, false, true, IfNone, IfSome};
ghost use Rattle.first_check.specs.Answers.{Says};
ghost use Rattle.exec_image.specs.Checks.{is_tp_word, uses_tp_at};
ghost use Rattle.exec_image.specs.CodeParts.{IsCode};
ghost use Rattle.exec_image.specs.Refusals.{tp_used};

use crate::code::{code_word, next_code_word};
use crate::parts::Part;
use crate::refusals::FileRefusal;
use elf_spec::Segment;
use first_check::the_first_number_that_passes_is_found;
use rv_isa::{decode, names};

/// The register that is to hold the sites' bits.
const TP: u8 = 4;

fn is_tp_word(word: Option<u32>) -> bool
    ensures { result ≡ is_tp_word word }
{
    match word {
        Some(word) => match decode(word) {
            Some(instruction) => names(&instruction, TP),
            None => false,
        },
        None => false,
    }
}

/// The first code word that names x4.
fn find_tp(file: &[u8], segments: &[Segment], code: &[Part]) -> Option<u32>
    requires { IsCode file.now segments.now code.now }
    ensures found { IfSome result (λ a. uses_tp_at file.now a ≡ true) }
    ensures first { IfSome result (λ a. (b : ℕ) → b < a → uses_tp_at file.now b ≡ false) }
    ensures none { IfNone result ((b : ℕ) → uses_tp_at file.now b ≡ false) }
{
    let mut from = 0;
    while let Some(a) = next_code_word(file, segments, code, from) {
        if is_tp_word(code_word(file, segments, code, a)) {
            return Some(a);
        }
        from = a + 4;
    }
    None
}

/// Checks that no code word names x4.
#[tactic(auto, unfolding(crate::specs::Refusals::tp_used))]
pub fn check_tp(file: &[u8], segments: &[Segment], code: &[Part]) -> Result<(), FileRefusal>
    requires { IsCode file.now segments.now code.now }
    ensures { Says result (tp_used file.now) }
{
    the_first_number_that_passes_is_found();
    match find_tp(file, segments, code) {
        Some(a) => Err(FileRefusal::TpUsed(a)),
        None => Ok(()),
    }
}
