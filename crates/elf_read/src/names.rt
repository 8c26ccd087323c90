// The names of symbols: where they end in the strings (gABI, "String Table").

ghost use Rattle.std.specs.Prelude.{◌≡◌, ◌≢◌, ℕ, ◌+◌, ◌-◌, ◌*◌, ◌<◌, ◌≤◌, ◌^◌, length, IfOk, slice_index, vec_len};
ghost use Rattle.elf_spec.specs.Fields.{byte_at};
ghost use Rattle.elf_spec.specs.Tables.{name_len_at};
ghost use Rattle.elf_read.specs.Checks.{is_name_out};

use elf_spec::Section;
use std::alloc::{AllocError, Global};

/// Where the last name of the strings ends: behind their last zero byte; 0 where they have none.
pub(crate) fn names_end(file: &[u8], strings: Section) -> usize
    requires { strings.offset + strings.size ≤ length file.now }
    ensures within { result ≤ strings.size }
    ensures zero { 0 < result → byte_at file.now (strings.offset + (result - 1)) ≡ 0 }
    ensures last { (k : ℕ) → result ≤ k → k < strings.size → byte_at file.now (strings.offset + k) ≢ 0 }
{
    let mut end = strings.size as usize;
    while end > 0 && file[strings.offset as usize + (end - 1)] != 0 {
        end -= 1;
    }
    end
}

/// Whether a name is not empty and does not end in the strings, whose last name ends at `end`.
#[tactic(auto, using(crate::proofs::EndedNames::name_out))]
pub(crate) fn is_name_out(file: &[u8], strings: Section, end: usize, name: u32) -> bool
    requires inside { strings.offset + strings.size ≤ length file.now }
    requires end_inside { end ≤ strings.size }
    requires end_zero { 0 < end → byte_at file.now (strings.offset + (end - 1)) ≡ 0 }
    requires end_last { (k : ℕ) → end ≤ k → k < strings.size → byte_at file.now (strings.offset + k) ≢ 0 }
    ensures { result ≡ is_name_out file.now strings name }
{
    name != 0 && name as usize >= end
}

/// How long the name is that begins at an offset, from the length of the one behind it.
#[tactic(auto, using(crate::proofs::EndedNames::length_zero, crate::proofs::EndedNames::length_more))]
fn name_length(file: &[u8], at: usize, next: u32) -> u32
    requires inside { at < length file.now }
    requires next { byte_at file.now at ≢ 0 → next ≡ name_len_at file.now (at + 1) }
    requires fits { next + 1 < 2 ^ 32 }
    ensures length { result ≡ name_len_at file.now at }
    ensures short { result ≤ next + 1 }
{
    if file[at] == 0 { 0 } else { next + 1 }
}

/// How long the name is that begins at each place of the strings, up to the end of the last name.
pub(crate) fn name_lengths(
    alloc: Global,
    file: &[u8],
    strings: Section,
    end: usize,
) -> Result<Vec<u32>, AllocError>
    requires inside { strings.offset + strings.size ≤ length file.now }
    requires end_inside { end ≤ strings.size }
    requires end_zero { 0 < end → byte_at file.now (strings.offset + (end - 1)) ≡ 0 }
    ensures count { IfOk result (λ v. vec_len v ≡ end) }
    ensures each { IfOk result (λ v. (k : ℕ) → k < end → slice_index v.items k
        ≡ name_len_at file.now (strings.offset + k)) }
{
    let mut lengths = vec![in alloc; 0u32; end]?;
    let mut length = 0;
    let mut i = end;
    while i > 0 {
        i -= 1;
        length = name_length(file, strings.offset as usize + i, length);
        lengths[i] = length;
    }
    Ok(lengths)
}
