// The old bytes with the patches and with the file header's new fields.
ghost use Rattle.std.specs.Prelude.{◌≡◌, ◌+◌, ◌*◌, ◌≤◌, length, vec_capacity, All, IfOk};
ghost use Rattle.elf_spec.specs.NewFile.{front, patched};
ghost use Rattle.elf_spec.specs.Records.{e_phnum};
ghost use Rattle.elf_write.specs.Inputs.{IsInside};

use crate::bytes::{set_half, set_word};
use crate::table::{E_PHNUM, E_PHOFF, header_count, table_place};
use elf_spec::Patch;
use std::alloc::{AllocError, Global};

/// Writes each patch, in order.
fn patch_all(bytes: &mut [u8], patches: &[Patch])
    requires { All (IsInside (length bytes.old)) patches.now }
    ensures is { bytes.new ≡ patched patches.now bytes.old }
    ensures long { length bytes.new ≡ length bytes.old }
{
    for patch in patches {
        set_word(bytes, patch.offset as usize, patch.word);
    }
}

/// The bytes of `file` with `patches`, with the program header table at its new place and with
/// `more` further headers, in a vector with room for `capacity` bytes.
#[tactic(auto, unfolding(elf_spec::specs::NewFile::front))]
pub fn front_copy(
    alloc: Global,
    capacity: usize,
    file: &[u8],
    patches: &[Patch],
    more: usize,
) -> Result<Vec<u8>, AllocError>
    requires has_file_header { 52 ≤ length file.now }
    requires fits_32_mib { length file.now ≤ 33554432 }
    requires has_few_headers { e_phnum file.now ≤ 64 }
    requires patches_inside { All (IsInside (length file.now)) patches.now }
    requires few_segments { more ≤ 2 }
    ensures is { IfOk result (λ out. out.items ≡ front file.now patches.now more) }
    ensures long { IfOk result (λ out. length out.items ≡ length file.now) }
    ensures room { IfOk result (λ out. capacity ≤ vec_capacity out) }
{
    let mut out = Vec::with_capacity(alloc, capacity)?;
    out.extend_from_slice(file)?;
    patch_all(&mut out, patches);
    set_word(&mut out, E_PHOFF, table_place(file) as u32);
    set_half(&mut out, E_PHNUM, (header_count(file) + more) as u16);
    Ok(out)
}
