// The new file of a file that was read: it is read again, and starts with the old memory and what was added.
ghost use Rattle.std.specs.Prelude.{◌≡◌, ◌+◌, ◌≤◌, length, All, IfOk};
ghost use Rattle.elf_spec.specs.NewFile.{new_file};
ghost use Rattle.elf_spec.specs.Records.{e_phnum};
ghost use Rattle.elf_read.specs.Elf.{IsReadFrom, IsReadable};
ghost use Rattle.elf_write.specs.Inputs.{IsInside, IsSmall};
ghost use Rattle.elf_write.specs.Kept.{AreAddedAbove, AreFieldsAlone, AreTablesUnpatched, DoHeadersPass};
ghost use Rattle.elf_write.specs.Layout.{AreDisjointPatches, NewLayout};
ghost use Rattle.elf_write.specs.NewMemory.{NewMemory};

use crate::with_new_segments;
use elf_read::Elf;
use elf_spec::{NewSegment, Patch};
use std::alloc::{AllocError, Global};

/// As `with_new_segments`, of a file that `read_elf` read as `elf`. No two patches share a byte, and
/// each stands behind the file header. The one failure is want of memory.
///
/// The new file is read again where no patch and neither changed field of the file header lies over
/// the section headers, the symbols or their strings, and where its program headers pass their checks.
pub fn with_segments(
    alloc: Global,
    elf: &Elf,
    file: &[u8],
    patches: &[Patch],
    segments: &[NewSegment],
) -> Result<Vec<u8>, AllocError>
    requires read { IsReadFrom elf.now file.now }
    requires fits_32_mib { length file.now ≤ 33554432 }
    requires has_few_headers { e_phnum file.now ≤ 64 }
    requires patches_inside { All (IsInside (length file.now)) patches.now }
    requires patches_apart { AreDisjointPatches patches.now }
    requires few_segments { length segments.now ≤ 2 }
    requires small_segments { All IsSmall segments.now }
    ensures is { IfOk result (λ new. new.items ≡ new_file file.now patches.now segments.now) }
    ensures fits_33_mib { IfOk result (λ new. length new.items ≤ 34603008) }
    ensures layout { IfOk result (λ new. NewLayout file.now patches.now segments.now new.items) }
    ensures headers { AreAddedAbove file.now segments.now → DoHeadersPass file.now segments.now }
    ensures readable { IfOk result (λ new. AreTablesUnpatched file.now patches.now → AreFieldsAlone file.now
        → DoHeadersPass file.now segments.now → IsReadable new.items) }
    ensures memory { IfOk result (λ new. NewMemory file.now patches.now segments.now new.items) }
{
    let out = with_new_segments(alloc, file, patches, segments)?;
    Ok(out)
}
