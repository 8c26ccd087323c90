// The law of new files that are read again, an empty function whose contract is proved.
ghost use Rattle.std.specs.Prelude.{ℕ, ◌+◌, ◌≤◌, List, All, length};
ghost use Rattle.elf_spec.specs.declared.NewSegment.{NewSegment};
ghost use Rattle.elf_spec.specs.declared.Patch.{Patch};
ghost use Rattle.elf_spec.specs.NewFile.{new_file};
ghost use Rattle.elf_spec.specs.Records.{e_phnum};
ghost use Rattle.elf_read.specs.Elf.{IsReadable};
ghost use Rattle.elf_write.specs.Inputs.{IsInside};
ghost use Rattle.elf_write.specs.Kept.{AreFieldsAlone, AreTablesUnpatched, DoHeadersPass};

use elf_read::readable_files_keep_their_facts;

/// The new file of a readable file is readable, where its patches stand behind the file header and, like the changed
/// fields of the file header, beside the section headers, the symbols and their strings, and where its program headers
/// pass their checks and are at most 100 (gABI, "ELF Header", "Section Header", "Symbol Table", "String Table").
pub fn new_files_are_read_again()
    ensures { (file : List ℕ) (patches : List Patch) (segments : List NewSegment) → IsReadable file
        → All (IsInside (length file)) patches → All (λ p. 52 ≤ p.offset) patches
        → e_phnum file + length segments ≤ 100 → AreTablesUnpatched file patches → AreFieldsAlone file
        → DoHeadersPass file segments → IsReadable (new_file file patches segments) }
{
    readable_files_keep_their_facts();
}
