// A law of readable files, an empty function whose contract is proved.
ghost use Rattle.std.specs.Prelude.{ℕ, List};
ghost use Rattle.elf_read.specs.Elf.{IsReadable};
ghost use Rattle.elf_read.specs.Readable.{ReadableFacts};

/// What the checks keep of every readable file: where its tables, its segments, its sections and its names
/// lie, and how many headers it has.
pub fn readable_files_keep_their_facts()
    ensures { (file : List ℕ) → IsReadable file → ReadableFacts file }
{}
