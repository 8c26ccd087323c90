// The builder: it takes the parts of an executable one by one and makes the file of them.
ghost use Rattle.std.specs.Prelude.{◌≡◌, ◌≤◌, OnOk, OnErr, IfOk};
ghost use Rattle.rv_build.specs.Parts.{AreSmall, no_parts, with_word, with_symbol, with_reloc};
ghost use Rattle.rv_build.specs.Reads.{Reads};
ghost use Rattle.rv_build.specs.Built.{built_file, code_segment, code_size, offsets_of, sections_built};

use crate::fields::push_zeros;
use crate::head::{
    BASE, CODE_AT, ENTRY, HEADERS_SIZE, PAGE, PT_LOAD, READ_AND_EXECUTE, SECTION_SIZE, SECTIONS,
    push_file_header, push_segment,
};
use crate::labels::{Label, LabelList};
use crate::offsets::{Offsets, names_size};
use crate::sections::{CODE_FLAGS, NULL_SECTION, PROGBITS, RELA, STRTAB, SYMTAB, push_sections};
use crate::tables::{
    RELOC_SIZE, SYMBOL_NAMES_AT, SYMBOL_SIZE, push_code, push_names, push_relocs, push_symbols,
};
use elf_spec::{ByteList, Reloc, Section, Segment};
use std::alloc::{AllocError, Global};
use std::marker::Model;
use vec_list::VecList;

/// The parts of a small linked executable. Its code stands at the address 0x10100, which is its entry,
/// in one segment that is read and executed; there is no writable segment.
#[derive(Debug, Drop)]
pub struct Builder {
    words: VecList<u32>,
    symbols: LabelList,
    relocs: VecList<Reloc>,
}

impl Model for Builder {
    ghost use Rattle.rv_build.specs.Parts.{Parts};

    ghost Value = { Parts };

    ghost view = { λ b. record {
      words = b.words;
      symbols = b.symbols;
      relocs = b.relocs;
    } };
}

impl Builder {
    /// A builder without parts, which takes no memory.
    pub fn new(alloc: Global) -> Builder
        ensures { result ≡ no_parts }
    {
        Builder {
            words: VecList::new(alloc),
            symbols: VecList::new(alloc),
            relocs: VecList::new(alloc),
        }
    }

    /// Adds a word of code, or fails for want of memory and leaves the builder as it was.
    pub fn word(&mut self, word: u32) -> Result<(), AllocError>
        ensures ok { OnOk result (self.new ≡ with_word self.old word) }
        ensures err { OnErr result (self.new ≡ self.old) }
    {
        self.words.push(word)
    }

    /// Adds a global function of the code's section: its name, its address and its size. Fails for want
    /// of memory alone, and then leaves the builder as it was.
    pub fn symbol(
        &mut self,
        alloc: Global,
        name: &str,
        at: u32,
        size: u32,
    ) -> Result<(), AllocError>
        ensures ok { OnOk result (self.new ≡ with_symbol self.old record { name = name.now; at = at; size = size }) }
        ensures err { OnErr result (self.new ≡ self.old) }
    {
        let bytes = Vec::from_slice(alloc, name.as_bytes())?;
        self.symbols.push(Label {
            name: ByteList::from(bytes),
            at,
            size,
        })
    }

    /// Adds a relocation entry of the code, with addend 0, or fails for want of memory and leaves the
    /// builder as it was. Symbol 0 is the null symbol; the symbols that were added have the indices
    /// from 1 on.
    pub fn reloc(&mut self, reloc: Reloc) -> Result<(), AllocError>
        ensures ok { OnOk result (self.new ≡ with_reloc self.old reloc) }
        ensures err { OnErr result (self.new ≡ self.old) }
    {
        self.relocs.push(reloc)
    }

    /// The file, in which a reader finds what was added. The one failure is want of memory.
    pub fn finish(&self, alloc: Global) -> Result<Vec<u8>, AllocError>
        requires { AreSmall self.now }
        ensures is { IfOk result (λ file. file.items ≡ built_file self.now) }
        ensures reads { IfOk result (λ file. Reads self.now file.items) }
    {
        let file = self.made(alloc)?;
        Ok(file)
    }

    /// The bytes of the file, in one buffer.
    #[tactic(auto, using(crate::proofs::Assoc::assoc), unfolding(crate::specs::Built::built_file))]
    fn made(&self, alloc: Global) -> Result<Vec<u8>, AllocError>
        requires { AreSmall self.now }
        ensures { IfOk result (λ file. file.items ≡ built_file self.now) }
    {
        let at = self.offsets();
        let mut out = Vec::with_capacity(
            alloc,
            at.sections + usize::from(SECTION_SIZE * SECTIONS),
        )?;
        push_file_header(&mut out, at.sections as u32)?;
        push_segment(&mut out, self.segment())?;
        push_zeros(&mut out, CODE_AT - HEADERS_SIZE)?;
        push_code(&mut out, self.words.as_slice())?;
        push_relocs(&mut out, self.relocs.as_slice())?;
        push_symbols(&mut out, self.symbols.as_slice())?;
        push_names(&mut out, self.symbols.as_slice())?;
        push_zeros(&mut out, at.sections - (at.strings + at.strings_size))?;
        push_sections(&mut out, &self.sections(at))?;
        Ok(out)
    }

    /// Where the parts of the file begin.
    fn offsets(&self) -> Offsets
        requires { AreSmall self.now }
        ensures is { result ≡ offsets_of self.now }
        ensures low { result.sections ≤ 9000000 }
        ensures short { result.strings_size ≤ 70000 }
    {
        let relocs = CODE_AT + self.code_size();
        let symbols = relocs + RELOC_SIZE * self.relocs.as_slice().len();
        let strings = symbols + SYMBOL_SIZE * (1 + self.symbols.as_slice().len());
        let strings_size = SYMBOL_NAMES_AT + names_size(self.symbols.as_slice());
        Offsets {
            relocs,
            symbols,
            strings,
            strings_size,
            sections: (strings + strings_size).next_multiple_of(4),
        }
    }

    /// The bytes of the code.
    fn code_size(&self) -> usize
        requires { AreSmall self.now }
        ensures is { result ≡ code_size self.now }
        ensures low { result ≤ 8000000 }
    {
        4 * self.words.as_slice().len()
    }

    /// The segment from the file's start to the code's end.
    fn segment(&self) -> Segment
        requires { AreSmall self.now }
        ensures { result ≡ code_segment self.now }
    {
        let size = (CODE_AT + self.code_size()) as u32;
        Segment {
            kind: PT_LOAD,
            offset: 0,
            vaddr: BASE,
            paddr: BASE,
            file_size: size,
            mem_size: size,
            flags: READ_AND_EXECUTE,
            align: PAGE,
        }
    }

    /// The sections of a file whose parts stand at these offsets.
    fn sections(&self, at: Offsets) -> [Section; 5]
        requires small { AreSmall self.now }
        requires offsets { at ≡ offsets_of self.now }
        requires low { at.strings_size ≤ 70000 }
        ensures { result ≡ sections_built self.now }
    {
        [
            NULL_SECTION,
            Section {
                name: 1,
                kind: PROGBITS,
                flags: CODE_FLAGS,
                addr: ENTRY,
                offset: CODE_AT as u32,
                size: self.code_size() as u32,
                align: 4,
                ..NULL_SECTION
            },
            Section {
                name: 7,
                kind: RELA,
                offset: at.relocs as u32,
                size: (at.symbols - at.relocs) as u32,
                link: 3, // the symbols
                info: 1, // the code
                align: 4,
                entry_size: RELOC_SIZE as u32,
                ..NULL_SECTION
            },
            Section {
                name: 18,
                kind: SYMTAB,
                offset: at.symbols as u32,
                size: (at.strings - at.symbols) as u32,
                link: 4, // the strings
                info: 1, // the first global symbol
                align: 4,
                entry_size: SYMBOL_SIZE as u32,
                ..NULL_SECTION
            },
            Section {
                name: 26,
                kind: STRTAB,
                offset: at.strings as u32,
                size: at.strings_size as u32,
                align: 1,
                ..NULL_SECTION
            },
        ]
    }
}
