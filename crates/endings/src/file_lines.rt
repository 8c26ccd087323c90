// The lines that say what is wrong with a file.
ghost use Rattle.std.specs.Prelude.{◌≡◌, ◌≤◌, ◌++◌, length, codes, decimal};
ghost use Rattle.text_fields.specs.Writing.{hex8};
ghost use Rattle.elf_spec.specs.Heap.{heap_name};
ghost use Rattle.endings.specs.Texts.{elf_text, file_text, part_text, refusal_text, reloc_text};

use crate::endings::BadFile;
use crate::parts::{Line, address_line, number_line, push_address, text_line};
use elf_read::{ElfRefusal, Table};
use exec_image::{FileRefusal, HeapName, ImagePart};
use itoa::Buffer;
use reloc_table::RelocRefusal;

/// The line of a file that is refused.
pub fn file_line(why: BadFile) -> Line
    ensures { result.bytes ≡ codes "halo: file: " ++ file_text why ++ codes "\n" }
{
    match why {
        BadFile::TooLong => text_line("halo: file: ", "too long"),
        BadFile::Refused(why) => refusal_line(why),
    }
}

/// The line of a file that isn't accepted as an executable.
fn refusal_line(why: FileRefusal) -> Line
    ensures { result.bytes ≡ codes "halo: file: " ++ refusal_text why ++ codes "\n" }
{
    match why {
        FileRefusal::Elf(why) => elf_line(why),
        FileRefusal::Relocs(why) => reloc_line(why),
        FileRefusal::ExecNotWords(i) => {
            number_line("halo: file: section ", u64::from(i), " not words\n")
        }
        FileRefusal::ExecOutside(i) => {
            number_line("halo: file: section ", u64::from(i), " outside\n")
        }
        FileRefusal::EntryOut(at) => address_line("halo: file: entry ", at, " out\n"),
        FileRefusal::HeapEntryTwice(name) => heap_line(name, " twice\n"),
        FileRefusal::HeapEntrySmall(name) => heap_line(name, " small\n"),
        FileRefusal::AlreadyRewritten => text_line("halo: file: ", "already rewritten"),
        FileRefusal::ImageTooLarge(part) => text_line("halo: file: ", image_part(part)),
        FileRefusal::TpUsed(at) => address_line("halo: file: x4 at ", at, "\n"),
        FileRefusal::Memory => text_line("halo: file: ", "out of memory"),
    }
}

/// The line of a file whose headers or symbols are refused.
fn elf_line(why: ElfRefusal) -> Line
    ensures { result.bytes ≡ codes "halo: file: " ++ elf_text why ++ codes "\n" }
{
    match why {
        ElfRefusal::NotElf => text_line("halo: file: ", "not elf"),
        ElfRefusal::WrongClass(n) => number_line("halo: file: class ", u64::from(n), "\n"),
        ElfRefusal::WrongOrder(n) => number_line("halo: file: byte order ", u64::from(n), "\n"),
        ElfRefusal::WrongVersion => text_line("halo: file: ", "version"),
        ElfRefusal::NotExec(n) => number_line("halo: file: type ", u64::from(n), "\n"),
        ElfRefusal::NotRiscv(n) => number_line("halo: file: machine ", u64::from(n), "\n"),
        ElfRefusal::Flags(flags) => address_line("halo: file: flags ", flags, "\n"),
        ElfRefusal::TableOut(Table::Program) => text_line("halo: file: ", "program headers out"),
        ElfRefusal::TableOut(Table::Section) => text_line("halo: file: ", "section headers out"),
        ElfRefusal::TooMany(n) => number_line("halo: file: program headers ", u64::from(n), "\n"),
        ElfRefusal::SegmentKind { index, kind } => kind_line(index, kind),
        ElfRefusal::SegmentOut(i) => number_line("halo: file: segment ", u64::from(i), " out\n"),
        ElfRefusal::SegmentOverlap(i) => {
            number_line("halo: file: segment ", u64::from(i), " overlaps\n")
        }
        ElfRefusal::TooLarge(n) => number_line("halo: file: ", u64::from(n), " bytes\n"),
        ElfRefusal::SectionOut(i) => number_line("halo: file: section ", u64::from(i), " out\n"),
        ElfRefusal::NameOut(i) => number_line("halo: file: symbol ", u64::from(i), " name out\n"),
        ElfRefusal::Memory => text_line("halo: file: ", "out of memory"),
    }
}

/// The line of a file whose relocations are refused.
fn reloc_line(why: RelocRefusal) -> Line
    ensures { result.bytes ≡ codes "halo: file: " ++ reloc_text why ++ codes "\n" }
{
    match why {
        RelocRefusal::NoRelocs => text_line("halo: file: ", "no relocations"),
        RelocRefusal::EntrySize(i) => {
            number_line("halo: file: section ", u64::from(i), " entry size\n")
        }
        RelocRefusal::SymbolOut { section, entry } => symbol_line(section, entry),
        RelocRefusal::Tls(place) => address_line("halo: file: tls at ", place, "\n"),
        RelocRefusal::Compressed(place) => address_line("halo: file: compressed at ", place, "\n"),
        RelocRefusal::Memory => text_line("halo: file: ", "out of memory"),
    }
}

/// The line of a segment of a kind that isn't taken.
fn kind_line(index: u32, kind: u32) -> Line
    ensures { result.bytes ≡ codes "halo: file: segment " ++ decimal index ++ codes " kind " ++ hex8 kind
        ++ codes "\n" }
{
    let mut line = Line::new();
    line.push_str("halo: file: segment ");
    line.push_str(Buffer::new().format(index));
    line.push_str(" kind ");
    push_address(&mut line, kind);
    line.push_str("\n");
    line
}

/// The line of a relocation entry whose symbol isn't there.
fn symbol_line(section: u32, entry: u32) -> Line
    ensures { result.bytes ≡ codes "halo: file: " ++ reloc_text (RelocRefusal.SymbolOut section entry) ++ codes "\n" }
{
    let mut line = Line::new();
    line.push_str("halo: file: section ");
    line.push_str(Buffer::new().format(section));
    line.push_str(" entry ");
    line.push_str(Buffer::new().format(entry));
    line.push_str(" symbol out\n");
    line
}

/// The line of a heap function, with what is wrong with it.
fn heap_line(name: HeapName, wrong: &str) -> Line
    requires { length wrong.now ≤ 30 }
    ensures { result.bytes ≡ codes "halo: file: " ++ heap_name name ++ wrong.now }
{
    let mut line = Line::new();
    line.push_str("halo: file: ");
    line.push_str(name.name());
    line.push_str(wrong);
    line
}

/// What of an image is too large.
fn image_part(part: ImagePart) -> &'static str
    ensures part { result.now ≡ part_text part }
    ensures short { length result.now ≤ 13 }
{
    match part {
        ImagePart::Headers => "image headers",
        ImagePart::Bytes => "image bytes",
        ImagePart::End => "image end",
    }
}
