// The code, the relocation entries, the symbols and the strings.
ghost use Rattle.std.specs.Prelude.{◌≡◌, ◌+◌, ◌*◌, ◌^◌, ◌<◌, ◌≤◌, ◌++◌, length, replicate, flat_map, All, OnOk};
ghost use Rattle.elf_spec.specs.Fields.{word_bytes};
ghost use Rattle.rv_build.specs.RecordBytes.{reloc_bytes, symbol_bytes};
ghost use Rattle.rv_build.specs.Built.{section_names, symbol_entries, symbol_names};

use crate::fields::{push_half, push_word, push_zeros};
use crate::labels::Label;
use elf_spec::Reloc;
use std::alloc::AllocError;

/// Where the names of the symbols begin in the strings.
pub const SYMBOL_NAMES_AT: usize = 34;

/// The bytes of a relocation entry.
pub const RELOC_SIZE: usize = 12;
/// The bytes of a symbol.
pub const SYMBOL_SIZE: usize = 16;

/// The names of the sections, from the byte 0 of the strings on.
const SECTION_NAMES: &[u8] = b"\0.text\0.rela.text\0.symtab\0.strtab\0";

/// GLOBAL and FUNC (gABI, "Symbol Table").
const GLOBAL_FUNC: u8 = 0x12;

/// The section with the code.
const TEXT: u16 = 1;

/// Adds the words of the code.
#[tactic(auto, using(crate::proofs::Assoc::assoc))]
pub fn push_code(out: &mut Vec<u8>, words: &[u32]) -> Result<(), AllocError>
    ensures { OnOk result (out.new.items ≡ out.old.items ++ flat_map word_bytes words.now) }
{
    for word in words {
        push_word(out, *word)?;
    }
    Ok(())
}

/// Adds a relocation entry with addend 0.
#[tactic(auto, using(crate::proofs::Assoc::assoc), unfolding(crate::specs::RecordBytes::reloc_bytes))]
fn push_reloc(out: &mut Vec<u8>, reloc: Reloc) -> Result<(), AllocError>
    requires { reloc.symbol < 2 ^ 24 }
    ensures { OnOk result (out.new.items ≡ out.old.items ++ reloc_bytes reloc) }
{
    push_word(out, reloc.place)?;
    push_word(out, 256 * reloc.symbol + u32::from(reloc.kind))?;
    push_word(out, 0)
}

/// Adds relocation entries.
#[tactic(auto, using(crate::proofs::Assoc::assoc))]
pub fn push_relocs(out: &mut Vec<u8>, relocs: &[Reloc]) -> Result<(), AllocError>
    requires { All (λ r. r.symbol < 2 ^ 24) relocs.now }
    ensures { OnOk result (out.new.items ≡ out.old.items ++ flat_map reloc_bytes relocs.now) }
{
    for reloc in relocs {
        push_reloc(out, *reloc)?;
    }
    Ok(())
}

/// Adds a symbol whose name stands at the offset `name` of the strings.
#[tactic(auto, using(crate::proofs::Assoc::assoc), unfolding(crate::specs::RecordBytes::symbol_bytes))]
fn push_symbol(out: &mut Vec<u8>, name: u32, symbol: &Label) -> Result<(), AllocError>
    ensures { OnOk result (out.new.items ≡ out.old.items ++ symbol_bytes name symbol.now) }
{
    push_word(out, name)?;
    push_word(out, symbol.at)?;
    push_word(out, symbol.size)?;
    out.push(GLOBAL_FUNC)?;
    out.push(0)?;
    push_half(out, TEXT)
}

/// Adds the null symbol and the symbols.
#[tactic(auto, using(crate::proofs::Assoc::assoc))]
pub fn push_symbols(out: &mut Vec<u8>, symbols: &[Label]) -> Result<(), AllocError>
    requires few { length symbols.now ≤ 1000 }
    requires short { All (λ s. length s.name ≤ 64) symbols.now }
    ensures { OnOk result (out.new.items ≡ out.old.items ++ replicate 16 0 ++ symbol_entries 34 symbols.now) }
{
    push_zeros(out, SYMBOL_SIZE)?;
    let mut name = SYMBOL_NAMES_AT;
    for symbol in symbols {
        push_symbol(out, name as u32, symbol)?;
        name += symbol.name.as_slice().len() + 1;
    }
    Ok(())
}

/// Adds the names of the sections and of the symbols, each with its zero byte.
#[tactic(auto, using(crate::proofs::Assoc::assoc))]
pub fn push_names(out: &mut Vec<u8>, symbols: &[Label]) -> Result<(), AllocError>
    ensures { OnOk result (out.new.items ≡ out.old.items ++ section_names ++ symbol_names symbols.now) }
{
    out.extend_from_slice(SECTION_NAMES)?;
    for symbol in symbols {
        out.extend_from_slice(symbol.name.as_slice())?;
        out.push(0)?;
    }
    Ok(())
}
