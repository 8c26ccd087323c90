// The symbols of a file (gABI, "Symbol Table").

ghost use Rattle.std.specs.Prelude.{◌≡◌, ◌≢◌, ℕ, ◌+◌, ◌-◌, ◌*◌, ◌/◌, ◌<◌, ◌≤◌, ◌^◌, length, false, find, slice_index};
ghost use Rattle.std.specs.Prelude.{IfOk, IfNone, IfSome};
ghost use Rattle.elf_spec.specs.Fields.{byte_at, word_at};
ghost use Rattle.elf_spec.specs.Records.{entries};
ghost use Rattle.elf_spec.specs.Tables.{is_symtab, name_len_at, symbol_at};
ghost use Rattle.first_check.specs.First.{first_below};
ghost use Rattle.elf_read.specs.Refusals.{section_out};
ghost use Rattle.elf_read.specs.Symbols.{GivesIn, GivesSymbols, IsTables, is_out_at};

use crate::elf_file::SymbolList;
use crate::fields::{half, word};
use crate::names::{is_name_out, name_lengths, names_end};
use crate::refusals::ElfRefusal;
use crate::sections::symbol_table;
use elf_spec::{Section, Symbol};
use std::alloc::{AllocError, Global};

/// The headers of the symbol table and of its strings.
#[derive(Clone, Copy)]
pub(crate) struct Tables {
    pub symbols: Section,
    pub strings: Section,
}

/// The symbol table, where there is one among sections that are inside a file of so many bytes.
#[tactic(auto, using(crate::proofs::TablesInside::linked, crate::proofs::TablesInside::tables_are, crate::proofs::TablesInside::none_found))]
fn find_tables(sections: &[Section], bytes: usize) -> Option<Tables>
    requires { section_out bytes sections.now ≡ None }
    ensures found { IfSome result (λ tables. IsTables bytes sections.now tables) }
    ensures none { IfNone result (find is_symtab sections.now ≡ None) }
{
    let Some(i) = symbol_table(sections) else {
        return None;
    };
    let symbols = sections[i];
    let strings = sections[symbols.link as usize];
    Some(Tables { symbols, strings })
}

/// The symbol at an offset, whose name, where it has one, is among those of the lengths.
#[tactic(auto, unfolding(elf_spec::specs::Tables::symbol_at))]
fn symbol(file: &[u8], at: usize, strings: Section, lengths: &[u32]) -> Symbol
    requires short { length file.now < 2 ^ 32 }
    requires inside { at + 16 ≤ length file.now }
    requires strings_inside { strings.offset + strings.size ≤ length file.now }
    requires few { length lengths.now ≤ strings.size }
    requires each { (k : ℕ) → k < length lengths.now → slice_index lengths.now k
        ≡ name_len_at file.now (strings.offset + k) }
    requires named { word_at file.now at ≢ 0 → word_at file.now at < length lengths.now }
    ensures { result ≡ symbol_at file.now strings at }
{
    let name = word(file, at);
    Symbol {
        name_at: if name == 0 { 0 } else { strings.offset + name },
        name_len: if name == 0 { 0 } else { lengths[name as usize] },
        value: word(file, at + 4),
        size: word(file, at + 8),
        info: file[at + 12],
        section: half(file, at + 14),
    }
}

/// The first symbol whose name does not end in the strings, whose last name ends at `end`.
#[tactic(auto, using(first_check::proofs::Below::below_hit, first_check::proofs::Below::below_more))]
fn first_name_out(file: &[u8], tables: Tables, end: usize) -> Option<u32>
    requires symbols_inside { tables.symbols.offset + tables.symbols.size ≤ length file.now }
    requires strings_inside { tables.strings.offset + tables.strings.size ≤ length file.now }
    requires end_inside { end ≤ tables.strings.size }
    requires end_zero { 0 < end → byte_at file.now (tables.strings.offset + (end - 1)) ≡ 0 }
    requires end_last { (k : ℕ) → end ≤ k → k < tables.strings.size → byte_at file.now (tables.strings.offset + k) ≢ 0 }
    ensures { result ≡ first_below (is_out_at file.now tables) (tables.symbols.size / 16) }
{
    let at = tables.symbols.offset as usize;
    for i in 0..tables.symbols.size / 16 {
        if is_name_out(file, tables.strings, end, word(file, at + 16 * i as usize)) {
            return Some(i);
        }
    }
    None
}

/// All symbols, whose names are among those of the lengths.
fn symbol_list(
    alloc: Global,
    file: &[u8],
    tables: Tables,
    lengths: &[u32],
) -> Result<SymbolList, AllocError>
    requires short { length file.now < 2 ^ 32 }
    requires symbols_inside { tables.symbols.offset + tables.symbols.size ≤ length file.now }
    requires strings_inside { tables.strings.offset + tables.strings.size ≤ length file.now }
    requires few { length lengths.now ≤ tables.strings.size }
    requires each { (k : ℕ) → k < length lengths.now → slice_index lengths.now k
        ≡ name_len_at file.now (tables.strings.offset + k) }
    requires named { (i : ℕ) → i < tables.symbols.size / 16 → word_at file.now (tables.symbols.offset + 16 * i) ≢ 0
        → word_at file.now (tables.symbols.offset + 16 * i) < length lengths.now }
    ensures { IfOk result (λ list. list ≡ entries (symbol_at file.now tables.strings) 16 tables.symbols.offset
        (tables.symbols.size / 16)) }
{
    let at = tables.symbols.offset as usize;
    let mut list = SymbolList::new(alloc);
    for i in 0..tables.symbols.size as usize / 16 {
        list.push(symbol(file, at + 16 * i, tables.strings, lengths))?;
    }
    Ok(list)
}

/// The symbols of the tables, where each name ends in the strings.
fn symbols_in(alloc: Global, file: &[u8], tables: Tables) -> Result<SymbolList, ElfRefusal>
    requires short { length file.now < 2 ^ 32 }
    requires symbols_inside { tables.symbols.offset + tables.symbols.size ≤ length file.now }
    requires strings_inside { tables.strings.offset + tables.strings.size ≤ length file.now }
    ensures { GivesIn result file.now tables }
{
    let end = names_end(file, tables.strings);
    if let Some(i) = first_name_out(file, tables, end) {
        return Err(ElfRefusal::NameOut(i));
    }
    let Ok(lengths) = name_lengths(alloc, file, tables.strings, end) else {
        return Err(ElfRefusal::Memory);
    };
    let Ok(list) = symbol_list(alloc, file, tables, lengths.as_slice()) else {
        return Err(ElfRefusal::Memory);
    };
    Ok(list)
}

/// The symbols of a file with these sections, which are inside it: none where it has no symbol table.
#[tactic(auto, unfolding(crate::specs::Refusals::name_out))]
pub(crate) fn read_symbols(
    alloc: Global,
    file: &[u8],
    sections: &[Section],
) -> Result<SymbolList, ElfRefusal>
    requires short { length file.now < 2 ^ 32 }
    requires passed { section_out (length file.now) sections.now ≡ None }
    ensures { GivesSymbols result file.now sections.now }
{
    match find_tables(sections, file.len()) {
        Some(tables) => symbols_in(alloc, file, tables),
        None => Ok(SymbolList::new(alloc)),
    }
}
