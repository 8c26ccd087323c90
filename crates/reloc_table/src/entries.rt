// Relocation entries and the checks of each (gABI, "Relocation").

ghost use Rattle.std.specs.Prelude.{◌≡◌, ℕ, ◌+◌, ◌*◌, ◌/◌, ◌<◌, ◌≤◌, ◌^◌, ◌++◌, ◌==◌, true, All, filter, length, map};
ghost use Rattle.std.specs.Prelude.{IfOk, OnOk};
ghost use Rattle.std.specs.List.{list_any};
ghost use Rattle.std.specs.List.Sorted.{IsNonDecreasing};
ghost use Rattle.elf_spec.specs.Records.{entries, reloc_at};
ghost use Rattle.reloc_table.specs.Checks.{is_bad, is_compressed, is_tls};
ghost use Rattle.first_check.specs.Answers.{Says};
ghost use Rattle.reloc_table.specs.Refusals.{entry_refusal, section_refusal};
ghost use Rattle.reloc_table.specs.Slots.{AreBad, AreSlots, IsSlotInside, IsTableInside, entries_of, entry_in};
ghost use Rattle.reloc_table.specs.Slots.{is_bad_at, is_slot_of, table_of};

use crate::refusals::RelocRefusal;
use crate::slots::{EntryTable, first_in, offset_of, slot_at};
use crate::tables::ENTRY_SIZE;
use elf_read::word;
use elf_spec::{Reloc, Section};
use std::alloc::{AllocError, Global};

/// The entry at an offset.
#[tactic(auto, unfolding(elf_spec::specs::Records::reloc_at))]
fn reloc(file: &[u8], at: usize) -> Reloc
    requires { at + 12 ≤ length file.now }
    ensures { result ≡ reloc_at file.now at }
{
    let info = word(file, at + 4);
    Reloc {
        place: word(file, at),
        kind: (info % 256) as u8,
        symbol: info / 256,
    }
}

fn is_tls(r: &Reloc) -> bool
    ensures { result ≡ is_tls r.now }
{
    matches!(r.kind, 6..=11 | 21 | 22 | 29..=32)
}

fn is_compressed(r: &Reloc) -> bool
    ensures { result ≡ is_compressed r.now }
{
    matches!(r.kind, 44..=46)
}

/// Checks an entry of a file with so many symbols.
#[tactic(auto, unfolding(crate::specs::Refusals::entry_refusal))]
fn check_entry(r: &Reloc, symbols: usize, section: u32, entry: u32) -> Result<(), RelocRefusal>
    ensures { Says result (entry_refusal symbols section entry r.now) }
{
    if r.symbol as usize >= symbols {
        return Err(RelocRefusal::SymbolOut { section, entry });
    }
    if is_tls(r) {
        return Err(RelocRefusal::Tls(r.place));
    }
    if is_compressed(r) {
        return Err(RelocRefusal::Compressed(r.place));
    }
    Ok(())
}

/// Whether an entry of a file with so many symbols is refused.
fn is_bad(r: &Reloc, symbols: usize) -> bool
    ensures { result ≡ is_bad symbols r.now }
{
    r.symbol as usize >= symbols || is_tls(r) || is_compressed(r)
}

/// The entry at a slot.
fn entry(file: &[u8], slot: u64) -> Reloc
    requires { IsSlotInside (length file.now) slot }
    ensures { result ≡ entry_in file.now slot }
{
    reloc(file, offset_of(slot) as usize)
}

/// The slots of those entries at slots that are refused.
fn find_bad(
    alloc: Global,
    file: &[u8],
    symbols: usize,
    slots: &[u64],
) -> Result<Vec<u64>, AllocError>
    requires { All (IsSlotInside (length file.now)) slots.now }
    ensures { IfOk result (λ bad. bad.items ≡ filter (is_bad_at file.now symbols) slots.now) }
{
    let mut bad = Vec::new(alloc);
    for slot in slots {
        if is_bad(&entry(file, *slot), symbols) {
            bad.push(*slot)?;
        }
    }
    Ok(bad)
}

/// The slots of the refused entries of tables, in order; `slots` are those of all entries.
pub fn bad_slots(
    alloc: Global,
    file: &[u8],
    symbols: usize,
    tables: &[EntryTable],
    slots: &[u64],
) -> Result<Vec<u64>, AllocError>
    requires slots { AreSlots tables.now slots.now }
    requires short { length file.now < 2 ^ 32 }
    requires inside { All (IsTableInside (length file.now)) tables.now }
    ensures { IfOk result (λ bad. AreBad file.now symbols tables.now bad.items) }
{
    let mut bad = find_bad(alloc, file, symbols, slots)?;
    bad.sort_unstable();
    Ok(bad)
}

/// The entries at slots.
pub fn entries_at(alloc: Global, file: &[u8], slots: &[u64]) -> Result<Vec<Reloc>, AllocError>
    requires { All (IsSlotInside (length file.now)) slots.now }
    ensures { IfOk result (λ list. list.items ≡ map (entry_in file.now) slots.now) }
{
    let mut list = Vec::with_capacity(alloc, slots.len())?;
    for slot in slots {
        list.push(entry(file, *slot))?;
    }
    Ok(list)
}

/// Checks the entries of the section with this index; `bad` are the slots of refused entries, in order.
pub fn check_section(
    file: &[u8],
    symbols: usize,
    bad: &[u64],
    section: u32,
    s: &Section,
) -> Result<(), RelocRefusal>
    requires inside { s.now.offset + s.now.size ≤ length file.now }
    requires short { length file.now < 2 ^ 32 }
    requires rise { IsNonDecreasing bad.now }
    requires bad { (a : ℕ) → is_slot_of a (table_of s.now) ≡ true
        → list_any (λ b. b == a) bad.now ≡ is_bad_at file.now symbols a }
    ensures { Says result (section_refusal file.now symbols section s.now) }
{
    let start = slot_at(s.offset);
    match first_in(bad, start, start + (s.size / ENTRY_SIZE) as u64) {
        Some(slot) => {
            let r = entry(file, slot);
            check_entry(&r, symbols, section, (slot - start) as u32)
        }
        None => Ok(()),
    }
}

/// Adds the entries of a table.
fn push_entries(list: &mut Vec<Reloc>, file: &[u8], t: &EntryTable) -> Result<(), AllocError>
    requires { IsTableInside (length file.now) t.now }
    ensures { OnOk result (list.new.items ≡ list.old.items ++ entries (reloc_at file.now) 12 t.now.offset t.now.count) }
{
    for k in 0..t.count {
        list.push(reloc(file, t.offset as usize + 12 * k as usize))?;
    }
    Ok(())
}

/// The entries of tables, in order.
pub fn table_entries(
    alloc: Global,
    file: &[u8],
    tables: &[EntryTable],
) -> Result<Vec<Reloc>, AllocError>
    requires { All (IsTableInside (length file.now)) tables.now }
    ensures { IfOk result (λ list. list.items ≡ entries_of file.now tables.now) }
{
    let mut list = Vec::new(alloc);
    for t in tables {
        push_entries(&mut list, file, t)?;
    }
    Ok(list)
}
