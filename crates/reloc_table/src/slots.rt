// The places in a file at which the entries of its tables stand, each once, however the tables overlap.

ghost use Rattle.std.specs.Prelude.{◌≡◌, ℕ, ◌+◌, ◌-◌, ◌<◌, ◌≤◌, ◌^◌, ◌++◌, ◌==◌, false, true, IfNone, IfOk, IfSome};
ghost use Rattle.std.specs.Prelude.{OnOk};
ghost use Rattle.std.specs.List.{list_any};
ghost use Rattle.std.specs.List.Sorted.{IsNonDecreasing};
ghost use Rattle.reloc_table.specs.Slots.{AreSlots, covered, end_slot, numbers, offset_of, slot_at};

use std::alloc::{AllocError, Global};

/// The entries of a section: the file offset of the first, and how many there are.
#[derive(Clone, Copy, Debug, PartialEq, Eq)]
pub struct EntryTable {
    pub offset: u32,
    pub count: u32,
}

/// The slot of a file offset. Slots number the offsets by their remainder by 12 first, so that entries
/// that follow one another in a table, 12 bytes apart, have slots that do.
pub fn slot_at(offset: u32) -> u64
    ensures { result ≡ slot_at offset }
{
    (offset % 12) as u64 * 4294967296 + (offset / 12) as u64
}

/// The file offset of a slot.
pub fn offset_of(slot: u64) -> u64
    ensures { result ≡ offset_of slot }
{
    slot % 4294967296 * 12 + slot / 4294967296
}

/// The slot behind the last one of a table.
pub fn end_slot(t: &EntryTable) -> u64
    ensures { result ≡ end_slot t.now }
{
    slot_at(t.offset) + t.count as u64
}

/// Adds the numbers from one to before another.
fn push_numbers(list: &mut Vec<u64>, from: u64, to: u64) -> Result<(), AllocError>
    ensures { OnOk result (list.new.items ≡ list.old.items ++ numbers from (to - from)) }
{
    for k in 0..to.saturating_sub(from) {
        list.push(from + k)?;
    }
    Ok(())
}

/// The slots of tables that are in order of their first slots.
fn cover(alloc: Global, sorted: &[EntryTable]) -> Result<Vec<u64>, AllocError>
    ensures { IfOk result (λ list. list.items ≡ covered 0 sorted.now) }
{
    let mut list = Vec::new(alloc);
    let mut at = 0;
    for t in sorted {
        push_numbers(&mut list, at.max(slot_at(t.offset)), end_slot(t))?;
        at = at.max(end_slot(t));
    }
    Ok(list)
}

/// The slots of tables, each once.
pub fn slots_of(alloc: Global, tables: &[EntryTable]) -> Result<Vec<u64>, AllocError>
    ensures { IfOk result (λ list. AreSlots tables.now list.items) }
{
    let mut sorted = Vec::from_slice(alloc, tables)?;
    sorted.sort_unstable_by_key(|t| slot_at(t.offset));
    let list = cover(alloc, sorted.as_slice())?;
    Ok(list)
}

/// The first of numbers in order that is from one to before another.
pub fn first_in(sorted: &[u64], from: u64, to: u64) -> Option<u64>
    requires { IsNonDecreasing sorted.now }
    ensures found { IfSome result (λ a. (from ≤ a) × (a < to) × (list_any (λ b. b == a) sorted.now ≡ true)) }
    ensures first { IfSome result (λ a. (b : ℕ) → from ≤ b → b < a → list_any (λ c. c == b) sorted.now ≡ false) }
    ensures none { IfNone result ((b : ℕ) → from ≤ b → b < to → list_any (λ c. c == b) sorted.now ≡ false) }
{
    let k = sorted.partition_point(|a| *a < from);
    if k == sorted.len() {
        return None;
    }
    let next = sorted[k];
    if next < to { Some(next) } else { None }
}
