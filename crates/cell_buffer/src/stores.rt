// Stores into a list of entries, four to a cell.
ghost use Rattle.std.specs.Prelude.{◌≡◌, ◌+◌, ◌*◌, ◌/◌, ◌%◌, ◌<◌, ◌≤◌, ◌∷◌, ◌++◌, [], false, length, take, drop};
ghost use Rattle.std.specs.Prelude.{slice_set};
ghost use Rattle.rv_isa.specs.declared.Width.{Width};
ghost use Rattle.sym_cells.specs.Cells.{blank_cell, cell_in, put_listed};
ghost use Rattle.sym_cells.specs.Moves.{marks_left, store};
ghost use Rattle.sym_cells.specs.Memory.{overlaid};
ghost use Rattle.cell_buffer.specs.Entries.{mark_of, is_mixed, first_of, cell_of, cells_of, opened_at, IsAccess};

use crate::entry::{Entry, is_mixed};
use rv_isa::Width;
use sym_value::{Value, Whole};

/// The four entries of a cell.
#[derive(Clone, Copy)]
struct CellEntries {
    first: Entry,
    second: Entry,
    third: Entry,
    fourth: Entry,
}

/// The entries of a cell whose bytes are unset.
const BLANK: CellEntries = CellEntries {
    first: Entry::Blank,
    second: Entry::Blank,
    third: Entry::Blank,
    fourth: Entry::Blank,
};

/// Makes the four entries of the cell at `at`.
#[inline(always)]
#[tactic(auto, using(crate::proofs::EntryLaws::put_four, crate::proofs::EntryLaws::first_put))]
fn put_cell(entries: &mut [Entry], at: usize, cell: CellEntries)
    requires aligned { at % 4 ≡ 0 }
    requires inside { at + 4 ≤ length entries.old }
    ensures long { length entries.new ≡ length entries.old }
    ensures first { first_of at entries.new ≡ cell.first }
    ensures cells { cells_of entries.new ≡ slice_set (cells_of entries.old) (at / 4)
        (cell_of cell.first cell.second cell.third cell.fourth) }
{
    let second = at + 1;
    let third = second + 1;
    let fourth = third + 1;
    entries[at] = cell.first;
    entries[second] = cell.second;
    entries[third] = cell.third;
    entries[fourth] = cell.fourth;
}

/// Makes the cell at `at` a blank one.
fn blank(entries: &mut [Entry], at: usize)
    requires aligned { at % 4 ≡ 0 }
    requires inside { at + 4 ≤ length entries.old }
    ensures long { length entries.new ≡ length entries.old }
    ensures open { is_mixed (first_of at entries.new) ≡ false }
    ensures cells { cells_of entries.new ≡ slice_set (cells_of entries.old) (at / 4) blank_cell }
{
    put_cell(entries, at, BLANK);
}

/// Makes a mixed cell, whose first entry is at `at`, a blank one.
#[tactic(auto, using(crate::proofs::EntryLaws::opened_mixed, crate::proofs::EntryLaws::opened_bytes))]
fn open(entries: &mut [Entry], at: usize)
    requires aligned { at % 4 ≡ 0 }
    requires inside { at + 4 ≤ length entries.old }
    ensures long { length entries.new ≡ length entries.old }
    ensures open { is_mixed (first_of at entries.new) ≡ false }
    ensures cells { cells_of entries.new ≡ opened_at (at / 4) (cells_of entries.old) }
{
    if is_mixed(entries[at]) {
        blank(entries, at);
    }
}

/// Makes the entry at `at`; a mixed cell leaves its other bytes unset.
#[tactic(auto, using(crate::proofs::EntryLaws::put_done))]
fn put(entries: &mut [Entry], at: usize, entry: Entry)
    requires inside { at < length entries.old }
    requires whole { length entries.old % 4 ≡ 0 }
    requires byte { is_mixed entry ≡ false }
    ensures long { length entries.new ≡ length entries.old }
    ensures cells { cells_of entries.new ≡ put_listed at (mark_of entry) (cells_of entries.old) }
{
    open(entries, at / 4 * 4);
    entries[at] = entry;
}

/// Stores a value at an aligned offset.
#[inline(always)]
pub fn store_in(entries: &mut [Entry], width: Width, at: usize, value: Value)
    requires whole { length entries.old % 4 ≡ 0 }
    requires access { IsAccess width at (length entries.old) }
    ensures long { length entries.new ≡ length entries.old }
    ensures cells { cells_of entries.new ≡ store width at value (cells_of entries.old) }
{
    match width {
        Width::Word => store_word(entries, at, value),
        Width::Half => store_half(entries, at, value),
        Width::HalfU => store_half(entries, at, value),
        Width::Byte => store_byte(entries, at, value),
        Width::ByteU => store_byte(entries, at, value),
    }
}

#[inline(always)]
fn store_word(entries: &mut [Entry], at: usize, value: Value)
    requires aligned { at % 4 ≡ 0 }
    requires inside { at + 4 ≤ length entries.old }
    ensures long { length entries.new ≡ length entries.old }
    ensures cells { cells_of entries.new ≡ store Width.Word at value (cells_of entries.old) }
{
    match value {
        Value::Num(word) => store_number(entries, at, word),
        Value::Ptr { block, offset } => store_pointer(entries, at, block, offset),
        Value::Ret(address) => store_return(entries, at, address),
        Value::Mix(low) => {
            let cell = CellEntries {
                first: Entry::Mixed(low),
                ..BLANK
            };
            put_cell(entries, at, cell);
        }
        Value::Part { .. } => blank(entries, at),
        Value::Unset => blank(entries, at),
    }
}

/// Stores a word that is a number.
#[inline(always)]
fn store_number(entries: &mut [Entry], at: usize, word: u32)
    requires aligned { at % 4 ≡ 0 }
    requires inside { at + 4 ≤ length entries.old }
    ensures long { length entries.new ≡ length entries.old }
    ensures cells { cells_of entries.new ≡ store Width.Word at (Value.Num word) (cells_of entries.old) }
{
    let second = word / 256;
    let third = second / 256;
    let fourth = third / 256;
    let cell = CellEntries {
        first: Entry::Known((word % 256) as u8),
        second: Entry::Known((second % 256) as u8),
        third: Entry::Known((third % 256) as u8),
        fourth: Entry::Known((fourth % 256) as u8),
    };
    put_cell(entries, at, cell);
}

/// Stores a word that is a pointer.
#[inline(always)]
fn store_pointer(entries: &mut [Entry], at: usize, block: u32, offset: u32)
    requires aligned { at % 4 ≡ 0 }
    requires inside { at + 4 ≤ length entries.old }
    ensures long { length entries.new ≡ length entries.old }
    ensures cells { cells_of entries.new ≡ store Width.Word at (Value.Ptr block offset) (cells_of entries.old) }
{
    let cell = CellEntries {
        first: Entry::Ptr {
            index: 0,
            block,
            offset,
        },
        second: Entry::Ptr {
            index: 1,
            block,
            offset,
        },
        third: Entry::Ptr {
            index: 2,
            block,
            offset,
        },
        fourth: Entry::Ptr {
            index: 3,
            block,
            offset,
        },
    };
    put_cell(entries, at, cell);
}

/// Stores a word that is a return address.
#[inline(always)]
fn store_return(entries: &mut [Entry], at: usize, address: u32)
    requires aligned { at % 4 ≡ 0 }
    requires inside { at + 4 ≤ length entries.old }
    ensures long { length entries.new ≡ length entries.old }
    ensures cells { cells_of entries.new ≡ store Width.Word at (Value.Ret address) (cells_of entries.old) }
{
    let cell = CellEntries {
        first: Entry::Ret { index: 0, address },
        second: Entry::Ret { index: 1, address },
        third: Entry::Ret { index: 2, address },
        fourth: Entry::Ret { index: 3, address },
    };
    put_cell(entries, at, cell);
}

fn store_half(entries: &mut [Entry], at: usize, value: Value)
    requires inside { at + 2 ≤ length entries.old }
    requires whole { length entries.old % 4 ≡ 0 }
    ensures long { length entries.new ≡ length entries.old }
    ensures half { cells_of entries.new ≡ store Width.Half at value (cells_of entries.old) }
    ensures unsigned { cells_of entries.new ≡ store Width.HalfU at value (cells_of entries.old) }
{
    let next = at + 1;
    match value {
        Value::Num(word) => {
            let second = word / 256;
            put(entries, at, Entry::Known((word % 256) as u8));
            put(entries, next, Entry::Known((second % 256) as u8));
        }
        Value::Ptr { .. } | Value::Ret(_) | Value::Mix(_) | Value::Part { .. } | Value::Unset => {
            put(entries, at, Entry::Blank);
            put(entries, next, Entry::Blank);
        }
    }
}

fn store_byte(entries: &mut [Entry], at: usize, value: Value)
    requires inside { at < length entries.old }
    requires whole { length entries.old % 4 ≡ 0 }
    ensures long { length entries.new ≡ length entries.old }
    ensures byte { cells_of entries.new ≡ store Width.Byte at value (cells_of entries.old) }
    ensures unsigned { cells_of entries.new ≡ store Width.ByteU at value (cells_of entries.old) }
{
    put(entries, at, byte_entry(value));
}

/// The entry that a store of a byte leaves.
fn byte_entry(value: Value) -> Entry
    ensures byte { is_mixed result ≡ false }
    ensures marks { marks_left Width.Byte value ≡ mark_of result ∷ [] }
    ensures unsigned { marks_left Width.ByteU value ≡ mark_of result ∷ [] }
{
    match value {
        Value::Num(word) => Entry::Known((word % 256) as u8),
        Value::Part {
            of: Whole::Ptr { block, offset },
            index,
        } => Entry::Ptr {
            index,
            block,
            offset,
        },
        Value::Part {
            of: Whole::Ret(address),
            index,
        } => Entry::Ret { index, address },
        Value::Ptr { .. } | Value::Ret(_) | Value::Mix(_) | Value::Unset => Entry::Blank,
    }
}

/// Writes entries over the first ones.
fn write(entries: &mut [Entry], part: &[Entry])
    requires { length part.now ≤ length entries.old }
    ensures { entries.new ≡ part.now ++ drop (length part.now) entries.old }
{
    entries[0..part.len()].copy_from_slice(part);
}

/// The first `count` entries.
fn front(entries: &[Entry], count: usize) -> &[Entry]
    requires { count ≤ length entries.now }
    ensures { result.now ≡ take count entries.now }
{
    &entries[0..count]
}

/// Takes over the cells of other entries, up to the lesser length.
#[tactic(auto, using(crate::proofs::EntryLaws::overlaid_shorter, crate::proofs::EntryLaws::overlaid_longer, crate::proofs::EntryLaws::overlaid_long))]
pub fn overlay_in(entries: &mut [Entry], from: &[Entry])
    requires whole { length entries.old % 4 ≡ 0 }
    requires part { length from.now % 4 ≡ 0 }
    ensures long { length entries.new ≡ length entries.old }
    ensures cells { cells_of entries.new ≡ overlaid (cells_of from.now) (cells_of entries.old) }
{
    if from.len() <= entries.len() {
        write(entries, from);
    } else {
        let count = entries.len();
        write(entries, front(from, count));
    }
}
