// Loads from a list of entries, four to a cell.
ghost use Rattle.std.specs.Prelude.{◌≡◌, ◌≢◌, ◌+◌, ◌%◌, ◌^◌, ◌<◌, ◌≤◌, length};
ghost use Rattle.rv_isa.specs.declared.Width.{Width};
ghost use Rattle.machine_spec.specs.Widths.{loaded_as};
ghost use Rattle.sym_value.specs.declared.Whole.TheVariants.{Ptr as WholePtr, Ret as WholeRet};
ghost use Rattle.sym_cells.specs.declared.Mark.TheVariants.{Known as KnownMark};
ghost use Rattle.sym_cells.specs.Cells.{cell_in, mark_at};
ghost use Rattle.sym_cells.specs.Moves.{is_piece, word_of, word_in, half_of, byte_of, load_at};
ghost use Rattle.cell_buffer.specs.Entries.{mark_of, cell_of, cells_of, IsAccess};

use crate::entry::{Entry, is_mixed};
use rv_isa::Width;
use sym_value::{Value, Whole};

/// The value of a load at an aligned offset.
#[inline(always)]
#[tactic(auto, using(crate::proofs::EntryLaws::word_loaded))]
pub fn load_in(entries: &[Entry], width: Width, at: usize) -> Value
    requires whole { length entries.now % 4 ≡ 0 }
    requires access { IsAccess width at (length entries.now) }
    ensures { result ≡ load_at width at (cell_in (cells_of entries.now)) }
{
    match width {
        Width::Word => word_at(entries, at),
        Width::Half => half(Width::Half, byte_at(entries, at), byte_at(entries, at + 1)),
        Width::HalfU => half(Width::HalfU, byte_at(entries, at), byte_at(entries, at + 1)),
        Width::Byte => byte(Width::Byte, byte_at(entries, at)),
        Width::ByteU => byte(Width::ByteU, byte_at(entries, at)),
    }
}

#[inline(always)]
#[tactic(auto, using(crate::proofs::EntryLaws::word_loaded))]
fn word_at(entries: &[Entry], at: usize) -> Value
    requires aligned { at % 4 ≡ 0 }
    requires inside { at + 4 ≤ length entries.now }
    ensures { result ≡ load_at Width.Word at (cell_in (cells_of entries.now)) }
{
    word(
        entries[at],
        entries[at + 1],
        entries[at + 2],
        entries[at + 3],
    )
}

/// The entry of a byte: blank in a mixed cell.
#[tactic(auto, using(crate::proofs::EntryLaws::byte_of_mixed, crate::proofs::EntryLaws::byte_of_bytes))]
pub fn byte_at(entries: &[Entry], at: usize) -> Entry
    requires inside { at < length entries.now }
    requires whole { length entries.now % 4 ≡ 0 }
    ensures { mark_of result ≡ mark_at (cell_in (cells_of entries.now)) at }
{
    if is_mixed(entries[at / 4 * 4]) {
        Entry::Blank
    } else {
        entries[at]
    }
}

/// The value of four bytes.
#[inline(always)]
fn word(a: Entry, b: Entry, c: Entry, d: Entry) -> Value
    ensures { result ≡ word_in (cell_of a b c d) }
{
    match a {
        Entry::Blank => Value::Unset,
        Entry::Known(first) => known_word(first, b, c, d),
        Entry::Ptr {
            index,
            block,
            offset,
        } => {
            if index == 0
                && is_pointer(b, 1, block, offset)
                && is_pointer(c, 2, block, offset)
                && is_pointer(d, 3, block, offset)
            {
                Value::Ptr { block, offset }
            } else {
                Value::Unset
            }
        }
        Entry::Ret { index, address } => {
            if index == 0
                && is_return(b, 1, address)
                && is_return(c, 2, address)
                && is_return(d, 3, address)
            {
                Value::Ret(address)
            } else {
                Value::Unset
            }
        }
        Entry::Mixed(low) => Value::Mix(low),
    }
}

#[inline(always)]
fn known_word(first: u8, b: Entry, c: Entry, d: Entry) -> Value
    ensures { result ≡ word_of (KnownMark first) (mark_of b) (mark_of c) (mark_of d) }
{
    match (b, c, d) {
        (Entry::Known(second), Entry::Known(third), Entry::Known(fourth)) => {
            let upper = third as u32 + 256 * fourth as u32;
            Value::Num(first as u32 + 256 * (second as u32 + 256 * upper))
        }
        _ => Value::Unset,
    }
}

/// Whether an entry is byte `index` of a pointer.
fn is_pointer(entry: Entry, index: u8, block: u32, offset: u32) -> bool
    ensures { result ≡ is_piece (WholePtr block offset) index (mark_of entry) }
{
    match entry {
        Entry::Ptr {
            index: i,
            block: b,
            offset: o,
        } => block == b && offset == o && index == i,
        Entry::Blank | Entry::Known(_) | Entry::Ret { .. } | Entry::Mixed(_) => false,
    }
}

/// Whether an entry is byte `index` of a return address.
fn is_return(entry: Entry, index: u8, address: u32) -> bool
    ensures { result ≡ is_piece (WholeRet address) index (mark_of entry) }
{
    match entry {
        Entry::Ret {
            index: i,
            address: a,
        } => address == a && index == i,
        Entry::Blank | Entry::Known(_) | Entry::Ptr { .. } | Entry::Mixed(_) => false,
    }
}

/// The value of two bytes.
fn half(width: Width, a: Entry, b: Entry) -> Value
    requires { width ≢ Width.Byte }
    ensures { result ≡ half_of width (mark_of a) (mark_of b) }
{
    match (a, b) {
        (Entry::Known(first), Entry::Known(second)) => {
            Value::Num(loaded_half(width, first as u32 + 256 * second as u32))
        }
        _ => Value::Unset,
    }
}

/// The value of a byte.
fn byte(width: Width, entry: Entry) -> Value
    ensures { result ≡ byte_of width (mark_of entry) }
{
    match entry {
        Entry::Known(number) => Value::Num(loaded_byte(width, number)),
        Entry::Ptr {
            index,
            block,
            offset,
        } => Value::Part {
            of: Whole::Ptr { block, offset },
            index,
        },
        Entry::Ret { index, address } => Value::Part {
            of: Whole::Ret(address),
            index,
        },
        Entry::Blank | Entry::Mixed(_) => Value::Unset,
    }
}

/// What a load makes of the number of a byte.
fn loaded_byte(width: Width, number: u8) -> u32
    ensures { result ≡ loaded_as width number }
{
    match width {
        Width::Byte => if number < 0x80 {
            number as u32
        } else {
            number as u32 + 0xffff_ff00
        },
        Width::Half | Width::Word | Width::ByteU | Width::HalfU => number as u32,
    }
}

/// What a load that isn't of a signed byte makes of the number of two bytes.
fn loaded_half(width: Width, number: u32) -> u32
    requires small { number < 2 ^ 16 }
    requires long { width ≢ Width.Byte }
    ensures { result ≡ loaded_as width number }
{
    match width {
        Width::Half => if number < 0x8000 {
            number
        } else {
            number + 0xffff_0000
        },
        Width::Word | Width::Byte | Width::ByteU | Width::HalfU => number,
    }
}
