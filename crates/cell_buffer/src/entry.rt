// What the buffer holds of each byte.
ghost use Rattle.std.specs.Prelude.{◌≡◌, false};
ghost use Rattle.cell_buffer.specs.Entries.{mark_of, is_mixed};

use sym_cells::Mark;
use sym_value::Whole;

/// A byte of a cell. `Mixed` in a cell's first entry makes the whole cell mixed.
#[derive(Clone, Copy, Debug)]
pub enum Entry {
    Blank,
    Known(u8),
    /// This byte of a pointer.
    Ptr { index: u8, block: u32, offset: u32 },
    /// This byte of a return address.
    Ret { index: u8, address: u32 },
    /// The low four bits of a nonzero word.
    Mixed(u8),
}

/// Whether a cell with this first entry is mixed.
pub fn is_mixed(entry: Entry) -> bool
    ensures { result ≡ is_mixed entry }
{
    matches!(entry, Entry::Mixed(_))
}

/// The entry of a byte.
pub fn entry_of(mark: Mark) -> Entry
    ensures mark { mark_of result ≡ mark }
    ensures byte { is_mixed result ≡ false }
{
    match mark {
        Mark::Known(number) => Entry::Known(number),
        Mark::Blank => Entry::Blank,
        Mark::Piece {
            of: Whole::Ptr { block, offset },
            index,
        } => Entry::Ptr {
            index,
            block,
            offset,
        },
        Mark::Piece {
            of: Whole::Ret(address),
            index,
        } => Entry::Ret { index, address },
    }
}
