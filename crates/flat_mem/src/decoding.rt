// Words of code that are kept decoded, each in the place of a table that its address gives.

ghost use Rattle.std.specs.Prelude.{◌≡◌, ◌%◌, ◌<◌, ◌==◌, ◌&&◌, All, List, length, IfOk};
ghost use Rattle.machine_spec.specs.Memory.{Range};
ghost use Rattle.flat_mem.specs.Decoded.{is_fixed, IsKnown, IsTable};

use crate::storage::Storage;
use rv_isa::Instr;
use std::alloc::{AllocError, Global};

/// How many words are kept.
const TABLE_SIZE: usize = 16384;

/// What the word at an address is: an instruction, or none.
#[derive(Clone, Copy, Debug)]
pub struct Known {
    pub addr: u32,
    pub instr: Option<Instr>,
}

/// A table of no words: its entries are for an address at which no code can be.
pub fn empty_table(alloc: Global) -> Result<Vec<Known>, AllocError>
    ensures { IfOk result (λ table. (memory : List Range) → IsTable memory table.items) }
{
    let nothing = Known {
        addr: 1,
        instr: None,
    };
    let table = vec![in alloc; nothing; TABLE_SIZE]?;
    Ok(table)
}

/// The place of the table where the word at an address is kept.
#[inline(always)]
pub fn place_of(addr: u32) -> usize
    ensures { result < 16384 }
{
    (addr / 4) as usize % TABLE_SIZE
}

/// What is kept in the place of an address, which may be of another one.
#[inline(always)]
pub fn look_up(table: &[Known], addr: u32) -> Known
    requires { length table.now ≡ 16384 }
    ensures { (memory : List Range) → All (IsKnown memory) table.now → IsKnown memory result }
{
    table[place_of(addr)]
}

/// Whether a word may stand at an address, and no byte of it can be stored to.
pub fn is_fixed(storage: &Storage, addr: u32) -> bool
    ensures { result ≡ ((addr % 4 == 0) && is_fixed storage.now addr) }
{
    addr % 4 == 0
        && !storage.can_store(addr, 1)
        && !storage.can_store(addr + 1, 1)
        && !storage.can_store(addr + 2, 1)
        && !storage.can_store(addr + 3, 1)
}
