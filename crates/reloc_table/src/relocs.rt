// The kept relocation entries of a file.

ghost use Rattle.std.specs.Prelude.{◌≡◌, ◌<◌, ◌^◌, Bool, All, length, map, IfOk};
ghost use Rattle.std.specs.List.{list_any};
ghost use Rattle.elf_spec.specs.declared.Reloc.{Reloc};
ghost use Rattle.reloc_table.specs.Slots.{AreSlots, IsTableInside, entries_of};

use crate::entries::{entries_at, table_entries};
use crate::slots::EntryTable;
use elf_spec::Reloc;
use std::alloc::{AllocError, Global};
use std::marker::Model;

/// The entries of tables of a file, in order of the tables and of their places there. Tables may
/// overlap: the memory held is linear in the file and the tables, and not in the entries.
#[derive(Drop)]
pub struct Relocs<'a> {
    file: &'a [u8],
    tables: Vec<EntryTable>,
    once: Vec<Reloc>,
}

impl<'a> Model for Relocs<'a> {
    ghost use Rattle.std.specs.Prelude.{List};
    ghost use Rattle.elf_spec.specs.declared.Reloc.{Reloc};
    ghost use Rattle.reloc_table.specs.Slots.{entries_of};

    ghost Value = { List Reloc };

    ghost use Rattle.reloc_table.specs.IsRelocs.{IsRelocs};

    ghost view = { λ a. entries_of a.file.now a.tables.items };

    ghost invariant = { λ a. IsRelocs a };
}

/// The entries of tables of a file, at these slots.
#[tactic(auto, using(crate::proofs::Once::once_same))]
pub fn relocs_at<'a>(
    alloc: Global,
    file: &'a [u8],
    tables: Vec<EntryTable>,
    slots: &[u64],
) -> Result<Relocs<'a>, AllocError>
    requires slots { AreSlots tables.items slots.now }
    requires short { length file.now < 2 ^ 32 }
    requires inside { All (IsTableInside (length file.now)) tables.items }
    ensures { IfOk result (λ relocs. relocs ≡ entries_of file.now tables.items) }
{
    let once = entries_at(alloc, file, slots)?;
    Ok(Relocs { file, tables, once })
}

impl<'a> Relocs<'a> {
    /// The entries without their order: each is here, once for each place in the file at which one
    /// stands.
    pub fn entries_once(&self) -> &[Reloc]
        ensures { (p : Reloc → Bool) → list_any p result.now ≡ list_any p self.now }
    {
        self.once.as_slice()
    }

    /// All entries in order. The time and memory are linear in their number.
    pub fn to_vec(&self, alloc: Global) -> Result<Vec<Reloc>, AllocError>
        ensures { IfOk result (λ list. list.items ≡ self.now) }
    {
        table_entries(alloc, self.file, self.tables.as_slice())
    }
}
