// The places of the relocation entries for calls (psABI, "Relocations").

ghost use Rattle.std.specs.Prelude.{◌≡◌, ℕ, ◌==◌, ◌&&◌, ◌||◌, ◌≤◌, filter, map, nat_le, IfOk};
ghost use Rattle.std.specs.List.{list_any};
ghost use Rattle.std.specs.List.Sorted.{IsNonDecreasing};
ghost use Rattle.exec_image.specs.Calls.{AreCalls, is_kind};

use elf_spec::Reloc;
use std::alloc::{AllocError, Global};

/// The relocations for a `jal`, and for an `auipc` with a `jalr`.
const R_RISCV_JAL: u8 = 17;

const R_RISCV_CALL: u8 = 18;

const R_RISCV_CALL_PLT: u8 = 19;

/// The addresses to which entries for calls apply, in order: those for a `jal`, those for an `auipc`
/// with a `jalr`, and all.
#[derive(Drop)]
pub struct Calls {
    pub jals: Vec<u32>,
    pub pairs: Vec<u32>,
    pub all: Vec<u32>,
}

/// The places of the entries whose kind is in a range.
fn places(alloc: Global, relocs: &[Reloc], low: u8, high: u8) -> Result<Vec<u32>, AllocError>
    ensures { IfOk result (λ list. list.items ≡ map (λ r. r.place) (filter (is_kind low high) relocs.now)) }
{
    let mut list = Vec::new(alloc);
    for r in relocs {
        if low <= r.kind && r.kind <= high {
            list.push(r.place)?;
        }
    }
    Ok(list)
}

/// The places of the entries whose kind is in a range, in order.
fn places_in_order(
    alloc: Global,
    relocs: &[Reloc],
    low: u8,
    high: u8,
) -> Result<Vec<u32>, AllocError>
    ensures rise { IfOk result (λ list. IsNonDecreasing list.items) }
    ensures all { IfOk result (λ list. (a : ℕ) → list_any (λ p. p == a) list.items
        ≡ list_any (λ r. is_kind low high r && (r.place == a)) relocs.now) }
{
    let mut list = places(alloc, relocs, low, high)?;
    list.sort_unstable();
    Ok(list)
}

/// The places of the entries for calls.
pub fn read_calls(alloc: Global, relocs: &[Reloc]) -> Result<Calls, AllocError>
    ensures { IfOk result (AreCalls relocs.now) }
{
    let jals = places_in_order(alloc, relocs, R_RISCV_JAL, R_RISCV_JAL)?;
    let pairs = places_in_order(alloc, relocs, R_RISCV_CALL, R_RISCV_CALL_PLT)?;
    let all = places_in_order(alloc, relocs, R_RISCV_JAL, R_RISCV_CALL_PLT)?;
    Ok(Calls { jals, pairs, all })
}

/// Whether a number is among those in order.
pub fn is_among(list: &[u32], a: u32) -> bool
    requires { IsNonDecreasing list.now }
    ensures { result ≡ list_any (λ p. p == a) list.now }
{
    list.binary_search(&a).is_ok()
}
