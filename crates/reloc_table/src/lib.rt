// The kept relocation entries of a readable file, and the checks of them (gABI, "Relocation"; psABI,
// "Relocations").
#![tactic(auto)]

mod entries;
mod read;
mod refusals;
mod relocs;
mod slots;
mod tables;

pub use elf_spec::Reloc;
pub use read::read_relocs;
pub use refusals::RelocRefusal;
pub use relocs::Relocs;
pub use tables::{is_executable, is_kept};
