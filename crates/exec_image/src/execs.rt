// The executable sections of a file (gABI, "Section Header").

ghost use Rattle.std.specs.Prelude.{◌≡◌, ◌<◌, ◌^◌, length, IfOk};
ghost use Rattle.exec_image.specs.Images.{execs_from};

use elf_spec::Section;
use reloc_table::is_executable;
use std::alloc::{AllocError, Global};
use vec_list::VecList;

/// An executable section: its number among the file's sections, where it is in memory and its bytes.
#[derive(Clone, Copy, Debug, PartialEq, Eq)]
pub struct Exec {
    pub index: u32,
    pub addr: u32,
    pub size: u32,
}

/// Executable sections in the file's order.
pub type Execs = VecList<Exec>;

/// The executable ones of the sections.
pub fn read_execs(alloc: Global, sections: &[Section]) -> Result<Execs, AllocError>
    requires { length sections.now < 2 ^ 32 }
    ensures { IfOk result (λ list. list ≡ execs_from 0 sections.now) }
{
    let mut list = Execs::new(alloc);
    for (i, s) in sections.iter().enumerate() {
        if is_executable(s) {
            list.push(Exec {
                index: i as u32,
                addr: s.addr,
                size: s.size,
            })?;
        }
    }
    Ok(list)
}
