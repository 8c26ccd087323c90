// Symbols that a builder has been given.
use elf_spec::ByteList;
use vec_list::VecList;

/// A function symbol: the bytes of its name, its address and its size.
#[derive(Debug, Drop)]
pub struct Label {
    pub name: ByteList,
    pub at: u32,
    pub size: u32,
}

/// Symbols in the order in which they were given.
pub type LabelList = VecList<Label>;
