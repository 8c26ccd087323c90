// The symbol machine, which runs an executable as its plan sees it, with pointers and return addresses
// as symbols and a bit for each chosen call site: definitions, in specs/, and the types that they share
// with code.
#![tactic(auto)]

/// An access to bytes of one block.
#[derive(Clone, Copy, Debug, PartialEq, Eq)]
pub struct BlockAccess {
    /// The block's name.
    pub block: u32,
    /// How many bytes are loaded or stored, or are in the buffer.
    pub width: u32,
}

/// What one step did. Each part is `None` exactly where the step has none.
#[derive(Clone, Copy, Debug, PartialEq, Eq)]
pub struct StepNote {
    /// The address of the site that was called.
    pub call: Option<u32>,
    /// The return address through which control went back.
    pub back: Option<u32>,
    /// The block that was granted.
    pub grant: Option<u32>,
    /// The block that was released.
    pub release: Option<u32>,
    /// The load from a block, the store to one, or the nonempty buffer of a system call in one.
    pub access: Option<BlockAccess>,
}
