// What both machines share: how a run ends and, in specs/, the memory of a file, what loads and stores
// move, the system calls and the first registers.
#![tactic(auto)]

mod laws;

pub use laws::all_addresses_pass_where_each_does;

/// Why a step is an address fault. The flat machine has F1, F3 and F6 alone.
#[derive(Clone, Copy, Debug, PartialEq, Eq)]
pub enum FaultKind {
    /// A load, a store or the buffer of a system call is not aligned, not in memory (on the symbol
    /// machine: neither plain nor in a living block), or can't be stored to where it stores.
    F1,
    /// A branch is undecided.
    F2,
    /// A jump goes to no multiple of 4 (on the symbol machine: to no code word).
    F3,
    /// A system call has an undecided argument, or would write a byte that isn't known.
    F4,
    /// A heap function has a bad argument.
    F5,
    /// Nothing can be fetched at the pc (on the symbol machine: no code word, or the second word of a
    /// call that is one step or of a heap function).
    F6,
}

/// Whether a machine runs, or how it ended: with an exit status, at a word that is no instruction to
/// be run (its address), or at an address fault (the address of the step's instruction).
#[derive(Clone, Copy, Debug, PartialEq, Eq)]
pub enum Ending {
    Running,
    Exit(u8),
    Illegal(u32),
    Fault { kind: FaultKind, at: u32 },
}
