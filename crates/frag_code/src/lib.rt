// Fragments: small programs of operations, loads, stores, choices and loops, and the compiler that
// writes them as RV32IM words.
#![tactic(auto)]

mod builders;
mod compiling;
mod forms;
mod laws;
#[cfg(test)]
mod tests;

pub use builders::{chain, choice, compute, immediate, load, repeat, sequence, set, store};
pub use compiling::compile;
pub use forms::{is_formed, words_of};
pub use laws::{
    a_countdown_costs_39_and_takes_21_steps, a_run_changes_what_it_may,
    more_rights_and_turns_change_nothing,
};
use rv_isa::{Cond, Op};

/// A small program on registers and words of memory. Registers are numbered 0 to 31. An offset is a
/// word with the sign extended, from -2048 to 2047, and loads and stores move the word at rs1 plus
/// offset, which has to be aligned.
#[derive(Drop)]
pub enum Frag {
    /// Nothing.
    Skip,
    /// rd becomes the value.
    Set {
        rd: u8,
        value: u32,
    },
    /// rd becomes what the operation gives of rs1 and rs2.
    Op {
        op: Op,
        rd: u8,
        rs1: u8,
        rs2: u8,
    },
    /// rd becomes what the operation gives of rs1 and the immediate: from -2048 to 2047, as an offset,
    /// or from 0 to 31 for a shift.
    Imm {
        op: Op,
        rd: u8,
        rs1: u8,
        imm: u32,
    },
    /// rd becomes the word at rs1 plus offset.
    Load {
        rd: u8,
        rs1: u8,
        offset: u32,
    },
    /// The word at rs1 plus offset becomes rs2.
    Store {
        rs1: u8,
        rs2: u8,
        offset: u32,
    },
    /// One after the other.
    Seq {
        first: Box<Frag>,
        second: Box<Frag>,
    },
    /// The one where the condition holds of rs1 and rs2, else the other.
    If {
        cond: Cond,
        rs1: u8,
        rs2: u8,
        taken: Box<Frag>,
        other: Box<Frag>,
    },
    /// The body as long as the condition holds of rs1 and rs2.
    While {
        cond: Cond,
        rs1: u8,
        rs2: u8,
        body: Box<Frag>,
    },
}
