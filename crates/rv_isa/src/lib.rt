// The instructions of RV32I and of the extension M: words read as instructions, instructions written
// as words, and what the arithmetic ones compute.
#![tactic(auto)]

mod computing;
mod decoding;
mod encoding;
mod fields;
mod laws;
mod registers;
mod splitting;
#[cfg(test)]
mod tests;

pub use computing::{compute, holds};
pub use decoding::decode;
pub use encoding::{encode, is_formed};
pub use laws::{
    no_word_fits_two_rows, results_are_words, the_fitting_row_decides, words_and_instructions_agree,
};
pub use registers::names;
pub use splitting::split;

/// An operation on two words (RISC-V unprivileged manual, chapters "RV32I Base Integer Instruction
/// Set", section "Integer Computational Instructions", and "M Standard Extension").
#[derive(Clone, Copy, Debug, PartialEq, Eq)]
pub enum Op {
    Add,
    Sub,
    Sll,
    Slt,
    Sltu,
    Xor,
    Srl,
    Sra,
    Or,
    And,
    Mul,
    Mulh,
    Mulhsu,
    Mulhu,
    Div,
    Divu,
    Rem,
    Remu,
}

/// The condition of a branch (section "Conditional Branches").
#[derive(Clone, Copy, Debug, PartialEq, Eq)]
pub enum Cond {
    Eq,
    Ne,
    Lt,
    Ge,
    Ltu,
    Geu,
}

/// What a load or a store moves (section "Load and Store Instructions"). `Byte` and `Half` extend the
/// sign when they are loaded, `ByteU` and `HalfU` are loaded with zeros above.
#[derive(Clone, Copy, Debug, PartialEq, Eq)]
pub enum Width {
    Byte,
    Half,
    Word,
    ByteU,
    HalfU,
}

/// An instruction. Registers are numbered 0 to 31. Immediates are words with the sign extended, those
/// of `Branch` and `Jal` in bytes, those of `Lui` and `Auipc` with the low twelve bits 0. A shift by a
/// constant is an `OpImm` whose immediate is the amount, 0 to 31.
#[derive(Clone, Copy, Debug, PartialEq, Eq)]
pub enum Instr {
    Lui {
        rd: u8,
        imm: u32,
    },
    Auipc {
        rd: u8,
        imm: u32,
    },
    Jal {
        rd: u8,
        imm: u32,
    },
    Jalr {
        rd: u8,
        rs1: u8,
        imm: u32,
    },
    Branch {
        cond: Cond,
        rs1: u8,
        rs2: u8,
        imm: u32,
    },
    Load {
        width: Width,
        rd: u8,
        rs1: u8,
        imm: u32,
    },
    Store {
        width: Width,
        rs1: u8,
        rs2: u8,
        imm: u32,
    },
    OpImm {
        op: Op,
        rd: u8,
        rs1: u8,
        imm: u32,
    },
    Reg {
        op: Op,
        rd: u8,
        rs1: u8,
        rs2: u8,
    },
    /// `rest` is the word without its opcode, shifted down by seven: every bit of a fence is kept.
    Fence {
        rest: u32,
    },
    Ecall,
    Ebreak,
}
