// Instructions by their assembly names, and the registers (RISC-V unprivileged manual, chapter "RISC-V
// Assembly Programmer's Handbook").
ghost use Rattle.std.specs.Prelude.{◌≡◌};
ghost use Rattle.rv_build.specs.Assembly as lines;

use rv_isa::{Cond, Instr, Op, Width};

pub const X0: u8 = 0;

pub const RA: u8 = 1;

pub const SP: u8 = 2;

pub const S0: u8 = 8;

pub const S1: u8 = 9;

pub const A0: u8 = 10;

pub const A4: u8 = 14;

pub const A5: u8 = 15;

pub const A7: u8 = 17;

pub const S2: u8 = 18;

pub const S3: u8 = 19;

pub const S4: u8 = 20;

/// The sum of a register and an immediate.
pub fn addi(rd: u8, rs1: u8, imm: u32) -> Instr
    ensures { result ≡ lines.addi rd rs1 imm 0 }
{
    Instr::OpImm {
        op: Op::Add,
        rd,
        rs1,
        imm,
    }
}

/// The sum of two registers.
pub fn add(rd: u8, rs1: u8, rs2: u8) -> Instr
    ensures { result ≡ lines.add rd rs1 rs2 0 }
{
    Instr::Reg {
        op: Op::Add,
        rd,
        rs1,
        rs2,
    }
}

/// Loads a word.
pub fn lw(rd: u8, offset: u32, base: u8) -> Instr
    ensures { result ≡ lines.lw rd offset base 0 }
{
    Instr::Load {
        width: Width::Word,
        rd,
        rs1: base,
        imm: offset,
    }
}

/// Stores a word.
pub fn sw(rs2: u8, offset: u32, base: u8) -> Instr
    ensures { result ≡ lines.sw rs2 offset base 0 }
{
    Instr::Store {
        width: Width::Word,
        rs1: base,
        rs2,
        imm: offset,
    }
}

/// Jumps from `at` to `target`, with the address behind the jump in `rd`.
pub fn jal(at: u32, rd: u8, target: u32) -> Instr
    ensures { result ≡ lines.jal rd target at }
{
    Instr::Jal {
        rd,
        imm: target.wrapping_sub(at),
    }
}

/// Jumps to where a register and an offset point, with the address behind the jump in `rd`.
pub fn jalr(rd: u8, offset: u32, base: u8) -> Instr
    ensures { result ≡ lines.jalr rd offset base 0 }
{
    Instr::Jalr {
        rd,
        rs1: base,
        imm: offset,
    }
}

/// Jumps from `at` to `target` where a register is 0.
pub fn beqz(at: u32, rs1: u8, target: u32) -> Instr
    ensures { result ≡ lines.beq rs1 0 target at }
{
    Instr::Branch {
        cond: Cond::Eq,
        rs1,
        rs2: X0,
        imm: target.wrapping_sub(at),
    }
}

/// Jumps from `at` to `target` where a register is not 0.
pub fn bnez(at: u32, rs1: u8, target: u32) -> Instr
    ensures { result ≡ lines.bne rs1 0 target at }
{
    Instr::Branch {
        cond: Cond::Ne,
        rs1,
        rs2: X0,
        imm: target.wrapping_sub(at),
    }
}
