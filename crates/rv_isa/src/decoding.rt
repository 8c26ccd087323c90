// Words read as instructions: cases by opcode, then by funct3 and funct7.
ghost use Rattle.std.specs.Prelude.{◌≡◌, ◌/◌, ◌%◌, ◌^◌, ◌↔◌, IfSome, All};
ghost use Rattle.rv_isa.specs.Words.{rd, rs1, rs2, imm_i, imm_s, imm_b};
ghost use Rattle.rv_isa.specs.Table.{table, decoded, Fits};
ghost use Rattle.rv_isa.specs.Encoded.{IsFormed, NamesRegisters};

use crate::fields::{imm_b_of, imm_i_of, imm_j_of, imm_s_of, imm_u_of, rd_of, rs1_of, rs2_of};
use crate::{Cond, Instr, Op, Width};

/// The instruction that a word is; `None` where no row of the manual's tables fits, which is so for
/// every instruction beyond RV32I and M, and for the compressed ones.
pub fn decode(word: u32) -> Option<Instr>
    ensures exact { result ≡ decoded word }
    ensures none { (result ≡ None) ↔ All (λ row. ¬ Fits row word) table }
    ensures registers { IfSome result NamesRegisters }
    ensures formed { IfSome result IsFormed }
{
    read(word)
}

/// By the opcode.
#[tactic(auto, using(crate::proofs::Fits::rows), unfolding(crate::specs::Table::table))]
fn read(word: u32) -> Option<Instr>
    ensures { result ≡ decoded word }
{
    match word % 128 {
        0x03 => load(word),
        0x0f => fence(word),
        0x13 => op_imm(word),
        0x17 => Some(Instr::Auipc {
            rd: rd_of(word),
            imm: imm_u_of(word),
        }),
        0x23 => store(word),
        0x33 => reg(word),
        0x37 => Some(Instr::Lui {
            rd: rd_of(word),
            imm: imm_u_of(word),
        }),
        0x63 => branch(word),
        0x67 => jalr(word),
        0x6f => Some(Instr::Jal {
            rd: rd_of(word),
            imm: imm_j_of(word),
        }),
        0x73 => system(word),
        _ => None,
    }
}

/// Loads, by funct3.
#[tactic(auto, using(crate::proofs::Fits::rows), unfolding(crate::specs::Table::table))]
fn load(word: u32) -> Option<Instr>
    requires { word % 2 ^ 7 ≡ 0x03 }
    ensures { result ≡ decoded word }
{
    match (word >> 12) % 8 {
        0 => loads(Width::Byte, word),
        1 => loads(Width::Half, word),
        2 => loads(Width::Word, word),
        4 => loads(Width::ByteU, word),
        5 => loads(Width::HalfU, word),
        _ => None,
    }
}

/// Stores, by funct3.
#[tactic(auto, using(crate::proofs::Fits::rows), unfolding(crate::specs::Table::table))]
fn store(word: u32) -> Option<Instr>
    requires { word % 2 ^ 7 ≡ 0x23 }
    ensures { result ≡ decoded word }
{
    match (word >> 12) % 8 {
        0 => stores(Width::Byte, word),
        1 => stores(Width::Half, word),
        2 => stores(Width::Word, word),
        _ => None,
    }
}

/// Branches, by funct3.
#[tactic(auto, using(crate::proofs::Fits::rows), unfolding(crate::specs::Table::table))]
fn branch(word: u32) -> Option<Instr>
    requires { word % 2 ^ 7 ≡ 0x63 }
    ensures { result ≡ decoded word }
{
    match (word >> 12) % 8 {
        0 => branches(Cond::Eq, word),
        1 => branches(Cond::Ne, word),
        4 => branches(Cond::Lt, word),
        5 => branches(Cond::Ge, word),
        6 => branches(Cond::Ltu, word),
        7 => branches(Cond::Geu, word),
        _ => None,
    }
}

/// The jump to a register, by funct3.
#[tactic(auto, using(crate::proofs::Fits::rows), unfolding(crate::specs::Table::table))]
fn jalr(word: u32) -> Option<Instr>
    requires { word % 2 ^ 7 ≡ 0x67 }
    ensures { result ≡ decoded word }
{
    match (word >> 12) % 8 {
        0 => Some(Instr::Jalr {
            rd: rd_of(word),
            rs1: rs1_of(word),
            imm: imm_i_of(word),
        }),
        _ => None,
    }
}

/// Fences, by funct3: all other bits are ignored.
#[tactic(auto, using(crate::proofs::Fits::rows), unfolding(crate::specs::Table::table))]
fn fence(word: u32) -> Option<Instr>
    requires { word % 2 ^ 7 ≡ 0x0f }
    ensures { result ≡ decoded word }
{
    match (word >> 12) % 8 {
        0 => Some(Instr::Fence { rest: word >> 7 }),
        _ => None,
    }
}

/// The two whole words of the opcode of system calls.
#[tactic(auto, using(crate::proofs::Fits::rows), unfolding(crate::specs::Table::table))]
fn system(word: u32) -> Option<Instr>
    requires { word % 2 ^ 7 ≡ 0x73 }
    ensures { result ≡ decoded word }
{
    match word {
        0x0000_0073 => Some(Instr::Ecall),
        0x0010_0073 => Some(Instr::Ebreak),
        _ => None,
    }
}

/// Operations on a register and an immediate, by funct3.
#[tactic(auto, using(crate::proofs::Fits::rows), unfolding(crate::specs::Table::table))]
fn op_imm(word: u32) -> Option<Instr>
    requires { word % 2 ^ 7 ≡ 0x13 }
    ensures { result ≡ decoded word }
{
    match (word >> 12) % 8 {
        0 => operates(Op::Add, word),
        1 => shift_left(word),
        2 => operates(Op::Slt, word),
        3 => operates(Op::Sltu, word),
        4 => operates(Op::Xor, word),
        5 => shift_right(word),
        6 => operates(Op::Or, word),
        7 => operates(Op::And, word),
        _ => None,
    }
}

/// Shifts to the left by a constant, by funct7.
#[tactic(auto, using(crate::proofs::Fits::rows), unfolding(crate::specs::Table::table))]
fn shift_left(word: u32) -> Option<Instr>
    requires opcode { word % 2 ^ 7 ≡ 0x13 }
    requires funct3 { word / 2 ^ 12 % 2 ^ 3 ≡ 1 }
    ensures { result ≡ decoded word }
{
    match word >> 25 {
        0x00 => shifts(Op::Sll, word),
        _ => None,
    }
}

/// Shifts to the right by a constant, by funct7.
#[tactic(auto, using(crate::proofs::Fits::rows), unfolding(crate::specs::Table::table))]
fn shift_right(word: u32) -> Option<Instr>
    requires opcode { word % 2 ^ 7 ≡ 0x13 }
    requires funct3 { word / 2 ^ 12 % 2 ^ 3 ≡ 5 }
    ensures { result ≡ decoded word }
{
    match word >> 25 {
        0x00 => shifts(Op::Srl, word),
        0x20 => shifts(Op::Sra, word),
        _ => None,
    }
}

/// Operations on two registers, by funct7.
#[tactic(auto, using(crate::proofs::Fits::rows), unfolding(crate::specs::Table::table))]
fn reg(word: u32) -> Option<Instr>
    requires { word % 2 ^ 7 ≡ 0x33 }
    ensures { result ≡ decoded word }
{
    match word >> 25 {
        0x00 => base(word),
        0x01 => multiplies(word),
        0x20 => alternate(word),
        _ => None,
    }
}

/// The operations of the base set, by funct3.
#[tactic(auto, using(crate::proofs::Fits::rows), unfolding(crate::specs::Table::table))]
fn base(word: u32) -> Option<Instr>
    requires opcode { word % 2 ^ 7 ≡ 0x33 }
    requires funct7 { word / 2 ^ 25 ≡ 0x00 }
    ensures { result ≡ decoded word }
{
    match (word >> 12) % 8 {
        0 => registers(Op::Add, word),
        1 => registers(Op::Sll, word),
        2 => registers(Op::Slt, word),
        3 => registers(Op::Sltu, word),
        4 => registers(Op::Xor, word),
        5 => registers(Op::Srl, word),
        6 => registers(Op::Or, word),
        7 => registers(Op::And, word),
        _ => None,
    }
}

/// The operations of the extension M, by funct3.
#[tactic(auto, using(crate::proofs::Fits::rows), unfolding(crate::specs::Table::table))]
fn multiplies(word: u32) -> Option<Instr>
    requires opcode { word % 2 ^ 7 ≡ 0x33 }
    requires funct7 { word / 2 ^ 25 ≡ 0x01 }
    ensures { result ≡ decoded word }
{
    match (word >> 12) % 8 {
        0 => registers(Op::Mul, word),
        1 => registers(Op::Mulh, word),
        2 => registers(Op::Mulhsu, word),
        3 => registers(Op::Mulhu, word),
        4 => registers(Op::Div, word),
        5 => registers(Op::Divu, word),
        6 => registers(Op::Rem, word),
        7 => registers(Op::Remu, word),
        _ => None,
    }
}

/// The operations of the base set that have a bit in funct7, by funct3.
#[tactic(auto, using(crate::proofs::Fits::rows), unfolding(crate::specs::Table::table))]
fn alternate(word: u32) -> Option<Instr>
    requires opcode { word % 2 ^ 7 ≡ 0x33 }
    requires funct7 { word / 2 ^ 25 ≡ 0x20 }
    ensures { result ≡ decoded word }
{
    match (word >> 12) % 8 {
        0 => registers(Op::Sub, word),
        5 => registers(Op::Sra, word),
        _ => None,
    }
}

fn loads(width: Width, word: u32) -> Option<Instr>
    ensures { result ≡ Some (Instr.Load width (rd word) (rs1 word) (imm_i word)) }
{
    Some(Instr::Load {
        width,
        rd: rd_of(word),
        rs1: rs1_of(word),
        imm: imm_i_of(word),
    })
}

fn stores(width: Width, word: u32) -> Option<Instr>
    ensures { result ≡ Some (Instr.Store width (rs1 word) (rs2 word) (imm_s word)) }
{
    Some(Instr::Store {
        width,
        rs1: rs1_of(word),
        rs2: rs2_of(word),
        imm: imm_s_of(word),
    })
}

fn branches(cond: Cond, word: u32) -> Option<Instr>
    ensures { result ≡ Some (Instr.Branch cond (rs1 word) (rs2 word) (imm_b word)) }
{
    Some(Instr::Branch {
        cond,
        rs1: rs1_of(word),
        rs2: rs2_of(word),
        imm: imm_b_of(word),
    })
}

fn operates(op: Op, word: u32) -> Option<Instr>
    ensures { result ≡ Some (Instr.OpImm op (rd word) (rs1 word) (imm_i word)) }
{
    Some(Instr::OpImm {
        op,
        rd: rd_of(word),
        rs1: rs1_of(word),
        imm: imm_i_of(word),
    })
}

fn shifts(op: Op, word: u32) -> Option<Instr>
    ensures { result ≡ Some (Instr.OpImm op (rd word) (rs1 word) (rs2 word)) }
{
    Some(Instr::OpImm {
        op,
        rd: rd_of(word),
        rs1: rs1_of(word),
        imm: rs2_of(word) as u32,
    })
}

fn registers(op: Op, word: u32) -> Option<Instr>
    ensures { result ≡ Some (Instr.Reg op (rd word) (rs1 word) (rs2 word)) }
{
    Some(Instr::Reg {
        op,
        rd: rd_of(word),
        rs1: rs1_of(word),
        rs2: rs2_of(word),
    })
}
