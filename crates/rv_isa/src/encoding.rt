// Instructions written as words: one function for each format.
ghost use Rattle.std.specs.Prelude.{◌≡◌, ℕ, ◌^◌, ◌<◌, ◌↔◌, IsTrue};
ghost use Rattle.rv_isa.specs.Table.{decoded};
ghost use Rattle.rv_isa.specs.Encoded.{
  encoded,
  IsFormed,
  funct3_of,
  funct7_of,
  funct3_of_cond,
  funct3_of_width,
  is_shift,
  r_word,
  i_word,
  s_word,
  b_word,
  u_word,
  j_word,
};

use crate::decoding::decode;
use crate::{Cond, Instr, Op, Width};

/// The word of a formed instruction, the only one that `decode` reads as it.
pub fn encode(i: Instr) -> u32
    requires { IsFormed i }
    ensures word { result ≡ encoded i }
    ensures decodes { decoded result ≡ Some i }
    ensures only { (w : ℕ) → w < 2 ^ 32 → decoded w ≡ Some i → w ≡ result }
{
    word_of(i)
}

/// Whether some word decodes to the instruction: its registers are below 32, its immediate is one of
/// its format, and its operation, width or `rest` has a row.
pub fn is_formed(i: &Instr) -> bool
    ensures formed { IsTrue result ↔ IsFormed i.now }
    ensures some_word { IsTrue result ↔ ((w : ℕ) × (w < 2 ^ 32) × (decoded w ≡ Some i.now)) }
{
    reads_as(word_of(*i), i)
}

/// Whether the word decodes to the instruction.
fn reads_as(word: u32, i: &Instr) -> bool
    ensures { IsTrue result ↔ (decoded word ≡ Some i.now) }
{
    match decode(word) {
        Some(read) => same(&read, i),
        None => false,
    }
}

fn same(a: &Instr, b: &Instr) -> bool
    ensures { IsTrue result ↔ (a.now ≡ b.now) }
{
    *a == *b
}

/// The word by the instruction's format, of the low bits of fields that are too large.
#[tactic(auto, unfolding(crate::specs::Encoded::encoded))]
fn word_of(i: Instr) -> u32
    ensures { result ≡ encoded i }
{
    match i {
        Instr::Lui { rd, imm } => u_format(0x37, rd, imm),
        Instr::Auipc { rd, imm } => u_format(0x17, rd, imm),
        Instr::Jal { rd, imm } => j_format(0x6f, rd, imm),
        Instr::Jalr { rd, rs1, imm } => i_format(0x67, 0, rd, rs1, imm),
        Instr::Branch {
            cond,
            rs1,
            rs2,
            imm,
        } => b_format(0x63, cond_funct3(cond), rs1, rs2, imm),
        Instr::Load {
            width,
            rd,
            rs1,
            imm,
        } => i_format(0x03, width_funct3(width), rd, rs1, imm),
        Instr::Store {
            width,
            rs1,
            rs2,
            imm,
        } => s_format(0x23, width_funct3(width), rs1, rs2, imm),
        Instr::OpImm { op, rd, rs1, imm } => op_imm_word(op, rd, rs1, imm),
        Instr::Reg { op, rd, rs1, rs2 } => {
            r_format(0x33, op_funct3(op), op_funct7(op), rd, rs1, rs2 as u32)
        }
        Instr::Fence { rest } => 0x0f + rest % 0x0200_0000 * 0x80,
        Instr::Ecall => 0x0000_0073,
        Instr::Ebreak => 0x0010_0073,
    }
}

#[tactic(auto, unfolding(crate::specs::Encoded::encoded))]
fn op_imm_word(op: Op, rd: u8, rs1: u8, imm: u32) -> u32
    ensures { result ≡ encoded (Instr.OpImm op rd rs1 imm) }
{
    if shifts(op) {
        r_format(0x13, op_funct3(op), op_funct7(op), rd, rs1, imm)
    } else {
        i_format(0x13, op_funct3(op), rd, rs1, imm)
    }
}

fn r_format(opcode: u32, funct3: u32, funct7: u32, rd: u8, rs1: u8, rs2: u32) -> u32
    requires opcode { opcode < 2 ^ 7 }
    requires funct3 { funct3 < 2 ^ 3 }
    requires funct7 { funct7 < 2 ^ 7 }
    ensures { result ≡ r_word opcode funct3 funct7 rd rs1 rs2 }
{
    let low = opcode + rd as u32 % 32 * 0x80 + funct3 * 0x1000;
    low + rs1 as u32 % 32 * 0x8000 + rs2 % 32 * 0x10_0000 + funct7 * 0x0200_0000
}

fn i_format(opcode: u32, funct3: u32, rd: u8, rs1: u8, imm: u32) -> u32
    requires opcode { opcode < 2 ^ 7 }
    requires funct3 { funct3 < 2 ^ 3 }
    ensures { result ≡ i_word opcode funct3 rd rs1 imm }
{
    let low = opcode + rd as u32 % 32 * 0x80 + funct3 * 0x1000;
    low + rs1 as u32 % 32 * 0x8000 + imm % 0x1000 * 0x10_0000
}

fn s_format(opcode: u32, funct3: u32, rs1: u8, rs2: u8, imm: u32) -> u32
    requires opcode { opcode < 2 ^ 7 }
    requires funct3 { funct3 < 2 ^ 3 }
    ensures { result ≡ s_word opcode funct3 rs1 rs2 imm }
{
    let low = opcode + imm % 32 * 0x80 + funct3 * 0x1000;
    low + rs1 as u32 % 32 * 0x8000 + rs2 as u32 % 32 * 0x10_0000 + (imm >> 5) % 128 * 0x0200_0000
}

fn b_format(opcode: u32, funct3: u32, rs1: u8, rs2: u8, imm: u32) -> u32
    requires opcode { opcode < 2 ^ 7 }
    requires funct3 { funct3 < 2 ^ 3 }
    ensures { result ≡ b_word opcode funct3 rs1 rs2 imm }
{
    let low = opcode + (imm >> 11) % 2 * 0x80 + (imm >> 1) % 16 * 0x100 + funct3 * 0x1000;
    let high = (imm >> 5) % 64 * 0x0200_0000 + (imm >> 12) % 2 * 0x8000_0000;
    low + rs1 as u32 % 32 * 0x8000 + rs2 as u32 % 32 * 0x10_0000 + high
}

fn u_format(opcode: u32, rd: u8, imm: u32) -> u32
    requires { opcode < 2 ^ 7 }
    ensures { result ≡ u_word opcode rd imm }
{
    opcode + rd as u32 % 32 * 0x80 + (imm >> 12) * 0x1000
}

fn j_format(opcode: u32, rd: u8, imm: u32) -> u32
    requires { opcode < 2 ^ 7 }
    ensures { result ≡ j_word opcode rd imm }
{
    let low = opcode + rd as u32 % 32 * 0x80 + (imm >> 12) % 256 * 0x1000;
    let high = (imm >> 1) % 1024 * 0x20_0000 + (imm >> 20) % 2 * 0x8000_0000;
    low + (imm >> 11) % 2 * 0x10_0000 + high
}

/// funct3 of an operation.
fn op_funct3(op: Op) -> u32
    ensures value { result ≡ funct3_of op }
    ensures bound { result < 2 ^ 3 }
{
    match op {
        Op::Add | Op::Sub | Op::Mul => 0,
        Op::Sll | Op::Mulh => 1,
        Op::Slt | Op::Mulhsu => 2,
        Op::Sltu | Op::Mulhu => 3,
        Op::Xor | Op::Div => 4,
        Op::Srl | Op::Sra | Op::Divu => 5,
        Op::Or | Op::Rem => 6,
        Op::And | Op::Remu => 7,
    }
}

/// funct7 of an operation on registers, and of a shift by a constant.
fn op_funct7(op: Op) -> u32
    ensures value { result ≡ funct7_of op }
    ensures bound { result < 2 ^ 7 }
{
    match op {
        Op::Sub | Op::Sra => 0x20,
        Op::Mul | Op::Mulh | Op::Mulhsu | Op::Mulhu => 0x01,
        Op::Div | Op::Divu | Op::Rem | Op::Remu => 0x01,
        _ => 0x00,
    }
}

/// funct3 of a branch.
fn cond_funct3(cond: Cond) -> u32
    ensures value { result ≡ funct3_of_cond cond }
    ensures bound { result < 2 ^ 3 }
{
    match cond {
        Cond::Eq => 0,
        Cond::Ne => 1,
        Cond::Lt => 4,
        Cond::Ge => 5,
        Cond::Ltu => 6,
        Cond::Geu => 7,
    }
}

/// funct3 of a load or a store.
fn width_funct3(width: Width) -> u32
    ensures value { result ≡ funct3_of_width width }
    ensures bound { result < 2 ^ 3 }
{
    match width {
        Width::Byte => 0,
        Width::Half => 1,
        Width::Word => 2,
        Width::ByteU => 4,
        Width::HalfU => 5,
    }
}

/// Whether the operation is a shift.
fn shifts(op: Op) -> bool
    ensures { result ≡ is_shift op }
{
    matches!(op, Op::Sll | Op::Srl | Op::Sra)
}
