// Fragments written as words.
ghost use Rattle.std.specs.Prelude.{◌≡◌, ◌-◌, ◌*◌, ◌^◌, ◌<◌, ◌≤◌, [], ◌∷◌, ◌++◌, IfOk, OnOk};
ghost use Rattle.rv_isa.specs.Encoded as words;
ghost use Rattle.rv_isa.specs.Encoded.{encoded};
ghost use Rattle.rv_isa.specs.Split.{split_of};
ghost use Rattle.frag_code.specs.Fragments.{plain};
ghost use Rattle.frag_code.specs.Code.{code_of};
ghost use Rattle.frag_code.specs.Forms.{IsFormed};
ghost use Rattle.frag_code.specs.Machines.{RunsAs, RunsAsShown};

use crate::Frag;
use crate::forms::words_of;
use rv_isa::{Cond, Instr, Op, Width, encode, split, words_and_instructions_agree};
use std::alloc::{AllocError, Global};

/// The words of a formed fragment. They stand at any multiple of 4, also inside larger code: a machine
/// that comes to the first of them comes to the place behind the last, and has done what the fragment
/// does.
pub fn compile(alloc: Global, f: &Frag) -> Result<Vec<u32>, AllocError>
    requires { IsFormed (plain f.now) }
    ensures words { IfOk result (λ code. code.items ≡ code_of (plain f.now)) }
    ensures runs { IfOk result (λ code. RunsAs (plain f.now) code.items) }
    ensures runs_shown { IfOk result (λ code. RunsAsShown (plain f.now) code.items) }
{
    words_and_instructions_agree();
    let mut code = Vec::with_capacity(alloc, words_of(f) as usize)?;
    emit(&mut code, f)?;
    Ok(code)
}

/// The words of a fragment behind those that are there.
#[tactic(auto, unfolding(crate::specs::Code::instructions_of))]
fn emit(code: &mut Vec<u32>, f: &Frag) -> Result<(), AllocError>
    requires { IsFormed (plain f.now) }
    ensures { OnOk result (code.new.items ≡ code.old.items ++ code_of (plain f.now)) }
{
    match f {
        Frag::Skip => Ok(()),
        Frag::Set { rd, value } => emit_set(code, *rd, *value),
        Frag::Op { op, rd, rs1, rs2 } => put_op(code, *op, *rd, *rs1, *rs2),
        Frag::Imm { op, rd, rs1, imm } => put_immediate(code, *op, *rd, *rs1, *imm),
        Frag::Load { rd, rs1, offset } => put_load(code, *rd, *rs1, *offset),
        Frag::Store { rs1, rs2, offset } => put_store(code, *rs1, *rs2, *offset),
        Frag::Seq { first, second } => {
            emit(code, first)?;
            emit(code, second)
        }
        Frag::If {
            cond,
            rs1,
            rs2,
            taken,
            other,
        } => {
            put_test(code, *cond, *rs1, *rs2, words_of(taken) + 2)?;
            emit(code, taken)?;
            put_jump(code, words_of(other) + 1)?;
            emit(code, other)
        }
        Frag::While {
            cond,
            rs1,
            rs2,
            body,
        } => {
            let words = words_of(body) + 2;
            put_test(code, *cond, *rs1, *rs2, words)?;
            emit(code, body)?;
            put_jump_back(code, words)
        }
    }
}

/// The two words that set a register to a value.
fn emit_set(code: &mut Vec<u32>, rd: u8, value: u32) -> Result<(), AllocError>
    requires { rd < 32 }
    ensures { OnOk result (code.new.items ≡ code.old.items ++ encoded (Instr.Lui rd (split_of value).0)
        ∷ encoded (Instr.OpImm Op.Add rd rd (split_of value).1) ∷ []) }
{
    let (upper, lower) = split(value);
    put(code, Instr::Lui { rd, imm: upper })?;
    put(
        code,
        Instr::OpImm {
            op: Op::Add,
            rd,
            rs1: rd,
            imm: lower,
        },
    )
}

/// An operation of two registers.
fn put_op(code: &mut Vec<u32>, op: Op, rd: u8, rs1: u8, rs2: u8) -> Result<(), AllocError>
    requires { words.IsFormed (Instr.Reg op rd rs1 rs2) }
    ensures { OnOk result (code.new.items ≡ code.old.items ++ encoded (Instr.Reg op rd rs1 rs2) ∷ []) }
{
    put(code, Instr::Reg { op, rd, rs1, rs2 })
}

/// An operation of a register and a number.
fn put_immediate(code: &mut Vec<u32>, op: Op, rd: u8, rs1: u8, imm: u32) -> Result<(), AllocError>
    requires { words.IsFormed (Instr.OpImm op rd rs1 imm) }
    ensures { OnOk result (code.new.items ≡ code.old.items ++ encoded (Instr.OpImm op rd rs1 imm) ∷ []) }
{
    put(code, Instr::OpImm { op, rd, rs1, imm })
}

/// A word from memory into a register.
fn put_load(code: &mut Vec<u32>, rd: u8, rs1: u8, imm: u32) -> Result<(), AllocError>
    requires { words.IsFormed (Instr.Load Width.Word rd rs1 imm) }
    ensures { OnOk result (code.new.items ≡ code.old.items ++ encoded (Instr.Load Width.Word rd rs1 imm) ∷ []) }
{
    let width = Width::Word;
    put(
        code,
        Instr::Load {
            width,
            rd,
            rs1,
            imm,
        },
    )
}

/// A word from a register into memory.
fn put_store(code: &mut Vec<u32>, rs1: u8, rs2: u8, imm: u32) -> Result<(), AllocError>
    requires { words.IsFormed (Instr.Store Width.Word rs1 rs2 imm) }
    ensures { OnOk result (code.new.items ≡ code.old.items ++ encoded (Instr.Store Width.Word rs1 rs2 imm) ∷ []) }
{
    let width = Width::Word;
    put(
        code,
        Instr::Store {
            width,
            rs1,
            rs2,
            imm,
        },
    )
}

/// A branch over the word behind it, and that word: a jump so many words forwards.
fn put_test(code: &mut Vec<u32>, cond: Cond, rs1: u8, rs2: u8, words: u32) -> Result<(), AllocError>
    requires sources { (rs1 < 32) × (rs2 < 32) }
    requires near { words ≤ 4098 }
    ensures { OnOk result (code.new.items ≡ code.old.items ++ encoded (Instr.Branch cond rs1 rs2 8)
        ∷ encoded (Instr.Jal 0 (4 * words)) ∷ []) }
{
    put(
        code,
        Instr::Branch {
            cond,
            rs1,
            rs2,
            imm: 8,
        },
    )?;
    put_jump(code, words)
}

/// A jump so many words forwards.
fn put_jump(code: &mut Vec<u32>, words: u32) -> Result<(), AllocError>
    requires { words ≤ 4098 }
    ensures { OnOk result (code.new.items ≡ code.old.items ++ encoded (Instr.Jal 0 (4 * words)) ∷ []) }
{
    put(
        code,
        Instr::Jal {
            rd: 0,
            imm: 4 * words,
        },
    )
}

/// A jump so many words back.
fn put_jump_back(code: &mut Vec<u32>, words: u32) -> Result<(), AllocError>
    requires { (0 < words) × (words ≤ 4098) }
    ensures { OnOk result (code.new.items ≡ code.old.items ++ encoded (Instr.Jal 0 (2 ^ 32 - 4 * words)) ∷ []) }
{
    let distance = 4 * words;
    put(
        code,
        Instr::Jal {
            rd: 0,
            imm: distance.wrapping_neg(),
        },
    )
}

/// One more word.
fn put(code: &mut Vec<u32>, i: Instr) -> Result<(), AllocError>
    requires { words.IsFormed i }
    ensures { OnOk result (code.new.items ≡ code.old.items ++ encoded i ∷ []) }
{
    code.push(encode(i))?;
    Ok(())
}
