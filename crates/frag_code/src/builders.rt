// Fragments made of parts.
ghost use Rattle.std.specs.Prelude.{◌≡◌, map, IfOk};
ghost use Rattle.frag_code.specs.Fragments.{Fragment, plain, chained};

use crate::Frag;
use rv_isa::{Cond, Op};
use std::alloc::{AllocError, Global};

/// rd becomes the value.
pub fn set(rd: u8, value: u32) -> Frag
    ensures { plain result ≡ Fragment.Set rd value }
{
    Frag::Set { rd, value }
}

/// rd becomes what the operation gives of rs1 and rs2.
pub fn compute(op: Op, rd: u8, rs1: u8, rs2: u8) -> Frag
    ensures { plain result ≡ Fragment.Compute op rd rs1 rs2 }
{
    Frag::Op { op, rd, rs1, rs2 }
}

/// rd becomes what the operation gives of rs1 and the immediate.
pub fn immediate(op: Op, rd: u8, rs1: u8, imm: u32) -> Frag
    ensures { plain result ≡ Fragment.Imm op rd rs1 imm }
{
    Frag::Imm { op, rd, rs1, imm }
}

/// rd becomes the word at rs1 plus offset.
pub fn load(rd: u8, rs1: u8, offset: u32) -> Frag
    ensures { plain result ≡ Fragment.Load rd rs1 offset }
{
    Frag::Load { rd, rs1, offset }
}

/// The word at rs1 plus offset becomes rs2.
pub fn store(rs1: u8, rs2: u8, offset: u32) -> Frag
    ensures { plain result ≡ Fragment.Store rs1 rs2 offset }
{
    Frag::Store { rs1, rs2, offset }
}

/// One after the other.
pub fn sequence(alloc: Global, first: Frag, second: Frag) -> Result<Frag, AllocError>
    ensures { IfOk result (λ f. plain f ≡ Fragment.Seq (plain first) (plain second)) }
{
    let first = Box::new(alloc, first)?;
    let second = Box::new(alloc, second)?;
    Ok(Frag::Seq { first, second })
}

/// The one where the condition holds of rs1 and rs2, else the other.
pub fn choice(
    alloc: Global,
    cond: Cond,
    rs1: u8,
    rs2: u8,
    taken: Frag,
    other: Frag,
) -> Result<Frag, AllocError>
    ensures { IfOk result (λ f. plain f ≡ Fragment.If cond rs1 rs2 (plain taken) (plain other)) }
{
    let taken = Box::new(alloc, taken)?;
    let other = Box::new(alloc, other)?;
    Ok(Frag::If {
        cond,
        rs1,
        rs2,
        taken,
        other,
    })
}

/// The body as long as the condition holds of rs1 and rs2.
pub fn repeat(alloc: Global, cond: Cond, rs1: u8, rs2: u8, body: Frag) -> Result<Frag, AllocError>
    ensures { IfOk result (λ f. plain f ≡ Fragment.While cond rs1 rs2 (plain body)) }
{
    let body = Box::new(alloc, body)?;
    Ok(Frag::While {
        cond,
        rs1,
        rs2,
        body,
    })
}

/// All of them, one after the other.
pub fn chain(alloc: Global, parts: Vec<Frag>) -> Result<Frag, AllocError>
    ensures { IfOk result (λ f. plain f ≡ chained (map plain parts.items)) }
{
    let mut parts = parts;
    let mut all = Frag::Skip;
    while let Some(part) = parts.pop() {
        all = sequence(alloc, part, all)?;
    }
    Ok(all)
}
