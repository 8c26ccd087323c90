// Which fragments have code, and how much.
ghost use Rattle.std.specs.Prelude.{◌≡◌, ◌-◌, ◌≤◌, ◌↔◌, IsTrue, SomeIff, length};
ghost use Rattle.rv_isa.specs.Encoded.{IsExtended, IsOperand};
ghost use Rattle.frag_code.specs.Fragments.{plain};
ghost use Rattle.frag_code.specs.Code.{instructions_of};
ghost use Rattle.frag_code.specs.Forms.{is_target, is_source, HasFields, IsFormed};

use crate::Frag;
use rv_isa::Op;

/// The most words that a fragment's code has.
const MOST_WORDS: u32 = 4096;

/// Whether the fragment has code: it writes x5 to x7, x10 to x17 and x28 to x31 alone and reads these
/// and x0, its offsets are from -2048 to 2047, its immediates are such as their operations take, and its
/// code has at most 4096 words.
pub fn is_formed(f: &Frag) -> bool
    ensures { IsTrue result ↔ IsFormed (plain f.now) }
{
    has_fields(f) && left_behind(f, MOST_WORDS).is_some()
}

/// The number of words of a formed fragment's code.
#[tactic(auto, unfolding(crate::specs::Code::instructions_of))]
pub fn words_of(f: &Frag) -> u32
    requires { IsFormed (plain f.now) }
    ensures { result ≡ length (instructions_of (plain f.now)) }
{
    match f {
        Frag::Skip => 0,
        Frag::Set { .. } => 2,
        Frag::Op { .. } | Frag::Imm { .. } | Frag::Load { .. } | Frag::Store { .. } => 1,
        Frag::Seq { first, second } => words_of(first) + words_of(second),
        Frag::If { taken, other, .. } => words_of(taken) + words_of(other) + 3,
        Frag::While { body, .. } => words_of(body) + 3,
    }
}

/// Whether each register and offset is in its range.
fn has_fields(f: &Frag) -> bool
    ensures { IsTrue result ↔ HasFields (plain f.now) }
{
    match f {
        Frag::Skip => true,
        Frag::Set { rd, .. } => is_written(*rd),
        Frag::Op { rd, rs1, rs2, .. } => is_written(*rd) && is_read(*rs1) && is_read(*rs2),
        Frag::Imm { op, rd, rs1, imm } => {
            is_written(*rd) && is_read(*rs1) && is_operand(*op, *imm)
        }
        Frag::Load { rd, rs1, offset } => is_written(*rd) && is_read(*rs1) && is_near(*offset),
        Frag::Store { rs1, rs2, offset } => is_read(*rs1) && is_read(*rs2) && is_near(*offset),
        Frag::Seq { first, second } => has_fields(first) && has_fields(second),
        Frag::If {
            rs1,
            rs2,
            taken,
            other,
            ..
        } => is_read(*rs1) && is_read(*rs2) && has_fields(taken) && has_fields(other),
        Frag::While { rs1, rs2, body, .. } => is_read(*rs1) && is_read(*rs2) && has_fields(body),
    }
}

/// Whether a fragment may write the register.
fn is_written(register: u8) -> bool
    ensures { result ≡ is_target register }
{
    matches!(register, 5..=7 | 10..=17 | 28..=31)
}

/// Whether a fragment may read the register.
fn is_read(register: u8) -> bool
    ensures { result ≡ is_source register }
{
    register == 0 || is_written(register)
}

/// Whether the operation takes the immediate: twelve bits with their sign, or an amount for a shift.
fn is_operand(op: Op, imm: u32) -> bool
    ensures { IsTrue result ↔ IsOperand op imm }
{
    match op {
        Op::Add | Op::Slt | Op::Sltu | Op::Xor | Op::Or | Op::And => is_near(imm),
        Op::Sll | Op::Srl | Op::Sra => imm < 32,
        _ => false,
    }
}

/// Whether the offset is from -2048 to 2047.
fn is_near(offset: u32) -> bool
    ensures { IsTrue result ↔ IsExtended 12 offset }
{
    offset.wrapping_add(0x800) < 0x1000
}

/// What is left of so many words behind the fragment's, where there are enough.
#[tactic(auto, unfolding(crate::specs::Code::instructions_of))]
fn left_behind(f: &Frag, room: u32) -> Option<u32>
    ensures { SomeIff result (length (instructions_of (plain f.now)) ≤ room)
        (room - length (instructions_of (plain f.now))) }
{
    match f {
        Frag::Skip => Some(room),
        Frag::Set { .. } => room.checked_sub(2),
        Frag::Op { .. } | Frag::Imm { .. } | Frag::Load { .. } | Frag::Store { .. } => {
            room.checked_sub(1)
        }
        Frag::Seq { first, second } => left_behind(second, left_behind(first, room)?),
        Frag::If { taken, other, .. } => {
            left_behind(other, left_behind(taken, room.checked_sub(3)?)?)
        }
        Frag::While { body, .. } => left_behind(body, room.checked_sub(3)?),
    }
}
