// Turns that neither read, write nor end, one after another, with the registers and the pc at hand.
ghost use Rattle.std.specs.Prelude.{◌≡◌, ◌<◌, ◌≤◌, List, slice_set};
ghost use Rattle.machine_spec.specs.Memory.{Range};
ghost use Rattle.machine_spec.specs.Start.{behind};
ghost use Rattle.rv_isa.specs.Addresses.{plus};
ghost use Rattle.rv_isa.specs.Compute.{computed, is_held};
ghost use Rattle.rv_isa.specs.Encoded.{NamesRegisters};
ghost use Rattle.flat_spec.specs.Machine.{jumps, word_read};
ghost use Rattle.machine_run.specs.Machines.{GoesQuietly};
ghost use Rattle.flat_machine.specs.Quiet.{running_at, Acts, Goes, Takes};
ghost use Rattle.flat_machine.specs.Rules.{flat_rules};

use crate::registers::Registers;
use flat_mem::FlatMem;
use rv_isa::{Cond, Instr, Op, compute, holds};

/// Takes at most so many turns from the address `at` on, and answers how many. It stops before a turn that
/// reads, writes or ends.
pub fn take_turns(memory: &mut FlatMem, words: &mut Registers, at: &mut u32, most: u32) -> u32
    ensures within { result ≤ most }
    ensures turns { GoesQuietly flat_rules result
        (running_at memory.old words.old at.old) (running_at memory.new words.new at.new) }
{
    let mut registers = words.copied();
    let mut pc = *at;
    let mut taken = 0;
    while taken < most {
        let Some(next) = take_turn(memory, &mut registers, pc) else {
            break;
        };
        pc = next;
        taken += 1;
    }
    *words = registers;
    *at = pc;
    taken
}

/// One turn at `pc`: the address of the next one, or none where it isn't taken.
#[inline(always)]
fn take_turn(memory: &mut FlatMem, registers: &mut Registers, pc: u32) -> Option<u32>
    ensures { Takes result (running_at memory.old registers.old pc) memory.new registers.new }
{
    let i = memory.instruction(pc)?;
    act(memory, registers, pc, i)
}

/// The turn of an instruction at `pc`: the address of the next one, or none where it isn't taken, because
/// it is a system call or the run ends.
#[inline(always)]
#[tactic(auto, unfolding(flat_spec::specs::Turns::acts))]
fn act(memory: &mut FlatMem, registers: &mut Registers, pc: u32, i: Instr) -> Option<u32>
    requires { NamesRegisters i }
    ensures { Acts result i (running_at memory.old registers.old pc) memory.new registers.new }
{
    match i {
        Instr::Load {
            width,
            rd,
            rs1,
            imm,
        } => {
            let value = memory.load_number(width, address(registers, rs1, imm))?;
            Some(give(registers, rd, value, pc))
        }
        Instr::Store {
            width,
            rs1,
            rs2,
            imm,
        } => {
            let addr = address(registers, rs1, imm);
            if memory.store_number(width, addr, registers.read(rs2)) {
                Some(pc.wrapping_add(4))
            } else {
                None
            }
        }
        _ => act_in_registers(registers, pc, i),
    }
}

/// The same, of an instruction that neither reads nor writes memory.
#[inline(always)]
#[tactic(auto, unfolding(flat_spec::specs::Turns::acts))]
fn act_in_registers(registers: &mut Registers, pc: u32, i: Instr) -> Option<u32>
    requires { NamesRegisters i }
    ensures { (memory : List Range) → Acts result i (running_at memory registers.old pc) memory registers.new }
{
    match i {
        Instr::Lui { rd, imm } => Some(give(registers, rd, imm, pc)),
        Instr::Auipc { rd, imm } => Some(give(registers, rd, pc.wrapping_add(imm), pc)),
        Instr::Jal { rd, imm } => jump(registers, rd, pc.wrapping_add(imm), pc),
        Instr::Jalr { rd, rs1, imm } => {
            let target = address(registers, rs1, imm) / 2 * 2;
            jump(registers, rd, target, pc)
        }
        Instr::Branch {
            cond,
            rs1,
            rs2,
            imm,
        } => {
            if is_held(cond, registers.read(rs1), registers.read(rs2)) {
                jump(registers, 0, pc.wrapping_add(imm), pc)
            } else {
                Some(pc.wrapping_add(4))
            }
        }
        Instr::OpImm { op, rd, rs1, imm } => {
            let value = computed(op, registers.read(rs1), imm);
            Some(give(registers, rd, value, pc))
        }
        Instr::Reg { op, rd, rs1, rs2 } => {
            let value = computed(op, registers.read(rs1), registers.read(rs2));
            Some(give(registers, rd, value, pc))
        }
        Instr::Fence { .. } => Some(pc.wrapping_add(4)),
        Instr::Load { .. } | Instr::Store { .. } | Instr::Ecall | Instr::Ebreak => None,
    }
}

/// The address at a distance from that in a register.
#[inline(always)]
fn address(registers: &Registers, rs1: u8, imm: u32) -> u32
    requires { rs1 < 32 }
    ensures { result ≡ plus (word_read registers.now rs1) imm }
{
    registers.read(rs1).wrapping_add(imm)
}

/// Puts a word into a register, and gives the address of the next instruction.
#[inline(always)]
fn give(registers: &mut Registers, rd: u8, value: u32, pc: u32) -> u32
    requires { rd < 32 }
    ensures next { result ≡ behind pc }
    ensures registers { registers.new ≡ slice_set registers.old rd value }
{
    registers.write(rd, value);
    pc.wrapping_add(4)
}

/// Puts the address behind the instruction into a register, and gives the target; none, and nothing
/// changes, where the target isn't aligned.
#[inline(always)]
fn jump(registers: &mut Registers, rd: u8, target: u32, pc: u32) -> Option<u32>
    requires { rd < 32 }
    ensures { (memory : List Range) → Goes result (jumps rd target (running_at memory registers.old pc))
        (running_at memory registers.old pc) memory registers.new }
{
    if target % 4 == 0 {
        registers.write(rd, pc.wrapping_add(4));
        Some(target)
    } else {
        None
    }
}

/// The word that an operation gives: the common ones at once.
#[inline(always)]
#[tactic(auto, unfolding(rv_isa::specs::Compute::computed))]
fn computed(op: Op, a: u32, b: u32) -> u32
    ensures { result ≡ computed op a b }
{
    match op {
        Op::Add => a.wrapping_add(b),
        Op::Sub => a.wrapping_sub(b),
        Op::Sll => a << (b % 32),
        Op::Slt => (a.cast_signed() < b.cast_signed()) as u32,
        Op::Sltu => (a < b) as u32,
        Op::Xor => a ^ b,
        Op::Srl => a >> (b % 32),
        Op::Sra => (a.cast_signed() >> (b % 32)).cast_unsigned(),
        Op::Or => a | b,
        Op::And => a & b,
        Op::Mul => a.wrapping_mul(b),
        rest => compute(rest, a, b),
    }
}

/// Whether the condition of a branch holds.
#[inline(always)]
#[tactic(auto, unfolding(rv_isa::specs::Compute::is_held))]
fn is_held(cond: Cond, a: u32, b: u32) -> bool
    ensures { result ≡ is_held cond a b }
{
    match cond {
        Cond::Eq => a == b,
        Cond::Ne => a != b,
        Cond::Lt => a.cast_signed() < b.cast_signed(),
        Cond::Ge => a.cast_signed() >= b.cast_signed(),
        Cond::Ltu => a < b,
        Cond::Geu => a >= b,
    }
}
