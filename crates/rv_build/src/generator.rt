// The generated program, as large as one likes: two lists whose nodes are allocated in turn, and then read
// one list after the other.
ghost use Rattle.std.specs.Prelude.{◌≡◌, ◌≤◌, ◌%◌, ◌++◌, map, All, OnOk, IfOk};
ghost use Rattle.rv_isa.specs.Encoded.{encoded, IsFormed};
ghost use Rattle.rv_build.specs.Parts.{with_code, with_reloc, with_relocs, with_symbols};
ghost use Rattle.rv_build.specs.Reads.{Reads};
ghost use Rattle.rv_build.specs.Assembly.{placed};
ghost use Rattle.rv_build.specs.Generated as listing;
ghost use Rattle.rv_build.specs.Generated.{call};

use crate::assembly::{
    A0, A4, A5, A7, RA, S0, S1, S2, S3, S4, SP, X0, add, addi, beqz, bnez, jal, jalr, lw, sw,
};
use crate::builder::Builder;
use elf_spec::Reloc;
use rv_isa::{Instr, Op, encode, split};
use std::alloc::{AllocError, Global};

/// Prepends a node to the left list.
const LEFT: u32 = 0x1016c;
/// Prepends a node to the right list.
const RIGHT: u32 = 0x10190;
/// Allocates a node.
const NODE: u32 = 0x101b4;

const MALLOC: u32 = 0x101d4;

const MALLOC_SIZE: u32 = 8;

/// The words of -1 and -16.
const MINUS_1: u32 = 0xffff_ffff;

const MINUS_16: u32 = 0xffff_fff0;

/// Types of relocation entries (psABI, "Relocations").
const JAL: u8 = 17;

const CALL_PLT: u8 = 19;

/// The file of the program that allocates `n` nodes for each of its two lists, 1 to 30000. The one failure
/// is want of memory.
pub fn generate(alloc: Global, n: u64) -> Result<Vec<u8>, AllocError>
    requires least { 1 ≤ n }
    requires most { n ≤ 30000 }
    ensures is { IfOk result (λ file. file.items ≡ listing.generated n) }
    ensures reads { IfOk result (λ file. Reads (listing.program n) file.items) }
{
    let builder = program(alloc, n as u32)?;
    builder.finish(alloc)
}

/// The parts of the program.
#[tactic(auto, using(crate::proofs::Assoc::assoc))]
fn program(alloc: Global, n: u32) -> Result<Builder, AllocError>
    ensures { IfOk result (λ builder. builder ≡ listing.program n) }
{
    let mut builder = Builder::new(alloc);
    push_code(&mut builder, &building(n))?;
    push_code(&mut builder, &adding())?;
    push_code(&mut builder, &prepending(LEFT, S0))?;
    push_code(&mut builder, &prepending(RIGHT, S1))?;
    push_code(&mut builder, &allocating())?;
    push_functions(alloc, &mut builder)?;
    push_calls(&mut builder)?;
    Ok(builder)
}

/// Builds the lists, with the numbers from `n` down to 1.
fn building(n: u32) -> [Instr; 8]
    ensures is { result ≡ placed 0x10100 (listing.building n) }
    ensures formed { All IsFormed result }
{
    let (upper, lower) = split(n);
    [
        Instr::Lui { rd: S2, imm: upper },
        addi(S2, S2, lower),
        addi(S0, X0, 0),
        addi(S1, X0, 0),
        jal(0x10110, RA, LEFT),
        jal(0x10114, RA, RIGHT),
        addi(S2, S2, MINUS_1),
        bnez(0x1011c, S2, 0x10110),
    ]
}

/// Adds up both lists eight times, and exits with the sum's low byte.
fn adding() -> [Instr; 19]
    ensures is { result ≡ placed 0x10120 listing.adding }
    ensures formed { All IsFormed result }
{
    [
        addi(S3, X0, 0),
        addi(S4, X0, 8),
        addi(A5, S0, 0),
        beqz(0x1012c, A5, 0x10140),
        lw(A4, 4, A5),
        add(S3, S3, A4),
        lw(A5, 0, A5),
        jal(0x1013c, X0, 0x1012c),
        addi(A5, S1, 0),
        beqz(0x10144, A5, 0x10158),
        lw(A4, 4, A5),
        add(S3, S3, A4),
        lw(A5, 0, A5),
        jal(0x10154, X0, 0x10144),
        addi(S4, S4, MINUS_1),
        bnez(0x1015c, S4, 0x10128),
        Instr::OpImm {
            op: Op::And,
            rd: A0,
            rs1: S3,
            imm: 255,
        },
        addi(A7, X0, 93),
        Instr::Ecall,
    ]
}

/// The function at `at` that prepends a node to the list with this head.
fn prepending(at: u32, head: u8) -> [Instr; 9]
    requires head { head ≤ 31 }
    requires even { at % 2 ≡ 0 }
    requires near { 0x10000 ≤ at }
    requires low { at ≤ 0x10200 }
    ensures is { result ≡ placed at (listing.prepending head) }
    ensures formed { All IsFormed result }
{
    [
        addi(SP, SP, MINUS_16),
        sw(RA, 12, SP),
        jal(at + 8, RA, NODE),
        sw(head, 0, A0),
        sw(S2, 4, A0),
        addi(head, A0, 0),
        lw(RA, 12, SP),
        addi(SP, SP, 16),
        jalr(X0, 0, RA),
    ]
}

/// Allocates a node; and the two words in the place of `malloc`.
fn allocating() -> [Instr; 10]
    ensures is { result ≡ placed 0x101b4 listing.allocating }
    ensures formed { All IsFormed result }
{
    [
        addi(SP, SP, MINUS_16),
        sw(RA, 12, SP),
        addi(A0, X0, 8),
        Instr::Auipc { rd: RA, imm: 0 },
        jalr(RA, 20, RA),
        lw(RA, 12, SP),
        addi(SP, SP, 16),
        jalr(X0, 0, RA),
        Instr::Ebreak,
        Instr::Ebreak,
    ]
}

/// Adds instructions to the code.
#[tactic(auto, using(crate::proofs::Assoc::assoc))]
fn push_code(builder: &mut Builder, code: &[Instr]) -> Result<(), AllocError>
    requires { All IsFormed code.now }
    ensures { OnOk result (builder.new ≡ with_code builder.old (map encoded code.now)) }
{
    for instr in code {
        builder.word(encode(*instr))?;
    }
    Ok(())
}

/// Adds the functions, in the order of their addresses.
#[tactic(auto, using(crate::proofs::Assoc::assoc))]
fn push_functions(alloc: Global, builder: &mut Builder) -> Result<(), AllocError>
    ensures { OnOk result (builder.new ≡ with_symbols builder.old listing.functions) }
{
    builder.symbol(alloc, "left", LEFT, RIGHT - LEFT)?;
    builder.symbol(alloc, "right", RIGHT, NODE - RIGHT)?;
    builder.symbol(alloc, "node", NODE, MALLOC - NODE)?;
    builder.symbol(alloc, "malloc", MALLOC, MALLOC_SIZE)?;
    Ok(())
}

/// Adds the calls, in the order of their addresses.
#[tactic(auto, using(crate::proofs::Assoc::assoc))]
fn push_calls(builder: &mut Builder) -> Result<(), AllocError>
    ensures { OnOk result (builder.new ≡ with_relocs builder.old listing.calls) }
{
    push_call(builder, 0x10110, JAL, 1)?;
    push_call(builder, 0x10114, JAL, 2)?;
    push_call(builder, 0x10174, JAL, 3)?;
    push_call(builder, 0x10198, JAL, 3)?;
    push_call(builder, 0x101c0, CALL_PLT, 4)
}

/// Adds a call of the function with this number.
fn push_call(builder: &mut Builder, place: u32, kind: u8, symbol: u32) -> Result<(), AllocError>
    ensures { OnOk result (builder.new ≡ with_reloc builder.old (call place kind symbol)) }
{
    builder.reloc(Reloc {
        place,
        kind,
        symbol,
    })
}
