// The samples: small programs, as words of code and as files.
ghost use Rattle.std.specs.Prelude.{◌≤◌, length, IfOk};

use rv_build::Builder;
use std::alloc::{AllocError, Global};

/// Reads twice, and exits with 16 times the first answer and the second.
const READS: [u32; 12] = [
    0x0000_0513, // addi a0,x0,0
    0xff01_0593, // addi a1,sp,-16
    0x0050_0613, // addi a2,x0,5
    0x03f0_0893, // addi a7,x0,63
    0x0000_0073, // ecall
    0x0045_1413, // slli s0,a0,4
    0x0000_0513, // addi a0,x0,0
    0x0000_0073, // ecall
    0x0085_6533, // or a0,a0,s0
    0x05d0_0893, // addi a7,x0,93
    0x0000_0073, // ecall
    0x0000_0013, // nop
];

/// Calls a function that writes `A`, and exits with 3.
const PUTS: [u32; 12] = [
    0x0100_00ef, // jal ra,.+16
    0x0030_0513, // addi a0,x0,3
    0x05d0_0893, // addi a7,x0,93
    0x0000_0073, // ecall
    0x0410_0293, // addi t0,x0,65
    0xfe51_0fa3, // sb t0,-1(sp)
    0x0010_0513, // addi a0,x0,1
    0xfff1_0593, // addi a1,sp,-1
    0x0010_0613, // addi a2,x0,1
    0x0400_0893, // addi a7,x0,64
    0x0000_0073, // ecall
    0x0000_8067, // jalr x0,0(ra)
];

/// Writes `x` 5000 times, one byte at each call, and exits with 0.
const WRITES: [u32; 14] = [
    0x0780_0293, // addi t0,x0,120
    0xfe51_0fa3, // sb t0,-1(sp)
    0xfff1_0593, // addi a1,sp,-1
    0x0010_0613, // addi a2,x0,1
    0x0400_0893, // addi a7,x0,64
    0x0000_1337, // lui t1,1
    0x3883_0313, // addi t1,t1,904
    0x0010_0513, // addi a0,x0,1
    0x0000_0073, // ecall
    0xfff3_0313, // addi t1,t1,-1
    0xfe03_1ae3, // bne t1,x0,.-12
    0x0000_0513, // addi a0,x0,0
    0x05d0_0893, // addi a7,x0,93
    0x0000_0073, // ecall
];

/// Ends with status 0.
const EXITS: [u32; 3] = [
    0x05d0_0893, // addi a7,x0,93
    0x0000_0513, // addi a0,x0,0
    0x0000_0073, // ecall
];

/// The code of a sample: one of the programs by its name, or a single word in hexadecimal.
pub fn code(alloc: Global, name: &str) -> anyhow::Result<Vec<u32>> {
    let words = match name {
        "reads" => READS.to_vec(alloc)?,
        "puts" => PUTS.to_vec(alloc)?,
        "writes" => WRITES.to_vec(alloc)?,
        "exits" => EXITS.to_vec(alloc)?,
        _ => vec![in alloc; u32::from_str_radix(name, 16)?]?,
    };
    Ok(words)
}

/// The file of a program whose code is the first 64 of these words.
pub fn file(alloc: Global, code: &[u32]) -> Result<Vec<u8>, AllocError> {
    let words = &code[..code.len().min(64)];
    let mut builder = Builder::new(alloc);
    for word in words {
        builder.word(*word)?;
    }
    builder.finish(alloc)
}

/// A program of 64 words, from 0x100 to 0x200 in its file of 764 bytes, where each byte is the low byte
/// of its offset.
pub fn ramp(alloc: Global) -> Result<Vec<u8>, AllocError> {
    let mut builder = Builder::new(alloc);
    for k in 0..64_u32 {
        builder.word(0x0302_0100 + 0x0404_0404 * k)?;
    }
    builder.finish(alloc)
}
