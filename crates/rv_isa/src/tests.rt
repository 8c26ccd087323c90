// Words against the instructions that an assembler makes them of, and worked values.
use crate::{Cond, Instr, Op, Width, compute, decode, encode, holds, is_formed, names, split};
use std::process::Abort;

macro_rules! lui {
    ($rd:expr, $imm:expr) => { Instr::Lui { rd: $rd, imm: $imm } };
}

macro_rules! auipc {
    ($rd:expr, $imm:expr) => { Instr::Auipc { rd: $rd, imm: $imm } };
}

macro_rules! jal {
    ($rd:expr, $imm:expr) => { Instr::Jal { rd: $rd, imm: $imm } };
}

macro_rules! jalr {
    ($rd:expr, $rs1:expr, $imm:expr) => { Instr::Jalr { rd: $rd, rs1: $rs1, imm: $imm } };
}

macro_rules! branch {
    ($cond:ident, $rs1:expr, $rs2:expr, $imm:expr) => {
        Instr::Branch { cond: Cond::$cond, rs1: $rs1, rs2: $rs2, imm: $imm }
    };
}

macro_rules! load {
    ($width:ident, $rd:expr, $rs1:expr, $imm:expr) => {
        Instr::Load { width: Width::$width, rd: $rd, rs1: $rs1, imm: $imm }
    };
}

macro_rules! store {
    ($width:ident, $rs1:expr, $rs2:expr, $imm:expr) => {
        Instr::Store { width: Width::$width, rs1: $rs1, rs2: $rs2, imm: $imm }
    };
}

macro_rules! op_imm {
    ($op:ident, $rd:expr, $rs1:expr, $imm:expr) => {
        Instr::OpImm { op: Op::$op, rd: $rd, rs1: $rs1, imm: $imm }
    };
}

macro_rules! reg {
    ($op:ident, $rd:expr, $rs1:expr, $rs2:expr) => {
        Instr::Reg { op: Op::$op, rd: $rd, rs1: $rs1, rs2: $rs2 }
    };
}

/// The word is the instruction, both ways.
fn agree(rt: &impl Abort, word: u32, i: Instr) {
    assert_eq!(rt; decode(word), Some(i), "{word:08x}");
    assert!(rt; is_formed(&i), "{word:08x}");
    assert_eq!(rt; encode(i), word, "{word:08x}");
}

/// One word of each row, assembled by GNU as.
const ROWS: [(u32, Instr); 48] = [
    (0x8000_0fb7, lui!(31, 0x8000_0000)), // lui x31, 0x80000
    (0xffff_f297, auipc!(5, 0xffff_f000)), // auipc x5, 0xfffff
    (0x8000_00ef, jal!(1, 0xfff0_0000)), // jal x1, .+(-1048576)
    (0x8002_8067, jalr!(0, 5, 0xffff_f800)), // jalr x0, -2048(x5)
    (0x8020_8063, branch!(Eq, 1, 2, 0xffff_f000)), // beq x1,x2,.+(-4096)
    (0x7e41_9fe3, branch!(Ne, 3, 4, 0xffe)), // bne x3,x4,.+4094
    (0x0062_c0e3, branch!(Lt, 5, 6, 0x800)), // blt x5,x6,.+2048
    (0xfe83_dfe3, branch!(Ge, 7, 8, 0xffff_fffe)), // bge x7,x8,.+(-2)
    (0x02a4_e063, branch!(Ltu, 9, 10, 0x20)), // bltu x9,x10,.+32
    (0x00c5_ff63, branch!(Geu, 11, 12, 0x1e)), // bgeu x11,x12,.+30
    (0x7ff7_0683, load!(Byte, 13, 14, 0x7ff)), // lb x13,2047(x14)
    (0xffe8_1783, load!(Half, 15, 16, 0xffff_fffe)), // lh x15,-2(x16)
    (0x0049_2883, load!(Word, 17, 18, 4)), // lw x17,4(x18)
    (0xfffa_4983, load!(ByteU, 19, 20, 0xffff_ffff)), // lbu x19,-1(x20)
    (0x000b_5a83, load!(HalfU, 21, 22, 0)), // lhu x21,0(x22)
    (0x817c_0023, store!(Byte, 24, 23, 0xffff_f800)), // sb x23,-2048(x24)
    (0x7f9d_1fa3, store!(Half, 26, 25, 0x7ff)), // sh x25,2047(x26)
    (0x01be_2fa3, store!(Word, 28, 27, 0x1f)), // sw x27,31(x28)
    (0xfff1_0093, op_imm!(Add, 1, 2, 0xffff_ffff)), // addi x1,x2,-1
    (0x7ff2_2193, op_imm!(Slt, 3, 4, 0x7ff)), // slti x3,x4,2047
    (0x8003_3293, op_imm!(Sltu, 5, 6, 0xffff_f800)), // sltiu x5,x6,-2048
    (0xfff0_c093, op_imm!(Xor, 1, 1, 0xffff_ffff)), // xori x1,x1,-1
    (0x5554_6393, op_imm!(Or, 7, 8, 0x555)), // ori x7,x8,1365
    (0x00f5_7493, op_imm!(And, 9, 10, 0xf)), // andi x9,x10,15
    // slli x11,x12,31
    (
        0x01f6_1593,
        Instr::OpImm {
            op: Op::Sll,
            rd: 11,
            rs1: 12,
            imm: 31,
        },
    ),
    (0x0017_5693, op_imm!(Srl, 13, 14, 1)), // srli x13,x14,1
    (0x4008_5793, op_imm!(Sra, 15, 16, 0)), // srai x15,x16,0
    (0x01ff_0eb3, reg!(Add, 29, 30, 31)), // add x29,x30,x31
    (0x4031_00b3, reg!(Sub, 1, 2, 3)), // sub x1,x2,x3
    (0x0062_9233, reg!(Sll, 4, 5, 6)), // sll x4,x5,x6
    (0x0094_23b3, reg!(Slt, 7, 8, 9)), // slt x7,x8,x9
    (0x00c5_b533, reg!(Sltu, 10, 11, 12)), // sltu x10,x11,x12
    (0x00f7_46b3, reg!(Xor, 13, 14, 15)), // xor x13,x14,x15
    (0x0128_d833, reg!(Srl, 16, 17, 18)), // srl x16,x17,x18
    (0x415a_59b3, reg!(Sra, 19, 20, 21)), // sra x19,x20,x21
    (0x0012_6233, reg!(Or, 4, 4, 1)), // or x4,x4,x1
    (0x0012_7233, reg!(And, 4, 4, 1)), // and x4,x4,x1
    (0x0310_000f, Instr::Fence { rest: 0x6_2000 }), // fence rw,w
    (0x0000_0073, Instr::Ecall), // ecall
    (0x0010_0073, Instr::Ebreak), // ebreak
    (0x0355_80b3, reg!(Mul, 1, 11, 21)), // mul x1,x11,x21
    (0x0366_1133, reg!(Mulh, 2, 12, 22)), // mulh x2,x12,x22
    (0x0376_a1b3, reg!(Mulhsu, 3, 13, 23)), // mulhsu x3,x13,x23
    (0x0387_3233, reg!(Mulhu, 4, 14, 24)), // mulhu x4,x14,x24
    (0x0397_c2b3, reg!(Div, 5, 15, 25)), // div x5,x15,x25
    (0x03a8_5333, reg!(Divu, 6, 16, 26)), // divu x6,x16,x26
    (0x03b8_e3b3, reg!(Rem, 7, 17, 27)), // rem x7,x17,x27
    (0x03c9_7433, reg!(Remu, 8, 18, 28)), // remu x8,x18,x28
];

#[test]
fn each_row_is_read_and_written(rt: HostRuntime) {
    for (word, i) in ROWS {
        agree(&rt, word, i);
    }
}

/// Words of small programs with calls, loops and lists, assembled by GNU as.
const PROGRAMS: [(u32, Instr); 54] = [
    (0x0000_0513, op_imm!(Add, 10, 0, 0)), // addi a0,x0,0
    (0x05d0_0893, op_imm!(Add, 17, 0, 93)), // addi a7,x0,93
    (0x0000_0073, Instr::Ecall), // ecall
    (0x0100_00ef, jal!(1, 16)), // jal ra, .+(16)
    (0x0030_0513, op_imm!(Add, 10, 0, 3)), // addi a0,x0,3
    (0x0410_0293, op_imm!(Add, 5, 0, 65)), // addi t0,x0,65
    (0xfe51_0fa3, store!(Byte, 2, 5, 0xffff_ffff)), // sb t0,-1(sp)
    (0x0010_0513, op_imm!(Add, 10, 0, 1)), // addi a0,x0,1
    (0xfff1_0593, op_imm!(Add, 11, 2, 0xffff_ffff)), // addi a1,sp,-1
    (0x0010_0613, op_imm!(Add, 12, 0, 1)), // addi a2,x0,1
    (0x0400_0893, op_imm!(Add, 17, 0, 64)), // addi a7,x0,64
    (0x0000_8067, jalr!(0, 1, 0)), // jalr x0,0(ra)
    (0x0100_0513, op_imm!(Add, 10, 0, 16)), // addi a0,x0,16
    (0x01c0_00ef, jal!(1, 28)), // jal ra, .+(28)
    (0x0105_0413, op_imm!(Add, 8, 10, 16)), // addi s0,a0,16
    (0x00a4_0463, branch!(Eq, 8, 10, 8)), // beq s0,a0, .+(8)
    (0x0180_0513, op_imm!(Add, 10, 0, 24)), // addi a0,x0,24
    (0x0000_0097, auipc!(1, 0)), // auipc ra,0
    (0x0140_80e7, jalr!(1, 1, 20)), // jalr ra,20(ra)
    (0x0020_0493, op_imm!(Add, 9, 0, 2)), // addi s1,x0,2
    (0xff01_0113, op_imm!(Add, 2, 2, 0xffff_fff0)), // addi sp,sp,-16
    (0x0011_2623, store!(Word, 2, 1, 12)), // sw ra,12(sp)
    (0x0004_8e63, branch!(Eq, 9, 0, 28)), // beq s1,x0, .+(28)
    (0xfff4_8493, op_imm!(Add, 9, 9, 0xffff_ffff)), // addi s1,s1,-1
    (0xfe9f_f0ef, jal!(1, 0xffff_ffe8)), // jal ra, .+(-24)
    (0x00c1_2083, load!(Word, 1, 2, 12)), // lw ra,12(sp)
    (0x0101_0113, op_imm!(Add, 2, 2, 16)), // addi sp,sp,16
    (0x0001_1937, lui!(18, 0x0001_1000)), // lui s2,0x11
    (0x1709_0913, op_imm!(Add, 18, 18, 368)), // addi s2,s2,368
    (0x0000_0413, op_imm!(Add, 8, 0, 0)), // addi s0,x0,0
    (0x0000_0493, op_imm!(Add, 9, 0, 0)), // addi s1,x0,0
    (0x05c0_00ef, jal!(1, 92)), // jal ra, .+(92)
    (0x07c0_00ef, jal!(1, 124)), // jal ra, .+(124)
    (0xfff9_0913, op_imm!(Add, 18, 18, 0xffff_ffff)), // addi s2,s2,-1
    (0xfe09_1ae3, branch!(Ne, 18, 0, 0xffff_fff4)), // bne s2,x0, .+(-12)
    (0x0000_0993, op_imm!(Add, 19, 0, 0)), // addi s3,x0,0
    (0x0080_0a13, op_imm!(Add, 20, 0, 8)), // addi s4,x0,8
    (0x0004_0793, op_imm!(Add, 15, 8, 0)), // addi a5,s0,0
    (0x0007_8a63, branch!(Eq, 15, 0, 20)), // beq a5,x0, .+(20)
    (0x0047_a703, load!(Word, 14, 15, 4)), // lw a4,4(a5)
    (0x00e9_89b3, reg!(Add, 19, 19, 14)), // add s3,s3,a4
    (0x0007_a783, load!(Word, 15, 15, 0)), // lw a5,0(a5)
    (0xff1f_f06f, jal!(0, 0xffff_fff0)), // jal x0, .+(-16)
    (0x0004_8793, op_imm!(Add, 15, 9, 0)), // addi a5,s1,0
    (0xfffa_0a13, op_imm!(Add, 20, 20, 0xffff_ffff)), // addi s4,s4,-1
    (0xfc0a_16e3, branch!(Ne, 20, 0, 0xffff_ffcc)), // bne s4,x0, .+(-52)
    (0x0ff9_f513, op_imm!(And, 10, 19, 255)), // andi a0,s3,255
    (0x0400_00ef, jal!(1, 64)), // jal ra, .+(64)
    (0x0085_2023, store!(Word, 10, 8, 0)), // sw s0,0(a0)
    (0x0125_2223, store!(Word, 10, 18, 4)), // sw s2,4(a0)
    (0x0005_0413, op_imm!(Add, 8, 10, 0)), // addi s0,a0,0
    (0x0095_2023, store!(Word, 10, 9, 0)), // sw s1,0(a0)
    (0x0005_0493, op_imm!(Add, 9, 10, 0)), // addi s1,a0,0
    (0x0080_0513, op_imm!(Add, 10, 0, 8)), // addi a0,x0,8
];

#[test]
fn programs_are_read_and_written(rt: HostRuntime) {
    for (word, i) in PROGRAMS {
        agree(&rt, word, i);
    }
}

#[test]
fn words_one_bit_off_are_no_instructions(rt: HostRuntime) {
    let words = [
        // slli x1, x1, 0 with bit 25 set, then a word beside each row
        0x0200_9093,
        0x8000_0ff7,
        0xffff_f287,
        0x8000_00eb,
        0x8002_8027,
        0x8020_a063,
        0x7e41_bfe3,
        0x0062_c0c3,
        0xfe83_dff3,
        0x02a4_e043,
        0x00c5_ff73,
        0x7ff7_068b,
        0xffe8_17c3,
        0x0049_28c3,
        0xfffa_498b,
        0x000b_5a87,
        0x817c_0027,
        0x7f9d_3fa3,
        0x01be_2fe3,
        0xfff1_00b3,
        0x7ff2_21b3,
        0x8003_1293,
        0xfff0_c0d3,
        0x5554_6383,
        0x00f5_749b,
        0x81f6_1593,
        0x0417_5693,
        0x5008_5793,
        0x01ff_0ebb,
        0x4031_40b3,
        0x0462_9233,
        0x0094_23f3,
        0x08c5_b533,
        0x04f7_46b3,
        0x2128_d833,
        0x415a_59a3,
        0x0012_623b,
        0x8012_7233,
        0x0310_100f,
        0x0002_0073,
        0x0014_0073,
        0x8355_80b3,
        0x4366_1133,
        0x2376_a1b3,
        0x0387_3223,
        0x0397_c2bb,
        0x83a8_5333,
        0x43b8_e3b3,
        0x23c9_7433,
        // compressed, all zeros, all ones
        0x0000_0001,
        0x0000_0000,
        0xffff_ffff,
    ];
    for word in words {
        assert_eq!(rt; decode(word), None, "{word:08x}");
    }
}

#[test]
fn a_fence_keeps_all_its_bits(rt: HostRuntime) {
    // every bit set but funct3's
    agree(&rt, 0xffff_8f8f, Instr::Fence { rest: 0x01ff_ff1f });
    // fence.tso
    agree(&rt, 0x8330_000f, Instr::Fence { rest: 0x0106_6000 });
}

#[test]
fn instructions_without_a_word_are_not_formed(rt: HostRuntime) {
    let without = [
        lui!(1, 0x1001),
        auipc!(32, 0x1000),
        jal!(1, 0x10_0000),
        jal!(1, 3),
        jalr!(1, 32, 0),
        branch!(Eq, 1, 2, 0x1000),
        branch!(Eq, 1, 2, 0xffff_efff),
        load!(Word, 1, 2, 0xffff_f7ff),
        store!(HalfU, 1, 2, 0),
        op_imm!(Add, 1, 2, 0x800),
        op_imm!(Sub, 1, 2, 1),
        op_imm!(Sra, 1, 2, 32),
        reg!(Add, 1, 2, 255),
        Instr::Fence { rest: 0x20 },
        Instr::Fence { rest: 0x0200_0000 },
    ];
    for i in without {
        assert!(rt; !is_formed(&i), "{i:?}");
    }
}

#[test]
fn operations_have_their_edges(rt: HostRuntime) {
    let cases = [
        (Op::Add, 0xffff_ffff, 2, 1),
        (Op::Sub, 0, 1, 0xffff_ffff),
        (Op::Sll, 0x8000_0001, 33, 2),
        (Op::Slt, 0xffff_ffff, 0, 1),
        (Op::Sltu, 0xffff_ffff, 0, 0),
        (Op::Xor, 0xff00_ff00, 0x0ff0_0ff0, 0xf0f0_f0f0),
        (Op::Srl, 0x8000_0000, 31, 1),
        (Op::Sra, 0x8000_0000, 63, 0xffff_ffff),
        (Op::Sra, 0x7fff_ffff, 30, 1),
        (Op::Or, 0xff00_ff00, 0x0ff0_0ff0, 0xfff0_fff0),
        (Op::And, 0xff00_ff00, 0x0ff0_0ff0, 0x0f00_0f00),
        (Op::Mul, 0xffff_ffff, 0xffff_ffff, 1),
        (Op::Mulh, 0xffff_ffff, 0xffff_ffff, 0),
        (Op::Mulh, 0x8000_0000, 0x8000_0000, 0x4000_0000),
        (Op::Mulh, 0x8000_0000, 0x7fff_ffff, 0xc000_0000),
        (Op::Mulhsu, 0xffff_ffff, 0xffff_ffff, 0xffff_ffff),
        (Op::Mulhsu, 0x8000_0000, 0x8000_0000, 0xc000_0000),
        (Op::Mulhu, 0xffff_ffff, 0xffff_ffff, 0xffff_fffe),
        (Op::Div, 0xffff_fff9, 2, 0xffff_fffd),
        (Op::Div, 7, 0xffff_fffe, 0xffff_fffd),
        (Op::Div, 7, 0, 0xffff_ffff),
        (Op::Div, 0x8000_0000, 0xffff_ffff, 0x8000_0000),
        (Op::Divu, 0xffff_fff9, 2, 0x7fff_fffc),
        (Op::Divu, 7, 0, 0xffff_ffff),
        (Op::Rem, 0xffff_fff9, 2, 0xffff_ffff),
        (Op::Rem, 7, 0xffff_fffe, 1),
        (Op::Rem, 7, 0, 7),
        (Op::Rem, 0x8000_0000, 0xffff_ffff, 0),
        (Op::Remu, 0xffff_fff9, 2, 1),
        (Op::Remu, 7, 0, 7),
    ];
    for (op, a, b, want) in cases {
        assert_eq!(rt; compute(op, a, b), want, "{op:?} {a:08x} {b:08x}");
    }
}

#[test]
fn conditions_compare_with_and_without_sign(rt: HostRuntime) {
    let cases = [
        (Cond::Eq, 5, 5, true),
        (Cond::Ne, 5, 5, false),
        (Cond::Lt, 0x8000_0000, 0x7fff_ffff, true),
        (Cond::Ge, 0x8000_0000, 0x7fff_ffff, false),
        (Cond::Ge, 5, 5, true),
        (Cond::Ltu, 0x8000_0000, 0x7fff_ffff, false),
        (Cond::Geu, 0x8000_0000, 0x7fff_ffff, true),
        (Cond::Geu, 5, 5, true),
    ];
    for (cond, a, b, want) in cases {
        assert_eq!(rt; holds(cond, a, b), want, "{cond:?} {a:08x} {b:08x}");
    }
}

#[test]
fn distances_split_at_the_half(rt: HostRuntime) {
    let cases = [
        (0, (0, 0)),
        (0x7ff, (0, 0x7ff)),
        (0x800, (0x1000, 0xffff_f800)),
        (0x1234_5678, (0x1234_5000, 0x678)),
        (0x7fff_f800, (0x8000_0000, 0xffff_f800)),
        (0xffff_f7ff, (0xffff_f000, 0x7ff)),
        (0xffff_ffff, (0, 0xffff_ffff)),
    ];
    for (distance, want) in cases {
        assert_eq!(rt; split(distance), want, "{distance:08x}");
    }
}

#[test]
fn an_amount_names_no_register(rt: HostRuntime) {
    let shift = op_imm!(Sll, 1, 2, 4);
    assert!(rt; names(&shift, 1) && names(&shift, 2) && !names(&shift, 4));
    let store = store!(Word, 2, 4, 1);
    assert!(rt; names(&store, 2) && names(&store, 4) && !names(&store, 1));
    let sum = reg!(Add, 1, 2, 4);
    assert!(rt; names(&sum, 1) && names(&sum, 2) && names(&sum, 4) && !names(&sum, 3));
    assert!(rt; !names(&Instr::Fence { rest: 4 }, 4) && !names(&Instr::Ebreak, 0));
}
