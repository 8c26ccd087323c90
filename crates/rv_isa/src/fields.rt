// The fields and immediates of an instruction word.
ghost use Rattle.std.specs.Prelude.{◌≡◌};
ghost use Rattle.rv_isa.specs.Words.{rd, rs1, rs2, imm_i, imm_s, imm_b, imm_u, imm_j};

/// The register that is written.
pub fn rd_of(word: u32) -> u8
    ensures { result ≡ rd word }
{
    ((word >> 7) % 32) as u8
}

/// The first register that is read.
pub fn rs1_of(word: u32) -> u8
    ensures { result ≡ rs1 word }
{
    ((word >> 15) % 32) as u8
}

/// The second register that is read, or the amount of a shift by a constant.
pub fn rs2_of(word: u32) -> u8
    ensures { result ≡ rs2 word }
{
    ((word >> 20) % 32) as u8
}

/// The immediate of format I.
pub fn imm_i_of(word: u32) -> u32
    ensures { result ≡ imm_i word }
{
    let low = word >> 20;
    if low < 0x800 { low } else { low + 0xffff_f000 }
}

/// The immediate of format S.
pub fn imm_s_of(word: u32) -> u32
    ensures { result ≡ imm_s word }
{
    let low = (word >> 25) * 32 + (word >> 7) % 32;
    if low < 0x800 { low } else { low + 0xffff_f000 }
}

/// The immediate of format B, in bytes.
pub fn imm_b_of(word: u32) -> u32
    ensures { result ≡ imm_b word }
{
    let high = (word >> 31) * 0x1000 + (word >> 7) % 2 * 0x800;
    let low = high + (word >> 25) % 64 * 32 + (word >> 8) % 16 * 2;
    if low < 0x1000 { low } else { low + 0xffff_e000 }
}

/// The immediate of format U, its low twelve bits 0.
pub fn imm_u_of(word: u32) -> u32
    ensures { result ≡ imm_u word }
{
    (word >> 12) * 0x1000
}

/// The immediate of format J, in bytes.
pub fn imm_j_of(word: u32) -> u32
    ensures { result ≡ imm_j word }
{
    let high = (word >> 31) * 0x10_0000 + (word >> 12) % 256 * 0x1000;
    let low = high + (word >> 20) % 2 * 0x800 + (word >> 21) % 1024 * 2;
    if low < 0x10_0000 {
        low
    } else {
        low + 0xffe0_0000
    }
}
