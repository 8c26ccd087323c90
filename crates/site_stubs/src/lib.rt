// The words of stubs: code that sets a call site's bit of x4, calls the site's target, clears the bit
// and goes to the site's return address.
#![tactic(auto)]

ghost use Rattle.std.specs.Prelude.{◌≡◌, ◌<◌, ◌%◌, [], ◌∷◌};
ghost use Rattle.rv_isa.specs.Encoded.{encoded, IsOperand};
ghost use Rattle.rv_isa.specs.Split.{split_of};
ghost use Rattle.new_file_spec.specs.Stubs.{stub_words};
ghost use Rattle.site_stubs.specs.StubRuns.{Calls, Returns};

mod laws;

pub use laws::{parts_of_a_distance_lead_there, stubs_call_and_come_back};
use rv_isa::{Instr, Op, encode, split};

const RA: u8 = 1;

const TP: u8 = 4;

/// The eleven words of the stub at the address `at` (RISC-V unprivileged manual): it sets bit `bit` of
/// x4, calls the code at `target`, clears the bit and goes to `back`. Only ra and x4 are changed by
/// its own words. Addresses are taken modulo 2^32.
pub fn stub(bit: u8, target: u32, back: u32, at: u32) -> [u32; 11]
    requires bit { bit < 32 }
    requires target { target % 4 ≡ 0 }
    requires back { back % 4 ≡ 0 }
    requires at { at % 4 ≡ 0 }
    ensures words { result ≡ stub_words at bit target back }
    ensures calls { Calls at bit target result }
    ensures returns { Returns at bit back result }
{
    let one = immediate(Op::Add, 0, 1);
    let shifted = immediate(Op::Sll, RA, bit as u32);
    let [call_upper, call_lower] = far_jump(RA, RA, target.wrapping_sub(at.wrapping_add(12)));
    let [back_upper, back_lower] = far_jump(RA, 0, back.wrapping_sub(at.wrapping_add(36)));
    [
        one,
        shifted,
        with_tp(Op::Or),
        call_upper,
        call_lower,
        one,
        shifted,
        immediate(Op::Xor, RA, 0xffff_ffff),
        with_tp(Op::And),
        back_upper,
        back_lower,
    ]
}

/// The word of an operation of a register and a constant, into ra.
fn immediate(op: Op, rs1: u8, imm: u32) -> u32
    requires register { rs1 < 32 }
    requires operand { IsOperand op imm }
    ensures { result ≡ encoded (Instr.OpImm op 1 rs1 imm) }
{
    encode(Instr::OpImm {
        op,
        rd: RA,
        rs1,
        imm,
    })
}

/// The word of an operation of x4 and ra, into x4.
fn with_tp(op: Op) -> u32
    ensures { result ≡ encoded (Instr.Reg op 4 4 1) }
{
    encode(Instr::Reg {
        op,
        rd: TP,
        rs1: TP,
        rs2: RA,
    })
}

/// The words of `auipc` and of the `jalr` through the same register that go this far from the first
/// (RISC-V unprivileged manual, "Integer Register-Immediate Instructions"); `link` takes the address
/// behind them.
pub fn far_jump(through: u8, link: u8, distance: u32) -> [u32; 2]
    requires through { through < 32 }
    requires link { link < 32 }
    ensures { result ≡ encoded (Instr.Auipc through (split_of distance).0)
        ∷ encoded (Instr.Jalr link through (split_of distance).1) ∷ [] }
{
    let (upper, lower) = split(distance);
    [
        encode(Instr::Auipc {
            rd: through,
            imm: upper,
        }),
        encode(Instr::Jalr {
            rd: link,
            rs1: through,
            imm: lower,
        }),
    ]
}

#[cfg(test)]
mod tests {
    use super::*;

    #[test]
    fn stubs_of_one_site(rt: HostRuntime) {
        for (bit, shift) in [(0, 0x00009093), (31, 0x01f09093)] {
            let words = stub(bit, 0x10110, 0x10104, 0x11010);
            let wanted = [
                0x00100093, shift, 0x00126233, 0xfffff097, 0x0f4080e7, 0x00100093, shift,
                0xfff0c093, 0x00127233, 0xfffff097, 0x0d008067,
            ];
            assert_eq!(rt; words, wanted);
        }
    }

    #[test]
    fn a_jump_over_a_distance(rt: HostRuntime) {
        assert_eq!(rt; far_jump(1, 0, 0xf0c), [0x00001097, 0xf0c08067]);
    }

    #[test]
    fn a_stub_at_the_end_of_the_addresses(rt: HostRuntime) {
        let words = stub(1, 8, 0xffff_fff4, 0xffff_fffc);
        assert_eq!(rt; [words[3], words[4]], [0x00000097, 0x000080e7]);
        assert_eq!(rt; [words[9], words[10]], [0x00000097, 0xfd408067]);
    }
}
