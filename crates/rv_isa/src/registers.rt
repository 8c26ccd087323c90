// Which registers an instruction names.
ghost use Rattle.std.specs.Prelude.{◌≡◌};
ghost use Rattle.rv_isa.specs.Names.{names_register};

use crate::Instr;

/// Whether rd, rs1 or rs2 of the instruction is this register. The amount of a shift by a constant is
/// an immediate; fences, `ecall` and `ebreak` name no register.
pub fn names(i: &Instr, register: u8) -> bool
    ensures { result ≡ names_register i.now register }
{
    match *i {
        Instr::Lui { rd, .. } | Instr::Auipc { rd, .. } | Instr::Jal { rd, .. } => rd == register,
        Instr::Jalr { rd, rs1, .. } | Instr::Load { rd, rs1, .. } | Instr::OpImm { rd, rs1, .. } =>
            { rd == register || rs1 == register }
        Instr::Branch { rs1, rs2, .. } | Instr::Store { rs1, rs2, .. } => {
            rs1 == register || rs2 == register
        }
        Instr::Reg { rd, rs1, rs2, .. } => rd == register || rs1 == register || rs2 == register,
        Instr::Fence { .. } | Instr::Ecall | Instr::Ebreak => false,
    }
}
