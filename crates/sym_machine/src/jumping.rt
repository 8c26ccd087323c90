// Jumps, calls and returns.
ghost use Rattle.std.specs.Prelude.{◌≡◌, ◌<◌, Option, is_some};
ghost use Rattle.machine_spec.specs.Start.{behind};
ghost use Rattle.sym_value.specs.declared.Value.{Value};
ghost use Rattle.sym_spec.specs.SymMachine.{goes_to, calls_from, links, jumps, goes_back};
ghost use Rattle.sym_spec.specs.SymTurns.{jumps_to, branches};
ghost use Rattle.sym_machine.specs.Found.{mask_at, bits_set, bits_cleared};

use crate::hart::Hart;
use machine_spec::FaultKind;
use sym_value::Value;

/// ra, the register that a call leaves its return address in.
const RA: u8 = 1;

/// Bits with those of a mask set.
fn bits_set(mask: Option<u32>, bits: u32) -> u32
    ensures { result ≡ bits_set mask bits }
{
    match mask {
        Some(mask) => bits | mask,
        None => bits,
    }
}

/// Bits with those of a mask cleared.
fn bits_cleared(mask: Option<u32>, bits: u32) -> u32
    ensures { result ≡ bits_cleared mask bits }
{
    match mask {
        Some(mask) => bits & !mask,
        None => bits,
    }
}

impl<'a> Hart<'a> {
    /// A jump without a link, to a target that must be a code word.
    pub fn goes_to(&mut self, target: u32)
        ensures { self.new ≡ record self.old { machine = goes_to self.old.file target self.old.machine } }
    {
        if self.is_code(target) {
            self.pc = target;
        } else {
            self.faults(FaultKind::F3);
        }
    }

    /// A call that links ra, from a place whose line has this mask.
    #[tactic(auto, using(crate::proofs::Masks::set_by_mask))]
    pub fn calls_from(&mut self, back: u32, mask: Option<u32>)
        requires { mask ≡ mask_at self.old.plan self.old.machine.pc }
        ensures { self.new ≡ record self.old { machine = calls_from self.old.plan back self.old.machine } }
    {
        self.registers[RA as usize] = Value::Ret(back);
        self.bits = bits_set(mask, self.bits);
    }

    /// What a jump links.
    fn links(&mut self, rd: u8, mask: Option<u32>)
        requires register { rd < 32 }
        requires mask { mask ≡ mask_at self.old.plan self.old.machine.pc }
        ensures { self.new ≡ record self.old { machine = links self.old.plan rd self.old.machine } }
    {
        let back = self.pc.wrapping_add(4);
        if rd == RA {
            self.calls_from(back, mask);
        } else {
            self.registers[rd as usize] = Value::Num(back);
        }
    }

    /// A jump that links, to a target that must be a code word.
    pub fn jumps(&mut self, rd: u8, target: u32, mask: Option<u32>)
        requires register { rd < 32 }
        requires mask { mask ≡ mask_at self.old.plan self.old.machine.pc }
        ensures { self.new
            ≡ record self.old { machine = jumps self.old.file self.old.plan rd target self.old.machine } }
    {
        if self.is_code(target) {
            self.links(rd, mask);
            self.pc = target;
        } else {
            self.faults(FaultKind::F3);
        }
    }

    /// The call of a pair site.
    pub fn calls_pair(&mut self, target: u32, back: u32, mask: Option<u32>)
        requires { mask ≡ mask_at self.old.plan self.old.machine.pc }
        ensures { self.new ≡ record self.old {
          machine = record (calls_from self.old.plan back self.old.machine) {
            pc = target;
          };
        } }
    {
        self.calls_from(back, mask);
        self.pc = target;
    }

    /// A jump to a return address.
    #[tactic(auto, using(crate::proofs::Masks::cleared_by_mask))]
    pub fn goes_back(&mut self, back: u32)
        ensures { self.new ≡ record self.old { machine = goes_back self.old.file self.old.plan back self.old.machine } }
    {
        let mask = self.mask_back(back);
        self.registers[RA as usize] = Value::Unset;
        self.pc = back;
        self.bits = bits_cleared(mask, self.bits);
    }

    /// A jump to what a register holds: only `jalr x0, 0(r)` goes back to a return address.
    pub fn jumps_to(&mut self, rd: u8, imm: u32, base: Value, mask: Option<u32>)
        requires register { rd < 32 }
        requires mask { mask ≡ mask_at self.old.plan self.old.machine.pc }
        ensures { self.new
            ≡ record self.old { machine = jumps_to self.old.file self.old.plan rd imm base self.old.machine } }
    {
        match base {
            Value::Num(word) => self.jumps(rd, word.wrapping_add(imm) / 2 * 2, mask),
            Value::Ret(back) if rd == 0 && imm == 0 => self.goes_back(back),
            _ => self.faults(FaultKind::F3),
        }
    }

    /// A branch, which must be decided.
    pub fn branches(&mut self, decided: Option<bool>, target: u32)
        ensures { self.new ≡ record self.old { machine = branches self.old.file decided target self.old.machine } }
    {
        match decided {
            Some(true) => self.goes_to(target),
            Some(false) => self.passes(),
            None => self.faults(FaultKind::F2),
        }
    }
}
