// The code of a program under its plan, with what was found at the addresses that were looked up last.
ghost use Rattle.std.specs.Prelude.{◌≡◌, ◌<◌, is_some, IfOk, IfSome};
ghost use Rattle.elf_spec.specs.Code.{code_word};
ghost use Rattle.site_spec.specs.Plans.{Fits};
ghost use Rattle.sym_machine.specs.Found.{HasInstr, IsInstrAt, IsKept, NamesThere, mask_back};

use crate::found::{Found, Kept, look_up};
use crate::returns::{Return, mask_back, read_returns};
use exec_image::Image;
use plan_core::Plan;
use rv_isa::Instr;
use std::alloc::{AllocError, Global};
use std::marker::Model;

/// How many addresses are kept: each in the place of its number of words modulo this.
const PLACES: usize = 16384;

/// The code of a program; contracts see the file and the plan.
#[derive(Drop)]
pub struct Code<'a> {
    image: &'a Image,
    plan: &'a Plan,
    kept: Vec<Kept>,
    returns: Vec<Return>,
}

impl<'a> Model for Code<'a> {
    ghost use Rattle.sym_machine.specs.Found.{HeldCode, IsCode};

    ghost Value = { HeldCode };

    ghost view = { λ c. record { file = c.image.now; plan = c.plan.now } };

    ghost invariant = { λ c. IsCode c.image.now c.plan.now c.kept.items c.returns.items };
}

/// The code of an image under a plan that fits it.
pub fn code_of<'a>(alloc: Global, image: &'a Image, plan: &'a Plan) -> Result<Code<'a>, AllocError>
    requires { Fits image.now plan.now }
    ensures { IfOk result (λ code. code ≡ record { file = image.now; plan = plan.now }) }
{
    let returns = read_returns(alloc, image, plan.sites.as_slice())?;
    // nothing stands at address 1
    let nothing = Kept {
        addr: 1,
        is_code: false,
        found: Found::Nothing,
    };
    let kept = vec![in alloc; nothing; PLACES]?;
    Ok(Code {
        image,
        plan,
        kept,
        returns,
    })
}

/// The place in which what stands at an address is kept.
#[inline(always)]
fn place_of(addr: u32) -> usize
    ensures { result < 16384 }
{
    (addr / 4) as usize % PLACES
}

/// The instruction of a code word that is no site.
#[inline(always)]
fn instr_in(found: Found) -> Option<Instr>
    requires { NamesThere found }
    ensures { IfSome result (HasInstr found) }
{
    match found {
        Found::Word {
            instr: Some(i),
            is_site: false,
            ..
        } => Some(i),
        _ => None,
    }
}

impl<'a> Code<'a> {
    /// What stands at an address.
    #[inline(never)]
    pub fn at(&mut self, addr: u32) -> Kept
        ensures kept { IsKept self.old.file self.old.plan result }
        ensures addr { result.addr ≡ addr }
        ensures same { self.new ≡ self.old }
    {
        let place = place_of(addr);
        let kept = self.kept[place];
        if kept.addr == addr {
            return kept;
        }
        let kept = look_up(self.image, self.plan, addr);
        self.kept[place] = kept;
        kept
    }

    /// The instruction of the code word at an address that is no site; none where something else stands.
    #[inline(always)]
    pub fn instr_at(&mut self, addr: u32) -> Option<Instr>
        ensures instr { IfSome result (IsInstrAt self.old.file self.old.plan addr) }
        ensures same { self.new ≡ self.old }
    {
        let kept = self.kept[place_of(addr)];
        if kept.addr == addr {
            instr_in(kept.found)
        } else {
            self.instr_anew(addr)
        }
    }

    #[inline(never)]
    fn instr_anew(&mut self, addr: u32) -> Option<Instr>
        ensures instr { IfSome result (IsInstrAt self.old.file self.old.plan addr) }
        ensures same { self.new ≡ self.old }
    {
        instr_in(self.at(addr).found)
    }

    /// Whether a code word stands at an address.
    #[inline(always)]
    pub fn is_code(&mut self, addr: u32) -> bool
        ensures answer { result ≡ is_some (code_word self.old.file addr) }
        ensures same { self.new ≡ self.old }
    {
        let kept = self.kept[place_of(addr)];
        if kept.addr == addr {
            kept.is_code
        } else {
            self.is_code_anew(addr)
        }
    }

    #[inline(never)]
    fn is_code_anew(&mut self, addr: u32) -> bool
        ensures answer { result ≡ is_some (code_word self.old.file addr) }
        ensures same { self.new ≡ self.old }
    {
        self.at(addr).is_code
    }

    /// The mask of the bit of the line whose call comes back to an address.
    #[tactic(auto, using(crate::proofs::Masks::line_back))]
    pub fn mask_back(&self, addr: u32) -> Option<u32>
        ensures { result ≡ mask_back self.now.file self.now.plan addr }
    {
        mask_back(&self.returns, addr)
    }
}
