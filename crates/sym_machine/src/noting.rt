// The notes of steps: calls, returns and accesses to blocks.
ghost use Rattle.std.specs.Prelude.{◌≡◌, ◌<◌, true, false, Some, IfSome};
ghost use Rattle.rv_isa.specs.Encoded.{NamesRegisters};
ghost use Rattle.machine_spec.specs.Calls.{call_of};
ghost use Rattle.machine_spec.specs.Widths.{size_of};
ghost use Rattle.sym_value.specs.declared.Value.{Value};
ghost use Rattle.sym_spec.specs.SymMachine.{value_of};
ghost use Rattle.sym_spec.specs.SymCalls.{number_of_value};
ghost use Rattle.sym_spec.specs.SymNotes.{empty_note, access_to, uses_buffer, buffer_access, call_access, access_of};
ghost use Rattle.sym_spec.specs.SymNotes.{return_in, back_through};
ghost use Rattle.sym_machine.specs.Found.{IsNoHeap, NamesThere};
ghost use Rattle.sym_machine.specs.Turning.{call_noted, instr_noted, is_number, note_found};

use crate::found::Found;
use crate::hart::Hart;
use rv_isa::{Instr, Width};
use sym_spec::{BlockAccess, StepNote};
use sym_value::Value;

/// The note of a step without an effect of its own.
pub fn empty_note() -> StepNote
    ensures { result ≡ empty_note }
{
    StepNote {
        call: None,
        back: None,
        grant: None,
        release: None,
        access: None,
    }
}

/// An access to `width` bytes from a value on, where that is a pointer.
pub fn access_to(at: Value, width: u32) -> Option<BlockAccess>
    ensures { result ≡ access_to at width }
{
    match at {
        Value::Ptr { block, .. } => Some(BlockAccess { block, width }),
        Value::Num(_) | Value::Ret(_) | Value::Mix(_) | Value::Part { .. } | Value::Unset => None,
    }
}

pub fn is_number(value: Value) -> bool
    ensures { result ≡ is_number value }
{
    match value {
        Value::Num(_) => true,
        _ => false,
    }
}

fn size_of(width: Width) -> u32
    ensures { result ≡ size_of width }
{
    match width {
        Width::Byte | Width::ByteU => 1,
        Width::Half | Width::HalfU => 2,
        Width::Word => 4,
    }
}

pub fn return_in(value: Value) -> Option<u32>
    ensures { result ≡ return_in value }
{
    match value {
        Value::Ret(back) => Some(back),
        Value::Num(_) | Value::Ptr { .. } | Value::Mix(_) | Value::Part { .. } | Value::Unset =>
            None,
    }
}

impl<'a> Hart<'a> {
    /// The note of the turn at what stands at the pc, if it doesn't fault. That of a heap function is made
    /// by its turn.
    pub fn note_of(&self, found: Found) -> StepNote
        requires names { NamesThere found }
        requires heap { IsNoHeap found }
        ensures { result ≡ note_found self.now.file self.now.plan found self.now.machine }
    {
        match found {
            Found::Nothing => empty_note(),
            Found::Heap(_) => unreachable!(),
            Found::Pair { .. } => StepNote {
                call: Some(self.pc()),
                back: None,
                grant: None,
                release: None,
                access: None,
            },
            Found::Word { instr, is_site, .. } => self.instr_note(instr, is_site),
        }
    }

    /// Whether an instruction at no site has no note to be made: it neither goes back nor makes a system
    /// call, and loads and stores go by numbers.
    #[inline(always)]
    #[tactic(auto, using(crate::proofs::Quiet::no_access))]
    pub fn is_quiet(&self, i: Instr) -> bool
        requires { NamesRegisters i }
        ensures { result ≡ true → instr_noted self.now.file (Some i) false self.now.machine ≡ empty_note }
    {
        match i {
            Instr::Load { rs1, imm, .. } => is_number(self.address(rs1, imm)),
            Instr::Store { rs1, imm, .. } => is_number(self.address(rs1, imm)),
            Instr::Jalr { .. } | Instr::Ecall => false,
            Instr::Lui { .. }
            | Instr::Auipc { .. }
            | Instr::Jal { .. }
            | Instr::Branch { .. }
            | Instr::OpImm { .. }
            | Instr::Reg { .. }
            | Instr::Fence { .. }
            | Instr::Ebreak => true,
        }
    }

    pub fn instr_note(&self, instr: Option<Instr>, is_site: bool) -> StepNote
        requires { IfSome instr NamesRegisters }
        ensures { result ≡ instr_noted self.now.file instr is_site self.now.machine }
    {
        let Some(i) = instr else {
            return empty_note();
        };
        StepNote {
            call: self.call_noted(is_site),
            back: self.back_through(i),
            grant: None,
            release: None,
            access: self.access_of(i),
        }
    }

    fn call_noted(&self, is_site: bool) -> Option<u32>
        ensures { result ≡ call_noted is_site self.now.machine.pc }
    {
        if is_site { Some(self.pc()) } else { None }
    }

    /// The return address through which a jump goes.
    fn back_through(&self, i: Instr) -> Option<u32>
        requires { NamesRegisters i }
        ensures { result ≡ back_through i self.now.machine }
    {
        match i {
            Instr::Jalr { rs1, .. } => return_in(self.register(rs1)),
            Instr::Lui { .. }
            | Instr::Auipc { .. }
            | Instr::Jal { .. }
            | Instr::Branch { .. }
            | Instr::Load { .. }
            | Instr::Store { .. }
            | Instr::OpImm { .. }
            | Instr::Reg { .. }
            | Instr::Fence { .. }
            | Instr::Ecall
            | Instr::Ebreak => None,
        }
    }

    /// The access to a block that an instruction makes.
    fn access_of(&self, i: Instr) -> Option<BlockAccess>
        requires { NamesRegisters i }
        ensures { result ≡ access_of self.now.file i self.now.machine }
    {
        match i {
            Instr::Load {
                width,
                rs1,
                imm,
                ..
            }
            | Instr::Store {
                width,
                rs1,
                imm,
                ..
            } => { access_to(self.address(rs1, imm), size_of(width)) }
            Instr::Ecall => self.call_access(),
            Instr::Lui { .. }
            | Instr::Auipc { .. }
            | Instr::Jal { .. }
            | Instr::Jalr { .. }
            | Instr::Branch { .. }
            | Instr::OpImm { .. }
            | Instr::Reg { .. }
            | Instr::Fence { .. }
            | Instr::Ebreak => None,
        }
    }

    /// The access of a system call to its buffer.
    fn call_access(&self) -> Option<BlockAccess>
        ensures { result ≡ call_access (number_of_value (value_of self.now.machine 17)) self.now.machine }
    {
        match self.register(17) {
            Value::Num(number) => if self.uses_buffer(number) {
                self.buffer_access()
            } else {
                None
            },
            _ => None,
        }
    }

    fn uses_buffer(&self, number: u32) -> bool
        ensures { result ≡ uses_buffer (call_of number) (number_of_value (value_of self.now.machine 10)) }
    {
        match (number, self.register(10)) {
            (63, Value::Num(fd)) => fd == 0,
            (64, Value::Num(fd)) => fd == 1 || fd == 2,
            _ => false,
        }
    }

    fn buffer_access(&self) -> Option<BlockAccess>
        ensures { result ≡ buffer_access (number_of_value (value_of self.now.machine 12)) self.now.machine }
    {
        match self.register(12) {
            Value::Num(0) => None,
            Value::Num(len) => access_to(self.register(11), len),
            _ => None,
        }
    }
}
