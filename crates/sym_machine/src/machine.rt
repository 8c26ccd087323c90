// The symbol machine with its steps, and with reads that wait for their input.
ghost use Rattle.std.specs.Prelude.{◌≡◌, ◌≢◌, ◌+◌, ◌<◌, ◌≤◌, ◌==◌, if◌then◌else◌, ℕ, List, [], ◌++◌, length, None};
ghost use Rattle.std.specs.Prelude.{IfOk, OnErr, IsSome, IsSomeAnd, slice_index, take, drop, unwrap_or};
ghost use Rattle.site_spec.specs.Plans.{Fits};
ghost use Rattle.sym_value.specs.declared.Value.{Value};
ghost use Rattle.machine_run.specs.Machines.{Asks, fed_with};
ghost use Rattle.machine_run.specs.Steps.{answer_to, EndsRead, StepsTo};
ghost use Rattle.sym_spec.specs.SymMachine.{start as start_of, value_of};
ghost use Rattle.sym_spec.specs.SymNotes.{empty_note, note};
ghost use Rattle.sym_machine.specs.Programs.{Program};
ghost use Rattle.sym_machine.specs.Asks.{asks};
ghost use Rattle.sym_machine.specs.Rules.{sym_rules};
ghost use Rattle.sym_machine.specs.Seen.{seen_by_run, between, FedMore, Completed};
ghost use Rattle.sym_machine.specs.QuietTurns.{GoesOn};
ghost use Rattle.sym_machine.specs.Steps.{Notes, note_after};

use crate::acting::answer;
use crate::calling::{buffer_in, pointer_in};
use crate::code::code_of;
use crate::hart::Hart;
use crate::noting::{access_to, empty_note};
use crate::reached::memory_of;
use exec_image::Image;
use machine_run::{Pause, Stepped, pause_of};
use machine_spec::Ending;
use plan_core::Plan;
use std::alloc::{AllocError, Global};
use std::marker::Model;
use sym_spec::StepNote;
use sym_value::Value;

/// A machine that runs an image under a plan. Contracts see its program, whether it waits at a read,
/// the bytes that its last step wrote, and the note of its last completed step.
#[derive(Drop)]
pub struct SymMachine<'a> {
    hart: Hart<'a>,
    pause: Pause,
    last: Option<StepNote>,
}

impl<'a> Model for SymMachine<'a> {
    ghost use Rattle.std.specs.Prelude.{unwrap_or};
    ghost use Rattle.sym_spec.specs.SymNotes.{empty_note};
    ghost use Rattle.sym_machine.specs.Seen.{SymSeen, seen_of, IsPaused};

    ghost Value = { SymSeen };

    ghost view = { λ s. seen_of s.pause (unwrap_or s.last empty_note) s.hart };

    ghost invariant = { λ s. IsPaused s.pause s.hart };
}

/// The machine that is about to run an image under a plan that fits it. It takes here all memory that
/// plain bytes and code need.
#[tactic(auto, unfolding(sym_spec::specs::SymMachine::start))]
pub fn start<'a>(
    alloc: Global,
    image: &'a Image,
    plan: &'a Plan,
) -> Result<SymMachine<'a>, AllocError>
    requires { Fits image.now plan.now }
    ensures { IfOk result (λ machine. machine ≡ between
        (record { file = image.now; plan = plan.now; machine = start_of image.now plan.now }) [] empty_note) }
{
    let code = code_of(alloc, image, plan)?;
    let memory = memory_of(alloc, image, plan)?;
    Ok(SymMachine {
        hart: Hart::new(code, memory, image.elf().entry),
        pause: Pause::Nothing,
        last: None,
    })
}

/// Keeps the note of the last completed step, none where it is empty: a read that waits isn't completed.
fn keep_note(last: &mut Option<StepNote>, stepped: Stepped, note: Option<StepNote>)
    ensures { unwrap_or last.new empty_note
        ≡ note_after stepped (unwrap_or last.old empty_note) (unwrap_or note empty_note) }
{
    match (stepped, note) {
        (Stepped::WantsInput { .. }, _) => {}
        (_, Some(note)) => *last = Some(note),
        (_, None) => *last = None,
    }
}

impl<'a> SymMachine<'a> {
    /// One step, which is a turn of the machine. A read from descriptor 0 of more than 0 bytes makes the
    /// machine wait for its input, and is one turn when that was fed. After an ending the same answer
    /// comes again. Only a step that grants a block may lack memory; then nothing changes.
    pub fn step(&mut self) -> Result<Stepped, AllocError>
        requires goes { self.old.waits ≡ None }
        requires blocks { length self.old.program.machine.at < 4294967295 }
        ensures answer { IfOk result (λ stepped. stepped
            ≡ answer_to (asks self.old.program) self.new.program.machine.ending) }
        ensures turn { IfOk result (λ stepped. (input : List ℕ)
            → StepsTo sym_rules stepped input self.old.program (seen_by_run self.new)) }
        ensures last { IfOk result (λ stepped. Notes stepped self.old self.new) }
        ensures again { self.old.program.machine.ending ≢ Ending.Running
            → IfOk result (λ stepped. (self.new ≡ between self.old.program [] empty_note)
            × (stepped ≡ answer_to Asks.Nothing self.old.program.machine.ending)) }
        ensures blocks { length self.new.program.machine.at ≤ length self.old.program.machine.at + 1 }
        ensures lacks { OnErr result (IsSome
            (note self.old.program.file self.old.program.plan self.old.program.machine).grant) }
        ensures kept { OnErr result (self.new ≡ self.old) }
    {
        let (stepped, note) = self.hart.step()?;
        keep_note(&mut self.last, stepped, note);
        self.pause = pause_of(stepped);
        Ok(stepped)
    }

    /// Takes at most so many steps that neither read, write nor end, and whose notes are empty, and answers
    /// how many.
    pub(crate) fn take_quiet_steps(&mut self, most: u32) -> u32
        requires { self.old.program.machine.ending ≡ Ending.Running }
        ensures within { result ≤ most }
        ensures turns { GoesOn result self.old.program self.new.program }
        ensures goes { self.new.waits ≡ None }
        ensures last { self.new.last ≡ (if result == 0 then self.old.last else empty_note) }
    {
        self.pause = Pause::Nothing;
        let taken = self.hart.take_quiet_turns(most);
        if taken != 0 {
            self.last = None;
        }
        taken
    }

    /// Puts the next piece of the input into the buffer of the read at which the machine waits.
    pub fn feed(&mut self, piece: &[u8])
        requires { IsSomeAnd self.old.waits (λ wait. wait.fed + length piece.now ≤ wait.len) }
        ensures exact { FedMore self.old piece.now self.new }
        ensures adds_up { (p : Program) (len : ℕ) (bytes : List ℕ)
            → seen_by_run self.old ≡ fed_with sym_rules len p bytes
            → seen_by_run self.new ≡ fed_with sym_rules len p (bytes ++ piece.now) }
    {
        if let Pause::Input { len, fed } = self.pause {
            let _len = len;
            self.hart.fills(fed, piece);
            self.pause = Pause::Input {
                len,
                fed: fed + piece.len() as u32,
            };
        }
    }

    /// Ends the waiting: the read answers how many bytes it was fed, and its step is completed.
    pub fn fed(&mut self)
        requires { IsSome self.old.waits }
        ensures exact { Completed self.old self.new }
        ensures turn { EndsRead sym_rules (seen_by_run self.old) (seen_by_run self.new) }
        ensures last { (p : Program) (len : ℕ) (bytes : List ℕ) → asks p ≡ Asks.Input len
            → seen_by_run self.old ≡ fed_with sym_rules len p bytes
            → self.new.last ≡ note p.file p.plan p.machine }
    {
        if let Pause::Input { len, fed } = self.pause {
            self.last = Some(StepNote {
                call: None,
                back: None,
                grant: None,
                release: None,
                access: access_to(self.hart.register(11), len),
            });
            self.hart.gives(10, Value::Num(fed));
            self.pause = Pause::Nothing;
        }
    }

    /// Byte `i` of those that the last step wrote.
    pub fn output_byte(&self, i: u32) -> u8
        requires { i < length self.now.written }
        ensures { result ≡ slice_index self.now.written i }
    {
        let mut byte = [0];
        self.copy_bytes(i, &mut byte);
        byte[0]
    }

    /// Copies the bytes that the last step wrote, from one on.
    pub(crate) fn copy_bytes(&self, from: u32, into: &mut [u8])
        requires { from + length into.old ≤ length self.now.written }
        ensures { into.new ≡ take (length into.old) (drop from self.now.written) }
    {
        if let Pause::Output { len } = self.pause {
            if let Some(at) = buffer_in(len, self.hart.register(11)) {
                self.hart.memory().copy_from(at, len, from, into);
            }
        }
    }

    /// The value of a register.
    pub fn register(&self, r: u8) -> Value
        requires { r < 32 }
        ensures { result ≡ value_of self.now.program.machine r }
    {
        self.hart.register(r)
    }

    /// The address of the next instruction, or of the one at which the machine ended.
    pub fn pc(&self) -> u32
        ensures { result ≡ self.now.program.machine.pc }
    {
        self.hart.pc()
    }

    /// The bits of the chosen sites.
    pub fn bits(&self) -> u32
        ensures { result ≡ self.now.program.machine.bits }
    {
        self.hart.bits()
    }

    /// What the last completed step did.
    pub fn last(&self) -> StepNote
        ensures { result ≡ self.now.last }
    {
        match self.last {
            Some(note) => note,
            None => empty_note(),
        }
    }

    /// How the machine ended, or that it runs.
    pub(crate) fn how_it_ends(&self) -> Ending
        ensures { result ≡ self.now.program.machine.ending }
    {
        self.hart.ending()
    }
}
