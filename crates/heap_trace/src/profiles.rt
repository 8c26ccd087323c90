// The profile of a run.
ghost use Rattle.std.specs.Prelude.{◌≡◌, ℕ, ◌+◌, ◌^◌, ◌<◌, ◌≤◌, List, [], Some, None, length, Err, IfOk, IsErrOf, OnOk};
ghost use Rattle.plan_core.specs.Plan.{granules};
ghost use Rattle.halo_outside.specs.Seen.{Rose};
ghost use Rattle.affinity.specs.Pushed.{Pushed};
ghost use Rattle.sym_spec.specs.SymNotes.{empty_note, note as note_of};
ghost use Rattle.sym_machine.specs.Programs.{turn as turn_of};
ghost use Rattle.sym_machine.specs.Seen.{between};
ghost use Rattle.profile_text.specs.Profile.{IsProfile};
ghost use Rattle.heap_trace.specs.Profiles.{Drawn, IsProfileOfTurns, ProfileRan, StepsWithin, IsCutInput, ends_of};
ghost use Rattle.heap_trace.specs.Profiles.{program_of};
ghost use Rattle.heap_trace.specs.Recorded.{HasOwnTurns, IsLegal, LedTo, Recorded};
ghost use Rattle.heap_trace.specs.Traces.{nothing_traced};

use crate::laws::runs_have_legal_events;
use crate::recording::Recording;
use exec_image::Image;
use halo_outside::{Failed, Source};
use machine_run::{Ending, FaultKind, Machine, Stepped, feed_from};
use plan_core::{Area, Plan, PlanLines, Profile, RowList};
use std::alloc::{AllocError, Global};
use sym_machine::{SymMachine, start};

/// A profile, with how its run exited.
#[derive(Debug, Drop)]
pub struct Profiled {
    /// The profile.
    pub profile: Profile,
    /// The status of the exit.
    pub status: u8,
    /// The number of steps, of which the exit is the last.
    pub steps: u32,
}

/// Why a run gives no profile.
#[derive(Clone, Copy, Debug, PartialEq, Eq)]
pub enum ProfileEnd {
    /// It ended at a word that is no instruction to be run, after so many steps before.
    Illegal {
        at: u32,
        steps: u32,
    },
    /// It ended at an address fault, after so many steps before.
    Fault {
        kind: FaultKind,
        at: u32,
        steps: u32,
    },
    /// It still runs after all steps.
    Steps,
    /// A read of the input failed.
    ReadFault,
    /// Memory is lacking.
    Memory,
}

/// Why a turn isn't done.
#[derive(Clone, Copy, Debug)]
enum Cut {
    /// A read failed.
    AtRead,
    /// The step lacked memory.
    NoMemory,
}

// One turn, with its input from the source; what it writes is dropped.
#[tactic(auto, using(crate::proofs::Drawing::drawn_none))]
fn turn<I: Source>(machine: &mut SymMachine<'_>, input: &mut I) -> Result<(), Cut>
    requires goes { machine.old.waits ≡ None }
    requires places { length machine.old.program.machine.at < 4294967295 }
    ensures reads { Drawn (I.seen input.old) (I.seen input.new) }
    ensures done { OnOk result ((left : List ℕ) → (I.seen input.old).told ≡ Some left
        → LedTo left machine.old.program machine.new.program (I.seen input.new).told) }
    ensures some { OnOk result ((bytes : List ℕ) × (machine.new.program ≡ (turn_of bytes machine.old.program).next)) }
    ensures last { OnOk result (machine.new.last
        ≡ note_of machine.old.program.file machine.old.program.plan machine.old.program.machine) }
    ensures goes { OnOk result (machine.new.waits ≡ None) }
    ensures places { OnOk result
        (length machine.new.program.machine.at ≤ length machine.old.program.machine.at + 1) }
    ensures cut { IsErrOf result Cut.AtRead → (left : List ℕ) → (I.seen input.old).told ≡ Some left
        → IsCutInput machine.old.program left (I.seen input.new).told }
    ensures read { IsErrOf result Cut.AtRead → Rose (I.seen input.old).faults (I.seen input.new).faults }
    ensures kept { IsErrOf result Cut.NoMemory → (I.seen input.new).told ≡ (I.seen input.old).told }
{
    let Ok(stepped) = machine.step() else {
        return Err(Cut::NoMemory);
    };
    match stepped {
        Stepped::WantsInput { len } => match feed_from(machine, len, input) {
            Ok(()) => {
                machine.fed();
                Ok(())
            }
            Err(Failed) => Err(Cut::AtRead),
        },
        _ => Ok(()),
    }
}

// Runs the machine for at most so many steps, and records them; answers the status of the exit and its steps.
fn record_run<I: Source>(
    alloc: Global,
    image: &Image,
    machine: &mut SymMachine<'_>,
    recording: &mut Recording,
    steps: u32,
    input: &mut I,
) -> Result<(u8, u32), ProfileEnd>
    requires start { machine.old ≡ between (program_of image.now machine.old.program.plan) [] empty_note }
    requires nothing { recording.old.trace ≡ nothing_traced }
    requires none { Pushed recording.old.affinity [] }
    ensures run { (left : List ℕ) → (I.seen input.old).told ≡ Some left
        → Recorded result image.now machine.old.program.plan steps left (I.seen input.new).told recording.new }
    ensures legal { OnOk result (IsLegal recording.new) }
    ensures turns { IfOk result (λ end. HasOwnTurns image.now machine.old.program.plan end.1 recording.new) }
    ensures distance { recording.new.affinity.distance ≡ recording.old.affinity.distance }
    ensures within { StepsWithin result steps }
    ensures read_fault { result ≡ Err ProfileEnd.ReadFault → Rose (I.seen input.old).faults (I.seen input.new).faults }
    ensures reads { Drawn (I.seen input.old) (I.seen input.new) }
{
    runs_have_legal_events();
    for taken in 0..steps {
        match turn(machine, input) {
            Ok(()) => {}
            Err(Cut::AtRead) => return Err(ProfileEnd::ReadFault),
            Err(Cut::NoMemory) => return Err(ProfileEnd::Memory),
        }
        let note = machine.last();
        match recording.take(alloc, &note, image) {
            Ok(()) => {}
            Err(AllocError) => return Err(ProfileEnd::Memory),
        }
        match machine.ending() {
            Ending::Running => {}
            Ending::Exit(status) => return Ok((status, taken + 1)),
            Ending::Illegal(at) => return Err(ProfileEnd::Illegal { at, steps: taken }),
            Ending::Fault { kind, at } => {
                return Err(ProfileEnd::Fault {
                    kind,
                    at,
                    steps: taken,
                });
            }
        }
    }
    Err(ProfileEnd::Steps)
}

/// Profiles the run of an image on an input under a plan of an area alone, at a distance in bytes, for at
/// most so many steps. What the program writes is dropped.
///
/// `steps` of an exit counts the step that exits, that of an illegal word or a fault the steps before it.
/// After `Memory` the input is as the steps that were done left it.
pub fn profile_run<I: Source>(
    alloc: Global,
    image: &Image,
    area: Area,
    distance: u32,
    steps: u32,
    input: &mut I,
) -> Result<Profiled, ProfileEnd>
    requires log_chunk { area.log_chunk ≤ 20 }
    requires chunks { area.chunks ≤ 256 }
    requires area { granules area ≤ 1048576 }
    requires distance { distance ≤ 4096 }
    ensures run { (left : List ℕ) → (I.seen input.old).told ≡ Some left
        → ProfileRan result image.now area distance steps left (I.seen input.new).told }
    ensures profile { IfOk result (λ p. IsProfile p.profile) }
    ensures turns { IfOk result (λ p. IsProfileOfTurns image.now area p.steps distance p.profile) }
    ensures within { StepsWithin (ends_of result) steps }
    ensures read_fault { result ≡ Err ProfileEnd.ReadFault → Rose (I.seen input.old).faults (I.seen input.new).faults }
    ensures reads { Drawn (I.seen input.old) (I.seen input.new) }
{
    let sites = PlanLines::new(alloc);
    let rows = RowList::new(alloc);
    let plan = Plan { sites, rows, area };
    let Ok(mut machine) = start(alloc, image, &plan) else {
        return Err(ProfileEnd::Memory);
    };
    let mut recording = Recording::new(alloc, distance);
    match record_run(alloc, image, &mut machine, &mut recording, steps, input) {
        Err(end) => Err(end),
        Ok((status, steps)) => match recording.into_profile(alloc, distance) {
            Ok(profile) => Ok(Profiled {
                profile,
                status,
                steps,
            }),
            Err(AllocError) => Err(ProfileEnd::Memory),
        },
    }
}
