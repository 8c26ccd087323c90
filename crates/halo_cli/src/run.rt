// `run [--steps N] FILE`: reads the file and runs it on the flat machine.
ghost use Rattle.std.specs.Prelude.{◌≡◌, [], List, ℕ, codes, IfOk, IfErr};
ghost use Rattle.halo_outside.specs.Seen.{FilesSeen, SourceSeen, SinkSeen};
ghost use Rattle.flat_spec.specs.Machine.{start};
ghost use Rattle.flat_machine.specs.Seen.{between};
ghost use Rattle.halo_cli.specs.Reads.{AreFirstReads, HasReadCause};
ghost use Rattle.halo_cli.specs.Runs.{IsLoadEnding, steps_in};
ghost use Rattle.halo_cli.specs.Run.{LoadBrings, Loads, run_reads};
ghost use Rattle.halo_cli.specs.RunEnds.{ending_of_run};
ghost use Rattle.halo_cli.specs.World.{OnlyReads};
ghost use Rattle.halo_cli.specs.Ends.{Ends};

use crate::limits::RUN_LIMIT;
use elf_read::{ElfRefusal, read_elf};
use endings::{BadFile, Ending};
use exec_image::FileRefusal;
use flat_machine::{Flat, RunEnd, run_flat, start};
use flat_mem::load;
use halo_outside::{FileFault, Files, Sink, Source};
use halo_words::Values;
use std::alloc::Global;
use text_fields::number;

/// Runs the operand, a file, for at most the steps of `--steps`, with this input and output. All memory is taken before
/// the machine starts.
pub fn run_file<F: Files, I: Source, O: Sink>(
    alloc: Global,
    values: &Values<'_>,
    files: &mut F,
    input: &mut I,
    out: &mut O,
) -> Ending
    ensures { Ends (record { word = codes "run"; given = values.now.given })
        (record { files = F.seen files.old; input = I.seen input.old; out = O.seen out.old })
        (record { files = F.seen files.new; input = I.seen input.new; out = O.seen out.new }) result }
{
    let steps = steps_of(values);
    match load_machine(alloc, values.operand(0), files) {
        Err(ending) => ending,
        Ok(machine) => {
            let mut machine = machine;
            ending_of(run_flat(&mut machine, steps, input, out), steps)
        }
    }
}

/// The number in the value of `--steps`.
pub fn steps_of(values: &Values<'_>) -> u32
    ensures { result ≡ steps_in values.now.given }
{
    match number(values.option("steps").as_bytes(), 4_294_967_295) {
        Some(steps) => steps as u32,
        None => 0,
    }
}

// The machine that is about to run the file, or how the command ends without one.
fn load_machine<F: Files>(alloc: Global, name: &str, files: &mut F) -> Result<Flat, Ending>
    ensures reads { OnlyReads (F.seen files.old) (F.seen files.new) }
    ensures whole { IfOk result (λ machine. (ending : Ending)
        → AreFirstReads (run_reads name.now) (F.seen files.old) (F.seen files.new) ending) }
    ensures first { IfErr result (AreFirstReads (run_reads name.now) (F.seen files.old) (F.seen files.new)) }
    ensures loaded { IfOk result (λ machine. (file : List ℕ)
        × Loads name.now (F.seen files.old) (F.seen files.new) file × (machine ≡ between (start file) [])) }
    ensures stops { IfErr result IsLoadEnding }
    ensures cause { IfErr result (HasReadCause
        (LoadBrings name.now (F.seen files.old) (F.seen files.new)) (F.seen files.old) (F.seen files.new)) }
{
    let file = match files.read(alloc, name, RUN_LIMIT) {
        Ok(file) => file,
        Err(FileFault::Failed) => return Err(Ending::ReadFault),
        Err(FileFault::TooLong) => return Err(Ending::File(BadFile::TooLong)),
        Err(FileFault::Memory) => return Err(Ending::Memory),
    };
    let elf = match read_elf(alloc, &file) {
        Ok(elf) => elf,
        Err(ElfRefusal::Memory) => return Err(Ending::Memory),
        Err(why) => return Err(Ending::File(BadFile::Refused(FileRefusal::Elf(why)))),
    };
    match load(alloc, &elf, &file) {
        Ok(memory) => Ok(start(memory, elf.entry)),
        Err(_) => Err(Ending::Memory),
    }
}

/// How the command ends after a run of at most so many steps.
pub fn ending_of(end: RunEnd, steps: u32) -> Ending
    ensures { result ≡ ending_of_run end steps }
{
    match end {
        RunEnd::Exited { status, steps } => Ending::Exited { status, steps },
        RunEnd::Illegal { at, steps } => Ending::Illegal { at, steps },
        RunEnd::Fault { kind, at, steps } => Ending::Fault { kind, at, steps },
        RunEnd::Steps => Ending::StillRunning { steps },
        RunEnd::ReadFault => Ending::ReadFault,
        RunEnd::WriteFault => Ending::WriteFault,
    }
}
