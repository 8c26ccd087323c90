// `symbols [--steps N] PLAN FILE`: reads the plan and the file, and runs the file under the plan on the symbol machine.
ghost use Rattle.std.specs.Prelude.{◌≡◌, ◌≤◌, ◌⊎◌, length, None, codes, IfOk, IfErr};
ghost use Rattle.halo_outside.specs.Seen.{FilesSeen};
ghost use Rattle.site_spec.specs.Plans.{Fits};
ghost use Rattle.rewriter.specs.Rewrites.{rewrite_refusal};
ghost use Rattle.halo_cli.specs.Reads.{AreFirstReads, HasReadCause};
ghost use Rattle.halo_cli.specs.PlanAndFile.{BothBring, IsTextOf, both_reads};
ghost use Rattle.halo_cli.specs.Runs.{IsLoadEnding, RanTo};
ghost use Rattle.halo_cli.specs.RunEnds.{ending_of_symbols};
ghost use Rattle.halo_cli.specs.Symbols.{LoadsPlanned, TextRuns, symbol_run};
ghost use Rattle.halo_cli.specs.World.{OnlyDraws, OnlyReads, OnlyWrites};
ghost use Rattle.halo_cli.specs.Writing.{IsUnmoved};
ghost use Rattle.halo_cli.specs.Ends.{Ends};

use crate::plan_and_file::read_plan_and_file;
use crate::run::steps_of;
use endings::{BadFile, BadPlan, Ending};
use exec_image::{FileRefusal, Image, accept, check_plan};
use halo_outside::{Files, Sink, Source};
use halo_words::Values;
use plan_core::{Plan, PlanRefusal, read_plan};
use std::alloc::Global;
use sym_machine::{SymEnd, SymMachine, run_symbols, start};

/// An accepted file and a plan that fits it.
#[derive(Drop)]
struct Planned {
    image: Image,
    plan: Plan,
}

/// Runs the second operand, a file, under the first, a plan, for at most the steps of `--steps`, with this input and
/// output. The plan is read first.
pub fn symbols_file<F: Files, I: Source, O: Sink>(
    alloc: Global,
    values: &Values<'_>,
    files: &mut F,
    input: &mut I,
    out: &mut O,
) -> Ending
    ensures { Ends (record { word = codes "symbols"; given = values.now.given })
        (record { files = F.seen files.old; input = I.seen input.old; out = O.seen out.old })
        (record { files = F.seen files.new; input = I.seen input.new; out = O.seen out.new }) result }
{
    let steps = steps_of(values);
    let plan_name = values.operand(0);
    let file_name = values.operand(1);
    match load_planned(alloc, plan_name, file_name, files) {
        Err(ending) => ending,
        Ok(planned) => run_planned(alloc, &planned, steps, input, out),
    }
}

// The file of the second name under the plan of the first, or how the command ends without them.
fn load_planned<F: Files>(
    alloc: Global,
    plan_name: &str,
    file_name: &str,
    files: &mut F,
) -> Result<Planned, Ending>
    ensures reads { OnlyReads (F.seen files.old) (F.seen files.new) }
    ensures whole { IfOk result (λ planned. (ending : Ending)
        → AreFirstReads (both_reads plan_name.now file_name.now) (F.seen files.old) (F.seen files.new) ending) }
    ensures first { IfErr result (AreFirstReads (both_reads plan_name.now file_name.now)
        (F.seen files.old) (F.seen files.new)) }
    ensures loads { IfOk result (λ planned. LoadsPlanned plan_name.now file_name.now
        (F.seen files.old) (F.seen files.new) (record { file = planned.image; plan = planned.plan })) }
    ensures fits { IfOk result (λ planned. Fits planned.image planned.plan) }
    ensures stops { IfErr result IsLoadEnding }
    ensures cause { IfErr result (HasReadCause
        (BothBring (TextRuns (λ run ending. ⊥)) plan_name.now file_name.now (F.seen files.old) (F.seen files.new))
        (F.seen files.old) (F.seen files.new)) }
{
    match read_plan_and_file(alloc, plan_name, file_name, files) {
        Err(ending) => Err(ending),
        Ok(both) => planned_of(alloc, &both.text, &both.file),
    }
}

// The file under the plan of a text, or how the command ends without them. The text is looked at first, then the
// file, and then whether the plan fits it.
fn planned_of(alloc: Global, text: &[u8], file: &[u8]) -> Result<Planned, Ending>
    requires { length file.now ≤ 33554432 }
    ensures image { IfOk result (λ planned. planned.image ≡ file.now) }
    ensures text { IfOk result (λ planned. IsTextOf text.now planned.plan) }
    ensures none { IfOk result (λ planned. rewrite_refusal file.now planned.plan ≡ None) }
    ensures fits { IfOk result (λ planned. Fits file.now planned.plan) }
    ensures stops { IfErr result IsLoadEnding }
    ensures cause { IfErr result (λ e. TextRuns (λ run ending. ⊥) text.now file.now e ⊎ (e ≡ Ending.Memory)) }
{
    let plan = match read_plan(alloc, text) {
        Ok(plan) => plan,
        Err(PlanRefusal::Memory) => return Err(Ending::Memory),
        Err(why) => return Err(Ending::Plan(BadPlan::Text(why))),
    };
    let image = match accept(alloc, file) {
        Ok(image) => image,
        Err(FileRefusal::Memory) => return Err(Ending::Memory),
        Err(why) => return Err(Ending::File(BadFile::Refused(why))),
    };
    match check_plan(&image, &plan) {
        Ok(()) => Ok(Planned { image, plan }),
        Err(why) => Err(Ending::Plan(BadPlan::Misfit(why))),
    }
}

// How the command ends after a run of at most so many steps.
fn run_planned<I: Source, O: Sink>(
    alloc: Global,
    planned: &Planned,
    steps: u32,
    input: &mut I,
    out: &mut O,
) -> Ending
    requires { Fits planned.now.image planned.now.plan }
    ensures ran { (files : FilesSeen) (files' : FilesSeen) → ((result ≡ Ending.Memory) × IsUnmoved
        (record { files = files; input = I.seen input.old; out = O.seen out.old })
        (record { files = files'; input = I.seen input.new; out = O.seen out.new }))
        ⊎ RanTo (symbol_run planned.now.image planned.now.plan) steps
        (record { files = files; input = I.seen input.old; out = O.seen out.old })
        (record { files = files'; input = I.seen input.new; out = O.seen out.new }) result }
    ensures draws { OnlyDraws (I.seen input.old) (I.seen input.new) }
    ensures writes { OnlyWrites (O.seen out.old) (O.seen out.new) }
{
    match start(alloc, &planned.image, &planned.plan) {
        Err(_) => Ending::Memory,
        Ok(machine) => {
            let mut machine = machine;
            ending_of(run_symbols(&mut machine, steps, input, out), steps)
        }
    }
}

// How the command ends after a run of at most so many steps that ended so.
fn ending_of(end: SymEnd, steps: u32) -> Ending
    ensures { result ≡ ending_of_symbols end steps }
{
    match end {
        SymEnd::Exited { status, steps } => Ending::Exited { status, steps },
        SymEnd::Illegal { at, steps } => Ending::Illegal { at, steps },
        SymEnd::Fault { kind, at, steps } => Ending::Fault { kind, at, steps },
        SymEnd::Steps => Ending::StillRunning { steps },
        SymEnd::ReadFault => Ending::ReadFault,
        SymEnd::WriteFault => Ending::WriteFault,
        SymEnd::Memory => Ending::Memory,
    }
}
