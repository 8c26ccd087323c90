// `rewrite PLAN FILE`: reads the plan and the file, makes the new file and writes it.
ghost use Rattle.std.specs.Prelude.{◌≡◌, ◌≤◌, ◌⊎◌, length, codes, IfOk, IfErr};
ghost use Rattle.halo_outside.specs.Seen.{FilesSeen, SourceSeen, SinkSeen};
ghost use Rattle.endings.specs.declared.endings.Ending.TheVariants.{Done};
ghost use Rattle.halo_words.specs.Grammar.{Given, operand_in};
ghost use Rattle.halo_cli.specs.Reads.{AreFirstReads, HasReadCause};
ghost use Rattle.halo_cli.specs.PlanAndFile.{both_reads};
ghost use Rattle.halo_cli.specs.RewriteCommand.{Makes, RewriteBrings, RewriteWrites, TextRewrites};
ghost use Rattle.halo_cli.specs.Writing.{IsStop};
ghost use Rattle.halo_cli.specs.World.{OnlyReads};
ghost use Rattle.halo_cli.specs.Ends.{Ends};

use crate::plan_and_file::read_plan_and_file;
use endings::{BadFile, BadPlan, Ending};
use halo_outside::{Failed, Files, Sink, write_all};
use halo_words::Values;
use plan_core::{PlanRefusal, read_plan};
use rewriter::{RewriteRefusal, rewrite};
use std::alloc::Global;

/// Writes the new file of the second operand, a file, under the first, a plan, to `out`. The plan is read
/// first. No input is read.
pub fn rewrite_file<F: Files, O: Sink>(
    alloc: Global,
    values: &Values<'_>,
    files: &mut F,
    out: &mut O,
) -> Ending
    ensures { (input : SourceSeen) → Ends (record { word = codes "rewrite"; given = values.now.given })
        (record { files = F.seen files.old; input = input; out = O.seen out.old })
        (record { files = F.seen files.new; input = input; out = O.seen out.new }) result }
{
    let plan_name = values.operand(0);
    let file_name = values.operand(1);
    write_new_file(alloc, plan_name, file_name, files, out)
}

// Writes the new file of the file of the second name under the plan of the first.
fn write_new_file<F: Files, O: Sink>(
    alloc: Global,
    plan_name: &str,
    file_name: &str,
    files: &mut F,
    out: &mut O,
) -> Ending
    ensures { (given : Given) (input : SourceSeen)
        → operand_in given 0 ≡ plan_name.now → operand_in given 1 ≡ file_name.now
        → Ends (record { word = codes "rewrite"; given = given })
        (record { files = F.seen files.old; input = input; out = O.seen out.old })
        (record { files = F.seen files.new; input = input; out = O.seen out.new }) result }
{
    match make_new_file(alloc, plan_name, file_name, files) {
        Err(ending) => ending,
        Ok(new) => match write_all(out, &new) {
            Ok(()) => Ending::Done,
            Err(Failed) => Ending::WriteFault,
        },
    }
}

// The new file, or how the command ends without one.
fn make_new_file<F: Files>(
    alloc: Global,
    plan_name: &str,
    file_name: &str,
    files: &mut F,
) -> Result<Vec<u8>, Ending>
    ensures reads { OnlyReads (F.seen files.old) (F.seen files.new) }
    ensures whole { IfOk result (λ new. (ending : Ending)
        → AreFirstReads (both_reads plan_name.now file_name.now) (F.seen files.old) (F.seen files.new) ending) }
    ensures first { IfErr result (AreFirstReads (both_reads plan_name.now file_name.now)
        (F.seen files.old) (F.seen files.new)) }
    ensures fits { IfOk result (λ new.
        RewriteBrings plan_name.now file_name.now (F.seen files.old) (F.seen files.new) Done) }
    ensures made { IfOk result (λ new.
        RewriteWrites plan_name.now file_name.now (F.seen files.old) (F.seen files.new) new.items) }
    ensures stops { IfErr result IsStop }
    ensures cause { IfErr result (HasReadCause
        (RewriteBrings plan_name.now file_name.now (F.seen files.old) (F.seen files.new))
        (F.seen files.old) (F.seen files.new)) }
{
    match read_plan_and_file(alloc, plan_name, file_name, files) {
        Err(ending) => Err(ending),
        Ok(both) => new_file(alloc, &both.text, &both.file),
    }
}

// The new file of a plan's text and a file, or how the command ends without one.
fn new_file(alloc: Global, text: &[u8], file: &[u8]) -> Result<Vec<u8>, Ending>
    requires { length file.now ≤ 33554432 }
    ensures made { IfOk result (λ new. Makes text.now file.now new.items) }
    ensures stops { IfErr result IsStop }
    ensures cause { IfErr result (λ e. TextRewrites text.now file.now e ⊎ (e ≡ Ending.Memory)) }
{
    let plan = match read_plan(alloc, text) {
        Ok(plan) => plan,
        Err(PlanRefusal::Memory) => return Err(Ending::Memory),
        Err(why) => return Err(Ending::Plan(BadPlan::Text(why))),
    };
    match rewrite(alloc, file, &plan) {
        Ok(new) => Ok(new),
        Err(RewriteRefusal::File(why)) => Err(Ending::File(BadFile::Refused(why))),
        Err(RewriteRefusal::Plan(why)) => Err(Ending::Plan(BadPlan::Misfit(why))),
        Err(RewriteRefusal::Memory) => Err(Ending::Memory),
    }
}
