// Reads a plan and a file, in this order.
ghost use Rattle.std.specs.Prelude.{◌≤◌, length, IfOk, IfErr};
ghost use Rattle.halo_cli.specs.Reads.{AreFirstReads, HasReadCause};
ghost use Rattle.halo_cli.specs.PlanAndFile.{AreRead, BothBring, both_reads};
ghost use Rattle.halo_cli.specs.Writing.{IsStop};
ghost use Rattle.halo_cli.specs.World.{OnlyReads};

use crate::limits::{FILE_LIMIT, PLAN_LIMIT};
use endings::{BadFile, BadPlan, Ending};
use halo_outside::{FileFault, Files};
use std::alloc::Global;

/// The text of a plan and the bytes of a file.
#[derive(Drop)]
pub struct PlanAndFile {
    pub text: Vec<u8>,
    pub file: Vec<u8>,
}

/// The plan of the first name and the file of the second, or how a command ends that lacks one of them.
pub fn read_plan_and_file<F: Files>(
    alloc: Global,
    plan_name: &str,
    file_name: &str,
    files: &mut F,
) -> Result<PlanAndFile, Ending>
    ensures reads { OnlyReads (F.seen files.old) (F.seen files.new) }
    ensures whole { IfOk result (λ both. (ending : Ending)
        → AreFirstReads (both_reads plan_name.now file_name.now) (F.seen files.old) (F.seen files.new) ending) }
    ensures first { IfErr result (AreFirstReads (both_reads plan_name.now file_name.now)
        (F.seen files.old) (F.seen files.new)) }
    ensures read { IfOk result (λ both. AreRead plan_name.now file_name.now (F.seen files.old) (F.seen files.new)
        both.text.items both.file.items) }
    ensures within { IfOk result (λ both. length both.file.items ≤ 33554432) }
    ensures stops { IfErr result IsStop }
    ensures cause { IfErr result (HasReadCause
        (BothBring (λ text file ending. ⊥) plan_name.now file_name.now (F.seen files.old) (F.seen files.new))
        (F.seen files.old) (F.seen files.new)) }
{
    let text = match files.read(alloc, plan_name, PLAN_LIMIT) {
        Ok(text) => text,
        Err(FileFault::Failed) => return Err(Ending::ReadFault),
        Err(FileFault::TooLong) => return Err(Ending::Plan(BadPlan::TooLong)),
        Err(FileFault::Memory) => return Err(Ending::Memory),
    };
    let file = match files.read(alloc, file_name, FILE_LIMIT) {
        Ok(file) => file,
        Err(FileFault::Failed) => return Err(Ending::ReadFault),
        Err(FileFault::TooLong) => return Err(Ending::File(BadFile::TooLong)),
        Err(FileFault::Memory) => return Err(Ending::Memory),
    };
    Ok(PlanAndFile { text, file })
}
