// `show FILE`: reads the file, accepts it and writes its summary.
ghost use Rattle.std.specs.Prelude.{◌≡◌, ◌⊎◌, ◌<◌, ◌^◌, length, codes, IfOk, IfErr};
ghost use Rattle.halo_outside.specs.Seen.{FilesSeen, SourceSeen, SinkSeen};
ghost use Rattle.exec_image.specs.Images.{IsAccepted};
ghost use Rattle.image_summary.specs.Summary.{IsSummary};
ghost use Rattle.endings.specs.declared.endings.Ending.TheVariants.{Done};
ghost use Rattle.halo_words.specs.Grammar.{Given, operand_in};
ghost use Rattle.halo_cli.specs.Reads.{AreFirstReads, HasReadCause};
ghost use Rattle.halo_cli.specs.Show.{ChecksCome, ShowBrings, ShowWrites, show_reads};
ghost use Rattle.halo_cli.specs.Writing.{IsStop};
ghost use Rattle.halo_cli.specs.World.{OnlyReads};
ghost use Rattle.halo_cli.specs.Ends.{Ends};

use crate::limits::FILE_LIMIT;
use endings::{BadFile, Ending};
use exec_image::{FileRefusal, accept};
use halo_outside::{Failed, FileFault, Files, Sink, write_all};
use halo_words::Values;
use image_summary::summary;
use std::alloc::Global;

/// Writes the summary of the operand, a file, to `out`. No input is read.
pub fn show_file<F: Files, O: Sink>(
    alloc: Global,
    values: &Values<'_>,
    files: &mut F,
    out: &mut O,
) -> Ending
    ensures { (input : SourceSeen) → Ends (record { word = codes "show"; given = values.now.given })
        (record { files = F.seen files.old; input = input; out = O.seen out.old })
        (record { files = F.seen files.new; input = input; out = O.seen out.new }) result }
{
    write_summary(alloc, values.operand(0), files, out)
}

// Writes the summary of the file of this name.
fn write_summary<F: Files, O: Sink>(alloc: Global, name: &str, files: &mut F, out: &mut O) -> Ending
    ensures { (given : Given) (input : SourceSeen) → operand_in given 0 ≡ name.now
        → Ends (record { word = codes "show"; given = given })
        (record { files = F.seen files.old; input = input; out = O.seen out.old })
        (record { files = F.seen files.new; input = input; out = O.seen out.new }) result }
{
    match make_summary(alloc, name, files) {
        Err(ending) => ending,
        Ok(text) => match write_all(out, &text) {
            Ok(()) => Ending::Done,
            Err(Failed) => Ending::WriteFault,
        },
    }
}

// The summary, or how the command ends without one.
fn make_summary<F: Files>(alloc: Global, name: &str, files: &mut F) -> Result<Vec<u8>, Ending>
    ensures reads { OnlyReads (F.seen files.old) (F.seen files.new) }
    ensures whole { IfOk result (λ text. (ending : Ending)
        → AreFirstReads (show_reads name.now) (F.seen files.old) (F.seen files.new) ending) }
    ensures first { IfErr result (AreFirstReads (show_reads name.now) (F.seen files.old) (F.seen files.new)) }
    ensures fits { IfOk result (λ text. ShowBrings name.now (F.seen files.old) (F.seen files.new) Done) }
    ensures made { IfOk result (λ text.
        ShowWrites name.now (F.seen files.old) (F.seen files.new) text.items) }
    ensures stops { IfErr result IsStop }
    ensures cause { IfErr result (HasReadCause
        (ShowBrings name.now (F.seen files.old) (F.seen files.new)) (F.seen files.old) (F.seen files.new)) }
{
    let file = match files.read(alloc, name, FILE_LIMIT) {
        Ok(file) => file,
        Err(FileFault::Failed) => return Err(Ending::ReadFault),
        Err(FileFault::TooLong) => return Err(Ending::File(BadFile::TooLong)),
        Err(FileFault::Memory) => return Err(Ending::Memory),
    };
    summary_of(alloc, &file)
}

// The summary of a file, or how the command ends without one.
fn summary_of(alloc: Global, file: &[u8]) -> Result<Vec<u8>, Ending>
    requires { length file.now < 2 ^ 32 }
    ensures made { IfOk result (λ text. IsAccepted file.now × IsSummary file.now text.items) }
    ensures stops { IfErr result IsStop }
    ensures cause { IfErr result (λ e. ChecksCome file.now e ⊎ (e ≡ Ending.Memory)) }
{
    let image = match accept(alloc, file) {
        Ok(image) => image,
        Err(FileRefusal::Memory) => return Err(Ending::Memory),
        Err(why) => return Err(Ending::File(BadFile::Refused(why))),
    };
    match summary(alloc, &image) {
        Ok(text) => Ok(text),
        Err(_) => Err(Ending::Memory),
    }
}
