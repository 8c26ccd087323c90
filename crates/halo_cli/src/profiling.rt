// Profiles the run of a file under an area alone.
ghost use Rattle.std.specs.Prelude.{◌≡◌, ◌≤◌, length, IfOk, IfErr};
ghost use Rattle.halo_outside.specs.Seen.{FilesSeen, SinkSeen};
ghost use Rattle.plan_core.specs.Plan.{granules};
ghost use Rattle.profile_text.specs.Profile.{IsProfile};
ghost use Rattle.exec_image.specs.Images.{IsAccepted};
ghost use Rattle.plan_making.specs.Plans.{AreNearSites};
ghost use Rattle.halo_words.specs.Grammar.{operand_in};
ghost use Rattle.halo_cli.specs.Options.{area_in};
ghost use Rattle.halo_cli.specs.Reads.{AreFirstReads};
ghost use Rattle.halo_cli.specs.Runs.{steps_in};
ghost use Rattle.halo_cli.specs.Profiling.{AcceptsFile, FileStops, ProfilingCause, ProfilingStops, RunProfiled};
ghost use Rattle.halo_cli.specs.Profiling.{distance_in, ending_of_profile, file_reads};
ghost use Rattle.halo_cli.specs.World.{OnlyDraws, OnlyReads};

use crate::limits::FILE_LIMIT;
use crate::options::{area_of, number_of};
use crate::run::steps_of;
use endings::{BadFile, Ending};
use exec_image::{FileRefusal, accept};
use halo_outside::{FileFault, Files, Source};
use halo_words::Values;
use heap_trace::{ProfileEnd, Profiled, profile_run};
use optimiser::contexts_of_runs_are_near_sites;
use plan_core::Area;
use std::alloc::Global;

/// A file, and the profile of its run.
#[derive(Drop)]
pub struct ProfiledFile {
    pub file: Vec<u8>,
    pub profiled: Profiled,
}

/// The operand, a file, and the profile of its run on this input, by the area, the distance and the steps of the
/// options; or how the command ends without it.
pub fn profile_operand<F: Files, I: Source>(
    alloc: Global,
    values: &Values<'_>,
    files: &mut F,
    input: &mut I,
) -> Result<ProfiledFile, Ending>
    requires { granules (area_in values.now.given) ≤ 1048576 }
    ensures reads { OnlyReads (F.seen files.old) (F.seen files.new) }
    ensures draws { OnlyDraws (I.seen input.old) (I.seen input.new) }
    ensures whole { IfOk result (λ p. (ending : Ending)
        → AreFirstReads (file_reads (operand_in values.now.given 0)) (F.seen files.old) (F.seen files.new) ending) }
    ensures first { IfErr result (AreFirstReads (file_reads (operand_in values.now.given 0))
        (F.seen files.old) (F.seen files.new)) }
    ensures short { IfOk result (λ p. length p.file.items ≤ 33554432) }
    ensures accepted { IfOk result (λ p. IsAccepted p.file.items) }
    ensures accepts { IfOk result (λ p. (out out' : SinkSeen) → AcceptsFile values.now.given
        (record { files = F.seen files.old; input = I.seen input.old; out = out })
        (record { files = F.seen files.new; input = I.seen input.new; out = out' }) p.file.items) }
    ensures profile { IfOk result (λ p. IsProfile p.profiled.profile) }
    ensures near { IfOk result (λ p. AreNearSites p.file.items p.profiled.profile.contexts) }
    ensures ran { IfOk result (λ p. (out out' : SinkSeen)
        → RunProfiled p.file.items (area_in values.now.given) (distance_in values.now.given) (steps_in values.now.given)
        (record { files = F.seen files.old; input = I.seen input.old; out = out })
        (record { files = F.seen files.new; input = I.seen input.new; out = out' }) p.profiled) }
    ensures stops { IfErr result (λ e. (out : SinkSeen) → ProfilingStops values.now.given
        (record { files = F.seen files.old; input = I.seen input.old; out = out })
        (record { files = F.seen files.new; input = I.seen input.new; out = out }) e) }
    ensures cause { IfErr result (λ e. (out : SinkSeen) → ProfilingCause values.now.given
        (record { files = F.seen files.old; input = I.seen input.old; out = out })
        (record { files = F.seen files.new; input = I.seen input.new; out = out }) e) }
{
    let file = match files.read(alloc, values.operand(0), FILE_LIMIT) {
        Ok(file) => file,
        Err(FileFault::Failed) => return Err(Ending::ReadFault),
        Err(FileFault::TooLong) => return Err(Ending::File(BadFile::TooLong)),
        Err(FileFault::Memory) => return Err(Ending::Memory),
    };
    let area = area_of(values);
    match profile_of(
        alloc,
        &file,
        area,
        distance_of(values),
        steps_of(values),
        input,
    ) {
        Ok(profiled) => Ok(ProfiledFile { file, profiled }),
        Err(ending) => Err(ending),
    }
}

/// The number in the value of `--distance`.
fn distance_of(values: &Values<'_>) -> u32
    ensures value { result ≡ distance_in values.now.given }
    ensures most { result ≤ 4096 }
{
    number_of(values, "distance", 4096) as u32
}

/// The profile of the run of a file on this input under an area alone, for at most so many steps; or how the command
/// ends without it. What the program writes is dropped.
pub fn profile_of<I: Source>(
    alloc: Global,
    file: &[u8],
    area: Area,
    distance: u32,
    steps: u32,
    input: &mut I,
) -> Result<Profiled, Ending>
    requires short { length file.now ≤ 33554432 }
    requires chunks { area.chunks ≤ 256 }
    requires log_chunk { area.log_chunk ≤ 20 }
    requires area { granules area ≤ 1048576 }
    requires distance { distance ≤ 4096 }
    ensures draws { OnlyDraws (I.seen input.old) (I.seen input.new) }
    ensures accepted { IfOk result (λ p. IsAccepted file.now) }
    ensures profile { IfOk result (λ p. IsProfile p.profile) }
    ensures near { IfOk result (λ p. AreNearSites file.now p.profile.contexts) }
    ensures ran { IfOk result (λ p. (files files' : FilesSeen) (out out' : SinkSeen)
        → RunProfiled file.now area distance steps
        (record { files = files; input = I.seen input.old; out = out })
        (record { files = files'; input = I.seen input.new; out = out' }) p) }
    ensures stops { IfErr result (λ e. (files files' : FilesSeen) (out out' : SinkSeen)
        → FileStops file.now area steps
        (record { files = files; input = I.seen input.old; out = out })
        (record { files = files'; input = I.seen input.new; out = out' }) e) }
{
    contexts_of_runs_are_near_sites();
    let image = match accept(alloc, file) {
        Ok(image) => image,
        Err(FileRefusal::Memory) => return Err(Ending::Memory),
        Err(why) => return Err(Ending::File(BadFile::Refused(why))),
    };
    match profile_run(alloc, &image, area, distance, steps, input) {
        Ok(profiled) => Ok(profiled),
        Err(end) => Err(ending_of(end, steps)),
    }
}

// How the command ends after a run of at most so many steps that gave no profile.
fn ending_of(end: ProfileEnd, steps: u32) -> Ending
    ensures { result ≡ ending_of_profile end steps }
{
    match end {
        ProfileEnd::Illegal { at, steps } => Ending::Illegal { at, steps },
        ProfileEnd::Fault { kind, at, steps } => Ending::Fault { kind, at, steps },
        ProfileEnd::Steps => Ending::StillRunning { steps },
        ProfileEnd::ReadFault => Ending::ReadFault,
        ProfileEnd::Memory => Ending::Memory,
    }
}
