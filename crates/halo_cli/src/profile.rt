// `profile [OPTION].. FILE`: profiles the file's run and writes the profile's text.
ghost use Rattle.std.specs.Prelude.{◌≡◌, ◌≤◌, codes};
ghost use Rattle.plan_core.specs.Plan.{granules};
ghost use Rattle.profile_text.specs.Profile.{IsProfile};
ghost use Rattle.halo_cli.specs.Options.{area_in};
ghost use Rattle.halo_cli.specs.Plan.{IsTextOf};
ghost use Rattle.halo_cli.specs.World.{OnlyWrites};
ghost use Rattle.halo_cli.specs.Writing.{WritesOrLacks};
ghost use Rattle.halo_cli.specs.Ends.{Ends};

use crate::profiling::profile_operand;
use endings::Ending;
use halo_outside::{Failed, Files, Sink, Source, write_all};
use halo_words::Values;
use plan_core::Profile;
use profile_text::write_profile;
use std::alloc::Global;

/// Writes the text of the profile of the operand, a file, to `out`: of its run on this input under the options' area
/// alone. What the program writes is dropped.
pub fn profile_file<F: Files, I: Source, O: Sink>(
    alloc: Global,
    values: &Values<'_>,
    files: &mut F,
    input: &mut I,
    out: &mut O,
) -> Ending
    requires { granules (area_in values.now.given) ≤ 1048576 }
    ensures { Ends (record { word = codes "profile"; given = values.now.given })
        (record { files = F.seen files.old; input = I.seen input.old; out = O.seen out.old })
        (record { files = F.seen files.new; input = I.seen input.new; out = O.seen out.new }) result }
{
    match profile_operand(alloc, values, files, input) {
        Err(ending) => ending,
        Ok(profiled) => write_text(alloc, &profiled.profiled.profile, out),
    }
}

// Writes the text of a profile.
fn write_text<O: Sink>(alloc: Global, profile: &Profile, out: &mut O) -> Ending
    requires { IsProfile profile.now }
    ensures writes { OnlyWrites (O.seen out.old) (O.seen out.new) }
    ensures wrote { WritesOrLacks (λ text. IsTextOf text profile.now) (O.seen out.old) (O.seen out.new) result }
{
    let text = match write_profile(alloc, profile) {
        Ok(text) => text,
        Err(_) => return Ending::Memory,
    };
    match write_all(out, &text) {
        Ok(()) => Ending::Done,
        Err(Failed) => Ending::WriteFault,
    }
}
