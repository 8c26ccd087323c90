// The lines that say what is wrong with a profile.
ghost use Rattle.std.specs.Prelude.{◌≡◌, ◌++◌, codes};
ghost use Rattle.endings.specs.Texts.{profile_fault_text};

use crate::endings::BadProfile;
use crate::parts::{Line, number_line, text_line};
use profile_text::ProfileRefusal;

/// The line of a profile that is refused.
pub fn profile_line(why: BadProfile) -> Line
    ensures { result.bytes ≡ codes "halo: profile: " ++ profile_fault_text why ++ codes "\n" }
{
    match why {
        BadProfile::TooLong => text_line("halo: profile: ", "too long"),
        BadProfile::Text(ProfileRefusal::Line(n)) => number_line("halo: profile: line ", n, "\n"),
        BadProfile::Text(ProfileRefusal::Memory) => text_line("halo: profile: ", "out of memory"),
    }
}
