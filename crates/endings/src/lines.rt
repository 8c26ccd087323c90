// The status of an ending, and the line that says on note how a command ended.
ghost use Rattle.std.specs.Prelude.{◌≡◌};
ghost use Rattle.endings.specs.Endings.{line_of, status_of};

use crate::endings::Ending;
use crate::file_lines::file_line;
use crate::parts::{Line, number_line, text_line};
use crate::plan_lines::plan_line;
use crate::profile_lines::profile_line;
use crate::run_lines::{exit_line, fault_line, stop_line};

/// The status with which the program ends after an ending: 0, or 64 to 72. A failed write to note comes
/// after this and has the status of [`Ending::WriteFault`].
pub fn status(ending: Ending) -> u8
    ensures { result ≡ status_of ending }
{
    match ending {
        Ending::Done | Ending::Exited { .. } => 0,
        Ending::Usage(_) => 64,
        Ending::File(_) => 65,
        Ending::Plan(_) | Ending::Profile(_) => 66,
        Ending::ReadFault => 67,
        Ending::WriteFault => 68,
        Ending::Memory => 69,
        Ending::StillRunning { .. } => 70,
        Ending::Fault { .. } => 71,
        Ending::Illegal { .. } => 72,
    }
}

/// The line, with its newline, that says on note how a command ended; empty for [`Ending::Done`]. It
/// takes no memory.
pub fn line(ending: Ending) -> Line
    ensures { result.bytes ≡ line_of ending }
{
    match ending {
        Ending::Done => Line::new(),
        Ending::Exited { status, steps } => exit_line(status, steps),
        Ending::Usage(place) => number_line("halo: usage: word ", place, "\n"),
        Ending::File(why) => file_line(why),
        Ending::Plan(why) => plan_line(why),
        Ending::Profile(why) => profile_line(why),
        Ending::ReadFault => text_line("halo: ", "read failed"),
        Ending::WriteFault => text_line("halo: ", "write failed"),
        Ending::Memory => text_line("halo: ", "out of memory"),
        Ending::StillRunning { steps } => {
            number_line("halo: still running after ", u64::from(steps), " steps\n")
        }
        Ending::Fault { kind, at, steps } => fault_line(kind, at, steps),
        Ending::Illegal { at, steps } => stop_line("halo: illegal", at, steps),
    }
}
