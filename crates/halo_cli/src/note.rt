// The line on note that says how a command ended.
ghost use Rattle.halo_outside.specs.Seen.{SinkSeen};
ghost use Rattle.halo_cli.specs.Ends.{IsFinished};

use endings::{Ending, line, status};
use halo_outside::{Failed, Sink, write_all};

/// Says on note how the command ended, where that has a line, and gives the status: that of the
/// ending, or of a failed write where note failed.
pub fn finish<N: Sink>(note: &mut N, ending: Ending) -> u8
    ensures { IsFinished ending (N.seen note.old) (N.seen note.new) result }
{
    if ending == Ending::Done {
        return status(ending);
    }
    match write_all(note, line(ending).as_str().as_bytes()) {
        Ok(()) => status(ending),
        Err(Failed) => status(Ending::WriteFault),
    }
}
