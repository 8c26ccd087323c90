// Writing all bytes of a text to a sink.
ghost use Rattle.std.specs.Prelude.{◌≤◌, OnOk, OnErr};
ghost use Rattle.halo_outside.specs.Seen.{TellsAlike, Appends, AppendsPrefix, Rose};

use crate::{Failed, Sink};

/// Appends all of `bytes` to the sink, piece by piece. After `Failed` some of the first bytes were
/// appended.
pub fn write_all<S: Sink>(sink: &mut S, bytes: &[u8]) -> Result<(), Failed>
    ensures tells { TellsAlike (S.seen sink.old).told (S.seen sink.new).told }
    ensures later { (S.seen sink.old).faults ≤ (S.seen sink.new).faults }
    ensures whole { OnOk result (Appends (S.seen sink.old).told (S.seen sink.new).told bytes.now) }
    ensures part { OnErr result
        (AppendsPrefix (S.seen sink.old).told (S.seen sink.new).told bytes.now) }
    ensures failed { OnErr result (Rose (S.seen sink.old).faults (S.seen sink.new).faults) }
{
    let mut at = 0;
    while at < bytes.len() {
        at += sink.write(&bytes[at..])?;
    }
    Ok(())
}
