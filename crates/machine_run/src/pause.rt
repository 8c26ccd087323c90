// Where a machine stands between two steps.
ghost use Rattle.std.specs.Prelude.{◌≡◌};
ghost use Rattle.machine_run.specs.Steps.{paused_by};

use crate::Stepped;

/// Where a machine stands between two steps.
#[derive(Clone, Copy, Debug)]
pub enum Pause {
    /// Its last step asked nothing of the outside.
    Nothing,
    /// Its last step wrote the `len` bytes of a system call's buffer.
    Output { len: u32 },
    /// It stands at a read of at most `len` bytes, of which the first `fed` are there.
    Input { len: u32, fed: u32 },
}

/// Where a machine stands after a step.
pub fn pause_of(stepped: Stepped) -> Pause
    ensures { result ≡ paused_by stepped }
{
    match stepped {
        Stepped::Wrote { len } => Pause::Output { len },
        Stepped::WantsInput { len } => Pause::Input { len, fed: 0 },
        _ => Pause::Nothing,
    }
}
