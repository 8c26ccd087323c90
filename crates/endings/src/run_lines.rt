// The lines that say how a run ended.
ghost use Rattle.std.specs.Prelude.{◌≡◌, ◌≤◌, ◌++◌, length, codes, decimal};
ghost use Rattle.text_fields.specs.Writing.{hex8};
ghost use Rattle.endings.specs.Endings.{kind_text};

use crate::parts::{Line, push_address};
use itoa::Buffer;
use machine_spec::FaultKind;

/// The line of a program that exits with a status after so many steps.
pub fn exit_line(status: u8, steps: u32) -> Line
    ensures { result.bytes ≡ codes "exit " ++ decimal status ++ codes " after " ++ decimal steps ++ codes " steps\n" }
{
    let mut line = Line::new();
    line.push_str("exit ");
    line.push_str(Buffer::new().format(status));
    line.push_str(" after ");
    line.push_str(Buffer::new().format(steps));
    line.push_str(" steps\n");
    line
}

/// The line of a fault of the instruction at an address after so many steps.
pub fn fault_line(kind: FaultKind, at: u32, steps: u32) -> Line
    ensures { result.bytes ≡ codes "halo: fault " ++ kind_text kind ++ codes " at " ++ hex8 at ++ codes " after "
        ++ decimal steps ++ codes " steps\n" }
{
    stop_line(fault_front(kind), at, steps)
}

fn fault_front(kind: FaultKind) -> &'static str
    ensures text { result.now ≡ codes "halo: fault " ++ kind_text kind }
    ensures short { length result.now ≤ 20 }
{
    match kind {
        FaultKind::F1 => "halo: fault F1",
        FaultKind::F2 => "halo: fault F2",
        FaultKind::F3 => "halo: fault F3",
        FaultKind::F4 => "halo: fault F4",
        FaultKind::F5 => "halo: fault F5",
        FaultKind::F6 => "halo: fault F6",
    }
}

/// The line of a run that stops for a cause at an address after so many steps.
pub fn stop_line(cause: &str, at: u32, steps: u32) -> Line
    requires { length cause.now ≤ 20 }
    ensures { result.bytes ≡ cause.now ++ codes " at " ++ hex8 at ++ codes " after " ++ decimal steps
        ++ codes " steps\n" }
{
    let mut line = Line::new();
    line.push_str(cause);
    line.push_str(" at ");
    push_address(&mut line, at);
    line.push_str(" after ");
    line.push_str(Buffer::new().format(steps));
    line.push_str(" steps\n");
    line
}
