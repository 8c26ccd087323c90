// Output on its way to a sink.
ghost use Rattle.std.specs.Prelude.{◌≡◌, ◌+◌, ◌-◌, ◌<◌, ◌≤◌, min, [], ◌++◌, length, take, drop, OnOk, OnErr};
ghost use Rattle.halo_outside.specs.Seen.{Appends, AppendsPrefix, Rose, TellsAlike};
ghost use Rattle.machine_run.specs.Output.{Passes};

use crate::traits::Machine;
use halo_outside::{Failed, Sink, write_all};
use std::marker::Model;

/// How many bytes wait before they are written together.
const ROOM: usize = 4096;

/// Bytes that a machine wrote and that are not yet on the sink, at most 4096. Contracts see their list.
#[derive(Drop)]
pub struct Pending {
    bytes: [u8; 4096],
    count: usize,
}

impl Model for Pending {
    ghost use Rattle.std.specs.Prelude.{◌≤◌, ℕ, List, take};

    ghost Value = { List ℕ };

    ghost view = { λ pending. take pending.count pending.bytes };

    ghost invariant = { λ pending. pending.count ≤ 4096 };
}

impl Pending {
    pub fn new() -> Pending
        ensures { result ≡ [] }
    {
        Pending {
            bytes: [0; ROOM],
            count: 0,
        }
    }

    /// Writes all of them to the sink. After `Failed` some of the first were written.
    pub fn flush<O: Sink>(&mut self, out: &mut O) -> Result<(), Failed>
        ensures tells { TellsAlike (O.seen out.old).told (O.seen out.new).told }
        ensures later { (O.seen out.old).faults ≤ (O.seen out.new).faults }
        ensures whole { OnOk result (Appends (O.seen out.old).told (O.seen out.new).told self.old) }
        ensures empty { OnOk result (self.new ≡ []) }
        ensures part { OnErr result
            (AppendsPrefix (O.seen out.old).told (O.seen out.new).told self.old) }
        ensures failed { OnErr result (Rose (O.seen out.old).faults (O.seen out.new).faults) }
    {
        write_all(out, &self.bytes[..self.count])?;
        self.count = 0;
        Ok(())
    }

    /// Makes room for at least one more byte.
    fn make_room<O: Sink>(&mut self, out: &mut O) -> Result<(), Failed>
        ensures tells { TellsAlike (O.seen out.old).told (O.seen out.new).told }
        ensures later { (O.seen out.old).faults ≤ (O.seen out.new).faults }
        ensures room { OnOk result (length self.new < 4096) }
        ensures whole { OnOk result
            (Passes (O.seen out.old).told (O.seen out.new).told self.old self.new []) }
        ensures part { OnErr result
            (AppendsPrefix (O.seen out.old).told (O.seen out.new).told self.old) }
        ensures failed { OnErr result (Rose (O.seen out.old).faults (O.seen out.new).faults) }
    {
        if self.count == ROOM {
            self.flush(out)
        } else {
            Ok(())
        }
    }

    /// Takes as many bytes of the machine's last write, from one on, as there is room for.
    fn take_from<M: Machine>(&mut self, machine: &M, from: u32, len: u32) -> u32
        requires room { length self.old < 4096 }
        requires left { from < len }
        requires len { len ≡ length (M.seen machine.now).written }
        ensures count { result ≡ min (len - from) (4096 - length self.old) }
        ensures taken { self.new ≡ self.old ++ take result (drop from (M.seen machine.now).written) }
    {
        let count = ((len - from) as usize).min(ROOM - self.count);
        machine.copy_output(from, &mut self.bytes[self.count..self.count + count]);
        self.count += count;
        count as u32
    }

    /// Takes the bytes of the machine's last write, and writes when there is no room.
    pub fn accept<M: Machine, O: Sink>(
        &mut self,
        machine: &M,
        len: u32,
        out: &mut O,
    ) -> Result<(), Failed>
        requires { len ≡ length (M.seen machine.now).written }
        ensures tells { TellsAlike (O.seen out.old).told (O.seen out.new).told }
        ensures later { (O.seen out.old).faults ≤ (O.seen out.new).faults }
        ensures whole { OnOk result (Passes (O.seen out.old).told (O.seen out.new).told
            self.old self.new (M.seen machine.now).written) }
        ensures part { OnErr result (AppendsPrefix (O.seen out.old).told (O.seen out.new).told
            (self.old ++ (M.seen machine.now).written)) }
        ensures failed { OnErr result (Rose (O.seen out.old).faults (O.seen out.new).faults) }
    {
        let mut from = 0;
        while from < len {
            self.make_room(out)?;
            from += self.take_from(machine, from, len);
        }
        Ok(())
    }
}
