// The flat machine at work on small programs: step by step, and in runs.
ghost use Rattle.std.specs.Prelude.{◌≡◌, None, IfOk};

use crate::samples::file;
use elf_read::read_elf;
use flat_machine::{Flat, Stepped, run_flat, start};
use flat_mem::load;
use halo_outside::{MemSink, MemSource};
use machine_spec::Ending;
use std::alloc::{AllocError, Global};
use std::str;

/// What a run is given beside its program: its steps, its input, and of the source and the sink how many bytes
/// they pass at a call, and the numbers of the calls that fail.
#[derive(Debug, Drop)]
pub struct Outside {
    pub steps: u32,
    pub input: Vec<u8>,
    pub most_in: usize,
    pub fails_in: Vec<u64>,
    pub most_out: usize,
    pub fails_out: Vec<u64>,
}

/// The machine that is about to run the code; the only failures here are those of memory.
fn machine(alloc: Global, code: &[u32]) -> Result<Flat, AllocError>
    ensures goes { IfOk result (λ machine. machine.waits ≡ None) }
    ensures runs { IfOk result (λ machine. machine.machine.ending ≡ Ending.Running) }
{
    let file = file(alloc, code)?;
    if file.len() > 4096 {
        return Err(AllocError);
    }
    match read_elf(alloc, &file) {
        Ok(elf) => Ok(start(load(alloc, &elf, &file)?, elf.entry)),
        Err(_) => Err(AllocError),
    }
}

/// How a run ends, and what it wrote: the number of its bytes, and the bytes where they are fewer than 16.
pub fn run(alloc: Global, code: &[u32], outside: Outside) -> anyhow::Result<String> {
    let mut machine = machine(alloc, code)?;
    let mut source = MemSource::new(outside.input, outside.most_in, outside.fails_in);
    let mut sink = MemSink::new(alloc, 8192, outside.most_out, outside.fails_out)?;
    let end = run_flat(&mut machine, outside.steps, &mut source, &mut sink);
    let out = sink.bytes();
    if out.len() < 16 {
        let text = str::from_utf8(out)?;
        return Ok(format!(in alloc; "{end:?}, {} bytes `{text}`", out.len())?);
    }
    Ok(format!(in alloc; "{end:?}, {} bytes", out.len())?)
}

/// The program counter, sp, a0 and s0 before a step.
fn registers(alloc: Global, machine: &Flat) -> Result<String, AllocError> {
    let (pc, sp, a0, s0) = (
        machine.pc(),
        machine.register(2),
        machine.register(10),
        machine.register(8),
    );
    format!(in alloc; "\npc {pc:08x} sp {sp:08x} a0 {a0:08x} s0 {s0:08x}")
}

/// What a step did, and the byte that it wrote; a read gets what it asks for from the front of the input.
fn done(alloc: Global, machine: &mut Flat, input: &[u8]) -> Result<String, AllocError>
    requires { machine.old.waits ≡ None }
    ensures { machine.new.waits ≡ None }
{
    let stepped = machine.step();
    if let Stepped::Wrote { len: 1 } = stepped {
        return format!(in alloc; "Wrote {:?}", machine.output_byte(0) as char);
    }
    if let Stepped::WantsInput { len } = stepped {
        let count = input.len().min(len as usize);
        machine.feed(&input[..count]);
        machine.fed();
    }
    format!(in alloc; "{stepped:?}")
}

/// Each of the first steps of a program: the registers before it, and what it did.
pub fn steps(alloc: Global, code: &[u32], count: u32, input: &[u8]) -> anyhow::Result<String> {
    let mut machine = machine(alloc, code)?;
    let mut text = String::new(alloc);
    for turn in 0..count {
        text.push_str(registers(alloc, &machine)?.as_str())?;
        text.push_str(" ")?;
        text.push_str(done(alloc, &mut machine, input)?.as_str())?;
    }
    Ok(text)
}
