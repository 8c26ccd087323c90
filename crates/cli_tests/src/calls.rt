// A call of the program on a line of words, and what it answers.
ghost use Rattle.group_policy.specs.Cuts.{InRange, IsFair};

use group_policy::{Cut, Policy, density};
use halo_cli::halo;
use halo_outside::{MemFiles, MemSink, MemSource, Named};
use std::alloc::{AllocError, Global};

/// What is outside of a call: its input; how many bytes one write to out or to note takes; and the numbers of
/// the reads of files and of the writes that fail.
#[derive(Debug, Drop)]
pub struct Outside {
    pub input: Vec<u8>,
    pub most: usize,
    pub note_most: usize,
    pub read_fails: Vec<u64>,
    pub fails: Vec<u64>,
    pub note_fails: Vec<u64>,
}

/// The status of a call, and what it wrote.
#[derive(Drop)]
pub struct Answer {
    pub status: u8,
    pub out: MemSink,
    pub note: MemSink,
}

/// The answer to a line of words over these files and what is outside. The one policy is density.
pub fn call(
    alloc: Global,
    words: &[String],
    files: Vec<Named>,
    outside: Outside,
) -> Result<Answer, AllocError> {
    let mut files = MemFiles::new(files, outside.read_fails);
    let mut input = MemSource::new(outside.input, 2, Vec::new(alloc));
    let mut out = MemSink::new(alloc, 65536, outside.most, outside.fails)?;
    let mut note = MemSink::new(alloc, 65536, outside.note_most, outside.note_fails)?;
    let policy = Policy::keep(
        String::from_str(alloc, "density")?,
        Box::new(
            alloc,
            |cut: Cut|
                requires { InRange cut }
                ensures { IsFair cut result }
            { density(cut) },
        )?,
    );
    let status = halo(
        alloc,
        words,
        &mut files,
        &mut input,
        &mut out,
        &mut note,
        &[policy],
    );
    Ok(Answer { status, out, note })
}
