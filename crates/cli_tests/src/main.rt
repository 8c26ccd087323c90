// Answers, for a table of command lines, what the whole program does, over files, sources and sinks in memory.
// Each line of the file `cases` is a case, or a comment that begins with `#`; each is printed, and what the
// case answers behind it.
#![tactic(auto)]

mod calls;
mod cases;
mod samples;
mod store;

use std::fs;

fn main(rt: HostRuntime) -> anyhow::Result<()> {
    let text = fs::read_to_string(&rt, "cases")?;
    let mut files = Vec::new(rt.alloc());
    for line in text.as_str().lines() {
        print!(rt; "{line}")?;
        if !line.is_empty() && !line.starts_with('#') {
            cases::answer(&rt, line, &mut files)?;
        }
        println!(rt; "")?;
    }
    Ok(())
}
