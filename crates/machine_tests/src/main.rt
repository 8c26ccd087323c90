// Answers, for a table of small programs, what accesses to their memory, on both machines, and runs on the
// flat machine come to.
// Each line of the file `cases` is a case, or a comment that begins with `#`; each is printed, and a case's
// answer behind it.
#![tactic(auto)]

mod cases;
mod machines;
mod memories;
mod samples;
mod symbols;
mod words;

use std::fs;

fn main(rt: HostRuntime) -> anyhow::Result<()> {
    let text = fs::read_to_string(&rt, "cases")?;
    let mut symbols = symbols::start(rt.alloc())?;
    for line in text.as_str().lines() {
        if line.is_empty() || line.starts_with('#') {
            println!(rt; "{line}")?;
        } else {
            println!(rt;
                "{line}: {}",
                cases::answer(rt.alloc(), &mut symbols, line)?
            )?;
        }
    }
    Ok(())
}
