// Answers, for a table of small files, what is read of them, whether they are accepted, what is in them, which
// plans fit them and what is added to them. Each line of the file `cases` is a case, or a comment that begins
// with `#`; each is printed, and a case's answer behind it.
#![tactic(auto)]

mod cases;
mod images;
mod lists;
mod new_files;
mod readers;
mod samples;

use std::fs;

fn main(rt: HostRuntime) -> anyhow::Result<()> {
    let text = fs::read_to_string(&rt, "cases")?;
    for line in text.as_str().lines() {
        if line.is_empty() || line.starts_with('#') {
            println!(rt; "{line}")?;
        } else {
            print!(rt; "{line}: ")?;
            cases::answer(&rt, line)?;
        }
    }
    Ok(())
}
