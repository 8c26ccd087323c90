// The program: it hands the words of its command line, the files, the standard streams and the policies to the top
// call.
#![tactic(auto)]

ghost use Rattle.group_policy.specs.Cuts.{InRange, IsFair};

mod words;

use group_policy::{Cut, Policy, density};
use halo_outside::{RealFiles, RealSink, RealSource};
use std::process::ExitCode;

// The status where there is no memory for the words or the policies.
const MEMORY_STATUS: u8 = 69;

fn main(rt: HostRuntime) -> ExitCode {
    let Ok(words) = words::read_words(&rt) else {
        return ExitCode::from(MEMORY_STATUS);
    };
    let Ok(name) = String::from_str(rt.alloc(), "density") else {
        return ExitCode::from(MEMORY_STATUS);
    };
    let Ok(rule) = Box::new(
        rt.alloc(),
        |cut: Cut|
            requires { InRange cut }
            ensures { IsFair cut result }
        { density(cut) },
    ) else {
        return ExitCode::from(MEMORY_STATUS);
    };
    let policy = Policy::keep(name, rule);
    let mut files = RealFiles::new(&rt);
    let mut input = RealSource::new(rt.stdin());
    let mut out = RealSink::new(rt.stdout());
    let mut note = RealSink::new(rt.stderr());
    ExitCode::from(halo_cli::halo(
        rt.alloc(),
        &words,
        &mut files,
        &mut input,
        &mut out,
        &mut note,
        &[policy],
    ))
}
