//! The outside of a program: files, sources and sinks of bytes, as traits, in memory and over std.
#![tactic(auto)]

mod bytes_left;
mod faults;
mod mem;
mod real;
mod schedule;
mod sure;
mod traits;
mod writing;

pub use faults::{Failed, FileFault};
pub use mem::{MemFiles, MemSink, MemSource, Named};
pub use real::{RealFiles, RealSink, RealSource};
pub use sure::{SureSink, SureSource};
pub use traits::{Files, Sink, Source};
pub use writing::write_all;

#[cfg(test)]
mod tests;
