//! The command line of the program: its words, its commands, its statuses and its notes.
#![tactic(auto)]

ghost use Rattle.std.specs.Prelude.{string_bytes};
ghost use Rattle.halo_words.specs.Grammar.{texts};
ghost use Rattle.halo_cli.specs.Options.{policies_of};
ghost use Rattle.halo_cli.specs.World.{world};
ghost use Rattle.halo_cli.specs.Answers.{Answers};

mod generate;
mod headline;
mod laws;
mod limits;
mod line;
mod note;
mod optimise;
mod options;
mod plan;
mod plan_and_file;
mod profile;
mod profiling;
mod rewrite;
mod run;
mod self_run;
mod show;
mod symbols;

use group_policy::{Cut, Policy, Rule};
use halo_outside::{Files, Sink, Source};
use halo_words::{words_ask_for_one_thing, words_with_a_wrong_one_are_no_line};
pub use headline::{new_files_are_taken_by_run, new_files_do_the_same};
use plan_core::a_text_has_one_answer;
use std::alloc::Global;

/// Runs the program on the words of its command line, without its own name, and gives the status with
/// which it ends.
///
/// `rewrite PLAN FILE` writes the file, changed as the plan says, to `out`. It takes the files that
/// `exec_image` accepts and the plans that fit them. The input isn't read.
///
/// `optimise [OPTION].. FILE` profiles the run of the file as `profile` does, with the program's input from `input`,
/// and writes the file, rewritten by a plan of this profile, to `out`. The options are those of `profile` and of
/// `plan`.
///
/// `run [--steps N] FILE` runs the file, as it is, on the flat machine, with the program's input from
/// `input` and its output to `out`. N is from 0 to 4294967295, and 100000000 where it isn't given. All
/// memory is taken before the machine starts. The file may be any 32-bit ELF executable for RISC-V that
/// `elf_read` reads.
///
/// `symbols [--steps N] PLAN FILE` runs the file under the plan on the symbol machine, with the program's input from
/// `input` and its output to `out`. It takes the files that `exec_image` accepts and the plans that fit them; the plan
/// is read first. Memory for the program's blocks is taken while it runs.
///
/// `profile [OPTION].. FILE` runs the file as `symbols` does under a plan without sites and rows, and writes the text
/// of the run's profile to `out`: the contexts of its grants and the graph of their affinity. What the program writes
/// is dropped. It takes the files that `exec_image` accepts. The options are `--steps N` as of `run`, `--chunks N`,
/// `--log N` and `--fallback N` as of `plan`, and `--distance N`, 0 to 4096, 128: how many bytes may be accessed
/// between two blocks that are near each other.
///
/// `plan [OPTION].. PROFILE` writes the text of a plan of the profile to `out`. The policy makes groups of the
/// profile's contexts, and the plan has the rows and sites that tell them from the other contexts. The input isn't
/// read. The options are these, with what stands where one isn't given:
///
/// - `--chunks N`, 0 to 256, 64: how many chunks the heap's area has.
/// - `--log N`, 0 to 20, 8: a chunk has 2 to the power of N granules of 16 bytes.
/// - `--fallback N`, 0 to 1048576, 65536: how many granules are outside chunks. The area has at most 1048576 in all.
/// - `--tolerance N`, 0 to 150, 50: how many thousandths of its density a group may lose by a context.
/// - `--edge N`, 1 to 17592186044416, 1: the least weight of an edge that counts.
/// - `--policy NAME`, `density`: which of `policies` makes the groups. Of those with one name the first counts.
///
/// `show FILE` writes the summary of a file that `exec_image` accepts to `out`. The input isn't read.
///
/// `gen N` writes the file of `rv_build`'s generated program, with N nodes in each of its lists, to `out`. N is from 1
/// to 30000. No file and no input is read.
///
/// `self N` profiles this program at distance 4 on an empty input, rewrites it by a plan of the profile with the
/// default options, and runs the new file. It writes the end of both runs and the numbers of granted blocks, groups
/// and rows to `out`. No file and no input is read.
///
/// Options stand before, between or behind the operands, each at most once, as `--steps N` or
/// `--steps=N`. No operand and no value is empty or begins with `-`, and a number has no leading zero.
///
/// One line on `note` says how the command ended, unless `rewrite`, `optimise`, `profile`, `plan`, `show`,
/// `gen` or `self` is done. It is tried after a failed `out`, too.
///
/// The statuses, each with its line and when it comes:
///
/// - 0, no line, or of `run` and `symbols` `exit S after N steps`: the command is done; the program exits with status
///   S at step N.
/// - 64, `halo: usage: word K`: the words are no line. K is the place, from 0, of the first wrong word, or the
///   number of words. A policy's name that isn't listed and then an area that is too large are found last: the first
///   at the name, or the number of words where the name is the default, the second at the number of words.
/// - 65, `halo: file: TEXT`: the file is longer than 33554432 bytes or isn't accepted; of `run`, it is longer than
///   34603008 bytes or isn't readable.
/// - 66, `halo: plan: TEXT`: the plan's text is longer than 1048576 bytes or isn't in its grammar, or the plan
///   doesn't fit the file; `halo: profile: TEXT`: the profile's text is longer than 33554432 bytes or isn't in its
///   grammar.
/// - 67, `halo: read failed`: a file is missing or couldn't be read, or the input couldn't be read.
/// - 68, `halo: write failed`: `out` or `note` failed.
/// - 69, `halo: out of memory`: there was no memory.
/// - 70, `halo: still running after N steps`: the program runs longer.
/// - 71, `halo: fault KIND at ADDR after N steps`: the program meets an address fault: F1 an access, F3 a jump,
///   F6 a fetch; of `symbols`, `profile` and `optimise` also F2 a branch, F4 a system call and F5 a heap function.
/// - 72, `halo: illegal at ADDR after N steps`: the program comes to a word that is no instruction to be run.
pub fn halo<F: Files, I: Source, O: Sink, N: Sink>(
    alloc: Global,
    words: &[String],
    files: &mut F,
    input: &mut I,
    out: &mut O,
    note: &mut N,
    policies: &[Policy],
) -> u8
    ensures { Answers (policies_of (λ policy. string_bytes policy.name)
        (λ policy cut answer. ⟦<Rule as Fn(Cut) -> i128>⟧.post policy.rule cut answer) policies.now)
        (texts words.now)
        (world (F.seen files.old) (I.seen input.old) (O.seen out.old) (N.seen note.old))
        (world (F.seen files.new) (I.seen input.new) (O.seen out.new) (N.seen note.new)) result }
{
    words_ask_for_one_thing();
    words_with_a_wrong_one_are_no_line();
    a_text_has_one_answer();
    laws::profiles_come_to_one_ending();
    let ending = line::run_line(alloc, words, policies, files, input, out);
    note::finish(note, ending)
}
