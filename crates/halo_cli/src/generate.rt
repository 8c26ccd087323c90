// `gen N`: makes the file of the generated program and writes it.
ghost use Rattle.std.specs.Prelude.{◌≡◌, ◌≤◌, List, ℕ, codes};
ghost use Rattle.halo_outside.specs.Seen.{FilesSeen, SourceSeen, SinkSeen};
ghost use Rattle.halo_words.specs.Table.{the_table};
ghost use Rattle.halo_words.specs.Grammar.{AsksFor};
ghost use Rattle.halo_cli.specs.Generate.{gen_entry, nodes_in};
ghost use Rattle.halo_cli.specs.Ends.{EndsOf};

use endings::Ending;
use halo_outside::{Failed, Sink, write_all};
use halo_words::{Values, what_a_line_gives_fits};
use rv_build::generate;
use std::alloc::Global;
use text_fields::number;

/// The most nodes of a list.
const NODES: u64 = 30000;

/// Writes the file of the generated program with as many nodes in each list as the operand says to `out`. No file and
/// no input is read.
pub fn generate_file<O: Sink>(alloc: Global, values: &Values<'_>, out: &mut O) -> Ending
    requires asks { (words : List (List ℕ)) × AsksFor the_table words values.now }
    requires word { values.now.word ≡ codes "gen" }
    ensures { (files : FilesSeen) (input : SourceSeen) → EndsOf gen_entry values.now.given
        (record { files = files; input = input; out = O.seen out.old })
        (record { files = files; input = input; out = O.seen out.new }) result }
{
    what_a_line_gives_fits();
    match generate(alloc, nodes_of(values)) {
        Err(_) => Ending::Memory,
        Ok(file) => match write_all(out, &file) {
            Ok(()) => Ending::Done,
            Err(Failed) => Ending::WriteFault,
        },
    }
}

/// The number in the operand.
pub fn nodes_of(values: &Values<'_>) -> u64
    ensures value { result ≡ nodes_in values.now.given }
    ensures most { result ≤ 30000 }
{
    match number(values.operand(0).as_bytes(), NODES) {
        Some(nodes) => nodes,
        None => 0,
    }
}
