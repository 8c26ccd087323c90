// Where the parts of the file begin.
ghost use Rattle.std.specs.Prelude.{◌≡◌, ◌+◌, ◌≤◌, ◌*◌, length, All};
ghost use Rattle.rv_build.specs.Built.{offsets_of, symbol_names};
ghost use Rattle.rv_build.specs.Parts.{AreSmall};

use crate::labels::Label;

/// File offsets of the parts behind the code, and the size of the strings without the bytes that fill
/// them up to a multiple of 4.
#[derive(Clone, Copy, Debug)]
pub struct Offsets {
    pub relocs: usize,
    pub symbols: usize,
    pub strings: usize,
    pub strings_size: usize,
    pub sections: usize,
}

/// The bytes of the symbols' names, each with its zero byte.
pub fn names_size(symbols: &[Label]) -> usize
    requires few { length symbols.now ≤ 1000 }
    requires short { All (λ s. length s.name ≤ 64) symbols.now }
    ensures is { result ≡ length (symbol_names symbols.now) }
    ensures low { result ≤ 65000 }
{
    let mut size = 0;
    for symbol in symbols {
        size += symbol.name.as_slice().len() + 1;
    }
    size
}
