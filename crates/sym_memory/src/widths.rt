// How many bytes loads and stores move, and at which addresses and offsets they may.
ghost use Rattle.std.specs.Prelude.{◌≡◌, ◌≤◌};
ghost use Rattle.machine_spec.specs.Widths.{size_of};
ghost use Rattle.sym_cells.specs.Memory.{is_aligned};

use rv_isa::Width;

/// How many bytes a load or a store moves.
#[inline(always)]
pub fn size_of(width: Width) -> usize
    ensures is { result ≡ size_of width }
    ensures small { result ≤ 4 }
{
    match width {
        Width::Byte | Width::ByteU => 1,
        Width::Half | Width::HalfU => 2,
        Width::Word => 4,
    }
}

#[inline(always)]
pub fn is_aligned(width: Width, offset: u32) -> bool
    ensures { result ≡ is_aligned width offset }
{
    offset as usize % size_of(width) == 0
}
