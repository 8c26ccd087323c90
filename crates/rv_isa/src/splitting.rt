// A distance as the immediates of `auipc` and of the `jalr` or `addi` after it.
ghost use Rattle.std.specs.Prelude.{◌≡◌, ◌+◌, ◌%◌, ◌^◌, ◌<◌};
ghost use Rattle.rv_isa.specs.Encoded.{IsExtended};
ghost use Rattle.rv_isa.specs.Split.{split_of};

/// The immediates that `auipc` and then `jalr` add to the pc to go `distance` bytes, modulo 2^32:
/// a multiple of 4096 and a number from -2048 to 2047.
pub fn split(distance: u32) -> (u32, u32)
    ensures exact { result ≡ split_of distance }
    ensures sum { (result.0 + result.1) % 2 ^ 32 ≡ distance }
    ensures upper { (result.0 < 2 ^ 32) × (result.0 % 2 ^ 12 ≡ 0) }
    ensures lower { IsExtended 12 result.1 }
{
    let upper = distance.wrapping_add(0x800) / 0x1000 * 0x1000;
    (upper, distance.wrapping_sub(upper))
}
