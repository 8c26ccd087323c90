// How many granules an area and its parts have, and where chunks begin.
ghost use Rattle.std.specs.Prelude.{◌≡◌, ◌<◌, ◌≤◌};
ghost use Rattle.plan_core.specs.Plan.{granules};
ghost use Rattle.place_spec.specs.Layout.{chunk_size, chunk_front};

use plan_core::Area;

/// How many granules an area has.
pub fn granules_of(area: Area) -> u32
    requires log_chunk { area.log_chunk ≤ 20 }
    requires granules { granules area ≤ 1048576 }
    ensures { result ≡ granules area }
{
    area.fallback + area.chunks * granules_of_chunk(area)
}

/// How many granules a chunk has.
pub fn granules_of_chunk(area: Area) -> u32
    requires { area.log_chunk ≤ 20 }
    ensures { result ≡ chunk_size area }
{
    1 << area.log_chunk
}

/// The first granule of a chunk.
pub fn front_of_chunk(area: Area, number: usize) -> u32
    requires log_chunk { area.log_chunk ≤ 20 }
    requires granules { granules area ≤ 1048576 }
    requires number { number < area.chunks }
    ensures { result ≡ chunk_front area number }
{
    area.fallback + number as u32 * granules_of_chunk(area)
}
