// The segment of the heap's tables and its area.
ghost use Rattle.std.specs.Prelude.{◌≡◌, ℕ, ◌-◌, ◌≤◌};
ghost use Rattle.plan_core.specs.Plan.{granules};
ghost use Rattle.heap_spec.specs.Places.{area_end};
ghost use Rattle.heap_spec.specs.Tables.{first_tables};
ghost use Rattle.new_file_spec.specs.Rewritten.{data_segment};

use bitflags::Flags;
use elf_read::SegmentFlags;
use elf_spec::{ByteList, NewSegment};
use plan_core::Area;

/// The flags of a segment of data.
fn data_flags() -> u32
    ensures { result ≡ 6 }
{
    SegmentFlags::READ.union(SegmentFlags::WRITE).bits()
}

/// The bytes of the tables and the area, wherever they begin.
fn heap_size(area: Area) -> u32
    requires chunk { area.log_chunk ≤ 20 }
    requires chunks { area.chunks ≤ 256 }
    requires few { granules area ≤ 1048576 }
    ensures { (at : ℕ) → result ≡ area_end area at - at }
{
    let granules = area.fallback + (area.chunks << area.log_chunk);
    let tables = 128 + 16 * area.chunks + 8 * granules;
    (tables + 15) / 16 * 16 + 16 * granules
}

/// The segment of the tables with their first contents, and of the area behind them.
pub fn data_segment(area: Area, data_at: u32, tables: ByteList) -> NewSegment
    requires chunk { area.log_chunk ≤ 20 }
    requires chunks { area.chunks ≤ 256 }
    requires few { granules area ≤ 1048576 }
    requires tables { tables ≡ first_tables area }
    ensures { result ≡ data_segment area data_at }
{
    NewSegment {
        vaddr: data_at,
        flags: data_flags(),
        mem_size: heap_size(area),
        bytes: tables,
    }
}
