// The directory: the page of the buffers in which the bytes of each page of 4096 addresses stand. Page 0 is
// that of the addresses outside memory.

ghost use Rattle.std.specs.Prelude.{◌≡◌, ◌⊎◌, ◌+◌, ◌-◌, ◌/◌, ◌%◌, ◌<◌, ◌≤◌, ◌^◌, ℕ, length, min, slice_index};
ghost use Rattle.flat_mem.specs.Areas.{page_at, place, IsDirectory};

/// How many bytes a page has.
pub const PAGE_SIZE: usize = 4096;

/// How many bytes a page has, as a number whose proofs don't count it.
pub fn page_size() -> usize
    ensures { result ≡ 4096 }
{
    PAGE_SIZE
}

/// How many pages of addresses there are.
pub fn directory_size() -> usize
    ensures { result ≡ 1048576 }
{
    1048576
}

/// Where the byte at an address stands.
#[inline(always)]
pub fn place_in(directory: &[u32], addr: u32) -> usize
    requires { length directory.now ≡ 1048576 }
    ensures { result ≡ place directory.now addr }
{
    directory[(addr / 4096) as usize] as usize * PAGE_SIZE + (addr % 4096) as usize
}

/// How many of `most` bytes from an address on are in its page.
pub fn count_in_page(addr: u32, most: usize) -> usize
    ensures { result ≡ min (4096 - addr % 4096) most }
{
    let left = PAGE_SIZE - (addr % 4096) as usize;
    if left < most { left } else { most }
}

/// Gives a page, the next one, to each page of addresses that meets a range and has none yet. The result is how
/// many pages there are then.
pub fn give_pages(directory: &mut [u32], start: u32, size: u32, pages: u32) -> u32
    requires directs { IsDirectory directory.old pages }
    requires size { 0 < size }
    requires end { start + size ≤ 2 ^ 32 }
    requires few { pages ≤ 2 ^ 31 }
    ensures directs { IsDirectory directory.new result }
    ensures more { (pages ≤ result) × (result ≤ pages + size / 4096 + 2) }
    ensures kept { (n : ℕ) → 0 < slice_index directory.old n
        → slice_index directory.new n ≡ slice_index directory.old n }
    ensures fresh { (n : ℕ) → slice_index directory.old n ≡ 0
        → (slice_index directory.new n ≡ 0) ⊎ (pages ≤ slice_index directory.new n) }
    ensures there { (a : ℕ) → start ≤ a → a < start + size → 0 < page_at directory.new a }
{
    let last = (start + (size - 1)) / 4096;
    let mut given = pages;
    let mut page = start / 4096;
    while page <= last {
        if directory[page as usize] == 0 {
            directory[page as usize] = given;
            given += 1;
        }
        page += 1;
    }
    given
}
