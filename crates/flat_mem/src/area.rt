// The areas of memory: which addresses they have and what may be done there, as flags beside each byte.

ghost use Rattle.std.specs.Prelude.{◌≡◌, ◌<◌, Some, replicate};
ghost use Rattle.machine_spec.specs.Widths.{number_of, size_of};
ghost use Rattle.flat_mem.specs.Areas.{flag_of, rights_of};

use rv_isa::Width;

/// What is done with a byte of memory.
#[derive(Clone, Copy, Debug)]
pub enum Access {
    /// It is loaded, which every byte of memory may be.
    Load,
    Store,
    Fetch,
}

/// A range of addresses.
#[derive(Clone, Copy, Debug)]
pub struct Area {
    pub start: u32,
    pub size: u32,
    pub writable: bool,
    pub executable: bool,
}

impl Area {
    /// The flags of the accesses that its bytes allow.
    pub fn rights(&self) -> u8
        ensures { result ≡ rights_of (Some self.now) }
    {
        let store = if self.writable { 2 } else { 0 };
        let fetch = if self.executable { 4 } else { 0 };
        1 + store + fetch
    }
}

/// The flag of an access.
#[inline(always)]
fn flag(access: Access) -> u32
    ensures is { result ≡ flag_of access }
    ensures small { result < 5 }
{
    match access {
        Access::Load => 1,
        Access::Store => 2,
        Access::Fetch => 4,
    }
}

/// The flags of an access, one for each byte of a number.
#[inline(always)]
pub fn flags(access: Access, width: Width) -> u32
    ensures { result ≡ number_of (replicate (size_of width) (flag_of access)) }
{
    let once = flag(access);
    match width {
        Width::Byte | Width::ByteU => once,
        Width::Half | Width::HalfU => once * 0x101,
        Width::Word => once * 0x0101_0101,
    }
}
