// The parts of the address space that are plain, and which of them can be stored to.
ghost use Rattle.std.specs.Prelude.{◌≡◌, ◌+◌, ◌^◌, ◌<◌, ◌&&◌, nat_le, true};
ghost use Rattle.std.specs.List.{list_any};
ghost use Rattle.machine_spec.specs.Memory.{all_from};
ghost use Rattle.sym_memory.specs.Parts.{allows, gives, gives_all, allowed};

/// What is done with a plain byte.
#[derive(Clone, Copy, Debug)]
pub enum Access {
    Load,
    Store,
}

/// Plain addresses from `start` to before `end`.
#[derive(Clone, Copy, Debug)]
pub struct PlainPart {
    pub start: usize,
    pub end: usize,
    pub writable: bool,
}

impl PlainPart {
    #[inline(always)]
    fn allows(&self, access: Access) -> bool
        ensures { result ≡ allows access self.now }
    {
        match access {
            Access::Load => true,
            Access::Store => self.writable,
        }
    }

    /// Whether it has an address and allows the access.
    fn gives(&self, access: Access, addr: usize) -> bool
        ensures { result ≡ gives access addr self.now }
    {
        self.allows(access) && (self.start <= addr && addr < self.end)
    }

    /// Whether it has `size` addresses from one on and allows the access.
    #[inline(always)]
    fn gives_all(&self, access: Access, addr: usize, size: usize) -> bool
        requires { addr + size < 2 ^ 63 }
        ensures { result ≡ gives_all access addr size self.now }
    {
        self.allows(access) && (self.start <= addr && addr + size <= self.end)
    }
}

/// Whether an address allows an access.
pub fn is_allowed(parts: &[PlainPart], access: Access, addr: usize) -> bool
    ensures { result ≡ allowed access parts.now addr }
{
    parts.iter().any(|part| part.gives(access, addr))
}

/// Whether one part has `size` addresses from one on and allows the access.
#[inline(always)]
fn is_in_one(parts: &[PlainPart], access: Access, addr: usize, size: usize) -> bool
    requires { addr + size < 2 ^ 63 }
    ensures { result ≡ list_any (gives_all access addr size) parts.now }
{
    parts.iter().any(|part| part.gives_all(access, addr, size))
}

/// Whether each of `size` addresses from one on allows an access, one after the other.
fn is_each_allowed(parts: &[PlainPart], access: Access, addr: usize, size: usize) -> bool
    requires { addr + size < 2 ^ 63 }
    ensures { result ≡ all_from (allowed access parts.now) addr size }
{
    for i in 0..size {
        if !is_allowed(parts, access, addr + i) {
            return false;
        }
    }
    true
}

/// Whether each of `size` addresses from one on allows an access.
#[inline(always)]
#[tactic(auto, using(crate::proofs::PartLaws::one_gives_all))]
pub fn are_allowed(parts: &[PlainPart], access: Access, addr: usize, size: usize) -> bool
    requires { addr + size < 2 ^ 63 }
    ensures { result ≡ all_from (allowed access parts.now) addr size }
{
    if is_in_one(parts, access, addr, size) {
        true
    } else {
        is_each_allowed(parts, access, addr, size)
    }
}
