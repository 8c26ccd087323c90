// The flag bits of segments and sections (gABI, "Program Header", "Section Header").

ghost use Rattle.std.specs.Prelude.{⊤, [], ◌∷◌, codes};

use bitflags::{Flag, Flags, bitflag_items};

/// The permissions of a segment (`p_flags`).
#[derive(Clone, Copy, PartialEq, Eq, Debug)]
pub struct SegmentFlags(u32);

bitflag_items! {
    impl SegmentFlags: u32 {
        const EXECUTE = 1;
        const WRITE = 2;
        const READ = 4;
    }
}

impl Flags for SegmentFlags {
    type Bits = u32;

    ghost exact = { ⊤ };

    ghost table = { (codes "EXECUTE", 1) ∷ (codes "WRITE", 2) ∷ (codes "READ", 4) ∷ [] };

    ghost set_of = { λ f. f.0 };

    fn flags<'a>() -> &'a [Flag<SegmentFlags>] {
        SegmentFlags::FLAGS
    }

    fn bits(&self) -> u32 {
        self.0
    }

    fn from_bits_retain(bits: u32) -> SegmentFlags {
        SegmentFlags(bits)
    }
}

/// The attributes of a section (`sh_flags`).
#[derive(Clone, Copy, PartialEq, Eq, Debug)]
pub struct SectionFlags(u32);

bitflag_items! {
    impl SectionFlags: u32 {
        const WRITE = 1;
        const ALLOC = 2;
        const EXECINSTR = 4;
    }
}

impl Flags for SectionFlags {
    type Bits = u32;

    ghost exact = { ⊤ };

    ghost table = { (codes "WRITE", 1) ∷ (codes "ALLOC", 2) ∷ (codes "EXECINSTR", 4) ∷ [] };

    ghost set_of = { λ f. f.0 };

    fn flags<'a>() -> &'a [Flag<SectionFlags>] {
        SectionFlags::FLAGS
    }

    fn bits(&self) -> u32 {
        self.0
    }

    fn from_bits_retain(bits: u32) -> SectionFlags {
        SectionFlags(bits)
    }
}

/// The flags of a file (`e_flags`; psABI, "File Header").
#[derive(Clone, Copy, PartialEq, Eq, Debug)]
pub struct FileFlags(u32);

bitflag_items! {
    impl FileFlags: u32 {
        const RVC = 1;
        const FLOAT_ABI = 6;
        const RVE = 8;
        const REFUSED = 15;
    }
}

impl Flags for FileFlags {
    type Bits = u32;

    ghost exact = { ⊤ };

    ghost table = { (codes "RVC", 1) ∷ (codes "FLOAT_ABI", 6) ∷ (codes "RVE", 8) ∷ (codes "REFUSED", 15) ∷ [] };

    ghost set_of = { λ f. f.0 };

    fn flags<'a>() -> &'a [Flag<FileFlags>] {
        FileFlags::FLAGS
    }

    fn bits(&self) -> u32 {
        self.0
    }

    fn from_bits_retain(bits: u32) -> FileFlags {
        FileFlags(bits)
    }
}
