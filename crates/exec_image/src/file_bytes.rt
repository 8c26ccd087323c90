// Bytes of a file.

ghost use Rattle.std.specs.Prelude.{◌≡◌, drop, take};

/// The bytes from an offset on, at most so many: fewer where the file ends before.
#[tactic(auto, using(crate::proofs::Texts::drop_min, crate::proofs::Texts::take_min))]
pub fn bytes_at(file: &[u8], at: u32, len: u32) -> &[u8]
    ensures { result.now ≡ take len (drop at file.now) }
{
    let start = file.len().min(at as usize);
    let rest = &file[start..];
    let end = rest.len().min(len as usize);
    &rest[..end]
}
