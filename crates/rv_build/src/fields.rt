// Numbers at the end of a list of bytes, little endian (gABI, "Data Encoding").
ghost use Rattle.std.specs.Prelude.{◌≡◌, ◌+◌, ◌≤◌, ◌++◌, length, replicate, OnOk};
ghost use Rattle.elf_spec.specs.Fields.{word_bytes};
ghost use Rattle.rv_build.specs.RecordBytes.{half_bytes};

use std::alloc::AllocError;

/// Adds the two bytes of a number.
#[tactic(auto, unfolding(crate::specs::RecordBytes::half_bytes))]
pub fn push_half(out: &mut Vec<u8>, number: u16) -> Result<(), AllocError>
    ensures { OnOk result (out.new.items ≡ out.old.items ++ half_bytes number) }
{
    out.extend_from_slice(&number.to_le_bytes())?;
    Ok(())
}

/// Adds the four bytes of a number.
#[tactic(auto, unfolding(elf_spec::specs::Fields::word_bytes))]
pub fn push_word(out: &mut Vec<u8>, number: u32) -> Result<(), AllocError>
    ensures { OnOk result (out.new.items ≡ out.old.items ++ word_bytes number) }
{
    out.extend_from_slice(&number.to_le_bytes())?;
    Ok(())
}

/// Adds zero bytes.
pub fn push_zeros(out: &mut Vec<u8>, count: usize) -> Result<(), AllocError>
    requires { count ≤ 4096 }
    ensures { OnOk result (out.new.items ≡ out.old.items ++ replicate count 0) }
{
    out.resize(out.len() + count, 0)?;
    Ok(())
}
