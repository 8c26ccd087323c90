// Printers of fields: each writes at the end of a text.
ghost use Rattle.std.specs.Prelude.{◌≡◌, ◌<◌, ◌++◌, OnOk, OnErr};
ghost use Rattle.std.specs.Fmt.{decimal};
ghost use Rattle.text_fields.specs.Writing.{hex_digit, hex8};

use std::alloc::{AllocError, Global};

/// Writes `number` in decimal at the end of `out`, or fails for want of memory and leaves `out` as it was.
pub fn push_decimal(alloc: Global, out: &mut Vec<u8>, number: u64) -> Result<(), AllocError>
    ensures ok { OnOk result (out.new.items ≡ out.old.items ++ decimal number) }
    ensures err { OnErr result (out.new.items ≡ out.old.items) }
{
    let digits = number.to_string(alloc)?;
    out.extend_from_slice(digits.as_bytes())
}

/// The character of a digit below sixteen, in lower case.
pub fn digit_character(digit: u8) -> u8
    requires { digit < 16 }
    ensures { result ≡ hex_digit digit }
{
    if digit < 10 { b'0' + digit } else { 87 + digit }
}

/// The eight hexadecimal digits of `number` in lower case, the highest first.
#[tactic(auto, unfolding(crate::specs::Writing::hex8))]
pub fn hex_digits(number: u32) -> [u8; 8]
    ensures { result ≡ hex8 number }
{
    [
        digit_character((number / 0x1000_0000 % 16) as u8),
        digit_character((number / 0x100_0000 % 16) as u8),
        digit_character((number / 0x10_0000 % 16) as u8),
        digit_character((number / 0x1_0000 % 16) as u8),
        digit_character((number / 0x1000 % 16) as u8),
        digit_character((number / 0x100 % 16) as u8),
        digit_character((number / 0x10 % 16) as u8),
        digit_character((number % 16) as u8),
    ]
}

/// Writes `number` as eight hexadecimal digits at the end of `out`, or fails for want of memory and
/// leaves `out` as it was.
pub fn push_hex(out: &mut Vec<u8>, number: u32) -> Result<(), AllocError>
    ensures ok { OnOk result (out.new.items ≡ out.old.items ++ hex8 number) }
    ensures err { OnErr result (out.new.items ≡ out.old.items) }
{
    out.extend_from_slice(&hex_digits(number))
}
