// Readers of the front of a text: each gives the value that stands there and the rest of the text.
ghost use Rattle.std.specs.Prelude.{◌≡◌, ◌<◌, ◌≤◌, ◌^◌, IfSome};
ghost use Rattle.text_fields.specs.Reading.{Finds, after_front, cut_at, number_of, number_at, digits_at, leading_at};
ghost use Rattle.text_fields.specs.Reading.{hex_value, hex_at};

/// The rest of `bytes` behind `front`, or none where `bytes` doesn't begin with it.
#[tactic(auto, unfolding(crate::specs::Reading::after_front))]
pub fn expect<'a>(bytes: &'a [u8], front: &[u8]) -> Option<&'a [u8]>
    ensures { Finds (λ rest. rest.now) result (after_front front.now bytes.now) }
{
    bytes.strip_prefix(front)
}

/// The parts of `bytes` before and behind the first byte `end`, or none where `bytes` has no such byte.
pub fn cut(bytes: &[u8], end: u8) -> Option<(&[u8], &[u8])>
    ensures { Finds (λ parts. (parts.0.now, parts.1.now)) result (cut_at end bytes.now) }
{
    for at in 0..bytes.len() {
        if bytes[at] == end {
            return Some((&bytes[..at], &bytes[at + 1..]));
        }
    }
    None
}

/// The number that `word` writes in decimal: at most `max`, without a leading zero; none where it
/// writes no such number.
#[tactic(auto, unfolding(crate::specs::Reading::number_of))]
pub fn number(word: &[u8], max: u64) -> Option<u64>
    requires { max < 2 ^ 59 }
    ensures value { Finds (λ n. n) result (number_of max word.now) }
    ensures range { IfSome result (λ n. n ≤ max) }
{
    if word.is_empty() || (word.len() > 1 && word[0] == b'0') {
        return None;
    }
    let mut n: u64 = 0;
    for digit in word {
        if !digit.is_ascii_digit() {
            return None;
        }
        n = 10 * n + u64::from(digit - b'0');
        if n > max {
            return None;
        }
    }
    Some(n)
}

/// The decimal number at the front of `bytes` up to the byte `end`, and the rest behind `end`.
///
/// None where there is no such number: it has digits alone, at least one, no leading zero, and is
/// at most `max`.
#[tactic(auto, unfolding(crate::specs::Reading::number_at))]
pub fn read_number(bytes: &[u8], end: u8, max: u64) -> Option<(u64, &[u8])>
    requires { max < 2 ^ 59 }
    ensures value { Finds (λ x. (x.0, x.1.now)) result (number_at end max bytes.now) }
    ensures range { IfSome result (λ x. x.0 ≤ max) }
{
    let (word, rest) = cut(bytes, end)?;
    let n = number(word, max)?;
    Some((n, rest))
}

/// As [`read_number`], for a number of 8 bits.
pub fn read_byte(bytes: &[u8], end: u8) -> Option<(u8, &[u8])>
    ensures { Finds (λ x. (x.0, x.1.now)) result (number_at end 255 bytes.now) }
{
    let (n, rest) = read_number(bytes, end, 255)?;
    Some((n as u8, rest))
}

/// As [`read_number`], for a number of 32 bits.
pub fn read_word(bytes: &[u8], end: u8) -> Option<(u32, &[u8])>
    ensures { Finds (λ x. (x.0, x.1.now)) result (number_at end 4294967295 bytes.now) }
{
    let (n, rest) = read_number(bytes, end, 4294967295)?;
    Some((n as u32, rest))
}

/// The decimal digits at the front of `bytes`, and the rest from the first byte on that is none.
pub fn split_digits(bytes: &[u8]) -> (&[u8], &[u8])
    ensures { (result.0.now, result.1.now) ≡ digits_at bytes.now }
{
    for at in 0..bytes.len() {
        if !bytes[at].is_ascii_digit() {
            return (&bytes[..at], &bytes[at..]);
        }
    }
    (bytes, &[])
}

/// The decimal number that the digits at the front of `bytes` write, and the rest behind all of them.
///
/// None where there is no such number: it has at least one digit, no leading zero, and is at most `max`.
#[tactic(auto, unfolding(crate::specs::Reading::leading_at))]
pub fn read_leading(bytes: &[u8], max: u64) -> Option<(u64, &[u8])>
    requires { max < 2 ^ 59 }
    ensures value { Finds (λ x. (x.0, x.1.now)) result (leading_at max bytes.now) }
    ensures range { IfSome result (λ x. x.0 ≤ max) }
{
    let (word, rest) = split_digits(bytes);
    let n = number(word, max)?;
    Some((n, rest))
}

/// The value of a hexadecimal digit in lower case, or none where `c` is no such digit.
pub fn digit_value(c: u8) -> Option<u8>
    ensures value { result ≡ hex_value c }
    ensures range { IfSome result (λ d. d < 16) }
{
    match c {
        b'0'..=b'9' => Some(c - b'0'),
        b'a'..=b'f' => Some(c - b'a' + 10),
        _ => None,
    }
}

/// The number of eight hexadecimal digits in lower case at the front of `bytes`, and the rest.
#[tactic(auto, unfolding(crate::specs::Reading::hex_at))]
pub fn read_hex(bytes: &[u8]) -> Option<(u32, &[u8])>
    ensures { Finds (λ x. (x.0, x.1.now)) result (hex_at bytes.now) }
{
    let [a, b, c, d, e, f, g, h, rest @ ..] = bytes else {
        return None;
    };
    let a7 = u32::from(digit_value(*a)?);
    let a6 = u32::from(digit_value(*b)?);
    let a5 = u32::from(digit_value(*c)?);
    let a4 = u32::from(digit_value(*d)?);
    let a3 = u32::from(digit_value(*e)?);
    let a2 = u32::from(digit_value(*f)?);
    let a1 = u32::from(digit_value(*g)?);
    let a0 = u32::from(digit_value(*h)?);
    let high = a7 * 0x1000_0000 + a6 * 0x100_0000 + a5 * 0x10_0000 + a4 * 0x1_0000;
    Some((high + a3 * 0x1000 + a2 * 0x100 + a1 * 0x10 + a0, rest))
}
