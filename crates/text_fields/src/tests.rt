// Fields read and written, each once.
use crate::{
    cut, digit_character, digit_value, expect, hex_digits, number, push_decimal, push_hex,
    read_byte, read_hex, read_leading, read_number, read_word, split_digits,
};
use std::test::Fail;

#[test]
fn reads_fields(rt: HostRuntime) -> Result<(), Fail> {
    assert_eq!(rt; number(b"4294967295", 4294967295), Some(4294967295));
    assert_eq!(rt; number(b"007", 4294967295), None);
    let rest = expect(b"row 17 rest", b"row ").ok_or("no front")?;
    assert_eq!(rt; rest, b"17 rest".as_slice());
    let (byte, rest) = read_byte(rest, b' ').ok_or("no byte")?;
    assert_eq!(rt; byte, 17);
    assert_eq!(rt; rest, b"rest".as_slice());
    let (word, rest) = read_word(b"4294967295\n", b'\n').ok_or("no word")?;
    assert_eq!(rt; word, 4294967295);
    assert_eq!(rt; rest.len(), 0);
    let (number, _) = read_number(b"17592186044416 ", b' ', 17592186044416).ok_or("no number")?;
    assert_eq!(rt; number, 17592186044416);
    let (hex, rest) = read_hex(b"89abcdef\n").ok_or("no digits")?;
    assert_eq!(rt; hex, 0x89ab_cdef);
    assert_eq!(rt; rest, b"\n".as_slice());
    assert_eq!(rt; digit_value(b'f'), Some(15));
    let (leading, rest) = read_leading(b"900 00010110", 17592186044416).ok_or("no digits")?;
    assert_eq!(rt; leading, 900);
    assert_eq!(rt; rest, b" 00010110".as_slice());
    Ok(())
}

#[test]
fn takes_texts_apart(rt: HostRuntime) -> Result<(), Fail> {
    let (name, value) = cut(b"steps=100", b'=').ok_or("no parts")?;
    assert_eq!(rt; name, b"steps".as_slice());
    assert_eq!(rt; value, b"100".as_slice());
    let (digits, rest) = split_digits(b"100\nedge");
    assert_eq!(rt; digits, b"100".as_slice());
    assert_eq!(rt; rest, b"\nedge".as_slice());
    Ok(())
}

#[test]
fn writes_fields(rt: HostRuntime) -> Result<(), Fail> {
    assert_eq!(rt; digit_character(15), b'f');
    assert_eq!(rt; hex_digits(0x0001_0110), *b"00010110");
    let mut text = Vec::new(rt.alloc());
    push_decimal(rt.alloc(), &mut text, 18446744073709551615)?;
    push_hex(&mut text, 0x89ab_cdef)?;
    assert_eq!(rt; text.as_slice(), b"1844674407370955161589abcdef".as_slice());
    Ok(())
}
