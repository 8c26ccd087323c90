// Worked fragments, with the words that an assembler gives.
use super::*;
use rv_isa::{Cond, Op};
use std::alloc::{AllocError, Global};
use std::test::Fail;

/// a0 from 5 down to 0.
fn countdown(alloc: Global) -> Result<Frag, AllocError> {
    let step = compute(Op::Add, 10, 10, 11);
    let turns = repeat(alloc, Cond::Ne, 10, 0, step)?;
    let rest = sequence(alloc, set(11, 0xffff_ffff), turns)?;
    sequence(alloc, set(10, 5), rest)
}

/// Two choices, a loop without a body, and a store.
fn choices(alloc: Global) -> Result<Frag, AllocError> {
    let mut parts = Vec::new(alloc);
    parts.push(load(10, 5, 0xffff_fffc))?;
    parts.push(compute(Op::Mulhu, 6, 10, 11))?;
    let taken = chain(alloc, parts)?;
    let first = choice(alloc, Cond::Eq, 5, 0, taken, store(31, 10, 2047))?;
    let second = choice(
        alloc,
        Cond::Ge,
        12,
        13,
        set(17, 0x1234_5678),
        set(30, 0x8000_0800),
    )?;
    let turns = repeat(alloc, Cond::Ltu, 10, 11, Frag::Skip)?;
    let mut all = Vec::new(alloc);
    all.push(first)?;
    all.push(second)?;
    all.push(turns)?;
    all.push(store(29, 0, 0xffff_f800))?;
    chain(alloc, all)
}

/// So many fragments of two words.
fn sets(alloc: Global, count: u32) -> Result<Frag, AllocError> {
    let mut parts = Vec::new(alloc);
    for value in 0..count {
        parts.push(set(10, value))?;
    }
    chain(alloc, parts)
}

/// The words of a formed fragment, and how many there are to be; none of another.
fn compiled(alloc: Global, f: &Frag) -> Result<(Vec<u32>, u32), AllocError> {
    if is_formed(f) {
        Ok((compile(alloc, f)?, words_of(f)))
    } else {
        Ok((Vec::new(alloc), 0))
    }
}

#[test]
fn a_countdown_has_eight_words(rt: HostRuntime) -> Result<(), Fail> {
    let f = countdown(rt.alloc())?;
    let (words, count) = compiled(rt.alloc(), &f)?;
    let wanted = [
        0x00000537, 0x00550513, 0x000005b7, 0xfff58593, 0x00051463, 0x00c0006f, 0x00b50533,
        0xff5ff06f,
    ];
    assert_eq!(rt; count, 8);
    assert_eq!(rt; words.as_slice(), &wanted[..]);
    Ok(())
}

#[test]
fn each_form_has_its_words(rt: HostRuntime) -> Result<(), Fail> {
    let f = choices(rt.alloc())?;
    let (words, count) = compiled(rt.alloc(), &f)?;
    let wanted = [
        0x00028463, 0x0100006f, 0xffc2a503, 0x02b53333, 0x0080006f, 0x7eafafa3, 0x00d65463,
        0x0100006f, 0x123458b7, 0x67888893, 0x00c0006f, 0x80001f37, 0x800f0f13, 0x00b56463,
        0x0080006f, 0xff9ff06f, 0x800ea023,
    ];
    assert_eq!(rt; count, 17);
    assert_eq!(rt; words.as_slice(), &wanted[..]);
    Ok(())
}

/// Operations of a register and an immediate.
fn immediates(alloc: Global) -> Result<Frag, AllocError> {
    let mut all = Vec::new(alloc);
    all.push(immediate(Op::Add, 31, 0, 0xffff_ffff))?;
    all.push(immediate(Op::Xor, 13, 5, 0xffff_ffff))?;
    all.push(immediate(Op::And, 30, 13, 2047))?;
    all.push(immediate(Op::Sll, 5, 6, 31))?;
    all.push(immediate(Op::Sra, 7, 10, 4))?;
    all.push(immediate(Op::Sltu, 28, 0, 0xffff_f800))?;
    chain(alloc, all)
}

#[test]
fn immediates_have_their_words(rt: HostRuntime) -> Result<(), Fail> {
    let f = immediates(rt.alloc())?;
    let (words, count) = compiled(rt.alloc(), &f)?;
    let wanted = [
        0xfff00f93, 0xfff2c693, 0x7ff6ff13, 0x01f31293, 0x40455393, 0x80003e13,
    ];
    assert_eq!(rt; count, 6);
    assert_eq!(rt; words.as_slice(), &wanted[..]);
    Ok(())
}

#[test]
fn immediates_have_their_ranges(rt: HostRuntime) -> Result<(), Fail> {
    for (op, imm, formed) in [
        (Op::Add, 2047, true),
        (Op::And, 2048, false),
        (Op::Or, 0xffff_f800, true),
        (Op::Slt, 0xffff_f7ff, false),
        (Op::Srl, 31, true),
        (Op::Sll, 32, false),
        (Op::Sub, 1, false),
        (Op::Mul, 1, false),
    ] {
        assert_eq!(rt; is_formed(&immediate(op, 5, 0, imm)), formed, "{imm:08x}");
    }
    assert!(rt; !is_formed(&immediate(Op::Add, 0, 5, 1)));
    assert!(rt; !is_formed(&immediate(Op::Add, 5, 2, 1)));
    Ok(())
}

#[test]
fn registers_and_offsets_have_their_ranges(rt: HostRuntime) -> Result<(), Fail> {
    for (register, formed) in [
        (0, false),
        (1, false),
        (4, false),
        (5, true),
        (8, false),
        (17, true),
    ] {
        assert_eq!(rt; is_formed(&set(register, 1)), formed, "x{register}");
    }
    for (offset, formed) in [
        (2047, true),
        (2048, false),
        (0xffff_f800, true),
        (0xffff_f7ff, false),
    ] {
        assert_eq!(rt; is_formed(&load(10, 0, offset)), formed, "{offset:08x}");
        assert_eq!(rt; is_formed(&store(0, 31, offset)), formed, "{offset:08x}");
    }
    assert!(rt; !is_formed(&compute(Op::Add, 10, 4, 10)));
    assert!(rt; !is_formed(&compute(Op::Add, 10, 10, 2)));
    Ok(())
}

#[test]
fn code_has_at_most_4096_words(rt: HostRuntime) -> Result<(), Fail> {
    let most = sets(rt.alloc(), 2048)?;
    assert!(rt; is_formed(&most));
    let more = sets(rt.alloc(), 2049)?;
    assert!(rt; !is_formed(&more));
    Ok(())
}
