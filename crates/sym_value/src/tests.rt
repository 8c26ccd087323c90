// Each row of the two tables on worked values: two living blocks of 16 bytes, 0 and 1, a dead one, 2,
// and an image that ends at 00020000.
use crate::{Live, Value, Whole, apply, decide};
use rv_isa::{Cond, Op};
use std::alloc::{AllocError, Global};
use std::test::Fail;

macro_rules! num {
    ($word:expr) => { Value::Num($word) };
}

macro_rules! ptr {
    ($block:expr, $offset:expr) => { Value::Ptr { block: $block, offset: $offset } };
}

const RET: Value = Value::Ret(0x10004);

const PART: Value = Value::Part {
    of: Whole::Ptr {
        block: 0,
        offset: 2,
    },
    index: 1,
};

fn three_blocks(alloc: Global) -> Result<Live, AllocError> {
    let mut live = Live::new(alloc, 0x20000);
    live.add(16)?;
    live.add(16)?;
    let last = live.add(16)?;
    live.kill(last);
    Ok(live)
}

/// The values of operations, in the table's order; each row first where it fits, then beside it.
const OPERATIONS: [(Op, Value, Value, Value); 62] = [
    (Op::Add, num!(0xffff_ffff), num!(2), num!(1)),
    (Op::Slt, num!(0xffff_ffff), num!(0), num!(1)),
    (Op::Sub, RET, num!(0), RET),
    (Op::Sra, Value::Unset, num!(0), Value::Unset),
    (Op::Sll, Value::Mix(3), num!(0), Value::Mix(3)),
    (Op::Or, PART, num!(0), PART),
    (Op::Xor, ptr!(0, 0x20000), num!(0), ptr!(0, 0x20000)),
    (Op::Add, num!(0), RET, RET),
    (Op::Or, num!(0), Value::Mix(3), Value::Mix(3)),
    (Op::Xor, num!(0), ptr!(0, 1), ptr!(0, 1)),
    (Op::Sub, num!(0), RET, Value::Unset),
    (Op::Add, ptr!(0, 8), num!(0xffff_fff0), ptr!(0, 0xffff_fff8)),
    (Op::Add, num!(4), ptr!(2, 8), ptr!(2, 12)),
    (Op::Sub, ptr!(0, 8), num!(12), ptr!(0, 0xffff_fffc)),
    (Op::Sub, ptr!(0, 2), ptr!(0, 5), num!(0xffff_fffd)),
    (Op::Sub, ptr!(0, 2), ptr!(1, 5), Value::Mix(13)),
    (Op::Sub, ptr!(0, 2), ptr!(1, 16), Value::Unset),
    (Op::Sub, ptr!(0, 2), ptr!(2, 5), Value::Unset),
    (Op::Sub, num!(0), ptr!(0, 3), Value::Mix(13)),
    (Op::Sub, num!(0x1ffff), ptr!(2, 16), Value::Mix(15)),
    (Op::Sub, num!(0x7ff0_0005), ptr!(0, 1), Value::Mix(4)),
    (Op::Sub, num!(0x20000), ptr!(0, 0), Value::Unset),
    (Op::Sub, num!(5), ptr!(0, 17), Value::Unset),
    (Op::Xor, ptr!(2, 9), ptr!(2, 9), num!(0)),
    (Op::Xor, ptr!(2, 9), ptr!(2, 25), Value::Mix(0)),
    (Op::Xor, ptr!(0, 2), ptr!(1, 5), Value::Mix(7)),
    (Op::Xor, ptr!(0, 2), ptr!(2, 5), Value::Unset),
    (Op::Xor, ptr!(2, 16), num!(0x10003), Value::Mix(3)),
    (Op::Xor, num!(0x7ff0_0003), ptr!(0, 1), Value::Mix(2)),
    (Op::Xor, ptr!(0, 1), num!(0x20000), Value::Unset),
    (
        Op::Or,
        ptr!(0, 0xffff_0001),
        ptr!(1, 0x7fff_0002),
        Value::Mix(3),
    ),
    (
        Op::Or,
        ptr!(1, 0x7fff_0002),
        ptr!(0, 0x10010),
        Value::Mix(2),
    ),
    (Op::Or, ptr!(0, 0x10011), ptr!(1, 0x10011), Value::Unset),
    (Op::Or, ptr!(0, 0x7000_0001), num!(4), Value::Mix(5)),
    (Op::Or, num!(0x34), ptr!(0, 1), Value::Mix(5)),
    (Op::Or, Value::Mix(1), num!(0x12), Value::Mix(3)),
    (Op::Or, num!(0x12), Value::Mix(1), Value::Mix(3)),
    (Op::Or, Value::Mix(1), ptr!(0, 2), Value::Mix(3)),
    (Op::Or, ptr!(0, 2), Value::Mix(1), Value::Mix(3)),
    (Op::Or, Value::Mix(1), Value::Mix(8), Value::Mix(9)),
    (Op::Or, RET, num!(1), Value::Unset),
    (Op::And, ptr!(0, 0xff), num!(15), num!(15)),
    (Op::And, num!(3), ptr!(2, 6), num!(2)),
    (Op::And, ptr!(0, 6), num!(16), Value::Unset),
    (Op::And, ptr!(0, 0x1f), num!(0xffff_fff0), ptr!(0, 0x10)),
    (Op::And, num!(0xffff_fffe), ptr!(0, 0x1f), ptr!(0, 0x1e)),
    (Op::And, ptr!(0, 0x1f), num!(0xffff_ffef), Value::Unset),
    (Op::And, Value::Mix(7), num!(3), num!(3)),
    (Op::And, num!(8), Value::Mix(7), num!(0)),
    (Op::And, Value::Mix(7), num!(16), Value::Unset),
    (Op::And, PART, num!(255), PART),
    (Op::And, num!(255), PART, PART),
    (Op::And, PART, num!(254), Value::Unset),
    (Op::Sltu, num!(0), Value::Mix(3), num!(1)),
    (Op::Sltu, ptr!(0, 8), num!(0x1ffff), num!(0)),
    (Op::Slt, ptr!(0, 0xffff_fffc), ptr!(0, 4), num!(1)),
    (Op::Slt, ptr!(0, 0), num!(0), Value::Unset),
    (Op::Sltu, PART, num!(0), Value::Unset),
    (Op::Add, ptr!(0, 0), ptr!(0, 0), Value::Unset),
    (Op::Sll, num!(0), ptr!(0, 0), Value::Unset),
    (Op::Mul, ptr!(0, 0), num!(0), Value::Unset),
    (Op::Add, Value::Unset, num!(1), Value::Unset),
];

/// The answers of conditions, in the table's order; each row first where it fits, then beside it.
const CONDITIONS: [(Cond, Value, Value, Option<bool>); 37] = [
    (Cond::Ge, num!(0xffff_ffff), num!(0), Some(false)),
    (Cond::Eq, ptr!(2, 5), ptr!(2, 5), Some(true)),
    (Cond::Ne, ptr!(2, 5), ptr!(2, 6), Some(true)),
    (Cond::Eq, ptr!(0, 2), ptr!(1, 15), Some(false)),
    (Cond::Eq, ptr!(0, 2), ptr!(1, 16), None),
    (Cond::Ne, ptr!(0, 2), ptr!(2, 2), None),
    (Cond::Eq, ptr!(2, 16), num!(0x1ffff), Some(false)),
    (Cond::Ne, num!(0x7ff0_0000), ptr!(0, 0), Some(true)),
    (Cond::Eq, ptr!(0, 0), num!(0x20000), None),
    (Cond::Eq, ptr!(0, 17), num!(1), None),
    (Cond::Eq, ptr!(0, 2), num!(0), Some(false)),
    (Cond::Eq, num!(0), ptr!(0, 0x10010), Some(false)),
    (Cond::Eq, ptr!(0, 0xffff_0000), num!(0), Some(false)),
    (Cond::Eq, ptr!(0, 0x10011), num!(0), None),
    (Cond::Ne, Value::Mix(0), num!(0), Some(true)),
    (Cond::Eq, num!(0), Value::Mix(0), Some(false)),
    (Cond::Eq, Value::Mix(0), num!(1), None),
    (
        Cond::Ltu,
        ptr!(0, 0xffff_0000),
        ptr!(0, 0x10010),
        Some(true),
    ),
    (Cond::Geu, ptr!(0, 4), ptr!(0, 0xffff_fffc), Some(true)),
    (Cond::Ltu, ptr!(0, 4), ptr!(0, 0x10011), None),
    (Cond::Ltu, ptr!(0, 4), ptr!(1, 4), None),
    (Cond::Ltu, ptr!(2, 16), num!(0x1ffff), Some(false)),
    (Cond::Ltu, num!(0x1ffff), ptr!(0, 0), Some(true)),
    (Cond::Ltu, num!(0x20000), ptr!(0, 0), None),
    (Cond::Ltu, ptr!(0, 16), num!(0x7ff0_0000), Some(true)),
    (Cond::Ltu, ptr!(0, 16), num!(0x7fef_ffff), None),
    (Cond::Ltu, num!(0xffff_ffff), ptr!(2, 0), Some(false)),
    (Cond::Ltu, ptr!(0, 17), num!(1), Some(false)),
    (Cond::Ltu, ptr!(0, 17), num!(2), None),
    (Cond::Geu, Value::Mix(1), num!(1), Some(true)),
    (Cond::Ltu, num!(0), ptr!(0, 0xffff_ffff), Some(true)),
    (Cond::Ltu, num!(0), Value::Mix(8), Some(true)),
    (Cond::Ltu, num!(1), Value::Mix(8), None),
    (Cond::Lt, ptr!(0, 0xffff_fffc), ptr!(0, 4), Some(true)),
    (Cond::Ge, ptr!(0, 4), ptr!(0, 4), Some(true)),
    (Cond::Lt, num!(0), ptr!(0, 4), None),
    (Cond::Eq, RET, RET, None),
];

#[test]
fn operations_are_the_table(rt: HostRuntime) -> Result<(), Fail> {
    let live = three_blocks(rt.alloc())?;
    for (op, a, b, value) in &OPERATIONS {
        assert_eq!(rt; apply(*op, *a, *b, &live), *value, "{op:?} {a:?} {b:?}");
    }
    Ok(())
}

#[test]
fn conditions_are_the_table(rt: HostRuntime) -> Result<(), Fail> {
    let live = three_blocks(rt.alloc())?;
    for (cond, a, b, answer) in &CONDITIONS {
        assert_eq!(rt;
            decide(*cond, *a, *b, &live),
            *answer,
            "{cond:?} {a:?} {b:?}"
        );
    }
    Ok(())
}

#[test]
fn blocks_are_named_in_order(rt: HostRuntime) -> Result<(), Fail> {
    let mut live = Live::new(rt.alloc(), 0);
    assert_eq!(rt; live.add(32)?, 0);
    assert_eq!(rt; live.add(48)?, 1);
    live.kill(0);
    assert_eq!(rt; live.add(64)?, 2);
    assert!(rt; !live.lives(0));
    assert!(rt; live.lives(1));
    assert_eq!(rt; live.capacity(0), 32);
    Ok(())
}
