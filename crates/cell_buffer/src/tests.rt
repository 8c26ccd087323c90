// Worked loads and stores of each kind of value.
use crate::CellBuffer;
use rv_isa::Width;
use std::test::Fail;
use sym_value::{Value, Whole};

const POINTER: Value = Value::Ptr {
    block: 0,
    offset: 0x10,
};

macro_rules! part {
    ($index:expr) => {
        Value::Part { of: Whole::Ptr { block: 0, offset: 0x10 }, index: $index }
    };
}

// The word of a cell with a pointer after a store into it.
macro_rules! gives {
    ($rt:expr, $buffer:expr, $width:ident, $at:expr, $value:expr, $word:expr) => {
        $buffer.store(Width::Word, 4, POINTER);
        $buffer.store(Width::$width, $at, $value);
        assert_eq!($rt; $buffer.load(Width::Word, 4), $word);
    };
}

// A byte copied by a load and a store.
macro_rules! copy {
    ($rt:expr, $buffer:expr, $from:expr, $to:expr, $value:expr) => {
        let value = $buffer.load(Width::ByteU, $from);
        assert_eq!($rt; value, $value);
        $buffer.store(Width::Byte, $to, value);
    };
}

#[test]
fn a_cell_gives_what_was_stored(rt: HostRuntime) -> Result<(), Fail> {
    let mut buffer = CellBuffer::zeros(rt.alloc(), 2)?;
    gives!(
        rt,
        buffer,
        Word,
        4,
        Value::Num(0x8899_aabb),
        Value::Num(0x8899_aabb)
    );
    gives!(
        rt,
        buffer,
        Word,
        4,
        Value::Ret(0x10004),
        Value::Ret(0x10004)
    );
    gives!(rt, buffer, Word, 4, Value::Mix(5), Value::Mix(5));
    gives!(rt, buffer, Word, 4, part!(0), Value::Unset);
    gives!(rt, buffer, Byte, 7, part!(3), POINTER);
    gives!(rt, buffer, Byte, 7, part!(0), Value::Unset);
    gives!(rt, buffer, Byte, 5, Value::Num(0), Value::Unset);
    gives!(rt, buffer, Half, 4, part!(0), Value::Unset);
    Ok(())
}

#[test]
fn narrow_loads_extend_known_bytes(rt: HostRuntime) -> Result<(), Fail> {
    let mut buffer = CellBuffer::zeros(rt.alloc(), 2)?;
    assert_eq!(rt; buffer.len(), 8);
    buffer.store(Width::Word, 0, Value::Num(0x8001_80ff));
    assert_eq!(rt; buffer.load(Width::Byte, 0), Value::Num(0xffff_ffff));
    assert_eq!(rt; buffer.load(Width::ByteU, 1), Value::Num(0x80));
    assert_eq!(rt; buffer.load(Width::Half, 0), Value::Num(0xffff_80ff));
    assert_eq!(rt; buffer.load(Width::HalfU, 2), Value::Num(0x8001));
    assert_eq!(rt; buffer.known(3), Some(0x80));
    buffer.store(Width::Word, 4, Value::Mix(3));
    assert_eq!(rt; buffer.load(Width::Half, 4), Value::Unset);
    assert_eq!(rt; buffer.load(Width::ByteU, 4), Value::Unset);
    assert_eq!(rt; buffer.known(4), None);
    buffer.store(Width::Byte, 5, Value::Num(7));
    assert_eq!(rt; buffer.load(Width::Word, 4), Value::Unset);
    assert_eq!(rt; buffer.load(Width::Byte, 5), Value::Num(7));
    Ok(())
}

#[test]
fn a_pointer_is_copied_byte_by_byte(rt: HostRuntime) -> Result<(), Fail> {
    let mut buffer = CellBuffer::zeros(rt.alloc(), 4)?;
    assert_eq!(rt; buffer.len(), 16);
    buffer.store(Width::Word, 4, POINTER);
    copy!(rt, buffer, 4, 8, part!(0));
    copy!(rt, buffer, 5, 9, part!(1));
    copy!(rt, buffer, 6, 10, part!(2));
    copy!(rt, buffer, 7, 11, part!(3));
    assert_eq!(rt; buffer.load(Width::Word, 8), POINTER);
    copy!(rt, buffer, 4, 11, part!(0));
    assert_eq!(rt; buffer.load(Width::Word, 8), Value::Unset);
    let mut other = CellBuffer::zeros(rt.alloc(), 2)?;
    other.overlay(&buffer);
    assert_eq!(rt; other.len(), 8);
    assert_eq!(rt; other.load(Width::Word, 4), POINTER);
    Ok(())
}
