// The value of an operation on two values, by their kinds.
ghost use Rattle.std.specs.Prelude.{◌≡◌, ◌%◌};
ghost use Rattle.rv_isa.specs.declared.Op.{Op};
ghost use Rattle.sym_value.specs.declared.Value.{Value};
ghost use Rattle.sym_value.specs.Places.{Lives};
ghost use Rattle.sym_value.specs.Operations.{apply, otherwise, of_numbers, flag_of};

use crate::Value;
use crate::decisions::decide;
use crate::live::Live;
use rv_isa::{Cond, Op, compute};

/// The value of an operation: `Unset` where the table has no row for the operands.
#[tactic(auto, unfolding(crate::specs::Operations::apply))]
pub fn apply(op: Op, a: Value, b: Value, live: &Live) -> Value
    ensures { result ≡ apply live.now op a b }
{
    match op {
        Op::Add => sum(a, b),
        Op::Sub => difference(a, b, live),
        Op::Or => or(a, b, live),
        Op::Xor => xor(a, b, live),
        Op::And => and(a, b),
        Op::Sll => shift(Op::Sll, a, b),
        Op::Srl => shift(Op::Srl, a, b),
        Op::Sra => shift(Op::Sra, a, b),
        Op::Slt => signed_order(a, b, live),
        Op::Sltu => unsigned_order(a, b, live),
        Op::Mul | Op::Mulh | Op::Mulhsu | Op::Mulhu | Op::Div | Op::Divu | Op::Rem | Op::Remu =>
            product(op, a, b),
    }
}

/// Some nonzero word with the low four bits of `word`.
fn mix(word: u32) -> Value
    ensures { result ≡ Value.Mix (word % 16) }
{
    Value::Mix((word % 16) as u8)
}

#[tactic(auto, unfolding(crate::specs::Operations::apply))]
fn sum(a: Value, b: Value) -> Value
    ensures { (live : Lives) → result ≡ apply live Op.Add a b }
{
    match (a, b) {
        (Value::Num(v), Value::Num(w)) => Value::Num(compute(Op::Add, v, w)),
        (_, Value::Num(0)) => a,
        (Value::Num(0), _) => b,
        (Value::Ptr { block, offset }, Value::Num(number))
        | (Value::Num(number), Value::Ptr { block, offset }) => Value::Ptr {
            block,
            offset: offset.wrapping_add(number),
        },
        _ => Value::Unset,
    }
}

#[tactic(auto, unfolding(crate::specs::Operations::apply))]
fn difference(a: Value, b: Value, live: &Live) -> Value
    ensures { result ≡ apply live.now Op.Sub a b }
{
    match (a, b) {
        (Value::Num(v), Value::Num(w)) => Value::Num(compute(Op::Sub, v, w)),
        (_, Value::Num(0)) => a,
        (Value::Ptr { block, offset }, Value::Num(number)) => Value::Ptr {
            block,
            offset: offset.wrapping_sub(number),
        },
        (
            Value::Ptr { block, offset },
            Value::Ptr {
                block: other,
                offset: second,
            },
        ) => {
            if block == other {
                Value::Num(offset.wrapping_sub(second))
            } else if live.is_inner(block, offset) && live.is_inner(other, second) {
                mix(offset.wrapping_sub(second))
            } else {
                Value::Unset
            }
        }
        (Value::Num(number), Value::Ptr { block, offset }) => {
            if live.is_outer(number) && live.is_on(block, offset) {
                mix(number.wrapping_sub(offset))
            } else {
                Value::Unset
            }
        }
        _ => Value::Unset,
    }
}

#[tactic(auto, unfolding(crate::specs::Operations::apply))]
fn xor(a: Value, b: Value, live: &Live) -> Value
    ensures { result ≡ apply live.now Op.Xor a b }
{
    match (a, b) {
        (Value::Num(v), Value::Num(w)) => Value::Num(compute(Op::Xor, v, w)),
        (_, Value::Num(0)) => a,
        (Value::Num(0), _) => b,
        (
            Value::Ptr { block, offset },
            Value::Ptr {
                block: other,
                offset: second,
            },
        ) => {
            if block == other {
                if offset == second {
                    Value::Num(0)
                } else {
                    mix(offset ^ second)
                }
            } else if live.is_inner(block, offset) && live.is_inner(other, second) {
                mix(offset ^ second)
            } else {
                Value::Unset
            }
        }
        (Value::Ptr { block, offset }, Value::Num(number))
        | (Value::Num(number), Value::Ptr { block, offset }) => {
            if live.is_on(block, offset) && live.is_outer(number) {
                mix(offset ^ number)
            } else {
                Value::Unset
            }
        }
        _ => Value::Unset,
    }
}

#[tactic(auto, unfolding(crate::specs::Operations::apply))]
fn or(a: Value, b: Value, live: &Live) -> Value
    ensures { result ≡ apply live.now Op.Or a b }
{
    match (a, b) {
        (Value::Num(v), Value::Num(w)) => Value::Num(compute(Op::Or, v, w)),
        (_, Value::Num(0)) => a,
        (Value::Num(0), _) => b,
        (
            Value::Ptr { block, offset },
            Value::Ptr {
                block: other,
                offset: second,
            },
        ) => {
            if live.is_near(block, offset) {
                mix(offset | second)
            } else if live.is_near(other, second) {
                mix(second | offset)
            } else {
                Value::Unset
            }
        }
        (Value::Ptr { offset, .. }, Value::Num(number))
        | (Value::Num(number), Value::Ptr { offset, .. }) => mix(offset | number),
        (Value::Mix(low), Value::Num(number)) | (Value::Num(number), Value::Mix(low)) => mix(
            low as u32 | number,
        ),
        (Value::Mix(low), Value::Ptr { offset, .. })
        | (Value::Ptr { offset, .. }, Value::Mix(low)) => mix(low as u32 | offset),
        (Value::Mix(low), Value::Mix(other)) => mix(low as u32 | other as u32),
        _ => Value::Unset,
    }
}

#[tactic(auto, unfolding(crate::specs::Operations::apply))]
fn and(a: Value, b: Value) -> Value
    ensures { (live : Lives) → result ≡ apply live Op.And a b }
{
    match (a, b) {
        (Value::Num(v), Value::Num(w)) => Value::Num(compute(Op::And, v, w)),
        (Value::Ptr { block, offset }, Value::Num(mask))
        | (Value::Num(mask), Value::Ptr { block, offset }) => {
            if mask <= 15 {
                Value::Num(offset & mask)
            } else if mask >= 0xffff_fff0 {
                Value::Ptr {
                    block,
                    offset: offset & mask,
                }
            } else {
                Value::Unset
            }
        }
        (Value::Mix(low), Value::Num(mask)) | (Value::Num(mask), Value::Mix(low)) => {
            if mask <= 15 {
                Value::Num(low as u32 & mask)
            } else {
                Value::Unset
            }
        }
        (Value::Part { of, index }, Value::Num(255))
        | (Value::Num(255), Value::Part { of, index }) => Value::Part { of, index },
        _ => Value::Unset,
    }
}

#[tactic(auto, unfolding(crate::specs::Operations::apply))]
fn shift(op: Op, a: Value, b: Value) -> Value
    ensures left { (live : Lives) → op ≡ Op.Sll → result ≡ apply live Op.Sll a b }
    ensures right { (live : Lives) → op ≡ Op.Srl → result ≡ apply live Op.Srl a b }
    ensures signed { (live : Lives) → op ≡ Op.Sra → result ≡ apply live Op.Sra a b }
{
    match (a, b) {
        (Value::Num(v), Value::Num(w)) => Value::Num(compute(op, v, w)),
        (_, Value::Num(0)) => a,
        _ => Value::Unset,
    }
}

/// The value of an operation that has one of numbers alone.
fn product(op: Op, a: Value, b: Value) -> Value
    ensures { result ≡ otherwise (of_numbers op a b) Value.Unset }
{
    match (a, b) {
        (Value::Num(v), Value::Num(w)) => Value::Num(compute(op, v, w)),
        _ => Value::Unset,
    }
}

#[tactic(auto, unfolding(crate::specs::Operations::apply))]
fn signed_order(a: Value, b: Value, live: &Live) -> Value
    ensures { result ≡ apply live.now Op.Slt a b }
{
    match (a, b) {
        (Value::Num(v), Value::Num(w)) => Value::Num(compute(Op::Slt, v, w)),
        _ => flag(decide(Cond::Lt, a, b, live)),
    }
}

#[tactic(auto, unfolding(crate::specs::Operations::apply))]
fn unsigned_order(a: Value, b: Value, live: &Live) -> Value
    ensures { result ≡ apply live.now Op.Sltu a b }
{
    match (a, b) {
        (Value::Num(v), Value::Num(w)) => Value::Num(compute(Op::Sltu, v, w)),
        _ => flag(decide(Cond::Ltu, a, b, live)),
    }
}

fn flag(answer: Option<bool>) -> Value
    ensures { result ≡ flag_of answer }
{
    match answer {
        Some(true) => Value::Num(1),
        Some(false) => Value::Num(0),
        None => Value::Unset,
    }
}
