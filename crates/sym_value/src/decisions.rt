// Which conditions are decided of two values.
ghost use Rattle.std.specs.Prelude.{◌≡◌, not, option_map};
ghost use Rattle.sym_value.specs.Decisions.{equal, below, near_order, decide};

use crate::Value;
use crate::live::{Live, is_high};
use rv_isa::{Cond, holds};

/// Whether a condition holds of two values; none where the table has no row for them. Two numbers
/// are always decided.
#[tactic(auto, unfolding(crate::specs::Decisions::decide))]
pub fn decide(cond: Cond, a: Value, b: Value, live: &Live) -> Option<bool>
    ensures { result ≡ decide live.now cond a b }
{
    match (a, b) {
        (Value::Num(v), Value::Num(w)) => Some(holds(cond, v, w)),
        _ => match cond {
            Cond::Eq => equal(a, b, live),
            Cond::Ne => opposite(equal(a, b, live)),
            Cond::Lt => near_order(a, b, live),
            Cond::Ge => opposite(near_order(a, b, live)),
            Cond::Ltu => below(a, b, live),
            Cond::Geu => opposite(below(a, b, live)),
        },
    }
}

fn opposite(answer: Option<bool>) -> Option<bool>
    ensures { result ≡ option_map not answer }
{
    match answer {
        Some(so) => Some(!so),
        None => None,
    }
}

/// Whether two values, of which one is no number, are equal.
fn equal(a: Value, b: Value, live: &Live) -> Option<bool>
    ensures { result ≡ equal live.now a b }
{
    match (a, b) {
        (
            Value::Ptr { block, offset },
            Value::Ptr {
                block: other,
                offset: second,
            },
        ) => {
            if block == other {
                Some(offset == second)
            } else if live.is_inner(block, offset) && live.is_inner(other, second) {
                Some(false)
            } else {
                None
            }
        }
        (Value::Ptr { block, offset }, Value::Num(number))
        | (Value::Num(number), Value::Ptr { block, offset }) => {
            if live.is_on(block, offset) && live.is_outer(number)
                || live.is_near(block, offset) && number == 0
            {
                Some(false)
            } else {
                None
            }
        }
        (Value::Mix(_), Value::Num(0)) | (Value::Num(0), Value::Mix(_)) => Some(false),
        _ => None,
    }
}

/// Whether the signed offset of the first of two near pointers to one block is the smaller one.
fn near_order(a: Value, b: Value, live: &Live) -> Option<bool>
    ensures { result ≡ near_order live.now a b }
{
    match (a, b) {
        (
            Value::Ptr { block, offset },
            Value::Ptr {
                block: other,
                offset: second,
            },
        ) => {
            if block == other && live.is_near(block, offset) && live.is_near(other, second) {
                Some(offset.wrapping_add(65536) < second.wrapping_add(65536))
            } else {
                None
            }
        }
        _ => None,
    }
}

/// Whether the first of two values, of which one is no number, is the smaller one without signs.
fn below(a: Value, b: Value, live: &Live) -> Option<bool>
    ensures { result ≡ below live.now a b }
{
    match (a, b) {
        (Value::Ptr { .. }, Value::Ptr { .. }) => near_order(a, b, live),
        (Value::Ptr { block, offset }, Value::Num(number)) => {
            if live.is_on(block, offset) && live.is_low(number) {
                Some(false)
            } else if live.is_on(block, offset) && is_high(number) {
                Some(true)
            } else if live.is_near(block, offset) && number <= 1 {
                Some(false)
            } else {
                None
            }
        }
        (Value::Num(number), Value::Ptr { block, offset }) => {
            if live.is_low(number) && live.is_on(block, offset) {
                Some(true)
            } else if is_high(number) && live.is_on(block, offset) {
                Some(false)
            } else if number == 0 && live.is_near(block, offset) {
                Some(true)
            } else {
                None
            }
        }
        (Value::Mix(_), Value::Num(number)) => if number <= 1 { Some(false) } else { None },
        (Value::Num(0), Value::Mix(_)) => Some(true),
        _ => None,
    }
}
