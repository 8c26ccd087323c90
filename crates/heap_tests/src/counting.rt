// The answers of requests, and how many instructions each took.
ghost use Rattle.std.specs.Prelude.{◌≡◌, None, OnOk};
ghost use Rattle.heap_spec.specs.Service.{Suits};

use crate::programs::{REQUESTS_AT, Request, machine};
use flat_machine::{Flat, Stepped};
use plan_core::{Area, Row};
use std::alloc::{AllocError, Global};
use std::process::Abort;

/// What a request gave, and how many instructions its function took.
#[derive(Clone, Copy, Debug, PartialEq, Eq)]
pub struct Served {
    pub answer: u32,
    pub count: u32,
}

/// What requests gave one after the other, and the first word of the tables behind them.
#[derive(Debug, Drop)]
pub struct Outcome {
    pub served: Vec<Served>,
    pub first_hole: u32,
}

fn goes(rt: &impl Abort, machine: &mut Flat)
    requires { machine.old.waits ≡ None }
    ensures { machine.new.waits ≡ None }
{
    match machine.step() {
        Stepped::Went => {}
        other => panic!(rt; "{other:?}"),
    }
}

/// How many steps lead to the requests' words, or away from them.
fn steps_to(rt: &impl Abort, machine: &mut Flat, requests: bool) -> u32
    requires { machine.old.waits ≡ None }
    ensures { machine.new.waits ≡ None }
{
    for count in 0..40000 {
        if (machine.pc() >= REQUESTS_AT) == requests {
            return count;
        }
        goes(rt, machine);
    }
    40000
}

/// The next request.
fn serve(rt: &impl Abort, machine: &mut Flat) -> Served
    requires { machine.old.waits ≡ None }
    ensures { machine.new.waits ≡ None }
{
    steps_to(rt, machine, false);
    let count = steps_to(rt, machine, true);
    Served {
        answer: machine.register(10),
        count,
    }
}

/// So many requests.
fn serve_some(
    rt: &impl Abort,
    alloc: Global,
    machine: &mut Flat,
    count: usize,
) -> Result<Vec<Served>, AllocError>
    requires { machine.old.waits ≡ None }
    ensures { OnOk result (machine.new.waits ≡ None) }
{
    let mut served = Vec::new(alloc);
    for request in 0..count {
        let next = serve(rt, machine);
        served.push(next)?;
    }
    Ok(served)
}

/// What the requests give under these bits, from the first state on.
pub fn serve_all(
    rt: &impl Abort,
    alloc: Global,
    rows: &[Row],
    area: Area,
    bits: u32,
    requests: &[Request],
) -> Result<Outcome, AllocError>
    requires { Suits rows.now area 0x11000 0x16000 }
{
    let mut machine = machine(alloc, rows, area, bits, requests)?;
    let served = serve_some(rt, alloc, &mut machine, requests.len())?;
    goes(rt, &mut machine);
    goes(rt, &mut machine);
    goes(rt, &mut machine);
    Ok(Outcome {
        served,
        first_hole: machine.register(18),
    })
}
