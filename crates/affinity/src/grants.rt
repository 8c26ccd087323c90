// The grants so far, and which of their blocks could stand beside each other.
ghost use Rattle.std.specs.Prelude.{◌≡◌, ◌<◌, ◌≤◌, length, slice_index, slice_get, vec_len, OnOk, OnErr};
ghost use Rattle.std.specs.Vec.{vec_capacity};
ghost use Rattle.std.specs.Option.{ForSome};
ghost use Rattle.affinity.specs.State.{no_grants, with_grant};
ghost use Rattle.affinity.specs.Links.{with_last, linked, none_or_from, none_or_to};
ghost use Rattle.affinity.specs.Weights.{co_allocatable};

use std::alloc::{AllocError, Global};
use std::marker::Model;

/// What is kept of one grant.
#[derive(Clone, Copy)]
pub struct GrantNote {
    /// The number of its context.
    pub context: u32,
    /// The number of the last grant of this context before it.
    pub before: Option<u32>,
    /// The number of the next grant of this context after it.
    pub next: Option<u32>,
}

/// The grants so far; a block has the number of its grant.
#[derive(Drop)]
pub struct Grants {
    notes: Vec<GrantNote>,
    lasts: Vec<u32>,
}

impl Model for Grants {
    ghost use Rattle.std.specs.Prelude.{map, length};
    ghost use Rattle.affinity.specs.State.{Granted};
    ghost use Rattle.affinity.specs.Linked.{IsLinked};

    ghost Value = { Granted };

    ghost view = { λ a. record { contexts = map (λ n. n.context) a.notes.items; count = length a.lasts.items } };

    ghost invariant = { λ a. IsLinked a.notes.items a.lasts.items };
}

// Makes a grant the last one of its context, and gives the last one before it.
fn take_last(lasts: &mut Vec<u32>, context: u32, number: u32) -> Option<u32>
    requires dense { context ≤ vec_len lasts.old }
    requires room { vec_len lasts.old < vec_capacity lasts.old }
    ensures lasts { lasts.new.items ≡ with_last context number lasts.old.items }
    ensures before { result ≡ slice_get lasts.old.items context }
{
    let at = context as usize;
    if at == lasts.len() {
        lasts.push_reserved(number);
        return None;
    }
    let before = lasts[at];
    lasts[at] = number;
    Some(before)
}

// Notes in the grant before a new one that the new one is the next.
fn link_before(notes: &mut Vec<GrantNote>, before: Option<u32>, number: u32)
    requires known { ForSome before (λ p. p < vec_len notes.old) }
    ensures notes { notes.new.items ≡ linked before number notes.old.items }
    ensures capacity { vec_capacity notes.new ≡ vec_capacity notes.old }
{
    if let Some(before) = before {
        let at = before as usize;
        let note = notes[at];
        notes[at] = GrantNote {
            next: Some(number),
            ..note
        };
    }
}

// Whether a number is none or at least `bound`.
fn is_at_least(number: Option<u32>, bound: u32) -> bool
    ensures { result ≡ none_or_from number bound }
{
    match number {
        Some(number) => bound <= number,
        None => true,
    }
}

// Whether a number is none or at most `bound`.
fn is_at_most(number: Option<u32>, bound: u32) -> bool
    ensures { result ≡ none_or_to number bound }
{
    match number {
        Some(number) => number <= bound,
        None => true,
    }
}

impl Grants {
    /// No grants, which take no memory.
    pub fn new(alloc: Global) -> Self
        ensures { result ≡ no_grants }
    {
        Grants {
            notes: Vec::new(alloc),
            lasts: Vec::new(alloc),
        }
    }

    /// How many grants there were.
    pub fn len(&self) -> usize
        ensures { result ≡ length self.now.contexts }
    {
        self.notes.len()
    }

    /// How many different contexts were granted.
    pub fn count(&self) -> usize
        ensures { result ≡ self.now.count }
    {
        self.lasts.len()
    }

    /// The context of a block.
    pub fn context(&self, block: u32) -> u32
        requires { block < length self.now.contexts }
        ensures context { result ≡ slice_index self.now.contexts block }
        ensures counted { result < self.now.count }
    {
        self.notes[block as usize].context
    }

    /// Adds a grant, whose context was granted before or is the next new one; or fails for want of
    /// memory and leaves the grants as they were.
    pub fn add(&mut self, context: u32) -> Result<(), AllocError>
        requires dense { context ≤ self.old.count }
        requires small { length self.old.contexts < 4294967295 }
        ensures ok { OnOk result (self.new ≡ with_grant context self.old) }
        ensures err { OnErr result (self.new ≡ self.old) }
    {
        self.notes.reserve(1)?;
        self.lasts.reserve(1)?;
        let number = self.notes.len() as u32;
        let before = take_last(&mut self.lasts, context, number);
        link_before(&mut self.notes, before, number);
        self.notes.push_reserved(GrantNote {
            context,
            before,
            next: None,
        });
        Ok(())
    }

    /// Whether no grant strictly between those of two blocks has the context of either.
    pub fn are_co_allocatable(&self, b: u32, c: u32) -> bool
        requires first { b < length self.now.contexts }
        requires second { c < length self.now.contexts }
        ensures { result ≡ co_allocatable self.now.contexts b c }
    {
        let first = b.min(c);
        let second = b.max(c);
        let next = self.notes[first as usize].next;
        let before = self.notes[second as usize].before;
        is_at_least(next, second) && is_at_most(before, first)
    }
}
