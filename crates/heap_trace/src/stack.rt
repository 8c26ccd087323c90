// The shadow stack, with the order of its near sites by their last calls and a count for each return address.
ghost use Rattle.std.specs.Prelude.{◌≡◌, ℕ, ◌+◌, ◌^◌, ◌<◌, ◌++◌, ◌∷◌, [], true, length, nat_eq, position};
ghost use Rattle.std.specs.Prelude.{if◌then◌else◌, None, IfOk, MatchOption, OnOk, OnErr};
ghost use Rattle.std.specs.List.{list_any};
ghost use Rattle.site_spec.specs.declared.Site.{Site as SiteValue};
ghost use Rattle.indexmap.specs.IndexSet.{spare};
ghost use Rattle.profile_text.specs.Profile.{IsContext};
ghost use Rattle.sym_spec.specs.Contexts.{comes_back_to, context_of, cut};
ghost use Rattle.heap_trace.specs.Stacks.{count_in, called_last};

use indexmap::{IndexMap, IndexSet};
use site_spec::Site;
use std::alloc::{AllocError, Global};
use std::marker::Model;

/// A site on the stack.
#[derive(Clone, Copy)]
pub struct Frame {
    /// The site.
    pub site: Site,
    /// The place that it had in the order of near sites before this call, where it had one.
    pub place: Option<usize>,
}

/// The sites that were called and not yet left, as contracts see it.
///
/// A call and a way back cost what was called since the last call of the same site, and no walk of the stack.
#[derive(Drop)]
pub struct Stack {
    frames: Vec<Frame>,
    order: IndexSet<u32>,
    returns: IndexMap<u32, usize>,
}

impl Model for Stack {
    ghost use Rattle.std.specs.Prelude.{List};
    ghost use Rattle.site_spec.specs.declared.Site.{Site as SiteValue};
    ghost use Rattle.heap_trace.specs.Stacks.{sites_of, IsStack};

    ghost Value = { List SiteValue };

    ghost view = { λ s. sites_of s.frames.items };

    ghost invariant = { λ s. IsStack s.frames.items s.order.keys s.returns };
}

// Counts one more frame that comes back to an address.
fn raise(returns: &mut IndexMap<u32, usize>, back: u32) -> Result<(), AllocError>
    requires small { count_in returns.old back < 2 ^ 63 }
    ensures counts { OnOk result ((a : ℕ) → count_in returns.new a
        ≡ count_in returns.old a + (if nat_eq back a then 1 else 0)) }
    ensures err { OnErr result ((a : ℕ) → count_in returns.new a ≡ count_in returns.old a) }
{
    if let Some(count) = returns.get_mut(&back) {
        *count += 1;
        return Ok(());
    }
    returns.insert(back, 1)?;
    Ok(())
}

// Counts one frame less that comes back to an address.
fn lower(returns: &mut IndexMap<u32, usize>, back: u32)
    requires { 0 < count_in returns.old back }
    ensures { (a : ℕ) → count_in returns.new a + (if nat_eq back a then 1 else 0) ≡ count_in returns.old a }
{
    if let Some(count) = returns.get_mut(&back) {
        *count -= 1;
    }
}

// Moves an address to the end of the order, or adds it there, and gives the place that it had.
fn call_last(order: &mut IndexSet<u32>, addr: u32) -> Option<usize>
    requires { 0 < spare order.old }
    ensures place { result ≡ position (nat_eq addr) order.old.keys }
    ensures order { order.new.keys ≡ called_last addr order.old.keys }
{
    let place = order.get_index_of(&addr);
    match place {
        Some(place) => order.move_index(place, order.len() - 1),
        None => {
            let _ = order.insert(addr);
        }
    }
    place
}

// Calls a site: a near one comes last in the order, and a far one leaves it as it is.
fn call(order: &mut IndexSet<u32>, site: Site) -> Option<usize>
    requires { 0 < spare order.old }
    ensures place { result ≡ (if site.near then position (nat_eq site.addr) order.old.keys else None) }
    ensures order { order.new.keys ≡ (if site.near then called_last site.addr order.old.keys else order.old.keys) }
{
    if !site.near {
        return None;
    }
    call_last(order, site.addr)
}

impl Stack {
    /// The empty stack, which takes no memory.
    pub fn new(alloc: Global) -> Self
        ensures { result ≡ [] }
    {
        Stack {
            frames: Vec::new(alloc),
            order: IndexSet::new(alloc),
            returns: IndexMap::new(alloc),
        }
    }

    /// Pushes a site, or fails for want of memory and leaves the stack as it was.
    pub fn push(&mut self, site: Site) -> Result<(), AllocError>
        ensures ok { OnOk result (self.new ≡ self.old ++ site ∷ []) }
        ensures err { OnErr result (self.new ≡ self.old) }
    {
        self.frames.reserve(1)?;
        self.order.reserve(1)?;
        raise(&mut self.returns, site.back)?;
        let place = call(&mut self.order, site);
        self.frames.push_reserved(Frame { site, place });
        Ok(())
    }

    // Takes the last site away.
    fn pop(&mut self) -> Option<Site>
        ensures { MatchOption result (self.old ≡ []) (λ site. self.old ≡ self.new ++ site ∷ []) }
    {
        let Frame { site, place } = self.frames.pop()?;
        lower(&mut self.returns, site.back);
        if site.near {
            match place {
                Some(place) => self.order.move_index(self.order.len() - 1, place),
                None => {
                    let _ = self.order.pop();
                }
            }
        }
        Some(site)
    }

    // Whether a site comes back to an address.
    fn comes_back_to(&self, back: u32) -> bool
        ensures { result ≡ list_any (comes_back_to back) self.now }
    {
        match self.returns.get(&back) {
            Some(count) => *count > 0,
            None => false,
        }
    }

    /// Cuts the stack from the last site on that comes back to an address, where there is one.
    pub fn cut(&mut self, back: u32)
        ensures { self.new ≡ cut back self.old }
    {
        if !self.comes_back_to(back) {
            return;
        }
        while let Some(site) = self.pop() {
            if site.back == back {
                return;
            }
        }
    }

    /// The addresses of the near sites, from outermost to innermost, of equal ones the last.
    pub fn context(&self, alloc: Global) -> Result<Vec<u32>, AllocError>
        ensures exact { IfOk result (λ v. v.items ≡ context_of self.now) }
        ensures context { IfOk result (λ v. IsContext v.items) }
    {
        Vec::from_slice(alloc, self.order.as_slice())
    }
}
