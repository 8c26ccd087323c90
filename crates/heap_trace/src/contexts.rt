// The contexts of grants, by their numbers.
ghost use Rattle.std.specs.Prelude.{◌≡◌, ◌<◌, [], All, length, take, IfOk, OnErr};
ghost use Rattle.profile_text.specs.Profile.{IsContext};
ghost use Rattle.heap_trace.specs.Events.{IsNumbered};

use indexmap::IndexSet;
use plan_core::{Context, ContextList};
use std::alloc::{AllocError, Global};
use std::marker::Model;

/// The contexts of the grants so far, in the order of their first grants.
#[derive(Drop)]
pub struct Contexts {
    table: IndexSet<Vec<u32>>,
}

impl Model for Contexts {
    ghost use Rattle.std.specs.Prelude.{All, List, ℕ, map};
    ghost use Rattle.profile_text.specs.Profile.{IsContext};

    ghost Value = { List (List ℕ) };

    ghost view = { λ c. map (λ v. v.items) c.table.keys };

    ghost invariant = { λ c. All (λ v. IsContext v.items) c.table.keys };
}

impl Contexts {
    /// No contexts, which take no memory.
    pub fn new(alloc: Global) -> Self
        ensures { result ≡ [] }
    {
        Contexts {
            table: IndexSet::new(alloc),
        }
    }

    /// How many contexts there are.
    pub fn len(&self) -> usize
        ensures { result ≡ length self.now }
    {
        self.table.len()
    }

    /// The number of a context, which is a new one where it wasn't there; or fails for want of memory and
    /// leaves the contexts as they were.
    pub fn number(&mut self, context: Vec<u32>) -> Result<u32, AllocError>
        requires room { length self.old < 4294967295 }
        requires context { IsContext context.items }
        ensures numbered { IfOk result (λ n. IsNumbered context.items self.old self.new n) }
        ensures err { OnErr result (self.new ≡ self.old) }
    {
        let (number, _) = self.table.insert_full(context)?;
        Ok(number as u32)
    }

    /// Forgets the contexts from a number on.
    pub fn forget_from(&mut self, number: usize)
        ensures { self.new ≡ take number self.old }
    {
        self.table.truncate(number);
    }

    /// The contexts as a list.
    pub fn into_list(self, alloc: Global) -> Result<ContextList, AllocError>
        ensures exact { IfOk result (λ list. list ≡ self) }
        ensures contexts { IfOk result (λ list. All IsContext list) }
    {
        let Contexts { mut table } = self;
        let mut contexts = Vec::new(alloc);
        while let Some(context) = table.pop() {
            contexts.push(Context::from(context))?;
        }
        contexts.reverse();
        let list = ContextList::from(contexts);
        Ok(list)
    }
}
