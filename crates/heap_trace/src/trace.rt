// The trace of a run, which takes the notes of its steps one by one.
ghost use Rattle.std.specs.Prelude.{◌≡◌, ◌<◌, [], All, length, None, Some, IfOk, OnOk, OnErr};
ghost use Rattle.profile_text.specs.Profile.{IsContext};
ghost use Rattle.sym_spec.specs.declared.StepNote.{StepNote as NoteValue};
ghost use Rattle.sym_spec.specs.Contexts.{called, context_of, left_by, pushed, stack_after};
ghost use Rattle.heap_trace.specs.Events.{Granted, Takes, access_of, release_of};
ghost use Rattle.heap_trace.specs.Traces.{nothing_traced};

use crate::contexts::Contexts;
use crate::stack::Stack;
use exec_image::Image;
use plan_core::{ContextList, Event};
use std::alloc::{AllocError, Global};
use std::marker::Model;
use sym_spec::{BlockAccess, StepNote};

/// The shadow stack of a run and the contexts of its grants.
#[derive(Drop)]
pub struct Trace {
    stack: Stack,
    contexts: Contexts,
}

impl Model for Trace {
    ghost use Rattle.heap_trace.specs.Events.{Traced};

    ghost Value = { Traced };

    ghost view = { λ t. record { stack = t.stack; contexts = t.contexts } };
}

// The event of a release.
fn release_event(note: &StepNote) -> Option<Event>
    ensures { result ≡ release_of note.now }
{
    match note.release {
        Some(block) => Some(Event::Release { block }),
        None => None,
    }
}

// The event of an access.
fn access_event(note: &StepNote) -> Option<Event>
    ensures { result ≡ access_of note.now }
{
    match note.access {
        Some(BlockAccess { block, width }) => Some(Event::Access { block, width }),
        None => None,
    }
}

// Pushes the site that a step called.
fn push_called(stack: &mut Stack, call: Option<u32>, image: &Image) -> Result<(), AllocError>
    ensures ok { OnOk result (stack.new ≡ pushed (called image.now call) stack.old) }
    ensures err { OnErr result (stack.new ≡ stack.old) }
{
    if let Some(addr) = call {
        if let Some(site) = image.site(addr) {
            return stack.push(site);
        }
    }
    Ok(())
}

impl Trace {
    /// The trace before the first step, which takes no memory.
    pub fn new(alloc: Global) -> Self
        ensures { result ≡ nothing_traced }
    {
        Trace {
            stack: Stack::new(alloc),
            contexts: Contexts::new(alloc),
        }
    }

    // The event of the grant, where the step has one, in the context of the stack.
    fn grant(&mut self, alloc: Global, grant: Option<u32>) -> Result<Option<Event>, AllocError>
        requires { length self.old.contexts < 4294967295 }
        ensures stack { self.new.stack ≡ self.old.stack }
        ensures granted { IfOk result (λ event.
            Granted grant (context_of self.old.stack) self.old.contexts self.new.contexts event) }
        ensures err { OnErr result (self.new ≡ self.old) }
    {
        let Some(block) = grant else {
            return Ok(None);
        };
        let context = self.stack.context(alloc)?;
        let context = self.contexts.number(context)?;
        Ok(Some(Event::Grant { block, context }))
    }

    /// Takes the note of a step of a run of an image, and gives the step's events in the order grant,
    /// release, access; or fails for want of memory and stays as it was.
    ///
    /// The context of a grant is that of the stack before the step. A call pushes its site, and then a way
    /// back cuts the stack. A grant takes time by the sites of its context.
    pub fn take(
        &mut self,
        alloc: Global,
        note: &StepNote,
        image: &Image,
    ) -> Result<[Option<Event>; 3], AllocError>
        requires { length self.old.contexts < 4294967295 }
        ensures takes { IfOk result (λ events. Takes image.now note.now self.old self.new events) }
        ensures err { OnErr result (self.new ≡ self.old) }
    {
        let known = self.contexts.len();
        let grant = self.grant(alloc, note.grant)?;
        if push_called(&mut self.stack, note.call, image).is_err() {
            self.contexts.forget_from(known);
            return Err(AllocError);
        }
        if let Some(back) = note.back {
            self.stack.cut(back);
        }
        Ok([grant, release_event(note), access_event(note)])
    }

    /// The contexts of the grants so far.
    pub fn into_contexts(self, alloc: Global) -> Result<ContextList, AllocError>
        ensures exact { IfOk result (λ list. list ≡ self.contexts) }
        ensures contexts { IfOk result (λ list. All IsContext list) }
    {
        let Trace { contexts, .. } = self;
        contexts.into_list(alloc)
    }
}
