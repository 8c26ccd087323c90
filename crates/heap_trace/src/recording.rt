// What a profile takes from a run, step by step.
ghost use Rattle.std.specs.Prelude.{◌≡◌, ◌<◌, ◌≤◌, ℕ, List, [], ◌∷◌, ◌++◌, length, IfOk, MatchOption, OnOk, Option};
ghost use Rattle.plan_core.specs.declared.profiles.Event.{Event as EventValue};
ghost use Rattle.affinity.specs.Graphs.{IsGraph};
ghost use Rattle.affinity.specs.Histories.{Legal};
ghost use Rattle.affinity.specs.Pushed.{Pushed, Takes as MayPush};
ghost use Rattle.profile_text.specs.Profile.{IsProfile};
ghost use Rattle.heap_trace.specs.Events.{Traced};
ghost use Rattle.heap_trace.specs.Recorded.{IsLegal};
ghost use Rattle.heap_trace.specs.Traces.{LeadsOn, added, events_in, nothing_traced};

use crate::trace::Trace;
use affinity::Affinity;
use exec_image::Image;
use plan_core::{Event, Profile};
use std::alloc::{AllocError, Global};
use sym_spec::StepNote;

/// The trace of a run, and the affinity of its events.
#[derive(Drop)]
pub struct Recording {
    pub trace: Trace,
    pub affinity: Affinity,
}

// Counts an event, where there is one.
fn push_event(affinity: &mut Affinity, event: Option<Event>) -> Result<(), AllocError>
    requires { MatchOption event (Unit {0}) (MayPush affinity.old) }
    ensures distance { affinity.new.distance ≡ affinity.old.distance }
    ensures pushed { OnOk result ((h : List EventValue) → Pushed affinity.old h → Pushed affinity.new (added h event)) }
{
    match event {
        Some(event) => affinity.push(event),
        None => Ok(()),
    }
}

// Counts the events of a step.
fn push_events(
    affinity: &mut Affinity,
    grant: Option<Event>,
    release: Option<Event>,
    access: Option<Event>,
) -> Result<(), AllocError>
    requires { (h : List EventValue) × Pushed affinity.old h
        × Legal (h ++ events_in (grant ∷ release ∷ access ∷ [])) }
    ensures distance { affinity.new.distance ≡ affinity.old.distance }
    ensures pushed { OnOk result ((h : List EventValue) → Pushed affinity.old h
        → Pushed affinity.new (h ++ events_in (grant ∷ release ∷ access ∷ []))) }
{
    push_event(affinity, grant)?;
    push_event(affinity, release)?;
    push_event(affinity, access)?;
    Ok(())
}

impl Recording {
    /// Nothing recorded yet, which takes no memory. `distance` is in bytes.
    pub fn new(alloc: Global, distance: u32) -> Self
        requires { distance ≤ 4096 }
        ensures trace { result.trace ≡ nothing_traced }
        ensures distance { result.affinity.distance ≡ distance }
        ensures pushed { Pushed result.affinity [] }
    {
        Recording {
            trace: Trace::new(alloc),
            affinity: Affinity::new(alloc, distance),
        }
    }

    /// Takes the note of a step of a run of an image, whose events may follow those before.
    pub fn take(&mut self, alloc: Global, note: &StepNote, image: &Image) -> Result<(), AllocError>
        requires room { length self.old.trace.contexts < 4294967295 }
        requires legal { (h : List EventValue) × Pushed self.old.affinity h
            × ((after : Traced) (events : List EventValue) → LeadsOn image.now note.now self.old.trace h after events
            → Legal events) }
        ensures distance { self.new.affinity.distance ≡ self.old.affinity.distance }
        ensures pushed { OnOk result ((h : List EventValue) → Pushed self.old.affinity h
            → (events : List EventValue) × LeadsOn image.now note.now self.old.trace h self.new.trace events
            × Pushed self.new.affinity events) }
    {
        let [grant, release, access] = self.trace.take(alloc, note, image)?;
        push_events(&mut self.affinity, grant, release, access)?;
        Ok(())
    }

    /// The profile of what was recorded, at a distance.
    pub fn into_profile(self, alloc: Global, distance: u32) -> Result<Profile, AllocError>
        requires { distance ≡ self.affinity.distance }
        ensures distance { IfOk result (λ p. p.distance ≡ distance) }
        ensures contexts { IfOk result (λ p. p.contexts ≡ self.trace.contexts) }
        ensures profile { IsLegal self → IfOk result IsProfile }
        ensures graph { IfOk result (λ p. (h : List EventValue) → Pushed self.affinity h → IsGraph distance h p.graph) }
    {
        let Recording { trace, affinity } = self;
        let graph = affinity.graph(alloc)?;
        let contexts = trace.into_contexts(alloc)?;
        Ok(Profile {
            distance,
            contexts,
            graph,
        })
    }
}
