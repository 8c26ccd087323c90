// An affinity, which takes events one by one and counts as it goes.
ghost use Rattle.std.specs.Prelude.{◌≡◌, ℕ, ◌+◌, ◌-◌, ◌^◌, ◌<◌, ◌≤◌, ◌++◌, ◌∷◌, [], List, All, length, slice_get};
ghost use Rattle.std.specs.Prelude.{slice_index_or, vec_len, ◌↔◌, IsTrue, true, Some, OnOk, OnErr, IfOk};
ghost use Rattle.std.specs.Vec.{vec_capacity};
ghost use Rattle.indexmap.specs.IndexMap.{spare};
ghost use Rattle.plan_core.specs.declared.profiles.Event.{Event as EventValue};
ghost use Rattle.plan_core.specs.declared.profiles.Node.{Node as NodeValue};
ghost use Rattle.plan_core.specs.declared.profiles.Event.TheVariants.{Grant, Access, Release};
ghost use Rattle.affinity.specs.Histories.{access_list};
ghost use Rattle.affinity.specs.Near.{kept_of};
ghost use Rattle.affinity.specs.Graphs.{IsGraph};
ghost use Rattle.affinity.specs.State.{with_grant, with_block, blank_affinity, grant_counted, access_counted};
ghost use Rattle.affinity.specs.Pushed.{IsLive, Takes, Pushed};

use crate::counting::{Weights, count_near};
use crate::edges::graph_of;
use crate::entries::Entry;
use crate::grants::Grants;
use crate::ring::Ring;
use indexmap::IndexMap;
use plan_core::{Event, Graph, Node};
use std::alloc::{AllocError, Global};
use std::marker::Model;

/// How often blocks of two contexts were accessed near each other, over the events so far.
///
/// It holds the last entry of the access list and the entries in reach of it, and takes memory with
/// grants and with pairs of contexts alone.
#[derive(Drop)]
pub struct Affinity {
    distance: u32,
    accesses: u32,
    lives: Vec<bool>,
    grants: Grants,
    ring: Ring,
    nodes: Vec<Node>,
    weights: Weights,
}

impl Model for Affinity {
    ghost use Rattle.std.specs.Prelude.{List};
    ghost use Rattle.plan_core.specs.declared.profiles.Event.{Event as EventValue};
    ghost use Rattle.affinity.specs.State.{Seen};

    ghost Value = { Seen };

    ghost use Rattle.affinity.specs.Views.{seen_of};
    ghost use Rattle.affinity.specs.Pushed.{Pushed};

    ghost view = { seen_of };

    ghost invariant = { λ a. (h : List EventValue) × Pushed (seen_of a) h };
}

// Adds a grant to what is kept of grants and of blocks, or leaves both as they were.
fn add_grant(grants: &mut Grants, ring: &mut Ring, context: u32) -> Result<(), AllocError>
    requires dense { context ≤ grants.old.count }
    requires small { length grants.old.contexts < 4294967295 }
    ensures grants { OnOk result (grants.new ≡ with_grant context grants.old) }
    ensures ring { OnOk result (ring.new ≡ with_block ring.old) }
    ensures grants_err { OnErr result (grants.new ≡ grants.old) }
    ensures ring_err { OnErr result (ring.new ≡ ring.old) }
{
    ring.add_block()?;
    if grants.add(context).is_err() {
        ring.drop_block();
        return Err(AllocError);
    }
    Ok(())
}

// Counts a grant of a context, whose node may be new.
fn count_grant(nodes: &mut Vec<Node>, context: u32)
    requires dense { context ≤ vec_len nodes.old }
    requires room { vec_len nodes.old < vec_capacity nodes.old }
    requires small { (d : NodeValue) → context < vec_len nodes.old
        → (slice_index_or nodes.old.items context d).grants < 2 ^ 32 }
    ensures { nodes.new.items ≡ grant_counted context nodes.old.items }
{
    let at = context as usize;
    if at == nodes.len() {
        nodes.push_reserved(Node {
            grants: 1,
            accesses: 0,
        });
        return;
    }
    let node = nodes[at];
    nodes[at] = Node {
        grants: node.grants + 1,
        ..node
    };
}

// Counts an entry of a block of a context.
fn count_access(nodes: &mut Vec<Node>, context: u32)
    requires known { context < vec_len nodes.old }
    requires small { (d : NodeValue) → (slice_index_or nodes.old.items context d).accesses < 2 ^ 32 }
    ensures { nodes.new.items ≡ access_counted context nodes.old.items }
{
    let at = context as usize;
    let node = nodes[at];
    nodes[at] = Node {
        accesses: node.accesses + 1,
        ..node
    };
}

// Whether a block is among the living ones.
fn is_live(lives: &[bool], block: u32) -> bool
    ensures { IsTrue result ↔ (slice_get lives.now block ≡ Some true) }
{
    match lives.get(block as usize) {
        Some(lives) => *lives,
        None => false,
    }
}

impl Affinity {
    /// An affinity of this distance, in bytes, before any event. It takes no memory.
    pub fn new(alloc: Global, distance: u32) -> Self
        requires { distance ≤ 4096 }
        ensures seen { result ≡ blank_affinity distance }
        ensures pushed { Pushed result [] }
    {
        Affinity {
            distance,
            accesses: 0,
            lives: Vec::new(alloc),
            grants: Grants::new(alloc),
            ring: Ring::new(alloc),
            nodes: Vec::new(alloc),
            weights: IndexMap::new(alloc),
        }
    }

    /// Whether an event may come next, as [`Affinity::push`] asks for it.
    pub fn takes(&self, event: Event) -> bool
        ensures { IsTrue result ↔ Takes self.now event }
    {
        match event {
            Event::Grant { block, context } => {
                block as usize == self.grants.len()
                    && context as usize <= self.grants.count()
                    && block < 4294967295
            }
            Event::Access { block, width } => {
                width > 0 && is_live(&self.lives, block) && self.accesses < 4294967295
            }
            Event::Release { block } => is_live(&self.lives, block),
        }
    }

    // Takes the grant of the next block.
    fn grant(&mut self, context: u32) -> Result<(), AllocError>
        requires { Takes self.old (Grant self.old.grants context) }
        ensures distance { self.new.distance ≡ self.old.distance }
        ensures pushed { OnOk result ((h : List EventValue) → Pushed self.old h
            → Pushed self.new (h ++ Grant self.old.grants context ∷ [])) }
        ensures err { OnErr result (self.new ≡ self.old) }
    {
        self.lives.reserve(1)?;
        self.nodes.reserve(1)?;
        add_grant(&mut self.grants, &mut self.ring, context)?;
        self.lives.push_reserved(true);
        count_grant(&mut self.nodes, context);
        Ok(())
    }

    // Takes an access to a living block.
    fn access(&mut self, block: u32, width: u32) -> Result<(), AllocError>
        requires { Takes self.old (Access block width) }
        ensures distance { self.new.distance ≡ self.old.distance }
        ensures pushed { OnOk result ((h : List EventValue) → Pushed self.old h
            → Pushed self.new (h ++ Access block width ∷ [])) }
        ensures err { OnErr result (self.new ≡ self.old) }
    {
        if self.ring.ends_with(block) {
            self.accesses += 1;
            return Ok(());
        }
        let context = self.grants.context(block);
        self.weights.reserve(self.ring.len())?;
        self.ring.enter(self.distance, Entry { block, width })?;
        count_near(&mut self.weights, &self.grants, &self.ring, block);
        count_access(&mut self.nodes, context);
        self.accesses += 1;
        Ok(())
    }

    // Takes the release of a living block.
    fn release(&mut self, block: u32)
        requires { Takes self.old (Release block) }
        ensures distance { self.new.distance ≡ self.old.distance }
        ensures pushed { (h : List EventValue) → Pushed self.old h → Pushed self.new (h ++ Release block ∷ []) }
    {
        self.lives[block as usize] = false;
    }

    /// Takes an event, or fails for want of memory and stays as it was.
    ///
    /// A grant names the next block; its context was named before or is the next new one. An access
    /// has a width of at least 1, and it and a release name a block that lives. An access takes time by
    /// the entries in reach, and no memory once the tables have grown.
    pub fn push(&mut self, event: Event) -> Result<(), AllocError>
        requires { Takes self.old event }
        ensures distance { self.new.distance ≡ self.old.distance }
        ensures pushed { OnOk result ((h : List EventValue) → Pushed self.old h → Pushed self.new (h ++ event ∷ [])) }
        ensures err { OnErr result (self.new ≡ self.old) }
    {
        match event {
            Event::Grant { context, .. } => self.grant(context),
            Event::Access { block, width } => self.access(block, width),
            Event::Release { block } => {
                self.release(block);
                Ok(())
            }
        }
    }

    /// How many entries of the access list are kept: those in reach of the last one, and that one.
    pub fn kept(&self) -> u32
        ensures kept { (h : List EventValue) → Pushed self.now h → result ≡ kept_of self.now.distance (access_list h) }
        ensures few { result ≤ self.now.distance + 1 }
    {
        self.ring.len() as u32
    }

    /// The graph of the events so far.
    pub fn graph(&self, alloc: Global) -> Result<Graph, AllocError>
        ensures exact { IfOk result (λ g. (h : List EventValue) → Pushed self.now h → IsGraph self.now.distance h g) }
        ensures counts { IfOk result (λ g. All (λ n. (n.grants < 2 ^ 32) × (n.accesses < 2 ^ 32)) g.nodes) }
    {
        graph_of(alloc, &self.nodes, &self.weights)
    }
}
