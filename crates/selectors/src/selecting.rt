// The rows and sites of groups.
ghost use Rattle.std.specs.Prelude.{◌≡◌, ◌<◌, ◌≤◌, ◌+◌, ◌^◌, length, All, IfOk, OnOk};
ghost use Rattle.selectors.specs.Sets.{holds_in, AreApart};
ghost use Rattle.selectors.specs.Rows.{Rows, Selects};
ghost use Rattle.selectors.specs.Counting.{IsRising};
ghost use Rattle.selectors.specs.Fitting.{IsFitting};

use crate::making::Making;
use crate::next_site::set_of;
use crate::site_sets::{insiders, outsiders, sorted};
use plan_core::{Context, Groups, Members, PlanLines, Profile, RowList};
use std::alloc::{AllocError, Global};

/// The rows of groups, the sites that they need, and how much was left out.
#[derive(Debug, Drop)]
pub struct Selected {
    /// The rows, in the order of the groups and of their members.
    pub rows: RowList,
    /// The sites, in the order of their bits.
    pub sites: PlanLines,
    /// How many members and rows were dropped.
    pub dropped: u32,
}

/// The rows and sites that tell the members of groups from other contexts, as far as sites can.
pub fn select(alloc: Global, profile: &Profile, groups: &Groups) -> Result<Selected, AllocError>
    requires few_groups { length groups.now ≤ 16 }
    requires few_contexts { length profile.now.contexts < 2 ^ 32 }
    requires apart { AreApart groups.now }
    ensures rows { IfOk result (Rows (holds_in profile.now.contexts) (length profile.now.contexts) groups.now) }
    ensures fitting { IfOk result (IsFitting profile.now.contexts) }
{
    let sets = sorted(alloc, profile.contexts.as_slice())?;
    let making = make(alloc, sets.as_slice(), groups.as_slice())?;
    let (rows, sites, dropped) = making.into_parts(alloc)?;
    Ok(Selected {
        rows: RowList::from(rows),
        sites: PlanLines::from(sites),
        dropped,
    })
}

// What all groups give.
fn make(alloc: Global, sets: &[Context], groups: &[Members]) -> Result<Making, AllocError>
    requires sets { All IsRising sets.now }
    requires few_groups { length groups.now ≤ 16 }
    requires few_contexts { length sets.now < 2 ^ 32 }
    requires apart { AreApart groups.now }
    ensures { IfOk result (Selects (holds_in sets.now) (length sets.now) groups.now (length groups.now) 0) }
{
    let mut making = Making::new(alloc);
    for k in 0..groups.len() {
        add_group(alloc, &mut making, sets, groups, k)?;
    }
    Ok(making)
}

// Adds what the members of a group give.
fn add_group(
    alloc: Global,
    making: &mut Making,
    sets: &[Context],
    groups: &[Members],
    k: usize,
) -> Result<(), AllocError>
    requires sets { All IsRising sets.now }
    requires few_groups { length groups.now ≤ 16 }
    requires few_contexts { length sets.now < 2 ^ 32 }
    requires apart { AreApart groups.now }
    requires group { k < length groups.now }
    requires before { Selects (holds_in sets.now) (length sets.now) groups.now k 0 making.old }
    ensures { OnOk result (Selects (holds_in sets.now) (length sets.now) groups.now (k + 1) 0 making.new) }
{
    let outside = outsiders(alloc, sets.len(), &groups[..=k])?;
    let members = insiders(alloc, sets.len(), &groups[k])?;
    for member in &members {
        let set = set_of(alloc, sets, outside.as_slice(), *member)?;
        making.add(alloc, k as u8, set.as_slice())?;
    }
    Ok(())
}
