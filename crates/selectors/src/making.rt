// Rows and the sites that they need, as they are made one after the other.
ghost use Rattle.std.specs.Prelude.{◌≡◌, ◌+◌, ◌<◌, ◌≤◌, ◌^◌, length, IfOk, OnOk};
ghost use Rattle.selectors.specs.Rows.{with_new, mask_of, after_member, nothing, numbered};

use plan_core::{PlanLine, Row};
use std::alloc::{AllocError, Global};
use std::marker::Model;

/// The rows so far, their sites in the order of their bits, and how many members and rows were dropped.
#[derive(Drop)]
pub struct Making {
    rows: Vec<Row>,
    sites: Vec<u32>,
    dropped: u32,
}

impl Model for Making {
    ghost use Rattle.selectors.specs.Made.{Made};

    ghost Value = { Made };

    ghost view = { λ m. record { rows = m.rows.items; sites = m.sites.items; dropped = m.dropped } };
}

impl Making {
    /// Nothing yet.
    pub fn new(alloc: Global) -> Making
        ensures { result ≡ nothing }
    {
        Making {
            rows: Vec::new(alloc),
            sites: Vec::new(alloc),
            dropped: 0,
        }
    }

    /// Adds the row of a member of group `k` with this set.
    pub fn add(&mut self, alloc: Global, k: u8, set: &[u32]) -> Result<(), AllocError>
        requires room { self.old.dropped + 1 < 2 ^ 32 }
        requires few { length self.old.sites ≤ 32 }
        ensures ok { OnOk result (self.new ≡ after_member k set.now self.old) }
    {
        if set.is_empty() {
            self.dropped += 1;
            return Ok(());
        }
        let sites = with_new_sites(alloc, self.sites.as_slice(), set)?;
        if sites.len() > 32 {
            self.dropped += 1;
            return Ok(());
        }
        let row = Row {
            group: k,
            mask: mask(sites.as_slice(), set),
        };
        if self.rows.contains(&row) {
            return Ok(());
        }
        if self.rows.len() >= 64 {
            self.dropped += 1;
            return Ok(());
        }
        self.rows.push(row)?;
        self.sites = sites;
        Ok(())
    }

    /// The rows, the sites on their bits, and the number dropped.
    pub fn into_parts(self, alloc: Global) -> Result<(Vec<Row>, Vec<PlanLine>, u32), AllocError>
        requires { length self.sites ≤ 32 }
        ensures rows { IfOk result (λ parts. parts.0.items ≡ self.rows) }
        ensures sites { IfOk result (λ parts. parts.1.items ≡ numbered 0 self.sites) }
        ensures dropped { IfOk result (λ parts. parts.2 ≡ self.dropped) }
    {
        let Making {
            rows,
            sites,
            dropped,
        } = self;
        let lines = lines_of(alloc, sites.as_slice())?;
        Ok((rows, lines, dropped))
    }
}

// The sites with those of a set that are new.
fn with_new_sites(alloc: Global, sites: &[u32], set: &[u32]) -> Result<Vec<u32>, AllocError>
    ensures { IfOk result (λ all. all.items ≡ with_new sites.now set.now) }
{
    let mut all = Vec::from_slice(alloc, sites)?;
    for site in set {
        if !sites.contains(site) {
            all.push(*site)?;
        }
    }
    Ok(all)
}

// The bits of a set's sites.
fn mask(sites: &[u32], set: &[u32]) -> u32
    requires { length sites.now ≤ 32 }
    ensures { result ≡ mask_of sites.now set.now }
{
    let mut mask = 0;
    for i in (0..sites.len()).rev() {
        mask = 2 * mask + u32::from(set.contains(&sites[i]));
    }
    mask
}

// The sites, each on the bit of its place.
fn lines_of(alloc: Global, sites: &[u32]) -> Result<Vec<PlanLine>, AllocError>
    requires { length sites.now ≤ 32 }
    ensures { IfOk result (λ lines. lines.items ≡ numbered 0 sites.now) }
{
    let mut lines = Vec::new(alloc);
    for (i, addr) in sites.iter().enumerate() {
        lines.push(PlanLine {
            bit: i as u8,
            addr: *addr,
        })?;
    }
    Ok(lines)
}
