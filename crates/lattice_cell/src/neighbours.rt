ghost use Rattle.std.specs.Prelude.{◌≡◌, ◌==◌, ◌&&◌, ◌||◌, ◌*◌, ◌<◌, ℕ, All, IfOk, OnOk, false, length, nat_lt, vec_len};
ghost use Rattle.std.specs.List.{list_any};
ghost use Rattle.lattice_core.specs.declared.graph.TheConstants.{MAX_NEIGHBOURS};
ghost use Rattle.lattice_core.specs.SiteList.{number_lists, AreMerged};
ghost use Rattle.lattice_cell.specs.Cells.{IsInCell};
ghost use Rattle.lattice_cell.specs.Periodic.{joins_sites, neighbour_lists};
ghost use Rattle.lattice_cell.specs.Naming.{names, HasEachOnce, NamesMore};

use crate::cell::Join;
use crate::distinct::distinct_joins;
use crate::repeats::Repeats;
use kmc_base::SiteId;
use lattice_core::MAX_NEIGHBOURS;
use std::alloc::{AllocError, Global};

/// The neighbours of each site so far, each once, in the order in which they were added.
#[derive(Drop)]
pub(crate) struct Neighbours {
    lists: Vec<Vec<SiteId>>,
    /// Some site has more than `MAX_NEIGHBOURS` of them.
    is_crowded: bool,
    ghost each_once: { HasEachOnce (number_lists lists.items) },
    ghost crowded: { is_crowded ≡ list_any (λ list. nat_lt MAX_NEIGHBOURS (length list)) (number_lists lists.items) },
}

impl Neighbours {
    /// No neighbours yet, of so many sites.
    pub(crate) fn none(alloc: Global, count: u32) -> Result<Neighbours, AllocError>
        ensures count { IfOk result (λ v. vec_len v.lists ≡ count) }
        ensures none { IfOk result (λ v. (s t : ℕ) → names v.lists.items s t ≡ false) }
        ensures few { IfOk result (λ v. v.is_crowded ≡ false) }
    {
        let mut lists = Vec::new(alloc);
        for _ in 0..count {
            lists.push(Vec::new(alloc))?;
        }
        Ok(Neighbours {
            lists,
            is_crowded: false,
        })
    }

    /// Whether some site has more than `MAX_NEIGHBOURS` neighbours so far.
    pub(crate) fn is_crowded(&self) -> bool
        ensures { result ≡ self.now.is_crowded }
    {
        self.is_crowded
    }

    /// Whether the list of a site has another.
    fn has(&self, s: u32, t: u32) -> bool
        requires { s < vec_len self.now.lists }
        ensures { result ≡ names self.now.lists.items s t }
    {
        self.lists[s as usize].contains(&SiteId(t))
    }

    /// Adds a site at the end of the list of another, which does not have it yet.
    fn push(&mut self, s: u32, t: u32) -> Result<(), AllocError>
        requires first { s < vec_len self.old.lists }
        requires second { t < vec_len self.old.lists }
        requires new { names self.old.lists.items s t ≡ false }
        ensures count { vec_len self.new.lists ≡ vec_len self.old.lists }
        ensures more { OnOk result (NamesMore self.old.lists.items self.new.lists.items
            (λ a b. (s == a) && (t == b))) }
    {
        let list = &mut self.lists[s as usize];
        list.push(SiteId(t))?;
        if list.len() > MAX_NEIGHBOURS {
            self.is_crowded = true;
        }
        Ok(())
    }

    /// Adds a site to the list of another, unless it has it already.
    fn add(&mut self, s: u32, t: u32) -> Result<(), AllocError>
        requires first { s < vec_len self.old.lists }
        requires second { t < vec_len self.old.lists }
        ensures count { vec_len self.new.lists ≡ vec_len self.old.lists }
        ensures more { OnOk result (NamesMore self.old.lists.items self.new.lists.items
            (λ a b. (s == a) && (t == b))) }
    {
        if !self.has(s, t) {
            self.push(s, t)?;
        }
        Ok(())
    }

    /// Makes two sites neighbours.
    fn join(&mut self, s: u32, t: u32) -> Result<(), AllocError>
        requires first { s < vec_len self.old.lists }
        requires second { t < vec_len self.old.lists }
        ensures count { vec_len self.new.lists ≡ vec_len self.old.lists }
        ensures more { OnOk result (NamesMore self.old.lists.items self.new.lists.items
            (λ a b. (s == a) && (t == b) || (s == b) && (t == a))) }
    {
        self.add(s, t)?;
        self.add(t, s)?;
        Ok(())
    }

    /// Makes the sites of a join neighbours, in each cell.
    pub(crate) fn join_cells(&mut self, repeats: Repeats, join: Join) -> Result<(), AllocError>
        requires count { vec_len self.old.lists ≡ repeats.nx * repeats.ny * repeats.sites }
        requires ends { IsInCell repeats.sites join }
        ensures count { vec_len self.new.lists ≡ vec_len self.old.lists }
        ensures more { OnOk result (NamesMore self.old.lists.items self.new.lists.items
            (λ a b. joins_sites repeats.nx repeats.ny repeats.sites join a b
            || joins_sites repeats.nx repeats.ny repeats.sites join b a)) }
    {
        for cell in 0..repeats.cells() {
            let other = repeats.displaced(cell, join.toward);
            let s = repeats.site(cell, join.from);
            let t = repeats.site(other, join.to);
            self.join(s, t)?;
        }
        Ok(())
    }
}

/// The neighbours of each site. Its work grows with the number of joins, equal ones too.
fn joined_lists(
    alloc: Global,
    repeats: Repeats,
    joins: &[Join],
) -> Result<Vec<Vec<SiteId>>, AllocError>
    requires { All (IsInCell repeats.sites) joins.now }
    ensures count { IfOk result (λ lists. vec_len lists ≡ repeats.nx * repeats.ny * repeats.sites) }
    ensures lists { IfOk result (λ lists. AreMerged (number_lists lists.items)
        (neighbour_lists repeats.nx repeats.ny repeats.sites joins.now)) }
{
    let mut neighbours = Neighbours::none(alloc, repeats.count())?;
    for join in joins {
        neighbours.join_cells(repeats, *join)?;
    }
    Ok(neighbours.lists)
}

/// The neighbours of each site.
pub(crate) fn neighbour_lists(
    alloc: Global,
    repeats: Repeats,
    joins: &[Join],
) -> Result<Vec<Vec<SiteId>>, AllocError>
    requires { All (IsInCell repeats.sites) joins.now }
    ensures count { IfOk result (λ lists. vec_len lists ≡ repeats.nx * repeats.ny * repeats.sites) }
    ensures lists { IfOk result (λ lists. AreMerged (number_lists lists.items)
        (neighbour_lists repeats.nx repeats.ny repeats.sites joins.now)) }
{
    let joins = distinct_joins(alloc, joins)?;
    joined_lists(alloc, repeats, &joins)
}
