ghost use Rattle.std.specs.Prelude.{◌≡◌, ◌==◌, ◌↔◌, ◌<◌, ℕ, All, Contains, OnOk, IfOk, length, drop, vec_len, false, slice_index_or, []};
ghost use Rattle.std.specs.List.{list_any};
ghost use Rattle.lattice_core.specs.Ball.{ball, is_reached, IsNear};
ghost use Rattle.lattice_core.specs.Lattice.{site_count, neighbours_of, IsLattice};
ghost use Rattle.lattice_core.specs.SiteList.{site_numbers, is_listed, Adds, BeginsWith};

use crate::graph::Graph;
use crate::site_list::sort_sites;
use kmc_base::{OutOfMemory, SiteId};
use std::alloc::Global;

/// The sites that a walk has come to, in the order in which it came to them.
#[derive(Drop)]
struct Visited {
    /// Whether each site was visited.
    marks: Vec<bool>,
    /// The visited sites.
    sites: Vec<SiteId>,
    ghost marked: { (s : ℕ) → s < length marks.items → slice_index_or marks.items s false ≡ is_listed (site_numbers sites.items) s },
    ghost inside: { All (λ s. s < length marks.items) (site_numbers sites.items) },
}

impl Visited {
    /// No site yet, of so many.
    fn none(alloc: Global, count: usize) -> Result<Visited, OutOfMemory>
        ensures count { IfOk result (λ v. vec_len v.marks ≡ count) }
        ensures none { IfOk result (λ v. v.sites.items ≡ []) }
    {
        let marks = vec![in alloc; false; count]?;
        Ok(Visited {
            marks,
            sites: Vec::new(alloc),
        })
    }

    /// Visits a site.
    fn visit(&mut self, site: SiteId) -> Result<(), OutOfMemory>
        requires { site.0 < vec_len self.old.marks }
        ensures count { vec_len self.new.marks ≡ vec_len self.old.marks }
        ensures adds { OnOk result (Adds (site_numbers self.old.sites.items) (site_numbers self.new.sites.items) (λ s. site.0 == s)) }
        ensures front { BeginsWith (site_numbers self.new.sites.items) (site_numbers self.old.sites.items) }
    {
        if !self.marks[site.0 as usize] {
            self.sites.push(site)?;
            self.marks[site.0 as usize] = true;
        }
        Ok(())
    }

    /// Visits each site of a list.
    fn visit_all(&mut self, sites: &[SiteId]) -> Result<(), OutOfMemory>
        requires { All (λ s. s < vec_len self.old.marks) (site_numbers sites.now) }
        ensures count { vec_len self.new.marks ≡ vec_len self.old.marks }
        ensures adds { OnOk result (Adds (site_numbers self.old.sites.items) (site_numbers self.new.sites.items) (is_listed (site_numbers sites.now))) }
        ensures front { BeginsWith (site_numbers self.new.sites.items) (site_numbers self.old.sites.items) }
    {
        for site in sites {
            self.visit(*site)?;
        }
        Ok(())
    }

    /// Visits the neighbours of each site that was visited, from a place of the order on.
    fn visit_neighbours(&mut self, graph: &Graph, first: usize) -> Result<(), OutOfMemory>
        requires count { vec_len self.old.marks ≡ site_count graph.now }
        requires lattice { IsLattice graph.now }
        ensures count { vec_len self.new.marks ≡ vec_len self.old.marks }
        ensures adds { OnOk result (Adds (site_numbers self.old.sites.items) (site_numbers self.new.sites.items)
            (λ s. list_any (λ f. is_listed (neighbours_of graph.now f) s) (drop first (site_numbers self.old.sites.items)))) }
        ensures front { BeginsWith (site_numbers self.new.sites.items) (site_numbers self.old.sites.items) }
    {
        for place in first..self.sites.len() {
            let site = self.sites[place];
            self.visit_all(graph.neighbours(site))?;
        }
        Ok(())
    }

    /// Visits what a walk of so many steps reaches from the visited sites.
    fn visit_within(&mut self, graph: &Graph, radius: u32) -> Result<(), OutOfMemory>
        requires count { vec_len self.old.marks ≡ site_count graph.now }
        requires lattice { IsLattice graph.now }
        ensures count { vec_len self.new.marks ≡ vec_len self.old.marks }
        ensures reached { OnOk result ((s : ℕ) → is_listed (site_numbers self.new.sites.items) s
            ≡ is_reached graph.now (site_numbers self.old.sites.items) radius s) }
    {
        let mut first = 0;
        let mut steps = 0;
        while steps < radius && first < self.sites.len() {
            let next = self.sites.len();
            self.visit_neighbours(graph, first)?;
            first = next;
            steps += 1;
        }
        Ok(())
    }
}

impl Graph {
    /// The sites within a distance of the centres, in rising order, each once; the centres are among them.
    ///
    /// The distance of two sites is the least number of steps between them, each from a site to a neighbour. The work
    /// grows with the number of sites and the neighbours of the sites that are found.
    pub fn ball(
        &self,
        alloc: Global,
        centres: &[SiteId],
        radius: u32,
    ) -> Result<Vec<SiteId>, OutOfMemory>
        requires { All (λ s. s.0 < site_count self.now) centres.now }
        ensures ball { IfOk result (λ sites. site_numbers sites.items ≡ ball self.now (site_numbers centres.now) radius) }
        ensures near { IfOk result (λ sites. (s : ℕ) → Contains (site_numbers sites.items) s
            ↔ IsNear self.now (site_numbers centres.now) radius s) }
    {
        let mut visited = Visited::none(alloc, self.len() as usize)?;
        visited.visit_all(centres)?;
        visited.visit_within(self, radius)?;
        let Visited {
            marks: _,
            mut sites,
        } = visited;
        sort_sites(&mut sites);
        Ok(sites)
    }
}
