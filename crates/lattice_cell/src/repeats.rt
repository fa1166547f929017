ghost use Rattle.std.specs.Prelude.{◌≡◌, ◌+◌, ◌*◌, ◌<◌, ◌≤◌, ◌%◌, IfOk, length, map, slice_index};
ghost use Rattle.std.specs.List.{range_with_len};
ghost use Rattle.kmc_base.specs.declared.limits.TheConstants.{MAX_SITES};
ghost use Rattle.lattice_cell.specs.Cells.{cell_at, displaced, site_at};

use crate::cell::Toward;
use std::alloc::{AllocError, Global};

/// How often a cell of so many sites is repeated.
#[derive(Clone, Copy)]
pub(crate) struct Repeats {
    pub(crate) nx: u32,
    pub(crate) ny: u32,
    /// The sites of a cell.
    pub(crate) sites: u32,
    ghost has_a_site: { 1 ≤ nx * ny * sites },
    ghost within_limit: { nx * ny * sites ≤ MAX_SITES },
}

impl Repeats {
    /// How many cells there are.
    pub(crate) fn cells(self) -> u32
        ensures { result ≡ self.nx * self.ny }
    {
        self.nx * self.ny
    }

    /// How many sites there are.
    pub(crate) fn count(self) -> u32
        ensures { result ≡ self.nx * self.ny * self.sites }
    {
        self.cells() * self.sites
    }

    /// The number of a site of a cell.
    pub(crate) fn site(self, cell: u32, place: u32) -> u32
        requires cell { cell < self.nx * self.ny }
        requires place { place < self.sites }
        ensures value { result ≡ site_at self.sites cell place }
        ensures inside { result < self.nx * self.ny * self.sites }
    {
        cell * self.sites + place
    }

    /// The number of the cell in a column and a row.
    fn cell_at(self, column: u32, row: u32) -> u32
        requires column { column < self.nx }
        requires row { row < self.ny }
        ensures value { result ≡ cell_at self.ny column row }
        ensures inside { result < self.nx * self.ny }
    {
        column * self.ny + row
    }

    /// The cell to which a displacement leads.
    #[tactic(auto, unfolding(crate::specs::Cells::displaced))]
    pub(crate) fn displaced(self, cell: u32, toward: Toward) -> u32
        requires { cell < self.nx * self.ny }
        ensures value { result ≡ displaced self.nx self.ny toward cell }
        ensures inside { result < self.nx * self.ny }
    {
        let column = (cell / self.ny + toward.steps_east()) % self.nx;
        let row = (cell % self.ny + toward.steps_north(self.ny)) % self.ny;
        self.cell_at(column, row)
    }

    /// The type of each site, from the types of a cell's sites.
    pub(crate) fn types(self, alloc: Global, cell: &[u16]) -> Result<Vec<u16>, AllocError>
        requires { length cell.now ≡ self.sites }
        ensures { IfOk result (λ types. types.items
            ≡ map (λ s. slice_index cell.now (s % length cell.now)) (range_with_len 0 (self.nx * self.ny * self.sites))) }
    {
        let mut types = Vec::new(alloc);
        for site in 0..self.count() {
            types.push(cell[(site % self.sites) as usize])?;
        }
        Ok(types)
    }
}
