ghost use Rattle.std.specs.Prelude.{◌≡◌, ◌-◌, ◌*◌, ◌/◌, ◌%◌, ◌^◌, ◌<◌, ◌≤◌, ℕ, List};
ghost use Rattle.lattice_core.specs.SiteList.{site_numbers};
ghost use Rattle.pattern_types.specs.Parts.{vertex_count};
ghost use Rattle.pattern_types.specs.declared.limits.TheConstants.{MAX_PROCESSES};
ghost use Rattle.pattern_list.specs.Code.{code_of, slot_at, slots_code, HasCode, IsCode};

use crate::sites::{parent_of, site_of, vertex_at, with_site};
use kmc_base::{ProcId, SiteId};
use lattice_core::{Graph, MAX_NEIGHBOURS};
use pattern_types::{MAX_VERTICES, Pattern, Placement};

/// The slot of the vertex at a place of the order.
fn slot_at(graph: &Graph, pattern: &Pattern, sites: &[SiteId], place: u8) -> u8
    requires some { 1 ≤ place }
    requires few { place < vertex_count pattern.now }
    requires placed { HasCode graph.now pattern.now (site_numbers sites.now) }
    ensures value { result ≡ slot_at graph.now pattern.now (site_numbers sites.now) place }
    ensures few { result < MAX_NEIGHBOURS }
{
    prove!(0 < graph.len());
    prove!(place < pattern.len());
    let parent = site_of(sites, parent_of(pattern, place));
    let site = site_of(sites, vertex_at(pattern, place));
    graph.slot_of(parent, site).unwrap()
}

/// The slots of the places from the second on, each in its five bits.
fn slots_code(graph: &Graph, pattern: &Pattern, sites: &[SiteId]) -> u64
    requires { HasCode graph.now pattern.now (site_numbers sites.now) }
    ensures value { result ≡ slots_code graph.now pattern.now (site_numbers sites.now) }
    ensures below { result < 2 ^ 35 }
{
    prove!(0 < graph.len());
    let mut code = 0;
    for place in 1..pattern.len() {
        code += u64::from(slot_at(graph, pattern, sites, place)) << (35 - 5 * place);
    }
    code
}

/// The code of an instance of a process, a number below 2^65: `process * 2^55 + anchor * 2^35`, and for each place of the
/// order of the pattern's vertices, from 1 on, `slot * 2^(35 - 5 * place)`. The anchor is the site of vertex 1, and a
/// slot is that of a vertex's site among the neighbours of its parent's site. It takes no memory.
pub fn encode(graph: &Graph, process: ProcId, pattern: &Pattern, placement: &Placement) -> u128
    requires process { process.0 < MAX_PROCESSES }
    requires placed { HasCode graph.now pattern.now (site_numbers placement.now) }
    ensures code { result ≡ code_of graph.now process.0 pattern.now (site_numbers placement.now) }
    ensures below { result < 2 ^ 65 }
{
    prove!(0 < graph.len());
    prove!(0 < pattern.len());
    let sites = placement.sites();
    let anchor = site_of(sites, 1);
    let slots = slots_code(graph, pattern, sites);
    (u128::from(process.0) << 55) + (u128::from(anchor.0) << 35) + u128::from(slots)
}

/// The anchor that a code has.
fn anchor_in_code(code: u128) -> SiteId
    ensures { result.0 ≡ code / 2 ^ 35 % 2 ^ 20 }
{
    SiteId(((code >> 35) % (1 << 20)) as u32)
}

/// The slot that a code has for a place of the order.
fn slot_in_code(code: u128, place: u8) -> u8
    requires some { 1 ≤ place }
    requires few { place < MAX_VERTICES }
    ensures { result ≡ code / 2 ^ (35 - 5 * place) % 32 }
{
    ((code >> (35 - 5 * place)) % 32) as u8
}

/// The placement of a code of this pattern on this lattice. It takes no memory.
pub fn decode(graph: &Graph, pattern: &Pattern, code: u128) -> Placement
    requires { (process : ℕ) × (sites : List ℕ) × IsCode graph.now pattern.now code process sites }
    ensures { (process : ℕ) (sites : List ℕ) → IsCode graph.now pattern.now code process sites
        → site_numbers result ≡ sites }
{
    prove!(0 < graph.len());
    let mut sites = [SiteId(0); MAX_VERTICES];
    sites[0] = anchor_in_code(code);
    for place in 1..pattern.len() {
        let parent = site_of(&sites, parent_of(pattern, place));
        let site = graph.at_slot(parent, slot_in_code(code, place)).unwrap();
        sites = with_site(sites, vertex_at(pattern, place), site);
    }
    Placement::new(&sites[..usize::from(pattern.len())])
}

/// A code is that of one process and one placement. It does nothing.
pub fn one_code_one_instance(graph: &Graph, pattern: &Pattern, code: u128)
    ensures { (process other : ℕ) (sites others : List ℕ) → IsCode graph.now pattern.now code process sites
        → IsCode graph.now pattern.now code other others → (process ≡ other) × (sites ≡ others) }
{
    prove!(0 < graph.len());
    prove!(0 < pattern.len());
}
