ghost use Rattle.std.specs.Prelude.{◌≡◌, ℕ, ◌<◌, ◌≤◌, length, All, nat_le, not, find};
ghost use Rattle.std.specs.List.{list_any};
ghost use Rattle.std.specs.List.Sorted.{IsStrictlyIncreasing};
ghost use Rattle.lattice_core.specs.Fault.{has_bad_site, site_fault, first_fault};
ghost use Rattle.lattice_core.specs.SiteList.{site_numbers, number_lists, is_listed, list_of};

use crate::fault::GraphFault;
use crate::graph::MAX_NEIGHBOURS;
use crate::site_list::{has_site, list_at};
use kmc_base::{MAX_SITES, SiteId};

/// Whether a list has a number that is none of so many sites.
fn has_bad_site(list: &[SiteId], count: usize) -> bool
    ensures { result ≡ list_any (λ t. nat_le count t) (site_numbers list.now) }
{
    list.iter().any(|site| count <= site.0 as usize)
}

/// The first site of a list whose own list does not name the site.
fn one_sided(lists: &[Vec<SiteId>], list: &[SiteId], site: SiteId) -> Option<u32>
    requires rising { (s : ℕ) → IsStrictlyIncreasing (list_of (number_lists lists.now) s) }
    requires sites { All (λ t. t < length lists.now) (site_numbers list.now) }
    ensures { result
        ≡ find (λ t. not (is_listed (list_of (number_lists lists.now) t) site.0)) (site_numbers list.now) }
{
    for other in list {
        if !has_site(list_at(lists, *other), site) {
            return Some(other.0);
        }
    }
    None
}

/// The first fault of a site, of lists that rise.
fn site_fault(lists: &[Vec<SiteId>], site: SiteId) -> Option<GraphFault>
    requires rising { (s : ℕ) → IsStrictlyIncreasing (list_of (number_lists lists.now) s) }
    requires inside { site.0 < length lists.now }
    ensures { result ≡ site_fault (number_lists lists.now) site.0 }
{
    let list = list_at(lists, site);
    if has_bad_site(list, lists.len()) {
        return Some(GraphFault::BadSite(site.0));
    }
    if has_site(list, site) {
        return Some(GraphFault::SelfNeighbour(site.0));
    }
    if list.len() > MAX_NEIGHBOURS {
        return Some(GraphFault::TooMany(site.0));
    }
    let other = one_sided(lists, list, site)?;
    Some(GraphFault::OneSided(site.0, other))
}

/// The first fault of lists that rise.
pub(crate) fn first_fault(lists: &[Vec<SiteId>]) -> Option<GraphFault>
    requires rising { (s : ℕ) → IsStrictlyIncreasing (list_of (number_lists lists.now) s) }
    requires within_limit { length lists.now ≤ MAX_SITES }
    ensures { result ≡ first_fault (number_lists lists.now) }
{
    for site in 0..lists.len() as u32 {
        let fault = site_fault(lists, SiteId(site));
        if fault.is_some() {
            return fault;
        }
    }
    None
}
