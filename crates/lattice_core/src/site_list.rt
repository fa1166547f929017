ghost use Rattle.std.specs.Prelude.{◌≡◌, ◌==◌, ◌<◌, ℕ, length, position, slice_get};
ghost use Rattle.std.specs.Option.{option_map};
ghost use Rattle.std.specs.List.Sorted.{IsStrictlyIncreasing};
ghost use Rattle.lattice_core.specs.SiteList.{site_numbers, number_lists, is_listed, list_of};

use kmc_base::SiteId;

/// Puts sites into rising order, each once.
pub(crate) fn sort_sites(sites: &mut Vec<SiteId>)
    ensures rising { IsStrictlyIncreasing (site_numbers sites.new.items) }
    ensures same { (s : ℕ) → is_listed (site_numbers sites.new.items) s
        ≡ is_listed (site_numbers sites.old.items) s }
{
    sites.sort_unstable();
    sites.dedup();
}

/// Whether a rising list names a site.
pub(crate) fn has_site(sites: &[SiteId], site: SiteId) -> bool
    requires rising { IsStrictlyIncreasing (site_numbers sites.now) }
    ensures { result ≡ is_listed (site_numbers sites.now) site.0 }
{
    sites.binary_search(&site).is_ok()
}

/// The place of a site in a list, from 0.
pub(crate) fn place_of(sites: &[SiteId], site: SiteId) -> Option<usize>
    ensures { result ≡ position (λ t. t == site.0) (site_numbers sites.now) }
{
    sites.iter().position(|other| *other == site)
}

/// The list of a site.
pub(crate) fn list_at(lists: &[Vec<SiteId>], site: SiteId) -> &[SiteId]
    requires inside { site.0 < length lists.now }
    ensures { site_numbers result.now ≡ list_of (number_lists lists.now) site.0 }
{
    &lists[site.0 as usize]
}

/// The site at a place of a list, from 0.
pub(crate) fn site_in(sites: &[SiteId], place: usize) -> Option<SiteId>
    ensures { option_map (λ s. s.0) result ≡ slice_get (site_numbers sites.now) place }
{
    sites.get(place).copied()
}

/// The place of a site in a rising list, from 0.
pub(crate) fn find_site(sites: &[SiteId], site: SiteId) -> Option<usize>
    requires rising { IsStrictlyIncreasing (site_numbers sites.now) }
    ensures { result ≡ position (λ t. t == site.0) (site_numbers sites.now) }
{
    sites.binary_search(&site).ok()
}
