ghost use Rattle.std.specs.Prelude.{◌≡◌};
ghost use Rattle.site_rows.specs.SiteNumbers.{is_no_site};

/// A number is that of no site: it is 0 or above `sites`. Where the number of sites is not known (`None`), no number is.
pub fn is_no_site(sites: Option<u64>, n: u64) -> bool
    ensures { result ≡ is_no_site sites n }
{
    match sites {
        Some(sites) => n == 0 || n > sites,
        None => false,
    }
}
