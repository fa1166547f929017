//! How far from a fired instance the anchors are of instances whose rates may have changed.

ghost use Rattle.std.specs.Prelude.{◌≡◌, ◌≤◌, map, max};
ghost use Rattle.pattern_types.specs.Parts.{vertex_count};
ghost use Rattle.pattern_types.specs.declared.limits.TheConstants.{MAX_VERTICES};
ghost use Rattle.rate_rules.specs.Soundness.{greatest, radius_of};

use rate_rules::{Cluster, Process};

/// The greater of two numbers.
fn greater(a: u8, b: u8) -> u8
    ensures { result ≡ max a b }
{
    if a < b { b } else { a }
}

/// The greatest number of vertices of the sides before some processes, and 1 if there are none.
fn greatest_process(processes: &[Process]) -> u8
    ensures value { result ≡ greatest (map (λ p. vertex_count p.before) processes.now) }
    ensures some { 1 ≤ result }
    ensures few { result ≤ MAX_VERTICES }
{
    let mut most = 1;
    for process in processes {
        most = greater(most, process.before.len());
    }
    most
}

/// The greatest number of vertices of some clusters, and 1 if there are none.
fn greatest_cluster(clusters: &[Cluster]) -> u8
    ensures value { result ≡ greatest (map (λ c. vertex_count c.pattern) clusters.now) }
    ensures some { 1 ≤ result }
    ensures few { result ≤ MAX_VERTICES }
{
    let mut most = 1;
    for cluster in clusters {
        most = greater(most, cluster.pattern.len());
    }
    most
}

/// The radius of a chemistry of these processes and clusters.
pub(crate) fn radius_of(processes: &[Process], clusters: &[Cluster]) -> u32
    ensures { result ≡ radius_of processes.now clusters.now }
{
    u32::from(greatest_process(processes) - 1) + u32::from(greatest_cluster(clusters) - 1)
}
