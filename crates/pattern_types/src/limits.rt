/// The greatest number of vertices of a pattern.
pub const MAX_VERTICES: usize = 8;

/// The greatest number of clusters of a cluster expansion, each of which has a pattern.
pub const MAX_CLUSTERS: usize = 256;

/// The greatest number of processes of a mechanism: the number of a process has ten bits of an instance's code.
pub const MAX_PROCESSES: u16 = 1_024;
