use std::error::Error;
use std::fmt;

/// What is wrong with the parts of a pattern, in the order in which faults are looked for.
#[derive(Clone, Copy, Debug, PartialEq, Eq, Hash)]
pub enum PatternFault {
    /// There is no vertex.
    Empty,
    /// There are more than eight vertices.
    TooLarge,
    /// An end of an edge is no vertex, or both ends are one vertex.
    BadEdge,
    /// No walk of edges leads from some vertex to another.
    NotConnected,
    /// An entity names a dentate at two vertices.
    DoubleDentate,
    /// An entity names two species.
    TwoSpecies,
}

impl fmt::Display for PatternFault {
    fn fmt<W: fmt::Write>(&self, f: &mut fmt::Formatter<W>) -> fmt::Result {
        f.write_str(match self {
            PatternFault::Empty => "a pattern has at least one vertex",
            PatternFault::TooLarge => "a pattern has at most eight vertices",
            PatternFault::BadEdge => "an edge joins two different vertices of its pattern",
            PatternFault::NotConnected => "the vertices of a pattern are connected",
            PatternFault::DoubleDentate => "an entity of a pattern names a dentate once",
            PatternFault::TwoSpecies => "an entity of a pattern names one species",
        })
    }
}

impl Error for PatternFault {}
