use std::error::Error;
use std::fmt;

/// Why a word is no decimal.
#[derive(Clone, Copy, Debug, PartialEq, Eq, Hash)]
pub enum DecimalFault {
    /// It has not the form of a decimal.
    Form,
    /// Its digits are not 0, and its power of ten is outside -400 to 400.
    Power,
}

impl fmt::Display for DecimalFault {
    fn fmt<W: fmt::Write>(&self, f: &mut fmt::Formatter<W>) -> fmt::Result {
        match self {
            DecimalFault::Form => f.write_str("not a decimal number"),
            DecimalFault::Power => f.write_str("power outside -400 to 400"),
        }
    }
}

impl Error for DecimalFault {}

/// A word is no whole number below 2^64.
#[derive(Clone, Copy, Debug, PartialEq, Eq, Hash)]
pub struct NotWhole;

impl fmt::Display for NotWhole {
    fn fmt<W: fmt::Write>(&self, f: &mut fmt::Formatter<W>) -> fmt::Result {
        f.write_str("not a whole number")
    }
}

impl Error for NotWhole {}

/// A scaled decimal is outside its bounds.
#[derive(Clone, Copy, Debug, PartialEq, Eq, Hash)]
pub struct OutOfRange;

impl fmt::Display for OutOfRange {
    fn fmt<W: fmt::Write>(&self, f: &mut fmt::Formatter<W>) -> fmt::Result {
        f.write_str("out of range")
    }
}

impl Error for OutOfRange {}
