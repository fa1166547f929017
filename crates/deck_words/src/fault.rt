ghost use Rattle.std.specs.Prelude.{◌≡◌, ◌⊎◌, true};
ghost use Rattle.deck_words.specs.Faults.{at_line, both, earlier, earliest, fault_of, is_before, with_fault};
ghost use Rattle.deck_words.specs.declared.fault.LineFault.{LineFault as FaultOfLine};

/// A fault of a file.
#[derive(Clone, Copy, Debug, PartialEq, Eq)]
pub struct LineFault {
    /// The number of its line, from 1.
    pub line: u32,
    /// Its kind, one of the numbers of `kind`.
    pub kind: u8,
}

/// Which of two faults of a file counts: the one of the earlier line, and of one line the one of the lesser kind.
pub fn earlier(a: LineFault, b: LineFault) -> LineFault
    ensures value { result ≡ earlier a b }
    ensures one_of_them { (result ≡ a) ⊎ (result ≡ b) }
    ensures before_the_first { is_before result a ≡ true }
    ensures before_the_second { is_before result b ≡ true }
{
    if a.line < b.line || (a.line == b.line && a.kind <= b.kind) {
        a
    } else {
        b
    }
}

/// The fault that counts of several is the same in whatever order they are compared. It does nothing: its contract is
/// a law.
pub fn earlier_is_least()
    ensures order { (a b : FaultOfLine) → earlier a b ≡ earlier b a }
    ensures groups { (a b c : FaultOfLine) → earlier (earlier a b) c ≡ earlier a (earlier b c) }
{}

/// The earlier of two faults, where there are any.
pub fn earliest(a: Option<LineFault>, b: Option<LineFault>) -> Option<LineFault>
    ensures { result ≡ earliest a b }
{
    match (a, b) {
        (None, other) => other,
        (Some(fault), None) => Some(fault),
        (Some(fault), Some(other)) => Some(earlier(fault, other)),
    }
}

/// The fault of a reading.
pub fn fault_of<T: Drop>(reading: Result<T, LineFault>) -> Option<LineFault>
    ensures { result ≡ fault_of reading }
{
    match reading {
        Ok(_) => None,
        Err(fault) => Some(fault),
    }
}

/// What is read on a line, with the line for its fault.
pub fn at_line<T>(line: u32, reading: Result<T, u8>) -> Result<T, LineFault>
    ensures { result ≡ at_line line reading }
{
    match reading {
        Ok(value) => Ok(value),
        Err(kind) => Err(LineFault { line, kind }),
    }
}

/// Two values, or the fault of them that counts.
pub fn both<A: Drop, B: Drop>(
    a: Result<A, LineFault>,
    b: Result<B, LineFault>,
) -> Result<(A, B), LineFault>
    ensures { result ≡ both a b }
{
    match (a, b) {
        (Ok(a), Ok(b)) => Ok((a, b)),
        (Ok(_), Err(fault)) | (Err(fault), Ok(_)) => Err(fault),
        (Err(a), Err(b)) => Err(earlier(a, b)),
    }
}

/// A value, unless there is another fault; then the fault that counts.
pub fn with_fault<T: Drop>(
    fault: Option<LineFault>,
    reading: Result<T, LineFault>,
) -> Result<T, LineFault>
    ensures { result ≡ with_fault fault reading }
{
    match (fault, reading) {
        (None, reading) => reading,
        (Some(fault), Ok(_)) => Err(fault),
        (Some(fault), Err(other)) => Err(earlier(fault, other)),
    }
}
