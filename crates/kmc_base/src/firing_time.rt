/// The time at which an instance of a process would fire.
#[derive(Clone, Copy, Debug, PartialEq, Eq, Hash)]
pub enum When {
    /// A time in attoseconds (10^-18 s) since the start of the run, at most `END_OF_TIME`.
    At(u128),
    /// It never fires: it has no rate, or its time would be past `END_OF_TIME`.
    Never,
}
