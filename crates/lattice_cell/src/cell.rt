ghost use Rattle.std.specs.Prelude.{◌≡◌, ◌≤◌};
ghost use Rattle.lattice_cell.specs.Cells.{steps_east, steps_north};

/// Which cell the second site of a join is in, seen from the cell of its first: the words of `neighboring_structure`
/// (Zacros manual), where `Own` is `self`. The cells are periodic: past the last comes the first.
#[derive(Clone, Copy, Debug, PartialEq, Eq, PartialOrd, Ord, Hash)]
pub enum Toward {
    /// The same cell.
    Own,
    /// The next cell in the second direction of the lattice.
    North,
    /// The next cell in both directions.
    Northeast,
    /// The next cell in the first direction.
    East,
    /// The next cell in the first direction, one back in the second.
    Southeast,
}

impl Toward {
    /// How many cells it leads in the first direction.
    pub(crate) fn steps_east(self) -> u32
        ensures { result ≡ steps_east self }
    {
        match self {
            Toward::Own | Toward::North => 0,
            Toward::Northeast | Toward::East | Toward::Southeast => 1,
        }
    }

    /// How many cells it leads in the second direction, where `ny` cells lie in it: one back is `ny - 1` on.
    pub(crate) fn steps_north(self, ny: u32) -> u32
        requires { 1 ≤ ny }
        ensures value { result ≡ steps_north ny self }
        ensures bound { result ≤ ny }
    {
        match self {
            Toward::Own | Toward::East => 0,
            Toward::North | Toward::Northeast => 1,
            Toward::Southeast => ny - 1,
        }
    }
}

/// In each cell, makes a site of it and a site of a displaced cell neighbours. Sites of a cell are counted from 0.
#[derive(Clone, Copy, Debug, PartialEq, Eq, PartialOrd, Ord, Hash)]
pub struct Join {
    /// The site of the cell.
    pub from: u32,
    /// The site of the displaced cell.
    pub to: u32,
    /// How that cell is displaced.
    pub toward: Toward,
}
