ghost use Rattle.std.specs.Prelude.{◌≡◌};
ghost use Rattle.kmc_base.specs.Numbered.{first_of, next_fails, one_call_more};

use std::marker::Model;

/// Calls of one kind, numbered from 1, of which some are to fail.
#[derive(Debug, Drop)]
pub(crate) struct Calls {
    failing: Vec<u64>,
    made: u64,
}

impl Model for Calls {
    ghost use Rattle.kmc_base.specs.Numbered.{Numbered};

    ghost Value = { Numbered };

    ghost view = { λ c. record { failing = c.failing.items; made = c.made } };
}

impl Calls {
    pub(crate) fn new(failing: Vec<u64>) -> Self
        ensures { result ≡ first_of failing.items }
    {
        Calls { failing, made: 0 }
    }

    /// Counts the next call, and says whether it is one that fails.
    pub(crate) fn next(&mut self) -> bool
        ensures fails { result ≡ next_fails self.old }
        ensures counted { self.new ≡ one_call_more self.old }
    {
        self.made = self.made.saturating_add(1);
        self.failing.contains(&self.made)
    }
}
