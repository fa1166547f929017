ghost use Rattle.std.specs.Prelude.{◌≡◌, ℕ, ◌++◌, List, Option, OnOk, OnErr, take};
ghost use Rattle.kmc_base.specs.Faults.{IsCount, Rose};
ghost use Rattle.kmc_base.specs.Told.{Tells};

use crate::error::Failed;

/// The screen that a run prints to.
///
/// It may report what it has taken: a real terminal reports nothing.
pub trait Sink {
    /// How often it has failed.
    ghost faults: { Self → ℕ };

    /// The bytes that it has taken, if it reports them.
    ghost taken: { Self → Option (List ℕ) };

    /// Prints bytes, after those that it has taken.
    ///
    /// # Errors
    ///
    /// A put that failed may have taken the first of the bytes.
    fn put(&mut self, piece: &[u8]) -> Result<(), Failed>
        ensures ok { OnOk result (Tells (taken self.old) (taken self.new) (λ then now. now ≡ then ++ piece.now)) }

        // The first of the bytes were taken, or none.
        ensures err { OnErr result (Tells (taken self.old) (taken self.new) (λ then now. ((n : ℕ) × (now ≡ then ++ take n piece.now)))) }
        ensures cause { OnErr result (Rose (faults self.old) (faults self.new)) }
        ensures few { OnErr result (IsCount (faults self.new)) }
        ensures no_fault { OnOk result (faults self.new ≡ faults self.old) };
}
