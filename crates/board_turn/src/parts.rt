ghost use Rattle.std.specs.Prelude.{◌≡◌, ℕ, ◌^◌, bit_or, OnOk, IfErr};

use kmc_base::OutOfMemory;

/// What a board keeps: a value that takes findings, each for one piece of work, and knows which pieces are done.
///
/// A set of pieces is a mask, with bit `p` for piece `p`.
pub trait Parts: Sized {
    /// What the findings are judged against. It is handed to the board, and no running code looks at it.
    type Key: Drop + Send;

    /// What a worker found for a piece, to be put.
    type Finding;

    // The value is a patch of its done set under the key. The board never opens this.
    ghost is_patch: { Self → Self.Key → Type 0 };

    // That relation says at most one thing of a value and a key, so a type can keep it.
    ghost is_one_fact: { (parts : Self) (key : Self.Key) → IsProp (is_patch parts key) };

    // The finding is right for the key.
    ghost is_right: { Self.Key → Self.Finding → Type 0 };

    // The pieces that are done.
    ghost done_set: { Self → ℕ };

    // The piece that a finding is for.
    ghost piece_of: { Self.Finding → ℕ };

    /// The piece that the finding is for.
    fn piece(finding: &Self::Finding) -> u32
        ensures { result ≡ piece_of finding.now };

    /// Puts a finding that is right: its piece is done. A refusal changes nothing and hands the finding back.
    fn put(&mut self, finding: Self::Finding) -> Result<(), (Self::Finding, OutOfMemory)>
        requires { (key : Self.Key) × is_patch self.old key × is_right key finding }
        ensures done { OnOk result (done_set self.new ≡ bit_or (done_set self.old) (2 ^ piece_of finding)) }
        ensures patch { OnOk result ((key : Self.Key) → is_patch self.old key → is_right key finding → is_patch self.new key) }
        ensures refused { IfErr result (λ back. (back.0 ≡ finding) × (self.new ≡ self.old)) };

    /// The pieces that are done, as a mask.
    fn done(&self) -> u64
        ensures { result ≡ done_set self.now };
}
