ghost use Rattle.std.specs.Prelude.{◌≡◌};

/// How a word is read: a number in its range, for example.
pub trait ReadWord {
    ghost use Rattle.std.specs.Prelude.{ℕ, List, Result};

    /// What the word means.
    type Value: Drop;

    /// It can be used: the bounds of its range, for example, can be compared with any decimal.
    ghost is_usable: { Self → Type 0 };

    /// The value of a word, or the kind of its fault.
    ghost value_of: { Self → List ℕ → Result Self.Value ℕ };

    /// The value of a word, or the kind of its fault.
    fn read(&self, word: &[u8]) -> Result<Self::Value, u8>
        requires { is_usable self.now }
        ensures { result ≡ value_of self.now word.now };
}
