//! What the number of a deck decides.

ghost use Rattle.std.specs.Prelude.{◌≡◌};
ghost use Rattle.deck_maker.specs.MadeDeck.{made_kelvin, made_seed, made_side, made_steps};

/// The random seed of a deck.
pub(crate) fn seed_of(number: u32) -> u64
    ensures { result ≡ made_seed number }
{
    1000 + u64::from(number)
}

/// The temperature of a deck, in K.
pub(crate) fn kelvin_of(number: u32) -> u64
    ensures { result ≡ made_kelvin number }
{
    500 + 10 * (u64::from(number) / 2)
}

/// How many sites each side of the lattice of a deck has.
pub(crate) fn side_of(number: u32) -> u32
    ensures { result ≡ made_side number }
{
    if number % 2 == 0 { 10 } else { 100 }
}

/// The greatest number of events of a run of a deck.
pub(crate) fn steps_of(number: u32) -> u32
    ensures { result ≡ made_steps number }
{
    if number % 2 == 0 { 200 } else { 5000 }
}
