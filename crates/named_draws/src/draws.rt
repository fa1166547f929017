ghost use Rattle.std.specs.Prelude.{◌≡◌, ◌<◌, ◌^◌};
ghost use Rattle.named_draws.specs.Draw.{draw, key_bytes as key_bytes_lem};

use rand_chacha::ChaCha8Rng;
use rand_core::{SeedableRng, utils};
use std::marker::Model;

/// The draws of one random seed. A contract sees it as that seed, which no draw changes.
#[derive(Debug, Drop)]
pub struct Draws {
    rng: ChaCha8Rng,
}

impl Model for Draws {
    ghost use Rattle.std.specs.Prelude.{◌≡◌, ℕ};
    ghost use Rattle.named_draws.specs.Draw.{key_words, seed_of_words};

    ghost Value = { ℕ };

    ghost view = { λ d. seed_of_words d.rng.key };

    ghost invariant = { λ d. d.rng.key ≡ key_words (seed_of_words d.rng.key) };
}

impl Draws {
    /// The draws of a random seed. The key of the cipher is the seed's eight bytes, low byte first,
    /// four times.
    pub fn new(seed: u64) -> Draws
        ensures { result ≡ seed }
    {
        Draws {
            rng: ChaCha8Rng::from_seed(key_bytes(seed)),
        }
    }

    /// The draw named by event `n` and the code of an instance, which is below 2^65: words `2 * code` (its
    /// low half) and `2 * code + 1` (its high half) of stream `n` of ChaCha with eight rounds (RFC 8439, with
    /// a 64-bit block counter and a 64-bit stream number in place of the nonce).
    pub fn draw(&mut self, n: u64, code: u128) -> u64
        requires { code < 2 ^ 65 }
        ensures value { result ≡ draw self.old n code }
        ensures seed { self.new ≡ self.old }
    {
        // From the start of a stream, changing the stream computes no words.
        self.rng.set_word_pos(0);
        self.rng.set_stream(n);
        self.rng.set_word_pos(2 * code);
        utils::next_u64_via_u32(&mut self.rng)
    }
}

/// The eight bytes of a random seed, low byte first, four times.
fn key_bytes(seed: u64) -> [u8; 32]
    ensures { result ≡ key_bytes_lem seed }
{
    let bytes = seed.to_le_bytes();
    let mut key = [0; 32];
    key[0..8].copy_from_slice(&bytes);
    key[8..16].copy_from_slice(&bytes);
    key[16..24].copy_from_slice(&bytes);
    key[24..32].copy_from_slice(&bytes);
    key
}
