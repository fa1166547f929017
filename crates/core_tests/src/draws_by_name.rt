use named_draws::Draws;
use rand_chacha::ChaCha8Rng;
use rand_core::{Rng, SeedableRng};
use std::process::Abort;

/// The key of random seed 258: its eight bytes, low byte first, four times.
const KEY_OF_258: [u8; 32] = [
    2, 1, 0, 0, 0, 0, 0, 0, 2, 1, 0, 0, 0, 0, 0, 0, 2, 1, 0, 0, 0, 0, 0, 0, 2, 1, 0, 0, 0, 0, 0, 0,
];

/// An event, the first place in its stream, and how many draws are looked at.
const STREAMS: &[(u64, u128, u128)] = &[
    (0, 0, 40),
    (1, 0, 9),
    (7, 72_057_596_185_411_584, 20),
    (u64::MAX, 18_446_744_073_709_551_610, 12),
    (0, 36_893_488_147_419_103_222, 10),
];

/// The next two words of a stream, low word first.
fn next_two(words: &mut ChaCha8Rng) -> u64 {
    let low = u64::from(words.next_u32());
    let high = u64::from(words.next_u32());
    high << 32 | low
}

/// All codes are below 2^65.
const CODES: u128 = 36_893_488_147_419_103_232;

/// The draw of a name, where the code is one.
fn drawn(draws: &mut Draws, event: u64, code: u128) -> Option<u64> {
    if code < CODES {
        Some(draws.draw(event, code))
    } else {
        None
    }
}

/// Looks at so many draws of an event, from a place on.
fn look_at_draws(rt: &impl Abort, draws: &mut Draws, event: u64, from: u128, count: u128) {
    assert!(rt; from < CODES);
    let mut words = ChaCha8Rng::from_seed(KEY_OF_258);
    words.set_stream(event);
    words.set_word_pos(2 * from);
    for place in 0..count {
        let drawn = drawn(draws, event, from.wrapping_add(place));
        assert_eq!(rt; drawn, Some(next_two(&mut words)), "{event} {from} {place}");
    }
}

#[test]
fn words_of_streams(rt: HostRuntime) {
    let mut draws = Draws::new(258);
    for (event, from, count) in STREAMS {
        look_at_draws(&rt, &mut draws, *event, *from, *count);
    }
}

/// Names of draws: an event and a code, and the number that is drawn under random seed 258. The expected numbers are those
/// of a plain implementation of the cipher in another language, which gives the vectors of RFC 8439 at 20 rounds; the one
/// of seed 0 is a published vector of ChaCha8.
const DRAWN: &[(u64, u128, u64)] = &[
    (0, 0, 0xf3d9d52603a2e3ba),
    (5, 18_446_744_073_709_551_619, 0x5873e408da927fa6),
    (0, 7, 0x22e1d3aa7bcd5d2b),
    (0, 8, 0x797817963509479f),
    (
        1_099_511_627_775,
        72_057_596_185_411_584,
        0xad94b9302f29e7ab,
    ),
    (0, 0, 0xf3d9d52603a2e3ba),
    (u64::MAX, 36_893_488_147_419_103_231, 0x8b6cd3ce9091a845),
    (5, 18_446_744_073_709_551_620, 0xdfa7b7ffd71a45da),
    (1, 0, 0xcf89cb761fd317b1),
];

#[test]
fn names_in_any_order(rt: HostRuntime) {
    let mut draws = Draws::new(258);
    for (event, code, expected) in DRAWN {
        assert_eq!(rt;
            drawn(&mut draws, *event, *code),
            Some(*expected),
            "event {event}, code {code}"
        );
    }
}

/// A random seed, an event and a code, and the number that is drawn.
const OTHER_SEEDS: &[(u64, u64, u128, u64)] = &[
    (0, 0, 0, 0xd6405f892fef003e),
    (u64::MAX, 3, 18_446_744_073_709_551_616, 0x0d28dcd8615d3b01),
    (
        0x0123456789abcdef,
        1_000_000_000_000,
        72_058_178_153_480_192,
        0xdc5c97d10a913cd5,
    ),
];

#[test]
fn names_under_other_seeds(rt: HostRuntime) {
    for (seed, event, code, expected) in OTHER_SEEDS {
        let drawn = drawn(&mut Draws::new(*seed), *event, *code);
        assert_eq!(rt; drawn, Some(*expected), "seed {seed}");
    }
}
