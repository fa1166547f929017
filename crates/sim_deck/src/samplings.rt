ghost use Rattle.std.specs.Prelude.{◌≡◌, ◌∷◌, [], map};
ghost use Rattle.dec_text.specs.Spans.{bytes_at};
ghost use Rattle.sim_deck.specs.Samplings.{is_on, sampling_of};

use crate::ranges::{EVENT_PERIOD, TIME_PERIOD};
use dec_text::Span;
use deck_values::{amount_in, whole_in};
use deck_words::kind::BAD_CHOICE;
use run_plan::Sampling;

/// Two words are `on` and this one.
fn is_on(bytes: &[u8], what: &[u8], first: Span, second: Span) -> bool
    ensures { result ≡ is_on what.now (bytes_at bytes.now first) (bytes_at bytes.now second) }
{
    b"on".as_slice() == first.bytes(bytes) && what == second.bytes(bytes)
}

/// The sampling of one word.
fn of_one_word(bytes: &[u8], word: Span) -> Result<Sampling, u8>
    ensures { result ≡ sampling_of (map (bytes_at bytes.now) (word ∷ [])) }
{
    if b"off".as_slice() == word.bytes(bytes) {
        Ok(Sampling::Off)
    } else {
        Err(BAD_CHOICE)
    }
}

/// The sampling of two words.
fn without_period(bytes: &[u8], first: Span, second: Span) -> Result<Sampling, u8>
    ensures { result ≡ sampling_of (map (bytes_at bytes.now) (first ∷ second ∷ [])) }
{
    if is_on(bytes, b"event", first, second) {
        Ok(Sampling::Event(1))
    } else {
        Err(BAD_CHOICE)
    }
}

/// The sampling of three words, the last of which is a period.
fn with_period(bytes: &[u8], first: Span, second: Span, period: Span) -> Result<Sampling, u8>
    ensures { result ≡ sampling_of (map (bytes_at bytes.now) (first ∷ second ∷ period ∷ [])) }
{
    if is_on(bytes, b"event", first, second) {
        let events = whole_in(EVENT_PERIOD, period.bytes(bytes))?;
        Ok(Sampling::Event(events))
    } else if is_on(bytes, b"time", first, second) {
        let time = amount_in(TIME_PERIOD, period.bytes(bytes))?;
        Ok(Sampling::Time(time))
    } else {
        Err(BAD_CHOICE)
    }
}

/// The sampling that some words state, or the kind of their fault.
pub(crate) fn sampling_of(bytes: &[u8], words: &[Span]) -> Result<Sampling, u8>
    ensures { result ≡ sampling_of (map (bytes_at bytes.now) words.now) }
{
    match words {
        [word] => of_one_word(bytes, *word),
        [first, second] => without_period(bytes, *first, *second),
        [first, second, period] => with_period(bytes, *first, *second, *period),
        [] | [_, _, _, _, ..] => Err(BAD_CHOICE),
    }
}
