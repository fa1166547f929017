ghost use Rattle.std.specs.Prelude.{◌≡◌};
ghost use Rattle.std.specs.List.{after_first, before_first, position};
ghost use Rattle.deck_values.specs.Edges.{edge_of, is_dash};

use dec_text::read_whole;

fn first_dash(word: &[u8]) -> Option<usize>
    ensures { result ≡ position is_dash word.now }
{
    word.iter().position(|b| *b == b'-')
}

/// What is before the first `-` of a word, and what is behind it.
fn split_edge(word: &[u8]) -> (&[u8], &[u8])
    ensures before { result.0.now ≡ before_first is_dash word.now }
    ensures after { result.1.now ≡ after_first is_dash word.now }
{
    match first_dash(word) {
        Some(at) => (&word[..at], &word[at + 1..]),
        None => (word, &[]),
    }
}

/// The two whole numbers of an edge `i-j`; `None` where a word is no edge.
pub fn edge_of(word: &[u8]) -> Option<(u64, u64)>
    ensures { result ≡ edge_of word.now }
{
    let (before, after) = split_edge(word);
    let i = read_whole(before).ok()?;
    let j = read_whole(after).ok()?;
    Some((i, j))
}
