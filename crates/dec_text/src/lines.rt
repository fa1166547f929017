ghost use Rattle.std.specs.Prelude.{◌≡◌, ◌+◌, ◌-◌, ◌^◌, ◌<◌, ◌≤◌, All, IfErr, IfOk, IfSome, length, map};
ghost use Rattle.std.specs.List.{position, position_or_len, slice_range};
ghost use Rattle.dec_text.specs.Bytes.{is_blank};
ghost use Rattle.dec_text.specs.Lines.{filled, lines_of, run, runs, word_lines, words_of};
ghost use Rattle.dec_text.specs.Places.{IsNextLine, is_cut};
ghost use Rattle.dec_text.specs.Spans.{AreWithin, IsWithin, line_at, plain_line_at, run_at};

use kmc_base::{OutOfMemory, Sequence};
use std::alloc::Global;

/// The place of a word in a text, by its bytes counted from 0.
#[derive(Clone, Copy, Debug, PartialEq, Eq)]
pub struct Span {
    /// The place of its first byte.
    pub start: usize,
    /// The place behind its last byte.
    pub end: usize,
}

impl Span {
    ghost use Rattle.std.specs.Prelude.{min};
    ghost use Rattle.dec_text.specs.Spans.{bytes_at};

    /// The bytes of the word in its text. A place past the end of the text has no bytes.
    pub fn bytes(self, text: &[u8]) -> &[u8]
        ensures { result.now ≡ bytes_at text.now self }
    {
        let start = self.start.min(text.len());
        let end = self.end.min(text.len()).max(start);
        &text[start..end]
    }
}

/// A line that has a word.
#[derive(Debug, Drop)]
pub struct Line {
    /// The number of the line in its text, from 1; lines without a word count too.
    pub number: u32,
    /// Its words, from left to right.
    pub words: Sequence<Span>,
}

/// The place of a line in a text.
#[derive(Clone, Copy, Debug, PartialEq, Eq)]
pub struct LinePlace {
    /// The place of its first byte, counted from 0.
    pub start: usize,
    /// Its number, counted from 1.
    pub number: u32,
}

/// The place of a text's first line.
pub const FIRST_LINE: LinePlace = LinePlace {
    start: 0,
    number: 1,
};

/// What ends a piece of a text.
#[derive(Clone, Copy)]
enum Cut {
    /// The end of a line.
    LineFeed,
    /// The beginning of a comment.
    CommentMark,
    /// What separates words.
    Blank,
}

impl Cut {
    /// Whether a byte is such an end.
    fn is(self, byte: u8) -> bool
        ensures { result ≡ is_cut self byte }
    {
        match self {
            Cut::LineFeed => byte == b'\n',
            Cut::CommentMark => byte == b'#',
            Cut::Blank => matches!(byte, b' ' | b'\t' | b'\r' | b'\n'),
        }
    }
}

/// Gives the lines of a text that have a word, in order, with the place of each word.
///
/// Lines end at LF; a last piece that is empty is no line. From the first `#` of a line on it is a
/// comment. Words are runs of bytes other than space, tab, CR, LF and `#`. The text may be one of any
/// bytes; it need not be UTF-8.
pub fn split(alloc: Global, bytes: &[u8]) -> Result<Vec<Line>, OutOfMemory>
    requires { length bytes.now < 2 ^ 32 - 1 }
    ensures words { IfOk result (λ lines. map (plain_line_at bytes.now) lines.items ≡ lines_of bytes.now) }
    ensures places { IfOk result (λ lines. map (line_at bytes.now) lines.items ≡ word_lines bytes.now) }
    ensures within { IfOk result (λ lines. All (AreWithin bytes.now) lines.items) }
{
    let mut lines = Vec::new(alloc);
    let mut place = FIRST_LINE;
    while let Some(line) = next_line(alloc, bytes, &mut place)? {
        lines.push(line)?;
    }
    Ok(lines)
}

/// Gives the next line that has a word, from a place on, and moves the place below that line. There is
/// no such line where the answer is `None`.
///
/// The lines and words are those of `split`, and the first place is `FIRST_LINE`. A text can be read
/// this way with the memory of one line.
///
/// # Errors
///
/// Where memory is refused, the place is as it was.
pub fn next_line(
    alloc: Global,
    bytes: &[u8],
    place: &mut LinePlace,
) -> Result<Option<Line>, OutOfMemory>
    requires short { length bytes.now < 2 ^ 32 - 1 }
    requires counted { place.old.number ≤ place.old.start + 1 }
    ensures line { IfOk result (IsNextLine bytes.now place.old place.new) }
    ensures within { IfOk result (λ line. IfSome line (AreWithin bytes.now)) }
    ensures counted { place.new.number ≤ place.new.start + 1 }
    ensures err { IfErr result (λ _. place.new ≡ place.old) }
{
    let mut at = *place;
    while at.start < bytes.len() {
        let end = first_cut(bytes, at.start, bytes.len(), Cut::LineFeed);
        let words = split_line(alloc, bytes, at.start, end)?;
        let number = at.number;
        at = LinePlace {
            start: end + 1,
            number: number + 1,
        };
        if !words.is_empty() {
            *place = at;
            return Ok(Some(Line {
                number,
                words: Sequence::new(words),
            }));
        }
    }
    Ok(None)
}

/// The words of the line that begins at `start` and ends before `end`.
fn split_line(
    alloc: Global,
    bytes: &[u8],
    start: usize,
    end: usize,
) -> Result<Vec<Span>, OutOfMemory>
    requires ordered { start ≤ end }
    requires inside { end ≤ length bytes.now }
    ensures words { IfOk result (λ words. map (run_at bytes.now) words.items ≡ words_of (run start (slice_range bytes.now start end))) }
    ensures within { IfOk result (λ words. All (IsWithin bytes.now) words.items) }
{
    split_words(
        alloc,
        bytes,
        start,
        first_cut(bytes, start, end, Cut::CommentMark),
    )
}

/// The runs of bytes between blanks, from `start` on and before `end`.
fn split_words(
    alloc: Global,
    bytes: &[u8],
    start: usize,
    end: usize,
) -> Result<Vec<Span>, OutOfMemory>
    requires ordered { start ≤ end }
    requires inside { end ≤ length bytes.now }
    ensures words { IfOk result (λ words. map (run_at bytes.now) words.items ≡ filled (runs is_blank start (slice_range bytes.now start end))) }
    ensures within { IfOk result (λ words. All (IsWithin bytes.now) words.items) }
{
    let mut words = Vec::new(alloc);
    let mut at = start;
    while at < end {
        let stop = first_cut(bytes, at, end, Cut::Blank);
        if at < stop {
            words.push(Span {
                start: at,
                end: stop,
            })?;
        }
        at = stop + 1;
    }
    Ok(words)
}

/// The place of the first such end from `start` on, or `end`.
fn first_cut(bytes: &[u8], start: usize, end: usize, cut: Cut) -> usize
    requires ordered { start ≤ end }
    requires inside { end ≤ length bytes.now }
    ensures place { result ≡ start + position_or_len (is_cut cut) (slice_range bytes.now start end) }
    ensures inside { result ≤ end }
{
    match position_of(&bytes[start..end], cut) {
        Some(place) => start + place,
        None => end,
    }
}

fn position_of(bytes: &[u8], cut: Cut) -> Option<usize>
    ensures { result ≡ position (is_cut cut) bytes.now }
{
    bytes.iter().position(|byte| cut.is(*byte))
}
