ghost use Rattle.std.specs.Prelude.{◌≡◌, ◌<◌, length};
ghost use Rattle.deck_join.specs.Texts.{text_at};

use kmc_base::{FileId, Sequence};

/// The text of an input file.
#[derive(Debug, Drop)]
pub enum Text {
    /// There is no such file.
    Absent,
    /// It has more than `MAX_FILE_BYTES` bytes.
    TooLong,
    /// Its bytes.
    Bytes(Sequence<u8>),
}

/// The text at a place of a list.
pub(crate) fn text_at(texts: &[(FileId, Text)], place: usize) -> &Text
    requires { place < length texts.now }
    ensures { result.now ≡ text_at place texts.now }
{
    &texts[place].1
}
