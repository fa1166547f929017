ghost use Rattle.std.specs.Prelude.{◌≡◌, IfOk, map};
ghost use Rattle.deck_shape.specs.Names.{name_of};

use dec_text::Span;
use kmc_base::OutOfMemory;
use std::alloc::Global;

/// A word of a file that is a name, with its line.
#[derive(Clone, Copy, Debug, PartialEq, Eq)]
pub struct Name {
    /// Its place in the bytes of the file.
    pub span: Span,
    /// The number of its line, from 1.
    pub line: u32,
}

/// Words of a line, as names.
pub fn names_of(alloc: Global, words: &[Span], line: u32) -> Result<Vec<Name>, OutOfMemory>
    ensures { IfOk result (λ names. names.items ≡ map (name_of line) words.now) }
{
    let mut names = Vec::new(alloc);
    for span in words {
        names.push(Name { span: *span, line })?;
    }
    Ok(names)
}
