//! What is behind a keyword: words, values, lists and names.

use dec_text::Span;
use deck_shape::{Block, Name, names_of, read_shape};
use deck_values::ANY_WHOLE;
use deck_words::{Keyword, LineFault};
use kmc_base::FileId;
use std::alloc::Global;
use std::test::Fail;

const LATTICE: &[u8] =
    b"lattice explicit\nn_sites 1\nn_site_types 2\nsite_type_names top hollow\nlattice_structure\n1 0 0 top 0\nend_lattice_structure\nend_lattice\n";

#[test]
fn words_behind_a_keyword(rt: HostRuntime) -> Result<(), Fail> {
    let shape = read_shape(rt.alloc(), FileId::Lattice, LATTICE)?;
    let block = &shape.block;
    let behind = block
        .words_behind(LATTICE, Keyword::NSites)
        .map(|words| words.len());
    assert_eq!(rt; behind, Some(1));
    assert!(rt; block.words_behind(LATTICE, Keyword::MaxCoord).is_none());
    Ok(())
}

/// The line and the word of a name.
fn line_and_word(name: &Name) -> (u32, &'static [u8]) {
    (name.line, name.span.bytes(LATTICE))
}

#[test]
fn names(rt: HostRuntime) -> Result<(), Fail> {
    let shape = read_shape(rt.alloc(), FileId::Lattice, LATTICE)?;
    let block = &shape.block;
    let names = block.names_in(rt.alloc(), LATTICE, Keyword::SiteTypeNames)?;
    let [first, second] = names.as_slice() else {
        return Err("not two names")?;
    };
    assert_eq!(rt; line_and_word(first), (4, b"top".as_slice()));
    assert_eq!(rt; line_and_word(second), (4, b"hollow".as_slice()));
    let spans = block.list_in(LATTICE, Keyword::SiteTypeNames);
    assert_eq!(rt; spans, [first.span, second.span].as_slice());
    Ok(())
}

/// Keywords, and the value of the one word behind each, or 7 where it is absent.
const VALUES: &[(Keyword, Result<u64, LineFault>)] = &[
    (Keyword::NSites, Ok(1)),
    (Keyword::NSiteTypes, Ok(2)),
    (Keyword::MaxCoord, Ok(7)),
    (Keyword::SiteTypeNames, Err(LineFault { line: 4, kind: 6 })),
    (
        Keyword::LatticeStructure,
        Err(LineFault { line: 5, kind: 6 }),
    ),
];

#[test]
fn values_behind_keywords(rt: HostRuntime) -> Result<(), Fail> {
    let shape = read_shape(rt.alloc(), FileId::Lattice, LATTICE)?;
    for (keyword, value) in VALUES {
        let found = shape.block.value_or(LATTICE, *keyword, &ANY_WHOLE, Ok(7));
        assert_eq!(rt; found, *value, "{keyword:?}");
    }
    Ok(())
}

/// The value on the line of a keyword, and the names there.
fn on_line(alloc: Global, block: &Block, keyword: Keyword) -> Result<(Option<u64>, usize), Fail> {
    let item = block.item(LATTICE, keyword).ok_or("no line")?;
    let value = item.value(LATTICE, &ANY_WHOLE);
    let names = item.names(alloc)?;
    Ok((value.ok(), names.len()))
}

#[test]
fn values_on_lines(rt: HostRuntime) -> Result<(), Fail> {
    let shape = read_shape(rt.alloc(), FileId::Lattice, LATTICE)?;
    let block = &shape.block;
    let one = on_line(rt.alloc(), block, Keyword::NSites)?;
    assert_eq!(rt; one, (Some(1), 1));
    let two = on_line(rt.alloc(), block, Keyword::SiteTypeNames)?;
    assert_eq!(rt; two, (None, 2));
    let missing = LineFault { line: 8, kind: 8 };
    assert_eq!(rt; block.missing_word(), missing);
    Ok(())
}

#[test]
fn words_as_names(rt: HostRuntime) -> Result<(), Fail> {
    let words = [Span { start: 0, end: 7 }, Span { start: 8, end: 16 }];
    let names = names_of(rt.alloc(), &words, 1)?;
    let [first, second] = names.as_slice() else {
        return Err("not two names")?;
    };
    assert_eq!(rt; line_and_word(first), (1, b"lattice".as_slice()));
    assert_eq!(rt; line_and_word(second), (1, b"explicit".as_slice()));
    Ok(())
}
