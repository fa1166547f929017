//! The lines of a text and their words.

ghost use Rattle.std.specs.Prelude.{◌-◌, ◌^◌, ◌<◌, length};

use dec_text::{FIRST_LINE, Line, LinePlace, next_line, split};
use std::test::Fail;

/// The numbers of the lines, and their words, each with a blank after it.
fn shown(rt: &HostRuntime, text: &[u8]) -> Result<(Vec<u32>, Vec<u8>), Fail>
    requires { length text.now < 2 ^ 32 - 1 }
{
    let mut numbers = Vec::new(rt.alloc());
    let mut words = Vec::new(rt.alloc());
    for line in &split(rt.alloc(), text)? {
        numbers.push(line.number)?;
        for span in line.words.as_slice() {
            words.extend_from_slice(text.get(span.start..span.end).unwrap_or(b"?"))?;
            words.push(b' ')?;
        }
    }
    Ok((numbers, words))
}

#[test]
fn splits_texts(rt: HostRuntime) -> Result<(), Fail> {
    let (numbers, words) = shown(&rt, b"a bc\td\r\n\n# none\n  x#y z\n\xff\x80 last ")?;
    assert_eq!(rt; numbers.as_slice(), [1, 4, 5].as_slice());
    assert_eq!(rt; words.as_slice(), b"a bc d x \xff\x80 last ".as_slice());
    Ok(())
}

/// Texts, and the numbers of their last lines with words, or 0.
const LAST_LINES: &[(&[u8], u32)] = &[(b"", 0), (b"\n", 0), (b"x", 1), (b"x\n", 1), (b"\n\nx", 3)];

#[test]
fn last_lines(rt: HostRuntime) -> Result<(), Fail> {
    for (text, want) in LAST_LINES {
        assert!(rt; text.len() < 100);
        let lines = split(rt.alloc(), *text)?;
        let last = lines.last().map_or(0, |line| line.number);
        assert_eq!(rt; last, *want, "{text:?}");
    }
    Ok(())
}

/// The number of a line and how many words it has.
fn outline(line: Option<Line>) -> Option<(u32, usize)> {
    line.map(|line| (line.number, line.words.len()))
}

#[test]
fn gives_line_after_line(rt: HostRuntime) -> Result<(), Fail> {
    let text = b"\n a bc # d\n# none\n\nx";
    let mut place = FIRST_LINE;
    let first = next_line(rt.alloc(), text, &mut place)?;
    assert_eq!(rt; outline(first), Some((2, 2)));
    assert_eq!(rt;
        place,
        LinePlace {
            start: 11,
            number: 3
        }
    );
    let second = next_line(rt.alloc(), text, &mut place)?;
    assert_eq!(rt; outline(second), Some((5, 1)));
    let last = place;
    let third = next_line(rt.alloc(), text, &mut place)?;
    assert_eq!(rt; outline(third), None);
    assert_eq!(rt; place, last);
    Ok(())
}
