use kmc_base::{MemorySink, Sink};
use std::test::Fail;

#[test]
fn screen_takes_pieces(rt: HostRuntime) -> Result<(), Fail> {
    // Whether the put succeeds, and the text after it. The second put fails. Past its room the screen stops telling.
    const PUTS: &[(&str, bool, &str)] = &[
        ("ab", true, "ab"),
        ("x", false, "ab"),
        ("cd", true, "abcd"),
        ("e", true, "not told"),
    ];
    let failing = Vec::from_array(rt.alloc(), [2])?;
    let mut sink = MemorySink::new(rt.alloc(), 4, failing).map_err(|refused| refused.1)?;
    for (piece, done, text) in PUTS {
        assert_eq!(rt; sink.put(piece.as_bytes()).is_ok(), *done);
        assert_eq!(rt;
            sink.text().unwrap_or("not told".as_bytes()),
            text.as_bytes()
        );
    }
    Ok(())
}
