use kmc_base::{Failed, OutOfMemory};
use std::alloc::{AllocError, AllocFailed};
use std::test::Fail;

#[test]
fn errors_have_a_text(rt: HostRuntime) -> Result<(), Fail> {
    let refused = OutOfMemory::from(AllocFailed { value: 3u8 });
    assert_eq!(rt; refused, OutOfMemory::from(AllocError));
    let text = format!(in rt.alloc(); "{refused}, {}", Failed)?;
    assert_eq!(rt; text.as_str(), "out of memory, failed");
    Ok(())
}
