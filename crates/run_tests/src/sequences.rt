use kmc_base::Sequence;
use std::test::Fail;

#[test]
fn members_keep_their_order(rt: HostRuntime) -> Result<(), Fail> {
    let members = Sequence::new(Vec::from_array(rt.alloc(), [7, 8])?);
    assert_eq!(rt; (members.len(), members.is_empty()), (2, false));
    assert_eq!(rt; members.as_slice(), [7, 8].as_slice());
    assert_eq!(rt; members.into_vec().as_slice(), [7, 8].as_slice());
    Ok(())
}
