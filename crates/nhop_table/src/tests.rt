use crate::NhopTable;
use prefix_width::{Addr, Nexthop};
use std::test::Fail;

/// The nexthop by a gateway.
fn gateway(value: u128) -> Option<Nexthop<32>> {
    let addr = Addr::new(value)?;
    Some(Nexthop::via(addr, 0, 0))
}

#[test]
fn a_nexthop_is_kept_once_while_it_is_used(rt: HostRuntime) -> Result<(), Fail> {
    let mut table = NhopTable::<32>::new(rt.alloc());
    let (Some(one), Some(two)) = (gateway(1), gateway(2)) else {
        assert!(rt; false, "no nexthop");
        return Ok(());
    };
    table.link(&two)?;
    assert_eq!(rt; table.list(rt.alloc())?.as_slice(), [two].as_slice());
    assert_eq!(rt;
        (table.count(&one), table.count(&two), table.live()),
        (0, 1, 1)
    );
    if table.count(&two) == 1 {
        table.unlink(&two);
    }
    assert_eq!(rt; (table.count(&two), table.live()), (0, 0));
    Ok(())
}
