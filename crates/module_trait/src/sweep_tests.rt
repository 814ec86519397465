use crate::{RouteView, cells_of};
use prefix_width::{Addr, Prefix};
use std::test::Fail;

#[test]
fn three_routes_have_four_starts(rt: HostRuntime) -> Result<(), Fail> {
    let alloc = rt.alloc();
    let mut view = RouteView::<32>::new(alloc);
    for (value, len, index) in [
        (0x0a00_0000, 8, 1),
        (0x0a00_0000, 9, 2),
        (0x0a80_0000, 9, 3),
    ] {
        let addr = Addr::new(value).ok_or("no address")?;
        view.set(Prefix::masked(addr, len).ok_or("no prefix")?, Some(index))?;
    }
    let rows = view.rows(alloc)?;
    let cells = cells_of(alloc, rows.as_slice())?;
    let want = [(0, 0), (0x0a00_0000, 2), (0x0a80_0000, 3), (0x0b00_0000, 0)];
    assert!(rt; cells.as_slice() == want.as_slice());
    Ok(())
}
