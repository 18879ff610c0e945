//! Targets that no head of a frame has.
use am_wire_routes::{RouteFault, Routes};
use std::test::Fail;

#[test]
fn no_head_has_these_targets(rt: HostRuntime) -> Result<(), Fail> {
    let routes = Routes::new(rt.alloc())?;
    for target in [
        b"".as_slice(),
        b" /v1/query".as_slice(),
        b"/v1/query\xff".as_slice(),
    ] {
        let asked = routes.route(b"POST", target);
        assert_eq!(rt; asked, Err(RouteFault::NoRoute));
    }
    Ok(())
}
