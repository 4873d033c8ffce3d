//! What waits for what.

use h5w_deps::{Deps, DepsError};
use std::test::Fail;

#[test]
fn a_parent_waits_for_each_child(rt: HostRuntime) -> Result<(), Fail> {
    let mut deps = Deps::new(rt.alloc());
    let cycle = Err(DepsError::Cycle);
    for (child, parent, answer) in [
        (1, 7, Ok(())),
        (u32::MAX, 7, Ok(())),
        (7, 2, Ok(())),
        (2, 1, cycle),
        (4, 4, cycle),
    ] {
        assert_eq!(rt; deps.add(child, parent), answer);
    }
    let mut copy = deps.copy()?;
    copy.done(u32::MAX);
    copy.done(1);
    assert_eq!(rt;
        (deps.ready(7), copy.ready(7), copy.ready(2)),
        (false, true, false)
    );
    Ok(())
}
