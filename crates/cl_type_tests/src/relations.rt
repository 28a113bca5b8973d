use cl_base::{Duplicate, Mem};
use cl_specifiers::pointer_to;
use cl_types::{CType, compatible, either_way, is_small, with_itself};
use std::alloc::Global;
use std::test::Fail;

/// So many pointers to `int`, or None where that is refused.
fn pointers(alloc: Global, count: u32) -> Mem<Option<CType>> {
    let mut t = CType::Int;
    for _ in 0..count {
        match pointer_to(alloc, &t)? {
            Some(made) => t = made,
            None => return Ok(None),
        }
    }
    Ok(Some(t))
}

#[test]
fn sizes(rt: HostRuntime) -> Result<(), Fail> {
    let alloc = rt.alloc();
    either_way();
    with_itself();
    assert!(rt; pointers(alloc, 1_024)?.is_none());
    let t = pointers(alloc, 1_023)?.unwrap_or(CType::Error);
    assert!(rt; is_small(&t));
    let copy = t.duplicate(alloc)?;
    assert!(rt; compatible(&t, &copy));
    let other = pointers(alloc, 1_022)?.unwrap_or(CType::Error);
    assert!(rt; !compatible(&t, &other));
    Ok(())
}
