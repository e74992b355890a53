// Each call once on its happy path, on one thread: which posts fail by a plan, what the other end takes, and when a ring is full.
use pv_post::*;
use std::test::Fail;

// A plan by which no message fails.
const NONE: FaultPlan = FaultPlan {
    drop_each: 0,
    double_each: 0,
};

#[test]
fn posts_fail_by_the_plan(rt: HostRuntime) -> Result<(), Fail> {
    let plan = FaultPlan {
        drop_each: 2,
        double_each: 3,
    };
    let (mut out, mut inlet) = pair::<u64>(rt.alloc(), plan)?;
    assert!(rt; matches!(out.post(10), Posted::Once));
    assert!(rt; matches!(out.post(20), Posted::Dropped(20)));
    assert!(rt; matches!(out.post(30), Posted::Twice));
    assert!(rt; matches!(out.post(40), Posted::Dropped(40)));
    assert_eq!(rt; inlet.take(), Some((10, 1)));
    assert_eq!(rt; inlet.take(), Some((30, 2)));
    assert_eq!(rt; inlet.take(), None);
    assert_eq!(rt; inlet.beside(&mut out), 0);
    Ok(())
}

#[test]
fn a_ring_has_256_places(rt: HostRuntime) -> Result<(), Fail> {
    let (mut out, mut inlet) = pair::<u64>(rt.alloc(), NONE)?;
    for number in 0..256u64 {
        assert!(rt; matches!(out.post(number), Posted::Once));
    }
    assert!(rt; matches!(out.post(256), Posted::Full(256)));
    assert_eq!(rt; inlet.beside(&mut out), 256);
    assert_eq!(rt; inlet.take(), Some((0, 1)));
    assert!(rt; matches!(out.post(257), Posted::Once));
    assert!(rt; matches!(out.post(258), Posted::Full(258)));
    Ok(())
}

// What two threads need of the ends.
fn goes_to_a_thread<T: Send>(_: &T) {}

#[test]
fn the_ends_may_go_to_threads(rt: HostRuntime) -> Result<(), Fail> {
    let (out, inlet) = pair::<Vec<u8>>(rt.alloc(), NONE)?;
    goes_to_a_thread(&out);
    goes_to_a_thread(&inlet);
    Ok(())
}
