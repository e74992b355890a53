// Rings from each site to each.
use pv_links::link_all;
use pv_post::{FaultPlan, In, Out, Posted};
use std::test::Fail;

// A plan by which no message fails.
const NONE: FaultPlan = FaultPlan {
    drop_each: 0,
    double_each: 0,
};

// Whether the ring from this site to that one takes the message.
fn is_posted(outs: &mut [Vec<Out<u32>>], from: usize, to: usize, message: u32) -> bool {
    let Some(row) = outs.get_mut(from) else {
        return false;
    };
    match row.get_mut(to) {
        Some(out) => matches!(out.post(message), Posted::Once),
        None => false,
    }
}

// What the ring from this site to that one gives.
fn given(ins: &mut [Vec<In<u32>>], from: usize, to: usize) -> Option<(u32, u8)> {
    ins.get_mut(to)?.get_mut(from)?.take()
}

#[test]
fn a_ring_goes_from_each_site_to_each(rt: HostRuntime) -> Result<(), Fail> {
    let (mut outs, mut ins) = link_all::<u32>(rt.alloc(), NONE, 2)?;
    assert!(rt; is_posted(&mut outs, 0, 1, 5));
    assert!(rt; is_posted(&mut outs, 1, 1, 6));
    assert_eq!(rt; given(&mut ins, 0, 1), Some((5, 1)));
    assert_eq!(rt; given(&mut ins, 1, 1), Some((6, 1)));
    assert_eq!(rt; given(&mut ins, 1, 0), None);
    assert!(rt; !is_posted(&mut outs, 0, 2, 7));
    Ok(())
}
