// Two rings, of which the second alone is posted to, and a third that isn't there.
use pv_post::{FaultPlan, pair};
use pv_rings::{Found, post_to, take_among};
use std::test::Fail;

// A plan by which each post counts twice.
const TWICE: FaultPlan = FaultPlan {
    drop_each: 0,
    double_each: 1,
};

#[test]
fn the_ring_that_was_posted_to_gives(rt: HostRuntime) -> Result<(), Fail> {
    let (first_out, first_in) = pair::<u64>(rt.alloc(), TWICE)?;
    let (second_out, second_in) = pair::<u64>(rt.alloc(), TWICE)?;
    let mut outs = Vec::new(rt.alloc());
    outs.push(first_out)?;
    outs.push(second_out)?;
    let mut ins = Vec::new(rt.alloc());
    ins.push(first_in)?;
    ins.push(second_in)?;
    post_to(&mut outs, 1, 7);
    post_to(&mut outs, 2, 8);
    let all = ins.len();
    assert!(rt;
        matches!(
            take_among(&mut ins, 0, all),
            Some(Found {
                ring: 1,
                message: 7,
                count: 2
            })
        )
    );
    let all = ins.len();
    assert!(rt; take_among(&mut ins, 0, all).is_none());
    Ok(())
}
