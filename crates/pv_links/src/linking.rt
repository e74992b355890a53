// The rings from each site to each.
ghost use Rattle.std.specs.Prelude.{◌≡◌, IfOk, length};
ghost use Rattle.pv_links.specs.Links.{AreEnds, AreLinked};

use crate::rows::{new_rows, push_to};
use pv_base::NoMemory;
use pv_post::{FaultPlan, In, Out, pair};
use std::alloc::Global;

/// A new ring from each of so many sites to each, one's own among them, on which messages fail as the plan says. Of each site there are a row of the ends by which it
/// posts, and a row of those by which it takes; each has an end of each site, in order.
pub fn link_all<M: Drop>(
    alloc: Global,
    plan: FaultPlan,
    sites: usize,
) -> Result<(Vec<Vec<Out<M>>>, Vec<Vec<In<M>>>), NoMemory>
    ensures count { IfOk result (λ ends. length ends.0.items ≡ sites) }
    ensures ends { IfOk result (λ ends. AreEnds plan sites ends.0.items ends.1.items) }
{
    let mut ins = new_rows(alloc, sites)?;
    let mut outs = Vec::new(alloc);
    for _ in 0..sites {
        let row = link_one(alloc, plan, &mut ins)?;
        outs.push(row)?;
    }
    Ok((outs, ins))
}

// A new ring from one more site to each. Gives the ends by which it posts; the other ends go to the rows of the sites that take.
fn link_one<M: Drop>(
    alloc: Global,
    plan: FaultPlan,
    ins: &mut Vec<Vec<In<M>>>,
) -> Result<Vec<Out<M>>, NoMemory>
    ensures count { IfOk result (λ outs. length outs.items ≡ length ins.old.items) }
    ensures linked { IfOk result (λ outs. AreLinked plan outs.items ins.old.items ins.new.items) }
{
    let mut outs = Vec::new(alloc);
    for to in 0..ins.len() {
        let (out, inlet) = pair(alloc, plan)?;
        push_to(ins, to, inlet)?;
        outs.push(out)?;
    }
    Ok(outs)
}
