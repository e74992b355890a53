// Copies of cases.
ghost use Rattle.std.specs.Prelude.{◌≡◌, IfOk};

use pv_base::{Case, NoMemory};
use std::alloc::Global;

/// Equal cases, in memory of their own. Takes time in proportion to the literals.
pub fn copy_cases<V: Copy>(alloc: Global, cases: &[Case<V>]) -> Result<Vec<Case<V>>, NoMemory>
    ensures equal { IfOk result (λ copy. copy.items ≡ cases.now) }
{
    let mut copy = Vec::with_capacity(alloc, cases.len())?;
    for case in cases {
        copy.push(case.copy(alloc)?)?;
    }
    Ok(copy)
}
