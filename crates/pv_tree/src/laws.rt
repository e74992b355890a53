// Laws on polyvalues. The functions do nothing: each states a law.
ghost use Rattle.std.specs.Prelude.{◌≡◌, ◌↔◌, true, List};
ghost use Rattle.pv_base.specs.Polyvalue.{Case};

use crate::Poly;
use pv_base::Exact;

/// Polyvalues are equal by `==` exactly where they are one, and so have the same value at every assignment.
pub fn equal_polyvalues_are_one<V: Exact>()
    ensures { (poly other : List (Case V)) → (⟦<Poly<V> as PartialEq>⟧.eq poly other ≡ true) ↔ (poly ≡ other) }
{}
