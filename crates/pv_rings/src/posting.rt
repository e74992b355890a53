// A message to one of several rings.
ghost use Rattle.std.specs.Prelude.{◌==◌, [], ◌∷◌, if◌then◌else◌};
ghost use Rattle.pv_rings.specs.Rings.{Each, Hands};

use pv_post::Out;

/// Posts the message to the ring of this place; where there is none, it goes nowhere. What the ring has no place for, or loses by its plan, is lost. (`Keeps` doesn't say which.)
pub fn post_to<M: Drop>(rings: &mut Vec<Out<M>>, to: usize, message: M)
    ensures { Each (λ ring one other. Hands (if ring == to then message ∷ [] else []) one other) rings.old.items rings.new.items }
{
    if to < rings.len() {
        rings[to].post(message);
    }
}
