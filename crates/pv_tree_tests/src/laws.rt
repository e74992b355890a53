// The law on both forms of polyvalues. The function does nothing but read them: it states the law.
ghost use Rattle.std.specs.Prelude.{◌≡◌, ◌↔◌};
ghost use Rattle.pv_base.specs.Polyvalue.{AreSameEverywhere};

use pv_base::Exact;

/// A polyvalue in the one form and one in the other have the same value at every assignment exactly where they have the same cases.
pub fn both_forms_have_one_list_of_cases<V: Exact>(
    plain: &pv_poly::Poly<V>,
    tree: &pv_tree::Poly<V>,
)
    ensures { AreSameEverywhere plain.now tree.now ↔ (plain.now ≡ tree.now) }
{
    // Reading the cases shows that both are canonical.
    let _ = plain.cases();
    let _ = tree.cases();
}
