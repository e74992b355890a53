// Laws on the items that a program names, and on its plan.
ghost use Rattle.std.specs.Prelude.{◌≡◌, ◌<◌, ℕ, List, length, IsTrue};
ghost use Rattle.pv_base.specs.Catalog.{Item};
ghost use Rattle.pv_model.specs.Check.{Part, names_item, AreItems, IsPlan};
ghost use Rattle.pv_model.specs.Plan.{plan_of};
ghost use Rattle.pv_model.specs.Syntax.{Program};

/// Each program has a list of the items that it names.
pub fn some_items()
    ensures { (program : Program) → (items : List ℕ) × AreItems program items }
{}

/// A program has one such list at most.
pub fn one_items()
    ensures { (program : Program) (items others : List ℕ) → AreItems program items → AreItems program others → items ≡ others }
{}

/// A program whose items are all of the catalog has a plan: the one that is computed from the catalog's items.
pub fn some_plan()
    ensures { (program : Program) (items : List Item) → ((n : ℕ) → IsTrue (names_item program n) → n < length items) →
        IsPlan program items (plan_of program items) }
{}

/// A program has no other plan than that.
pub fn one_plan()
    ensures { (program : Program) (items : List Item) (parts : List Part) → IsPlan program items parts → parts ≡ plan_of program items }
{}
