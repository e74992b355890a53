// Laws on what a program does to rows, and what it leaves alone.
ghost use Rattle.std.specs.Prelude.{◌≡◌, ℕ, ℤ, Bool, false, List, IsTrue};
ghost use Rattle.pv_model.specs.Check.{names_item};
ghost use Rattle.pv_base.specs.declared.reply.Decline.{Decline};
ghost use Rattle.pv_base.specs.declared.reply.Reply.TheVariants.{Value, Declined};
ghost use Rattle.pv_model.specs.Meaning.{Row, value_in, items_of_rows, exec};
ghost use Rattle.pv_model.specs.ProgramLaws.{assigns, followed, HaveSameValues, HaveSameValuesOf};
ghost use Rattle.pv_model.specs.Syntax.{Program};

/// A program that declines leaves every row as it was.
pub fn decline_leaves_rows()
    ensures { (program : Program) (rows : List Row) (decline : Decline) → (exec program rows).reply ≡ Declined decline →
        (exec program rows).rows ≡ rows }
{}

/// A program keeps the items of its rows, and their order.
pub fn items_stay()
    ensures { (program : Program) (rows : List Row) → items_of_rows (exec program rows).rows ≡ items_of_rows rows }
{}

/// An item that no assignment names keeps its value.
pub fn unassigned_keeps_value()
    ensures { (program : Program) (rows : List Row) (item : ℕ) → assigns program item ≡ false →
        value_in (exec program rows).rows item ≡ value_in rows item }
{}

/// What stands after a `return` that is reached has no effect.
pub fn return_is_last()
    ensures { (program after : Program) (rows : List Row) (returned : ℤ) → (exec program rows).reply ≡ Value returned →
        exec (followed program after) rows ≡ exec program rows }
{}

/// On rows with the same items and values in another order a program gives the same reply, and each item the same value.
pub fn order_of_rows_is_free()
    ensures { (program : Program) (rows others : List Row) → HaveSameValues rows others →
        ((exec program rows).reply ≡ (exec program others).reply) × HaveSameValues (exec program rows).rows (exec program others).rows }
{}

/// A program looks only at the rows of its own items. On rows that have the same values of the items of a set, which has all items
/// that the program names, it gives the same reply, and each item of the set the same value.
pub fn own_rows_alone()
    ensures { (set : ℕ → Bool) (program : Program) (rows others : List Row) → ((n : ℕ) → IsTrue (names_item program n) → IsTrue (set n)) →
        HaveSameValuesOf set rows others →
        ((exec program rows).reply ≡ (exec program others).reply) × HaveSameValuesOf set (exec program rows).rows (exec program others).rows }
{}
