// A box in its turn.
ghost use Rattle.std.specs.Prelude.{◌≡◌};
ghost use Rattle.pv_cell.specs.Box.{IsBox};
ghost use Rattle.pv_cell.specs.Course.{Became, HasCourse};

use pv_base::Remembered;
use pv_cell::SiteBox;
use pv_disk::Log;
use pv_history::Entry;
use std::marker::Model;

/// What a box in its turn shows: the box as it first was, and then each entry of its history. No value of it is made at run time.
pub enum Sight<L: Log> {
    /// The box as it was when it came to its turn.
    Opened(SiteBox<L>),
    /// The entry of its history.
    Took(Entry),
}

/// A box in its turn. It shows what it was at first, so that who has it afterwards knows that it is the same site with the same rings.
///
/// Contracts see the box, and the box as it was at first.
#[derive(Drop)]
pub struct Shown<L: Log> {
    pub(crate) inner: SiteBox<L>,
    first: Remembered<SiteBox<L>>,
}

impl<L: Log> Model for Shown<L> {
    ghost use Rattle.std.specs.Coded.{codes};
    ghost use Rattle.pv_cell.specs.Box.{IsBox};
    ghost use Rattle.pv_cell.specs.Course.{Became, HasCourse};
    ghost use Rattle.pv_cell.specs.declared.site_box.SiteBox.{SiteBox};
    ghost use Rattle.pv_model.specs.SyntaxCodes.{program_code};

    ghost Value = { SiteBox L × SiteBox L };

    ghost coded = { Prim.hlevel (codes, program_code) };

    ghost view = { λ s. (s.inner, s.first.value) };

    // The box can be called, its history is whole, and it is still the one that it was at first.
    ghost invariant = { λ s. IsBox L.model s.inner × HasCourse s.inner × Became L.model s.first.value s.inner };
}

impl<L: Log> Shown<L> {
    /// The box comes to its turn.
    pub fn new(inner: SiteBox<L>) -> Shown<L>
        requires is_box { IsBox L.model inner }
        requires course { HasCourse inner }
        requires same { Became L.model inner inner }
        ensures { result ≡ (inner, inner) }
    {
        let first = Remembered::of(&inner);
        Shown { inner, first }
    }

    /// The box, which comes from its turn.
    pub fn into_box(self) -> SiteBox<L>
        ensures value { result ≡ self.0 }
        ensures is_box { IsBox L.model result }
        ensures course { HasCourse result }
        ensures became { Became L.model self.1 result }
    {
        self.inner
    }
}
