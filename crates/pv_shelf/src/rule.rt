// The rule of a shelf, and what its steps tell.
ghost use Rattle.std.specs.Prelude.{[]};
ghost use Rattle.pv_shelf.specs.Rule.{IsKept, Finds, having_seen};

use crate::side::Side;
use crate::view::View;
use atomic_table::{Join, Split};
use crossbeam_utils::rule::{Outcome, Protocol};

/// What is published is a log, and begins with all that anybody has seen.
pub struct Published;

impl Protocol<Side, View> for Published {
    ghost holds = { λ shown. IsKept shown.parts.items };

    ghost first = { having_seen [] };
}

/// A look, or a publication: who makes it has then seen what is published.
pub struct Looks;

impl Outcome<Side, View> for Looks {
    ghost then = { λ before _ shown after. Finds before shown.parts.items after };
}

/// The writer tells a reader what it has seen.
pub struct Tells;

impl Split<View> for Tells {
    ghost left = { λ v. v };

    ghost right = { λ v. v };
}

impl Join<View> for Tells {
    ghost both = { λ _ told. told };

    ghost spent = { having_seen [] };
}
