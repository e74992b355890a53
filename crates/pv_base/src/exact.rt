// Values that `==` tells apart exactly.

/// A value of which `==` says exactly whether two are the same: values that compare equal are one value.
pub trait Exact: Copy + Eq {
    ghost use Rattle.std.specs.Prelude.{◌≡◌, true};

    ghost exact: { (x y : Self) → Self.PartialEq.eq x y ≡ true → x ≡ y };
}

impl Exact for i64 {
    ghost use Rattle.std.proofs.Common.{rules};

    ghost exact = { Prim.search rules };
}

impl Exact for i128 {
    ghost use Rattle.std.proofs.Common.{rules};

    ghost exact = { Prim.search rules };
}
