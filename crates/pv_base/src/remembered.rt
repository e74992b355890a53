// A value that contracts alone read.
ghost use Rattle.std.specs.Prelude.{◌≡◌};
ghost use Rattle.std.specs.Borrow.{ftrue};

use std::marker::{Model, PhantomData};

/// A value as it once was. Contracts read it as `value`; at run time there is nothing.
///
/// std's `Snapshot` says the same. A struct that has one beside several other fields isn't found to be `Send`, and one that has this is.
#[derive(Drop)]
pub struct Remembered<T> {
    of: PhantomData<T>,
    pub ghost value: { T },
}

impl<T> Model for Remembered<T> {
    ghost also_owns = { λ _. ftrue };
}

// It owns nothing.
unsafe impl<T: Send> Send for Remembered<T> {}

impl<T> Remembered<T> {
    /// The value as it is now.
    pub fn of(value: &T) -> Remembered<T>
        ensures { result.value ≡ value.now }
    {
        Remembered { of: PhantomData }
    }
}
