// A list that contracts alone read.
ghost use Rattle.std.specs.Prelude.{◌≡◌, List, [], ◌∷◌, ◌++◌};
ghost use Rattle.std.specs.Borrow.{ftrue};

use std::marker::{Model, PhantomData};

/// What was added, in order. Contracts read it as `items`; at run time there is nothing, and each call does nothing.
#[derive(Drop)]
pub struct History<T> {
    of: PhantomData<T>,
    pub ghost items: { List T },
}

impl<T> Model for History<T> {
    ghost also_owns = { λ _. ftrue };
}

// It owns nothing.
unsafe impl<T: Send> Send for History<T> {}

impl<T> History<T> {
    /// Nothing was added.
    pub fn new() -> History<T>
        ensures { result.items ≡ [] }
    {
        History { of: PhantomData }
    }

    /// The same and one more, the last.
    pub fn and(&self, item: &T) -> History<T>
        ensures { result.items ≡ self.now.items ++ item.now ∷ [] }
    {
        History { of: PhantomData }
    }

    /// Adds these, in order.
    pub fn extend(&mut self, items: &[T])
        ensures { self.new.items ≡ self.old.items ++ items.now }
    {
        *self = self.and_all(items);
    }

    // The same and these, in order.
    fn and_all(&self, items: &[T]) -> History<T>
        ensures { result.items ≡ self.now.items ++ items.now }
    {
        History { of: PhantomData }
    }
}
