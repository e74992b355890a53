// What a value shows of itself.
ghost use Rattle.std.specs.Prelude.{◌≡◌, List, length};

/// A value that shows a list of entries.
pub trait Entries {
    /// What the list is of.
    type Entry;

    // The entries that the value has now.
    ghost entries: { Self → List Self.Entry };

    /// How many entries the value has now.
    fn count(&self) -> u64
        ensures { result ≡ length (entries self.now) };
}
