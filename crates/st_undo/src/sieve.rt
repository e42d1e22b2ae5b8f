ghost use Rattle.std.specs.Prelude.{◌≡◌, Bool};

/// A test of items, as a value, so that what it answers is known by its trait and no closure has to
/// be proved.
pub trait Sieve<T> {
    ghost takes: { Self → T → Bool };

    /// Whether the item is one that is taken.
    fn takes(&self, item: &T) -> bool
        ensures { result ≡ takes self.now item.now };

    /// A value that can stand in a place whose item was moved out, whichever it is. It takes no memory.
    fn hole(&self) -> T;
}
