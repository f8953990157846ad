ghost use Rattle.std.specs.Prelude.{◌≡◌};

/// Values of which another one is had without memory. `Copy` does not serve here: a name is none.
pub trait Copied {
    /// An equal value.
    fn copied(&self) -> Self
        ensures { result ≡ self.now };
}

impl<A: Copy, B: Copied, C: Copy> Copied for (A, B, C) {
    fn copied(&self) -> Self {
        let (first, second, third) = self;
        (*first, second.copied(), *third)
    }
}
