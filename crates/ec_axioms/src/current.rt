//! What the contexts of entries read.
ghost use Rattle.std.specs.Prelude.{◌≡◌, ℕ, ℤ, Bool};

use ec_moment::Moment;
use ec_terms::PropId;

/// A table of what is current. It stands for a test, which says of each property, by its number, and
/// each time whether the property is current there. It takes no memory.
pub trait Current<T: Moment> {
    // Whether the property of a number is current at the moment with a rank.
    ghost is_current: { Self → ℕ → ℤ → Bool };

    /// Whether the property is current just before the events at this time.
    fn current(&self, p: PropId, at: T) -> bool
        ensures { result ≡ is_current self.now p.0 (T.rank at) };
}
