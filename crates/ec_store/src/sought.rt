ghost use Rattle.std.specs.Prelude.{◌≡◌, ℕ};
ghost use Rattle.std.specs.declared.cmp.Ordering.{Ordering};

use std::cmp::Ordering;

/// What is looked for, with what stands under the slots: it tells how that stands to it.
pub trait Sought {
    // How what stands under a slot stands to what is looked for.
    ghost place: { Self → ℕ → Ordering };

    /// How what stands under a slot stands to what is looked for.
    fn compare(&self, slot: usize) -> Ordering
        ensures { result ≡ place self.now slot };
}
