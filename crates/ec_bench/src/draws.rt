//! Numbers that look random.
ghost use Rattle.std.specs.Prelude.{◌+◌, ◌-◌, ◌^◌, ◌<◌, ◌≤◌};

/// Numbers that look random: the high bits of a congruential generator of 64 bits, from seed 1.
#[derive(Drop)]
pub(crate) struct Draws {
    state: u64,
}

impl Draws {
    pub(crate) fn new() -> Draws {
        Draws { state: 1 }
    }

    /// A number up to `most`. Numbers beyond 2^31 do not come.
    pub(crate) fn draw_up_to(&mut self, most: usize) -> usize
        requires { most < 2 ^ 64 - 1 }
        ensures { result ≤ most }
    {
        self.state = self
            .state
            .wrapping_mul(6364136223846793005)
            .wrapping_add(1442695040888963407);
        (self.state >> 33) as usize % (most + 1)
    }
}
