//! Drawn numbers.
ghost use Rattle.std.specs.Prelude.{◌≡◌, ◌<◌};
ghost use Rattle.ec_soak.specs.Draws.{draw};

use std::marker::Model;

/// The factor and the summand of the congruential generator.
const FACTOR: u64 = 6364136223846793005;

const SUMMAND: u64 = 1442695040888963407;

/// A congruential generator of 64 bits. Contracts see it as its state.
#[derive(Drop)]
pub(crate) struct Draws {
    state: u64,
}

impl Model for Draws {
    ghost use Rattle.std.specs.Prelude.{ℕ};

    ghost Value = { ℕ };

    ghost view = { λ d. d.state };
}

impl Draws {
    /// The generator with that seed as its state.
    pub(crate) fn new(seed: u64) -> Draws
        ensures { result ≡ seed }
    {
        Draws { state: seed }
    }

    /// Draws a number below `limit`.
    #[tactic(auto, unfolding(crate::specs::Draws::draw, crate::specs::Draws::next_state), using(crate::proofs::StateLemmas::modulo))]
    pub(crate) fn draw(&mut self, limit: u32) -> u32
        requires { 0 < limit }
        ensures value { result ≡ (draw limit self.old).0 }
        ensures state { self.new ≡ (draw limit self.old).1 }
        ensures below { result < limit }
    {
        self.state = self.state.wrapping_mul(FACTOR).wrapping_add(SUMMAND);
        ((self.state >> 33) % u64::from(limit)) as u32
    }
}
