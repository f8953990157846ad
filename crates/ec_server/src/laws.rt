//! Laws of the definitions, each the contract of a function.
ghost use Rattle.std.specs.Prelude.{◌≡◌, ℕ, List};
ghost use Rattle.ec_theory.specs.Accepted.{IsAccepted};
ghost use Rattle.ec_server.specs.Soaking.{IsSoakLine, soak_text, soak_theory};

/// The line that sums up a run over generated lines is the same each time: it depends on their number and the seed alone.
pub fn soak_line_is_one_law()
    ensures { (lines seed : ℕ) (text other : List ℕ) → IsSoakLine lines seed text → IsSoakLine lines seed other → text ≡ other }
{}

/// The text of the theory that generated lines are served with is accepted, as that theory.
pub fn soak_text_is_a_theory_law()
    ensures { IsAccepted soak_text soak_theory }
{}
