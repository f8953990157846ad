//! The generated lines, one after another.
ghost use Rattle.std.specs.Prelude.{◌≡◌, ◌++◌, [], option_to_list, IfNone};

use crate::draws::Draws;
use crate::generated_line::{GeneratedLine, draw_line};
use std::marker::Model;

/// Lines that are drawn as they are asked for. Contracts see it as the list of the lines that are left.
#[derive(Drop)]
pub(crate) struct GeneratedLines {
    draws: Draws,
    made: u32,
    lines: u32,
}

impl Model for GeneratedLines {
    ghost use Rattle.std.specs.Prelude.{◌+◌, ◌-◌, ◌≤◌, List};
    ghost use Rattle.ec_soak.specs.declared.generated_line.GeneratedLine.{GeneratedLine};

    ghost Value = { List GeneratedLine };

    ghost use Rattle.ec_soak.specs.Load.{drawn_lines};

    ghost view = { λ s. drawn_lines (s.lines - s.made) (s.made + 1) s.draws };

    ghost invariant = { λ s. s.made ≤ s.lines };
}

impl GeneratedLines {
    ghost use Rattle.ec_soak.specs.Load.{generated_lines};

    /// So many lines, drawn from the seed.
    pub(crate) fn new(lines: u32, seed: u64) -> GeneratedLines
        ensures { result ≡ generated_lines lines seed }
    {
        GeneratedLines {
            draws: Draws::new(seed),
            made: 0,
            lines,
        }
    }

    /// The next line, if one is left.
    pub(crate) fn next_line(&mut self) -> Option<GeneratedLine>
        ensures next { self.old ≡ option_to_list result ++ self.new }
        ensures none { IfNone result (self.new ≡ []) }
    {
        if self.made == self.lines {
            return None;
        }
        self.made += 1;
        Some(draw_line(&mut self.draws, self.made))
    }
}
