//! Laws of the definitions, each the contract of a function, and what they give on small examples.
ghost use Rattle.std.specs.Prelude.{◌≡◌, ℕ, [], ◌∷◌, codes, false, length, map};
ghost use Rattle.ec_commands.specs.Lines.{lines_of, is_long};
ghost use Rattle.ec_soak.specs.Draws.{next_state, draw};
ghost use Rattle.ec_soak.specs.Load.{drawn_lines, generated_lines, generated_load, line_text};
ghost use Rattle.ec_soak.specs.Tally.{counts_of};
ghost use Rattle.ec_soak.specs.declared.generated_line.GeneratedEvent.TheVariants.{Push, Plug, Unplug, Move, Leave};
ghost use Rattle.ec_soak.specs.declared.generated_line.GeneratedLine.{GeneratedLine};
ghost use Rattle.ec_soak.specs.declared.generated_line.GeneratedLine.TheVariants.{Assert, Retract, HoldsLit, HoldsAt, Intervals, Last};

/// The first draw of seed 0, and its first twenty lines: among them is each command and each kind of
/// event.
pub fn first_draws_law()
    ensures state { next_state 0 ≡ 1442695040888963407 }
    ensures command { draw 100 0 ≡ (7, 1442695040888963407) }
    ensures lines { drawn_lines 20 1 0 ≡
        Assert 1 96424 (Unplug 45)
        ∷ Intervals 56
        ∷ HoldsLit 32 18139
        ∷ Assert 4 46482 (Unplug 52)
        ∷ Assert 5 40745 (Move 11 35)
        ∷ Assert 6 58069 (Unplug 13)
        ∷ HoldsAt 1 23 97011
        ∷ Assert 8 25417 (Plug 36)
        ∷ HoldsAt 11 18 70999
        ∷ HoldsLit 38 70016
        ∷ HoldsLit 49 40817
        ∷ Assert 12 13832 (Unplug 20)
        ∷ HoldsAt 8 63 27065
        ∷ Last
        ∷ Assert 15 65975 (Push 12 2)
        ∷ Retract 1
        ∷ Retract 7
        ∷ Assert 18 54185 (Unplug 3)
        ∷ Assert 19 87294 (Unplug 56)
        ∷ Assert 20 90012 (Leave 4 62)
        ∷ [] }
{}

/// What is counted of a small output, in which a word that only begins with `ok` stands, and whose last
/// line is not ended.
#[tactic(auto, unfolding(crate::specs::Tally::counts_of, ec_commands::specs::Lines::cut_of))]
pub fn small_counts_law()
    ensures { counts_of
        (codes "ok\nyes\nno\nok\nokay\nrefused duplicate e1\nrefused memory\nrefused memory \nlast seen 1\n\nok")
        ≡ record { ok = 2; yes = 1; no = 1; refused = 3; bytes = 85; memory = 1 } }
{}

/// There are as many generated lines as are asked for, the lines into which their bytes are cut are
/// their texts, and none of them is too long.
pub fn load_lines_law()
    ensures count { (lines seed : ℕ) → length (generated_lines lines seed) ≡ lines }
    ensures texts { (lines seed : ℕ) → lines_of (generated_load lines seed) ≡ map line_text (generated_lines lines seed) }
    ensures short { (line : GeneratedLine) → is_long (line_text line) ≡ false }
{}
