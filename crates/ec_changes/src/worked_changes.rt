//! Worked examples of the words that the laws of change speak of, each a law that holds by computation alone.
ghost use Rattle.std.specs.Prelude.{◌≡◌, true, false, [], ◌∷◌, pos};
ghost use Rattle.ec_axioms.specs.Calculus.{is_initiating, is_terminating};
ghost use Rattle.ec_axioms.specs.Marks.{mark_at};
ghost use Rattle.ec_axioms.specs.Examples.{theory_a, three_pushes, four_pushes, moved_to_two_places, lit_a, powered_a, bob_at_home, bob_at_work};
ghost use Rattle.ec_changes.specs.Differences.{differs};
ghost use Rattle.ec_changes.specs.Turns.{gained, kept_count, lost, sees};
ghost use Rattle.ec_changes.specs.QuietLaws.{current_behind};
ghost use Rattle.ec_changes.specs.LiveLaws.{neighbour_inits};
ghost use Rattle.ec_changes.specs.LinkLaws.{links_of};

/// A push at 7 comes late, before those at 10, 20 and 30. The lamp differs from 8 on, its power never does. At 7 an
/// initiation is gained, at 10 it is lost and a termination gained in its place, and each later push sees the change.
pub fn late_push_differs_from_then_on()
    ensures same_at_7 { differs theory_a three_pushes four_pushes lit_a (pos 7) ≡ false }
    ensures lit_behind_7 { current_behind false (mark_at theory_a four_pushes lit_a (pos 7)) ≡ true }
    ensures differs_at_8 { differs theory_a three_pushes four_pushes lit_a (pos 8) ≡ true }
    ensures differs_at_31 { differs theory_a three_pushes four_pushes lit_a (pos 31) ≡ true }
    ensures power_stays { differs theory_a three_pushes four_pushes powered_a (pos 10) ≡ false }
    ensures gained_at_7 { gained theory_a three_pushes four_pushes (is_initiating lit_a) (pos 7) ≡ 1 }
    ensures lost_at_10 { lost theory_a three_pushes four_pushes (is_initiating lit_a) (pos 10) ≡ 1 }
    ensures gained_at_10 { gained theory_a three_pushes four_pushes (is_terminating lit_a) (pos 10) ≡ 1 }
    ensures seen_before_10 { kept_count theory_a three_pushes four_pushes (sees theory_a three_pushes four_pushes) (pos 10) ≡ 0 }
    ensures seen_before_11 { kept_count theory_a three_pushes four_pushes (sees theory_a three_pushes four_pushes) (pos 11) ≡ 2 }
    ensures seen_before_31 { kept_count theory_a three_pushes four_pushes (sees theory_a three_pushes four_pushes) (pos 31) ≡ 6 }
{}

/// Two moves to two places at one instant: each place clashes by the initiation of the other. The first mention of work
/// adds a link of its own and one for the older mention of home; a second mention of home adds its own alone.
pub fn two_places_clash_by_each_other()
    ensures home_by_work { neighbour_inits theory_a moved_to_two_places (bob_at_home ∷ bob_at_work ∷ []) bob_at_home (pos 10) ≡ 1 }
    ensures links_of_one { links_of theory_a (bob_at_home ∷ []) ≡ 0 }
    ensures links_of_two { links_of theory_a (bob_at_work ∷ bob_at_home ∷ []) ≡ 2 }
    ensures links_of_three { links_of theory_a (bob_at_home ∷ bob_at_work ∷ bob_at_home ∷ []) ≡ 3 }
{}
