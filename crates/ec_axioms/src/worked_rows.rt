//! Worked examples of the calculus, each a law that holds by computation alone. They are here for a reader
//! who wants to see what the definitions say, and to hold the definitions to it.
ghost use Rattle.std.specs.Prelude.{◌≡◌, true, false, [], ◌∷◌, pos, negsuc, codes};
ghost use Rattle.ec_axioms.specs.Timeline.{before_all, begin_at, reason_yes, reason_never, reason_ended, reason_broken};
ghost use Rattle.ec_axioms.specs.Calculus.{intervals_of, broken_of, holds_at, holds_through, reason_of, first_cause, is_initiating, is_terminating, is_breaking, is_current, clashes_of};
ghost use Rattle.ec_axioms.specs.Changes.{change_counts, without_event, work_between};
ghost use Rattle.ec_axioms.specs.Links.{link_count, live_properties};
ghost use Rattle.ec_axioms.specs.Marks.{marks_of};
ghost use Rattle.ec_axioms.specs.Examples.{theory_a, theory_b, theory_c, theory_powered, home_from_the_start, strong_home_from_the_start, plugged_and_pushed, unplugged_between, three_pushes, four_pushes, pushed_before_plugged, plugged_at_the_unplug, two_moves, two_moves_and_a_leave, rung_between, moved_home_twice, moved_to_two_places, three_linked_moves, moved_home_once, theory_of_ties, plugged_with_a_push, bare, lit_a, powered_a, bob_at_home, bob_at_work, bob_answered, unplug_a, push_a, event, interval, unended};

/// A lamp is plugged at 5 and pushed at 10: it is lit after 10, and not yet at 10, since an interval begins
/// behind its start. An unplug at 7 that arrives late leaves it dark: the first rule's entry at 10 sees that
/// `powered(a)` changed and becomes inactive, and the intervals of `powered(a)` and `lit(a)` differ.
pub fn lamp_is_plugged_and_pushed()
    ensures lit { intervals_of theory_a plugged_and_pushed lit_a ≡ unended 10 ∷ [] }
    ensures not_yet_at_10 { holds_at theory_a plugged_and_pushed lit_a (pos 10) ≡ false }
    ensures at_11 { holds_at theory_a plugged_and_pushed lit_a (pos 11) ≡ true }
    ensures dark_after_the_unplug { holds_at theory_a unplugged_between lit_a (pos 11) ≡ false }
    ensures what_changed { change_counts theory_a plugged_and_pushed unplugged_between ≡ record { seen = 1; on = 0; off = 1; props = 2 } }
{}

/// A push at 7 that arrives late turns each later push round: what it lit it now puts out, and the other way.
/// Taking the push out again turns them back. Work is six entries seen, and one event with its two entries.
pub fn late_push_turns_the_later_ones()
    ensures before { intervals_of theory_a three_pushes lit_a ≡ interval 10 20 ∷ unended 30 ∷ [] }
    ensures after { intervals_of theory_a four_pushes lit_a ≡ interval 7 10 ∷ interval 20 30 ∷ [] }
    ensures what_changed { change_counts theory_a three_pushes four_pushes ≡ record { seen = 6; on = 3; off = 3; props = 1 } }
    ensures and_back { change_counts theory_a four_pushes three_pushes ≡ record { seen = 6; on = 3; off = 3; props = 1 } }
    ensures work { work_between theory_a three_pushes four_pushes ≡ 9 }
{}

/// The late push instant by instant: what `lit(a)` was just before, and what each push then did to it.
pub fn late_push_instant_by_instant()
    ensures before_at_10 { is_current theory_a three_pushes lit_a (pos 10) ≡ false }
    ensures before_at_20 { is_current theory_a three_pushes lit_a (pos 20) ≡ true }
    ensures before_at_30 { is_current theory_a three_pushes lit_a (pos 30) ≡ false }
    ensures after_at_7 { is_current theory_a four_pushes lit_a (pos 7) ≡ false }
    ensures after_at_10 { is_current theory_a four_pushes lit_a (pos 10) ≡ true }
    ensures after_at_20 { is_current theory_a four_pushes lit_a (pos 20) ≡ false }
    ensures after_at_30 { is_current theory_a four_pushes lit_a (pos 30) ≡ true }
    ensures marks_before { marks_of theory_a three_pushes lit_a
        ≡ (record { instant = pos 10; inits = 1; terms = 0; clashes = 0 })
        ∷ (record { instant = pos 20; inits = 0; terms = 1; clashes = 0 })
        ∷ (record { instant = pos 30; inits = 1; terms = 0; clashes = 0 })
        ∷ [] }
    ensures marks_after { marks_of theory_a four_pushes lit_a
        ≡ (record { instant = pos 7; inits = 1; terms = 0; clashes = 0 })
        ∷ (record { instant = pos 10; inits = 0; terms = 1; clashes = 0 })
        ∷ (record { instant = pos 20; inits = 1; terms = 0; clashes = 0 })
        ∷ (record { instant = pos 30; inits = 0; terms = 1; clashes = 0 })
        ∷ [] }
{}

/// Contexts read the strict past: a push at the instant of the plug finds the lamp without power. An end and a
/// start at one instant are two intervals: the lamp holds through 10, but no stretch from 5 on holds, since it
/// does not hold at 5 itself.
pub fn one_instant()
    ensures strict_past { intervals_of theory_a pushed_before_plugged lit_a ≡ [] }
    ensures end_and_start { intervals_of theory_a plugged_at_the_unplug powered_a ≡ interval 5 10 ∷ unended 10 ∷ [] }
    ensures through_the_meeting { holds_through theory_a plugged_at_the_unplug powered_a (pos 6) (pos 20) ≡ true }
    ensures not_from_the_start { holds_through theory_a plugged_at_the_unplug powered_a (pos 5) (pos 20) ≡ false }
{}

/// A move to work breaks the time at home, which then gives no interval; leaving home in between closes it after all.
pub fn move_breaks_the_last_place()
    ensures no_interval { intervals_of theory_a two_moves bob_at_home ≡ [] }
    ensures broken { broken_of theory_a two_moves bob_at_home ≡ (begin_at (pos 10), pos 20) ∷ [] }
    ensures reason { reason_of theory_a two_moves bob_at_home (pos 15) ≡ reason_broken (begin_at (pos 10)) (pos 20) }
    ensures cause_of_the_break { first_cause theory_a two_moves (is_breaking theory_a bob_at_home) (pos 20) ≡ Some (record { id = codes "m2"; rule = 6 }) }
    ensures at_work { reason_of theory_a two_moves bob_at_work (pos 21) ≡ reason_yes (begin_at (pos 20)) None }
    ensures cause_at_work { first_cause theory_a two_moves (is_initiating bob_at_work) (pos 20) ≡ Some (record { id = codes "m2"; rule = 6 }) }
    ensures closed { intervals_of theory_a two_moves_and_a_leave bob_at_home ≡ interval 10 18 ∷ [] }
    ensures nothing_broken { broken_of theory_a two_moves_and_a_leave bob_at_home ≡ [] }
    ensures yes_at_15 { reason_of theory_a two_moves_and_a_leave bob_at_home (pos 15) ≡ reason_yes (begin_at (pos 10)) (Some (pos 18)) }
    ensures cause_of_the_start { first_cause theory_a two_moves_and_a_leave (is_initiating bob_at_home) (pos 10) ≡ Some (record { id = codes "m1"; rule = 6 }) }
    ensures cause_of_the_end { first_cause theory_a two_moves_and_a_leave (is_terminating bob_at_home) (pos 18) ≡ Some (record { id = codes "l1"; rule = 7 }) }
    ensures ended_at_19 { reason_of theory_a two_moves_and_a_leave bob_at_home (pos 19) ≡ reason_ended (begin_at (pos 10)) (pos 18) }
{}

/// A ring at 15 is answered, since bob was current at home then, though he does not hold there: the move at 20
/// breaks it. Currency and holding are two notions.
pub fn current_but_not_holding()
    ensures not_holding { holds_at theory_c rung_between bob_at_home (pos 15) ≡ false }
    ensures current { is_current theory_c rung_between bob_at_home (pos 15) ≡ true }
    ensures answered { intervals_of theory_c rung_between bob_answered ≡ unended 15 ∷ [] }
{}

/// A second move home changes nothing while bob is current there, unless being somewhere is strong: then it
/// starts anew and breaks what it found.
pub fn weak_and_strong_initiation()
    ensures weak { intervals_of theory_a moved_home_twice bob_at_home ≡ interval 10 20 ∷ [] }
    ensures weak_broken { broken_of theory_a moved_home_twice bob_at_home ≡ [] }
    ensures strong { intervals_of theory_b moved_home_twice bob_at_home ≡ interval 14 20 ∷ [] }
    ensures strong_broken { broken_of theory_b moved_home_twice bob_at_home ≡ (begin_at (pos 10), pos 14) ∷ [] }
    ensures broken_at_12 { reason_of theory_b moved_home_twice bob_at_home (pos 12) ≡ reason_broken (begin_at (pos 10)) (pos 14) }
    ensures yes_at_20 { reason_of theory_b moved_home_twice bob_at_home (pos 20) ≡ reason_yes (begin_at (pos 14)) (Some (pos 20)) }
    ensures ended_at_21 { reason_of theory_b moved_home_twice bob_at_home (pos 21) ≡ reason_ended (begin_at (pos 14)) (pos 20) }
    ensures never_at_10 { reason_of theory_b moved_home_twice bob_at_home (pos 10) ≡ reason_never }
    ensures cause_of_the_break { first_cause theory_b moved_home_twice (is_breaking theory_b bob_at_home) (pos 14) ≡ Some (record { id = codes "m2"; rule = 6 }) }
{}

/// Of the entries that have one effect at one instant, the first cause is of the event whose identity comes first, whatever
/// the rules, and of that event's entries the one whose rule comes first.
pub fn first_cause_of_three()
    ensures three { marks_of theory_of_ties plugged_with_a_push (bare (codes "lit")) ≡ (record { instant = pos 10; inits = 3; terms = 0; clashes = 0 }) ∷ [] }
    ensures first { first_cause theory_of_ties plugged_with_a_push (is_initiating (bare (codes "lit"))) (pos 10) ≡ Some (record { id = codes "a"; rule = 2 }) }
{}

/// Two moves at one instant clash: both places start there and both hold. Three moves to two places make three links; when the
/// only move to one of the places is taken out, that place is live no more and no link is left.
pub fn clash_and_links()
    ensures at_home { intervals_of theory_a moved_to_two_places bob_at_home ≡ unended 10 ∷ [] }
    ensures at_work { intervals_of theory_a moved_to_two_places bob_at_work ≡ unended 10 ∷ [] }
    ensures clash { clashes_of theory_a moved_to_two_places ≡ pos 10 ∷ [] }
    ensures in_term_order { live_properties theory_a moved_to_two_places ≡ bob_at_home ∷ bob_at_work ∷ [] }
    ensures links { link_count theory_a three_linked_moves ≡ 3 }
    ensures live_after_the_retract { live_properties theory_a (without_event (codes "m2") three_linked_moves) ≡ bob_at_home ∷ [] }
    ensures links_after_the_retract { link_count theory_a (without_event (codes "m2") three_linked_moves) ≡ 0 }
{}

/// What is initial is current from before all events up to its first break; it holds there only if that break
/// terminates it, or none comes.
pub fn initial_properties_hold_from_the_beginning()
    ensures unended { intervals_of theory_powered [] powered_a ≡ (record { from = before_all; until = None }) ∷ [] }
    ensures at_minus_5 { holds_at theory_powered [] powered_a (negsuc 4) ≡ true }
    ensures ended_at_7 { intervals_of theory_powered (event (codes "u") 7 unplug_a ∷ []) powered_a ≡ (record { from = before_all; until = Some (pos 7) }) ∷ [] }
    ensures what_changed { change_counts theory_powered [] (event (codes "u") 7 unplug_a ∷ []) ≡ record { seen = 0; on = 0; off = 0; props = 1 } }
    ensures yes_at_7 { reason_of theory_powered (event (codes "u") 7 unplug_a ∷ []) powered_a (pos 7) ≡ reason_yes before_all (Some (pos 7)) }
    ensures ended_at_8 { reason_of theory_powered (event (codes "u") 7 unplug_a ∷ []) powered_a (pos 8) ≡ reason_ended before_all (pos 7) }
    ensures lit_by_it { intervals_of theory_powered (event (codes "q") 3 push_a ∷ event (codes "u") 7 unplug_a ∷ []) lit_a ≡ interval 3 7 ∷ [] }
    ensures strong_again { intervals_of strong_home_from_the_start moved_home_once bob_at_home ≡ unended 10 ∷ [] }
    ensures strong_broken { broken_of strong_home_from_the_start moved_home_once bob_at_home ≡ (before_all, pos 10) ∷ [] }
    ensures strong_reason { reason_of strong_home_from_the_start moved_home_once bob_at_home (pos 5) ≡ reason_broken before_all (pos 10) }
    ensures weak_again { intervals_of home_from_the_start moved_home_once bob_at_home ≡ (record { from = before_all; until = None }) ∷ [] }
    ensures weak_unbroken { broken_of home_from_the_start moved_home_once bob_at_home ≡ [] }
    ensures weak_reason { reason_of home_from_the_start moved_home_once bob_at_home (pos 5) ≡ reason_yes before_all None }
{}
