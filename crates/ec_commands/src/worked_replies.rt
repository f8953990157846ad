//! Worked replies to queries, each a law that holds by computation alone: what is written, byte for byte. Counts and rule numbers
//! are `decimal`, which does not compute; times are written by `short_number`, which does.
ghost use Rattle.std.specs.Prelude.{◌≡◌, [], ◌∷◌, ◌++◌, pos, negsuc, codes, decimal};
ghost use Rattle.ec_commands.specs.declared.relation.Relation.TheVariants.{Before, Meets, Equals, FinishedBy};
ghost use Rattle.ec_commands.specs.QueryTexts.{intervals_reply, broken_reply, at_reply, clashes_reply, events_reply, why_reply, pairs_reply, related_reply};
ghost use Rattle.ec_axioms.specs.Examples.{theory_a, theory_b, theory_powered, home_from_the_start, strong_home_from_the_start, plugged_and_pushed, four_pushes, plugged_at_the_unplug, two_moves, two_moves_and_a_leave, moved_home_twice, moved_to_two_places, moved_home_once, lit_a, powered_a, bob_at_home, bob_at_work, unplug_a, event, short_number};

/// Intervals in order, each from its begin to its end; broken begins with their breaks; how many there are comes first.
pub fn intervals_are_told()
    ensures one_unended { intervals_reply theory_a plugged_and_pushed short_number lit_a ≡ decimal 1 ++ codes " (10,inf)" }
    ensures two_closed { intervals_reply theory_a four_pushes short_number lit_a ≡ decimal 2 ++ codes " (7,10] (20,30]" }
    ensures two_that_meet { intervals_reply theory_a plugged_at_the_unplug short_number powered_a ≡ decimal 2 ++ codes " (5,10] (10,inf)" }
    ensures none { intervals_reply theory_a two_moves short_number bob_at_home ≡ decimal 0 ++ [] }
    ensures broken { broken_reply theory_a two_moves short_number bob_at_home ≡ decimal 1 ++ codes " 10 20" }
    ensures from_before_all { intervals_reply theory_powered (event (codes "u") 7 unplug_a ∷ []) short_number powered_a ≡ decimal 1 ++ codes " (-inf,7]" }
    ensures all_along { intervals_reply theory_powered [] short_number powered_a ≡ decimal 1 ++ codes " (-inf,inf)" }
    ensures broken_from_before_all { broken_reply strong_home_from_the_start moved_home_once short_number bob_at_home ≡ decimal 1 ++ codes " -inf 10" }
{}

/// Properties that hold at a time, in term order; the instants of clashes; the present events in order.
pub fn lists_are_told()
    ensures both_places { at_reply theory_a moved_to_two_places (pos 11) ≡ decimal 2 ++ codes " at(bob,home) at(bob,work)" }
    ensures not_yet { at_reply theory_a moved_to_two_places (pos 10) ≡ decimal 0 ++ [] }
    ensures at_minus_5 { at_reply theory_powered [] (negsuc 4) ≡ decimal 1 ++ codes " powered(a)" }
    ensures clash { clashes_reply theory_a moved_to_two_places short_number ≡ decimal 1 ++ codes " 10" }
    ensures events { events_reply plugged_and_pushed short_number ≡ decimal 2 ++ codes " p 5 plug(a) q 10 push(bob,a)" }
    ensures no_events { events_reply [] short_number ≡ decimal 0 ++ [] }
{}

/// Reasons with their first causes: the event and the number of its rule.
pub fn reasons_are_told()
    ensures broken { why_reply theory_a two_moves short_number bob_at_home (pos 15) ≡ codes "no broken 10 20 by m2 rule " ++ decimal 6 }
    ensures unended { why_reply theory_a two_moves short_number bob_at_work (pos 21) ≡ codes "yes 20 inf by m2 rule " ++ decimal 6 }
    ensures closed { why_reply theory_a two_moves_and_a_leave short_number bob_at_home (pos 15) ≡ codes "yes 10 18 by m1 rule " ++ decimal 6 ++ codes " until " ++ (codes "l1 rule " ++ decimal 7) }
    ensures ended { why_reply theory_a two_moves_and_a_leave short_number bob_at_home (pos 19) ≡ codes "no ended 10 18 by l1 rule " ++ decimal 7 }
    ensures never { why_reply theory_b moved_home_twice short_number bob_at_home (pos 10) ≡ codes "no never" }
    ensures broken_by_itself { why_reply theory_b moved_home_twice short_number bob_at_home (pos 12) ≡ codes "no broken 10 14 by m2 rule " ++ decimal 6 }
    ensures initially { why_reply theory_powered (event (codes "u") 7 unplug_a ∷ []) short_number powered_a (pos 7) ≡ codes "yes -inf 7 initially until u rule " ++ decimal 4 }
    ensures ended_from_before_all { why_reply theory_powered (event (codes "u") 7 unplug_a ∷ []) short_number powered_a (pos 8) ≡ codes "no ended -inf 7 by u rule " ++ decimal 4 }
    ensures broken_from_before_all { why_reply strong_home_from_the_start moved_home_once short_number bob_at_home (pos 5) ≡ codes "no broken -inf 10 by m1 rule " ++ decimal 6 }
    ensures all_along { why_reply home_from_the_start moved_home_once short_number bob_at_home (pos 5) ≡ codes "yes -inf inf initially" }
{}

/// Pairs of intervals by the first, then by the second; and the intervals that the one at a time stands in a relation to. An
/// interval does not cover the time at which it begins, and covers the time at which it ends.
pub fn relations_are_told()
    ensures meets { pairs_reply theory_a plugged_at_the_unplug short_number powered_a Meets powered_a ≡ decimal 1 ++ codes " (5,10] (10,inf)" }
    ensures equals { pairs_reply theory_a plugged_at_the_unplug short_number powered_a Equals powered_a ≡ decimal 2 ++ codes " (5,10] (5,10] (10,inf) (10,inf)" }
    ensures unknown { pairs_reply theory_a plugged_at_the_unplug short_number powered_a Before bob_at_home ≡ decimal 0 ++ [] }
    ensures all_along { pairs_reply theory_powered [] short_number powered_a Equals powered_a ≡ decimal 1 ++ codes " (-inf,inf) (-inf,inf)" }
    ensures at_the_begin { related_reply theory_a plugged_at_the_unplug short_number powered_a (pos 5) Meets powered_a ≡ codes "none" }
    ensures at_the_end { related_reply theory_a plugged_at_the_unplug short_number powered_a (pos 10) Meets powered_a ≡ decimal 1 ++ codes " (10,inf)" }
    ensures no_other { related_reply theory_a plugged_at_the_unplug short_number powered_a (pos 11) FinishedBy powered_a ≡ decimal 0 ++ [] }
{}
