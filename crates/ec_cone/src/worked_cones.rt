//! Worked cones and labels, each a law that holds by computation alone. The number of lines is
//! `decimal`, which does not compute; times are written by `short_number`, which does.
ghost use Rattle.std.specs.Prelude.{◌≡◌, true, false, [], ◌∷◌, ◌++◌, pos, codes, decimal};
ghost use Rattle.ec_axioms.specs.Calculus.{holds_at};
ghost use Rattle.ec_axioms.specs.Examples.{bare, bob_at_home, event, lit_a, plug_a, powered_a, push_a, short_number, theory_a};
ghost use Rattle.ec_cone.specs.Cone.{in_cone, cone_events, cone_rules};
ghost use Rattle.ec_cone.specs.Label.{label_text};
ghost use Rattle.ec_cone.specs.Examples.{a_night, alarm, locked, moved_plugged_and_pushed, open_front, shut, theory_of_doors, warned};

/// Whether a lamp is lit rests on power, and not the other way; where bob is has no part in it, and
/// rests on nothing else.
pub fn lamps_rest_on_power()
    ensures itself { in_cone theory_a lit_a lit_a ≡ true }
    ensures power { in_cone theory_a lit_a powered_a ≡ true }
    ensures not_back { in_cone theory_a powered_a lit_a ≡ false }
    ensures not_places { in_cone theory_a lit_a bob_at_home ≡ false }
    ensures rules_of_lit { cone_rules theory_a lit_a ≡ true ∷ true ∷ true ∷ true ∷ true ∷ false ∷ false ∷ [] }
    ensures rules_of_places { cone_rules theory_a bob_at_home ≡ false ∷ false ∷ false ∷ false ∷ false ∷ true ∷ true ∷ [] }
{}

/// Terminating rules and literals that are not positive count, a declaration is read both ways, and
/// the number of arguments matters.
pub fn warnings_rest_on_locks()
    ensures rules_of_warned { cone_rules theory_of_doors warned ≡ true ∷ true ∷ true ∷ true ∷ false ∷ [] }
    ensures shut_of_warned { in_cone theory_of_doors warned shut ≡ true }
    ensures open_of_shut { in_cone theory_of_doors shut open_front ≡ true }
    ensures shut_of_open { in_cone theory_of_doors open_front shut ≡ true }
    ensures not_alarm_of_open { in_cone theory_of_doors open_front alarm ≡ false }
    ensures other_arity { in_cone theory_of_doors warned (bare (codes "open")) ≡ false }
    ensures rules_of_locked { cone_rules theory_of_doors locked ≡ true ∷ false ∷ false ∷ false ∷ false ∷ [] }
    ensures unknown { cone_rules theory_of_doors (bare (codes "nobody")) ≡ false ∷ false ∷ false ∷ false ∷ false ∷ [] }
{}

/// A label has a line for each event with a cone entry, in order, with a bit for each such entry:
/// the push of a dark lamp lights it, and its second entry, which would put it out, is not active.
pub fn labels_are_written()
    ensures events { cone_events theory_a lit_a moved_plugged_and_pushed
        ≡ event (codes "p") 5 plug_a ∷ event (codes "q") 10 push_a ∷ [] }
    ensures lit { label_text theory_a moved_plugged_and_pushed short_number lit_a (pos 11)
        ≡ codes "certificate lit(a) 11" ++ 10 ∷ codes "p 1" ++ 10 ∷ codes "q 10" ++ 10 ∷ codes "end " ++ (decimal 2 ++ 10 ∷ []) }
    ensures doors { label_text theory_of_doors a_night short_number warned (pos 4)
        ≡ codes "certificate warned 4" ++ 10 ∷ codes "a 0" ++ 10 ∷ codes "b 1" ++ 10 ∷ codes "c 0"
        ++ 10 ∷ codes "d 0" ++ 10 ∷ codes "end " ++ (decimal 4 ++ 10 ∷ []) }
    ensures no_event { label_text theory_a [] short_number lit_a (pos 0)
        ≡ codes "certificate lit(a) 0" ++ 10 ∷ codes "end " ++ (decimal 0 ++ 10 ∷ []) }
    ensures not_lit_at_10 { holds_at theory_a moved_plugged_and_pushed lit_a (pos 10) ≡ false }
{}
