//! Worked batches of updates, each a law that holds by computation alone.
ghost use Rattle.std.specs.Prelude.{◌≡◌, ◌≤◌, [], ◌∷◌, Ok, Err, IsTrue, IsFalse, List, codes, length};
ghost use Rattle.ec_terms.specs.declared.theory.Theory.{Theory};
ghost use Rattle.ec_axioms.specs.declared.event.Cut.TheVariants.{Duplicate, Unknown, FullEvents};
ghost use Rattle.ec_axioms.specs.Calculus.{PlainEvent};
ghost use Rattle.ec_axioms.specs.Changes.{asserting, has_id, retracting};
ghost use Rattle.ec_axioms.specs.Links.{most_events};
ghost use Rattle.ec_axioms.specs.Examples.{event, plug_a, plugged_and_pushed, push_a, theory_a, three_pushes};
ghost use Rattle.ec_engine.specs.Revise.{most_steps};
ghost use Rattle.ec_replies.specs.Updates.{asserted, updated_by};

/// A batch is applied in order; its first refusal is told with its place.
pub fn batches_are_applied_in_order()
    ensures none { updated_by theory_a plugged_and_pushed [] ≡ Ok plugged_and_pushed }
    ensures duplicate { updated_by theory_a plugged_and_pushed (asserting (event (codes "p") 7 plug_a) ∷ []) ≡ Err (1, Duplicate (codes "p")) }
    ensures unknown { updated_by theory_a plugged_and_pushed (retracting (codes "p") ∷ retracting (codes "p") ∷ []) ≡ Err (2, Unknown (codes "p")) }
    ensures back { updated_by theory_a plugged_and_pushed (retracting (codes "p") ∷ asserting (event (codes "p") 5 plug_a) ∷ []) ≡ Ok plugged_and_pushed }
    ensures later { updated_by theory_a [] (asserting (event (codes "q") 10 push_a) ∷ asserting (event (codes "p") 5 plug_a) ∷ []) ≡ Ok plugged_and_pushed }
{}

/// A present identity is refused before a full list, and a full list before all that the event would mention.
pub fn refusals_have_an_order_law()
    ensures duplicate { (theory : Theory) (events : List PlainEvent) (e : PlainEvent) → IsTrue (has_id e.id events) → asserted theory events e ≡ Err (Duplicate e.id) }
    ensures full { (theory : Theory) (events : List PlainEvent) (e : PlainEvent) → IsFalse (has_id e.id events) → most_events ≤ length events
        → asserted theory events e ≡ Err FullEvents }
{}

/// A push that comes late and turns the three behind it bears on nine things: six entries see the change, and two entries come
/// with the event. It takes three steps at most for each of them, and two for the update. A push that is taken back in the batch that
/// asserts it bears on nothing.
pub fn late_pushes_take_few_steps()
    ensures late { most_steps theory_a three_pushes (asserting (event (codes "t") 7 push_a) ∷ []) ≡ 29 }
    ensures taken_back { most_steps theory_a three_pushes (asserting (event (codes "t") 7 push_a) ∷ retracting (codes "t") ∷ []) ≡ 4 }
{}
