//! Worked dialogues, each a law that holds by computation alone: what is written for each line, byte for byte. Numbers are
//! `decimal`, which does not compute.
ghost use Rattle.std.specs.Prelude.{◌≡◌, ℕ, pos, None, [], ◌∷◌, ◌++◌, codes, decimal};
ghost use Rattle.ec_axioms.specs.Examples.{lit_a, plug_a, push_a};
ghost use Rattle.ec_commands.specs.Commands.{ask, ask_events, ask_holds, ask_past, ask_through, assert_event, begin_draft, commit_draft, retract_event, unwatch_prop, watch_prop};
ghost use Rattle.ec_replies.specs.State.{draft_of, empty_state};
ghost use Rattle.ec_replies.specs.Examples.{commands_answered, replies_to, told, told_to};

/// Before the first line each draft is closed.
pub fn a_state_has_all_drafts_closed()
    ensures { (session : ℕ) → draft_of session empty_state ≡ None }
{}

/// A lamp is plugged and pushed. An identity that is there is not asserted again, and one that is not there is not retracted.
/// Once the plug is retracted, the lamp is dark.
pub fn a_lamp_is_plugged_and_pushed()
    ensures { replies_to (codes "assert p 5 plug(a)" ∷ codes "assert q 10 push(bob,a)" ∷ codes "holds lit(a) 11" ∷ codes "assert p 7 unplug(a)"
        ∷ codes "retract x" ∷ codes "through lit(a) 12 11" ∷ codes "retract p" ∷ codes "holds lit(a) 11" ∷ codes "quit" ∷ [])
        ≡ told (codes "ok") ∷ told (codes "ok") ∷ told (codes "yes") ∷ told (codes "refused duplicate p")
        ∷ told (codes "refused unknown x") ∷ told (codes "refused order") ∷ told (codes "ok") ∷ told (codes "no") ∷ told (codes "bye") ∷ [] }
{}

/// A commit is refused at its second update, and nothing of the draft is there. The draft stays open until it is aborted.
pub fn a_commit_is_refused_at_its_second_update()
    ensures { replies_to (codes "begin" ∷ codes "begin" ∷ codes "assert p 5 plug(a)" ∷ codes "assert p 6 plug(b)" ∷ codes "holds powered(a) 6"
        ∷ codes "commit" ∷ codes "holds powered(a) 6" ∷ codes "abort" ∷ codes "commit" ∷ [])
        ≡ told (codes "ok") ∷ told (codes "refused in-draft") ∷ told (codes "drafted " ++ decimal 1) ∷ told (codes "drafted " ++ decimal 2) ∷ told (codes "no")
        ∷ told (codes "refused commit " ++ decimal 2 ++ codes " " ++ codes "duplicate p") ∷ told (codes "no") ∷ told (codes "ok") ∷ told (codes "refused no-draft") ∷ [] }
{}

/// Each session has a draft of its own, and sees no other before its commit. A line without a good prefix is refused without one.
pub fn two_sessions_do_not_see_each_other()
    ensures { replies_to (codes "@1 begin" ∷ codes "@1 assert p 5 plug(a)" ∷ codes "holds powered(a) 6" ∷ codes "@1 commit" ∷ codes "holds powered(a) 6"
        ∷ codes "abort" ∷ codes "@64 abort" ∷ codes "% a remark" ∷ codes "@07 events" ∷ [])
        ≡ told_to 1 (codes "ok") ∷ told_to 1 (codes "drafted " ++ decimal 1) ∷ told (codes "no") ∷ told_to 1 (codes "ok") ∷ told (codes "yes")
        ∷ told (codes "refused no-draft") ∷ told (codes "refused syntax") ∷ [] ∷ told_to 7 (decimal 1 ++ codes " p 5 plug(a)") ∷ [] }
{}

/// A lamp is plugged, pushed and unplugged. What was known after each update is asked for; an update that is still to come is refused,
/// and so is a stretch that ends before it begins, whatever the number. A draft is no update before its commit.
pub fn what_was_known_is_asked_for()
    ensures { commands_answered ((0, assert_event (codes "p") (pos 5) plug_a) ∷ (0, assert_event (codes "q") (pos 10) push_a) ∷ (1, begin_draft)
        ∷ (1, retract_event (codes "p")) ∷ (0, ask_past 1 (ask_holds lit_a (pos 11))) ∷ (1, ask_past 2 (ask_holds lit_a (pos 11))) ∷ (0, ask_past 0 ask_events)
        ∷ (0, ask_past 3 ask_events) ∷ (0, ask_past 9 (ask_through lit_a (pos 8) (pos 7))) ∷ (1, commit_draft) ∷ (0, ask_past 2 ask_events) ∷ (0, ask ask_events) ∷ [])
        ≡ told (codes "ok") ∷ told (codes "ok") ∷ told (codes "ok") ∷ told (codes "drafted " ++ decimal 1) ∷ told (codes "no") ∷ told (codes "yes") ∷ told (decimal 0)
        ∷ told (codes "refused future " ++ decimal 2) ∷ told (codes "refused order") ∷ told (codes "ok")
        ∷ told (decimal 2 ++ codes " p 5 plug(a) q 10 push(bob,a)") ∷ told (decimal 1 ++ codes " q 10 push(bob,a)") ∷ [] }
{}

/// A session watches a lamp. An update of another session that changes when it is lit is noted below its reply, with what was lost and
/// what was gained; one that does not change it has no note.
pub fn a_watched_lamp_is_noted()
    ensures { commands_answered ((1, watch_prop lit_a) ∷ (0, assert_event (codes "p") (pos 5) plug_a) ∷ (2, assert_event (codes "q") (pos 10) push_a)
        ∷ (0, assert_event (codes "t") (pos 20) push_a) ∷ (1, watch_prop lit_a) ∷ (1, unwatch_prop lit_a) ∷ (0, unwatch_prop lit_a) ∷ [])
        ≡ told (decimal 0) ∷ told (codes "ok")
        ∷ (told (codes "ok") ++ told (codes "note " ++ decimal 1 ++ codes " lit(a) lost " ++ decimal 0 ++ codes " gained " ++ decimal 1 ++ codes " (10,inf)"))
        ∷ (told (codes "ok") ++ told (codes "note " ++ decimal 1 ++ codes " lit(a) lost " ++ decimal 1 ++ codes " (10,inf) gained " ++ decimal 1 ++ codes " (10,20]"))
        ∷ told (codes "refused watched") ∷ told (codes "ok") ∷ told (codes "refused not-watched") ∷ [] }
{}

/// The runs of two lamps overlap. Where the first holds no longer, nothing is related to it; a word that is no relation is refused.
pub fn two_lamps_are_compared()
    ensures { replies_to (codes "assert p 5 plug(a)" ∷ codes "assert u 15 unplug(a)" ∷ codes "assert p2 10 plug(b)"
        ∷ codes "pairs powered(a) overlaps powered(b)" ∷ codes "@1 related powered(b) 11 overlapped_by powered(a)"
        ∷ codes "related powered(a) 16 overlaps powered(b)" ∷ codes "pairs powered(a) near powered(b)" ∷ [])
        ≡ told (codes "ok") ∷ told (codes "ok") ∷ told (codes "ok")
        ∷ told (decimal 1 ++ codes " (5,15] (10,inf)") ∷ told_to 1 (decimal 1 ++ codes " (5,15]")
        ∷ told (codes "none") ∷ told (codes "refused syntax") ∷ [] }
{}
