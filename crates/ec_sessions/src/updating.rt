//! Asserting and retracting an event: at once, or in the draft of a session.
ghost use Rattle.std.specs.Prelude.{◌≡◌, false, ◌≤◌, ◌+◌, ◌<◌, List, [], ◌∷◌, Err, IsTrue, IfOk};
ghost use Rattle.ec_terms.specs.declared.theory.Theory.{Theory};
ghost use Rattle.ec_terms.specs.Term.{ground_of, names_are_names};
ghost use Rattle.ec_commands.specs.declared.limits.TheConstants.{SESSIONS};
ghost use Rattle.ec_axioms.specs.Calculus.{PlainEvent};
ghost use Rattle.ec_axioms.specs.Changes.{PlainUpdate, asserting, retracting};
ghost use Rattle.ec_axioms.specs.Events.{event_of, plain_update};
ghost use Rattle.ec_engine.specs.Revise.{IsRevised, most_steps};
ghost use Rattle.ec_lines.specs.ShownAnswer.{plain_answer};
ghost use Rattle.ec_past.specs.Chronicles.{IsPastAfter};
ghost use Rattle.ec_replies.specs.Past.{Past};
ghost use Rattle.ec_replies.specs.State.{State, draft_of};
ghost use Rattle.ec_replies.specs.Replies.{reply_to_update, update_reply};
ghost use Rattle.ec_replies.specs.Runs.{may_want_by, update_may_want_memory};
ghost use Rattle.ec_replies.specs.Updates.{asserted, retracted, updated};
ghost use Rattle.ec_sessions.specs.Answering.{IsAnswerBy, is_bye};
ghost use Rattle.ec_sessions.specs.Drafts.{IsOpenWithRoom};
ghost use Rattle.ec_sessions.specs.LineSteps.{most_update_steps};
ghost use Rattle.ec_sessions.specs.SessionsState.{revised_state};

use crate::drafts::Room;
use crate::sessions::Sessions;
use ec_axioms::{Event, Seen, Steps, Update};
use ec_engine::Refusal;
use ec_lines::Answer;
use ec_lists::NoMemory;
use ec_moment::Moment;
use ec_rows::{MarkRow, SpanRow, TimeRow};
use ec_terms::{GroundRef, Name};
use std::alloc::Global;
use std::sync::ledger::Ledger;

impl<T: Moment, M: MarkRow<T>, I: SpanRow<T>, X: TimeRow<T>> Sessions<T, M, I, X> {
    /// Asserts an event, or holds that in the draft of a session where it is open. What is refused for its identity, for the
    /// number of events or for a full draft is told before memory is taken.
    pub(crate) fn assert<L: Ledger>(
        &mut self,
        session: u8,
        id: Name,
        at: T,
        event: &GroundRef<'_>,
        steps: &mut Steps<L>,
    ) -> Answer
        requires session { session < SESSIONS }
        requires named { IsTrue (names_are_names (ground_of event.now)) }
        ensures theory { self.new.theory ≡ self.old.theory }
        ensures reply { let update = asserting (record { id = id; rank = T.rank at; term = ground_of event.now }) in
            IsAnswerBy (λ prefix. reply_to_update self.old.theory prefix session self.old.state update) (update_may_want_memory self.old.theory session self.old.state update) self.old.state (plain_answer result) self.new.state }
        ensures goes_on { is_bye (plain_answer result) ≡ false }
        ensures steps { steps.new ≤ steps.old + most_update_steps self.old.theory session self.old.state (asserting (record { id = id; rank = T.rank at; term = ground_of event.now })) }
    {
        match self.drafts.room(session) {
            Room::Closed => self.assert_at_once(id, at, event, steps),
            Room::Open => match made(self.alloc, id, at, event) {
                Ok(event) => self.hold(session, Update::Assert(event)),
                Err(none) => Answer::Memory(none),
            },
            Room::Full => Answer::FullDraft,
        }
    }

    /// Retracts an event, or holds that in the draft of a session where it is open.
    pub(crate) fn retract<L: Ledger>(
        &mut self,
        session: u8,
        id: Name,
        steps: &mut Steps<L>,
    ) -> Answer
        requires { session < SESSIONS }
        ensures theory { self.new.theory ≡ self.old.theory }
        ensures reply { IsAnswerBy (λ prefix. reply_to_update self.old.theory prefix session self.old.state (retracting id)) (update_may_want_memory self.old.theory session self.old.state (retracting id)) self.old.state (plain_answer result) self.new.state }
        ensures goes_on { is_bye (plain_answer result) ≡ false }
        ensures steps { steps.new ≤ steps.old + most_update_steps self.old.theory session self.old.state (retracting id) }
    {
        match self.drafts.room(session) {
            Room::Closed => self.retract_at_once(id, steps),
            Room::Open => self.hold(session, Update::Retract(id)),
            Room::Full => Answer::FullDraft,
        }
    }

    /// Holds an update in the draft of a session, which is open and has room.
    fn hold(&mut self, session: u8, update: Update<T>) -> Answer
        requires session { session < SESSIONS }
        requires room { IsOpenWithRoom (draft_of session self.old.state) }
        ensures theory { self.new.theory ≡ self.old.theory }
        ensures reply { IsAnswerBy (λ prefix. reply_to_update self.old.theory prefix session self.old.state (plain_update T.rank update)) (update_may_want_memory self.old.theory session self.old.state (plain_update T.rank update)) self.old.state (plain_answer result) self.new.state }
        ensures goes_on { is_bye (plain_answer result) ≡ false }
    {
        match self.drafts.push(session, update) {
            Ok(count) => Answer::Drafted(count),
            Err(none) => Answer::Memory(none),
        }
    }

    /// Asserts an event.
    fn assert_at_once<L: Ledger>(
        &mut self,
        id: Name,
        at: T,
        event: &GroundRef<'_>,
        steps: &mut Steps<L>,
    ) -> Answer
        requires { IsTrue (names_are_names (ground_of event.now)) }
        ensures theory { self.new.theory ≡ self.old.theory }
        ensures reply { let outcome = asserted self.old.theory self.old.state.events (record { id = id; rank = T.rank at; term = ground_of event.now }) in
            IsAnswerBy (λ prefix. update_reply self.old.theory prefix self.old.state outcome) (may_want_by outcome) self.old.state (plain_answer result) self.new.state }
        ensures goes_on { is_bye (plain_answer result) ≡ false }
        ensures steps { steps.new ≤ steps.old + most_steps self.old.theory self.old.state.events (asserting (record { id = id; rank = T.rank at; term = ground_of event.now }) ∷ []) + 1 }
    {
        let revised = self.chronicle.assert(id, at, event, steps);
        answer_revised(&mut self.last, revised)
    }

    /// Retracts an event.
    fn retract_at_once<L: Ledger>(&mut self, id: Name, steps: &mut Steps<L>) -> Answer
        ensures theory { self.new.theory ≡ self.old.theory }
        ensures reply { let outcome = retracted self.old.state.events id in
            IsAnswerBy (λ prefix. update_reply self.old.theory prefix self.old.state outcome) (may_want_by outcome) self.old.state (plain_answer result) self.new.state }
        ensures goes_on { is_bye (plain_answer result) ≡ false }
        ensures steps { steps.new ≤ steps.old + most_steps self.old.theory self.old.state.events (retracting id ∷ []) + 1 }
    {
        let revised = self.chronicle.retract(id, steps);
        answer_revised(&mut self.last, revised)
    }
}

/// The answer to an update, by what came of it. If it is made, `last` becomes what it changed.
fn answer_revised(last: &mut Seen, revised: Result<Seen, Refusal>) -> Answer
    ensures reply { (theory : Theory) (state : State) (update : PlainUpdate) (after : List PlainEvent) (past : Past) →
        state.last ≡ last.old → IsRevised theory state.events (update ∷ []) revised after → IsPastAfter 1 state.events state.past revised past →
        IsAnswerBy (λ prefix. update_reply theory prefix state (updated theory state.events update)) (may_want_by (updated theory state.events update)) state (plain_answer result) (revised_state after past last.new state) }
    ensures goes_on { is_bye (plain_answer result) ≡ false }
{
    match revised {
        Ok(seen) => {
            *last = seen;
            Answer::Ok
        }
        Err(Refusal::Update { place: _, cut }) => Answer::Update(cut),
        Err(Refusal::Memory(none)) => Answer::Memory(none),
    }
}

/// An event whose term has names of its own. `Err`: memory ran out.
fn made<T: Moment>(
    alloc: Global,
    id: Name,
    at: T,
    event: &GroundRef<'_>,
) -> Result<Event<T>, NoMemory>
    requires { IsTrue (names_are_names (ground_of event.now)) }
    ensures { IfOk result (λ made. event_of T.rank made ≡ record { id = id; rank = T.rank at; term = ground_of event.now }) }
{
    let term = event.to_ground(alloc)?;
    Ok(Event { id, at, term })
}
