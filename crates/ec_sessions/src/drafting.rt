//! Beginning, committing and aborting the draft of a session.
ghost use Rattle.std.specs.Prelude.{◌≡◌, false, ◌≤◌, ◌+◌, ◌<◌, ℕ, Option};
ghost use Rattle.ec_commands.specs.declared.limits.TheConstants.{SESSIONS};
ghost use Rattle.ec_lines.specs.ShownAnswer.{plain_answer};
ghost use Rattle.ec_replies.specs.Replies.{answering, reply_to_abort, reply_to_begin, reply_to_commit};
ghost use Rattle.ec_replies.specs.Runs.{commit_may_want_memory};
ghost use Rattle.ec_sessions.specs.Answering.{IsAnswerBy, is_bye};
ghost use Rattle.ec_sessions.specs.LineSteps.{most_commit_steps};

use crate::sessions::Sessions;
use ec_axioms::Steps;
use ec_engine::Refusal;
use ec_lines::Answer;
use ec_moment::Moment;
use ec_rows::{MarkRow, SpanRow, TimeRow};
use std::sync::ledger::Ledger;

impl<T: Moment, M: MarkRow<T>, I: SpanRow<T>, X: TimeRow<T>> Sessions<T, M, I, X> {
    /// Opens the draft of a session, unless it is open.
    pub(crate) fn begin(&mut self, session: u8) -> Answer
        requires { session < SESSIONS }
        ensures theory { self.new.theory ≡ self.old.theory }
        ensures reply { (prefix : Option ℕ) → reply_to_begin prefix session self.old.state ≡ answering prefix (plain_answer result) self.new.state }
        ensures goes_on { is_bye (plain_answer result) ≡ false }
    {
        match self.drafts.held(session) {
            Some(_) => Answer::InDraft,
            None => {
                self.drafts.open(session);
                Answer::Ok
            }
        }
    }

    /// Closes the draft of a session and drops what it held, if it is open.
    pub(crate) fn abort(&mut self, session: u8) -> Answer
        requires { session < SESSIONS }
        ensures theory { self.new.theory ≡ self.old.theory }
        ensures reply { (prefix : Option ℕ) → reply_to_abort prefix session self.old.state ≡ answering prefix (plain_answer result) self.new.state }
        ensures goes_on { is_bye (plain_answer result) ≡ false }
    {
        match self.drafts.held(session) {
            Some(_) => {
                self.drafts.close(session);
                Answer::Ok
            }
            None => Answer::NoDraft,
        }
    }

    /// Makes all updates of the draft of a session and closes it. Where one is refused, or memory ran out, the draft stays open
    /// and nothing is made.
    pub(crate) fn commit<L: Ledger>(&mut self, session: u8, steps: &mut Steps<L>) -> Answer
        requires { session < SESSIONS }
        ensures theory { self.new.theory ≡ self.old.theory }
        ensures reply { IsAnswerBy (λ prefix. reply_to_commit self.old.theory prefix session self.old.state) (commit_may_want_memory self.old.theory session self.old.state) self.old.state (plain_answer result) self.new.state }
        ensures goes_on { is_bye (plain_answer result) ≡ false }
        ensures steps { steps.new ≤ steps.old + most_commit_steps self.old.theory session self.old.state }
    {
        let Some(held) = self.drafts.held(session) else {
            return Answer::NoDraft;
        };
        match self.chronicle.commit(held, steps) {
            Ok(seen) => {
                self.last = seen;
                self.drafts.close(session);
                Answer::Ok
            }
            Err(Refusal::Update { place, cut }) => Answer::Commit(place, cut),
            Err(Refusal::Memory(none)) => Answer::Memory(none),
        }
    }
}
