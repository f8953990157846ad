//! Questions about the past: what refuses one, and the reply from the list that it asks about.
ghost use Rattle.std.specs.Prelude.{◌≡◌, ◌≤◌, ◌+◌, ◌⊎◌, ℕ, false, IfNone, IfSome, IsTrue};
ghost use Rattle.ec_commands.specs.Answers.{answer_text};
ghost use Rattle.ec_commands.specs.Commands.{ask_past};
ghost use Rattle.ec_lines.specs.ShownAnswer.{plain_answer};
ghost use Rattle.ec_lines.specs.ShownCommand.{plain_query};
ghost use Rattle.ec_outside.specs.Counts.{Rose};
ghost use Rattle.ec_past.specs.Viewing.{way_steps};
ghost use Rattle.ec_replies.specs.Past.{list_after};
ghost use Rattle.ec_replies.specs.Replies.{is_backwards, past_text, query_text, reply_line};
ghost use Rattle.ec_replies.specs.Runs.{past_may_want_memory};
ghost use Rattle.ec_sessions.specs.Answering.{IsReadyFor, IsTold, IsWritten, is_bye};
ghost use Rattle.ec_sessions.specs.LineSteps.{most_query_steps, unless_refused};
ghost use Rattle.ec_sessions.specs.SessionsState.{IsReadyAt};

use crate::asked::reply_to_query;
use crate::handled::Handled;
use crate::sessions::Sessions;
use crate::told::Told;
use ec_axioms::Steps;
use ec_lines::{Answer, Query};
use ec_moment::Moment;
use ec_outside::Sink;
use ec_rows::{MarkRow, SpanRow, TimeRow};
use std::sync::ledger::Ledger;

/// Whether a query asks about a stretch whose end comes before its beginning.
fn is_backwards<T: Moment>(query: &Query<'_, T>) -> bool
    ensures { result ≡ is_backwards (plain_query T.rank query.now) }
{
    match query {
        Query::Through {
            prop: _,
            from,
            until,
        } => until.order(from).is_lt(),
        Query::Holds { .. }
        | Query::Intervals { .. }
        | Query::Broken { .. }
        | Query::At { .. }
        | Query::Clashes
        | Query::Events
        | Query::Why { .. } => false,
    }
}

impl<T: Moment, M: MarkRow<T>, I: SpanRow<T>, X: TimeRow<T>> Sessions<T, M, I, X> {
    /// What refuses a query of the list after so many accepted updates: it asks backwards, there were not so many, or that list is
    /// kept no longer. `None`: nothing does.
    fn past_refusal(&self, count: u64, query: &Query<'_, T>) -> Option<Answer>
        ensures refused { IfSome result (λ answer. past_text (record { theory = self.now.theory; spelt = T.spelt; canon = T.canon }) self.now.state count (plain_query T.rank query.now) ≡ answer_text (plain_answer answer)) }
        ensures goes_on { IfSome result (λ answer. is_bye (plain_answer answer) ≡ false) }
        ensures asked { IfNone result (IsTrue (past_may_want_memory self.now.state count (plain_query T.rank query.now))) }
    {
        let accepted = self.chronicle.count();
        let first = self.chronicle.first();
        if is_backwards(query) {
            Some(Answer::Order)
        } else if accepted < count {
            Some(Answer::Future(accepted))
        } else if count < first {
            Some(Answer::Gone(first))
        } else {
            None
        }
    }

    /// Makes ready the list after so many accepted updates, for a query of it, or tells what refuses the query. It is refused for want
    /// of memory only where nothing else refuses it, and no reply tells then that anything changed.
    pub(crate) fn ask_past<'a, L: Ledger>(
        &mut self,
        count: u64,
        query: Query<'a, T>,
        steps: &mut Steps<L>,
    ) -> Told<'a, T>
        ensures theory { self.new.theory ≡ self.old.theory }
        ensures told { (session : ℕ) → IsTold T.rank (record { theory = self.old.theory; spelt = T.spelt; canon = T.canon }) session self.old.state (ask_past count (plain_query T.rank query.entry)) result self.new.state }
        ensures ready { IsReadyFor result self.new }
        ensures steps { steps.new ≤ steps.old + unless_refused self.old.state count (plain_query T.rank query.entry) (way_steps self.old.theory self.old.state.events self.old.state.past self.old.viewed count) }
    {
        if let Some(answer) = self.past_refusal(count, &query) {
            return Told::Answer(answer);
        }
        match self.chronicle.go_to(count, steps) {
            Ok(()) => Told::Past { count, query },
            Err(none) => Told::Answer(Answer::Memory(none)),
        }
    }

    /// Answers a query of the list after so many accepted updates, which is ready, and says what follows.
    pub(crate) fn ask_ready<K: Sink, L: Ledger>(
        &self,
        prefix: Option<u8>,
        count: u64,
        query: &Query<'_, T>,
        out: &mut K,
        steps: &mut Steps<L>,
    ) -> Handled
        requires ready { IsReadyAt count self.now }
        ensures written { IsWritten K.stands result false (reply_line prefix (query_text (record { theory = self.now.theory; spelt = T.spelt; canon = T.canon }) (list_after count self.now.state.events self.now.state.past) (plain_query T.rank query.now))) out.old out.new }
        ensures failed { result ≡ Handled.WriteFault → Rose (K.faults out.old) (K.faults out.new) }
        ensures quiet { (result ≡ Handled.WriteFault) ⊎ (K.faults out.new ≡ K.faults out.old) }
        ensures counted { K.faults out.old ≤ K.faults out.new }
        ensures steps { steps.new ≤ steps.old + most_query_steps self.now.theory (list_after count self.now.state.events self.now.state.past) (plain_query T.rank query.now) }
    {
        reply_to_query(self.chronicle.at(count), prefix, query, out, steps)
    }
}
