//! The sessions, and how they handle one line.
ghost use Rattle.std.specs.Prelude.{◌≡◌, ◌≤◌, ◌+◌, ◌<◌, ◌⊎◌, ℕ, List, false, IfOk, IfSome};
ghost use Rattle.ec_commands.specs.Commands.{parsed_of};
ghost use Rattle.ec_commands.specs.Lines.{is_long};
ghost use Rattle.ec_commands.specs.declared.limits.TheConstants.{SESSIONS};
ghost use Rattle.ec_lines.specs.ShownCommand.{plain_command, plain_parsed, AreNamed};
ghost use Rattle.ec_lines.specs.ShownLine.{ShowsLine};
ghost use Rattle.ec_outside.specs.Counts.{Rose};
ghost use Rattle.ec_replies.specs.State.{empty_state};
ghost use Rattle.ec_sessions.specs.Answering.{IsReadyFor, IsTold};
ghost use Rattle.ec_sessions.specs.Handling.{IsHandled};
ghost use Rattle.ec_sessions.specs.LineSteps.{most_change_steps, most_line_steps, most_parsed_steps};

use crate::drafts::Drafts;
use crate::handled::Handled;
use crate::reply::reply;
use crate::told::{Comparison, Told};
use ec_axioms::{Seen, Steps};
use ec_check::Checked;
use ec_lines::{Answer, Command, Line, Parsed, read_command};
use ec_lists::NoMemory;
use ec_moment::Moment;
use ec_outside::Sink;
use ec_past::Chronicle;
use ec_rows::{MarkRow, SpanRow, TimeRow};
use std::alloc::Global;
use std::marker::Model;
use std::sync::ledger::Ledger;

/// The counts of a change that changed nothing.
const NO_CHANGE: Seen = Seen {
    seen: 0,
    on: 0,
    off: 0,
    props: 0,
};

/// What lines are answered from: the chronicle, which keeps the present events, what the calculus makes of them, and their past;
/// what the last accepted update changed; and the draft of each session. Contracts see the theory, the state of the replies, in which
/// nothing is watched, and which list of the past is viewed.
#[derive(Drop)]
pub struct Sessions<T: Moment, M: MarkRow<T>, I: SpanRow<T>, X: TimeRow<T>> {
    pub(crate) chronicle: Chronicle<T, M, I, X>,
    pub(crate) last: Seen,
    pub(crate) drafts: Drafts<T>,
    pub(crate) alloc: Global,
}

impl<T: Moment, M: MarkRow<T>, I: SpanRow<T>, X: TimeRow<T>> Model for Sessions<T, M, I, X> {
    ghost use Rattle.ec_sessions.specs.SessionsState.{SessionsState, kept_state};

    ghost Value = { SessionsState };

    ghost view = { λ s. record { theory = s.chronicle.theory; state = kept_state s.chronicle.events s.chronicle.past s.last s.drafts; viewed = s.chronicle.viewed } };
}

impl<T: Moment, M: MarkRow<T>, I: SpanRow<T>, X: TimeRow<T>> Sessions<T, M, I, X> {
    /// Sessions before the first line. `Err`: memory ran out, and the theory is dropped.
    pub fn new(alloc: Global, checked: Checked) -> Result<Sessions<T, M, I, X>, NoMemory>
        ensures theory { IfOk result (λ sessions. sessions.theory ≡ checked) }
        ensures empty { IfOk result (λ sessions. sessions.state ≡ empty_state) }
    {
        let chronicle = Chronicle::new(alloc, checked)?;
        let drafts = Drafts::new(alloc)?;
        Ok(Sessions {
            chronicle,
            last: NO_CHANGE,
            drafts,
            alloc,
        })
    }

    /// Answers a line: does what it says and writes its reply, if it has one. Of a reply that can't be written whole a first
    /// part is written, and what the line changed stands. Only a well-formed `assert`, `retract`, `commit` or `asof` takes memory.
    pub fn handle<K: Sink, L: Ledger>(
        &mut self,
        line: Line<'_>,
        out: &mut K,
        steps: &mut Steps<L>,
    ) -> Handled
        ensures theory { self.new.theory ≡ self.old.theory }
        ensures handled { (shown : List ℕ) → ShowsLine line.entry shown →
            IsHandled K.stands (record { theory = self.old.theory; spelt = T.spelt; canon = T.canon }) result shown self.old.state self.new.state out.old out.new }
        ensures failed { result ≡ Handled.WriteFault → Rose (K.faults out.old) (K.faults out.new) }
        ensures quiet { (result ≡ Handled.WriteFault) ⊎ (K.faults out.new ≡ K.faults out.old) }
        ensures counted { K.faults out.old ≤ K.faults out.new }
        ensures steps { (shown : List ℕ) → ShowsLine line.entry shown →
            steps.new ≤ steps.old + most_line_steps (record { theory = self.old.theory; spelt = T.spelt; canon = T.canon }) self.old.viewed self.old.state shown }
    {
        match line {
            Line::Text(bytes) => self.handle_parsed(read_command(bytes), out, steps),
            Line::Long => reply(None, &Answer::LongLine, out),
        }
    }

    /// Answers a line that is read.
    fn handle_parsed<K: Sink, L: Ledger>(
        &mut self,
        parsed: Parsed<'_, T>,
        out: &mut K,
        steps: &mut Steps<L>,
    ) -> Handled
        requires named { AreNamed (plain_command T.rank parsed.command) }
        requires session { IfSome parsed.session (λ session. session < SESSIONS) }
        ensures theory { self.new.theory ≡ self.old.theory }
        ensures handled { (line : List ℕ) → is_long line ≡ false → plain_parsed T.rank parsed.entry ≡ parsed_of T.spelt line →
            IsHandled K.stands (record { theory = self.old.theory; spelt = T.spelt; canon = T.canon }) result line self.old.state self.new.state out.old out.new }
        ensures failed { result ≡ Handled.WriteFault → Rose (K.faults out.old) (K.faults out.new) }
        ensures quiet { (result ≡ Handled.WriteFault) ⊎ (K.faults out.new ≡ K.faults out.old) }
        ensures counted { K.faults out.old ≤ K.faults out.new }
        ensures steps { steps.new ≤ steps.old + most_parsed_steps self.old.theory self.old.viewed self.old.state (plain_parsed T.rank parsed.entry) }
    {
        let prefix = parsed.session;
        match self.answer(prefix.unwrap_or(0), parsed.command, steps) {
            Told::Nothing => Handled::Go,
            Told::Answer(answer) => reply(prefix, &answer, out),
            Told::Query(query) => self.ask(prefix, &query, out, steps),
            Told::Past { count, query } => self.ask_ready(prefix, count, &query, out, steps),
            Told::Compared(comparison) => self.compare(prefix, &comparison, out),
        }
    }

    /// Does what a command of a session says, and tells its answer, or the query or the comparison that it asks for. What a query of
    /// the past asks about is ready then.
    fn answer<'a, L: Ledger>(
        &mut self,
        session: u8,
        command: Command<'a, T>,
        steps: &mut Steps<L>,
    ) -> Told<'a, T>
        requires named { AreNamed (plain_command T.rank command) }
        requires session { session < SESSIONS }
        ensures theory { self.new.theory ≡ self.old.theory }
        ensures told { IsTold T.rank (record { theory = self.old.theory; spelt = T.spelt; canon = T.canon }) session self.old.state (plain_command T.rank command.entry) result self.new.state }
        ensures ready { IsReadyFor result self.new }
        ensures steps { steps.new ≤ steps.old + most_change_steps self.old.theory session self.old.viewed self.old.state (plain_command T.rank command.entry) }
    {
        let last = self.last;
        match command {
            Command::Silent => Told::Nothing,
            Command::Bad => Told::Answer(Answer::Syntax),
            Command::Assert { id, at, event } => {
                Told::Answer(self.assert(session, id, at, &event, steps))
            }
            Command::Retract { id } => Told::Answer(self.retract(session, id, steps)),
            Command::Begin => Told::Answer(self.begin(session)),
            Command::Commit => Told::Answer(self.commit(session, steps)),
            Command::Abort => Told::Answer(self.abort(session)),
            Command::Ask(query) => Told::Query(query),
            Command::Past { count, query } => self.ask_past(count, query, steps),
            Command::Pairs {
                left,
                relation,
                right,
            } => Told::Compared(Comparison::Pairs {
                left,
                relation,
                right,
            }),
            Command::Related {
                left,
                at,
                relation,
                right,
            } => Told::Compared(Comparison::Related {
                left,
                at,
                relation,
                right,
            }),
            Command::Last => Told::Answer(Answer::Last(last)),
            Command::Quit => Told::Answer(Answer::Bye),
        }
    }
}
