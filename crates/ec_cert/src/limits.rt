//! The limits that an event file keeps.
ghost use Rattle.std.specs.Prelude.{◌≡◌, true, false, List, [], Ok, Err, IfOk};
ghost use Rattle.ec_terms.specs.declared.theory.Theory.{Theory};
ghost use Rattle.ec_axioms.specs.Calculus.{PlainEvent};
ghost use Rattle.ec_axioms.specs.Changes.{has_id, is_history, with_event};
ghost use Rattle.ec_axioms.specs.Events.{event_of};
ghost use Rattle.ec_cert.specs.EventFile.{few_mentions};
ghost use Rattle.ec_cert.specs.Reading.{AreLimitsOf, IsLetInOrNot, MayBeLetIn, is_limit, keeps_all, theory_under};
ghost use Rattle.ec_replies.specs.Updates.{with_few_mentions};

use crate::event_fault::{EventFault, EventName};
use ec_axioms::{Cut, Event};
use ec_batch::{Stop, come_in};
use ec_check::Checked;
use ec_context::Rules;
use ec_lists::NoMemory;
use ec_moment::Moment;
use ec_parts::{Parts, Tally, boxed, new_parts};
use ec_rows::{MarkRow, SpanRow, TimeRow};
use std::alloc::Global;

/// Which limits are kept, under a theory.
#[derive(Drop)]
pub(crate) enum Limits<T: Moment, M: MarkRow<T>, I: SpanRow<T>, X: TimeRow<T>> {
    /// The one on events alone.
    OfEvents(Rules),
    /// All: mentions and links are counted by the tables of the events so far.
    All(Box<Parts<T, M, I, X>>, Tally),
}

/// The name of a limit on mentions or links.
fn limit_name(cut: &Cut) -> EventName
    requires limit { is_limit cut.now ≡ true }
    ensures name { (theory : Theory) (events : List PlainEvent) → with_few_mentions theory events ≡ Err cut.now → few_mentions theory events ≡ Err result }
{
    match cut {
        Cut::FullMentions => EventName::FullMentions,
        Cut::FullLinks => EventName::FullLinks,
        Cut::Duplicate(_) | Cut::Unknown(_) | Cut::FullEvents => unreachable!(),
    }
}

impl<T: Moment, M: MarkRow<T>, I: SpanRow<T>, X: TimeRow<T>> Limits<T, M, I, X> {
    /// The limits of a file, before its first line.
    pub(crate) fn new(alloc: Global, checked: Checked, all_limits: bool) -> Result<Self, NoMemory>
        ensures theory { IfOk result (λ limits. theory_under limits ≡ checked) }
        ensures all { IfOk result (λ limits. keeps_all limits ≡ all_limits) }
        ensures none { IfOk result (AreLimitsOf T.rank []) }
    {
        let rules = Rules::new(alloc, checked)?;
        if !all_limits {
            return Ok(Limits::OfEvents(rules));
        }
        let (parts, tally) = new_parts(alloc, rules)?;
        Ok(Limits::All(boxed(alloc, parts)?, tally))
    }

    /// The same limits for one event more, in the line of this number. `Err`: a limit refuses it,
    /// or memory ran out.
    pub(crate) fn with_event(
        self,
        alloc: Global,
        line: u32,
        event: &Event<T>,
    ) -> Result<Self, EventFault>
        requires may { MayBeLetIn T.rank (event_of T.rank event.now) self }
        ensures let_in { (events : List PlainEvent) → is_history events ≡ true → has_id event.now.id events ≡ false → AreLimitsOf T.rank events self →
            IsLetInOrNot T.rank line self (with_event (event_of T.rank event.now) events) result }
    {
        match self {
            Limits::OfEvents(rules) => Ok(Limits::OfEvents(rules)),
            Limits::All(mut parts, mut tally) => {
                match come_in(alloc, &mut parts, &mut tally, event) {
                    Ok(()) => Ok(Limits::All(parts, tally)),
                    Err(Stop::Refused(cut)) => Err(EventFault::At(line, limit_name(&cut))),
                    Err(Stop::Memory(none)) => Err(EventFault::from(none)),
                }
            }
        }
    }

    /// The rules of the theory, once the limits are no longer wanted.
    pub(crate) fn into_rules(self) -> Rules
        ensures { result ≡ theory_under self }
    {
        match self {
            Limits::OfEvents(rules) => rules,
            Limits::All(parts, _) => Box::into_inner(parts).checked,
        }
    }
}
