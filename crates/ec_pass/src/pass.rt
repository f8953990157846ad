//! A pass over the events of a history, in their order.
ghost use Rattle.std.specs.Prelude.{◌≡◌, [], ◌∷◌, ◌++◌, ◌||◌, ◌&&◌, List, Some, false, int_lt, map, All, IsTrue, IfOk, OnOk};
ghost use Rattle.ec_terms.specs.declared.ground.Ground.{Ground};
ghost use Rattle.ec_terms.specs.Domain.{is_strong};
ghost use Rattle.ec_terms.specs.Matchable.{IsMatchable};
ghost use Rattle.ec_terms.specs.Term.{ground_of, names_are_names};
ghost use Rattle.ec_axioms.specs.Calculus.{PlainEvent, holds_at, is_current};
ghost use Rattle.ec_axioms.specs.Changes.{is_history};
ghost use Rattle.ec_axioms.specs.Events.{event_of};
ghost use Rattle.ec_changes.specs.LiveLaws.{ListsInitials};
ghost use Rattle.ec_parts.specs.Initials.{IsPlainInitial};
ghost use Rattle.ec_store.specs.Table.{term_at};
ghost use Rattle.ec_numbered.specs.PropSet.{has_number};
ghost use Rattle.ec_cone.specs.Cone.{cone_effects, cone_rules};
ghost use Rattle.ec_cone.specs.Label.{bit_of};
ghost use Rattle.ec_pass.specs.Holdings.{judged};
ghost use Rattle.ec_pass.specs.Outcomes.{outcome_of};
ghost use Rattle.ec_pass.specs.Passing.{IsComing, IsPassing};
ghost use Rattle.ec_pass.specs.Present.{IsReady};
ghost use Rattle.ec_pass.specs.Settled.{excludes_any};

use crate::holding::{Holding, held, judge, look_up};
use crate::present::Present;
use ec_axioms::{Event, Steps};
use ec_cone::Cone;
use ec_context::Rules;
use ec_lists::NoMemory;
use ec_moment::Moment;
use ec_terms::{GroundRef, PropId, Theory};
use std::alloc::Global;
use std::sync::ledger::Ledger;

/// A pass: the instant that it has come to, what is known there, and what is known of one property and one time.
#[derive(Drop)]
pub(crate) struct Pass<T> {
    pub(crate) p: PropId,
    pub(crate) at: T,
    pub(crate) instant: T,
    pub(crate) present: Present,
    pub(crate) holding: Holding,
}

impl<T: Moment> Pass<T> {
    /// A pass that stands before all events, at a first instant that none of them is before.
    pub(crate) fn begin(
        alloc: Global,
        theory: &Theory,
        p: &GroundRef<'_>,
        at: T,
        first: T,
    ) -> Result<Pass<T>, NoMemory>
        requires matchable { IsMatchable theory.now }
        requires plain { All IsPlainInitial theory.now.initials }
        requires named { IsTrue (names_are_names (ground_of p.now)) }
        ensures passing { IfOk result (λ pass. (events : List PlainEvent) → IsTrue (is_history events) → ListsInitials theory.now
            → IsComing events events (T.rank at) (T.rank first) (T.rank first) → IsPassing T.rank theory.now events [] events (ground_of p.now) pass) }
        ensures at { IfOk result (λ pass. pass.at ≡ at) }
    {
        let mut present = Present::begin(alloc, theory)?;
        let p = present.know(p)?;
        let reached = !first.order(&at).is_lt();
        let holding = look_up(Holding::Before, reached, present.current.contains(p));
        Ok(Pass {
            p,
            at,
            instant: first,
            present,
            holding,
        })
    }

    /// What is known of the property once all events of the present instant were looked at.
    fn judged(&self, theory: &Theory) -> Holding
        requires matchable { IsMatchable theory.now }
        requires ready { IsReady theory.now self.now.present self.now.p }
        ensures { (q : Ground) → term_at self.now.p.0 self.now.present.props ≡ Some q → result ≡ judged self.now.holding
            (outcome_of (has_number self.now.p.0 self.now.present.ended.items)
            (excludes_any theory.now self.now.present.props self.now.present.started.items self.now.p
            || (is_strong theory.now q && has_number self.now.p.0 self.now.present.started.items))) }
    {
        match self.holding {
            Holding::Waits => judge(self.holding, self.present.outcome(theory, self.p)),
            Holding::Before | Holding::Known(_) => self.holding,
        }
    }

    /// Goes on to a later instant.
    fn leave(&mut self, theory: &Theory, next: T) -> Result<(), NoMemory>
        requires matchable { IsMatchable theory.now }
        requires ready { IsReady theory.now self.old.present self.old.p }
        requires later { IsTrue (int_lt (T.rank self.old.instant) (T.rank next)) }
        ensures passing { OnOk result ((events done left : List PlainEvent) (q : Ground) → IsPassing T.rank theory.now events done left q self.old
            → IsComing events left (T.rank self.old.at) (T.rank self.old.instant) (T.rank next) → IsPassing T.rank theory.now events done left q self.new) }
        ensures ready { OnOk result (IsReady theory.now self.new.present self.new.p) }
        ensures instant { OnOk result (self.new.instant ≡ next) }
        ensures at { self.new.at ≡ self.old.at }
        ensures p { self.new.p ≡ self.old.p }
    {
        let judged = self.judged(theory);
        self.present.settle(theory)?;
        let reached = !next.order(&self.at).is_lt();
        self.holding = look_up(judged, reached, self.present.current.contains(self.p));
        self.instant = next;
        Ok(())
    }

    /// Goes on to an instant, unless it is there already.
    fn reach(&mut self, theory: &Theory, next: T) -> Result<(), NoMemory>
        requires matchable { IsMatchable theory.now }
        requires ready { IsReady theory.now self.old.present self.old.p }
        ensures passing { OnOk result ((events done left : List PlainEvent) (q : Ground) → IsPassing T.rank theory.now events done left q self.old
            → IsComing events left (T.rank self.old.at) (T.rank self.old.instant) (T.rank next) → IsPassing T.rank theory.now events done left q self.new) }
        ensures ready { OnOk result (IsReady theory.now self.new.present self.new.p) }
        ensures reached { OnOk result (int_lt (T.rank self.new.instant) (T.rank next) ≡ false) }
        ensures at { self.new.at ≡ self.old.at }
        ensures p { self.new.p ≡ self.old.p }
    {
        if self.instant.order(&next).is_lt() {
            self.leave(theory, next)?;
        }
        Ok(())
    }

    /// Takes in the next event, and tells the bits of its entries in a cone, in place of what `bits` held.
    pub(crate) fn meet<L: Ledger>(
        &mut self,
        rules: &Rules,
        cone: &Cone,
        event: &Event<T>,
        bits: &mut Vec<u8>,
        steps: &mut Steps<L>,
    ) -> Result<(), NoMemory>
        requires ready { IsReady rules.now self.old.present self.old.p }
        ensures passing { OnOk result ((events done left : List PlainEvent) (q : Ground)
            → IsPassing T.rank rules.now events done (event_of T.rank event.now ∷ left) q self.old
            → IsPassing T.rank rules.now events (done ++ event_of T.rank event.now ∷ []) left q self.new) }
        ensures bits { OnOk result ((events done left : List PlainEvent) (q : Ground)
            → IsPassing T.rank rules.now events done (event_of T.rank event.now ∷ left) q self.old → cone.now ≡ cone_rules rules.now q
            → bits.new.items ≡ map (bit_of (is_current rules.now events)) (cone_effects rules.now q (event_of T.rank event.now))) }
        ensures at { self.new.at ≡ self.old.at }
    {
        self.reach(rules.theory(), event.at)?;
        self.present.take_in(rules, cone, event, bits, steps)?;
        Ok(())
    }

    /// Whether the property holds at the time, once all events were taken in.
    pub(crate) fn finish(&mut self, theory: &Theory) -> Result<bool, NoMemory>
        requires matchable { IsMatchable theory.now }
        requires ready { IsReady theory.now self.old.present self.old.p }
        ensures { IfOk result (λ holds. (events done : List PlainEvent) (q : Ground) → IsPassing T.rank theory.now events done [] q self.old
            → holds ≡ holds_at theory.now events q (T.rank self.old.at)) }
    {
        let at = self.at;
        self.reach(theory, at)?;
        Ok(held(self.judged(theory)))
    }
}
