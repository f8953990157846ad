//! The next event of the present instant.
ghost use Rattle.std.specs.Prelude.{◌≡◌, [], ◌∷◌, ◌++◌, List, map, OnOk};
ghost use Rattle.ec_terms.specs.declared.ground.Ground.{Ground};
ghost use Rattle.ec_terms.specs.Matchable.{IsMatchable};
ghost use Rattle.ec_axioms.specs.Calculus.{PlainEvent, is_current};
ghost use Rattle.ec_axioms.specs.Events.{event_of};
ghost use Rattle.ec_context.specs.Widened.{KeepsAll};
ghost use Rattle.ec_cone.specs.Cone.{cone_effects, cone_rules};
ghost use Rattle.ec_cone.specs.Label.{bit_of};
ghost use Rattle.ec_pass.specs.Present.{IsAt};

use crate::present::Present;
use ec_axioms::{Event, Steps};
use ec_cone::Cone;
use ec_context::{Rules, entries_of};
use ec_lists::NoMemory;
use ec_moment::Moment;
use std::sync::ledger::Ledger;

impl Present {
    /// Takes in an event of the present instant, and tells the bits of its entries in a cone, in place of what `bits`
    /// held. All entries are evaluated, not those of the cone alone, and each reads what was current before the
    /// instant; so the order of its events has no effect. `Err`: memory ran out.
    pub(crate) fn take_in<T: Moment, L: Ledger>(
        &mut self,
        rules: &Rules,
        cone: &Cone,
        event: &Event<T>,
        bits: &mut Vec<u8>,
        steps: &mut Steps<L>,
    ) -> Result<(), NoMemory>
        requires matchable { IsMatchable rules.now }
        ensures at { OnOk result ((events done : List PlainEvent) → IsAt rules.now events done (T.rank event.now.at) self.old
            → IsAt rules.now events (done ++ event_of T.rank event.now ∷ []) (T.rank event.now.at) self.new) }
        ensures kept { OnOk result (KeepsAll self.old.props self.new.props) }
        ensures bits { OnOk result ((events done : List PlainEvent) (p : Ground) → IsAt rules.now events done (T.rank event.now.at) self.old
            → cone.now ≡ cone_rules rules.now p
            → bits.new.items ≡ map (bit_of (is_current rules.now events)) (cone_effects rules.now p (event_of T.rank event.now))) }
    {
        let entries = entries_of(self.alloc, rules, event, &mut self.props, &mut self.added)?;
        let _ = self.props.len(); // no term stands under two numbers
        bits.clear();
        self.look_at(entries.as_slice(), event.at, cone, bits, steps)
    }
}
