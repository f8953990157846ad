//! The present before all events.
ghost use Rattle.std.specs.Prelude.{◌≡◌, [], ◌∷◌, ◌++◌, List, All, Some, IsTrue, IfOk, OnOk};
ghost use Rattle.ec_terms.specs.declared.ground.Ground.{Ground};
ghost use Rattle.ec_terms.specs.declared.theory.Theory.{Theory};
ghost use Rattle.ec_terms.specs.Matchable.{IsMatchable};
ghost use Rattle.ec_terms.specs.Term.{ground_of, names_are_names};
ghost use Rattle.ec_axioms.specs.Links.{initial_properties};
ghost use Rattle.ec_store.specs.Table.{is_in_order, term_at};
ghost use Rattle.ec_context.specs.Widened.{KeepsAll};
ghost use Rattle.ec_exclusive.specs.CurrentProps.{HasForms};
ghost use Rattle.ec_parts.specs.Initials.{IsPlainInitial, initial_term};
ghost use Rattle.ec_pass.specs.Present.{IsFirst};

use crate::present::Present;
use crate::settling::enter_each;
use ec_exclusive::CurrentProps;
use ec_lists::NoMemory;
use ec_store::PropTable;
use ec_terms::{Binding, GroundRef, Initial, PropId, Theory, fill_ref};
use std::alloc::Global;

impl Present {
    /// The present before all events, where nothing is current.
    fn empty(alloc: Global) -> Result<Present, NoMemory>
        ensures { IfOk result (λ present. (theory : Theory) → IsFirst theory [] present) }
    {
        Ok(Present {
            props: PropTable::new(alloc)?,
            current: CurrentProps::new(alloc),
            started: Vec::new(alloc),
            ended: Vec::new(alloc),
            added: Vec::new(alloc),
            alloc,
        })
    }

    /// Keeps a term, and tells its number.
    pub(crate) fn know(&mut self, term: &GroundRef<'_>) -> Result<PropId, NoMemory>
        requires named { IsTrue (names_are_names (ground_of term.now)) }
        ensures kept { KeepsAll self.old.props self.new.props }
        ensures order { OnOk result (IsTrue (is_in_order self.new.props)) }
        ensures current { self.new.current ≡ self.old.current }
        ensures started { self.new.started ≡ self.old.started }
        ensures ended { self.new.ended ≡ self.old.ended }
        ensures term { IfOk result (λ p. term_at p.0 self.new.props ≡ Some (ground_of term.now)) }
    {
        let p = self.props.intern(term)?;
        let _ = self.props.len(); // no term stands under two numbers
        Ok(p)
    }

    /// Makes an initial property current.
    fn enter_initial(&mut self, theory: &Theory, initial: &Initial) -> Result<(), NoMemory>
        requires matchable { IsMatchable theory.now }
        requires plain { IsPlainInitial initial.now }
        requires forms { HasForms theory.now self.old.props self.old.current }
        ensures { OnOk result ((terms : List Ground) → IsFirst theory.now terms self.old → IsFirst theory.now (terms ++ initial_term initial.now ∷ []) self.new) }
    {
        let p = self.know(&fill_ref(&initial.prop, &Binding::new()))?;
        enter_each(&mut self.current, theory, &self.props, &[p])?;
        Ok(())
    }

    /// The present before all events: what is initial is current.
    pub(crate) fn begin(alloc: Global, theory: &Theory) -> Result<Present, NoMemory>
        requires matchable { IsMatchable theory.now }
        requires plain { All IsPlainInitial theory.now.initials }
        ensures { IfOk result (λ present. IsFirst theory.now (initial_properties theory.now) present) }
    {
        let mut present = Present::empty(alloc)?;
        for initial in theory.initials.as_slice() {
            present.enter_initial(theory, initial)?;
        }
        Ok(present)
    }
}
