//! What the present instant does to a property.
ghost use Rattle.std.specs.Prelude.{◌≡◌, ◌&&◌, ◌||◌, ℕ, Some, IsTrue, IsSome};
ghost use Rattle.ec_terms.specs.declared.ground.Ground.{Ground};
ghost use Rattle.ec_terms.specs.Domain.{are_exclusive as exclusive, is_strong as strong};
ghost use Rattle.ec_terms.specs.Matchable.{IsMatchable};
ghost use Rattle.ec_store.specs.Table.{prop_at, term_at};
ghost use Rattle.ec_numbered.specs.PropSet.{has_number};
ghost use Rattle.ec_exclusive.specs.Neighbours.{exclusive_at};
ghost use Rattle.ec_pass.specs.Outcomes.{outcome_of};
ghost use Rattle.ec_pass.specs.Settled.{excludes_any};

use crate::present::Present;
use ec_terms::{PropId, Theory, are_exclusive, is_strong};

/// What an instant does to a property that is current there.
#[derive(Clone, Copy)]
pub(crate) enum Outcome {
    /// It is terminated: it holds up to the instant.
    Terminated,
    /// It is broken otherwise: by a property that excludes it, or by itself, as it is strong.
    Broken,
    /// Nothing breaks it.
    Unbroken,
}

/// Whether a property is one of some.
fn is_among(props: &[PropId], p: PropId) -> bool
    ensures { result ≡ has_number p.0 props.now }
{
    props.iter().any(|q| q.0 == p.0)
}

impl Present {
    /// Whether two kept properties are exclusive.
    fn are_exclusive(&self, theory: &Theory, p: PropId, q: PropId) -> bool
        requires matchable { IsMatchable theory.now }
        requires kept { IsSome (prop_at p.0 self.now.props) }
        requires other_kept { IsSome (prop_at q.0 self.now.props) }
        ensures { result ≡ exclusive_at theory.now self.now.props p q }
    {
        are_exclusive(theory, &self.props.ground(p), &self.props.ground(q))
    }

    /// Whether something that started is exclusive to a property.
    fn excludes(&self, theory: &Theory, p: PropId) -> bool
        requires matchable { IsMatchable theory.now }
        requires kept { IsSome (prop_at p.0 self.now.props) }
        requires started { (n : ℕ) → IsTrue (has_number n self.now.started.items) → IsSome (prop_at n self.now.props) }
        ensures { result ≡ excludes_any theory.now self.now.props self.now.started.items p }
    {
        for q in self.started.as_slice() {
            if self.are_exclusive(theory, *q, p) {
                return true;
            }
        }
        false
    }

    /// What the present instant does to a property, once all its events were looked at.
    pub(crate) fn outcome(&self, theory: &Theory, p: PropId) -> Outcome
        requires matchable { IsMatchable theory.now }
        requires kept { IsSome (prop_at p.0 self.now.props) }
        requires started { (n : ℕ) → IsTrue (has_number n self.now.started.items) → IsSome (prop_at n self.now.props) }
        ensures { (q : Ground) → term_at p.0 self.now.props ≡ Some q → result ≡ outcome_of (has_number p.0 self.now.ended.items)
            (excludes_any theory.now self.now.props self.now.started.items p || (strong theory.now q && has_number p.0 self.now.started.items)) }
    {
        if is_among(self.ended.as_slice(), p) {
            return Outcome::Terminated;
        }
        let starts_again = is_strong(theory, &self.props.ground(p))
            && is_among(self.started.as_slice(), p);
        if self.excludes(theory, p) || starts_again {
            return Outcome::Broken;
        }
        Outcome::Unbroken
    }
}
