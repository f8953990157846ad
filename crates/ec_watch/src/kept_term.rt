//! A term that is kept in place.
ghost use Rattle.std.specs.Prelude.{◌≡◌, ◌≤◌, IsTrue, length};
ghost use Rattle.ec_terms.specs.Term.{ground_of, names_are_names, term_cmp};
ghost use Rattle.ec_terms.specs.declared.limits.TheConstants.{MOST_ARGS};

use arrayvec::ArrayVec;
use ec_terms::{Arg, ArgRefs, GroundRef, MOST_ARGS, Name, order};
use std::cmp::Ordering;
use std::marker::Model;

/// A ground term with all its arguments in place, so that to keep it takes no memory.
#[derive(Drop)]
pub struct KeptTerm {
    name: Name,
    args: ArrayVec<Arg, MOST_ARGS>,
}

impl Model for KeptTerm {
    ghost use Rattle.std.specs.Prelude.{◌≤◌, length};
    ghost use Rattle.ec_terms.specs.declared.ground.Ground.{Ground};
    ghost use Rattle.ec_terms.specs.declared.limits.TheConstants.{MOST_ARGS};

    ghost Value = { Ground };

    ghost view = { λ t. record { name = t.name; args = t.args.items } };

    ghost invariant = { λ t. length t.args.items ≤ MOST_ARGS };
}

impl KeptTerm {
    /// The term, with names of its own.
    #[tactic(auto, unfolding(ec_terms::specs::Term::names_are_names))]
    pub(crate) fn of(term: &GroundRef<'_>) -> KeptTerm
        requires named { IsTrue (names_are_names (ground_of term.now)) }
        ensures { result ≡ ground_of term.now }
    {
        let mut args = ArrayVec::new();
        for arg in term.args.as_slice() {
            args.push(arg.to_arg());
        }
        match Name::from_bytes(term.name) {
            Some(name) => KeptTerm { name, args },
            None => unreachable!(),
        }
    }

    /// The same term, borrowed.
    #[tactic(auto, unfolding(ec_terms::specs::Term::names_are_names))]
    pub(crate) fn borrow(&self) -> GroundRef<'_>
        ensures same { ground_of result ≡ self.now }
        ensures names { IsTrue (names_are_names self.now) }
    {
        let mut args = ArgRefs::new();
        for arg in self.args.as_slice() {
            args.push(arg.borrow());
        }
        GroundRef {
            name: self.name.as_bytes(),
            args,
        }
    }

    /// How the term stands to another in term order.
    pub(crate) fn order(&self, other: &GroundRef<'_>) -> Ordering
        ensures { result ≡ term_cmp self.now (ground_of other.now) }
    {
        order(&self.borrow(), other)
    }
}
