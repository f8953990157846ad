//! What is wrong with a theory.
use std::error::Error;
use std::fmt;

/// Of what there is too much.
#[derive(Clone, Copy, Debug, PartialEq, Eq)]
pub enum Many {
    /// Over 1,024 rules.
    Rules,
    /// Over 64 rules for events of one name and number of arguments.
    EventRules,
    /// Over 16 tests in a rule.
    Tests,
    /// Over 16 literals in a rule.
    Literals,
    /// Over 16 different variables in a clause.
    Variables,
    /// Over 256 exclusive declarations.
    Exclusives,
    /// Over 1,024 strong declarations.
    Strongs,
    /// Over 1,024 initial properties.
    Initials,
    /// Over one time declaration.
    Times,
}

/// The first fault of a theory. The first number is that of its clause, from 1 over all clauses.
#[derive(Clone, Copy, Debug, PartialEq, Eq)]
pub enum CheckFault {
    /// A pattern has over 8 arguments, or a strong declaration's number is not from 0 to 8.
    Arity(u32),
    TooMany(Many, u32),
    /// `_` stands in a head, a test, a literal or an initial property.
    AnyInHead(u32),
    /// A variable of a head, a test or a literal does not stand in the event, or one stands in an initial
    /// property. The second number is the least such variable.
    Unbound(u32, u32),
}

impl fmt::Display for CheckFault {
    fn fmt<W: fmt::Write>(&self, f: &mut fmt::Formatter<W>) -> fmt::Result {
        match self {
            CheckFault::Arity(_) => write!(f, "too many arguments"),
            CheckFault::TooMany(_, _) => write!(f, "too many of a kind"),
            CheckFault::AnyInHead(_) => write!(f, "`_` outside an event"),
            CheckFault::Unbound(_, _) => write!(f, "a variable that the event does not have"),
        }
    }
}

impl Error for CheckFault {}

impl CheckFault {
    ghost use Rattle.std.specs.Prelude.{◌≡◌};
    ghost use Rattle.ec_check.specs.Faults.{clause_of};

    /// The number of the clause that the fault is in.
    #[tactic(auto, unfolding(crate::specs::Faults::clause_of))]
    pub fn clause(&self) -> u32
        ensures { result ≡ clause_of self.now }
    {
        match self {
            CheckFault::Arity(clause) => *clause,
            CheckFault::TooMany(_, clause) => *clause,
            CheckFault::AnyInHead(clause) => *clause,
            CheckFault::Unbound(clause, _) => *clause,
        }
    }
}
