//! The laws of currency, each the contract of a function.
ghost use Rattle.ec_axioms.specs.Laws.{CurrencyIsTheSolution, PastIsClosed};
ghost use Rattle.ec_axioms.specs.Plain.{HoldsWhereCurrent};

/// The currency of a history agrees, at every time, with the timelines whose contexts read it, and any
/// currency that does is this one.
pub fn currency_is_the_solution_law()
    ensures { CurrencyIsTheSolution }
{}

/// What is current at a time follows from the events strictly before it, and so does whether an entry of an
/// event there or before is active. What takes effect at the time follows from the events up to and with it.
pub fn past_is_closed_law()
    ensures { PastIsClosed }
{}

/// A property holds at a time exactly when it is current there and the first break from there on, if there
/// is one, terminates it.
pub fn holds_where_current_law()
    ensures { HoldsWhereCurrent }
{}
