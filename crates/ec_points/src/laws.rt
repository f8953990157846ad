//! The laws of points and changes, each the contract of a function that does nothing.
ghost use Rattle.ec_points.specs.Changes.{ChangesAreMade};
ghost use Rattle.ec_points.specs.CurrencyLaws.{CurrencyIsOfThePast, PastIsKnownByTimes};
ghost use Rattle.ec_points.specs.Table.{PointTable, TellsCurrency};

use ec_moment::Moment;

/// Where the marks of a property are those of its term in a history, and it is initial as its term is, it is
/// current by the points exactly when its term is current in that history.
pub fn points_tell_currency<T: Moment>()
    ensures { (points : PointTable T) → TellsCurrency T.rank points }
{}

/// Currency up to a time depends on the marks before that time alone.
pub fn currency_is_of_the_past<T: Moment>()
    ensures { CurrencyIsOfThePast T.rank }
{}

/// The marks of a row before a time are known by the mark at each time before it.
pub fn past_is_known_by_times<T: Moment>()
    ensures { PastIsKnownByTimes T.rank }
{}

/// After a change, the mark of a property at a time is the new one, where the change has one for it there, and else
/// the one that was there.
pub fn changes_are_made<T: Moment>()
    ensures { ChangesAreMade T.rank }
{}
