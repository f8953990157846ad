//! The laws of the order and of the equality of arguments and terms, each the contract of a
//! function that does nothing.

ghost use Rattle.std.specs.Cmp.{IsTotalOrder};
ghost use Rattle.ec_terms.specs.OrderLaws.{IsEqualOnlyIfSame, IsEquality};
ghost use Rattle.ec_terms.specs.Term.{arg_cmp, arg_eq, term_cmp, term_eq};

/// Arguments are in a total order that says "equal" of the same arguments alone.
pub fn arguments_are_ordered()
    ensures total { IsTotalOrder arg_cmp }
    ensures exact { IsEqualOnlyIfSame arg_cmp }
{}

/// Terms are in a total order that says "equal" of the same terms alone.
pub fn terms_are_ordered()
    ensures total { IsTotalOrder term_cmp }
    ensures exact { IsEqualOnlyIfSame term_cmp }
{}

/// The tests of equality pass two arguments, or two terms, exactly when they are the same.
pub fn equality_is_decided()
    ensures arguments { IsEquality arg_eq }
    ensures terms { IsEquality term_eq }
{}
